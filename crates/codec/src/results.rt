//! What a call gives.
ghost use Rattle.std.specs.Prelude.{◌≡◌, true, OnOk};
ghost use Rattle.codec.specs.Forms.{Reads, Appends, Form, read_all};
ghost use Rattle.codec.specs.Fields.{component};
ghost use Rattle.codec.specs.Outs.{new_handle, node, may_have, is_view, view, stat, components, has_view, call_result, result_behind};

use crate::choices::{put_kind, put_life, read_kind, read_life};
use crate::faults::WireFault;
use crate::inputs::Input;
use crate::kinds::{RESULT_KINDS, ResultKind};
use crate::numbers::{put_ordinal, read_ordinal};
use crate::outputs::{put_block, put_byte, put_count, put_word};
use crate::refusals::{put_fault, read_fault};
use crate::texts::{put_component, read_bytes, read_component, read_handle};
use collections::Items;
use names_cell::Component;
use node_core::{Kind, Listing, Node, Stat, View};
use std::alloc::{AllocError, Global};
use tags_cell::{CallResult, NewHandle};

#[tactic(auto, unfolding(crate::specs::Outs::new_handle))]
fn read_new_handle(alloc: Global, input: &mut Input) -> Result<NewHandle, WireFault>
    ensures { Reads (λ x. x) result input.new (new_handle.read input.old) }
{
    Ok(NewHandle {
        bytes: read_handle(alloc, input)?,
        instance: read_ordinal(input)?,
        life: read_life(input)?,
    })
}

#[tactic(auto, unfolding(crate::specs::Outs::new_handle))]
fn put_new_handle(out: &mut Vec<u8>, handle: &NewHandle) -> Result<(), AllocError>
    ensures { OnOk result (Appends new_handle handle.now out.old.items out.new.items) }
{
    put_block(out, handle.bytes.as_slice())?;
    put_ordinal(out, handle.instance)?;
    put_life(out, handle.life)
}

#[tactic(auto, unfolding(crate::specs::Outs::node))]
pub(crate) fn read_node(alloc: Global, input: &mut Input) -> Result<Node, WireFault>
    ensures { Reads (λ x. x) result input.new (node.read input.old) }
{
    Ok(Node {
        kind: read_kind(input)?,
        instance: input.word()?,
        content_generation: input.word()?,
        acl_generation: input.word()?,
        read: read_component(alloc, input)?,
        write: read_component(alloc, input)?,
        change: read_component(alloc, input)?,
        life: read_life(input)?,
        content: read_bytes(alloc, input)?,
    })
}

#[tactic(auto, unfolding(crate::specs::Outs::node))]
pub(crate) fn put_node(out: &mut Vec<u8>, seen: &Node) -> Result<(), AllocError>
    ensures { OnOk result (Appends node seen.now out.old.items out.new.items) }
{
    put_kind(out, seen.kind)?;
    put_word(out, seen.instance)?;
    put_word(out, seen.content_generation)?;
    put_word(out, seen.acl_generation)?;
    put_component(out, &seen.read)?;
    put_component(out, &seen.write)?;
    put_component(out, &seen.change)?;
    put_life(out, seen.life)?;
    put_block(out, seen.content.as_slice())
}

// Whether a node of this kind may have so many children.
fn may_have(kind: Kind, children: &Listing) -> bool
    ensures { result ≡ may_have kind children.now }
{
    match kind {
        Kind::File => children.as_slice().is_empty(),
        Kind::Directory => true,
    }
}

#[tactic(auto, unfolding(crate::specs::Outs::view))]
fn read_view(alloc: Global, input: &mut Input) -> Result<View, WireFault>
    ensures { Reads (λ x. x) result input.new (view.read input.old) }
{
    let node = read_node(alloc, input)?;
    let children = Listing::of(read_components(alloc, input)?)?;
    if !may_have(node.kind, &children) {
        return Err(WireFault::BadNumber);
    }
    Ok(View { node, children })
}

#[tactic(auto, unfolding(crate::specs::Outs::view))]
fn put_view(out: &mut Vec<u8>, seen: &View) -> Result<(), AllocError>
    requires { is_view seen.now ≡ true }
    ensures { OnOk result (Appends view seen.now out.old.items out.new.items) }
{
    put_node(out, &seen.node)?;
    put_components(out, seen.children.as_slice())
}

#[tactic(auto, unfolding(crate::specs::Outs::stat))]
pub(crate) fn read_stat(alloc: Global, input: &mut Input) -> Result<Stat, WireFault>
    ensures { Reads (λ x. x) result input.new (stat.read input.old) }
{
    Ok(Stat {
        kind: read_kind(input)?,
        instance: input.word()?,
        content_generation: input.word()?,
        acl_generation: input.word()?,
        lock_generation: input.word()?,
        read: read_component(alloc, input)?,
        write: read_component(alloc, input)?,
        change: read_component(alloc, input)?,
        life: read_life(input)?,
        length: input.word()?,
    })
}

#[tactic(auto, unfolding(crate::specs::Outs::stat))]
pub(crate) fn put_stat(out: &mut Vec<u8>, told: &Stat) -> Result<(), AllocError>
    ensures { OnOk result (Appends stat told.now out.old.items out.new.items) }
{
    put_kind(out, told.kind)?;
    put_word(out, told.instance)?;
    put_word(out, told.content_generation)?;
    put_word(out, told.acl_generation)?;
    put_word(out, told.lock_generation)?;
    put_component(out, &told.read)?;
    put_component(out, &told.write)?;
    put_component(out, &told.change)?;
    put_life(out, told.life)?;
    put_word(out, told.length)
}

#[tactic(auto, unfolding(crate::specs::Outs::components))]
pub(crate) fn read_components(
    alloc: Global,
    input: &mut Input,
) -> Result<Items<Component>, WireFault>
    ensures { Reads (λ x. x) result input.new (components.read input.old) }
{
    let count = input.count()?;
    components_of(alloc, input, count)
}

// So many of them. It takes memory for those that stand there, and none for a count that is too high.
fn components_of(
    alloc: Global,
    input: &mut Input,
    count: u32,
) -> Result<Items<Component>, WireFault>
    ensures { Reads (λ x. x) result input.new (read_all component.read count input.old) }
{
    let mut items = Vec::new(alloc);
    for _ in 0..count {
        let item = read_component(alloc, input)?;
        items.push(item)?;
    }
    Ok(Items::from_vec(items))
}

#[tactic(auto, unfolding(crate::specs::Outs::components))]
pub(crate) fn put_components(out: &mut Vec<u8>, items: &[Component]) -> Result<(), AllocError>
    ensures { OnOk result (Appends components items.now out.old.items out.new.items) }
{
    put_count(out, items.len())?;
    for item in items {
        put_component(out, item)?;
    }
    Ok(())
}

#[tactic(auto, unfolding(crate::specs::Outs::call_result))]
pub(crate) fn read_result(alloc: Global, input: &mut Input) -> Result<CallResult, WireFault>
    ensures { Reads (λ x. x) result input.new (call_result.read input.old) }
{
    let kind = input.choice(&RESULT_KINDS)?;
    read_result_of(alloc, input, kind)
}

fn read_result_of(
    alloc: Global,
    input: &mut Input,
    kind: ResultKind,
) -> Result<CallResult, WireFault>
    ensures { Reads (λ x. x) result input.new (result_behind kind input.old) }
{
    Ok(match kind {
        ResultKind::Opened => CallResult::Opened(read_new_handle(alloc, input)?),
        ResultKind::Closed => CallResult::Closed,
        ResultKind::Viewed => CallResult::Viewed(read_view(alloc, input)?),
        ResultKind::Stated => CallResult::Stated(read_stat(alloc, input)?),
        ResultKind::Listed => CallResult::Listed(read_view(alloc, input)?),
        ResultKind::Sequencer => CallResult::Sequencer(read_bytes(alloc, input)?),
        ResultKind::Done => CallResult::Done,
        ResultKind::Refused => CallResult::Refused(read_fault(input)?),
    })
}

// Whether it has bytes.
pub(crate) fn has_view(given: &CallResult) -> bool
    ensures { result ≡ has_view given.now }
{
    match given {
        CallResult::Viewed(view) => may_have(view.node.kind, &view.children),
        CallResult::Listed(view) => may_have(view.node.kind, &view.children),
        _ => true,
    }
}

#[tactic(auto, unfolding(crate::specs::Outs::call_result))]
pub(crate) fn put_result(out: &mut Vec<u8>, given: &CallResult) -> Result<(), AllocError>
    requires { has_view given.now ≡ true }
    ensures { OnOk result (Appends call_result given.now out.old.items out.new.items) }
{
    match given {
        CallResult::Opened(handle) => {
            put_byte(out, 0)?;
            put_new_handle(out, handle)
        }
        CallResult::Closed => put_byte(out, 1),
        CallResult::Viewed(view) => {
            put_byte(out, 2)?;
            put_view(out, view)
        }
        CallResult::Stated(stat) => {
            put_byte(out, 3)?;
            put_stat(out, stat)
        }
        CallResult::Listed(view) => {
            put_byte(out, 4)?;
            put_view(out, view)
        }
        CallResult::Sequencer(bytes) => {
            put_byte(out, 5)?;
            put_block(out, bytes.as_slice())
        }
        CallResult::Done => put_byte(out, 6),
        CallResult::Refused(fault) => {
            put_byte(out, 7)?;
            put_fault(out, fault)
        }
    }
}
