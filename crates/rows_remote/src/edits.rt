//! Edits as bytes.
ghost use Rattle.std.specs.Prelude.{OnOk};
ghost use Rattle.collections.specs.Results.{Gives};
ghost use Rattle.codec.specs.Forms.{Appends, Form, Reads, read_all};
ghost use Rattle.rows_remote.specs.Forms.{node_put, generation_set, edit, edit_behind, all_of_edits};
ghost use Rattle.rows_remote.specs.Frames.{edit_at};

use crate::holders::{
    put_keyed, put_lock_key, put_numbered, read_lock_key, read_lock_row, read_session,
};
use crate::inputs::AnswerInput;
use crate::kinds::{EDIT_KINDS, EditKind};
use crate::nodes::{put_node, read_node};
use crate::outputs::{put_byte, put_count, put_word};
use crate::texts::{put_name, read_name};
use codec::WireFault;
use collections::Items;
use names_cell::Name;
use node_core::Node;
use rows_cell::Edit;
use std::alloc::{AllocError, Global};

#[tactic(auto, unfolding(crate::specs::Forms::node_put))]
fn put_node_at(out: &mut Vec<u8>, name: &Name, node: &Node) -> Result<(), AllocError>
    ensures { OnOk result (Appends node_put (name.now, node.now) out.old.items out.new.items) }
{
    put_name(out, name)?;
    put_node(out, node)
}

#[tactic(auto, unfolding(crate::specs::Forms::generation_set))]
fn put_generation(out: &mut Vec<u8>, name: &Name, generation: u64) -> Result<(), AllocError>
    ensures { OnOk result (Appends generation_set (name.now, generation) out.old.items out.new.items) }
{
    put_name(out, name)?;
    put_word(out, generation)
}

#[tactic(auto, unfolding(crate::specs::Forms::edit))]
fn put_edit(out: &mut Vec<u8>, done: &Edit) -> Result<(), AllocError>
    ensures { OnOk result (Appends edit done.now out.old.items out.new.items) }
{
    match done {
        Edit::Epoch(epoch) => {
            put_byte(out, 0)?;
            put_word(out, *epoch)
        }
        Edit::NextInstance(next) => {
            put_byte(out, 1)?;
            put_word(out, *next)
        }
        Edit::PutNode(name, node) => {
            put_byte(out, 2)?;
            put_node_at(out, name, node)
        }
        Edit::LockGeneration(name, generation) => {
            put_byte(out, 3)?;
            put_generation(out, name, *generation)
        }
        Edit::RemoveNode(name) => {
            put_byte(out, 4)?;
            put_name(out, name)
        }
        Edit::PutSession(client, session) => {
            put_byte(out, 5)?;
            put_numbered(out, *client, session)
        }
        Edit::PutLock(key, row) => {
            put_byte(out, 6)?;
            put_keyed(out, *key, *row)
        }
        Edit::RemoveLock(key) => {
            put_byte(out, 7)?;
            put_lock_key(out, *key)
        }
        Edit::RemoveSession(client) => {
            put_byte(out, 8)?;
            put_word(out, *client)
        }
        Edit::EndedBelow(next) => {
            put_byte(out, 9)?;
            put_word(out, *next)
        }
    }
}

#[tactic(auto, unfolding(crate::specs::Forms::all_of_edits))]
pub(crate) fn put_edits(out: &mut Vec<u8>, edits: &[Edit]) -> Result<(), AllocError>
    ensures { OnOk result (Appends all_of_edits edits.now out.old.items out.new.items) }
{
    put_count(out, edits.len())?;
    for item in edits {
        put_edit(out, item)?;
    }
    Ok(())
}

/// The edit at the front of these bytes, and how many of them are its own; or what is wrong with them, the first from the left.
/// What stands after isn't looked at.
pub fn read_edit(alloc: Global, bytes: &[u8]) -> Result<(Edit, usize), WireFault>
    ensures { Gives WireFault.NoMemory result (edit_at bytes.now) }
{
    let mut input = AnswerInput::new(bytes);
    let done = edit_in(alloc, &mut input)?;
    Ok((done, bytes.len().saturating_sub(input.len())))
}

#[tactic(auto, unfolding(crate::specs::Forms::edit))]
fn edit_in(alloc: Global, input: &mut AnswerInput) -> Result<Edit, WireFault>
    ensures { Reads (λ x. x) result input.new (edit.read input.old) }
{
    let kind = input.choice(&EDIT_KINDS)?;
    edit_of(alloc, input, kind)
}

#[tactic(auto, unfolding(crate::specs::Forms::node_put, crate::specs::Forms::generation_set, crate::specs::Forms::numbered, crate::specs::Forms::keyed))]
fn edit_of(alloc: Global, input: &mut AnswerInput, kind: EditKind) -> Result<Edit, WireFault>
    ensures { Reads (λ x. x) result input.new (edit_behind kind input.old) }
{
    Ok(match kind {
        EditKind::Epoch => Edit::Epoch(input.word()?),
        EditKind::NextInstance => Edit::NextInstance(input.word()?),
        EditKind::PutNode => Edit::PutNode(read_name(alloc, input)?, read_node(alloc, input)?),
        EditKind::LockGeneration => Edit::LockGeneration(read_name(alloc, input)?, input.word()?),
        EditKind::RemoveNode => Edit::RemoveNode(read_name(alloc, input)?),
        EditKind::PutSession => Edit::PutSession(input.word()?, read_session(alloc, input)?),
        EditKind::PutLock => Edit::PutLock(read_lock_key(input)?, read_lock_row(input)?),
        EditKind::RemoveLock => Edit::RemoveLock(read_lock_key(input)?),
        EditKind::RemoveSession => Edit::RemoveSession(input.word()?),
        EditKind::EndedBelow => Edit::EndedBelow(input.word()?),
    })
}

#[tactic(auto, unfolding(crate::specs::Forms::all_of_edits))]
pub(crate) fn read_edits(alloc: Global, input: &mut AnswerInput) -> Result<Items<Edit>, WireFault>
    ensures { Reads (λ x. x) result input.new (all_of_edits.read input.old) }
{
    let count = input.count()?;
    edits_in(alloc, input, count)
}

// So many of them. It takes memory for those that stand there, and none for a count that is too high.
fn edits_in(alloc: Global, input: &mut AnswerInput, count: u32) -> Result<Items<Edit>, WireFault>
    ensures { Reads (λ x. x) result input.new (read_all edit.read count input.old) }
{
    let mut items = Vec::new(alloc);
    for _ in 0..count {
        let item = edit_in(alloc, input)?;
        items.push(item)?;
    }
    Ok(Items::from_vec(items))
}
