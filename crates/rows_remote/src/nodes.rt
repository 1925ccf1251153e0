//! Nodes as bytes.
ghost use Rattle.std.specs.Prelude.{OnOk};
ghost use Rattle.codec.specs.Forms.{Reads, Appends, Form};
ghost use Rattle.codec.specs.Fields.{kind, life};
ghost use Rattle.codec.specs.Outs.{node};

use crate::inputs::AnswerInput;
use crate::outputs::{put_block, put_byte, put_word};
use crate::texts::{put_component, read_bytes, read_component};
use codec::WireFault;
use node_core::{Kind, Life, Node};
use std::alloc::{AllocError, Global};

const KINDS: [Kind; 2] = [Kind::File, Kind::Directory];

#[tactic(auto, unfolding(codec::specs::Fields::kind))]
fn read_kind(input: &mut AnswerInput) -> Result<Kind, WireFault>
    ensures { Reads (λ x. x) result input.new (kind.read input.old) }
{
    input.choice(&KINDS)
}

#[tactic(auto, unfolding(codec::specs::Fields::kind))]
fn put_kind(out: &mut Vec<u8>, chosen: Kind) -> Result<(), AllocError>
    ensures { OnOk result (Appends kind chosen out.old.items out.new.items) }
{
    match chosen {
        Kind::File => put_byte(out, 0),
        Kind::Directory => put_byte(out, 1),
    }
}

const LIVES: [Life; 2] = [Life::Permanent, Life::Ephemeral];

#[tactic(auto, unfolding(codec::specs::Fields::life))]
fn read_life(input: &mut AnswerInput) -> Result<Life, WireFault>
    ensures { Reads (λ x. x) result input.new (life.read input.old) }
{
    input.choice(&LIVES)
}

#[tactic(auto, unfolding(codec::specs::Fields::life))]
fn put_life(out: &mut Vec<u8>, chosen: Life) -> Result<(), AllocError>
    ensures { OnOk result (Appends life chosen out.old.items out.new.items) }
{
    match chosen {
        Life::Permanent => put_byte(out, 0),
        Life::Ephemeral => put_byte(out, 1),
    }
}

#[tactic(auto, unfolding(codec::specs::Outs::node))]
pub(crate) fn read_node(alloc: Global, input: &mut AnswerInput) -> Result<Node, WireFault>
    ensures { Reads (λ x. x) result input.new (node.read input.old) }
{
    Ok(Node {
        kind: read_kind(input)?,
        instance: input.word()?,
        content_generation: input.word()?,
        acl_generation: input.word()?,
        read: read_component(alloc, input)?,
        write: read_component(alloc, input)?,
        change: read_component(alloc, input)?,
        life: read_life(input)?,
        content: read_bytes(alloc, input)?,
    })
}

#[tactic(auto, unfolding(codec::specs::Outs::node))]
pub(crate) fn put_node(out: &mut Vec<u8>, seen: &Node) -> Result<(), AllocError>
    ensures { OnOk result (Appends node seen.now out.old.items out.new.items) }
{
    put_kind(out, seen.kind)?;
    put_word(out, seen.instance)?;
    put_word(out, seen.content_generation)?;
    put_word(out, seen.acl_generation)?;
    put_component(out, &seen.read)?;
    put_component(out, &seen.write)?;
    put_component(out, &seen.change)?;
    put_life(out, seen.life)?;
    put_block(out, seen.content.as_slice())
}
