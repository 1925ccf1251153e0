//! The bytes of what is asked: they are written with their number in front, and read without it.
ghost use Rattle.std.specs.Prelude.{◌≡◌, Ok, IfOk, OnOk};
ghost use Rattle.collections.specs.Results.{Gives};
ghost use Rattle.codec.specs.Forms.{Appends, Form, Reads, written, read_whole};
ghost use Rattle.rows_remote.specs.declared.frames.KeeperQuestion.TheVariants as asks;
ghost use Rattle.rows_remote.specs.Frames.{asked, asked_behind, framed};

use crate::edits::{put_edits, read_edits};
use crate::frames::KeeperQuestion;
use crate::inputs::{AnswerInput, begin};
use crate::kinds::{ASKED_KINDS, AskedKind};
use crate::outputs::{in_front, put_byte, put_word};
use codec::{VERSION, WireFault};
use collections::{Bytes, Items};
use rows_cell::Edit;
use std::alloc::{AllocError, Global};

/// In the bytes of a commit its first edit stands after so many.
pub const EDITS_AT: u32 = 14;

/// The bytes by which all rows are asked for.
pub fn write_load(alloc: Global) -> Result<Bytes, WireFault>
    ensures { Gives WireFault.NoMemory result (framed asked asks.Load) }
{
    let mut out = Vec::new(alloc);
    put_byte(&mut out, VERSION)?;
    put_load(&mut out)?;
    in_front(alloc, out)
}

#[tactic(auto, unfolding(crate::specs::Frames::asked))]
fn put_load(out: &mut Vec<u8>) -> Result<(), AllocError>
    ensures { OnOk result (Appends asked asks.Load out.old.items out.new.items) }
{
    put_byte(out, 0)
}

/// The bytes by which it is asked that these edits be done, as the commit of this number. Refused are 2^32 bytes or more.
pub fn write_commit(alloc: Global, number: u64, edits: &Items<Edit>) -> Result<Bytes, WireFault>
    ensures { Gives WireFault.NoMemory result (framed asked (asks.Commit number edits.now)) }
{
    let mut out = Vec::new(alloc);
    put_byte(&mut out, VERSION)?;
    put_commit(&mut out, number, edits)?;
    in_front(alloc, out)
}

#[tactic(auto, unfolding(crate::specs::Frames::asked, crate::specs::Frames::change))]
fn put_commit(out: &mut Vec<u8>, number: u64, edits: &Items<Edit>) -> Result<(), AllocError>
    ensures { OnOk result (Appends asked (asks.Commit number edits.now) out.old.items out.new.items) }
{
    put_byte(out, 1)?;
    put_word(out, number)?;
    put_edits(out, edits.as_slice())
}

/// What is asked by all of these bytes, without the number in front; or what is wrong with them, the first from the left. It takes
/// memory for what stands there, whatever a count or a length in the bytes says.
pub fn read_asked(alloc: Global, bytes: &[u8]) -> Result<KeeperQuestion, WireFault>
    ensures asked { Gives WireFault.NoMemory result (read_whole asked bytes.now) }
    ensures back { IfOk result (λ question. written asked question ≡ Ok bytes.now) }
{
    let mut input = begin(bytes)?;
    let question = read_body(alloc, &mut input)?;
    if !input.is_empty() {
        return Err(WireFault::Extra);
    }
    Ok(question)
}

#[tactic(auto, unfolding(crate::specs::Frames::asked))]
fn read_body(alloc: Global, input: &mut AnswerInput) -> Result<KeeperQuestion, WireFault>
    ensures { Reads (λ x. x) result input.new (asked.read input.old) }
{
    let kind = input.choice(&ASKED_KINDS)?;
    read_body_of(alloc, input, kind)
}

#[tactic(auto, unfolding(crate::specs::Frames::change))]
fn read_body_of(
    alloc: Global,
    input: &mut AnswerInput,
    kind: AskedKind,
) -> Result<KeeperQuestion, WireFault>
    ensures { Reads (λ x. x) result input.new (asked_behind kind input.old) }
{
    Ok(match kind {
        AskedKind::Load => KeeperQuestion::Load,
        AskedKind::Commit => KeeperQuestion::Commit(input.word()?, read_edits(alloc, input)?),
    })
}
