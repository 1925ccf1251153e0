//! What a program reads of what a master tells it.
ghost use Rattle.std.specs.Prelude.{◌≡◌, ◌<◌, ◌^◌, length, Ok, Err, IfOk, IfErr};
ghost use Rattle.collections.specs.Results.{Gives};
ghost use Rattle.codec.specs.Forms.{Form, written, read_whole};
ghost use Rattle.codec.specs.Fields.{word, block};
ghost use Rattle.hosting.specs.Frames.{all_of};
ghost use Rattle.hosting.specs.Told.{told, told_behind};

use crate::frames::{fields_of, read_moment};
use crate::kinds::{FLAGS, TOLD_KINDS, ToldKind, WIRE_FAULTS};
use crate::standing::MasterCounts;
use crate::tellings::MasterFrame;
use byteorder::{BigEndian, ByteOrder};
use codec::{WireFault, read_out};
use collections::Bytes;
use std::alloc::Global;
use tags_cell::ClientNumber;

/// What is told in all of these bytes, without the number in front; or what is wrong with them, the first from the left.
pub fn read_told(alloc: Global, bytes: &[u8]) -> Result<MasterFrame, WireFault>
    ensures told { Gives WireFault.NoMemory result (read_whole told bytes.now) }
    ensures back { IfOk result (λ x. written told x ≡ Ok bytes.now) }
{
    match fields_of(bytes) {
        Ok(rest) => read_fields(alloc, rest),
        Err(fault) => Err(fault),
    }
}

// The kind of what is told, and its fields.
#[tactic(auto, unfolding(crate::specs::Told::told))]
fn read_fields(alloc: Global, bytes: &[u8]) -> Result<MasterFrame, WireFault>
    requires { length bytes.now < 2 ^ 32 }
    ensures { Gives WireFault.NoMemory result (all_of (told.read bytes.now)) }
{
    let [place, rest @ ..] = bytes else {
        return Err(WireFault::Cut);
    };
    let Some(kind) = TOLD_KINDS.get(usize::from(*place)) else {
        return Err(WireFault::BadKind);
    };
    read_fields_of(alloc, *kind, rest)
}

fn read_fields_of(alloc: Global, kind: ToldKind, bytes: &[u8]) -> Result<MasterFrame, WireFault>
    requires { length bytes.now < 2 ^ 32 }
    ensures { Gives WireFault.NoMemory result (all_of (told_behind kind bytes.now)) }
{
    match kind {
        ToldKind::Line => read_line(alloc, bytes),
        ToldKind::Message => read_message(alloc, bytes),
        ToldKind::Bad => read_bad(bytes),
        ToldKind::End => read_end(bytes),
        ToldKind::Counts => read_counts(bytes),
        ToldKind::Recovers => Ok(MasterFrame::Recovers(read_moment(bytes)?)),
        ToldKind::Waits => Ok(MasterFrame::Waits(read_moment(bytes)?)),
        ToldKind::Touches => read_name(alloc, bytes),
        ToldKind::Awaited => Ok(MasterFrame::Awaited(read_moment(bytes)?)),
    }
}

// The number of a text's bytes in four, and the text.
fn read_text(alloc: Global, bytes: &[u8]) -> Result<Bytes, WireFault>
    ensures { Gives WireFault.NoMemory result (all_of (block.read bytes.now)) }
{
    if bytes.len() < 4 {
        return Err(WireFault::Cut);
    }
    let (front, text) = bytes.split_at(4);
    let count = BigEndian::read_u32(front) as usize;
    if text.len() < count {
        return Err(WireFault::Cut);
    }
    if text.len() > count {
        return Err(WireFault::Extra);
    }
    Ok(Bytes::copy_of(alloc, text)?)
}

// All bytes of a line.
fn read_line(alloc: Global, bytes: &[u8]) -> Result<MasterFrame, WireFault>
    requires { length bytes.now < 2 ^ 32 }
    ensures { Gives WireFault.NoMemory result (all_of (told_behind ToldKind.Line bytes.now)) }
{
    match codec::read_line(alloc, bytes) {
        Ok(printed) => Ok(MasterFrame::Line(printed)),
        Err(fault) => Err(fault),
    }
}

fn read_name(alloc: Global, bytes: &[u8]) -> Result<MasterFrame, WireFault>
    ensures { Gives WireFault.NoMemory result (all_of (told_behind ToldKind.Touches bytes.now)) }
{
    match read_text(alloc, bytes) {
        Ok(text) => Ok(MasterFrame::Touches(text)),
        Err(fault) => Err(fault),
    }
}

// A client, and after it all bytes of a message.
fn read_message(alloc: Global, bytes: &[u8]) -> Result<MasterFrame, WireFault>
    requires { length bytes.now < 2 ^ 32 }
    ensures { Gives WireFault.NoMemory result (all_of (told_behind ToldKind.Message bytes.now)) }
{
    if bytes.len() < 8 {
        return Err(WireFault::Cut);
    }
    let (front, back) = bytes.split_at(8);
    let Some(client) = ClientNumber::new(BigEndian::read_u64(front)) else {
        return Err(WireFault::BadNumber);
    };
    match read_out(alloc, back) {
        Ok(message) => Ok(MasterFrame::Message(client, message)),
        Err(fault) => Err(fault),
    }
}

// The place of a fault among all of them.
fn read_bad(bytes: &[u8]) -> Result<MasterFrame, WireFault>
    ensures { result ≡ all_of (told_behind ToldKind.Bad bytes.now) }
{
    let [place, rest @ ..] = bytes else {
        return Err(WireFault::Cut);
    };
    let Some(fault) = WIRE_FAULTS.get(usize::from(*place)) else {
        return Err(WireFault::BadKind);
    };
    if !rest.is_empty() {
        return Err(WireFault::Extra);
    }
    Ok(MasterFrame::Bad(*fault))
}

// Whether there is a moment, and the moment.
#[tactic(auto, unfolding(codec::specs::Fields::optional_word))]
fn read_end(bytes: &[u8]) -> Result<MasterFrame, WireFault>
    ensures { result ≡ all_of (told_behind ToldKind.End bytes.now) }
{
    let [place, rest @ ..] = bytes else {
        return Err(WireFault::Cut);
    };
    match FLAGS.get(usize::from(*place)) {
        Some(true) => Ok(MasterFrame::End(Some(read_moment(rest)?))),
        Some(false) if rest.is_empty() => Ok(MasterFrame::End(None)),
        Some(false) => Err(WireFault::Extra),
        None => Err(WireFault::BadKind),
    }
}

// A word, and what stands after it.
#[tactic(auto, unfolding(codec::specs::Fields::word))]
fn next_word(bytes: &[u8]) -> Result<(u64, &[u8]), WireFault>
    ensures word { IfOk result (λ r. word.read bytes.now ≡ Ok (r.0, r.1.now)) }
    ensures short { IfErr result (λ e. word.read bytes.now ≡ Err e) }
{
    if bytes.len() < 8 {
        return Err(WireFault::Cut);
    }
    let (front, back) = bytes.split_at(8);
    Ok((BigEndian::read_u64(front), back))
}

// Five words, and nothing after them.
fn read_counts(bytes: &[u8]) -> Result<MasterFrame, WireFault>
    ensures { result ≡ all_of (told_behind ToldKind.Counts bytes.now) }
{
    let (epoch, bytes) = next_word(bytes)?;
    let (sessions, bytes) = next_word(bytes)?;
    let (nodes, bytes) = next_word(bytes)?;
    let (rights, bytes) = next_word(bytes)?;
    let (changes, bytes) = next_word(bytes)?;
    if !bytes.is_empty() {
        return Err(WireFault::Extra);
    }
    Ok(MasterFrame::Counts(MasterCounts {
        epoch,
        sessions,
        nodes,
        rights,
        changes,
    }))
}
