//! One question, and its answer.
ghost use Rattle.std.specs.Prelude.{◌≡◌, ◌≤◌, length, take, IfSome, IfNone};
ghost use Rattle.std.specs.Io.KnownBytes.{Appends, Consumes};
ghost use Rattle.rows_remote.specs.Asking.{Hears, HearsIn, IsSilence, IsUnheard, LosesSome, LosesShort, LosesCounted, kind_told, short_told};

use crate::answers::read_answer;
use crate::frames::KeeperAnswer;
use byteorder::{BigEndian, ByteOrder};
use codec::VERSION;
use output::write_bytes;
use std::alloc::Global;
use std::io::{ErrorKind, Read, Write};

// The most bytes that are read at once.
const PART: usize = 0x1000;

// How many bytes an answer without rows has.
const SHORT: usize = 2;

// Writes a question, and waits for its answer. None where it can't be written, or no answer can be read.
pub(crate) fn ask<I: Read, W: Write>(
    alloc: Global,
    writer: &mut W,
    reader: &mut I,
    question: &[u8],
) -> Option<KeeperAnswer>
    ensures sent { IfSome result (λ told. Appends (W.contents writer.old) (W.contents writer.new) question.now) }
    ensures heard { IfSome result (λ told. Hears (I.remaining reader.old) told (I.remaining reader.new)) }
    ensures silent { IfNone result (IsSilence question.now (W.contents writer.old) (W.contents writer.new) (I.remaining reader.old) (I.remaining reader.new)) }
{
    match write_bytes(writer, question) {
        Ok(()) => hear(alloc, reader),
        Err(_) => None,
    }
}

// The answer that stands next. None where none does, or it can't be read.
fn hear<I: Read>(alloc: Global, reader: &mut I) -> Option<KeeperAnswer>
    ensures heard { IfSome result (λ told. Hears (I.remaining reader.old) told (I.remaining reader.new)) }
    ensures none { IfNone result (IsUnheard (I.remaining reader.old) (I.remaining reader.new)) }
{
    let mut head = [0; 4];
    if fill(reader, &mut head) < head.len() {
        return None;
    }
    hear_counted(alloc, reader, BigEndian::read_u32(&head) as usize)
}

// An answer of so many bytes, of which the number in front was read.
fn hear_counted<I: Read>(alloc: Global, reader: &mut I, count: usize) -> Option<KeeperAnswer>
    ensures heard { IfSome result (λ told. HearsIn count (I.remaining reader.old) told (I.remaining reader.new)) }
    ensures none { IfNone result (LosesCounted count (I.remaining reader.old) (I.remaining reader.new)) }
{
    if count == SHORT {
        hear_short(reader)
    } else {
        hear_long(alloc, reader, count)
    }
}

// An answer without rows, of which the number in front was read. It takes no memory.
fn hear_short<I: Read>(reader: &mut I) -> Option<KeeperAnswer>
    ensures heard { IfSome result (λ told. HearsIn 2 (I.remaining reader.old) told (I.remaining reader.new)) }
    ensures none { IfNone result (LosesShort (I.remaining reader.old) (I.remaining reader.new)) }
{
    let mut block = [0; SHORT];
    if fill(reader, &mut block) < block.len() {
        return None;
    }
    short_answer(&block)
}

// The answer without rows that these bytes are.
fn short_answer(bytes: &[u8]) -> Option<KeeperAnswer>
    ensures { result ≡ short_told bytes.now }
{
    match bytes {
        [VERSION, kind] => kind_answer(*kind),
        _ => None,
    }
}

fn kind_answer(kind: u8) -> Option<KeeperAnswer>
    ensures { result ≡ kind_told kind }
{
    match kind {
        1 => Some(KeeperAnswer::Kept),
        2 => Some(KeeperAnswer::Refused),
        _ => None,
    }
}

// An answer of any number of bytes, of which the number in front was read.
fn hear_long<I: Read>(alloc: Global, reader: &mut I, count: usize) -> Option<KeeperAnswer>
    ensures heard { IfSome result (λ told. HearsIn count (I.remaining reader.old) told (I.remaining reader.new)) }
    ensures none { IfNone result (LosesSome (I.remaining reader.old) (I.remaining reader.new)) }
{
    match read_bytes(alloc, reader, count) {
        Some(block) => read_answer(alloc, block.as_slice()).ok(),
        None => None,
    }
}

// So many bytes. It takes memory for those that come.
fn read_bytes<I: Read>(alloc: Global, reader: &mut I, count: usize) -> Option<Vec<u8>>
    ensures count { IfSome result (λ bytes. length bytes.items ≡ count) }
    ensures bytes { IfSome result (λ bytes. Consumes (I.remaining reader.old) (I.remaining reader.new) bytes.items) }
    ensures none { IfNone result (LosesSome (I.remaining reader.old) (I.remaining reader.new)) }
{
    let mut bytes = Vec::new(alloc);
    let mut room = [0; PART];
    while bytes.len() < count {
        let part = (count - bytes.len()).min(PART);
        if fill(reader, &mut room[..part]) < part {
            return None;
        }
        if bytes.extend_from_slice(&room[..part]).is_err() {
            return None;
        }
    }
    Some(bytes)
}

// Fills the buffer from its front as far as bytes come, and gives how many came.
fn fill<I: Read>(reader: &mut I, buffer: &mut [u8]) -> usize
    ensures bound { result ≤ length buffer.new }
    ensures room { length buffer.new ≡ length buffer.old }
    ensures bytes { Consumes (I.remaining reader.old) (I.remaining reader.new) (take result buffer.new) }
{
    let mut at = 0;
    for _turn in 0..u64::MAX {
        if at >= buffer.len() {
            return at;
        }
        match read_some(reader, &mut buffer[at..]) {
            0 => return at,
            count => at += count,
        }
    }
    at
}

// One read, again where a signal interrupts it: how many bytes came, none at the end or where it can't be read.
fn read_some<I: Read>(reader: &mut I, buffer: &mut [u8]) -> usize
    ensures bound { result ≤ length buffer.new }
    ensures room { length buffer.new ≡ length buffer.old }
    ensures bytes { Consumes (I.remaining reader.old) (I.remaining reader.new) (take result buffer.new) }
{
    for _turn in 0..u64::MAX {
        match reader.read(buffer) {
            Ok(count) => return count,
            Err(error) => {
                if error.kind() != ErrorKind::Interrupted {
                    return 0;
                }
            }
        }
    }
    0
}
