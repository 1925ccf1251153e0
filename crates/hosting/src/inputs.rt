//! Frames that are read from a stream.
ghost use Rattle.std.specs.Prelude.{◌≡◌, ◌<◌, ◌≤◌, length, take, IfOk, IfErr, OnOk};
ghost use Rattle.std.specs.Io.KnownBytes.{Consumes, IsAtEnd};
ghost use Rattle.collections.specs.Results.{Gives};
ghost use Rattle.hosting.specs.Streams.{Drops, Fits, in_buffer, frame_of, FoundBehind, FoundBlock, FoundFrame};

use crate::blocks::BLOCK_LIMIT;
use crate::frames::{Frame, read_frame};
use crate::stops::StreamStop;
use byteorder::{BigEndian, ByteOrder};
use codec::WireFault;
use std::alloc::Global;
use std::io::{ErrorKind, Read};

/// The next frame of a stream, or what is wrong with it; none at the end. The buffer holds a block.
pub(crate) fn next_frame<I: Read>(
    alloc: Global,
    reader: &mut I,
    buffer: &mut [u8],
) -> Result<Option<Result<Frame, WireFault>>, StreamStop>
    requires { length buffer.old ≡ 1048576 }
    ensures found { IfOk result (λ found. FoundFrame found (I.remaining reader.old) (I.remaining reader.new)) }
    ensures only { IfErr result (λ stop. stop ≡ StreamStop.Unread) }
{
    let found = next_block(reader, buffer)?;
    match found {
        Some(block) => Ok(Some(frame_in(alloc, block, buffer))),
        None => Ok(None),
    }
}

// The frame of a block that stands in front in the buffer, or what is wrong with it.
fn frame_in(
    alloc: Global,
    block: Result<usize, WireFault>,
    buffer: &[u8],
) -> Result<Frame, WireFault>
    requires { Fits block buffer.now }
    ensures { Gives WireFault.NoMemory result (frame_of (in_buffer block buffer.now)) }
{
    match block {
        Ok(count) => read_frame(alloc, &buffer[..count]),
        Err(fault) => Err(fault),
    }
}

// The next block, which then stands in front in the buffer, as so many bytes; or what is wrong with it.
fn next_block<I: Read>(
    reader: &mut I,
    buffer: &mut [u8],
) -> Result<Option<Result<usize, WireFault>>, StreamStop>
    requires { length buffer.old ≡ 1048576 }
    ensures found { IfOk result (λ found. FoundBlock found buffer.new (I.remaining reader.old) (I.remaining reader.new)) }
    ensures only { IfErr result (λ stop. stop ≡ StreamStop.Unread) }
{
    let mut head = [0; 4];
    let found = fill(reader, &mut head)?;
    if found == 0 {
        return Ok(None);
    }
    if found < 4 {
        return Ok(Some(Err(WireFault::Cut)));
    }
    let block = block_behind(reader, BigEndian::read_u32(&head) as usize, buffer)?;
    Ok(Some(block))
}

// A block of so many bytes.
fn block_behind<I: Read>(
    reader: &mut I,
    count: usize,
    buffer: &mut [u8],
) -> Result<Result<usize, WireFault>, StreamStop>
    requires { length buffer.old ≡ 1048576 }
    ensures found { IfOk result (λ block. FoundBehind count block buffer.new (I.remaining reader.old) (I.remaining reader.new)) }
    ensures only { IfErr result (λ stop. stop ≡ StreamStop.Unread) }
{
    if count > BLOCK_LIMIT {
        skip(reader, count, buffer)?;
        return Ok(Err(WireFault::TooLong));
    }
    let found = fill(reader, &mut buffer[..count])?;
    if found < count {
        return Ok(Err(WireFault::Cut));
    }
    Ok(Ok(count))
}

// Passes over so many bytes, or over all that are left.
fn skip<I: Read>(reader: &mut I, count: usize, buffer: &mut [u8]) -> Result<(), StreamStop>
    requires { length buffer.old ≡ 1048576 }
    ensures dropped { OnOk result (Drops count (I.remaining reader.old) (I.remaining reader.new)) }
    ensures only { IfErr result (λ stop. stop ≡ StreamStop.Unread) }
{
    let mut left = count;
    while left > 0 {
        let part = left.min(BLOCK_LIMIT);
        let found = fill(reader, &mut buffer[..part])?;
        if found < part {
            return Ok(());
        }
        left -= part;
    }
    Ok(())
}

// Fills the buffer from its front, and gives how many bytes there were; fewer at the end alone.
fn fill<I: Read>(reader: &mut I, buffer: &mut [u8]) -> Result<usize, StreamStop>
    ensures bound { IfOk result (λ count. count ≤ length buffer.new) }
    ensures bytes { IfOk result (λ count. Consumes (I.remaining reader.old) (I.remaining reader.new) (take count buffer.new)) }
    ensures end { IfOk result (λ count. count < length buffer.old → IsAtEnd (I.remaining reader.new)) }
    ensures only { IfErr result (λ stop. stop ≡ StreamStop.Unread) }
{
    let mut at = 0;
    for _turn in 0..u64::MAX {
        if at >= buffer.len() {
            return Ok(at);
        }
        match read_some(reader, &mut buffer[at..]) {
            Ok(0) => return Ok(at),
            Ok(count) => at += count,
            Err(stop) => return Err(stop),
        }
    }
    Err(StreamStop::Unread)
}

// One read, again where a signal interrupts it.
fn read_some<I: Read>(reader: &mut I, buffer: &mut [u8]) -> Result<usize, StreamStop>
    ensures bound { IfOk result (λ count. count ≤ length buffer.new) }
    ensures bytes { IfOk result (λ count. Consumes (I.remaining reader.old) (I.remaining reader.new) (take count buffer.new)) }
    ensures end { IfOk result (λ count. count ≡ 0 → 0 < length buffer.old → IsAtEnd (I.remaining reader.new)) }
    ensures only { IfErr result (λ stop. stop ≡ StreamStop.Unread) }
{
    for _turn in 0..u64::MAX {
        match reader.read(buffer) {
            Ok(count) => return Ok(count),
            Err(error) => {
                if error.kind() != ErrorKind::Interrupted {
                    return Err(StreamStop::Unread);
                }
            }
        }
    }
    Err(StreamStop::Unread)
}
