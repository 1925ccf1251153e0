//! The frames of a stream are answered one after the other.
ghost use Rattle.std.specs.Prelude.{◌≡◌, ◌≤◌, length, IfOk};
ghost use Rattle.hosting.specs.Seats.{hosted};
ghost use Rattle.hosting.specs.Streams.{Ends, TakesTurn, IsWritten, IsTold, DoesFound};

use crate::blocks::BLOCK_LIMIT;
use crate::frames::Frame;
use crate::inputs::next_frame;
use crate::outputs::write_reply;
use crate::seats::{FrameReply, HostedMaster};
use crate::stops::StreamStop;
use codec::WireFault;
use output::write_bytes;
use rows_cell::{MasterTerms, Records};
use std::alloc::{AllocError, Global};
use std::io::{Read, Write};

/// What became of one turn.
#[derive(Clone, Copy)]
pub enum Turned {
    /// A frame was answered.
    On,
    /// None is left.
    Over,
    Stopped(StreamStop),
}

/// Answers the frames of a stream, one after the other, to its end: each is done, all that it changes is committed, and
/// then all that is told of it is written and flushed, before more is read. What is no frame is told of, and changes
/// nothing. The master goes by these terms.
pub fn serve_on<R: Records, I: Read, W: Write>(
    alloc: Global,
    terms: MasterTerms,
    seat: HostedMaster<R>,
    reader: &mut I,
    writer: &mut W,
) -> (HostedMaster<R>, Result<(), StreamStop>)
    requires { (1000 ≤ terms.lease) × (terms.lease ≤ 60000) }
    ensures { Ends terms (I.remaining reader.old) (hosted R.store seat) result.1 (hosted R.store result.0) (W.contents writer.old) (W.contents writer.new) }
{
    match block_room(alloc) {
        Ok(mut room) => serve_frames(alloc, terms, seat, reader, room.as_mut_slice(), writer),
        Err(_) => (seat, Err(StreamStop::NoMemory)),
    }
}

// Room for a block.
pub(crate) fn block_room(alloc: Global) -> Result<Vec<u8>, AllocError>
    ensures { IfOk result (λ room. length room.items ≡ 1048576) }
{
    let mut room = Vec::new(alloc);
    room.resize(BLOCK_LIMIT, 0)?;
    Ok(room)
}

fn serve_frames<R: Records, I: Read, W: Write>(
    alloc: Global,
    terms: MasterTerms,
    first: HostedMaster<R>,
    reader: &mut I,
    buffer: &mut [u8],
    writer: &mut W,
) -> (HostedMaster<R>, Result<(), StreamStop>)
    requires lease { (1000 ≤ terms.lease) × (terms.lease ≤ 60000) }
    requires room { length buffer.old ≡ 1048576 }
    ensures { Ends terms (I.remaining reader.old) (hosted R.store first) result.1 (hosted R.store result.0) (W.contents writer.old) (W.contents writer.new) }
{
    let mut seat = first;
    for _turn in 0..u64::MAX {
        let (next, turned) = serve_frame(alloc, terms, seat, reader, buffer, writer);
        seat = next;
        match turned {
            Turned::On => {}
            Turned::Over => return (seat, Ok(())),
            Turned::Stopped(stop) => return (seat, Err(stop)),
        }
    }
    (seat, Err(StreamStop::Unread))
}

// One frame.
fn serve_frame<R: Records, I: Read, W: Write>(
    alloc: Global,
    terms: MasterTerms,
    seat: HostedMaster<R>,
    reader: &mut I,
    buffer: &mut [u8],
    writer: &mut W,
) -> (HostedMaster<R>, Turned)
    requires lease { (1000 ≤ terms.lease) × (terms.lease ≤ 60000) }
    requires room { length buffer.old ≡ 1048576 }
    ensures { TakesTurn terms (I.remaining reader.old) (hosted R.store seat) result.1 (hosted R.store result.0) (I.remaining reader.new) (W.contents writer.old) (W.contents writer.new) }
{
    match next_frame(alloc, reader, buffer) {
        Ok(found) => serve_found(alloc, terms, seat, found, writer),
        Err(stop) => (seat, Turned::Stopped(stop)),
    }
}

// Does what was found in a stream, and tells of it.
pub(crate) fn serve_found<R: Records, W: Write>(
    alloc: Global,
    terms: MasterTerms,
    seat: HostedMaster<R>,
    found: Option<Result<Frame, WireFault>>,
    writer: &mut W,
) -> (HostedMaster<R>, Turned)
    requires { (1000 ≤ terms.lease) × (terms.lease ≤ 60000) }
    ensures { DoesFound terms found (hosted R.store seat) result.1 (hosted R.store result.0) (W.contents writer.old) (W.contents writer.new) }
{
    match found {
        Some(sent) => {
            let (mut next, reply) = seat.take(alloc, terms, &sent);
            drop(sent);
            let turned = tell(alloc, &mut next, &reply, writer);
            drop(reply);
            (next, turned)
        }
        None => (seat, Turned::Over),
    }
}

// Writes all that is told of a frame, with the next deadline, and flushes it. The seat stays as it is.
fn tell<R: Records, W: Write>(
    alloc: Global,
    seat: &mut HostedMaster<R>,
    reply: &FrameReply,
    writer: &mut W,
) -> Turned
    ensures told { IsTold result (hosted R.store seat.old).master reply.now (W.contents writer.old) (W.contents writer.new) }
    ensures same { hosted R.store seat.new ≡ hosted R.store seat.old }
{
    match seat.next_deadline() {
        Ok(deadline) => tell_all(alloc, reply, deadline, writer),
        Err(_) => Turned::Stopped(StreamStop::NoMemory),
    }
}

fn tell_all<W: Write>(
    alloc: Global,
    reply: &FrameReply,
    deadline: Option<u64>,
    writer: &mut W,
) -> Turned
    ensures { IsWritten result reply.now deadline (W.contents writer.old) (W.contents writer.new) }
{
    match write_reply(alloc, reply, deadline) {
        Ok(bytes) => match write_bytes(writer, bytes.as_slice()) {
            Ok(()) => Turned::On,
            Err(_) => Turned::Stopped(StreamStop::Unwritten),
        },
        Err(_) => Turned::Stopped(StreamStop::NoMemory),
    }
}
