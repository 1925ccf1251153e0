//! Frames that are there together are committed together.
ghost use Rattle.std.specs.Prelude.{◌≡◌, ◌≤◌, ℕ, List, [], length, Option, Some};
ghost use Rattle.std.specs.Io.Buffered.{reader_remaining};
ghost use Rattle.over_core.specs.Sweep.{IsSettled};
ghost use Rattle.hosting.specs.Seats.{hosted, with_master};
ghost use Rattle.hosting.specs.Pieces.{no_pieces};
ghost use Rattle.hosting.specs.Groups.{EndsGroups, Goes, GoesBy, Keeps, ServesBehind, together, course_of};

use crate::frames::Frame;
use crate::gathers::{Behind, gather, is_there};
use crate::holds::Group;
use crate::inputs::next_frame;
use crate::pieces::GroupTerms;
use crate::seats::HostedMaster;
use crate::stops::{GroupStop, StreamStop};
use crate::streams::{Turned, block_room, serve_found};
use codec::WireFault;
use output::write_bytes;
use over_core::Cell;
use rows_cell::Records;
use std::alloc::Global;
use std::io::{BufReader, Read, Write};

/// What became of a group.
#[derive(Clone, Copy)]
pub enum Course {
    /// It was told of.
    On,
    /// No frame is left.
    Over,
    Ends(GroupStop),
}

/// Answers the frames of a stream to its end as `serve_on` does, but messages and ticks that are there together are done
/// one after the other, all that they change is committed, and then all that is told of them is written and flushed.
/// Together are at most 256 that stand whole in the reader's buffer, while what is told of them is below 1 MiB, and what
/// they change is within the limits for one change of the store. What one frame changes beyond these is committed in
/// pieces. A frame that stands there alone, or is another one, is done and told by itself. If the store refuses a piece,
/// nothing is told of the group: the master is gone, and the records are as the pieces before it left them.
pub fn serve_groups<R: Records, I: Read, W: Write>(
    alloc: Global,
    terms: GroupTerms,
    seat: HostedMaster<R>,
    reader: &mut BufReader<I>,
    writer: &mut W,
) -> (HostedMaster<R>, Result<(), GroupStop>)
    requires { (1000 ≤ terms.master.lease) × (terms.master.lease ≤ 60000) }
    ensures { EndsGroups terms (reader_remaining I.remaining reader.old) (hosted R.store seat) result.1 (hosted R.store result.0) (W.contents writer.old) (W.contents writer.new) }
{
    match block_room(alloc) {
        Ok(mut room) => serve_all(alloc, terms, seat, reader, room.as_mut_slice(), writer),
        Err(_) => (seat, Err(GroupStop::Stopped(StreamStop::NoMemory))),
    }
}

fn serve_all<R: Records, I: Read, W: Write>(
    alloc: Global,
    terms: GroupTerms,
    first: HostedMaster<R>,
    reader: &mut BufReader<I>,
    buffer: &mut [u8],
    writer: &mut W,
) -> (HostedMaster<R>, Result<(), GroupStop>)
    requires lease { (1000 ≤ terms.master.lease) × (terms.master.lease ≤ 60000) }
    requires room { length buffer.old ≡ 1048576 }
    ensures { EndsGroups terms (reader_remaining I.remaining reader.old) (hosted R.store first) result.1 (hosted R.store result.0) (W.contents writer.old) (W.contents writer.new) }
{
    let mut seat = first;
    for _group in 0..u64::MAX {
        let (next, course) = serve_some(alloc, terms, seat, reader, buffer, writer);
        seat = next;
        match course {
            Course::On => {}
            Course::Over => return (seat, Ok(())),
            Course::Ends(stop) => return (seat, Err(stop)),
        }
    }
    (seat, Err(GroupStop::Stopped(StreamStop::Unread)))
}

// The frames that are there.
fn serve_some<R: Records, I: Read, W: Write>(
    alloc: Global,
    terms: GroupTerms,
    seat: HostedMaster<R>,
    reader: &mut BufReader<I>,
    buffer: &mut [u8],
    writer: &mut W,
) -> (HostedMaster<R>, Course)
    requires lease { (1000 ≤ terms.master.lease) × (terms.master.lease ≤ 60000) }
    requires room { length buffer.old ≡ 1048576 }
    ensures { Goes terms (reader_remaining I.remaining reader.old) (hosted R.store seat) result.1 (hosted R.store result.0) (reader_remaining I.remaining reader.new) (W.contents writer.old) (W.contents writer.new) }
{
    match next_frame(alloc, reader, buffer) {
        Ok(found) => serve_from(alloc, terms, seat, found, reader, buffer, writer),
        Err(stop) => (seat, Course::Ends(GroupStop::Stopped(stop))),
    }
}

// A frame that was found, and those after it that are there.
fn serve_from<R: Records, I: Read, W: Write>(
    alloc: Global,
    terms: GroupTerms,
    seat: HostedMaster<R>,
    found: Option<Result<Frame, WireFault>>,
    reader: &mut BufReader<I>,
    buffer: &mut [u8],
    writer: &mut W,
) -> (HostedMaster<R>, Course)
    requires lease { (1000 ≤ terms.master.lease) × (terms.master.lease ≤ 60000) }
    requires room { length buffer.old ≡ 1048576 }
    ensures { GoesBy terms found (reader_remaining I.remaining reader.old) (hosted R.store seat) result.1 (hosted R.store result.0) (reader_remaining I.remaining reader.new) (W.contents writer.old) (W.contents writer.new) }
{
    if !is_there(reader.buffer()) {
        return serve_alone(alloc, terms, seat, found, writer);
    }
    match found {
        Some(sent) => serve_sent(alloc, terms, seat, sent, reader, buffer, writer),
        None => serve_alone(alloc, terms, seat, None, writer),
    }
}

// What was sent, and the frames after it that are there, where a master is up.
fn serve_sent<R: Records, I: Read, W: Write>(
    alloc: Global,
    terms: GroupTerms,
    seat: HostedMaster<R>,
    sent: Result<Frame, WireFault>,
    reader: &mut BufReader<I>,
    buffer: &mut [u8],
    writer: &mut W,
) -> (HostedMaster<R>, Course)
    requires lease { (1000 ≤ terms.master.lease) × (terms.master.lease ≤ 60000) }
    requires room { length buffer.old ≡ 1048576 }
    ensures { GoesBy terms (Some sent) (reader_remaining I.remaining reader.old) (hosted R.store seat) result.1 (hosted R.store result.0) (reader_remaining I.remaining reader.new) (W.contents writer.old) (W.contents writer.new) }
{
    match seat {
        HostedMaster::Up(cell) => serve_up(alloc, terms, cell, sent, reader, buffer, writer),
        HostedMaster::Down(records) => serve_alone(
            alloc,
            terms,
            HostedMaster::Down(records),
            Some(sent),
            writer,
        ),
    }
}

// The same of a master that is up. After a commit that was refused a frame is done by itself, until another one stands.
fn serve_up<R: Records, I: Read, W: Write>(
    alloc: Global,
    terms: GroupTerms,
    cell: Cell<R>,
    sent: Result<Frame, WireFault>,
    reader: &mut BufReader<I>,
    buffer: &mut [u8],
    writer: &mut W,
) -> (HostedMaster<R>, Course)
    requires lease { (1000 ≤ terms.master.lease) × (terms.master.lease ≤ 60000) }
    requires room { length buffer.old ≡ 1048576 }
    ensures { GoesBy terms (Some sent) (reader_remaining I.remaining reader.old) (with_master cell) result.1 (hosted R.store result.0) (reader_remaining I.remaining reader.new) (W.contents writer.old) (W.contents writer.new) }
{
    if cell.is_settled() {
        let group = Group::of(alloc, cell, terms.limits);
        serve_together(alloc, terms, group, sent, reader, buffer, writer)
    } else {
        serve_alone(alloc, terms, HostedMaster::Up(cell), Some(sent), writer)
    }
}

// A frame that was found, by itself.
fn serve_alone<R: Records, W: Write>(
    alloc: Global,
    terms: GroupTerms,
    seat: HostedMaster<R>,
    found: Option<Result<Frame, WireFault>>,
    writer: &mut W,
) -> (HostedMaster<R>, Course)
    requires { (1000 ≤ terms.master.lease) × (terms.master.lease ≤ 60000) }
    ensures { (here : Option (List ℕ)) → GoesBy terms found here (hosted R.store seat) result.1 (hosted R.store result.0) here (W.contents writer.old) (W.contents writer.new) }
{
    let (next, turned) = serve_found(alloc, terms.master, seat, found, writer);
    (next, course_of(turned))
}

fn course_of(turned: Turned) -> Course
    ensures { result ≡ course_of turned }
{
    match turned {
        Turned::On => Course::On,
        Turned::Over => Course::Over,
        Turned::Stopped(stop) => Course::Ends(GroupStop::Stopped(stop)),
    }
}

// A frame and those after it that are there, as a group, and the one after it that was found by itself.
fn serve_together<R: Records, I: Read, W: Write>(
    alloc: Global,
    terms: GroupTerms,
    first: Group<R>,
    begun: Result<Frame, WireFault>,
    reader: &mut BufReader<I>,
    buffer: &mut [u8],
    writer: &mut W,
) -> (HostedMaster<R>, Course)
    requires lease { (1000 ≤ terms.master.lease) × (terms.master.lease ≤ 60000) }
    requires room { length buffer.old ≡ 1048576 }
    requires none { first.held ≡ no_pieces terms.limits }
    requires settled { IsSettled first.store }
    ensures { GoesBy terms (Some begun) (reader_remaining I.remaining reader.old) (together first) result.1 (hosted R.store result.0) (reader_remaining I.remaining reader.new) (W.contents writer.old) (W.contents writer.new) }
{
    let mut told = Vec::new(alloc);
    let (group, behind) = gather(alloc, first, begun, reader, buffer, &mut told);
    match behind {
        Behind::Nothing => keep(group, told.as_slice(), writer),
        Behind::Found(found) => {
            let (seat, course) = keep(group, told.as_slice(), writer);
            serve_behind(alloc, terms, seat, course, found, writer)
        }
        Behind::Lost(stop) => (
            HostedMaster::Down(group.lose()),
            Course::Ends(GroupStop::Stopped(stop)),
        ),
    }
}

// After a group that was kept, what was found after it.
fn serve_behind<R: Records, W: Write>(
    alloc: Global,
    terms: GroupTerms,
    seat: HostedMaster<R>,
    course: Course,
    found: Option<Result<Frame, WireFault>>,
    writer: &mut W,
) -> (HostedMaster<R>, Course)
    requires { (1000 ≤ terms.master.lease) × (terms.master.lease ≤ 60000) }
    ensures { (here : Option (List ℕ)) → ServesBehind terms course found here (hosted R.store seat) result.1 (hosted R.store result.0) (W.contents writer.old) (W.contents writer.new) }
{
    match course {
        Course::On => serve_alone(alloc, terms, seat, found, writer),
        Course::Over => {
            drop(found);
            (seat, Course::Over)
        }
        Course::Ends(stop) => {
            drop(found);
            (seat, Course::Ends(stop))
        }
    }
}

// What is held back is committed, and then all that is told of it is written.
fn keep<R: Records, W: Write>(
    group: Group<R>,
    told: &[u8],
    writer: &mut W,
) -> (HostedMaster<R>, Course)
    ensures { Keeps group told.now result.1 (hosted R.store result.0) (W.contents writer.old) (W.contents writer.new) }
{
    match group.commit() {
        Ok(cell) => match write_bytes(writer, told) {
            Ok(()) => (HostedMaster::Up(cell), Course::On),
            Err(_) => (
                HostedMaster::Up(cell),
                Course::Ends(GroupStop::Stopped(StreamStop::Unwritten)),
            ),
        },
        Err((fault, records)) => (
            HostedMaster::Down(records),
            Course::Ends(GroupStop::Refused(fault)),
        ),
    }
}
