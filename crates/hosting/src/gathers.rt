//! Frames that are there together are done, and what they change is held back.
ghost use Rattle.std.specs.Prelude.{◌≡◌, length, None, Ok, Some};
ghost use Rattle.std.specs.Io.Buffered.{reader_remaining};
ghost use Rattle.hosting.specs.Blocks.{stands_whole};
ghost use Rattle.hosting.specs.Groups.{group_limit, DoesHeld, Tries, NextThere, GathersBy, GathersOnBy, PutsReply, PutsTold};

use crate::blocks::BLOCK_LIMIT;
use crate::frames::Frame;
use crate::held::{answer_held, settle_held};
use crate::holds::Group;
use crate::inputs::next_frame;
use crate::outputs::write_reply;
use crate::seats::FrameReply;
use crate::stops::StreamStop;
use byteorder::{BigEndian, ByteOrder};
use codec::WireFault;
use rows_cell::Records;
use std::alloc::Global;
use std::io::{BufReader, Read};

/// The most frames that are committed together.
pub const GROUP_LIMIT: u64 = 256;

/// What stands after a group.
pub enum Behind {
    /// Nobody looked.
    Nothing,
    /// A frame, or what is wrong with one; or none is left.
    Found(Option<Result<Frame, WireFault>>),
    /// The group is lost, before it is committed.
    Lost(StreamStop),
}

/// What is next in a group.
pub enum Onward {
    Next(Result<Frame, WireFault>),
    Ends(Behind),
}

/// What became of a frame in a group.
#[derive(Clone, Copy)]
pub enum Tried {
    Done,
    /// It is done by itself.
    Alone,
    Stopped(StreamStop),
}

/// Does a frame and those after it that are there, and puts all that is told of them after what is told.
pub(crate) fn gather<R: Records, I: Read>(
    alloc: Global,
    first: Group<R>,
    begun: Result<Frame, WireFault>,
    reader: &mut BufReader<I>,
    buffer: &mut [u8],
    told: &mut Vec<u8>,
) -> (Group<R>, Behind)
    requires { length buffer.old ≡ 1048576 }
    ensures { GathersBy group_limit begun (reader_remaining I.remaining reader.old) first result.1 result.0 (reader_remaining I.remaining reader.new) told.old.items told.new.items }
{
    let mut group = first;
    let mut sent = begun;
    for _ in 0..GROUP_LIMIT {
        match go_on(alloc, &mut group, sent, reader, buffer, told) {
            Onward::Next(next) => sent = next,
            Onward::Ends(behind) => return (group, behind),
        }
    }
    (group, Behind::Found(Some(sent)))
}

// One of them.
fn go_on<R: Records, I: Read>(
    alloc: Global,
    group: &mut Group<R>,
    sent: Result<Frame, WireFault>,
    reader: &mut BufReader<I>,
    buffer: &mut [u8],
    told: &mut Vec<u8>,
) -> Onward
    requires { length buffer.old ≡ 1048576 }
    ensures { GathersOnBy 1 sent (reader_remaining I.remaining reader.old) group.old result group.new (reader_remaining I.remaining reader.new) told.old.items told.new.items }
{
    match do_held(alloc, group, &sent, told) {
        Tried::Done => {
            drop(sent);
            if group.ends_here() {
                return Onward::Ends(Behind::Nothing);
            }
            next_there(alloc, reader, buffer, told.len())
        }
        Tried::Alone => Onward::Ends(Behind::Found(Some(sent))),
        Tried::Stopped(stop) => {
            drop(sent);
            Onward::Ends(Behind::Lost(stop))
        }
    }
}

// The next frame, where it is there and there is room for what is told of it.
fn next_there<I: Read>(
    alloc: Global,
    reader: &mut BufReader<I>,
    buffer: &mut [u8],
    told: usize,
) -> Onward
    requires { length buffer.old ≡ 1048576 }
    ensures { NextThere result (reader_remaining I.remaining reader.old) (reader_remaining I.remaining reader.new) }
{
    if told >= BLOCK_LIMIT || !is_there(reader.buffer()) {
        return Onward::Ends(Behind::Nothing);
    }
    match next_frame(alloc, reader, buffer) {
        Ok(Some(next)) => Onward::Next(next),
        Ok(None) => Onward::Ends(Behind::Found(None)),
        Err(stop) => Onward::Ends(Behind::Lost(stop)),
    }
}

/// Whether a block stands whole in front.
pub(crate) fn is_there(bytes: &[u8]) -> bool
    ensures { result ≡ stands_whole bytes.now }
{
    if bytes.len() < 4 {
        return false;
    }
    let (front, block) = bytes.split_at(4);
    let count = BigEndian::read_u32(front) as usize;
    if count > BLOCK_LIMIT {
        return false;
    }
    block.len() >= count
}

// Does a frame, and puts what is told of it after what is told.
fn do_held<R: Records>(
    alloc: Global,
    group: &mut Group<R>,
    sent: &Result<Frame, WireFault>,
    told: &mut Vec<u8>,
) -> Tried
    ensures { Tries sent.now group.old result group.new told.old.items told.new.items }
{
    match take_held(alloc, group, sent) {
        Some(reply) => {
            let tried = put_reply(alloc, group, &reply, told);
            drop(reply);
            tried
        }
        None => Tried::Alone,
    }
}

// What a message or the time does; none of another frame.
fn take_held<R: Records>(
    alloc: Global,
    group: &mut Group<R>,
    sent: &Result<Frame, WireFault>,
) -> Option<FrameReply>
    ensures { DoesHeld sent.now group.old result group.new }
{
    match sent {
        Ok(frame) => take_frame(alloc, group, frame),
        Err(_) => None,
    }
}

fn take_frame<R: Records>(alloc: Global, group: &mut Group<R>, frame: &Frame) -> Option<FrameReply>
    ensures { DoesHeld (Ok frame.now) group.old result group.new }
{
    match frame {
        Frame::Message(now, request) => {
            Some(FrameReply::Answered(answer_held(alloc, group, *now, request)))
        }
        Frame::Tick(now) => Some(FrameReply::Swept(settle_held(alloc, group, *now))),
        _ => None,
    }
}

// All that is told of a frame, with the next deadline, after what is told. The group stays as it is.
fn put_reply<R: Records>(
    alloc: Global,
    group: &mut Group<R>,
    reply: &FrameReply,
    told: &mut Vec<u8>,
) -> Tried
    ensures told { PutsReply result group.old.master reply.now told.old.items told.new.items }
    ensures same { group.new ≡ group.old }
{
    match group.next_deadline() {
        Ok(deadline) => put_told(alloc, reply, deadline, told),
        Err(_) => Tried::Stopped(StreamStop::NoMemory),
    }
}

fn put_told(alloc: Global, reply: &FrameReply, deadline: Option<u64>, told: &mut Vec<u8>) -> Tried
    ensures { PutsTold result reply.now deadline told.old.items told.new.items }
{
    match write_reply(alloc, reply, deadline) {
        Ok(bytes) => match told.extend_from_slice(bytes.as_slice()) {
            Ok(()) => Tried::Done,
            Err(_) => Tried::Stopped(StreamStop::NoMemory),
        },
        Err(_) => Tried::Stopped(StreamStop::NoMemory),
    }
}
