//! What a program sends to a master that it started.
ghost use Rattle.std.specs.Prelude.{◌≡◌, ◌∷◌, ◌<◌, ◌^◌, length, Ok, Err, IfOk, IfErr};
ghost use Rattle.collections.specs.Results.{Gives};
ghost use Rattle.codec.specs.Forms.{Form, begin_at, written, read_whole};
ghost use Rattle.codec.specs.Fields.{word};
ghost use Rattle.hosting.specs.Blocks.{framed, framed_by};
ghost use Rattle.hosting.specs.Frames.{all_of, frame, frame_behind, carried};

use crate::blocks::{LENGTH_END, bytes_of, write_framed};
use crate::kinds::{FRAME_KINDS, FrameKind};
use byteorder::{BigEndian, ByteOrder};
use codec::{VERSION, WireFault, read_request, write_request};
use collections::Bytes;
use std::alloc::Global;
use tags_cell::Request;

/// What a program sends to a master that it started. Moments are its own, in milliseconds.
#[derive(Drop)]
pub enum Frame {
    /// The master comes up at a moment.
    Up(u64),
    /// At a moment a message of a client comes.
    Message(u64, Request),
    /// It is this moment, and nothing comes.
    Tick(u64),
    /// The master goes.
    Down,
    /// How does the master stand? Nothing changes.
    State,
}

/// The frame of all of these bytes, without their number in front; or what is wrong with them, the first from the left.
pub fn read_frame(alloc: Global, bytes: &[u8]) -> Result<Frame, WireFault>
    ensures frame { Gives WireFault.NoMemory result (read_whole frame bytes.now) }
    ensures back { IfOk result (λ x. written frame x ≡ Ok bytes.now) }
{
    match fields_of(bytes) {
        Ok(rest) => read_fields(alloc, rest),
        Err(fault) => Err(fault),
    }
}

// What stands after the version.
pub(crate) fn fields_of(bytes: &[u8]) -> Result<&[u8], WireFault>
    ensures begun { IfOk result (λ rest. begin_at bytes.now ≡ Ok rest.now) }
    ensures short { IfOk result (λ rest. length rest.now < 2 ^ 32) }
    ensures refused { IfErr result (λ e. begin_at bytes.now ≡ Err e) }
{
    if bytes.len() >= LENGTH_END {
        return Err(WireFault::TooLong);
    }
    match bytes {
        [] => Err(WireFault::Cut),
        [VERSION, rest @ ..] => Ok(rest),
        [_, ..] => Err(WireFault::BadVersion),
    }
}

// The kind of a frame, and its fields.
#[tactic(auto, unfolding(crate::specs::Frames::frame))]
fn read_fields(alloc: Global, bytes: &[u8]) -> Result<Frame, WireFault>
    requires { length bytes.now < 2 ^ 32 }
    ensures { Gives WireFault.NoMemory result (all_of (frame.read bytes.now)) }
{
    let [place, rest @ ..] = bytes else {
        return Err(WireFault::Cut);
    };
    let Some(kind) = FRAME_KINDS.get(usize::from(*place)) else {
        return Err(WireFault::BadKind);
    };
    read_fields_of(alloc, *kind, rest)
}

fn read_fields_of(alloc: Global, kind: FrameKind, bytes: &[u8]) -> Result<Frame, WireFault>
    requires { length bytes.now < 2 ^ 32 }
    ensures { Gives WireFault.NoMemory result (all_of (frame_behind kind bytes.now)) }
{
    match kind {
        FrameKind::Up => Ok(Frame::Up(read_moment(bytes)?)),
        FrameKind::Message => read_message(alloc, bytes),
        FrameKind::Tick => Ok(Frame::Tick(read_moment(bytes)?)),
        FrameKind::Down => read_down(bytes),
        FrameKind::State => read_state(bytes),
    }
}

// A moment, and nothing after it.
#[tactic(auto, unfolding(codec::specs::Fields::word))]
pub(crate) fn read_moment(bytes: &[u8]) -> Result<u64, WireFault>
    ensures { result ≡ all_of (word.read bytes.now) }
{
    if bytes.len() < 8 {
        return Err(WireFault::Cut);
    }
    let (front, back) = bytes.split_at(8);
    if !back.is_empty() {
        return Err(WireFault::Extra);
    }
    Ok(BigEndian::read_u64(front))
}

// A moment, and after it all bytes of a message.
fn read_message(alloc: Global, bytes: &[u8]) -> Result<Frame, WireFault>
    requires { length bytes.now < 2 ^ 32 }
    ensures { Gives WireFault.NoMemory result (all_of (frame_behind FrameKind.Message bytes.now)) }
{
    if bytes.len() < 8 {
        return Err(WireFault::Cut);
    }
    let (front, back) = bytes.split_at(8);
    let now = BigEndian::read_u64(front);
    match read_request(alloc, back) {
        Ok(request) => Ok(Frame::Message(now, request)),
        Err(fault) => Err(fault),
    }
}

fn read_down(bytes: &[u8]) -> Result<Frame, WireFault>
    ensures { result ≡ all_of (frame_behind FrameKind.Down bytes.now) }
{
    if !bytes.is_empty() {
        return Err(WireFault::Extra);
    }
    Ok(Frame::Down)
}

fn read_state(bytes: &[u8]) -> Result<Frame, WireFault>
    ensures { result ≡ all_of (frame_behind FrameKind.State bytes.now) }
{
    if !bytes.is_empty() {
        return Err(WireFault::Extra);
    }
    Ok(Frame::State)
}

/// The bytes of a frame, with their number in front. Refused is a frame of 2^32 bytes or more.
#[tactic(auto, unfolding(crate::specs::Frames::frame))]
pub fn write_frame(alloc: Global, sent: &Frame) -> Result<Bytes, WireFault>
    ensures { Gives WireFault.NoMemory result (framed frame sent.now) }
{
    match sent {
        Frame::Up(now) => write_word(alloc, 0, *now),
        Frame::Message(now, request) => write_message(alloc, *now, request),
        Frame::Tick(now) => write_word(alloc, 2, *now),
        Frame::Down => write_framed(alloc, 3, &[], &[]),
        Frame::State => write_framed(alloc, 4, &[], &[]),
    }
}

// A number alone.
pub(crate) fn write_word(alloc: Global, kind: u8, number: u64) -> Result<Bytes, WireFault>
    ensures { Gives WireFault.NoMemory result (framed_by (kind ∷ word.write number)) }
{
    write_framed(alloc, kind, &bytes_of(number), &[])
}

// A moment, and after it all bytes of a message.
fn write_message(alloc: Global, now: u64, request: &Request) -> Result<Bytes, WireFault>
    ensures { Gives WireFault.NoMemory result (framed frame (Frame.Message now request.now)) }
{
    let moment = bytes_of(now);
    match write_request(alloc, request) {
        Ok(message) => write_framed(alloc, 1, &moment, message.as_slice()),
        Err(fault) => Err(fault),
    }
}

/// The frame by which the bytes of a client's message come to a master at a moment, with the number of all bytes in front. They go on
/// as they came: only the master reads them. Refused is a frame of 2^32 bytes or more.
pub fn carry_message(alloc: Global, moment: u64, message: &[u8]) -> Result<Bytes, WireFault>
    ensures { Gives WireFault.NoMemory result (carried moment message.now) }
{
    write_framed(alloc, 1, &bytes_of(moment), message)
}
