//! What a call shows, and why it is refused by itself.
ghost use Rattle.std.specs.Prelude.{◌≡◌, false, Some, None};
ghost use Rattle.std.specs.Option.{SomeIff};
ghost use Rattle.tags_cell.specs.Messages.{is_leave};
ghost use Rattle.master_parts.specs.Calls.{bytes_of, needing, write_fault, node_fault, create_fault, delay_fault, content_fault, is_too_long};

use collections::Bytes;
use node_core::{CONTENT_LIMIT, Fault, Kind, Right};
use tags_cell::{Call, CallResult, Handle, LockDelay, NewNode, Open};

/// The bytes of the handle that a call on a node shows; none for an Open, a CheckSequencer and a Leave.
pub fn bytes_of(call: &Call) -> &[u8]
    ensures { result.now ≡ bytes_of call.now }
{
    match call {
        Call::Open(_) => &[],
        Call::Close(handle) => handle.as_slice(),
        Call::Read(handle) => handle.as_slice(),
        Call::Stat(handle) => handle.as_slice(),
        Call::List(handle) => handle.as_slice(),
        Call::Set { handle, .. } => handle.as_slice(),
        Call::SetAcl { handle, .. } => handle.as_slice(),
        Call::Delete(handle) => handle.as_slice(),
        Call::Acquire { handle, .. } => handle.as_slice(),
        Call::TryAcquire { handle, .. } => handle.as_slice(),
        Call::Release(handle) => handle.as_slice(),
        Call::GetSequencer(handle) => handle.as_slice(),
        Call::SetSequencer(handle) => handle.as_slice(),
        Call::CheckSequencer(_) => &[],
        Call::Leave => &[],
    }
}

/// Whether it is the call by which a client ends its session.
pub fn is_leave(call: &Call) -> bool
    ensures { result ≡ is_leave call.now }
{
    match call {
        Call::Leave => true,
        _ => false,
    }
}

/// A refusal for want of a right.
pub fn denied(right: Right) -> CallResult
    ensures { result ≡ CallResult.Refused (Fault.Denied right) }
{
    CallResult::Refused(Fault::Denied(right))
}

/// Why a call that needs the right, and then waits, is refused at once.
pub fn denied_without(handle: &Handle, right: Right) -> Option<CallResult>
    ensures { result ≡ needing handle.now right None }
{
    if handle.mode.has(right) {
        None
    } else {
        Some(denied(right))
    }
}

/// Why a write is refused at once.
pub fn set_answer(handle: &Handle, kind: Kind, content: &Bytes) -> Option<CallResult>
    ensures { result ≡ needing handle.now Right.Write (write_fault kind content.now) }
{
    if !handle.mode.has(Right::Write) {
        return Some(denied(Right::Write));
    }
    write_fault(kind, content)
}

// Only a file is written.
fn write_fault(kind: Kind, content: &Bytes) -> Option<CallResult>
    ensures { result ≡ write_fault kind content.now }
{
    match kind {
        Kind::Directory => Some(CallResult::Refused(Fault::WrongKind(Kind::Directory))),
        Kind::File => content_fault(content),
    }
}

/// Why a new node isn't made.
pub fn node_fault(node: &NewNode) -> Option<CallResult>
    ensures { result ≡ node_fault node.now }
{
    match node {
        NewNode::File(content) => content_fault(content),
        NewNode::Directory => None,
    }
}

/// Why an Open makes no node: for its content, and then for its lock-delay.
pub fn create_fault(opening: &Open, node: &NewNode) -> Option<CallResult>
    ensures { result ≡ create_fault opening.now node.now }
{
    match node_fault(node) {
        Some(answer) => Some(answer),
        None => delay_fault(opening.delay),
    }
}

fn delay_fault(delay: u64) -> Option<CallResult>
    ensures { result ≡ delay_fault delay }
{
    match delay_of(delay) {
        Some(_) => None,
        None => Some(CallResult::Refused(Fault::DelayTooLong)),
    }
}

fn content_fault(content: &Bytes) -> Option<CallResult>
    ensures { result ≡ content_fault content.now }
{
    if content.len() > CONTENT_LIMIT {
        Some(CallResult::Refused(Fault::TooLarge))
    } else {
        None
    }
}

/// A lock-delay; None above its limit.
pub fn delay_of(delay: u64) -> Option<LockDelay>
    ensures { SomeIff result (is_too_long delay ≡ false) delay }
{
    match u32::try_from(delay) {
        Ok(span) => LockDelay::new(span),
        Err(_) => None,
    }
}
