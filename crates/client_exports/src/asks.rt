//! The call that a holder asks for by a call's message.
ghost use Rattle.std.specs.Prelude.{◌≡◌};
ghost use Rattle.client_exports.specs.Wanted.{number_in, node_ask, sequencer_ask, call_ask, request_ask};

use client_core::{Ask, NodeCall};
use collections::Bytes;
use tags_cell::{Call, CallMessage, HandleBytes, Request};

// In it a handle is the client's own number, in eight bytes. None of a Start and a Beat, of another handle, and of a SetSequencer
// without a sequencer.
pub(crate) fn request_ask(request: Request) -> Option<Ask>
    ensures { result ≡ request_ask request }
{
    match request {
        Request::Start(_) | Request::Beat(_) => None,
        Request::Call(message) => message_ask(message),
    }
}

fn message_ask(message: CallMessage) -> Option<Ask>
    ensures { result ≡ call_ask message.call message.sequencer }
{
    let CallMessage {
        client: _,
        epoch: _,
        number: _,
        call,
        mut sequencer,
    } = message;
    let ask = call_ask(call, &mut sequencer);
    drop(sequencer);
    ask
}

// The sequencer that is to be set is taken out of the message.
fn call_ask(call: Call, sequencer: &mut Option<Bytes>) -> Option<Ask>
    ensures { result ≡ call_ask call sequencer.old }
{
    match call {
        Call::Open(opening) => Some(Ask::Open(opening)),
        Call::Close(handle) => Some(Ask::Close(number_of(handle)?)),
        Call::Read(handle) => node_ask(handle, NodeCall::Read),
        Call::Stat(handle) => node_ask(handle, NodeCall::Stat),
        Call::List(handle) => node_ask(handle, NodeCall::List),
        Call::Set {
            handle,
            content,
            generation,
        } => node_ask(handle, NodeCall::Set(content, generation)),
        Call::SetAcl {
            handle,
            acls,
            generation,
        } => node_ask(handle, NodeCall::SetAcl(acls, generation)),
        Call::Delete(handle) => node_ask(handle, NodeCall::Delete),
        Call::Acquire { handle, mode } => node_ask(handle, NodeCall::Acquire(mode)),
        Call::TryAcquire { handle, mode } => node_ask(handle, NodeCall::TryAcquire(mode)),
        Call::Release(handle) => node_ask(handle, NodeCall::Release),
        Call::GetSequencer(handle) => node_ask(handle, NodeCall::GetSequencer),
        Call::SetSequencer(handle) => sequencer_ask(handle, sequencer.take()),
        Call::CheckSequencer(bytes) => Some(Ask::CheckSequencer(bytes)),
        Call::Leave => Some(Ask::Leave),
    }
}

fn sequencer_ask(handle: HandleBytes, sequencer: Option<Bytes>) -> Option<Ask>
    ensures { result ≡ sequencer_ask handle sequencer }
{
    let sequencer = sequencer?;
    Some(Ask::SetSequencer(number_of(handle)?, sequencer))
}

fn node_ask(handle: HandleBytes, call: NodeCall) -> Option<Ask>
    ensures { result ≡ node_ask handle call }
{
    Some(Ask::Node(number_of(handle)?, call))
}

fn number_of(handle: HandleBytes) -> Option<u64>
    ensures { result ≡ number_in handle }
{
    let number = number_in(handle.as_slice());
    drop(handle);
    number
}

fn number_in(bytes: &[u8]) -> Option<u64>
    ensures { result ≡ number_in bytes.now }
{
    if bytes.len() != 8 {
        return None;
    }
    let number = bytes.first_chunk::<8>()?;
    Some(u64::from_be_bytes(*number))
}
