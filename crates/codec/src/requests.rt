//! What a client sends.
ghost use Rattle.std.specs.Prelude.{OnOk};
ghost use Rattle.codec.specs.Forms.{Reads, Appends, Form};
ghost use Rattle.codec.specs.Requests.{start, call_message, request, request_behind};

use crate::beats::{put_beat, read_beat};
use crate::calls::{put_call, read_call};
use crate::faults::WireFault;
use crate::inputs::Input;
use crate::kinds::{REQUEST_KINDS, RequestKind};
use crate::numbers::{put_client, put_message, read_client, read_message};
use crate::outputs::{put_byte, put_word};
use crate::texts::{put_optional_bytes, put_principal, read_optional_bytes, read_principal};
use std::alloc::{AllocError, Global};
use tags_cell::{CallMessage, Request, Start};

#[tactic(auto, unfolding(crate::specs::Requests::start))]
fn read_start(alloc: Global, input: &mut Input) -> Result<Start, WireFault>
    ensures { Reads (λ x. x) result input.new (start.read input.old) }
{
    Ok(Start {
        client: read_client(input)?,
        number: read_message(input)?,
        principal: read_principal(alloc, input)?,
    })
}

#[tactic(auto, unfolding(crate::specs::Requests::start))]
fn put_start(out: &mut Vec<u8>, message: &Start) -> Result<(), AllocError>
    ensures { OnOk result (Appends start message.now out.old.items out.new.items) }
{
    put_client(out, message.client)?;
    put_message(out, message.number)?;
    put_principal(out, &message.principal)
}

#[tactic(auto, unfolding(crate::specs::Requests::call_message))]
fn read_call_message(alloc: Global, input: &mut Input) -> Result<CallMessage, WireFault>
    ensures { Reads (λ x. x) result input.new (call_message.read input.old) }
{
    Ok(CallMessage {
        client: read_client(input)?,
        epoch: input.word()?,
        number: read_message(input)?,
        call: read_call(alloc, input)?,
        sequencer: read_optional_bytes(alloc, input)?,
    })
}

#[tactic(auto, unfolding(crate::specs::Requests::call_message))]
fn put_call_message(out: &mut Vec<u8>, message: &CallMessage) -> Result<(), AllocError>
    ensures { OnOk result (Appends call_message message.now out.old.items out.new.items) }
{
    put_client(out, message.client)?;
    put_word(out, message.epoch)?;
    put_message(out, message.number)?;
    put_call(out, &message.call)?;
    put_optional_bytes(out, &message.sequencer)
}

#[tactic(auto, unfolding(crate::specs::Requests::request))]
pub(crate) fn read_request_body(alloc: Global, input: &mut Input) -> Result<Request, WireFault>
    ensures { Reads (λ x. x) result input.new (request.read input.old) }
{
    let kind = input.choice(&REQUEST_KINDS)?;
    read_request_of(alloc, input, kind)
}

fn read_request_of(
    alloc: Global,
    input: &mut Input,
    kind: RequestKind,
) -> Result<Request, WireFault>
    ensures { Reads (λ x. x) result input.new (request_behind kind input.old) }
{
    Ok(match kind {
        RequestKind::Start => Request::Start(read_start(alloc, input)?),
        RequestKind::Beat => Request::Beat(read_beat(input)?),
        RequestKind::Call => Request::Call(read_call_message(alloc, input)?),
    })
}

#[tactic(auto, unfolding(crate::specs::Requests::request))]
pub(crate) fn put_request_body(out: &mut Vec<u8>, message: &Request) -> Result<(), AllocError>
    ensures { OnOk result (Appends request message.now out.old.items out.new.items) }
{
    match message {
        Request::Start(start) => {
            put_byte(out, 0)?;
            put_start(out, start)
        }
        Request::Beat(beat) => {
            put_byte(out, 1)?;
            put_beat(out, beat)
        }
        Request::Call(call) => {
            put_byte(out, 2)?;
            put_call_message(out, call)
        }
    }
}
