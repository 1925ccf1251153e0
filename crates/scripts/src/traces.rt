//! What is told of messages as they are sent.
ghost use Rattle.std.specs.Prelude.{◌≡◌, ◌+◌, min, OnOk};
ghost use Rattle.std.specs.Io.KnownBytes.{Appends};
ghost use Rattle.scripts.specs.Traced.{call_kind, request_kind, out_kind, request_text, out_text, message_text};

use crate::stops::ScriptStop;
use std::io::{self, Write};
use tags_cell::{Call, Out, Request};
use world_steps::Message;

/// Where it is told why a script stops, and, where it is traced, which messages were sent.
#[derive(Drop)]
pub(crate) struct Trace<E: Write + Drop> {
    errors: E,
    is_on: bool,
    // How many messages are told of.
    told: usize,
}

impl<E: Write + Drop> Trace<E> {
    /// Nothing is told of the messages so far.
    pub(crate) fn new(errors: E, is_on: bool, told: usize) -> Trace<E> {
        Trace {
            errors,
            is_on,
            told,
        }
    }

    /// Tells of the messages that were sent since it told of some. Where these words can't be written, the script goes on.
    pub(crate) fn tell(&mut self, messages: &[Message]) {
        if !self.is_on {
            return;
        }
        for place in self.told..messages.len() {
            let _ = write_message(&mut self.errors, place, &messages[place]);
        }
        self.told = messages.len();
    }

    /// Tells why a script stops.
    pub(crate) fn stop(&mut self, stop: &ScriptStop) -> io::Result<()> {
        match stop {
            ScriptStop::BadStep(line) | ScriptStop::Unread(line) => {
                writeln!(&mut self.errors, "line {line}: bad step")
            }
            ScriptStop::NoMemory => writeln!(&mut self.errors, "out of memory"),
            ScriptStop::Unwritten => Ok(()),
        }
    }
}

// The message at a place, whose number is one more.
fn write_message<E: Write>(errors: &mut E, place: usize, message: &Message) -> io::Result<()>
    ensures { OnOk result (Appends (E.contents errors.old) (E.contents errors.new) (message_text (min (place + 1) 18446744073709551615) message.now)) }
{
    let number = (place as u64).saturating_add(1);
    match message {
        Message::ToMaster(request) => write_request(errors, number, request),
        Message::ToClient(out) => write_out(errors, number, out),
    }
}

fn write_request<E: Write>(errors: &mut E, number: u64, request: &Request) -> io::Result<()>
    ensures { OnOk result (Appends (E.contents errors.old) (E.contents errors.new) (request_text number request.now)) }
{
    let client = request.client().get();
    let kind = request_kind(request);
    writeln!(errors, "message {number} client {client} -> master {kind}")
}

fn write_out<E: Write>(errors: &mut E, number: u64, out: &Out) -> io::Result<()>
    ensures { OnOk result (Appends (E.contents errors.old) (E.contents errors.new) (out_text number out.now)) }
{
    let client = out.client().get();
    let kind = out_kind(out);
    writeln!(errors, "message {number} master -> client {client} {kind}")
}

fn request_kind(request: &Request) -> &'static str
    ensures { result.now ≡ request_kind request.now }
{
    match request {
        Request::Start(_) => "Start",
        Request::Beat(_) => "Beat",
        Request::Call(message) => call_kind(&message.call),
    }
}

// By the word of a script that asks for it.
fn call_kind(call: &Call) -> &'static str
    ensures { result.now ≡ call_kind call.now }
{
    match call {
        Call::Open(_) => "Call open",
        Call::Close(_) => "Call close",
        Call::Read(_) => "Call read",
        Call::Stat(_) => "Call stat",
        Call::List(_) => "Call list",
        Call::Set { .. } => "Call set",
        Call::SetAcl { .. } => "Call acl",
        Call::Delete(_) => "Call delete",
        Call::Acquire { .. } => "Call acquire",
        Call::TryAcquire { .. } => "Call try",
        Call::Release(_) => "Call release",
        Call::GetSequencer(_) => "Call getseq",
        Call::SetSequencer(_) => "Call setseq",
        Call::CheckSequencer(_) => "Call checkseq",
        Call::Leave => "Call leave",
    }
}

fn out_kind(out: &Out) -> &'static str
    ensures { result.now ≡ out_kind out.now }
{
    match out {
        Out::Started(_) => "Started",
        Out::Alive(_) => "Alive",
        Out::Reply(_) => "Reply",
        Out::Refused(_) => "Refused",
    }
}
