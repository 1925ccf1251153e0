//! A client's message, by its parts.
ghost use Rattle.std.specs.Prelude.{◌≡◌, Ok};
ghost use Rattle.codec.specs.Forms.{Form, read_whole};
ghost use Rattle.codec.specs.Requests.{request};
ghost use Rattle.server_exports.specs.Codes.{Parts, Tells};
ghost use Rattle.server_exports.specs.Asked.{asked_parts, asked_name, call_number, node_content, made_content, call_content, is_there, call_makes, call_name};

use crate::codes::fault_code;
use crate::rooms::fill;
use crate::shown::{shown_instance, shown_name};
use codec::read_request;
use master_parts::bytes_of;
use std::alloc::Global;
use tags_cell::{Call, CallMessage, Create, NewNode, Request};

/// A client's message, in plain numbers; what doesn't belong to its kind is 0. In C a struct.
#[repr(C)]
#[derive(Clone, Copy)]
pub struct RequestParts {
    /// 1 a Start, 2 a Beat, 3 a call.
    pub what: u32,
    /// 1 to 15: Open, Close, Read, Stat, List, Set, SetAcl, Delete, Acquire, TryAcquire, Release, GetSequencer, SetSequencer,
    /// CheckSequencer, Leave.
    pub call: u32,
    pub client: u64,
    pub epoch: u64,
    /// Its own number.
    pub number: u64,
    /// Of an Open: 1 where it makes a node where none is.
    pub makes: u64,
    /// That a handle shows: only a master tests its check digits.
    pub instance: u64,
    /// Of the content that it brings, in bytes.
    pub length: u64,
    /// Of the name, in bytes: of a Start its principal, of an Open its name, of another call the name that its handle shows, which may
    /// be any bytes.
    pub name_length: u64,
}

// A message by its parts, of its bytes; or what is wrong with them.
pub(crate) fn tell_asked(
    alloc: Global,
    message: &[u8],
    out: &mut RequestParts,
    name: &mut [u8],
) -> u32
    ensures { Tells asked_parts asked_name (read_whole request message.now) out.old out.new name.old name.new result }
{
    match read_request(alloc, message) {
        Ok(request) => {
            let code = put_asked(&request, out, name);
            drop(request);
            code
        }
        Err(fault) => fault_code(fault),
    }
}

fn put_asked(request: &Request, out: &mut RequestParts, name: &mut [u8]) -> u32
    ensures { Parts asked_parts asked_name (Ok request.now) out.old out.new name.old name.new result }
{
    *out = asked_parts(request);
    fill(asked_name(request), name);
    0
}

fn asked_parts(request: &Request) -> RequestParts
    ensures { result ≡ asked_parts request.now }
{
    match request {
        Request::Start(start) => RequestParts {
            what: 1,
            call: 0,
            client: start.client.get(),
            epoch: 0,
            number: start.number.get(),
            makes: 0,
            instance: 0,
            length: 0,
            name_length: start.principal.as_str().as_bytes().len() as u64,
        },
        Request::Beat(beat) => RequestParts {
            what: 2,
            call: 0,
            client: beat.client.get(),
            epoch: beat.epoch,
            number: beat.number.get(),
            makes: 0,
            instance: 0,
            length: 0,
            name_length: 0,
        },
        Request::Call(message) => call_parts(message),
    }
}

fn call_parts(message: &CallMessage) -> RequestParts
    ensures { result ≡ asked_parts (Request.Call message.now) }
{
    let call = &message.call;
    RequestParts {
        what: 3,
        call: call_number(call),
        client: message.client.get(),
        epoch: message.epoch,
        number: message.number.get(),
        makes: call_makes(call),
        instance: shown_instance(bytes_of(call)),
        length: call_content(call).len() as u64,
        name_length: call_name(call).len() as u64,
    }
}

fn asked_name(request: &Request) -> &[u8]
    ensures { result.now ≡ asked_name request.now }
{
    match request {
        Request::Start(start) => start.principal.as_str().as_bytes(),
        Request::Beat(_) => &[],
        Request::Call(message) => call_name(&message.call),
    }
}

fn call_number(call: &Call) -> u32
    ensures { result ≡ call_number call.now }
{
    match call {
        Call::Open(_) => 1,
        Call::Close(_) => 2,
        Call::Read(_) => 3,
        Call::Stat(_) => 4,
        Call::List(_) => 5,
        Call::Set { .. } => 6,
        Call::SetAcl { .. } => 7,
        Call::Delete(_) => 8,
        Call::Acquire { .. } => 9,
        Call::TryAcquire { .. } => 10,
        Call::Release(_) => 11,
        Call::GetSequencer(_) => 12,
        Call::SetSequencer(_) => 13,
        Call::CheckSequencer(_) => 14,
        Call::Leave => 15,
    }
}

fn node_content(node: &NewNode) -> &[u8]
    ensures { result.now ≡ node_content node.now }
{
    match node {
        NewNode::File(content) => content.as_slice(),
        NewNode::Directory => &[],
    }
}

fn made_content(create: &Option<Create>) -> &[u8]
    ensures { result.now ≡ made_content create.now }
{
    match create {
        Some(create) => node_content(&create.node),
        None => &[],
    }
}

// The content that it brings.
fn call_content(call: &Call) -> &[u8]
    ensures { result.now ≡ call_content call.now }
{
    match call {
        Call::Open(opening) => made_content(&opening.create),
        Call::Set { content, .. } => content.as_slice(),
        _ => &[],
    }
}

fn is_there(create: &Option<Create>) -> u64
    ensures { result ≡ is_there create.now }
{
    match create {
        Some(_) => 1,
        None => 0,
    }
}

// Whether it makes a node where none is.
fn call_makes(call: &Call) -> u64
    ensures { result ≡ call_makes call.now }
{
    match call {
        Call::Open(opening) => is_there(&opening.create),
        _ => 0,
    }
}

// The name that it opens, or that its handle shows.
fn call_name(call: &Call) -> &[u8]
    ensures { result.now ≡ call_name call.now }
{
    match call {
        Call::Open(opening) => opening.name.as_str().as_bytes(),
        _ => shown_name(bytes_of(call)),
    }
}
