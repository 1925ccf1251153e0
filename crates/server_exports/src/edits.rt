//! An edit of the rows that a master asks for, by its parts.
ghost use Rattle.std.specs.Prelude.{◌≡◌, Ok, IfOk};
ghost use Rattle.codec.specs.Forms.{flag};
ghost use Rattle.codec.specs.Fields.{kind_place, life_place};
ghost use Rattle.rows_remote.specs.Forms.{state_place};
ghost use Rattle.rows_remote.specs.Frames.{edit_at};
ghost use Rattle.server_exports.specs.Codes.{Tells};
ghost use Rattle.server_exports.specs.Edits.{bare_edit, keyed_edit, put_parts, parts_of, edit_parts, put_texts, texts_of, edit_texts};

use crate::codes::fault_code;
use crate::heard::{kind_place, life_place};
use crate::rooms::fill;
use codec::WireFault;
use collections::Bytes;
use names_cell::Name;
use node_core::Node;
use rows_cell::{Edit, LockKey, LockState};
use rows_remote::read_edit;
use std::alloc::{AllocError, Global};

/// An edit of the rows, in plain numbers; what doesn't belong to its kind is 0. In C a struct.
#[repr(C)]
#[derive(Clone, Copy)]
pub struct EditParts {
    /// 1 to 10: epoch, next instance, put node, lock generation, remove node, put session, put lock, remove lock, remove session,
    /// ended below.
    pub what: u32,
    /// Of a node: 0 a file, 1 a directory.
    pub kind: u32,
    /// Of a node: 0 permanent, 1 ephemeral.
    pub life: u32,
    /// Of a lock: 0 lapsed, 1 exclusive, 2 shared.
    pub state: u32,
    /// The epoch, the next instance, the generation of the lock, or below which number sessions have ended.
    pub number: u64,
    pub client: u64,
    /// Of a session: 1 where it is live.
    pub live: u64,
    pub instance: u64,
    pub handle: u64,
    pub content_generation: u64,
    pub acl_generation: u64,
    /// Of a lock, in milliseconds.
    pub delay: u64,
    /// Of the node's name, or of the session's principal, in bytes.
    pub name_length: u64,
    /// Of the ACL names of a node, and of its content.
    pub read_length: u64,
    pub write_length: u64,
    pub change_length: u64,
    pub content_length: u64,
    /// How many of the bytes are its own.
    pub taken: u64,
}

// The edit at the front of these bytes by its parts; or what is wrong with them.
pub(crate) fn tell_edit(alloc: Global, edits: &[u8], out: &mut EditParts, texts: &mut [u8]) -> u32
    ensures { Tells edit_parts edit_texts (edit_at edits.now) out.old out.new texts.old texts.new result }
{
    match read_edit(alloc, edits) {
        Ok((done, taken)) => {
            let code = put_edit(alloc, &done, taken, out, texts);
            drop(done);
            code
        }
        Err(fault) => fault_code(fault),
    }
}

fn put_edit(alloc: Global, done: &Edit, taken: usize, out: &mut EditParts, texts: &mut [u8]) -> u32
    ensures { Tells edit_parts edit_texts (Ok (done.now, taken)) out.old out.new texts.old texts.new result }
{
    match texts_of(alloc, done) {
        Ok(bytes) => {
            *out = parts_of(done, taken as u64);
            fill(bytes.as_slice(), texts);
            drop(bytes);
            0
        }
        Err(_) => fault_code(WireFault::NoMemory),
    }
}

pub(crate) fn bare_edit(what: u32, taken: u64) -> EditParts
    ensures { result ≡ bare_edit what taken }
{
    EditParts {
        what,
        kind: 0,
        life: 0,
        state: 0,
        number: 0,
        client: 0,
        live: 0,
        instance: 0,
        handle: 0,
        content_generation: 0,
        acl_generation: 0,
        delay: 0,
        name_length: 0,
        read_length: 0,
        write_length: 0,
        change_length: 0,
        content_length: 0,
        taken,
    }
}

fn parts_of(done: &Edit, taken: u64) -> EditParts
    ensures { result ≡ parts_of done.now taken }
{
    match done {
        Edit::Epoch(epoch) => EditParts {
            number: *epoch,
            ..bare_edit(1, taken)
        },
        Edit::NextInstance(next) => EditParts {
            number: *next,
            ..bare_edit(2, taken)
        },
        Edit::PutNode(name, node) => put_parts(name, node, taken),
        Edit::LockGeneration(name, generation) => EditParts {
            number: *generation,
            name_length: name.as_str().as_bytes().len() as u64,
            ..bare_edit(4, taken)
        },
        Edit::RemoveNode(name) => EditParts {
            name_length: name.as_str().as_bytes().len() as u64,
            ..bare_edit(5, taken)
        },
        Edit::PutSession(client, session) => EditParts {
            client: *client,
            live: live_number(session.live),
            name_length: session.principal.as_str().as_bytes().len() as u64,
            ..bare_edit(6, taken)
        },
        Edit::PutLock(key, row) => EditParts {
            state: state_place(row.state),
            delay: row.delay,
            ..keyed_edit(7, *key, taken)
        },
        Edit::RemoveLock(key) => keyed_edit(8, *key, taken),
        Edit::RemoveSession(client) => EditParts {
            client: *client,
            ..bare_edit(9, taken)
        },
        Edit::EndedBelow(next) => EditParts {
            number: *next,
            ..bare_edit(10, taken)
        },
    }
}

fn put_parts(name: &Name, node: &Node, taken: u64) -> EditParts
    ensures { result ≡ put_parts name.now node.now taken }
{
    EditParts {
        kind: kind_place(node.kind),
        life: life_place(node.life),
        instance: node.instance,
        content_generation: node.content_generation,
        acl_generation: node.acl_generation,
        name_length: name.as_str().as_bytes().len() as u64,
        read_length: node.read.as_str().as_bytes().len() as u64,
        write_length: node.write.as_str().as_bytes().len() as u64,
        change_length: node.change.as_str().as_bytes().len() as u64,
        content_length: node.content.len() as u64,
        ..bare_edit(3, taken)
    }
}

fn keyed_edit(what: u32, key: LockKey, taken: u64) -> EditParts
    ensures { result ≡ keyed_edit what key taken }
{
    EditParts {
        instance: key.instance,
        client: key.client,
        handle: key.handle,
        ..bare_edit(what, taken)
    }
}

fn live_number(live: bool) -> u64
    ensures { result ≡ flag live }
{
    if live { 1 } else { 0 }
}

fn state_place(state: LockState) -> u32
    ensures { result ≡ state_place state }
{
    match state {
        LockState::Lapsed => 0,
        LockState::Exclusive => 1,
        LockState::Shared => 2,
    }
}

// Its texts, one after the other.
fn texts_of(alloc: Global, done: &Edit) -> Result<Bytes, AllocError>
    ensures { IfOk result (λ bytes. bytes ≡ texts_of done.now) }
{
    match done {
        Edit::PutNode(name, node) => put_texts(alloc, name, node),
        Edit::LockGeneration(name, _) => Bytes::copy_of(alloc, name.as_str().as_bytes()),
        Edit::RemoveNode(name) => Bytes::copy_of(alloc, name.as_str().as_bytes()),
        Edit::PutSession(_, session) => {
            Bytes::copy_of(alloc, session.principal.as_str().as_bytes())
        }
        _ => Bytes::copy_of(alloc, &[]),
    }
}

fn put_texts(alloc: Global, name: &Name, node: &Node) -> Result<Bytes, AllocError>
    ensures { IfOk result (λ bytes. bytes ≡ put_texts name.now node.now) }
{
    let mut out = Vec::new(alloc);
    out.extend_from_slice(name.as_str().as_bytes())?;
    out.extend_from_slice(node.read.as_str().as_bytes())?;
    out.extend_from_slice(node.write.as_str().as_bytes())?;
    out.extend_from_slice(node.change.as_str().as_bytes())?;
    out.extend_from_slice(node.content.as_slice())?;
    Bytes::from_vec(out)
}
