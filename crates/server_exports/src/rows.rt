//! The rows that a master is told, of their parts.
ghost use Rattle.std.specs.Prelude.{◌≡◌};
ghost use Rattle.collections.specs.Results.{Gives};
ghost use Rattle.server_exports.specs.Rows.{kind_in, life_in, state_in, name_in, component_in, secret_in, node_in, node_row, session_row, lock_row, front_in};

use codec::WireFault;
use collections::{Bytes, Secret};
use names_cell::{Component, Name, Principal};
use node_core::{Kind, Life, Node};
use rows_cell::{LockKey, LockRow, LockState, SessionRow, StoredNode};
use rows_remote::{Own, Row, write_front, write_row};
use std::alloc::Global;
use std::str;

/// A node as its row has it, in plain numbers. In C a struct.
#[repr(C)]
#[derive(Clone, Copy)]
pub struct NodeParts {
    /// 0 a file, 1 a directory.
    pub kind: u32,
    /// 0 permanent, 1 ephemeral.
    pub life: u32,
    pub instance: u64,
    pub content_generation: u64,
    pub acl_generation: u64,
    pub lock_generation: u64,
}

/// The row of a lock, in plain numbers. In C a struct.
#[repr(C)]
#[derive(Clone, Copy)]
pub struct LockParts {
    pub instance: u64,
    pub client: u64,
    pub handle: u64,
    /// 0 lapsed, 1 exclusive, 2 shared.
    pub state: u64,
    /// In milliseconds.
    pub delay: u64,
}

/// What is told before the rows, in plain numbers. In C a struct.
#[repr(C)]
#[derive(Clone, Copy)]
pub struct OwnParts {
    /// How many commits made them.
    pub number: u64,
    /// How many masters came up.
    pub epoch: u64,
    /// The instance of the next node.
    pub next_instance: u64,
    /// A client number below it that has no session gets none any more.
    pub ended_below: u64,
    /// How many rows follow.
    pub rows: u64,
    /// How many bytes these have together.
    pub length: u64,
}

// The row of a node.
pub(crate) fn node_row(
    alloc: Global,
    parts: &NodeParts,
    name: &[u8],
    read: &[u8],
    write: &[u8],
    change: &[u8],
    content: &[u8],
) -> Result<Bytes, WireFault>
    ensures { Gives WireFault.NoMemory result (node_row parts.now name.now read.now write.now change.now content.now) }
{
    let name = name_in(alloc, name)?;
    let node = node_in(alloc, parts, read, write, change, content)?;
    let told = Row::Node(
        name,
        StoredNode {
            node,
            lock_generation: parts.lock_generation,
        },
    );
    let written = write_row(alloc, &told);
    drop(told);
    written
}

fn node_in(
    alloc: Global,
    parts: &NodeParts,
    read: &[u8],
    write: &[u8],
    change: &[u8],
    content: &[u8],
) -> Result<Node, WireFault>
    ensures { Gives WireFault.NoMemory result (node_in parts.now read.now write.now change.now content.now) }
{
    let kind = kind_in(parts.kind)?;
    let life = life_in(parts.life)?;
    let read = component_in(alloc, read)?;
    let write = component_in(alloc, write)?;
    let change = component_in(alloc, change)?;
    Ok(Node {
        kind,
        instance: parts.instance,
        content_generation: parts.content_generation,
        acl_generation: parts.acl_generation,
        read,
        write,
        change,
        life,
        content: Bytes::copy_of(alloc, content)?,
    })
}

// The row of a client's session.
pub(crate) fn session_row(
    alloc: Global,
    client: u64,
    principal: &[u8],
    live: u64,
) -> Result<Bytes, WireFault>
    ensures { Gives WireFault.NoMemory result (session_row client principal.now live) }
{
    let principal = principal_in(alloc, principal)?;
    let session = SessionRow {
        principal,
        live: live != 0,
    };
    let told = Row::Session(client, session);
    let written = write_row(alloc, &told);
    drop(told);
    written
}

// The row of a lock.
pub(crate) fn lock_row(alloc: Global, parts: &LockParts) -> Result<Bytes, WireFault>
    ensures { Gives WireFault.NoMemory result (lock_row parts.now) }
{
    let state = state_in(parts.state)?;
    let key = LockKey {
        instance: parts.instance,
        client: parts.client,
        handle: parts.handle,
    };
    let row = LockRow {
        state,
        delay: parts.delay,
    };
    write_row(alloc, &Row::Lock(key, row))
}

// What stands in front of rows.
pub(crate) fn front_in(
    alloc: Global,
    parts: &OwnParts,
    cell: &[u8],
    secret: &[u8],
) -> Result<Bytes, WireFault>
    ensures { Gives WireFault.NoMemory result (front_in parts.now cell.now secret.now) }
{
    let cell = component_in(alloc, cell)?;
    let secret = secret_in(secret)?;
    let told = Own {
        number: parts.number,
        cell,
        secret,
        epoch: parts.epoch,
        next_instance: parts.next_instance,
        ended_below: parts.ended_below,
    };
    let written = write_front(alloc, &told, parts.rows as usize, parts.length as usize);
    drop(told);
    written
}

fn kind_in(kind: u32) -> Result<Kind, WireFault>
    ensures { result ≡ kind_in kind }
{
    match kind {
        0 => Ok(Kind::File),
        1 => Ok(Kind::Directory),
        _ => Err(WireFault::BadKind),
    }
}

fn life_in(life: u32) -> Result<Life, WireFault>
    ensures { result ≡ life_in life }
{
    match life {
        0 => Ok(Life::Permanent),
        1 => Ok(Life::Ephemeral),
        _ => Err(WireFault::BadKind),
    }
}

fn state_in(state: u64) -> Result<LockState, WireFault>
    ensures { result ≡ state_in state }
{
    match state {
        0 => Ok(LockState::Lapsed),
        1 => Ok(LockState::Exclusive),
        2 => Ok(LockState::Shared),
        _ => Err(WireFault::BadKind),
    }
}

fn name_in(alloc: Global, text: &[u8]) -> Result<Name, WireFault>
    ensures { Gives WireFault.NoMemory result (name_in text.now) }
{
    let Ok(text) = str::from_utf8(text) else {
        return Err(WireFault::BadText);
    };
    Ok(Name::parse(alloc, text)?)
}

fn component_in(alloc: Global, text: &[u8]) -> Result<Component, WireFault>
    ensures { Gives WireFault.NoMemory result (component_in text.now) }
{
    let Ok(text) = str::from_utf8(text) else {
        return Err(WireFault::BadText);
    };
    Ok(Component::parse(alloc, text)?)
}

fn principal_in(alloc: Global, text: &[u8]) -> Result<Principal, WireFault>
    ensures { Gives WireFault.NoMemory result (component_in text.now) }
{
    let Ok(text) = str::from_utf8(text) else {
        return Err(WireFault::BadText);
    };
    Ok(Principal::parse(alloc, text)?)
}

fn secret_in(bytes: &[u8]) -> Result<Secret, WireFault>
    ensures { result ≡ secret_in bytes.now }
{
    if bytes.len() != 32 {
        return Err(WireFault::BadNumber);
    }
    let mut own = [0; 32];
    own.copy_from_slice(bytes);
    Ok(Secret::new(own))
}
