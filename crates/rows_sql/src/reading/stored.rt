//! What the rows of a store say.
ghost use Rattle.std.specs.Prelude.{◌≡◌, ◌==◌, IfOk};
ghost use Rattle.sqlite_value.specs.Order.{column, bytes};
ghost use Rattle.sqlite.specs.Edit.{id_in};
ghost use Rattle.rows_sql.specs.Decode.{count_of, count_in, node_with, name_in, component_in, secret_in, kind_of, life_of, live_of, lock_state_of, numbers_in, acls_in, node_in, session_in, lock_in, child_in, none_below, above_third, ended_of, is_row_of, meta_as};

use crate::schema::Version;
use collections::{Bytes, Secret};
use names_cell::{Component, Name, NameFault, Principal};
use node_core::{Kind, Life, Node};
use rows_cell::{LockKey, LockRow, LockState, SessionRow, StoredNode};
use sqlite::Row;
use sqlite_value::value::ValueRef;
use std::alloc::{AllocError, Global};
use std::str;

/// The numbers of a node.
#[derive(Clone, Copy, Debug, PartialEq, Eq)]
pub struct Numbers {
    pub kind: Kind,
    pub life: Life,
    pub instance: u64,
    pub content_generation: u64,
    pub acl_generation: u64,
    pub lock_generation: u64,
}

/// The ACLs that a node names.
#[derive(Drop)]
pub struct Acls {
    pub read: Component,
    pub write: Component,
    pub change: Component,
}

/// What the one row of the cell says.
#[derive(Drop)]
pub struct Meta {
    pub cell: Component,
    pub secret: Secret,
    pub epoch: u64,
    pub next_instance: u64,
    pub ended_below: u64,
}

// The bytes of a text or a blob.
fn bytes_at(row: &Row, at: usize) -> &[u8]
    ensures { result.now ≡ bytes (column row.now at) }
{
    match row.get_ref(at) {
        Ok(ValueRef::Text(text)) => text,
        Ok(ValueRef::Blob(blob)) => blob,
        _ => &[],
    }
}

fn number_at(row: &Row, at: usize) -> i64
    ensures { result ≡ id_in (column row.now at) }
{
    match row.get_ref(at) {
        Ok(ValueRef::Int(number)) => number,
        _ => 0,
    }
}

fn count_of(number: i64) -> Option<u64>
    ensures { result ≡ count_of number }
{
    if number < 0 {
        None
    } else {
        Some(number.unsigned_abs())
    }
}

fn count_at(row: &Row, at: usize) -> Option<u64>
    ensures { result ≡ count_in (column row.now at) }
{
    count_of(number_at(row, at))
}

fn name_at(alloc: Global, row: &Row, at: usize) -> Result<Option<Name>, AllocError>
    ensures { IfOk result (λ name. name ≡ name_in (column row.now at)) }
{
    let Ok(text) = str::from_utf8(bytes_at(row, at)) else {
        return Ok(None);
    };
    match Name::parse(alloc, text) {
        Ok(name) => Ok(Some(name)),
        Err(NameFault::NoMemory) => Err(AllocError),
        Err(_) => Ok(None),
    }
}

fn component_at(alloc: Global, row: &Row, at: usize) -> Result<Option<Component>, AllocError>
    ensures { IfOk result (λ text. text ≡ component_in (column row.now at)) }
{
    let Ok(text) = str::from_utf8(bytes_at(row, at)) else {
        return Ok(None);
    };
    match Component::parse(alloc, text) {
        Ok(component) => Ok(Some(component)),
        Err(NameFault::NoMemory) => Err(AllocError),
        Err(_) => Ok(None),
    }
}

fn principal_at(alloc: Global, row: &Row, at: usize) -> Result<Option<Principal>, AllocError>
    ensures { IfOk result (λ text. text ≡ component_in (column row.now at)) }
{
    let Ok(text) = str::from_utf8(bytes_at(row, at)) else {
        return Ok(None);
    };
    match Principal::parse(alloc, text) {
        Ok(principal) => Ok(Some(principal)),
        Err(NameFault::NoMemory) => Err(AllocError),
        Err(_) => Ok(None),
    }
}

fn secret_at(row: &Row, at: usize) -> Option<Secret>
    ensures { result ≡ secret_in (column row.now at) }
{
    let bytes = bytes_at(row, at);
    if bytes.len() != 32 {
        return None;
    }
    let mut secret = [0; 32];
    secret.copy_from_slice(bytes);
    Some(Secret::new(secret))
}

fn kind_of(number: i64) -> Option<Kind>
    ensures { result ≡ kind_of number }
{
    if number == 0 {
        Some(Kind::File)
    } else if number == 1 {
        Some(Kind::Directory)
    } else {
        None
    }
}

fn life_of(number: i64) -> Option<Life>
    ensures { result ≡ life_of number }
{
    if number == 0 {
        Some(Life::Permanent)
    } else if number == 1 {
        Some(Life::Ephemeral)
    } else {
        None
    }
}

fn live_of(number: i64) -> Option<bool>
    ensures { result ≡ live_of number }
{
    if number == 0 {
        Some(false)
    } else if number == 1 {
        Some(true)
    } else {
        None
    }
}

fn lock_state_of(number: i64) -> Option<LockState>
    ensures { result ≡ lock_state_of number }
{
    if number == 0 {
        Some(LockState::Lapsed)
    } else if number == 1 {
        Some(LockState::Exclusive)
    } else if number == 2 {
        Some(LockState::Shared)
    } else {
        None
    }
}

fn numbers_of(row: &Row) -> Option<Numbers>
    ensures { result ≡ numbers_in row.now }
{
    let kind = kind_of(number_at(row, 2))?;
    let life = life_of(number_at(row, 3))?;
    let instance = count_at(row, 1)?;
    let content_generation = count_at(row, 4)?;
    let acl_generation = count_at(row, 5)?;
    let lock_generation = count_at(row, 6)?;
    Some(Numbers {
        kind,
        life,
        instance,
        content_generation,
        acl_generation,
        lock_generation,
    })
}

fn acls_of(alloc: Global, row: &Row) -> Result<Option<Acls>, AllocError>
    ensures { IfOk result (λ acls. acls ≡ acls_in row.now) }
{
    let Some(read) = component_at(alloc, row, 7)? else {
        return Ok(None);
    };
    let Some(write) = component_at(alloc, row, 8)? else {
        return Ok(None);
    };
    let Some(change) = component_at(alloc, row, 9)? else {
        return Ok(None);
    };
    Ok(Some(Acls {
        read,
        write,
        change,
    }))
}

/// The node that a row says.
pub(crate) fn node_of(alloc: Global, row: &Row) -> Result<Option<(Name, StoredNode)>, AllocError>
    ensures { IfOk result (λ node. node ≡ node_in row.now) }
{
    let Some(numbers) = numbers_of(row) else {
        return Ok(None);
    };
    let Some(acls) = acls_of(alloc, row)? else {
        return Ok(None);
    };
    let Some(name) = name_at(alloc, row, 0)? else {
        return Ok(None);
    };
    let content = Bytes::copy_of(alloc, bytes_at(row, 10))?;
    Ok(Some((name, node_with(numbers, acls, content))))
}

fn node_with(numbers: Numbers, acls: Acls, content: Bytes) -> StoredNode
    ensures { result ≡ node_with numbers acls content }
{
    StoredNode {
        node: Node {
            kind: numbers.kind,
            instance: numbers.instance,
            content_generation: numbers.content_generation,
            acl_generation: numbers.acl_generation,
            read: acls.read,
            write: acls.write,
            change: acls.change,
            life: numbers.life,
            content,
        },
        lock_generation: numbers.lock_generation,
    }
}

/// The session that a row says, and its client.
pub(crate) fn session_of(alloc: Global, row: &Row) -> Result<Option<(u64, SessionRow)>, AllocError>
    ensures { IfOk result (λ session. session ≡ session_in row.now) }
{
    let Some(client) = count_at(row, 0) else {
        return Ok(None);
    };
    let Some(live) = live_of(number_at(row, 2)) else {
        return Ok(None);
    };
    let Some(principal) = principal_at(alloc, row, 1)? else {
        return Ok(None);
    };
    Ok(Some((client, SessionRow { principal, live })))
}

/// The lock that a row says.
pub(crate) fn lock_of(row: &Row) -> Option<(LockKey, LockRow)>
    ensures { result ≡ lock_in row.now }
{
    let instance = count_at(row, 0)?;
    let client = count_at(row, 1)?;
    let handle = count_at(row, 2)?;
    let state = lock_state_of(number_at(row, 3))?;
    let delay = count_at(row, 4)?;
    let key = LockKey {
        instance,
        client,
        handle,
    };
    Some((key, LockRow { state, delay }))
}

/// The child that a row says, and its parent.
pub(crate) fn child_of(alloc: Global, row: &Row) -> Result<Option<(Name, Name)>, AllocError>
    ensures { IfOk result (λ child. child ≡ child_in row.now) }
{
    let Some(parent) = name_at(alloc, row, 0)? else {
        return Ok(None);
    };
    let Some(child) = name_at(alloc, row, 1)? else {
        return Ok(None);
    };
    Ok(Some((child, parent)))
}

// Whether it is the row of a cell.
fn is_row_of(row: &Row) -> bool
    ensures { result ≡ is_row_of row.now }
{
    number_at(row, 0) == 1
}

// No session is forgotten by a store of a version before: its number is that of the version.
fn none_below(version: Version, number: i64) -> Option<u64>
    ensures { result ≡ none_below version number }
{
    if number == version.number() {
        Some(0)
    } else {
        None
    }
}

// By how much it is above the number of the version of now.
fn above_third(count: Option<u64>) -> Option<u64>
    ensures { result ≡ above_third count }
{
    let count = count?;
    if count < 3 { None } else { Some(count - 3) }
}

// Below which number the sessions that no row names have ended.
fn ended_of(version: Version, number: i64) -> Option<u64>
    ensures { result ≡ ended_of version number }
{
    match version {
        Version::First => none_below(version, number),
        Version::Unindexed => none_below(version, number),
        Version::Second => none_below(version, number),
        Version::Third => above_third(count_of(number)),
    }
}

/// What the row of the cell says, in a store of this version.
pub(crate) fn meta_of(
    alloc: Global,
    version: Version,
    row: &Row,
) -> Result<Option<Meta>, AllocError>
    ensures { IfOk result (λ meta. meta ≡ meta_as version row.now) }
{
    if !is_row_of(row) {
        return Ok(None);
    }
    let Some(ended_below) = ended_of(version, number_at(row, 1)) else {
        return Ok(None);
    };
    let Some(epoch) = count_at(row, 4) else {
        return Ok(None);
    };
    let Some(next_instance) = count_at(row, 5) else {
        return Ok(None);
    };
    let Some(secret) = secret_at(row, 3) else {
        return Ok(None);
    };
    let Some(cell) = component_at(alloc, row, 2)? else {
        return Ok(None);
    };
    Ok(Some(Meta {
        cell,
        secret,
        epoch,
        next_instance,
        ended_below,
    }))
}
