//! The whole test of stored rows, by tables over the instances.
ghost use Rattle.std.specs.Prelude.{◌≡◌, false, IfOk, MatchOption, nat_le, is_some};
ghost use Rattle.std.specs.Option.{option_map_or};
ghost use Rattle.std.specs.List.{list_all};
ghost use Rattle.std.specs.Map.{lookup};
ghost use Rattle.std.specs.BTreeMap.{is_at};
ghost use Rattle.std.specs.Ordering.{nat_cmp};
ghost use Rattle.rows_cell.specs.Sound.{sound, is_number, is_directory_at, numbers_fit, content_fits, parent_fits, node_fits, is_live_in, holder_fits, state_fits, lock_fits};
ghost use Rattle.rows_cell.specs.Indexes.{IsIndexed, HasGenerations, HasGroups, numbers_are_sound, are_apart, joined, alone_in, shared_in};

use crate::keys::LockKey;
use crate::tables::{LockRow, LockState, Rows, SessionRow, StoredNode};
use collections::Table;
use names_cell::{Component, Name};
use node_core::{CONTENT_LIMIT, Kind, NUMBER_LIMIT, Node};
use std::alloc::{AllocError, Global};

/// The longest lock-delay, in milliseconds.
const DELAY_LIMIT: u64 = 60_000;

// What the locks of one node are together.
#[derive(Clone, Copy)]
pub(crate) struct NodeLocks {
    pub is_alone: bool,
    pub are_shared: bool,
}

// By instance: the generation of the node's lock, and what its locks are together.
#[derive(Drop)]
pub(crate) struct Index {
    pub generations: Table<u64, u64>,
    pub groups: Table<u64, NodeLocks>,
}

/// Whether a cell of this name may have the rows: the whole test, by which a store that is damaged is told. The time
/// grows as the count of nodes, sessions and locks does, times its logarithm. Refused where memory is wanting alone.
pub fn is_sound(alloc: Global, cell: &Component, rows: &Rows) -> Result<bool, AllocError>
    ensures { IfOk result (λ is. is ≡ sound cell.now rows.now) }
{
    if !numbers_are_sound(cell, rows) {
        return Ok(false);
    }
    let root = Name::root(alloc, cell)?;
    if !is_directory_at(&rows.nodes, &root) {
        return Ok(false);
    }
    if !nodes_fit(cell, rows.next_instance, &rows.nodes)? {
        return Ok(false);
    }
    let Some(index) = index_of(alloc, rows)? else {
        return Ok(false);
    };
    Ok(locks_fit(rows, &index))
}

// The cell's own numbers and those of its clients, and the cell's name.
fn numbers_are_sound(cell: &Component, rows: &Rows) -> bool
    ensures { result ≡ numbers_are_sound cell.now rows.now }
{
    rows.cell.as_str() == cell.as_str()
        && rows.epoch <= NUMBER_LIMIT
        && rows.next_instance <= NUMBER_LIMIT
        && clients_fit(&rows.sessions)
}

#[tactic(auto, using(crate::proofs::WholeTest::all_left, crate::proofs::WholeTest::all_stop))]
fn clients_fit(sessions: &Table<u64, SessionRow>) -> bool
    ensures { result ≡ list_all (λ e. is_number e.0) sessions.now }
{
    for (client, _session) in sessions.as_map() {
        if *client > NUMBER_LIMIT {
            return false;
        }
    }
    true
}

fn is_directory_at(nodes: &Table<Name, StoredNode>, name: &Name) -> bool
    ensures { result ≡ is_directory_at nodes.now name.now }
{
    match nodes.get(name) {
        Some(node) => matches!(node.node.kind, Kind::Directory),
        None => false,
    }
}

fn parent_fits(nodes: &Table<Name, StoredNode>, name: &Name) -> Result<bool, AllocError>
    ensures { IfOk result (λ fits. fits ≡ parent_fits nodes.now name.now) }
{
    match name.parent()? {
        Some(parent) => Ok(is_directory_at(nodes, &parent)),
        None => Ok(true),
    }
}

fn numbers_fit(next: u64, node: &StoredNode) -> bool
    ensures { result ≡ numbers_fit next node.now }
{
    node.node.instance >= 1
        && node.node.instance < next
        && node.node.content_generation <= NUMBER_LIMIT
        && node.node.acl_generation <= NUMBER_LIMIT
        && node.lock_generation <= NUMBER_LIMIT
}

fn content_fits(node: &Node) -> bool
    ensures { result ≡ content_fits node.now.kind node.now }
{
    match node.kind {
        Kind::File => node.content.len() <= CONTENT_LIMIT,
        Kind::Directory => node.content_generation == 0 && node.content.len() == 0,
    }
}

fn node_fits(
    cell: &Component,
    next: u64,
    nodes: &Table<Name, StoredNode>,
    name: &Name,
    node: &StoredNode,
) -> Result<bool, AllocError>
    ensures { IfOk result (λ fits. fits ≡ node_fits cell.now next nodes.now (name.now, node.now)) }
{
    if !name.in_cell(cell.as_str()) {
        return Ok(false);
    }
    if !numbers_fit(next, node) {
        return Ok(false);
    }
    if !content_fits(&node.node) {
        return Ok(false);
    }
    parent_fits(nodes, name)
}

#[tactic(auto, using(crate::proofs::WholeTest::all_left, crate::proofs::WholeTest::all_stop))]
fn nodes_fit(
    cell: &Component,
    next: u64,
    nodes: &Table<Name, StoredNode>,
) -> Result<bool, AllocError>
    ensures { IfOk result (λ fit. fit ≡ list_all (node_fits cell.now next nodes.now) nodes.now) }
{
    for (name, node) in nodes.as_map() {
        if !node_fits(cell, next, nodes, name, node)? {
            return Ok(false);
        }
    }
    Ok(true)
}

// The tables over the instances; none where two nodes have the same one.
fn index_of(alloc: Global, rows: &Rows) -> Result<Option<Index>, AllocError>
    ensures { IfOk result (λ index. MatchOption index (are_apart rows.now.nodes ≡ false) (λ i. IsIndexed rows.now i)) }
{
    let Some(generations) = generations_of(alloc, &rows.nodes)? else {
        return Ok(None);
    };
    let groups = groups_of(alloc, &rows.locks)?;
    Ok(Some(Index {
        generations,
        groups,
    }))
}

#[tactic(auto, using(crate::proofs::InstanceTables::gather_start, crate::proofs::InstanceTables::gather_more, crate::proofs::InstanceTables::gather_stop, crate::proofs::InstanceTables::gather_done))]
fn generations_of(
    alloc: Global,
    nodes: &Table<Name, StoredNode>,
) -> Result<Option<Table<u64, u64>>, AllocError>
    ensures { IfOk result (λ table. MatchOption table (are_apart nodes.now ≡ false) (λ t. HasGenerations nodes.now t)) }
{
    let mut generations = Table::new(alloc);
    for (_name, node) in nodes.as_map() {
        let former = generations.put(node.node.instance, node.lock_generation)?;
        if former.is_some() {
            return Ok(None);
        }
    }
    Ok(Some(generations))
}

// What the locks of a node are together, with one more.
fn joined(former: Option<NodeLocks>, state: LockState) -> NodeLocks
    ensures { result ≡ joined former state }
{
    let is_shared = matches!(state, LockState::Shared);
    match former {
        Some(group) => NodeLocks {
            is_alone: false,
            are_shared: group.are_shared && is_shared,
        },
        None => NodeLocks {
            is_alone: true,
            are_shared: is_shared,
        },
    }
}

#[tactic(auto, using(crate::proofs::InstanceTables::group_start, crate::proofs::InstanceTables::group_more, crate::proofs::InstanceTables::group_done))]
fn groups_of(
    alloc: Global,
    locks: &Table<LockKey, LockRow>,
) -> Result<Table<u64, NodeLocks>, AllocError>
    ensures { IfOk result (λ groups. HasGroups locks.now groups) }
{
    let mut groups = Table::new(alloc);
    for (key, row) in locks.as_map() {
        let group = joined(groups.get(&key.instance).copied(), row.state);
        groups.put(key.instance, group)?;
    }
    Ok(groups)
}

fn is_live_in(rows: &Rows, client: u64) -> bool
    ensures { result ≡ is_live_in rows.now client }
{
    match rows.sessions.get(&client) {
        Some(session) => session.live,
        None => false,
    }
}

// Whether there is a node of the instance.
fn is_there(index: &Index, instance: u64) -> bool
    ensures { result ≡ is_some (lookup (is_at (nat_cmp instance)) index.now.generations) }
{
    index.generations.get(&instance).is_some()
}

// Whether the lock of the node of the instance was ever held.
fn was_held(index: &Index, instance: u64) -> bool
    ensures { result ≡ option_map_or (λ generation. nat_le 1 generation) (lookup (is_at (nat_cmp instance)) index.now.generations) false }
{
    match index.generations.get(&instance) {
        Some(generation) => *generation >= 1,
        None => false,
    }
}

fn is_alone(index: &Index, instance: u64) -> bool
    ensures { result ≡ alone_in (lookup (is_at (nat_cmp instance)) index.now.groups) }
{
    match index.groups.get(&instance) {
        Some(group) => group.is_alone,
        None => false,
    }
}

fn are_shared(index: &Index, instance: u64) -> bool
    ensures { result ≡ shared_in (lookup (is_at (nat_cmp instance)) index.now.groups) }
{
    match index.groups.get(&instance) {
        Some(group) => group.are_shared,
        None => true,
    }
}

#[tactic(auto, using(crate::proofs::InstanceTables::held_is))]
fn holder_fits(rows: &Rows, index: &Index, key: &LockKey) -> bool
    requires { IsIndexed rows.now index.now }
    ensures { result ≡ holder_fits rows.now key.now }
{
    was_held(index, key.instance) && is_live_in(rows, key.client)
}

fn state_fits(rows: &Rows, index: &Index, key: &LockKey, state: LockState) -> bool
    requires { IsIndexed rows.now index.now }
    ensures { result ≡ state_fits rows.now key.now state }
{
    match state {
        LockState::Exclusive => is_alone(index, key.instance) && holder_fits(rows, index, key),
        LockState::Shared => are_shared(index, key.instance) && holder_fits(rows, index, key),
        LockState::Lapsed => is_alone(index, key.instance) && key.client == 0 && key.handle == 0,
    }
}

#[tactic(auto, using(crate::proofs::InstanceTables::there_is))]
fn lock_fits(rows: &Rows, index: &Index, key: &LockKey, row: &LockRow) -> bool
    requires { IsIndexed rows.now index.now }
    ensures { result ≡ lock_fits rows.now (key.now, row.now) }
{
    is_there(index, key.instance)
        && key.client <= NUMBER_LIMIT
        && key.handle <= NUMBER_LIMIT
        && row.delay <= DELAY_LIMIT
        && state_fits(rows, index, key, row.state)
}

#[tactic(auto, using(crate::proofs::WholeTest::all_left, crate::proofs::WholeTest::all_stop))]
fn locks_fit(rows: &Rows, index: &Index) -> bool
    requires { IsIndexed rows.now index.now }
    ensures { result ≡ list_all (lock_fits rows.now) rows.now.locks }
{
    for (key, row) in rows.locks.as_map() {
        if !lock_fits(rows, index, key, row) {
            return false;
        }
    }
    true
}
