//! The rows, and the edits of them.
ghost use Rattle.std.specs.Prelude.{◌≡◌, ◌==◌, false, not, filter, IfOk, OnOk, OnErr};
ghost use Rattle.std.specs.List.{list_any};
ghost use Rattle.std.specs.Option.{option_map_or};
ghost use Rattle.std.specs.Map.{remove_entry};
ghost use Rattle.std.specs.BTreeMap.{is_at};
ghost use Rattle.std.specs.Cmp.Lexicographic.{slice_cmp};
ghost use Rattle.std.specs.Ordering.{nat_cmp};
ghost use Rattle.collections.specs.Tables.{with_former};
ghost use Rattle.rows_cell.specs.Rows.{edited, changed_rows, takes_memory, map_of, stored_node, put_stored, at_generation, without_locks_of};
ghost use Rattle.rows_cell.specs.Undo.{removes_row, is_of_locks};

use crate::keys::LockKey;
use collections::{Items, Same, Secret, Table};
use names_cell::{Component, Name, Principal};
use node_core::{Map, Node};
use std::alloc::{AllocError, Global};

/// A node as it is stored, with the generation of its lock.
#[derive(Drop)]
pub struct StoredNode {
    pub node: Node,
    /// 0 for a new node, one more each time that its lock goes from free to held.
    pub lock_generation: u64,
}

impl Clone for StoredNode {
    ghost is_clone = { λ s t. t ≡ s };

    fn clone(&self) -> Result<StoredNode, AllocError> {
        Ok(StoredNode {
            node: self.node.clone()?,
            lock_generation: self.lock_generation,
        })
    }
}

impl Same for StoredNode {
    ghost exact = { λ x y h. h };
}

/// A client's session. One that has ended stays recorded until it is removed.
#[derive(Drop)]
pub struct SessionRow {
    pub principal: Principal,
    pub live: bool,
}

impl Clone for SessionRow {
    ghost is_clone = { λ s t. t ≡ s };

    fn clone(&self) -> Result<SessionRow, AllocError> {
        Ok(SessionRow {
            principal: self.principal.clone()?,
            live: self.live,
        })
    }
}

impl Same for SessionRow {
    ghost exact = { λ x y h. h };
}

/// How a lock stands: held by one, held by some together, or lapsed, that is closed after its holder's session expired.
#[derive(Clone, Copy, Debug, PartialEq, Eq)]
pub enum LockState {
    Lapsed,
    Exclusive,
    Shared,
}

/// A holder of a lock, or a lapsed lock.
#[derive(Clone, Copy, Debug, PartialEq, Eq)]
pub struct LockRow {
    pub state: LockState,
    /// How long the lock stays closed after an expiry, in milliseconds: at most 60,000.
    pub delay: u64,
}

impl Same for LockRow {
    ghost exact = { λ x y h. h };
}

/// What outlives a master: the cell's own numbers, its nodes, its sessions and its locks.
#[derive(Drop)]
pub struct Rows {
    pub cell: Component,
    pub secret: Secret,
    /// How many masters came up.
    pub epoch: u64,
    /// The instance of the next node.
    pub next_instance: u64,
    pub nodes: Table<Name, StoredNode>,
    /// By client number.
    pub sessions: Table<u64, SessionRow>,
    /// A client number below it that has no session here gets none any more: it had one that ended, or came too late.
    pub ended_below: u64,
    pub locks: Table<LockKey, LockRow>,
}

impl Clone for Rows {
    ghost is_clone = { λ s t. t ≡ s };

    fn clone(&self) -> Result<Rows, AllocError> {
        Ok(Rows {
            cell: self.cell.clone()?,
            secret: self.secret.clone()?,
            epoch: self.epoch,
            next_instance: self.next_instance,
            nodes: self.nodes.clone()?,
            sessions: self.sessions.clone()?,
            ended_below: self.ended_below,
            locks: self.locks.clone()?,
        })
    }
}

impl Same for Rows {
    ghost exact = { λ x y h. h };
}

/// One edit of the rows.
#[derive(Drop)]
pub enum Edit {
    Epoch(u64),
    NextInstance(u64),
    /// The generation of its lock stays; that of a new node is 0.
    PutNode(Name, Node),
    /// Of the node of this name, where it is there.
    LockGeneration(Name, u64),
    /// With its locks.
    RemoveNode(Name),
    /// Also to end it.
    PutSession(u64, SessionRow),
    /// Nothing is recorded any more of a session that has ended.
    RemoveSession(u64),
    EndedBelow(u64),
    PutLock(LockKey, LockRow),
    RemoveLock(LockKey),
}

impl Edit {
    // Whether it may be refused for want of memory.
    fn takes_memory(&self) -> bool
        ensures { result ≡ takes_memory self.now }
    {
        matches!(
            self,
            Edit::PutNode(..) | Edit::PutSession(..) | Edit::PutLock(..)
        )
    }

    // Whether it takes away a row that isn't a lock's.
    fn removes_row(&self) -> bool
        ensures { result ≡ removes_row self.now }
    {
        matches!(self, Edit::RemoveNode(..) | Edit::RemoveSession(..))
    }

    // Whether it is of a lock's row.
    pub(crate) fn is_of_locks(&self) -> bool
        ensures { result ≡ is_of_locks self.now }
    {
        matches!(self, Edit::PutLock(..) | Edit::RemoveLock(..))
    }
}

impl Rows {
    /// Does a change, or leaves the rows where memory is refused. It costs what its edits cost; where one behind the first
    /// takes memory and another removes a node or a session, what copying all rows costs.
    pub(crate) fn change(&mut self, alloc: Global, change: &[Edit]) -> Result<(), AllocError>
        ensures ok { OnOk result (self.new ≡ changed_rows self.old change.now) }
        ensures err { OnErr result (self.new ≡ self.old) }
    {
        let Some((first, others)) = change.split_first() else {
            return Ok(());
        };
        if others.iter().any(Edit::takes_memory) {
            return self.change_many(alloc, change);
        }
        self.edit(first)?;
        self.set_all(others);
        Ok(())
    }

    // Does edits of which some take memory, or leaves the rows.
    fn change_many(&mut self, alloc: Global, change: &[Edit]) -> Result<(), AllocError>
        ensures ok { OnOk result (self.new ≡ changed_rows self.old change.now) }
        ensures err { OnErr result (self.new ≡ self.old) }
    {
        if change.iter().any(Edit::removes_row) {
            *self = self.after(change)?;
            return Ok(());
        }
        self.edit_all(alloc, change)
    }

    // Does one edit, or leaves the rows.
    fn edit(&mut self, edit: &Edit) -> Result<(), AllocError>
        ensures ok { OnOk result (self.new ≡ edited self.old edit.now) }
        ensures err { OnErr result (self.new ≡ self.old) }
    {
        match edit {
            Edit::PutNode(name, node) => {
                self.put_node(name, node)?;
            }
            Edit::PutSession(client, session) => {
                self.sessions.put(*client, session.clone()?)?;
            }
            Edit::PutLock(key, row) => {
                self.locks.put(*key, *row)?;
            }
            _ => self.set(edit),
        }
        Ok(())
    }

    // Does an edit that takes no memory.
    fn set(&mut self, edit: &Edit)
        requires { takes_memory edit.now ≡ false }
        ensures { self.new ≡ edited self.old edit.now }
    {
        match edit {
            Edit::Epoch(epoch) => self.epoch = *epoch,
            Edit::NextInstance(next) => self.next_instance = *next,
            Edit::LockGeneration(name, generation) => self.set_generation(name, *generation),
            Edit::RemoveNode(name) => self.remove_node(name),
            Edit::RemoveSession(client) => {
                self.sessions.remove(client);
            }
            Edit::EndedBelow(next) => self.ended_below = *next,
            Edit::RemoveLock(key) => {
                self.locks.remove(key);
            }
            _ => unreachable!(),
        }
    }

    // Does edits that take no memory, in order.
    fn set_all(&mut self, edits: &[Edit])
        requires { list_any takes_memory edits.now ≡ false }
        ensures { self.new ≡ changed_rows self.old edits.now }
    {
        for edit in edits {
            self.set(edit);
        }
    }

    /// The map of names to nodes that the rows hold.
    pub fn map(&self, alloc: Global) -> Result<Map, AllocError>
        ensures { IfOk result (λ map. map ≡ map_of self.now) }
    {
        let stored = self.nodes.as_map();
        let _count = stored.len();
        let mut map = Map::new(alloc);
        for (name, node) in stored {
            map.set(name.clone()?, node.node.clone()?)?;
        }
        Ok(map)
    }

    // Gives what stood there before.
    pub(crate) fn put_node(
        &mut self,
        name: &Name,
        node: &Node,
    ) -> Result<Option<StoredNode>, AllocError>
        ensures ok { OnOk result (self.new ≡ record self.old { nodes = put_stored self.old.nodes name.now node.now }) }
        ensures back { IfOk result (λ former. with_former (slice_cmp nat_cmp) self.new.nodes name.now former ≡ self.old.nodes) }
        ensures err { OnErr result (self.new ≡ self.old) }
    {
        let lock_generation = generation_at(&self.nodes, name);
        let name = name.clone()?;
        let stored = StoredNode {
            node: node.clone()?,
            lock_generation,
        };
        self.nodes.put(name, stored)
    }

    // Leaves the rows where no node of this name is there.
    pub(crate) fn set_generation(&mut self, name: &Name, generation: u64)
        ensures { self.new ≡ record self.old { nodes = at_generation self.old.nodes name.now (stored_node self.old.nodes name.now) generation } }
    {
        if let Some(node) = self.nodes.get_mut(name) {
            node.lock_generation = generation;
        }
    }

    fn remove_node(&mut self, name: &Name)
        ensures { self.new ≡ record self.old { nodes = remove_entry (is_at (slice_cmp nat_cmp name.now)) self.old.nodes; locks = without_locks_of (stored_node self.old.nodes name.now) self.old.locks } }
    {
        if let Some(node) = self.nodes.remove(name) {
            remove_locks_of(&mut self.locks, node.node.instance);
        }
    }

    // The rows after a change, which are a copy: it costs what copying all rows costs.
    fn after(&self, change: &[Edit]) -> Result<Rows, AllocError>
        ensures { IfOk result (λ rows. rows ≡ changed_rows self.now change.now) }
    {
        let mut rows = self.clone()?;
        for edit in change {
            rows.edit(edit)?;
        }
        Ok(rows)
    }
}

// The generation of the lock of the node at a name; 0 where none is there.
pub(crate) fn generation_at(nodes: &Table<Name, StoredNode>, name: &Name) -> u64
    ensures { result ≡ option_map_or (λ node. node.lock_generation) (stored_node nodes.now name.now) 0 }
{
    match nodes.get(name) {
        Some(node) => node.lock_generation,
        None => 0,
    }
}

// Keeps the locks of all other nodes.
fn remove_locks_of(locks: &mut Table<LockKey, LockRow>, instance: u64)
    ensures { locks.new ≡ filter (λ e. not (e.0.instance == instance)) locks.old }
{
    locks.retain(|key, _| key.instance != instance);
}
