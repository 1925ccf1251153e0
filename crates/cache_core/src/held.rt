//! What a cache holds, by name and by age.
ghost use Rattle.std.specs.Prelude.{◌≡◌, [], length, drop, None, OnOk, OnErr, IfErr};
ghost use Rattle.std.specs.Option.{option_copied, option_map};
ghost use Rattle.std.specs.Ordering.{nat_cmp};
ghost use Rattle.std.specs.Map.{lookup};
ghost use Rattle.std.specs.BTreeMap.{insert_entry as insert_in_order};
ghost use Rattle.indexmap.specs.IndexMap.{insert_entry};
ghost use Rattle.cache_core.specs.Caches.{same_name, entry_of, flushed};

use crate::shared::Shared;
use collections::Table;
use indexmap::IndexMap;
use names_cell::Name;
use node_core::View;
use std::alloc::{AllocError, Global};
use std::marker::Model;
use std::mem;

/// What is held for a name: a view, or None for the absence of a node. The turn is the number of its name among all that
/// were ever new.
#[derive(Drop)]
pub struct Slot {
    pub turn: u64,
    pub entry: Option<Shared<View>>,
}

// The entries of a cache. To a contract, the list of them in the order of installing. They are found by their names, and the
// oldest by its turn, so that each call but `clear` costs a look-up or two and a step in a tree, however many there are.
#[derive(Drop)]
pub(crate) struct CacheEntries {
    alloc: Global,
    slots: IndexMap<Name, Slot>,
    // The names by their turns.
    order: Table<u64, Name>,
    // The last turn that was given.
    turns: u64,
}

impl Model for CacheEntries {
    ghost use Rattle.cache_core.specs.Caches.{Entries};
    ghost use Rattle.cache_core.specs.Held.{entries_of, IsHeld};

    ghost Value = { Entries };

    ghost view = { λ h. entries_of h.order h.slots.entries };

    ghost invariant = { λ h. IsHeld h.order h.slots.entries h.turns };
}

impl CacheEntries {
    // No entries; takes no memory yet.
    pub(crate) fn new(alloc: Global) -> CacheEntries
        ensures { result ≡ [] }
    {
        CacheEntries {
            alloc,
            slots: IndexMap::new(alloc),
            order: Table::new(alloc),
            turns: 0,
        }
    }

    // Room for so many more entries, but for the places in their order.
    pub(crate) fn reserve(&mut self, more: usize) -> Result<(), AllocError>
        ensures { self.new ≡ self.old }
    {
        self.slots.reserve(more)
    }

    pub(crate) fn len(&self) -> usize
        ensures { result ≡ length self.now }
    {
        self.order.as_map().len()
    }

    // What is held for a name, lent: one look-up. Takes no memory.
    pub(crate) fn get(&self, name: &Name) -> Option<&Option<Shared<View>>>
        ensures { option_copied result ≡ entry_of self.now name.now }
    {
        match self.slots.get(name) {
            Some(slot) => Some(&slot.entry),
            None => None,
        }
    }

    // Holds this for a name: a new name goes last, a present one keeps its place, which takes no memory. Where memory runs
    // out both come back.
    pub(crate) fn put(
        &mut self,
        name: Name,
        entry: Option<Shared<View>>,
    ) -> Result<(), (Name, Option<Shared<View>>)>
        ensures ok { OnOk result (self.new ≡ insert_entry same_name self.old name entry) }
        ensures err { IfErr result (λ back. (back ≡ (name, entry)) × (self.new ≡ self.old)) }
        ensures only_new { OnErr result (entry_of self.old name ≡ None) }
    {
        let Some(turn) = turn_of(&self.slots, &name) else {
            return self.put_new(name, entry);
        };
        match self.slots.insert(name, Slot { turn, entry }) {
            Ok(former) => {
                drop(former);
                Ok(())
            }
            Err(failed) => {
                let (name, slot) = failed.value;
                Err((name, slot.entry))
            }
        }
    }

    // A new name gets the next turn.
    fn put_new(
        &mut self,
        name: Name,
        entry: Option<Shared<View>>,
    ) -> Result<(), (Name, Option<Shared<View>>)>
        requires { entry_of self.old name ≡ None }
        ensures ok { OnOk result (self.new ≡ insert_entry same_name self.old name entry) }
        ensures err { IfErr result (λ back. (back ≡ (name, entry)) × (self.new ≡ self.old)) }
    {
        if self.turns == u64::MAX {
            return Err((name, entry));
        }
        let turn = self.turns + 1;
        let Ok(()) = place(&mut self.order, turn, &name) else {
            return Err((name, entry));
        };
        match self.slots.insert(name, Slot { turn, entry }) {
            Ok(former) => {
                drop(former);
                self.turns = turn;
                Ok(())
            }
            Err(failed) => {
                drop(self.order.remove(&turn));
                let (name, slot) = failed.value;
                Err((name, slot.entry))
            }
        }
    }

    // Nothing is held for the name any more. Takes no memory.
    pub(crate) fn remove(&mut self, name: &Name)
        ensures { self.new ≡ flushed self.old name.now }
    {
        let Some(turn) = turn_of(&self.slots, name) else {
            return;
        };
        let _count = self.order.as_map().len();
        drop(self.slots.swap_remove(name));
        drop(self.order.remove(&turn));
    }

    // The oldest entry goes. Takes no memory.
    pub(crate) fn remove_oldest(&mut self)
        ensures { self.new ≡ drop 1 self.old }
    {
        let _count = self.order.as_map().len();
        let Some((turn, name)) = self.order.as_map().first_key_value() else {
            return;
        };
        let turn = *turn;
        drop(self.slots.swap_remove(name));
        drop(self.order.remove(&turn));
    }

    // All entries go. Takes no memory, and costs the more the more there are.
    pub(crate) fn clear(&mut self)
        ensures { self.new ≡ [] }
    {
        self.slots.clear();
        drop(mem::replace(&mut self.order, Table::new(self.alloc)));
    }
}

// The turn of a name.
fn turn_of(slots: &IndexMap<Name, Slot>, name: &Name) -> Option<u64>
    ensures { result ≡ option_map (λ slot. slot.turn) (lookup (same_name name.now) slots.now.entries) }
{
    let slot = slots.get(name)?;
    Some(slot.turn)
}

// A name gets this turn.
fn place(order: &mut Table<u64, Name>, turn: u64, name: &Name) -> Result<(), AllocError>
    ensures ok { OnOk result (order.new ≡ insert_in_order nat_cmp order.old turn name.now) }
    ensures err { OnErr result (order.new ≡ order.old) }
{
    let copy = name.clone()?;
    drop(order.put(turn, copy)?);
    Ok(())
}
