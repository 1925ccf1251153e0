//! The ephemeral nodes to look at for one that is to go.
ghost use Rattle.std.specs.Prelude.{◌≡◌, true, false, ℕ, List, Some, None};
ghost use Rattle.std.specs.Map.{lookup};
ghost use Rattle.std.specs.Option.{option_copied};
ghost use Rattle.std.specs.BTreeMap.{is_at};
ghost use Rattle.std.specs.Cmp.Lexicographic.{slice_cmp};
ghost use Rattle.std.specs.Ordering.{nat_cmp};
ghost use Rattle.master_parts.specs.EphemeralNames.{NameTable, is_named};
ghost use Rattle.master_parts.specs.Candidates.{Has, Leads};

use collections::Table;
use names_cell::Name;
use std::alloc::Global;
use std::marker::Model;

// The names of the ephemeral nodes that may be to go, and by instance the name of each ephemeral node. Whoever changes
// what a node goes by tells it here. What can't be noted for want of memory makes all nodes candidates, and nothing else.
#[derive(Drop)]
pub(crate) struct Candidates {
    names: Table<Name, ()>,
    // Whether each that may be to go has its name there.
    known: bool,
    instances: Table<u64, Name>,
    // Whether each ephemeral node is there.
    placed: bool,
}

impl Model for Candidates {
    ghost use Rattle.master_parts.specs.Candidates.{CandidateState};

    ghost Value = { CandidateState };

    ghost view = { λ c. record { names = c.names; known = c.known; instances = c.instances; placed = c.placed } };
}

impl Candidates {
    // None; takes no memory yet.
    pub(crate) fn new(alloc: Global) -> Candidates {
        Candidates {
            names: Table::new(alloc),
            known: true,
            instances: Table::new(alloc),
            placed: true,
        }
    }

    // The names to look at. None where they aren't known.
    pub(crate) fn names(&self) -> Option<&Table<Name, ()>>
        ensures { (names : NameTable) → option_copied result ≡ Some names → (q : List ℕ) → Has self.now q → is_named names q ≡ true }
    {
        if self.known { Some(&self.names) } else { None }
    }

    // The first of the names to look at.
    pub(crate) fn first(&self) -> Option<&Name> {
        let (name, _) = self.names.as_map().first_key_value()?;
        Some(name)
    }

    // How many names there are to look at.
    pub(crate) fn count(&self) -> usize {
        self.names.as_map().len()
    }

    // A node may be to go.
    pub(crate) fn add(&mut self, name: &Name)
        ensures own { Has self.new name.now }
        ensures kept { (q : List ℕ) → Has self.old q → Has self.new q }
        ensures leads { (i : ℕ) (q : List ℕ) → Leads self.old i q → Leads self.new i q }
    {
        match name.clone() {
            Ok(copy) => self.put(copy),
            Err(_) => self.known = false,
        }
    }

    fn put(&mut self, name: Name)
        ensures own { Has self.new name }
        ensures kept { (q : List ℕ) → Has self.old q → Has self.new q }
        ensures leads { (i : ℕ) (q : List ℕ) → Leads self.old i q → Leads self.new i q }
    {
        match self.names.put(name, ()) {
            Ok(_) => {}
            Err(_) => self.known = false,
        }
    }

    // The ephemeral node of an instance may be to go.
    pub(crate) fn wake(&mut self, instance: u64)
        ensures own { (q : List ℕ) → Leads self.old instance q → Has self.new q }
        ensures kept { (q : List ℕ) → Has self.old q → Has self.new q }
        ensures leads { (i : ℕ) (q : List ℕ) → Leads self.old i q → Leads self.new i q }
    {
        if !self.placed {
            self.known = false;
            return;
        }
        let Some(name) = self.instances.get(&instance) else {
            return;
        };
        match name.clone() {
            Ok(copy) => self.put(copy),
            Err(_) => self.known = false,
        }
    }

    // Any node may be to go.
    pub(crate) fn lose(&mut self)
        ensures has { (q : List ℕ) → Has self.new q }
        ensures leads { (i : ℕ) (q : List ℕ) → Leads self.old i q → Leads self.new i q }
    {
        self.known = false;
    }

    // An ephemeral node of this name has this instance.
    pub(crate) fn place(&mut self, name: &Name, instance: u64)
        ensures own { Leads self.new instance name.now }
        ensures leads { (i : ℕ) (q : List ℕ) → Leads self.old i q → Leads self.new i q }
        ensures kept { (q : List ℕ) → Has self.old q → Has self.new q }
    {
        match self.instances.get(&instance) {
            Some(there) => {
                if there != name {
                    self.placed = false;
                }
            }
            None => self.place_new(name, instance),
        }
    }

    fn place_new(&mut self, name: &Name, instance: u64)
        requires { lookup (is_at (nat_cmp instance)) self.old.instances ≡ None }
        ensures own { Leads self.new instance name.now }
        ensures leads { (i : ℕ) (q : List ℕ) → Leads self.old i q → Leads self.new i q }
        ensures kept { (q : List ℕ) → Has self.old q → Has self.new q }
    {
        match name.clone() {
            Ok(copy) => self.put_place(instance, copy),
            Err(_) => self.placed = false,
        }
    }

    fn put_place(&mut self, instance: u64, name: Name)
        requires { lookup (is_at (nat_cmp instance)) self.old.instances ≡ None }
        ensures own { Leads self.new instance name }
        ensures leads { (i : ℕ) (q : List ℕ) → Leads self.old i q → Leads self.new i q }
        ensures kept { (q : List ℕ) → Has self.old q → Has self.new q }
    {
        let Ok(former) = self.instances.put(instance, name) else {
            self.placed = false;
            return;
        };
        drop(former);
    }

    // The node of this name, of this instance, is gone. Takes no memory.
    pub(crate) fn forget(&mut self, name: &Name, instance: u64)
        ensures leads { (i : ℕ) (q : List ℕ) → is_at (slice_cmp nat_cmp q) name.now ≡ false → Leads self.old i q → Leads self.new i q }
        ensures kept { (q : List ℕ) → is_at (slice_cmp nat_cmp q) name.now ≡ false → Has self.old q → Has self.new q }
    {
        self.pass(name);
        if self.leads_to(instance, name) {
            self.unplace(name, instance);
        }
    }

    fn leads_to(&self, instance: u64, name: &Name) -> bool
        ensures { result ≡ true → lookup (is_at (nat_cmp instance)) self.now.instances ≡ Some name.now }
    {
        match self.instances.get(&instance) {
            Some(there) => there == name,
            None => false,
        }
    }

    // The instance leads to the name no more.
    fn unplace(&mut self, name: &Name, instance: u64)
        requires { lookup (is_at (nat_cmp instance)) self.old.instances ≡ Some name.now }
        ensures leads { (i : ℕ) (q : List ℕ) → is_at (slice_cmp nat_cmp q) name.now ≡ false → Leads self.old i q → Leads self.new i q }
        ensures kept { (q : List ℕ) → Has self.old q → Has self.new q }
    {
        let _count = self.instances.as_map().len();
        self.instances.remove(&instance);
    }

    // The node of this name isn't to go. Takes no memory.
    pub(crate) fn pass(&mut self, name: &Name)
        ensures kept { (q : List ℕ) → is_at (slice_cmp nat_cmp q) name.now ≡ false → Has self.old q → Has self.new q }
        ensures leads { (i : ℕ) (q : List ℕ) → Leads self.old i q → Leads self.new i q }
    {
        let _count = self.names.as_map().len();
        self.names.remove(name);
    }

    // No node is to go. Takes no memory.
    pub(crate) fn clear(&mut self)
        ensures leads { (i : ℕ) (q : List ℕ) → Leads self.old i q → Leads self.new i q }
    {
        self.names.retain(|_, _| false);
        self.known = true;
    }
}
