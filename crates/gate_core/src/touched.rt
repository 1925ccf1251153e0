//! How often each name is touched by the changes that wait.
ghost use Rattle.std.specs.Prelude.{◌≡◌, ◌+◌, ◌-◌, if◌then◌else◌, List, ℕ, [], count_by, OnOk, OnErr};
ghost use Rattle.std.specs.Str.{bytes_eq};
ghost use Rattle.gate_core.specs.Filing.{count_in};

use indexmap::IndexMap;
use names_cell::Name;
use std::alloc::{AllocError, Global};
use std::marker::Model;

// By name, how often it is touched. A name that no change touches is taken out. To a contract, the entries.
#[derive(Drop)]
pub(crate) struct TouchCounts {
    map: IndexMap<Name, u64>,
}

impl Model for TouchCounts {
    ghost use Rattle.std.specs.Prelude.{List, ℕ};

    ghost Value = { List (List ℕ × ℕ) };

    ghost view = { λ t. t.map.entries };
}

impl TouchCounts {
    pub(crate) fn new(alloc: Global) -> TouchCounts
        ensures { result ≡ [] }
    {
        TouchCounts {
            map: IndexMap::new(alloc),
        }
    }

    // How often a name is touched: one look-up.
    pub(crate) fn count(&self, name: &Name) -> u64
        ensures { result ≡ count_in name.now self.now }
    {
        match self.map.get(name) {
            Some(count) => *count,
            None => 0,
        }
    }

    // A name is touched once more.
    fn add(&mut self, name: &Name) -> Result<(), AllocError>
        ensures ok { OnOk result ((x : List ℕ) → count_in x self.new ≡ count_in x self.old + (if bytes_eq x name.now then 1 else 0)) }
        ensures err { OnErr result (self.new ≡ self.old) }
    {
        let before = self.count(name);
        if before == u64::MAX {
            return Err(AllocError);
        }
        self.map.insert(name.clone()?, before + 1)?;
        Ok(())
    }

    // A name is touched once less. Takes no memory.
    fn remove(&mut self, name: &Name)
        ensures { (x : List ℕ) → count_in x self.new ≡ count_in x self.old - (if bytes_eq x name.now then 1 else 0) }
    {
        let before = self.count(name);
        if before <= 1 {
            drop(self.map.swap_remove(name));
            return;
        }
        let Some(count) = self.map.get_mut(name) else {
            return;
        };
        *count = before - 1;
    }

    // Each of these names is touched once more.
    pub(crate) fn add_all(&mut self, names: &[Name]) -> Result<(), AllocError>
        ensures ok { OnOk result ((x : List ℕ) → count_in x self.new ≡ count_in x self.old + count_by (bytes_eq x) names.now) }
        ensures err { OnErr result ((x : List ℕ) → count_in x self.new ≡ count_in x self.old) }
    {
        for (index, name) in names.iter().enumerate() {
            if self.add(name).is_err() {
                self.remove_all(&names[..index]);
                return Err(AllocError);
            }
        }
        Ok(())
    }

    // Each of these names is touched once less. Takes no memory.
    pub(crate) fn remove_all(&mut self, names: &[Name])
        ensures { (x : List ℕ) → count_in x self.new ≡ count_in x self.old - count_by (bytes_eq x) names.now }
    {
        for name in names {
            self.remove(name);
        }
    }
}
