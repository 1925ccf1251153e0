//! Which changes touch each name.
ghost use Rattle.std.specs.Prelude.{◌≡◌, ℕ, ◌==◌, ◌&&◌, ◌||◌, not, false, List, [], IfOk, OnOk, OnErr};
ghost use Rattle.std.specs.List.{list_any};
ghost use Rattle.std.specs.Str.{bytes_eq};
ghost use Rattle.std.specs.Option.{option_copied};
ghost use Rattle.std.specs.Map.{lookup};
ghost use Rattle.std.specs.Ordering.{nat_cmp};
ghost use Rattle.std.specs.BTreeMap.{insert_entry};
ghost use Rattle.gate_core.specs.Waking.{leads};

use collections::Table;
use indexmap::IndexMap;
use names_cell::Name;
use std::alloc::{AllocError, Global};
use std::marker::Model;

// By name, the numbers of the changes that touch it. A name that no change touches is taken out. To a contract, the
// entries.
#[derive(Drop)]
pub(crate) struct Leads {
    alloc: Global,
    map: IndexMap<Name, Table<u64, ()>>,
}

impl Model for Leads {
    ghost use Rattle.std.specs.Prelude.{List, ℕ};

    ghost Value = { List (List ℕ × List (ℕ × Unit {0})) };

    ghost view = { λ l. l.map.entries };
}

impl Leads {
    // No names; takes no memory yet.
    pub(crate) fn new(alloc: Global) -> Leads
        ensures { result ≡ [] }
    {
        Leads {
            alloc,
            map: IndexMap::new(alloc),
        }
    }

    // The numbers to which a name leads: one look-up.
    pub(crate) fn at(&self, name: &Name) -> Option<&Table<u64, ()>>
        ensures { option_copied result ≡ lookup (bytes_eq name.now) self.now }
    {
        self.map.get(name)
    }

    // A name leads to this number too.
    fn add(&mut self, name: &Name, number: u64) -> Result<(), AllocError>
        ensures ok { OnOk result ((x : List ℕ) (n : ℕ) → leads x n self.new ≡ ((bytes_eq x name.now && n == number) || leads x n self.old)) }
        ensures err { OnErr result (self.new ≡ self.old) }
    {
        if let Some(numbers) = self.map.get_mut(name) {
            numbers.put(number, ())?;
            return Ok(());
        }
        let numbers = one(self.alloc, number)?;
        self.map.insert(name.clone()?, numbers)?;
        Ok(())
    }

    // A name leads to this number no more. Takes no memory.
    fn remove(&mut self, name: &Name, number: u64)
        ensures { (x : List ℕ) (n : ℕ) → leads x n self.new ≡ (not (bytes_eq x name.now && n == number) && leads x n self.old) }
    {
        let Some(numbers) = self.map.get_mut(name) else {
            return;
        };
        let _count = numbers.as_map().len();
        let _former = numbers.remove(&number);
        if numbers.as_map().len() == 0 {
            drop(self.map.swap_remove(name));
        }
    }

    // Each of these names leads to this number too.
    pub(crate) fn add_all(&mut self, names: &[Name], number: u64) -> Result<(), AllocError>
        ensures ok { OnOk result ((x : List ℕ) (n : ℕ) → leads x n self.new ≡ ((list_any (bytes_eq x) names.now && n == number) || leads x n self.old)) }
        ensures err { OnErr result ((x : List ℕ) (n : ℕ) → (n == number) ≡ false → leads x n self.new ≡ leads x n self.old) }
    {
        for (index, name) in names.iter().enumerate() {
            if self.add(name, number).is_err() {
                self.remove_all(&names[..index], number);
                return Err(AllocError);
            }
        }
        Ok(())
    }

    // Each of these names leads to this number no more. Takes no memory.
    pub(crate) fn remove_all(&mut self, names: &[Name], number: u64)
        ensures { (x : List ℕ) (n : ℕ) → leads x n self.new ≡ (not (list_any (bytes_eq x) names.now && n == number) && leads x n self.old) }
    {
        for name in names {
            self.remove(name, number);
        }
    }
}

// This number alone.
fn one(alloc: Global, number: u64) -> Result<Table<u64, ()>, AllocError>
    ensures { IfOk result (λ numbers. numbers ≡ insert_entry nat_cmp [] number tt) }
{
    let mut numbers = Table::new(alloc);
    numbers.put(number, ())?;
    Ok(numbers)
}
