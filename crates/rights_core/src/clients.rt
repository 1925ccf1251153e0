//! The clients that hold one name.
ghost use Rattle.std.specs.Prelude.{◌≡◌, ℕ, [], ◌∷◌, ◌==◌, length, IfOk, OnOk, OnErr};
ghost use Rattle.std.specs.Ordering.{nat_cmp};
ghost use Rattle.std.specs.Map.{keys_of, lookup, remove_entry};
ghost use Rattle.std.specs.BTreeMap.{is_at, insert_entry};
ghost use Rattle.std.specs.List.Sorted.{IsStrictlySortedBy};
ghost use Rattle.rights_core.specs.Clients.{listed};

use collections::Table;
use std::alloc::{AllocError, Global};
use std::marker::Model;

// One client needs no table of its own: most names have no more.
#[derive(Drop)]
pub(crate) enum Holders {
    Nobody,
    One(u64, u64),
    Many(Table<u64, u64>),
}

// The clients that hold one name. To a contract, the list of them in the order of their numbers, each with its right's
// number.
#[derive(Drop)]
pub(crate) struct Clients {
    holders: Holders,
}

impl Model for Clients {
    ghost use Rattle.std.specs.Prelude.{List, ℕ};
    ghost use Rattle.rights_core.specs.Clients.{listed};

    ghost Value = { List (ℕ × ℕ) };

    ghost view = { λ c. listed c.holders };
}

impl Clients {
    // One client by this right. Takes no memory.
    pub(crate) fn one(client: u64, number: u64) -> Clients
        ensures { result ≡ (client, number) ∷ [] }
    {
        Clients {
            holders: Holders::One(client, number),
        }
    }

    pub(crate) fn holders(&self) -> &Holders
        ensures { listed result.now ≡ self.now }
    {
        &self.holders
    }

    pub(crate) fn len(&self) -> usize
        ensures count { result ≡ length self.now }
        ensures ordered { IsStrictlySortedBy nat_cmp (keys_of self.now) }
    {
        match &self.holders {
            Holders::Nobody => 0,
            Holders::One(_, _) => 1,
            Holders::Many(table) => table.as_map().len(),
        }
    }

    pub(crate) fn is_empty(&self) -> bool
        ensures { result ≡ (length self.now == 0) }
    {
        self.len() == 0
    }

    // The number of a client's right.
    pub(crate) fn get(&self, client: u64) -> Option<u64>
        ensures { result ≡ lookup (is_at (nat_cmp client)) self.now }
    {
        match &self.holders {
            Holders::Nobody => None,
            Holders::One(own, number) => number_of(client, *own, *number),
            Holders::Many(table) => table.get(&client).copied(),
        }
    }

    // One client more, or another right of one.
    pub(crate) fn put(&mut self, alloc: Global, client: u64, number: u64) -> Result<(), AllocError>
        ensures ok { OnOk result (self.new ≡ insert_entry nat_cmp self.old client number) }
        ensures err { OnErr result (self.new ≡ self.old) }
    {
        match &mut self.holders {
            Holders::Many(table) => {
                table.put(client, number)?;
            }
            Holders::One(own, former) => {
                let table = two(alloc, *own, *former, client, number)?;
                self.holders = Holders::Many(table);
            }
            Holders::Nobody => {
                self.holders = Holders::One(client, number);
            }
        }
        Ok(())
    }

    // One client less. Takes no memory.
    pub(crate) fn remove(&mut self, client: u64)
        ensures { self.new ≡ remove_entry (is_at (nat_cmp client)) self.old }
    {
        match &mut self.holders {
            Holders::Many(table) => {
                table.remove(&client);
            }
            Holders::One(own, _) => {
                if client == *own {
                    self.holders = Holders::Nobody;
                }
            }
            Holders::Nobody => {}
        }
    }
}

// The number of the one right, where it is this client's.
fn number_of(client: u64, own: u64, number: u64) -> Option<u64>
    ensures { result ≡ lookup (is_at (nat_cmp client)) ((own, number) ∷ []) }
{
    if client == own { Some(number) } else { None }
}

// A table of one right and one more.
fn two(
    alloc: Global,
    own: u64,
    former: u64,
    client: u64,
    number: u64,
) -> Result<Table<u64, u64>, AllocError>
    ensures { IfOk result (λ table. table ≡ insert_entry nat_cmp ((own, former) ∷ []) client number) }
{
    let mut table = Table::new(alloc);
    table.put(own, former)?;
    table.put(client, number)?;
    Ok(table)
}
