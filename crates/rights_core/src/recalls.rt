//! The rights of a client that were asked back.
ghost use Rattle.std.specs.Prelude.{◌≡◌, ◌≤◌, ◌<◌, ◌-◌, [], take, drop, fold, IfOk, OnOk};
ghost use Rattle.std.specs.Ordering.{nat_cmp};
ghost use Rattle.std.specs.Map.{keys_of};
ghost use Rattle.std.specs.BTreeMap.{insert_entry};
ghost use Rattle.std.specs.VecDeque.{deque_capacity};
ghost use Rattle.rights_core.specs.Holds.{with_number, without_all, told};
ghost use Rattle.rights_core.specs.Rights.{unacked_number, with_entry};

use crate::cache_rights::HeldRight;
use collections::Table;
use names_cell::Name;
use std::alloc::{AllocError, Global};
use std::collections::VecDeque;

// The numbers of those rights of a client that were asked back and are held still, in the order of their invalidations.
// Their invalidations have the numbers behind the last one whose right has ended, each the next.
#[derive(Drop)]
pub(crate) struct Recalls {
    // The last invalidation whose right has ended.
    pub ended: u64,
    pub numbers: VecDeque<u64>,
}

impl Recalls {
    // None; takes no memory yet.
    pub(crate) fn new(alloc: Global) -> Recalls
        ensures ended { result.ended ≡ 0 }
        ensures numbers { result.numbers.items ≡ [] }
    {
        Recalls {
            ended: 0,
            numbers: VecDeque::new(alloc),
        }
    }

    // Room for more numbers than this.
    pub(crate) fn reserve(&mut self, count: usize) -> Result<(), AllocError>
        ensures ended { self.new.ended ≡ self.old.ended }
        ensures numbers { self.new.numbers.items ≡ self.old.numbers.items }
        ensures capacity { deque_capacity self.old.numbers ≤ deque_capacity self.new.numbers }
        ensures ok { OnOk result (count < deque_capacity self.new.numbers) }
    {
        let Some(room) = count.checked_add(1) else {
            return Err(AllocError);
        };
        self.numbers
            .reserve(room.saturating_sub(self.numbers.len()))
    }

    // How many invalidations up to this number asked back rights that are held.
    pub(crate) fn count_to(&self, number: u64) -> u64
        ensures { result ≡ number - self.now.ended }
    {
        number.saturating_sub(self.ended)
    }

    // So many of the first numbers, ascending.
    pub(crate) fn first(&self, alloc: Global, count: u64) -> Result<Vec<u64>, AllocError>
        ensures { IfOk result (λ first. first.items ≡ keys_of (fold with_number [] (take count self.now.numbers.items))) }
    {
        let first = self.first_in_order(alloc, count)?;
        first.as_map().keys().copied().collect(alloc)
    }

    fn first_in_order(&self, alloc: Global, count: u64) -> Result<Table<u64, ()>, AllocError>
        ensures { IfOk result (λ first. first ≡ fold with_number [] (take count self.now.numbers.items)) }
    {
        let mut first = Table::new(alloc);
        let mut left = count;
        for number in self.numbers.iter() {
            if left == 0 {
                return Ok(first);
            }
            left -= 1;
            first.put(*number, ())?;
        }
        Ok(first)
    }

    // The invalidations of these rights of a client that were asked back, and their names.
    pub(crate) fn unacked(
        &self,
        alloc: Global,
        client: u64,
        rights: &Table<u64, HeldRight>,
    ) -> Result<Table<u64, Name>, AllocError>
        ensures { IfOk result (λ unacked. unacked ≡ fold (told client rights.now) [] self.now.numbers.items) }
    {
        let mut unacked = Table::new(alloc);
        for number in self.numbers.iter() {
            if let Some(right) = rights.get(number) {
                note(&mut unacked, right, client)?;
            }
        }
        Ok(unacked)
    }

    // The rights of so many of the first numbers end.
    pub(crate) fn end_first(&mut self, rights: &mut Table<u64, HeldRight>, count: u64)
        ensures rights { rights.new ≡ without_all rights.old (take count self.old.numbers.items) }
        ensures numbers { self.new.numbers.items ≡ drop count self.old.numbers.items }
        ensures capacity { deque_capacity self.new.numbers ≡ deque_capacity self.old.numbers }
        ensures ended { self.new.ended ≡ self.old.ended }
    {
        for _ in 0..count {
            let Some(number) = self.numbers.pop_front() else {
                return;
            };
            drop(rights.remove(&number));
        }
    }
}

// The invalidation of a right that was asked back, where it is this client's, and the right's name.
fn note(unacked: &mut Table<u64, Name>, right: &HeldRight, client: u64) -> Result<(), AllocError>
    ensures ok { OnOk result (unacked.new ≡ with_entry unacked.old (unacked_number client right.now) right.now.name) }
{
    if let Some(number) = right.unacked_number(client) {
        unacked.put(number, right.name().clone()?)?;
    }
    Ok(())
}
