//! Which lock reopens next.
ghost use Rattle.std.specs.Prelude.{◌≡◌, unwrap_or};
ghost use Rattle.lock_core.specs.State.{lock_of};
ghost use Rattle.lock_core.specs.Locks.{AreNoted, lock_at, is_due, due, first_due, opens_at};

use crate::claimants::{Claimants, note_each};
use crate::states::Lock;
use crate::tables::Locks;
use collections::{Table, Timers};
use std::collections::BTreeSet;

impl Locks {
    /// Finds the locks that are due by `now`, so that from then on `due` looks at these alone. To be called with each moment;
    /// elsewhere it does no harm. Takes no memory that it can't do without: where there is none `due` looks at all locks. Where
    /// memory was wanting for who claims a lock, `lapse` looks at all locks until the first call of this that has memory, which
    /// walks over all of them once.
    pub fn note_moment(&mut self, now: u64)
        ensures { self.new ≡ self.old }
    {
        self.note_claimants();
        self.openings.turn(now);
        self.put_openings_off(now);
    }

    // Where memory was wanting for who holds some lock or waits for it, notes that of all locks anew.
    fn note_claimants(&mut self)
        ensures { self.new ≡ self.old }
    {
        if !self.claimants.is_lost() {
            return;
        }
        self.claimants = Claimants::new(self.alloc);
        note_each(&mut self.claimants, &self.locks);
    }

    fn put_openings_off(&mut self, now: u64)
        ensures { self.new ≡ self.old }
    {
        for _ in 0..self.openings.count() {
            if !self.put_opening_off(now) {
                return;
            }
        }
    }

    // The first lock that may be due isn't to be looked at before its own moment. False where that has come.
    fn put_opening_off(&mut self, now: u64) -> bool
        ensures { self.new ≡ self.old }
    {
        let Some(instance) = self.openings.first() else {
            return false;
        };
        let moment = self.opening_of(instance);
        if moment <= now {
            return false;
        }
        self.openings.put_off(instance, moment);
        true
    }

    fn opening_of(&self, instance: u64) -> u64
        ensures { result ≡ opens_at (lock_at self.now instance).closed }
    {
        match self.locks.get(&instance) {
            None => u64::MAX,
            Some(lock) => lock.opens_at(),
        }
    }

    /// The first moment behind the one noted last at which a lock may be due; `u64::MAX` stands for never. It says where to
    /// look first: whether a lock is due there is for `due` to tell.
    pub fn next_moment(&self) -> u64 {
        self.openings.first_moment().unwrap_or(u64::MAX)
    }

    /// Where `due` looked at locks though none was due, notes anew from when on each is, which walks over all: memory was
    /// wanting before, or the clock went back. To be called where none was due; elsewhere it does no harm. Takes no memory
    /// that it can't do without.
    pub fn note_quiet(&mut self, now: u64)
        ensures { self.new ≡ self.old }
    {
        if self.looks_at_none(now) {
            return;
        }
        self.openings = Timers::new(self.alloc);
        note_all(&mut self.openings, &self.locks);
    }

    fn looks_at_none(&self, now: u64) -> bool {
        match self.openings.soon(now) {
            Some(instances) => instances.is_empty(),
            None => false,
        }
    }

    /// The lowest instance whose lock was closed long enough. Behind `note_moment` with this moment it looks at the locks alone
    /// that were due by then or by a later moment, up to that one; else, and where memory was wanting, at all up to that one.
    pub fn due(&self, now: u64) -> Option<u64>
        ensures { result ≡ due self.now now }
    {
        match self.openings.soon(now) {
            Some(instances) => {
                // The order of the instances is told by these calls.
                let _ordered = self.locks.as_map().len();
                let _sorted = instances.len();
                self.due_among(instances, now)
            }
            None => self.due_of_all(now),
        }
    }

    // The first of these whose lock is due.
    fn due_among(&self, instances: &BTreeSet<u64>, now: u64) -> Option<u64>
        ensures { result ≡ first_due self.now now instances.now.keys }
    {
        for instance in instances.iter() {
            if self.is_due(*instance, now) {
                return Some(*instance);
            }
        }
        None
    }

    fn is_due(&self, instance: u64, now: u64) -> bool
        ensures { result ≡ is_due now (lock_at self.now instance) }
    {
        match self.locks.get(&instance) {
            Some(lock) => lock.is_due(now),
            None => false,
        }
    }

    fn due_of_all(&self, now: u64) -> Option<u64>
        ensures { result ≡ due self.now now }
    {
        for (instance, lock) in self.locks.as_map() {
            if lock.is_due(now) {
                return Some(*instance);
            }
        }
        None
    }
}

// From this moment on a lock is due; one that isn't there never is.
pub(crate) fn opening(lock: &Option<Lock>) -> u64
    ensures { result ≡ opens_at (unwrap_or lock.now (lock_of 0)).closed }
{
    match lock {
        Some(lock) => lock.opens_at(),
        None => u64::MAX,
    }
}

// Notes from when on each lock is due.
fn note_all(openings: &mut Timers, locks: &Table<u64, Lock>)
    ensures { AreNoted openings.new locks.now }
{
    for (instance, lock) in locks.as_map() {
        openings.set(*instance, lock.opens_at());
    }
}
