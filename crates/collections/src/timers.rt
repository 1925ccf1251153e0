//! Keys, each with the moment from which it may be due.
ghost use Rattle.std.specs.Prelude.{◌≡◌, ◌+◌, ◌<◌, ◌≤◌, ℕ, [], length, true, false, nat_eq, is_some, IfSome, IfNone};
ghost use Rattle.collections.specs.Timers.{wakes, has_key, has_moment, has_come, are_known};

use std::alloc::Global;
use std::collections::BTreeSet;
use std::marker::Model;

/// Keys, each with the moment from which it may be due, in milliseconds. Who is due and when is the owner's to say: it tells
/// each change of a key's moment, and asks which keys it has to look at. Each call costs the logarithm of how many there are.
///
/// What a call can't note for want of memory makes `soon` answer None from then on, and nothing else: the owner looks at
/// all keys then, and may begin anew with new `Timers`, to which it tells each key.
#[derive(Drop)]
pub struct Timers {
    // Keys that may be due.
    soon: BTreeSet<u64>,
    // All others, by the moment from which they may be.
    later: BTreeSet<(u64, u64)>,
    // Whether some key stands in neither.
    lost: bool,
}

impl Model for Timers {
    ghost use Rattle.collections.specs.Timers.{TimerState};

    ghost Value = { TimerState };

    ghost view = { λ t. record { soon = t.soon.keys; later = t.later.keys; lost = t.lost } };
}

impl Timers {
    /// No keys; takes no memory yet.
    pub fn new(alloc: Global) -> Timers
        ensures { result ≡ record { soon = []; later = []; lost = false } }
    {
        Timers {
            soon: BTreeSet::new(alloc),
            later: BTreeSet::new(alloc),
            lost: false,
        }
    }

    /// A key may be due from this moment on. `u64::MAX` stands for never.
    pub fn set(&mut self, key: u64, moment: u64)
        ensures own { wakes self.new key moment ≡ true }
        ensures kept { (k m : ℕ) → wakes self.old k m ≡ true → wakes self.new k m ≡ true }
    {
        if moment == u64::MAX {
            return;
        }
        if moment == 0 {
            self.set_soon(key);
        } else {
            self.set_later(key, moment);
        }
    }

    // A key may be due now.
    fn set_soon(&mut self, key: u64)
        ensures own { (m : ℕ) → wakes self.new key m ≡ true }
        ensures kept { (k m : ℕ) → wakes self.old k m ≡ true → wakes self.new k m ≡ true }
    {
        match self.soon.insert(key) {
            Ok(_) => {}
            Err(_) => self.lost = true,
        }
    }

    fn set_later(&mut self, key: u64, moment: u64)
        ensures own { wakes self.new key moment ≡ true }
        ensures kept { (k m : ℕ) → wakes self.old k m ≡ true → wakes self.new k m ≡ true }
    {
        match self.later.insert((moment, key)) {
            Ok(_) => {}
            Err(_) => self.lost = true,
        }
    }

    /// A key that could be due from the moment `before` on may be so from `after` on.
    pub fn change(&mut self, key: u64, before: u64, after: u64)
        ensures own { wakes self.old key before ≡ true → wakes self.new key after ≡ true }
        ensures others { (k m : ℕ) → nat_eq k key ≡ false → wakes self.old k m ≡ true → wakes self.new k m ≡ true }
    {
        if before == after {
            return;
        }
        self.forget(key, before);
        self.set(key, after);
    }

    /// A key that could be due from this moment on is gone.
    pub fn forget(&mut self, key: u64, moment: u64)
        ensures { (k m : ℕ) → nat_eq k key ≡ false → wakes self.old k m ≡ true → wakes self.new k m ≡ true }
    {
        if self.later.remove(&(moment, key)) {
            return;
        }
        self.soon.remove(&key);
    }

    /// The keys to look at now: each that may be due is among them, in order. None where that isn't known: before `turn` was
    /// called with this moment, where memory was wanting, and at a moment that stands for never.
    pub fn soon(&self, now: u64) -> Option<&BTreeSet<u64>>
        ensures due { IfSome result (λ keys. (k m : ℕ) → wakes self.now k m ≡ true → m ≤ now → has_key keys.now.keys k ≡ true) }
        ensures keys { IfSome result (λ keys. keys.now.keys ≡ self.now.soon) }
        ensures known { is_some result ≡ are_known self.now now }
    {
        if self.lost || now == u64::MAX {
            return None;
        }
        match self.first_until(now) {
            Some(_) => None,
            None => Some(&self.soon),
        }
    }

    // The key that may be due first, by this moment.
    fn first_until(&self, now: u64) -> Option<(u64, u64)>
        ensures later { IfNone result ((k m : ℕ) → has_moment self.now.later k m ≡ true → now < m) }
        ensures come { is_some result ≡ has_come self.now.later now }
        ensures member { IfSome result (λ found. has_moment self.now.later found.1 found.0 ≡ true) }
    {
        match self.later.first() {
            None => None,
            Some(first) => { if first.0 <= now { Some(*first) } else { None } }
        }
    }

    /// Finds the keys that may be due by this moment. Each is found once.
    pub fn turn(&mut self, now: u64)
        ensures kept { (k m : ℕ) → wakes self.old k m ≡ true → wakes self.new k m ≡ true }
        ensures found { has_come self.new.later now ≡ false }
    {
        for _ in 0..self.later.len() {
            let Some(found) = self.first_until(now) else {
                return;
            };
            self.wake(found);
        }
    }

    fn wake(&mut self, found: (u64, u64))
        requires { has_moment self.old.later found.1 found.0 ≡ true }
        ensures kept { (k m : ℕ) → wakes self.old k m ≡ true → wakes self.new k m ≡ true }
        ensures fewer { length self.new.later + 1 ≡ length self.old.later }
    {
        self.later.remove(&found);
        match self.soon.insert(found.1) {
            Ok(_) => {}
            Err(_) => self.lost = true,
        }
    }

    /// The first moment at which a key may be due that isn't to be looked at yet.
    pub fn first_moment(&self) -> Option<u64> {
        self.later.first().map(|entry| entry.0)
    }

    /// Of the keys that aren't to be looked at yet the one that may be due first.
    pub fn first_later(&self) -> Option<u64> {
        self.later.first().map(|entry| entry.1)
    }

    /// The first of the keys to look at.
    pub fn first(&self) -> Option<u64> {
        self.soon.first().copied()
    }

    /// How many keys there are to look at.
    pub fn count(&self) -> usize {
        self.soon.len()
    }

    /// A key that was looked at isn't due before this moment.
    pub fn put_off(&mut self, key: u64, moment: u64)
        ensures own { wakes self.new key moment ≡ true }
        ensures others { (k m : ℕ) → nat_eq k key ≡ false → wakes self.old k m ≡ true → wakes self.new k m ≡ true }
    {
        self.soon.remove(&key);
        self.set(key, moment);
    }
}
