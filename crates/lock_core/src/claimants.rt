//! Which locks a client may hold or wait for.
ghost use Rattle.std.specs.Prelude.{◌≡◌, ◌+◌, ℕ, [], true, false, nat_eq, IfOk, IfSome, OnOk};
ghost use Rattle.std.specs.List.{list_any};
ghost use Rattle.collections.specs.Timers.{has_key};
ghost use Rattle.lock_core.specs.Turns.{concerns, is_of_client};
ghost use Rattle.lock_core.specs.Locks.{lock_at};
ghost use Rattle.lock_core.specs.Claimants.{has, is_noted, AreListed};

use crate::claims::{Claim, Hold, Owner};
use crate::states::Lock;
use collections::Table;
use std::alloc::{AllocError, Global};
use std::collections::BTreeSet;
use std::marker::Model;

// A lock with more claims than these is looked at for each client.
const FEW: usize = 16;

// The locks that a client may hold or wait for: never too few. Whoever changes a lock tells it here. What can't be noted for
// want of memory makes all locks candidates, and nothing else.
#[derive(Drop)]
pub(crate) struct Claimants {
    // The clients of each lock with few claims, with its instance.
    own: BTreeSet<(u64, u64)>,
    // The instances of the locks with many.
    crowded: BTreeSet<u64>,
    // Whether some lock stands in neither.
    lost: bool,
}

impl Model for Claimants {
    ghost use Rattle.lock_core.specs.Claimants.{ClaimantState};

    ghost Value = { ClaimantState };

    ghost view = { λ c. record { own = c.own.keys; crowded = c.crowded.keys; lost = c.lost } };
}

impl Claimants {
    // Those of no locks; takes no memory yet.
    pub(crate) fn new(alloc: Global) -> Claimants
        ensures { result ≡ record { own = []; crowded = []; lost = false } }
    {
        Claimants {
            own: BTreeSet::new(alloc),
            crowded: BTreeSet::new(alloc),
            lost: false,
        }
    }

    // Whether some lock isn't noted, since memory was wanting.
    pub(crate) fn is_lost(&self) -> bool {
        self.lost
    }

    // Those who hold this lock or wait for it.
    pub(crate) fn note(&mut self, instance: u64, lock: &Lock)
        ensures own { (c : ℕ) → concerns c lock.now ≡ true → has self.new c instance ≡ true }
        ensures kept { (c i : ℕ) → has self.old c i ≡ true → has self.new c i ≡ true }
    {
        if is_crowded(lock) {
            self.crowd(instance);
            return;
        }
        self.add_holders(instance, lock.holders());
        self.add_waiters(instance, lock.waiters());
    }

    fn add_holders(&mut self, instance: u64, holders: &Table<Owner, Hold>)
        ensures own { (c : ℕ) → list_any (λ entry. is_of_client c entry.0) holders.now ≡ true → has self.new c instance ≡ true }
        ensures kept { (c i : ℕ) → has self.old c i ≡ true → has self.new c i ≡ true }
    {
        for (owner, _) in holders.as_map() {
            self.add(owner.client, instance);
        }
    }

    fn add_waiters(&mut self, instance: u64, waiters: &[Claim])
        ensures own { (c : ℕ) → list_any (λ claim. is_of_client c claim.owner) waiters.now ≡ true → has self.new c instance ≡ true }
        ensures kept { (c i : ℕ) → has self.old c i ≡ true → has self.new c i ≡ true }
    {
        for claim in waiters.iter() {
            self.add(claim.owner.client, instance);
        }
    }

    // A client may hold the lock of this instance, or wait for it.
    fn add(&mut self, client: u64, instance: u64)
        ensures own { has self.new client instance ≡ true }
        ensures kept { (c i : ℕ) → has self.old c i ≡ true → has self.new c i ≡ true }
    {
        match self.own.insert((client, instance)) {
            Ok(_) => {}
            Err(_) => self.lost = true,
        }
    }

    // Each client may.
    fn crowd(&mut self, instance: u64)
        ensures own { (c : ℕ) → has self.new c instance ≡ true }
        ensures kept { (c i : ℕ) → has self.old c i ≡ true → has self.new c i ≡ true }
    {
        match self.crowded.insert(instance) {
            Ok(_) => {}
            Err(_) => self.lost = true,
        }
    }

    // Takes out those who held the lock of this instance or waited for it.
    fn forget(&mut self, instance: u64, lock: &Lock)
        ensures { (c i : ℕ) → nat_eq i instance ≡ false → has self.old c i ≡ true → has self.new c i ≡ true }
    {
        if is_crowded(lock) {
            self.crowded.remove(&instance);
            return;
        }
        self.forget_holders(instance, lock.holders());
        self.forget_waiters(instance, lock.waiters());
    }

    fn forget_holders(&mut self, instance: u64, holders: &Table<Owner, Hold>)
        ensures { (c i : ℕ) → nat_eq i instance ≡ false → has self.old c i ≡ true → has self.new c i ≡ true }
    {
        for (owner, _) in holders.as_map() {
            self.remove(owner.client, instance);
        }
    }

    fn forget_waiters(&mut self, instance: u64, waiters: &[Claim])
        ensures { (c i : ℕ) → nat_eq i instance ≡ false → has self.old c i ≡ true → has self.new c i ≡ true }
    {
        for claim in waiters.iter() {
            self.remove(claim.owner.client, instance);
        }
    }

    fn remove(&mut self, client: u64, instance: u64)
        ensures { (c i : ℕ) → nat_eq i instance ≡ false → has self.old c i ≡ true → has self.new c i ≡ true }
    {
        self.own.remove(&(client, instance));
    }

    // The instances of the locks to look at for a client, in order. None where these aren't known.
    pub(crate) fn of_client(
        &self,
        alloc: Global,
        client: u64,
    ) -> Result<Option<BTreeSet<u64>>, AllocError>
        ensures { IfOk result (λ found. IfSome found (λ instances. (i : ℕ) → has self.now client i ≡ true → has_key instances.keys i ≡ true)) }
    {
        if self.lost {
            return Ok(None);
        }
        let Some(next) = client.checked_add(1) else {
            return Ok(None);
        };
        let mut found = BTreeSet::new(alloc);
        add_noted(&mut found, &self.own, client, next)?;
        add_all(&mut found, &self.crowded)?;
        Ok(Some(found))
    }
}

// The instances that are noted with a client.
fn add_noted(
    found: &mut BTreeSet<u64>,
    own: &BTreeSet<(u64, u64)>,
    client: u64,
    next: u64,
) -> Result<(), AllocError>
    requires { next ≡ client + 1 }
    ensures kept { OnOk result ((i : ℕ) → has_key found.old.keys i ≡ true → has_key found.new.keys i ≡ true) }
    ensures found { OnOk result ((i : ℕ) → is_noted own.now.keys client i ≡ true → has_key found.new.keys i ≡ true) }
{
    for entry in own.range((client, 0)..(next, 0)) {
        found.insert(entry.1)?;
    }
    Ok(())
}

fn add_all(found: &mut BTreeSet<u64>, instances: &BTreeSet<u64>) -> Result<(), AllocError>
    ensures kept { OnOk result ((i : ℕ) → has_key found.old.keys i ≡ true → has_key found.new.keys i ≡ true) }
    ensures found { OnOk result ((i : ℕ) → has_key instances.now.keys i ≡ true → has_key found.new.keys i ≡ true) }
{
    for instance in instances.iter() {
        found.insert(*instance)?;
    }
    Ok(())
}

// Whether more hold the lock or wait for it than are noted by client.
fn is_crowded(lock: &Lock) -> bool {
    lock.holders().as_map().len() > FEW || lock.waiters().len() > FEW
}

// Notes who holds the lock of an instance or waits for it, in the place of those who did so of what it was.
pub(crate) fn note_again(
    claimants: &mut Claimants,
    locks: &Table<u64, Lock>,
    instance: u64,
    former: Option<&Lock>,
)
    ensures own { (c : ℕ) → concerns c (lock_at locks.now instance) ≡ true → has claimants.new c instance ≡ true }
    ensures others { (c i : ℕ) → nat_eq i instance ≡ false → has claimants.old c i ≡ true → has claimants.new c i ≡ true }
{
    if let Some(lock) = former {
        claimants.forget(instance, lock);
    }
    if let Some(lock) = locks.get(&instance) {
        claimants.note(instance, lock);
    }
}

// Notes who holds each lock or waits for it.
pub(crate) fn note_each(claimants: &mut Claimants, locks: &Table<u64, Lock>)
    ensures { AreListed claimants.new locks.now }
{
    for (instance, lock) in locks.as_map() {
        claimants.note(*instance, lock);
    }
}
