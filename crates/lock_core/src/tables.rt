//! The locks of all nodes.
ghost use Rattle.std.specs.Prelude.{◌≡◌, ◌<◌, [], Err, IfOk, OnOk, OnErr};
ghost use Rattle.std.specs.Option.{option_copied};
ghost use Rattle.std.specs.Map.{lookup, remove_entry, set_value};
ghost use Rattle.std.specs.BTreeMap.{is_at};
ghost use Rattle.std.specs.Ordering.{nat_cmp};
ghost use Rattle.node_core.specs.Limits.{number_end};
ghost use Rattle.collections.specs.Results.{Gives};
ghost use Rattle.collections.specs.Tables.{with_former};
ghost use Rattle.lock_core.specs.State.{lock_of};
ghost use Rattle.lock_core.specs.Turns.{tried, acquired, released, closed_by, reopened};
ghost use Rattle.lock_core.specs.Claimants.{lapses_among};
ghost use Rattle.lock_core.specs.Locks.{AreLegal, lock_at, lapses, after_lapses, sequencer_of, checked, with_lock, with_holder, with_closing};

use crate::claimants::{Claimants, note_again};
use crate::claims::{Claim, Owner};
use crate::moments::opening;
use crate::partings::Parting;
use crate::states::Lock;
use crate::turns::{Acquired, Lapse, Turn};
use collections::{Items, Table, Timers};
use names_cell::Name;
use node_core::Fault;
use std::alloc::{AllocError, Global};
use std::collections::BTreeSet;
use std::marker::Model;
use tags_cell::{Ordinal, Sequencer};

/// The locks of a cell's nodes, by instance, in order. A lock that was never held may be absent.
///
/// A call that asks for a lock, leaves it or tells of the end of a session answers what becomes of the lock and changes nothing, so
/// that the master can commit first. `set`, or for a session `carry_out`, then carries it out.
#[derive(Drop)]
pub struct Locks {
    pub(crate) alloc: Global,
    pub(crate) locks: Table<u64, Lock>,
    // From when on each is due.
    pub(crate) openings: Timers,
    // Who may hold each or wait for it.
    pub(crate) claimants: Claimants,
}

impl Model for Locks {
    ghost use Rattle.lock_core.specs.Locks.{LockTable, AreLegal, AreNoted};
    ghost use Rattle.lock_core.specs.Claimants.{AreListed};

    ghost Value = { LockTable };

    ghost view = { λ l. l.locks };

    ghost invariant = { λ l. AreLegal l.locks × AreNoted l.openings l.locks × AreListed l.claimants l.locks };
}

impl Locks {
    /// No locks; takes no memory yet.
    pub fn new(alloc: Global) -> Locks
        ensures { result ≡ [] }
    {
        Locks {
            alloc,
            locks: Table::new(alloc),
            openings: Timers::new(alloc),
            claimants: Claimants::new(alloc),
        }
    }

    /// The lock of an instance, where it was held once or awaited.
    pub fn get(&self, instance: u64) -> Option<&Lock>
        ensures lock { option_copied result ≡ lookup (is_at (nat_cmp instance)) self.now }
        ensures legal { AreLegal self.now }
    {
        self.locks.get(&instance)
    }

    /// How often the lock of an instance went from free to held: 0 where it never did.
    pub fn generation(&self, instance: u64) -> u64
        ensures { result ≡ (lock_at self.now instance).generation }
    {
        match self.locks.get(&instance) {
            Some(lock) => lock.generation(),
            None => 0,
        }
    }

    /// TryAcquire: the lock in the claim's hands. Refused, in this order, while it is closed, with the milliseconds
    /// left; where it is free and no generation is left; and where it is held otherwise or others wait, with the mode
    /// of its holders, or else of the first who waits.
    pub fn try_acquire(&self, instance: u64, claim: Claim, now: u64) -> Result<Lock, Fault>
        ensures { Gives Fault.NoMemory result (tried (lock_at self.now instance) claim now) }
    {
        match self.locks.get(&instance) {
            Some(lock) => lock.try_acquire(claim, now),
            None => Lock::of_generation(self.alloc, 0).try_acquire(claim, now),
        }
    }

    /// Acquire: the lock in the claim's hands, or with the claim behind all others that wait. Refused where this handle
    /// holds the lock, with its mode, and where the lock is free and no generation is left.
    pub fn acquire(&self, instance: u64, claim: Claim) -> Result<Acquired, Fault>
        ensures { Gives Fault.NoMemory result (acquired (lock_at self.now instance) claim) }
    {
        match self.locks.get(&instance) {
            Some(lock) => lock.acquire(claim),
            None => Lock::of_generation(self.alloc, 0).acquire(claim),
        }
    }

    /// Release: the lock without this handle, its waiters served. Refused where the handle holds no lock.
    pub fn release(&self, instance: u64, owner: Owner) -> Result<Turn, Fault>
        ensures turn { Gives Fault.NoMemory result (released (lock_at self.now instance) owner) }
        // To refuse takes no memory.
        ensures refused { released (lock_at self.now instance) owner ≡ Err Fault.NotHolder → result ≡ Err Fault.NotHolder }
    {
        match self.locks.get(&instance) {
            Some(lock) => lock.release(owner),
            None => Err(Fault::NotHolder),
        }
    }

    /// A Close: the lock without this handle, its waiters served. None where the handle neither holds it nor waits.
    pub fn close_handle(&self, instance: u64, owner: Owner) -> Result<Option<Turn>, AllocError>
        ensures { IfOk result (λ turn. turn ≡ closed_by (lock_at self.now instance) owner) }
    {
        match self.locks.get(&instance) {
            Some(lock) => lock.close_handle(owner),
            None => Ok(None),
        }
    }

    /// The end of a lock's delay: the lock open again, its waiters served.
    pub fn reopen(&self, instance: u64) -> Result<Turn, AllocError>
        ensures { IfOk result (λ turn. turn ≡ reopened (lock_at self.now instance)) }
    {
        match self.locks.get(&instance) {
            Some(lock) => lock.reopen(),
            None => Lock::of_generation(self.alloc, 0).reopen(),
        }
    }

    /// The end of a client's session: what becomes of each lock that it held or awaited, by ascending instance. It looks at
    /// these, and at each lock with more than 16 holders or more than 16 who wait; at all locks where memory was wanting.
    pub fn lapse(&self, parting: Parting, client: u64, now: u64) -> Result<Items<Lapse>, AllocError>
        ensures { IfOk result (λ ended. ended ≡ lapses parting self.now client now) }
    {
        // The order of the instances is told by this call.
        let _ordered = self.locks.as_map().len();
        match self.claimants.of_client(self.alloc, client)? {
            Some(instances) => {
                let _sorted = instances.len();
                self.lapse_among(&instances, parting, client, now)
            }
            None => self.lapse_of_all(parting, client, now),
        }
    }

    // What becomes of those of these locks that concern the client.
    fn lapse_among(
        &self,
        instances: &BTreeSet<u64>,
        parting: Parting,
        client: u64,
        now: u64,
    ) -> Result<Items<Lapse>, AllocError>
        ensures { IfOk result (λ ended. ended ≡ lapses_among parting self.now client now instances.now.keys) }
    {
        let mut ended = Items::new(self.alloc);
        for instance in instances.iter() {
            if let Some(lock) = self.locks.get(instance) {
                if lock.concerns(client) {
                    ended.push(lock.lapse(parting, *instance, client, now)?)?;
                }
            }
        }
        Ok(ended)
    }

    fn lapse_of_all(
        &self,
        parting: Parting,
        client: u64,
        now: u64,
    ) -> Result<Items<Lapse>, AllocError>
        ensures { IfOk result (λ ended. ended ≡ lapses parting self.now client now) }
    {
        let mut ended = Items::new(self.alloc);
        for (instance, lock) in self.locks.as_map() {
            if lock.concerns(client) {
                ended.push(lock.lapse(parting, *instance, client, now)?)?;
            }
        }
        Ok(ended)
    }

    /// GetSequencer: of the lock of this instance, whose node has this name. Refused where the handle holds no lock.
    pub fn sequencer(
        &self,
        instance: Ordinal,
        name: &Name,
        owner: Owner,
    ) -> Result<Sequencer, Fault>
        ensures sequencer { Gives Fault.NoMemory result (sequencer_of (lock_at self.now instance) instance name.now owner) }
        // To refuse takes no memory.
        ensures refused { sequencer_of (lock_at self.now instance) instance name.now owner ≡ Err Fault.NotHolder → result ≡ Err Fault.NotHolder }
    {
        match self.locks.get(&instance.get()) {
            Some(lock) => lock.sequencer(instance, name, owner),
            None => Err(Fault::NotHolder),
        }
    }

    /// Whether a sequencer is valid, where this instance stands at its name now, or none does. Else it is stale.
    pub fn check(&self, sequencer: &Sequencer, present: Option<u64>) -> Result<(), Fault>
        ensures { result ≡ checked self.now present sequencer.now }
    {
        if present != Some(sequencer.instance.get()) {
            return Err(Fault::SequencerStale);
        }
        match self.locks.get(&sequencer.instance.get()) {
            Some(lock) if lock.is_held_as(sequencer) => Ok(()),
            _ => Err(Fault::SequencerStale),
        }
    }

    /// Puts what becomes of a lock. What it was is given back.
    pub fn set(&mut self, instance: u64, lock: Lock) -> Result<Option<Lock>, AllocError>
        ensures ok { OnOk result (self.new ≡ with_lock self.old instance lock) }
        ensures former { IfOk result (λ former. former ≡ lookup (is_at (nat_cmp instance)) self.old) }
        ensures undone { IfOk result (λ former. with_former nat_cmp self.new instance former ≡ self.old) }
        ensures err { OnErr result (self.new ≡ self.old) }
    {
        // That the lock is legal is told by this call.
        let _generation = lock.generation();
        let after = lock.opens_at();
        let former = self.locks.put(instance, lock)?;
        self.openings.change(instance, opening(&former), after);
        note_again(&mut self.claimants, &self.locks, instance, former.as_ref());
        Ok(former)
    }

    /// Gives an instance the lock that it had before a `set`, or none where it had none. Takes no memory.
    pub fn restore(&mut self, instance: u64, former: Option<Lock>)
        ensures { self.new ≡ with_former nat_cmp self.old instance former }
    {
        match former {
            Some(lock) => self.replace(instance, lock),
            None => drop(self.end_of_node(instance)),
        }
    }

    // Puts a lock in the place of one that is there, which takes no memory.
    fn replace(&mut self, instance: u64, lock: Lock)
        ensures { self.new ≡ set_value (is_at (nat_cmp instance)) self.old lock }
    {
        // That the lock is legal is told by this call.
        let _generation = lock.generation();
        let after = lock.opens_at();
        match self.locks.replace(&instance, lock) {
            Ok(former) => {
                self.openings.change(instance, former.opens_at(), after);
                note_again(&mut self.claimants, &self.locks, instance, Some(&former));
                drop(former);
            }
            Err(back) => drop(back),
        }
    }

    /// Puts what becomes of the locks of a session that ended. Takes no memory.
    pub fn carry_out(&mut self, ended: Items<Lapse>)
        ensures { self.new ≡ after_lapses self.old ended }
    {
        for lapse in ended.into_vec() {
            let Lapse {
                instance,
                ended: _,
                reopens: _,
                turn,
            } = lapse;
            let Turn {
                lock,
                granted: _,
                exhausted: _,
            } = turn;
            self.replace(instance, lock);
        }
    }

    /// The end of a node, which ends its lock. What it was is given back: its waiters are told that the instance is
    /// gone. Takes no memory.
    pub fn end_of_node(&mut self, instance: u64) -> Option<Lock>
        ensures after { self.new ≡ remove_entry (is_at (nat_cmp instance)) self.old }
        ensures former { result ≡ lookup (is_at (nat_cmp instance)) self.old }
    {
        // The order of the instances is told by this call.
        let _ordered = self.locks.as_map().len();
        let former = self.locks.remove(&instance);
        self.openings.change(instance, opening(&former), u64::MAX);
        note_again(&mut self.claimants, &self.locks, instance, former.as_ref());
        former
    }

    /// What the row of a node tells a master that comes up: the generation that its lock had last.
    pub fn put_generation(&mut self, instance: u64, generation: u64) -> Result<(), AllocError>
        requires { generation < number_end }
        ensures ok { OnOk result (self.new ≡ with_lock self.old instance (lock_of generation)) }
        ensures err { OnErr result (self.new ≡ self.old) }
    {
        let lock = Lock::of_generation(self.alloc, generation);
        drop(self.set(instance, lock)?);
        Ok(())
    }

    /// What the row of a holder tells it, behind the rows of the nodes. A holder that may not stand beside those that
    /// were told before is left out; of sound rows none is.
    pub fn put_holder(&mut self, instance: u64, claim: Claim) -> Result<(), AllocError>
        ensures ok { OnOk result (self.new ≡ with_lock self.old instance (with_holder (lock_at self.old instance) claim)) }
        ensures err { OnErr result (self.new ≡ self.old) }
    {
        let lock = match self.locks.get(&instance) {
            Some(lock) => lock.with_holder(claim)?,
            None => Lock::of_generation(self.alloc, 0).with_holder(claim)?,
        };
        drop(self.set(instance, lock)?);
        Ok(())
    }

    /// What the row of a lapsed lock tells it: the lock is closed for the whole delay from this moment on, unless
    /// somebody holds it, as nobody does by sound rows.
    pub fn put_closing(&mut self, instance: u64, from: u64, delay: u64) -> Result<(), AllocError>
        ensures ok { OnOk result (self.new ≡ with_lock self.old instance (with_closing (lock_at self.old instance) from delay)) }
        ensures err { OnErr result (self.new ≡ self.old) }
    {
        let lock = match self.locks.get(&instance) {
            Some(lock) => lock.with_closing(from, delay)?,
            None => Lock::of_generation(self.alloc, 0).with_closing(from, delay)?,
        };
        drop(self.set(instance, lock)?);
        Ok(())
    }
}
