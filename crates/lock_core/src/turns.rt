//! What becomes of one lock.
ghost use Rattle.std.specs.Prelude.{◌≡◌, true, Err, IfOk};
ghost use Rattle.collections.specs.Results.{Gives};
ghost use Rattle.lock_core.specs.State.{nobody_holds};
ghost use Rattle.lock_core.specs.Turns.{served, settled, turned_away, tried, acquired, released, closed_by, reopened, lapsed, concerns, claims_of, greatest_delay, delay_of, is_expiry, closed_for};

use crate::claims::{Claim, Closing, Hold, Owner};
use crate::leavers::{Leaver, any_holds, any_waits};
use crate::partings::Parting;
use crate::states::{Lock, is_nobody};
use collections::{Items, Table};
use node_core::Fault;
use std::alloc::{AllocError, Global};

/// What becomes of a lock that somebody left.
#[derive(Drop)]
pub struct Turn {
    pub lock: Lock,
    /// The waiters that hold it now, in the order in which they got it: at the lock's generation.
    pub granted: Items<Claim>,
    /// The waiters that wait no longer, since no generation is left: each is told `Exhausted`.
    pub exhausted: Items<Claim>,
}

/// What becomes of an Acquire.
#[derive(Drop)]
pub enum Acquired {
    /// The handle holds the lock.
    Held(Lock),
    /// It waits behind all others.
    Waits(Lock),
}

/// What the end of a session does to a lock.
#[derive(Drop)]
pub struct Lapse {
    pub instance: u64,
    /// What the session's handles held.
    pub ended: Items<Claim>,
    /// It has expired, nobody holds the lock any longer, and there is no delay.
    pub reopens: bool,
    pub turn: Turn,
}

impl Lock {
    pub(crate) fn try_acquire(&self, claim: Claim, now: u64) -> Result<Lock, Fault>
        ensures { Gives Fault.NoMemory result (tried self.now claim now) }
    {
        if let Some(closing) = self.closed() {
            return Err(Fault::Delayed(closing.left(now)));
        }
        if self.is_exhausted() {
            return Err(Fault::Exhausted);
        }
        let Some(mode) = self.rival_mode() else {
            return Ok(self.held_by(claim)?);
        };
        if !self.may_hold(claim) {
            return Err(Fault::Held(mode));
        }
        Ok(self.held_by(claim)?)
    }

    pub(crate) fn acquire(&self, claim: Claim) -> Result<Acquired, Fault>
        ensures { Gives Fault.NoMemory result (acquired self.now claim) }
    {
        if let Some(hold) = self.hold_of(claim.owner) {
            return Err(Fault::Held(hold.mode));
        }
        if self.is_exhausted() {
            return Err(Fault::Exhausted);
        }
        if self.may_hold(claim) {
            return Ok(Acquired::Held(self.held_by(claim)?));
        }
        Ok(Acquired::Waits(self.waited_by(claim)?))
    }

    pub(crate) fn release(&self, owner: Owner) -> Result<Turn, Fault>
        ensures turn { Gives Fault.NoMemory result (released self.now owner) }
        ensures refused { released self.now owner ≡ Err Fault.NotHolder → result ≡ Err Fault.NotHolder }
    {
        if self.hold_of(owner).is_none() {
            return Err(Fault::NotHolder);
        }
        Ok(self.without(Leaver::Handle(owner))?.settle()?)
    }

    pub(crate) fn close_handle(&self, owner: Owner) -> Result<Option<Turn>, AllocError>
        ensures { IfOk result (λ turn. turn ≡ closed_by self.now owner) }
    {
        let leaver = Leaver::Handle(owner);
        if self.hold_of(owner).is_some() || any_waits(self.waiters(), leaver) {
            let turn = self.without(leaver)?.settle()?;
            return Ok(Some(turn));
        }
        Ok(None)
    }

    pub(crate) fn reopen(&self) -> Result<Turn, AllocError>
        ensures { IfOk result (λ turn. turn ≡ reopened self.now) }
    {
        let mut lock = self.clone()?;
        lock.closed = None;
        lock.settle()
    }

    // Whether the client's session holds it or waits for it.
    pub(crate) fn concerns(&self, client: u64) -> bool
        ensures { result ≡ concerns client self.now }
    {
        let leaver = Leaver::Session(client);
        any_holds(self.holders(), leaver) || any_waits(self.waiters(), leaver)
    }

    pub(crate) fn lapse(
        &self,
        parting: Parting,
        instance: u64,
        client: u64,
        now: u64,
    ) -> Result<Lapse, AllocError>
        ensures { IfOk result (λ lapse. lapse ≡ lapsed parting instance self.now client now) }
    {
        let ended = claims_of(self.alloc, self.holders(), client)?;
        let left = self.without(Leaver::Session(client))?;
        if is_nobody(ended.as_slice()) || left.mode().is_some() {
            let turn = left.settle()?;
            return Ok(Lapse {
                instance,
                ended,
                reopens: false,
                turn,
            });
        }
        let delay = delay_of(parting, ended.as_slice());
        let turn = left.close_for(now, delay)?;
        Ok(Lapse {
            instance,
            ended,
            reopens: is_expiry(parting) && delay == 0,
            turn,
        })
    }

    // Closes a lock that nobody holds.
    fn close_for(self, now: u64, delay: u64) -> Result<Turn, AllocError>
        requires { nobody_holds self ≡ true }
        ensures { IfOk result (λ turn. turn ≡ closed_for self now delay) }
    {
        if delay == 0 {
            return self.settle();
        }
        let alloc = self.alloc;
        let mut lock = self;
        lock.closed = Some(Closing { from: now, delay });
        Ok(Turn {
            lock,
            granted: Items::new(alloc),
            exhausted: Items::new(alloc),
        })
    }

    // What becomes of a lock that somebody left.
    fn settle(self) -> Result<Turn, AllocError>
        ensures { IfOk result (λ turn. turn ≡ settled self) }
    {
        if self.is_exhausted() {
            return Ok(self.turn_away());
        }
        self.serve()
    }

    fn turn_away(self) -> Turn
        ensures { result ≡ turned_away self }
    {
        let Lock {
            alloc,
            generation,
            holders,
            waiters,
            closed,
        } = self;
        Turn {
            lock: Lock {
                alloc,
                generation,
                holders,
                waiters: Items::new(alloc),
                closed,
            },
            granted: Items::new(alloc),
            exhausted: waiters,
        }
    }

    // The waiters get the lock from the front while they fit.
    fn serve(self) -> Result<Turn, AllocError>
        ensures { IfOk result (λ turn. turn ≡ served self) }
    {
        let alloc = self.alloc;
        let Turn {
            mut lock,
            mut granted,
            exhausted: waiters,
        } = self.turn_away();
        for (index, claim) in waiters.as_slice().iter().enumerate() {
            if !lock.fits(*claim) {
                lock.set_waiters(&waiters.as_slice()[index..])?;
                return Ok(Turn {
                    lock,
                    granted,
                    exhausted: Items::new(alloc),
                });
            }
            lock.hold(*claim)?;
            granted.push(*claim)?;
        }
        Ok(Turn {
            lock,
            granted,
            exhausted: Items::new(alloc),
        })
    }
}

// How long a lock stays closed that the session held, in milliseconds: a client that leaves lets it go at once.
fn delay_of(parting: Parting, ended: &[Claim]) -> u64
    ensures { result ≡ delay_of parting ended.now }
{
    match parting {
        Parting::Expiry => greatest_delay(ended),
        Parting::Leave => 0,
    }
}

fn is_expiry(parting: Parting) -> bool
    ensures { result ≡ is_expiry parting }
{
    match parting {
        Parting::Expiry => true,
        Parting::Leave => false,
    }
}

// What a client's handles hold.
fn claims_of(
    alloc: Global,
    holders: &Table<Owner, Hold>,
    client: u64,
) -> Result<Items<Claim>, AllocError>
    ensures { IfOk result (λ claims. claims ≡ claims_of client holders.now) }
{
    let mut claims = Items::new(alloc);
    for (owner, hold) in holders.as_map() {
        if owner.client == client {
            claims.push(Claim {
                owner: *owner,
                hold: *hold,
            })?;
        }
    }
    Ok(claims)
}

// In milliseconds.
fn greatest_delay(claims: &[Claim]) -> u64
    ensures { result ≡ greatest_delay claims.now }
{
    claims
        .iter()
        .map(|claim| claim.hold.delay)
        .fold(0, u64::max)
}
