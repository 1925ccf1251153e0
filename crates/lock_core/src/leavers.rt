//! Who leaves a lock.
ghost use Rattle.std.specs.Prelude.{◌≡◌, not, filter, IfOk};
ghost use Rattle.std.specs.List.{list_any};
ghost use Rattle.lock_core.specs.Leavers.{is_leaver};

use crate::claims::{Claim, Hold, Owner};
use collections::{Items, Table};
use std::alloc::{AllocError, Global};

// Whose claims end.
#[derive(Clone, Copy, Debug)]
pub(crate) enum Leaver {
    Handle(Owner),
    // All handles of a client.
    Session(u64),
}

impl Leaver {
    pub(crate) fn is(self, owner: Owner) -> bool
        ensures { result ≡ is_leaver self owner }
    {
        match self {
            Leaver::Handle(leaving) => owner.client == leaving.client
                && owner.handle == leaving.handle,
            Leaver::Session(client) => owner.client == client,
        }
    }
}

// Keeps the holders that don't leave.
pub(crate) fn keep_holders(holders: &mut Table<Owner, Hold>, leaver: Leaver)
    ensures { holders.new ≡ filter (λ entry. not (is_leaver leaver entry.0)) holders.old }
{
    holders.retain(|owner, _| !leaver.is(*owner));
}

// The waiters that don't leave.
pub(crate) fn kept_waiters(
    alloc: Global,
    waiters: &[Claim],
    leaver: Leaver,
) -> Result<Items<Claim>, AllocError>
    ensures { IfOk result (λ kept. kept ≡ filter (λ claim. not (is_leaver leaver claim.owner)) waiters.now) }
{
    let kept = waiters
        .iter()
        .copied()
        .filter(|claim| !leaver.is(claim.owner))
        .collect(alloc)?;
    Ok(Items::from_vec(kept))
}

// Whether any of those who leave is among the holders.
pub(crate) fn any_holds(holders: &Table<Owner, Hold>, leaver: Leaver) -> bool
    ensures { result ≡ list_any (λ entry. is_leaver leaver entry.0) holders.now }
{
    holders.as_map().iter().any(|(owner, _)| leaver.is(*owner))
}

// Whether any of those who leave is among the waiters.
pub(crate) fn any_waits(waiters: &[Claim], leaver: Leaver) -> bool
    ensures { result ≡ list_any (λ claim. is_leaver leaver claim.owner) waiters.now }
{
    waiters.iter().any(|claim| leaver.is(claim.owner))
}
