//! How many locks a client holds or waits for.
ghost use Rattle.std.specs.Prelude.{◌≡◌, ◌+◌, ℕ, IfOk};
ghost use Rattle.std.specs.List.{count_by};
ghost use Rattle.node_core.specs.Room.{Counts};
ghost use Rattle.lock_core.specs.Turns.{is_of_client};
ghost use Rattle.lock_core.specs.Counted.{claims_in, claim_count, claims_among};

use crate::claims::{Claim, Hold, Owner};
use crate::states::Lock;
use crate::tables::Locks;
use collections::Table;
use std::alloc::AllocError;
use std::collections::BTreeSet;

impl Locks {
    /// How many locks a client's handles hold or wait for: each handle counts, on each lock. None where these are more than
    /// `u64::MAX`. It looks at the locks of the client, and at each lock with more than 16 holders or more than 16 who wait; at
    /// all locks where memory was wanting.
    pub fn claim_count(&self, client: u64) -> Result<Option<u64>, AllocError>
        ensures { IfOk result (λ count. Counts count (claim_count client self.now)) }
    {
        // The order of the instances is told by this call.
        let _ordered = self.locks.as_map().len();
        match self.claimants.of_client(self.alloc, client)? {
            Some(instances) => {
                let _sorted = instances.len();
                Ok(self.claims_among(&instances, client))
            }
            None => Ok(self.claims_of_all(client)),
        }
    }

    fn claims_among(&self, instances: &BTreeSet<u64>, client: u64) -> Option<u64>
        ensures { Counts result (claims_among client self.now instances.now.keys) }
    {
        let mut sum: u64 = 0;
        for instance in instances.iter() {
            if let Some(lock) = self.locks.get(instance) {
                sum = with_claims(sum, lock, client)?;
            }
        }
        Some(sum)
    }

    fn claims_of_all(&self, client: u64) -> Option<u64>
        ensures { Counts result (claim_count client self.now) }
    {
        let mut sum: u64 = 0;
        for (_, lock) in self.locks.as_map() {
            sum = with_claims(sum, lock, client)?;
        }
        Some(sum)
    }
}

// A number, and one more for each claim of the client on this lock.
fn with_claims(before: u64, lock: &Lock, client: u64) -> Option<u64>
    ensures { Counts result (before + claims_in client lock.now) }
{
    let held = with_holders(before, lock.holders(), client)?;
    with_waiters(held, lock.waiters(), client)
}

fn with_holders(before: u64, holders: &Table<Owner, Hold>, client: u64) -> Option<u64>
    ensures { Counts result (before + count_by (λ entry. is_of_client client entry.0) holders.now) }
{
    let mut sum = before;
    for (owner, _) in holders.as_map() {
        if owner.client == client {
            sum = sum.checked_add(1)?;
        }
    }
    Some(sum)
}

fn with_waiters(before: u64, waiters: &[Claim], client: u64) -> Option<u64>
    ensures { Counts result (before + count_by (λ claim. is_of_client client claim.owner) waiters.now) }
{
    let mut sum = before;
    for claim in waiters.iter() {
        if claim.owner.client == client {
            sum = sum.checked_add(1)?;
        }
    }
    Some(sum)
}
