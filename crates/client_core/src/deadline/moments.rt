//! Moments of a client's clock.
ghost use Rattle.std.specs.Prelude.{◌≡◌, ◌<◌, true, false};
ghost use Rattle.lease_core.specs.Lease.{IsMoment};
ghost use Rattle.cache_core.specs.Caches.{is_leased};
ghost use Rattle.client_core.specs.Deadlines.{until, loss_at, is_unleased, IsFirst, IsFrom};

use cache_core::{Cache, GRACE_PERIOD};
use lease_core::MOMENT_LIMIT;

// A moment, unless it is past the end of all moments.
pub(crate) fn until(moment: u64) -> Option<u64>
    ensures { result ≡ until moment }
{
    if moment < MOMENT_LIMIT {
        Some(moment)
    } else {
        None
    }
}

// When a jeopardy since some moment loses the session, from the clock's moment on.
pub(crate) fn loss(clock: u64, since: u64) -> Option<u64>
    ensures { result ≡ until (loss_at clock since) }
{
    until(clock.max(since.saturating_add(GRACE_PERIOD)))
}

// The first moment from one on at which no lease of the cache runs. A lease that has ended doesn't run again, so it is
// found by halving.
pub(crate) fn lease_end(cache: &Cache, from: u64) -> Option<u64>
    ensures { IsFirst (is_unleased cache.now.lease) from result }
{
    if from >= MOMENT_LIMIT || cache.is_leased(MOMENT_LIMIT - 1) {
        return None;
    }
    if !cache.is_leased(from) {
        return Some(from);
    }
    Some(search(cache, from))
}

// The first moment after one at which the lease runs, where it doesn't at the last moment of all.
fn search(cache: &Cache, from: u64) -> u64
    requires moment { IsMoment from }
    requires leased { is_leased cache.now.lease from ≡ true }
    requires over { is_leased cache.now.lease 9007199254740991 ≡ false }
    ensures { IsFrom (is_unleased cache.now.lease) from result }
{
    let mut runs = from;
    let mut over = MOMENT_LIMIT - 1;
    while runs + 1 < over {
        let middle = runs + (over - runs) / 2;
        if cache.is_leased(middle) {
            runs = middle;
        } else {
            over = middle;
        }
    }
    over
}
