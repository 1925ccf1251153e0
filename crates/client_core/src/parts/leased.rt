//! What a lease makes of a client's cache, and of how the client stands.
ghost use Rattle.std.specs.Prelude.{◌≡◌};
ghost use Rattle.cache_core.specs.Caches.{is_leased};
ghost use Rattle.cache_core.specs.Standings.{standing_at};
ghost use Rattle.client_core.specs.Leased.{under};

use cache_core::{Cache, SessionTrust};
use lease_core::Lease;

/// How a client that stood like this stands at a moment, in a session, by the lease that its cache is under.
pub fn standing_by(former: SessionTrust, cache: &Cache, moment: u64) -> SessionTrust
    ensures { result ≡ standing_at former (is_leased cache.now.lease moment) moment }
{
    former.at(cache.is_leased(moment), moment)
}

/// From here on the cache stands under this lease: it serves where the lease runs, and is emptied where it has ended.
pub fn put_under(cache: &mut Cache, lease: Lease, moment: u64)
    ensures { cache.new ≡ under cache.old lease moment }
{
    cache.set_lease(Some(lease));
    if cache.note(moment) {
        cache.enable();
    }
}
