//! Until when a held client may rely on its lease.
ghost use Rattle.std.specs.Prelude.{◌≡◌, ◌≤◌, true};
ghost use Rattle.cache_core.specs.Caches.{is_leased};
ghost use Rattle.client_exports.specs.Leases.{EndsAt};

use crate::held::HeldClient;
use cache_core::Cache;
use lease_core::MOMENT_LIMIT;

impl HeldClient {
    /// The moment, in milliseconds by the client's clock, before which its lease is unexpired, and from which on it isn't, if it
    /// gets no better one; 0 where it has none. Takes no memory. It is found by halving, which takes 53 looks at the lease.
    pub fn leased_until(&self) -> u64
        ensures { EndsAt self.now.client.cache.lease result }
    {
        lease_end(self.client.get().seen().cache)
    }
}

fn lease_end(cache: &Cache) -> u64
    ensures { EndsAt cache.now.lease result }
{
    let mut low = 0;
    let mut high = MOMENT_LIMIT;
    while low < high {
        let middle = low + (high - low) / 2;
        if cache.is_leased(middle) {
            low = middle + 1;
        } else {
            high = middle;
        }
    }
    low
}
