//! What an Alive carries.
ghost use Rattle.std.specs.Prelude.{◌≡◌, ◌&&◌};
ghost use Rattle.client_core.specs.Invalidations.{is_in_order};
ghost use Rattle.client_core.specs.Events.{are_events_in_order};

use crate::parts::events::are_events_in_order;
use crate::parts::invalidations::is_in_order;
use tags_cell::Alive;

/// Whether the numbers of its invalidations and of its events are such as a master sends.
pub fn is_numbered(processed: u64, heard: u64, alive: &Alive) -> bool
    ensures { result ≡ (is_in_order processed alive.now.invalidations && are_events_in_order heard alive.now.events) }
{
    is_in_order(processed, alive.invalidations.as_slice())
        && are_events_in_order(heard, alive.events.as_slice())
}
