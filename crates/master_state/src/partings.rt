//! How a client's session ends, and what is recorded and printed of its rights and its locks.
ghost use Rattle.std.specs.Prelude.{◌≡◌};
ghost use Rattle.master_state.specs.Partings.{ending_by, right_line, lock_line};

use lock_core::Parting;
use node_core::Line;
use rights_core::Ending;

// What ends its rights: a client that leaves has given all back that it held.
pub(crate) fn ending_by(parting: Parting) -> Ending
    ensures { result ≡ ending_by parting }
{
    match parting {
        Parting::Expiry => Ending::Expiry,
        Parting::Leave => Ending::Leave,
    }
}

// The end of the right of a number.
pub(crate) fn right_line(parting: Parting, number: u64) -> Line
    ensures { result ≡ right_line parting number }
{
    match parting {
        Parting::Expiry => Line::Expired(number),
        Parting::Leave => Line::Acked(number),
    }
}

// The client's handles hold the lock of an instance no longer.
pub(crate) fn lock_line(parting: Parting, client: u64, instance: u64) -> Line
    ensures { result ≡ lock_line parting client instance }
{
    match parting {
        Parting::Expiry => Line::Lapsed(client, instance),
        Parting::Leave => Line::Freed(client, instance),
    }
}
