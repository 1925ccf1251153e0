//! Until when a server that renews its mastership may still pass on what its master tells, whether a commit stands whose answer got
//! lost, and which number a new client gets. For programs in other languages: what stands under `extern "C"` here stands in
//! include/mastership.h.
#![tactic(auto)]

mod ends;
mod keepers;
mod laws;
mod numbers;

ghost use Rattle.std.specs.Prelude.{◌≡◌, ◌+◌, ◌<◌, ◌≤◌};
ghost use Rattle.lease_core.specs.Lease.{IsMoment};
ghost use Rattle.mastership.specs.Ends.{EndsAt};
ghost use Rattle.mastership.specs.Keepers.{Settles};
ghost use Rattle.mastership.specs.Numbers.{Gives};

use ends::ends_at;
use keepers::settled;
pub use keepers::{IS_OFF, IS_OPEN, IS_OVER, STANDS};
pub use laws::{a_number_is_given_once, ends_before_theirs, nothing_earlier_is_done};
use numbers::next_of;

/// The moment, in milliseconds by the server's clock, from which on it passes nothing on: `sent` is when it sent the last renewal that
/// was answered, `span` for how many milliseconds the other side keeps the mastership from that on. 0 where either isn't below 2^53,
/// or no moment is left.
#[unsafe(no_mangle)]
pub extern "C" fn mastership_end(sent: u64, span: u64) -> u64
    ensures end { IsMoment sent → IsMoment span → EndsAt sent span result }
    ensures other { (IsMoment sent → IsMoment span → ⊥) → result ≡ 0 }
{
    ends_at(sent, span)
}

/// What became of a commit whose answer got lost. The keeper has this number of its own, gave the commit this turn, and sent it over
/// this revision of the register; then it read there whose the last write is, of which turn, and which revision it made. 1: the commit
/// stands. 2: it is off for good. 3: it isn't done, and still may be, until the keeper has done a write of its next turn over the same
/// revision. 4: another keeper has written, and this one's time is over.
#[unsafe(no_mangle)]
pub extern "C" fn mastership_settled(
    keeper: u64,
    turn: u64,
    over: u64,
    read_keeper: u64,
    read_turn: u64,
    read_revision: u64,
) -> u32
    ensures { Settles keeper turn over read_keeper read_turn read_revision result }
{
    settled(keeper, turn, over, read_keeper, read_turn, read_revision)
}

/// The number that a new client gets, of those from `from` on and below `to`, of which so many are given already; 0 where none is left.
#[unsafe(no_mangle)]
pub extern "C" fn mastership_number(from: u64, to: u64, given: u64) -> u64
    ensures one { from + given < to → Gives from to given result }
    ensures none { to ≤ from + given → result ≡ 0 }
{
    next_of(from, to, given)
}
