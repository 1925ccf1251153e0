//! When the time alone turns how a client stands.
ghost use Rattle.client_core.specs.Deadlines.{IsNextTurn};

use crate::client::Client;
use crate::deadline::moments::{lease_end, loss};
use crate::parts::ClientStanding;
use cache_core::SessionTrust;

/// The earliest moment, from the last one that the client noted on, at which `beat`, `ask` and `give` find how it stands
/// turned by the time alone, and print a line of it: the lease on its session has ended, and it is in jeopardy; or its
/// jeopardy has lasted for 45,000 ms, and the session is lost (Burrows 2006, section 2.8). At no earlier moment they do,
/// and at every later one. None where they do at no moment. In milliseconds of the client's own clock. Takes no memory;
/// it looks at the lease at most 56 times.
pub fn next_turn(client: &Client) -> Option<u64>
    ensures { IsNextTurn client.now result }
{
    let seen = client.seen();
    match (seen.session, seen.standing) {
        (ClientStanding::Live, SessionTrust::Safe) => lease_end(seen.cache, seen.clock),
        (ClientStanding::Live, SessionTrust::Jeopardy(since)) => loss(seen.clock, since),
        (ClientStanding::Live, SessionTrust::Lost) => None,
        (ClientStanding::Unstarted | ClientStanding::Lost | ClientStanding::TurnedAway, _) => None,
    }
}
