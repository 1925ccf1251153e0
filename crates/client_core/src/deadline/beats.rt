//! When a client sends a Start or a Beat, or prints a line instead.
ghost use Rattle.std.specs.Prelude.{◌≡◌};
ghost use Rattle.client_core.specs.Deadlines.{has_number, now_or_never, in_session, IsNextBeat};

use crate::client::Client;
use crate::deadline::moments::{loss, until};
use crate::parts::ClientStanding;
use cache_core::SessionTrust;
use node_core::NUMBER_LIMIT;

/// The earliest moment, from the last one that the client noted on, at which `beat` sends a message or prints a line: at
/// no earlier one it does, and at every later one. None where it does at no moment. A client that has a session, or none
/// yet, sends at every moment, so that is the moment that it noted; one whose session is lost, or that was told that it
/// gets none, never does. After the last number, 2^63-1, a beat is refused, but for the one that prints that the session
/// is lost. In milliseconds of the client's own clock. Takes no memory.
pub fn next_beat(client: &Client) -> Option<u64>
    ensures { IsNextBeat client.now result }
{
    let seen = client.seen();
    match seen.session {
        ClientStanding::Unstarted => now_or_never(seen.beats, seen.clock),
        ClientStanding::Live => in_session(seen.standing, seen.beats, seen.clock),
        ClientStanding::Lost | ClientStanding::TurnedAway => None,
    }
}

// Where a message goes out at every moment, or at none.
fn now_or_never(beats: u64, clock: u64) -> Option<u64>
    ensures { result ≡ now_or_never (has_number beats) clock }
{
    if beats < NUMBER_LIMIT {
        until(clock)
    } else {
        None
    }
}

// In a session, by how the client stands.
fn in_session(standing: SessionTrust, beats: u64, clock: u64) -> Option<u64>
    ensures { result ≡ in_session standing (has_number beats) clock }
{
    match standing {
        SessionTrust::Safe => now_or_never(beats, clock),
        SessionTrust::Jeopardy(_) if beats < NUMBER_LIMIT => until(clock),
        SessionTrust::Jeopardy(since) => loss(clock, since),
        SessionTrust::Lost => None,
    }
}
