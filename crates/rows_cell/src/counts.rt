//! What a test of a store tells of it.
ghost use Rattle.std.specs.Prelude.{◌≡◌, length, filter};
ghost use Rattle.rows_cell.specs.Counts.{counts_of};

use crate::tables::{Rows, SessionRow};
use collections::Table;

/// How much the rows of a cell hold.
#[derive(Clone, Copy, Debug, PartialEq, Eq)]
pub struct Counts {
    /// How many masters came up.
    pub epoch: u64,
    pub nodes: usize,
    /// Live ones.
    pub sessions: usize,
    /// The rows of locks: each holder of a shared lock has one.
    pub locks: usize,
}

impl Rows {
    pub fn counts(&self) -> Counts
        ensures { result ≡ counts_of self.now }
    {
        Counts {
            epoch: self.epoch,
            nodes: self.nodes.as_map().len(),
            sessions: live_sessions(&self.sessions),
            locks: self.locks.as_map().len(),
        }
    }
}

#[tactic(auto, using(crate::proofs::LiveCounts::count_start, crate::proofs::LiveCounts::count_more, crate::proofs::LiveCounts::count_none, crate::proofs::LiveCounts::count_done))]
fn live_sessions(sessions: &Table<u64, SessionRow>) -> usize
    ensures { result ≡ length (filter (λ e. e.1.live) sessions.now) }
{
    let all = sessions.as_map();
    let _most = all.len();
    let mut live = 0;
    for (_client, session) in all {
        if session.live {
            live += 1;
        }
    }
    live
}
