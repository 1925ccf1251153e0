//! The clients whose sessions have ended and are still known.
ghost use Rattle.std.specs.Prelude.{◌≡◌, ◌++◌, ◌∷◌, [], true, drop, IfOk, OnOk, OnErr};
ghost use Rattle.master_state.specs.Departed.{with_departed, without_last, first_due};

use std::alloc::{AllocError, Global};
use std::collections::VecDeque;
use std::marker::Model;
use tags_cell::ClientNumber;

/// How many sessions that have ended are known at most once another begins. Each of them answers its client's Leave again.
const DEPARTED_LIMIT: usize = 1_024;

/// The clients whose sessions have ended and are still known, the first to end first.
#[derive(Drop)]
pub struct Departed {
    clients: VecDeque<u64>,
}

impl Model for Departed {
    ghost use Rattle.std.specs.Prelude.{ℕ, List};

    ghost Value = { List ℕ };

    ghost view = { λ d. d.clients.items };
}

impl Departed {
    /// None.
    pub fn new(alloc: Global) -> Departed
        ensures { result ≡ [] }
    {
        Departed {
            clients: VecDeque::new(alloc),
        }
    }

    /// A client's session ends. Tells whether that is noted: not of a number that no client can have.
    pub fn note(&mut self, client: u64) -> Result<bool, AllocError>
        ensures ok { OnOk result (self.new ≡ with_departed self.old client) }
        ensures back { IfOk result (λ noted. without_last noted self.new ≡ self.old) }
        ensures err { OnErr result (self.new ≡ self.old) }
    {
        let Some(_client) = ClientNumber::new(client) else {
            return Ok(false);
        };
        self.add(client)?;
        Ok(true)
    }

    // Behind all others.
    fn add(&mut self, client: u64) -> Result<(), AllocError>
        ensures ok { OnOk result (self.new ≡ self.old ++ client ∷ []) }
        ensures back { OnOk result (without_last true self.new ≡ self.old) }
        ensures err { OnErr result (self.new ≡ self.old) }
    {
        self.clients.push_back(client)?;
        Ok(())
    }

    /// What was noted last is taken back. Takes no memory.
    pub fn take_back(&mut self)
        ensures { self.new ≡ without_last true self.old }
    {
        let _client = self.clients.pop_back();
    }

    /// The first of them, where they are too many. Takes no memory.
    pub fn first_due(&self) -> Option<u64>
        ensures { result ≡ first_due self.now }
    {
        if self.clients.len() <= DEPARTED_LIMIT {
            return None;
        }
        self.clients.front().copied()
    }

    /// The first one isn't known any more. Takes no memory.
    pub fn pass(&mut self)
        ensures { self.new ≡ drop 1 self.old }
    {
        let _client = self.clients.pop_front();
    }
}
