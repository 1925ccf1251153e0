//! The parts of a master in memory.
ghost use Rattle.std.specs.Prelude.{◌≡◌};
ghost use Rattle.lease_core.specs.Lease.{IsMoment};

use crate::departed::Departed;
use collections::Secret;
use gate_core::Gate;
use lock_core::Locks;
use master_parts::{Handles, Tables, Task};
use names_cell::Component;
use node_core::Map;
use rights_core::Rights;
use rows_cell::Limits;
use session_core::Sessions;
use std::alloc::Global;
use std::marker::Model;
use tags_cell::Reply;

/// A master in memory: what it read from the rows when it came up and has committed since, the changes that wait, its
/// sessions with the last call of each client, the handles that it knows, and the rights to cache names that it granted.
/// It commits nothing by itself.
#[derive(Drop)]
pub struct Master {
    pub alloc: Global,
    pub name: Component,
    pub secret: Secret,
    pub epoch: u64,
    pub next_instance: u64,
    /// What the cell holds at most.
    pub limits: Limits,
    /// Its nodes, handles, sessions and rights, and the changes that wait.
    pub tables: Tables,
    pub locks: Locks,
    /// The clients whose sessions have ended and are still known.
    pub departed: Departed,
    /// A client number below it that has no session gets none any more.
    pub ended_below: u64,
    pub recovering: bool,
    pub clock: u64,
    // When its recovery ended, or when it came up without one.
    pub serving_from: u64,
}

impl Model for Master {
    ghost use Rattle.lease_core.specs.Lease.{IsMoment};
    ghost use Rattle.master_state.specs.State.{MasterState};

    ghost Value = { MasterState };

    ghost view = { λ c. record {
      name = c.name;
      secret = c.secret;
      epoch = c.epoch;
      next_instance = c.next_instance;
      limits = c.limits;
      nodes = c.tables.nodes;
      locks = c.locks;
      sessions = c.tables.sessions;
      departed = c.departed;
      ended_below = c.ended_below;
      recovering = c.recovering;
      handles = c.tables.handles;
      rights = c.tables.queue.rights;
      gate = c.tables.queue.gate;
      clock = c.clock;
      serving_from = c.serving_from;
    } };

    ghost invariant = { λ c. IsMoment c.clock };
}

impl Master {
    ghost use Rattle.std.specs.Prelude.{◌≡◌};
    ghost use Rattle.std.specs.Option.{option_copied};
    ghost use Rattle.master_state.specs.State.{next_change, task_at};
    ghost use Rattle.master_state.specs.Lookups.{noted};

    pub fn epoch(&self) -> u64
        ensures { result ≡ self.now.epoch }
    {
        self.epoch
    }

    /// The instance of the next node.
    pub fn next_instance(&self) -> u64
        ensures { result ≡ self.now.next_instance }
    {
        self.next_instance
    }

    /// What the cell holds at most.
    pub fn limits(&self) -> Limits
        ensures { result ≡ self.now.limits }
    {
        self.limits
    }

    /// The sessions, with the lease in milliseconds.
    pub fn sessions(&self) -> &Sessions<Reply>
        ensures { result.now ≡ self.now.sessions }
    {
        self.tables.sessions()
    }

    /// Whether some session of an earlier master has neither acknowledged its first event nor expired.
    pub fn recovering(&self) -> bool
        ensures { result ≡ self.now.recovering }
    {
        self.recovering
    }

    /// The locks of its nodes, by instance: who holds them and who waits.
    pub fn locks(&self) -> &Locks
        ensures { result.now ≡ self.now.locks }
    {
        &self.locks
    }

    pub fn alloc(&self) -> Global {
        self.alloc
    }

    /// The rights to cache a name that it granted in this epoch, those that have ended included.
    pub fn rights(&self) -> &Rights
        ensures { result.now ≡ self.now.rights }
    {
        self.tables.queue().rights()
    }

    /// The handles that were opened in this epoch or shown, and are open; and those that were shown, and closed then.
    pub fn handles(&self) -> &Handles
        ensures { result.now ≡ self.now.handles }
    {
        self.tables.handles()
    }

    /// The changes that wait.
    pub fn gate(&self) -> &Gate<Task>
        ensures { result.now ≡ self.now.gate }
    {
        self.tables.queue().gate()
    }

    /// The number of the lowest change that waits and that no right holds up. Takes no memory.
    pub fn next_change(&self) -> Option<u64>
        ensures { result ≡ next_change self.now }
    {
        self.tables.queue().ready()
    }

    /// What the change of a number does, while it waits.
    pub fn task(&self, number: u64) -> Option<&Task>
        ensures { option_copied result ≡ task_at number self.now.gate.waiting }
    {
        let change = self.gate().get(number)?;
        Some(&change.body)
    }

    /// The last moment that the master was told, in milliseconds.
    pub fn clock(&self) -> u64
        ensures value { result ≡ self.now.clock }
        ensures moment { IsMoment result }
    {
        self.clock
    }

    /// Notes a moment, in milliseconds; an earlier one than the last counts as that. Gives the last one.
    pub fn note_moment(&mut self, now: u64) -> u64
        requires { IsMoment now }
        ensures moment { self.new ≡ noted self.old now }
        ensures before { result ≡ self.old.clock }
        ensures range { IsMoment result }
    {
        let before = self.clock;
        self.clock = before.max(now);
        self.tables.note_moment(self.clock);
        self.locks.note_moment(self.clock);
        before
    }

    /// The first moment after the one noted last at which something may be to be done for a session or a lock by itself;
    /// `u64::MAX` stands for never. It says where to look first.
    pub fn next_moment(&self) -> u64 {
        self.tables.next_moment().min(self.locks.next_moment())
    }

    /// Notes what isn't ready, to go or heard from, so that nobody looks at it again before something changes. To be called
    /// where nothing is to be done; elsewhere it does no harm. Takes no memory that it can't do without.
    pub fn note_quiet(&mut self)
        ensures { self.new ≡ self.old }
    {
        self.locks.note_quiet(self.clock);
        self.tables.note_quiet();
        if self.recovering {
            self.tables.note_unheard();
        }
    }

    /// The moment that was the last one before.
    pub fn restore_moment(&mut self, before: u64)
        requires { IsMoment before }
        ensures { self.new ≡ record self.old { clock = before } }
    {
        self.clock = before;
    }

    /// The nodes of the cell, as the rows hold them.
    pub fn map(&self) -> &Map
        ensures { result.now ≡ self.now.nodes }
    {
        self.tables.nodes().map()
    }
}
