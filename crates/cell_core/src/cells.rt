//! The master in memory.
ghost use Rattle.std.specs.Prelude.{◌≡◌, ◌≤◌, IfOk, OnOk, OnErr};
ghost use Rattle.lease_core.specs.Lease.{IsMoment, least_lease, longest_lease};
ghost use Rattle.master_state.specs.State.{master_of};
ghost use Rattle.master_state.specs.Lookups.{noted};
ghost use Rattle.master_state.specs.Notices.{with_tellings};
ghost use Rattle.master_state.specs.Updates.{BeginsNew, grown, undone, rest_of, with_rest};

use crate::stored::{departed_of, locks_of, sessions_of};
use collections::Items;
use master_parts::{Nodes, SessionEvent, Tables};
use master_state::{FormerParts, Grown, Master, Rest, Update, finish, grow, settle, undo};
use rows_cell::{MasterTerms, Rows};
use std::alloc::{AllocError, Global};
use std::marker::Model;

/// A master in memory, which changes by messages, updates and moments alone. All that is known of it is looked up in
/// `Master`, lent to be read. It commits nothing by itself.
#[derive(Drop)]
pub struct MemoryMaster {
    pub(crate) master: Master,
}

impl Model for MemoryMaster {
    ghost use Rattle.master_state.specs.State.{MasterState};

    ghost Value = { MasterState };

    ghost view = { λ c. c.master };
}

impl MemoryMaster {
    /// A master that comes up with these rows, by its terms, the moment in milliseconds: nothing waits, no right is held, and
    /// it knows of no call and of no handle. To each live session it issues its first event, which tells that
    /// it is up, and where there is one it is in recovery.
    pub fn of_rows(
        alloc: Global,
        rows: Rows,
        terms: MasterTerms,
        now: u64,
    ) -> Result<MemoryMaster, AllocError>
        requires range { (least_lease ≤ terms.lease) × (terms.lease ≤ longest_lease) }
        requires moment { IsMoment now }
        ensures { IfOk result (λ cell. cell ≡ master_of rows terms now) }
    {
        let nodes = Nodes::of_map(alloc, rows.map(alloc)?)?;
        let locks = locks_of(alloc, &rows, now)?;
        let sessions = sessions_of(alloc, &rows, terms.lease, now)?;
        let departed = departed_of(alloc, &rows)?;
        let recovering = !sessions.all_heard();
        let Rows {
            cell,
            secret,
            epoch,
            next_instance,
            ended_below,
            ..
        } = rows;
        let master = Master {
            alloc,
            name: cell,
            secret,
            epoch,
            next_instance,
            limits: terms.limits,
            tables: Tables::of_parts(alloc, nodes, sessions),
            locks,
            departed,
            ended_below,
            recovering,
            clock: now,
            serving_from: now,
        };
        Ok(MemoryMaster { master })
    }

    /// What the master is, to be looked up in.
    pub fn master(&self) -> &Master
        ensures { result.now ≡ self.now }
    {
        &self.master
    }

    /// Notes a moment, in milliseconds; an earlier one than the last counts as that. Gives the last one.
    pub fn note_moment(&mut self, now: u64) -> u64
        requires { IsMoment now }
        ensures moment { self.new ≡ noted self.old now }
        ensures before { result ≡ self.old.clock }
        ensures range { IsMoment result }
    {
        self.master.note_moment(now)
    }

    /// The moment that was the last one before.
    pub fn restore_moment(&mut self, before: u64)
        requires { IsMoment before }
        ensures { self.new ≡ record self.old { clock = before } }
    {
        self.master.restore_moment(before);
    }

    /// The first moment after the one noted last at which something may be to be done for a session or a lock by itself;
    /// `u64::MAX` stands for never. It says where to look first.
    pub fn next_moment(&self) -> u64 {
        self.master.next_moment()
    }

    /// Notes what isn't ready, to go or heard from, so that nobody looks at it again before something changes. To be called
    /// where nothing is to be done; elsewhere it does no harm. Takes no memory that it can't do without.
    pub fn note_quiet(&mut self)
        ensures { self.new ≡ self.old }
    {
        self.master.note_quiet();
    }

    /// Queues the events in the sessions of their clients; one whose session has ended is told of nothing. Takes no
    /// memory.
    pub fn tell(&mut self, tellings: Items<SessionEvent>)
        ensures { self.new ≡ with_tellings self.old tellings }
    {
        self.master.tell(tellings);
    }

    /// Begins an update: all of it that may want memory. Where memory is refused nothing has changed.
    pub fn grow(&mut self, update: Update) -> Result<Grown, AllocError>
        requires { BeginsNew self.old update.session }
        ensures ok { OnOk result (self.new ≡ grown self.old update) }
        ensures back { IfOk result (λ begun. undone self.new begun.former ≡ self.old) }
        ensures rest { IfOk result (λ begun. begun.rest ≡ rest_of update) }
        ensures err { OnErr result (self.new ≡ self.old) }
    {
        grow(&mut self.master, update)
    }

    /// Takes an update back that was begun and not finished. Takes no memory.
    pub fn undo(&mut self, former: FormerParts)
        ensures { self.new ≡ undone self.old former }
    {
        undo(&mut self.master, former);
    }

    /// What was kept for taking an update back is forgotten. To be called after the commit. Takes no memory.
    pub fn settle(&mut self, former: FormerParts)
        ensures { self.new ≡ self.old }
    {
        settle(&mut self.master, former);
    }

    /// Finishes an update that was begun. Takes no memory.
    pub fn finish(&mut self, rest: Rest)
        ensures { self.new ≡ with_rest self.old rest }
    {
        finish(&mut self.master, rest);
    }
}
