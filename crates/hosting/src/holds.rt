//! A master over its records, whose changes are committed together.
ghost use Rattle.std.specs.Prelude.{◌≡◌, ◌≢◌, ◌⊎◌, ◌<◌, Ok, Err, IfOk, IfErr, OnOk, OnErr};
ghost use Rattle.std.specs.Vec.{vec_len, vec_capacity};
ghost use Rattle.cell_core.specs.Step.{take_step};
ghost use Rattle.over_core.specs.Sweep.{IsSettled, IsSwept, sweep_step, sweep_edits, sweep_frees};
ghost use Rattle.hosting.specs.Held.{seen};
ghost use Rattle.hosting.specs.Pieces.{AreTaken, CommitsEach, IsCutShort, all_pieces, held_with, no_pieces};
ghost use Rattle.over_core.specs.Deadlines.{IsDeadline};

use crate::pieces::{GroupLimits, Pieces};
use crate::sweeping::sweep_held;
use master_parts::Taken;
use node_core::Fault;
use over_core::{Cell, Swept, next_deadline};
use rows_cell::Records;
use std::alloc::{AllocError, Global};
use std::marker::Model;
use tags_cell::Request;

/// A master over its records. What its steps change is held back, and committed in the end; until then the records aren't
/// asked. To a contract, what the master is, what its records keep, and the edits that are held back.
#[derive(Drop)]
pub struct Group<R: Records> {
    records: R,
    master: cell_core::MemoryMaster,
    held: Pieces,
    // Whether the last frame left something to do.
    has_more: bool,
}

impl<R: Records> Model for Group<R> {
    ghost use Rattle.rows_cell.specs.Rows.{changed_rows};
    ghost use Rattle.over_core.specs.Kept.{IsKept};
    ghost use Rattle.over_core.specs.Sweep.{IsSettled};
    ghost use Rattle.hosting.specs.Held.{GroupState, store_behind};
    ghost use Rattle.hosting.specs.Pieces.{AreSound, AreTaken, all_held, all_pieces};

    ghost Value = { GroupState };

    ghost view = { λ g. record { master = g.master; store = R.store g.records; held = g.held } };

    ghost invariant = { λ g. record {
      kept : IsKept (R.store g.records).cell (changed_rows (R.store g.records).rows (all_held g.held)) g.master;
      settled : IsSettled (store_behind (R.store g.records) (all_held g.held));
      sound : AreSound (R.store g.records).cell (R.store g.records).rows (all_pieces g.held);
      taken : AreTaken g.held.limits (all_pieces g.held);
    } };
}

impl<R: Records> Group<R> {
    /// A master that goes on in a group: nothing is held back yet. Its last commit stood. What is held back is committed
    /// in pieces within these limits.
    pub fn of(alloc: Global, cell: Cell<R>, limits: GroupLimits) -> Group<R>
        requires { IsSettled cell.store }
        ensures { result ≡ record { master = cell.master; store = cell.store; held = no_pieces limits } }
    {
        let (master, records) = cell.into_parts();
        Group {
            records,
            master,
            held: Pieces::new(alloc, limits),
            has_more: false,
        }
    }

    /// One step by a request that came, as `take` of `over_core` does it.
    pub fn take(&mut self, now: u64, request: &Request) -> Result<Taken, Fault>
        ensures ok { IfOk result (λ taken. take_step self.old.master now request.now ≡ Ok (self.new.master, taken)) }
        ensures same { self.new ≡ record self.old { master = self.new.master } }
        ensures fault { IfErr result (λ e. e ≢ Fault.NoMemory → take_step self.old.master now request.now ≡ Err e) }
        ensures err { OnErr result (self.new ≡ self.old) }
    {
        let _client = request.client().get();
        self.master.take(now, request)
    }

    /// Does the first action that there is, as `sweep` of `over_core` does it, and holds back what it would commit. Room
    /// for one item is made in a list of the caller's, before anything changes. A refusal changes nothing, and is that of
    /// the step, or want of memory.
    pub fn sweep_with_room<T>(&mut self, now: u64, room: &mut Vec<T>) -> Result<Swept, Fault>
        ensures ok { IfOk result (λ swept. sweep_step self.old.master now ≡ Ok (self.new.master, swept)) }
        ensures held { OnOk result (self.new ≡ record self.old { master = self.new.master; held = held_with self.old.held (sweep_edits self.old.master now) }) }
        ensures swept { OnOk result (IsSwept (sweep_frees self.old.master now) (sweep_edits self.old.master now) (seen self.old).store (seen self.new).store) }
        ensures fault { IfErr result (λ e. (sweep_step self.old.master now ≡ Err e) ⊎ (e ≡ Fault.NoMemory)) }
        ensures err { OnErr result (self.new ≡ self.old) }
        ensures items { room.new.items ≡ room.old.items }
        ensures room { OnOk result (vec_len room.new < vec_capacity room.new) }
    {
        sweep_held(&mut self.master, &mut self.held, now, room)
    }

    /// A frame left something to do: the group ends with it, so that what was done is told before more is.
    pub(crate) fn note_more(&mut self)
        ensures { self.new ≡ self.old }
    {
        self.has_more = true;
    }

    /// Whether no other frame is to be done in the group: what is held back is more than one piece, or the last frame left something
    /// to do.
    pub(crate) fn ends_here(&self) -> bool {
        self.has_more || self.held.is_parted()
    }

    /// The earliest moment at which a sweep would do something, as `next_deadline` of `over_core` tells it.
    pub fn next_deadline(&mut self) -> Result<Option<u64>, AllocError>
        ensures deadline { IfOk result (IsDeadline self.old.master) }
        ensures same { self.new ≡ self.old }
    {
        next_deadline(&mut self.master)
    }

    /// All that is held back is committed, piece by piece, and the master goes on over it. Where the store refuses a piece
    /// the master is gone, and the records come back with the pieces before it.
    pub fn commit(self) -> Result<Cell<R>, (Fault, R)>
        ensures ok { IfOk result (λ cell. (cell.master ≡ self.master) × CommitsEach (all_pieces self.held) self.store cell.store) }
        ensures taken { AreTaken self.held.limits (all_pieces self.held) }
        ensures refused { IfErr result (λ e. IsCutShort e.0 (all_pieces self.held) self.store (R.store e.1)) }
    {
        let Group {
            mut records,
            master,
            held,
            ..
        } = self;
        match held.commit(&mut records) {
            Ok(()) => Ok(Cell::of_parts(master, records)),
            Err(fault) => {
                drop(master);
                Err((fault, records))
            }
        }
    }

    /// The master is gone, and nothing that is held back was ever committed: the records come back as they were before the
    /// group.
    pub fn lose(self) -> R
        ensures { R.store result ≡ self.store }
    {
        let Group { records, .. } = self;
        records
    }
}
