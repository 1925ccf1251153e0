//! A world.
ghost use Rattle.std.specs.Prelude.{◌≡◌, ◌∷◌, [], Ok, IfOk, IfErr, OnOk, OnErr, is_some};
ghost use Rattle.rows_cell.specs.Rows.{map_of};
ghost use Rattle.rows_cell.specs.Settings.{terms_of};
ghost use Rattle.world_steps.specs.World.{opened, store_in, world_sweep, step_edits, step_frees, IsUndoubted, IsStored, IsLeft, MayRefuseStep};
ghost use Rattle.world_steps.specs.Made.{WasMade, WasRefused};
ghost use Rattle.world_steps.specs.Crash.{IsCrash, IsNoCrash};
ghost use Rattle.world_cell.specs.Served.{ServesPresent};
ghost use Rattle.world_cell.specs.Locks.{HasLegalLocks, CountsHolds};

use collections::Items;
use node_core::{Fault, Line};
use rows_cell::{Records, Settings};
use std::alloc::Global;
use std::marker::Model;
use world_steps::{Crashes, Message, Step, SweepResult, WorldParts};

/// A cell with all that happens around it: records, at most one master, clients, and every message that was sent. To a
/// contract, plain lists of these. Where nothing that was read from the records is in doubt, they fit one another always
/// (`IsConsistent`), and would after a crash, whichever rows it leaves (`EachIsLeft`).
#[derive(Drop)]
pub struct World<R: Records> {
    pub(crate) parts: WorldParts<R>,
}

impl<R: Records> Model for World<R> {
    ghost use Rattle.world_steps.specs.World.{WorldView, IsUndoubted};
    ghost use Rattle.world_cell.specs.Consistent.{IsConsistent};
    ghost use Rattle.world_cell.specs.Left.{EachIsLeft};

    ghost Value = { WorldView };

    ghost view = { λ w. w.parts };

    ghost invariant = { λ w. (IsUndoubted w.parts → IsConsistent w.parts.world) × (IsUndoubted w.parts → EachIsLeft w.parts) };
}

impl<R: Records + Drop> World<R> {
    /// No master is up, no client has joined, nothing was sent. Takes no memory yet.
    pub fn new(alloc: Global, records: R, settings: &Settings) -> World<R>
        ensures { result ≡ opened (R.store records) (terms_of settings.now) }
    {
        World {
            parts: WorldParts::new(alloc, records, settings),
        }
    }

    /// One step. What a client refuses by itself is no refusal of the step: it is a line, and the last one. A master comes
    /// up by the rows that are read, which are those that stood where nothing is in doubt.
    ///
    /// Refused, and nothing changed but perhaps the store's count of its refusals, or what was read: a master that would come up while
    /// one is up; a message for a master, or one that would sweep or go down, while none is up; a number that a client
    /// joined with before; a client that hasn't joined; a message that was never sent, or of the other direction; a
    /// moment or a number at its end; where the store refuses or its rows aren't sound; and for want of memory.
    pub fn step(&mut self, step: &Step) -> Result<Items<Line>, Fault>
        ensures made { IfOk result (λ lines. WasMade self.old step.now self.new lines) }
        ensures refused { IfErr result (λ e. WasRefused self.old step.now self.new (Line.Refused e ∷ [])) }
        // Whatever a client serves from its cache is what the rows hold of that name.
        ensures served { IfOk result (λ lines. IsUndoubted self.new → ServesPresent (map_of self.new.world.rows) lines) }
        // Each lock has one exclusive holder, or shared ones alone, or is closed, or free.
        ensures locks { IsUndoubted self.new → HasLegalLocks self.old.world self.new.world }
        // A lock's generation is one more if it came from free to held, and else the same.
        ensures generations { IsUndoubted self.new → CountsHolds self.old.world.rows self.new.world.rows }
    {
        let told = self.parts.step(step);
        self.parts.kept();
        told
    }

    /// The step by which the master sweeps, with word of whether it found nothing to do.
    pub fn sweep(&mut self) -> Result<SweepResult, Fault>
        ensures ok { IfOk result (λ turn. world_sweep self.old.world self.old.world.master ≡ Ok (self.new.world, turn)) }
        ensures stored { OnOk result (IsStored (step_frees self.old.world Step.Sweep) (step_edits self.old.world Step.Sweep) self.old self.new) }
        ensures fault { IfErr result (λ e. MayRefuseStep (world_sweep self.old.world self.old.world.master) Step.Sweep e self.old self.new) }
        ensures left { OnErr result (IsLeft (step_frees self.old.world Step.Sweep) (step_edits self.old.world Step.Sweep) self.old self.new) }
    {
        let turn = self.parts.sweep();
        self.parts.kept();
        turn
    }

    /// All messages that were sent, in order.
    pub fn messages(&self) -> &[Message]
        ensures { result.now ≡ self.now.world.messages }
    {
        self.parts.messages()
    }

    /// Whether a master is up.
    pub fn is_up(&self) -> bool
        ensures { result ≡ is_some self.now.world.master }
    {
        self.parts.is_up()
    }

    /// The records, with the rows that stand. A master that is up is gone.
    pub fn close(self) -> R
        ensures { R.store result ≡ store_in self }
    {
        let World { parts } = self;
        parts.close()
    }

    pub(crate) fn alloc(&self) -> Global {
        self.parts.alloc()
    }
}

impl<R: Crashes + Drop> World<R> {
    /// A crash that leaves the rows of this number, counted from 1, of those that it may leave: the ones that stand, and those of
    /// each commit that was refused since one stood. The master is gone, if one was up; clients, clocks and messages stay.
    /// All that holds of worlds holds of the one that is left.
    ///
    /// Refused, and nothing changed: where there are no rows of the number, as NoSuchMessage, and for want of memory.
    pub fn crash(&mut self, number: u64) -> Result<Items<Line>, Fault>
        ensures ok { IfOk result (λ lines. IsCrash number self.old self.new lines) }
        ensures refused { IfErr result (λ e. IsNoCrash number e self.old self.new) }
    {
        self.parts.crash(number)
    }
}
