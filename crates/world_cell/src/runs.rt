//! Whole runs.
ghost use Rattle.std.specs.Prelude.{◌≡◌, ◌≤◌, ◌++◌, ◌∷◌, [], Some, None, IfOk, OnErr, ℕ, List, take};
ghost use Rattle.rows_cell.specs.Rows.{map_of};
ghost use Rattle.node_core.specs.declared.lines.Line.{Line as PrintedLine};
ghost use Rattle.node_core.specs.declared.views.Mod.{Mod};
ghost use Rattle.world_cell.specs.Consistent.{IsConsistent};
ghost use Rattle.world_cell.specs.Left.{EachIsLeft};
ghost use Rattle.rows_cell.specs.Sound.{is_live_in};
ghost use Rattle.world_steps.specs.World.{IsUndoubted};
ghost use Rattle.world_cell.specs.Runs.{AnyRun, map_at, after_lines, epoch_at, live_at, LeasesKeepSessions, AreJoint, KeepsClocksFair, AreRecordedOnce, applied, Rises, IsOfCall, IsOfIdle};
ghost use Rattle.world_steps.specs.Made.{WasRefused, AnyStep};
ghost use Rattle.world_cell.specs.Served.{ServesPresentByThen};
ghost use Rattle.world_cell.specs.Locks.{HasLegalLocks, NoGenerationTwice, HoldsRise};
ghost use Rattle.world_cell.specs.HeldLocks.{TellsOfLocks};
ghost use Rattle.world_cell.specs.HolderSteps.{StepsTellOfHolders};
ghost use Rattle.world_cell.specs.Told.{ShowsNoOlder};
ghost use Rattle.world_cell.specs.Limits.{StaysWithinLimits};
ghost use Rattle.world_cell.specs.Turns.{HaveOneTurn};
ghost use Rattle.world_cell.specs.RunLaws.{HoldsOfRuns};
ghost use Rattle.world_cell.specs.Crashes.{HoldsBehindCrashes};

use crate::worlds::World;
use collections::Items;
use node_core::{Fault, Line};
use rows_cell::Records;
use std::alloc::{AllocError, Global};
use world_steps::Step;

impl<R: Records + Drop> World<R> {
    /// Steps, one after the other; a refused step is the one line that says so. Where memory ends, the steps made so
    /// far stand, the last one too, and the lines of all of them are lost. The laws hold where nothing is in doubt.
    pub fn run(&mut self, steps: &[Step]) -> Result<Items<Line>, AllocError>
        ensures run { IfOk result (λ lines. AnyRun self.old steps.now lines self.new) }
        ensures part { OnErr result ((count : ℕ) × (lines : List PrintedLine) × AnyRun self.old (take count steps.now) lines self.new) }
        // The rows hold the map that the printed changes make of the former one.
        ensures map { IfOk result (λ lines. IsUndoubted self.new → map_of self.new.world.rows ≡ map_at (map_of self.old.world.rows) lines) }
        // Each of these changes fits the map just before it: what is put is the root or stands under a directory, is within
        // its limits, and keeps the instance and the kind of a node that was there; what goes was there, had no children,
        // and isn't the root.
        ensures fits { IfOk result (λ lines. IsUndoubted self.new → after_lines (map_of self.old.world.rows) lines ≡ Some (map_of self.new.world.rows)) }
        // The epoch is that of the last master that came up.
        ensures epoch { IfOk result (λ lines. IsUndoubted self.new → self.new.world.rows.epoch ≡ epoch_at self.old.world.rows.epoch lines) }
        // Each call is applied at most once: the numbers of a client's applied calls rise.
        ensures once { IfOk result (λ lines. IsUndoubted self.new → (client : ℕ) → 1 ≤ client → Rises (applied client lines)) }
        // No call, whatever it asks, has its turn twice: of a client one waits at most, and once a call waits no longer, each
        // that waits later has a greater number.
        ensures turns { IsUndoubted self.new → HaveOneTurn self.old steps.now self.new }
        // Each change applied for a client is what a call does to the map just before it; the client sent the call in that
        // epoch, and the master took it before.
        ensures calls { IfOk result (λ lines. IsUndoubted self.new → (before rest : List PrintedLine) (client number : ℕ) (change : Mod) (names : List (List ℕ)) →
            lines ≡ before ++ Line.Applied client number change names ∷ rest → 1 ≤ client → IsOfCall self.old steps.now before client number change names rest self.new) }
        // What the cell applies by itself is that an ephemeral node goes, which nobody held open.
        ensures own { IfOk result (λ lines. IsUndoubted self.new → (before rest : List PrintedLine) (number : ℕ) (change : Mod) (names : List (List ℕ)) →
            lines ≡ before ++ Line.Applied 0 number change names ∷ rest → IsOfIdle self.old steps.now before number change names rest self.new) }
        // A client's session is live in the rows where the lines of its start and its end make it so.
        ensures sessions { IfOk result (λ lines. IsUndoubted self.new → (client : ℕ) → is_live_in self.new.world.rows client ≡ live_at client (is_live_in self.old.world.rows client) lines) }
        // Of one master's life each right to cache a name is recorded once: numbered from 1 in order, ended at most once and
        // later than it was granted; and what the master counts are those of the lines.
        ensures rights { IfOk result (λ lines. IsUndoubted self.new → AreRecordedOnce self.old.world lines self.new.world) }
        // Whatever a client serves from its cache is what the map holds of that name by then: the opening rows' map with
        // the changes that the lines before show.
        ensures served { IfOk result (λ lines. IsUndoubted self.new → ServesPresentByThen (map_of self.old.world.rows) lines) }
        // Whatever the schedule, a client whose lease runs by its own clock has its session.
        ensures leases { IsUndoubted self.new → LeasesKeepSessions self.new.world }
        // To each client and of each name: its session outlives its lease, what it caches is present and held, what it was
        // granted is held or was given back, what is acknowledged is processed, and a recovery is empty.
        ensures joint { IsUndoubted self.new → AreJoint self.new.world }
        // From each point of the run to its end, where one master was up from first to last, its clock moved by a
        // sixteenth more than a client's at most, and a millisecond.
        ensures clocks { IsUndoubted self.new → KeepsClocksFair self.old steps.now self.new }
        // After any steps each lock has one exclusive holder, or shared ones alone, or is closed, or free.
        ensures locks { IsUndoubted self.new → HasLegalLocks self.old.world self.new.world }
        // Whichever masters were up: no lock's generation falls, and no two holds of a lock from free share one.
        ensures generations { IsUndoubted self.new → NoGenerationTwice self.old steps.now self.new }
        // Of two holds from free of the lock at one name the later one has the greater pair of instance and generation, also
        // if the node was deleted and made again: who asks for this pair tells a holder of before from the present one.
        ensures fencing { IsUndoubted self.new → HoldsRise self.old steps.now self.new }
        // By each step a handle gets a lock only with its own `locked`, in that mode and generation; and it loses it only by its
        // Release or Close, with `freed`, by its session's end, with `ended`, or with its node.
        ensures holders { IsUndoubted self.new → StepsTellOfHolders self.old steps.now self.new }
        // By how many handles a client holds a lock, and in which mode, the lock's generation, and the next instance are those
        // that the lines make: a handle got it (`locked`, with the generation), or let it go (`freed`); the client's session
        // ended; the node was made, or went.
        ensures held { IfOk result (λ lines. IsUndoubted self.new → TellsOfLocks self.old.world.rows self.new.world.rows lines) }
        // From any point on: where anybody was told of a content before, no call that is asked later on shows an older one,
        // by whichever handle, and nobody serves one from a cache.
        ensures told { IsUndoubted self.new → ShowsNoOlder self.old steps.now self.new }
        // Whichever masters were up: of nodes, of bytes of contents, and of locks that a client holds or waits for, there
        // are no more than the limits of the cell allow, or no more than before.
        ensures limits { IsUndoubted self.new → StaysWithinLimits self.old.world self.new.world }
    {
        self.consistent();
        let mut lines = Items::new(self.alloc());
        for step in steps {
            let here = self.line_step(step)?;
            lines.append(here)?;
        }
        Ok(lines)
    }

    // One step; a refused one is one line.
    fn line_step(&mut self, step: &Step) -> Result<Items<Line>, AllocError>
        ensures ok { IfOk result (λ lines. AnyStep self.old step.now self.new lines) }
        ensures err { OnErr result ((lines : List PrintedLine) × WasRefused self.old step.now self.new lines) }
        ensures consistent { IsUndoubted self.new → IsConsistent self.new.world }
    {
        let told = self.step(step);
        self.consistent();
        match told {
            Ok(lines) => Ok(lines),
            Err(fault) => refused(self.alloc(), fault),
        }
    }

    /// What holds of every run that begins with this world, by whichever calls of `step`, `sweep` and `run` it is done: all
    /// that stands at `run`. Does nothing.
    pub fn runs_hold(&self)
        ensures { HoldsOfRuns self.now }
    {
        self.consistent();
    }

    /// The same after each crash, whichever it leaves of the rows that stood and of those whose commit was refused since one
    /// stood: all that stands at `run` holds of every run that begins there, over the rows that it left. Does nothing.
    pub fn crashes_hold(&self)
        ensures { HoldsBehindCrashes self.now }
    {
        self.consistent();
        self.left();
    }

    // What holds of every world in which nothing is in doubt.
    fn consistent(&self)
        ensures { IsUndoubted self.now → IsConsistent self.now.world }
    {
        let _parts = &self.parts;
    }

    // What a crash may leave of it.
    fn left(&self)
        ensures { IsUndoubted self.now → EachIsLeft self.now }
    {
        let _parts = &self.parts;
    }
}

fn refused(alloc: Global, fault: Fault) -> Result<Items<Line>, AllocError>
    ensures { IfOk result (λ lines. lines ≡ Line.Refused fault ∷ []) }
{
    let mut lines = Items::new(alloc);
    lines.push(Line::Refused(fault))?;
    Ok(lines)
}
