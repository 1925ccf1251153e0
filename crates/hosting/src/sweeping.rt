//! A sweep whose change is held back.
ghost use Rattle.std.specs.Prelude.{◌≡◌, ◌⊎◌, ◌<◌, ◌++◌, [], true, false, Ok, Err, IfOk, IfErr, OnOk, OnErr};
ghost use Rattle.std.specs.Vec.{vec_len, vec_capacity};
ghost use Rattle.gate_core.specs.Gate.{push_answer};
ghost use Rattle.master_state.specs.Updates.{BeginsNew, edits_of, done};
ghost use Rattle.cell_core.specs.Ephemerals.{is_ok, tidied};
ghost use Rattle.over_core.specs.Plans.{first_action, plan_of};
ghost use Rattle.hosting.specs.Pieces.{held_with};
ghost use Rattle.over_core.specs.Sweep.{is_quiet, done_and_told, swept, action_edits, sweep_edits, sweep_step};

use crate::pieces::Pieces;
use cell_core::MemoryMaster;
use collections::Items;
use master_parts::Orphan;
use master_state::{Grown, Update, edits_of};
use node_core::Fault;
use over_core::{
    Action, PlannedSweep, Swept, first_action, is_over, is_quiet, note_if_quiet, planned_sweep,
};
use rows_cell::Edit;
use std::alloc::AllocError;

/// A sweep at a moment, in milliseconds, as `sweep` of `over_core` does it; but what it would commit is put after what is
/// held. Room for one item is made in a list of the caller's. A refusal leaves the master and what is held as they were.
#[tactic(auto, unfolding(over_core::specs::Sweep::sweep_step))]
pub(crate) fn sweep_held<T>(
    cell: &mut MemoryMaster,
    held: &mut Pieces,
    now: u64,
    room: &mut Vec<T>,
) -> Result<Swept, Fault>
    ensures ok { IfOk result (λ came. sweep_step cell.old now ≡ Ok (cell.new, came)) }
    ensures held { OnOk result (held.new ≡ held_with held.old (sweep_edits cell.old now)) }
    ensures fault { IfErr result (λ e. (sweep_step cell.old now ≡ Err e) ⊎ (e ≡ Fault.NoMemory)) }
    ensures err { OnErr result ((cell.new ≡ cell.old) × (held.new ≡ held.old)) }
    ensures items { room.new.items ≡ room.old.items }
    ensures room { OnOk result (vec_len room.new < vec_capacity room.new) }
{
    room.reserve(1)?;
    if is_over(cell.master(), now) {
        return Err(Fault::Exhausted);
    }
    let before = cell.note_moment(now);
    match sweep_at(cell, held) {
        Ok(swept) => Ok(swept),
        Err(_) => {
            cell.restore_moment(before);
            Err(Fault::NoMemory)
        }
    }
}

// Does the first action that there is, and holds back what it commits.
fn sweep_at(cell: &mut MemoryMaster, held: &mut Pieces) -> Result<Swept, AllocError>
    ensures ok { IfOk result (λ came. swept cell.old (first_action cell.old) ≡ (cell.new, came)) }
    ensures held { OnOk result (held.new ≡ held_with held.old (action_edits cell.old (first_action cell.old))) }
    ensures err { OnErr result ((cell.new ≡ cell.old) × (held.new ≡ held.old)) }
{
    match first_action(cell)? {
        Action::Tidy(idle) => Ok(tidy(cell, idle)?),
        action => {
            let swept = act(cell, held, &action);
            drop(action);
            swept
        }
    }
}

// The deletion of an ephemeral node is queued. Nothing is printed, nothing sent, and nobody is told.
fn tidy(cell: &mut MemoryMaster, idle: Orphan) -> Result<Swept, AllocError>
    requires { is_ok (push_answer cell.old.gate) ≡ true }
    ensures ok { OnOk result (cell.new ≡ tidied cell.old idle) }
    ensures nothing { IfOk result (λ came. came ≡ record { lines = []; outs = []; quiet = false }) }
    ensures err { OnErr result (cell.new ≡ cell.old) }
{
    cell.tidy(idle)?;
    Ok(Swept::of(cell.master().nothing(), false))
}

// Does what is planned for any other action, and after all else the clients of open handles are told of it.
fn act(cell: &mut MemoryMaster, held: &mut Pieces, action: &Action) -> Result<Swept, AllocError>
    ensures ok { IfOk result (λ came. done_and_told cell.old (plan_of cell.old action.now) (is_quiet action.now) ≡ (cell.new, came)) }
    ensures held { OnOk result (held.new ≡ held_with held.old (action_edits cell.old action.now)) }
    ensures err { OnErr result ((cell.new ≡ cell.old) × (held.new ≡ held.old)) }
{
    note_if_quiet(cell, action);
    let PlannedSweep {
        update,
        taken,
        tellings,
    } = planned_sweep(cell, action)?;
    match hold_edits(cell, held, update) {
        Ok(()) => {
            cell.tell(tellings);
            Ok(Swept::of(taken, is_quiet(action)))
        }
        Err(error) => {
            drop(tellings);
            drop(taken);
            Err(error)
        }
    }
}

// The update is done, and what it commits is held back.
fn hold_edits(cell: &mut MemoryMaster, held: &mut Pieces, update: Update) -> Result<(), AllocError>
    requires { BeginsNew cell.old update.session }
    ensures ok { OnOk result (cell.new ≡ done cell.old update) }
    ensures held { OnOk result (held.new ≡ held_with held.old (edits_of cell.old update)) }
    ensures err { OnErr result ((cell.new ≡ cell.old) × (held.new ≡ held.old)) }
{
    match edits_of(cell.master(), &update) {
        Ok(edits) => hold(cell, held, update, edits),
        Err(error) => {
            drop(update);
            Err(error)
        }
    }
}

// The update is done, and its edits are held back; where there is no memory it is taken back.
fn hold(
    cell: &mut MemoryMaster,
    held: &mut Pieces,
    update: Update,
    edits: Items<Edit>,
) -> Result<(), AllocError>
    requires { BeginsNew cell.old update.session }
    ensures ok { OnOk result (cell.new ≡ done cell.old update) }
    ensures held { OnOk result (held.new ≡ held_with held.old edits) }
    ensures err { OnErr result ((cell.new ≡ cell.old) × (held.new ≡ held.old)) }
{
    let Grown { former, rest } = cell.grow(update)?;
    match held.hold(edits) {
        Ok(()) => {
            cell.settle(former);
            cell.finish(rest);
            Ok(())
        }
        Err(error) => {
            drop(rest);
            cell.undo(former);
            Err(error)
        }
    }
}
