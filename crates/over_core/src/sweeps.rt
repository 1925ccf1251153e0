//! What a master does by itself.
ghost use Rattle.std.specs.Prelude.{◌≡◌, ◌⊎◌, ◌≤◌, ◌<◌, ◌+◌, [], length, is_some, true, false, Ok, Err, IfOk, IfErr, OnOk, OnErr};
ghost use Rattle.std.specs.Vec.{vec_len, vec_capacity};
ghost use Rattle.rows_cell.specs.Rows.{changed_rows};
ghost use Rattle.rows_cell.specs.Sound.{sound};
ghost use Rattle.gate_core.specs.Gate.{push_answer};
ghost use Rattle.master_state.specs.Updates.{BeginsNew, edits_of, done};
ghost use Rattle.cell_core.specs.Ephemerals.{is_ok, tidied};
ghost use Rattle.over_core.specs.Plans.{tellings_of, first_action, plan_of};
ghost use Rattle.over_core.specs.Sweep.{IsHeldUp, IsSwept, Sweeps, frees, sweep_frees, is_quiet, done_and_told, swept, swept_as, action_edits, is_over, sweep_edits, sweep_step};

use crate::actions::{Action, first_action};
use crate::keeping::Keeping;
use crate::plans::{Plan, plan_of};
use crate::swept::Swept;
use crate::tellings::tellings_of;
use cell_core::{Answers, MemoryMaster, Thrice};
use collections::Items;
use lease_core::MOMENT_LIMIT;
use master_parts::{Orphan, SessionEvent, Taken};
use master_state::{Grown, Master, Update, edits_of};
use node_core::{Fault, Line};
use rows_cell::{Edit, Records};
use std::alloc::AllocError;
use tags_cell::Out;

/// What is planned for an action: the update, what is printed and sent, and what the clients of open handles are told of it. A
/// sweep commits the edits of the update before it is told; who takes several sweeps together holds them back.
#[derive(Drop)]
pub struct PlannedSweep {
    pub update: Update,
    pub taken: Taken,
    pub tellings: Items<SessionEvent>,
}

// The same, with its answer as often as it is wanted.
pub(crate) struct Prepared<A: Answers> {
    pub(crate) update: Update,
    pub(crate) answers: A,
    pub(crate) tellings: Items<SessionEvent>,
}

// The answer of a sweep as often as it is wanted, and whether the sweep found nothing to do.
pub(crate) struct Done<A: Answers> {
    pub(crate) answers: A,
    pub(crate) quiet: bool,
}

/// The answer of a sweep three times, and whether the sweep found nothing to do.
#[derive(Drop)]
pub struct SweptThrice {
    pub answers: Thrice,
    pub quiet: bool,
}

/// A sweep at a moment, in milliseconds; an earlier one than the last counts as that, and one of 2^53 or more is refused
/// as Exhausted, as is each sweep once a session's events have no number left. Room for what is printed and sent is made
/// in a list of the caller's. A refusal leaves the master as it was.
pub(crate) fn sweep_by<R: Records, T>(
    cell: &mut MemoryMaster,
    records: &mut Keeping<R>,
    now: u64,
    room: &mut Vec<T>,
) -> Result<Swept, Fault>
    requires sound { sound records.old.cell (changed_rows records.old.rows (sweep_edits cell.old now)) ≡ true }
    requires same { records.old.rows.next_instance ≡ cell.old.next_instance }
    ensures ok { IfOk result (λ swept. sweep_step cell.old now ≡ Ok (cell.new, swept)) }
    ensures committed { OnOk result (IsSwept (sweep_frees cell.old now) (sweep_edits cell.old now) records.old records.new) }
    ensures err { OnErr result (cell.new ≡ cell.old) }
    ensures fault { IfErr result (λ e. (sweep_step cell.old now ≡ Err e × records.new ≡ records.old)
        ⊎ IsHeldUp e (sweep_frees cell.old now) (sweep_edits cell.old now) records.old records.new) }
    ensures items { room.new.items ≡ room.old.items }
    ensures outs { IfOk result (λ swept. vec_len room.new + length swept.outs ≤ vec_capacity room.new) }
    ensures lines { IfOk result (λ swept. vec_len room.new + length swept.lines < vec_capacity room.new) }
{
    match sweep_as::<R, Taken, T>(cell, records, now, room) {
        Ok(Done { answers, quiet }) => Ok(Swept::of(answers, quiet)),
        Err(fault) => Err(fault),
    }
}

/// The same, its answer three times.
pub(crate) fn sweep_thrice_by<R: Records>(
    cell: &mut MemoryMaster,
    records: &mut Keeping<R>,
    now: u64,
) -> Result<SweptThrice, Fault>
    requires sound { sound records.old.cell (changed_rows records.old.rows (sweep_edits cell.old now)) ≡ true }
    requires same { records.old.rows.next_instance ≡ cell.old.next_instance }
    ensures ok { IfOk result (λ done. sweep_step cell.old now ≡ Ok (cell.new, swept_as done.answers done.quiet)) }
    ensures committed { OnOk result (IsSwept (sweep_frees cell.old now) (sweep_edits cell.old now) records.old records.new) }
    ensures err { OnErr result (cell.new ≡ cell.old) }
    ensures fault { IfErr result (λ e. (sweep_step cell.old now ≡ Err e × records.new ≡ records.old)
        ⊎ IsHeldUp e (sweep_frees cell.old now) (sweep_edits cell.old now) records.old records.new) }
{
    let mut room: Vec<Line> = Vec::new(cell.master().alloc());
    let done = sweep_as::<R, Thrice, Line>(cell, records, now, &mut room);
    drop(room);
    match done {
        Ok(Done { answers, quiet }) => Ok(SweptThrice { answers, quiet }),
        Err(fault) => Err(fault),
    }
}

// The same, its answer as often as it is wanted.
#[tactic(auto, unfolding(crate::specs::Sweep::sweep_step))]
fn sweep_as<R: Records, A: Answers, T>(
    cell: &mut MemoryMaster,
    records: &mut Keeping<R>,
    now: u64,
    room: &mut Vec<T>,
) -> Result<Done<A>, Fault>
    requires sound { sound records.old.cell (changed_rows records.old.rows (sweep_edits cell.old now)) ≡ true }
    requires same { records.old.rows.next_instance ≡ cell.old.next_instance }
    ensures ok { IfOk result (λ done. sweep_step cell.old now ≡ Ok (cell.new, swept_as (A.answer done.answers) done.quiet)) }
    ensures committed { OnOk result (IsSwept (sweep_frees cell.old now) (sweep_edits cell.old now) records.old records.new) }
    ensures err { OnErr result (cell.new ≡ cell.old) }
    ensures fault { IfErr result (λ e. (sweep_step cell.old now ≡ Err e × records.new ≡ records.old)
        ⊎ IsHeldUp e (sweep_frees cell.old now) (sweep_edits cell.old now) records.old records.new) }
    ensures items { room.new.items ≡ room.old.items }
    ensures outs { IfOk result (λ done. vec_len room.new + length (A.answer done.answers).outs ≤ vec_capacity room.new) }
    ensures lines { IfOk result (λ done. vec_len room.new + length (A.answer done.answers).lines < vec_capacity room.new) }
{
    if is_over(cell.master(), now) {
        return Err(Fault::Exhausted);
    }
    let before = cell.note_moment(now);
    match sweep_at(cell, records, room) {
        Ok(done) => Ok(done),
        Err(fault) => {
            cell.restore_moment(before);
            Err(fault)
        }
    }
}

/// Whether no sweep is done any more: a moment past the end of moments, or a session whose count of events is at its end.
pub fn is_over(master: &Master, now: u64) -> bool
    ensures { result ≡ is_over master.now now }
{
    now >= MOMENT_LIMIT || master.sessions().has_spent_events()
}

// Does the first action that there is, with at most one commit to the records, which comes before all that is printed
// and sent. After all else the clients of open handles are told of it. A refusal leaves the master as it was.
fn sweep_at<R: Records, A: Answers, T>(
    cell: &mut MemoryMaster,
    records: &mut Keeping<R>,
    room: &mut Vec<T>,
) -> Result<Done<A>, Fault>
    requires sound { sound records.old.cell (changed_rows records.old.rows (action_edits cell.old (first_action cell.old))) ≡ true }
    requires same { records.old.rows.next_instance ≡ cell.old.next_instance }
    ensures ok { IfOk result (λ done. swept cell.old (first_action cell.old) ≡ (cell.new, swept_as (A.answer done.answers) done.quiet)) }
    ensures store { Sweeps (frees (plan_of cell.old (first_action cell.old))) (action_edits cell.old (first_action cell.old)) records.old records.new result }
    ensures err { OnErr result (cell.new ≡ cell.old) }
    ensures items { room.new.items ≡ room.old.items }
    ensures outs { IfOk result (λ done. vec_len room.new + length (A.answer done.answers).outs ≤ vec_capacity room.new) }
    ensures lines { IfOk result (λ done. vec_len room.new + length (A.answer done.answers).lines < vec_capacity room.new) }
{
    match first_action(cell)? {
        Action::Tidy(idle) => Ok(tidy(cell, idle, room)?),
        action => {
            let swept = act(cell, records, &action, room);
            drop(action);
            swept
        }
    }
}

// The deletion of an ephemeral node is queued. Nothing is printed, nothing sent, and nobody is told.
fn tidy<A: Answers, T>(
    cell: &mut MemoryMaster,
    idle: Orphan,
    room: &mut Vec<T>,
) -> Result<Done<A>, AllocError>
    requires { is_ok (push_answer cell.old.gate) ≡ true }
    ensures ok { OnOk result (cell.new ≡ tidied cell.old idle) }
    ensures nothing { IfOk result (λ done. swept_as (A.answer done.answers) done.quiet ≡ record { lines = []; outs = []; quiet = false }) }
    ensures err { OnErr result (cell.new ≡ cell.old) }
    ensures items { room.new.items ≡ room.old.items }
    ensures room { OnOk result (vec_len room.new < vec_capacity room.new) }
{
    if room.reserve(1).is_err() {
        drop(idle);
        return Err(AllocError);
    }
    match A::of(cell.master().nothing()) {
        Ok(answers) => tidy_answered(cell, idle, answers),
        Err(error) => {
            drop(idle);
            Err(error)
        }
    }
}

// The same, with the answers made.
fn tidy_answered<A: Answers>(
    cell: &mut MemoryMaster,
    idle: Orphan,
    answers: A,
) -> Result<Done<A>, AllocError>
    requires { is_ok (push_answer cell.old.gate) ≡ true }
    ensures ok { OnOk result (cell.new ≡ tidied cell.old idle) }
    ensures answers { IfOk result (λ done. (done.answers ≡ answers) × (done.quiet ≡ false)) }
    ensures err { OnErr result (cell.new ≡ cell.old) }
{
    match cell.tidy(idle) {
        Ok(()) => Ok(Done {
            answers,
            quiet: false,
        }),
        Err(error) => {
            drop(answers);
            Err(error)
        }
    }
}

// Does what is planned for any other action, and after all else the clients of open handles are told of it.
fn act<R: Records, A: Answers, T>(
    cell: &mut MemoryMaster,
    records: &mut Keeping<R>,
    action: &Action,
    room: &mut Vec<T>,
) -> Result<Done<A>, Fault>
    requires sound { sound records.old.cell (changed_rows records.old.rows (action_edits cell.old action.now)) ≡ true }
    requires same { records.old.rows.next_instance ≡ cell.old.next_instance }
    ensures ok { IfOk result (λ done. done_and_told cell.old (plan_of cell.old action.now) (is_quiet action.now) ≡ (cell.new, swept_as (A.answer done.answers) done.quiet)) }
    ensures store { Sweeps (frees (plan_of cell.old action.now)) (action_edits cell.old action.now) records.old records.new result }
    ensures err { OnErr result (cell.new ≡ cell.old) }
    ensures items { room.new.items ≡ room.old.items }
    ensures outs { IfOk result (λ done. vec_len room.new + length (A.answer done.answers).outs ≤ vec_capacity room.new) }
    ensures lines { IfOk result (λ done. vec_len room.new + length (A.answer done.answers).lines < vec_capacity room.new) }
{
    note_if_quiet(cell, action);
    let Prepared {
        update,
        answers,
        tellings,
    } = planned::<A, T>(cell, action, room)?;
    match commit_edits(cell, records, update) {
        Ok(()) => {
            cell.tell(tellings);
            Ok(Done {
                answers,
                quiet: is_quiet(action),
            })
        }
        Err(fault) => {
            drop(tellings);
            drop(answers);
            Err(fault)
        }
    }
}

/// Where there is nothing to do, until when that is so is noted. The master stays as it is.
pub fn note_if_quiet(cell: &mut MemoryMaster, action: &Action)
    ensures { cell.new ≡ cell.old }
{
    if is_quiet(action) {
        cell.note_quiet();
    }
}

// What is planned for an action, with room for what it prints and sends.
pub(crate) fn planned<A: Answers, T>(
    cell: &MemoryMaster,
    action: &Action,
    room: &mut Vec<T>,
) -> Result<Prepared<A>, AllocError>
    ensures update { IfOk result (λ prepared. prepared.update ≡ (plan_of cell.now action.now).update) }
    ensures begins { IfOk result (λ prepared. BeginsNew cell.now prepared.update.session) }
    ensures answer { IfOk result (λ prepared. A.answer prepared.answers ≡ (plan_of cell.now action.now).taken) }
    ensures told { IfOk result (λ prepared. prepared.tellings ≡ tellings_of cell.now (plan_of cell.now action.now)) }
    ensures items { room.new.items ≡ room.old.items }
    ensures outs { IfOk result (λ prepared. vec_len room.new + length (A.answer prepared.answers).outs ≤ vec_capacity room.new) }
    ensures lines { IfOk result (λ prepared. vec_len room.new + length (A.answer prepared.answers).lines < vec_capacity room.new) }
{
    let sweep = planned_sweep(cell, action)?;
    match make_room(room, &sweep.taken) {
        Ok(()) => with_answers(sweep),
        Err(error) => {
            drop(sweep);
            Err(error)
        }
    }
}

/// What is planned for an action, and what the clients of open handles are told of it. Nothing changes; want of memory alone
/// refuses. It costs what the action changes.
pub fn planned_sweep(cell: &MemoryMaster, action: &Action) -> Result<PlannedSweep, AllocError>
    ensures update { IfOk result (λ sweep. sweep.update ≡ (plan_of cell.now action.now).update) }
    ensures begins { IfOk result (λ sweep. BeginsNew cell.now sweep.update.session) }
    ensures taken { IfOk result (λ sweep. sweep.taken ≡ (plan_of cell.now action.now).taken) }
    ensures told { IfOk result (λ sweep. sweep.tellings ≡ tellings_of cell.now (plan_of cell.now action.now)) }
{
    let plan = plan_of(cell, action)?;
    match tellings_of(cell.master(), &plan) {
        Ok(tellings) => {
            let Plan { update, taken, .. } = plan;
            Ok(PlannedSweep {
                update,
                taken,
                tellings,
            })
        }
        Err(error) => {
            drop(plan);
            Err(error)
        }
    }
}

// A plan with its answer as often as it is wanted.
fn with_answers<A: Answers>(sweep: PlannedSweep) -> Result<Prepared<A>, AllocError>
    ensures update { IfOk result (λ prepared. prepared.update ≡ sweep.update) }
    ensures answer { IfOk result (λ prepared. A.answer prepared.answers ≡ sweep.taken) }
    ensures told { IfOk result (λ prepared. prepared.tellings ≡ sweep.tellings) }
{
    let PlannedSweep {
        update,
        taken,
        tellings: told,
    } = sweep;
    match A::of(taken) {
        Ok(answers) => Ok(Prepared {
            update,
            answers,
            tellings: told,
        }),
        Err(error) => {
            drop(update);
            drop(told);
            Err(error)
        }
    }
}

// Room for all that is sent, and for all that is printed and one more.
fn make_room<T>(room: &mut Vec<T>, taken: &Taken) -> Result<(), AllocError>
    ensures items { room.new.items ≡ room.old.items }
    ensures outs { OnOk result (vec_len room.new + length taken.now.outs ≤ vec_capacity room.new) }
    ensures lines { OnOk result (vec_len room.new + length taken.now.lines < vec_capacity room.new) }
{
    room.reserve(taken.outs.len())?;
    let Some(lines) = taken.lines.len().checked_add(1) else {
        return Err(AllocError);
    };
    room.reserve(lines)
}

/// Whether an action is to find nothing to do.
pub fn is_quiet(action: &Action) -> bool
    ensures { result ≡ is_quiet action.now }
{
    matches!(action, Action::Quiet)
}

// The update is done, with its edits committed.
fn commit_edits<R: Records>(
    cell: &mut MemoryMaster,
    records: &mut Keeping<R>,
    update: Update,
) -> Result<(), Fault>
    requires sound { sound records.old.cell (changed_rows records.old.rows (edits_of cell.old update)) ≡ true }
    requires same { records.old.rows.next_instance ≡ cell.old.next_instance }
    requires begins { BeginsNew cell.old update.session }
    ensures ok { OnOk result (cell.new ≡ done cell.old update) }
    ensures store { Sweeps (is_some update.leaves) (edits_of cell.old update) records.old records.new result }
    ensures err { OnErr result (cell.new ≡ cell.old) }
{
    match edits_of(cell.master(), &update) {
        Ok(edits) => commit_update(cell, records, update, edits),
        Err(error) => {
            drop(update);
            Err(error.into())
        }
    }
}

// The update is begun, committed, and finished; where the commit is refused it is taken back.
fn commit_update<R: Records>(
    cell: &mut MemoryMaster,
    records: &mut Keeping<R>,
    update: Update,
    edits: Items<Edit>,
) -> Result<(), Fault>
    requires sound { sound records.old.cell (changed_rows records.old.rows edits) ≡ true }
    requires same { records.old.rows.next_instance ≡ cell.old.next_instance }
    requires begins { BeginsNew cell.old update.session }
    ensures ok { OnOk result (cell.new ≡ done cell.old update) }
    ensures store { Sweeps (is_some update.leaves) edits records.old records.new result }
    ensures err { OnErr result (cell.new ≡ cell.old) }
{
    let frees = update.leaves.is_some();
    let next_instance = cell.master().next_instance();
    match cell.grow(update) {
        Ok(Grown { former, rest }) => match records.commit(edits, frees, next_instance) {
            Ok(()) => {
                cell.settle(former);
                cell.finish(rest);
                Ok(())
            }
            Err(fault) => {
                drop(rest);
                cell.undo(former);
                Err(fault)
            }
        },
        Err(error) => {
            drop(edits);
            Err(error.into())
        }
    }
}
