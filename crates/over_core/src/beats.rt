//! What a master answers though nothing can be committed.
ghost use Rattle.std.specs.Prelude.{◌≡◌, ◌≢◌, ◌≤◌, ◌<◌, ◌+◌, length, Ok, Err, IfOk, IfErr, OnOk, OnErr};
ghost use Rattle.std.specs.Vec.{vec_len, vec_capacity};
ghost use Rattle.master_state.specs.Updates.{BeginsNew, done};
ghost use Rattle.over_core.specs.Sweep.{swept_as, beats_action, beats_answered, beats_step};

use crate::actions::Action;
use crate::sweeps::{Done, Prepared, SweptThrice, is_over, is_quiet, planned};
use crate::swept::Swept;
use cell_core::{Answers, MemoryMaster, Thrice};
use master_parts::Taken;
use master_state::{Grown, Master, Update};
use node_core::{Fault, Line};
use std::alloc::AllocError;

/// The lowest client's Beat that is due is answered, where the session's timeout hasn't come. Moments, the room and what is
/// refused are as in a sweep, but that no store is asked.
pub(crate) fn beats_by<T>(
    cell: &mut MemoryMaster,
    now: u64,
    room: &mut Vec<T>,
) -> Result<Swept, Fault>
    ensures ok { IfOk result (λ swept. beats_step cell.old now ≡ Ok (cell.new, swept)) }
    ensures fault { IfErr result (λ e. e ≢ Fault.NoMemory → beats_step cell.old now ≡ Err e) }
    ensures err { OnErr result (cell.new ≡ cell.old) }
    ensures items { room.new.items ≡ room.old.items }
    ensures outs { IfOk result (λ swept. vec_len room.new + length swept.outs ≤ vec_capacity room.new) }
    ensures lines { IfOk result (λ swept. vec_len room.new + length swept.lines < vec_capacity room.new) }
{
    match beats_as::<Taken, T>(cell, now, room) {
        Ok(Done { answers, quiet }) => Ok(Swept::of(answers, quiet)),
        Err(fault) => Err(fault),
    }
}

/// The same, its answer three times.
pub(crate) fn beats_thrice_by(cell: &mut MemoryMaster, now: u64) -> Result<SweptThrice, Fault>
    ensures ok { IfOk result (λ done. beats_step cell.old now ≡ Ok (cell.new, swept_as done.answers done.quiet)) }
    ensures fault { IfErr result (λ e. e ≢ Fault.NoMemory → beats_step cell.old now ≡ Err e) }
    ensures err { OnErr result (cell.new ≡ cell.old) }
{
    let mut room: Vec<Line> = Vec::new(cell.master().alloc());
    let done = beats_as::<Thrice, Line>(cell, now, &mut room);
    drop(room);
    match done {
        Ok(Done { answers, quiet }) => Ok(SweptThrice { answers, quiet }),
        Err(fault) => Err(fault),
    }
}

// The same, its answer as often as it is wanted.
#[tactic(auto, unfolding(crate::specs::Sweep::beats_step))]
fn beats_as<A: Answers, T>(
    cell: &mut MemoryMaster,
    now: u64,
    room: &mut Vec<T>,
) -> Result<Done<A>, Fault>
    ensures ok { IfOk result (λ done. beats_step cell.old now ≡ Ok (cell.new, swept_as (A.answer done.answers) done.quiet)) }
    ensures fault { IfErr result (λ e. e ≢ Fault.NoMemory → beats_step cell.old now ≡ Err e) }
    ensures err { OnErr result (cell.new ≡ cell.old) }
    ensures items { room.new.items ≡ room.old.items }
    ensures outs { IfOk result (λ done. vec_len room.new + length (A.answer done.answers).outs ≤ vec_capacity room.new) }
    ensures lines { IfOk result (λ done. vec_len room.new + length (A.answer done.answers).lines < vec_capacity room.new) }
{
    if is_over(cell.master(), now) {
        return Err(Fault::Exhausted);
    }
    let before = cell.note_moment(now);
    match answer_at(cell, room) {
        Ok(done) => Ok(done),
        Err(_) => {
            cell.restore_moment(before);
            Err(Fault::NoMemory)
        }
    }
}

// The moment has been noted.
fn answer_at<A: Answers, T>(
    cell: &mut MemoryMaster,
    room: &mut Vec<T>,
) -> Result<Done<A>, AllocError>
    ensures ok { IfOk result (λ done. beats_answered cell.old ≡ (cell.new, swept_as (A.answer done.answers) done.quiet)) }
    ensures err { OnErr result (cell.new ≡ cell.old) }
    ensures items { room.new.items ≡ room.old.items }
    ensures outs { IfOk result (λ done. vec_len room.new + length (A.answer done.answers).outs ≤ vec_capacity room.new) }
    ensures lines { IfOk result (λ done. vec_len room.new + length (A.answer done.answers).lines < vec_capacity room.new) }
{
    let action = beats_action(cell.master());
    let quiet = is_quiet(&action);
    let prepared = planned::<A, T>(cell, &action, room);
    drop(action);
    let Prepared {
        update,
        answers,
        tellings,
    } = prepared?;
    match make(cell, update) {
        Ok(()) => {
            cell.tell(tellings);
            Ok(Done { answers, quiet })
        }
        Err(error) => {
            drop(tellings);
            drop(answers);
            Err(error)
        }
    }
}

fn beats_action(master: &Master) -> Action
    ensures { result ≡ beats_action master.now }
{
    match master.sessions().answerable(master.clock()) {
        Some(client) => Action::Answer(client),
        None => Action::Quiet,
    }
}

// An update that commits nothing is done.
fn make(cell: &mut MemoryMaster, update: Update) -> Result<(), AllocError>
    requires { BeginsNew cell.old update.session }
    ensures ok { OnOk result (cell.new ≡ done cell.old update) }
    ensures err { OnErr result (cell.new ≡ cell.old) }
{
    let Grown { former, rest } = cell.grow(update)?;
    cell.settle(former);
    cell.finish(rest);
    Ok(())
}
