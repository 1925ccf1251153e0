//! The step of an event, and what its lines tell of rights.
ghost use Rattle.std.specs.Prelude.{◌≡◌, ◌≢◌, Some, Ok, IfOk, IfErr, OnOk, OnErr, count_by, map};
ghost use Rattle.node_core.specs.declared.refusals.Fault.TheVariants.{WatchFull};
ghost use Rattle.rights_core.specs.Grants.{Tells, is_granted_line, is_acked_line, is_expired_line};
ghost use Rattle.over_core.specs.Sweep.{swept_as};
ghost use Rattle.watch_cell.specs.Trail.{StepRefuses, step_of};
ghost use Rattle.watch_cell.specs.Views.{watched};

use crate::events::WatchEvent;
use node_core::{Fault, Line};
use over_core::{Cell, SweptThrice};
use rows_cell::Records;

/// The step of an event, its answer three times. A refusal leaves the master and the rows as they were.
#[tactic(auto, unfolding(crate::specs::Trail::step_of))]
pub(crate) fn step_thrice<R: Records>(
    cell: &mut Cell<R>,
    event: &WatchEvent,
) -> Result<SweptThrice, Fault>
    ensures ok { IfOk result (λ t. step_of (watched cell.old) event.now ≡ Ok (watched cell.new, swept_as t.answers t.quiet)) }
    ensures tells { IfOk result (λ t. Tells cell.old.master.rights t.answers.lines cell.new.master.rights) }
    ensures fault { IfErr result (λ e. e ≢ WatchFull) }
    ensures counted { OnOk result (cell.new.store.refusals ≡ cell.old.store.refusals) }
    ensures refusal { IfErr result (λ e. StepRefuses (watched cell.old) event.now e cell.old.store.refusals cell.new.store.refusals) }
    ensures err { OnErr result (watched cell.new ≡ watched cell.old) }
{
    cell.kept();
    match event {
        WatchEvent::Take(now, request) => match cell.take_thrice(*now, request) {
            Ok(answers) => Ok(SweptThrice {
                answers,
                quiet: false,
            }),
            Err(fault) => Err(fault),
        },
        WatchEvent::Sweep(now) => cell.sweep_thrice(*now),
    }
}

/// How many of these lines tell that a right was granted.
#[tactic(auto, using(crate::proofs::Counting::count_more))]
pub(crate) fn count_granted(lines: &[Line]) -> u64
    ensures { result ≡ count_by is_granted_line lines.now }
{
    let mut count = 0;
    for line in lines {
        if is_granted(line) {
            count += 1;
        }
    }
    count
}

/// How many tell that a right was acknowledged.
#[tactic(auto, using(crate::proofs::Counting::count_more))]
pub(crate) fn count_acked(lines: &[Line]) -> u64
    ensures { result ≡ count_by is_acked_line lines.now }
{
    let mut count = 0;
    for line in lines {
        if is_acked(line) {
            count += 1;
        }
    }
    count
}

/// How many tell that a right expired.
#[tactic(auto, using(crate::proofs::Counting::count_more))]
pub(crate) fn count_expired(lines: &[Line]) -> u64
    ensures { result ≡ count_by is_expired_line lines.now }
{
    let mut count = 0;
    for line in lines {
        if is_expired(line) {
            count += 1;
        }
    }
    count
}

fn is_granted(line: &Line) -> bool
    ensures { result ≡ is_granted_line line.now }
{
    matches!(line, Line::Granted(_, _, _))
}

fn is_acked(line: &Line) -> bool
    ensures { result ≡ is_acked_line line.now }
{
    matches!(line, Line::Acked(_))
}

fn is_expired(line: &Line) -> bool
    ensures { result ≡ is_expired_line line.now }
{
    matches!(line, Line::Expired(_))
}
