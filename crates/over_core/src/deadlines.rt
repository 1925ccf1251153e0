//! The earliest moment at which a sweep has something to do.
ghost use Rattle.std.specs.Prelude.{◌≡◌, true, false, IfOk, Some};
ghost use Rattle.lease_core.specs.Lease.{IsMoment};
ghost use Rattle.over_core.specs.Deadlines.{quiet_at, IsDeadline, IsAfter, IsQuietBy, IsBusyBy};
ghost use Rattle.over_core.specs.Sweep.{is_quiet};

use crate::actions::{Action, first_action};
use cell_core::MemoryMaster;
use lease_core::MOMENT_LIMIT;
use std::alloc::AllocError;

/// The earliest moment, from the last one that the master was told on, at which a sweep would do something: at every
/// one before it a sweep is quiet, and at no later one. None where a sweep would be quiet at every moment there is. The
/// master stays as it is; it is lent to be asked as of other moments. Where the moment is a session's or a lock's own, that
/// costs three times what a sweep looks at, whatever the cell holds; else up to 55 times.
pub fn next_deadline(cell: &mut MemoryMaster) -> Result<Option<u64>, AllocError>
    ensures deadline { IfOk result (IsDeadline cell.old) }
    ensures same { cell.new ≡ cell.old }
{
    let now = cell.master().clock();
    if !is_quiet_at(cell, now)? {
        return Ok(Some(now));
    }
    let near = cell.next_moment().min(MOMENT_LIMIT - 1);
    let quiet = later_quiet(cell, now, near.saturating_sub(1))?;
    match busy_from(cell, near)? {
        None => Ok(None),
        Some(busy) => {
            let found = search(cell, now, quiet, busy)?;
            Ok(Some(found))
        }
    }
}

// The later of two moments of which the first is quiet, where the second is quiet too; else the first.
fn later_quiet(cell: &mut MemoryMaster, quiet: u64, moment: u64) -> Result<u64, AllocError>
    requires first { IsQuietBy cell.old quiet quiet }
    ensures later { IfOk result (IsQuietBy cell.old quiet) }
    ensures same { cell.new ≡ cell.old }
{
    if moment <= quiet || moment >= MOMENT_LIMIT {
        return Ok(quiet);
    }
    if is_quiet_at(cell, moment)? {
        Ok(moment)
    } else {
        Ok(quiet)
    }
}

// A moment that isn't quiet, the one told where it isn't, else the last of all; none where that is quiet.
fn busy_from(cell: &mut MemoryMaster, moment: u64) -> Result<Option<u64>, AllocError>
    requires { IsMoment moment }
    ensures busy { IfOk result (IsBusyBy cell.old) }
    ensures same { cell.new ≡ cell.old }
{
    if shows_work(cell, moment) || !is_quiet_at(cell, moment)? {
        return Ok(Some(moment));
    }
    if is_quiet_at(cell, MOMENT_LIMIT - 1)? {
        return Ok(None);
    }
    Ok(Some(MOMENT_LIMIT - 1))
}

// Whether two sessions alone show that a sweep at a moment would find something to do. Asked before `is_quiet_at`: where thousands
// of sessions are due at one moment, that takes all of them into view, and the next frame has to put all of them off again.
fn shows_work(cell: &MemoryMaster, moment: u64) -> bool
    ensures { result ≡ true → quiet_at cell.now moment ≡ false }
{
    cell.master().sessions().shows_work(moment)
}

// The first moment that isn't quiet, after one that is and not after one that isn't.
fn search(cell: &mut MemoryMaster, now: u64, from: u64, until: u64) -> Result<u64, AllocError>
    requires quiet { IsQuietBy cell.old now from }
    requires busy { IsBusyBy cell.old (Some until) }
    ensures after { IfOk result (IsAfter cell.old now) }
    ensures same { cell.new ≡ cell.old }
{
    let mut quiet = from;
    let mut busy = until;
    while quiet + 1 < busy {
        let middle = quiet + (busy - quiet) / 2;
        if is_quiet_at(cell, middle)? {
            quiet = middle;
        } else {
            busy = middle;
        }
    }
    Ok(busy)
}

// Whether a sweep at a moment would find nothing to do.
fn is_quiet_at(cell: &mut MemoryMaster, now: u64) -> Result<bool, AllocError>
    requires { IsMoment now }
    ensures quiet { IfOk result (λ quiet. quiet ≡ quiet_at cell.old now) }
    ensures same { cell.new ≡ cell.old }
{
    let before = cell.note_moment(now);
    let action = first_action(cell);
    cell.restore_moment(before);
    Ok(is_quiet(&action?))
}

fn is_quiet(action: &Action) -> bool
    ensures { result ≡ is_quiet action.now }
{
    matches!(action, Action::Quiet)
}
