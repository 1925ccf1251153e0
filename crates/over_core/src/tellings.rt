//! What the clients of open handles are told of what is planned.
ghost use Rattle.std.specs.Prelude.{◌≡◌, IfOk};
ghost use Rattle.over_core.specs.Plans.{notices_of, tellings_of};

use crate::plans::Plan;
use cell_core::{change_notices, contest_notices, locks_notices};
use collections::Items;
use master_parts::{Notice, SessionEvent};
use master_state::Master;
use std::alloc::AllocError;

/// What the clients of open handles are told of what is planned.
pub fn tellings_of(master: &Master, plan: &Plan) -> Result<Items<SessionEvent>, AllocError>
    ensures { IfOk result (λ tellings. tellings ≡ tellings_of master.now plan.now) }
{
    let notices = notices_of(master, plan)?;
    master.tellings(&plan.update.note, notices.as_slice())
}

// Of what is planned, before anything changes.
fn notices_of(master: &Master, plan: &Plan) -> Result<Items<Notice>, AllocError>
    ensures { IfOk result (λ notices. notices ≡ notices_of master.now plan.now) }
{
    let mut notices = change_notices(master, &plan.update.change)?;
    notices.append(locks_notices(master, plan.update.locks.as_slice())?)?;
    notices.append(contest_notices(master.alloc(), plan.contested)?)?;
    Ok(notices)
}
