//! What a master does by itself first.
ghost use Rattle.std.specs.Prelude.{◌≡◌, IfOk};
ghost use Rattle.over_core.specs.Plans.{first_action, apply_or_later, reopen_or_later, tidy_or_later, answer_or_quiet};

use cell_core::MemoryMaster;
use master_parts::Orphan;
use master_state::Master;
use std::alloc::AllocError;
use tags_cell::ClientNumber;

/// What a sweep does, one thing at a time, in this order: what is told to clients of their time comes last, so that an
/// answer never stands before an end or a change that was due.
#[derive(Drop)]
pub enum Action {
    /// The recovery is over: each session of an earlier master has acknowledged the fail-over, or has ended.
    Recover,
    /// The session of this client ends: its timeout has come (Gray and Cheriton 1989, section 2: whoever gave a lease
    /// may go on without its holder once it has expired).
    Expire(u64),
    /// The change of this number is done, and leaves the gate: the lowest that no right to cache holds up (Burrows
    /// 2006, section 2.7: a modification is held until every cache has let go).
    Apply(u64),
    /// The lock of this instance was closed for its delay, and is open again (Burrows 2006, section 2.4).
    Reopen(u64),
    /// The deletion of this ephemeral node is queued: nobody holds it open (Burrows 2006, section 2.3).
    Tidy(Orphan),
    /// The parked Beat of this client is answered (Burrows 2006, section 2.8: a KeepAlive is held until the lease is
    /// close to its end, or something has to be told).
    Answer(ClientNumber),
    /// There is nothing to do.
    Quiet,
}

/// The first action that there is.
pub fn first_action(cell: &MemoryMaster) -> Result<Action, AllocError>
    ensures { IfOk result (λ action. action ≡ first_action cell.now) }
{
    let master = cell.master();
    if master.recovering() && master.sessions().all_heard() {
        return Ok(Action::Recover);
    }
    match master.sessions().expired(master.clock()) {
        Some(client) => Ok(Action::Expire(client)),
        None => apply_or_later(cell),
    }
}

// The lowest change that no right holds up has its turn.
fn apply_or_later(cell: &MemoryMaster) -> Result<Action, AllocError>
    ensures { IfOk result (λ action. action ≡ apply_or_later cell.now) }
{
    match cell.master().next_change() {
        Some(number) => Ok(Action::Apply(number)),
        None => reopen_or_later(cell),
    }
}

// The lowest instance whose lock was closed long enough.
fn reopen_or_later(cell: &MemoryMaster) -> Result<Action, AllocError>
    ensures { IfOk result (λ action. action ≡ reopen_or_later cell.now) }
{
    let master = cell.master();
    match master.locks().due(master.clock()) {
        Some(instance) => Ok(Action::Reopen(instance)),
        None => tidy_or_later(cell),
    }
}

// The first ephemeral node, by name, that nobody holds open.
fn tidy_or_later(cell: &MemoryMaster) -> Result<Action, AllocError>
    ensures { IfOk result (λ action. action ≡ tidy_or_later cell.now) }
{
    match cell.next_idle()? {
        Some(idle) => Ok(Action::Tidy(idle)),
        None => Ok(answer_or_quiet(cell.master())),
    }
}

fn answer_or_quiet(master: &Master) -> Action
    ensures { result ≡ answer_or_quiet master.now }
{
    match master.sessions().due(master.clock()) {
        Some(client) => Action::Answer(client),
        None => Action::Quiet,
    }
}
