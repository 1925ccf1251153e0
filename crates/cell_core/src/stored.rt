//! The locks and the sessions of a master that comes up, as the rows tell them.
ghost use Rattle.std.specs.Prelude.{◌≡◌, ◌≤◌, IfOk, OnOk};
ghost use Rattle.lease_core.specs.Lease.{IsMoment, least_lease, longest_lease};
ghost use Rattle.master_parts.specs.StoredSessions.{sessions_of};
ghost use Rattle.master_state.specs.Departed.{departed_in, with_departed_row};
ghost use Rattle.master_parts.specs.Locks.{locks_of, generations_of, with_row, holder_of};

use lock_core::{Claim, Hold, Locks, Owner};
use master_state::Departed;
use node_core::{LockMode, NUMBER_LIMIT};
use rows_cell::{LockKey, LockRow, LockState, Rows, SessionRow};
use session_core::Sessions;
use std::alloc::{AllocError, Global};
use tags_cell::Reply;

// The locks as the rows tell them, with each delay anew from this moment.
pub(crate) fn locks_of(alloc: Global, rows: &Rows, now: u64) -> Result<Locks, AllocError>
    ensures { IfOk result (λ locks. locks ≡ locks_of rows.now now) }
{
    let mut locks = generations_of(alloc, rows)?;
    for (key, row) in rows.locks.as_map() {
        put_row(&mut locks, now, *key, *row)?;
    }
    Ok(locks)
}

// Each node's lock with its generation, and nobody holds it.
fn generations_of(alloc: Global, rows: &Rows) -> Result<Locks, AllocError>
    ensures { IfOk result (λ locks. locks ≡ generations_of rows.now) }
{
    let mut locks = Locks::new(alloc);
    for (_, node) in rows.nodes.as_map() {
        if node.lock_generation <= NUMBER_LIMIT {
            locks.put_generation(node.node.instance, node.lock_generation)?;
        }
    }
    Ok(locks)
}

// A holder, or a closed lock.
fn put_row(locks: &mut Locks, now: u64, key: LockKey, row: LockRow) -> Result<(), AllocError>
    ensures { OnOk result (locks.new ≡ with_row now locks.old (key, row)) }
{
    match row.state {
        LockState::Lapsed => locks.put_closing(key.instance, now, row.delay),
        LockState::Exclusive => {
            locks.put_holder(key.instance, holder_of(key, LockMode::Exclusive, row.delay))
        }
        LockState::Shared => {
            locks.put_holder(key.instance, holder_of(key, LockMode::Shared, row.delay))
        }
    }
}

fn holder_of(key: LockKey, mode: LockMode, delay: u64) -> Claim
    ensures { result ≡ holder_of key mode delay }
{
    Claim {
        owner: Owner {
            client: key.client,
            handle: key.handle,
        },
        hold: Hold { mode, delay },
    }
}

// The sessions of the rows, each with its time anew.
pub(crate) fn sessions_of(
    alloc: Global,
    rows: &Rows,
    lease: u64,
    now: u64,
) -> Result<Sessions<Reply>, AllocError>
    requires range { (least_lease ≤ lease) × (lease ≤ longest_lease) }
    requires moment { IsMoment now }
    ensures { IfOk result (λ sessions. sessions ≡ sessions_of rows.now lease now) }
{
    let stored = rows.sessions.as_map();
    let _count = stored.len();
    let mut sessions = Sessions::new(alloc, lease);
    for (client, session) in stored {
        sessions.recover(*client, session.principal.clone()?, session.live, now)?;
    }
    Ok(sessions)
}

// The clients of the rows whose sessions have ended, by their numbers.
pub(crate) fn departed_of(alloc: Global, rows: &Rows) -> Result<Departed, AllocError>
    ensures { IfOk result (λ departed. departed ≡ departed_in rows.now.sessions) }
{
    let mut departed = Departed::new(alloc);
    for (client, session) in rows.sessions.as_map() {
        note_row(&mut departed, *client, session)?;
    }
    Ok(departed)
}

fn note_row(departed: &mut Departed, client: u64, session: &SessionRow) -> Result<(), AllocError>
    ensures { OnOk result (departed.new ≡ with_departed_row departed.old (client, session.now)) }
{
    if session.live {
        return Ok(());
    }
    departed.note(client)?;
    Ok(())
}
