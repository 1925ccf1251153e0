//! What a call does to a lock when its turn comes.
ghost use Rattle.std.specs.Prelude.{◌≡◌, Some, None, Ok, IfOk};
ghost use Rattle.lock_core.specs.Locks.{lock_at};
ghost use Rattle.master_state.specs.NameSpace.{name_space};
ghost use Rattle.master_state.specs.Lookups.{node_of_handle};
ghost use Rattle.cell_core.specs.Effect.{lock_put, lock_taken, lock_awaited, leaving_by, acquired_by, acquire_by, acquire_at, try_by, try_at, release_at, close_under, closed_state, close_at, deleted, gone_by_itself};

use crate::effects::{Effect, Leave, Locking};
use crate::room::lock_fault;
use collections::Items;
use lock_core::{Acquired, Claim, Lock, Turn};
use master_parts::{HandleKey, HandleNote, HandleState, Orphan, claim_of, owner_of};
use master_state::{Change, LockPut, Master};
use node_core::{Fault, LockMode, Mod};
use std::alloc::AllocError;
use tags_cell::{CallResult, Handle};

pub(crate) fn acquire_at(
    master: &Master,
    handle: &Handle,
    mode: LockMode,
) -> Result<Effect, AllocError>
    ensures { IfOk result (λ done. done ≡ acquire_at (name_space master.now) handle.now mode) }
{
    let claim = claim_of(handle, mode);
    let room = lock_fault(master, handle.client.get())?;
    match master.locks().acquire(handle.instance.get(), claim) {
        Ok(asked) => acquire_by(handle, claim, room, asked),
        Err(Fault::NoMemory) => Err(AllocError),
        Err(fault) => Ok(Effect::refused(fault)),
    }
}

fn acquire_by(
    handle: &Handle,
    claim: Claim,
    room: Option<Fault>,
    asked: Acquired,
) -> Result<Effect, AllocError>
    ensures { IfOk result (λ done. done ≡ acquire_by handle.now claim room (Ok asked)) }
{
    match room {
        Some(fault) => Ok(Effect::refused(fault)),
        None => acquired_by(handle, claim, asked),
    }
}

fn acquired_by(handle: &Handle, claim: Claim, asked: Acquired) -> Result<Effect, AllocError>
    ensures { IfOk result (λ done. done ≡ acquired_by handle.now claim asked) }
{
    match asked {
        Acquired::Held(lock) => lock_taken(handle, claim, lock),
        Acquired::Waits(lock) => lock_awaited(handle, lock),
    }
}

// By the moment that the master was told.
pub(crate) fn try_at(master: &Master, handle: &Handle, mode: LockMode) -> Result<Effect, AllocError>
    ensures { IfOk result (λ done. done ≡ try_at (name_space master.now) master.now.clock handle.now mode) }
{
    let claim = claim_of(handle, mode);
    let room = lock_fault(master, handle.client.get())?;
    match master
        .locks()
        .try_acquire(handle.instance.get(), claim, master.clock())
    {
        Ok(lock) => try_by(handle, claim, room, lock),
        Err(Fault::NoMemory) => Err(AllocError),
        Err(fault) => Ok(Effect::refused(fault)),
    }
}

fn try_by(
    handle: &Handle,
    claim: Claim,
    room: Option<Fault>,
    lock: Lock,
) -> Result<Effect, AllocError>
    ensures { IfOk result (λ done. done ≡ try_by handle.now claim room (Ok lock)) }
{
    match room {
        Some(fault) => Ok(Effect::refused(fault)),
        None => lock_taken(handle, claim, lock),
    }
}

pub(crate) fn release_at(master: &Master, handle: &Handle) -> Result<Effect, AllocError>
    ensures { IfOk result (λ done. done ≡ release_at (name_space master.now) handle.now) }
{
    match master
        .locks()
        .release(handle.instance.get(), owner_of(handle))
    {
        Ok(turn) => Ok(Effect {
            note: None,
            change: None,
            locking: leaving_by(handle, true, turn)?,
            answer: Some(CallResult::Done),
        }),
        Err(Fault::NoMemory) => Err(AllocError),
        Err(fault) => Ok(Effect::refused(fault)),
    }
}

// A handle that is closed lets its lock go, or waits for it no longer.
pub(crate) fn close_at(master: &Master, handle: &Handle) -> Result<Effect, AllocError>
    ensures { IfOk result (λ done. done ≡ close_at (name_space master.now) handle.now) }
{
    let locking = close_by(master, handle)?;
    Ok(Effect {
        note: Some(HandleNote {
            key: HandleKey::of(handle),
            state: closed_state(master, handle),
        }),
        change: None,
        locking,
        answer: Some(CallResult::Closed),
    })
}

// One that this epoch gave is forgotten: it is of no use unless it is noted as open.
fn closed_state(master: &Master, handle: &Handle) -> Option<HandleState>
    ensures { result ≡ closed_state (name_space master.now) handle.now }
{
    if handle.epoch.get() == master.epoch() {
        None
    } else {
        Some(HandleState::Closed)
    }
}

fn close_by(master: &Master, handle: &Handle) -> Result<Locking, AllocError>
    ensures { IfOk result (λ locking. locking ≡ close_under (name_space master.now) handle.now (node_of_handle (name_space master.now) handle.now)) }
{
    if master.node_of(handle).is_none() {
        return Ok(Locking::Nothing);
    }
    match master
        .locks()
        .close_handle(handle.instance.get(), owner_of(handle))?
    {
        None => Ok(Locking::Nothing),
        Some(turn) => leaving_by(handle, master.holds_lock(handle), turn),
    }
}

// The node goes, and its lock with it.
pub(crate) fn deleted(master: &Master, handle: &Handle) -> Result<Effect, AllocError>
    ensures { IfOk result (λ done. done ≡ deleted (name_space master.now) handle.now) }
{
    let waiters = waiters_of(master, handle.instance.get())?;
    let change = Mod::Gone(handle.name.clone()?);
    Ok(Effect {
        note: None,
        change: Some(Change {
            change,
            next_instance: master.next_instance(),
        }),
        locking: Locking::Goes(handle.instance.get(), waiters),
        answer: Some(CallResult::Done),
    })
}

/// An ephemeral node that nobody holds open goes as one that is deleted, and nobody asked for it.
pub fn gone_by_itself(master: &Master, idle: &Orphan) -> Result<Effect, AllocError>
    ensures { IfOk result (λ done. done ≡ gone_by_itself (name_space master.now) idle.now) }
{
    let waiters = waiters_of(master, idle.instance)?;
    let change = Mod::Gone(idle.name.clone()?);
    Ok(Effect {
        note: None,
        change: Some(Change {
            change,
            next_instance: master.next_instance(),
        }),
        locking: Locking::Goes(idle.instance, waiters),
        answer: None,
    })
}

fn waiters_of(master: &Master, instance: u64) -> Result<Items<Claim>, AllocError>
    ensures { IfOk result (λ waiters. waiters ≡ (lock_at master.now.locks instance).waiters) }
{
    match master.locks().get(instance) {
        Some(lock) => copied(master, lock.waiters()),
        None => Ok(Items::new(master.alloc())),
    }
}

fn copied(master: &Master, claims: &[Claim]) -> Result<Items<Claim>, AllocError>
    ensures { IfOk result (λ copies. copies ≡ claims.now) }
{
    let mut copies = Items::new(master.alloc());
    for claim in claims {
        copies.push(*claim)?;
    }
    Ok(copies)
}

// ---- effects

// The caller holds the lock.
fn lock_taken(handle: &Handle, claim: Claim, lock: Lock) -> Result<Effect, AllocError>
    ensures { IfOk result (λ done. done ≡ lock_taken handle.now claim lock) }
{
    Ok(Effect {
        note: None,
        change: None,
        locking: Locking::Takes(lock_put(handle, lock)?, claim),
        answer: Some(CallResult::Done),
    })
}

// The caller waits after all others. It is answered when it gets the lock, or can't get it any more.
fn lock_awaited(handle: &Handle, lock: Lock) -> Result<Effect, AllocError>
    ensures { IfOk result (λ done. done ≡ lock_awaited handle.now lock) }
{
    Ok(Effect {
        note: None,
        change: None,
        locking: Locking::Waits(lock_put(handle, lock)?),
        answer: None,
    })
}

// What becomes of the lock of a handle's node.
fn lock_put(handle: &Handle, lock: Lock) -> Result<LockPut, AllocError>
    ensures { IfOk result (λ put. put ≡ lock_put handle.now lock) }
{
    match handle.name.clone() {
        Ok(name) => Ok(LockPut {
            name,
            instance: handle.instance.get(),
            lock,
        }),
        Err(error) => {
            drop(lock);
            Err(error)
        }
    }
}

// The caller has left the lock.
fn leaving_by(handle: &Handle, held: bool, turn: Turn) -> Result<Locking, AllocError>
    ensures { IfOk result (λ locking. locking ≡ leaving_by handle.now held turn) }
{
    match handle.name.clone() {
        Ok(name) => Ok(Locking::Leaves(Leave {
            name,
            instance: handle.instance.get(),
            held,
            turn,
        })),
        Err(error) => {
            drop(turn);
            Err(error)
        }
    }
}
