//! What is committed for an update.
ghost use Rattle.std.specs.Prelude.{◌≡◌, ◌++◌, IfOk};
ghost use Rattle.rows_cell.specs.LockRows.{locks_edits, lock_edits};
ghost use Rattle.rows_cell.specs.declared.tables.Edit.TheVariants.{PutNode, PutSession};
ghost use Rattle.lock_core.specs.Locks.{lock_at};
ghost use Rattle.master_parts.specs.Locks.{lock_rows};
ghost use Rattle.master_state.specs.Updates.{session_edits, retire_edits, edit_of, change_edits, edits_of, lock_change, lock_changes};

use crate::masters::Master;
use crate::updates::{Change, LockPut, SessionUpdate, Update};
use collections::Items;
use master_parts::{lock_rows, row_edits};
use names_cell::{Name, Principal};
use node_core::{Mod, Node};
use rows_cell::{Edit, LockKey, LockRow, SessionRow};
use std::alloc::{AllocError, Global};
use tags_cell::ClientNumber;

/// What is committed for an update.
pub fn edits_of(master: &Master, update: &Update) -> Result<Items<Edit>, AllocError>
    ensures { IfOk result (λ edits. edits ≡ edits_of master.now update.now) }
{
    let alloc = master.alloc();
    let mut edits = locks_edits(master, update.locks.as_slice())?;
    edits.append(sessions_edits(master, update)?)?;
    edits.append(change_edits(alloc, &update.change)?)?;
    Ok(edits)
}

// Of the session that begins or ends, and of one that goes.
fn sessions_edits(master: &Master, update: &Update) -> Result<Items<Edit>, AllocError>
    ensures { IfOk result (λ edits. edits ≡ session_edits update.now.session ++ retire_edits master.now.ended_below update.now.retires) }
{
    let alloc = master.alloc();
    let mut edits = session_edits(alloc, &update.session)?;
    edits.append(retire_edits(alloc, master.ended_below, update.retires)?)?;
    Ok(edits)
}

fn session_edits(alloc: Global, update: &Option<SessionUpdate>) -> Result<Items<Edit>, AllocError>
    ensures { IfOk result (λ edits. edits ≡ session_edits update.now) }
{
    match update {
        Some(SessionUpdate::Begins(client, principal)) => {
            let mut edits = Items::new(alloc);
            edits.push(put_session(client.get(), principal, true)?)?;
            Ok(edits)
        }
        Some(SessionUpdate::Ends(client, principal, _)) => {
            let mut edits = Items::new(alloc);
            edits.push(put_session(*client, principal, false)?)?;
            Ok(edits)
        }
        _ => Ok(Items::new(alloc)),
    }
}

// A session that goes, and below which number clients get none any more.
fn retire_edits(
    alloc: Global,
    ended_below: u64,
    client: Option<ClientNumber>,
) -> Result<Items<Edit>, AllocError>
    ensures { IfOk result (λ edits. edits ≡ retire_edits ended_below client) }
{
    let mut edits = Items::new(alloc);
    if let Some(client) = client {
        edits.push(Edit::RemoveSession(client.get()))?;
        edits.push(Edit::EndedBelow(ended_below.max(client.get() + 1)))?;
    }
    Ok(edits)
}

fn put_session(client: u64, principal: &Principal, live: bool) -> Result<Edit, AllocError>
    ensures { IfOk result (λ edit. edit ≡ PutSession client (record { principal = principal.now; live = live })) }
{
    let principal = principal.clone()?;
    Ok(Edit::PutSession(client, SessionRow { principal, live }))
}

fn change_edits(alloc: Global, change: &Option<Change>) -> Result<Items<Edit>, AllocError>
    ensures { IfOk result (λ edits. edits ≡ change_edits change.now) }
{
    let mut edits = Items::new(alloc);
    if let Some(change) = change {
        edits.push(edit_of(&change.change)?)?;
        edits.push(Edit::NextInstance(change.next_instance))?;
    }
    Ok(edits)
}

fn edit_of(change: &Mod) -> Result<Edit, AllocError>
    ensures { IfOk result (λ edit. edit ≡ edit_of change.now) }
{
    match change {
        Mod::Put(name, node) => put_edit(name, node),
        Mod::Gone(name) => Ok(Edit::RemoveNode(name.clone()?)),
    }
}

fn put_edit(name: &Name, node: &Node) -> Result<Edit, AllocError>
    ensures { IfOk result (λ edit. edit ≡ PutNode name.now node.now) }
{
    let name = name.clone()?;
    Ok(Edit::PutNode(name, node.clone()?))
}

// ---- locks

// One lock after the other.
fn locks_edits(master: &Master, puts: &[LockPut]) -> Result<Items<Edit>, AllocError>
    ensures { IfOk result (λ edits. edits ≡ locks_edits (lock_changes master.now puts.now)) }
{
    let mut edits = Items::new(master.alloc());
    for put in puts {
        edits.append(lock_edits(master, put)?)?;
    }
    Ok(edits)
}

// Its generation, where that rises, and its rows.
fn lock_edits(master: &Master, put: &LockPut) -> Result<Items<Edit>, AllocError>
    ensures { IfOk result (λ edits. edits ≡ lock_edits (lock_change master.now.locks put.now)) }
{
    let alloc = master.alloc();
    let mut edits = Items::new(alloc);
    let generation = put.lock.generation();
    if generation != master.locks().generation(put.instance) {
        edits.push(Edit::LockGeneration(put.name.clone()?, generation))?;
    }
    let old = rows_at(master, put.instance)?;
    let new = lock_rows(alloc, put.instance, &put.lock)?;
    edits.append(row_edits(alloc, old.as_slice(), new.as_slice())?)?;
    Ok(edits)
}

fn rows_at(master: &Master, instance: u64) -> Result<Items<(LockKey, LockRow)>, AllocError>
    ensures { IfOk result (λ rows. rows ≡ lock_rows instance (lock_at master.now.locks instance)) }
{
    match master.locks().get(instance) {
        Some(lock) => lock_rows(master.alloc(), instance, lock),
        None => Ok(Items::new(master.alloc())),
    }
}
