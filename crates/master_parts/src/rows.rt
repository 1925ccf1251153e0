//! The rows of one lock, and the edits that make others of them.
ghost use Rattle.std.specs.Prelude.{◌≡◌, map, IfOk};
ghost use Rattle.std.specs.Map.{lookup};
ghost use Rattle.std.specs.BTreeMap.{is_at};
ghost use Rattle.rows_cell.specs.Keys.{lock_order};
ghost use Rattle.rows_cell.specs.LockRows.{row_edits, gone_keys, has_entry, is_row, is_state};
ghost use Rattle.rows_cell.specs.declared.tables.Edit.TheVariants.{RemoveLock};
ghost use Rattle.master_parts.specs.Locks.{lock_rows, closing_rows, holder_row};

use collections::Items;
use lock_core::{Closing, Hold, Lock};
use node_core::LockMode;
use rows_cell::{Edit, LockKey, LockRow, LockState};
use std::alloc::{AllocError, Global};

/// Of a lock that is closed, and of each holder.
pub fn lock_rows(
    alloc: Global,
    instance: u64,
    lock: &Lock,
) -> Result<Items<(LockKey, LockRow)>, AllocError>
    ensures { IfOk result (λ rows. rows ≡ lock_rows instance lock.now) }
{
    let mut rows = closing_rows(alloc, instance, lock.closed())?;
    for (owner, hold) in lock.holders().as_map() {
        let key = LockKey {
            instance,
            client: owner.client,
            handle: owner.handle,
        };
        rows.push((key, holder_row(*hold)))?;
    }
    Ok(rows)
}

fn closing_rows(
    alloc: Global,
    instance: u64,
    closed: Option<Closing>,
) -> Result<Items<(LockKey, LockRow)>, AllocError>
    ensures { IfOk result (λ rows. rows ≡ closing_rows instance closed) }
{
    let mut rows = Items::new(alloc);
    if let Some(closing) = closed {
        let key = LockKey {
            instance,
            client: 0,
            handle: 0,
        };
        let row = LockRow {
            state: LockState::Lapsed,
            delay: closing.delay,
        };
        rows.push((key, row))?;
    }
    Ok(rows)
}

fn holder_row(hold: Hold) -> LockRow
    ensures { result ≡ holder_row hold }
{
    let state = match hold.mode {
        LockMode::Exclusive => LockState::Exclusive,
        LockMode::Shared => LockState::Shared,
    };
    LockRow {
        state,
        delay: hold.delay,
    }
}

/// From the old rows of one lock to the new ones.
pub fn row_edits(
    alloc: Global,
    old: &[(LockKey, LockRow)],
    new: &[(LockKey, LockRow)],
) -> Result<Items<Edit>, AllocError>
    ensures { IfOk result (λ edits. edits ≡ row_edits old.now new.now) }
{
    let mut edits = gone_edits(alloc, old, new)?;
    for (key, row) in new {
        if !has_entry(old, *key, *row) {
            edits.push(Edit::PutLock(*key, *row))?;
        }
    }
    Ok(edits)
}

// Each key that the new rows lack goes.
fn gone_edits(
    alloc: Global,
    old: &[(LockKey, LockRow)],
    new: &[(LockKey, LockRow)],
) -> Result<Items<Edit>, AllocError>
    ensures { IfOk result (λ edits. edits ≡ map RemoveLock (gone_keys old.now new.now)) }
{
    let mut edits = Items::new(alloc);
    for (key, _) in old {
        if row_of(new, *key).is_none() {
            edits.push(Edit::RemoveLock(*key))?;
        }
    }
    Ok(edits)
}

// Whether this row stands at the key.
fn has_entry(rows: &[(LockKey, LockRow)], key: LockKey, row: LockRow) -> bool
    ensures { result ≡ has_entry rows.now (key, row) }
{
    match row_of(rows, key) {
        Some(other) => is_row(other, row),
        None => false,
    }
}

fn is_row(row: LockRow, other: LockRow) -> bool
    ensures { result ≡ is_row row other }
{
    is_state(row.state, other.state) && row.delay == other.delay
}

fn is_state(state: LockState, other: LockState) -> bool
    ensures { result ≡ is_state state other }
{
    match state {
        LockState::Lapsed => matches!(other, LockState::Lapsed),
        LockState::Exclusive => matches!(other, LockState::Exclusive),
        LockState::Shared => matches!(other, LockState::Shared),
    }
}

fn row_of(rows: &[(LockKey, LockRow)], key: LockKey) -> Option<LockRow>
    ensures { result ≡ lookup (is_at (lock_order key)) rows.now }
{
    for (other, row) in rows {
        if *other == key {
            return Some(*row);
        }
    }
    None
}
