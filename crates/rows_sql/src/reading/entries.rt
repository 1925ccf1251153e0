//! The entries that read rows say.
ghost use Rattle.std.specs.Prelude.{IfOk};
ghost use Rattle.std.specs.Ordering.{nat_cmp};
ghost use Rattle.std.specs.Cmp.Lexicographic.{slice_cmp};
ghost use Rattle.rows_cell.specs.Keys.{lock_order};
ghost use Rattle.rows_sql.specs.Decode.{node_in, session_in, lock_in, child_in};
ghost use Rattle.rows_sql.specs.Raws.{shown};
ghost use Rattle.rows_sql.specs.Held.{IsRead, IsOnly, IsFour};

use crate::reading::reads::Raw;
use crate::reading::stored::{Meta, child_of, lock_of, meta_of, node_of, session_of};
use crate::schema::Version;
use collections::Table;
use names_cell::Name;
use rows_cell::{LockKey, LockRow, Rows, SessionRow, StoredNode};
use sqlite::Row;
use std::alloc::{AllocError, Global};

fn nodes_of(alloc: Global, rows: &[Row]) -> Result<Option<Table<Name, StoredNode>>, AllocError>
    ensures { IfOk result (λ nodes. IsRead (slice_cmp nat_cmp) node_in rows.now nodes) }
{
    let mut nodes = Table::new(alloc);
    for row in rows {
        let Some((name, node)) = node_of(alloc, row)? else {
            return Ok(None);
        };
        if nodes.put(name, node)?.is_some() {
            return Ok(None);
        }
    }
    Ok(Some(nodes))
}

fn sessions_of(alloc: Global, rows: &[Row]) -> Result<Option<Table<u64, SessionRow>>, AllocError>
    ensures { IfOk result (λ sessions. IsRead nat_cmp session_in rows.now sessions) }
{
    let mut sessions = Table::new(alloc);
    for row in rows {
        let Some((client, session)) = session_of(alloc, row)? else {
            return Ok(None);
        };
        if sessions.put(client, session)?.is_some() {
            return Ok(None);
        }
    }
    Ok(Some(sessions))
}

fn locks_of(alloc: Global, rows: &[Row]) -> Result<Option<Table<LockKey, LockRow>>, AllocError>
    ensures { IfOk result (λ locks. IsRead lock_order lock_in rows.now locks) }
{
    let mut locks = Table::new(alloc);
    for row in rows {
        let Some((key, lock)) = lock_of(row) else {
            return Ok(None);
        };
        if locks.put(key, lock)?.is_some() {
            return Ok(None);
        }
    }
    Ok(Some(locks))
}

/// The children that rows say, each with its parent, if they do.
pub(crate) fn parents_of(
    alloc: Global,
    rows: &[Row],
) -> Result<Option<Table<Name, Name>>, AllocError>
    ensures { IfOk result (λ parents. IsRead (slice_cmp nat_cmp) child_in rows.now parents) }
{
    let mut parents = Table::new(alloc);
    for row in rows {
        let Some((child, parent)) = child_of(alloc, row)? else {
            return Ok(None);
        };
        if parents.put(child, parent)?.is_some() {
            return Ok(None);
        }
    }
    Ok(Some(parents))
}

fn only_meta(alloc: Global, version: Version, rows: &[Row]) -> Result<Option<Meta>, AllocError>
    ensures { IfOk result (λ meta. IsOnly version rows.now meta) }
{
    let [row] = rows else {
        return Ok(None);
    };
    meta_of(alloc, version, row)
}

/// The rows of a cell that the rows of four tables say, if they do, by the rules of this version.
pub(crate) fn rows_of(
    alloc: Global,
    version: Version,
    raw: &Raw,
) -> Result<Option<Rows>, AllocError>
    ensures { IfOk result (λ rows. IsFour version (shown raw.now) rows) }
{
    let Some(meta) = only_meta(alloc, version, &raw.metas)? else {
        return Ok(None);
    };
    let Some(nodes) = nodes_of(alloc, &raw.nodes)? else {
        return Ok(None);
    };
    let Some(sessions) = sessions_of(alloc, &raw.sessions)? else {
        return Ok(None);
    };
    let Some(locks) = locks_of(alloc, &raw.locks)? else {
        return Ok(None);
    };
    Ok(Some(Rows {
        cell: meta.cell,
        secret: meta.secret,
        epoch: meta.epoch,
        next_instance: meta.next_instance,
        ended_below: meta.ended_below,
        nodes,
        sessions,
        locks,
    }))
}
