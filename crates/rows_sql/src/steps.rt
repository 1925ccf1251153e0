//! Reading and changing a store, and whether it goes on behind a refusal.
ghost use Rattle.std.specs.Prelude.{◌≡◌, ◌≢◌, true, false, Err, IfOk, IsTrue};
ghost use Rattle.sqlite.specs.State.{HasCleanDisk, KeepsCommit, Survives};
ghost use Rattle.sqlite.specs.Held.{state};
ghost use Rattle.rows_cell.specs.Sound.{sound};
ghost use Rattle.rows_cell.specs.declared.tables.Rows.{Rows as Held};
ghost use Rattle.rows_sql.specs.OurSchema.{the_schema};
ghost use Rattle.rows_sql.specs.Held.{Says};
ghost use Rattle.rows_sql.specs.Ready.{IsReady, IsStill, Quiet, tables_of};
ghost use Rattle.rows_sql.specs.Ongoing.{Committed, MayCommit};
ghost use Rattle.rows_sql.specs.Keeping.{GoesOn};

use crate::reading::{can_read, load_said};
use crate::schema::is_ours;
use crate::writing::commit_all;
use names_cell::Component;
use rows_cell::{Edit, Rows, StoreFault, is_sound};
use sqlite::{Alter, Connection};
use sqlite_schema::schema::Schema;
use std::alloc::Global;

/// The rows that the tables say, where a cell of this name may have them.
pub(crate) fn load_sound<S: Alter>(
    alloc: Global,
    conn: &mut Connection<S>,
    cell: &Component,
) -> Result<Rows, StoreFault>
    ensures rows { HasCleanDisk (state S.Store conn.new) → IsReady (state S.Store conn.old) → IfOk result (λ rows. Says (tables_of (state S.Store conn.old).now.trees) rows) }
    ensures sound { IfOk result (λ rows. sound cell.now rows ≡ true) }
    ensures damaged { HasCleanDisk (state S.Store conn.new) → IsReady (state S.Store conn.old) → result ≡ Err StoreFault.Damaged → (rows : Held) → Says (tables_of (state S.Store conn.old).now.trees) rows → sound cell.now rows ≡ false }
    ensures quiet { Quiet S.Store conn.old conn.new }
    ensures ready { HasCleanDisk (state S.Store conn.new) → IsReady (state S.Store conn.old) → result ≢ Err StoreFault.Refused → IsStill (state S.Store conn.old) (state S.Store conn.new) }
    ensures counted { result ≡ Err StoreFault.Exhausted → ⊥ }
{
    let rows = load_said(alloc, conn)?;
    if !is_sound(alloc, cell, &rows)? {
        return Err(StoreFault::Damaged);
    }
    Ok(rows)
}

// Whether a schema is that of a store; where memory is wanting it isn't found to be.
fn has_our_schema(alloc: Global, schema: &Schema) -> bool
    ensures { IsTrue result → schema.now ≡ the_schema }
{
    match is_ours(alloc, schema) {
        Ok(ours) => ours,
        Err(_) => false,
    }
}

/// Whether a database goes on behind a refusal: its schema is that of a store, and then it can be read.
pub(crate) fn goes_on<S: Alter>(alloc: Global, conn: &mut Connection<S>) -> bool
    requires { conn.old.in_transaction ≡ false }
    ensures { GoesOn S.Store result conn.old conn.new }
{
    let _settled = conn.is_autocommit();
    if !has_our_schema(alloc, conn.schema()) {
        return false;
    }
    can_read(conn)
}

/// Commits a change: whether it was done.
pub(crate) fn is_committed<S: Alter>(conn: &mut Connection<S>, change: &[Edit]) -> bool
    requires { conn.old.in_transaction ≡ false }
    ensures ended { conn.new.in_transaction ≡ false }
    ensures done { HasCleanDisk (state S.Store conn.new) → IsTrue result → Committed change.now (state S.Store conn.old) (state S.Store conn.new) }
    ensures kept { HasCleanDisk (state S.Store conn.new) → result ≡ false → KeepsCommit (state S.Store conn.old) (state S.Store conn.new) }
    ensures survives { Survives (state S.Store conn.old) (state S.Store conn.new) (MayCommit change.now (state S.Store conn.old)) }
{
    commit_all(conn, change).is_ok()
}
