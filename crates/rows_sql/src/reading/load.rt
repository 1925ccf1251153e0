//! Loading the rows of a cell.
ghost use Rattle.std.specs.Prelude.{◌≡◌, ◌≢◌, Err, IfOk};
ghost use Rattle.sqlite.specs.State.{HasCleanDisk};
ghost use Rattle.sqlite.specs.Held.{state};
ghost use Rattle.rows_cell.specs.declared.tables.Rows.{Rows as Held};
ghost use Rattle.rows_sql.specs.Held.{Says, SaysAs, IsWhole};
ghost use Rattle.rows_sql.specs.Raws.{shown};
ghost use Rattle.rows_sql.specs.Ready.{IsReady, IsStill, Quiet, IsReadyAs, IsStillAs, QuietAs, tables_of, tables_as};

use crate::reading::children::{are_same, children_for};
use crate::reading::entries::{parents_of, rows_of};
use crate::reading::reads::{Raw, read_tables};
use crate::schema::Version;
use rows_cell::{Rows, StoreFault};
use sqlite::{Alter, Connection};
use std::alloc::{AllocError, Global};

/// The rows that the tables say, whether a cell may have them or not.
pub fn load_said<S: Alter>(alloc: Global, conn: &mut Connection<S>) -> Result<Rows, StoreFault>
    ensures rows { HasCleanDisk (state S.Store conn.new) → IsReady (state S.Store conn.old) → IfOk result (λ rows. Says (tables_of (state S.Store conn.old).now.trees) rows) }
    ensures damaged { HasCleanDisk (state S.Store conn.new) → IsReady (state S.Store conn.old) → result ≡ Err StoreFault.Damaged → (rows : Held) → ¬ Says (tables_of (state S.Store conn.old).now.trees) rows }
    ensures quiet { Quiet S.Store conn.old conn.new }
    ensures ready { HasCleanDisk (state S.Store conn.new) → IsReady (state S.Store conn.old) → result ≢ Err StoreFault.Refused → IsStill (state S.Store conn.old) (state S.Store conn.new) }
    ensures counted { result ≡ Err StoreFault.Exhausted → ⊥ }
{
    load_as(alloc, conn, Version::Third)
}

/// The rows that the tables of a store of this version say, whether a cell may have them or not.
pub fn load_as<S: Alter>(
    alloc: Global,
    conn: &mut Connection<S>,
    version: Version,
) -> Result<Rows, StoreFault>
    ensures rows { HasCleanDisk (state S.Store conn.new) → IsReadyAs version (state S.Store conn.old) → IfOk result (λ rows. SaysAs version (tables_as version (state S.Store conn.old).now.trees) rows) }
    ensures damaged { HasCleanDisk (state S.Store conn.new) → IsReadyAs version (state S.Store conn.old) → result ≡ Err StoreFault.Damaged → (rows : Held) → ¬ SaysAs version (tables_as version (state S.Store conn.old).now.trees) rows }
    ensures quiet { QuietAs version S.Store conn.old conn.new }
    ensures ready { HasCleanDisk (state S.Store conn.new) → IsReadyAs version (state S.Store conn.old) → result ≢ Err StoreFault.Refused → IsStillAs version (state S.Store conn.old) (state S.Store conn.new) }
    ensures counted { result ≡ Err StoreFault.Exhausted → ⊥ }
{
    match read_tables(alloc, conn, version) {
        Ok(raw) => said_by(alloc, version, &raw),
        Err(_) => Err(StoreFault::Refused),
    }
}

fn said_by(alloc: Global, version: Version, raw: &Raw) -> Result<Rows, StoreFault>
    ensures rows { IfOk result (λ rows. SaysAs version (shown raw.now) rows) }
    ensures damaged { result ≡ Err StoreFault.Damaged → (rows : Held) → ¬ SaysAs version (shown raw.now) rows }
    ensures read { (result ≡ Err StoreFault.Refused → ⊥) × (result ≡ Err StoreFault.Exhausted → ⊥) }
{
    match whole_rows(alloc, version, raw) {
        Ok(Some(rows)) => Ok(rows),
        Ok(None) => Err(StoreFault::Damaged),
        Err(_) => Err(StoreFault::NoMemory),
    }
}

// The rows that the tables say, if they do, and if the fifth says just their children.
fn whole_rows(alloc: Global, version: Version, raw: &Raw) -> Result<Option<Rows>, AllocError>
    ensures { IfOk result (λ rows. IsWhole version (shown raw.now) rows) }
{
    let Some(parents) = parents_of(alloc, &raw.children)? else {
        return Ok(None);
    };
    let Some(rows) = rows_of(alloc, version, raw)? else {
        return Ok(None);
    };
    if !are_same(&parents, &children_for(alloc, version, &rows.nodes)?) {
        return Ok(None);
    }
    Ok(Some(rows))
}
