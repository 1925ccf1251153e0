//! Taking a database over.
ghost use Rattle.std.specs.Prelude.{◌≡◌, ◌≢◌, ◌↔◌, ◌≤◌, false, Err, IfOk, IfErr, IsTrue};
ghost use Rattle.sqlite_trees.specs.View.{doubt, IsClean};
ghost use Rattle.sqlite.specs.Steps.{IsFresh};
ghost use Rattle.sqlite.specs.State.{HasCleanDisk, IsUnchanged, Survives};
ghost use Rattle.sqlite.specs.Held.{state};
ghost use Rattle.rows_cell.specs.Opening.{opening};
ghost use Rattle.rows_cell.specs.declared.tables.Rows.{Rows as Held};
ghost use Rattle.rows_sql.specs.OurSchema.{the_schema};
ghost use Rattle.rows_sql.specs.Creation.{no_schema, puts_of};
ghost use Rattle.rows_sql.specs.Held.{Says};
ghost use Rattle.rows_sql.specs.Ready.{tables_of};
ghost use Rattle.rows_sql.specs.Adopting.{IsAnew, IsForeign, IsAtItsEnd, IsTaken, IsLeftAlone, IsReopened};

use crate::carrying::{take_first, take_second};
use crate::orders::OrderedStore;
use crate::reading::load_said;
use crate::schema::{Version, version_of};
use crate::writing::make_store;
use collections::Items;
use rows_cell::{Edit, ListRecords, Records, Rows, Settings, StoreFault};
use sqlite::{Alter, Connection, Error};
use sqlite_schema::schema::Schema;
use std::alloc::{AllocError, Global};

// Opens a store anew. Where it is that of a cell, the rowids of its tables rise.
fn open_store<S: Alter + Drop>(alloc: Global, store: S) -> Result<Connection<S>, (Error, S)>
    requires { IsClean (S.Store.view store) → IsFresh (S.Store.view store) }
    ensures ok { IfOk result (λ conn. IsAnew (state S.Store conn)) }
    ensures clean { IfOk result (λ conn. doubt (S.Store.view store).is_clean ≤ doubt (state S.Store conn).is_clean) }
    ensures trees { IfOk result (λ conn. HasCleanDisk (state S.Store conn) → (state S.Store conn).now.trees ≡ (S.Store.view store).trees) }
    ensures err { IfErr result (λ e. (doubt (S.Store.view store).is_clean ≤ doubt (S.Store.view e.1).is_clean) × ((db : _) → S.Store.recovers e.1 db → S.Store.recovers store db)) }
{
    Connection::over(alloc, store)
}

// Opens a database anew, with what was last committed.
fn reopen<S: Alter + Drop>(alloc: Global, conn: Connection<S>) -> Result<Connection<S>, S>
    ensures ok { IfOk result (λ new. IsReopened S.Store conn new) }
    ensures err { IfErr result (λ store. (doubt (state S.Store conn).is_clean ≤ doubt (S.Store.view store).is_clean) × ((db : _) → S.Store.recovers store db → (state S.Store conn).may_leave db)) }
{
    // What it shows is a database.
    let _schema = conn.schema();
    let store = conn.into_store();
    if store.is_broken() {
        return Err(store);
    }
    match open_store(alloc, store) {
        Ok(conn) => Ok(conn),
        Err((_error, store)) => Err(store),
    }
}

// Whether a connection takes a statement, as an open one does.
fn is_open<S: Alter>(conn: &mut Connection<S>) -> bool
    ensures unchanged { HasCleanDisk (state S.Store conn.new) → IsTrue result → IsUnchanged (state S.Store conn.old) (state S.Store conn.new) }
    ensures mode { conn.old.in_transaction ≡ false → conn.new.in_transaction ≡ false }
    ensures survives { Survives (state S.Store conn.old) (state S.Store conn.new) (λ _. ⊥) }
{
    conn.prepare("SELECT 1").is_ok()
}

// Keeps a connection where nothing is begun, if it is open.
fn keep_open<S: OrderedStore + Drop>(mut conn: Connection<S>) -> Result<Connection<S>, S>
    requires idle { conn.in_transaction ≡ false }
    requires settled { IsTrue (state S.Store conn).is_open → (state S.Store conn).now ≡ (state S.Store conn).committed }
    ensures ok { IfOk result (λ new. IsReopened S.Store conn new) }
    ensures err { IfErr result (λ store. (doubt (state S.Store conn).is_clean ≤ doubt (S.Store.view store).is_clean) × (IsClean (S.Store.view store) → (db : _) → S.Store.recovers store db → (state S.Store conn).may_leave db)) }
{
    // What it shows is a database.
    let _schema = conn.schema();
    if is_open(&mut conn) {
        return Ok(conn);
    }
    Err(conn.into_store())
}

/// Gives a connection to what was last committed: this one, as it is, if nothing is begun there; else the database is
/// opened anew, which tests all its rows once more.
pub(crate) fn last_committed<S: OrderedStore + Drop>(
    alloc: Global,
    conn: Connection<S>,
) -> Result<Connection<S>, S>
    ensures ok { IfOk result (λ new. IsReopened S.Store conn new) }
    ensures err { IfErr result (λ store. (doubt (state S.Store conn).is_clean ≤ doubt (S.Store.view store).is_clean) × (IsClean (S.Store.view store) → (db : _) → S.Store.recovers store db → (state S.Store conn).may_leave db)) }
{
    if conn.is_autocommit() {
        return keep_open(conn);
    }
    reopen(alloc, conn)
}

// Whether there is no table, no index and no view.
fn is_nothing(schema: &Schema) -> bool
    ensures { IsTrue result ↔ (schema.now ≡ no_schema) }
{
    if schema.tables.len() != 0 {
        return false;
    }
    if schema.indexes.len() != 0 {
        return false;
    }
    schema.views.len() == 0
}

// The rows of a new store.
fn opening_rows(alloc: Global, settings: &Settings) -> Result<Rows, StoreFault>
    ensures ok { IfOk result (λ rows. rows ≡ opening settings.now) }
    ensures err { IfErr result (λ e. e ≡ StoreFault.NoMemory) }
{
    let mut records = ListRecords::new(alloc, settings)?;
    records.load()
}

// The edits that put the nodes of rows.
fn edits_of(alloc: Global, rows: &Rows) -> Result<Items<Edit>, AllocError>
    ensures { IfOk result (λ edits. edits ≡ puts_of rows.now.nodes) }
{
    let mut edits = Items::new(alloc);
    for (name, node) in rows.nodes.as_map() {
        edits.push(Edit::PutNode(name.clone()?, node.node.clone()?))?;
    }
    Ok(edits)
}

// Makes a new store of a database without tables.
fn take_new<S: Alter>(
    alloc: Global,
    conn: &mut Connection<S>,
    settings: &Settings,
) -> Result<Rows, StoreFault>
    requires anew { IsAnew (state S.Store conn.old) }
    requires nothing { (state S.Store conn.old).now.schema ≡ no_schema }
    ensures ok { IfOk result (λ rows. IsTaken S.Store settings.now conn.old conn.new rows) }
    ensures err { IfErr result (λ e. IsLeftAlone S.Store settings.now conn.old conn.new) }
    ensures why { result ≡ Err StoreFault.Damaged → ⊥ }
    ensures counted { result ≡ Err StoreFault.Exhausted → ⊥ }
{
    let rows = opening_rows(alloc, settings)?;
    let edits = edits_of(alloc, &rows)?;
    match make_store(conn, settings, edits.as_slice()) {
        Ok(()) => Ok(rows),
        Err(_) => Err(StoreFault::Refused),
    }
}

// Reads the rows of a store.
fn take_store<S: Alter>(
    alloc: Global,
    conn: &mut Connection<S>,
    settings: &Settings,
) -> Result<Rows, StoreFault>
    requires anew { IsAnew (state S.Store conn.old) }
    requires ours { (state S.Store conn.old).now.schema ≡ the_schema }
    ensures ok { IfOk result (λ rows. IsTaken S.Store settings.now conn.old conn.new rows) }
    ensures err { IfErr result (λ e. IsLeftAlone S.Store settings.now conn.old conn.new) }
    ensures why { HasCleanDisk (state S.Store conn.new) → result ≡ Err StoreFault.Damaged → (rows : Held) → ¬ Says (tables_of (state S.Store conn.old).now.trees) rows }
    ensures counted { result ≡ Err StoreFault.Exhausted → ⊥ }
{
    load_said(alloc, conn)
}

/// Takes the rows of a database over: those of a store of now as they are; one of an earlier version is carried over; and
/// if there is no table, a new store is made.
#[tactic(auto, using(crate::proofs::Adoptions::foreign_none, crate::proofs::Adoptions::foreign_store, crate::proofs::Adoptions::foreign_second, crate::proofs::Adoptions::foreign_unindexed, crate::proofs::Adoptions::foreign_first))]
pub(crate) fn take_over<S: Alter>(
    alloc: Global,
    conn: &mut Connection<S>,
    settings: &Settings,
) -> Result<Rows, StoreFault>
    requires { IsAnew (state S.Store conn.old) }
    ensures ok { IfOk result (λ rows. IsTaken S.Store settings.now conn.old conn.new rows) }
    ensures err { IfErr result (λ e. IsLeftAlone S.Store settings.now conn.old conn.new) }
    ensures why { HasCleanDisk (state S.Store conn.new) → result ≡ Err StoreFault.Damaged → IsForeign settings.now.cell (state S.Store conn.old).now }
    ensures full { HasCleanDisk (state S.Store conn.new) → result ≡ Err StoreFault.Exhausted → IsAtItsEnd settings.now.cell (state S.Store conn.old).now }
{
    let version = version_of(alloc, conn.schema())?;
    match version {
        Some(Version::Third) => take_store(alloc, conn, settings),
        Some(Version::Second) => take_second(alloc, conn, settings, Version::Second),
        Some(Version::Unindexed) => take_second(alloc, conn, settings, Version::Unindexed),
        Some(Version::First) => take_first(alloc, conn, settings),
        None => take_none(alloc, conn, settings),
    }
}

// Takes a database over that is no store: a new one is made where there is no table.
fn take_none<S: Alter>(
    alloc: Global,
    conn: &mut Connection<S>,
    settings: &Settings,
) -> Result<Rows, StoreFault>
    requires { IsAnew (state S.Store conn.old) }
    ensures ok { IfOk result (λ rows. IsTaken S.Store settings.now conn.old conn.new rows) }
    ensures err { IfErr result (λ e. IsLeftAlone S.Store settings.now conn.old conn.new) }
    ensures why { HasCleanDisk (state S.Store conn.new) → result ≡ Err StoreFault.Damaged → (state S.Store conn.old).now.schema ≢ no_schema }
    ensures counted { result ≡ Err StoreFault.Exhausted → ⊥ }
{
    if !is_nothing(conn.schema()) {
        return Err(StoreFault::Damaged);
    }
    take_new(alloc, conn, settings)
}
