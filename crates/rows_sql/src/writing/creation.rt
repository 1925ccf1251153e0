//! A new store, made in one transaction.
ghost use Rattle.std.specs.Prelude.{◌≡◌, [], false, OnOk, OnErr};
ghost use Rattle.sqlite.specs.State.{HasCleanDisk, KeepsCommit, Survives};
ghost use Rattle.sqlite.specs.Held.{state};
ghost use Rattle.rows_sql.specs.OurSchema.{first_schema, the_schema};
ghost use Rattle.rows_sql.specs.Creation.{no_schema, with_meta, with_nodes, with_sessions, Makes, AddsView, PutsCell, MakesBare, Opens, IsMade, MayOpen, StaysInside, opening_edits};

use crate::writing::changes::edit_all;
use crate::writing::edits::run;
use rows_cell::{Edit, Settings};
use sqlite::{Alter, Connection, Error, Transaction};
use sqlite_value::value::ValueRef;

fn make_meta<S: Alter>(tx: &mut Transaction<'_, S>) -> Result<(), Error>
    ensures same { tx.new.conn.ghost_name ≡ tx.old.conn.ghost_name }
    ensures ok { HasCleanDisk (state S.Store tx.new.conn.now) → OnOk result (Makes no_schema with_meta (state S.Store tx.old.conn.now) (state S.Store tx.new.conn.now)) }
    ensures stays { StaysInside (state S.Store tx.old.conn.now) (state S.Store tx.new.conn.now) }
{
    run(
        tx,
        "CREATE TABLE meta (id INTEGER NOT NULL PRIMARY KEY, version INTEGER NOT NULL, cell TEXT NOT NULL, secret BLOB NOT NULL, epoch INTEGER NOT NULL, next_instance INTEGER NOT NULL) STRICT",
        &[],
    )
}

fn make_nodes<S: Alter>(tx: &mut Transaction<'_, S>) -> Result<(), Error>
    ensures same { tx.new.conn.ghost_name ≡ tx.old.conn.ghost_name }
    ensures ok { HasCleanDisk (state S.Store tx.new.conn.now) → OnOk result (Makes with_meta with_nodes (state S.Store tx.old.conn.now) (state S.Store tx.new.conn.now)) }
    ensures stays { StaysInside (state S.Store tx.old.conn.now) (state S.Store tx.new.conn.now) }
{
    run(
        tx,
        "CREATE TABLE nodes (name TEXT NOT NULL PRIMARY KEY, instance INTEGER NOT NULL UNIQUE, kind INTEGER NOT NULL, life INTEGER NOT NULL, content_gen INTEGER NOT NULL, acl_gen INTEGER NOT NULL, lock_gen INTEGER NOT NULL, acl_read TEXT NOT NULL, acl_write TEXT NOT NULL, acl_change TEXT NOT NULL, content BLOB NOT NULL) STRICT",
        &[],
    )
}

fn make_sessions<S: Alter>(tx: &mut Transaction<'_, S>) -> Result<(), Error>
    ensures same { tx.new.conn.ghost_name ≡ tx.old.conn.ghost_name }
    ensures ok { HasCleanDisk (state S.Store tx.new.conn.now) → OnOk result (Makes with_nodes with_sessions (state S.Store tx.old.conn.now) (state S.Store tx.new.conn.now)) }
    ensures stays { StaysInside (state S.Store tx.old.conn.now) (state S.Store tx.new.conn.now) }
{
    run(
        tx,
        "CREATE TABLE sessions (client INTEGER NOT NULL PRIMARY KEY, principal TEXT NOT NULL, live INTEGER NOT NULL) STRICT",
        &[],
    )
}

fn make_locks<S: Alter>(tx: &mut Transaction<'_, S>) -> Result<(), Error>
    ensures same { tx.new.conn.ghost_name ≡ tx.old.conn.ghost_name }
    ensures ok { HasCleanDisk (state S.Store tx.new.conn.now) → OnOk result (Makes with_sessions first_schema (state S.Store tx.old.conn.now) (state S.Store tx.new.conn.now)) }
    ensures stays { StaysInside (state S.Store tx.old.conn.now) (state S.Store tx.new.conn.now) }
{
    run(
        tx,
        "CREATE TABLE locks (instance INTEGER NOT NULL REFERENCES nodes (instance) ON DELETE CASCADE, client INTEGER NOT NULL, handle INTEGER NOT NULL, mode INTEGER NOT NULL, delay INTEGER NOT NULL, PRIMARY KEY (instance, client, handle)) STRICT",
        &[],
    )
}

/// Makes the view of the children, if the four tables are there.
pub(crate) fn make_view<S: Alter>(tx: &mut Transaction<'_, S>) -> Result<(), Error>
    ensures same { tx.new.conn.ghost_name ≡ tx.old.conn.ghost_name }
    ensures ok { HasCleanDisk (state S.Store tx.new.conn.now) → OnOk result (Makes first_schema the_schema (state S.Store tx.old.conn.now) (state S.Store tx.new.conn.now)) }
    ensures adds { HasCleanDisk (state S.Store tx.new.conn.now) → OnOk result (AddsView (state S.Store tx.old.conn.now) (state S.Store tx.new.conn.now)) }
    ensures stays { StaysInside (state S.Store tx.old.conn.now) (state S.Store tx.new.conn.now) }
{
    run(
        tx,
        "CREATE VIEW children (parent, child) AS SELECT p.name, c.name FROM nodes AS p, nodes AS c WHERE c.name > p.name || '/' AND c.name < p.name || '0' AND length(c.name) - length(replace(c.name, '/', '')) = length(p.name) - length(replace(p.name, '/', '')) + 1",
        &[],
    )
}

fn make_meta_and_nodes<S: Alter>(tx: &mut Transaction<'_, S>) -> Result<(), Error>
    ensures same { tx.new.conn.ghost_name ≡ tx.old.conn.ghost_name }
    ensures ok { HasCleanDisk (state S.Store tx.new.conn.now) → OnOk result (Makes no_schema with_nodes (state S.Store tx.old.conn.now) (state S.Store tx.new.conn.now)) }
    ensures stays { StaysInside (state S.Store tx.old.conn.now) (state S.Store tx.new.conn.now) }
{
    make_meta(tx)?;
    make_nodes(tx)
}

fn make_sessions_and_locks<S: Alter>(tx: &mut Transaction<'_, S>) -> Result<(), Error>
    ensures same { tx.new.conn.ghost_name ≡ tx.old.conn.ghost_name }
    ensures ok { HasCleanDisk (state S.Store tx.new.conn.now) → OnOk result (Makes with_nodes first_schema (state S.Store tx.old.conn.now) (state S.Store tx.new.conn.now)) }
    ensures stays { StaysInside (state S.Store tx.old.conn.now) (state S.Store tx.new.conn.now) }
{
    make_sessions(tx)?;
    make_locks(tx)
}

fn make_four<S: Alter>(tx: &mut Transaction<'_, S>) -> Result<(), Error>
    ensures same { tx.new.conn.ghost_name ≡ tx.old.conn.ghost_name }
    ensures ok { HasCleanDisk (state S.Store tx.new.conn.now) → OnOk result (Makes no_schema first_schema (state S.Store tx.old.conn.now) (state S.Store tx.new.conn.now)) }
    ensures stays { StaysInside (state S.Store tx.old.conn.now) (state S.Store tx.new.conn.now) }
{
    make_meta_and_nodes(tx)?;
    make_sessions_and_locks(tx)
}

fn make_tables<S: Alter>(tx: &mut Transaction<'_, S>) -> Result<(), Error>
    ensures same { tx.new.conn.ghost_name ≡ tx.old.conn.ghost_name }
    ensures ok { HasCleanDisk (state S.Store tx.new.conn.now) → OnOk result (Makes no_schema the_schema (state S.Store tx.old.conn.now) (state S.Store tx.new.conn.now)) }
    ensures stays { StaysInside (state S.Store tx.old.conn.now) (state S.Store tx.new.conn.now) }
{
    make_four(tx)?;
    make_view(tx)
}

// Puts the row of the cell.
fn put_cell<S: Alter>(tx: &mut Transaction<'_, S>, settings: &Settings) -> Result<(), Error>
    ensures same { tx.new.conn.ghost_name ≡ tx.old.conn.ghost_name }
    ensures ok { HasCleanDisk (state S.Store tx.new.conn.now) → OnOk result (PutsCell settings.now (state S.Store tx.old.conn.now) (state S.Store tx.new.conn.now)) }
    ensures stays { StaysInside (state S.Store tx.old.conn.now) (state S.Store tx.new.conn.now) }
{
    let cell = settings.cell().as_str().as_bytes();
    let secret = settings.secret().as_bytes();
    run(
        tx,
        "INSERT INTO meta (id, version, cell, secret, epoch, next_instance) VALUES (1, 3, ?1, ?2, 0, 4) ON CONFLICT (id) DO UPDATE SET version = excluded.version, cell = excluded.cell, secret = excluded.secret, epoch = excluded.epoch, next_instance = excluded.next_instance",
        &[ValueRef::Text(cell), ValueRef::Blob(secret)],
    )
}

// Makes the tables, and puts the row of the cell.
fn make_bare<S: Alter>(tx: &mut Transaction<'_, S>, settings: &Settings) -> Result<(), Error>
    ensures same { tx.new.conn.ghost_name ≡ tx.old.conn.ghost_name }
    ensures ok { HasCleanDisk (state S.Store tx.new.conn.now) → OnOk result (MakesBare settings.now (state S.Store tx.old.conn.now) (state S.Store tx.new.conn.now)) }
    ensures stays { StaysInside (state S.Store tx.old.conn.now) (state S.Store tx.new.conn.now) }
{
    make_tables(tx)?;
    put_cell(tx, settings)
}

// Makes a new store.
fn fill<S: Alter>(
    tx: &mut Transaction<'_, S>,
    settings: &Settings,
    nodes: &[Edit],
) -> Result<(), Error>
    requires { nodes.now ≡ opening_edits settings.now }
    ensures same { tx.new.conn.ghost_name ≡ tx.old.conn.ghost_name }
    ensures ok { HasCleanDisk (state S.Store tx.new.conn.now) → OnOk result (Opens settings.now (state S.Store tx.old.conn.now) (state S.Store tx.new.conn.now)) }
    ensures stays { StaysInside (state S.Store tx.old.conn.now) (state S.Store tx.new.conn.now) }
{
    make_bare(tx, settings)?;
    edit_all(tx, nodes)
}

/// Makes the four tables and their view, and puts the rows of a new store, in one transaction, if the database has no table
/// yet. `nodes` puts the nodes of a new store.
pub fn make_store<S: Alter>(
    conn: &mut Connection<S>,
    settings: &Settings,
    nodes: &[Edit],
) -> Result<(), Error>
    requires idle { conn.old.in_transaction ≡ false }
    requires nodes { nodes.now ≡ opening_edits settings.now }
    ensures ended { conn.new.in_transaction ≡ false }
    ensures ok { HasCleanDisk (state S.Store conn.new) → OnOk result (IsMade settings.now (state S.Store conn.old) (state S.Store conn.new)) }
    ensures err { HasCleanDisk (state S.Store conn.new) → OnErr result (KeepsCommit (state S.Store conn.old) (state S.Store conn.new)) }
    ensures survives { Survives (state S.Store conn.old) (state S.Store conn.new) (MayOpen settings.now (state S.Store conn.old)) }
{
    let mut tx = conn.transaction();
    fill(&mut tx, settings, nodes)?;
    tx.commit()
}
