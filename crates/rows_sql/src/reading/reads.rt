//! Reading the tables.
ghost use Rattle.std.specs.Prelude.{[], map, IfOk, OnOk, IsPermutation, IsTrue};
ghost use Rattle.sqlite.specs.Listing.{understood};
ghost use Rattle.sqlite.specs.Given.{IsPlain};
ghost use Rattle.sqlite.specs.State.{HasCleanDisk, Shown};
ghost use Rattle.sqlite.specs.Held.{state};
ghost use Rattle.rows_sql.specs.Versions.{schema_of};
ghost use Rattle.rows_sql.specs.declared.schema.ours.Version.{Version as Which};
ghost use Rattle.rows_sql.specs.Raws.{shown};
ghost use Rattle.rows_sql.specs.Ready.{IsReady, IsStill, Quiet, IsReadyAs, IsStillAs, QuietAs, AreOf, tables_as, meta_shown, node_shown, session_shown, lock_shown, children_shown};

use crate::schema::Version;
use sqlite::{Alter, Connection, Error, Row};
use std::alloc::Global;

/// The rows of the tables, as they were read; of children only in a store of the second version.
#[derive(Drop)]
pub(crate) struct Raw {
    pub metas: Vec<Row>,
    pub nodes: Vec<Row>,
    pub sessions: Vec<Row>,
    pub locks: Vec<Row>,
    pub children: Vec<Row>,
}

// Runs one of the reads.
fn read_all<S: Alter>(conn: &mut Connection<S>, sql: &str) -> Result<Vec<Row>, Error>
    ensures shown { HasCleanDisk (state S.Store conn.new) → IfOk result (λ rows. Shown sql.now [] (state S.Store conn.old) (state S.Store conn.new) rows.items) }
    ensures quiet { (version : Which) → IsPlain (understood (schema_of version) sql.now) → QuietAs version S.Store conn.old conn.new }
    ensures ready { (version : Which) → IsPlain (understood (schema_of version) sql.now) → HasCleanDisk (state S.Store conn.new) → IsReadyAs version (state S.Store conn.old) → OnOk result (IsStillAs version (state S.Store conn.old) (state S.Store conn.new)) }
{
    conn.query_all(sql, &[])
}

fn read_metas<S: Alter>(conn: &mut Connection<S>) -> Result<Vec<Row>, Error>
    ensures shown { (version : Which) → HasCleanDisk (state S.Store conn.new) → IsReadyAs version (state S.Store conn.old) → IfOk result (λ rows. IsPermutation (map meta_shown ((state S.Store conn.old).now.trees 0)) rows.items) }
    ensures quiet { (version : Which) → QuietAs version S.Store conn.old conn.new }
    ensures ready { (version : Which) → HasCleanDisk (state S.Store conn.new) → IsReadyAs version (state S.Store conn.old) → OnOk result (IsStillAs version (state S.Store conn.old) (state S.Store conn.new)) }
{
    read_all(
        conn,
        "SELECT id, version, cell, secret, epoch, next_instance FROM meta ORDER BY id",
    )
}

/// Whether a database can be read: one plain read, of the table with the row of the cell.
pub fn can_read<S: Alter>(conn: &mut Connection<S>) -> bool
    ensures quiet { Quiet S.Store conn.old conn.new }
    ensures ready { HasCleanDisk (state S.Store conn.new) → IsReady (state S.Store conn.old) → IsTrue result → IsStill (state S.Store conn.old) (state S.Store conn.new) }
{
    read_metas(conn).is_ok()
}

fn read_nodes<S: Alter>(conn: &mut Connection<S>) -> Result<Vec<Row>, Error>
    ensures shown { (version : Which) → HasCleanDisk (state S.Store conn.new) → IsReadyAs version (state S.Store conn.old) → IfOk result (λ rows. IsPermutation (map node_shown ((state S.Store conn.old).now.trees 1)) rows.items) }
    ensures quiet { (version : Which) → QuietAs version S.Store conn.old conn.new }
    ensures ready { (version : Which) → HasCleanDisk (state S.Store conn.new) → IsReadyAs version (state S.Store conn.old) → OnOk result (IsStillAs version (state S.Store conn.old) (state S.Store conn.new)) }
{
    read_all(
        conn,
        "SELECT name, instance, kind, life, content_gen, acl_gen, lock_gen, acl_read, acl_write, acl_change, content FROM nodes ORDER BY name",
    )
}

fn read_sessions<S: Alter>(conn: &mut Connection<S>) -> Result<Vec<Row>, Error>
    ensures shown { (version : Which) → HasCleanDisk (state S.Store conn.new) → IsReadyAs version (state S.Store conn.old) → IfOk result (λ rows. IsPermutation (map session_shown ((state S.Store conn.old).now.trees 4)) rows.items) }
    ensures quiet { (version : Which) → QuietAs version S.Store conn.old conn.new }
    ensures ready { (version : Which) → HasCleanDisk (state S.Store conn.new) → IsReadyAs version (state S.Store conn.old) → OnOk result (IsStillAs version (state S.Store conn.old) (state S.Store conn.new)) }
{
    read_all(
        conn,
        "SELECT client, principal, live FROM sessions ORDER BY client",
    )
}

fn read_locks<S: Alter>(conn: &mut Connection<S>) -> Result<Vec<Row>, Error>
    ensures shown { (version : Which) → HasCleanDisk (state S.Store conn.new) → IsReadyAs version (state S.Store conn.old) → IfOk result (λ rows. IsPermutation (map lock_shown ((state S.Store conn.old).now.trees 5)) rows.items) }
    ensures quiet { (version : Which) → QuietAs version S.Store conn.old conn.new }
    ensures ready { (version : Which) → HasCleanDisk (state S.Store conn.new) → IsReadyAs version (state S.Store conn.old) → OnOk result (IsStillAs version (state S.Store conn.old) (state S.Store conn.new)) }
{
    read_all(
        conn,
        "SELECT instance, client, handle, mode, delay FROM locks ORDER BY instance, client, handle",
    )
}

// Reads the children, where there is a table of them.
fn read_children<S: Alter>(
    alloc: Global,
    conn: &mut Connection<S>,
    version: Version,
) -> Result<Vec<Row>, Error>
    ensures shown { HasCleanDisk (state S.Store conn.new) → IsReadyAs version (state S.Store conn.old) → IfOk result (λ rows. IsPermutation (children_shown version (state S.Store conn.old).now.trees) rows.items) }
    ensures quiet { QuietAs version S.Store conn.old conn.new }
    ensures ready { HasCleanDisk (state S.Store conn.new) → IsReadyAs version (state S.Store conn.old) → IsTrue (state S.Store conn.old).is_open → OnOk result (IsStillAs version (state S.Store conn.old) (state S.Store conn.new)) }
{
    match version {
        Version::First => Ok(Vec::new(alloc)),
        Version::Third => Ok(Vec::new(alloc)),
        Version::Unindexed | Version::Second => read_all(
            conn,
            "SELECT parent, child FROM children ORDER BY parent, child",
        ),
    }
}

/// Reads the tables.
pub(crate) fn read_tables<S: Alter>(
    alloc: Global,
    conn: &mut Connection<S>,
    version: Version,
) -> Result<Raw, Error>
    ensures shown { HasCleanDisk (state S.Store conn.new) → IsReadyAs version (state S.Store conn.old) → IfOk result (λ raw. AreOf (tables_as version (state S.Store conn.old).now.trees) (shown raw)) }
    ensures quiet { QuietAs version S.Store conn.old conn.new }
    ensures ready { HasCleanDisk (state S.Store conn.new) → IsReadyAs version (state S.Store conn.old) → OnOk result (IsStillAs version (state S.Store conn.old) (state S.Store conn.new)) }
{
    let metas = read_metas(conn)?;
    let nodes = read_nodes(conn)?;
    let sessions = read_sessions(conn)?;
    let locks = read_locks(conn)?;
    let children = read_children(alloc, conn, version)?;
    Ok(Raw {
        metas,
        nodes,
        sessions,
        locks,
        children,
    })
}
