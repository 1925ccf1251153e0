//! A look at a store: whose it is, and what in it is no store's.
ghost use Rattle.std.specs.Prelude.{◌≡◌, IfOk, IsTrue};
ghost use Rattle.sqlite_disk.specs.Memory.{memory_bytes, memory_is_usable};

use rows_sql::version_of;
use sqlite::{Alter, Connection, Error, ErrorCode, FileStore, Files, Options};
use sqlite_disk::{Disk, Memory};
use sqlite_schema::schema::{Column, Schema, Table};
use std::alloc::{AllocError, Global};

/// Of the digests by which what was read once is known again.
const SEED: u64 = 7;

/// The tables of a store, each with its columns.
const TABLES: &[(&[u8], &[&[u8]])] = &[
    (
        b"meta",
        &[
            b"id",
            b"version",
            b"cell",
            b"secret",
            b"epoch",
            b"next_instance",
        ],
    ),
    (
        b"nodes",
        &[
            b"name",
            b"instance",
            b"kind",
            b"life",
            b"content_gen",
            b"acl_gen",
            b"lock_gen",
            b"acl_read",
            b"acl_write",
            b"acl_change",
            b"content",
        ],
    ),
    (b"sessions", &[b"client", b"principal", b"live"]),
    (
        b"locks",
        &[b"instance", b"client", b"handle", b"mode", b"delay"],
    ),
    (b"children", &[b"parent", b"child"]),
];

/// What in a database is no store's.
#[derive(Drop)]
pub(crate) enum Foreign {
    /// There is no table.
    Empty,
    /// A table of this name.
    Table(String),
    /// A table with a column: their names.
    Column(String, String),
    /// A table isn't there, or something else is otherwise.
    Otherwise,
}

/// The name of the cell, where the database is a store.
pub(crate) fn cell_in<S: Alter>(alloc: Global, conn: &mut Connection<S>) -> Option<String> {
    if !is_store(alloc, conn) {
        return None;
    }
    let row = conn.query_row("SELECT cell FROM meta", &[]).ok()?;
    row.get(0).ok()
}

fn is_store<S: Alter>(alloc: Global, conn: &Connection<S>) -> bool {
    match version_of(alloc, conn.schema()) {
        Ok(version) => version.is_some(),
        Err(_) => false,
    }
}

/// What in a database is no store's; nothing where its tables are those of one.
pub(crate) fn foreign_in<S: Alter>(
    alloc: Global,
    conn: &Connection<S>,
) -> Result<Option<Foreign>, AllocError> {
    let schema = conn.schema();
    if version_of(alloc, schema)?.is_some() {
        return Ok(None);
    }
    Ok(Some(first_foreign(alloc, schema)?))
}

fn first_foreign(alloc: Global, schema: &Schema) -> Result<Foreign, AllocError> {
    if schema.tables.len() == 0 {
        return Ok(Foreign::Empty);
    }
    for table in schema.tables.as_slice() {
        if let Some(foreign) = foreign_table(alloc, table)? {
            return Ok(foreign);
        }
    }
    Ok(Foreign::Otherwise)
}

fn foreign_table(alloc: Global, table: &Table) -> Result<Option<Foreign>, AllocError> {
    let name = table.name.as_slice();
    let Some(columns) = columns_of(name) else {
        return Ok(Some(Foreign::Table(String::from_utf8_lossy(alloc, name)?)));
    };
    match foreign_column(columns, table.columns.as_slice()) {
        Some(column) => Ok(Some(Foreign::Column(
            String::from_utf8_lossy(alloc, name)?,
            String::from_utf8_lossy(alloc, column)?,
        ))),
        None => Ok(None),
    }
}

// The columns of the table of a store that has this name.
fn columns_of(name: &[u8]) -> Option<&'static [&'static [u8]]> {
    for (table, columns) in TABLES {
        if *table == name {
            return Some(*columns);
        }
    }
    None
}

// The first column that isn't one of these.
fn foreign_column<'a>(ours: &[&[u8]], columns: &'a [Column]) -> Option<&'a [u8]> {
    for column in columns {
        let name = column.name.as_slice();
        if !ours.iter().any(|known| *known == name) {
            return Some(name);
        }
    }
    None
}

/// Opens the database that the bytes of a file and its log hold, in memory.
pub(crate) fn open_bytes(
    alloc: Global,
    database: &[u8],
    log: &[u8],
) -> Result<Connection<FileStore<Memory>>, Error> {
    let files = Files {
        log: copy_of(alloc, log)?,
        db: copy_of(alloc, database)?,
    };
    match Connection::open_files(alloc, files, Options::new(SEED)) {
        Ok(conn) => Ok(conn),
        Err((error, left)) => {
            drop(left);
            Err(error)
        }
    }
}

fn copy_of(alloc: Global, bytes: &[u8]) -> Result<Memory, Error>
    ensures copied { IfOk result (λ file. IsTrue (memory_is_usable file) × (memory_bytes file ≡ bytes.now)) }
{
    let mut file = Memory::new(alloc);
    match file.write_at(0, bytes) {
        Ok(()) => Ok(file),
        Err(_) => Err(Error::SqliteFailure(ErrorCode::OutOfMemory)),
    }
}
