//! Stores in files that are kept in memory, and their records.
use crate::troubles::Trouble;
use names_cell::Component;
use rows_cell::Settings;
use rows_sql::{SqlRecords, inspect, inspect_file, verdict};
use sqlite::{Alter, Connection, FileStore, Files, MemStore, Options};
use sqlite_disk::{Disk as _, Fuse, Memory};
use std::alloc::Global;

/// A file in memory that stops behind so many calls.
pub(crate) type Disk = Fuse<Memory>;

pub(crate) type Store = FileStore<Disk>;

// A short log, so that it is copied into the database file within steps too, and a small cache, so that files are opened quickly.
fn options() -> Options {
    Options {
        cache_pages: 64,
        checkpoint_frames: 16,
        ..Options::new(7)
    }
}

fn disk(alloc: Global, bytes: &[u8], calls: u64) -> Result<Disk, Trouble> {
    let mut memory = Memory::new(alloc);
    memory.write_at(0, bytes).map_err(|_| Trouble::NoMemory)?;
    Ok(Fuse::new(memory, calls))
}

/// A database file with these bytes and a log with these, which stop behind so many calls.
pub(crate) fn files_of(
    alloc: Global,
    db: (&[u8], u64),
    log: (&[u8], u64),
) -> Result<Files<Disk>, Trouble> {
    Ok(Files {
        log: disk(alloc, log.0, log.1)?,
        db: disk(alloc, db.0, db.1)?,
    })
}

/// No file.
pub(crate) fn no_files(alloc: Global) -> Files<Disk> {
    Files {
        log: Fuse::new(Memory::new(alloc), u64::MAX),
        db: Fuse::new(Memory::new(alloc), u64::MAX),
    }
}

/// Opens files, or gives them back.
pub(crate) fn opened(alloc: Global, files: Files<Disk>) -> Result<Connection<Store>, Files<Disk>> {
    if !files.log.may_be_used() || !files.db.may_be_used() {
        return Err(files);
    }
    match Connection::open_files(alloc, files, options()) {
        Ok(conn) => Ok(conn),
        Err((_error, left)) => Err(left.into_files()),
    }
}

pub(crate) fn connection(alloc: Global, files: Files<Disk>) -> Result<Connection<Store>, Trouble> {
    opened(alloc, files)
        .ok()
        .ok_or(Trouble::Said("its files can't be opened"))
}

pub(crate) fn closed(conn: Connection<Store>) -> Result<Files<Disk>, Trouble> {
    conn.close_files()
        .ok()
        .ok_or(Trouble::Said("its files can't be closed"))
}

/// The records of a store in files; of empty ones, a new store's.
pub(crate) fn file_records(
    alloc: Global,
    settings: &Settings,
    files: Files<Disk>,
) -> Result<SqlRecords<Store>, Trouble> {
    let conn = connection(alloc, files)?;
    SqlRecords::adopt(alloc, conn, settings)
        .ok()
        .ok_or(Trouble::Said("its store isn't taken over"))
}

/// The records of a new store in memory.
pub(crate) fn sql_records(
    alloc: Global,
    settings: &Settings,
) -> Result<SqlRecords<MemStore>, Trouble> {
    let conn = Connection::open_in_memory(alloc)?;
    SqlRecords::adopt(alloc, conn, settings)
        .ok()
        .ok_or(Trouble::Said("a new store isn't made"))
}

fn cell(alloc: Global) -> Result<Component, Trouble> {
    Component::parse(alloc, "c").map_err(|_| Trouble::NoMemory)
}

/// What a test says of the bytes of a database file and its log.
pub(crate) fn inspected(alloc: Global, db: &[u8], log: &[u8]) -> Result<String, Trouble> {
    let cell = cell(alloc)?;
    let tested = inspect_file(alloc, db, log, &cell);
    Ok(verdict(alloc, &tested)?)
}

/// What a test says of the store of a connection.
pub(crate) fn found<S: Alter + Drop>(
    alloc: Global,
    conn: &mut Connection<S>,
) -> Result<String, Trouble> {
    let cell = cell(alloc)?;
    let tested = inspect(alloc, conn, &cell);
    Ok(verdict(alloc, &tested)?)
}

/// What a test says of the store in files, which are copied: so they are read by a connection that needs little memory.
pub(crate) fn found_in(alloc: Global, files: &Files<Disk>) -> Result<String, Trouble> {
    let (db, log) = (files.db.inner().bytes(), files.log.inner().bytes());
    let files = files_of(alloc, (db, u64::MAX), (log, u64::MAX))?;
    match opened(alloc, files) {
        Ok(mut conn) => {
            let line = found(alloc, &mut conn);
            drop(conn);
            line
        }
        Err(files) => {
            drop(files);
            Ok(String::from_str(alloc, "no files of a database")?)
        }
    }
}
