//! The store that the bytes of files hold.
ghost use Rattle.std.specs.Prelude.{◌≡◌, ◌⊎◌, true, false, Err, IfOk, IsTrue};
ghost use Rattle.sqlite_disk.specs.Memory.{memory_bytes, memory_is_usable};
ghost use Rattle.sqlite.specs.Files.{image_of, tally_left};
ghost use Rattle.rows_cell.specs.Counts.{counts_of};
ghost use Rattle.rows_cell.specs.Sound.{sound};
ghost use Rattle.rows_cell.specs.declared.tables.Rows.{Rows as Held};
ghost use Rattle.rows_sql.specs.Found.{FindsRows, HoldsRows, IsAlwaysClean};

use crate::reading::inspect;
use names_cell::Component;
use rows_cell::{Counts, StoreFault};
use sqlite::{Connection, Error, ErrorCode, Files, Leftover, Options};
use sqlite_disk::{Disk, Memory, Tally};
use std::alloc::Global;
use std::io;

/// Of the digests by which what was read once is known again.
const SEED: u64 = 7;

/// Tests the store that the bytes of a database file and its log hold, by the name of its cell, and counts what it holds.
/// The database is opened in memory over a copy of them, so nothing is written. A log or a file of no bytes is one that
/// isn't there, and two of them are an empty database, which is no store.
pub fn inspect_file(
    alloc: Global,
    database: &[u8],
    log: &[u8],
    cell: &Component,
) -> Result<Counts, StoreFault>
    ensures sound { IfOk result (λ counts. (rows : Held) × FindsRows (record { log = log.now; db = database.now }) rows × (sound cell.now rows ≡ true) × (counts ≡ counts_of rows)) }
    ensures damaged { result ≡ Err StoreFault.Damaged → (rows : Held) → HoldsRows (record { log = log.now; db = database.now }) rows → sound cell.now rows ≡ false }
    ensures counted { result ≡ Err StoreFault.Exhausted → ⊥ }
{
    let files = in_memory(alloc, database, log)?;
    inspect_files(alloc, files, cell)
}

// A database file and its log, in memory.
fn in_memory(alloc: Global, database: &[u8], log: &[u8]) -> Result<Files<Memory>, StoreFault>
    ensures log { IfOk result (λ files. IsTrue (memory_is_usable files.log) × (memory_bytes files.log ≡ log.now)) }
    ensures db { IfOk result (λ files. IsTrue (memory_is_usable files.db) × (memory_bytes files.db ≡ database.now)) }
    ensures only { (result ≡ Err StoreFault.Damaged → ⊥) × (result ≡ Err StoreFault.Exhausted → ⊥) }
{
    Ok(Files {
        log: copy_of(alloc, log)?,
        db: copy_of(alloc, database)?,
    })
}

fn copy_of(alloc: Global, bytes: &[u8]) -> Result<Memory, StoreFault>
    ensures copied { IfOk result (λ file. IsTrue (memory_is_usable file) × (memory_bytes file ≡ bytes.now)) }
    ensures only { (result ≡ Err StoreFault.Damaged → ⊥) × (result ≡ Err StoreFault.Exhausted → ⊥) }
{
    let mut file = Memory::new(alloc);
    match file.write_at(0, bytes) {
        Ok(()) => Ok(file),
        Err(_) => Err(StoreFault::NoMemory),
    }
}

// Tests the store that two files hold.
fn inspect_files<D: Disk + Drop>(
    alloc: Global,
    files: Files<D>,
    cell: &Component,
) -> Result<Counts, StoreFault>
    requires log { IsTrue (D.Disk.is_usable files.log) }
    requires db { IsTrue (D.Disk.is_usable files.db) }
    ensures sound { IsAlwaysClean D.Disk → IfOk result (λ counts. (rows : Held) × FindsRows (image_of D.Disk files) rows × (sound cell.now rows ≡ true) × (counts ≡ counts_of rows)) }
    ensures damaged { IsAlwaysClean D.Disk → result ≡ Err StoreFault.Damaged → (rows : Held) → HoldsRows (image_of D.Disk files) rows → sound cell.now rows ≡ false }
    ensures counted { result ≡ Err StoreFault.Exhausted → ⊥ }
{
    let before = files.tally();
    match Connection::open_files(alloc, files, Options::new(SEED)) {
        Ok(mut conn) => inspect(alloc, &mut conn, cell),
        Err((error, left)) => Err(open_fault(before, &error, left)),
    }
}

// Why a database isn't opened: it is none, or it can't be read, as where a read failed its test.
fn open_fault<D: Disk + Drop>(before: Tally, error: &Error, left: Leftover<D>) -> StoreFault
    ensures none { result ≡ StoreFault.Damaged → (error.now ≡ Error.SqliteFailure ErrorCode.NotADatabase)
        ⊎ ((error.now ≡ Error.SqliteFailure ErrorCode.DatabaseCorrupt) × ((tally_left left).caught ≡ before.caught)) }
    ensures counted { result ≡ StoreFault.Exhausted → ⊥ }
{
    let caught = caught_by(left);
    match error {
        Error::SqliteFailure(ErrorCode::OutOfMemory) => StoreFault::NoMemory,
        Error::SqliteFailure(ErrorCode::NotADatabase) => StoreFault::Damaged,
        Error::SqliteFailure(ErrorCode::DatabaseCorrupt) if caught == before.caught =>
            StoreFault::Damaged,
        _ => StoreFault::Refused,
    }
}

// How many reads of the files failed their test.
fn caught_by<D: Disk + Drop>(left: Leftover<D>) -> u64
    ensures { result ≡ (tally_left left).caught }
{
    let files = left.into_files();
    files.tally().caught
}
