//! Why a store is refused, found once it is: the file is read as bytes, and nothing is written.
ghost use Rattle.cellctl.specs.Exits.{IsExit, IsShut};

use crate::check::has_journal;
use crate::looks::{Foreign, cell_in, foreign_in, open_bytes};
use crate::texts::{FOREIGN, OTHER_CELL, Trouble};
use crate::troubles::{TroubleSubject, tell, trouble_of};
use names_cell::Component;
use sqlite::{Error, ErrorCode};
use std::alloc::{AllocError, Global};
use std::fs;
use std::fs::OpenOptions;

/// What a SQLite database begins with.
const HEAD: &[u8] = b"SQLite format 3\0";

/// What is wrong with a store.
#[derive(Drop)]
pub(crate) enum Finding {
    Plain(Trouble),
    Foreign(Foreign),
    /// It is that of the cell of this name.
    OtherCell(String),
}

impl From<AllocError> for Finding {
    fn from(_e: AllocError) -> Finding {
        Finding::Plain(Trouble::NoMemory)
    }
}

/// Tells why the store at a path is refused, and answers the exit status.
pub(crate) fn tell_finding(rt: &HostRuntime, cell: &Component, path: &str, finding: &Finding) -> u8
    ensures exit { IsExit result }
    ensures shut { IsShut result }
{
    match finding {
        Finding::Plain(trouble) => tell(rt, TroubleSubject::Store, path, *trouble),
        Finding::OtherCell(theirs) => tell_other_cell(rt, cell, path, theirs.as_str()),
        Finding::Foreign(foreign) => tell_foreign(rt, path, foreign),
    }
}

/// Tells of the store of another cell, by both names.
pub(crate) fn tell_other_cell(rt: &HostRuntime, cell: &Component, path: &str, theirs: &str) -> u8
    ensures exit { IsExit result }
    ensures shut { IsShut result }
{
    let (words, cure) = OTHER_CELL;
    let ours = cell.as_str();
    let _ = eprintln!(rt; "cellctl: the store {path}: {words} {theirs:?}, and not of {ours:?}");
    let _ = eprintln!(rt; "  status 3: {cure}");
    3
}

fn tell_foreign(rt: &HostRuntime, path: &str, foreign: &Foreign) -> u8
    ensures exit { IsExit result }
    ensures shut { IsShut result }
{
    match foreign {
        Foreign::Empty => tell(rt, TroubleSubject::Store, path, Trouble::NoTable),
        Foreign::Otherwise => tell(rt, TroubleSubject::Store, path, Trouble::OtherTables),
        Foreign::Table(table) => {
            let _ = eprintln!(rt;
                "cellctl: the store {path}: it has the table {table:?}, which no store has"
            );
            let _ = eprintln!(rt; "  status 3: {FOREIGN}");
            3
        }
        Foreign::Column(table, column) => {
            let _ = eprintln!(rt;
                "cellctl: the store {path}: its table {table:?} has the column {column:?}, which no store has"
            );
            let _ = eprintln!(rt; "  status 3: {FOREIGN}");
            3
        }
    }
}

/// What is wrong with the store of a cell at a path, of which it is known that something is.
pub(crate) fn find(rt: &HostRuntime, cell: &Component, path: &str) -> Finding {
    match fs::canonicalize(rt, path) {
        Ok(real) => match looked_at(rt, cell, real.as_str()) {
            Ok(finding) => finding,
            Err(finding) => finding,
        },
        Err(error) => Finding::Plain(trouble_of(error.kind())),
    }
}

fn looked_at(rt: &HostRuntime, cell: &Component, path: &str) -> Result<Finding, Finding> {
    let alloc = rt.alloc();
    let database = bytes_of(rt, path)?;
    let journal = format!(in alloc; "{path}-journal")?;
    if has_journal(rt, journal.as_str()).unwrap_or_default() {
        return Ok(Finding::Plain(Trouble::Journal));
    }
    let log = format!(in alloc; "{path}-wal")?;
    let log = log_of(rt, log.as_str())?;
    Ok(found_in(alloc, cell, database.as_slice(), log.as_slice()))
}

fn bytes_of(rt: &HostRuntime, path: &str) -> Result<Vec<u8>, Finding> {
    match fs::read(rt, path) {
        Ok(bytes) => Ok(bytes),
        Err(error) => Err(Finding::Plain(trouble_of(error.kind()))),
    }
}

// A log that isn't there has no bytes.
fn log_of(rt: &HostRuntime, path: &str) -> Result<Vec<u8>, Finding> {
    match fs::read(rt, path) {
        Ok(bytes) => Ok(bytes),
        Err(error) => match trouble_of(error.kind()) {
            Trouble::Missing => Ok(Vec::new(rt.alloc())),
            trouble => Err(Finding::Plain(trouble)),
        },
    }
}

fn found_in(alloc: Global, cell: &Component, database: &[u8], log: &[u8]) -> Finding {
    match open_bytes(alloc, database, log) {
        Ok(mut conn) => match foreign_in(alloc, &conn) {
            Ok(Some(foreign)) => Finding::Foreign(foreign),
            Ok(None) => whose(cell, cell_in(alloc, &mut conn)),
            Err(_) => Finding::Plain(Trouble::NoMemory),
        },
        Err(error) => Finding::Plain(content_trouble(database, &error)),
    }
}

// The tables are those of a store: it is another cell's, or a row breaks a rule.
fn whose(cell: &Component, theirs: Option<String>) -> Finding {
    let Some(theirs) = theirs else {
        return Finding::Plain(Trouble::DamagedRow);
    };
    if theirs.as_str() == cell.as_str() {
        return Finding::Plain(Trouble::DamagedRow);
    }
    Finding::OtherCell(theirs)
}

// Why bytes aren't opened as a database.
fn content_trouble(database: &[u8], error: &Error) -> Trouble {
    if matches!(error, Error::SqliteFailure(ErrorCode::OutOfMemory)) {
        return Trouble::NoMemory;
    }
    if database.starts_with(HEAD) {
        return Trouble::Malformed;
    }
    Trouble::NotSqlite
}

/// What is wrong where the store at a path can't be opened, by the database's error.
pub(crate) fn find_unopened(
    rt: &HostRuntime,
    cell: &Component,
    path: &str,
    error: &Error,
) -> Finding {
    match error {
        Error::SqliteFailure(ErrorCode::OutOfMemory) => Finding::Plain(Trouble::NoMemory),
        Error::SqliteFailure(ErrorCode::DatabaseBusy) => Finding::Plain(Trouble::Busy),
        Error::SqliteFailure(ErrorCode::DiskFull) => Finding::Plain(Trouble::Full),
        Error::SqliteFailure(ErrorCode::CannotOpen) => find_shut(rt, cell, path),
        _ => find(rt, cell, path),
    }
}

// What the system says where the file is opened as a run does it. Where it opens, something else is wrong with it.
fn find_shut(rt: &HostRuntime, cell: &Component, path: &str) -> Finding {
    match OpenOptions::new().read(true).write(true).open(rt, path) {
        Ok(file) => {
            drop(file);
            find(rt, cell, path)
        }
        Err(error) => match trouble_of(error.kind()) {
            Trouble::Missing => Finding::Plain(Trouble::NoFolder),
            trouble => Finding::Plain(trouble),
        },
    }
}
