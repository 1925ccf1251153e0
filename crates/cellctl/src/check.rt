//! The test of a store.
ghost use Rattle.std.specs.Prelude.{◌≡◌, IfOk};
ghost use Rattle.std.specs.Io.KnownBytes.{Appends};
ghost use Rattle.cellctl.specs.Exits.{IsExit};
ghost use Rattle.cellctl.specs.Tested.{status_of, verdict_line, TestsRead, ReportsRead, ReportsSome};

use crate::exits::tell_unwritten;
use crate::findings::{find, tell_finding};
use anyhow::{Result, bail};
use names_cell::Component;
use rows_cell::{Counts, StoreFault};
use rows_sql::{inspect_file, verdict};
use std::alloc::Global;
use std::fs;
use std::io::{self, Write};
use std::marker::Model;

/// The bytes of the files of a store: the database and the log beside it, which has none where it isn't there.
#[derive(Drop)]
struct StoreBytes {
    log: Vec<u8>,
    db: Vec<u8>,
}

impl Model for StoreBytes {
    ghost use Rattle.sqlite_wal.specs.Recovery.{Image};

    ghost Value = { Image };

    ghost view = { λ b. record { log = b.log.items; db = b.db.items } };
}

/// Tests the store at a path by the name of a cell, prints what is found, and answers the exit status: 0 where it is sound,
/// 3 where it is refused, 1 where that can't be written. Why it is refused goes to the standard error.
pub(crate) fn check_store<W: Write>(
    rt: &HostRuntime,
    cell: &Component,
    path: &str,
    output: &mut W,
) -> Result<u8>
    ensures exit { IfOk result IsExit }
    ensures tested { IfOk result (λ status. ReportsSome cell.now status (W.contents output.old) (W.contents output.new)) }
{
    let read = read_store(rt, path);
    report(rt, cell, path, &read, output)
}

// Tests a store that was read, or says why it wasn't, and answers the status.
fn report<W: Write>(
    rt: &HostRuntime,
    cell: &Component,
    path: &str,
    read: &Result<StoreBytes, StoreFault>,
    output: &mut W,
) -> Result<u8>
    ensures exit { IfOk result IsExit }
    ensures tested { IfOk result (λ status. ReportsRead cell.now read.now status (W.contents output.old) (W.contents output.new)) }
{
    let tested = tested(rt.alloc(), cell, read);
    if tested_status(&tested) == 4 {
        bail!("out of memory");
    }
    match tell_tested(rt.alloc(), &tested, output) {
        Ok(status) => {
            if status != 0 {
                let _ = tell_finding(rt, cell, path, &find(rt, cell, path));
            }
            Ok(status)
        }
        Err(error) => Ok(tell_unwritten(rt, &error)),
    }
}

// Writes the verdict on a store that was tested, a line, and answers the status.
fn tell_tested<W: Write>(
    alloc: Global,
    tested: &Result<Counts, StoreFault>,
    output: &mut W,
) -> io::Result<u8>
    ensures status { IfOk result (λ status. status ≡ status_of tested.now) }
    ensures exit { IfOk result IsExit }
    ensures line { IfOk result (λ status. Appends (W.contents output.old) (W.contents output.new) (verdict_line tested.now)) }
{
    let line = verdict(alloc, tested)?;
    writeln!(output, "{line}")?;
    Ok(tested_status(tested))
}

fn tested_status(tested: &Result<Counts, StoreFault>) -> u8
    ensures exit { IsExit result }
    ensures status { result ≡ status_of tested.now }
{
    match tested {
        Ok(_) => 0,
        Err(StoreFault::NoMemory) => 4,
        Err(_) => 3,
    }
}

// By the bytes that were read: the database is opened in memory, and nothing is written.
fn tested(
    alloc: Global,
    cell: &Component,
    read: &Result<StoreBytes, StoreFault>,
) -> Result<Counts, StoreFault>
    ensures { TestsRead cell.now read.now result }
{
    match read {
        Ok(bytes) => inspect_file(alloc, bytes.db.as_slice(), bytes.log.as_slice(), cell),
        Err(fault) => Err(*fault),
    }
}

// The files lie where a link leads, as for a run.
fn read_store(rt: &HostRuntime, path: &str) -> Result<StoreBytes, StoreFault> {
    match fs::canonicalize(rt, path) {
        Ok(real) => read_at(rt, real.as_str()),
        Err(error) => Err(unread_fault(error.kind())),
    }
}

// The file and what stands beside it.
fn read_at(rt: &HostRuntime, path: &str) -> Result<StoreBytes, StoreFault> {
    let alloc = rt.alloc();
    let Some(db) = read(rt, path)? else {
        return Err(StoreFault::Damaged);
    };
    if has_journal(rt, format!(in alloc; "{path}-journal")?.as_str())? {
        return Err(StoreFault::Refused);
    }
    let log = read_log(rt, format!(in alloc; "{path}-wal")?.as_str())?;
    Ok(StoreBytes { log, db })
}

// The bytes of a file; none where there is no such file.
fn read(rt: &HostRuntime, path: &str) -> Result<Option<Vec<u8>>, StoreFault> {
    match fs::read(rt, path) {
        Ok(bytes) => Ok(Some(bytes)),
        Err(error) => match unread_fault(error.kind()) {
            StoreFault::Damaged => Ok(None),
            fault => Err(fault),
        },
    }
}

// What is said of a file that can't be read: one that isn't there is no store.
fn unread_fault(kind: io::ErrorKind) -> StoreFault {
    match kind {
        io::ErrorKind::NotFound => StoreFault::Damaged,
        io::ErrorKind::OutOfMemory => StoreFault::NoMemory,
        _ => StoreFault::Refused,
    }
}

fn read_log(rt: &HostRuntime, path: &str) -> Result<Vec<u8>, StoreFault> {
    match read(rt, path)? {
        Some(bytes) => Ok(bytes),
        None => Ok(Vec::new(rt.alloc())),
    }
}

/// Whether SQLite left a journal, by which it alone can take back what it had begun.
pub(crate) fn has_journal(rt: &HostRuntime, path: &str) -> Result<bool, StoreFault> {
    match read(rt, path)? {
        Some(bytes) => Ok(bytes.first().is_some_and(|byte| *byte != 0)),
        None => Ok(false),
    }
}
