//! The store that a script runs over.
ghost use Rattle.std.specs.Prelude.{◌≡◌, None, IfOk, OnErr};
ghost use Rattle.rows_cell.specs.Settings.{terms_of};
ghost use Rattle.sqlite_wal.specs.Files.{image_at};
ghost use Rattle.cellctl.specs.Anew.{EndsAnew, EndsRun};
ghost use Rattle.cellctl.specs.Exits.{IsExit, IsShut};
ghost use Rattle.cellctl.specs.Led.{EndsScript};
ghost use Rattle.cellctl.specs.Taken.{IsTakenFrom};

use crate::admission::make_file;
use crate::bad_lines::tell_bad;
use crate::exits::tell_unwritten;
use crate::findings::{find, find_unopened, tell_finding};
use crate::lines::LineReader;
use crate::refusals::Output;
use crate::runs::{Script, Unclosed, run_new, run_path};
use crate::settings::Chosen;
use crate::texts::Trouble;
use crate::troubles::{TroubleSubject, tell, trouble_of};
use anyhow::{Context, Result};
use rows_cell::StoreFault;
use sqlite::{Error, ErrorCode};
use sqlite_disk::{Disk, Start};
use std::cell::Cell;
use std::fs;
use std::io::{self, BufWriter, Read, Stderr, Write};

/// How many bytes are written at once.
const WRITE_SIZE: usize = 0x4_0000;

/// A log of fewer bytes holds no page: 32 are its own head, and 24 that of its first page.
const FIRST_PAGE_AT: u64 = 56;

/// The script that is asked for.
#[derive(Drop)]
pub(crate) struct ScriptAsked<I> {
    pub(crate) source: I,
    /// Whether each message that is sent is told of.
    pub(crate) is_traced: bool,
}

/// Runs a script over the store in the file at a path, which is made where there is none, or over a new store in memory, and
/// prints to the standard output. Where the store can't be opened, taken over or closed, or is that of another cell, the words of
/// it go to the standard error, and the status is 3. `S` stands for what the files hold, as in `run_path`.
pub(crate) fn run_printing<S: Start, I: Read + Drop>(
    rt: &HostRuntime,
    chosen: &Chosen,
    path: Option<&str>,
    start: S,
    asked: ScriptAsked<I>,
) -> Result<u8>
    ensures exit { IfOk result IsExit }
    // Of the standard output no byte is known; what is written is said by `run_over`.
    ensures ran { IfOk result (λ status. EndsRun chosen.now.settings (image_at S.Start) path.entry (I.remaining asked.source) status None None) }
{
    let at = Cell::new(0);
    let writer = BufWriter::with_capacity(rt.alloc(), WRITE_SIZE, rt.stdout());
    let writer = writer.context("making room for the output")?;
    let mut output = Output::new(writer, rt.stderr(), &at);
    run_over(rt, chosen, path, start, asked, &mut output, &at)
}

/// The same, to any writer: it was the script of all the source, and the status is what follows of it.
fn run_over<S: Start, I: Read + Drop, W: Write + Drop>(
    rt: &HostRuntime,
    chosen: &Chosen,
    path: Option<&str>,
    start: S,
    asked: ScriptAsked<I>,
    output: &mut Output<'_, W, Stderr>,
    at: &Cell<u64>,
) -> Result<u8>
    ensures exit { IfOk result IsExit }
    ensures ran { IfOk result (λ status. EndsRun chosen.now.settings (image_at S.Start) path.entry (I.remaining asked.source) status (W.contents output.old.writer) (W.contents output.new.writer)) }
    ensures none { OnErr result (W.contents output.new.writer ≡ W.contents output.old.writer) }
{
    let ScriptAsked { source, is_traced } = asked;
    let lines = LineReader::new(rt.alloc(), source, at);
    let mut lines = lines.context("making room for the script")?;
    let script = Script {
        reader: &mut lines,
        errors: rt.stderr(),
        is_traced,
    };
    let status = run_in(rt, chosen, path, start, script, output)?;
    tell_end(rt, status, &lines, output.failure(), at);
    Ok(status)
}

fn run_in<S: Start, I: Read + Drop, W: Write>(
    rt: &HostRuntime,
    chosen: &Chosen,
    path: Option<&str>,
    start: S,
    script: Script<I, Stderr>,
    writer: &mut W,
) -> Result<u8>
    ensures exit { IfOk result IsExit }
    ensures ran { IfOk result (λ status. EndsRun chosen.now.settings (image_at S.Start) path.entry (I.remaining script.reader) status (W.contents writer.old) (W.contents writer.new)) }
    ensures none { OnErr result (W.contents writer.new ≡ W.contents writer.old) }
{
    match path {
        Some(path) => run_at(rt, chosen, path, start, script, writer),
        None => Ok(run_in_memory(rt, chosen, script, writer)),
    }
}

fn run_in_memory<I: Read + Drop, W: Write>(
    rt: &HostRuntime,
    chosen: &Chosen,
    script: Script<I, Stderr>,
    writer: &mut W,
) -> u8
    ensures exit { IsExit result }
    ensures ran { EndsAnew chosen.now.settings (I.remaining script.reader) result (W.contents writer.old) (W.contents writer.new) }
{
    match run_new(rt.alloc(), &chosen.settings, script, writer) {
        Ok(status) => status,
        Err(fault) => refused(rt, fault),
    }
}

// Tells why a script stopped before its end.
fn tell_end<I: Read + Drop>(
    rt: &HostRuntime,
    status: u8,
    lines: &LineReader<'_, I>,
    failure: Option<io::Error>,
    at: &Cell<u64>,
) {
    if status != 1 {
        return;
    }
    match failure {
        Some(error) => {
            let _ = tell_unwritten(rt, &error);
        }
        None => tell_bad(rt.alloc(), &mut rt.stderr(), at.get(), lines),
    }
}

// The files lie where a link leads.
fn run_at<S: Start, I: Read + Drop, W: Write>(
    rt: &HostRuntime,
    chosen: &Chosen,
    path: &str,
    start: S,
    script: Script<I, Stderr>,
    writer: &mut W,
) -> Result<u8>
    ensures exit { IfOk result IsExit }
    ensures ran { IfOk result (λ status. EndsScript (IsTakenFrom chosen.now.settings (image_at S.Start)) (terms_of chosen.now.settings) (I.remaining script.reader) status (W.contents writer.old) (W.contents writer.new)) }
    ensures none { OnErr result (W.contents writer.new ≡ W.contents writer.old) }
{
    match fs::canonicalize(rt, path) {
        Ok(real) => Ok(run_closing(rt, chosen, real.as_str(), start, script, writer)),
        Err(error) => match error.kind() {
            io::ErrorKind::NotFound => {
                make_file(rt, path);
                Ok(run_closing(rt, chosen, path, start, script, writer))
            }
            kind => Ok(tell_unfound(rt, path, kind)),
        },
    }
}

/// Tells why there is no way to a store, and answers the exit status.
pub(crate) fn tell_unfound(rt: &HostRuntime, path: &str, kind: io::ErrorKind) -> u8
    ensures exit { IsExit result }
    ensures shut { IsShut result }
{
    tell(rt, TroubleSubject::Store, path, trouble_of(kind))
}

// After the run the log is removed: the database file alone has the rows.
fn run_closing<S: Start, I: Read + Drop, W: Write>(
    rt: &HostRuntime,
    chosen: &Chosen,
    path: &str,
    start: S,
    script: Script<I, Stderr>,
    writer: &mut W,
) -> u8
    ensures exit { IsExit result }
    ensures ran { EndsScript (IsTakenFrom chosen.now.settings (image_at S.Start)) (terms_of chosen.now.settings) (I.remaining script.reader) result (W.contents writer.old) (W.contents writer.new) }
{
    let Ok(log) = format!(in rt.alloc(); "{path}-wal") else {
        return 4;
    };
    match run_path(rt, chosen, path, start, script, writer) {
        Ok((status, files)) => {
            let _ = fs::remove_file(rt, log.as_str());
            drop(files);
            status
        }
        Err(unclosed) => left_open(rt, chosen, path, log.as_str(), unclosed),
    }
}

/// Tells why a store isn't closed, and answers the status. While its files are held, a log that holds no page is removed: so
/// nothing is left behind of a store that is refused.
pub(crate) fn left_open<D: Disk + Drop>(
    rt: &HostRuntime,
    chosen: &Chosen,
    path: &str,
    log: &str,
    unclosed: Unclosed<D>,
) -> u8
    ensures exit { IsExit result }
    ensures shut { IsShut result }
{
    let cell = chosen.settings.cell();
    match unclosed {
        Unclosed::Unopened(error, left) => {
            if left.is_some() {
                remove_empty(rt, log);
            }
            drop(left);
            tell_finding(rt, cell, path, &find_unopened(rt, cell, path, &error))
        }
        Unclosed::Refused(fault, store) => {
            remove_empty(rt, log);
            drop(store);
            tell_refused(rt, chosen, path, fault)
        }
        Unclosed::Other(store) => {
            remove_empty(rt, log);
            drop(store);
            3
        }
        Unclosed::Open(status, error, store) => {
            drop(store);
            let _ = eprintln!(rt; "cellctl: closing the store {path}: {error}");
            unclosed_status(status, &error)
        }
    }
}

// Removes a log that holds no page.
fn remove_empty(rt: &HostRuntime, path: &str) {
    if let Ok(found) = fs::symlink_metadata(rt, path) {
        if found.is_file() && found.len() < FIRST_PAGE_AT {
            let _ = fs::remove_file(rt, path);
        }
    }
}

// Tells why the store at a path isn't taken over.
fn tell_refused(rt: &HostRuntime, chosen: &Chosen, path: &str, fault: StoreFault) -> u8
    ensures exit { IsExit result }
    ensures shut { IsShut result }
{
    let cell = chosen.settings.cell();
    match fault {
        StoreFault::NoMemory => tell(rt, TroubleSubject::Store, path, Trouble::NoMemory),
        StoreFault::Damaged => tell_finding(rt, cell, path, &find(rt, cell, path)),
        StoreFault::Exhausted => tell(rt, TroubleSubject::Store, path, Trouble::LastEpoch),
        _ => tell(rt, TroubleSubject::Store, path, Trouble::Unreadable),
    }
}

fn refused(rt: &HostRuntime, fault: StoreFault) -> u8
    ensures exit { IsExit result }
    ensures shut { IsShut result }
{
    let _ = eprintln!(rt; "cellctl: taking the store over: {fault}");
    match fault {
        StoreFault::NoMemory => 4,
        _ => 3,
    }
}

fn failed_status(error: &Error) -> u8
    ensures exit { IsExit result }
    ensures shut { IsShut result }
{
    match error {
        Error::SqliteFailure(ErrorCode::OutOfMemory) => 4,
        _ => 3,
    }
}

// A script that memory ended stays so.
fn unclosed_status(status: u8, error: &Error) -> u8
    ensures exit { IsExit result }
    ensures shut { IsShut result }
{
    match status {
        4 => 4,
        _ => failed_status(error),
    }
}
