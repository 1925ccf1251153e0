//! A master that another program starts.
ghost use Rattle.std.specs.Prelude.{◌≡◌, IfOk, IfErr, OnErr};
ghost use Rattle.sqlite_wal.specs.Reads.{AreClean};
ghost use Rattle.sqlite_wal.specs.Files.{image_at};
ghost use Rattle.sqlite.specs.Files.{file_state};
ghost use Rattle.hosting.specs.Seats.{hosted};
ghost use Rattle.cellctl.specs.Closed.{ServedOver, ServedAt};
ghost use Rattle.cellctl.specs.Exits.{IsExit};
ghost use Rattle.cellctl.specs.Led.{served_status, group_terms, EndsServing, FramesLead, LedOn, EndsFrames, EndsAnyFrames};
ghost use Rattle.cellctl.specs.Left.{LeavesOver, LeavesAt};
ghost use Rattle.cellctl.specs.Taken.{IsAdopted, IsTakenFrom};

use crate::admission::{make_file, take_over};
use crate::runs::Unclosed;
use crate::settings::{Chosen, settings};
use crate::stores::{left_open, tell_unfound};
use anyhow::{Context, Result};
use hosting::{GroupLimits, GroupStop, GroupTerms, HostedMaster, StreamStop, serve_groups};
use rows_cell::{Records, Settings};
use sqlite::{Connection, FileStore, Files};
use sqlite_disk::{Disk, Start};
use sqlite_std_file::FileFrom;
use std::alloc::Global;
use std::fs;
use std::io::{self, BufReader, Read, Write};

/// How many bytes are read at once.
const READ_SIZE: usize = 0x1_0000;

/// Frames, and who is told why they are served no further.
#[derive(Drop)]
pub(crate) struct Frames<I, E> {
    pub(crate) reader: I,
    pub(crate) errors: E,
    /// What is committed as one change.
    pub(crate) limits: GroupLimits,
}

/// Answers the frames of an input over the store in the file at a path, which is made where there is none, with the settings
/// of a file or the standard ones. At the end the store is closed: its rows stand in the one file. Where it can't be
/// opened, taken over or closed, the words of it go to the standard error, and the status is 3. `S` stands for what the files hold,
/// as in `run_path`.
pub(crate) fn serve_path<S: Start, I: Read + Drop, W: Write>(
    rt: &HostRuntime,
    named: Option<&str>,
    path: &str,
    start: S,
    limits: GroupLimits,
    reader: I,
    writer: &mut W,
) -> Result<u8>
    ensures exit { IfOk result IsExit }
    // All of its frames were served, and the status is what follows of them; or there were no settings, and nothing was written.
    ensures served { IfOk result (λ status. EndsAnyFrames (λ settings. IsTakenFrom settings (image_at S.Start)) limits (I.remaining reader) status (W.contents writer.old) (W.contents writer.new)) }
    ensures none { OnErr result (W.contents writer.new ≡ W.contents writer.old) }
{
    match settings(rt, named) {
        Ok(chosen) => serve_at(rt, &chosen, path, start, limits, reader, writer),
        Err(status) => Ok(status),
    }
}

// The files lie where a link leads.
fn serve_at<S: Start, I: Read + Drop, W: Write>(
    rt: &HostRuntime,
    chosen: &Chosen,
    path: &str,
    start: S,
    limits: GroupLimits,
    reader: I,
    writer: &mut W,
) -> Result<u8>
    ensures exit { IfOk result IsExit }
    ensures served { IfOk result (λ status. EndsFrames (IsTakenFrom chosen.now.settings (image_at S.Start)) (group_terms limits chosen.now.settings) (I.remaining reader) status (W.contents writer.old) (W.contents writer.new)) }
    ensures none { OnErr result (W.contents writer.new ≡ W.contents writer.old) }
{
    match fs::canonicalize(rt, path) {
        Ok(real) => serve_real(rt, chosen, real.as_str(), start, limits, reader, writer),
        Err(error) => match error.kind() {
            io::ErrorKind::NotFound => {
                make_file(rt, path);
                serve_real(rt, chosen, path, start, limits, reader, writer)
            }
            kind => Ok(tell_unfound(rt, path, kind)),
        },
    }
}

// After the last frame the log is removed: the database file alone has the rows.
fn serve_real<S: Start, I: Read + Drop, W: Write>(
    rt: &HostRuntime,
    chosen: &Chosen,
    path: &str,
    start: S,
    limits: GroupLimits,
    reader: I,
    writer: &mut W,
) -> Result<u8>
    ensures exit { IfOk result IsExit }
    ensures served { IfOk result (λ status. EndsFrames (IsTakenFrom chosen.now.settings (image_at S.Start)) (group_terms limits chosen.now.settings) (I.remaining reader) status (W.contents writer.old) (W.contents writer.new)) }
    ensures none { OnErr result (W.contents writer.new ≡ W.contents writer.old) }
{
    let log = format!(in rt.alloc(); "{path}-wal").context("naming the log")?;
    let frames = Frames {
        reader,
        errors: rt.stderr(),
        limits,
    };
    match serve_file(rt, chosen, path, start, frames, writer) {
        Ok((status, files)) => {
            let _ = fs::remove_file(rt, log.as_str());
            drop(files);
            Ok(status)
        }
        Err(unclosed) => Ok(left_open(rt, chosen, path, log.as_str(), unclosed)),
    }
}

/// Answers all frames over the store in the files at a path, which are made where there are none, and closes it: what
/// `serve_store` says, of what the files held. `S` stands for that, as in `run_path`.
fn serve_file<S: Start, I: Read + Drop, W: Write, E: Write + Drop>(
    rt: &HostRuntime,
    chosen: &Chosen,
    path: &str,
    start: S,
    frames: Frames<I, E>,
    writer: &mut W,
) -> Result<(u8, Files<FileFrom<S>>), Unclosed<FileFrom<S>>>
    ensures closed { IfOk result (λ r. AreClean ⟦<FileFrom<S> as Disk>⟧ r.1.log r.1.db → ServedAt ⟦<FileFrom<S> as Disk>⟧ chosen.now.settings frames.limits (image_at S.Start) (I.remaining frames.reader) r.0 r.1 (W.contents writer.old) (W.contents writer.new)) }
    // And whatever the disk did: they were served.
    ensures served { IfOk result (λ r. LedOn (IsTakenFrom chosen.now.settings (image_at S.Start)) (FramesLead (group_terms frames.limits chosen.now.settings) (I.remaining frames.reader) (W.contents writer.old) (W.contents writer.new) r.0)) }
    ensures left { IfErr result (LeavesAt chosen.now.settings (image_at S.Start) (FramesLead (group_terms frames.limits chosen.now.settings) (I.remaining frames.reader) (W.contents writer.old) (W.contents writer.new)) (W.contents writer.old) (W.contents writer.new)) }
    ensures status { IfOk result (λ r. IsExit r.0) }
{
    match Connection::open_from(rt, path, false, start) {
        Ok(conn) => serve_store(rt, chosen, path, conn, frames, writer),
        Err((error, left)) => Err(Unclosed::Unopened(error, left)),
    }
}

/// Takes the store of a connection over, if it is that of the cell of the settings, answers all frames, gives the status after the
/// last one, and closes the store, whatever that is: so its rows stand in the database file alone.
fn serve_store<D: Disk + Drop, I: Read + Drop, W: Write, E: Write + Drop>(
    rt: &HostRuntime,
    chosen: &Chosen,
    path: &str,
    conn: Connection<FileStore<D>>,
    frames: Frames<I, E>,
    writer: &mut W,
) -> Result<(u8, Files<D>), Unclosed<D>>
    // Where nobody else wrote the files, and the disk gave back what was written: the frames led from the rows that they had
    // to those that they have.
    ensures closed { IfOk result (λ r. AreClean D.Disk r.1.log r.1.db → ServedOver D.Disk chosen.now.settings frames.limits (file_state conn) (I.remaining frames.reader) r.0 r.1 (W.contents writer.old) (W.contents writer.new)) }
    // And whatever the disk did: they were served.
    ensures served { IfOk result (λ r. LedOn (IsAdopted chosen.now.settings (file_state conn)) (FramesLead (group_terms frames.limits chosen.now.settings) (I.remaining frames.reader) (W.contents writer.old) (W.contents writer.new) r.0)) }
    // Else it is said what a crash leaves.
    ensures left { IfErr result (LeavesOver chosen.now.settings conn (FramesLead (group_terms frames.limits chosen.now.settings) (I.remaining frames.reader) (W.contents writer.old) (W.contents writer.new)) (W.contents writer.old) (W.contents writer.new)) }
    ensures status { IfOk result (λ r. IsExit r.0) }
{
    let records = match take_over(rt, chosen, path, conn, false) {
        Ok(records) => records,
        Err(unclosed) => return Err(unclosed),
    };
    let (seat, status) = serve_seat(
        rt.alloc(),
        &chosen.settings,
        HostedMaster::Down(records),
        frames,
        writer,
    );
    match seat.close().close() {
        Ok(files) => Ok((status, files)),
        Err((error, store)) => Err(Unclosed::Open(status, error, store)),
    }
}

/// Answers all frames, and gives the status after the last one.
pub(crate) fn serve_seat<R: Records, I: Read + Drop, W: Write, E: Write + Drop>(
    alloc: Global,
    settings: &Settings,
    seat: HostedMaster<R>,
    frames: Frames<I, E>,
    writer: &mut W,
) -> (HostedMaster<R>, u8)
    ensures served { EndsServing (group_terms frames.limits settings.now) (I.remaining frames.reader) (W.contents writer.old) (W.contents writer.new) result.1 (hosted R.store seat) (hosted R.store result.0) }
    ensures exit { IsExit result.1 }
{
    let Frames {
        reader,
        mut errors,
        limits,
    } = frames;
    let Ok(mut input) = BufReader::with_capacity(alloc, READ_SIZE, reader) else {
        return (seat, 4);
    };
    let terms = GroupTerms {
        master: settings.terms(),
        limits,
    };
    let (seat, ended) = serve_groups(alloc, terms, seat, &mut input, writer);
    tell_ended(&ended, &mut errors);
    (seat, ended_status(&ended))
}

fn ended_status(ended: &Result<(), GroupStop>) -> u8
    ensures status { result ≡ served_status ended.now }
    ensures exit { IsExit result }
{
    match ended {
        Ok(()) => 0,
        Err(GroupStop::Stopped(StreamStop::Unread)) => 1,
        Err(GroupStop::Stopped(StreamStop::Unwritten)) => 1,
        Err(GroupStop::Stopped(StreamStop::NoMemory)) => 4,
        Err(GroupStop::Refused(_)) => 3,
    }
}

// Tells why frames are served no further. Where these words can't be written, the status still tells.
fn tell_ended<E: Write>(ended: &Result<(), GroupStop>, errors: &mut E) {
    match ended {
        Ok(()) => {}
        Err(GroupStop::Stopped(stop)) => tell_stopped(stop, errors),
        Err(GroupStop::Refused(fault)) => {
            let _ = writeln!(
                errors,
                "cellctl: the store refused what several frames changed: {fault}"
            );
        }
    }
}

fn tell_stopped<E: Write>(stop: &StreamStop, errors: &mut E) {
    match stop {
        StreamStop::Unwritten => {}
        StreamStop::Unread => {
            let _ = writeln!(errors, "cellctl: the input can't be read");
        }
        StreamStop::NoMemory => {
            let _ = writeln!(errors, "cellctl: out of memory");
        }
    }
}
