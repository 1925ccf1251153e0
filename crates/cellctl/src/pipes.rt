//! A master whose rows another program keeps.
ghost use Rattle.std.specs.Prelude.{◌≡◌, None, IfOk, OnErr};
ghost use Rattle.cellctl.specs.Exits.{IsExit};
ghost use Rattle.cellctl.specs.Led.{group_terms, EndsFrames, EndsAnyFrames};
ghost use Rattle.cellctl.specs.Taken.{IsOpenedIn};

use crate::serves::{Frames, serve_seat};
use crate::settings::settings;
use crate::texts::Trouble;
use crate::troubles::{TroubleSubject, tell, trouble_of};
use anyhow::{Context, Result};
use hosting::{GroupLimits, HostedMaster};
use rows_cell::{Settings, StoreFault};
use rows_remote::FrameRecords;
use std::fs::File;
use std::io::{Read, Write};

/// Answers the frames of an input over the rows that another program keeps, with the settings of a file or the standard
/// ones. It asks for them in the named pipe `asked` of a folder, and reads the answers from `answered`. Where one can't be opened,
/// or no rows come, the words of it go to the standard error, and the status is 3.
pub(crate) fn serve_rows<I: Read + Drop, W: Write>(
    rt: &HostRuntime,
    named: Option<&str>,
    folder: &str,
    limits: GroupLimits,
    reader: I,
    writer: &mut W,
) -> Result<u8>
    ensures exit { IfOk result IsExit }
    ensures served { IfOk result (λ status. EndsAnyFrames (IsOpenedIn None None) limits (I.remaining reader) status (W.contents writer.old) (W.contents writer.new)) }
    ensures none { OnErr result (W.contents writer.new ≡ W.contents writer.old) }
{
    match settings(rt, named) {
        Ok(chosen) => serve_folder(rt, &chosen.settings, folder, limits, reader, writer),
        Err(status) => Ok(status),
    }
}

// An open waits until the other end is opened: the one of the questions first.
fn serve_folder<I: Read + Drop, W: Write>(
    rt: &HostRuntime,
    settings: &Settings,
    folder: &str,
    limits: GroupLimits,
    reader: I,
    writer: &mut W,
) -> Result<u8>
    ensures exit { IfOk result IsExit }
    ensures served { IfOk result (λ status. EndsFrames (IsOpenedIn None None settings.now) (group_terms limits settings.now) (I.remaining reader) status (W.contents writer.old) (W.contents writer.new)) }
    ensures none { OnErr result (W.contents writer.new ≡ W.contents writer.old) }
{
    let path = format!(in rt.alloc(); "{folder}/asked").context("naming the pipe")?;
    match File::create(rt, path.as_str()) {
        Ok(asked) => serve_asked(rt, settings, folder, limits, asked, reader, writer),
        Err(error) => Ok(tell(
            rt,
            TroubleSubject::Pipe,
            path.as_str(),
            trouble_of(error.kind()),
        )),
    }
}

fn serve_asked<I: Read + Drop, W: Write>(
    rt: &HostRuntime,
    settings: &Settings,
    folder: &str,
    limits: GroupLimits,
    asked: File,
    reader: I,
    writer: &mut W,
) -> Result<u8>
    ensures exit { IfOk result IsExit }
    ensures served { IfOk result (λ status. EndsFrames (IsOpenedIn None None settings.now) (group_terms limits settings.now) (I.remaining reader) status (W.contents writer.old) (W.contents writer.new)) }
    ensures none { OnErr result (W.contents writer.new ≡ W.contents writer.old) }
{
    let path = format!(in rt.alloc(); "{folder}/answered").context("naming the pipe")?;
    match File::open(rt, path.as_str()) {
        Ok(answered) => serve_pipes(
            rt,
            settings,
            folder,
            limits,
            (asked, answered),
            reader,
            writer,
        ),
        Err(error) => Ok(tell(
            rt,
            TroubleSubject::Pipe,
            path.as_str(),
            trouble_of(error.kind()),
        )),
    }
}

// It asks for the rows in the first of the pipes, and reads them from the other.
fn serve_pipes<A: Write + Drop, B: Read + Drop, I: Read + Drop, W: Write>(
    rt: &HostRuntime,
    settings: &Settings,
    folder: &str,
    limits: GroupLimits,
    pipes: (A, B),
    reader: I,
    writer: &mut W,
) -> Result<u8>
    ensures exit { IfOk result IsExit }
    ensures served { IfOk result (λ status. EndsFrames (IsOpenedIn (A.contents pipes.0) (B.remaining pipes.1) settings.now) (group_terms limits settings.now) (I.remaining reader) status (W.contents writer.old) (W.contents writer.new)) }
    ensures none { OnErr result (W.contents writer.new ≡ W.contents writer.old) }
{
    let (asked, answered) = pipes;
    let cell = settings.cell().clone().context("naming the cell")?;
    match FrameRecords::open(rt.alloc(), cell, asked, answered) {
        Ok(records) => {
            let frames = Frames {
                reader,
                errors: rt.stderr(),
                limits,
            };
            let seat = HostedMaster::Down(records);
            let (seat, status) = serve_seat(rt.alloc(), settings, seat, frames, writer);
            drop(seat.close());
            Ok(status)
        }
        Err(fault) => Ok(tell(rt, TroubleSubject::Rows, folder, trouble_of_rows(fault))),
    }
}

fn trouble_of_rows(fault: StoreFault) -> Trouble {
    match fault {
        StoreFault::NoMemory => Trouble::NoMemory,
        _ => Trouble::NoRows,
    }
}
