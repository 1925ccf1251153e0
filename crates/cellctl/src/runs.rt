//! A run over a store.
ghost use Rattle.std.specs.Prelude.{◌≡◌, IfOk, IfErr, OnErr};
ghost use Rattle.rows_cell.specs.Settings.{terms_of};
ghost use Rattle.sqlite_trees.specs.View.{IsClean};
ghost use Rattle.sqlite_wal.specs.Reads.{AreClean};
ghost use Rattle.sqlite_wal.specs.Files.{image_at};
ghost use Rattle.sqlite.specs.Files.{file_state};
ghost use Rattle.sqlite.specs.Held.{state};
ghost use Rattle.rows_sql.specs.Creation.{no_schema};
ghost use Rattle.scripts.specs.Stops.{IsStatus};
ghost use Rattle.cellctl.specs.Anew.{RanAnew};
ghost use Rattle.cellctl.specs.Closed.{RanOver, RanAt};
ghost use Rattle.cellctl.specs.Led.{ScriptLeads, LedOn};
ghost use Rattle.cellctl.specs.Left.{LeavesOver, LeavesAt};
ghost use Rattle.cellctl.specs.Taken.{IsAdopted, IsTakenFrom};

use crate::admission::take_over;
use crate::settings::Chosen;
use rows_cell::{Settings, StoreFault};
use rows_sql::{OrderedStore, SqlRecords};
use scripts::script_on;
use sqlite::{Connection, Error, FileStore, Files, Leftover};
use sqlite_disk::{Disk, Start};
use sqlite_std_file::FileFrom;
use std::alloc::Global;
use std::io::{Read, Write};
use world_cell::World;

/// A script, and who is told of it.
#[derive(Drop)]
pub(crate) struct Script<I, E> {
    pub(crate) reader: I,
    pub(crate) errors: E,
    /// Whether each message that is sent is told of.
    pub(crate) is_traced: bool,
}

/// What is left of the files of a store that isn't closed.
pub(crate) enum Unclosed<D: Disk> {
    /// They can't be opened.
    Unopened(Error, Option<Leftover<D>>),
    /// The store isn't taken over.
    Refused(StoreFault, FileStore<D>),
    /// It is that of another cell, which was told.
    Other(FileStore<D>),
    /// What was to be done over it ended with this status, and it can't be closed.
    Open(u8, Error, FileStore<D>),
}

/// Runs a script over the store in the files at a path, which are made where there are none, and closes it: what `run_files`
/// says, of what the files held. `S` stands for that, and no code can read it; so this is said of all contents.
pub(crate) fn run_path<S: Start, I: Read + Drop, W: Write, E: Write + Drop>(
    rt: &HostRuntime,
    chosen: &Chosen,
    path: &str,
    start: S,
    script: Script<I, E>,
    writer: &mut W,
) -> Result<(u8, Files<FileFrom<S>>), Unclosed<FileFrom<S>>>
    ensures closed { IfOk result (λ r. AreClean ⟦<FileFrom<S> as Disk>⟧ r.1.log r.1.db → RanAt ⟦<FileFrom<S> as Disk>⟧ chosen.now.settings (image_at S.Start) (I.remaining script.reader) r.0 r.1 (W.contents writer.old) (W.contents writer.new)) }
    // And whatever the disk did: it was run, over what the files are taken over as.
    ensures ran { IfOk result (λ r. LedOn (IsTakenFrom chosen.now.settings (image_at S.Start)) (ScriptLeads (terms_of chosen.now.settings) (I.remaining script.reader) (W.contents writer.old) (W.contents writer.new) r.0)) }
    ensures left { IfErr result (LeavesAt chosen.now.settings (image_at S.Start) (ScriptLeads (terms_of chosen.now.settings) (I.remaining script.reader) (W.contents writer.old) (W.contents writer.new)) (W.contents writer.old) (W.contents writer.new)) }
    ensures status { IfOk result (λ r. IsStatus r.0) }
{
    match Connection::open_from(rt, path, false, start) {
        Ok(conn) => run_files(rt, chosen, path, conn, script, writer),
        Err((error, left)) => Err(Unclosed::Unopened(error, left)),
    }
}

/// Runs a script over the store of a connection, if it is that of the cell of the settings, and closes it, whatever its status:
/// so its rows stand in the database file alone, and the log may be removed.
pub(crate) fn run_files<D: Disk + Drop, I: Read + Drop, W: Write, E: Write + Drop>(
    rt: &HostRuntime,
    chosen: &Chosen,
    path: &str,
    conn: Connection<FileStore<D>>,
    script: Script<I, E>,
    writer: &mut W,
) -> Result<(u8, Files<D>), Unclosed<D>>
    // Where nobody else wrote the files, and the disk gave back what was written: it led from the rows that they had to
    // those that they have, and the laws of runs hold of it.
    ensures closed { IfOk result (λ r. AreClean D.Disk r.1.log r.1.db → RanOver D.Disk chosen.now.settings (file_state conn) (I.remaining script.reader) r.0 r.1 (W.contents writer.old) (W.contents writer.new)) }
    // And whatever the disk did: it was run, over what the connection is taken over as.
    ensures ran { IfOk result (λ r. LedOn (IsAdopted chosen.now.settings (file_state conn)) (ScriptLeads (terms_of chosen.now.settings) (I.remaining script.reader) (W.contents writer.old) (W.contents writer.new) r.0)) }
    // Else it is said what a crash leaves.
    ensures left { IfErr result (LeavesOver chosen.now.settings conn (ScriptLeads (terms_of chosen.now.settings) (I.remaining script.reader) (W.contents writer.old) (W.contents writer.new)) (W.contents writer.old) (W.contents writer.new)) }
    ensures status { IfOk result (λ r. IsStatus r.0) }
{
    let Script {
        reader,
        errors,
        is_traced,
    } = script;
    let records = match take_over(rt, chosen, path, conn, true) {
        Ok(records) => records,
        Err(unclosed) => return Err(unclosed),
    };
    let mut world = World::new(rt.alloc(), records, &chosen.settings);
    let status = script_on(rt.alloc(), &mut world, reader, writer, errors, is_traced);
    match world.close().close() {
        Ok(files) => Ok((status, files)),
        Err((error, store)) => Err(Unclosed::Open(status, error, store)),
    }
}

/// Runs a script over a new store in memory, whose rows are those of a new cell: all laws of runs hold of it.
pub(crate) fn run_new<I: Read + Drop, W: Write, E: Write + Drop>(
    alloc: Global,
    settings: &Settings,
    script: Script<I, E>,
    writer: &mut W,
) -> Result<u8, StoreFault>
    ensures ran { IfOk result (λ status. RanAnew settings.now (I.remaining script.reader) status (W.contents writer.old) (W.contents writer.new)) }
    ensures none { OnErr result (W.contents writer.new ≡ W.contents writer.old) }
    ensures status { IfOk result IsStatus }
{
    match Connection::open_in_memory(alloc) {
        Ok(conn) => run_empty(alloc, settings, conn, script, writer),
        Err(_) => Err(StoreFault::NoMemory),
    }
}

// The same over a connection that has no table yet. Where its store takes no wrong answer as true, as memory, nothing is in doubt.
fn run_empty<S: OrderedStore + Drop, I: Read + Drop, W: Write, E: Write + Drop>(
    alloc: Global,
    settings: &Settings,
    conn: Connection<S>,
    script: Script<I, E>,
    writer: &mut W,
) -> Result<u8, StoreFault>
    ensures ran { IfOk result (λ status. ((store : S) → IsClean (S.Store.view store)) → (state S.Store conn).committed.schema ≡ no_schema → RanAnew settings.now (I.remaining script.reader) status (W.contents writer.old) (W.contents writer.new)) }
    ensures none { OnErr result (W.contents writer.new ≡ W.contents writer.old) }
    ensures status { IfOk result IsStatus }
{
    let Script {
        reader,
        errors,
        is_traced,
    } = script;
    let records = match SqlRecords::adopt(alloc, conn, settings) {
        Ok(records) => records,
        Err((fault, store)) => {
            drop(store);
            return Err(fault);
        }
    };
    let mut world = World::new(alloc, records, settings);
    let ended = script_on(alloc, &mut world, reader, writer, errors, is_traced);
    let conn = world.close().release();
    drop(conn);
    Ok(ended)
}
