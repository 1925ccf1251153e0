//! What is seen to as a store is taken over: a file that isn't there is made for its owner alone, and of the rows it is seen whose they
//! are.
ghost use Rattle.std.specs.Prelude.{◌≡◌, IfOk, IfErr};
ghost use Rattle.sqlite_store.specs.FileStore.{view, recovers};
ghost use Rattle.sqlite_trees.specs.View.{IsClean};
ghost use Rattle.sqlite.specs.Files.{file_state};
ghost use Rattle.rows_sql.specs.Keeping.{IsLeft};
ghost use Rattle.cellctl.specs.Left.{IsUntaken};
ghost use Rattle.cellctl.specs.Taken.{IsAdopted};

use crate::findings::tell_other_cell;
use crate::runs::Unclosed;
use crate::settings::Chosen;
use crate::texts::{KNOWN_SECRET, OTHER_PRINCIPALS};
use names_cell::Name;
use rows_cell::Rows;
use rows_sql::SqlRecords;
use sqlite::{Connection, FileStore};
use sqlite_disk::Disk;
use std::alloc::Global;
use std::fs::OpenOptions;
use std::os::unix::fs::OpenOptionsExt;

/// What a file of a store lets others do: nothing.
const OWN: u32 = 0o600;

/// Makes the file of a new store, which its owner alone may read and write. Where that can't be done, opening the store says why.
pub(crate) fn make_file(rt: &HostRuntime, path: &str) {
    let mut options = OpenOptions::new();
    options.write(true).create_new(true).mode(OWN);
    if let Ok(file) = options.open(rt, path) {
        drop(file);
    }
}

/// Takes the store of a connection over. That of another cell is refused, and nothing is done over it: the words of it go to the
/// standard error. With `warns`, so do those of a secret that everybody knows, and of principals that aren't those of the settings.
pub(crate) fn take_over<D: Disk + Drop>(
    rt: &HostRuntime,
    chosen: &Chosen,
    path: &str,
    conn: Connection<FileStore<D>>,
    warns: bool,
) -> Result<SqlRecords<FileStore<D>>, Unclosed<D>>
    ensures ok { IfOk result (λ records. IsAdopted chosen.now.settings (file_state conn) records) }
    ensures err { IfErr result (λ unclosed. IsUntaken chosen.now.settings conn unclosed) }
{
    let records = match SqlRecords::adopt(rt.alloc(), conn, &chosen.settings) {
        Ok(records) => records,
        Err((fault, store)) => return Err(Unclosed::Refused(fault, store)),
    };
    if is_ours(rt, chosen, path, records.first_rows(), warns) {
        return Ok(records);
    }
    Err(Unclosed::Other(given_back(records)))
}

// The store of records over which nothing was done.
fn given_back<D: Disk + Drop>(records: SqlRecords<FileStore<D>>) -> FileStore<D>
    ensures sure { IsClean (view result) → records.doubt ≡ 0 }
    ensures left { IsClean (view result) → (db : _) → recovers result db → IsLeft records.may_leave db }
{
    records.release().into_store()
}

// Whether rows are those of the cell of the settings. If they aren't, it is told.
fn is_ours(
    rt: &HostRuntime,
    chosen: &Chosen,
    path: &str,
    rows: Option<&Rows>,
    warns: bool,
) -> bool {
    let Some(rows) = rows else {
        return true;
    };
    let cell = chosen.settings.cell();
    let theirs = rows.cell.as_str();
    if theirs != cell.as_str() {
        let _ = tell_other_cell(rt, cell, path, theirs);
        return false;
    }
    if warns {
        warn_of_secret(rt, path, rows);
        warn_of_principals(rt, chosen, path, rows);
    }
    true
}

fn warn_of_secret(rt: &HostRuntime, path: &str, rows: &Rows) {
    let secret = rows.secret.as_bytes();
    if secret.iter().all(|byte| *byte == 0) {
        let _ = eprintln!(rt; "cellctl: warning: the store {path}: {KNOWN_SECRET}");
    }
}

// Where there is no memory to compare them, nothing is said.
fn warn_of_principals(rt: &HostRuntime, chosen: &Chosen, path: &str, rows: &Rows) {
    if chosen.says_principals && has_other_base(rt.alloc(), chosen, rows) {
        let _ = eprintln!(rt; "cellctl: warning: the store {path}: {OTHER_PRINCIPALS}");
    }
}

fn has_other_base(alloc: Global, chosen: &Chosen, rows: &Rows) -> bool {
    let cell = chosen.settings.cell().as_str();
    let Ok(text) = format!(in alloc; "/ls/{cell}/acl/base") else {
        return false;
    };
    let Ok(name) = Name::parse(alloc, text.as_str()) else {
        return false;
    };
    match rows.nodes.get(&name) {
        Some(stored) => stored.node.content.as_slice() != chosen.settings.base().as_slice(),
        None => false,
    }
}
