//! What is told of a trouble, and the exit status that it has.
ghost use Rattle.std.specs.Prelude.{◌≡◌};
ghost use Rattle.cellctl.specs.Exits.{IsExit, IsUnwritten, IsUnset, IsShut, IsOfText, IsOfRows};

use crate::texts::{Trouble, words_of};
use std::io;

/// What a trouble is with.
#[derive(Clone, Copy, Debug, PartialEq, Eq)]
pub(crate) enum TroubleSubject {
    Store,
    Pipe,
    Rows,
    Script,
    Settings,
    Output,
}

/// Tells of a trouble, what cures it, and the exit status, which is the answer.
pub(crate) fn tell(rt: &HostRuntime, subject: TroubleSubject, path: &str, trouble: Trouble) -> u8
    ensures exit { IsExit result }
    ensures output { subject ≡ TroubleSubject.Output → IsUnwritten result }
    ensures rows { IsOfRows subject → IsShut result }
    ensures text { IsOfText subject → IsUnset result }
{
    let status = status_of(subject, trouble);
    let noun = noun_of(subject);
    let (words, cure) = words_of(trouble);
    let _ = eprintln!(rt; "cellctl: {noun}{path}: {words}");
    let _ = eprintln!(rt; "  status {status}: {cure}");
    status
}

fn status_of(subject: TroubleSubject, trouble: Trouble) -> u8
    ensures exit { IsExit result }
    ensures output { subject ≡ TroubleSubject.Output → IsUnwritten result }
    ensures rows { IsOfRows subject → IsShut result }
    ensures text { IsOfText subject → IsUnset result }
{
    match (subject, trouble) {
        (_, Trouble::NoMemory) => 4,
        (TroubleSubject::Output, _) => 1,
        (TroubleSubject::Store, _) => 3,
        (TroubleSubject::Pipe, _) => 3,
        (TroubleSubject::Rows, _) => 3,
        _ => 2,
    }
}

// What it is called, before its path.
fn noun_of(subject: TroubleSubject) -> &'static str {
    match subject {
        TroubleSubject::Store => "the store ",
        TroubleSubject::Pipe => "the pipe ",
        TroubleSubject::Rows => "the rows behind the pipes of ",
        TroubleSubject::Script => "the script ",
        TroubleSubject::Settings => "the settings ",
        TroubleSubject::Output => "the standard output",
    }
}

/// The trouble that an error of a file is.
pub(crate) fn trouble_of(kind: io::ErrorKind) -> Trouble {
    match kind {
        io::ErrorKind::NotFound => Trouble::Missing,
        io::ErrorKind::NotADirectory => Trouble::NoFolder,
        io::ErrorKind::PermissionDenied => Trouble::NotAllowed,
        io::ErrorKind::IsADirectory => Trouble::IsFolder,
        io::ErrorKind::ReadOnlyFilesystem => Trouble::ReadOnly,
        io::ErrorKind::AlreadyExists => Trouble::IsThere,
        io::ErrorKind::InvalidData => Trouble::NotUtf8,
        io::ErrorKind::StorageFull => Trouble::Full,
        io::ErrorKind::QuotaExceeded => Trouble::Full,
        io::ErrorKind::OutOfMemory => Trouble::NoMemory,
        _ => Trouble::Unreadable,
    }
}

/// The number of the system's error for a file that isn't open.
const NOT_OPEN: i32 = 9;

/// The trouble that an error of the output is.
pub(crate) fn output_trouble(error: &io::Error) -> Trouble {
    if error.raw_os_error() == Some(NOT_OPEN) {
        return Trouble::Closed;
    }
    match error.kind() {
        io::ErrorKind::BrokenPipe => Trouble::Closed,
        io::ErrorKind::StorageFull => Trouble::Full,
        io::ErrorKind::QuotaExceeded => Trouble::Full,
        io::ErrorKind::FileTooLarge => Trouble::Full,
        io::ErrorKind::OutOfMemory => Trouble::NoMemory,
        _ => Trouble::Unwritable,
    }
}
