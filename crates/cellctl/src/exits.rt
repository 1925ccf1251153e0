//! How the program ends where something can't be read or written.
ghost use Rattle.cellctl.specs.Exits.{IsExit, IsUnwritten, IsUnset};

use crate::troubles::{TroubleSubject, output_trouble, tell};
use std::io;

/// Why the command line or the settings can't be read: there is no memory for it, or it is theirs.
pub(crate) fn unread_status(kind: io::ErrorKind) -> u8
    ensures exit { IsExit result }
    ensures unset { IsUnset result }
{
    match kind {
        io::ErrorKind::OutOfMemory => 4,
        _ => 2,
    }
}

/// Tells why the standard output can't be written, and answers the exit status.
pub(crate) fn tell_unwritten(rt: &HostRuntime, error: &io::Error) -> u8
    ensures exit { IsExit result }
    ensures unwritten { IsUnwritten result }
{
    tell(rt, TroubleSubject::Output, "", output_trouble(error))
}
