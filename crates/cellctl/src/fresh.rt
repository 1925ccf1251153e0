//! Settings with a secret that nobody knows.
ghost use Rattle.std.specs.Prelude.{◌≡◌, ◌⊎◌, ◌&&◌, not, IfOk, OnOk, string_bytes};
ghost use Rattle.std.specs.Str.{bytes_eq};
ghost use Rattle.std.specs.Io.KnownBytes.{Appends};
ghost use Rattle.scripts.specs.Said.{AreSaid};
ghost use Rattle.cellctl.specs.Exits.{IsExit, IsUnset};
ghost use Rattle.cellctl.specs.Secrets.{known_secret, SaysSecret};

use crate::troubles::{TroubleSubject, tell, trouble_of};
use rows_cell::Settings;
use scripts::{TextFault, read_settings};
use std::alloc::Global;
use std::fs::OpenOptions;
use std::io::{self, ErrorKind, Write};
use std::os::unix::fs::OpenOptionsExt;
use std::random::RandomSource;

/// What such a file lets others do: nothing.
const OWN: u32 = 0o600;

/// What stands in such a file before the secret.
const HEAD: &str = "\
# The settings of a cell. Who knows the secret can forge handles: this file is for its owner alone.
# Where a key is left out it has the value here, and the secret is 64 zeros, which everybody knows.
cell       = \"c\"
lease      = 12000
principals = [\"ann\", \"bob\"]
";

/// Writes settings with a secret that the system draws into a new file, which its owner alone may read and write, and answers the
/// exit status: 0; 2 where there is such a file, or none can be made; 4 where memory runs out.
pub(crate) fn write_fresh(rt: &HostRuntime, path: &str) -> u8
    ensures exit { IsExit result }
    ensures unset { (result ≡ 0) ⊎ IsUnset result }
{
    match try_write(rt, path) {
        Ok(()) => 0,
        Err(error) => tell(rt, TroubleSubject::Settings, path, trouble_of(error.kind())),
    }
}

// The secret is drawn before the file is made: so no file is left without one.
fn try_write(rt: &HostRuntime, path: &str) -> io::Result<()> {
    let mut secret = [0; 32];
    rt.fill_bytes(&mut secret)?;
    let text = fresh_text(rt.alloc(), &secret)?;
    let mut file = OpenOptions::new()
        .write(true)
        .create_new(true)
        .mode(OWN)
        .open(rt, path)?;
    write_text(&mut file, text.as_str())?;
    file.sync_all()
}

fn write_text<W: Write>(file: &mut W, text: &str) -> io::Result<()>
    ensures { OnOk result (Appends (W.contents file.old) (W.contents file.new) text.now) }
{
    file.write_all(text.as_bytes())
}

// The text of such settings. It is read before it is written: so no file says another secret, or the one that everybody knows.
fn fresh_text(alloc: Global, secret: &[u8; 32]) -> io::Result<String>
    ensures { IfOk result (λ text. SaysSecret secret.now (string_bytes text)) }
{
    let digits = hex::encode(alloc, secret.as_slice())?;
    let text = format!(in alloc; "{HEAD}secret     = \"{digits}\"\n")?;
    let settings = read_text(alloc, text.as_str())?;
    if !is_secret_of(&settings, secret) {
        return Err(io::Error::other("the secret can't be written"));
    }
    Ok(text)
}

fn read_text(alloc: Global, text: &str) -> io::Result<Settings>
    ensures { IfOk result (λ settings. AreSaid text.now settings) }
{
    match read_settings(alloc, text) {
        Ok(settings) => Ok(settings),
        Err(TextFault::NoMemory) => Err(io::Error::from(ErrorKind::OutOfMemory)),
        Err(fault) => {
            drop(fault);
            Err(io::Error::from(ErrorKind::InvalidData))
        }
    }
}

// Whether these settings have this secret, and it isn't 64 zeros.
fn is_secret_of(settings: &Settings, secret: &[u8; 32]) -> bool
    ensures { result ≡ (bytes_eq settings.now.secret secret.now && not (bytes_eq settings.now.secret known_secret)) }
{
    let said = settings.secret().as_bytes();
    said == secret.as_slice() && said != [0; 32].as_slice()
}
