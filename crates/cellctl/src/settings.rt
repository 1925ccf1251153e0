//! The settings of a run.
ghost use Rattle.std.specs.Prelude.{◌≡◌, IfErr, IfOk};
ghost use Rattle.cellctl.specs.Exits.{IsExit, IsUnset};
ghost use Rattle.cellctl.specs.Taken.{IsLease};

use crate::texts::Trouble;
use crate::troubles::{TroubleSubject, tell, trouble_of};
use rows_cell::Settings;
use scripts::{TextFault, read_settings};
use std::fs;

/// What cures settings that are none.
const CURE: &str = "mend that, or begin with those of cellctl new-settings FILE";

/// The settings of a run, and how they were chosen.
#[derive(Drop)]
pub(crate) struct Chosen {
    pub(crate) settings: Settings,
    /// Whether a file names the principals.
    pub(crate) says_principals: bool,
}

/// The settings that a file says, or the standard ones where no file is named. Where there are none, the words of it go
/// to the standard error, and the answer is the exit status.
pub(crate) fn settings(rt: &HostRuntime, path: Option<&str>) -> Result<Chosen, u8>
    ensures lease { IfOk result (λ chosen. IsLease chosen.settings.lease) }
    ensures exit { IfErr result IsExit }
    ensures unset { IfErr result IsUnset }
{
    match path {
        Some(path) => settings_at(rt, path),
        None => standard(rt),
    }
}

// Settings have a lease of their range always.
fn chosen_of(settings: Settings, says_principals: bool) -> Chosen
    ensures settings { result.settings ≡ settings }
    ensures lease { IsLease result.settings.lease }
{
    let _lease = settings.lease();
    Chosen {
        settings,
        says_principals,
    }
}

fn standard(rt: &HostRuntime) -> Result<Chosen, u8>
    ensures lease { IfOk result (λ chosen. IsLease chosen.settings.lease) }
    ensures exit { IfErr result IsExit }
    ensures unset { IfErr result IsUnset }
{
    match Settings::standard(rt.alloc()) {
        Ok(settings) => Ok(chosen_of(settings, false)),
        Err(fault) => {
            let _ = eprintln!(rt; "cellctl: making the settings: {fault}");
            Err(4)
        }
    }
}

fn settings_at(rt: &HostRuntime, path: &str) -> Result<Chosen, u8>
    ensures lease { IfOk result (λ chosen. IsLease chosen.settings.lease) }
    ensures exit { IfErr result IsExit }
    ensures unset { IfErr result IsUnset }
{
    match fs::read_to_string(rt, path) {
        Ok(text) => said(rt, path, text.as_str()),
        Err(error) => Err(tell(rt, TroubleSubject::Settings, path, trouble_of(error.kind()))),
    }
}

fn said(rt: &HostRuntime, path: &str, text: &str) -> Result<Chosen, u8>
    ensures lease { IfOk result (λ chosen. IsLease chosen.settings.lease) }
    ensures exit { IfErr result IsExit }
    ensures unset { IfErr result IsUnset }
{
    match read_settings(rt.alloc(), text) {
        Ok(settings) => Ok(chosen_of(settings, text.contains("principals"))),
        Err(fault) => Err(tell_fault(rt, path, &fault)),
    }
}

fn tell_fault(rt: &HostRuntime, path: &str, fault: &TextFault) -> u8
    ensures exit { IsExit result }
    ensures unset { IsUnset result }
{
    if matches!(fault, TextFault::NoMemory) {
        return tell(rt, TroubleSubject::Settings, path, Trouble::NoMemory);
    }
    let _ = eprintln!(rt; "cellctl: the settings {path}: {fault}");
    let _ = eprintln!(rt; "  status 2: {CURE}");
    2
}
