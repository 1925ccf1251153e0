//! The command line.
ghost use Rattle.std.specs.Prelude.{◌≡◌, ◌⊎◌, None, IfErr, IfOk, OnErr};
ghost use Rattle.sqlite_wal.specs.Files.{image_at};
ghost use Rattle.cellctl.specs.Anew.{EndsSomeRun};
ghost use Rattle.cellctl.specs.Exits.{IsExit, IsUnset};
ghost use Rattle.cellctl.specs.Led.{EndsSomeFrames};
ghost use Rattle.cellctl.specs.Taken.{IsTakenFrom, IsOpenedIn};
ghost use Rattle.cellctl.specs.Tested.{EndsTest};

use crate::check::check_store;
use crate::exits::{tell_unwritten, unread_status};
use crate::fresh::write_fresh;
use crate::lives::run_live;
use crate::pipes::serve_rows;
use crate::serves::serve_path;
use crate::settings::settings;
use crate::sources::Source;
use crate::stores::{ScriptAsked, run_printing};
use crate::texts::Trouble;
use crate::troubles::{TroubleSubject, tell, trouble_of};
use crate::words::program;
use anyhow::{Context, Result, bail};
use clap::ArgMatches;
use clap::error::{Error, ErrorKind};
use hosting::GroupLimits;
use sqlite_disk::{Start, Unknown};
use std::env::{self, Args};
use std::fs::{self, File};
use std::io::{Read, Write};
use std::sync::Wait;
use std::thread::Threads;

/// Does what the command line asks for, and answers the exit status: that of the script; 0 for a sound store and 3 for one
/// that is refused or can't be opened; 0 after help and the version; 1 where these can't be written; 2 for a wrong command line, also one
/// that isn't UTF-8, and for settings that aren't any; 4 where memory runs out before; 5 for a run of threads that was refused.
pub(crate) fn run<W: Threads + Wait + Sync>(rt: &HostRuntime, threads: &W) -> u8
    ensures { IsExit result }
{
    match env::args(rt) {
        Ok(words) => match run_command(rt, threads, words) {
            Ok(status) => status,
            Err(error) => {
                let _ = eprintln!(rt; "cellctl: {error:#}");
                4
            }
        },
        Err(error) => {
            let _ = eprintln!(rt; "cellctl: reading the command line: {error}");
            unread_status(error.kind())
        }
    }
}

fn run_command<W: Threads + Wait + Sync>(rt: &HostRuntime, threads: &W, words: Args) -> Result<u8>
    ensures { IfOk result IsExit }
{
    let alloc = rt.alloc();
    let words: Vec<String> = words.collect(alloc).context("reading the command line")?;
    let asked = program(alloc)?.try_get_matches_from(words.as_slice());
    match asked {
        Ok(matches) => do_command(rt, threads, &matches),
        Err(error) => {
            if error.kind() == ErrorKind::OutOfMemory {
                bail!("out of memory");
            }
            Ok(tell_words(rt, &error))
        }
    }
}

// Of the subcommands one is there.
fn do_command<W: Threads + Wait + Sync>(
    rt: &HostRuntime,
    threads: &W,
    matches: &ArgMatches<'_>,
) -> Result<u8>
    ensures { IfOk result IsExit }
{
    if let Some(found) = matches.subcommand_matches("check") {
        let path = found.get_str("FILE").unwrap_or_default();
        return check(rt, found.get_str("settings"), path, &mut rt.stdout());
    }
    if let Some(found) = matches.subcommand_matches("serve") {
        return serve(rt, found, Unknown, rt.reader(), &mut rt.stdout());
    }
    if let Some(found) = matches.subcommand_matches("live") {
        return Ok(run_live(rt, threads, found));
    }
    if let Some(found) = matches.subcommand_matches("new-settings") {
        return Ok(write_fresh(rt, found.get_str("FILE").unwrap_or_default()));
    }
    match matches.subcommand_matches("run") {
        Some(found) => run_script(rt, found, Unknown),
        None => Ok(2),
    }
}

// Over the rows of another program where a folder is named, else over the store in a file. `S` stands for what the files hold, as in
// `run_path`.
fn serve<S: Start, I: Read + Drop, W: Write>(
    rt: &HostRuntime,
    found: &ArgMatches<'_>,
    start: S,
    reader: I,
    writer: &mut W,
) -> Result<u8>
    ensures exit { IfOk result IsExit }
    ensures served { IfOk result (λ status. EndsSomeFrames (λ settings first. IsTakenFrom settings (image_at S.Start) first ⊎ IsOpenedIn None None settings first) (I.remaining reader) status (W.contents writer.old) (W.contents writer.new)) }
    ensures none { OnErr result (W.contents writer.new ≡ W.contents writer.old) }
{
    let named = found.get_str("settings");
    let limits = limits_of(found);
    match found.get_str("rows") {
        Some(folder) => serve_rows(rt, named, folder, limits, reader, writer),
        None => {
            let path = found.get_str("store").unwrap_or_default();
            serve_path(rt, named, path, start, limits, reader, writer)
        }
    }
}

// What is committed as one change.
fn limits_of(found: &ArgMatches<'_>) -> GroupLimits {
    GroupLimits {
        edits: found.get_one("group-edits").unwrap_or(u64::MAX),
        bytes: found.get_one("group-bytes").unwrap_or(u64::MAX),
    }
}

// Tells what stands in place of a script: what is wrong with the command line, whether or not these words can be
// written; or help or the version, which have to be.
fn tell_words(rt: &HostRuntime, words: &Error) -> u8
    ensures { IsExit result }
{
    let written = words.print(rt);
    if words.use_stderr() {
        return 2;
    }
    match written {
        Ok(()) => 0,
        Err(error) => tell_unwritten(rt, &error),
    }
}

// A script of a file or of the standard input, with the settings of a file or the standard ones, over the store in a file or a new
// one in memory.
fn run_script<S: Start>(rt: &HostRuntime, words: &ArgMatches<'_>, start: S) -> Result<u8>
    ensures exit { IfOk result IsExit }
    // Of the input and the output no byte is known; what is read and written is said by `run_over`.
    ensures ran { IfOk result (λ status. EndsSomeRun (image_at S.Start) status None None) }
{
    match settings(rt, words.get_str("settings")) {
        Ok(chosen) => match source_of(rt, words.get_str("FILE")) {
            Ok(source) => {
                let asked = ScriptAsked {
                    source,
                    is_traced: words.get_flag("trace"),
                };
                run_printing(rt, &chosen, words.get_str("store"), start, asked)
            }
            Err(status) => Ok(status),
        },
        Err(status) => Ok(status),
    }
}

// Where the steps come from: a file, or the standard input, for which `-` stands too.
fn source_of(rt: &HostRuntime, path: Option<&str>) -> Result<Source, u8>
    ensures exit { IfErr result IsExit }
    ensures unset { IfErr result IsUnset }
{
    match path {
        Some("-") => input_of(rt),
        Some(path) => file_of(rt, path),
        None => input_of(rt),
    }
}

fn input_of(rt: &HostRuntime) -> Result<Source, u8>
    ensures exit { IfErr result IsExit }
    ensures unset { IfErr result IsUnset }
{
    match Source::input(rt.alloc(), rt.stdin(), rt.stderr()) {
        Ok(source) => Ok(source),
        Err(_) => Err(tell(rt, TroubleSubject::Script, "-", Trouble::NoMemory)),
    }
}

fn file_of(rt: &HostRuntime, path: &str) -> Result<Source, u8>
    ensures exit { IfErr result IsExit }
    ensures unset { IfErr result IsUnset }
{
    if is_folder(rt, path) {
        return Err(tell(rt, TroubleSubject::Script, path, Trouble::IsFolder));
    }
    match File::open(rt, path) {
        Ok(file) => Ok(Source::File(file)),
        Err(error) => Err(tell(rt, TroubleSubject::Script, path, trouble_of(error.kind()))),
    }
}

fn is_folder(rt: &HostRuntime, path: &str) -> bool {
    match fs::metadata(rt, path) {
        Ok(found) => found.is_dir(),
        Err(_) => false,
    }
}

// The store in a file, with the settings of a file or the standard ones.
fn check<W: Write>(rt: &HostRuntime, named: Option<&str>, path: &str, output: &mut W) -> Result<u8>
    ensures exit { IfOk result IsExit }
    ensures tested { IfOk result (λ status. EndsTest status (W.contents output.old) (W.contents output.new)) }
{
    match settings(rt, named) {
        Ok(chosen) => check_store(rt, chosen.settings.cell(), path, output),
        Err(status) => Ok(status),
    }
}
