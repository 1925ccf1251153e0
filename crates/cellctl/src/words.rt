//! The words of the command line.
use crate::help::{FRAMES, SCRIPTS, STORES, VERSION};
use crate::lives::with_live;
use clap::builder::ValueParser;
use clap::{Arg, ArgAction, Command};
use std::alloc::{AllocError, Global};

/// The program, with its subcommands.
pub(crate) fn program<'a>(alloc: Global) -> Result<Command<'a>, AllocError> {
    let run = run_words(alloc)?;
    let program = with_serve(alloc, with_check(alloc, with_run(alloc, run)?)?)?;
    with_live(alloc, with_fresh(alloc, program)?)
}

fn with_run<'a>(alloc: Global, run: Command<'a>) -> Result<Command<'a>, AllocError> {
    Command::new(alloc, "cellctl")
        .about(
            "Runs scripts against a cell, tests its stores, serves it to a program, and lets threads use one",
        )
        .version(VERSION)
        .subcommand_required(true)
        .subcommand(run)
}

fn with_check<'a>(alloc: Global, program: Command<'a>) -> Result<Command<'a>, AllocError> {
    match check_words(alloc) {
        Ok(check) => program.subcommand(check),
        Err(error) => {
            drop(program);
            Err(error)
        }
    }
}

fn with_serve<'a>(alloc: Global, program: Command<'a>) -> Result<Command<'a>, AllocError> {
    match serve_words(alloc) {
        Ok(serve) => program.subcommand(serve),
        Err(error) => {
            drop(program);
            Err(error)
        }
    }
}

fn with_fresh<'a>(alloc: Global, program: Command<'a>) -> Result<Command<'a>, AllocError> {
    match fresh_words(alloc) {
        Ok(fresh) => program.subcommand(fresh),
        Err(error) => {
            drop(program);
            Err(error)
        }
    }
}

fn fresh_words<'a>(alloc: Global) -> Result<Command<'a>, AllocError> {
    Command::new(alloc, "new-settings")
        .about("Writes settings with a random secret into a new file, for its owner alone")
        .arg(fresh_word(alloc))
}

fn fresh_word<'a>(alloc: Global) -> Arg<'a> {
    Arg::new(alloc, "FILE")
        .help("The new file, in TOML; one that is there is never written over")
        .required(true)
        .action(ArgAction::Set)
}

fn run_words<'a>(alloc: Global) -> Result<Command<'a>, AllocError> {
    let run = run_about(alloc).arg(settings_word(alloc))?;
    let run = run.arg(store_word(alloc))?.arg(trace_word(alloc))?;
    run.arg(script_word(alloc))
}

fn script_word<'a>(alloc: Global) -> Arg<'a> {
    Arg::new(alloc, "FILE")
        .help("The script; without it, or as -, that of standard input")
        .action(ArgAction::Set)
}

fn run_about<'a>(alloc: Global) -> Command<'a> {
    Command::new(alloc, "run")
        .about(
            "Runs a script, of a file or of standard input, and prints the lines of its steps on standard output",
        )
        .after_help(SCRIPTS)
}

fn check_words<'a>(alloc: Global) -> Result<Command<'a>, AllocError> {
    let check = check_about(alloc).arg(settings_word(alloc))?;
    check.arg(file_word(alloc))
}

fn check_about<'a>(alloc: Global) -> Command<'a> {
    Command::new(alloc, "check")
        .about("Tests the store in a SQLite file, and counts what it holds")
        .after_help(STORES)
}

fn serve_words<'a>(alloc: Global) -> Result<Command<'a>, AllocError> {
    let serve = serve_about(alloc).arg(settings_word(alloc))?;
    let serve = with_word(serve, served_word(alloc))?;
    let serve = with_word(serve, rows_word(alloc))?;
    let serve = serve.arg(group_edits_word(alloc))?;
    serve.arg(group_bytes_word(alloc))
}

fn with_word<'a>(
    command: Command<'a>,
    word: Result<Arg<'a>, AllocError>,
) -> Result<Command<'a>, AllocError> {
    match word {
        Ok(word) => command.arg(word),
        Err(error) => {
            drop(command);
            Err(error)
        }
    }
}

fn serve_about<'a>(alloc: Global) -> Command<'a> {
    Command::new(alloc, "serve")
        .about("Answers the frames of a program that carries the messages of clients")
        .after_help(FRAMES)
}

fn served_word<'a>(alloc: Global) -> Result<Arg<'a>, AllocError> {
    Arg::new(alloc, "store")
        .long("store")
        .value_name("FILE")
        .help("The SQLite file of the store, which is made where there is none")
        .action(ArgAction::Set)
        .required_unless_present("rows")
}

fn rows_word<'a>(alloc: Global) -> Result<Arg<'a>, AllocError> {
    Arg::new(alloc, "rows")
        .long("rows")
        .value_name("FOLDER")
        .help(
            "In place of a store: the folder of two named pipes, `asked` and `answered`, to the program that keeps the rows",
        )
        .action(ArgAction::Set)
        .conflicts_with("store")
}

fn group_edits_word<'a>(alloc: Global) -> Arg<'a> {
    Arg::new(alloc, "group-edits")
        .long("group-edits")
        .value_name("NUMBER")
        .help(
            "The most edits that are committed as one change, where one sweep alone has not more; without it any number",
        )
        .action(ArgAction::Set)
        .value_parser(ValueParser::unsigned(1, u64::MAX))
}

fn group_bytes_word<'a>(alloc: Global) -> Arg<'a> {
    Arg::new(alloc, "group-bytes")
        .long("group-bytes")
        .value_name("NUMBER")
        .help(
            "The most bytes that are committed as one change, 2,048 for each edit beside its content; without it any number",
        )
        .action(ArgAction::Set)
        .value_parser(ValueParser::unsigned(1, u64::MAX))
}

fn settings_word<'a>(alloc: Global) -> Arg<'a> {
    Arg::new(alloc, "settings")
        .long("settings")
        .value_name("FILE")
        .help("The settings of the cell, in TOML")
        .action(ArgAction::Set)
}

fn store_word<'a>(alloc: Global) -> Arg<'a> {
    Arg::new(alloc, "store")
        .long("store")
        .value_name("FILE")
        .help("The SQLite file of the store; without it the store stands in memory")
        .action(ArgAction::Set)
}

fn trace_word<'a>(alloc: Global) -> Arg<'a> {
    Arg::new(alloc, "trace")
        .long("trace")
        .help("Tells on standard error of each message that is sent")
        .action(ArgAction::SetTrue)
}

fn file_word<'a>(alloc: Global) -> Arg<'a> {
    Arg::new(alloc, "FILE")
        .help("The SQLite file of the store")
        .required(true)
        .action(ArgAction::Set)
}
