//! Runs of clients in threads of their own.
ghost use Rattle.std.specs.Prelude.{◌≡◌, ◌↔◌, false};
ghost use Rattle.threads.specs.Bounds.{is_within, IsStatus};
ghost use Rattle.cellctl.specs.Exits.{IsExit};

use clap::{Arg, ArgAction, ArgMatches, Command};
use std::alloc::{AllocError, Global};
use std::sync::Wait;
use std::thread::Threads;
use threads::{NoHook, live_with};

/// What such a run does and prints, and how it ends.
const RUNS: &str = "\
Each client runs in a thread of its own, and all use one master, whose rows stand in memory. Each opens the file /ls/c/live,
sets it in every eighth round and reads it in the others, while one more thread asks the client's cache for it. Once all have
made their rounds, all sessions end. On standard output stands one of
  balanced clients C rounds R held H
                    the rights to cache the file, counted by the threads that had a part in them, are those that the master
                    counted; H of them are still held
  refused N WORDS   the run was refused, as by 40 WatchFull behind 1,000,000 steps of the master

Limits:
  CLIENTS           1 to 64
  ROUNDS            1 to 10,000, and with CLIENTS multiplied at most 20,000

Exit status:
  0                 the run balances
  2                 a wrong command line
  5                 the run was refused, or its line can't be written";

/// The program with the words of such a run.
pub(crate) fn with_live<'a>(
    alloc: Global,
    program: Command<'a>,
) -> Result<Command<'a>, AllocError> {
    match live_words(alloc) {
        Ok(live) => program.subcommand(live),
        Err(error) => {
            drop(program);
            Err(error)
        }
    }
}

fn live_words<'a>(alloc: Global) -> Result<Command<'a>, AllocError> {
    let live = live_about(alloc).arg(number_word(alloc, "CLIENTS", "How many clients there are"))?;
    live.arg(number_word(alloc, "ROUNDS", "How many rounds each client makes"))
}

fn live_about<'a>(alloc: Global) -> Command<'a> {
    Command::new(alloc, "live")
        .about(
            "Lets clients in threads of their own use one master, and says whether what they did balances",
        )
        .after_help(RUNS)
}

fn number_word<'a>(alloc: Global, name: &'a str, help: &'a str) -> Arg<'a> {
    Arg::new(alloc, name)
        .help(help)
        .required(true)
        .action(ArgAction::Set)
}

/// Does the run that the words ask for, and answers the exit status: 0 where it balances, 2 outside the limits, which goes to the
/// standard error, and 5 where it was refused or its line can't be written.
pub(crate) fn run_live<W: Threads + Wait + Sync>(
    rt: &HostRuntime,
    threads: &W,
    words: &ArgMatches<'_>,
) -> u8
    ensures exit { IsExit result }
    // 0 where it balances, 2 outside the limits, and 5.
    ensures status { IsStatus result }
{
    match (number(words, "CLIENTS"), number(words, "ROUNDS")) {
        (Some(clients), Some(rounds)) => run_clients(rt, threads, clients, rounds),
        _ => refuse_words(rt),
    }
}

fn number(words: &ArgMatches<'_>, name: &str) -> Option<u64> {
    words.get_str(name)?.parse().ok()
}

#[tactic(auto, using(crate::proofs::Commanded::exit_of))]
fn run_clients<W: Threads + Wait + Sync>(
    rt: &HostRuntime,
    threads: &W,
    clients: u64,
    rounds: u64,
) -> u8
    ensures exit { IsExit result }
    ensures status { IsStatus result }
    ensures bounds { (result ≡ 2) ↔ (is_within clients rounds ≡ false) }
{
    let mut output = rt.stdout();
    let status = live_with(threads, rt.alloc(), clients, rounds, &NoHook, &mut output);
    if status == 2 {
        let _ = refuse_words(rt);
    }
    status
}

fn refuse_words(rt: &HostRuntime) -> u8
    ensures exit { IsExit result }
    ensures words { result ≡ 2 }
{
    let _ = eprintln!(rt;
        "cellctl: CLIENTS is 1 to 64, ROUNDS 1 to 10000, and both multiplied at most 20000"
    );
    2
}
