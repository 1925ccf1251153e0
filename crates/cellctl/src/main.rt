//! Runs scripts against a cell: their steps from a file or standard input, what happens on standard output. Tests the
//! stores of cells, serves a cell to a program, and lets clients in threads of their own use one.
#![tactic(auto)]

mod admission;
mod bad_lines;
mod check;
mod commands;
mod exits;
mod findings;
mod fresh;
mod grammar;
mod help;
mod lines;
mod lives;
mod looks;
mod pipes;
mod refusals;
mod runs;
mod serves;
mod settings;
mod sources;
mod stores;
mod texts;
mod troubles;
mod words;

use std::process::ExitCode;

fn main(rt: HostRuntime) -> ExitCode {
    ExitCode::from(commands::run(&rt, &rt))
}
