//! Runs tables of rows whose messages are bytes: blocks and what they are, frames and what a master tells of them, messages that no
//! partner sends and what they change.
//!
//! `codec_tests [--random=N] FILE..` runs the tables of each file; N is how many messages a table of random ones hands in, and 0
//! where it isn't said. It prints a line for each row, and then how many there were. The status is 1 where one isn't as it
//! stands, 2 where a file can't be read or is no table, 4 where memory runs out.
#![tactic(auto)]

mod benches;
mod blocks;
mod clients;
mod dice;
mod flushes;
mod frames;
mod garbled;
mod groups;
mod guesses;
mod hostile;
mod masters;
mod random;
mod replays;
mod reports;
mod runs;
mod sheets;
mod stages;
mod stops;
mod tables;
mod tellings;
mod texts;
mod walks;
mod words;

use std::process::ExitCode;

fn main(rt: HostRuntime) -> ExitCode {
    ExitCode::from(runs::run(&rt))
}
