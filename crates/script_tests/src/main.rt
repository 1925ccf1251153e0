//! Runs the rows of tables, and tells of each in each of its ways whether it goes as it stands there.
#![tactic(auto)]

mod cuts;
mod disks;
mod edits;
mod files;
mod plainly;
mod rows;
mod steps;
mod stores;
mod streams;
mod tables;
mod texts;
mod troubles;

use crate::rows::{Tally, run_table};
use std::io::{self, BufWriter, Write};
use std::process::ExitCode;
use std::{env, fs};

fn main(rt: HostRuntime) -> ExitCode {
    ExitCode::from(run(&rt))
}

fn run(rt: &HostRuntime) -> u8 {
    match run_all(rt) {
        Ok(tally) if tally.differ == 0 && tally.rows > 0 => 0,
        Ok(_) => 1,
        Err(error) => {
            let _ = eprintln!(rt; "script_tests: {error}");
            2
        }
    }
}

fn run_all(rt: &HostRuntime) -> io::Result<Tally> {
    let mut output = BufWriter::new(rt.alloc(), rt.stdout())?;
    let tally = run_tables(rt, &mut output)?;
    output.flush()?;
    Ok(tally)
}

// The tables that the command line names, or that of standard input. Behind `--quiet` a row that goes as it stands is counted alone.
fn run_tables<W: Write>(rt: &HostRuntime, output: &mut W) -> io::Result<Tally> {
    let words: Vec<String> = env::args(rt)?.collect(rt.alloc())?;
    let mut tally = Tally::new();
    let mut from_input = true;
    for word in words.as_slice().get(1..).unwrap_or(&[]) {
        if word.as_str() == "--quiet" {
            tally.is_quiet = true;
        } else {
            from_input = false;
            run_file(rt, output, word.as_str(), &mut tally)?;
        }
    }
    if from_input {
        let text = io::read_to_string(rt.alloc(), rt.reader())?;
        run_table(
            rt.alloc(),
            output,
            "standard input",
            text.as_str(),
            &mut tally,
        )?;
    }
    let (rows, differ) = (tally.rows, tally.differ);
    writeln!(output, "{rows} rows, {differ} differ")?;
    Ok(tally)
}

fn run_file<W: Write>(
    rt: &HostRuntime,
    output: &mut W,
    path: &str,
    tally: &mut Tally,
) -> io::Result<()> {
    let text = fs::read_to_string(rt, path)?;
    run_table(rt.alloc(), output, path, text.as_str(), tally)
}
