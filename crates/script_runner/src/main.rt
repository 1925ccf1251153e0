//! Runs a script of standard input over rows in lists, and prints its lines.
#![tactic(auto)]

ghost use Rattle.std.specs.Prelude.{None};
ghost use Rattle.script_runner.specs.Runs.{Runs};

use rows_cell::{ListRecords, Settings};
use scripts::script;
use std::alloc::Global;
use std::io::{BufWriter, Read, Write};
use std::process::ExitCode;

/// Memory runs out before the script begins.
const NO_MEMORY: u8 = 4;

fn main(rt: HostRuntime) -> ExitCode {
    ExitCode::from(run(&rt, rt.reader()))
}

/// Runs a script over the rows of a new cell in lists, as `run_new`, and prints to the standard output, of which no byte is
/// known.
fn run<I: Read + Drop>(rt: &HostRuntime, reader: I) -> u8
    ensures { Runs result (I.remaining reader) None None }
{
    let alloc = rt.alloc();
    let Ok(mut output) = BufWriter::new(alloc, rt.stdout()) else {
        return NO_MEMORY;
    };
    run_new(alloc, reader, &mut output, rt.stderr())
}

/// Runs a script over the rows of a new cell in lists, with the standard settings, and answers the exit status: that of the
/// script, or 4 where memory runs out before it begins.
fn run_new<I: Read + Drop, W: Write>(
    alloc: Global,
    reader: I,
    writer: &mut W,
    errors: impl Write + Drop,
) -> u8
    ensures { Runs result (I.remaining reader) (W.contents writer.old) (W.contents writer.new) }
{
    let Ok(settings) = Settings::standard(alloc) else {
        return NO_MEMORY;
    };
    match ListRecords::new(alloc, &settings) {
        Ok(records) => script(alloc, &settings, records, reader, writer, errors),
        Err(_) => NO_MEMORY,
    }
}
