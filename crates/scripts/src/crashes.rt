//! Scripts in which crashes are steps too, over records that can be left as a crash may leave them.
ghost use Rattle.std.specs.Prelude.{◌≡◌, ◌≤◌, ℕ, [], length, IfSome, IfNone};
ghost use Rattle.scripts.specs.Ran.{EndsAs, EndsWith};
ghost use Rattle.scripts.specs.Scripts.{Wrote};
ghost use Rattle.scripts.specs.Settling.{played};
ghost use Rattle.scripts.specs.Stops.{IsStatus};
ghost use Rattle.scripts.specs.Crashing.{WritesCrash, CrashesTo, DoesOrCrashes, IsOfCrashes, Between, Through};

use crate::deliveries::Deliveries;
use crate::lines::{LINE_COUNT_LIMIT, ScriptLines};
use crate::scripts::{advance, run_line, write_answer};
use crate::stops::ScriptStop;
use crate::traces::Trace;
use crate::words::number;
use std::alloc::Global;
use std::io::{Read, Write};
use std::str;
use world_cell::World;
use world_steps::Crashes;

/// Runs a script on a world that is there, as `script_on` does that isn't traced, in which a line may also be a crash: `crash`, which
/// leaves the first of the rows that it may, those that stand; or `crash N`, which leaves the N-th. The master is gone then, and
/// `down` is printed if one was up; which messages were delivered stays. It is refused as the 37 `NoSuchMessage` where there are
/// not so many rows.
pub fn script_with_crashes<R: Crashes + Drop, I: Read + Drop, W: Write>(
    alloc: Global,
    world: &mut World<R>,
    reader: I,
    writer: &mut W,
    errors: impl Write + Drop,
) -> u8
    ensures status { IsStatus result }
    // At the end of the script: each line was done once and in order.
    ensures written { result ≡ 0 → Wrote (IsOfCrashes (I.remaining reader) world.old world.new) (W.contents writer.old) (W.contents writer.new) }
    // Whatever the end: what was done are runs with crashes between them, and all laws of runs hold of each.
    ensures ran { EndsWith result (λ _ printed. Through world.old world.new printed) (W.contents writer.old) (W.contents writer.new) }
{
    world.crashes_hold();
    let mut trace = Trace::new(errors, false, 0);
    match run_crashing(alloc, world, reader, writer) {
        Ok(()) => 0,
        Err(stop) => {
            // Where these words can't be written, the status still tells.
            let _ = trace.stop(&stop);
            stop.status()
        }
    }
}

fn run_crashing<R: Crashes + Drop, I: Read + Drop, W: Write>(
    alloc: Global,
    world: &mut World<R>,
    reader: I,
    writer: &mut W,
) -> Result<(), ScriptStop>
    ensures { EndsAs result (λ _ printed. IsOfCrashes (I.remaining reader) world.old world.new printed) (λ _ printed. Between world.old world.new printed) (W.contents writer.old) (W.contents writer.new) }
{
    let mut lines = ScriptLines::new(alloc, reader)?;
    let ended = crashing_lines(alloc, world, &mut lines, writer);
    writer.flush()?;
    ended
}

fn crashing_lines<R: Crashes + Drop, I: Read + Drop, W: Write>(
    alloc: Global,
    world: &mut World<R>,
    lines: &mut ScriptLines<I>,
    output: &mut W,
) -> Result<(), ScriptStop>
    requires { lines.old.number ≡ 0 }
    ensures { EndsAs result (λ _ printed. IsOfCrashes lines.old.rest world.old world.new printed) (λ _ printed. Between world.old world.new printed) (W.contents output.old) (W.contents output.new) }
{
    let mut delivered = Deliveries::new(alloc);
    for _ in 0..=LINE_COUNT_LIMIT {
        if !advance(lines, output)? {
            return Ok(());
        }
        run_or_crash(alloc, world, lines, &mut delivered, output)?;
    }
    Err(ScriptStop::Unread(lines.number().saturating_add(1)))
}

// Does what the line asks for that was read last, which may be a crash.
fn run_or_crash<R: Crashes + Drop, I: Read + Drop, W: Write>(
    alloc: Global,
    world: &mut World<R>,
    lines: &ScriptLines<I>,
    delivered: &mut Deliveries,
    output: &mut W,
) -> Result<(), ScriptStop>
    requires { length lines.now.line ≤ 1048576 }
    ensures { EndsAs result (λ _ printed. DoesOrCrashes (played world.old delivered.old) lines.now.line printed (played world.new delivered.new)) (λ _ printed. Between world.old world.new printed) (W.contents output.old) (W.contents output.new) }
{
    match crash_in(lines.line()) {
        Some(number) => crash(world, number, output),
        None => run_line(alloc, world, lines, delivered, output),
    }
}

// A crash that leaves the rows of a number.
fn crash<R: Crashes + Drop, W: Write>(
    world: &mut World<R>,
    number: u64,
    output: &mut W,
) -> Result<(), ScriptStop>
    ensures { EndsAs result (λ _ printed. CrashesTo number world.old world.new printed) (λ _ printed. Between world.old world.new printed) (W.contents output.old) (W.contents output.new) }
{
    write_answer(output, &world.crash(number))
}

// The number of the rows that a crash leaves, where the line asks for one. What isn't UTF-8 asks for none.
fn crash_in(line: &[u8]) -> Option<u64>
    ensures { IfSome result (WritesCrash line.now) }
{
    match str::from_utf8(line) {
        Ok(text) => crash_of(text),
        Err(_) => None,
    }
}

// The same of a text: exactly where its words are those of a crash.
fn crash_of(text: &str) -> Option<u64>
    ensures some { IfSome result (WritesCrash text.now) }
    ensures none { IfNone result ((number : ℕ) → ¬ (WritesCrash text.now number)) }
{
    if text == "crash" {
        return Some(1);
    }
    match text.strip_prefix("crash ") {
        Some(word) => number(word),
        None => None,
    }
}
