//! Runs a script.
ghost use Rattle.std.specs.Prelude.{◌≡◌, ◌≤◌, ◌∷◌, [], Some, length, OnOk, IfOk, IfErr};
ghost use Rattle.std.specs.Io.KnownBytes.{Keeps};
ghost use Rattle.rows_cell.specs.Settings.{terms_of};
ghost use Rattle.world_steps.specs.World.{WorldView, IsUndoubted, opened};
ghost use Rattle.scripts.specs.Ran.{Ends, EndsWell, EndsSurely, EndsIn, EndsAs, EndsWith, IsNeverInDoubt, RunsSurely, Breaks, BreaksTurn, BreaksLine, StopsReading, Writes, Obeys};
ghost use Rattle.scripts.specs.Scripts.{Wrote, IsOfScript, DoesLine, told};
ghost use Rattle.scripts.specs.Settling.{played, Settles, TakesTurn, PlaysMade, PlaysRefused, turn_step, is_waiting, is_idle};
ghost use Rattle.scripts.specs.Stops.{IsStatus};
ghost use Rattle.scripts.specs.Texts.{Advances};

use crate::deliveries::Deliveries;
use crate::lines::{LINE_COUNT_LIMIT, ScriptLines};
use crate::steps::{Parsed, read_line};
use crate::stops::ScriptStop;
use crate::traces::Trace;
use collections::Items;
use node_core::{Fault, Line};
use rows_cell::{Records, Settings};
use std::alloc::Global;
use std::io::{Read, Write};
use world_cell::World;
use world_steps::SweepResult;

/// Runs a script on a new world over the records: reads its steps, one a line, and writes the lines that they print.
/// Answers the exit status: 0; 1 at a line that is no step, where the steps before it stand, and where a line can't be
/// written; 4 where memory runs out outside a step. The words of it go to `errors`; after a write that failed there are
/// none. Each line is written by itself, so the writer should have a buffer; it is flushed before more input is read, and
/// at the end.
pub fn script<R: Records + Drop, I: Read + Drop, W: Write>(
    alloc: Global,
    settings: &Settings,
    records: R,
    reader: I,
    writer: &mut W,
    errors: impl Write + Drop,
) -> u8
    ensures status { IsStatus result }
    ensures written { result ≡ 0 → Wrote (IsOfScript (I.remaining reader) (opened (R.store records) (terms_of settings.now))) (W.contents writer.old) (W.contents writer.new) }
    // Whatever the end, as of `script_on`: the world that the steps left is gone, and the records with it.
    ensures ran { (new : WorldView) × EndsWith result (EndsWell (I.remaining reader) (opened (R.store records) (terms_of settings.now)) new) (W.contents writer.old) (W.contents writer.new) }
    // Over records that are never in doubt, as lists: all laws hold, and no more is asked.
    ensures sure { IsNeverInDoubt R.store → RunsSurely result (I.remaining reader) (opened (R.store records) (terms_of settings.now)) (W.contents writer.old) (W.contents writer.new) }
{
    let mut world = World::new(alloc, records, settings);
    let status = script_on(alloc, &mut world, reader, writer, errors, false);
    drop(world.close());
    status
}

/// The same on a world that is there. After the script it stands as the steps left it, and can be closed. Where it is
/// traced, `errors` is told of each message that was sent, after the line that sent it: `message N client C -> master KIND`
/// or `message N master -> client C KIND`.
pub fn script_on<R: Records + Drop, I: Read + Drop, W: Write>(
    alloc: Global,
    world: &mut World<R>,
    reader: I,
    writer: &mut W,
    errors: impl Write + Drop,
    is_traced: bool,
) -> u8
    ensures status { IsStatus result }
    ensures written { result ≡ 0 → Wrote (IsOfScript (I.remaining reader) world.old) (W.contents writer.old) (W.contents writer.new) }
    // Whatever the end: what was done are steps of the world, one after the other, and their lines were written, with
    // refusals of lines that are no steps between them; so the laws of runs hold of them, and each `served` line shows the
    // map of its moment. If line N is no step or can't be read, these are the steps of the lines before it. For want of memory, or
    // if lines can't be written, they are those of lines, each whole, and of the next one nothing, or all, or some turns of its settle.
    ensures ran { EndsWith result (EndsWell (I.remaining reader) world.old world.new) (W.contents writer.old) (W.contents writer.new) }
    // Where nothing is in doubt after it, nothing was before, and all these laws hold.
    ensures sure { IsUndoubted world.new → IsUndoubted world.old × EndsWith result (EndsSurely (I.remaining reader) world.old world.new) (W.contents writer.old) (W.contents writer.new) }
{
    world.runs_hold();
    let mut trace = Trace::new(errors, is_traced, world.messages().len());
    match run(alloc, world, reader, writer, &mut trace) {
        Ok(()) => 0,
        Err(stop) => {
            // Where these words can't be written, the status still tells.
            let _ = trace.stop(&stop);
            stop.status()
        }
    }
}

fn run<R: Records + Drop, I: Read + Drop, W: Write, E: Write + Drop>(
    alloc: Global,
    world: &mut World<R>,
    reader: I,
    writer: &mut W,
    trace: &mut Trace<E>,
) -> Result<(), ScriptStop>
    ensures { EndsIn result (Ends (I.remaining reader) world.old world.new result) (W.contents writer.old) (W.contents writer.new) }
{
    let mut lines = ScriptLines::new(alloc, reader)?;
    let ended = run_lines(alloc, world, &mut lines, writer, trace);
    writer.flush()?;
    ended
}

fn run_lines<R: Records + Drop, I: Read + Drop, W: Write, E: Write + Drop>(
    alloc: Global,
    world: &mut World<R>,
    lines: &mut ScriptLines<I>,
    output: &mut W,
    trace: &mut Trace<E>,
) -> Result<(), ScriptStop>
    requires { lines.old.number ≡ 0 }
    ensures { EndsIn result (Ends lines.old.rest world.old world.new result) (W.contents output.old) (W.contents output.new) }
{
    let mut delivered = Deliveries::new(alloc);
    for _ in 0..=LINE_COUNT_LIMIT {
        if !advance(lines, output)? {
            return Ok(());
        }
        run_told(alloc, world, lines, &mut delivered, output, trace)?;
    }
    Err(ScriptStop::Unread(lines.number().saturating_add(1)))
}

// Goes on to the next line; false where there is none. What was printed is written before more input is read.
pub(crate) fn advance<I: Read + Drop, W: Write>(
    lines: &mut ScriptLines<I>,
    output: &mut W,
) -> Result<bool, ScriptStop>
    ensures advances { IfOk result (λ is_there. Advances is_there lines.old lines.new) }
    ensures stopped { IfErr result (λ stop. lines.old.number ≤ 1000000 → StopsReading lines.old.rest lines.old.number stop) }
    ensures kept { Keeps (W.contents output.old) (W.contents output.new) }
{
    if lines.is_used_up() {
        output.flush()?;
    }
    lines.advance()
}

// Does what the line asks for that was read last, and tells of the messages that it sent.
fn run_told<R: Records + Drop, I: Read + Drop, W: Write, E: Write + Drop>(
    alloc: Global,
    world: &mut World<R>,
    lines: &ScriptLines<I>,
    delivered: &mut Deliveries,
    output: &mut W,
    trace: &mut Trace<E>,
) -> Result<(), ScriptStop>
    requires { length lines.now.line ≤ 1048576 }
    ensures { EndsAs result (λ _ printed. DoesLine (played world.old delivered.old) lines.now.line printed (played world.new delivered.new)) (BreaksLine lines.now.line lines.now.number (played world.old delivered.old) (played world.new delivered.new)) (W.contents output.old) (W.contents output.new) }
{
    let done = run_line(alloc, world, lines, delivered, output);
    trace.tell(world.messages());
    done
}

// Does what the line asks for that was read last.
pub(crate) fn run_line<R: Records + Drop, I: Read + Drop, W: Write>(
    alloc: Global,
    world: &mut World<R>,
    lines: &ScriptLines<I>,
    delivered: &mut Deliveries,
    output: &mut W,
) -> Result<(), ScriptStop>
    requires { length lines.now.line ≤ 1048576 }
    ensures { EndsAs result (λ _ printed. DoesLine (played world.old delivered.old) lines.now.line printed (played world.new delivered.new)) (BreaksLine lines.now.line lines.now.number (played world.old delivered.old) (played world.new delivered.new)) (W.contents output.old) (W.contents output.new) }
{
    let parsed = read_line(alloc, lines.line())?;
    if !obey(world, &parsed, delivered, output)? {
        return Err(ScriptStop::BadStep(lines.number()));
    }
    Ok(())
}

// Does what a line asks for; false where it is no step.
fn obey<R: Records + Drop, W: Write>(
    world: &mut World<R>,
    parsed: &Parsed,
    delivered: &mut Deliveries,
    output: &mut W,
) -> Result<bool, ScriptStop>
    ensures { EndsAs result (λ done printed. Obeys done (played world.old delivered.old) parsed.now printed (played world.new delivered.new)) (Breaks parsed.now (played world.old delivered.old) (played world.new delivered.new)) (W.contents output.old) (W.contents output.new) }
{
    match parsed {
        Parsed::Nothing => {}
        Parsed::Step(step) => write_answer(output, &delivered.play(world, step))?,
        Parsed::Settle => settle(world, delivered, output)?,
        Parsed::Refused(fault) => write_refusal(output, *fault)?,
        Parsed::Bad => return Ok(false),
    }
    Ok(true)
}

// Delivers the lowest message that was never delivered, or sweeps where there is none, again and again, until a sweep
// finds nothing to do and no message is left. A refusal of one of these ends it.
fn settle<R: Records + Drop, W: Write>(
    world: &mut World<R>,
    delivered: &mut Deliveries,
    output: &mut W,
) -> Result<(), ScriptStop>
    ensures { EndsAs result (λ _ printed. Settles (played world.old delivered.old) printed (played world.new delivered.new)) (Breaks Parsed.Settle (played world.old delivered.old) (played world.new delivered.new)) (W.contents output.old) (W.contents output.new) }
{
    if !world.is_up() {
        return write_refusal(output, Fault::MasterDown);
    }
    for _ in 0..u64::MAX {
        if !settle_on(world, delivered, output)? {
            return Ok(());
        }
    }
    // So many turns send more messages than memory holds.
    Err(ScriptStop::NoMemory)
}

// One turn; false where it was the last.
fn settle_on<R: Records + Drop, W: Write>(
    world: &mut World<R>,
    delivered: &mut Deliveries,
    output: &mut W,
) -> Result<bool, ScriptStop>
    ensures { EndsAs result (λ more printed. TakesTurn more (played world.old delivered.old) printed (played world.new delivered.new)) (BreaksTurn (played world.old delivered.old) (played world.new delivered.new)) (W.contents output.old) (W.contents output.new) }
{
    match settle_turn(world, delivered) {
        Ok(turn) => {
            write_lines(output, turn.lines.as_slice())?;
            Ok(!turn.quiet || has_waiting(world, delivered))
        }
        Err(fault) => {
            write_refusal(output, fault)?;
            Ok(false)
        }
    }
}

// The turn itself. It is quiet where it is a sweep that found nothing to do.
fn settle_turn<R: Records + Drop>(
    world: &mut World<R>,
    delivered: &mut Deliveries,
) -> Result<SweepResult, Fault>
    ensures made { IfOk result (λ turn. PlaysMade (played world.old delivered.old) (turn_step (played world.old delivered.old)) (played world.new delivered.new) turn.lines) }
    ensures quiet { IfOk result (λ turn. turn.quiet ≡ is_idle (played world.old delivered.old)) }
    ensures refused { IfErr result (λ e. PlaysRefused (played world.old delivered.old) (turn_step (played world.old delivered.old)) (played world.new delivered.new) (Line.Refused e ∷ [])) }
{
    let Some(step) = delivered.next(world.messages()) else {
        return world.sweep();
    };
    let lines = delivered.play(world, &step)?;
    Ok(SweepResult {
        lines,
        quiet: false,
    })
}

// Whether a message came to nobody.
fn has_waiting<R: Records + Drop>(world: &World<R>, delivered: &Deliveries) -> bool
    ensures { result ≡ is_waiting (played world.now delivered.now) }
{
    let waiting = delivered.next(world.messages());
    let is_there = waiting.is_some();
    drop(waiting);
    is_there
}

// Writes what a step printed, or its refusal.
pub(crate) fn write_answer<W: Write>(
    output: &mut W,
    answer: &Result<Items<Line>, Fault>,
) -> Result<(), ScriptStop>
    ensures { Writes result (told answer.now) (W.contents output.old) (W.contents output.new) }
{
    match answer {
        Ok(lines) => write_lines(output, lines.as_slice()),
        Err(fault) => write_refusal(output, *fault),
    }
}

fn write_lines<W: Write>(output: &mut W, lines: &[Line]) -> Result<(), ScriptStop>
    ensures { Writes result lines.now (W.contents output.old) (W.contents output.new) }
{
    for line in lines {
        write_line(output, line)?;
    }
    Ok(())
}

fn write_refusal<W: Write>(output: &mut W, fault: Fault) -> Result<(), ScriptStop>
    ensures { Writes result (Line.Refused fault ∷ []) (W.contents output.old) (W.contents output.new) }
{
    let line = Line::Refused(fault);
    let written = write_line(output, &line);
    drop(line);
    written
}

fn write_line<W: Write>(output: &mut W, line: &Line) -> Result<(), ScriptStop>
    ensures { Writes result (line.now ∷ []) (W.contents output.old) (W.contents output.new) }
{
    match output::write_line(output, line) {
        Ok(()) => Ok(()),
        Err(_) => Err(ScriptStop::Unwritten),
    }
}
