//! Messages that no partner sends, one by one: what they are answered, and which parts of the master and of all clients
//! differ behind them. What isn't named is the same as before.
use crate::benches::Bench;
use crate::blocks::block_words;
use crate::reports::Report;
use crate::sheets::{Sheet, message_of};
use crate::stages::{Stage, stage_behind};
use crate::stops::Stop;
use crate::tables::Part;
use crate::tellings::said;
use std::alloc::Global;

// What a row hands in: to whom, and how often.
#[derive(Clone, Copy)]
struct Way {
    is_to_master: bool,
    times: u64,
}

/// What is answered where it is handed in.
pub(crate) fn said_to(stage: &mut Stage, is_to_master: bool, bytes: &[u8]) -> Result<String, Stop> {
    let alloc = stage.cast.alloc;
    let message = message_of(alloc, is_to_master, bytes)?;
    let told = stage.cast.hand(&message);
    drop(message);
    let told = told?;
    let said = said(alloc, &told);
    drop(told);
    Ok(said?)
}

// What is answered and what differs; and the same where it is handed in again, when that isn't answered so or something differs then.
fn handed_on(stage: &mut Stage, bench: &mut Bench, way: Way, bytes: &[u8]) -> Result<String, Stop> {
    bench.look(stage);
    let said = said_to(stage, way.is_to_master, bytes)?;
    let differs = bench.changes(stage)?;
    let mut text = format!(in stage.cast.alloc; "answered{said}, differs{differs}")?;
    for _ in 1..way.times {
        bench.look(stage);
        let again = said_to(stage, way.is_to_master, bytes)?;
        let differs = bench.changes(stage)?;
        if again != said || !differs.is_empty() {
            write!(text, ", and then{again}, differs{differs}")?;
        }
    }
    Ok(text)
}

// Behind the row's scripts.
fn handed(
    alloc: Global,
    before: &[Part<'_, '_>],
    bench: &mut Bench,
    row: Part<'_, '_>,
    way: Way,
    bytes: &[u8],
) -> Result<String, Stop> {
    let mut stage = stage_behind(alloc, before, row.value("behind"))?;
    let came = handed_on(&mut stage, bench, way, bytes);
    drop(stage.down());
    came
}

// What is wanted.
fn wanted_of(alloc: Global, row: Part<'_, '_>) -> Result<String, Stop> {
    let said = row.joined(alloc, "answer")?;
    let differs = row.joined(alloc, "differs")?;
    Ok(format!(in alloc; "answered{said}, differs{differs}")?)
}

// The bytes with so many of those that are counted at a place.
fn cut(alloc: Global, bytes: &[u8], place: usize, whole: usize, length: usize) -> Sheet {
    let mut sheet = Sheet::new(alloc);
    let part = place.saturating_add(4);
    sheet.bytes(bytes.get(..place).unwrap_or(&[]));
    sheet.block(bytes.get(part..part.saturating_add(length)).unwrap_or(&[]));
    sheet.bytes(bytes.get(part.saturating_add(whole)..).unwrap_or(&[]));
    sheet
}

// What comes of it at each length below the whole, where that isn't what is wanted; the first such.
fn came_cut(
    alloc: Global,
    before: &[Part<'_, '_>],
    bench: &mut Bench,
    row: Part<'_, '_>,
    way: Way,
) -> Result<String, Stop> {
    let bytes = row.bytes(alloc, "bytes")?;
    let wanted = wanted_of(alloc, row)?;
    let place = row.number("cut") as usize;
    let whole = row.number("lengths") as usize;
    for length in 0..whole {
        let shorter = cut(alloc, bytes.as_slice(), place, whole, length);
        let came = handed(alloc, before, bench, row, way, shorter.as_slice())?;
        if came != wanted {
            return Ok(came);
        }
    }
    Ok(wanted)
}

fn came_of(
    alloc: Global,
    before: &[Part<'_, '_>],
    bench: &mut Bench,
    row: Part<'_, '_>,
    way: Way,
) -> Result<String, Stop> {
    if row.number("cut") > 0 {
        return came_cut(alloc, before, bench, row, way);
    }
    let bytes = row.bytes(alloc, "bytes")?;
    handed(alloc, before, bench, row, way, bytes.as_slice())
}

fn tell_row(
    rt: &HostRuntime,
    report: &mut Report,
    before: &[Part<'_, '_>],
    bench: &mut Bench,
    (table, row): (Part<'_, '_>, Part<'_, '_>),
) -> Result<(), Stop> {
    let alloc = rt.alloc();
    let is_to_master = row.value("for") == "master";
    let kind = if is_to_master { "requests" } else { "messages" };
    let bytes = row.bytes(alloc, "bytes")?;
    let words = block_words(alloc, kind, bytes.as_slice())?;
    let way = Way {
        is_to_master,
        times: table.number("times"),
    };
    let came = came_of(alloc, before, bench, row, way)?;
    let wanted = wanted_of(alloc, row)?;
    let is = row.value("is");
    let wanted = format!(in alloc; "{is}, {wanted}")?;
    let came = format!(in alloc; "{words}, {came}")?;
    report.tell(rt, (table.name, row.name), wanted.as_str(), came.as_str());
    Ok(())
}

fn tell_rows(
    rt: &HostRuntime,
    report: &mut Report,
    before: &[Part<'_, '_>],
    bench: &mut Bench,
    table: Part<'_, '_>,
) -> Result<(), Stop> {
    for row in &table.parts(rt.alloc(), "row")? {
        tell_row(rt, report, before, bench, (table, *row))?;
    }
    Ok(())
}

/// Runs a table of messages that no partner sends.
pub(crate) fn run_hostile(
    rt: &HostRuntime,
    report: &mut Report,
    before: &[Part<'_, '_>],
    table: Part<'_, '_>,
) -> Result<(), Stop> {
    let mut bench = Bench::new(rt.alloc())?;
    let done = tell_rows(rt, report, before, &mut bench, table);
    drop(bench);
    done
}
