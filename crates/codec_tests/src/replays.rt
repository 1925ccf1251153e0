//! The messages of a real run again, in random order, each three times: behind each refusal master and clients are as before,
//! and at the end nothing has changed but that the Starts wait to be answered afresh.
use crate::benches::Bench;
use crate::dice::Dice;
use crate::reports::Report;
use crate::stages::{Stage, stage_behind};
use crate::stops::Stop;
use crate::tables::Part;
use rows_cell::{ListRecords, Records, Rows, text_of};
use std::alloc::{AllocError, Global};
use std::mem;

// Each place below the count three times, in random order.
fn order_of(alloc: Global, count: usize, dice: &mut Dice) -> Result<Vec<usize>, Stop> {
    let mut order = Vec::new(alloc);
    for turn in 0..count.saturating_mul(3) {
        order.push(turn.checked_rem(count).unwrap_or(0))?;
    }
    for place in 0..order.len() {
        let left = order.len().saturating_sub(place);
        let other = place.saturating_add(dice.below(left as u64) as usize);
        if place < order.len() && other < order.len() {
            order.swap(place, other);
        }
    }
    Ok(order)
}

// All that were sent are handed in again.
fn replay(stage: &mut Stage, bench: &mut Bench, dice: &mut Dice) -> Result<(), Stop> {
    let alloc = stage.cast.alloc;
    let sent = mem::replace(&mut stage.sent, Vec::new(alloc));
    for place in order_of(alloc, sent.len(), dice)? {
        if let Some(message) = sent.get(place) {
            bench.hand(stage, message)?;
        }
    }
    stage.delivered = 0;
    Ok(())
}

// All rows, those of the cell's name and secret too.
fn text_of_all(alloc: Global, rows: &Rows) -> Result<String, AllocError> {
    let mut text = text_of(alloc, rows)?;
    let name = rows.cell.as_str();
    let secret = rows.secret.as_bytes();
    write!(text, "{name} {secret:?}")?;
    Ok(text)
}

fn rows_of(alloc: Global, records: ListRecords) -> Result<String, Stop> {
    let mut records = records;
    let rows = records.load();
    drop(records);
    let rows = rows?;
    let text = text_of_all(alloc, &rows);
    drop(rows);
    Ok(text?)
}

// The parts that differ behind the run's messages.
fn differ(stage: &mut Stage, bench: &mut Bench, dice: &mut Dice) -> Result<String, Stop> {
    bench.begin(stage);
    replay(stage, bench, dice)?;
    Ok(bench.changes_since(stage)?)
}

// Those parts; and then all settles again.
fn settled(stage: &mut Stage, bench: &mut Bench, dice: &mut Dice) -> Result<String, Stop> {
    let changes = differ(stage, bench, dice)?;
    stage.settle()?;
    Ok(changes)
}

// What differs then, and whether the rows are in the end those of a run whose messages don't come again.
fn replayed(
    alloc: Global,
    before: &[Part<'_, '_>],
    row: Part<'_, '_>,
    bench: &mut Bench,
    dice: &mut Dice,
) -> Result<String, Stop> {
    let mut stage = stage_behind(alloc, before, row.value("behind"))?;
    let changes = settled(&mut stage, bench, dice);
    let records = stage.down();
    let mut changes = changes?;
    let rows = rows_of(alloc, records)?;
    let twin = rows_of(
        alloc,
        stage_behind(alloc, before, row.value("behind"))?.down(),
    )?;
    if rows != twin {
        changes.push_str("; the rows")?;
    }
    Ok(changes)
}

// The first of so many times at which something else differs than is wanted; or what is wanted.
fn replayed_often(
    alloc: Global,
    before: &[Part<'_, '_>],
    row: Part<'_, '_>,
    bench: &mut Bench,
    wanted: &str,
) -> Result<String, Stop> {
    let mut dice = Dice::new(46);
    let mut last = String::new(alloc);
    for _ in 0..row.number("times") {
        last = replayed(alloc, before, row, bench, &mut dice)?;
        if last.as_str() != wanted {
            return Ok(last);
        }
    }
    Ok(last)
}

fn tell_row(
    rt: &HostRuntime,
    report: &mut Report,
    before: &[Part<'_, '_>],
    (table, row): (&str, Part<'_, '_>),
    bench: &mut Bench,
) -> Result<(), Stop> {
    let alloc = rt.alloc();
    let wanted = row.joined(alloc, "differs")?;
    let mut came = replayed_often(alloc, before, row, bench, wanted.as_str())?;
    let tally = bench.tally;
    let is_much = tally.handed >= row.number("handed") && tally.by_master >= row.number("refused");
    if !tally.is_well || !is_much {
        came.push_str("; a refusal, or too few of them")?;
    }
    report.tell(rt, (table, row.name), wanted.as_str(), came.as_str());
    Ok(())
}

/// Runs a table of runs whose messages come again.
pub(crate) fn run_replays(
    rt: &HostRuntime,
    report: &mut Report,
    before: &[Part<'_, '_>],
    table: Part<'_, '_>,
) -> Result<(), Stop> {
    for row in &table.parts(rt.alloc(), "row")? {
        let mut bench = Bench::new(rt.alloc())?;
        let done = tell_row(rt, report, before, (table.name, *row), &mut bench);
        drop(bench);
        done?;
    }
    Ok(())
}
