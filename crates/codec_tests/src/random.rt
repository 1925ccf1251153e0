//! Many messages at random: behind each refusal master and clients are as before.
use crate::benches::{Bench, Tally};
use crate::guesses::Guesser;
use crate::reports::Report;
use crate::sheets::message_of;
use crate::stages::{Stage, stage_behind};
use crate::stops::Stop;
use crate::tables::Part;
use std::alloc::{AllocError, Global};

fn does_good(stage: &mut Stage, guesser: &mut Guesser, between: &[&str]) -> Result<(), Stop> {
    let place = guesser.dice.below(between.len() as u64) as usize;
    stage.run(between.get(place).copied().unwrap_or("sweep"))?;
    guesser.learn(stage)
}

// One message, unless its bytes are those of none; and now and then what partners do before it.
fn turn(
    stage: &mut Stage,
    guesser: &mut Guesser,
    bench: &mut Bench,
    between: &[&str],
) -> Result<(), Stop> {
    if guesser.dice.below(8) == 0 {
        does_good(stage, guesser, between)?;
    }
    let is_to_master = guesser.guess(stage);
    let bytes = guesser.sheet.as_slice();
    let Ok(message) = message_of(guesser.sheet.alloc, is_to_master, bytes) else {
        return Ok(());
    };
    let handed = bench.hand(stage, &message);
    drop(message);
    handed
}

// So many messages on one stage.
fn turns(
    stage: &mut Stage,
    guesser: &mut Guesser,
    bench: &mut Bench,
    between: &[&str],
) -> Result<(), Stop> {
    guesser.learn(stage)?;
    for _ in 0..100u32 {
        turn(stage, guesser, bench, between)?;
    }
    Ok(())
}

// Some messages behind one row.
fn round(
    alloc: Global,
    before: &[Part<'_, '_>],
    rows: &[Part<'_, '_>],
    between: &[&str],
    guesser: &mut Guesser,
    bench: &mut Bench,
) -> Result<(), Stop> {
    let place = guesser.dice.below(rows.len() as u64) as usize;
    let Some(row) = rows.get(place) else {
        return Err(Stop::Bad("a table without rows"));
    };
    let mut stage = stage_behind(alloc, before, row.value("behind"))?;
    let done = turns(&mut stage, guesser, bench, between);
    drop(stage.down());
    done
}

// Stage after stage, until enough were handed in.
fn rounds(
    alloc: Global,
    before: &[Part<'_, '_>],
    table: Part<'_, '_>,
    guesser: &mut Guesser,
    bench: &mut Bench,
    count: u64,
) -> Result<(), Stop> {
    let rows = table.parts(alloc, "row")?;
    let between = table.values(alloc, "do")?;
    for _ in 0..=count / 60 {
        if bench.tally.handed < count {
            round(
                alloc,
                before,
                rows.as_slice(),
                between.as_slice(),
                guesser,
                bench,
            )?;
        }
    }
    Ok(())
}

fn guessed(
    alloc: Global,
    before: &[Part<'_, '_>],
    table: Part<'_, '_>,
    count: u64,
) -> Result<Tally, Stop> {
    let mut bench = Bench::new(alloc)?;
    let mut guesser = Guesser::new(alloc, 46);
    let done = rounds(alloc, before, table, &mut guesser, &mut bench, count);
    let tally = bench.tally;
    drop(guesser);
    drop(bench);
    done?;
    Ok(tally)
}

// That enough were refused, and that nothing else changed then than the moment that a master notes.
fn tally_words(alloc: Global, tally: Tally, count: u64) -> Result<String, AllocError> {
    let Tally {
        handed,
        by_master,
        by_clients,
        is_well,
    } = tally;
    if is_well && handed >= count && by_master >= count / 10 && by_clients >= count / 20 {
        format!(in alloc; "{WELL}")
    } else {
        format!(in alloc;
            "of {handed} {by_master} were refused by masters, {by_clients} by clients; each as it should be: {is_well}"
        )
    }
}

const WELL: &str = "all is as before behind each that is refused, and many are";

/// Hands in so many messages behind what the rows of a table say.
pub(crate) fn run_random(
    rt: &HostRuntime,
    report: &mut Report,
    before: &[Part<'_, '_>],
    table: Part<'_, '_>,
    count: u64,
) -> Result<(), Stop> {
    let alloc = rt.alloc();
    let tally = guessed(alloc, before, table, count)?;
    let came = tally_words(alloc, tally, count)?;
    let name = format!(in alloc; "{count}")?;
    report.tell(rt, (table.name, name.as_str()), WELL, came.as_str());
    Ok(())
}
