//! Rows of steps on a world over rows in lists, each step refused memory until it is done, beside a twin whose steps aren't refused.
use crate::cells::{new_world, rows_in, settings_of};
use crate::hoard::{Hoard, TURN_END};
use crate::rows::Row;
use crate::stops::Stop;
use crate::texts::{half_of, steps_of, write_lines};
use crate::twins::are_alike;
use collections::Items;
use node_core::{Fault, Line};
use rows_cell::{ListRecords, Settings};
use std::alloc::Global;
use world_cell::World;
use world_steps::Step;

// Tries a step until it isn't refused memory. Behind each refusal the world is as its twin, which hasn't done the step.
fn stepped(
    world: &mut World<ListRecords>,
    twin: &World<ListRecords>,
    hoard: &mut Hoard,
    step: &Step,
) -> Result<Items<Line>, Stop> {
    for turn in 0..TURN_END {
        hoard.leave(turn);
        let told = world.step(step);
        hoard.relax();
        match told {
            Ok(lines) => return Ok(lines),
            Err(Fault::NoMemory) => {}
            Err(fault) => return Err(Stop::Refused(fault)),
        }
        if !are_alike(world, twin) {
            return Err(Stop::Apart("a refused step changed its world"));
        }
    }
    Err(Stop::Refused(Fault::NoMemory))
}

fn play(
    world: &mut World<ListRecords>,
    twin: &mut World<ListRecords>,
    hoard: &mut Hoard,
    steps: &[Step],
    text: &mut String,
) -> Result<(), Stop> {
    for step in steps {
        let lines = stepped(world, twin, hoard, step)?;
        let written = write_lines(text, &lines);
        drop(lines);
        written?;
        drop(twin.step(step)?);
    }
    let sent = world.messages().len();
    write!(text, "messages {sent}\n")?;
    if are_alike(world, twin) {
        Ok(())
    } else {
        Err(Stop::Apart("a world ends otherwise than its twin"))
    }
}

// Does the steps beside a new twin, and gives the rows that the twin holds in the end.
fn play_beside_twin(
    alloc: Global,
    world: &mut World<ListRecords>,
    hoard: &mut Hoard,
    settings: &Settings,
    steps: &[Step],
    text: &mut String,
) -> Result<String, Stop> {
    let mut twin = new_world(alloc, settings)?;
    let played = play(world, &mut twin, hoard, steps, text);
    let rows = rows_in(alloc, twin);
    played?;
    rows
}

// Behind what the steps print stand how many messages were sent, and the rows.
fn run_steps(
    alloc: Global,
    hoard: &mut Hoard,
    settings: &Settings,
    steps: &[Step],
    text: &mut String,
) -> Result<(), Stop> {
    let mut world = new_world(alloc, settings)?;
    let others = play_beside_twin(alloc, &mut world, hoard, settings, steps, text);
    let rows = rows_in(alloc, world);
    let (rows, others) = (rows?, others?);
    text.push_str(rows.as_str())?;
    if rows.as_str() == others.as_str() {
        Ok(())
    } else {
        Err(Stop::Apart("a world leaves other rows than its twin"))
    }
}

/// Runs a row on a new world.
pub(crate) fn run_row(
    alloc: Global,
    hoard: &mut Hoard,
    row: &Row,
    text: &mut String,
) -> Result<(), Stop> {
    let (name, lease, steps) = row;
    write!(text, "{name}\n")?;
    let settings = settings_of(alloc, *lease)?;
    let steps = steps_of(alloc, steps)?;
    let half = half_of(steps.as_slice());
    let ran = run_steps(alloc, hoard, &settings, steps.as_slice(), text);
    drop(steps);
    drop(settings);
    ran?;
    Ok(hoard.write_refused(text, "steps", half)?)
}
