//! The cell that is run, and what is left of it.
use crate::stops::Stop;
use collections::Secret;
use names_cell::Principal;
use node_core::Fault;
use rows_cell::{Limits, ListRecords, Records, Settings, component, text_of};
use std::alloc::Global;
use world_cell::World;

/// The cell `c` with two principals and a lease of so many milliseconds.
pub(crate) fn settings_of(alloc: Global, lease: u64) -> Result<Settings, Stop> {
    let cell = component(alloc, "c")?;
    let ann = Principal::parse(alloc, "ann").map_err(|_| Fault::NoMemory)?;
    let bob = Principal::parse(alloc, "bob").map_err(|_| Fault::NoMemory)?;
    let secret = Secret::new([0; 32]);
    let settings = Settings::new(alloc, cell, lease, &[ann, bob], secret, Limits::none());
    Ok(settings.map_err(|_| Fault::NoMemory)?)
}

/// A world over new rows in lists.
pub(crate) fn new_world(alloc: Global, settings: &Settings) -> Result<World<ListRecords>, Stop> {
    let records = ListRecords::new(alloc, settings)?;
    Ok(World::new(alloc, records, settings))
}

/// All that records hold.
pub(crate) fn text_of_records(alloc: Global, records: &mut ListRecords) -> Result<String, Stop> {
    let rows = records.load().map_err(|_| Fault::NoMemory)?;
    let text = text_of(alloc, &rows);
    drop(rows);
    Ok(text?)
}

/// All that the records of a world hold.
pub(crate) fn rows_in(alloc: Global, world: World<ListRecords>) -> Result<String, Stop> {
    let mut records = world.close();
    let rows = text_of_records(alloc, &mut records);
    drop(records);
    rows
}
