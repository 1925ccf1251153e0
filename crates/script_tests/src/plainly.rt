//! Scripts over records, and what they leave: their lines, their words and their status.
use crate::files::{closed, file_records, found_in, no_files, sql_records};
use crate::streams::{Narrow, Trickle};
use crate::tables::{Part, text_under};
use crate::texts::first_number;
use crate::troubles::Trouble;
use rows_cell::{FailAt, ListRecords, Records, Settings};
use scripts::{Counted, script_on, script_with_crashes};
use std::alloc::{AllocError, Global};
use std::io::Read;
use world_cell::World;
use world_steps::CrashRecords;

/// A script, and how it is run.
#[derive(Clone, Copy)]
pub(crate) struct Run<'a> {
    pub(crate) alloc: Global,
    pub(crate) settings: &'a Settings,
    pub(crate) steps: &'a [u8],
    // The word of the way, and what stands behind it.
    pub(crate) way: &'a str,
    pub(crate) rest: &'a str,
}

// What a script writes, and how it ends.
#[derive(Drop)]
struct Told {
    output: Narrow,
    errors: Vec<u8>,
    status: u8,
}

fn new_told(run: &Run<'_>) -> Told {
    let room = match run.way {
        "room" => first_number(run.rest).unwrap_or(0) as usize,
        _ => usize::MAX,
    };
    let output = Narrow {
        text: Vec::new(run.alloc),
        room,
        is_marked: run.way == "room" && run.rest.ends_with("flushed"),
    };
    Told {
        output,
        errors: Vec::new(run.alloc),
        status: 0,
    }
}

// Runs the script of a reader over records, and gives them back.
fn ran<S: Records + Drop, R: Read + Drop>(
    run: &Run<'_>,
    told: &mut Told,
    records: S,
    reader: R,
) -> S {
    let mut world = World::new(run.alloc, records, run.settings);
    told.status = script_on(
        run.alloc,
        &mut world,
        reader,
        &mut told.output,
        &mut told.errors,
        run.way == "traced",
    );
    world.close()
}

fn ran_in_lists<R: Read + Drop>(run: &Run<'_>, told: &mut Told, reader: R) -> Result<(), Trouble> {
    let records = list_records(run)?;
    drop(ran(run, told, records, reader));
    Ok(())
}

fn list_records(run: &Run<'_>) -> Result<ListRecords, Trouble> {
    ListRecords::new(run.alloc, run.settings).map_err(|_| Trouble::NoMemory)
}

fn ran_refused(run: &Run<'_>, told: &mut Told) -> Result<(), Trouble> {
    let number = first_number(run.rest).ok_or(Trouble::Said("no number"))?;
    let records = match ListRecords::new(run.alloc, run.settings) {
        Ok(records) => FailAt::new(records, number),
        Err(_) => return Err(Trouble::NoMemory),
    };
    drop(ran(run, told, records, run.steps));
    Ok(())
}

// In it a line may be a crash.
fn ran_crashing(run: &Run<'_>, told: &mut Told) -> Result<(), Trouble> {
    let number = first_number(run.rest).ok_or(Trouble::Said("no number"))?;
    let Ok(records) = CrashRecords::new(run.alloc, run.settings, number) else {
        return Err(Trouble::NoMemory);
    };
    let mut world = World::new(run.alloc, records, run.settings);
    told.status = script_with_crashes(
        run.alloc,
        &mut world,
        run.steps,
        &mut told.output,
        &mut told.errors,
    );
    drop(world.close());
    Ok(())
}

fn ran_in_sql(run: &Run<'_>, told: &mut Told) -> Result<(), Trouble> {
    let records = sql_records(run.alloc, run.settings)?;
    drop(ran(run, told, records, run.steps));
    Ok(())
}

// Behind it the files hold a sound store.
fn ran_in_files(run: &Run<'_>, told: &mut Told) -> Result<(), Trouble> {
    let records = file_records(run.alloc, run.settings, no_files(run.alloc))?;
    let records = ran(run, told, records, run.steps);
    let files = closed(records.release())?;
    let line = found_in(run.alloc, &files)?;
    if !line.as_str().starts_with("sound ") {
        told.output.text.extend_from_slice(line.as_bytes())?;
    }
    Ok(())
}

fn ran_counted(run: &Run<'_>, told: &mut Told) -> Result<(), Trouble> {
    let count = first_number(run.rest).ok_or(Trouble::Said("no number"))?;
    ran_in_lists(run, told, Counted::new(trickle(run, false), count))
}

fn trickle<'a>(run: &Run<'a>, fails: bool) -> Trickle<'a> {
    Trickle {
        left: run.steps,
        fails,
    }
}

fn ran_by_its_way(run: &Run<'_>, told: &mut Told) -> Result<(), Trouble> {
    match run.way {
        "bytes" => ran_in_lists(run, told, trickle(run, false)),
        "room" => ran_in_lists(run, told, trickle(run, false)),
        "fails" => ran_in_lists(run, told, trickle(run, true)),
        "reads" => ran_counted(run, told),
        "refuses" => ran_refused(run, told),
        "crashes" => ran_crashing(run, told),
        "sql" => ran_in_sql(run, told),
        "files" => ran_in_files(run, told),
        _ => ran_in_lists(run, told, run.steps),
    }
}

fn text_of(alloc: Global, told: &Told, is_whole: bool) -> Result<Vec<u8>, AllocError> {
    let mut text = Vec::new(alloc);
    if is_whole {
        text.extend_from_slice(told.output.text.as_slice())?;
    }
    if !told.errors.is_empty() {
        text.extend_from_slice(b"says \n")?;
        text.extend_from_slice(told.errors.as_slice())?;
    }
    if told.status != 0 {
        let status = told.status;
        text.extend_from_slice(format!(in alloc; "status {status}\n")?.as_bytes())?;
    }
    Ok(text)
}

/// What a script leaves: its lines, the words on the standard error, and its status. Where its messages are told of, the lines are
/// left out.
pub(crate) fn script_left(
    alloc: Global,
    settings: &Settings,
    parts: &[Part<'_>],
    way: &str,
    rest: &str,
) -> Result<Vec<u8>, Trouble> {
    let steps = text_under(alloc, parts, "steps")?;
    let run = Run {
        alloc,
        settings,
        steps: steps.as_slice(),
        way,
        rest,
    };
    let mut told = new_told(&run);
    ran_by_its_way(&run, &mut told)?;
    let is_whole = !matches!(way, "traced" | "untraced");
    Ok(text_of(alloc, &told, is_whole)?)
}
