//! A disk that stops at each of its calls in turn: what the files then hold.
use crate::files::{Disk, Store, file_records, files_of, found_in, no_files, opened};
use crate::steps::{rows_in, steps_of, world_of};
use crate::stores::{changed, commit};
use crate::tables::{Part, text_under};
use crate::troubles::Trouble;
use node_core::Fault;
use rows_cell::{Records, Settings};
use rows_sql::SqlRecords;
use scripts::number;
use sqlite::{Connection, Files};
use std::alloc::Global;
use world_cell::World;
use world_steps::Step;

// What is done on a disk that stops: a store is taken over, and then an edit is committed, or a world does steps. What may be found
// behind it: behind the last stage that was reached its answer, or the next one's.
#[derive(Drop)]
struct Task<'a> {
    alloc: Global,
    settings: &'a Settings,
    // The database file at the beginning.
    db: Vec<u8>,
    edits: Vec<u8>,
    steps: Vec<Step>,
    answers: Vec<String>,
    // Whether the answers are rows, and not what a test says.
    are_rows: bool,
}

// Which file stops, behind how many calls at first and at the end, and how many runs then stop at least, in all and behind the taking
// over.
#[derive(Clone, Copy)]
struct Stops {
    is_log: bool,
    first: u64,
    end: u64,
    is_last: bool,
    all: u64,
    inner: u64,
}

// How many runs stopped, and whether one didn't.
#[derive(Clone, Copy)]
struct Counts {
    all: u64,
    inner: u64,
    is_whole: bool,
}

/// More than the calls of any run.
const CALL_END: u64 = 100_000;

// The rows of a list behind each of the steps.
fn push_answers(task: &mut Task<'_>) -> Result<(), Trouble> {
    let first = rows_behind(task, 0)?;
    task.answers.push(first)?;
    for count in 0..=task.steps.len() {
        let rows = rows_behind(task, count)?;
        task.answers.push(rows)?;
    }
    Ok(())
}

fn rows_behind(task: &Task<'_>, count: usize) -> Result<String, Trouble> {
    let steps = task.steps.as_slice();
    let mut world = world_of(task.alloc, task.settings)?;
    let done = world.run(steps.get(..count).unwrap_or(steps));
    let records = world.close();
    drop(done?);
    rows_in(task.alloc, records)
}

// The database file that the statements of a row make.
fn db_of(alloc: Global, parts: &[Part<'_>]) -> Result<Vec<u8>, Trouble> {
    let mut files = no_files(alloc);
    let mut text = String::new(alloc);
    for part in parts {
        if part.word == "sql" {
            match changed(alloc, files, part, &mut text)? {
                Some(left) => files = left,
                None => return Err(Trouble::Said("no store")),
            }
        }
    }
    Ok(files.db.inner().bytes().to_vec(alloc)?)
}

fn push_found(alloc: Global, answers: &mut Vec<String>, parts: &[Part<'_>]) -> Result<(), Trouble> {
    for part in parts {
        if part.word == "found" {
            answers.push(String::from_str(alloc, part.rest)?)?;
        }
    }
    Ok(())
}

fn task_of<'a>(
    alloc: Global,
    settings: &'a Settings,
    parts: &[Part<'_>],
) -> Result<Task<'a>, Trouble> {
    let steps = text_under(alloc, parts, "steps")?;
    let mut task = Task {
        alloc,
        settings,
        db: db_of(alloc, parts)?,
        edits: text_under(alloc, parts, "edits")?,
        steps: steps_of(alloc, steps.as_slice())?,
        answers: Vec::new(alloc),
        are_rows: !steps.is_empty(),
    };
    if task.are_rows {
        push_answers(&mut task)?;
    } else {
        push_found(alloc, &mut task.answers, parts)?;
    }
    Ok(task)
}

fn stops_of(rest: &str) -> Option<Stops> {
    let mut numbers = [0; 4];
    let mut count = 0usize;
    for word in rest.split(' ') {
        if let Some(found) = number(word.trim_end_matches(',')) {
            *numbers.get_mut(count)? = found;
            count = count.saturating_add(1);
        }
    }
    let is_log = rest.starts_with("log ");
    let [first, second, third, fourth] = numbers;
    let (end, is_last, all, inner) = match count {
        3 => (CALL_END, true, second, third),
        4 => (second, false, third, fourth),
        _ => return None,
    };
    Some(Stops {
        is_log,
        first,
        end,
        is_last,
        all,
        inner,
    })
}

fn stopping(task: &Task<'_>, is_log: bool, calls: u64) -> Result<Files<Disk>, Trouble> {
    let (log, db) = if is_log {
        (calls, u64::MAX)
    } else {
        (u64::MAX, calls)
    };
    files_of(task.alloc, (task.db.as_slice(), db), (&[], log))
}

// How many steps were done, up to one that the store refused; none where one was refused for another reason.
fn how_far<R: Records + Drop>(world: &mut World<R>, steps: &[Step]) -> Option<usize> {
    for (done, step) in steps.iter().enumerate() {
        match world.step(step) {
            Ok(lines) => drop(lines),
            Err(Fault::StoreRefused) => return Some(done),
            Err(_) => return None,
        }
    }
    Some(steps.len())
}

// The stage that was reached, and the files.
type Ran = (Option<usize>, Files<Disk>);

fn world_ran(task: &Task<'_>, records: SqlRecords<Store>) -> Ran {
    let mut world = World::new(task.alloc, records, task.settings);
    let done = how_far(&mut world, task.steps.as_slice());
    let stage = match done {
        Some(done) => Some(done.saturating_add(1)),
        None => None,
    };
    (stage, world.close().release().into_store().close())
}

fn edits_ran(task: &Task<'_>, mut conn: Connection<Store>) -> Ran {
    let stage = if task.edits.is_empty() {
        Some(1)
    } else {
        match commit(task.alloc, &mut conn, task.edits.as_slice()) {
            Ok(true) => Some(2),
            Ok(false) => Some(1),
            Err(_) => None,
        }
    };
    (stage, conn.into_store().close())
}

fn ran(task: &Task<'_>, files: Files<Disk>) -> Ran {
    let conn = match opened(task.alloc, files) {
        Ok(conn) => conn,
        Err(files) => return (Some(0), files),
    };
    match SqlRecords::adopt(task.alloc, conn, task.settings) {
        Ok(records) if task.are_rows => world_ran(task, records),
        Ok(records) => edits_ran(task, records.release()),
        Err((_fault, store)) => (Some(0), store.close()),
    }
}

// What the files hold, on a disk that doesn't stop.
fn held(task: &Task<'_>, files: &Files<Disk>) -> Result<String, Trouble> {
    if !task.are_rows {
        return found_in(task.alloc, files);
    }
    let (db, log) = (files.db.inner().bytes(), files.log.inner().bytes());
    let files = files_of(task.alloc, (db, u64::MAX), (log, u64::MAX))?;
    rows_in(task.alloc, file_records(task.alloc, task.settings, files)?)
}

fn is_answer(task: &Task<'_>, stage: usize, held: &str) -> bool {
    task.answers
        .get(stage)
        .is_some_and(|answer| answer.as_str() == held)
}

// The stage that a run reached which stops behind so many calls; none where its files hold what they may not.
fn tried(task: &Task<'_>, is_log: bool, calls: u64) -> Result<Option<usize>, Trouble> {
    let (stage, files) = ran(task, stopping(task, is_log, calls)?);
    let held = held(task, &files);
    drop(files);
    let held = held?;
    let Some(stage) = stage else {
        return Ok(None);
    };
    let may_be = is_answer(task, stage, held.as_str())
        || is_answer(task, stage.saturating_add(1), held.as_str());
    Ok(if may_be { Some(stage) } else { None })
}

// Stops at each call in turn, until a run isn't stopped; none where files hold what they may not, with the calls in front of it.
fn counted(task: &Task<'_>, stops: Stops) -> Result<Result<Counts, u64>, Trouble> {
    let mut counts = Counts {
        all: 0,
        inner: 0,
        is_whole: false,
    };
    for calls in stops.first..stops.end {
        let Some(stage) = tried(task, stops.is_log, calls)? else {
            return Ok(Err(calls));
        };
        if stage.saturating_add(1) >= task.answers.len() {
            counts.is_whole = true;
            return Ok(Ok(counts));
        }
        if stage > 0 {
            counts.inner = counts.inner.saturating_add(1);
        }
        counts.all = counts.all.saturating_add(1);
    }
    Ok(Ok(counts))
}

/// Runs a row on a disk that stops behind each number of calls in turn. Where all its runs leave what they may, and as many stop as
/// the row says, the answer is what it says; else what happened.
pub(crate) fn stops_left(
    alloc: Global,
    settings: &Settings,
    parts: &[Part<'_>],
    rest: &str,
) -> Result<Vec<u8>, Trouble> {
    let stops = stops_of(rest).ok_or(Trouble::Said("no numbers of calls"))?;
    let task = task_of(alloc, settings, parts)?;
    let mut text = String::new(alloc);
    match counted(&task, stops)? {
        Ok(counts) => {
            let is_so = counts.all >= stops.all
                && counts.inner >= stops.inner
                && counts.is_whole == stops.is_last;
            if is_so {
                write!(text, "stops {rest}\n")?;
            } else {
                let (all, inner) = (counts.all, counts.inner);
                write!(text, "stops {all} times, {inner} of them later\n")?;
            }
        }
        Err(calls) => write!(text, "not whole behind {calls} calls\n")?,
    }
    Ok(text.into_bytes())
}
