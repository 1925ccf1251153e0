//! Stores that statements, edits and worlds make, one behind the other, and what is found in them.
use crate::edits::edits_of;
use crate::files::{
    Disk, closed, connection, file_records, files_of, found, found_in, inspected, no_files,
};
use crate::steps::{push_run, steps_of};
use crate::tables::Part;
use crate::troubles::Trouble;
use rows_cell::{Records, Settings, StoreFault, text_of};
use rows_sql::{SqlRecords, commit_all, load_said};
use scripts::number;
use sqlite::{Alter, Connection, Files, MemStore};
use std::alloc::Global;
use std::str;
use world_cell::World;

type InMemory = Connection<MemStore>;

// What is told of a store that is taken over.
const DONE: &str = "adopt done\n";

fn end_of(fault: StoreFault) -> &'static str {
    match fault {
        StoreFault::Damaged => "adopt damaged\n",
        StoreFault::Exhausted => "adopt exhausted\n",
        StoreFault::Refused | StoreFault::NoMemory => "adopt refused\n",
    }
}

// Does statements; false where they are refused.
fn is_stated<S: Alter + Drop>(conn: &mut Connection<S>, sql: &[u8]) -> Result<bool, Trouble> {
    let sql = str::from_utf8(sql).map_err(|_| Trouble::Said("no statements"))?;
    Ok(conn.execute_batch(sql).is_ok())
}

/// Commits the edits of a text.
pub(crate) fn commit<S: Alter + Drop>(
    alloc: Global,
    conn: &mut Connection<S>,
    text: &[u8],
) -> Result<bool, Trouble> {
    let edits = edits_of(alloc, text)?;
    if !conn.is_autocommit() {
        return Ok(false);
    }
    Ok(commit_all(conn, edits.as_slice()).is_ok())
}

fn push_rows<S: Alter + Drop>(
    alloc: Global,
    conn: &mut Connection<S>,
    text: &mut String,
) -> Result<(), Trouble> {
    let rows = load_said(alloc, conn).map_err(|_| Trouble::Said("its rows can't be read"))?;
    let shown = text_of(alloc, &rows);
    drop(rows);
    text.push_str(shown?.as_str())?;
    Ok(())
}

// Changes a store, or shows its rows; false where that is refused.
fn is_done<S: Alter + Drop>(
    alloc: Global,
    conn: &mut Connection<S>,
    part: &Part<'_>,
    text: &mut String,
) -> Result<bool, Trouble> {
    match part.word {
        "sql" => is_stated(conn, part.text.as_slice()),
        "edits" => commit(alloc, conn, part.text.as_slice()),
        "rows" => {
            push_rows(alloc, conn, text)?;
            Ok(true)
        }
        _ => Ok(true),
    }
}

fn adopted_in_memory(
    alloc: Global,
    settings: &Settings,
    conn: InMemory,
    text: &mut String,
) -> Result<Option<InMemory>, Trouble> {
    let (end, conn) = match SqlRecords::adopt(alloc, conn, settings) {
        Ok(records) => (DONE, Some(records.release())),
        Err((fault, store)) => {
            drop(store);
            (end_of(fault), None)
        }
    };
    text.push_str(end)?;
    Ok(conn)
}

// What a part does to a store in memory; none where it is gone.
fn act_in_memory(
    alloc: Global,
    settings: &Settings,
    mut conn: InMemory,
    part: &Part<'_>,
    text: &mut String,
) -> Result<Option<InMemory>, Trouble> {
    match part.word {
        "adopt" => return adopted_in_memory(alloc, settings, conn, text),
        "found" => {
            let line = found(alloc, &mut conn)?;
            write!(text, "found {line}\n")?;
        }
        _ => {
            if !is_done(alloc, &mut conn, part, text)? {
                text.push_str("found no store\n")?;
                return Ok(None);
            }
        }
    }
    Ok(Some(conn))
}

fn in_memory(
    alloc: Global,
    settings: &Settings,
    parts: &[Part<'_>],
    text: &mut String,
) -> Result<(), Trouble> {
    let mut conn = Connection::open_in_memory(alloc)?;
    for part in parts {
        match act_in_memory(alloc, settings, conn, part, text)? {
            Some(left) => conn = left,
            None => return Ok(()),
        }
    }
    drop(conn);
    Ok(())
}

/// What statements, edits or the show of its rows do to a store in files; none where they are refused.
pub(crate) fn changed(
    alloc: Global,
    files: Files<Disk>,
    part: &Part<'_>,
    text: &mut String,
) -> Result<Option<Files<Disk>>, Trouble> {
    let mut conn = connection(alloc, files)?;
    let done = is_done(alloc, &mut conn, part, text);
    let files = closed(conn)?;
    if done? {
        return Ok(Some(files));
    }
    text.push_str("found no store\n")?;
    Ok(None)
}

// Steps of a world over the store.
fn stepped(
    alloc: Global,
    settings: &Settings,
    files: Files<Disk>,
    part: &Part<'_>,
    text: &mut String,
) -> Result<Files<Disk>, Trouble> {
    let steps = steps_of(alloc, part.text.as_slice())?;
    let records = file_records(alloc, settings, files)?;
    let mut world = World::new(alloc, records, settings);
    let shown = push_run(text, &mut world, steps.as_slice());
    let files = closed(world.close().release())?;
    shown?;
    Ok(files)
}

// Takes the store over, and what becomes of it.
fn taken_over(
    alloc: Global,
    settings: &Settings,
    files: Files<Disk>,
) -> Result<(&'static str, Files<Disk>), Trouble> {
    let conn = connection(alloc, files)?;
    match SqlRecords::adopt(alloc, conn, settings) {
        Ok(records) => Ok((DONE, closed(records.release())?)),
        Err((fault, store)) => Ok((end_of(fault), store.close())),
    }
}

// One that isn't taken over is as it was.
fn adopted(
    alloc: Global,
    settings: &Settings,
    files: Files<Disk>,
    text: &mut String,
) -> Result<Files<Disk>, Trouble> {
    let before = files.db.inner().bytes().to_vec(alloc)?;
    let (end, files) = taken_over(alloc, settings, files)?;
    let is_as_before = files.db.inner().bytes() == before.as_slice();
    drop(before);
    match push_end(text, end, is_as_before) {
        Ok(()) => Ok(files),
        Err(trouble) => {
            drop(files);
            Err(trouble)
        }
    }
}

fn push_end(text: &mut String, end: &str, is_as_before: bool) -> Result<(), Trouble> {
    text.push_str(end)?;
    if is_as_before == (end == DONE) {
        text.push_str("its file is not\n")?;
    }
    Ok(())
}

// Behind a store that was closed the database file alone says the same.
fn push_inspected(alloc: Global, files: &Files<Disk>, text: &mut String) -> Result<(), Trouble> {
    let (db, log) = (files.db.inner().bytes(), files.log.inner().bytes());
    let whole = inspected(alloc, db, log)?;
    write!(text, "inspected {whole}\n")?;
    if !log.is_empty() {
        let alone = inspected(alloc, db, &[])?;
        if alone.as_str() != whole.as_str() {
            write!(text, "alone {alone}\n")?;
        }
    }
    Ok(())
}

// The bytes of a file, of which so many are left, or one is another one, or with others in their place.
fn spoilt_bytes(alloc: Global, bytes: &[u8], part: &Part<'_>) -> Result<Vec<u8>, Trouble> {
    let (first, second) = part.rest.split_once(' ').unwrap_or((part.rest, ""));
    let mut spoilt = bytes.to_vec(alloc)?;
    match (part.word, number(first), second.parse::<u8>().ok()) {
        ("cut", Some(left), None) => spoilt.truncate(left as usize),
        ("byte", Some(at), Some(byte)) => {
            if let Some(place) = spoilt.get_mut(at as usize) {
                *place = byte;
            }
        }
        ("instead", None, None) => return Ok(part.text.as_slice().to_vec(alloc)?),
        _ => return Err(Trouble::Said("no change of a file")),
    }
    Ok(spoilt)
}

// Another program changes the bytes of the database file.
fn spoilt(alloc: Global, files: Files<Disk>, part: &Part<'_>) -> Result<Files<Disk>, Trouble> {
    let bytes = spoilt_bytes(alloc, files.db.inner().bytes(), part)?;
    files_of(alloc, (bytes.as_slice(), u64::MAX), (&[], u64::MAX))
}

// What a part does to a store in files; none where it is gone.
fn act(
    alloc: Global,
    settings: &Settings,
    files: Files<Disk>,
    part: &Part<'_>,
    text: &mut String,
) -> Result<Option<Files<Disk>>, Trouble> {
    match part.word {
        "sql" | "edits" | "rows" => changed(alloc, files, part, text),
        "steps" => Ok(Some(stepped(alloc, settings, files, part, text)?)),
        "adopt" => Ok(Some(adopted(alloc, settings, files, text)?)),
        "cut" | "byte" | "instead" => Ok(Some(spoilt(alloc, files, part)?)),
        "found" => {
            let line = found_in(alloc, &files)?;
            write!(text, "found {line}\n")?;
            Ok(Some(files))
        }
        "inspected" => {
            push_inspected(alloc, &files, text)?;
            Ok(Some(files))
        }
        _ => Ok(Some(files)),
    }
}

/// The files behind all parts of a row; none where its statements are refused.
pub(crate) fn files_behind(
    alloc: Global,
    settings: &Settings,
    parts: &[Part<'_>],
    text: &mut String,
) -> Result<Option<Files<Disk>>, Trouble> {
    let mut files = no_files(alloc);
    for part in parts {
        match act(alloc, settings, files, part, text)? {
            Some(left) => files = left,
            None => return Ok(None),
        }
    }
    Ok(Some(files))
}

/// What is found in a store, in memory or in files.
pub(crate) fn store_left(
    alloc: Global,
    settings: &Settings,
    parts: &[Part<'_>],
    way: &str,
) -> Result<Vec<u8>, Trouble> {
    let mut text = String::new(alloc);
    if way == "memory" {
        in_memory(alloc, settings, parts, &mut text)?;
    } else {
        drop(files_behind(alloc, settings, parts, &mut text)?);
    }
    Ok(text.into_bytes())
}
