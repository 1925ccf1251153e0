//! Frames to a master that a program hosts, and what is told of them.
ghost use Rattle.std.specs.Prelude.{◌≡◌};

use crate::blocks::block_words;
use crate::dice::Dice;
use crate::flushes::flushed;
use crate::garbled::garbled;
use crate::groups::whole_words;
use crate::reports::Report;
use crate::sheets::Sheet;
use crate::stops::Stop;
use crate::tables::Part;
use byteorder::{BigEndian, ByteOrder};
use hosting::{HostedMaster, read_frame, serve_on};
use rows_cell::{Limits, ListRecords, MasterTerms, Settings};
use std::alloc::{AllocError, Global};

/// The terms of every master: a lease of 12,000 ms, and no limits.
pub(crate) fn terms() -> MasterTerms
    ensures { result.lease ≡ 12000 }
{
    MasterTerms {
        lease: 12_000,
        limits: Limits::none(),
    }
}

/// A store, and the master that is up over it, or none.
type Host = Option<HostedMaster<ListRecords>>;

/// A new store, and no master.
pub(crate) fn new_seat(alloc: Global) -> Result<HostedMaster<ListRecords>, Stop> {
    let settings = Settings::standard(alloc)?;
    Ok(HostedMaster::Down(ListRecords::new(alloc, &settings)?))
}

// What is told of the frames of a stream; nothing where they weren't all answered.
fn told_of(alloc: Global, host: &mut Host, sent: &[u8]) -> Vec<u8> {
    let mut reader = sent;
    let mut told = Vec::new(alloc);
    let Some(seat) = host.take() else {
        return told;
    };
    let (next, ended) = serve_on(alloc, terms(), seat, &mut reader, &mut told);
    drop(host.replace(next));
    if ended.is_err() {
        told.clear();
    }
    told
}

// The same on a store of its own.
fn told_alone(alloc: Global, sent: &[u8]) -> Result<Vec<u8>, Stop> {
    let mut host = Some(new_seat(alloc)?);
    let told = told_of(alloc, &mut host, sent);
    drop(host);
    Ok(told)
}

// Of blocks that stand one behind the other the first one, with the number in front, and the rest.
fn first_block(bytes: &[u8]) -> (&[u8], &[u8]) {
    if bytes.len() < 4 {
        return (bytes, &[]);
    }
    let length = (BigEndian::read_u32(bytes) as usize)
        .saturating_add(4)
        .min(bytes.len());
    bytes.split_at(length)
}

// What these blocks tell, each behind a semicolon.
fn put_tellings(alloc: Global, text: &mut String, told: &[u8]) -> Result<(), Stop> {
    let mut left = told;
    for _ in 0..told.len() {
        let (block, rest) = first_block(left);
        if let Some(block) = block.get(4..) {
            let words = block_words(alloc, "tellings", block)?;
            write!(text, "; {words}")?;
        }
        left = rest;
    }
    Ok(())
}

/// Bytes in hexadecimal.
pub(crate) fn hexadecimal(alloc: Global, bytes: &[u8]) -> Result<String, AllocError> {
    hex::encode(alloc, bytes)
}

// Tells whether what a row says is told, and also in words where it has some.
fn tell_row(
    rt: &HostRuntime,
    report: &mut Report,
    table: &str,
    row: Part<'_, '_>,
    told: &[u8],
) -> Result<(), Stop> {
    let alloc = rt.alloc();
    let mut wanted = hexadecimal(alloc, row.bytes(alloc, "from")?.as_slice())?;
    let mut came = hexadecimal(alloc, told)?;
    let words = row.joined(alloc, "says")?;
    if !words.is_empty() {
        wanted.push_str(words.as_str())?;
        put_tellings(alloc, &mut came, told)?;
    }
    report.tell(rt, (table, row.name), wanted.as_str(), came.as_str());
    Ok(())
}

// Each row's frames to the same store.
fn tell_rows(
    rt: &HostRuntime,
    report: &mut Report,
    table: Part<'_, '_>,
    rows: &[Part<'_, '_>],
    host: &mut Host,
) -> Result<(), Stop> {
    for row in rows {
        let sent = row.bytes(rt.alloc(), "to")?;
        let told = told_of(rt.alloc(), host, sent.as_slice());
        tell_row(rt, report, table.name, *row, told.as_slice())?;
    }
    Ok(())
}

// All bytes of the rows' lines of this word, one behind the other.
fn whole(alloc: Global, rows: &[Part<'_, '_>], word: &str) -> Result<Vec<u8>, Stop> {
    let mut all = Vec::new(alloc);
    for row in rows {
        all.extend_from_slice(row.bytes(alloc, word)?.as_slice())?;
    }
    Ok(all)
}

// Tells of all frames as one stream, one by one and together: what is told of them, and that it is flushed before more is read.
fn tell_stream(
    rt: &HostRuntime,
    report: &mut Report,
    table: Part<'_, '_>,
    rows: &[Part<'_, '_>],
) -> Result<(), Stop> {
    let alloc = rt.alloc();
    let sent = whole(alloc, rows, "to")?;
    let wanted = whole(alloc, rows, "from")?;
    let told = told_alone(alloc, sent.as_slice())?;
    let came = hexadecimal(alloc, told.as_slice())?;
    let all = hexadecimal(alloc, wanted.as_slice())?;
    report.tell(
        rt,
        (table.name, "as one stream"),
        all.as_str(),
        came.as_str(),
    );
    let all = format!(in alloc; "whole {all}; then ")?;
    let came = whole_words(alloc, sent.as_slice())?;
    report.tell(rt, (table.name, "together"), all.as_str(), came.as_str());
    let count = wanted.len();
    let all = format!(in alloc; "{count} flushed before more is read")?;
    let came = flushed(alloc, sent.as_slice())?;
    report.tell(rt, (table.name, "flushed"), all.as_str(), came.as_str());
    Ok(())
}

/// Runs a table of frames that come to one store, row by row; as one stream; and as many of them garbled as it says.
pub(crate) fn run_session(
    rt: &HostRuntime,
    report: &mut Report,
    table: Part<'_, '_>,
) -> Result<(), Stop> {
    let rows = table.parts(rt.alloc(), "row")?;
    let mut host = Some(new_seat(rt.alloc())?);
    let done = tell_rows(rt, report, table, rows.as_slice(), &mut host);
    drop(host);
    done?;
    tell_stream(rt, report, table, rows.as_slice())?;
    let count = table.number("garbled");
    if count > 0 {
        let came = garbled_words(rt.alloc(), rows.as_slice(), count)?;
        report.tell(rt, (table.name, "garbled"), GARBLED, came.as_str());
    }
    Ok(())
}

/// Runs a table of frames that come each to a store of its own.
pub(crate) fn run_streams(
    rt: &HostRuntime,
    report: &mut Report,
    table: Part<'_, '_>,
) -> Result<(), Stop> {
    for row in &table.parts(rt.alloc(), "row")? {
        let sent = row.bytes(rt.alloc(), "to")?;
        let told = told_alone(rt.alloc(), sent.as_slice())?;
        tell_row(rt, report, table.name, *row, told.as_slice())?;
    }
    Ok(())
}

// What is wanted of garbled frames. So those that are none leave the master and its store as they were.
const GARBLED: &str = "what is told of those that are frames is told of them alone too";

// So many frames of the rows, cut or changed at random; those among them that are frames; and how many these are.
fn streams(
    alloc: Global,
    rows: &[Part<'_, '_>],
    count: u64,
    all: &mut Sheet,
    good: &mut Sheet,
) -> Result<u64, Stop> {
    let mut dice = Dice::new(count);
    let mut kept = 0u64;
    for _ in 0..count {
        let place = dice.below(rows.len() as u64) as usize;
        let Some(row) = rows.get(place) else {
            return Err(Stop::Bad("a table without rows"));
        };
        let frame = row.bytes(alloc, "to")?;
        let body = frame.as_slice().get(4..).unwrap_or(&[]);
        let body = garbled(alloc, body, &mut dice)?;
        all.block(body.as_slice());
        if read_frame(alloc, body.as_slice()).is_ok() {
            good.block(body.as_slice());
            kept = kept.saturating_add(1);
        }
    }
    Ok(kept)
}

// What stands behind what is told of a frame that is none, where that stands in front: the fault, and the mark.
fn behind_bad(left: &[u8]) -> Option<&[u8]> {
    match left {
        [0, 0, 0, 3, _, 2, _, 0, 0, 0, 3, _, 3, 0, rest @ ..] => Some(rest),
        [0, 0, 0, 3, _, 2, _, 0, 0, 0, 11, _, 3, 1, rest @ ..] => rest.get(8..),
        _ => None,
    }
}

// What was told, without what is told of frames that are none; and how many of them there were.
fn without_bad(alloc: Global, told: &[u8]) -> Result<(Vec<u8>, u64), AllocError> {
    let mut left = told;
    let mut kept = Vec::new(alloc);
    let mut bad = 0u64;
    for _ in 0..told.len() {
        if let Some(rest) = behind_bad(left) {
            bad = bad.saturating_add(1);
            left = rest;
        } else {
            let (block, rest) = first_block(left);
            kept.extend_from_slice(block)?;
            left = rest;
        }
    }
    Ok((kept, bad))
}

// What comes of so many garbled frames.
fn garbled_words(alloc: Global, rows: &[Part<'_, '_>], count: u64) -> Result<String, Stop> {
    let mut all = Sheet::new(alloc);
    let mut good = Sheet::new(alloc);
    let kept = streams(alloc, rows, count, &mut all, &mut good)?;
    let told = told_alone(alloc, all.as_slice())?;
    let alone = told_alone(alloc, good.as_slice())?;
    let (rest, bad) = without_bad(alloc, told.as_slice())?;
    let least = count / 100;
    let is_so = rest.as_slice() == alone.as_slice()
        && kept.saturating_add(bad) == count
        && kept > least
        && bad > least;
    if is_so {
        Ok(format!(in alloc; "{GARBLED}")?)
    } else {
        Ok(format!(in alloc; "something else: {kept} are frames, {bad} aren't")?)
    }
}
