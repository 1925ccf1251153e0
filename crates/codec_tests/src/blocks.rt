//! Blocks of bytes, and what they are.
use crate::dice::Dice;
use crate::garbled::garbled;
use crate::reports::Report;
use crate::stops::Stop;
use crate::tables::Part;
use crate::tellings::put_told;
use crate::words::{put_out, put_request};
use codec::{WireFault, read_line, read_out, read_request, write_line, write_out, write_request};
use collections::Secret;
use hosting::read_told;
use node_core::Line;
use std::alloc::Global;
use tags_cell::{Handle, HandleFault, Out, Request, Sequencer, SequencerFault};

// What is said behind the words of a message that is written as other bytes than those it was read from.
const APART: &str = "; written as other bytes";

fn put_written(text: &mut String, written: &[u8], bytes: &[u8]) -> Result<(), WireFault> {
    if written != bytes {
        text.push_str(APART)?;
    }
    Ok(())
}

fn put_sent(
    alloc: Global,
    text: &mut String,
    request: &Request,
    bytes: &[u8],
) -> Result<(), WireFault> {
    put_request(text, request)?;
    put_written(text, write_request(alloc, request)?.as_slice(), bytes)
}

fn put_given(alloc: Global, text: &mut String, out: &Out, bytes: &[u8]) -> Result<(), WireFault> {
    put_out(text, out)?;
    put_written(text, write_out(alloc, out)?.as_slice(), bytes)
}

fn put_printed(
    alloc: Global,
    text: &mut String,
    line: &Line,
    bytes: &[u8],
) -> Result<(), WireFault> {
    write!(text, "{line}")?;
    put_written(text, write_line(alloc, line)?.as_slice(), bytes)
}

// By its kind: a message of a client, one of a master, a line, what a program is told by its master, a handle, or a sequencer.
fn put_block(alloc: Global, text: &mut String, kind: &str, bytes: &[u8]) -> Result<(), WireFault> {
    match kind {
        "requests" => {
            let request = read_request(alloc, bytes)?;
            let put = put_sent(alloc, text, &request, bytes);
            drop(request);
            put
        }
        "messages" => {
            let out = read_out(alloc, bytes)?;
            let put = put_given(alloc, text, &out, bytes);
            drop(out);
            put
        }
        "lines" => {
            let line = read_line(alloc, bytes)?;
            let put = put_printed(alloc, text, &line, bytes);
            drop(line);
            put
        }
        "tellings" => {
            let told = read_told(alloc, bytes)?;
            let put = put_told(text, &told);
            drop(told);
            Ok(put?)
        }
        "handles" => put_handle(alloc, text, bytes),
        _ => put_sequencer(alloc, text, bytes),
    }
}

// Of every handle: the bytes 0, 1, 2, .. 31.
fn secret() -> Secret {
    Secret::new([
        0, 1, 2, 3, 4, 5, 6, 7, 8, 9, 10, 11, 12, 13, 14, 15, 16, 17, 18, 19, 20, 21, 22, 23, 24,
        25, 26, 27, 28, 29, 30, 31,
    ])
}

fn put_fields(
    alloc: Global,
    text: &mut String,
    handle: &Handle,
    bytes: &[u8],
) -> Result<(), WireFault> {
    let epoch = handle.epoch.get();
    let client = handle.client.get();
    let number = handle.number.get();
    let instance = handle.instance.get();
    write!(
        text,
        "Handle epoch {epoch} client {client} number {number} instance {instance}"
    )?;
    let mode = handle.mode.bits();
    let life = handle.life;
    let events = handle.events.bits();
    let delay = handle.delay.get();
    let name = &handle.name;
    write!(
        text,
        " mode {mode} {life} events {events} lock-delay {delay} {name}"
    )?;
    put_written(text, handle.write(alloc, &secret())?.as_slice(), bytes)
}

fn put_handle(alloc: Global, text: &mut String, bytes: &[u8]) -> Result<(), WireFault> {
    match Handle::read(alloc, bytes, &secret()) {
        Ok(handle) => {
            let put = put_fields(alloc, text, &handle, bytes);
            drop(handle);
            put
        }
        Err(HandleFault::BadHandle) => Ok(text.push_str("nothing: a bad handle")?),
        Err(_) => Err(WireFault::NoMemory),
    }
}

fn put_holding(
    alloc: Global,
    text: &mut String,
    sequencer: &Sequencer,
    bytes: &[u8],
) -> Result<(), WireFault> {
    let mode = sequencer.mode;
    let instance = sequencer.instance.get();
    let generation = sequencer.generation.get();
    let name = &sequencer.name;
    write!(
        text,
        "Sequencer {mode} instance {instance} generation {generation} {name}"
    )?;
    put_written(text, sequencer.write(alloc)?.as_slice(), bytes)
}

fn put_sequencer(alloc: Global, text: &mut String, bytes: &[u8]) -> Result<(), WireFault> {
    match Sequencer::read(alloc, bytes) {
        Ok(sequencer) => {
            let put = put_holding(alloc, text, &sequencer, bytes);
            drop(sequencer);
            put
        }
        Err(SequencerFault::BadSequencer) => Ok(text.push_str("nothing: a bad sequencer")?),
        Err(_) => Err(WireFault::NoMemory),
    }
}

/// What a block is, in words; or that it is nothing, and the first reason from the left.
pub(crate) fn block_words(alloc: Global, kind: &str, bytes: &[u8]) -> Result<String, Stop> {
    let mut text = String::new(alloc);
    match put_block(alloc, &mut text, kind, bytes) {
        Ok(()) => {}
        Err(WireFault::NoMemory) => return Err(Stop::NoMemory),
        Err(fault) => {
            text.clear();
            write!(text, "nothing: {fault}")?;
        }
    }
    Ok(text)
}

// Of so many blocks of the rows, cut or changed at random, how many are read and written as they are, and how many are nothing.
fn ends(alloc: Global, kind: &str, rows: &[Part<'_, '_>], count: u64) -> Result<(u64, u64), Stop> {
    let mut dice = Dice::new(count);
    let mut read = 0u64;
    let mut refused = 0u64;
    for _ in 0..count {
        let place = dice.below(rows.len() as u64) as usize;
        let Some(row) = rows.get(place) else {
            return Err(Stop::Bad("a table without rows"));
        };
        let bytes = row.bytes(alloc, "bytes")?;
        let bytes = garbled(alloc, bytes.as_slice(), &mut dice)?;
        let words = block_words(alloc, kind, bytes.as_slice())?;
        if words.starts_with("nothing: ") {
            refused = refused.saturating_add(1);
        } else if !words.ends_with(APART) {
            read = read.saturating_add(1);
        }
    }
    Ok((read, refused))
}

// That there are enough of both, and nothing else.
fn ends_words(alloc: Global, count: u64, read: u64, refused: u64) -> Result<String, Stop> {
    let least = count / 100;
    if read.saturating_add(refused) == count && read > least && refused > least {
        Ok(format!(in alloc; "each read or refused")?)
    } else {
        Ok(format!(in alloc; "of {count} {read} were read and {refused} refused")?)
    }
}

const NOTHING: &str = "each is nothing";

// The first block that is something where it is cut, or has a byte more.
fn other_lengths(alloc: Global, kind: &str, rows: &[Part<'_, '_>]) -> Result<String, Stop> {
    for row in rows {
        let mut bytes = row.bytes(alloc, "bytes")?;
        let whole = bytes.len();
        bytes.push(0)?;
        for length in 0..=bytes.len() {
            let words = block_words(alloc, kind, bytes.get(..length).unwrap_or(&[]))?;
            if length != whole && !words.starts_with("nothing: ") {
                let name = row.name;
                return Ok(format!(in alloc; "{name} at {length} bytes: {words}")?);
            }
        }
    }
    Ok(format!(in alloc; "{NOTHING}")?)
}

/// Runs a table of blocks, and as many of them garbled as it says. Where it is to be cut, each block is nothing at any other length.
pub(crate) fn run_blocks(
    rt: &HostRuntime,
    report: &mut Report,
    table: Part<'_, '_>,
) -> Result<(), Stop> {
    let alloc = rt.alloc();
    let kind = table.value("of");
    let rows = table.parts(alloc, "row")?;
    for row in &rows {
        let bytes = row.bytes(alloc, "bytes")?;
        let came = block_words(alloc, kind, bytes.as_slice())?;
        report.tell(rt, (table.name, row.name), row.value("is"), came.as_str());
    }
    if table.value("cut") == "refused" {
        let came = other_lengths(alloc, kind, rows.as_slice())?;
        report.tell(rt, (table.name, "at other lengths"), NOTHING, came.as_str());
    }
    let count = table.number("garbled");
    if count > 0 {
        let (read, refused) = ends(alloc, kind, rows.as_slice(), count)?;
        let came = ends_words(alloc, count, read, refused)?;
        report.tell(
            rt,
            (table.name, "garbled"),
            "each read or refused",
            came.as_str(),
        );
    }
    Ok(())
}
