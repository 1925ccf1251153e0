//! Frames that come together: what is told of them, and what the next master finds, where the store refuses one commit, or where no more
//! can be written.
use crate::frames::{hexadecimal, terms};
use crate::reports::Report;
use crate::stops::Stop;
use crate::tables::Part;
use hosting::{GroupLimits, GroupStop, GroupTerms, HostedMaster, serve_groups, serve_on};
use rows_cell::{FailAt, ListRecords, Settings};
use std::alloc::Global;
use std::io::{self, BufReader, Write};

// All frames of a row stand in it.
const READ_SIZE: usize = 0x10_0000;

type Kept = FailAt<ListRecords>;

// What is written, and room for so many bytes more.
#[derive(Drop)]
struct Paper {
    written: Vec<u8>,
    room: usize,
}

impl Write for Paper {
    fn write(&mut self, buf: &[u8]) -> io::Result<usize> {
        if buf.len() > self.room || self.written.extend_from_slice(buf).is_err() {
            return Err(io::Error::other("no room"));
        }
        self.room = self.room.saturating_sub(buf.len());
        Ok(buf.len())
    }

    fn flush(&mut self) -> io::Result<()> {
        Ok(())
    }
}

// A new store that refuses the commit of this number, or none.
fn kept(alloc: Global, refused: u64) -> Result<Kept, Stop> {
    let settings = Settings::standard(alloc)?;
    let records = ListRecords::new(alloc, &settings)?;
    Ok(FailAt::new(records, refused))
}

fn ended_word(ended: &Result<(), GroupStop>) -> &'static str {
    match ended {
        Ok(()) => "whole",
        Err(GroupStop::Refused(_)) => "refused",
        Err(GroupStop::Stopped(_)) => "stopped",
    }
}

// The store behind frames that come together; how they ended is put behind a text, and what was told of them.
fn serve_kept(
    alloc: Global,
    records: Kept,
    limits: GroupLimits,
    reader: &mut BufReader<&[u8]>,
    paper: &mut Paper,
    ended: &mut &'static str,
) -> Kept {
    let terms = GroupTerms {
        master: terms(),
        limits,
    };
    let (seat, end) = serve_groups(alloc, terms, HostedMaster::Down(records), reader, paper);
    *ended = ended_word(&end);
    seat.close()
}

// What is told of frames that come one by one to a master over what is there.
fn told_again(alloc: Global, records: Kept, sent: &[u8]) -> Vec<u8> {
    let mut reader = sent;
    let mut told = Vec::new(alloc);
    let (seat, _) = serve_on(
        alloc,
        terms(),
        HostedMaster::Down(records),
        &mut reader,
        &mut told,
    );
    drop(seat);
    told
}

// How frames that come together end, and what is told of them; and what is told of frames that come then.
fn group_words(
    alloc: Global,
    records: Kept,
    limits: GroupLimits,
    sent: &[u8],
    room: usize,
    again: &[u8],
) -> Result<String, Stop> {
    let Ok(mut reader) = BufReader::with_capacity(alloc, READ_SIZE, sent) else {
        drop(records);
        return Err(Stop::NoMemory);
    };
    let mut paper = Paper {
        written: Vec::new(alloc),
        room,
    };
    let mut ended = "";
    let records = serve_kept(alloc, records, limits, &mut reader, &mut paper, &mut ended);
    let then = told_again(alloc, records, again);
    let told = hexadecimal(alloc, paper.written.as_slice())?;
    let found = hexadecimal(alloc, then.as_slice())?;
    Ok(format!(in alloc; "{ended} {told}; then {found}")?)
}

/// What is told of frames that come together to a store of their own.
pub(crate) fn whole_words(alloc: Global, sent: &[u8]) -> Result<String, Stop> {
    let records = kept(alloc, 0)?;
    group_words(alloc, records, GroupLimits::none(), sent, usize::MAX, &[])
}

// How much may be told of the frames of a row; where nothing is said, all.
fn room_of(row: Part<'_, '_>) -> usize {
    match row.value("room").parse::<usize>() {
        Ok(room) => room,
        Err(_) => usize::MAX,
    }
}

// How many edits of a row are committed as one change; where nothing is said, any number.
fn limits_of(row: Part<'_, '_>) -> GroupLimits {
    match row.value("edits").parse::<u64>() {
        Ok(edits) => GroupLimits {
            edits,
            bytes: u64::MAX,
        },
        Err(_) => GroupLimits::none(),
    }
}

/// Runs a table of frames that come together, each row to a master and a store of its own.
pub(crate) fn run_groups(
    rt: &HostRuntime,
    report: &mut Report,
    table: Part<'_, '_>,
) -> Result<(), Stop> {
    let alloc = rt.alloc();
    for row in &table.parts(alloc, "row")? {
        let sent = row.bytes(alloc, "to")?;
        let again = row.bytes(alloc, "again")?;
        let told = hexadecimal(alloc, row.bytes(alloc, "from")?.as_slice())?;
        let found = hexadecimal(alloc, row.bytes(alloc, "finds")?.as_slice())?;
        let ends = row.value("ends");
        let wanted = format!(in alloc; "{ends} {told}; then {found}")?;
        let records = kept(alloc, row.number("refuses"))?;
        let came = group_words(
            alloc,
            records,
            limits_of(*row),
            sent.as_slice(),
            room_of(*row),
            again.as_slice(),
        )?;
        report.tell(rt, (table.name, row.name), wanted.as_str(), came.as_str());
    }
    Ok(())
}
