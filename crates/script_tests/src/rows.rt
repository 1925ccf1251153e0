//! The rows of a table, each in each of its ways.
use crate::cuts::cuts_left;
use crate::disks::stops_left;
use crate::plainly::script_left;
use crate::steps::run_left;
use crate::stores::store_left;
use crate::tables::{Part, is_known, is_way, parts_of, text_under, wanted};
use crate::texts::difference;
use crate::troubles::Trouble;
use collections::Secret;
use names_cell::{Component, Principal};
use rows_cell::{Limits, Settings};
use scripts::number;
use std::alloc::{AllocError, Global};
use std::io::{self, Write};
use std::str;

/// How many rows there were, each counted once for each of its ways, and how many differ.
#[derive(Clone, Copy)]
pub(crate) struct Tally {
    pub(crate) rows: u64,
    pub(crate) differ: u64,
    pub(crate) is_quiet: bool,
}

impl Tally {
    pub(crate) fn new() -> Tally {
        Tally {
            rows: 0,
            differ: 0,
            is_quiet: false,
        }
    }
}

// The ways of a row that names none.
const WAYS: &str = "lists bytes sql files";

// A row: its name, its parts, and the settings.
#[derive(Clone, Copy)]
struct Row<'a> {
    alloc: Global,
    name: &'a str,
    parts: &'a [Part<'a>],
    settings: &'a Settings,
}

fn settings_of(alloc: Global, parts: &[Part<'_>]) -> Option<Settings> {
    let lease = number_of(parts, "lease").unwrap_or(12_000);
    let cell = Component::parse(alloc, "c").ok()?;
    let ann = Principal::parse(alloc, "ann").ok()?;
    let bob = Principal::parse(alloc, "bob").ok()?;
    Settings::new(
        alloc,
        cell,
        lease,
        &[ann, bob],
        Secret::new([0; 32]),
        limits_of(parts),
    )
    .ok()
}

impl<'a> Row<'a> {
    // What it leaves in a way.
    fn left(&self, way: &str, rest: &str) -> Result<Vec<u8>, Trouble> {
        let (alloc, settings, parts) = (self.alloc, self.settings, self.parts);
        match way {
            "run" => run_left(
                alloc,
                settings,
                text_under(alloc, parts, "steps")?.as_slice(),
            ),
            "cuts" => cuts_left(
                alloc,
                settings,
                text_under(alloc, parts, "steps")?.as_slice(),
            ),
            "stops" => stops_left(alloc, settings, parts, rest),
            "memory" | "stored" => store_left(alloc, settings, parts, way),
            "lists"
            | "bytes"
            | "sql"
            | "files"
            | "fails"
            | "traced"
            | "untraced"
            | "reads"
            | "room"
            | "refuses"
            | "crashes" => script_left(alloc, settings, parts, way, rest),
            _ => Err(Trouble::Said("no such way")),
        }
    }

    // The line that tells how it goes; none where it goes as it stands.
    fn wrong(&self, way: &str, rest: &str) -> Result<Option<String>, Trouble> {
        let wanted = wanted(self.alloc, way, self.parts)?;
        let left = self.left(way, rest)?;
        Ok(match difference(wanted.as_slice(), left.as_slice()) {
            Some((line, wanted, left)) => Some(told(self.alloc, line, wanted, left)?),
            None => None,
        })
    }

    fn run<W: Write>(
        &self,
        output: &mut W,
        tally: &mut Tally,
        way: &str,
        rest: &str,
    ) -> io::Result<()> {
        let wrong = self.wrong(way, rest);
        tally.rows = tally.rows.saturating_add(1);
        let name = self.name;
        match wrong {
            Ok(None) => {
                if !tally.is_quiet {
                    writeln!(output, "{name} {way} as it stands")?;
                }
                return Ok(());
            }
            Ok(Some(line)) => writeln!(output, "{name} {way}: {line}")?,
            Err(trouble) => writeln!(output, "{name} {way}: {}", trouble.text())?,
        }
        tally.differ = tally.differ.saturating_add(1);
        Ok(())
    }

    fn run_over<W: Write>(&self, output: &mut W, tally: &mut Tally, ways: &str) -> io::Result<()> {
        for way in ways.split(' ') {
            self.run(output, tally, way, "")?;
        }
        Ok(())
    }

    fn run_all<W: Write>(&self, output: &mut W, tally: &mut Tally, ways: &str) -> io::Result<()> {
        let mut has_ways = false;
        for part in self.parts {
            if is_way(part.word) {
                has_ways = true;
                match part.word {
                    "over" => self.run_over(output, tally, part.rest)?,
                    way => self.run(output, tally, way, part.rest)?,
                }
            }
        }
        if has_ways {
            return Ok(());
        }
        self.run_over(output, tally, ways)
    }
}

// Two lines that differ.
fn told(alloc: Global, line: u64, wanted: &[u8], left: &[u8]) -> Result<String, AllocError> {
    let wanted = str::from_utf8(wanted).unwrap_or("no text").trim_end();
    let left = str::from_utf8(left).unwrap_or("no text").trim_end();
    format!(in alloc; "line {line} is \"{left}\" and not \"{wanted}\"")
}

// The number of the first part that has this word; none where no part has it.
fn number_of(parts: &[Part<'_>], word: &str) -> Option<u64> {
    for part in parts {
        if part.word == word {
            return Some(number(part.rest).unwrap_or(0));
        }
    }
    None
}

fn limits_of(parts: &[Part<'_>]) -> Limits {
    Limits {
        max_nodes: number_of(parts, "max_nodes"),
        max_bytes: number_of(parts, "max_bytes"),
        max_locks: number_of(parts, "max_locks"),
    }
}

// The first word that no part of a row has.
fn unknown<'a>(parts: &[Part<'a>]) -> Option<&'a str> {
    for part in parts {
        if !is_known(part.word) {
            return Some(part.word);
        }
    }
    None
}

fn run_parts<W: Write>(
    alloc: Global,
    output: &mut W,
    name: &str,
    parts: &[Part<'_>],
    ways: &str,
    tally: &mut Tally,
) -> io::Result<()> {
    if let Some(word) = unknown(parts) {
        tally.differ = tally.differ.saturating_add(1);
        return writeln!(output, "{name}: no part of a row is {word}");
    }
    let Some(settings) = settings_of(alloc, parts) else {
        tally.differ = tally.differ.saturating_add(1);
        return writeln!(output, "{name}: no settings");
    };
    let row = Row {
        alloc,
        name,
        parts,
        settings: &settings,
    };
    row.run_all(output, tally, ways)
}

fn run_row<W: Write>(
    alloc: Global,
    output: &mut W,
    head: &str,
    row: &str,
    ways: &str,
    tally: &mut Tally,
) -> io::Result<()> {
    let (name, text) = row.split_once('\n').unwrap_or((row, ""));
    match parts_of(alloc, head, text) {
        Ok(parts) => run_parts(alloc, output, name, parts.as_slice(), ways, tally),
        Err(trouble) => {
            tally.differ = tally.differ.saturating_add(1);
            writeln!(output, "{name}: {}", trouble.text())
        }
    }
}

// The ways that the head of a table names for its rows, in front of its beginnings.
fn ways_of(head: &str) -> &str {
    for line in head.split('\n') {
        if line.starts_with("beginning ") {
            return WAYS;
        }
        if let Some(ways) = line.strip_prefix("over ") {
            return ways;
        }
    }
    WAYS
}

/// Runs the rows of a table, and tells how each goes. The last line counts those of the table.
pub(crate) fn run_table<W: Write>(
    alloc: Global,
    output: &mut W,
    name: &str,
    text: &str,
    tally: &mut Tally,
) -> io::Result<()> {
    let before = *tally;
    let mut rows = text.split("\nrow ");
    let head = rows.next().unwrap_or("");
    let ways = ways_of(head);
    for row in rows {
        run_row(alloc, output, head, row, ways, tally)?;
    }
    let count = tally.rows.saturating_sub(before.rows);
    let differ = tally.differ.saturating_sub(before.differ);
    writeln!(output, "{name}: {count} rows, {differ} differ")
}
