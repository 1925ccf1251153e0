//! The files that are run.
use crate::blocks::run_blocks;
use crate::frames::{run_session, run_streams};
use crate::groups::run_groups;
use crate::hostile::run_hostile;
use crate::random::run_random;
use crate::replays::run_replays;
use crate::reports::Report;
use crate::stops::Stop;
use crate::tables::{Line, Part, lines_of, parts};
use crate::texts::run_texts;
use crate::walks::run_walks;
use std::alloc::AllocError;
use std::{env, fs};

/// Runs what the command line names. The exit status.
pub(crate) fn run(rt: &HostRuntime) -> u8 {
    let mut report = Report::new();
    match run_words(rt, &mut report) {
        Ok(()) => report.end(rt),
        Err(stop) => {
            let _ = eprintln!(rt; "codec_tests: {stop}");
            match stop {
                Stop::NoMemory => 4,
                _ => 2,
            }
        }
    }
}

fn run_words(rt: &HostRuntime, report: &mut Report) -> Result<(), Stop> {
    let Ok(words) = env::args(rt) else {
        return Err(Stop::Bad("the command line can't be read"));
    };
    let mut count = 0;
    for word in words.skip(1) {
        match word.as_str().strip_prefix("--random=") {
            Some(number) => count = number.parse::<u64>().unwrap_or(0),
            None => run_file(rt, report, word.as_str(), count)?,
        }
    }
    Ok(())
}

fn run_file(rt: &HostRuntime, report: &mut Report, path: &str, count: u64) -> Result<(), Stop> {
    let Ok(text) = fs::read_to_string(rt, path) else {
        let _ = eprintln!(rt; "codec_tests: {path}");
        return Err(Stop::Bad("a file can't be read"));
    };
    let lines = lines_of(rt.alloc(), text.as_str())?;
    run_tables(rt, report, lines.as_slice(), count)
}

fn run_tables(
    rt: &HostRuntime,
    report: &mut Report,
    lines: &[Line<'_>],
    count: u64,
) -> Result<(), Stop> {
    let alloc = rt.alloc();
    let before = parts(alloc, lines, "beginning")?;
    for table in &parts(alloc, lines, "table")? {
        run_table(rt, report, before.as_slice(), *table, count)?;
    }
    Ok(())
}

// By the kind of its rows, the last word of its name.
fn run_table(
    rt: &HostRuntime,
    report: &mut Report,
    before: &[Part<'_, '_>],
    table: Part<'_, '_>,
    count: u64,
) -> Result<(), Stop> {
    match table.value("of") {
        "requests" | "messages" | "lines" | "tellings" | "handles" | "sequencers" => run_blocks(
            rt, report, table,
        ),
        "steps"
        | "numbers"
        | "modes"
        | "events"
        | "contents"
        | "names"
        | "components"
        | "principals"
        | "acls"
        | "settings" => run_texts(rt, report, table),
        "session" => run_session(rt, report, table),
        "streams" => run_streams(rt, report, table),
        "groups" => run_groups(rt, report, table),
        "hostile" => run_hostile(rt, report, before, table),
        "replays" => run_replays(rt, report, before, table),
        "walks" => run_walks(rt, report, before, table),
        "guesses" if count > 0 => run_random(rt, report, before, table, count),
        "guesses" => Ok(()),
        _ => Err(Stop::Bad("a table of another kind")),
    }
}
