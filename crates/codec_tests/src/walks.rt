//! What comes to a master, and what a client does or is given, step by step, with what each answers.
use crate::hostile::said_to;
use crate::reports::Report;
use crate::stages::{Stage, stage_behind};
use crate::stops::Stop;
use crate::tables::{Line, Part, put_digits};
use crate::tellings::said;
use crate::words::put_request;
use client_core::{Ask, AskOutcome, Beaten, Client, Outcome, next_beat, next_turn};
use scripts::{Parsed, read_step};
use std::alloc::{AllocError, Global};
use tags_cell::Request;
use world_steps::Step;

// A message in words, or that there is none.
fn request_words(alloc: Global, request: Option<&Request>) -> Result<String, AllocError> {
    let mut text = String::new(alloc);
    match request {
        Some(request) => put_request(&mut text, request)?,
        None => text.push_str("nothing")?,
    }
    Ok(text)
}

// What a client sends.
fn beat_words(alloc: Global, client: &mut Client, now: u64) -> Result<String, Stop> {
    let Beaten { lines, request } = client.beat(now)?;
    drop(lines);
    let words = request_words(alloc, request.as_ref());
    drop(request);
    Ok(words?)
}

// What a client answers; where it sends a call that is also the one that it would send again.
fn outcome_words(alloc: Global, client: &Client, outcome: &Outcome) -> Result<String, AllocError> {
    match outcome {
        Outcome::Sent(request) => {
            let sent = request_words(alloc, Some(request))?;
            let again = request_words(alloc, client.again())?;
            if sent == again {
                format!(in alloc; "sent")
            } else {
                format!(in alloc; "{sent} is sent, and again {again}")
            }
        }
        Outcome::Served(answer) => format!(in alloc; "{answer}"),
        Outcome::Answered => format!(in alloc; "answered"),
        Outcome::Refused(fault) => format!(in alloc; "refused {fault}"),
    }
}

fn ask_words(alloc: Global, client: &mut Client, now: u64, ask: &Ask) -> Result<String, Stop> {
    let AskOutcome { lines, outcome } = client.ask(now, ask)?;
    drop(lines);
    let words = outcome_words(alloc, client, &outcome);
    drop(outcome);
    Ok(words?)
}

// By the words of a script behind the client's number.
fn asked(alloc: Global, client: &mut Client, now: u64, words: &str) -> Result<String, Stop> {
    let line = format!(in alloc; "ask 1 {words}")?;
    let parsed = read_step(alloc, line.as_str())?;
    let answer = match &parsed {
        Parsed::Step(Step::Ask(_, ask)) => ask_words(alloc, client, now, ask),
        _ => Err(Stop::Bad("a bad step")),
    };
    drop(parsed);
    answer
}

// When a beat does something next, and when the time turns how a client stands.
fn next_words(alloc: Global, client: &Client) -> Result<String, AllocError> {
    let mut text = String::new(alloc);
    match next_beat(client) {
        Some(moment) => write!(text, "beat {moment}")?,
        None => text.push_str("beat none")?,
    }
    match next_turn(client) {
        Some(moment) => write!(text, " turn {moment}")?,
        None => text.push_str(" turn none")?,
    }
    Ok(text)
}

fn client_step(stage: &mut Stage, line: Line<'_>) -> Result<String, Stop> {
    let alloc = stage.cast.alloc;
    let now = stage.cast.own();
    let Some(client) = stage.cast.clients.first_mut() else {
        return Err(Stop::Bad("no client has joined"));
    };
    match line.key {
        "beat" => beat_words(alloc, client, now),
        "ask" => asked(alloc, client, now, line.value),
        "again" => Ok(request_words(alloc, client.again())?),
        "next" => Ok(next_words(alloc, client)?),
        _ => Err(Stop::Bad("a bad step")),
    }
}

fn handed(stage: &mut Stage, is_to_master: bool, digits: &str) -> Result<String, Stop> {
    let mut bytes = Vec::new(stage.cast.alloc);
    put_digits(stage.cast.alloc, &mut bytes, digits)?;
    said_to(stage, is_to_master, bytes.as_slice())
}

fn swept(stage: &mut Stage) -> Result<String, Stop> {
    let told = stage.cast.swept()?;
    let words = said(stage.cast.alloc, &told);
    drop(told);
    Ok(words?)
}

// What a step answers.
fn step(stage: &mut Stage, line: Line<'_>) -> Result<String, Stop> {
    let nothing = String::new(stage.cast.alloc);
    match line.key {
        "behind" => Ok(nothing),
        "at" => {
            stage.cast.set_clocks(line.number());
            Ok(nothing)
        }
        "to-master" => handed(stage, true, line.value),
        "to-client" => handed(stage, false, line.value),
        "sweep" => swept(stage),
        _ => client_step(stage, line),
    }
}

// What is said behind steps is wanted, and what came of each then.
fn walk(
    stage: &mut Stage,
    row: Part<'_, '_>,
    wanted: &mut String,
    came: &mut String,
) -> Result<(), Stop> {
    let mut last = String::new(stage.cast.alloc);
    for line in row.lines {
        if line.key == "says" {
            wanted.push_str(" | ")?;
            wanted.push_str(line.value)?;
            came.push_str(" | ")?;
            came.push_str(last.as_str().strip_prefix("; ").unwrap_or(last.as_str()))?;
        } else {
            last = step(stage, *line)?;
        }
    }
    Ok(())
}

fn tell_row(
    rt: &HostRuntime,
    report: &mut Report,
    before: &[Part<'_, '_>],
    table: &str,
    row: Part<'_, '_>,
) -> Result<(), Stop> {
    let alloc = rt.alloc();
    let mut wanted = String::new(alloc);
    let mut came = String::new(alloc);
    let mut stage = stage_behind(alloc, before, row.value("behind"))?;
    let walked = walk(&mut stage, row, &mut wanted, &mut came);
    drop(stage.down());
    walked?;
    report.tell(rt, (table, row.name), wanted.as_str(), came.as_str());
    Ok(())
}

/// Runs a table of steps.
pub(crate) fn run_walks(
    rt: &HostRuntime,
    report: &mut Report,
    before: &[Part<'_, '_>],
    table: Part<'_, '_>,
) -> Result<(), Stop> {
    for row in &table.parts(rt.alloc(), "row")? {
        tell_row(rt, report, before, table.name, *row)?;
    }
    Ok(())
}
