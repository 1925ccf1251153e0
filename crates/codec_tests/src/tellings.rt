//! What a master and a client tell, in a few words.
use crate::stages;
use hosting::{MasterCounts, MasterFrame};
use node_core::{Fault, Line};
use std::alloc::{AllocError, Global};
use std::str;
use tags_cell::{Alive, CallResult, Out, Reply};

fn put_reply(text: &mut String, reply: &Reply) -> Result<(), AllocError> {
    let number = reply.number.get();
    match (&reply.result, reply.stamp) {
        (CallResult::Opened(handle), None) => {
            let instance = handle.instance.get();
            write!(text, "reply {number} opened {instance}")
        }
        (CallResult::Viewed(view), Some(stamp)) => {
            write!(text, "reply {number} stamp {stamp} {view}")
        }
        (CallResult::Done, None) => write!(text, "reply {number} done"),
        _ => write!(text, "reply {number} of another kind"),
    }
}

// Of its invalidations the first one's number, and how many there are.
fn put_alive(text: &mut String, alive: &Alive) -> Result<(), AllocError> {
    let number = alive.number.get();
    let span = alive.span;
    let count = alive.invalidations.len();
    write!(text, "alive {number} span {span}")?;
    match alive.invalidations.as_slice().first() {
        Some(first) => {
            let first = first.number;
            write!(text, " from {first} with {count}")
        }
        None => Ok(()),
    }
}

fn put_message(text: &mut String, message: &Out) -> Result<(), AllocError> {
    match message {
        Out::Started(started) => {
            let number = started.number.get();
            let span = started.span;
            write!(text, "started {number} span {span}")
        }
        Out::Alive(alive) => put_alive(text, alive),
        Out::Reply(reply) => put_reply(text, reply),
        Out::Refused(refused) => {
            let fault = refused.fault;
            write!(text, "refused {fault}")
        }
    }
}

/// Writes what a block tells.
pub(crate) fn put_told(text: &mut String, told: &MasterFrame) -> Result<(), AllocError> {
    match told {
        MasterFrame::Line(line) => write!(text, "line {line}"),
        MasterFrame::Message(client, message) => {
            let client = client.get();
            write!(text, "to {client} ")?;
            put_message(text, message)
        }
        MasterFrame::Bad(fault) => write!(text, "bad: {fault}"),
        MasterFrame::End(Some(moment)) => write!(text, "end {moment}"),
        MasterFrame::End(None) => text.push_str("end"),
        MasterFrame::Counts(counts) => put_counts(text, *counts),
        MasterFrame::Recovers(until) => write!(text, "recovers until {until}"),
        MasterFrame::Waits(number) => write!(text, "waits {number}"),
        MasterFrame::Touches(name) => match str::from_utf8(name.as_slice()) {
            Ok(name) => write!(text, "touches {name}"),
            Err(_) => text.push_str("touches what is no text"),
        },
        MasterFrame::Awaited(client) => write!(text, "awaited {client}"),
    }
}

fn put_counts(text: &mut String, counts: MasterCounts) -> Result<(), AllocError> {
    let (epoch, sessions, nodes) = (counts.epoch, counts.sessions, counts.nodes);
    let (rights, changes) = (counts.rights, counts.changes);
    write!(text, "epoch {epoch} sessions {sessions} nodes {nodes} ")?;
    write!(text, "rights {rights} changes {changes}")
}

fn push_lines(text: &mut String, lines: &[Line]) -> Result<(), AllocError> {
    for line in lines {
        write!(text, "; {line}")?;
    }
    Ok(())
}

fn push_fault(text: &mut String, fault: Option<Fault>) -> Result<(), AllocError> {
    match fault {
        Some(fault) => write!(text, " {fault}"),
        None => Ok(()),
    }
}

// What it is: its span, or why the master refuses something by it.
fn push_out(text: &mut String, out: &Out) -> Result<(), AllocError> {
    match out {
        Out::Started(started) => {
            let span = started.span;
            write!(text, "started {span}")
        }
        Out::Alive(alive) => {
            let span = alive.span;
            write!(text, "alive {span}")
        }
        Out::Reply(reply) => match reply.result {
            CallResult::Refused(fault) => write!(text, "reply {fault}"),
            _ => text.push_str("reply"),
        },
        Out::Refused(refused) => {
            let fault = refused.fault;
            write!(text, "refused {fault}")
        }
    }
}

fn push_outs(text: &mut String, outs: &[Out]) -> Result<(), AllocError> {
    for out in outs {
        let whose = out.client().get();
        write!(text, "; to {whose}: ")?;
        push_out(text, out)?;
    }
    Ok(())
}

/// What is printed and sent, and why a client refuses it, each behind a semicolon.
pub(crate) fn said(alloc: Global, told: &stages::Told) -> Result<String, AllocError> {
    let mut text = String::new(alloc);
    push_lines(&mut text, told.lines.as_slice())?;
    push_outs(&mut text, told.outs.as_slice())?;
    if told.refused.is_some() {
        text.push_str("; refused")?;
    }
    push_fault(&mut text, told.refused)?;
    Ok(text)
}
