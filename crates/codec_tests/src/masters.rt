//! What a master is, as bytes.
use crate::sheets::Sheet;
use codec::{WireFault, write_out, write_request};
use collections::Bytes;
use event_core::EventQueue;
use gate_core::Waiting;
use lock_core::Lock;
use master_parts::{HandleKey, HandleState, Handles, Task, WaitingRequest, Work};
use master_state::Master;
use names_cell::Name;
use node_core::{Listing, Node, View};
use rights_core::Rights;
use session_core::{LastCall, Session};
use std::alloc::{AllocError, Global};
use tags_cell::{CallMessage, Ordinal, Out, Reply, Request, Start};

// More than the number of any client and of any call that the tests make.
const CLIENT_END: u64 = 5;

const CALL_END: u64 = 512;

const LAST_CALL: u64 = 0x7fff_ffff_ffff_ffff;

/// Writes a call, a Start or a Beat.
pub(crate) fn show_request(sheet: &mut Sheet, request: &Request) {
    match write_request(sheet.alloc, request) {
        Ok(bytes) => sheet.block(bytes.as_slice()),
        Err(_) => sheet.is_short = true,
    }
}

fn reply_bytes(alloc: Global, reply: &Reply) -> Result<Bytes, WireFault> {
    let out = Out::Reply(reply.clone()?);
    let bytes = write_out(alloc, &out);
    drop(out);
    bytes
}

fn show_kept(sheet: &mut Sheet, kept: &LastCall<Reply>) {
    sheet.word(kept.number.get());
    if let Some(reply) = &kept.reply {
        match reply_bytes(sheet.alloc, reply) {
            Ok(bytes) => sheet.block(bytes.as_slice()),
            Err(_) => sheet.is_short = true,
        }
    }
}

fn show_queue(sheet: &mut Sheet, queue: &EventQueue) {
    sheet.word(queue.count());
    sheet.word(queue.acknowledged());
    sheet.word(u64::from(queue.owes()));
    let Ok(waiting) = queue.unacked(sheet.alloc) else {
        sheet.is_short = true;
        return;
    };
    for told in waiting.as_slice() {
        sheet.word(told.number);
        sheet.shown(&told.event);
    }
}

fn show_session(sheet: &mut Sheet, client: u64, session: &Session<Reply>) {
    sheet.begin("session", client);
    sheet.block(session.principal.as_str().as_bytes());
    sheet.word(u64::from(session.live));
    sheet.word(session.timeout);
    sheet.word(session.lease_end);
    sheet.word(u64::from(session.taken_over));
    sheet.begin("beats", client);
    sheet.word(session.newest_beat);
    if let Some(parked) = session.parked {
        sheet.word(parked.number.get());
        sheet.word(parked.received);
    }
    sheet.begin("invalidations", client);
    sheet.word(session.invalidations.issued);
    sheet.word(session.invalidations.acknowledged);
    if let Some(mark) = session.mark {
        sheet.word(mark.invalidations);
        sheet.word(mark.since);
    }
    sheet.begin("events", client);
    if let Some(queue) = &session.events {
        show_queue(sheet, queue);
    }
    sheet.begin("kept", client);
    if let Some(kept) = &session.kept {
        show_kept(sheet, kept);
    }
}

fn show_lock(sheet: &mut Sheet, lock: &Lock) {
    sheet.word(lock.generation());
    sheet.told(lock.holders().as_map());
    sheet.told(&lock.waiters());
    sheet.told(&lock.closed());
}

// All of a node; its children are nodes of their own.
fn show_node(sheet: &mut Sheet, node: &Node) {
    match node.clone() {
        Ok(node) => {
            let children = Listing::new();
            let view = View { node, children };
            sheet.shown(&view);
            drop(view);
        }
        Err(_) => sheet.is_short = true,
    }
    sheet.block(node.content.as_slice());
}

// Each node with its lock.
fn show_nodes(sheet: &mut Sheet, master: &Master) {
    sheet.begin("nodes", 0);
    for (name, node) in master.map().as_map() {
        sheet.block(name.as_str().as_bytes());
        show_node(sheet, node);
        sheet.word(master.locks.generation(node.instance));
        if let Some(lock) = master.locks.get(node.instance) {
            show_lock(sheet, lock);
        }
    }
}

// Whether there is one.
fn show_handle(sheet: &mut Sheet, handles: &Handles, client: u64, number: u64) -> Option<()> {
    let key = HandleKey {
        client: Ordinal::new(client)?,
        number: Ordinal::new(number)?,
    };
    let state = handles.get(&key)?;
    sheet.word(client);
    sheet.word(number);
    match state {
        HandleState::Open(handle) => sheet.block(handle.bytes().as_slice()),
        HandleState::Closed => sheet.count(0),
    }
    Some(())
}

fn show_handles(sheet: &mut Sheet, handles: &Handles) {
    sheet.begin("handles", 0);
    let mut count = 0usize;
    for place in 0..CLIENT_END * CALL_END {
        let number = match place / CLIENT_END {
            0 => LAST_CALL,
            number => number,
        };
        let is_more = count < handles.len();
        if is_more && show_handle(sheet, handles, place % CLIENT_END, number).is_some() {
            count = count.saturating_add(1);
        }
    }
    if count != handles.len() {
        sheet.is_short = true;
    }
}

// How many of the names it holds.
fn show_rights_of(sheet: &mut Sheet, rights: &Rights, client: u64, names: &[Name]) -> usize {
    sheet.word(rights.invalidations(client));
    match rights.unacked(client) {
        Ok(unacked) => sheet.told(unacked.as_map()),
        Err(_) => sheet.is_short = true,
    }
    let mut count = 0usize;
    for name in names {
        if rights.holds(client, name) {
            sheet.block(name.as_str().as_bytes());
            count = count.saturating_add(1);
        }
    }
    count
}

fn show_rights(sheet: &mut Sheet, rights: &Rights, names: &[Name]) {
    sheet.begin("rights", 0);
    let totals = rights.totals();
    sheet.word(totals.issued);
    sheet.word(totals.acknowledged);
    sheet.word(totals.expired);
    let mut held = 0usize;
    for client in 1..CLIENT_END {
        held = held.saturating_add(show_rights_of(sheet, rights, client, names));
    }
    if held != rights.count_held() {
        sheet.is_short = true;
    }
}

// What a client asked for, as a message.
fn request_of(asked: &WaitingRequest) -> Result<Request, AllocError> {
    let client = asked.client;
    let number = asked.number;
    Ok(match asked.work.clone()? {
        Work::Starts(principal, _) => Request::Start(Start {
            client,
            number,
            principal,
        }),
        Work::Calls(call, sequencer) => Request::Call(CallMessage {
            client,
            epoch: 0,
            number,
            call,
            sequencer,
        }),
    })
}

fn show_asked(sheet: &mut Sheet, asked: &WaitingRequest) {
    if let Work::Starts(_, received) = asked.work {
        sheet.word(received);
    }
    match request_of(asked) {
        Ok(request) => {
            show_request(sheet, &request);
            drop(request);
        }
        Err(_) => sheet.is_short = true,
    }
}

fn show_waiting(sheet: &mut Sheet, waiting: &Waiting<Task>) {
    sheet.word(waiting.number);
    sheet.told(&waiting.change.touched);
    match &waiting.change.body {
        Task::Asked(asked) => show_asked(sheet, asked),
        Task::Tidies(idle) => {
            sheet.block(idle.name.as_str().as_bytes());
            sheet.word(idle.instance);
        }
    }
}

fn show_gate(sheet: &mut Sheet, master: &Master) {
    sheet.begin("gate", 0);
    sheet.word(master.gate().pushed());
    for (_, waiting) in master.gate().changes().as_map() {
        show_waiting(sheet, waiting);
    }
}

/// Writes all of a master. The names are all that it may know.
pub(crate) fn show_master(sheet: &mut Sheet, master: &Master, names: &[Name]) {
    sheet.begin("clock", 0);
    sheet.word(master.clock);
    sheet.begin("epoch", 0);
    sheet.word(master.epoch);
    sheet.word(master.next_instance);
    sheet.word(master.ended_below);
    sheet.word(u64::from(master.recovering));
    sheet.word(master.serving_from);
    sheet.block(master.name.as_str().as_bytes());
    sheet.bytes(master.secret.as_bytes());
    show_nodes(sheet, master);
    show_handles(sheet, master.handles());
    show_rights(sheet, master.rights(), names);
    show_gate(sheet, master);
    for (client, session) in master.sessions().as_map() {
        show_session(sheet, *client, session);
    }
}
