//! What a master tells, by its parts.
ghost use Rattle.std.specs.Prelude.{◌≡◌, Ok};
ghost use Rattle.collections.specs.Results.{Gives};
ghost use Rattle.codec.specs.Forms.{Form, read_whole};
ghost use Rattle.hosting.specs.Told.{told};
ghost use Rattle.server_exports.specs.Codes.{Parts, Tells};
ghost use Rattle.server_exports.specs.Heard.{nothing_said, bare, bare_line, changed, line_parts, mark_parts, count_parts, heard_parts, changed_name, line_name, heard_name, told_text, block_text};
ghost use Rattle.codec.specs.Fields.{kind_place, life_place, lock_mode_place};
ghost use Rattle.hosting.specs.Told.{fault_place};

use crate::codes::fault_code;
use crate::rooms::fill;
use crate::said::{Said, said_parts};
use codec::WireFault;
use collections::Bytes;
use hosting::{MasterCounts, MasterFrame, read_told};
use node_core::{Kind, Life, Line, LockMode, Mod};
use std::alloc::Global;

/// What a master tells, in plain numbers; what doesn't belong to its kind is 0. In C a struct.
#[repr(C)]
#[derive(Clone, Copy)]
pub struct Heard {
    /// 1 a line, 2 a message, 3 that a frame was none, 4 the mark after all that is told of a frame, 5 the counts of how it stands,
    /// 6 that it recovers, 7 a change that waits, 8 a name that this one may change, 9 a client that is waited for.
    pub what: u32,
    /// 1 to 20: up, down, recovered, started, ended, applied, granted, acked, expired, locked, freed, lapsed, reopened; what only a client
    /// prints: served, done, event, jeopardy, safe, lost; and refused.
    pub line: u32,
    /// Of an applied change: 1 a node is as this, 2 the node of this name went.
    pub change: u32,
    /// Of a node: 0 a file, 1 a directory.
    pub kind: u32,
    /// Of a node: 0 permanent, 1 ephemeral.
    pub life: u32,
    /// Of a lock: 0 exclusive, 1 shared.
    pub mode: u32,
    /// The number of the refusal; or of a frame that was none what is wrong with it, as frames tell it.
    pub fault: u32,
    /// 1 where a mark tells a moment.
    pub is_timed: u32,
    pub client: u64,
    /// The number of the call by which a change was applied; 0 where the cell did it.
    pub call: u64,
    /// Of a right, or of a change that waits.
    pub number: u64,
    pub instance: u64,
    /// Of a node that of its content, of a lock its own.
    pub generation: u64,
    /// Of a content, in bytes.
    pub length: u64,
    /// When the master has something to do next; or up to when it recovers at the latest.
    pub moment: u64,
    pub epoch: u64,
    pub sessions: u64,
    pub nodes: u64,
    pub rights: u64,
    pub changes: u64,
    /// Of the name, in bytes.
    pub name_length: u64,
    /// Of a message what it says.
    pub said: Said,
}

// What is told, by its parts, of the bytes of a block; or what is wrong with them.
pub(crate) fn tell_heard(alloc: Global, block: &[u8], out: &mut Heard, name: &mut [u8]) -> u32
    ensures { Tells heard_parts heard_name (read_whole told block.now) out.old out.new name.old name.new result }
{
    match read_told(alloc, block) {
        Ok(given) => {
            let code = put_heard(&given, out, name);
            drop(given);
            code
        }
        Err(fault) => fault_code(fault),
    }
}

fn put_heard(given: &MasterFrame, out: &mut Heard, name: &mut [u8]) -> u32
    ensures { Parts heard_parts heard_name (Ok given.now) out.old out.new name.old name.new result }
{
    *out = heard_parts(given);
    fill(heard_name(given), name);
    0
}

// The line that a block tells, as it is printed; nothing else has a text.
pub(crate) fn block_text(alloc: Global, block: &[u8]) -> Result<Bytes, WireFault>
    ensures { Gives WireFault.NoMemory result (block_text block.now) }
{
    match read_told(alloc, block) {
        Ok(given) => {
            let text = told_text(alloc, &given);
            drop(given);
            text
        }
        Err(fault) => Err(fault),
    }
}

fn told_text(alloc: Global, given: &MasterFrame) -> Result<Bytes, WireFault>
    ensures { Gives WireFault.NoMemory result (told_text given.now) }
{
    match given {
        MasterFrame::Line(line) => {
            let text = format!(in alloc; "{line}")?;
            Ok(Bytes::copy_of(alloc, text.as_str().as_bytes())?)
        }
        _ => Err(WireFault::BadKind),
    }
}

pub(crate) fn nothing_said() -> Said
    ensures { result ≡ nothing_said }
{
    Said {
        what: 0,
        fault: 0,
        client: 0,
        epoch: 0,
        number: 0,
        span: 0,
        brings: 0,
    }
}

pub(crate) fn bare(what: u32, line: u32) -> Heard
    ensures { result ≡ bare what line }
{
    Heard {
        what,
        line,
        change: 0,
        kind: 0,
        life: 0,
        mode: 0,
        fault: 0,
        is_timed: 0,
        client: 0,
        call: 0,
        number: 0,
        instance: 0,
        generation: 0,
        length: 0,
        moment: 0,
        epoch: 0,
        sessions: 0,
        nodes: 0,
        rights: 0,
        changes: 0,
        name_length: 0,
        said: nothing_said(),
    }
}

fn heard_parts(given: &MasterFrame) -> Heard
    ensures { result ≡ heard_parts given.now }
{
    match given {
        MasterFrame::Line(line) => line_parts(line),
        MasterFrame::Message(client, message) => Heard {
            client: client.get(),
            said: said_parts(message),
            ..bare(2, 0)
        },
        MasterFrame::Bad(fault) => Heard {
            fault: fault_place(*fault),
            ..bare(3, 0)
        },
        MasterFrame::End(deadline) => mark_parts(*deadline),
        MasterFrame::Counts(counts) => count_parts(*counts),
        MasterFrame::Recovers(until) => Heard {
            moment: *until,
            ..bare(6, 0)
        },
        MasterFrame::Waits(number) => Heard {
            number: *number,
            ..bare(7, 0)
        },
        MasterFrame::Touches(name) => Heard {
            name_length: name.len() as u64,
            ..bare(8, 0)
        },
        MasterFrame::Awaited(client) => Heard {
            client: *client,
            ..bare(9, 0)
        },
    }
}

// The byte by which a master tells it.
fn fault_place(fault: WireFault) -> u32
    ensures { result ≡ fault_place fault }
{
    fault_code(fault) - 1
}

fn mark_parts(deadline: Option<u64>) -> Heard
    ensures { result ≡ mark_parts 4 deadline }
{
    match deadline {
        Some(moment) => Heard {
            is_timed: 1,
            moment,
            ..bare(4, 0)
        },
        None => bare(4, 0),
    }
}

fn count_parts(counts: MasterCounts) -> Heard
    ensures { result ≡ count_parts 5 counts }
{
    Heard {
        epoch: counts.epoch,
        sessions: counts.sessions,
        nodes: counts.nodes,
        rights: counts.rights,
        changes: counts.changes,
        ..bare(5, 0)
    }
}

fn line_parts(line: &Line) -> Heard
    ensures { result ≡ line_parts line.now }
{
    match line {
        Line::Up(epoch) => Heard {
            epoch: *epoch,
            ..bare(1, 1)
        },
        Line::Down => bare(1, 2),
        Line::Recovered => bare(1, 3),
        Line::Started(client) => of_client(4, *client),
        Line::Ended(client) => of_client(5, *client),
        Line::Applied(client, call, change, _) => applied_parts(*client, *call, change),
        Line::Granted(right, client, name) => Heard {
            number: *right,
            client: *client,
            name_length: name.as_str().as_bytes().len() as u64,
            ..bare(1, 7)
        },
        Line::Acked(right) => of_right(8, *right),
        Line::Expired(right) => of_right(9, *right),
        Line::Locked(client, instance, mode, generation) => Heard {
            mode: lock_mode_place(*mode),
            generation: *generation,
            ..of_lock(10, *client, *instance)
        },
        Line::Freed(client, instance) => of_lock(11, *client, *instance),
        Line::Lapsed(client, instance) => of_lock(12, *client, *instance),
        Line::Reopened(instance) => Heard {
            instance: *instance,
            ..bare(1, 13)
        },
        Line::Refused(fault) => Heard {
            fault: fault.number() as u32,
            ..bare(1, 20)
        },
        Line::Served(..) => bare(1, 14),
        Line::Done(..) => bare(1, 15),
        Line::Told(..) => bare(1, 16),
        Line::Jeopardy(_) => bare(1, 17),
        Line::Safe(_) => bare(1, 18),
        Line::Lost(_) => bare(1, 19),
    }
}

// A line of a client's session.
fn of_client(line: u32, client: u64) -> Heard
    ensures { result ≡ record (bare 1 line) { client = client } }
{
    Heard {
        client,
        ..bare(1, line)
    }
}

// A line of a right.
fn of_right(line: u32, right: u64) -> Heard
    ensures { result ≡ record (bare 1 line) { number = right } }
{
    Heard {
        number: right,
        ..bare(1, line)
    }
}

// A line of a client and an instance.
fn of_lock(line: u32, client: u64, instance: u64) -> Heard
    ensures { result ≡ record (bare 1 line) { client = client; instance = instance } }
{
    Heard {
        client,
        instance,
        ..bare(1, line)
    }
}

fn applied_parts(client: u64, call: u64, change: &Mod) -> Heard
    ensures { result ≡ changed (record (bare 1 6) { client = client; call = call }) change.now }
{
    match change {
        Mod::Put(name, node) => Heard {
            client,
            call,
            change: 1,
            kind: kind_place(node.kind),
            life: life_place(node.life),
            instance: node.instance,
            generation: node.content_generation,
            length: node.content.len() as u64,
            name_length: name.as_str().as_bytes().len() as u64,
            ..bare(1, 6)
        },
        Mod::Gone(name) => Heard {
            client,
            call,
            change: 2,
            name_length: name.as_str().as_bytes().len() as u64,
            ..bare(1, 6)
        },
    }
}

pub(crate) fn kind_place(kind: Kind) -> u32
    ensures { result ≡ kind_place kind }
{
    match kind {
        Kind::File => 0,
        Kind::Directory => 1,
    }
}

pub(crate) fn life_place(life: Life) -> u32
    ensures { result ≡ life_place life }
{
    match life {
        Life::Permanent => 0,
        Life::Ephemeral => 1,
    }
}

fn lock_mode_place(mode: LockMode) -> u32
    ensures { result ≡ lock_mode_place mode }
{
    match mode {
        LockMode::Exclusive => 0,
        LockMode::Shared => 1,
    }
}

fn changed_name(change: &Mod) -> &[u8]
    ensures { result.now ≡ changed_name change.now }
{
    match change {
        Mod::Put(name, _) => name.as_str().as_bytes(),
        Mod::Gone(name) => name.as_str().as_bytes(),
    }
}

fn line_name(line: &Line) -> &[u8]
    ensures { result.now ≡ line_name line.now }
{
    match line {
        Line::Applied(_, _, change, _) => changed_name(change),
        Line::Granted(_, _, name) => name.as_str().as_bytes(),
        _ => &[],
    }
}

fn heard_name(given: &MasterFrame) -> &[u8]
    ensures { result.now ≡ heard_name given.now }
{
    match given {
        MasterFrame::Line(line) => line_name(line),
        MasterFrame::Touches(name) => name.as_slice(),
        _ => &[],
    }
}
