//! What came of a step, in parts.
ghost use Rattle.std.specs.Prelude.{◌≡◌, length};
ghost use Rattle.client_exports.specs.Tellings.{life_number, kind_number, lock_number, right_number, fault_argument, bare, viewed, stated, answer_telling, seen_telling, happened, event_telling, line_telling, telling_at, answer_bytes, told_bytes, bytes_at};

use crate::held::HeldClient;
use crate::shows::seen_content;
use node_core::{Answer, Event, Fault, Kind, Life, Line, LockMode, Right, Stat, View};

/// A line of the last step, in plain numbers; what doesn't belong to its kind is 0. In C a struct.
#[repr(C)]
#[derive(Clone, Copy)]
pub struct LineParts {
    /// 1 to 9: a call ended, and gave a handle; closed one; poisoned one; a node with its content; its numbers; the names of children;
    /// a sequencer; nothing; or was refused. 10 and 11: the cache served a node, or that there is none. 12 an event. 13 to 15: the
    /// session is in jeopardy, safe, lost. 16 another line, 0 none.
    pub what: u32,
    /// The number of the refusal.
    pub fault: u32,
    /// The number of the call that ended, 0 where the client answered by itself.
    pub call: u64,
    /// The number of a new handle.
    pub handle: u64,
    pub instance: u64,
    pub content_generation: u64,
    pub acl_generation: u64,
    pub lock_generation: u64,
    /// Of a content, or of a sequencer, in bytes.
    pub length: u64,
    /// 0 a file, 1 a directory.
    pub kind: u32,
    /// 0 permanent, 1 ephemeral.
    pub life: u32,
    /// Of a refusal: the generation, the count, the milliseconds, the epoch or the place that stands after its name; of the kind that
    /// is there 0 a file, 1 a directory; of the right that is missing 1 to read, 2 to write, 4 to change ACL names; of a held lock
    /// 0 exclusive, 1 shared.
    pub argument: u64,
    /// Of an event: the number of the call that opened its handle.
    pub opened: u64,
    /// How many children's names there are.
    pub children: u64,
    /// 1 to 9: a fail-over; the content was set, and then `instance` and `content_generation` are the node's; a child was made; deleted;
    /// its content set; the node was deleted; its lock taken; another wants a lock that the handle holds; events were missed.
    pub event: u64,
}

impl HeldClient {
    /// The line of the last step that stands at this place, the first at 0.
    pub fn telling(&self, place: usize) -> LineParts
        ensures { result ≡ telling_at self.now.lines place }
    {
        match self.lines.as_slice().get(place) {
            Some(line) => line_telling(line),
            None => bare(0),
        }
    }

    /// The content, or the sequencer, that the line at this place shows; empty where it shows none. Copies nothing.
    pub fn told_bytes(&self, place: usize) -> &[u8]
        ensures { result.now ≡ bytes_at self.now.lines place }
    {
        match self.lines.as_slice().get(place) {
            Some(line) => told_bytes(line),
            None => &[],
        }
    }
}

fn bare(what: u32) -> LineParts
    ensures { result ≡ bare what }
{
    LineParts {
        what,
        fault: 0,
        call: 0,
        handle: 0,
        instance: 0,
        content_generation: 0,
        acl_generation: 0,
        lock_generation: 0,
        length: 0,
        kind: 0,
        life: 0,
        argument: 0,
        opened: 0,
        children: 0,
        event: 0,
    }
}

fn viewed(what: u32, call: u64, view: &View) -> LineParts
    ensures { result ≡ viewed what call view.now }
{
    LineParts {
        call,
        instance: view.node.instance,
        content_generation: view.node.content_generation,
        acl_generation: view.node.acl_generation,
        length: view.node.content.len() as u64,
        kind: kind_number(view.node.kind),
        life: life_number(view.node.life),
        children: view.children.as_slice().len() as u64,
        ..bare(what)
    }
}

fn stated(call: u64, stat: &Stat) -> LineParts
    ensures { result ≡ stated call stat.now }
{
    LineParts {
        call,
        instance: stat.instance,
        content_generation: stat.content_generation,
        acl_generation: stat.acl_generation,
        lock_generation: stat.lock_generation,
        length: stat.length,
        kind: kind_number(stat.kind),
        life: life_number(stat.life),
        ..bare(5)
    }
}

fn kind_number(kind: Kind) -> u32
    ensures { result ≡ kind_number kind }
{
    match kind {
        Kind::File => 0,
        Kind::Directory => 1,
    }
}

fn life_number(life: Life) -> u32
    ensures { result ≡ life_number life }
{
    match life {
        Life::Permanent => 0,
        Life::Ephemeral => 1,
    }
}

fn lock_number(mode: LockMode) -> u32
    ensures { result ≡ lock_number mode }
{
    match mode {
        LockMode::Exclusive => 0,
        LockMode::Shared => 1,
    }
}

fn right_number(right: Right) -> u32
    ensures { result ≡ right_number right }
{
    match right {
        Right::Read => 1,
        Right::Write => 2,
        Right::Change => 4,
    }
}

fn fault_argument(fault: Fault) -> u64
    ensures { result ≡ fault_argument fault }
{
    match fault {
        Fault::WrongKind(present) => kind_number(present) as u64,
        Fault::Denied(missing) => right_number(missing) as u64,
        Fault::WrongGeneration(present) => present,
        Fault::BadAck(issued) => issued,
        Fault::Held(mode) => lock_number(mode) as u64,
        Fault::Delayed(left) => left,
        Fault::OldEpoch(present) => present,
        Fault::PassMissing(pass) => pass,
        Fault::ReceiptApart(place) => place,
        Fault::NoRoom(limit) => limit,
        _ => 0,
    }
}

fn answer_telling(call: u64, answer: &Answer) -> LineParts
    ensures { result ≡ answer_telling call answer.now }
{
    match answer {
        Answer::Opened(handle) => LineParts {
            call,
            handle: *handle,
            ..bare(1)
        },
        Answer::Closed => LineParts { call, ..bare(2) },
        Answer::Poisoned => LineParts { call, ..bare(3) },
        Answer::Viewed(view) => viewed(4, call, view),
        Answer::Stated(stat) => stated(call, stat),
        Answer::Names(names) => LineParts {
            call,
            children: names.as_slice().len() as u64,
            ..bare(6)
        },
        Answer::Sequencer(bytes) => LineParts {
            call,
            length: bytes.len() as u64,
            ..bare(7)
        },
        Answer::Okay => LineParts { call, ..bare(8) },
        Answer::Refused(fault) => LineParts {
            call,
            fault: fault.number() as u32,
            argument: fault_argument(*fault),
            ..bare(9)
        },
    }
}

fn seen_telling(seen: &Option<View>) -> LineParts
    ensures { result ≡ seen_telling seen.now }
{
    match seen {
        Some(view) => viewed(10, 0, view),
        None => bare(11),
    }
}

fn happened(event: u64, opened: u64) -> LineParts
    ensures { result ≡ happened event opened }
{
    LineParts {
        event,
        opened,
        ..bare(12)
    }
}

fn event_telling(event: &Event) -> LineParts
    ensures { result ≡ event_telling event.now }
{
    match event {
        Event::FailOver => happened(1, 0),
        Event::Contents(opened, instance, generation) => LineParts {
            instance: *instance,
            content_generation: *generation,
            ..happened(2, *opened)
        },
        Event::ChildAdded(opened, _) => happened(3, *opened),
        Event::ChildRemoved(opened, _) => happened(4, *opened),
        Event::ChildModified(opened, _) => happened(5, *opened),
        Event::Invalid(opened) => happened(6, *opened),
        Event::Locked(opened) => happened(7, *opened),
        Event::Conflict(opened) => happened(8, *opened),
        Event::Lost => happened(9, 0),
    }
}

fn line_telling(line: &Line) -> LineParts
    ensures { result ≡ line_telling line.now }
{
    match line {
        Line::Done(_, call, answer) => answer_telling(*call, answer),
        Line::Served(_, _, seen) => seen_telling(seen),
        Line::Told(_, event) => event_telling(event),
        Line::Jeopardy(_) => bare(13),
        Line::Safe(_) => bare(14),
        Line::Lost(_) => bare(15),
        _ => bare(16),
    }
}

fn answer_bytes(answer: &Answer) -> &[u8]
    ensures { result.now ≡ answer_bytes answer.now }
{
    match answer {
        Answer::Viewed(view) => view.node.content.as_slice(),
        Answer::Sequencer(bytes) => bytes.as_slice(),
        _ => &[],
    }
}

fn told_bytes(line: &Line) -> &[u8]
    ensures { result.now ≡ told_bytes line.now }
{
    match line {
        Line::Done(_, _, answer) => answer_bytes(answer),
        Line::Served(_, _, seen) => seen_content(seen),
        _ => &[],
    }
}
