//! The texts of the lines, and a small map.
use collections::{Bytes, Items};
use names_cell::{Component, Name, Principal};
use node_core::*;
use std::alloc::Global;
use std::process::Abort;
use std::test::Fail;

// Whether the line is printed so.
fn shows(alloc: Global, line: &Line, text: &str) -> Result<bool, Fail> {
    let printed = format!(in alloc; "{line}")?;
    Ok(printed.as_str() == text)
}

// The last components of a directory's children.
type Children = &'static [&'static str];

// A node whose ACLs for reading and changing are `base`: its kind, instance, content generation, ACL for writing, life, and a
// content so many times over.
type NodeRow = (Kind, u64, u64, &'static str, Life, (&'static str, usize));

fn acl_of(alloc: Global, text: &str) -> Result<Component, Fail> {
    Ok(Component::parse(alloc, text)?)
}

fn content_of(alloc: Global, content: (&'static str, usize)) -> Result<Bytes, Fail> {
    let run = content.0.repeat(alloc, content.1)?;
    Ok(Bytes::copy_of(alloc, run.as_bytes())?)
}

fn node_of(alloc: Global, row: &NodeRow) -> Result<Node, Fail> {
    let (kind, instance, generation, write, life, content) = row;
    Ok(Node {
        kind: *kind,
        instance: *instance,
        content_generation: *generation,
        acl_generation: 1,
        read: acl_of(alloc, "base")?,
        write: acl_of(alloc, write)?,
        change: acl_of(alloc, "base")?,
        life: *life,
        content: content_of(alloc, *content)?,
    })
}

fn listing(alloc: Global, texts: &[&str]) -> Result<Listing, Fail> {
    let mut names = Items::new(alloc);
    for text in texts {
        names.push(acl_of(alloc, text)?)?;
    }
    Ok(Listing::of(names)?)
}

fn view_of(alloc: Global, row: &NodeRow, children: &[&str]) -> Result<View, Fail> {
    let node = node_of(alloc, row)?;
    Ok(View {
        node,
        children: listing(alloc, children)?,
    })
}

fn name(alloc: Global, text: &str) -> Result<Name, Fail> {
    Ok(Name::parse(alloc, text)?)
}

fn put_of(alloc: Global, at: &str, row: &NodeRow) -> Result<Mod, Fail> {
    let name = name(alloc, at)?;
    Ok(Mod::Put(name, node_of(alloc, row)?))
}

// A line, without what it holds that takes memory.
enum Shape {
    Refused(Fault),
    Up(u64),
    Down,
    Recovered,
    Started(u64),
    Ended(u64),
    Acked(u64),
    Expired(u64),
    Locked(u64, u64, LockMode, u64),
    Freed(u64, u64),
    Lapsed(u64, u64),
    Reopened(u64),
    Jeopardy(u64),
    Safe(u64),
    Lost(u64),
    FailOver,
    Contents,
    Invalid,
    LockTaken,
    Conflict,
    SessionLost,
    Opened(u64),
    Closed,
    Poisoned,
    Okay,
    CallRefused(Fault),
    Put(NodeRow, Children),
    Gone(&'static str),
    Granted(&'static str),
    Absent(&'static str),
    Served(&'static str, NodeRow, Children),
    Viewed(NodeRow, Children),
    Stated,
    Names(Children),
    Sequencer(&'static [u8]),
    Added(&'static str),
    Removed(&'static str),
    Modified(&'static str),
}

// Version 1, exclusive, instance 4, lock generation 1, and a name of 7 bytes.
const SEQUENCER: &[u8] =
    b"\x01\x01\x00\x00\x00\x00\x00\x00\x00\x04\x00\x00\x00\x00\x00\x00\x00\x01\x00\x07/ls/c/f";

const FIRST: NodeRow = (Kind::File, 4, 1, "base", Life::Permanent, ("a", 1));

const DIRECTORY: NodeRow = (Kind::Directory, 4, 0, "base", Life::Permanent, ("", 0));

const LINES: &[(Shape, &str)] = &[
    (Shape::Refused(Fault::NoMemory), "refused 1 NoMemory"),
    (Shape::Refused(Fault::BadName), "refused 2 BadName"),
    (Shape::Refused(Fault::OtherCell), "refused 3 OtherCell"),
    (
        Shape::Refused(Fault::BadPrincipal),
        "refused 4 BadPrincipal",
    ),
    (Shape::Refused(Fault::BadAcl), "refused 5 BadAcl"),
    (Shape::Refused(Fault::NotFound), "refused 6 NotFound"),
    (Shape::Refused(Fault::Exists), "refused 7 Exists"),
    (
        Shape::Refused(Fault::WrongKind(Kind::File)),
        "refused 8 WrongKind file",
    ),
    (
        Shape::Refused(Fault::WrongKind(Kind::Directory)),
        "refused 8 WrongKind dir",
    ),
    (Shape::Refused(Fault::NotEmpty), "refused 9 NotEmpty"),
    (
        Shape::Refused(Fault::Denied(Right::Read)),
        "refused 10 Denied read",
    ),
    (
        Shape::Refused(Fault::Denied(Right::Write)),
        "refused 10 Denied write",
    ),
    (
        Shape::Refused(Fault::Denied(Right::Change)),
        "refused 10 Denied change",
    ),
    (
        Shape::Refused(Fault::WrongGeneration(2)),
        "refused 11 WrongGeneration 2",
    ),
    (Shape::Refused(Fault::TooLarge), "refused 12 TooLarge"),
    (Shape::Refused(Fault::Exhausted), "refused 13 Exhausted"),
    (
        Shape::Refused(Fault::StaleInstance),
        "refused 14 StaleInstance",
    ),
    (
        Shape::Refused(Fault::StoreRefused),
        "refused 15 StoreRefused",
    ),
    (
        Shape::Refused(Fault::StoreDamaged),
        "refused 16 StoreDamaged",
    ),
    (Shape::Refused(Fault::BadHandle), "refused 17 BadHandle"),
    (
        Shape::Refused(Fault::BadSequencer),
        "refused 18 BadSequencer",
    ),
    (Shape::Refused(Fault::NoSession), "refused 19 NoSession"),
    (Shape::Refused(Fault::BadAck(0)), "refused 20 BadAck 0"),
    (Shape::Refused(Fault::Repeat), "refused 21 Repeat"),
    (Shape::Refused(Fault::Busy), "refused 22 Busy"),
    (
        Shape::Refused(Fault::Held(LockMode::Exclusive)),
        "refused 23 Held x",
    ),
    (
        Shape::Refused(Fault::Held(LockMode::Shared)),
        "refused 23 Held s",
    ),
    (
        Shape::Refused(Fault::Delayed(60_000)),
        "refused 24 Delayed 60000",
    ),
    (Shape::Refused(Fault::NotHolder), "refused 25 NotHolder"),
    (
        Shape::Refused(Fault::SequencerStale),
        "refused 26 SequencerStale",
    ),
    (
        Shape::Refused(Fault::DelayTooLong),
        "refused 27 DelayTooLong",
    ),
    (Shape::Refused(Fault::OldEpoch(2)), "refused 28 OldEpoch 2"),
    (Shape::Refused(Fault::Recovering), "refused 29 Recovering"),
    (Shape::Refused(Fault::InJeopardy), "refused 30 InJeopardy"),
    (
        Shape::Refused(Fault::SessionExpired),
        "refused 31 SessionExpired",
    ),
    (Shape::Refused(Fault::Poisoned), "refused 32 Poisoned"),
    (
        Shape::Refused(Fault::CallOutstanding),
        "refused 33 CallOutstanding",
    ),
    (Shape::Refused(Fault::Unknown), "refused 34 Unknown"),
    (
        Shape::Refused(Fault::ProtocolFault),
        "refused 35 ProtocolFault",
    ),
    (Shape::Refused(Fault::UnfairClock), "refused 36 UnfairClock"),
    (
        Shape::Refused(Fault::NoSuchMessage),
        "refused 37 NoSuchMessage",
    ),
    (Shape::Refused(Fault::MasterDown), "refused 38 MasterDown"),
    (Shape::Refused(Fault::MasterUp), "refused 39 MasterUp"),
    (Shape::Refused(Fault::WatchFull), "refused 40 WatchFull"),
    (
        Shape::Refused(Fault::PassMissing(2)),
        "refused 41 PassMissing 2",
    ),
    (
        Shape::Refused(Fault::ReceiptApart(1)),
        "refused 42 ReceiptApart 1",
    ),
    (Shape::Refused(Fault::NoRoom(9)), "refused 43 NoRoom 9"),
    (Shape::Up(1), "up 1"),
    (Shape::Down, "down"),
    (Shape::Recovered, "recovered"),
    (Shape::Started(1), "started 1"),
    (Shape::Ended(2), "ended 2"),
    (Shape::Acked(1), "acked 1"),
    (Shape::Expired(2), "expired 2"),
    (
        Shape::Locked(1, 4, LockMode::Exclusive, 1),
        "locked 1 4 x 1",
    ),
    (Shape::Locked(2, 4, LockMode::Shared, 2), "locked 2 4 s 2"),
    (Shape::Freed(1, 4), "freed 1 4"),
    (Shape::Lapsed(1, 4), "lapsed 1 4"),
    (Shape::Reopened(4), "reopened 4"),
    (Shape::Jeopardy(1), "jeopardy 1"),
    (Shape::Safe(1), "safe 1"),
    (Shape::Lost(1), "lost 1"),
    (Shape::FailOver, "event 2 failover"),
    (Shape::Contents, "event 2 contents 2 4 2"),
    (Shape::Invalid, "event 2 invalid 2"),
    (Shape::LockTaken, "event 2 locked 2"),
    (Shape::Conflict, "event 2 conflict 2"),
    (Shape::SessionLost, "event 2 lost"),
    (Shape::Opened(1), "done 1 4 opened 1"),
    (Shape::Closed, "done 1 4 closed"),
    (Shape::Poisoned, "done 1 4 poisoned"),
    (Shape::Okay, "done 1 4 ok"),
    (
        Shape::CallRefused(Fault::WrongGeneration(1)),
        "done 1 4 refused 11 WrongGeneration 1",
    ),
    (
        Shape::Put(FIRST, &[]),
        "applied 1 1 put /ls/c/f file 4 1 1 base base base permanent 1 61",
    ),
    (
        Shape::Put((Kind::File, 4, 2, "base", Life::Permanent, ("b", 1)), &[]),
        "applied 1 1 put /ls/c/f file 4 2 1 base base base permanent 1 62",
    ),
    (
        Shape::Put((Kind::File, 5, 1, "base", Life::Permanent, ("", 0)), &[]),
        "applied 1 1 put /ls/c/f file 5 1 1 base base base permanent 0 -",
    ),
    (
        Shape::Put((Kind::File, 4, 2, "base", Life::Permanent, ("a", 17)), &[]),
        "applied 1 1 put /ls/c/f file 4 2 1 base base base permanent 17 61616161616161616161616161616161",
    ),
    (
        Shape::Put(DIRECTORY, &[]),
        "applied 1 1 put /ls/c/f dir 4 0 1 base base base permanent 0",
    ),
    (
        Shape::Put(DIRECTORY, &["-", "g"]),
        "applied 1 1 put /ls/c/f dir 4 0 1 base base base permanent 2 - g",
    ),
    (
        Shape::Put((Kind::File, 5, 1, "foo", Life::Permanent, ("a", 1)), &[]),
        "applied 1 1 put /ls/c/f file 5 1 1 base foo base permanent 1 61",
    ),
    (
        Shape::Put((Kind::File, 4, 1, "base", Life::Ephemeral, ("", 0)), &[]),
        "applied 1 1 put /ls/c/f file 4 1 1 base base base ephemeral 0 -",
    ),
    (Shape::Gone("/ls/c/e"), "applied 0 0 gone /ls/c/e"),
    (Shape::Granted("/ls/c/g"), "granted 1 2 /ls/c/g"),
    (Shape::Absent("/ls/c/g"), "served 2 /ls/c/g absent"),
    (
        Shape::Served("/ls/c/f", FIRST, &[]),
        "served 1 /ls/c/f file 4 1 1 base base base permanent 1 61",
    ),
    (
        Shape::Served("/ls/c/d", DIRECTORY, &["a"]),
        "served 1 /ls/c/d dir 4 0 1 base base base permanent 1 a",
    ),
    (
        Shape::Viewed(FIRST, &[]),
        "done 1 4 view file 4 1 1 base base base permanent 1 61",
    ),
    (
        Shape::Viewed(DIRECTORY, &["a", "b"]),
        "done 1 4 view dir 4 0 1 base base base permanent 2 a b",
    ),
    (
        Shape::Stated,
        "done 1 4 stat file 4 1 2 0 base foo base permanent 1",
    ),
    (Shape::Names(&[]), "done 1 4 names"),
    (Shape::Names(&["acl"]), "done 1 4 names acl"),
    (Shape::Names(&["acl", "f"]), "done 1 4 names acl f"),
    (
        Shape::Sequencer(SEQUENCER),
        "done 1 4 sequencer 01010000000000000004000000000000000100072f6c732f632f66",
    ),
    (Shape::Added("/ls/c/d/a"), "event 2 child-added 3 /ls/c/d/a"),
    (
        Shape::Removed("/ls/c/d/a"),
        "event 2 child-removed 3 /ls/c/d/a",
    ),
    (
        Shape::Modified("/ls/c/d/a"),
        "event 2 child-modified 3 /ls/c/d/a",
    ),
];

fn stat_of(alloc: Global) -> Result<Answer, Fail> {
    Ok(Answer::Stated(Stat {
        kind: Kind::File,
        instance: 4,
        content_generation: 1,
        acl_generation: 2,
        lock_generation: 0,
        read: acl_of(alloc, "base")?,
        write: acl_of(alloc, "foo")?,
        change: acl_of(alloc, "base")?,
        life: Life::Permanent,
        length: 1,
    }))
}

fn applied_line(alloc: Global, row: &NodeRow, children: &[&str]) -> Result<Line, Fail> {
    let children = listing(alloc, children)?;
    Ok(Line::Applied(1, 1, put_of(alloc, "/ls/c/f", row)?, children))
}

fn served(alloc: Global, at: &str, row: &NodeRow, children: &[&str]) -> Result<Line, Fail> {
    let name = name(alloc, at)?;
    Ok(Line::Served(1, name, Some(view_of(alloc, row, children)?)))
}

// A line of numbers and words alone.
fn plain_line(shape: &Shape) -> Option<Line> {
    Some(match shape {
        Shape::Refused(fault) => Line::Refused(*fault),
        Shape::Up(epoch) => Line::Up(*epoch),
        Shape::Down => Line::Down,
        Shape::Recovered => Line::Recovered,
        Shape::Started(client) => Line::Started(*client),
        Shape::Ended(client) => Line::Ended(*client),
        Shape::Acked(right) => Line::Acked(*right),
        Shape::Expired(right) => Line::Expired(*right),
        Shape::Locked(client, instance, mode, generation) => {
            Line::Locked(*client, *instance, *mode, *generation)
        }
        Shape::Freed(client, instance) => Line::Freed(*client, *instance),
        Shape::Lapsed(client, instance) => Line::Lapsed(*client, *instance),
        Shape::Reopened(instance) => Line::Reopened(*instance),
        Shape::Jeopardy(client) => Line::Jeopardy(*client),
        Shape::Safe(client) => Line::Safe(*client),
        Shape::Lost(client) => Line::Lost(*client),
        _ => return plain_part(shape),
    })
}

// A line of an event or an answer of numbers alone.
fn plain_part(shape: &Shape) -> Option<Line> {
    Some(match shape {
        Shape::FailOver => Line::Told(2, Event::FailOver),
        Shape::Contents => Line::Told(2, Event::Contents(2, 4, 2)),
        Shape::Invalid => Line::Told(2, Event::Invalid(2)),
        Shape::LockTaken => Line::Told(2, Event::Locked(2)),
        Shape::Conflict => Line::Told(2, Event::Conflict(2)),
        Shape::SessionLost => Line::Told(2, Event::Lost),
        Shape::Opened(handle) => Line::Done(1, 4, Answer::Opened(*handle)),
        Shape::Closed => Line::Done(1, 4, Answer::Closed),
        Shape::Poisoned => Line::Done(1, 4, Answer::Poisoned),
        Shape::Okay => Line::Done(1, 4, Answer::Okay),
        Shape::CallRefused(fault) => Line::Done(1, 4, Answer::Refused(*fault)),
        _ => return None,
    })
}

fn line_of(alloc: Global, shape: &Shape) -> Result<Line, Fail> {
    Ok(match shape {
        Shape::Put(row, children) => applied_line(alloc, row, children)?,
        Shape::Gone(at) => Line::Applied(0, 0, Mod::Gone(name(alloc, at)?), Listing::new()),
        Shape::Granted(at) => Line::Granted(1, 2, name(alloc, at)?),
        Shape::Absent(at) => Line::Served(2, name(alloc, at)?, None),
        Shape::Served(at, row, children) => served(alloc, at, row, children)?,
        Shape::Viewed(row, children) => {
            Line::Done(1, 4, Answer::Viewed(view_of(alloc, row, children)?))
        }
        Shape::Stated => Line::Done(1, 4, stat_of(alloc)?),
        Shape::Names(texts) => Line::Done(1, 4, Answer::Names(listing(alloc, texts)?)),
        Shape::Sequencer(bytes) => {
            Line::Done(1, 4, Answer::Sequencer(Bytes::copy_of(alloc, bytes)?))
        }
        Shape::Added(at) => Line::Told(2, Event::ChildAdded(3, name(alloc, at)?)),
        Shape::Removed(at) => Line::Told(2, Event::ChildRemoved(3, name(alloc, at)?)),
        Shape::Modified(at) => Line::Told(2, Event::ChildModified(3, name(alloc, at)?)),
        _ => plain_line(shape).ok_or("no line")?,
    })
}

fn shape_shows(alloc: Global, shape: &Shape, text: &str) -> Result<bool, Fail> {
    let line = line_of(alloc, shape)?;
    let is_so = shows(alloc, &line, text);
    drop(line);
    is_so
}

#[test]
fn lines(rt: HostRuntime) -> Result<(), Fail> {
    for (shape, text) in LINES {
        assert!(rt; shape_shows(rt.alloc(), shape, text)?, "at {text}");
    }
    Ok(())
}

// What is done to a map, or asked of it.
enum Ask {
    Put(&'static str, NodeRow),
    Gone(&'static str),
    Children(&'static str),
    // Whether the principal may do this with a node whose ACL for writing is `foo`.
    May(&'static str, Right),
    // How many nodes there are, and how many bytes of contents.
    Size,
}

type Asks = &'static [(Ask, &'static str)];

const P: Life = Life::Permanent;

// The nodes of a new cell, whose `base` lists `ann` and `bob`.
const OPENING: Asks = &[
    (
        Ask::Put("/ls/c", (Kind::Directory, 1, 0, "base", P, ("", 0))),
        "new",
    ),
    (
        Ask::Put("/ls/c/acl", (Kind::Directory, 2, 0, "base", P, ("", 0))),
        "new",
    ),
    (
        Ask::Put(
            "/ls/c/acl/base",
            (Kind::File, 3, 1, "base", P, ("ann\nbob\n", 1)),
        ),
        "new",
    ),
];

// A number above its limit.
const PAST: u64 = 0x8000_0000_0000_0000;

// Each row has every fault from its own on.
const MISFITS: Asks = &[
    (
        Ask::Put(
            "/ls/c/d/a",
            (Kind::File, PAST, 1, "base", P, ("a", 262_145)),
        ),
        "6 NotFound",
    ),
    (
        Ask::Put(
            "/ls/c/acl/base/a",
            (Kind::File, PAST, 1, "base", P, ("a", 262_145)),
        ),
        "8 WrongKind file",
    ),
    (
        Ask::Put(
            "/ls/c/acl/base",
            (Kind::Directory, PAST, 1, "base", P, ("a", 262_145)),
        ),
        "12 TooLarge",
    ),
    (
        Ask::Put(
            "/ls/c/acl/base",
            (Kind::Directory, PAST, 1, "base", P, ("a", 262_144)),
        ),
        "13 Exhausted",
    ),
    (
        Ask::Put(
            "/ls/c/acl/base",
            (Kind::Directory, 4, 1, "base", P, ("a", 0)),
        ),
        "14 StaleInstance",
    ),
    (
        Ask::Put(
            "/ls/c/acl/base",
            (Kind::Directory, 3, 1, "base", P, ("a", 0)),
        ),
        "8 WrongKind file",
    ),
    (
        Ask::Put("/ls/c/acl", (Kind::File, 2, 1, "base", P, ("a", 0))),
        "8 WrongKind dir",
    ),
];

const PUT_AGAIN: Asks = &[
    (
        Ask::Put(
            "/ls/c/acl/base",
            (Kind::File, 3, 2, "base", P, ("ann\n", 1)),
        ),
        "over 1",
    ),
    (Ask::Gone("/ls/c/acl/base"), "over 2"),
];

const STAY: Asks = &[
    (Ask::Gone("/ls/c/acl"), "9 NotEmpty"),
    (Ask::Gone("/ls/c"), "9 NotEmpty"),
    (Ask::Gone("/ls/c/f"), "6 NotFound"),
];

// The root alone can't go either.
const ROOT_STAYS: Asks = &[
    (Ask::Gone("/ls/c/acl/base"), "over 1"),
    (Ask::Gone("/ls/c/acl"), "over 0"),
    (Ask::Gone("/ls/c"), "9 NotEmpty"),
];

const SMALL: NodeRow = (Kind::File, 4, 1, "base", P, ("", 0));

// Names between a directory and its children, in order of bytes, and a child that comes first of all.
const CHILDREN: Asks = &[
    (Ask::Put("/ls/c/f", SMALL), "new"),
    (Ask::Put("/ls/c/acl-x", SMALL), "new"),
    (Ask::Put("/ls/c/acl.x", SMALL), "new"),
    (Ask::Put("/ls/c/acl/-", SMALL), "new"),
    (Ask::Put("/ls/c/acl0", SMALL), "new"),
    (Ask::Put("/ls/c/-", SMALL), "new"),
    (Ask::Children("/ls/c"), "names - acl acl-x acl.x acl0 f"),
    (Ask::Children("/ls/c/acl"), "names - base"),
];

const ACL_FILES: Asks = &[
    (Ask::May("bob", Right::Write), "no"),
    (
        Ask::Put("/ls/c/acl/foo", (Kind::File, 4, 1, "base", P, ("bob\n", 1))),
        "new",
    ),
    (Ask::May("bob", Right::Write), "yes"),
    (
        Ask::Put(
            "/ls/c/acl/foo",
            (Kind::File, 4, 1, "base", P, ("ann\nbob", 1)),
        ),
        "over 1",
    ),
    (Ask::May("bob", Right::Write), "yes"),
    (
        Ask::Put(
            "/ls/c/acl/foo",
            (Kind::File, 4, 1, "base", P, ("bob\n\n", 1)),
        ),
        "over 1",
    ),
    (Ask::May("bob", Right::Write), "no"),
    (
        Ask::Put("/ls/c/acl/foo", (Kind::File, 4, 1, "base", P, ("ann\n", 1))),
        "over 1",
    ),
    (Ask::May("bob", Right::Write), "no"),
    (
        Ask::Put("/ls/c/acl/foo", (Kind::File, 4, 1, "base", P, ("", 0))),
        "over 1",
    ),
    (Ask::May("bob", Right::Write), "no"),
];

const DIRECTORY_AS_ACL: Asks = &[
    (
        Ask::Put("/ls/c/acl/foo", (Kind::Directory, 4, 0, "base", P, ("", 0))),
        "new",
    ),
    (Ask::May("bob", Right::Write), "no"),
];

const EACH_RIGHT: Asks = &[
    (Ask::May("ann", Right::Read), "yes"),
    (Ask::May("ann", Right::Write), "no"),
    (Ask::May("ann", Right::Change), "yes"),
];

// Each begins with the nodes of a new cell.
// The sum of the contents' lengths, as contents come, change and go.
const SIZES: Asks = &[
    (Ask::Size, "3 8"),
    (
        Ask::Put("/ls/c/f", (Kind::File, 4, 1, "base", P, ("abc", 1))),
        "new",
    ),
    (Ask::Size, "4 11"),
    (
        Ask::Put("/ls/c/f", (Kind::File, 4, 2, "base", P, ("a", 1))),
        "over 1",
    ),
    (Ask::Size, "4 9"),
    (
        Ask::Put("/ls/c/f", (Kind::File, 4, 3, "base", P, ("a", 262_145))),
        "12 TooLarge",
    ),
    (Ask::Size, "4 9"),
    (Ask::Gone("/ls/c/f"), "over 2"),
    (Ask::Size, "3 8"),
    (Ask::Gone("/ls/c/f"), "6 NotFound"),
    (Ask::Size, "3 8"),
];

const MAPS: &[(&str, Asks)] = &[
    ("sizes", SIZES),
    ("misfits", MISFITS),
    ("put_again", PUT_AGAIN),
    ("nodes_that_stay", STAY),
    ("the_root_stays", ROOT_STAYS),
    ("children_in_order", CHILDREN),
    ("acl_files", ACL_FILES),
    ("directory_as_acl", DIRECTORY_AS_ACL),
    ("each_right_has_its_acl", EACH_RIGHT),
];

fn text_of(alloc: Global, done: Result<MapOutcome, NodeFault>) -> Result<String, Fail> {
    match done {
        Ok(outcome) => {
            let text = former_text(alloc, &outcome);
            drop(outcome);
            text
        }
        Err(fault) => fault_text(alloc, Fault::from(fault)),
    }
}

fn former_text(alloc: Global, outcome: &MapOutcome) -> Result<String, Fail> {
    match &outcome.former {
        Some(view) => {
            let generation = view.content_generation;
            Ok(format!(in alloc; "over {generation}")?)
        }
        None => Ok("new".to_string(alloc)?),
    }
}

fn fault_text(alloc: Global, fault: Fault) -> Result<String, Fail> {
    Ok(format!(in alloc; "{fault}")?)
}

fn applied(alloc: Global, map: &mut Map, change: &Mod) -> Result<String, Fail> {
    text_of(alloc, map.apply(change))
}

fn put(alloc: Global, map: &mut Map, at: &str, row: &NodeRow) -> Result<String, Fail> {
    let change = put_of(alloc, at, row)?;
    let text = applied(alloc, map, &change);
    drop(change);
    text
}

fn gone(alloc: Global, map: &mut Map, at: &str) -> Result<String, Fail> {
    let change = Mod::Gone(name(alloc, at)?);
    let text = applied(alloc, map, &change);
    drop(change);
    text
}

fn answer_text(alloc: Global, answer: &Answer) -> Result<String, Fail> {
    Ok(format!(in alloc; "{answer}")?)
}

fn children(alloc: Global, map: &Map, at: &str) -> Result<String, Fail> {
    let name = name(alloc, at)?;
    let answer = Answer::Names(map.listing(&name, Kind::Directory)?);
    let text = answer_text(alloc, &answer);
    drop(answer);
    text
}

fn may(alloc: Global, map: &Map, principal: &str, right: Right) -> Result<bool, Fail> {
    let principal = Principal::parse(alloc, principal)?;
    let node = node_of(alloc, &(Kind::File, 5, 1, "foo", P, ("", 0)))?;
    let allowed = permitted(map, &principal, &node, right);
    drop(node);
    Ok(allowed?)
}

fn size(alloc: Global, map: &Map) -> Result<String, Fail> {
    let nodes = map.len();
    match map.content_bytes() {
        Some(bytes) => Ok(format!(in alloc; "{nodes} {bytes}")?),
        None => Ok(format!(in alloc; "{nodes} more")?),
    }
}

fn answer(alloc: Global, map: &mut Map, ask: &Ask) -> Result<String, Fail> {
    match ask {
        Ask::Put(at, row) => put(alloc, map, at, row),
        Ask::Gone(at) => gone(alloc, map, at),
        Ask::Children(at) => children(alloc, map, at),
        Ask::Size => size(alloc, map),
        Ask::May(principal, right) => {
            let text = if may(alloc, map, principal, *right)? {
                "yes"
            } else {
                "no"
            };
            Ok(text.to_string(alloc)?)
        }
    }
}

fn answers(alloc: Global, map: &mut Map, ask: &Ask, want: &str) -> Result<bool, Fail> {
    let found = answer(alloc, map, ask)?;
    Ok(found.as_str() == want)
}

// Each answer is the one that stands behind its step.
fn goes_so(
    rt: &impl Abort,
    alloc: Global,
    map: &mut Map,
    row: &str,
    asks: Asks,
) -> Result<(), Fail> {
    for (ask, want) in asks {
        assert!(rt; answers(alloc, map, ask, want)?, "at {want} of {row}");
    }
    Ok(())
}

fn map_goes(
    rt: &impl Abort,
    alloc: Global,
    map: &mut Map,
    row: &str,
    asks: Asks,
) -> Result<(), Fail> {
    goes_so(rt, alloc, map, row, OPENING)?;
    goes_so(rt, alloc, map, row, asks)
}

#[test]
fn maps(rt: HostRuntime) -> Result<(), Fail> {
    for (row, asks) in MAPS {
        let mut map = Map::new(rt.alloc());
        let done = map_goes(&rt, rt.alloc(), &mut map, row, asks);
        drop(map);
        done?;
    }
    Ok(())
}
