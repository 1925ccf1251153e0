//! Lines.
use crate::alike::Alike;
use node_core::{Answer, Event, Fault, Kind, Line, Mod, Node, Right, Stat, View};

impl Alike for Kind {
    fn is_same(&self, other: &Kind) -> bool {
        match (self, other) {
            (Kind::File, Kind::File) => true,
            (Kind::Directory, Kind::Directory) => true,
            _ => false,
        }
    }
}

impl Alike for Right {
    fn is_same(&self, other: &Right) -> bool {
        match (self, other) {
            (Right::Read, Right::Read) => true,
            (Right::Write, Right::Write) => true,
            (Right::Change, Right::Change) => true,
            _ => false,
        }
    }
}

impl Alike for Fault {
    fn is_same(&self, other: &Fault) -> bool {
        match (self, other) {
            (Fault::NoMemory, Fault::NoMemory) => true,
            (Fault::BadName, Fault::BadName) => true,
            (Fault::OtherCell, Fault::OtherCell) => true,
            (Fault::BadPrincipal, Fault::BadPrincipal) => true,
            (Fault::BadAcl, Fault::BadAcl) => true,
            (Fault::NotFound, Fault::NotFound) => true,
            (Fault::Exists, Fault::Exists) => true,
            (Fault::WrongKind(a), Fault::WrongKind(b)) => a.is_same(b),
            (Fault::NotEmpty, Fault::NotEmpty) => true,
            (Fault::Denied(a), Fault::Denied(b)) => a.is_same(b),
            (Fault::WrongGeneration(a), Fault::WrongGeneration(b)) => a == b,
            (Fault::TooLarge, Fault::TooLarge) => true,
            (Fault::Exhausted, Fault::Exhausted) => true,
            (Fault::StaleInstance, Fault::StaleInstance) => true,
            (Fault::StoreRefused, Fault::StoreRefused) => true,
            (Fault::StoreDamaged, Fault::StoreDamaged) => true,
            (Fault::BadHandle, Fault::BadHandle) => true,
            (Fault::BadSequencer, Fault::BadSequencer) => true,
            (Fault::NoSession, Fault::NoSession) => true,
            (Fault::BadAck(a), Fault::BadAck(b)) => a == b,
            (Fault::Repeat, Fault::Repeat) => true,
            (Fault::Busy, Fault::Busy) => true,
            (Fault::Held(a), Fault::Held(b)) => a.is_same(b),
            (Fault::Delayed(a), Fault::Delayed(b)) => a == b,
            (Fault::NotHolder, Fault::NotHolder) => true,
            (Fault::SequencerStale, Fault::SequencerStale) => true,
            (Fault::DelayTooLong, Fault::DelayTooLong) => true,
            (Fault::OldEpoch(a), Fault::OldEpoch(b)) => a == b,
            (Fault::Recovering, Fault::Recovering) => true,
            (Fault::InJeopardy, Fault::InJeopardy) => true,
            (Fault::SessionExpired, Fault::SessionExpired) => true,
            (Fault::Poisoned, Fault::Poisoned) => true,
            (Fault::CallOutstanding, Fault::CallOutstanding) => true,
            (Fault::Unknown, Fault::Unknown) => true,
            (Fault::ProtocolFault, Fault::ProtocolFault) => true,
            (Fault::UnfairClock, Fault::UnfairClock) => true,
            (Fault::NoSuchMessage, Fault::NoSuchMessage) => true,
            (Fault::MasterDown, Fault::MasterDown) => true,
            (Fault::MasterUp, Fault::MasterUp) => true,
            (Fault::WatchFull, Fault::WatchFull) => true,
            (Fault::PassMissing(a), Fault::PassMissing(b)) => a == b,
            (Fault::ReceiptApart(a), Fault::ReceiptApart(b)) => a == b,
            (Fault::NoRoom(a), Fault::NoRoom(b)) => a == b,
            _ => false,
        }
    }
}

impl Alike for Stat {
    fn is_same(&self, other: &Stat) -> bool {
        self.kind.is_same(&other.kind)
            && self.instance == other.instance
            && self.content_generation == other.content_generation
            && self.acl_generation == other.acl_generation
            && self.lock_generation == other.lock_generation
            && self.read.is_same(&other.read)
            && self.write.is_same(&other.write)
            && self.change.is_same(&other.change)
            && self.life.is_same(&other.life)
            && self.length == other.length
    }
}

impl Alike for Node {
    fn is_same(&self, other: &Node) -> bool {
        self.kind.is_same(&other.kind)
            && self.instance == other.instance
            && self.content_generation == other.content_generation
            && self.acl_generation == other.acl_generation
            && self.read.is_same(&other.read)
            && self.write.is_same(&other.write)
            && self.change.is_same(&other.change)
            && self.life.is_same(&other.life)
            && self.content.is_same(&other.content)
    }
}

impl Alike for View {
    fn is_same(&self, other: &View) -> bool {
        self.node.is_same(&other.node) && self.children.is_same(&other.children)
    }
}

impl Alike for Mod {
    fn is_same(&self, other: &Mod) -> bool {
        match (self, other) {
            (Mod::Put(name, node), Mod::Put(name_b, node_b)) => {
                name.is_same(name_b) && node.is_same(node_b)
            }
            (Mod::Gone(name), Mod::Gone(name_b)) => name.is_same(name_b),
            _ => false,
        }
    }
}

impl Alike for Answer {
    fn is_same(&self, other: &Answer) -> bool {
        match (self, other) {
            (Answer::Opened(a), Answer::Opened(b)) => a == b,
            (Answer::Closed, Answer::Closed) => true,
            (Answer::Poisoned, Answer::Poisoned) => true,
            (Answer::Viewed(a), Answer::Viewed(b)) => a.is_same(b),
            (Answer::Stated(a), Answer::Stated(b)) => a.is_same(b),
            (Answer::Names(a), Answer::Names(b)) => a.is_same(b),
            (Answer::Sequencer(a), Answer::Sequencer(b)) => a.is_same(b),
            (Answer::Okay, Answer::Okay) => true,
            (Answer::Refused(a), Answer::Refused(b)) => a.is_same(b),
            _ => false,
        }
    }
}

impl Alike for Event {
    fn is_same(&self, other: &Event) -> bool {
        match (self, other) {
            (Event::FailOver, Event::FailOver) => true,
            (Event::Contents(a, b, c), Event::Contents(x, y, z)) => a == x && b == y && c == z,
            (Event::ChildAdded(a, b), Event::ChildAdded(x, y)) => a == x && b.is_same(y),
            (Event::ChildRemoved(a, b), Event::ChildRemoved(x, y)) => a == x && b.is_same(y),
            (Event::ChildModified(a, b), Event::ChildModified(x, y)) => a == x && b.is_same(y),
            (Event::Invalid(a), Event::Invalid(x)) => a == x,
            (Event::Locked(a), Event::Locked(x)) => a == x,
            (Event::Conflict(a), Event::Conflict(x)) => a == x,
            (Event::Lost, Event::Lost) => true,
            _ => false,
        }
    }
}

impl Alike for Line {
    fn is_same(&self, other: &Line) -> bool {
        match (self, other) {
            (Line::Up(a), Line::Up(x)) => a == x,
            (Line::Down, Line::Down) => true,
            (Line::Recovered, Line::Recovered) => true,
            (Line::Started(a), Line::Started(x)) => a == x,
            (Line::Ended(a), Line::Ended(x)) => a == x,
            (Line::Applied(a, b, c, d), Line::Applied(x, y, z, w)) => {
                a == x && b == y && c.is_same(z) && d.is_same(w)
            }
            (Line::Granted(a, b, c), Line::Granted(x, y, z)) => a == x && b == y && c.is_same(z),
            (Line::Acked(a), Line::Acked(x)) => a == x,
            (Line::Expired(a), Line::Expired(x)) => a == x,
            (Line::Locked(a, b, c, d), Line::Locked(x, y, z, w)) => {
                a == x && b == y && c.is_same(z) && d == w
            }
            (Line::Freed(a, b), Line::Freed(x, y)) => a == x && b == y,
            (Line::Lapsed(a, b), Line::Lapsed(x, y)) => a == x && b == y,
            (Line::Reopened(a), Line::Reopened(x)) => a == x,
            (Line::Served(a, b, c), Line::Served(x, y, z)) => {
                a == x && b.is_same(y) && c.is_same(z)
            }
            (Line::Done(a, b, c), Line::Done(x, y, z)) => a == x && b == y && c.is_same(z),
            (Line::Told(a, b), Line::Told(x, y)) => a == x && b.is_same(y),
            (Line::Jeopardy(a), Line::Jeopardy(x)) => a == x,
            (Line::Safe(a), Line::Safe(x)) => a == x,
            (Line::Lost(a), Line::Lost(x)) => a == x,
            (Line::Refused(a), Line::Refused(x)) => a.is_same(x),
            _ => false,
        }
    }
}
