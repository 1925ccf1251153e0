//! Requests.
use crate::alike::Alike;
use node_core::{Life, LockMode};
use tags_cell::{
    AclNames, Beat, Call, CallMessage, Create, Disposition, Events, Mode, NewNode, Open, Request,
    Start,
};

impl Alike for Start {
    fn is_same(&self, other: &Start) -> bool {
        self.client.get() == other.client.get()
            && self.number.get() == other.number.get()
            && self.principal.is_same(&other.principal)
    }
}

impl Alike for Beat {
    fn is_same(&self, other: &Beat) -> bool {
        self.client.get() == other.client.get()
            && self.epoch == other.epoch
            && self.number.get() == other.number.get()
            && self.invalidations == other.invalidations
            && self.events == other.events
    }
}

impl Alike for CallMessage {
    fn is_same(&self, other: &CallMessage) -> bool {
        self.client.get() == other.client.get()
            && self.epoch == other.epoch
            && self.number.get() == other.number.get()
            && self.call.is_same(&other.call)
            && self.sequencer.is_same(&other.sequencer)
    }
}

impl Alike for Request {
    fn is_same(&self, other: &Request) -> bool {
        match (self, other) {
            (Request::Start(a), Request::Start(b)) => a.is_same(b),
            (Request::Beat(a), Request::Beat(b)) => a.is_same(b),
            (Request::Call(a), Request::Call(b)) => a.is_same(b),
            _ => false,
        }
    }
}

impl Alike for Disposition {
    fn is_same(&self, other: &Disposition) -> bool {
        match (self, other) {
            (Disposition::May, Disposition::May) => true,
            (Disposition::Must, Disposition::Must) => true,
            _ => false,
        }
    }
}

impl Alike for AclNames {
    fn is_same(&self, other: &AclNames) -> bool {
        self.read.is_same(&other.read)
            && self.write.is_same(&other.write)
            && self.change.is_same(&other.change)
    }
}

impl Alike for NewNode {
    fn is_same(&self, other: &NewNode) -> bool {
        match (self, other) {
            (NewNode::File(a), NewNode::File(b)) => a.is_same(b),
            (NewNode::Directory, NewNode::Directory) => true,
            _ => false,
        }
    }
}

impl Alike for Life {
    fn is_same(&self, other: &Life) -> bool {
        match (self, other) {
            (Life::Permanent, Life::Permanent) => true,
            (Life::Ephemeral, Life::Ephemeral) => true,
            _ => false,
        }
    }
}

impl Alike for LockMode {
    fn is_same(&self, other: &LockMode) -> bool {
        match (self, other) {
            (LockMode::Exclusive, LockMode::Exclusive) => true,
            (LockMode::Shared, LockMode::Shared) => true,
            _ => false,
        }
    }
}

impl Alike for Create {
    fn is_same(&self, other: &Create) -> bool {
        self.disposition.is_same(&other.disposition)
            && self.node.is_same(&other.node)
            && self.life.is_same(&other.life)
            && self.acls.is_same(&other.acls)
    }
}

impl Alike for Mode {
    fn is_same(&self, other: &Mode) -> bool {
        *self == *other
    }
}

impl Alike for Events {
    fn is_same(&self, other: &Events) -> bool {
        self.contents == other.contents
            && self.children == other.children
            && self.lock == other.lock
            && self.conflict == other.conflict
    }
}

impl Alike for Open {
    fn is_same(&self, other: &Open) -> bool {
        self.name.is_same(&other.name)
            && self.mode.is_same(&other.mode)
            && self.create.is_same(&other.create)
            && self.delay == other.delay
            && self.events.is_same(&other.events)
    }
}

impl Alike for Call {
    fn is_same(&self, other: &Call) -> bool {
        match (self, other) {
            (Call::Open(a), Call::Open(b)) => a.is_same(b),
            (Call::Close(a), Call::Close(b)) => a.is_same(b),
            (Call::Read(a), Call::Read(b)) => a.is_same(b),
            (Call::Stat(a), Call::Stat(b)) => a.is_same(b),
            (Call::List(a), Call::List(b)) => a.is_same(b),
            (
                Call::Set {
                    handle,
                    content,
                    generation,
                },
                Call::Set {
                    handle: handle_b,
                    content: content_b,
                    generation: generation_b,
                },
            ) => {
                handle.is_same(handle_b)
                    && content.is_same(content_b)
                    && generation.is_same(generation_b)
            }
            (
                Call::SetAcl {
                    handle,
                    acls,
                    generation,
                },
                Call::SetAcl {
                    handle: handle_b,
                    acls: acls_b,
                    generation: generation_b,
                },
            ) => {
                handle.is_same(handle_b) && acls.is_same(acls_b) && generation.is_same(generation_b)
            }
            (Call::Delete(a), Call::Delete(b)) => a.is_same(b),
            (
                Call::Acquire { handle, mode },
                Call::Acquire {
                    handle: handle_b,
                    mode: mode_b,
                },
            ) => handle.is_same(handle_b) && mode.is_same(mode_b),
            (
                Call::TryAcquire { handle, mode },
                Call::TryAcquire {
                    handle: handle_b,
                    mode: mode_b,
                },
            ) => handle.is_same(handle_b) && mode.is_same(mode_b),
            (Call::Release(a), Call::Release(b)) => a.is_same(b),
            (Call::GetSequencer(a), Call::GetSequencer(b)) => a.is_same(b),
            (Call::SetSequencer(a), Call::SetSequencer(b)) => a.is_same(b),
            (Call::CheckSequencer(a), Call::CheckSequencer(b)) => a.is_same(b),
            (Call::Leave, Call::Leave) => true,
            _ => false,
        }
    }
}
