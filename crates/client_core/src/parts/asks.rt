//! What a client is asked for, and what comes of it.
ghost use Rattle.std.specs.Prelude.{◌≡◌, IfOk};
ghost use Rattle.client_core.specs.Calls.{call_on};
ghost use Rattle.client_core.specs.Asks.{asks_to_leave};

use collections::{Bytes, Items};
use node_core::{Answer, Fault, Line, LockMode};
use std::alloc::AllocError;
use tags_cell::{AclNames, Call, HandleBytes, Open, Request};

/// What a client is asked for (Burrows 2006, section 2.6). A handle is named by the client's own number for it: 1, 2, ..
/// in the order in which its Opens succeed.
#[derive(Drop)]
pub enum Ask {
    Open(Open),
    /// Of a handle, also of a poisoned one.
    Close(u64),
    /// Of a handle: the client answers it by itself.
    Poison(u64),
    /// A call on the node of a handle.
    Node(u64, NodeCall),
    /// SetSequencer: of a handle, with the bytes of the sequencer. Once the master took it the calls on the handle but for
    /// a Close carry it (Burrows 2006, section 2.4).
    SetSequencer(u64, Bytes),
    /// CheckSequencer: whether the sequencer of these bytes is valid.
    CheckSequencer(Bytes),
    /// The end of the session (Burrows 2006, section 2.8).
    Leave,
}

impl Ask {
    /// Whether the end of the session is asked for.
    pub fn asks_to_leave(&self) -> bool
        ensures { result ≡ asks_to_leave self.now }
    {
        match self {
            Ask::Leave => true,
            _ => false,
        }
    }
}

/// A call on the node of a handle (Burrows 2006, section 2.6).
#[derive(Drop)]
pub enum NodeCall {
    /// GetContentsAndStat.
    Read,
    /// GetStat.
    Stat,
    /// ReadDir.
    List,
    /// SetContents: the whole new content, and where it is given the content generation that has to be present.
    Set(Bytes, Option<u64>),
    /// SetACL: the new names, and where it is given the ACL generation that has to be present.
    SetAcl(AclNames, Option<u64>),
    Delete,
    /// Waits for the node's lock in this mode (Burrows 2006, section 2.4).
    Acquire(LockMode),
    /// The same, and is refused where it would have to wait.
    TryAcquire(LockMode),
    Release,
    /// What describes the lock that the handle holds.
    GetSequencer,
}

impl NodeCall {
    /// The call for the master, with the bytes that it gave for the handle.
    pub fn on(&self, handle: HandleBytes) -> Result<Call, AllocError>
        ensures { IfOk result (λ call. call ≡ call_on handle self.now) }
    {
        Ok(match self {
            NodeCall::Read => Call::Read(handle),
            NodeCall::Stat => Call::Stat(handle),
            NodeCall::List => Call::List(handle),
            NodeCall::Set(content, generation) => Call::Set {
                handle,
                content: content.clone()?,
                generation: *generation,
            },
            NodeCall::SetAcl(acls, generation) => Call::SetAcl {
                handle,
                acls: acls.clone()?,
                generation: *generation,
            },
            NodeCall::Delete => Call::Delete(handle),
            NodeCall::Acquire(mode) => Call::Acquire {
                handle,
                mode: *mode,
            },
            NodeCall::TryAcquire(mode) => Call::TryAcquire {
                handle,
                mode: *mode,
            },
            NodeCall::Release => Call::Release(handle),
            NodeCall::GetSequencer => Call::GetSequencer(handle),
        })
    }
}

/// What comes of it.
#[derive(Drop)]
pub enum Outcome {
    /// The message for the master. The call is outstanding until its reply was given to the client.
    Sent(Request),
    /// The client answered the call out of its cache.
    Served(Answer),
    /// The client did by itself what it was asked for, a Poison or the Close of a shared handle.
    Answered,
    /// The client refused it by itself.
    Refused(Fault),
}

/// What comes of it, and the lines that are printed. The line of a refusal isn't among them.
#[derive(Drop)]
pub struct AskOutcome {
    pub lines: Items<Line>,
    pub outcome: Outcome,
}
