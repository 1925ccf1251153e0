//! What a master sends.
ghost use Rattle.std.specs.Prelude.{◌≡◌};
ghost use Rattle.tags_cell.specs.Messages.{out_client};

use crate::clients::ClientNumber;
use crate::handle_bytes::HandleBytes;
use crate::messages::beats::Alive;
use crate::numbers::MessageNumber;
use crate::ordinals::Ordinal;
use collections::{Bytes, Same};
use node_core::{Fault, Life, Stat, View};
use std::alloc::AllocError;

/// The client has a session.
#[derive(Clone, Copy)]
pub struct Started {
    pub client: ClientNumber,
    /// The master's epoch.
    pub epoch: u64,
    /// The number of the Start.
    pub number: MessageNumber,
    /// How long the client may count on its session, in milliseconds from when it sent the Start (Gray and Cheriton
    /// 1989, section 2).
    pub span: u64,
}

impl Same for Started {
    ghost exact = { λ x y h. h };
}

/// What an Open gives: a client reads nothing out of the bytes, so what it needs of the node stands beside them.
#[derive(Drop)]
pub struct NewHandle {
    /// What the calls on the handle show.
    pub bytes: HandleBytes,
    /// The instance of the node.
    pub instance: Ordinal,
    pub life: Life,
}

impl Clone for NewHandle {
    ghost is_clone = { λ s t. t ≡ s };

    fn clone(&self) -> Result<NewHandle, AllocError> {
        Ok(NewHandle {
            bytes: self.bytes.clone()?,
            instance: self.instance,
            life: self.life,
        })
    }
}

impl Same for NewHandle {
    ghost exact = { λ x y h. h };
}

/// How a call ended at the master.
#[derive(Drop)]
pub enum CallResult {
    /// An Open.
    Opened(NewHandle),
    Closed,
    /// What a read found.
    Viewed(View),
    /// What GetStat found.
    Stated(Stat),
    /// What ReadDir found: of the view of a directory the client's user is told the children.
    Listed(View),
    /// The bytes of a sequencer.
    Sequencer(Bytes),
    /// The end of a call that has nothing to tell.
    Done,
    Refused(Fault),
}

impl Clone for CallResult {
    ghost is_clone = { λ s t. t ≡ s };

    fn clone(&self) -> Result<CallResult, AllocError> {
        Ok(match self {
            CallResult::Opened(handle) => CallResult::Opened(handle.clone()?),
            CallResult::Closed => CallResult::Closed,
            CallResult::Viewed(view) => CallResult::Viewed(view.clone()?),
            CallResult::Stated(stat) => CallResult::Stated(stat.clone()?),
            CallResult::Listed(view) => CallResult::Listed(view.clone()?),
            CallResult::Sequencer(bytes) => CallResult::Sequencer(bytes.clone()?),
            CallResult::Done => CallResult::Done,
            CallResult::Refused(fault) => CallResult::Refused(*fault),
        })
    }
}

impl Same for CallResult {
    ghost exact = { λ x y h. h };
}

/// The answer to a call, which the master keeps: the same call gets it again.
#[derive(Drop)]
pub struct Reply {
    pub client: ClientNumber,
    /// The master's epoch.
    pub epoch: u64,
    /// The number of the call.
    pub number: MessageNumber,
    /// Where the client may keep the answer in its cache, how many invalidations had been issued to its session in this
    /// epoch: a client that has processed a later one keeps nothing of it.
    pub stamp: Option<u64>,
    pub result: CallResult,
}

impl Clone for Reply {
    ghost is_clone = { λ s t. t ≡ s };

    fn clone(&self) -> Result<Reply, AllocError> {
        Ok(Reply {
            client: self.client,
            epoch: self.epoch,
            number: self.number,
            stamp: self.stamp,
            result: self.result.clone()?,
        })
    }
}

impl Same for Reply {
    ghost exact = { λ x y h. h };
}

/// A message that the master refused, and of which it keeps nothing.
#[derive(Clone, Copy)]
pub struct Refused {
    pub client: ClientNumber,
    /// The master's epoch.
    pub epoch: u64,
    /// The number of the Start, of the Beat or of the call.
    pub number: MessageNumber,
    pub fault: Fault,
}

impl Same for Refused {
    ghost exact = { λ x y h. h };
}

/// What a master sends to a client.
#[derive(Drop)]
pub enum Out {
    Started(Started),
    Alive(Alive),
    Reply(Reply),
    Refused(Refused),
}

impl Out {
    /// The client that it goes to.
    pub fn client(&self) -> ClientNumber
        ensures { result ≡ out_client self.now }
    {
        match self {
            Out::Started(started) => started.client,
            Out::Alive(alive) => alive.client,
            Out::Reply(reply) => reply.client,
            Out::Refused(refused) => refused.client,
        }
    }
}

impl Clone for Out {
    ghost is_clone = { λ s t. t ≡ s };

    fn clone(&self) -> Result<Out, AllocError> {
        Ok(match self {
            Out::Started(started) => Out::Started(*started),
            Out::Alive(alive) => Out::Alive(alive.clone()?),
            Out::Reply(reply) => Out::Reply(reply.clone()?),
            Out::Refused(refused) => Out::Refused(*refused),
        })
    }
}

impl Same for Out {
    ghost exact = { λ x y h. h };
}
