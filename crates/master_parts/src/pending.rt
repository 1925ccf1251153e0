//! What a master keeps of calls, and what a step of it answers.
ghost use Rattle.std.specs.Prelude.{◌≡◌};
ghost use Rattle.master_parts.specs.Answered.{answered_by};

use collections::{Bytes, Items, Same};
use names_cell::{Name, Principal};
use node_core::Line;
use session_core::LastCall;
use std::alloc::AllocError;
use tags_cell::{Call, ClientNumber, MessageNumber, Out, Reply};

/// What a change that waits will do.
#[derive(Drop)]
pub enum Work {
    /// A Start: it commits the client's session, or lets it live longer. When it was received, in milliseconds.
    Starts(Principal, u64),
    /// A call that may change the map or a lock, and the bytes of the sequencer that it carries: that has to be valid
    /// still when its turn comes.
    Calls(Call, Option<Bytes>),
}

impl Clone for Work {
    ghost is_clone = { λ s t. t ≡ s };

    fn clone(&self) -> Result<Work, AllocError> {
        Ok(match self {
            Work::Starts(principal, received) => Work::Starts(principal.clone()?, *received),
            Work::Calls(call, None) => Work::Calls(call.clone()?, None),
            Work::Calls(call, Some(sequencer)) => {
                let carried = sequencer.clone()?;
                Work::Calls(call.clone()?, Some(carried))
            }
        })
    }
}

impl Same for Work {
    ghost exact = { λ x y h. h };
}

/// What a client asked for.
#[derive(Drop)]
pub struct WaitingRequest {
    pub client: ClientNumber,
    /// The number of the Start or of the call.
    pub number: MessageNumber,
    pub work: Work,
}

impl Clone for WaitingRequest {
    ghost is_clone = { λ s t. t ≡ s };

    fn clone(&self) -> Result<WaitingRequest, AllocError> {
        Ok(WaitingRequest {
            client: self.client,
            number: self.number,
            work: self.work.clone()?,
        })
    }
}

impl Same for WaitingRequest {
    ghost exact = { λ x y h. h };
}

/// An ephemeral node that nobody holds open (Burrows 2006, section 2.3).
#[derive(Drop)]
pub struct Orphan {
    pub name: Name,
    pub instance: u64,
}

impl Clone for Orphan {
    ghost is_clone = { λ s t. t ≡ s };

    fn clone(&self) -> Result<Orphan, AllocError> {
        Ok(Orphan {
            name: self.name.clone()?,
            instance: self.instance,
        })
    }
}

impl Same for Orphan {
    ghost exact = { λ x y h. h };
}

/// What waits for its turn (Burrows 2006, section 2.7: a modification is held until every cache has let go).
#[derive(Drop)]
pub enum Task {
    /// A client asked for it.
    Asked(WaitingRequest),
    /// The cell deletes the node by itself, unless somebody holds it open again by then.
    Tidies(Orphan),
}

impl Clone for Task {
    ghost is_clone = { λ s t. t ≡ s };

    fn clone(&self) -> Result<Task, AllocError> {
        Ok(match self {
            Task::Asked(asked) => Task::Asked(asked.clone()?),
            Task::Tidies(idle) => Task::Tidies(idle.clone()?),
        })
    }
}

impl Same for Task {
    ghost exact = { λ x y h. h };
}

/// What is kept of a call that has its reply.
pub fn answered_by(reply: Reply) -> LastCall<Reply>
    ensures { result ≡ answered_by reply }
{
    LastCall {
        number: reply.number,
        reply: Some(reply),
    }
}

/// What a step prints and sends.
#[derive(Drop)]
pub struct Taken {
    pub lines: Items<Line>,
    pub outs: Items<Out>,
}
