//! The call that has no reply yet.
ghost use Rattle.std.specs.Prelude.{◌≡◌};
ghost use Rattle.std.specs.Option.{option_copied};
ghost use Rattle.client_core.specs.Targets.{is_on, is_leaving};
ghost use Rattle.client_core.specs.Targets.{opening_by, sequencer_by};

use collections::Bytes;
use tags_cell::{Call, Open, Request};

/// What the reply to a call is for. Handles go by the client's own numbers for them.
#[derive(Clone, Copy, Debug, PartialEq, Eq)]
pub enum Target {
    /// An Open.
    NewHandle,
    /// A Close of this handle.
    Closing(u64),
    /// Another call on this handle.
    Handle(u64),
    /// A SetSequencer on this handle, which has the sequencer from then on if it is done.
    Sequencing(u64),
    /// A CheckSequencer, which is on no handle.
    Checking,
    /// The end of the session.
    Leaving,
    /// A call on a handle that was poisoned since: its reply is dropped.
    Dropped,
}

impl Target {
    /// Whether a Poison of this handle drops the reply.
    pub fn is_on(self, number: u64) -> bool
        ensures { result ≡ is_on number self }
    {
        match self {
            Target::Handle(other) | Target::Sequencing(other) => other == number,
            Target::NewHandle
            | Target::Closing(_)
            | Target::Checking
            | Target::Leaving
            | Target::Dropped => false,
        }
    }

    /// Whether the call ends the session.
    pub fn is_leaving(self) -> bool
        ensures { result ≡ is_leaving self }
    {
        match self {
            Target::Leaving => true,
            _ => false,
        }
    }
}

/// A call that has no reply yet.
#[derive(Drop)]
pub struct Outstanding {
    /// The call's message, as it was sent.
    pub request: Request,
    pub target: Target,
}

impl Outstanding {
    /// What is opened, where it is an Open.
    pub fn opening(&self) -> Option<&Open>
        ensures { option_copied result ≡ opening_by self.now.request }
    {
        match &self.request {
            Request::Start(_) | Request::Beat(_) => None,
            Request::Call(message) => match &message.call {
                Call::Open(opening) => Some(opening),
                _ => None,
            },
        }
    }

    /// The bytes of the sequencer under which the call was sent, if there is one.
    pub fn sequencer(&self) -> Option<&Bytes>
        ensures { option_copied result ≡ sequencer_by self.now.request }
    {
        match &self.request {
            Request::Start(_) | Request::Beat(_) => None,
            Request::Call(message) => message.sequencer.as_ref(),
        }
    }
}
