//! What a client sends.
ghost use Rattle.std.specs.Prelude.{◌≡◌};
ghost use Rattle.tags_cell.specs.Messages.{request_client, request_number};

use crate::clients::ClientNumber;
use crate::messages::beats::Beat;
use crate::messages::calls::Call;
use crate::numbers::MessageNumber;
use collections::{Bytes, Same};
use names_cell::Principal;
use std::alloc::AllocError;

/// Asks for a session (Burrows 2006, section 2.7). A client that sends one has no epoch yet.
#[derive(Drop)]
pub struct Start {
    pub client: ClientNumber,
    /// Among the client's Starts and Beats.
    pub number: MessageNumber,
    pub principal: Principal,
}

impl Clone for Start {
    ghost is_clone = { λ s t. t ≡ s };

    fn clone(&self) -> Result<Start, AllocError> {
        Ok(Start {
            client: self.client,
            number: self.number,
            principal: self.principal.clone()?,
        })
    }
}

impl Same for Start {
    ghost exact = { λ x y h. h };
}

/// A call of a client that has a session.
#[derive(Drop)]
pub struct CallMessage {
    pub client: ClientNumber,
    /// The epoch of the master that the client knows.
    pub epoch: u64,
    /// Among the client's calls.
    pub number: MessageNumber,
    pub call: Call,
    /// The bytes of a sequencer that has to be valid for the call to be done: that of its handle, or for a SetSequencer
    /// the new one (Burrows 2006, section 2.4). None with an Open, a Close or a CheckSequencer.
    pub sequencer: Option<Bytes>,
}

impl Clone for CallMessage {
    ghost is_clone = { λ s t. t ≡ s };

    fn clone(&self) -> Result<CallMessage, AllocError> {
        let sequencer = match &self.sequencer {
            Some(sequencer) => Some(sequencer.clone()?),
            None => None,
        };
        Ok(CallMessage {
            client: self.client,
            epoch: self.epoch,
            number: self.number,
            call: self.call.clone()?,
            sequencer,
        })
    }
}

impl Same for CallMessage {
    ghost exact = { λ x y h. h };
}

/// What a client sends to its master.
#[derive(Drop)]
pub enum Request {
    Start(Start),
    Beat(Beat),
    Call(CallMessage),
}

impl Request {
    /// The client that sends it.
    pub fn client(&self) -> ClientNumber
        ensures { result ≡ request_client self.now }
    {
        match self {
            Request::Start(start) => start.client,
            Request::Beat(beat) => beat.client,
            Request::Call(message) => message.client,
        }
    }

    /// Its number among the client's Starts and Beats, or among the client's calls.
    pub fn number(&self) -> MessageNumber
        ensures { result ≡ request_number self.now }
    {
        match self {
            Request::Start(start) => start.number,
            Request::Beat(beat) => beat.number,
            Request::Call(message) => message.number,
        }
    }
}

impl Clone for Request {
    ghost is_clone = { λ s t. t ≡ s };

    fn clone(&self) -> Result<Request, AllocError> {
        Ok(match self {
            Request::Start(start) => Request::Start(start.clone()?),
            Request::Beat(beat) => Request::Beat(*beat),
            Request::Call(message) => Request::Call(message.clone()?),
        })
    }
}

impl Same for Request {
    ghost exact = { λ x y h. h };
}
