//! What a client and its master tell each other to keep the client's session (Burrows 2006, section 2.8: KeepAlives).
ghost use Rattle.std.specs.Prelude.{◌≡◌};

use crate::clients::ClientNumber;
use crate::numbers::MessageNumber;
use collections::{Items, Same};
use names_cell::Name;
use node_core::Event;
use std::alloc::AllocError;

/// A client with a session lets its master hear of it, and acknowledges what it has processed.
#[derive(Clone, Copy)]
pub struct Beat {
    pub client: ClientNumber,
    /// The epoch of the master that the client knows.
    pub epoch: u64,
    /// Among the client's Starts and Beats.
    pub number: MessageNumber,
    /// The number of the last invalidation that the client has processed in this epoch, 0 before the first.
    pub invalidations: u64,
    /// The number of the last event that the client has processed in this epoch, 0 before the first.
    pub events: u64,
}

impl Same for Beat {
    ghost exact = { λ x y h. h };
}

/// A name that the client is to let go of (Burrows 2006, section 2.7).
#[derive(Drop)]
pub struct Invalidation {
    /// Among the invalidations of the client's session in this epoch, from 1.
    pub number: u64,
    pub name: Name,
}

impl Clone for Invalidation {
    ghost is_clone = { λ s t. t ≡ s };

    fn clone(&self) -> Result<Invalidation, AllocError> {
        Ok(Invalidation {
            number: self.number,
            name: self.name.clone()?,
        })
    }
}

impl Same for Invalidation {
    ghost exact = { λ x y h. h };
}

/// An event with its number.
#[derive(Drop)]
pub struct NumberedEvent {
    /// Among the events of the client's session in this epoch, from 1.
    pub number: u64,
    pub event: Event,
}

impl Clone for NumberedEvent {
    ghost is_clone = { λ s t. t ≡ s };

    fn clone(&self) -> Result<NumberedEvent, AllocError> {
        Ok(NumberedEvent {
            number: self.number,
            event: self.event.clone()?,
        })
    }
}

impl Same for NumberedEvent {
    ghost exact = { λ x y h. h };
}

/// The answer to a Beat.
#[derive(Drop)]
pub struct Alive {
    pub client: ClientNumber,
    /// The master's epoch.
    pub epoch: u64,
    /// The number of the Beat.
    pub number: MessageNumber,
    /// How long the client may count on its session, in milliseconds from when it sent the Beat (Gray and Cheriton
    /// 1989, section 2).
    pub span: u64,
    /// Those that the client hasn't acknowledged, in order of their numbers.
    pub invalidations: Items<Invalidation>,
    /// Those that the client hasn't acknowledged, in order of their numbers.
    pub events: Items<NumberedEvent>,
}

impl Clone for Alive {
    ghost is_clone = { λ s t. t ≡ s };

    fn clone(&self) -> Result<Alive, AllocError> {
        Ok(Alive {
            client: self.client,
            epoch: self.epoch,
            number: self.number,
            span: self.span,
            invalidations: self.invalidations.clone()?,
            events: self.events.clone()?,
        })
    }
}

impl Same for Alive {
    ghost exact = { λ x y h. h };
}
