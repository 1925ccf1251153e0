//! An event in a place of its own.
ghost use Rattle.std.specs.Prelude.{◌≡◌, IfOk};
ghost use Rattle.node_core.specs.declared.events.Event.TheVariants.{Lost};

use node_core::Event;
use std::alloc::{AllocError, Global};
use std::marker::Model;

/// An event in a place of its own, so that a queue keeps 8 bytes for each that may wait.
#[derive(Drop)]
pub struct BoxedEvent {
    place: Box<Event>,
}

impl Model for BoxedEvent {
    ghost use Rattle.std.specs.Box.{box_value};
    ghost use Rattle.node_core.specs.declared.events.Event.{Event};

    ghost Value = { Event };

    ghost view = { λ b. box_value b.place };
}

impl BoxedEvent {
    /// Takes memory for it.
    pub fn new(alloc: Global, event: Event) -> Result<BoxedEvent, AllocError>
        ensures { IfOk result (λ boxed. boxed ≡ event) }
    {
        Ok(BoxedEvent {
            place: Box::new(alloc, event)?,
        })
    }

    /// Takes no memory.
    pub fn event(&self) -> &Event
        ensures { result.now ≡ self.now }
    {
        &self.place
    }

    // The same place, of the event that says that events were missed.
    pub(crate) fn into_lost(self) -> BoxedEvent
        ensures { result ≡ Lost }
    {
        let mut boxed = self;
        *boxed.place = Event::Lost;
        boxed
    }
}
