//! What a client is told about its handles.
ghost use Rattle.std.specs.Prelude.{◌≡◌, Some};
ghost use Rattle.node_core.specs.Texts.{event_text};

use crate::texts::write_number;
use collections::Same;
use names_cell::Name;
use std::alloc::AllocError;
use std::fmt;

/// What a client is told (Burrows 2006, section 2.5). The first number of each is that of the handle, which is the
/// call number of its Open.
#[derive(Drop)]
pub enum Event {
    /// A new master has taken over.
    FailOver,
    /// The content was changed: handle, instance, content generation.
    Contents(u64, u64, u64),
    /// A child was made.
    ChildAdded(u64, Name),
    /// A child was deleted.
    ChildRemoved(u64, Name),
    /// A child's content was changed.
    ChildModified(u64, Name),
    /// The handle's node was deleted.
    Invalid(u64),
    /// The node's lock went from free to held.
    Locked(u64),
    /// Another client asked for a lock that this handle holds.
    Conflict(u64),
    /// Events were missed.
    Lost,
}

impl Clone for Event {
    ghost is_clone = { λ s t. t ≡ s };

    fn clone(&self) -> Result<Event, AllocError> {
        Ok(match self {
            Event::FailOver => Event::FailOver,
            Event::Contents(handle, instance, generation) => Event::Contents(
                *handle,
                *instance,
                *generation,
            ),
            Event::ChildAdded(handle, name) => Event::ChildAdded(*handle, name.clone()?),
            Event::ChildRemoved(handle, name) => Event::ChildRemoved(*handle, name.clone()?),
            Event::ChildModified(handle, name) => Event::ChildModified(*handle, name.clone()?),
            Event::Invalid(handle) => Event::Invalid(*handle),
            Event::Locked(handle) => Event::Locked(*handle),
            Event::Conflict(handle) => Event::Conflict(*handle),
            Event::Lost => Event::Lost,
        })
    }
}

impl Same for Event {
    ghost exact = { λ x y h. h };
}

impl fmt::Display for Event {
    ghost output = { λ x. Some (event_text x) };

    fn fmt<W: fmt::Write>(&self, f: &mut fmt::Formatter<W>) -> fmt::Result {
        match self {
            Event::FailOver => f.write_str("failover"),
            Event::Contents(handle, instance, generation) => write!(
                f,
                "contents {handle} {instance} {generation}"
            ),
            Event::ChildAdded(handle, name) => write!(f, "child-added {handle} {name}"),
            Event::ChildRemoved(handle, name) => write!(f, "child-removed {handle} {name}"),
            Event::ChildModified(handle, name) => write!(f, "child-modified {handle} {name}"),
            Event::Invalid(handle) => write_number(f, "invalid ", *handle),
            Event::Locked(handle) => write_number(f, "locked ", *handle),
            Event::Conflict(handle) => write_number(f, "conflict ", *handle),
            Event::Lost => f.write_str("lost"),
        }
    }
}
