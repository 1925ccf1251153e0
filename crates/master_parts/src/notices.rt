//! What the clients of open handles are told of a step.
ghost use Rattle.std.specs.Prelude.{◌≡◌, IfOk};
ghost use Rattle.master_parts.specs.Events.{instance_of, event_of};

use event_core::BoxedEvent;
use names_cell::Name;
use node_core::Event;
use std::alloc::AllocError;
use tags_cell::Handle;

/// What happened to a node (Burrows 2006, section 2.5), by its instance: the handles on it are concerned.
#[derive(Drop)]
pub enum Notice {
    /// Its content was changed: the instance, and the content generation from then on.
    Contents(u64, u64),
    /// A child was made: the directory's instance, and the child's whole name.
    ChildAdded(u64, Name),
    /// A child was deleted.
    ChildRemoved(u64, Name),
    /// A child's content was changed.
    ChildModified(u64, Name),
    /// It was deleted.
    Invalid(u64),
    /// Its lock went from free to held.
    Locked(u64),
    /// Somebody asked for its lock, and it is held.
    Conflict(u64),
}

/// An event for the session of a client.
#[derive(Drop)]
pub struct SessionEvent {
    pub client: u64,
    pub event: BoxedEvent,
}

/// Whose handles a notice concerns.
pub fn instance_of(notice: &Notice) -> u64
    ensures { result ≡ instance_of notice.now }
{
    match notice {
        Notice::Contents(instance, _)
        | Notice::ChildAdded(instance, _)
        | Notice::ChildRemoved(instance, _)
        | Notice::ChildModified(instance, _)
        | Notice::Invalid(instance)
        | Notice::Locked(instance)
        | Notice::Conflict(instance) => *instance,
    }
}

/// What a handle hears of a notice, if it is told.
pub fn event_of(handle: &Handle, notice: &Notice) -> Result<Event, AllocError>
    ensures { IfOk result (λ event. event ≡ event_of handle.now notice.now) }
{
    let number = handle.number.get();
    Ok(match notice {
        Notice::Contents(instance, generation) => Event::Contents(number, *instance, *generation),
        Notice::ChildAdded(_, name) => Event::ChildAdded(number, name.clone()?),
        Notice::ChildRemoved(_, name) => Event::ChildRemoved(number, name.clone()?),
        Notice::ChildModified(_, name) => Event::ChildModified(number, name.clone()?),
        Notice::Invalid(_) => Event::Invalid(number),
        Notice::Locked(_) => Event::Locked(number),
        Notice::Conflict(_) => Event::Conflict(number),
    })
}
