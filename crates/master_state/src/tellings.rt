//! Who is told of a step.
ghost use Rattle.std.specs.Prelude.{◌≡◌, IfOk, OnOk, is_some};
ghost use Rattle.std.specs.Option.{option_map};
ghost use Rattle.master_parts.specs.Events.{instance_of, event_of};
ghost use Rattle.master_parts.specs.Listeners.{HasAsking};
ghost use Rattle.master_parts.specs.OpenHandles.{AreAmong};
ghost use Rattle.master_state.specs.Notices.{event_here, event_on, event_for, is_noted, telling_by, tellings_to, with_telling, with_tellings};
ghost use Rattle.master_state.specs.Concerned.{HasTold, HasConcerned, telling_at};

use crate::masters::Master;
use collections::{Items, Table};
use event_core::BoxedEvent;
use master_parts::{
    HandleKey, HandleNote, HandleState, ListenSubject, Notice, SessionEvent, event_of, instance_of,
};
use node_core::Event;
use std::alloc::AllocError;
use tags_cell::Handle;

impl Master {
    /// The events that a step's notices are to the clients of open handles, in the order of the handles: by what each
    /// was opened for, the first notice that concerns it, and none for the handle that the step itself notes. Only those
    /// handles are looked at that asked to be told of such an event on the node, of a conflict those that hold the lock,
    /// and where a node is gone all that are open on it.
    pub fn tellings(
        &self,
        note: &Option<HandleNote>,
        notices: &[Notice],
    ) -> Result<Items<SessionEvent>, AllocError>
        ensures { IfOk result (λ tellings. tellings ≡ tellings_to self.now note.now notices.now) }
    {
        let keys = self.concerned(notices)?;
        self.tellings_among(note, notices, &keys)
    }

    // By the handles of these keys.
    fn tellings_among(
        &self,
        note: &Option<HandleNote>,
        notices: &[Notice],
        keys: &Table<HandleKey, ()>,
    ) -> Result<Items<SessionEvent>, AllocError>
        requires { HasConcerned self.now notices.now keys.now }
        ensures { IfOk result (λ tellings. tellings ≡ tellings_to self.now note.now notices.now) }
    {
        let _count = self.handles().len();
        let mut tellings = Items::new(self.alloc);
        for (key, _) in keys.as_map() {
            if let Some(telling) = self.telling_at(note, notices, key)? {
                tellings.push(telling)?;
            }
        }
        Ok(tellings)
    }

    /// Queues the events in the sessions of their clients; one whose session has ended is told of nothing. Takes no
    /// memory.
    pub fn tell(&mut self, tellings: Items<SessionEvent>)
        ensures { self.new ≡ with_tellings self.old tellings }
    {
        for telling in tellings.into_vec() {
            self.tell_one(telling);
        }
    }

    fn tell_one(&mut self, telling: SessionEvent)
        ensures { self.new ≡ record self.old { sessions = with_telling self.old.sessions telling } }
    {
        let SessionEvent { client, event } = telling;
        self.tables.tell(client, event);
    }

    // The keys of the handles that one of the notices is told to, and maybe others.
    fn concerned(&self, notices: &[Notice]) -> Result<Table<HandleKey, ()>, AllocError>
        ensures { IfOk result (λ keys. HasConcerned self.now notices.now keys) }
    {
        let mut keys = Table::new(self.alloc);
        for notice in notices {
            self.add_concerned(notice, &mut keys)?;
        }
        Ok(keys)
    }

    // A conflict is told to holders of the lock alone, the end of a node to each, and all else to those who asked for it.
    fn add_concerned(
        &self,
        notice: &Notice,
        keys: &mut Table<HandleKey, ()>,
    ) -> Result<(), AllocError>
        ensures kept { OnOk result (AreAmong keys.old keys.new) }
        ensures found { OnOk result (HasTold self.now notice.now keys.new) }
    {
        match notice {
            Notice::Conflict(instance) => self.add_holders(*instance, keys),
            Notice::Invalid(instance) => self.handles().add_open_on(*instance, keys),
            Notice::Contents(instance, _) => {
                self.handles()
                    .add_asking(ListenSubject::Contents, *instance, keys)
            }
            Notice::Locked(instance) => self
                .handles()
                .add_asking(ListenSubject::Lock, *instance, keys),
            Notice::ChildAdded(instance, _) => self.add_viewers(*instance, keys),
            Notice::ChildRemoved(instance, _) => self.add_viewers(*instance, keys),
            Notice::ChildModified(instance, _) => self.add_viewers(*instance, keys),
        }
    }

    // Those who asked to be told of the children of a directory.
    fn add_viewers(&self, instance: u64, keys: &mut Table<HandleKey, ()>) -> Result<(), AllocError>
        ensures kept { OnOk result (AreAmong keys.old keys.new) }
        ensures found { OnOk result (HasAsking self.now.handles ListenSubject.Children instance keys.new) }
    {
        self.handles()
            .add_asking(ListenSubject::Children, instance, keys)
    }

    // Nobody holds a lock that isn't there.
    fn add_holders(&self, instance: u64, keys: &mut Table<HandleKey, ()>) -> Result<(), AllocError>
        ensures kept { OnOk result (AreAmong keys.old keys.new) }
        ensures found { OnOk result (HasTold self.now (Notice.Conflict instance) keys.new) }
    {
        match self.locks.get(instance) {
            Some(lock) => self.handles().add_holders(instance, lock, keys),
            None => Ok(()),
        }
    }

    fn telling_at(
        &self,
        note: &Option<HandleNote>,
        notices: &[Notice],
        key: &HandleKey,
    ) -> Result<Option<SessionEvent>, AllocError>
        ensures { IfOk result (λ telling. telling ≡ telling_at self.now note.now notices.now key.now) }
    {
        match self.handles().get(key) {
            Some(state) => self.telling_by(note, notices, key, state),
            None => Ok(None),
        }
    }

    // Who opens or closes a handle by the step isn't told by that handle.
    fn telling_by(
        &self,
        note: &Option<HandleNote>,
        notices: &[Notice],
        key: &HandleKey,
        state: &HandleState,
    ) -> Result<Option<SessionEvent>, AllocError>
        ensures { IfOk result (λ telling. telling ≡ telling_by self.now note.now notices.now (key.now, state.now)) }
    {
        if is_noted(note, key) {
            return Ok(None);
        }
        match state {
            HandleState::Open(noted) => self.telling_to(noted.handle(), notices, key),
            HandleState::Closed => Ok(None),
        }
    }

    fn telling_to(
        &self,
        handle: &Handle,
        notices: &[Notice],
        key: &HandleKey,
    ) -> Result<Option<SessionEvent>, AllocError>
        ensures { IfOk result (λ telling. telling ≡ option_map (λ event. record { client = key.now.client; event = event }) (event_for self.now handle.now notices.now)) }
    {
        match self.event_for(handle, notices)? {
            Some(event) => Ok(Some(SessionEvent {
                client: key.client.get(),
                event: BoxedEvent::new(self.alloc, event)?,
            })),
            None => Ok(None),
        }
    }

    // The first of the notices that concerns the handle.
    fn event_for(&self, handle: &Handle, notices: &[Notice]) -> Result<Option<Event>, AllocError>
        ensures { IfOk result (λ event. event ≡ event_for self.now handle.now notices.now) }
    {
        for notice in notices {
            if let Some(event) = self.event_on(handle, notice)? {
                return Ok(Some(event));
            }
        }
        Ok(None)
    }

    fn event_on(&self, handle: &Handle, notice: &Notice) -> Result<Option<Event>, AllocError>
        ensures { IfOk result (λ event. event ≡ event_on self.now handle.now notice.now) }
    {
        if instance_of(notice) == handle.instance.get() {
            self.event_here(handle, notice)
        } else {
            Ok(None)
        }
    }

    fn event_here(&self, handle: &Handle, notice: &Notice) -> Result<Option<Event>, AllocError>
        ensures { IfOk result (λ event. event ≡ event_here self.now handle.now notice.now) }
    {
        if self.is_told(handle, notice) {
            Ok(Some(event_of(handle, notice)?))
        } else {
            Ok(None)
        }
    }

    // By what the handle was opened for. The end of a node is told to each, and a conflict to who holds the lock.
    fn is_told(&self, handle: &Handle, notice: &Notice) -> bool
        ensures { result ≡ is_some (event_here self.now handle.now notice.now) }
    {
        match notice {
            Notice::Contents(..) => handle.events.contents,
            Notice::ChildAdded(..) | Notice::ChildRemoved(..) | Notice::ChildModified(..) => {
                handle.events.children
            }
            Notice::Invalid(_) => true,
            Notice::Locked(_) => handle.events.lock,
            Notice::Conflict(_) => handle.events.conflict && self.holds_lock(handle),
        }
    }
}

// Whether the step notes something of this handle.
fn is_noted(note: &Option<HandleNote>, key: &HandleKey) -> bool
    ensures { result ≡ is_noted note.now key.now }
{
    match note {
        Some(note) => note.key.is(key),
        None => false,
    }
}
