//! The events of sessions.
ghost use Rattle.std.specs.Prelude.{◌≡◌, ◌≤◌, IfOk, length};
ghost use Rattle.event_core.specs.Queue.{waiting_limit, unacked, is_exhausted};
ghost use Rattle.session_core.specs.Session.{events_of, told};

use crate::records::Session;
use crate::sessions::Sessions;
use collections::Items;
use event_core::BoxedEvent;
use node_core::NUMBER_LIMIT;
use std::alloc::{AllocError, Global};
use tags_cell::NumberedEvent;

impl<K> Session<K> {
    fn tell(&mut self, event: BoxedEvent)
        ensures { self.new ≡ told event self.old }
    {
        if let Some(events) = &mut self.events {
            events.push(event);
        }
    }

    // Whether its events can get no number any more.
    fn has_spent_events(&self) -> bool
        ensures { result ≡ is_exhausted (events_of self.now) }
    {
        match &self.events {
            None => false,
            Some(events) => events.is_exhausted(),
        }
    }

    // Its events that wait for the client's acknowledgement.
    fn unacked(&self, alloc: Global) -> Result<Items<NumberedEvent>, AllocError>
        ensures events { IfOk result (λ events. events ≡ unacked (events_of self.now)) }
        ensures bound { IfOk result (λ events. length events ≤ waiting_limit) }
    {
        match &self.events {
            None => Ok(Items::new(alloc)),
            Some(events) => events.unacked(alloc),
        }
    }
}

impl<K> Sessions<K> {
    ghost use Rattle.session_core.specs.Sessions.{with_session, unacked_events, has_spent_events};

    /// A client's session is told of an event (Burrows 2006, section 2.5): the event gets the next number of the
    /// session, or is missed where 256 wait already or no number is left. A session that has ended is told of nothing.
    /// Takes no memory.
    pub fn tell(&mut self, client: u64, event: BoxedEvent)
        ensures { self.new ≡ with_session self.old client (told event) }
    {
        if let Some(session) = self.map.get_mut(&client) {
            let before = session.moments(self.lease);
            session.tell(event);
            let after = session.moments(self.lease);
            self.bounds
                .change(client, before, after, session.event_count());
        }
    }

    /// The events of a client's session that wait for its acknowledgement, with their numbers, in order.
    pub fn unacked(&self, client: u64) -> Result<Items<NumberedEvent>, AllocError>
        ensures events { IfOk result (λ events. events ≡ unacked_events self.now client) }
        ensures bound { IfOk result (λ events. length events ≤ waiting_limit) }
    {
        match self.map.get(&client) {
            None => Ok(Items::new(self.alloc)),
            Some(session) => session.unacked(self.alloc),
        }
    }

    /// Whether the events of some session can get no number any more: its last one has 2^63-1. Takes no memory.
    pub fn has_spent_events(&self) -> bool
        ensures { result ≡ has_spent_events self.now }
    {
        if self.bounds.most_events < NUMBER_LIMIT {
            return false;
        }
        self.map
            .iter()
            .any(|(_, session)| session.has_spent_events())
    }
}
