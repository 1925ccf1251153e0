//! Beats.
ghost use Rattle.std.specs.Prelude.{◌≡◌, ◌≤◌, if◌then◌else◌, Some, None, IfErr, OnOk, OnErr};
ghost use Rattle.std.specs.Option.{option_map, option_map_or};
ghost use Rattle.lease_core.specs.Lease.{IsMoment, longest_lease};
ghost use Rattle.event_core.specs.Queue.{count_of, acknowledged_to};
ghost use Rattle.session_core.specs.Session.{events_of, live_beat_fault, beat_fault, acknowledging, beaten, is_client_due, is_client_answerable, is_due_by, is_client_due_by, prolonged, unparked, answered};

use crate::records::{Offer, Parked, Session};
use crate::sessions::Sessions;
use node_core::Fault;
use std::collections::BTreeSet;
use tags_cell::{Beat, ClientNumber};

impl<K> Session<K> {
    // Why a Beat of this live session is refused.
    fn beat_fault(&self, beat: &Beat) -> Option<Fault>
        ensures { result ≡ live_beat_fault self.now beat.now }
    {
        if beat.number.get() <= self.newest_beat {
            return Some(Fault::Repeat);
        }
        if beat.invalidations > self.invalidations.issued {
            return Some(Fault::BadAck(self.invalidations.issued));
        }
        let events = self.event_count();
        if beat.events > events {
            return Some(Fault::BadAck(events));
        }
        None
    }

    // The events wait no longer up to this number, which isn't above that of the last one.
    fn take_events(&mut self, number: u64)
        requires { number ≤ count_of (events_of self.old) }
        ensures { self.new ≡ record self.old { events = option_map (acknowledged_to number) self.old.events } }
    {
        if let Some(events) = &mut self.events {
            drop(events.acknowledge(number));
        }
    }

    // A Beat that isn't refused acknowledges, and is parked.
    fn take_beat(&mut self, beat: &Beat, received: u64)
        requires { live_beat_fault self.old beat.now ≡ None }
        ensures { self.new ≡ beaten beat.now received self.old }
    {
        self.take_acknowledgements(beat, received);
        self.mark = if self.meets_its_mark() {
            None
        } else {
            self.mark
        };
    }

    fn take_acknowledgements(&mut self, beat: &Beat, received: u64)
        requires { live_beat_fault self.old beat.now ≡ None }
        ensures { self.new ≡ acknowledging beat.now received self.old }
    {
        self.take_events(beat.events);
        self.newest_beat = beat.number.get();
        self.invalidations.acknowledged = self.invalidations.acknowledged.max(beat.invalidations);
        self.parked = Some(Parked {
            number: beat.number,
            received,
        });
    }

    // Whether its parked Beat is to be answered, where none is spared or its timeout hasn't come.
    fn is_due_by(&self, spares: bool, lease: u64, now: u64) -> bool
        requires { lease ≤ longest_lease }
        ensures { result ≡ is_due_by spares lease now self.now }
    {
        if spares {
            self.is_due(lease, now) && !self.is_expired(now)
        } else {
            self.is_due(lease, now)
        }
    }

    // Its client is offered a lease that ends then: it lives until that moment at least.
    pub(crate) fn prolong(&mut self, until: u64)
        ensures { self.new ≡ prolonged until self.old }
    {
        self.timeout = self.timeout.max(until);
        self.lease_end = until;
    }

    // The parked Beat, if there is one, is answered.
    fn end_beat(&mut self, now: u64, until: u64)
        ensures { self.new ≡ option_map_or (λ beat. prolonged until (unparked now self.old)) self.old.parked self.old }
    {
        if self.parked.is_some() {
            self.mark = self.mark.or(self.mark_at(now));
            self.parked = None;
            self.prolong(until);
        }
    }
}

impl<K> Sessions<K> {
    ghost use Rattle.session_core.specs.Sessions.{session_of, with_session, lowest, passes, IsLowest, offer_of, AreAllAmong};

    /// Why a Beat would be refused, if it would: the test that `beat` makes first. Takes no memory.
    pub fn beat_fault(&self, beat: &Beat) -> Option<Fault>
        ensures { result ≡ beat_fault (session_of self.now beat.now.client) beat.now }
    {
        match self.map.get(&beat.client.get()) {
            None => Some(Fault::NoSession),
            Some(session) => {
                if session.live {
                    session.beat_fault(beat)
                } else {
                    Some(Fault::NoSession)
                }
            }
        }
    }

    /// A Beat that was received at `received` acknowledges what its client has processed, and waits for its answer in
    /// the place of an older one. Takes no memory.
    ///
    /// Refused, in this order: NoSession where the client has no live session; Repeat where its number isn't above
    /// that of the newest Beat taken in this epoch; BadAck, with the count issued, where a count is above what was
    /// issued, invalidations first.
    pub fn beat(&mut self, beat: &Beat, received: u64) -> Result<(), Fault>
        ensures may { OnOk result (beat_fault (session_of self.old beat.now.client) beat.now ≡ None) }
        ensures ok { OnOk result (self.new ≡ with_session self.old beat.now.client (beaten beat.now received)) }
        ensures fault { IfErr result (λ e. beat_fault (session_of self.old beat.now.client) beat.now ≡ Some e) }
        ensures err { OnErr result (self.new ≡ self.old) }
    {
        let client = beat.client.get();
        if let Some(fault) = self.beat_fault(beat) {
            return Err(fault);
        }
        if let Some(session) = self.map.get_mut(&client) {
            let before = session.moments(self.lease);
            session.take_beat(beat, received);
            let after = session.moments(self.lease);
            self.bounds
                .change(client, before, after, session.event_count());
        }
        Ok(())
    }

    /// The lowest client whose parked Beat is to be answered: something waits for its acknowledgement, or the end of
    /// the lease that this master last offered it, or of its session, is near. None of a client that is given up: an
    /// answer told it of an invalidation that it hasn't acknowledged, or of the new master, and the Beat came `PATIENCE`
    /// and a lease later. Takes no memory.
    pub fn due(&self, now: u64) -> Option<ClientNumber>
        ensures value { result ≡ lowest self.now (is_client_due self.now.lease now) }
        ensures lowest { IsLowest self.now (is_client_due self.now.lease now) result }
    {
        self.due_by(false, now)
    }

    /// The lowest client of which the same holds and whose session the master may not end yet: its Beat may be answered
    /// though nothing can be committed. Takes no memory.
    pub fn answerable(&self, now: u64) -> Option<ClientNumber>
        ensures value { result ≡ lowest self.now (is_client_answerable self.now.lease now) }
        ensures lowest { IsLowest self.now (is_client_answerable self.now.lease now) result }
    {
        self.due_by(true, now)
    }

    // One of the two; the second spares a session whose timeout has come.
    fn due_by(&self, spares: bool, now: u64) -> Option<ClientNumber>
        ensures value { result ≡ lowest self.now (is_client_due_by spares self.now.lease now) }
        ensures lowest { IsLowest self.now (is_client_due_by spares self.now.lease now) result }
    {
        match self.bounds.answers.soon(now) {
            Some(clients) => self.due_among(clients, spares, now),
            None => self.due_of_all(spares, now),
        }
    }

    // Where each one whose Beat is to be answered is among these clients.
    fn due_among(&self, clients: &BTreeSet<u64>, spares: bool, now: u64) -> Option<ClientNumber>
        requires { AreAllAmong self.now (is_client_due_by spares self.now.lease now) clients.now.keys }
        ensures value { result ≡ lowest self.now (is_client_due_by spares self.now.lease now) }
        ensures lowest { IsLowest self.now (is_client_due_by spares self.now.lease now) result }
    {
        let _ordered = self.map.len();
        for number in clients.iter() {
            if let Some(client) = self.due_at(*number, spares, now) {
                return Some(client);
            }
        }
        None
    }

    pub(crate) fn due_at(&self, number: u64, spares: bool, now: u64) -> Option<ClientNumber>
        ensures { result ≡ (if passes self.now (is_client_due_by spares self.now.lease now) number then Some number else None) }
    {
        match self.map.get(&number) {
            None => None,
            Some(session) => due_client(number, session, spares, self.lease, now),
        }
    }

    fn due_of_all(&self, spares: bool, now: u64) -> Option<ClientNumber>
        ensures value { result ≡ lowest self.now (is_client_due_by spares self.now.lease now) }
        ensures lowest { IsLowest self.now (is_client_due_by spares self.now.lease now) result }
    {
        for (number, session) in self.map.iter() {
            if let Some(client) = due_client(*number, session, spares, self.lease, now) {
                return Some(client);
            }
        }
        None
    }

    /// What an answer at `now` to the client's parked Beat offers; None where none is parked. Takes no memory.
    pub fn offer(&self, client: ClientNumber, now: u64) -> Option<Offer>
        requires { IsMoment now }
        ensures { result ≡ offer_of self.now client now }
    {
        let beat = self.map.get(&client.get())?.parked?;
        Some(Offer {
            number: beat.number,
            span: (now + self.lease).saturating_sub(beat.received),
        })
    }

    /// The client's parked Beat is answered at `now`: it waits no longer, and the session lives for a lease from now
    /// on. Where others wait for what it hasn't acknowledged, that is noted. Where none is parked nothing changes. Takes no memory.
    pub fn answer(&mut self, client: ClientNumber, now: u64)
        requires { IsMoment now }
        ensures { self.new ≡ with_session self.old client (answered self.old.lease now) }
    {
        let until = now + self.lease;
        let number = client.get();
        if let Some(session) = self.map.get_mut(&number) {
            let before = session.moments(self.lease);
            session.end_beat(now, until);
            let after = session.moments(self.lease);
            self.bounds
                .change(number, before, after, session.event_count());
        }
    }
}

// A client whose parked Beat is to be answered, by its number.
fn due_client<K>(
    number: u64,
    session: &Session<K>,
    spares: bool,
    lease: u64,
    now: u64,
) -> Option<ClientNumber>
    requires { lease ≤ longest_lease }
    ensures { result ≡ (if is_client_due_by spares lease now number session.now then Some number else None) }
{
    let client = ClientNumber::new(number)?;
    if session.is_due_by(spares, lease, now) {
        Some(client)
    } else {
        None
    }
}
