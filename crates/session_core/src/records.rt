//! What a master knows of a session.
ghost use Rattle.std.specs.Prelude.{◌≡◌, ◌≤◌, Some, None, min, if◌then◌else◌};
ghost use Rattle.lease_core.specs.Lease.{longest_lease};
ghost use Rattle.event_core.specs.Queue.{count_of, has_waiting};
ghost use Rattle.session_core.specs.Session.{is_owing, events_of, owes, owes_fail_over, holds_up, mark_at, meets, meets_its_mark, patience, is_given_up, nears_end, is_due, has_heard, is_expired};
ghost use Rattle.session_core.specs.Quiet.{moments_of, end_moment, due_moment, answer_moment};

use crate::bounds::Moments;
use event_core::EventQueue;
use names_cell::Principal;
use tags_cell::MessageNumber;

/// How long a session may hold up others beyond a lease, in milliseconds. By then a client whose messages get through
/// has acknowledged, and one whose messages don't has lost its session by its own clock, 45 s behind its lease.
pub const PATIENCE: u64 = 48_000;

/// How many invalidations were issued to a session in this epoch (Burrows 2006, section 2.7), numbered from 1, and up to
/// which number it acknowledged them.
#[derive(Clone, Copy, PartialEq, Eq)]
pub struct Tally {
    pub issued: u64,
    pub acknowledged: u64,
}

impl Tally {
    // Whether some are unacknowledged.
    pub(crate) fn is_owing(self) -> bool
        ensures { result ≡ is_owing self }
    {
        self.acknowledged < self.issued
    }
}

/// A Beat that waits for its answer.
#[derive(Clone, Copy)]
pub struct Parked {
    pub number: MessageNumber,
    /// When the master received it, in milliseconds.
    pub received: u64,
}

/// What a session has to acknowledge before others go on, since an Alive told it of that.
#[derive(Clone, Copy)]
pub struct Mark {
    /// The last of its invalidations that were issued then.
    pub invalidations: u64,
    /// When the Alive was sent, in milliseconds.
    pub since: u64,
}

/// What the answer to a Beat offers its client.
#[derive(Clone, Copy)]
pub struct Offer {
    /// The number of the Beat.
    pub number: MessageNumber,
    /// How long the client may count on its session, in milliseconds from when it sent the Beat (Gray and Cheriton
    /// 1989, section 2).
    pub span: u64,
}

/// What the answer to a Start offers its client.
#[derive(Clone, Copy)]
pub struct Begun {
    /// Whether the session began with this Start, and so is to be committed.
    pub is_new: bool,
    /// How long the client may count on its session, in milliseconds from when it sent the Start.
    pub span: u64,
}

/// The last call of a client, and its reply once there is one: the same call gets it again.
#[derive(Drop)]
pub struct LastCall<K> {
    pub number: MessageNumber,
    /// None while the call waits.
    pub reply: Option<K>,
}

/// A client's session as its master knows it (Burrows 2006, section 2.8). One that has ended stays recorded.
#[derive(Drop)]
pub struct Session<K> {
    pub principal: Principal,
    pub live: bool,
    /// From then on the master may end it, in milliseconds by the master's clock.
    pub timeout: u64,
    /// The end of the lease that this master last offered its client, in milliseconds by the master's clock; the timeout
    /// before it offered one. Never behind the timeout.
    pub lease_end: u64,
    /// The number of the newest Beat taken in this epoch; 0 before the first.
    pub newest_beat: u64,
    pub invalidations: Tally,
    /// None once it has ended.
    pub events: Option<EventQueue>,
    /// Whether this master took it over from the rows: then its first event tells of the new master.
    pub taken_over: bool,
    pub parked: Option<Parked>,
    /// What it was told that others wait for, and hasn't acknowledged.
    pub mark: Option<Mark>,
    pub kept: Option<LastCall<K>>,
}

impl<K> Session<K> {
    // The number of its last event.
    pub(crate) fn event_count(&self) -> u64
        ensures { result ≡ count_of (events_of self.now) }
    {
        match &self.events {
            None => 0,
            Some(events) => events.count(),
        }
    }

    // Whether events wait for the client's acknowledgement.
    fn owes_events(&self) -> bool
        ensures { result ≡ has_waiting (events_of self.now) }
    {
        match &self.events {
            None => false,
            Some(events) => events.owes(),
        }
    }

    // Whether something waits for the client's acknowledgement.
    pub(crate) fn owes(&self) -> bool
        ensures { result ≡ owes self.now }
    {
        self.invalidations.is_owing() || self.owes_events()
    }

    // The earlier of the ends of its client's lease and of the session.
    fn nearer_end(&self) -> u64
        ensures { result ≡ min self.now.timeout self.now.lease_end }
    {
        self.timeout.min(self.lease_end)
    }

    // Whether that end is near, at which a Beat is answered even if nothing waits for the client.
    fn nears_end(&self, lease: u64, now: u64) -> bool
        requires { lease ≤ longest_lease }
        ensures { result ≡ nears_end lease now self.now }
    {
        self.nearer_end().saturating_sub(now) <= 3000 + lease / 16
    }

    // Whether its Beat is to be answered.
    pub(crate) fn is_due(&self, lease: u64, now: u64) -> bool
        requires { lease ≤ longest_lease }
        ensures { result ≡ is_due lease now self.now }
    {
        let Some(beat) = self.parked else {
            return false;
        };
        if !self.live || self.is_given_up(lease, beat) {
            return false;
        }
        self.owes() || self.nears_end(lease, now)
    }

    // Whether it hasn't acknowledged that a new master is up.
    fn owes_fail_over(&self) -> bool
        ensures { result ≡ owes_fail_over self.now }
    {
        self.taken_over && !self.has_heard()
    }

    // What it has to acknowledge, so that others go on.
    pub(crate) fn mark_at(&self, now: u64) -> Option<Mark>
        ensures { result ≡ mark_at now self.now }
    {
        if self.invalidations.is_owing() || self.owes_fail_over() {
            Some(Mark {
                invalidations: self.invalidations.issued,
                since: now,
            })
        } else {
            None
        }
    }

    // Whether it has acknowledged what its mark holds.
    pub(crate) fn meets_its_mark(&self) -> bool
        ensures { result ≡ meets_its_mark self.now }
    {
        match self.mark {
            None => false,
            Some(mark) => {
                mark.invalidations <= self.invalidations.acknowledged && !self.owes_fail_over()
            }
        }
    }

    // Whether it was told too long before this Beat of it came.
    fn is_given_up(&self, lease: u64, beat: Parked) -> bool
        requires { lease ≤ longest_lease }
        ensures { result ≡ is_given_up lease beat self.now }
    {
        match self.mark {
            None => false,
            Some(mark) => beat.received.saturating_sub(mark.since) >= lease + PATIENCE,
        }
    }

    // From when on something may be to be done for it.
    pub(crate) fn moments(&self, lease: u64) -> Moments
        requires { lease ≤ longest_lease }
        ensures { result ≡ moments_of lease self.now }
    {
        Moments {
            end: self.end_moment(),
            answer: self.answer_moment(lease),
        }
    }

    // From this moment on the master may end it.
    pub(crate) fn end_moment(&self) -> u64
        ensures { result ≡ end_moment self.now }
    {
        if self.live { self.timeout } else { u64::MAX }
    }

    // From this moment on a Beat of it is to be answered.
    fn due_moment(&self, lease: u64) -> u64
        requires { lease ≤ longest_lease }
        ensures { result ≡ due_moment lease self.now }
    {
        if self.owes() {
            0
        } else {
            self.nearer_end().saturating_sub(3000 + lease / 16)
        }
    }

    // From this moment on its parked Beat is to be answered.
    pub(crate) fn answer_moment(&self, lease: u64) -> u64
        requires { lease ≤ longest_lease }
        ensures { result ≡ answer_moment lease self.now }
    {
        let Some(beat) = self.parked else {
            return u64::MAX;
        };
        if !self.live || self.is_given_up(lease, beat) {
            return u64::MAX;
        }
        self.due_moment(lease)
    }

    // The number of the last event that it acknowledged.
    fn acknowledged_events(&self) -> u64
        ensures { result ≡ (events_of self.now).acknowledged }
    {
        match &self.events {
            None => 0,
            Some(events) => events.acknowledged(),
        }
    }

    // Whether it has acknowledged its first event, or has ended.
    pub(crate) fn has_heard(&self) -> bool
        ensures { result ≡ has_heard self.now }
    {
        !self.live || self.acknowledged_events() >= 1
    }

    // Whether the master may end it.
    pub(crate) fn is_expired(&self, now: u64) -> bool
        ensures { result ≡ is_expired now self.now }
    {
        self.live && now >= self.timeout
    }
}
