//! When something is to be done for sessions by themselves.
ghost use Rattle.std.specs.Prelude.{◌≡◌, ◌≤◌, true, is_some};
ghost use Rattle.std.specs.Option.{option_map_or};
ghost use Rattle.lease_core.specs.Lease.{longest_lease};
ghost use Rattle.collections.specs.Timers.{never};
ghost use Rattle.session_core.specs.Session.{is_client_expired, is_client_due};
ghost use Rattle.session_core.specs.Quiet.{end_moment, answer_moment, is_client_unheard, AreNoted};

use crate::bounds::Bounds;
use crate::records::Session;
use crate::sessions::Sessions;
use collections::Timers;
use std::collections::BTreeMap;

impl<K> Sessions<K> {
    ghost use Rattle.session_core.specs.Sessions.{lowest, passes, session_of, has_work};

    /// Finds the sessions that expire and the Beats that fall due by `now`, so that from then on `expired` and `due` look at
    /// these alone. To be called with each moment; elsewhere it does no harm. Takes no memory that it can't do without: where
    /// there is none `expired` and `due` look at all sessions, until the first call behind that has memory. That one walks over
    /// all of them once.
    pub fn note_moment(&mut self, now: u64)
        ensures { self.new ≡ self.old }
    {
        self.bounds.turn(now);
        self.note_lost(now);
        self.put_ends_off(now);
        self.put_answers_off(now);
    }

    /// The first moment behind the one noted last at which something may be to be done for a session; `u64::MAX` stands for
    /// never. It says where to look first: whether something is to be done there is for `expired` and `due` to tell.
    pub fn next_moment(&self) -> u64 {
        self.bounds.next_moment()
    }

    /// Whether it shows at a glance that there is something to do at `now`: a session that the master may end, or a Beat that
    /// is to be answered. It looks at the two sessions alone for whom that may be so first behind the moment noted last, and
    /// takes none of the others into view, as `note_moment` would. False where these two don't show it. Takes no memory.
    pub fn shows_work(&self, now: u64) -> bool
        ensures { result ≡ true → has_work self.now now ≡ true }
    {
        self.shows_end(now) || self.shows_answer(now)
    }

    fn shows_end(&self, now: u64) -> bool
        ensures { result ≡ true → is_some (lowest self.now (is_client_expired now)) ≡ true }
    {
        match self.bounds.ends.first_later() {
            None => false,
            Some(client) => self.is_expired(client, now),
        }
    }

    fn shows_answer(&self, now: u64) -> bool
        ensures { result ≡ true → is_some (lowest self.now (is_client_due self.now.lease now)) ≡ true }
    {
        match self.bounds.answers.first_later() {
            None => false,
            Some(client) => self.due_at(client, false, now).is_some(),
        }
    }

    // Where memory was wanting for some session's moments, notes those of all sessions anew.
    fn note_lost(&mut self, now: u64)
        ensures { self.new ≡ self.old }
    {
        if self.bounds.are_known(now) {
            return;
        }
        self.bounds.ends = Timers::new(self.alloc);
        self.bounds.answers = Timers::new(self.alloc);
        note_all(&mut self.bounds, self.lease, &self.map);
        self.bounds.turn(now);
    }

    fn put_ends_off(&mut self, now: u64)
        ensures { self.new ≡ self.old }
    {
        for _ in 0..self.bounds.ends.count() {
            if !self.put_end_off(now) {
                return;
            }
        }
    }

    fn put_answers_off(&mut self, now: u64)
        ensures { self.new ≡ self.old }
    {
        for _ in 0..self.bounds.answers.count() {
            if !self.put_answer_off(now) {
                return;
            }
        }
    }

    // The first session that may be ended isn't to be looked at before its own moment. False where that has come.
    fn put_end_off(&mut self, now: u64) -> bool
        ensures { self.new ≡ self.old }
    {
        let Some(client) = self.bounds.ends.first() else {
            return false;
        };
        let moment = self.end_of(client);
        if moment <= now {
            return false;
        }
        self.bounds.ends.put_off(client, moment);
        true
    }

    // The first session whose Beat may be to be answered isn't to be looked at before its own moment. False where that
    // has come.
    fn put_answer_off(&mut self, now: u64) -> bool
        ensures { self.new ≡ self.old }
    {
        let Some(client) = self.bounds.answers.first() else {
            return false;
        };
        let moment = self.answer_of(client);
        if moment <= now {
            return false;
        }
        self.bounds.answers.put_off(client, moment);
        true
    }

    fn end_of(&self, client: u64) -> u64
        ensures { result ≡ option_map_or end_moment (session_of self.now client) never }
    {
        match self.map.get(&client) {
            None => u64::MAX,
            Some(session) => session.end_moment(),
        }
    }

    fn answer_of(&self, client: u64) -> u64
        ensures { result ≡ option_map_or (answer_moment self.now.lease) (session_of self.now client) never }
    {
        match self.map.get(&client) {
            None => u64::MAX,
            Some(session) => session.answer_moment(self.lease),
        }
    }

    /// Notes a client that wasn't heard from, so that `all_heard` looks at that one alone until it is. To be called where
    /// not all were heard from; elsewhere it does no harm. Takes no memory.
    pub fn note_unheard(&mut self)
        ensures { self.new ≡ self.old }
    {
        if self.is_unheard(self.unheard) {
            return;
        }
        if let Some(client) = self.first_unheard() {
            self.unheard = client;
        }
    }

    // Whether a client has a live session that wasn't heard from.
    pub(crate) fn is_unheard(&self, client: u64) -> bool
        ensures { result ≡ passes self.now is_client_unheard client }
    {
        match self.map.get(&client) {
            None => false,
            Some(session) => !session.has_heard(),
        }
    }

    // The lowest client with a live session that wasn't heard from.
    fn first_unheard(&self) -> Option<u64>
        ensures { result ≡ lowest self.now is_client_unheard }
    {
        for (client, session) in self.map.iter() {
            if !session.has_heard() {
                return Some(*client);
            }
        }
        None
    }
}

// Notes the moments of each session.
fn note_all<K>(bounds: &mut Bounds, lease: u64, sessions: &BTreeMap<u64, Session<K>>)
    requires { lease ≤ longest_lease }
    ensures events { bounds.new.most_events ≡ bounds.old.most_events }
    ensures noted { AreNoted K lease bounds.new.ends bounds.new.answers sessions.now.entries }
{
    for (client, session) in sessions.iter() {
        bounds.note(*client, session.moments(lease));
    }
}
