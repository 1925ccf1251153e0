//! What is known of all sessions at once.
ghost use Rattle.std.specs.Prelude.{◌≡◌, ℕ, [], false, nat_eq, max};
ghost use Rattle.session_core.specs.Quiet.{IsNoted};

use collections::Timers;
use std::alloc::Global;

// From when on something may be to be done for a session by itself: `u64::MAX` stands for never.
#[derive(Clone, Copy)]
pub(crate) struct Moments {
    // The master may end it.
    pub(crate) end: u64,
    // Its Beat is to be answered.
    pub(crate) answer: u64,
}

// What is known of all sessions at once, so that none has to be looked for.
#[derive(Drop)]
pub(crate) struct Bounds {
    // No session has more events in this epoch.
    pub(crate) most_events: u64,
    // When the master may end each.
    pub(crate) ends: Timers,
    // When the Beat of each is to be answered.
    pub(crate) answers: Timers,
}

impl Bounds {
    // Those of no sessions.
    pub(crate) fn none(alloc: Global) -> Bounds
        ensures { result ≡ record { most_events = 0; ends = record { soon = []; later = []; lost = false }; answers = record { soon = []; later = []; lost = false } } }
    {
        Bounds {
            most_events: 0,
            ends: Timers::new(alloc),
            answers: Timers::new(alloc),
        }
    }

    // Those of one session more, which has so many events.
    pub(crate) fn add(&mut self, client: u64, moments: Moments, events: u64)
        ensures events { self.new.most_events ≡ max self.old.most_events events }
        ensures own { IsNoted self.new.ends self.new.answers client moments }
        ensures kept { (k : ℕ) (m : Moments) → IsNoted self.old.ends self.old.answers k m → IsNoted self.new.ends self.new.answers k m }
    {
        self.most_events = self.most_events.max(events);
        self.ends.set(client, moments.end);
        self.answers.set(client, moments.answer);
    }

    // A session has these moments.
    pub(crate) fn note(&mut self, client: u64, moments: Moments)
        ensures events { self.new.most_events ≡ self.old.most_events }
        ensures own { IsNoted self.new.ends self.new.answers client moments }
        ensures kept { (k : ℕ) (m : Moments) → IsNoted self.old.ends self.old.answers k m → IsNoted self.new.ends self.new.answers k m }
    {
        self.ends.set(client, moments.end);
        self.answers.set(client, moments.answer);
    }

    // A session with these moments has other ones, and so many events.
    pub(crate) fn change(&mut self, client: u64, before: Moments, after: Moments, events: u64)
        ensures events { self.new.most_events ≡ max self.old.most_events events }
        ensures own { IsNoted self.old.ends self.old.answers client before → IsNoted self.new.ends self.new.answers client after }
        ensures others { (k : ℕ) (m : Moments) → nat_eq k client ≡ false → IsNoted self.old.ends self.old.answers k m → IsNoted self.new.ends self.new.answers k m }
    {
        self.most_events = self.most_events.max(events);
        self.ends.change(client, before.end, after.end);
        self.answers.change(client, before.answer, after.answer);
    }

    // From this moment on something may be to be done for one of those that aren't to be looked at yet.
    pub(crate) fn next_moment(&self) -> u64 {
        let end = self.ends.first_moment().unwrap_or(u64::MAX);
        let answer = self.answers.first_moment().unwrap_or(u64::MAX);
        end.min(answer)
    }

    // Whether those are known for whom something may be to be done now, behind `turn`: not where memory was wanting.
    pub(crate) fn are_known(&self, now: u64) -> bool {
        self.ends.soon(now).is_some() && self.answers.soon(now).is_some()
    }

    // Finds those for whom something may be to be done now.
    pub(crate) fn turn(&mut self, now: u64)
        ensures events { self.new.most_events ≡ self.old.most_events }
        ensures kept { (k : ℕ) (m : Moments) → IsNoted self.old.ends self.old.answers k m → IsNoted self.new.ends self.new.answers k m }
    {
        self.ends.turn(now);
        self.answers.turn(now);
    }
}
