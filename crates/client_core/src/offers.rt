//! The leases that a client is offered. It counts each from the moment at which it sent the Start or the Beat that is
//! answered, in milliseconds by its own clock, and not from when the answer came. So where the clocks are fair its count
//! ends no later than the master's promise, however long the answer was on its way (Gray and Cheriton 1989, section 2;
//! Burrows 2006, section 2.8).
ghost use Rattle.std.specs.Prelude.{◌≡◌, ◌&&◌, Some, None, if◌then◌else◌};
ghost use Rattle.lease_core.specs.Lease.{IsMoment, is_unexpired};
ghost use Rattle.client_core.specs.State.{Does};
ghost use Rattle.client_core.specs.Leased.{shut_if};
ghost use Rattle.client_core.specs.Gives.{is_span, offered, started_step, is_numbered, alive_step, kept_alive, with_processed, with_lease, takes_offer, is_jeopardy};

use crate::client::Client;
use crate::parts::{
    ClientStanding, Given, flush_all, is_numbered, last_event, last_number, put_under, with_events,
};
use cache_core::{CacheOp, SessionTrust};
use lease_core::Lease;
use node_core::{Fault, Line};
use tags_cell::{Alive, Started};

impl Client {
    // Takes the session that the newest Start asked for, and the lease on it.
    pub(crate) fn take_started(&mut self, moment: u64, started: &Started) -> Result<Given, Fault>
        requires { IsMoment moment }
        ensures { Does self.old self.new result (started_step self.old moment started.now) }
    {
        if self.session != ClientStanding::Unstarted || started.number.get() != self.beats {
            return Ok(self.pass_over(moment, None)?);
        }
        let Some(lease) = self.offered(started.span) else {
            return Ok(self.pass_over(moment, Some(Fault::ProtocolFault))?);
        };
        let lines = self.note_lines(moment)?;
        self.clock = moment;
        self.session = ClientStanding::Live;
        self.epoch = started.epoch;
        put_under(&mut self.cache, lease, moment);
        Ok(Given {
            lines,
            refused: None,
        })
    }

    // Processes the invalidations and the events, and takes the lease that the newest Beat was answered with, if it is
    // better than the present one.
    pub(crate) fn take_alive(&mut self, moment: u64, alive: &Alive) -> Result<Given, Fault>
        requires { IsMoment moment }
        ensures { Does self.old self.new result (alive_step self.old moment alive.now) }
    {
        if self.session_then(moment) != ClientStanding::Live || alive.epoch != self.epoch {
            return Ok(self.pass_over(moment, None)?);
        }
        let Some(lease) = self.offered(alive.span) else {
            return Ok(self.pass_over(moment, Some(Fault::ProtocolFault))?);
        };
        if !is_numbered(self.processed, self.heard, alive) {
            return Ok(self.pass_over(moment, Some(Fault::ProtocolFault))?);
        }
        self.keep_alive(moment, alive, lease)
    }

    // The lines that there may be are made before anything changes.
    fn keep_alive(&mut self, moment: u64, alive: &Alive, lease: Lease) -> Result<Given, Fault>
        requires moment { IsMoment moment }
        requires lease { lease ≡ offered self.old alive.now.span }
        ensures { Does self.old self.new result (kept_alive self.old moment alive.now) }
    {
        let mut lines = with_events(
            self.note_lines(moment)?,
            self.number.get(),
            self.heard,
            alive.events.as_slice(),
        )?;
        lines.push(Line::Safe(self.number.get()))?;
        self.note(moment);
        self.process(alive);
        if !self.take_offer(moment, alive, lease) {
            drop(lines.pop());
        }
        Ok(Given {
            lines,
            refused: None,
        })
    }

    // What is invalidated goes, and the last numbers are acknowledged by the next Beat.
    fn process(&mut self, alive: &Alive)
        ensures { self.new ≡ with_processed self.old alive.now }
    {
        let invalidations = alive.invalidations.as_slice();
        flush_all(&mut self.cache, self.processed, invalidations);
        self.processed = self.processed.max(last_number(invalidations));
        self.heard = self.heard.max(last_event(alive.events.as_slice()));
    }

    // Takes the lease, if it is for the newest Beat and better than the present one; says whether that ends a jeopardy.
    fn take_offer(&mut self, moment: u64, alive: &Alive, lease: Lease) -> bool
        requires { lease ≡ offered self.old alive.now.span }
        ensures safe { result ≡ (takes_offer self.old alive.now && (is_unexpired self.old.sent alive.now.span moment && is_jeopardy self.old.standing)) }
        ensures taken { self.new ≡ with_lease self.old moment alive.now }
    {
        if alive.number.get() != self.beats || !self.cache.take_lease(lease) {
            return false;
        }
        put_under(&mut self.cache, lease, moment);
        self.stay_shut();
        if !lease.unexpired(moment) {
            return false;
        }
        let former = self.standing;
        self.standing = former.reprieved();
        matches!(former, SessionTrust::Jeopardy(_))
    }

    // The cache of a client that ends its session stays empty and turned off.
    fn stay_shut(&mut self)
        ensures { self.new ≡ record self.old { cache = shut_if self.old.leaving self.old.cache } }
    {
        if self.leaving {
            self.cache.clear();
            self.cache.disable();
        }
    }

    // The lease that the newest Start or Beat is answered with; None where the span is none.
    pub(crate) fn offered(&self, span: u64) -> Option<Lease>
        ensures { result ≡ if is_span span then Some (offered self.now span) else None }
    {
        Lease::new(self.sent, span)
    }
}
