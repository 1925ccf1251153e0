//! A client notes the time.
ghost use Rattle.std.specs.Prelude.{◌≡◌, IfOk};
ghost use Rattle.lease_core.specs.Lease.{IsMoment};
ghost use Rattle.client_core.specs.State.{session_then, note, note_lines};
ghost use Rattle.client_core.specs.Asks.{fault_then, fault_for, has_given_up};

use crate::client::Client;
use crate::parts::{Ask, ClientStanding, standing_by, turn_lines};
use cache_core::SessionTrust;
use collections::Items;
use node_core::{Fault, Line};
use std::alloc::AllocError;

impl Client {
    // What has become of its session by then.
    pub(crate) fn session_then(&self, moment: u64) -> ClientStanding
        ensures { result ≡ session_then self.now moment }
    {
        match (
            self.session,
            standing_by(self.standing, &self.cache, moment),
        ) {
            (ClientStanding::Live, SessionTrust::Lost) => ClientStanding::Lost,
            (session, _) => session,
        }
    }

    // Why no call may be made then.
    pub(crate) fn fault_then(&self, moment: u64) -> Option<Fault>
        ensures { result ≡ fault_then self.now moment }
    {
        self.session
            .fault(standing_by(self.standing, &self.cache, moment))
    }

    // Why this may not be asked for then.
    pub(crate) fn fault_for(&self, moment: u64, asked: &Ask) -> Option<Fault>
        ensures { result ≡ fault_for self.now moment asked.now }
    {
        if self.has_given_up(moment, asked) {
            return Some(Fault::NoSession);
        }
        self.fault_then(moment)
    }

    // Who has asked for the end of its session has none any more: while it lives it may ask for that again, and for nothing
    // else.
    fn has_given_up(&self, moment: u64, asked: &Ask) -> bool
        ensures { result ≡ has_given_up self.now moment asked.now }
    {
        self.leaving
            && !(asked.asks_to_leave() && self.session_then(moment) == ClientStanding::Live)
    }

    // The lines that the noting of the time prints.
    pub(crate) fn note_lines(&self, moment: u64) -> Result<Items<Line>, AllocError>
        ensures { IfOk result (λ lines. lines ≡ note_lines self.now moment) }
    {
        match self.session {
            ClientStanding::Live => turn_lines(
                self.alloc,
                self.number.get(),
                self.standing,
                standing_by(self.standing, &self.cache, moment),
            ),
            ClientStanding::Unstarted | ClientStanding::Lost | ClientStanding::TurnedAway => Ok(
                Items::new(self.alloc),
            ),
        }
    }

    // Notes the time: where the lease on its session has ended the client empties its cache, and gives the session up at
    // the end of the grace period. Takes no memory.
    pub(crate) fn note(&mut self, moment: u64)
        requires { IsMoment moment }
        ensures { self.new ≡ note self.old moment }
    {
        self.clock = moment;
        if self.session == ClientStanding::Live {
            let leased = self.cache.note(moment);
            self.standing = self.standing.at(leased, moment);
            if self.standing == SessionTrust::Lost {
                self.session = ClientStanding::Lost;
            }
        }
    }
}
