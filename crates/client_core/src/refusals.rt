//! A client is given a refusal.
ghost use Rattle.std.specs.Prelude.{◌≡◌, OnErr, IfOk, Ok};
ghost use Rattle.lease_core.specs.Lease.{IsMoment};
ghost use Rattle.client_core.specs.Sessions.{session_after};
ghost use Rattle.client_core.specs.State.{session_then};
ghost use Rattle.client_core.specs.Gives.{lost, lose_step, refused_step};

use crate::client::Client;
use crate::parts::{ClientStanding, Given, pushed};
use cache_core::SessionTrust;
use node_core::Line;
use std::alloc::AllocError;
use tags_cell::Refused;

impl Client {
    // Learns a later epoch, or ends the session, where the master of the refusal knows none.
    pub(crate) fn take_refused(
        &mut self,
        moment: u64,
        refused: &Refused,
    ) -> Result<Given, AllocError>
        requires { IsMoment moment }
        ensures ok { IfOk result (λ given. refused_step self.old moment refused.now ≡ (self.new, Ok given)) }
        ensures err { OnErr result (self.new ≡ self.old) }
    {
        match self.later_epoch(moment, refused) {
            Some(present) => self.learn(moment, present),
            None => self.take_loss(moment, refused),
        }
    }

    // Ends the session, where the master of a refusal knows none.
    fn take_loss(&mut self, moment: u64, refused: &Refused) -> Result<Given, AllocError>
        requires { IsMoment moment }
        ensures ok { IfOk result (λ given. lose_step self.old moment (session_after (session_then self.old moment) self.old.epoch refused.now.epoch refused.now.fault) ≡ (self.new, Ok given)) }
        ensures err { OnErr result (self.new ≡ self.old) }
    {
        let session = self.session_then(moment);
        let Some(session) = session.after(self.epoch, refused.epoch, refused.fault) else {
            return self.pass_over(moment, None);
        };
        let lines = pushed(self.note_lines(moment)?, Line::Lost(self.number.get()))?;
        self.note(moment);
        self.lose(session);
        Ok(Given {
            lines,
            refused: None,
        })
    }

    // A client without a session holds nothing.
    pub(crate) fn lose(&mut self, session: ClientStanding)
        ensures { self.new ≡ lost self.old session }
    {
        self.session = session;
        self.cache.clear();
        self.cache.disable();
        self.standing = SessionTrust::Lost;
    }
}
