//! A client learns of a later epoch, in which another master is up (Burrows 2006, section 2.9).
ghost use Rattle.std.specs.Prelude.{◌≡◌, None, OnOk, OnErr, IfOk};
ghost use Rattle.lease_core.specs.Lease.{IsMoment};
ghost use Rattle.client_core.specs.State.{note};
ghost use Rattle.client_core.specs.Targets.{unknown_lines};
ghost use Rattle.client_core.specs.Gives.{told, later_epoch, learned};

use crate::client::Client;
use crate::parts::{ClientStanding, Given, with_unknown};
use node_core::Fault;
use std::alloc::AllocError;
use tags_cell::Refused;

impl Client {
    // The master's epoch, where the refusal tells of a later one than the client's, in its session. A refusal that is of an
    // earlier epoch itself tells nothing.
    pub(crate) fn later_epoch(&self, moment: u64, refused: &Refused) -> Option<u64>
        ensures { result ≡ later_epoch self.now moment refused.now.epoch refused.now.fault }
    {
        let Fault::OldEpoch(present) = refused.fault else {
            return None;
        };
        if refused.epoch < self.epoch {
            return None;
        }
        if self.session_then(moment) == ClientStanding::Live && self.epoch < present {
            Some(present)
        } else {
            None
        }
    }

    // Tells that nobody knows what became of the outstanding call, and takes the epoch.
    pub(crate) fn learn(&mut self, moment: u64, present: u64) -> Result<Given, AllocError>
        requires { IsMoment moment }
        ensures told { IfOk result (λ given. given ≡ told self.old moment (unknown_lines self.old.number self.old.outstanding) None) }
        ensures ok { OnOk result (self.new ≡ learned (note self.old moment) present) }
        ensures err { OnErr result (self.new ≡ self.old) }
    {
        let lines = with_unknown(
            self.note_lines(moment)?,
            self.number.get(),
            &self.outstanding,
        )?;
        self.note(moment);
        self.take_epoch(present);
        Ok(Given {
            lines,
            refused: None,
        })
    }

    // Of the new master nothing is cached and nothing was processed yet.
    fn take_epoch(&mut self, present: u64)
        ensures { self.new ≡ learned self.old present }
    {
        self.epoch = present;
        self.cache.clear();
        self.processed = 0;
        self.heard = 0;
        self.end();
    }
}
