//! A client poisons a handle.
ghost use Rattle.std.specs.Prelude.{◌≡◌, IfOk, Ok};
ghost use Rattle.lease_core.specs.Lease.{IsMoment};
ghost use Rattle.client_core.specs.State.{Does};
ghost use Rattle.client_core.specs.declared.parts.asks.Ask.TheVariants as asks;
ghost use Rattle.client_core.specs.declared.plans.AskPlan.TheVariants as plans;
ghost use Rattle.client_core.specs.Asks.{ask_step, carried_out};
ghost use Rattle.client_core.specs.Poisons.{poison_lines, poisoned};

use crate::client::Client;
use crate::parts::{Ask, AskOutcome, ClientHandle, Outcome, drop_reply};
use collections::Items;
use node_core::{Answer, Fault, Line};
use std::alloc::AllocError;

impl Client {
    /// Poisons the handle of this number (Burrows 2006, section 2.6): to `ask` for an `Ask::Poison`, by a name of its own.
    pub fn poison(&mut self, now: u64, number: u64) -> Result<AskOutcome, Fault>
        ensures { Does self.old self.new result (ask_step self.old now (asks.Poison number)) }
    {
        self.ask(now, &Ask::Poison(number))
    }

    // Poisons this handle of this number.
    pub(crate) fn poison_at(
        &mut self,
        moment: u64,
        number: u64,
        handle: ClientHandle,
    ) -> Result<AskOutcome, Fault>
        requires { IsMoment moment }
        ensures { Does self.old self.new result (carried_out self.old moment (plans.Poison number handle)) }
    {
        let lines = self.poison_lines(number)?;
        self.clock = moment;
        self.mark_poisoned(number, handle);
        drop_reply(&mut self.outstanding, number);
        Ok(AskOutcome {
            lines,
            outcome: Outcome::Answered,
        })
    }

    // The lines that are printed.
    fn poison_lines(&self, number: u64) -> Result<Items<Line>, AllocError>
        ensures { IfOk result (λ lines. lines ≡ poison_lines self.now number) }
    {
        let client = self.number.get();
        let mut lines = Items::new(self.alloc);
        if let Some(call) = &self.outstanding {
            if call.target.is_on(number) {
                let refusal = Answer::Refused(Fault::Poisoned);
                lines.push(Line::Done(client, call.request.number().get(), refusal))?;
            }
        }
        lines.push(Line::Done(client, 0, Answer::Poisoned))?;
        Ok(lines)
    }

    #[tactic(auto, using(collections::proofs::Formers::set_absent))]
    fn mark_poisoned(&mut self, number: u64, handle: ClientHandle)
        ensures { self.new ≡ record self.old { handles = poisoned self.old.handles number handle } }
    {
        let mut handle = handle;
        handle.poisoned = true;
        let _ = self.handles.replace(&number, handle);
    }
}
