//! A client is asked for a call.
ghost use Rattle.std.specs.Prelude.{◌≡◌, ◌+◌, ◌^◌, ◌<◌, true, ◌||◌, Some, None, Ok, Err, OnOk, OnErr};
ghost use Rattle.std.specs.Option.{option_copied, option_map};
ghost use Rattle.lease_core.specs.Lease.{IsMoment};
ghost use Rattle.client_core.specs.State.{Does};
ghost use Rattle.client_core.specs.Leased.{shut, shut_if};
ghost use Rattle.client_core.specs.Targets.{is_leaving};
ghost use Rattle.client_core.specs.Asks.{ask_step, ask_by, plan_of, carried_out, send_step, share_step};
ghost use Rattle.client_core.specs.declared.plans.AskPlan.TheVariants as plans;

use crate::client::Client;
use crate::parts::{
    Ask, AskOutcome, ClientHandle, Outcome, Outstanding, Target, moment_by, one_line, opened_lines,
};
use crate::plans::AskPlan;
use collections::{Bytes, Items};
use node_core::{Answer, Fault, Line, NUMBER_LIMIT};
use std::alloc::AllocError;
use std::mem;
use tags_cell::{Call, CallMessage, MessageNumber, Request};

impl Client {
    /// Asks for a call. First the time is noted; where that prints lines they come first, also where the call is refused.
    /// Refused, in this order: where the end of the session was asked for before, as NoSession, but for that call while the
    /// session lives; without a session as NoSession, in jeopardy as InJeopardy, and where the session was lost as
    /// SessionExpired; for a handle number that isn't open as BadHandle; for a poisoned handle, but for a Close, as Poisoned;
    /// and, if the client doesn't answer it by itself, while a call is outstanding as CallOutstanding. These change nothing but
    /// what the noting of the time does. A CheckSequencer is on no handle, nor is a Leave.
    ///
    /// Before a Leave goes out the cache is emptied and turned off, and it stays so.
    ///
    /// The client answers by itself, also beside an outstanding call: a read on a handle to read without a sequencer under
    /// whose name its cache holds something, as StaleInstance where that is no view of the handle's instance; a ReadDir
    /// on such a handle likewise, but for a file of the handle's instance, of which the master is asked; a plain Open
    /// of a name under which its cache holds absence, as NotFound; a plain Open to read alone, without a lock-delay, where
    /// its cache holds a view on whose instance a handle is kept (Burrows 2006, section 2.7), which then has the next
    /// number beside; and the Close of a handle that is kept so, which stays open at the master.
    ///
    /// A call on a handle carries the sequencer that the handle has, but for a Close, and a SetSequencer the new one, which
    /// the handle has once the master took it (Burrows 2006, section 2.4).
    ///
    /// A Poison sends nothing either: the client answers it, as call 0. An outstanding call on the handle that isn't a
    /// Close is then told as refused, and its reply is dropped when it comes. Until then it stays outstanding.
    ///
    /// Err for want of memory, and as Exhausted for a moment of 2^53 or more, after the last call number and after the
    /// last handle number, 2^63-1: nothing is noted then.
    #[tactic(auto, unfolding(crate::specs::Asks::ask_step))]
    pub fn ask(&mut self, now: u64, asked: &Ask) -> Result<AskOutcome, Fault>
        ensures { Does self.old self.new result (ask_step self.old now asked.now) }
    {
        let moment = moment_by(self.clock, now)?;
        let Some(fault) = self.fault_for(moment, asked) else {
            return self.ask_safe(moment, asked);
        };
        let lines = self.note_lines(moment)?;
        self.note(moment);
        Ok(AskOutcome {
            lines,
            outcome: Outcome::Refused(fault),
        })
    }

    // The client may rely on its session, so that to note the time is to set the clock.
    fn ask_safe(&mut self, moment: u64, asked: &Ask) -> Result<AskOutcome, Fault>
        requires { IsMoment moment }
        ensures { Does self.old self.new result (ask_by self.old moment (plan_of self.old moment asked.now)) }
    {
        match self.plan(moment, asked) {
            Ok(plan) => self.carry_out(moment, plan),
            Err(Fault::NoMemory) => Err(Fault::NoMemory),
            Err(fault) => {
                self.clock = moment;
                Ok(AskOutcome {
                    lines: Items::new(self.alloc),
                    outcome: Outcome::Refused(fault),
                })
            }
        }
    }

    fn carry_out(&mut self, moment: u64, plan: AskPlan) -> Result<AskOutcome, Fault>
        requires { IsMoment moment }
        ensures { Does self.old self.new result (carried_out self.old moment plan) }
    {
        match plan {
            AskPlan::Send(call, sequencer, target) => self.send(moment, call, sequencer, target),
            AskPlan::Poison(number, handle) => self.poison_at(moment, number, handle),
            AskPlan::Serve(line, answer) => self.serve(moment, line, answer),
            AskPlan::Share(line, handle) => self.share(moment, line, handle),
            AskPlan::Release(number) => self.release(moment, number),
        }
    }

    // Numbers the call, and keeps its message.
    fn send(
        &mut self,
        moment: u64,
        call: Call,
        sequencer: Option<Bytes>,
        target: Target,
    ) -> Result<AskOutcome, Fault>
        requires { IsMoment moment }
        ensures { Does self.old self.new result (send_step self.old moment call sequencer target) }
    {
        let Some(number) = MessageNumber::new(self.calls + 1) else {
            drop(call);
            drop(sequencer);
            return Err(Fault::Exhausted);
        };
        let client = self.number;
        let epoch = self.epoch;
        let request = Request::Call(CallMessage {
            client,
            epoch,
            number,
            call,
            sequencer,
        });
        match request.clone() {
            Ok(kept) => {
                self.keep(moment, kept, target);
                Ok(AskOutcome {
                    lines: Items::new(self.alloc),
                    outcome: Outcome::Sent(request),
                })
            }
            Err(_) => {
                drop(request);
                Err(Fault::NoMemory)
            }
        }
    }

    // Keeps the message of the next call, which is outstanding now.
    fn keep(&mut self, moment: u64, request: Request, target: Target)
        requires moment { IsMoment moment }
        requires number { self.old.calls + 1 < 2 ^ 63 }
        ensures { self.new ≡ record self.old {
          clock = moment;
          calls = self.old.calls + 1;
          outstanding = Some (record { request = request; target = target });
          cache = shut_if (is_leaving target) self.old.cache;
          leaving = self.old.leaving || is_leaving target;
        } }
    {
        if target.is_leaving() {
            self.leave();
        }
        let kept = Some(Outstanding { request, target });
        let former = mem::replace(&mut self.outstanding, kept);
        self.clock = moment;
        self.calls += 1;
        drop(former);
    }

    // From here on the client holds and serves nothing, and asks for nothing but the end of its session.
    fn leave(&mut self)
        ensures { self.new ≡ record self.old { cache = shut self.old.cache; leaving = true } }
    {
        self.cache.clear();
        self.cache.disable();
        self.leaving = true;
    }

    // Answers out of the cache.
    fn serve(&mut self, moment: u64, line: Line, answer: Answer) -> Result<AskOutcome, Fault>
        requires { IsMoment moment }
        ensures { Does self.old self.new result (carried_out self.old moment (plans.Serve line answer)) }
    {
        match one_line(self.alloc, line) {
            Ok(lines) => {
                self.clock = moment;
                Ok(AskOutcome {
                    lines,
                    outcome: Outcome::Served(answer),
                })
            }
            Err(_) => {
                drop(answer);
                Err(Fault::NoMemory)
            }
        }
    }

    // Gives a handle that is shared the next number.
    fn share(&mut self, moment: u64, line: Line, handle: ClientHandle) -> Result<AskOutcome, Fault>
        requires { IsMoment moment }
        ensures { Does self.old self.new result (share_step self.old moment line handle) }
    {
        if self.opened == NUMBER_LIMIT {
            drop(line);
            drop(handle);
            return Err(Fault::Exhausted);
        }
        let opened = self.opened + 1;
        match opened_lines(self.alloc, self.number.get(), line, opened) {
            Ok(lines) => {
                drop(self.handles.put(opened, handle)?);
                self.clock = moment;
                self.opened = opened;
                Ok(AskOutcome {
                    lines,
                    outcome: Outcome::Served(Answer::Opened(opened)),
                })
            }
            Err(_) => {
                drop(handle);
                Err(Fault::NoMemory)
            }
        }
    }

    // Closes a handle that is shared, which stays open at the master.
    fn release(&mut self, moment: u64, number: u64) -> Result<AskOutcome, Fault>
        requires { IsMoment moment }
        ensures { Does self.old self.new result (carried_out self.old moment (plans.Release number)) }
    {
        let lines = one_line(self.alloc, Line::Done(self.number.get(), 0, Answer::Closed))?;
        self.clock = moment;
        drop(self.handles.remove(&number));
        Ok(AskOutcome {
            lines,
            outcome: Outcome::Answered,
        })
    }
}
