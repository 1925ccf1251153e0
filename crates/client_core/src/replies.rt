//! A client is given the reply to its outstanding call.
ghost use Rattle.std.specs.Prelude.{◌≡◌, ◌++◌, ◌∷◌, [], true, OnOk, OnErr, IfOk, Ok};
ghost use Rattle.lease_core.specs.Lease.{IsMoment};
ghost use Rattle.client_core.specs.State.{note, note_lines, Does};
ghost use Rattle.client_core.specs.Lessons.{lesson};
ghost use Rattle.tags_cell.specs.declared.messages.outs.CallResult.TheVariants as results;
ghost use Rattle.client_core.specs.declared.parts.targets.Target.TheVariants as targets;
ghost use Rattle.client_core.specs.Handles.{has_number};
ghost use Rattle.client_core.specs.Gives.{awaited, answer_of, ended_plainly, ended, finish_step, leave_step, departed, reply_for, reply_step};

use crate::client::Client;
use crate::parts::{
    ClientStanding, Given, Target, has_number, keep_handle, pushed, put_sequencer, sent_sequencer,
};
use collections::Items;
use node_core::{Answer, Fault, Line};
use std::alloc::AllocError;
use tags_cell::{CallResult, Reply};

impl Client {
    pub(crate) fn take_reply(&mut self, moment: u64, reply: &Reply) -> Result<Given, Fault>
        requires { IsMoment moment }
        ensures { Does self.old self.new result (reply_step self.old moment reply.now) }
    {
        let target = self.awaited(moment, reply);
        self.reply_for(moment, reply, target)
    }

    // Ends the call that the reply is for, if it is for one.
    fn reply_for(
        &mut self,
        moment: u64,
        reply: &Reply,
        target: Option<Target>,
    ) -> Result<Given, Fault>
        requires { IsMoment moment }
        ensures { Does self.old self.new result (reply_for self.old moment reply.now target) }
    {
        match target {
            None => Ok(self.pass_over(moment, None)?),
            Some(Target::Dropped) => {
                let given = self.pass_over(moment, None)?;
                self.end();
                Ok(given)
            }
            Some(Target::Leaving) => self.leave_by(moment, reply),
            Some(target) => self.finish(moment, reply, target),
        }
    }

    // The session is over that the client ended, or the call was refused.
    fn leave_by(&mut self, moment: u64, reply: &Reply) -> Result<Given, Fault>
        requires { IsMoment moment }
        ensures { Does self.old self.new result (leave_step self.old moment reply.now reply.now.result) }
    {
        match &reply.result {
            CallResult::Done => {
                let lines = self.reply_lines(moment, reply)?;
                self.end_session(moment);
                Ok(Given {
                    lines,
                    refused: None,
                })
            }
            _ => self.finish(moment, reply, Target::Leaving),
        }
    }

    // Tells how the call ended, and ends it.
    fn finish(&mut self, moment: u64, reply: &Reply, target: Target) -> Result<Given, Fault>
        requires { IsMoment moment }
        ensures { Does self.old self.new result (finish_step self.old moment reply.now target) }
    {
        if !has_number(self.opened, &reply.result) {
            return Err(Fault::Exhausted);
        }
        let lines = self.reply_lines(moment, reply)?;
        self.end_call(moment, reply, target)?;
        Ok(Given {
            lines,
            refused: None,
        })
    }

    // What the noting of the time prints, and how the call ended.
    fn reply_lines(&self, moment: u64, reply: &Reply) -> Result<Items<Line>, AllocError>
        requires { has_number self.now.opened reply.now.result ≡ true }
        ensures { IfOk result (λ lines. lines ≡ note_lines self.now moment ++ Line.Done self.now.number reply.now.number (answer_of self.now reply.now.result) ∷ []) }
    {
        let answer = self.answer_of(&reply.result)?;
        let line = Line::Done(self.number.get(), reply.number.get(), answer);
        match self.note_lines(moment) {
            Ok(lines) => pushed(lines, line),
            Err(_) => {
                drop(line);
                Err(AllocError)
            }
        }
    }

    // What it is for, where it is of the client's epoch and for the outstanding call.
    pub(crate) fn awaited(&self, moment: u64, reply: &Reply) -> Option<Target>
        ensures { result ≡ awaited self.now moment reply.now }
    {
        if self.session_then(moment) != ClientStanding::Live || reply.epoch != self.epoch {
            return None;
        }
        match &self.outstanding {
            Some(call) if reply.number == call.request.number() => Some(call.target),
            Some(_) | None => None,
        }
    }

    // How a call ended, as it is told.
    fn answer_of(&self, outcome: &CallResult) -> Result<Answer, AllocError>
        requires { has_number self.now.opened outcome.now ≡ true }
        ensures { IfOk result (λ answer. answer ≡ answer_of self.now outcome.now) }
    {
        Ok(match outcome {
            CallResult::Opened(_) => Answer::Opened(self.opened + 1),
            CallResult::Closed => Answer::Closed,
            CallResult::Viewed(view) => Answer::Viewed(view.clone()?),
            CallResult::Stated(stat) => Answer::Stated(stat.clone()?),
            CallResult::Listed(view) => Answer::Names(view.children.clone()?),
            CallResult::Sequencer(bytes) => Answer::Sequencer(bytes.clone()?),
            CallResult::Done => Answer::Okay,
            CallResult::Refused(fault) => Answer::Refused(*fault),
        })
    }

    // Ends the outstanding call, and holds what the reply teaches of a name, where the cache takes it.
    fn end_call(&mut self, moment: u64, reply: &Reply, target: Target) -> Result<(), AllocError>
        requires moment { IsMoment moment }
        requires number { has_number self.old.opened reply.now.result ≡ true }
        ensures ok { OnOk result (self.new ≡ ended self.old moment target reply.now.result (lesson self.old moment reply.now target)) }
        ensures err { OnErr result (self.new ≡ self.old) }
    {
        let Some((name, entry)) = self.lesson(moment, reply, target)? else {
            return self.end_plainly(moment, target, &reply.result);
        };
        self.cache.install(name, entry)?;
        self.clock = moment;
        self.end();
        Ok(())
    }

    // Ends it, keeps a new handle, lets a closed one go, and sets a sequencer that the master took.
    fn end_plainly(
        &mut self,
        moment: u64,
        target: Target,
        outcome: &CallResult,
    ) -> Result<(), AllocError>
        requires moment { IsMoment moment }
        requires number { has_number self.old.opened outcome.now ≡ true }
        ensures ok { OnOk result (self.new ≡ ended_plainly (note self.old moment) target outcome.now) }
        ensures err { OnErr result (self.new ≡ self.old) }
    {
        if let (CallResult::Done, Target::Sequencing(number)) = (outcome, target) {
            return self.end_sequencing(moment, number);
        }
        if let CallResult::Opened(handle) = outcome {
            keep_handle(
                &self.outstanding,
                &mut self.handles,
                &mut self.kept,
                self.opened + 1,
                handle,
            )?;
        }
        self.note(moment);
        match (outcome, target) {
            (CallResult::Opened(_), _) => self.opened += 1,
            (CallResult::Closed, Target::Closing(number)) => drop(self.handles.remove(&number)),
            _ => {}
        }
        self.end();
        Ok(())
    }

    // Ends a SetSequencer that was done: from here on the calls on the handle are under that sequencer.
    fn end_sequencing(&mut self, moment: u64, number: u64) -> Result<(), AllocError>
        requires { IsMoment moment }
        ensures ok { OnOk result (self.new ≡ ended_plainly (note self.old moment) (targets.Sequencing number) results.Done) }
        ensures err { OnErr result (self.new ≡ self.old) }
    {
        let sequencer = sent_sequencer(&self.outstanding)?;
        self.note(moment);
        put_sequencer(&mut self.handles, number, sequencer);
        self.end();
        Ok(())
    }

    // The session is over that the client ended.
    fn end_session(&mut self, moment: u64)
        requires { IsMoment moment }
        ensures { self.new ≡ departed (note self.old moment) }
    {
        self.note(moment);
        self.lose(ClientStanding::Lost);
        self.end();
    }

    // No call is outstanding from here on.
    pub(crate) fn end(&mut self)
        ensures { self.new ≡ record self.old { outstanding = None } }
    {
        drop(self.outstanding.take());
    }
}
