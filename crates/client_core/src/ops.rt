//! What a step does to a client's cache, as values, for copies of the cache that readers share. They are asked for before the
//! step, so that want of memory refuses them before anything has changed.
ghost use Rattle.std.specs.Prelude.{◌≡◌, ◌⊎◌, ◌∷◌, [], true, false, Ok, IfOk};
ghost use Rattle.lease_core.specs.Lease.{IsMoment};
ghost use Rattle.cache_core.specs.Changes.{applied_all};
ghost use Rattle.tags_cell.specs.Messages.{out_client};
ghost use Rattle.client_core.specs.Leased.{shut};
ghost use Rattle.client_core.specs.Sessions.{session_after};
ghost use Rattle.client_core.specs.declared.parts.asks.AskOutcome.{AskOutcome};
ghost use Rattle.client_core.specs.declared.parts.steps.Beaten.{Beaten};
ghost use Rattle.client_core.specs.State.{note, session_then};
ghost use Rattle.client_core.specs.Asks.{ask_step, leaves};
ghost use Rattle.client_core.specs.Beats.{beat_step};
ghost use Rattle.client_core.specs.Gives.{offered, takes_offer, started_step, kept_alive, alive_step, finish_step, leave_step, reply_for, reply_step, lose_step, refused_step, taken, give_step};
ghost use Rattle.client_core.specs.Ops.{LeadTo};

use crate::client::Client;
use crate::parts::{
    Ask, ClientStanding, Target, is_numbered, moment_by, noted_ops, with_flushes, with_lease,
    with_losses, with_op,
};
use cache_core::CacheOp;
use lease_core::Lease;
use std::alloc::AllocError;
use std::collections::VecDeque;
use tags_cell::{Alive, CallResult, Out, Refused, Reply, Started};

impl Client {
    /// The changes of the cache that a `beat` of this moment makes: those of the noting of the time. Nothing is changed.
    pub fn note_ops(&self, now: u64) -> Result<VecDeque<CacheOp>, AllocError>
        ensures { IfOk result (λ ops. LeadTo self.now.cache ops.items (beat_step self.now now)) }
    {
        match moment_by(self.clock, now) {
            Ok(moment) => self.ops_noted(moment),
            Err(_) => Ok(VecDeque::new(self.alloc)),
        }
    }

    /// The changes of the cache that the `ask` of this at this moment makes: those of the noting of the time, and where the
    /// client ends its session those that empty it. Nothing is changed.
    pub fn ask_ops(&self, now: u64, asked: &Ask) -> Result<VecDeque<CacheOp>, AllocError>
        ensures { IfOk result (λ ops. LeadTo self.now.cache ops.items (ask_step self.now now asked.now)) }
    {
        match moment_by(self.clock, now) {
            Ok(moment) => self.ops_asked(moment, asked),
            Err(_) => Ok(VecDeque::new(self.alloc)),
        }
    }

    fn ops_asked(&self, moment: u64, asked: &Ask) -> Result<VecDeque<CacheOp>, AllocError>
        ensures { IfOk result (λ ops. ((leaves self.now moment asked.now ≡ true) × (applied_all self.now.cache ops.items ≡ shut self.now.cache))
            ⊎ ((leaves self.now moment asked.now ≡ false) × (applied_all self.now.cache ops.items ≡ (note self.now moment).cache))) }
    {
        if self.leaves(moment, asked) {
            with_losses(VecDeque::new(self.alloc))
        } else {
            self.ops_noted(moment)
        }
    }

    // Whether the call goes out that ends the session.
    fn leaves(&self, moment: u64, asked: &Ask) -> bool
        ensures { result ≡ leaves self.now moment asked.now }
    {
        asked.asks_to_leave() && self.fault_for(moment, asked).is_none() && self.may_leave()
    }

    /// The changes of the cache that the `give` of this message at this moment makes. Nothing is changed. Clones the names
    /// that are invalidated, or what is installed; contents are shared.
    #[tactic(auto, unfolding(crate::specs::Gives::give_step))]
    pub fn give_ops(&self, now: u64, out: &Out) -> Result<VecDeque<CacheOp>, AllocError>
        ensures { IfOk result (λ ops. LeadTo self.now.cache ops.items (give_step self.now now out.now)) }
    {
        let Ok(moment) = moment_by(self.clock, now) else {
            return Ok(VecDeque::new(self.alloc));
        };
        if out.client() != self.number {
            return self.ops_noted(moment);
        }
        self.ops_taken(moment, out)
    }

    fn ops_taken(&self, moment: u64, out: &Out) -> Result<VecDeque<CacheOp>, AllocError>
        requires { IsMoment moment }
        ensures { IfOk result (λ ops. LeadTo self.now.cache ops.items (taken self.now moment out.now)) }
    {
        match out {
            Out::Started(started) => self.ops_started(moment, started),
            Out::Alive(alive) => self.ops_alive(moment, alive),
            Out::Reply(reply) => { self.ops_replied(moment, reply, self.awaited(moment, reply)) }
            Out::Refused(refused) => self.ops_refused(moment, refused),
        }
    }

    // Those of the noting of the time.
    fn ops_noted(&self, moment: u64) -> Result<VecDeque<CacheOp>, AllocError>
        ensures { IfOk result (λ ops. applied_all self.now.cache ops.items ≡ (note self.now moment).cache) }
    {
        match self.session {
            ClientStanding::Live => noted_ops(self.alloc, &self.cache, moment),
            ClientStanding::Unstarted | ClientStanding::Lost | ClientStanding::TurnedAway => {
                Ok(VecDeque::new(self.alloc))
            }
        }
    }

    fn ops_started(&self, moment: u64, started: &Started) -> Result<VecDeque<CacheOp>, AllocError>
        requires { IsMoment moment }
        ensures { IfOk result (λ ops. LeadTo self.now.cache ops.items (started_step self.now moment started.now)) }
    {
        if self.session != ClientStanding::Unstarted || started.number.get() != self.beats {
            return self.ops_noted(moment);
        }
        let Some(lease) = self.offered(started.span) else {
            return self.ops_noted(moment);
        };
        with_lease(VecDeque::new(self.alloc), lease, moment)
    }

    fn ops_alive(&self, moment: u64, alive: &Alive) -> Result<VecDeque<CacheOp>, AllocError>
        requires { IsMoment moment }
        ensures { IfOk result (λ ops. LeadTo self.now.cache ops.items (alive_step self.now moment alive.now)) }
    {
        if self.session_then(moment) != ClientStanding::Live || alive.epoch != self.epoch {
            return self.ops_noted(moment);
        }
        let Some(lease) = self.offered(alive.span) else {
            return self.ops_noted(moment);
        };
        if !is_numbered(self.processed, self.heard, alive) {
            return self.ops_noted(moment);
        }
        self.ops_kept(moment, alive, lease)
    }

    // What is invalidated goes, and then the lease is taken, if it is.
    fn ops_kept(
        &self,
        moment: u64,
        alive: &Alive,
        lease: Lease,
    ) -> Result<VecDeque<CacheOp>, AllocError>
        requires moment { IsMoment moment }
        requires lease { lease ≡ offered self.now alive.now.span }
        ensures { IfOk result (λ ops. LeadTo self.now.cache ops.items (kept_alive self.now moment alive.now)) }
    {
        let noted = self.ops_noted(moment)?;
        let flushed = with_flushes(noted, self.processed, alive.invalidations.as_slice())?;
        if !self.takes_offer(alive, lease) {
            return Ok(flushed);
        }
        let leased = with_lease(flushed, lease, moment)?;
        if self.leaving {
            return with_losses(leased);
        }
        Ok(leased)
    }

    // Whether the lease is for the newest Beat, and better than the present one.
    fn takes_offer(&self, alive: &Alive, lease: Lease) -> bool
        requires { lease ≡ offered self.now alive.now.span }
        ensures { result ≡ takes_offer self.now alive.now }
    {
        alive.number.get() == self.beats && self.cache.takes_lease(lease)
    }

    fn ops_replied(
        &self,
        moment: u64,
        reply: &Reply,
        target: Option<Target>,
    ) -> Result<VecDeque<CacheOp>, AllocError>
        requires { IsMoment moment }
        ensures { IfOk result (λ ops. LeadTo self.now.cache ops.items (reply_for self.now moment reply.now target)) }
    {
        match target {
            None | Some(Target::Dropped) => self.ops_noted(moment),
            Some(Target::Leaving) => self.ops_left(moment, reply),
            Some(target) => self.ops_finished(moment, reply, target),
        }
    }

    // Where the client has ended its session nothing is held any more.
    fn ops_left(&self, moment: u64, reply: &Reply) -> Result<VecDeque<CacheOp>, AllocError>
        requires { IsMoment moment }
        ensures { IfOk result (λ ops. LeadTo self.now.cache ops.items (leave_step self.now moment reply.now reply.now.result)) }
    {
        match &reply.result {
            CallResult::Done => {
                let noted = self.ops_noted(moment)?;
                with_losses(noted)
            }
            _ => self.ops_finished(moment, reply, Target::Leaving),
        }
    }

    // What a reply teaches is installed.
    fn ops_finished(
        &self,
        moment: u64,
        reply: &Reply,
        target: Target,
    ) -> Result<VecDeque<CacheOp>, AllocError>
        requires { IsMoment moment }
        ensures { IfOk result (λ ops. LeadTo self.now.cache ops.items (finish_step self.now moment reply.now target)) }
    {
        match self.lesson(moment, reply, target)? {
            Some((name, entry)) => {
                with_op(VecDeque::new(self.alloc), CacheOp::Install(name, entry))
            }
            None => self.ops_noted(moment),
        }
    }

    fn ops_refused(&self, moment: u64, refused: &Refused) -> Result<VecDeque<CacheOp>, AllocError>
        requires { IsMoment moment }
        ensures { IfOk result (λ ops. LeadTo self.now.cache ops.items (refused_step self.now moment refused.now)) }
    {
        let noted = self.ops_noted(moment)?;
        if self.later_epoch(moment, refused).is_some() {
            return with_op(noted, CacheOp::Clear);
        }
        let session = self.session_then(moment);
        match session.after(self.epoch, refused.epoch, refused.fault) {
            Some(_) => with_losses(noted),
            None => Ok(noted),
        }
    }
}
