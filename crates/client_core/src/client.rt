//! A client.
ghost use Rattle.std.specs.Prelude.{◌≡◌, ◌+◌, ◌^◌, ◌<◌, [], Option, Some, None, Ok, Err, OnOk, OnErr, IfOk};
ghost use Rattle.std.specs.Option.{option_copied, option_map};
ghost use Rattle.lease_core.specs.Lease.{IsMoment};
ghost use Rattle.client_core.specs.State.{new_client, note, note_lines, Does};
ghost use Rattle.client_core.specs.Beats.{beat_step, sends, start_message, beat_message, with_beat};
ghost use Rattle.client_core.specs.Gives.{give_step, taken_own, told};

use crate::parts::{Beaten, ClientHandle, ClientStanding, Given, Outstanding, moment_by};
use cache_core::{Cache, KeptHandles, SessionTrust};
use collections::Table;
use names_cell::Principal;
use node_core::Fault;
use std::alloc::{AllocError, Global};
use std::marker::Model;
use tags_cell::{Beat, ClientNumber, MessageNumber, NewHandle, Out, Request, Start};

/// A client of a cell (Burrows 2006, section 2.7): its session, its cache under the lease on it, its handles, and its call
/// that has no reply yet. To a contract, the record of these.
///
/// Each of `ask`, `give` and `beat` first notes the time, in milliseconds by the client's own clock: a moment that is
/// earlier than the last one counts as that, and one of 2^53 or more is refused as Exhausted and changes nothing. Where
/// memory runs out nothing changes either, not even the noted time.
///
/// Where a client in a session notes that its lease has ended it empties its cache, serves nothing more, and is in
/// jeopardy: the master may have ended the session. A better lease that runs ends the jeopardy; after 45,000 ms of it the
/// session is given up (Burrows 2006, section 2.8).
///
/// A lease counts from the moment that was noted when its Start or Beat was sent, and not from when the answer came: the
/// master counts its promise from the receipt, which is no earlier (Gray and Cheriton 1989, section 2; Burrows 2006,
/// section 2.8).
///
/// The invalidations that its master sends take entries out of its cache, in order of their numbers, and the events that it
/// sends are printed; both are acknowledged by its next Beat (Burrows 2006, sections 2.5 and 2.7).
///
/// Where a refusal tells of a later epoch, another master has come up: the client keeps its session, its lease and its
/// handles, forgets what it has cached, and gives its outstanding call up (Burrows 2006, section 2.9).
///
/// Its calls on a handle carry the sequencer that was set on it (Burrows 2006, section 2.4), and such a handle isn't served
/// from its cache.
#[derive(Drop)]
pub struct Client {
    pub(crate) alloc: Global,
    pub(crate) number: ClientNumber,
    pub(crate) principal: Principal,
    pub(crate) clock: u64,
    pub(crate) beats: u64,
    pub(crate) sent: u64,
    pub(crate) session: ClientStanding,
    pub(crate) epoch: u64,
    pub(crate) processed: u64,
    pub(crate) heard: u64,
    pub(crate) cache: Cache,
    pub(crate) standing: SessionTrust,
    pub(crate) calls: u64,
    pub(crate) outstanding: Option<Outstanding>,
    pub(crate) handles: Table<u64, ClientHandle>,
    pub(crate) kept: KeptHandles<NewHandle>,
    pub(crate) opened: u64,
    pub(crate) leaving: bool,
}

impl Model for Client {
    ghost use Rattle.client_core.specs.State.{ClientState, IsWithin};

    ghost Value = { ClientState };

    ghost view = { λ c. record {
      number = c.number;
      principal = c.principal;
      clock = c.clock;
      beats = c.beats;
      sent = c.sent;
      session = c.session;
      epoch = c.epoch;
      processed = c.processed;
      heard = c.heard;
      cache = c.cache;
      standing = c.standing;
      calls = c.calls;
      outstanding = c.outstanding;
      handles = c.handles;
      kept = c.kept;
      opened = c.opened;
      leaving = c.leaving;
    } };

    ghost invariant = { λ c. IsWithin c.clock c.sent c.beats c.calls c.opened };
}

impl Client {
    /// A client without a session, its clock at 0, its cache empty and without a lease. Takes no memory yet. A number is used by one
    /// client alone, which is the caller's to see to.
    pub fn new(alloc: Global, number: ClientNumber, principal: Principal) -> Client
        ensures { result ≡ new_client number principal }
    {
        Client {
            alloc,
            number,
            principal,
            clock: 0,
            beats: 0,
            sent: 0,
            session: ClientStanding::Unstarted,
            epoch: 0,
            processed: 0,
            heard: 0,
            cache: Cache::new(alloc),
            standing: SessionTrust::Safe,
            calls: 0,
            outstanding: None,
            handles: Table::new(alloc),
            kept: KeptHandles::new(alloc),
            opened: 0,
            leaving: false,
        }
    }

    /// Asks for what keeps the session, under the next number: a Start until the client has a session, then a Beat, which
    /// acknowledges the invalidations and the events that it has processed; where the session is lost, or the client
    /// was told that it gets none, nothing more. The lease that it is answered with counts from the moment that is noted
    /// now. The lines are those that the noting of the time prints. After the last number, 2^63-1, it is refused as
    /// Exhausted, and nothing changes.
    #[tactic(auto, unfolding(crate::specs::Beats::beat_step))]
    pub fn beat(&mut self, now: u64) -> Result<Beaten, Fault>
        ensures { Does self.old self.new result (beat_step self.old now) }
    {
        let moment = moment_by(self.clock, now)?;
        match self.session_then(moment) {
            ClientStanding::Unstarted => self.start(moment),
            ClientStanding::Live => self.prolong(moment),
            ClientStanding::Lost | ClientStanding::TurnedAway => {
                let lines = self.note_lines(moment)?;
                self.note(moment);
                Ok(Beaten {
                    lines,
                    request: None,
                })
            }
        }
    }

    /// Gives the client a message of a master, and answers the lines that are printed: first those that the noting of the
    /// time prints.
    ///
    /// A Started gives it the session that its newest Start asked for, with the lease on it. An Alive that answers its
    /// newest Beat gives it a lease, if it is of the client's epoch and the lease ends later than the one that there is;
    /// it is taken even if it has ended already, and one that runs ends a jeopardy and lets the cache serve. Of every Alive
    /// of its epoch, whichever Beat that answers, it processes the invalidations and the events, in order of their
    /// numbers, and skips those that it has processed before (Burrows 2006, sections 2.5 and 2.7): what an invalidation
    /// names goes out of the cache, and an event is printed.
    ///
    /// Refused as ProtocolFault, since no master sends it: in that Started, and in every Alive of the client's epoch, a
    /// span of 2^53 or more; and an Alive of its epoch in which the numbers of the invalidations, or those of the events,
    /// don't rise by one, or begin more than one above the last that it has processed. That changes nothing but the noted
    /// time.
    ///
    /// A Reply ends the outstanding call, if it is for that call and of the client's epoch; a handle gets the client's next
    /// number for it, none is given out twice, and the number of a closed handle is open no more. Where the call's handle
    /// was poisoned since, its Reply prints nothing. A handle that a plain Open to read alone, without a lock-delay, got on a
    /// permanent node is kept beside, to be shared, at most 4,096 of them. The view of a read, and the absence that a plain
    /// Open met, go into the cache where the master stamped the answer, no invalidation was processed since that isn't
    /// counted in the stamp, and the lease runs; never in jeopardy. With the reply that a SetSequencer was done its handle
    /// has the sequencer that the call carried (Burrows 2006, section 2.4).
    ///
    /// A refusal as OldEpoch that tells a client in its session of a later epoch than its own, and is of no earlier epoch
    /// itself, is how it learns of another master (Burrows 2006, section 2.9). It takes that epoch, empties its cache, has processed no invalidation and no
    /// event of it, and gives its outstanding call up as Unknown: that may have been done or not. It stays enabled under
    /// its lease, and its handles stay.
    ///
    /// A refusal as NoSession, unless it is of an earlier epoch, ends the session. Every other message changes nothing but
    /// what the noting of the time does: a repeated one, one of another epoch, another refusal, any message once the
    /// session is lost, and one for another client, which can't come where messages are delivered to those that they name.
    ///
    /// Err for want of memory, and as Exhausted for a moment of 2^53 or more and for a handle after the last handle
    /// number, 2^63-1: nothing is noted then.
    #[tactic(auto, unfolding(crate::specs::Gives::give_step))]
    pub fn give(&mut self, now: u64, out: &Out) -> Result<Given, Fault>
        ensures { Does self.old self.new result (give_step self.old now out.now) }
    {
        let moment = moment_by(self.clock, now)?;
        self.take(moment, out)
    }

    /// The outstanding call's message, as it was sent, to be sent again; None where no call is outstanding.
    pub fn again(&self) -> Option<&Request>
        ensures { option_copied result ≡ option_map (λ call. call.request) self.now.outstanding }
    {
        match &self.outstanding {
            Some(call) => Some(&call.request),
            None => None,
        }
    }

    // Asks for a session under the next number.
    fn start(&mut self, moment: u64) -> Result<Beaten, Fault>
        requires { IsMoment moment }
        ensures { Does self.old self.new result (sends self.old moment (start_message self.old)) }
    {
        let Some(number) = MessageNumber::new(self.beats + 1) else {
            return Err(Fault::Exhausted);
        };
        let client = self.number;
        let principal = self.principal.clone()?;
        self.count_beat(
            moment,
            Request::Start(Start {
                client,
                number,
                principal,
            }),
        )
    }

    // Asks under the next number for the session to be kept.
    fn prolong(&mut self, moment: u64) -> Result<Beaten, Fault>
        requires { IsMoment moment }
        ensures { Does self.old self.new result (sends self.old moment (beat_message self.old)) }
    {
        let Some(number) = MessageNumber::new(self.beats + 1) else {
            return Err(Fault::Exhausted);
        };
        let client = self.number;
        let epoch = self.epoch;
        let invalidations = self.processed;
        let events = self.heard;
        self.count_beat(
            moment,
            Request::Beat(Beat {
                client,
                epoch,
                number,
                invalidations,
                events,
            }),
        )
    }

    // Notes the time; this Start or Beat is sent at that moment, and is the newest from here on.
    fn count_beat(&mut self, moment: u64, request: Request) -> Result<Beaten, Fault>
        requires moment { IsMoment moment }
        requires number { self.old.beats + 1 < 2 ^ 63 }
        ensures { Does self.old self.new result (sends self.old moment request) }
    {
        let Ok(lines) = self.note_lines(moment) else {
            drop(request);
            return Err(Fault::NoMemory);
        };
        self.note(moment);
        self.sent = moment;
        self.beats += 1;
        Ok(Beaten {
            lines,
            request: Some(request),
        })
    }

    // Does what the message asks for, at a moment.
    fn take(&mut self, moment: u64, out: &Out) -> Result<Given, Fault>
        requires { IsMoment moment }
        ensures { Does self.old self.new result (taken_own self.old moment out.now) }
    {
        if out.client() != self.number {
            return Ok(self.pass_over(moment, None)?);
        }
        match out {
            Out::Started(started) => self.take_started(moment, started),
            Out::Alive(alive) => self.take_alive(moment, alive),
            Out::Reply(reply) => self.take_reply(moment, reply),
            Out::Refused(refused) => Ok(self.take_refused(moment, refused)?),
        }
    }

    // Notes the time, and does nothing else: with a message that changes nothing, or that is refused.
    pub(crate) fn pass_over(
        &mut self,
        moment: u64,
        refused: Option<Fault>,
    ) -> Result<Given, AllocError>
        requires { IsMoment moment }
        ensures told { IfOk result (λ given. given ≡ told self.old moment [] refused) }
        ensures ok { OnOk result (self.new ≡ note self.old moment) }
        ensures err { OnErr result (self.new ≡ self.old) }
    {
        let lines = self.note_lines(moment)?;
        self.note(moment);
        Ok(Given { lines, refused })
    }
}
