//! A client that is held.
ghost use Rattle.std.specs.Prelude.{◌≡◌};
ghost use Rattle.client_core.specs.declared.parts.asks.Ask.TheVariants as asks;
ghost use Rattle.client_core.specs.declared.parts.asks.NodeCall.TheVariants as node_calls;
ghost use Rattle.client_core.specs.State.{new_client};
ghost use Rattle.client_exports.specs.States.{new_held};
ghost use Rattle.client_exports.specs.Steps.{sent_by, served_status, ask_status, beat_status, give_status, ask_held, beat_held, give_held, ask_bytes, give_bytes, ask_wanted, Makes, Stays};

use crate::asks::request_ask;
use crate::orderly::Orderly;
use crate::statuses::Status;
use client_core::{Ask, NodeCall, Outcome};
use codec::{read_out, read_request};
use collections::Items;
use names_cell::Principal;
use node_core::{Answer, Fault, Line};
use std::alloc::Global;
use std::marker::Model;
use std::mem;
use tags_cell::{ClientNumber, Out, Request};

/// A client, with what came of its last step: the message that is to be sent, and the lines. To a contract, the record of these.
///
/// Each step is the client's own (Burrows 2006, section 2.7), and ends with a `Status`. Where that is Failed, Bad or NoCall,
/// nothing has changed. Moments are milliseconds by the client's clock.
#[derive(Drop)]
pub struct HeldClient {
    pub(crate) alloc: Global,
    pub(crate) client: Orderly,
    pub(crate) request: Option<Request>,
    pub(crate) lines: Items<Line>,
}

impl Model for HeldClient {
    ghost use Rattle.client_exports.specs.States.{HeldState};

    ghost Value = { HeldState };

    ghost view = { λ h. record { client = h.client; request = h.request; lines = h.lines } };
}

impl HeldClient {
    /// Holds a client of this number for this principal, which made no step yet. Takes no memory.
    pub fn new(alloc: Global, number: ClientNumber, principal: Principal) -> HeldClient
        ensures { result ≡ new_held (new_client number principal) }
    {
        HeldClient {
            alloc,
            client: Orderly::new(alloc, number, principal),
            request: None,
            lines: Items::new(alloc),
        }
    }

    /// Asks for what keeps the session: Send, a Start or a Beat; Done where there is none to keep.
    pub fn beat(&mut self, now: u64) -> Status
        ensures step { Makes self.old self.new result (beat_held self.old now) }
        ensures kept { Stays self.old self.new result }
    {
        match self.client.beat(now) {
            Ok(beaten) => {
                let status = beat_status(&beaten.request);
                self.keep(beaten.lines, beaten.request);
                status
            }
            Err(fault) => Status::Failed(fault),
        }
    }

    /// Asks for the call of these bytes: those of a Call's message, in which a handle is the client's own number for it, in eight
    /// bytes. The client puts its own number, its epoch and the call's number, and the sequencer of the handle; a SetSequencer's
    /// stands in the message.
    pub fn ask_bytes(&mut self, now: u64, bytes: &[u8]) -> Status
        ensures step { Makes self.old self.new result (ask_bytes self.old now bytes.now) }
        ensures kept { Stays self.old self.new result }
    {
        match read_request(self.alloc, bytes) {
            Ok(request) => self.ask_wanted(now, request_ask(request)),
            Err(fault) => Status::Bad(fault),
        }
    }

    /// Asks for the content and the numbers of the node of this handle. Served, the last of the lines shows them.
    pub fn read(&mut self, now: u64, handle: u64) -> Status
        ensures step { Makes self.old self.new result (ask_held self.old now (asks.Node handle node_calls.Read)) }
        ensures kept { Stays self.old self.new result }
    {
        self.ask(now, &Ask::Node(handle, NodeCall::Read))
    }

    /// Poisons this handle (Burrows 2006, section 2.6).
    pub fn poison(&mut self, now: u64, handle: u64) -> Status
        ensures step { Makes self.old self.new result (ask_held self.old now (asks.Poison handle)) }
        ensures kept { Stays self.old self.new result }
    {
        self.ask(now, &Ask::Poison(handle))
    }

    /// Gives the client the master's message of these bytes.
    pub fn give_bytes(&mut self, now: u64, bytes: &[u8]) -> Status
        ensures step { Makes self.old self.new result (give_bytes self.old now bytes.now) }
        ensures kept { Stays self.old self.new result }
    {
        match read_out(self.alloc, bytes) {
            Ok(out) => {
                let status = self.give(now, &out);
                drop(out);
                status
            }
            Err(fault) => Status::Bad(fault),
        }
    }

    fn ask_wanted(&mut self, now: u64, ask: Option<Ask>) -> Status
        ensures step { Makes self.old self.new result (ask_wanted self.old now ask) }
        ensures kept { Stays self.old self.new result }
    {
        match ask {
            Some(ask) => {
                let status = self.ask(now, &ask);
                drop(ask);
                status
            }
            None => Status::NoCall,
        }
    }

    pub(crate) fn ask(&mut self, now: u64, ask: &Ask) -> Status
        ensures step { Makes self.old self.new result (ask_held self.old now ask.now) }
        ensures kept { Stays self.old self.new result }
    {
        match self.client.ask(now, ask) {
            Ok(asked) => {
                let status = ask_status(&asked.outcome);
                self.keep(asked.lines, sent_by(asked.outcome));
                status
            }
            Err(fault) => Status::Failed(fault),
        }
    }

    fn give(&mut self, now: u64, out: &Out) -> Status
        ensures step { Makes self.old self.new result (give_held self.old now out.now) }
        ensures kept { Stays self.old self.new result }
    {
        match self.client.give(now, out) {
            Ok(given) => {
                self.keep(given.lines, None);
                give_status(given.refused)
            }
            Err(fault) => Status::Failed(fault),
        }
    }

    // Keeps what came of a step, in the place of what came of the one before.
    fn keep(&mut self, lines: Items<Line>, request: Option<Request>)
        ensures { self.new ≡ record self.old { request = request; lines = lines } }
    {
        drop(mem::replace(&mut self.lines, lines));
        drop(mem::replace(&mut self.request, request));
    }
}

fn sent_by(outcome: Outcome) -> Option<Request>
    ensures { result ≡ sent_by outcome }
{
    match outcome {
        Outcome::Sent(request) => Some(request),
        Outcome::Served(_) | Outcome::Answered | Outcome::Refused(_) => None,
    }
}

fn ask_status(outcome: &Outcome) -> Status
    ensures { result ≡ ask_status outcome.now }
{
    match outcome {
        Outcome::Sent(_) => Status::Send,
        Outcome::Served(answer) => served_status(answer),
        Outcome::Answered => Status::Done,
        Outcome::Refused(fault) => Status::Refused(*fault),
    }
}

fn served_status(answer: &Answer) -> Status
    ensures { result ≡ served_status answer.now }
{
    match answer {
        Answer::Refused(fault) => Status::Refused(*fault),
        _ => Status::Served,
    }
}

fn beat_status(request: &Option<Request>) -> Status
    ensures { result ≡ beat_status request.now }
{
    match request {
        Some(_) => Status::Send,
        None => Status::Done,
    }
}

fn give_status(refused: Option<Fault>) -> Status
    ensures { result ≡ give_status refused }
{
    match refused {
        Some(fault) => Status::Refused(fault),
        None => Status::Done,
    }
}
