//! What a client of a run does.
ghost use Rattle.std.specs.Prelude.{◌≡◌, None, IfOk};
ghost use Rattle.cache_core.specs.Caches.{new_cache};

use client_core::{Ask, AskOutcome, Client, Given, NodeCall, Outcome};
use collections::Bytes;
use names_cell::{Name, Principal};
use node_core::{Answer, Fault, Life, Line};
use share_cell::{Keeper, Viewer};
use std::alloc::Global;
use std::sync::Wait;
use tags_cell::{ClientNumber, Create, Disposition, Events, Mode, NewNode, Open, Out, Request};

/// The file that all clients open.
pub(crate) const FILE: &str = "/ls/c/live";

/// The handle that the first call of a client opens.
const HANDLE: u64 = 1;

/// A client whose cache one viewer reads, with the calls that it is still to make: one that opens the file, and one for each
/// round. It has to be closed.
pub(crate) struct Player {
    alloc: Global,
    keeper: Keeper,
    /// The round of the next call, 0 for the one that opens the file.
    round: u64,
    rounds: u64,
    has_finished: bool,
}

impl Player {
    /// A client by its number, and a viewer.
    pub(crate) fn new<W: Wait>(
        rt: &W,
        alloc: Global,
        number: u64,
        rounds: u64,
    ) -> Result<(Player, Vec<Viewer>), Fault> {
        let client = new_client(alloc, number)?;
        match Keeper::new(rt, alloc, client, 1) {
            Ok((keeper, viewers)) => Ok((
                Player {
                    alloc,
                    keeper,
                    round: 0,
                    rounds,
                    has_finished: false,
                },
                viewers,
            )),
            Err(client) => {
                drop(client);
                Err(Fault::NoMemory)
            }
        }
    }

    /// Its viewers see nothing from now on.
    pub(crate) fn close<W: Wait>(self, rt: &W) {
        let Player {
            alloc: _,
            keeper,
            round: _,
            rounds: _,
            has_finished: _,
        } = self;
        drop(keeper.close(rt));
    }

    /// The Start or the Beat that it sends now.
    pub(crate) fn beat<W: Wait>(&mut self, rt: &W) -> Result<Option<Request>, Fault> {
        if self.keeper.late() {
            return Err(Fault::NoMemory);
        }
        Ok(self.keeper.beat(rt, 0)?.request)
    }

    /// It is given what the master sent. After the answer to a Start or to a Beat there is a Beat to send.
    pub(crate) fn hear<W: Wait>(&mut self, rt: &W, out: &Out) -> Result<Option<Request>, Fault> {
        if self.keeper.late() {
            return Err(Fault::NoMemory);
        }
        accepted(&self.keeper.give(rt, 0, out)?)?;
        match out {
            Out::Started(_) | Out::Alive(_) => self.beat(rt),
            Out::Reply(_) => Ok(None),
            Out::Refused(refused) => Err(refused.fault),
        }
    }

    /// Asks for its next calls, up to one that has to be sent. None where one is outstanding, and after the last one.
    pub(crate) fn play<W: Wait>(&mut self, rt: &W) -> Result<Option<Request>, Fault> {
        if self.is_waiting()? {
            return Ok(None);
        }
        for _ in self.round..=self.rounds {
            if let Some(request) = self.ask(rt)? {
                return Ok(Some(request));
            }
        }
        Ok(None)
    }

    /// Whether its last call has ended, the first time that this is so.
    pub(crate) fn finishes(&mut self) -> bool {
        let Ok(waits) = self.is_waiting() else {
            return false;
        };
        if self.has_finished || self.round <= self.rounds || waits {
            return false;
        }
        self.has_finished = true;
        true
    }

    // Whether a call is outstanding. Nobody knows while the keeper is late, which ends the run.
    fn is_waiting(&self) -> Result<bool, Fault> {
        match self.keeper.client() {
            Some(client) => Ok(client.again().is_some()),
            None => Err(Fault::NoMemory),
        }
    }

    // The call of the next round; None where the client answers it.
    fn ask<W: Wait>(&mut self, rt: &W) -> Result<Option<Request>, Fault> {
        if self.keeper.late() {
            return Err(Fault::NoMemory);
        }
        let asked = call_of(self.alloc, self.round)?;
        self.round = self.round.saturating_add(1);
        let told = self.keeper.ask(rt, 0, &asked);
        drop(asked);
        sent(told)
    }
}

// The message of a call that has to be sent.
fn sent(told: Result<AskOutcome, Fault>) -> Result<Option<Request>, Fault> {
    let AskOutcome { lines, outcome } = told?;
    drop(lines);
    match outcome {
        Outcome::Sent(request) => Ok(Some(request)),
        Outcome::Refused(fault) => Err(fault),
        Outcome::Served(answer) => {
            drop(answer);
            Ok(None)
        }
        Outcome::Answered => Ok(None),
    }
}

fn new_client(alloc: Global, number: u64) -> Result<Client, Fault>
    ensures { IfOk result (λ c. c.cache ≡ new_cache) }
{
    let number = ClientNumber::new(number).ok_or(Fault::Exhausted)?;
    let principal = Principal::parse(alloc, "ann")?;
    Ok(Client::new(alloc, number, principal))
}

// A round sets the file to its number where that is a multiple of eight, and else reads it.
fn call_of(alloc: Global, round: u64) -> Result<Ask, Fault> {
    if round == 0 {
        return Ok(Ask::Open(opening(alloc)?));
    }
    if round % 8 == 0 {
        let content = Bytes::copy_of(alloc, &round.to_be_bytes())?;
        return Ok(Ask::Node(HANDLE, NodeCall::Set(content, None)));
    }
    Ok(Ask::Node(HANDLE, NodeCall::Read))
}

fn opening(alloc: Global) -> Result<Open, Fault> {
    let mode = Mode::new(true, true, false).ok_or(Fault::Exhausted)?;
    let create = Create {
        disposition: Disposition::May,
        node: NewNode::File(Bytes::copy_of(alloc, &[])?),
        life: Life::Permanent,
        acls: None,
    };
    Ok(Open {
        name: Name::parse(alloc, FILE)?,
        mode,
        create: Some(create),
        delay: 0,
        events: Events::none(),
    })
}

// Neither the message was refused nor the call that it answers.
fn accepted(given: &Given) -> Result<(), Fault> {
    if let Some(fault) = given.refused {
        return Err(fault);
    }
    for line in given.lines.as_slice() {
        if let Line::Done(_, _, Answer::Refused(fault)) = line {
            return Err(*fault);
        }
    }
    Ok(())
}
