//! A client behind its keeper, and a viewer of its cache.
ghost use Rattle.std.specs.Prelude.{◌≡◌, IfOk};
ghost use Rattle.cache_core.specs.Caches.{new_cache};

use crate::hoard::Hoard;
use crate::stops::Stop;
use crate::texts::write_lines;
use client_core::{AskOutcome, Beaten, Client, Given, Outcome};
use collections::Items;
use lease_core::Clock;
use names_cell::{Name, Principal};
use node_core::{Fault, Line};
use share_cell::{Hit, Keeper, LateAnswer, Viewer};
use std::alloc::{AllocError, Global};
use std::sync::Wait;
use tags_cell::{ClientNumber, Out, Request};
use world_steps::mail::{out_at, request_at};
use world_steps::{Message, Step};

/// A client, a viewer of its cache that looks at one name, and the messages that were sent, numbered from 1. All clocks stand at 0.
/// It has to be closed.
pub(crate) struct Seat {
    alloc: Global,
    keeper: Keeper,
    viewers: Vec<Viewer>,
    name: Name,
    sent: Vec<Message>,
    // What the viewer saw last.
    seen: String,
    /// So many refusals left the keeper late.
    pub late: u64,
}

struct Still;

impl Clock for Still {
    ghost use Rattle.std.specs.Prelude.{◌≡◌};

    ghost is_reading = { λ _ moment. moment ≡ 0 };

    fn now(&self) -> u64 {
        0
    }
}

// The client 1, which acts for `ann`.
fn new_client(alloc: Global) -> Result<Client, Stop>
    ensures { IfOk result (λ c. c.cache ≡ new_cache) }
{
    let number = ClientNumber::new(1).ok_or(Fault::Exhausted)?;
    let principal = Principal::parse(alloc, "ann").map_err(|_| Fault::NoMemory)?;
    Ok(Client::new(alloc, number, principal))
}

// The keeper of a new client, and a viewer.
fn new_keeper<W: Wait>(rt: &W, alloc: Global) -> Result<(Keeper, Vec<Viewer>), Stop> {
    let client = new_client(alloc)?;
    match Keeper::new(rt, alloc, client, 1) {
        Ok(kept) => Ok(kept),
        Err(client) => {
            drop(client);
            Err(Stop::Refused(Fault::NoMemory))
        }
    }
}

fn resumed(told: Result<Option<LateAnswer>, AllocError>) -> Result<LateAnswer, Fault> {
    match told {
        Ok(Some(kept)) => Ok(kept),
        Ok(None) => Err(Fault::Unknown),
        Err(AllocError) => Err(Fault::NoMemory),
    }
}

// The lines of a call, and the message for the master.
fn parts(kept: LateAnswer) -> (Items<Line>, Option<Request>) {
    match kept {
        LateAnswer::Beaten(Beaten { lines, request }) => (lines, request),
        LateAnswer::Asked(AskOutcome { lines, outcome }) => (lines, request_in(outcome)),
        LateAnswer::Given(Given { lines, refused: _ }) => (lines, None),
    }
}

fn request_in(outcome: Outcome) -> Option<Request> {
    match outcome {
        Outcome::Sent(request) => Some(request),
        outcome => {
            drop(outcome);
            None
        }
    }
}

fn text_of_hit(alloc: Global, hit: &Hit) -> Result<String, AllocError> {
    match hit {
        Hit::View(shared) => {
            let view = shared.get();
            format!(in alloc; "view {view}")
        }
        Hit::Absent => String::from_str(alloc, "absent"),
        Hit::Miss => String::from_str(alloc, "miss"),
        Hit::Gone => String::from_str(alloc, "gone"),
    }
}

impl Seat {
    pub(crate) fn new<W: Wait>(rt: &W, alloc: Global) -> Result<Seat, Stop> {
        let name = Name::parse(alloc, "/ls/c/f").map_err(|_| Fault::NoMemory)?;
        let (keeper, viewers) = new_keeper(rt, alloc)?;
        Ok(Seat {
            alloc,
            keeper,
            viewers,
            name,
            sent: Vec::new(alloc),
            seen: String::new(alloc),
            late: 0,
        })
    }

    /// Lets the client go, and gives the messages back.
    pub(crate) fn close<W: Wait>(self, rt: &W) -> Vec<Message> {
        let Seat {
            alloc: _,
            keeper,
            viewers: _,
            name: _,
            sent,
            seen: _,
            late: _,
        } = self;
        drop(keeper.close(rt));
        sent
    }

    // Does a step of the client's; where the keeper is late, ends the one that was begun.
    fn keep<W: Wait>(&mut self, rt: &W, step: &Step) -> Result<LateAnswer, Fault> {
        if self.keeper.late() {
            return resumed(self.keeper.resume(rt));
        }
        match step {
            Step::Beat(_) => Ok(LateAnswer::Beaten(self.keeper.beat(rt, 0)?)),
            Step::Ask(_, asked) => Ok(LateAnswer::Asked(self.keeper.ask(rt, 0, asked)?)),
            Step::Give(number) => match out_at(self.sent.as_slice(), *number) {
                Some(out) => Ok(LateAnswer::Given(self.keeper.give(rt, 0, out)?)),
                None => Err(Fault::NoSuchMessage),
            },
            _ => Err(Fault::Unknown),
        }
    }

    /// Tries a step of the client's, with so much memory as is left in this turn. Done, it sends its message, and writes its lines and
    /// what the viewer sees then. Refused, the viewer sees what it saw before, also where the keeper is late. Whether it was done.
    pub(crate) fn plays<W: Wait>(
        &mut self,
        rt: &W,
        hoard: &mut Hoard,
        turn: u64,
        step: &Step,
        text: &mut String,
    ) -> Result<bool, Stop> {
        hoard.leave(turn);
        let told = self.keep(rt, step);
        hoard.relax();
        match told {
            Ok(kept) => {
                self.tell(kept, text)?;
                self.write_seen(hoard, text)?;
                Ok(true)
            }
            Err(Fault::NoMemory) => {
                self.see_the_same(hoard)?;
                Ok(false)
            }
            Err(fault) => Err(Stop::Refused(fault)),
        }
    }

    fn see_the_same(&mut self, hoard: &mut Hoard) -> Result<(), Stop> {
        if self.keeper.late() {
            self.late = self.late.saturating_add(1);
        }
        let seen = self.look(hoard)?;
        if seen.as_str() == self.seen.as_str() {
            Ok(())
        } else {
            Err(Stop::Apart("a refused call changed what is seen"))
        }
    }

    /// The message that may be sent again while the keeper is late.
    pub(crate) fn lent_late(&self) -> Result<Option<Request>, AllocError> {
        if !self.keeper.late() {
            return Ok(None);
        }
        let Some(client) = self.keeper.client() else {
            return Ok(None);
        };
        match client.again() {
            Some(request) => Ok(Some(request.clone()?)),
            None => Ok(None),
        }
    }

    /// Whether the viewer sees anything of the name.
    pub(crate) fn sees_something(&mut self, hoard: &mut Hoard) -> Result<bool, Stop> {
        Ok(self.look(hoard)?.as_str() != "miss")
    }

    // What the viewer sees now. It takes no memory.
    fn look(&mut self, hoard: &mut Hoard) -> Result<String, Stop> {
        let Some(viewer) = self.viewers.first_mut() else {
            return Err(Stop::Apart("there is no viewer"));
        };
        hoard.leave(0);
        let told = viewer.hit(&self.name, &Still);
        hoard.relax();
        let Ok(hit) = told else {
            return Err(Stop::Apart("a hit wants memory"));
        };
        Ok(text_of_hit(self.alloc, &hit)?)
    }

    /// Writes what the viewer sees, where that is another thing than before.
    pub(crate) fn write_seen(&mut self, hoard: &mut Hoard, text: &mut String) -> Result<(), Stop> {
        let seen = self.look(hoard)?;
        if seen.as_str() != self.seen.as_str() {
            write!(text, "sees {seen}\n")?;
            self.seen = seen;
        }
        Ok(())
    }

    fn tell(&mut self, kept: LateAnswer, text: &mut String) -> Result<(), Stop> {
        let (lines, request) = parts(kept);
        let sent = self.send(request);
        let written = write_lines(text, &lines);
        drop(lines);
        sent?;
        Ok(written?)
    }

    fn send(&mut self, request: Option<Request>) -> Result<(), Stop> {
        match request {
            Some(request) => Ok(self.sent.push(Message::ToMaster(request))?),
            None => Ok(()),
        }
    }

    /// Sends the messages of the master's.
    pub(crate) fn post(&mut self, outs: &Items<Out>) -> Result<(), Stop> {
        for out in outs.as_slice() {
            let out = out.clone()?;
            self.sent.push(Message::ToClient(out))?;
        }
        Ok(())
    }

    /// The message for the master that has this number.
    pub(crate) fn request(&self, number: u64) -> Result<Request, Fault> {
        match request_at(self.sent.as_slice(), number) {
            Some(request) => Ok(request.clone()?),
            None => Err(Fault::NoSuchMessage),
        }
    }
}
