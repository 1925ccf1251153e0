//! A master, and keepers in the place of its clients: what they print by the steps of a script.
ghost use Rattle.std.specs.Prelude.{◌≡◌, None, IfOk, OnOk};
ghost use Rattle.cache_core.specs.Caches.{new_cache};

use client_core::{Ask, AskOutcome, Beaten, Client, Given, Outcome};
use collections::Items;
use names_cell::Principal;
use node_core::{Fault, Line};
use over_core::{Cell, Swept, Taken};
use rows_cell::{ListRecords, Settings};
use scripts::{Parsed, read_step};
use share_cell::{Keeper, Viewer};
use std::alloc::Global;
use std::collections::VecDeque;
use std::sync::Wait;
use tags_cell::{ClientNumber, Out, Request};
use threads::new_cell;
use world_steps::{Step, Ticks};

// A message on its way.
#[derive(Drop)]
enum Letter {
    In(Request),
    Out(Out),
}

/// A master with its clock, those of its clients, the messages that weren't delivered, and what was printed.
#[derive(Drop)]
pub(crate) struct Stage {
    alloc: Global,
    cell: Cell<ListRecords>,
    moment: u64,
    clock: u64,
    mail: VecDeque<Letter>,
    printed: String,
}

/// The keepers of the clients 1 and 2, with the viewers of each.
pub(crate) struct Seats {
    pub one: Keeper,
    pub two: Keeper,
    pub of_one: Vec<Viewer>,
    pub of_two: Vec<Viewer>,
}

fn client(alloc: Global, number: u64, principal: &str) -> Result<Client, Fault>
    ensures { IfOk result (λ c. c.cache ≡ new_cache) }
{
    let number = ClientNumber::new(number).ok_or(Fault::Exhausted)?;
    let principal = Principal::parse(alloc, principal)?;
    Ok(Client::new(alloc, number, principal))
}

fn keeper<W: Wait>(
    rt: &W,
    alloc: Global,
    number: u64,
    principal: &str,
) -> Result<(Keeper, Vec<Viewer>), Fault> {
    let client = client(alloc, number, principal)?;
    Keeper::new(rt, alloc, client, 2).map_err(|_| Fault::NoMemory)
}

impl Seats {
    /// Both act for principals of the ACL `base`.
    pub(crate) fn new<W: Wait>(rt: &W, alloc: Global) -> Result<Seats, Fault> {
        let (one, of_one) = keeper(rt, alloc, 1, "ann")?;
        match keeper(rt, alloc, 2, "bob") {
            Ok((two, of_two)) => Ok(Seats {
                one,
                two,
                of_one,
                of_two,
            }),
            Err(fault) => {
                drop(of_one);
                drop(one.close(rt));
                Err(fault)
            }
        }
    }

    pub(crate) fn close<W: Wait>(self, rt: &W) {
        let Seats {
            one,
            two,
            of_one: _,
            of_two: _,
        } = self;
        drop(one.close(rt));
        drop(two.close(rt));
    }

    /// The keeper of a client.
    pub(crate) fn of(&mut self, client: u64) -> &mut Keeper {
        if client == 1 {
            &mut self.one
        } else {
            &mut self.two
        }
    }

    /// The keeper of a client and its first viewer.
    pub(crate) fn with_viewer(&mut self, client: u64) -> Option<(&mut Keeper, &mut Viewer)> {
        if client == 1 {
            Some((&mut self.one, self.of_one.first_mut()?))
        } else {
            Some((&mut self.two, self.of_two.first_mut()?))
        }
    }
}

fn on_time(keeper: &Keeper) -> Result<(), Fault>
    ensures { OnOk result (keeper.now.late ≡ None) }
{
    if keeper.late() {
        return Err(Fault::NoMemory);
    }
    Ok(())
}

impl Stage {
    /// A first master over new rows, at the moment 0.
    pub(crate) fn new(alloc: Global) -> Result<Stage, Fault> {
        let settings = Settings::standard(alloc).map_err(|_| Fault::NoMemory)?;
        Ok(Stage {
            alloc,
            cell: new_cell(alloc, &settings)?,
            moment: 0,
            clock: 0,
            mail: VecDeque::new(alloc),
            printed: String::new(alloc),
        })
    }

    /// What was printed, `; ` between.
    pub(crate) fn printed(&self) -> &str {
        self.printed.as_str()
    }

    /// What the clocks of the clients show.
    pub(crate) fn clock(&self) -> u64 {
        self.clock
    }

    /// Does the steps of a script, `; ` between.
    pub(crate) fn go<W: Wait>(
        &mut self,
        rt: &W,
        seats: &mut Seats,
        steps: &str,
    ) -> Result<(), Fault> {
        for step in steps.split("; ") {
            let parsed = read_step(self.alloc, step)?;
            self.play(rt, seats, &parsed)?;
        }
        Ok(())
    }

    fn play<W: Wait>(&mut self, rt: &W, seats: &mut Seats, parsed: &Parsed) -> Result<(), Fault> {
        match parsed {
            Parsed::Settle => self.settle(rt, seats),
            Parsed::Step(Step::Ask(client, asked)) => self.ask(rt, seats.of(*client), asked),
            Parsed::Step(Step::Beat(client)) => self.beat(rt, seats.of(*client)),
            Parsed::Step(Step::Tick(ticks)) => self.tick(ticks),
            _ => Err(Fault::Unknown),
        }
    }

    // No client has a step of its own.
    fn tick(&mut self, ticks: &Ticks) -> Result<(), Fault> {
        self.moment = self.moment.saturating_add(ticks.master);
        self.clock = self.clock.saturating_add(ticks.clients);
        Ok(())
    }

    fn beat<W: Wait>(&mut self, rt: &W, keeper: &mut Keeper) -> Result<(), Fault> {
        on_time(keeper)?;
        let Beaten { lines, request } = keeper.beat(rt, self.clock)?;
        let printed = self.print_all(lines);
        let sent = match request {
            Some(request) => self.send(Letter::In(request)),
            None => Ok(()),
        };
        printed.and(sent)
    }

    fn ask<W: Wait>(&mut self, rt: &W, keeper: &mut Keeper, asked: &Ask) -> Result<(), Fault> {
        on_time(keeper)?;
        let AskOutcome { lines, outcome } = keeper.ask(rt, self.clock, asked)?;
        let printed = self.print_all(lines);
        printed.and(self.came(outcome))
    }

    fn came(&mut self, outcome: Outcome) -> Result<(), Fault> {
        match outcome {
            Outcome::Sent(request) => self.send(Letter::In(request)),
            Outcome::Refused(fault) => self.print(&Line::Refused(fault)),
            other => {
                drop(other);
                Ok(())
            }
        }
    }

    fn send(&mut self, letter: Letter) -> Result<(), Fault> {
        Ok(self.mail.push_back(letter)?)
    }

    // One message comes, then the master sweeps; until nothing is left to do.
    fn settle<W: Wait>(&mut self, rt: &W, seats: &mut Seats) -> Result<(), Fault> {
        for _ in 0..100 {
            if let Some(letter) = self.mail.pop_front() {
                self.deliver(rt, seats, letter)?;
            }
            if self.sweep()? && self.mail.is_empty() {
                return Ok(());
            }
        }
        Err(Fault::Unknown)
    }

    fn deliver<W: Wait>(&mut self, rt: &W, seats: &mut Seats, letter: Letter) -> Result<(), Fault> {
        match letter {
            Letter::In(request) => {
                let went = self.take(&request);
                drop(request);
                went
            }
            Letter::Out(out) => {
                let went = self.give(rt, seats.of(out.client().get()), &out);
                drop(out);
                went
            }
        }
    }

    fn take(&mut self, request: &Request) -> Result<(), Fault> {
        let Taken { lines, outs } = self.cell.take(self.moment, request)?;
        let printed = self.print_all(lines);
        printed.and(self.post(outs))
    }

    fn give<W: Wait>(&mut self, rt: &W, keeper: &mut Keeper, out: &Out) -> Result<(), Fault> {
        on_time(keeper)?;
        let Given { lines, .. } = keeper.give(rt, self.clock, out)?;
        self.print_all(lines)
    }

    // Whether there was nothing to do.
    fn sweep(&mut self) -> Result<bool, Fault> {
        let Swept { lines, outs, quiet } = self.cell.sweep(self.moment)?;
        let printed = self.print_all(lines);
        printed.and(self.post(outs))?;
        Ok(quiet)
    }

    fn post(&mut self, outs: Items<Out>) -> Result<(), Fault> {
        for out in outs.into_vec() {
            self.send(Letter::Out(out))?;
        }
        Ok(())
    }

    fn print_all(&mut self, lines: Items<Line>) -> Result<(), Fault> {
        let mut printed = Ok(());
        for line in lines.as_slice() {
            printed = printed.and(self.print(line));
        }
        drop(lines);
        printed
    }

    fn print(&mut self, line: &Line) -> Result<(), Fault> {
        if !self.printed.is_empty() {
            self.printed.push_str("; ")?;
        }
        Ok(write!(self.printed, "{line}")?)
    }
}
