//! A master with its clients and all that they sent, to which messages of anybody may be handed.
use crate::clients::show_client;
use crate::frames::terms;
use crate::masters::show_master;
use crate::sheets::Sheet;
use crate::stops::Stop;
use crate::tables::Part;
use client_core::{Ask, AskOutcome, Beaten, Client, Given, Outcome};
use collections::Items;
use names_cell::Name;
use node_core::{Fault, Line};
use over_core::{Cell, Swept};
use rows_cell::{ListRecords, Settings};
use scripts::{Parsed, read_step};
use std::alloc::Global;
use tags_cell::{Out, Refused, Request};
use world_steps::{Message, Step};

// More than the sweeps and the messages of any settling.
const TURN_END: u64 = 1_000;

/// A master and its clients.
pub(crate) struct Cast {
    pub(crate) alloc: Global,
    pub(crate) cell: Cell<ListRecords>,
    pub(crate) clients: Vec<Client>,
    // The master's clock, and that of all clients.
    now: u64,
    own: u64,
}

/// The same, and the messages that were sent, of which the first so many were delivered. It ends by `down`.
pub(crate) struct Stage {
    pub(crate) cast: Cast,
    pub(crate) sent: Vec<Message>,
    pub(crate) delivered: usize,
}

/// What comes of a message.
#[derive(Drop)]
pub(crate) struct Told {
    pub(crate) lines: Items<Line>,
    pub(crate) outs: Items<Out>,
    /// Why its client refuses it.
    pub(crate) refused: Option<Fault>,
}

// Whether a refusal is among these.
fn is_printed(lines: &[Line]) -> bool {
    for line in lines {
        if let Line::Refused(_) = line {
            return true;
        }
    }
    false
}

fn is_sent(outs: &[Out]) -> bool {
    for out in outs {
        if let Out::Refused(_) = out {
            return true;
        }
    }
    false
}

impl Told {
    pub(crate) fn is_refused(&self) -> bool {
        is_printed(self.lines.as_slice()) || is_sent(self.outs.as_slice()) || self.refused.is_some()
    }
}

// The next master over these records comes up.
fn up(alloc: Global, records: ListRecords) -> Result<Cell<ListRecords>, Stop> {
    match Cell::up(alloc, records, terms(), 0) {
        Ok(cell) => Ok(cell),
        Err((fault, _)) => Err(Stop::Refused(fault)),
    }
}

// A new cell, whose first master is up.
fn new_stage(alloc: Global) -> Result<Stage, Stop> {
    let settings = Settings::standard(alloc)?;
    let records = ListRecords::new(alloc, &settings)?;
    let cell = up(alloc, records)?;
    Ok(Stage {
        cast: Cast {
            alloc,
            cell,
            clients: Vec::new(alloc),
            now: 0,
            own: 0,
        },
        sent: Vec::new(alloc),
        delivered: 0,
    })
}

// The master goes down, and the next one comes up.
fn next_master(stage: Stage) -> Result<Stage, Stop> {
    let Stage {
        cast: Cast {
            alloc,
            cell,
            clients,
            now: _,
            own,
        },
        sent,
        delivered,
    } = stage;
    let cell = up(alloc, cell.down())?;
    Ok(Stage {
        cast: Cast {
            alloc,
            cell,
            clients,
            now: 0,
            own,
        },
        sent,
        delivered,
    })
}

// The client of a number, where one has joined.
fn client_of(clients: &mut Vec<Client>, number: u64) -> Option<&mut Client> {
    let place = usize::try_from(number).ok()?.checked_sub(1)?;
    clients.get_mut(place)
}

// What becomes of a message to a client; nothing where none has joined under the number.
fn give(
    alloc: Global,
    clients: &mut Vec<Client>,
    number: u64,
    own: u64,
    out: &Out,
) -> Result<Given, Fault> {
    match client_of(clients, number) {
        Some(client) => client.give(own, out),
        None => Ok(Given {
            lines: Items::new(alloc),
            refused: None,
        }),
    }
}

impl Cast {
    /// Takes or gives a message of anybody. What the master sends isn't sent on yet.
    pub(crate) fn hand(&mut self, message: &Message) -> Result<Told, Fault> {
        let (alloc, own) = (self.alloc, self.own);
        match message {
            Message::ToMaster(request) => {
                let taken = self.cell.take(self.now, request)?;
                Ok(Told {
                    lines: taken.lines,
                    outs: taken.outs,
                    refused: None,
                })
            }
            Message::ToClient(out) => {
                let given = give(alloc, &mut self.clients, out.client().get(), own, out)?;
                Ok(Told {
                    lines: given.lines,
                    outs: Items::new(alloc),
                    refused: given.refused,
                })
            }
        }
    }

    /// What the clocks of all clients show.
    pub(crate) fn own(&self) -> u64 {
        self.own
    }

    /// All clocks show this.
    pub(crate) fn set_clocks(&mut self, moment: u64) {
        self.now = moment;
        self.own = moment;
    }

    /// What comes of a sweep. It isn't sent on yet.
    pub(crate) fn swept(&mut self) -> Result<Told, Fault> {
        let Swept { lines, outs, .. } = self.cell.sweep(self.now)?;
        Ok(Told {
            lines,
            outs,
            refused: None,
        })
    }

    /// A client is given a message that is for none here: it notes the time, and does nothing else.
    pub(crate) fn note(&mut self, number: u64, elsewhere: Refused) -> Result<(), Fault> {
        let (alloc, own) = (self.alloc, self.own);
        let out = Out::Refused(elsewhere);
        let given = give(alloc, &mut self.clients, number, own, &out);
        drop(out);
        drop(given?);
        Ok(())
    }

    /// Writes all of the master and of its clients. The names are all that they may know.
    pub(crate) fn show(&self, sheet: &mut Sheet, names: &[Name]) {
        sheet.clear();
        show_master(sheet, self.cell.master(), names);
        let mut number = 1u64;
        for client in &self.clients {
            show_client(sheet, number, client, names);
            number = number.saturating_add(1);
        }
    }
}

impl Stage {
    /// The master is gone, and all but its records with it.
    pub(crate) fn down(self) -> ListRecords {
        let Stage {
            cast: Cast {
                alloc: _,
                cell,
                clients,
                now: _,
                own: _,
            },
            sent,
            delivered: _,
        } = self;
        drop(sent);
        drop(clients);
        cell.down()
    }

    pub(crate) fn send_all(&mut self, outs: Items<Out>) -> Result<(), Stop> {
        for out in outs.into_vec() {
            self.sent.push(Message::ToClient(out))?;
        }
        Ok(())
    }

    fn send(&mut self, request: Option<Request>) -> Result<(), Stop> {
        if let Some(request) = request {
            self.sent.push(Message::ToMaster(request))?;
        }
        Ok(())
    }

    fn ask(&mut self, number: u64, ask: &Ask) -> Result<(), Stop> {
        let own = self.cast.own;
        let Some(client) = client_of(&mut self.cast.clients, number) else {
            return Err(Stop::Bad("no such client"));
        };
        let AskOutcome { lines, outcome } = client.ask(own, ask)?;
        drop(lines);
        match outcome {
            Outcome::Sent(request) => self.send(Some(request)),
            other => {
                drop(other);
                Ok(())
            }
        }
    }

    fn beat(&mut self, number: u64) -> Result<(), Stop> {
        let own = self.cast.own;
        let Some(client) = client_of(&mut self.cast.clients, number) else {
            return Err(Stop::Bad("no such client"));
        };
        let Beaten { lines, request } = client.beat(own)?;
        drop(lines);
        self.send(request)
    }

    // Whether there was something to do.
    fn sweep(&mut self) -> Result<bool, Stop> {
        let Swept { lines, outs, quiet } = self.cast.cell.sweep(self.cast.now)?;
        drop(lines);
        self.send_all(outs)?;
        Ok(!quiet)
    }

    // Delivers the next message, where there is one.
    fn deliver_next(&mut self) -> Result<bool, Stop> {
        let Some(message) = self.sent.get(self.delivered) else {
            return Ok(false);
        };
        let Told { lines, outs, .. } = self.cast.hand(message)?;
        drop(lines);
        self.delivered = self.delivered.saturating_add(1);
        self.send_all(outs)?;
        Ok(true)
    }

    /// Delivers and sweeps until nothing is left to do.
    pub(crate) fn settle(&mut self) -> Result<(), Stop> {
        for _ in 0..TURN_END {
            if !self.deliver_next()? && !self.sweep()? {
                return Ok(());
            }
        }
        Err(Stop::Bad("it doesn't settle"))
    }

    fn step(&mut self, step: Step) -> Result<(), Stop> {
        match step {
            Step::Join(number, principal) => {
                let client = Client::new(self.cast.alloc, number, principal);
                self.cast.clients.push(client)?;
                Ok(())
            }
            Step::Ask(number, ask) => {
                let asked = self.ask(number, &ask);
                drop(ask);
                asked
            }
            Step::Beat(number) => self.beat(number),
            Step::Tick(ticks) => {
                self.cast.now = self.cast.now.saturating_add(ticks.master);
                self.cast.own = self.cast.own.saturating_add(ticks.clients);
                Ok(())
            }
            Step::Sweep => {
                self.sweep()?;
                Ok(())
            }
            _ => Err(Stop::Bad("another step")),
        }
    }

    // A line of a script, of those that need nothing else than a master that is up.
    fn line(&mut self, line: &str) -> Result<(), Stop> {
        match read_step(self.cast.alloc, line)? {
            Parsed::Step(step) => self.step(step),
            Parsed::Settle => self.settle(),
            Parsed::Nothing => Ok(()),
            Parsed::Refused(_) | Parsed::Bad => Err(Stop::Bad("a bad step")),
        }
    }

    /// The steps of a script, each behind a semicolon.
    pub(crate) fn run(&mut self, script: &str) -> Result<(), Stop> {
        for line in script.split("; ") {
            self.line(line)?;
        }
        Ok(())
    }

    // What is done before, under a name.
    fn begin(&mut self, before: &[Part<'_, '_>], name: &str) -> Result<(), Stop> {
        for part in before {
            if part.name == name {
                for script in &part.values(self.cast.alloc, "do")? {
                    self.run(script)?;
                }
                return Ok(());
            }
        }
        Err(Stop::Bad("no such beginning"))
    }
}

/// A stage behind what is done before, under these names, each with a master of its own.
pub(crate) fn stage_behind(
    alloc: Global,
    before: &[Part<'_, '_>],
    names: &str,
) -> Result<Stage, Stop> {
    let mut stage = new_stage(alloc)?;
    for (place, name) in names.split(' ').enumerate() {
        if place > 0 {
            stage = next_master(stage)?;
        }
        if let Err(stop) = stage.begin(before, name) {
            drop(stage.down());
            return Err(stop);
        }
    }
    Ok(stage)
}

/// All names of which the tests speak.
pub(crate) fn all_names(alloc: Global) -> Result<Vec<Name>, Stop> {
    let mut names = Vec::new(alloc);
    for text in NAMES {
        names.push(Name::parse(alloc, text)?)?;
    }
    Ok(names)
}

const NAMES: &[&str] = &[
    "/ls/c",
    "/ls/c/acl",
    "/ls/c/acl/base",
    "/ls/c/d",
    "/ls/c/d/x",
    "/ls/c/f",
    "/ls/c/g",
];
