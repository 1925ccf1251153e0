//! What messages are handed in with, and what is seen of it.
use crate::sheets::Sheet;
use crate::stages::{Stage, Told, all_names};
use crate::stops::Stop;
use names_cell::Name;
use node_core::Fault;
use std::alloc::{AllocError, Global};
use tags_cell::{ClientNumber, MessageNumber, Refused};
use world_steps::Message;

/// How many messages were handed in, how many of them were refused by the master and by clients, and whether each refusal
/// left all as it was.
#[derive(Clone, Copy)]
pub(crate) struct Tally {
    pub(crate) handed: u64,
    pub(crate) by_master: u64,
    pub(crate) by_clients: u64,
    pub(crate) is_well: bool,
}

/// How all was at the start of many messages, before the last one, and behind it.
#[derive(Drop)]
pub(crate) struct Bench {
    // The names that may be known.
    names: Vec<Name>,
    start: Sheet,
    before: Sheet,
    after: Sheet,
    // A message that is for no client here.
    elsewhere: Refused,
    pub(crate) tally: Tally,
}

// Hands a message in. Whether it is refused, and which part may differ then: with a refusal that is sent the master notes the
// moment; where it refuses the step itself, it doesn't.
fn is_refused(stage: &mut Stage, message: &Message) -> Result<(bool, &'static str), Stop> {
    let Ok(told) = stage.cast.hand(message) else {
        return Ok((true, ""));
    };
    let is_refused = told.is_refused();
    let Told { lines, outs, .. } = told;
    drop(lines);
    stage.send_all(outs)?;
    match message {
        Message::ToMaster(_) => Ok((is_refused, "; clock 0")),
        Message::ToClient(_) => Ok((is_refused, "")),
    }
}

impl Bench {
    pub(crate) fn new(alloc: Global) -> Result<Bench, Stop> {
        let (Some(client), Some(number)) = (ClientNumber::new(77), MessageNumber::new(1)) else {
            return Err(Stop::Bad("no such client"));
        };
        let elsewhere = Refused {
            client,
            epoch: 1,
            number,
            fault: Fault::Repeat,
        };
        let names = all_names(alloc)?;
        Ok(Bench {
            names,
            start: Sheet::new(alloc),
            before: Sheet::new(alloc),
            after: Sheet::new(alloc),
            elsewhere,
            tally: Tally {
                handed: 0,
                by_master: 0,
                by_clients: 0,
                is_well: true,
            },
        })
    }

    /// Many messages begin.
    pub(crate) fn begin(&mut self, stage: &Stage) {
        stage.cast.show(&mut self.start, self.names.as_slice());
    }

    /// What has changed since they began.
    pub(crate) fn changes_since(&mut self, stage: &Stage) -> Result<String, AllocError> {
        stage.cast.show(&mut self.after, self.names.as_slice());
        self.start.changes(&self.after)
    }

    /// One message begins.
    pub(crate) fn look(&mut self, stage: &Stage) {
        stage.cast.show(&mut self.before, self.names.as_slice());
    }

    /// What has changed by it.
    pub(crate) fn changes(&mut self, stage: &Stage) -> Result<String, AllocError> {
        stage.cast.show(&mut self.after, self.names.as_slice());
        self.before.changes(&self.after)
    }

    fn count(&mut self, message: &Message, is_well: bool) {
        let tally = &mut self.tally;
        tally.is_well &= is_well;
        match message {
            Message::ToMaster(_) => tally.by_master = tally.by_master.saturating_add(1),
            Message::ToClient(_) => tally.by_clients = tally.by_clients.saturating_add(1),
        }
    }

    /// Hands a message in, to a client behind the noting of the time. Where it is refused, nothing else changes than the moment
    /// that a master notes.
    pub(crate) fn hand(&mut self, stage: &mut Stage, message: &Message) -> Result<(), Stop> {
        if let Message::ToClient(out) = message {
            stage.cast.note(out.client().get(), self.elsewhere)?;
        }
        self.look(stage);
        self.tally.handed = self.tally.handed.saturating_add(1);
        let (is_refused, noted) = is_refused(stage, message)?;
        if is_refused {
            let changes = self.changes(stage)?;
            self.count(message, changes.is_empty() || changes.as_str() == noted);
        }
        Ok(())
    }
}
