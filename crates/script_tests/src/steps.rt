//! Steps, one by one, and those that a script takes.
use crate::troubles::Trouble;
use collections::Items;
use node_core::Line;
use rows_cell::{ListRecords, Records, Settings, text_of};
use scripts::{Parsed, read_step};
use std::alloc::{AllocError, Global};
use std::str;
use world_cell::World;
use world_steps::{Message, Step};

/// More than the turns of any settling.
const TURN_END: u64 = 10_000;

const NO_STEP: Trouble = Trouble::Said("no step");

fn step_of(alloc: Global, line: &str) -> Result<Step, Trouble> {
    match read_step(alloc, line)? {
        Parsed::Step(step) => Ok(step),
        _ => Err(NO_STEP),
    }
}

/// The steps of a text, one a line.
pub(crate) fn steps_of(alloc: Global, text: &[u8]) -> Result<Vec<Step>, Trouble> {
    let text = str::from_utf8(text).map_err(|_| NO_STEP)?;
    let mut steps = Vec::new(alloc);
    for line in text.split('\n') {
        if !line.is_empty() {
            steps.push(step_of(alloc, line)?)?;
        }
    }
    Ok(steps)
}

/// Shows lines, each with its end.
pub(crate) fn push_shown(text: &mut String, lines: &Items<Line>) -> Result<(), AllocError> {
    for line in lines.as_slice() {
        write!(text, "{line}\n")?;
    }
    Ok(())
}

/// Does steps, all at once, and shows their lines.
pub(crate) fn push_run<R: Records + Drop>(
    text: &mut String,
    world: &mut World<R>,
    steps: &[Step],
) -> Result<(), AllocError> {
    let lines = world.run(steps)?;
    let shown = push_shown(text, &lines);
    drop(lines);
    shown
}

/// A new world over rows in lists.
pub(crate) fn world_of(alloc: Global, settings: &Settings) -> Result<World<ListRecords>, Trouble> {
    let records = ListRecords::new(alloc, settings).map_err(|_| Trouble::NoMemory)?;
    Ok(World::new(alloc, records, settings))
}

/// What steps print on a new world over rows in lists.
pub(crate) fn run_left(
    alloc: Global,
    settings: &Settings,
    text: &[u8],
) -> Result<Vec<u8>, Trouble> {
    let steps = steps_of(alloc, text)?;
    let mut lines = String::new(alloc);
    let mut world = world_of(alloc, settings)?;
    let shown = push_run(&mut lines, &mut world, steps.as_slice());
    drop(world);
    shown?;
    Ok(lines.into_bytes())
}

/// All that records hold.
pub(crate) fn rows_in<R: Records + Drop>(alloc: Global, mut records: R) -> Result<String, Trouble> {
    let rows = records.load();
    drop(records);
    match rows {
        Ok(rows) => {
            let text = text_of(alloc, &rows);
            drop(rows);
            Ok(text?)
        }
        Err(_) => Err(Trouble::Said("its rows can't be read")),
    }
}

// The steps of a script so far, and which messages they delivered.
#[derive(Drop)]
struct Walk {
    steps: Vec<Step>,
    delivered: Vec<bool>,
}

impl Walk {
    // The message of a number was delivered.
    fn note(&mut self, number: u64) -> Result<(), Trouble> {
        for _ in self.delivered.len() as u64..number {
            self.delivered.push(false)?;
        }
        let place = number.saturating_sub(1) as usize;
        if let Some(delivered) = self.delivered.get_mut(place) {
            *delivered = true;
        }
        Ok(())
    }

    // The step that delivers the lowest message that was never delivered; else a sweep.
    fn next(&self, messages: &[Message]) -> Step {
        for (place, message) in messages.iter().enumerate() {
            if !self.delivered.get(place).copied().unwrap_or(false) {
                let number = (place as u64).saturating_add(1);
                return match message {
                    Message::ToMaster(_) => Step::Take(number),
                    Message::ToClient(_) => Step::Give(number),
                };
            }
        }
        Step::Sweep
    }

    // Does a step, and says whether a settling that did it may have more to do.
    fn take(&mut self, world: &mut World<ListRecords>, step: Step) -> Result<bool, Trouble> {
        let more = match &step {
            Step::Take(number) | Step::Give(number) => {
                self.note(*number)?;
                drop(world.step(&step));
                true
            }
            Step::Sweep => match world.sweep() {
                Ok(swept) => !swept.quiet,
                Err(_) => false,
            },
            step => {
                drop(world.step(step));
                true
            }
        };
        self.steps.push(step)?;
        Ok(more)
    }

    fn settle(&mut self, world: &mut World<ListRecords>) -> Result<(), Trouble> {
        for _ in 0..TURN_END {
            let step = self.next(world.messages());
            if !self.take(world, step)? {
                return Ok(());
            }
        }
        Err(Trouble::Said("it doesn't settle"))
    }

    fn line(
        &mut self,
        alloc: Global,
        world: &mut World<ListRecords>,
        line: &str,
    ) -> Result<(), Trouble> {
        match read_step(alloc, line)? {
            Parsed::Step(step) => {
                self.take(world, step)?;
                Ok(())
            }
            Parsed::Settle => self.settle(world),
            Parsed::Nothing => Ok(()),
            _ => Err(NO_STEP),
        }
    }

    fn lines(
        &mut self,
        alloc: Global,
        world: &mut World<ListRecords>,
        text: &str,
    ) -> Result<(), Trouble> {
        for line in text.split('\n') {
            self.line(alloc, world, line)?;
        }
        Ok(())
    }
}

/// The steps of a script, with those of each settling in its place.
pub(crate) fn taken(alloc: Global, settings: &Settings, text: &[u8]) -> Result<Vec<Step>, Trouble> {
    let text = str::from_utf8(text).map_err(|_| NO_STEP)?;
    let mut walk = Walk {
        steps: Vec::new(alloc),
        delivered: Vec::new(alloc),
    };
    let mut world = world_of(alloc, settings)?;
    let done = walk.lines(alloc, &mut world, text);
    drop(world);
    done?;
    let Walk { steps, .. } = walk;
    Ok(steps)
}
