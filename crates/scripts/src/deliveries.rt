//! Which messages came to their receivers.
ghost use Rattle.std.specs.Prelude.{◌≡◌, ◌<◌, ◌≤◌, ◌∷◌, [], Some, length, IfOk, IfErr, OnOk};
ghost use Rattle.std.specs.List.{slice_get};
ghost use Rattle.std.specs.Option.{option_copied};
ghost use Rattle.std.specs.Vec.{vec_capacity};
ghost use Rattle.scripts.specs.Settling.{played, first_waiting, step_of, place_of, marked, AreDelivered, IsFirst, PlaysMade, PlaysRefused};

use collections::Items;
use node_core::{Fault, Line};
use rows_cell::Records;
use std::alloc::{AllocError, Global};
use std::marker::Model;
use world_cell::World;
use world_steps::{Message, Step};

/// Which messages of a world came to their receivers once at least. To a contract, a mark for each message in turn; one
/// without a mark came to nobody.
#[derive(Drop)]
pub(crate) struct Deliveries {
    marks: Vec<bool>,
    // The first place without a mark.
    first: usize,
}

impl Model for Deliveries {
    ghost use Rattle.std.specs.Prelude.{List, Bool};
    ghost use Rattle.scripts.specs.Settling.{IsFirst};

    ghost Value = { List Bool };

    ghost view = { λ d. d.marks.items };

    ghost invariant = { λ d. IsFirst d.first d.marks.items };
}

impl Deliveries {
    pub(crate) fn new(alloc: Global) -> Deliveries
        ensures { result ≡ [] }
    {
        Deliveries {
            marks: Vec::new(alloc),
            first: 0,
        }
    }

    // The step that delivers the first message that came to nobody.
    pub(crate) fn next(&self, messages: &[Message]) -> Option<Step>
        ensures { result ≡ first_waiting messages.now self.now 1 }
    {
        match message_at(messages, self.first) {
            None => None,
            Some(message) => Some(step_of(message, self.first as u64 + 1)),
        }
    }

    // Does a step, and notes the message that it delivers.
    pub(crate) fn play<R: Records + Drop>(
        &mut self,
        world: &mut World<R>,
        step: &Step,
    ) -> Result<Items<Line>, Fault>
        ensures made { IfOk result (λ lines. PlaysMade (played world.old self.old) step.now (played world.new self.new) lines) }
        ensures refused { IfErr result (λ e. PlaysRefused (played world.old self.old) step.now (played world.new self.new) (Line.Refused e ∷ [])) }
    {
        let Some(place) = place_of(step) else {
            return world.step(step);
        };
        if place >= world.messages().len() {
            return world.step(step);
        }
        self.deliver(world, step, place)
    }

    // Does a step that delivers the message at a place.
    fn deliver<R: Records + Drop>(
        &mut self,
        world: &mut World<R>,
        step: &Step,
        place: usize,
    ) -> Result<Items<Line>, Fault>
        requires place { place_of step.now ≡ Some place }
        requires sent { place < length world.old.world.messages }
        ensures made { IfOk result (λ lines. PlaysMade (played world.old self.old) step.now (played world.new self.new) lines) }
        ensures refused { IfErr result (λ e. PlaysRefused (played world.old self.old) step.now (played world.new self.new) (Line.Refused e ∷ [])) }
    {
        reserve(&mut self.marks, world.messages().len())?;
        let lines = world.step(step)?;
        mark(&mut self.marks, place);
        self.first = first_unmarked(self.marks.as_slice(), self.first);
        Ok(lines)
    }
}

fn message_at(messages: &[Message], place: usize) -> Option<&Message>
    ensures { option_copied result ≡ slice_get messages.now place }
{
    messages.get(place)
}

// The first place from this one on that isn't marked.
fn first_unmarked(marks: &[bool], from: usize) -> usize
    requires { AreDelivered from marks.now }
    ensures { IsFirst result marks.now }
{
    for place in from..marks.len() {
        if !marks[place] {
            return place;
        }
    }
    marks.len()
}

// The place of the message that a step delivers.
fn place_of(step: &Step) -> Option<usize>
    ensures { result ≡ place_of step.now }
{
    match step {
        Step::Take(number) | Step::Give(number) => Some(number.saturating_sub(1) as usize),
        _ => None,
    }
}

fn step_of(message: &Message, number: u64) -> Step
    ensures { result ≡ step_of message.now number }
{
    match message {
        Message::ToMaster(_) => Step::Take(number),
        Message::ToClient(_) => Step::Give(number),
    }
}

// Room for so many marks.
fn reserve(marks: &mut Vec<bool>, count: usize) -> Result<(), AllocError>
    ensures room { OnOk result (count ≤ vec_capacity marks.new) }
    ensures same { marks.new.items ≡ marks.old.items }
{
    let len = marks.len();
    if len < count {
        marks.reserve(count - len)?;
    }
    Ok(())
}

// Marks a place, where there is room.
#[tactic(auto, using(crate::proofs::Turns::marked_set, crate::proofs::Turns::marked_past, crate::proofs::Turns::marked_end))]
fn mark(marks: &mut Vec<bool>, place: usize)
    requires { place < vec_capacity marks.old }
    ensures { marks.new.items ≡ marked marks.old.items place }
{
    if place < marks.len() {
        marks[place] = true;
        return;
    }
    for _ in marks.len()..place {
        marks.push_reserved(false);
    }
    marks.push_reserved(true);
}
