//! Events, and those that a session waits to be told.
ghost use Rattle.std.specs.Prelude.{◌≡◌, ◌∷◌, [], ◌++◌, OnOk};
ghost use Rattle.codec.specs.Fields.{word};
ghost use Rattle.codec.specs.Forms.{Reads, Appends, Form, choice, read_all};
ghost use Rattle.codec.specs.Beats.{all_events, event_place, event, event_behind, event_is, event_bytes, numbered_event, numbered_events, three_words, child_fields};

use crate::faults::WireFault;
use crate::inputs::Input;
use crate::kinds::{EVENT_KINDS, EventKind};
use crate::outputs::{put_byte, put_count, put_word};
use crate::texts::{put_name, read_name};
use collections::Items;
use names_cell::Name;
use node_core::Event;
use std::alloc::{AllocError, Global};
use tags_cell::NumberedEvent;

#[tactic(auto, unfolding(crate::specs::Beats::event))]
pub(crate) fn read_event(alloc: Global, input: &mut Input) -> Result<Event, WireFault>
    ensures { Reads (λ x. x) result input.new (event.read input.old) }
{
    let kind = input.choice(&EVENT_KINDS)?;
    read_event_of(alloc, input, kind)
}

fn read_event_of(alloc: Global, input: &mut Input, kind: EventKind) -> Result<Event, WireFault>
    ensures { Reads (λ x. x) result input.new (event_behind kind input.old) }
{
    Ok(match kind {
        EventKind::FailOver => Event::FailOver,
        EventKind::Contents => Event::Contents(input.word()?, input.word()?, input.word()?),
        EventKind::ChildAdded => Event::ChildAdded(input.word()?, read_name(alloc, input)?),
        EventKind::ChildRemoved => Event::ChildRemoved(input.word()?, read_name(alloc, input)?),
        EventKind::ChildModified => Event::ChildModified(input.word()?, read_name(alloc, input)?),
        EventKind::Invalid => Event::Invalid(input.word()?),
        EventKind::Locked => Event::Locked(input.word()?),
        EventKind::Conflict => Event::Conflict(input.word()?),
        EventKind::Lost => Event::Lost,
    })
}

#[tactic(auto, unfolding(crate::specs::Beats::event))]
pub(crate) fn put_event(out: &mut Vec<u8>, told: &Event) -> Result<(), AllocError>
    ensures { OnOk result (Appends event told.now out.old.items out.new.items) }
{
    match told {
        Event::FailOver => put_byte(out, 0),
        Event::Contents(handle, instance, generation) => {
            put_byte(out, 1)?;
            put_word(out, *handle)?;
            put_word(out, *instance)?;
            put_word(out, *generation)
        }
        Event::ChildAdded(handle, child) => put_child(out, 2, *handle, child),
        Event::ChildRemoved(handle, child) => put_child(out, 3, *handle, child),
        Event::ChildModified(handle, child) => put_child(out, 4, *handle, child),
        Event::Invalid(handle) => put_told(out, 5, *handle),
        Event::Locked(handle) => put_told(out, 6, *handle),
        Event::Conflict(handle) => put_told(out, 7, *handle),
        Event::Lost => put_byte(out, 8),
    }
}

// The kind of an event, the handle and a child.
fn put_child(out: &mut Vec<u8>, kind: u8, handle: u64, child: &Name) -> Result<(), AllocError>
    ensures { OnOk result (Appends child_fields (handle, child.now) (out.old.items ++ kind ∷ []) out.new.items) }
{
    put_byte(out, kind)?;
    put_word(out, handle)?;
    put_name(out, child)
}

// The kind of an event, and the handle.
fn put_told(out: &mut Vec<u8>, kind: u8, handle: u64) -> Result<(), AllocError>
    ensures { OnOk result (Appends word handle (out.old.items ++ kind ∷ []) out.new.items) }
{
    put_byte(out, kind)?;
    put_word(out, handle)
}

#[tactic(auto, unfolding(crate::specs::Beats::numbered_event))]
pub(crate) fn read_numbered_event(
    alloc: Global,
    input: &mut Input,
) -> Result<NumberedEvent, WireFault>
    ensures { Reads (λ x. x) result input.new (numbered_event.read input.old) }
{
    Ok(NumberedEvent {
        number: input.word()?,
        event: read_event(alloc, input)?,
    })
}

#[tactic(auto, unfolding(crate::specs::Beats::numbered_event))]
pub(crate) fn put_numbered_event(out: &mut Vec<u8>, told: &NumberedEvent) -> Result<(), AllocError>
    ensures { OnOk result (Appends numbered_event told.now out.old.items out.new.items) }
{
    put_word(out, told.number)?;
    put_event(out, &told.event)
}

#[tactic(auto, unfolding(crate::specs::Beats::numbered_events))]
pub(crate) fn read_numbered_events(
    alloc: Global,
    input: &mut Input,
) -> Result<Items<NumberedEvent>, WireFault>
    ensures { Reads (λ x. x) result input.new (numbered_events.read input.old) }
{
    let count = input.count()?;
    numbered_events_of(alloc, input, count)
}

// So many of them. It takes memory for those that stand there, and none for a count that is too high.
fn numbered_events_of(
    alloc: Global,
    input: &mut Input,
    count: u32,
) -> Result<Items<NumberedEvent>, WireFault>
    ensures { Reads (λ x. x) result input.new (read_all numbered_event.read count input.old) }
{
    let mut items = Vec::new(alloc);
    for _ in 0..count {
        let item = read_numbered_event(alloc, input)?;
        items.push(item)?;
    }
    Ok(Items::from_vec(items))
}

#[tactic(auto, unfolding(crate::specs::Beats::numbered_events))]
pub(crate) fn put_numbered_events(
    out: &mut Vec<u8>,
    told: &Items<NumberedEvent>,
) -> Result<(), AllocError>
    ensures { OnOk result (Appends numbered_events told.now out.old.items out.new.items) }
{
    let items = told.as_slice();
    put_count(out, items.len())?;
    for item in items {
        put_numbered_event(out, item)?;
    }
    Ok(())
}
