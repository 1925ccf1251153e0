//! What keeps a session: a Beat, and its answer.
ghost use Rattle.std.specs.Prelude.{◌≡◌, OnOk};
ghost use Rattle.codec.specs.Forms.{Reads, Appends, Form, read_all};
ghost use Rattle.codec.specs.Beats.{beat, invalidation, invalidations, alive};

use crate::events::{put_numbered_events, read_numbered_events};
use crate::faults::WireFault;
use crate::inputs::Input;
use crate::numbers::{put_client, put_message, read_client, read_message};
use crate::outputs::{put_count, put_word};
use crate::texts::{put_name, read_name};
use collections::Items;
use std::alloc::{AllocError, Global};
use tags_cell::{Alive, Beat, Invalidation};

#[tactic(auto, unfolding(crate::specs::Beats::beat))]
pub(crate) fn read_beat(input: &mut Input) -> Result<Beat, WireFault>
    ensures { Reads (λ x. x) result input.new (beat.read input.old) }
{
    Ok(Beat {
        client: read_client(input)?,
        epoch: input.word()?,
        number: read_message(input)?,
        invalidations: input.word()?,
        events: input.word()?,
    })
}

#[tactic(auto, unfolding(crate::specs::Beats::beat))]
pub(crate) fn put_beat(out: &mut Vec<u8>, message: &Beat) -> Result<(), AllocError>
    ensures { OnOk result (Appends beat message.now out.old.items out.new.items) }
{
    put_client(out, message.client)?;
    put_word(out, message.epoch)?;
    put_message(out, message.number)?;
    put_word(out, message.invalidations)?;
    put_word(out, message.events)
}

#[tactic(auto, unfolding(crate::specs::Beats::invalidation))]
pub(crate) fn read_invalidation(alloc: Global, input: &mut Input) -> Result<Invalidation, WireFault>
    ensures { Reads (λ x. x) result input.new (invalidation.read input.old) }
{
    Ok(Invalidation {
        number: input.word()?,
        name: read_name(alloc, input)?,
    })
}

#[tactic(auto, unfolding(crate::specs::Beats::invalidation))]
pub(crate) fn put_invalidation(out: &mut Vec<u8>, told: &Invalidation) -> Result<(), AllocError>
    ensures { OnOk result (Appends invalidation told.now out.old.items out.new.items) }
{
    put_word(out, told.number)?;
    put_name(out, &told.name)
}

#[tactic(auto, unfolding(crate::specs::Beats::invalidations))]
pub(crate) fn read_invalidations(
    alloc: Global,
    input: &mut Input,
) -> Result<Items<Invalidation>, WireFault>
    ensures { Reads (λ x. x) result input.new (invalidations.read input.old) }
{
    let count = input.count()?;
    invalidations_of(alloc, input, count)
}

// So many of them. It takes memory for those that stand there, and none for a count that is too high.
fn invalidations_of(
    alloc: Global,
    input: &mut Input,
    count: u32,
) -> Result<Items<Invalidation>, WireFault>
    ensures { Reads (λ x. x) result input.new (read_all invalidation.read count input.old) }
{
    let mut items = Vec::new(alloc);
    for _ in 0..count {
        let item = read_invalidation(alloc, input)?;
        items.push(item)?;
    }
    Ok(Items::from_vec(items))
}

#[tactic(auto, unfolding(crate::specs::Beats::invalidations))]
pub(crate) fn put_invalidations(
    out: &mut Vec<u8>,
    told: &Items<Invalidation>,
) -> Result<(), AllocError>
    ensures { OnOk result (Appends invalidations told.now out.old.items out.new.items) }
{
    let items = told.as_slice();
    put_count(out, items.len())?;
    for item in items {
        put_invalidation(out, item)?;
    }
    Ok(())
}

#[tactic(auto, unfolding(crate::specs::Beats::alive))]
pub(crate) fn read_alive(alloc: Global, input: &mut Input) -> Result<Alive, WireFault>
    ensures { Reads (λ x. x) result input.new (alive.read input.old) }
{
    Ok(Alive {
        client: read_client(input)?,
        epoch: input.word()?,
        number: read_message(input)?,
        span: input.word()?,
        invalidations: read_invalidations(alloc, input)?,
        events: read_numbered_events(alloc, input)?,
    })
}

#[tactic(auto, unfolding(crate::specs::Beats::alive))]
pub(crate) fn put_alive(out: &mut Vec<u8>, message: &Alive) -> Result<(), AllocError>
    ensures { OnOk result (Appends alive message.now out.old.items out.new.items) }
{
    put_client(out, message.client)?;
    put_word(out, message.epoch)?;
    put_message(out, message.number)?;
    put_word(out, message.span)?;
    put_invalidations(out, &message.invalidations)?;
    put_numbered_events(out, &message.events)
}
