//! Numbers in their ranges.
ghost use Rattle.std.specs.Prelude.{OnOk};
ghost use Rattle.codec.specs.Forms.{Reads, Appends, Form};
ghost use Rattle.codec.specs.Fields.{client, ordinal, optional_word};

use crate::faults::WireFault;
use crate::inputs::{FLAGS, Input};
use crate::outputs::{put_byte, put_word};
use std::alloc::AllocError;
use tags_cell::{ClientNumber, MessageNumber, Ordinal};

#[tactic(auto, unfolding(crate::specs::Fields::client))]
pub(crate) fn read_client(input: &mut Input) -> Result<ClientNumber, WireFault>
    ensures { Reads (λ x. x) result input.new (client.read input.old) }
{
    ClientNumber::new(input.word()?).ok_or(WireFault::BadNumber)
}

#[tactic(auto, unfolding(crate::specs::Fields::client))]
pub(crate) fn put_client(out: &mut Vec<u8>, number: ClientNumber) -> Result<(), AllocError>
    ensures { OnOk result (Appends client number out.old.items out.new.items) }
{
    put_word(out, number.get())
}

#[tactic(auto, unfolding(crate::specs::Fields::ordinal))]
pub(crate) fn read_message(input: &mut Input) -> Result<MessageNumber, WireFault>
    ensures { Reads (λ x. x) result input.new (ordinal.read input.old) }
{
    MessageNumber::new(input.word()?).ok_or(WireFault::BadNumber)
}

#[tactic(auto, unfolding(crate::specs::Fields::ordinal))]
pub(crate) fn put_message(out: &mut Vec<u8>, number: MessageNumber) -> Result<(), AllocError>
    ensures { OnOk result (Appends ordinal number out.old.items out.new.items) }
{
    put_word(out, number.get())
}

#[tactic(auto, unfolding(crate::specs::Fields::ordinal))]
pub(crate) fn read_ordinal(input: &mut Input) -> Result<Ordinal, WireFault>
    ensures { Reads (λ x. x) result input.new (ordinal.read input.old) }
{
    Ordinal::new(input.word()?).ok_or(WireFault::BadNumber)
}

#[tactic(auto, unfolding(crate::specs::Fields::ordinal))]
pub(crate) fn put_ordinal(out: &mut Vec<u8>, number: Ordinal) -> Result<(), AllocError>
    ensures { OnOk result (Appends ordinal number out.old.items out.new.items) }
{
    put_word(out, number.get())
}

#[tactic(auto, unfolding(crate::specs::Fields::optional_word))]
pub(crate) fn read_optional_word(input: &mut Input) -> Result<Option<u64>, WireFault>
    ensures { Reads (λ x. x) result input.new (optional_word.read input.old) }
{
    if input.choice(&FLAGS)? {
        Ok(Some(input.word()?))
    } else {
        Ok(None)
    }
}

#[tactic(auto, unfolding(crate::specs::Fields::optional_word))]
pub(crate) fn put_optional_word(out: &mut Vec<u8>, number: Option<u64>) -> Result<(), AllocError>
    ensures { OnOk result (Appends optional_word number out.old.items out.new.items) }
{
    match number {
        Some(number) => {
            put_byte(out, 1)?;
            put_word(out, number)
        }
        None => put_byte(out, 0),
    }
}
