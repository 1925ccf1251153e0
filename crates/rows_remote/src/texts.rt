//! Bytes, and the texts that they are.
ghost use Rattle.std.specs.Prelude.{OnOk};
ghost use Rattle.codec.specs.Forms.{Reads, Appends, Form};
ghost use Rattle.codec.specs.Fields.{name, component, block};

use crate::inputs::AnswerInput;
use crate::outputs::put_block;
use codec::WireFault;
use collections::Bytes;
use names_cell::{Component, Name, Principal};
use std::alloc::{AllocError, Global};
use std::str;

#[tactic(auto, unfolding(codec::specs::Fields::name))]
pub(crate) fn read_name(alloc: Global, input: &mut AnswerInput) -> Result<Name, WireFault>
    ensures { Reads (λ x. x) result input.new (name.read input.old) }
{
    let bytes = input.block()?;
    let Ok(text) = str::from_utf8(bytes) else {
        return Err(WireFault::BadText);
    };
    Ok(Name::parse(alloc, text)?)
}

#[tactic(auto, unfolding(codec::specs::Fields::name))]
pub(crate) fn put_name(out: &mut Vec<u8>, text: &Name) -> Result<(), AllocError>
    ensures { OnOk result (Appends name text.now out.old.items out.new.items) }
{
    put_block(out, text.as_str().as_bytes())
}

#[tactic(auto, unfolding(codec::specs::Fields::component))]
pub(crate) fn read_component(alloc: Global, input: &mut AnswerInput) -> Result<Component, WireFault>
    ensures { Reads (λ x. x) result input.new (component.read input.old) }
{
    let bytes = input.block()?;
    let Ok(text) = str::from_utf8(bytes) else {
        return Err(WireFault::BadText);
    };
    Ok(Component::parse(alloc, text)?)
}

#[tactic(auto, unfolding(codec::specs::Fields::component))]
pub(crate) fn put_component(out: &mut Vec<u8>, text: &Component) -> Result<(), AllocError>
    ensures { OnOk result (Appends component text.now out.old.items out.new.items) }
{
    put_block(out, text.as_str().as_bytes())
}

#[tactic(auto, unfolding(codec::specs::Fields::component))]
pub(crate) fn read_principal(alloc: Global, input: &mut AnswerInput) -> Result<Principal, WireFault>
    ensures { Reads (λ x. x) result input.new (component.read input.old) }
{
    let bytes = input.block()?;
    let Ok(text) = str::from_utf8(bytes) else {
        return Err(WireFault::BadText);
    };
    Ok(Principal::parse(alloc, text)?)
}

#[tactic(auto, unfolding(codec::specs::Fields::component))]
pub(crate) fn put_principal(out: &mut Vec<u8>, text: &Principal) -> Result<(), AllocError>
    ensures { OnOk result (Appends component text.now out.old.items out.new.items) }
{
    put_block(out, text.as_str().as_bytes())
}

// A content, or the bytes of a sequencer.
pub(crate) fn read_bytes(alloc: Global, input: &mut AnswerInput) -> Result<Bytes, WireFault>
    ensures { Reads (λ x. x) result input.new (block.read input.old) }
{
    let bytes = input.block()?;
    Ok(Bytes::copy_of(alloc, bytes)?)
}
