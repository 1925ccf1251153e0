//! Bytes, and the texts that they are.
ghost use Rattle.std.specs.Prelude.{OnOk};
ghost use Rattle.codec.specs.Forms.{Reads, Appends, Form};
ghost use Rattle.codec.specs.Fields.{name, component, block, optional_block};

use crate::faults::WireFault;
use crate::inputs::{FLAGS, Input};
use crate::outputs::{put_block, put_byte};
use collections::Bytes;
use names_cell::{Component, Name, Principal};
use std::alloc::{AllocError, Global};
use std::str;
use tags_cell::HandleBytes;

#[tactic(auto, unfolding(crate::specs::Fields::name))]
pub(crate) fn read_name(alloc: Global, input: &mut Input) -> Result<Name, WireFault>
    ensures { Reads (λ x. x) result input.new (name.read input.old) }
{
    let bytes = input.block()?;
    let Ok(text) = str::from_utf8(bytes) else {
        return Err(WireFault::BadText);
    };
    Ok(Name::parse(alloc, text)?)
}

#[tactic(auto, unfolding(crate::specs::Fields::name))]
pub(crate) fn put_name(out: &mut Vec<u8>, text: &Name) -> Result<(), AllocError>
    ensures { OnOk result (Appends name text.now out.old.items out.new.items) }
{
    put_block(out, text.as_str().as_bytes())
}

#[tactic(auto, unfolding(crate::specs::Fields::component))]
pub(crate) fn read_component(alloc: Global, input: &mut Input) -> Result<Component, WireFault>
    ensures { Reads (λ x. x) result input.new (component.read input.old) }
{
    let bytes = input.block()?;
    let Ok(text) = str::from_utf8(bytes) else {
        return Err(WireFault::BadText);
    };
    Ok(Component::parse(alloc, text)?)
}

#[tactic(auto, unfolding(crate::specs::Fields::component))]
pub(crate) fn put_component(out: &mut Vec<u8>, text: &Component) -> Result<(), AllocError>
    ensures { OnOk result (Appends component text.now out.old.items out.new.items) }
{
    put_block(out, text.as_str().as_bytes())
}

#[tactic(auto, unfolding(crate::specs::Fields::component))]
pub(crate) fn read_principal(alloc: Global, input: &mut Input) -> Result<Principal, WireFault>
    ensures { Reads (λ x. x) result input.new (component.read input.old) }
{
    let bytes = input.block()?;
    let Ok(text) = str::from_utf8(bytes) else {
        return Err(WireFault::BadText);
    };
    Ok(Principal::parse(alloc, text)?)
}

#[tactic(auto, unfolding(crate::specs::Fields::component))]
pub(crate) fn put_principal(out: &mut Vec<u8>, text: &Principal) -> Result<(), AllocError>
    ensures { OnOk result (Appends component text.now out.old.items out.new.items) }
{
    put_block(out, text.as_str().as_bytes())
}

// The bytes of a handle, any bytes.
pub(crate) fn read_handle(alloc: Global, input: &mut Input) -> Result<HandleBytes, WireFault>
    ensures { Reads (λ x. x) result input.new (block.read input.old) }
{
    let bytes = input.block()?;
    Ok(HandleBytes::copy_of(alloc, bytes)?)
}

// A content, or the bytes of a sequencer.
pub(crate) fn read_bytes(alloc: Global, input: &mut Input) -> Result<Bytes, WireFault>
    ensures { Reads (λ x. x) result input.new (block.read input.old) }
{
    let bytes = input.block()?;
    Ok(Bytes::copy_of(alloc, bytes)?)
}

#[tactic(auto, unfolding(crate::specs::Fields::optional_block))]
pub(crate) fn read_optional_bytes(
    alloc: Global,
    input: &mut Input,
) -> Result<Option<Bytes>, WireFault>
    ensures { Reads (λ x. x) result input.new (optional_block.read input.old) }
{
    if input.choice(&FLAGS)? {
        Ok(Some(read_bytes(alloc, input)?))
    } else {
        Ok(None)
    }
}

#[tactic(auto, unfolding(crate::specs::Fields::optional_block))]
pub(crate) fn put_optional_bytes(out: &mut Vec<u8>, bytes: &Option<Bytes>) -> Result<(), AllocError>
    ensures { OnOk result (Appends optional_block bytes.now out.old.items out.new.items) }
{
    match bytes {
        Some(bytes) => {
            put_byte(out, 1)?;
            put_block(out, bytes.as_slice())
        }
        None => put_byte(out, 0),
    }
}
