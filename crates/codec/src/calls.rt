//! Calls.
ghost use Rattle.std.specs.Prelude.{◌∷◌, [], ◌++◌, OnOk};
ghost use Rattle.codec.specs.Fields.{block};
ghost use Rattle.codec.specs.Forms.{Reads, Appends, Form, behind};
ghost use Rattle.codec.specs.Calls.{call, call_behind, set_fields, set_acl_fields, lock_fields};
ghost use Rattle.tags_cell.specs.declared.messages.calls.Call.TheVariants as calls;

use crate::choices::{put_lock_mode, read_lock_mode};
use crate::faults::WireFault;
use crate::inputs::Input;
use crate::kinds::{CALL_KINDS, CallKind};
use crate::numbers::{put_optional_word, read_optional_word};
use crate::opens::{put_acl_names, put_open, read_acl_names, read_open};
use crate::outputs::{put_block, put_byte};
use crate::texts::{read_bytes, read_handle};
use collections::Bytes;
use node_core::LockMode;
use std::alloc::{AllocError, Global};
use tags_cell::{AclNames, Call, HandleBytes};

#[tactic(auto, unfolding(crate::specs::Calls::call))]
pub(crate) fn read_call(alloc: Global, input: &mut Input) -> Result<Call, WireFault>
    ensures { Reads (λ x. x) result input.new (call.read input.old) }
{
    let kind = input.choice(&CALL_KINDS)?;
    read_call_of(alloc, input, kind)
}

fn read_call_of(alloc: Global, input: &mut Input, kind: CallKind) -> Result<Call, WireFault>
    ensures { Reads (λ x. x) result input.new (call_behind kind input.old) }
{
    match kind {
        CallKind::Open => Ok(Call::Open(read_open(alloc, input)?)),
        CallKind::Close => Ok(Call::Close(read_handle(alloc, input)?)),
        CallKind::Read => Ok(Call::Read(read_handle(alloc, input)?)),
        CallKind::Stat => Ok(Call::Stat(read_handle(alloc, input)?)),
        CallKind::List => Ok(Call::List(read_handle(alloc, input)?)),
        CallKind::Set => read_set(alloc, input),
        CallKind::SetAcl => read_set_acl(alloc, input),
        CallKind::Delete => Ok(Call::Delete(read_handle(alloc, input)?)),
        CallKind::Acquire => read_acquire(alloc, input),
        CallKind::TryAcquire => read_try_acquire(alloc, input),
        CallKind::Release => Ok(Call::Release(read_handle(alloc, input)?)),
        CallKind::GetSequencer => Ok(Call::GetSequencer(read_handle(alloc, input)?)),
        CallKind::SetSequencer => Ok(Call::SetSequencer(read_handle(alloc, input)?)),
        CallKind::CheckSequencer => Ok(Call::CheckSequencer(read_bytes(alloc, input)?)),
        CallKind::Leave => Ok(Call::Leave),
    }
}

fn read_set(alloc: Global, input: &mut Input) -> Result<Call, WireFault>
    ensures { Reads (λ x. x) result input.new (behind (λ x. calls.Set x.0 x.1.0 x.1.1) set_fields input.old) }
{
    Ok(Call::Set {
        handle: read_handle(alloc, input)?,
        content: read_bytes(alloc, input)?,
        generation: read_optional_word(input)?,
    })
}

fn read_set_acl(alloc: Global, input: &mut Input) -> Result<Call, WireFault>
    ensures { Reads (λ x. x) result input.new (behind (λ x. calls.SetAcl x.0 x.1.0 x.1.1) set_acl_fields input.old) }
{
    Ok(Call::SetAcl {
        handle: read_handle(alloc, input)?,
        acls: read_acl_names(alloc, input)?,
        generation: read_optional_word(input)?,
    })
}

fn read_acquire(alloc: Global, input: &mut Input) -> Result<Call, WireFault>
    ensures { Reads (λ x. x) result input.new (behind (λ x. calls.Acquire x.0 x.1) lock_fields input.old) }
{
    Ok(Call::Acquire {
        handle: read_handle(alloc, input)?,
        mode: read_lock_mode(input)?,
    })
}

fn read_try_acquire(alloc: Global, input: &mut Input) -> Result<Call, WireFault>
    ensures { Reads (λ x. x) result input.new (behind (λ x. calls.TryAcquire x.0 x.1) lock_fields input.old) }
{
    Ok(Call::TryAcquire {
        handle: read_handle(alloc, input)?,
        mode: read_lock_mode(input)?,
    })
}

#[tactic(auto, unfolding(crate::specs::Calls::call))]
pub(crate) fn put_call(out: &mut Vec<u8>, asked: &Call) -> Result<(), AllocError>
    ensures { OnOk result (Appends call asked.now out.old.items out.new.items) }
{
    match asked {
        Call::Open(open) => {
            put_byte(out, 0)?;
            put_open(out, open)
        }
        Call::Close(handle) => put_on(out, 1, handle.as_slice()),
        Call::Read(handle) => put_on(out, 2, handle.as_slice()),
        Call::Stat(handle) => put_on(out, 3, handle.as_slice()),
        Call::List(handle) => put_on(out, 4, handle.as_slice()),
        Call::Set {
            handle,
            content,
            generation,
        } => put_set(out, handle, content, *generation),
        Call::SetAcl {
            handle,
            acls,
            generation,
        } => put_set_acl(out, handle, acls, *generation),
        Call::Delete(handle) => put_on(out, 7, handle.as_slice()),
        Call::Acquire { handle, mode } => put_lock(out, 8, handle, *mode),
        Call::TryAcquire { handle, mode } => put_lock(out, 9, handle, *mode),
        Call::Release(handle) => put_on(out, 10, handle.as_slice()),
        Call::GetSequencer(handle) => put_on(out, 11, handle.as_slice()),
        Call::SetSequencer(handle) => put_on(out, 12, handle.as_slice()),
        Call::CheckSequencer(bytes) => put_on(out, 13, bytes.as_slice()),
        Call::Leave => put_byte(out, 14),
    }
}

// The kind of a call, and the bytes of a handle or of a sequencer.
fn put_on(out: &mut Vec<u8>, kind: u8, bytes: &[u8]) -> Result<(), AllocError>
    ensures { OnOk result (Appends block bytes.now (out.old.items ++ kind ∷ []) out.new.items) }
{
    put_byte(out, kind)?;
    put_block(out, bytes)
}

fn put_set(
    out: &mut Vec<u8>,
    handle: &HandleBytes,
    content: &Bytes,
    generation: Option<u64>,
) -> Result<(), AllocError>
    ensures { OnOk result (Appends set_fields (handle.now, (content.now, generation)) (out.old.items ++ 5 ∷ []) out.new.items) }
{
    put_byte(out, 5)?;
    put_block(out, handle.as_slice())?;
    put_block(out, content.as_slice())?;
    put_optional_word(out, generation)
}

fn put_set_acl(
    out: &mut Vec<u8>,
    handle: &HandleBytes,
    acls: &AclNames,
    generation: Option<u64>,
) -> Result<(), AllocError>
    ensures { OnOk result (Appends set_acl_fields (handle.now, (acls.now, generation)) (out.old.items ++ 6 ∷ []) out.new.items) }
{
    put_byte(out, 6)?;
    put_block(out, handle.as_slice())?;
    put_acl_names(out, acls)?;
    put_optional_word(out, generation)
}

fn put_lock(
    out: &mut Vec<u8>,
    kind: u8,
    handle: &HandleBytes,
    mode: LockMode,
) -> Result<(), AllocError>
    ensures { OnOk result (Appends lock_fields (handle.now, mode) (out.old.items ++ kind ∷ []) out.new.items) }
{
    put_byte(out, kind)?;
    put_block(out, handle.as_slice())?;
    put_lock_mode(out, mode)
}
