//! The handles that a client has, by its own numbers for them, and those that it keeps to be shared.
ghost use Rattle.std.specs.Prelude.{◌≡◌, OnOk, OnErr};
ghost use Rattle.std.specs.BTreeMap.{insert_entry};
ghost use Rattle.std.specs.Ordering.{nat_cmp};
ghost use Rattle.collections.specs.Results.{Gives};
ghost use Rattle.cache_core.specs.Kept.{with_kept};
ghost use Rattle.client_core.specs.Targets.{opening_of};
ghost use Rattle.client_core.specs.Handles.{handle_of, usable_handle, has_number, put_under, handles_behind, kept_behind};

use crate::parts::handles::{ClientHandle, is_shareable, share_of};
use crate::parts::targets::Outstanding;
use cache_core::{KeptHandles, SharedHandle};
use collections::{Bytes, Table};
use node_core::{Fault, NUMBER_LIMIT};
use std::alloc::AllocError;
use std::mem;
use tags_cell::{CallResult, NewHandle};

/// An open handle that isn't poisoned.
pub fn usable_handle(handles: &Table<u64, ClientHandle>, number: u64) -> Result<ClientHandle, Fault>
    ensures { Gives Fault.NoMemory result (usable_handle (handle_of handles.now number)) }
{
    let Some(handle) = handles.get(&number) else {
        return Err(Fault::BadHandle);
    };
    if handle.poisoned {
        return Err(Fault::Poisoned);
    }
    Ok(handle.clone()?)
}

/// Whether there is a number for what a reply gives, where this one is the newest.
pub fn has_number(opened: u64, outcome: &CallResult) -> bool
    ensures { result ≡ has_number opened outcome.now }
{
    match outcome {
        CallResult::Opened(_) => opened < NUMBER_LIMIT,
        _ => true,
    }
}

/// The calls on the handle of this number are under this sequencer from here on, if it is still open.
pub fn put_sequencer(handles: &mut Table<u64, ClientHandle>, number: u64, sequencer: Option<Bytes>)
    ensures { handles.new ≡ put_under handles.old number sequencer (handle_of handles.old number) }
{
    match handles.get_mut(&number) {
        Some(handle) => drop(mem::replace(&mut handle.sequencer, sequencer)),
        None => drop(sequencer),
    }
}

/// Keeps the new handle under a number, and where it may be shared beside, if the outstanding call is an Open. Where memory
/// runs out both stay as they were.
pub fn keep_handle(
    outstanding: &Option<Outstanding>,
    handles: &mut Table<u64, ClientHandle>,
    shares: &mut KeptHandles<NewHandle>,
    number: u64,
    handle: &NewHandle,
) -> Result<(), AllocError>
    ensures ok { OnOk result (handles.new ≡ handles_behind handles.old number handle.now (opening_of outstanding.now)) }
    ensures ok_shares { OnOk result (shares.new ≡ kept_behind shares.old handle.now (opening_of outstanding.now)) }
    ensures err { OnErr result (handles.new ≡ handles.old) }
    ensures err_shares { OnErr result (shares.new ≡ shares.old) }
{
    let Some(call) = outstanding else {
        return Ok(());
    };
    let Some(opening) = call.opening() else {
        return Ok(());
    };
    let shared = is_shareable(handle, opening);
    let kept = ClientHandle::of(handle, opening, shared)?;
    if !shared {
        drop(handles.put(number, kept)?);
        return Ok(());
    }
    let share = share_of(handle, opening)?;
    put_shared(handles, shares, number, kept, share)
}

// Puts the handle under its number, and keeps it to be shared. Where memory runs out both stay as they were.
fn put_shared(
    handles: &mut Table<u64, ClientHandle>,
    shares: &mut KeptHandles<NewHandle>,
    number: u64,
    handle: ClientHandle,
    share: SharedHandle<NewHandle>,
) -> Result<(), AllocError>
    ensures ok { OnOk result (handles.new ≡ insert_entry nat_cmp handles.old number handle) }
    ensures ok_shares { OnOk result (shares.new ≡ with_kept shares.old share) }
    ensures err { OnErr result (handles.new ≡ handles.old) }
    ensures err_shares { OnErr result (shares.new ≡ shares.old) }
{
    let former = match handles.put(number, handle) {
        Ok(former) => former,
        Err(_) => {
            drop(share);
            return Err(AllocError);
        }
    };
    match shares.keep(share) {
        Ok(()) => {
            drop(former);
            Ok(())
        }
        Err(_) => {
            handles.restore(&number, former);
            Err(AllocError)
        }
    }
}
