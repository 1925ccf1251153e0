//! A content out of the cache, looked up by a handle.
ghost use Rattle.std.specs.Prelude.{◌≡◌, nat_lt, is_none};
ghost use Rattle.std.specs.Option.{option_copied};
ghost use Rattle.lease_core.specs.Lease.{moment_limit};
ghost use Rattle.cache_core.specs.Caches.{answer};
ghost use Rattle.client_core.specs.Handles.{handle_of};
ghost use Rattle.client_core.specs.Asks.{fault_then};
ghost use Rattle.client_exports.specs.Hits.{hit, is_readable, readable, own_content, shown, found};

use crate::held::HeldClient;
use cache_core::{Cache, Shared};
use client_core::{Client, ClientHandle, standing_by};
use collections::Table;
use lease_core::MOMENT_LIMIT;
use node_core::{Right, View};

impl HeldClient {
    /// The content that a read of this handle would be served with, were it asked for at this moment; None where the cache wouldn't
    /// serve it. Changes nothing, notes no time and takes no memory: a look-up of the handle's number and one of its name.
    pub fn hit(&self, now: u64, number: u64) -> Option<&[u8]>
        ensures { option_copied result ≡ hit self.now now number }
    {
        if !is_moment(now) {
            return None;
        }
        let client = self.client.get();
        let seen = client.seen();
        let moment = seen.clock.max(now);
        if !is_safe(client, moment) {
            return None;
        }
        found(seen.cache, readable(seen.handles, number), moment)
    }
}

fn is_moment(now: u64) -> bool
    ensures { result ≡ nat_lt now moment_limit }
{
    now < MOMENT_LIMIT
}

// Whether the client may rely on its session then.
fn is_safe(client: &Client, moment: u64) -> bool
    ensures { result ≡ is_none (fault_then client.now moment) }
{
    let seen = client.seen();
    let standing = standing_by(seen.standing, seen.cache, moment);
    seen.session.fault(standing).is_none()
}

// The handle of this number, where the cache may answer a read of it.
fn readable(handles: &Table<u64, ClientHandle>, number: u64) -> Option<&ClientHandle>
    ensures { option_copied result ≡ readable (handle_of handles.now number) }
{
    let Some(handle) = handles.get(&number) else {
        return None;
    };
    if !is_readable(handle) {
        return None;
    }
    Some(handle)
}

fn is_readable(handle: &ClientHandle) -> bool
    ensures { result ≡ is_readable handle.now }
{
    !handle.poisoned && handle.mode.has(Right::Read) && handle.sequencer.is_none()
}

fn found<'a>(cache: &'a Cache, handle: Option<&ClientHandle>, moment: u64) -> Option<&'a [u8]>
    ensures { option_copied result ≡ found cache.now moment (option_copied handle.entry) }
{
    match handle {
        Some(handle) => shown(cache, handle, moment),
        None => None,
    }
}

fn shown<'a>(cache: &'a Cache, handle: &ClientHandle, moment: u64) -> Option<&'a [u8]>
    ensures { option_copied result ≡ shown handle.now (answer cache.now moment handle.now.name) }
{
    match cache.look(&handle.name, moment) {
        Some(entry) => own_content(handle, entry),
        None => None,
    }
}

// What is cached under the handle's name, if it is the handle's node.
fn own_content<'a>(handle: &ClientHandle, entry: &'a Option<Shared<View>>) -> Option<&'a [u8]>
    ensures { option_copied result ≡ own_content handle.now entry.now }
{
    match entry {
        Some(view) if view.get().node.instance == handle.instance.get() => {
            Some(view.get().node.content.as_slice())
        }
        Some(_) | None => None,
    }
}
