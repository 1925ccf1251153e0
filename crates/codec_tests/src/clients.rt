//! What a client is, as bytes.
use crate::masters::show_request;
use crate::sheets::Sheet;
use cache_core::{Cache, KeptHandles};
use client_core::{Client, ClientHandle};
use collections::Table;
use names_cell::Name;
use tags_cell::NewHandle;

// More than any instance in the tests.
const INSTANCE_END: u64 = 40;

const MOMENT_END: u64 = 0x20_0000_0000_0000;

fn show_own(sheet: &mut Sheet, handles: &Table<u64, ClientHandle>) {
    for (number, handle) in handles.as_map() {
        sheet.word(*number);
        sheet.block(handle.bytes.as_slice());
        sheet.block(handle.name.as_str().as_bytes());
        sheet.word(handle.instance.get());
        sheet.bytes(&[handle.mode.bits()]);
        sheet.shown(&handle.life);
        sheet.word(u64::from(handle.poisoned));
        sheet.word(u64::from(handle.shared));
        sheet.told(&handle.sequencer);
    }
}

// The first moment, of those before the end, at which the lease has ended.
fn lease_end(cache: &Cache) -> u64 {
    let mut low = 0u64;
    let mut high = MOMENT_END;
    for _ in 0..54u32 {
        let middle = low.saturating_add(high.saturating_sub(low) / 2);
        if cache.is_leased(middle) {
            low = middle;
        } else {
            high = middle;
        }
    }
    high
}

fn show_cache(sheet: &mut Sheet, cache: &Cache, clock: u64, names: &[Name]) {
    sheet.word(u64::from(cache.is_enabled()));
    sheet.word(lease_end(cache));
    let mut count = 0usize;
    for name in names {
        if let Some(entry) = cache.look(name, clock) {
            sheet.block(name.as_str().as_bytes());
            if let Some(shared) = entry {
                let view = shared.get();
                sheet.shown(view);
                sheet.block(view.node.content.as_slice());
            }
            count = count.saturating_add(1);
        }
    }
    if count != cache.len() {
        sheet.is_short = true;
    }
}

// The handles on a name; of several on one instance the oldest.
fn show_shared_on(sheet: &mut Sheet, kept: &KeptHandles<NewHandle>, name: &Name) {
    for instance in 1..INSTANCE_END {
        if let Some(handle) = kept.kept_for(name, instance) {
            sheet.word(instance);
            sheet.block(handle.bytes.as_slice());
            sheet.word(handle.instance.get());
            sheet.shown(&handle.life);
        }
    }
}

fn show_shared(sheet: &mut Sheet, kept: &KeptHandles<NewHandle>, names: &[Name]) {
    sheet.word(kept.len() as u64);
    for name in names {
        if !kept.is_empty() {
            sheet.block(name.as_str().as_bytes());
            show_shared_on(sheet, kept, name);
        }
    }
}

/// Writes all of a client. The names are all that it may know.
pub(crate) fn show_client(sheet: &mut Sheet, number: u64, client: &Client, names: &[Name]) {
    let seen = client.seen();
    sheet.begin("moment", number);
    sheet.word(seen.clock);
    sheet.begin("sendings", number);
    sheet.word(seen.beats);
    sheet.word(seen.sent);
    sheet.begin("standing", number);
    sheet.told(&seen.session);
    sheet.told(&seen.standing);
    sheet.word(seen.epoch);
    sheet.begin("processed", number);
    sheet.word(seen.processed);
    sheet.word(seen.heard);
    sheet.begin("call", number);
    sheet.word(seen.calls);
    if let Some(call) = seen.outstanding {
        show_request(sheet, &call.request);
        sheet.told(&call.target);
    }
    sheet.begin("own handles", number);
    sheet.word(seen.opened);
    show_own(sheet, seen.handles);
    sheet.begin("shared handles", number);
    show_shared(sheet, seen.kept, names);
    sheet.begin("cache", number);
    show_cache(sheet, seen.cache, seen.clock, names);
}
