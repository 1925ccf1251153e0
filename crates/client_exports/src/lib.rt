//! A client of a cell, for programs in other languages: what stands under `extern "C"` here stands in include/cell_client.h.
//! It is asked and given by bytes, and what came of its last step is kept until the next one.
#![tactic(auto)]

mod acls;
mod asks;
mod calls;
mod changes;
mod handles;
mod held;
mod hits;
mod laws;
mod leases;
mod names;
mod opens;
mod orderly;
mod parts;
mod rooms;
mod shows;
mod statuses;
mod tellings;

ghost use Rattle.std.specs.Prelude.{◌≡◌, ◌≢◌, Ok, Err};
ghost use Rattle.std.specs.Option.{option_map};
ghost use Rattle.client_exports.specs.Opens.{opened};
ghost use Rattle.client_exports.specs.Steps.{beat_held, ask_held, ask_bytes, give_bytes};
ghost use Rattle.client_exports.specs.Shows.{message_bytes, lines_bytes, last_content};
ghost use Rattle.client_core.specs.declared.parts.asks.Ask.TheVariants as asks;
ghost use Rattle.client_core.specs.declared.parts.asks.NodeCall.TheVariants as node_calls;
ghost use Rattle.client_exports.specs.Answers.{Opens, Answers, Fills, Shows};
ghost use Rattle.client_exports.specs.Leases.{EndsAt};
ghost use Rattle.client_exports.specs.Hits.{hit, Hits};
ghost use Rattle.client_exports.specs.Parts.{acls_in, open_ask, open_under_ask, acquire_ask, try_acquire_ask, set_ask, set_acl_ask, ask_parts};
ghost use Rattle.client_exports.specs.Tellings.{telling_at, bytes_at, child_at, acl_at, name_at};

pub use calls::OpenParts;
use client_core::{Ask, NodeCall};
use codec::WireFault;
use handles::{HandlePlace, OwnedClient};
pub use held::HeldClient;
pub use laws::{hit_is_asked, hit_lasts};
use parts::BoxParts;
use rooms::{fill, put, put_hit};
pub use statuses::Status;
use std::alloc::Global;
pub use tellings::LineParts;

/// Opens a client of this number, 1 to 2^53-1, for this principal: 0, and the address that is written owns it. Else 1 for want of
/// memory, 85 for another number and 86 for a text that is no principal; then nothing is written.
#[unsafe(no_mangle)]
pub extern "C" fn cell_client_open(
    alloc: Global,
    number: u64,
    principal: &[u8],
    out: &mut HandlePlace,
) -> u32
    ensures opened { Opens (opened number principal.now) out.new.value result }
    ensures refused { result ≢ 0 → out.new ≡ out.old }
{
    match HeldClient::open(alloc, number, principal) {
        Ok(held) => place(alloc, held, out),
        Err(fault) => Status::Bad(fault).code(),
    }
}

fn place(alloc: Global, held: HeldClient, out: &mut HandlePlace) -> u32
    ensures opened { Opens (Ok held) out.new.value result }
    ensures refused { result ≢ 0 → out.new ≡ out.old }
{
    match Box::new(alloc, held) {
        Ok(held) => {
            *out = HandlePlace::of_parts(BoxParts::of(held));
            Status::Done.code()
        }
        Err(_) => Status::Bad(WireFault::NoMemory).code(),
    }
}

/// Asks for what keeps the session: a Start until there is one, and then a Beat. Moments are milliseconds by the client's clock.
#[unsafe(no_mangle)]
pub extern "C" fn cell_client_beat(handle: &mut OwnedClient, now: u64) -> u32
    ensures { Answers handle.old.value handle.new.value result (beat_held handle.old.value now) }
{
    handle.as_mut().beat(now).code()
}

/// Asks for the call of these bytes: those of a Call's message, with the client's own numbers for handles.
#[unsafe(no_mangle)]
pub extern "C" fn cell_client_ask(handle: &mut OwnedClient, now: u64, call: &[u8]) -> u32
    ensures { Answers handle.old.value handle.new.value result (ask_bytes handle.old.value now call.now) }
{
    handle.as_mut().ask_bytes(now, call).code()
}

/// Asks for the content and the numbers of the node of a handle, by the client's own number. Where the cache answers the content
/// goes into the room, if it fits, and `length` is how long it is.
#[unsafe(no_mangle)]
pub extern "C" fn cell_client_read(
    handle: &mut OwnedClient,
    now: u64,
    number: u64,
    room: &mut [u8],
    length: &mut usize,
) -> u32
    ensures step { Answers handle.old.value handle.new.value result (ask_held handle.old.value now (asks.Node number node_calls.Read)) }
    ensures served { result ≡ 65 → Fills (last_content handle.new.value.lines) room.old room.new length.new }
    ensures other { result ≢ 65 → (room.new ≡ room.old) × (length.new ≡ length.old) }
{
    let code = handle.as_mut().read(now, number).code();
    if code == Status::Served.code() {
        *length = fill(handle.as_mut().content(), room);
    }
    code
}

/// The content that a read of this handle would be served with now, by the client's own number: 65, and it goes into the room, if it
/// fits, and `length` is how long it is; or 0, where the cache wouldn't serve it. Nothing changes, and no time is noted.
#[unsafe(no_mangle)]
pub extern "C" fn cell_client_hit(
    handle: &mut OwnedClient,
    now: u64,
    number: u64,
    room: &mut [u8],
    length: &mut usize,
) -> u32
    ensures shown { Hits (hit handle.old.value now number) room.old room.new length.old length.new result }
    ensures kept { handle.new.value ≡ handle.old.value }
{
    put_hit(handle.as_mut().hit(now, number), room, length)
}

/// Poisons a handle, by the client's own number.
#[unsafe(no_mangle)]
pub extern "C" fn cell_client_poison(handle: &mut OwnedClient, now: u64, number: u64) -> u32
    ensures { Answers handle.old.value handle.new.value result (ask_held handle.old.value now (asks.Poison number)) }
{
    handle.as_mut().poison(now, number).code()
}

/// Opens the node of this name, as these parts say; where it is made, with this content.
#[unsafe(no_mangle)]
pub extern "C" fn cell_client_open_node(
    handle: &mut OwnedClient,
    now: u64,
    name: &[u8],
    opening: &OpenParts,
    content: &[u8],
) -> u32
    ensures { Answers handle.old.value handle.new.value result (ask_parts handle.old.value now (open_ask name.now opening.now content.now)) }
{
    handle
        .as_mut()
        .open_node(now, name, opening, content)
        .code()
}

/// The same, and where the node is made, under these ACL names: to read, to write, and to change the ACL names.
#[unsafe(no_mangle)]
pub extern "C" fn cell_client_open_under(
    handle: &mut OwnedClient,
    now: u64,
    name: &[u8],
    opening: &OpenParts,
    content: &[u8],
    read: &[u8],
    write: &[u8],
    change: &[u8],
) -> u32
    ensures { Answers handle.old.value handle.new.value result (ask_parts handle.old.value now (open_under_ask name.now opening.now content.now (acls_in read.now write.now change.now))) }
{
    handle
        .as_mut()
        .open_under(now, name, opening, content, read, write, change)
        .code()
}

/// Closes a handle.
#[unsafe(no_mangle)]
pub extern "C" fn cell_client_close_handle(handle: &mut OwnedClient, now: u64, number: u64) -> u32
    ensures { Answers handle.old.value handle.new.value result (ask_held handle.old.value now (asks.Close number)) }
{
    handle.as_mut().call(now, Ask::Close(number)).code()
}

/// Asks for the numbers of a handle's node.
#[unsafe(no_mangle)]
pub extern "C" fn cell_client_stat(handle: &mut OwnedClient, now: u64, number: u64) -> u32
    ensures { Answers handle.old.value handle.new.value result (ask_held handle.old.value now (asks.Node number node_calls.Stat)) }
{
    handle.as_mut().call_on(now, number, NodeCall::Stat).code()
}

/// Asks for the names of the children of a handle's directory.
#[unsafe(no_mangle)]
pub extern "C" fn cell_client_list(handle: &mut OwnedClient, now: u64, number: u64) -> u32
    ensures { Answers handle.old.value handle.new.value result (ask_held handle.old.value now (asks.Node number node_calls.List)) }
{
    handle.as_mut().call_on(now, number, NodeCall::List).code()
}

/// Deletes a handle's node.
#[unsafe(no_mangle)]
pub extern "C" fn cell_client_delete(handle: &mut OwnedClient, now: u64, number: u64) -> u32
    ensures { Answers handle.old.value handle.new.value result (ask_held handle.old.value now (asks.Node number node_calls.Delete)) }
{
    handle
        .as_mut()
        .call_on(now, number, NodeCall::Delete)
        .code()
}

/// Gives the lock of a handle's node back.
#[unsafe(no_mangle)]
pub extern "C" fn cell_client_release(handle: &mut OwnedClient, now: u64, number: u64) -> u32
    ensures { Answers handle.old.value handle.new.value result (ask_held handle.old.value now (asks.Node number node_calls.Release)) }
{
    handle
        .as_mut()
        .call_on(now, number, NodeCall::Release)
        .code()
}

/// Asks for what describes the lock that a handle holds.
#[unsafe(no_mangle)]
pub extern "C" fn cell_client_get_sequencer(handle: &mut OwnedClient, now: u64, number: u64) -> u32
    ensures { Answers handle.old.value handle.new.value result (ask_held handle.old.value now (asks.Node number node_calls.GetSequencer)) }
{
    handle
        .as_mut()
        .call_on(now, number, NodeCall::GetSequencer)
        .code()
}

/// Waits for the lock of a handle's node: 0 exclusive, 1 shared.
#[unsafe(no_mangle)]
pub extern "C" fn cell_client_acquire(
    handle: &mut OwnedClient,
    now: u64,
    number: u64,
    mode: u32,
) -> u32
    ensures { Answers handle.old.value handle.new.value result (ask_parts handle.old.value now (acquire_ask number mode)) }
{
    handle.as_mut().acquire(now, number, mode).code()
}

/// The same, and is refused where it would have to wait.
#[unsafe(no_mangle)]
pub extern "C" fn cell_client_try_acquire(
    handle: &mut OwnedClient,
    now: u64,
    number: u64,
    mode: u32,
) -> u32
    ensures { Answers handle.old.value handle.new.value result (ask_parts handle.old.value now (try_acquire_ask number mode)) }
{
    handle.as_mut().try_acquire(now, number, mode).code()
}

/// Sets the whole content of a handle's file; where the generation isn't 0, only where that is the present one.
#[unsafe(no_mangle)]
pub extern "C" fn cell_client_set(
    handle: &mut OwnedClient,
    now: u64,
    number: u64,
    content: &[u8],
    generation: u64,
) -> u32
    ensures { Answers handle.old.value handle.new.value result (ask_parts handle.old.value now (set_ask number content.now generation)) }
{
    handle.as_mut().set(now, number, content, generation).code()
}

/// Names the ACLs of a handle's node: to read, to write, and to change the ACL names; where the generation isn't 0, only where that
/// is the present one of the ACL names.
#[unsafe(no_mangle)]
pub extern "C" fn cell_client_set_acl(
    handle: &mut OwnedClient,
    now: u64,
    number: u64,
    read: &[u8],
    write: &[u8],
    change: &[u8],
    generation: u64,
) -> u32
    ensures { Answers handle.old.value handle.new.value result (ask_parts handle.old.value now (set_acl_ask number (acls_in read.now write.now change.now) generation)) }
{
    handle
        .as_mut()
        .set_acl(now, number, read, write, change, generation)
        .code()
}

/// Sets a sequencer on a handle.
#[unsafe(no_mangle)]
pub extern "C" fn cell_client_set_sequencer(
    handle: &mut OwnedClient,
    now: u64,
    number: u64,
    sequencer: &[u8],
) -> u32
    ensures { Answers handle.old.value handle.new.value result (ask_held handle.old.value now (asks.SetSequencer number sequencer.now)) }
{
    handle.as_mut().set_sequencer(now, number, sequencer).code()
}

/// Asks whether a sequencer is valid.
#[unsafe(no_mangle)]
pub extern "C" fn cell_client_check_sequencer(
    handle: &mut OwnedClient,
    now: u64,
    sequencer: &[u8],
) -> u32
    ensures { Answers handle.old.value handle.new.value result (ask_held handle.old.value now (asks.CheckSequencer sequencer.now)) }
{
    handle.as_mut().check_sequencer(now, sequencer).code()
}

/// Ends the session.
#[unsafe(no_mangle)]
pub extern "C" fn cell_client_leave(handle: &mut OwnedClient, now: u64) -> u32
    ensures { Answers handle.old.value handle.new.value result (ask_held handle.old.value now asks.Leave) }
{
    handle.as_mut().call(now, Ask::Leave).code()
}

/// Gives the client the master's message of these bytes.
#[unsafe(no_mangle)]
pub extern "C" fn cell_client_give(handle: &mut OwnedClient, now: u64, message: &[u8]) -> u32
    ensures { Answers handle.old.value handle.new.value result (give_bytes handle.old.value now message.now) }
{
    handle.as_mut().give_bytes(now, message).code()
}

/// The bytes of the message that the last step gave to be sent, none where it gave none: 0, or why there are none.
#[unsafe(no_mangle)]
pub extern "C" fn cell_client_message(
    handle: &mut OwnedClient,
    room: &mut [u8],
    length: &mut usize,
) -> u32
    ensures shown { Shows (message_bytes handle.old.value.request) room.old room.new length.old length.new result }
    ensures kept { handle.new.value ≡ handle.old.value }
{
    put(handle.as_mut().message(), room, length)
}

/// The bytes of the outstanding call's message, none where no call is outstanding: 0, or why there are none.
#[unsafe(no_mangle)]
pub extern "C" fn cell_client_again(
    handle: &mut OwnedClient,
    room: &mut [u8],
    length: &mut usize,
) -> u32
    ensures shown { Shows (message_bytes (option_map (λ call. call.request) handle.old.value.client.outstanding)) room.old room.new length.old length.new result }
    ensures kept { handle.new.value ≡ handle.old.value }
{
    put(handle.as_mut().again(), room, length)
}

/// The lines of the last step, each with an LF after it: 0, or 1 for want of memory.
#[unsafe(no_mangle)]
pub extern "C" fn cell_client_lines(
    handle: &mut OwnedClient,
    room: &mut [u8],
    length: &mut usize,
) -> u32
    ensures shown { Shows (Ok (lines_bytes handle.old.value.lines)) room.old room.new length.old length.new result }
    ensures kept { handle.new.value ≡ handle.old.value }
{
    put(handle.as_mut().lines(), room, length)
}

/// The content of the view that the last line shows, empty where it shows none: how long it is.
#[unsafe(no_mangle)]
pub extern "C" fn cell_client_content(handle: &mut OwnedClient, room: &mut [u8]) -> usize
    ensures shown { Fills (last_content handle.old.value.lines) room.old room.new result }
    ensures kept { handle.new.value ≡ handle.old.value }
{
    fill(handle.as_mut().content(), room)
}

/// The line of the last step that stands at this place, the first at 0, in parts.
#[unsafe(no_mangle)]
pub extern "C" fn cell_client_line(handle: &mut OwnedClient, place: usize, out: &mut LineParts)
    ensures shown { out.new ≡ telling_at handle.old.value.lines place }
    ensures kept { handle.new.value ≡ handle.old.value }
{
    *out = handle.as_mut().telling(place);
}

/// The content, or the sequencer, that the line at this place shows, empty where it shows none: how long it is.
#[unsafe(no_mangle)]
pub extern "C" fn cell_client_line_bytes(
    handle: &mut OwnedClient,
    place: usize,
    room: &mut [u8],
) -> usize
    ensures shown { Fills (bytes_at handle.old.value.lines place) room.old room.new result }
    ensures kept { handle.new.value ≡ handle.old.value }
{
    fill(handle.as_mut().told_bytes(place), room)
}

/// The last component of the name of a child, the first at 0, that the line at this place shows, empty where it shows none there: how
/// long it is.
#[unsafe(no_mangle)]
pub extern "C" fn cell_client_line_child(
    handle: &mut OwnedClient,
    place: usize,
    index: usize,
    room: &mut [u8],
) -> usize
    ensures shown { Fills (child_at handle.old.value.lines place index) room.old room.new result }
    ensures kept { handle.new.value ≡ handle.old.value }
{
    fill(handle.as_mut().told_child(place, index), room)
}

/// The ACL for a right of the node that the line at this place shows, 1 to read, 2 to write, 4 to change ACL names, empty where it
/// shows none: how long it is.
#[unsafe(no_mangle)]
pub extern "C" fn cell_client_line_acl(
    handle: &mut OwnedClient,
    place: usize,
    right: u32,
    room: &mut [u8],
) -> usize
    ensures shown { Fills (acl_at handle.old.value.lines place right) room.old room.new result }
    ensures kept { handle.new.value ≡ handle.old.value }
{
    fill(handle.as_mut().told_acl(place, right), room)
}

/// The whole name of the child that the event at this place tells of, or of the node that the cache served there, empty where it is
/// another line: how long it is.
#[unsafe(no_mangle)]
pub extern "C" fn cell_client_line_name(
    handle: &mut OwnedClient,
    place: usize,
    room: &mut [u8],
) -> usize
    ensures shown { Fills (name_at handle.old.value.lines place) room.old room.new result }
    ensures kept { handle.new.value ≡ handle.old.value }
{
    fill(handle.as_mut().told_name(place), room)
}

/// The moment from which on the client trusts its lease no more, if it gets no better one; 0 where it has none.
#[unsafe(no_mangle)]
pub extern "C" fn cell_client_leased_until(handle: &mut OwnedClient) -> u64
    ensures end { EndsAt handle.old.value.client.cache.lease result }
    ensures kept { handle.new.value ≡ handle.old.value }
{
    handle.as_mut().leased_until()
}

/// Frees the client.
#[unsafe(no_mangle)]
pub extern "C" fn cell_client_close(handle: OwnedClient) {
    let held = handle.into_parts().into_box();
    goes_to_any_thread(&held);
    drop(held);
}

// A program may hand a client from thread to thread: the check wants `Send` of it here.
fn goes_to_any_thread<T: Send>(_value: &T) {}
