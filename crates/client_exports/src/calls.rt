//! The calls that a holder asks for by their parts.
ghost use Rattle.std.specs.Prelude.{◌≡◌, Ok};
ghost use Rattle.collections.specs.Results.{Gives};
ghost use Rattle.client_core.specs.declared.parts.asks.Ask.TheVariants as asks;
ghost use Rattle.client_core.specs.declared.parts.asks.NodeCall.TheVariants as node_calls;
ghost use Rattle.client_exports.specs.Steps.{ask_held, Makes, Stays};
ghost use Rattle.client_exports.specs.Parts.{mode_in, events_in, lock_mode_in, life_in, node_in, disposition_in, generation_in, made_as, create_in, name_in, opening_of, open_ask, acquire_ask, try_acquire_ask, set_ask, ask_parts};

use crate::held::HeldClient;
use crate::statuses::Status;
use client_core::{Ask, NodeCall};
use codec::WireFault;
use collections::Bytes;
use names_cell::Name;
use node_core::{Life, LockMode};
use std::alloc::Global;
use std::str;
use tags_cell::{Create, Disposition, Events, Mode, NewNode, Open};

/// How a node is opened, in plain numbers. In C a struct.
#[repr(C)]
#[derive(Clone, Copy)]
pub struct OpenParts {
    /// For how long nobody else gets a lock that the handle holds when its session expires, in milliseconds.
    pub lock_delay: u64,
    /// 1 to read, 2 to write, 4 to change ACL names, added.
    pub mode: u8,
    /// Of which events the client is told: 1 contents, 2 children, 4 the lock, 8 a conflicting request, added.
    pub events: u8,
    /// 0 makes nothing, 1 makes the node where there is none, 2 is refused where there is one.
    pub create: u8,
    /// Of a node that is made: 0 a file, 1 a directory.
    pub kind: u8,
    /// Of a node that is made: 0 permanent, 1 ephemeral.
    pub life: u8,
}

impl HeldClient {
    /// Opens the node of this name, or makes it, then with this content.
    pub fn open_node(
        &mut self,
        now: u64,
        name: &[u8],
        opening: &OpenParts,
        content: &[u8],
    ) -> Status
        ensures step { Makes self.old self.new result (ask_parts self.old now (open_ask name.now opening.now content.now)) }
        ensures kept { Stays self.old self.new result }
    {
        match open_ask(self.alloc, name, opening, content) {
            Ok(ask) => self.call(now, ask),
            Err(fault) => Status::Bad(fault),
        }
    }

    /// Waits for the lock of a handle's node, by the number of the mode.
    pub fn acquire(&mut self, now: u64, handle: u64, mode: u32) -> Status
        ensures step { Makes self.old self.new result (ask_parts self.old now (acquire_ask handle mode)) }
        ensures kept { Stays self.old self.new result }
    {
        match acquire_ask(handle, mode) {
            Ok(ask) => self.call(now, ask),
            Err(fault) => Status::Bad(fault),
        }
    }

    /// The same, and is refused where it would have to wait.
    pub fn try_acquire(&mut self, now: u64, handle: u64, mode: u32) -> Status
        ensures step { Makes self.old self.new result (ask_parts self.old now (try_acquire_ask handle mode)) }
        ensures kept { Stays self.old self.new result }
    {
        match try_acquire_ask(handle, mode) {
            Ok(ask) => self.call(now, ask),
            Err(fault) => Status::Bad(fault),
        }
    }

    /// Sets the content of a handle's node; where the generation isn't 0, only where that is the present one.
    pub fn set(&mut self, now: u64, handle: u64, content: &[u8], generation: u64) -> Status
        ensures step { Makes self.old self.new result (ask_parts self.old now (set_ask handle content.now generation)) }
        ensures kept { Stays self.old self.new result }
    {
        match set_ask(self.alloc, handle, content, generation) {
            Ok(ask) => self.call(now, ask),
            Err(fault) => Status::Bad(fault),
        }
    }

    /// Sets a sequencer on a handle: once the master took it the calls on the handle but for a Close carry it.
    pub fn set_sequencer(&mut self, now: u64, handle: u64, sequencer: &[u8]) -> Status
        ensures step { Makes self.old self.new result (ask_held self.old now (asks.SetSequencer handle sequencer.now)) }
        ensures kept { Stays self.old self.new result }
    {
        match Bytes::copy_of(self.alloc, sequencer) {
            Ok(sequencer) => self.call(now, Ask::SetSequencer(handle, sequencer)),
            Err(_) => Status::Bad(WireFault::NoMemory),
        }
    }

    /// Asks whether a sequencer is valid.
    pub fn check_sequencer(&mut self, now: u64, sequencer: &[u8]) -> Status
        ensures step { Makes self.old self.new result (ask_held self.old now (asks.CheckSequencer sequencer.now)) }
        ensures kept { Stays self.old self.new result }
    {
        match Bytes::copy_of(self.alloc, sequencer) {
            Ok(sequencer) => self.call(now, Ask::CheckSequencer(sequencer)),
            Err(_) => Status::Bad(WireFault::NoMemory),
        }
    }

    /// Asks for a call that has no other part than its handle's number.
    pub(crate) fn call_on(&mut self, now: u64, handle: u64, call: NodeCall) -> Status
        ensures step { Makes self.old self.new result (ask_held self.old now (asks.Node handle call)) }
        ensures kept { Stays self.old self.new result }
    {
        self.call(now, Ask::Node(handle, call))
    }

    /// Asks for this call.
    pub(crate) fn call(&mut self, now: u64, ask: Ask) -> Status
        ensures step { Makes self.old self.new result (ask_held self.old now ask) }
        ensures kept { Stays self.old self.new result }
    {
        let status = self.ask(now, &ask);
        drop(ask);
        status
    }
}

pub(crate) fn open_ask(
    alloc: Global,
    name: &[u8],
    opening: &OpenParts,
    content: &[u8],
) -> Result<Ask, WireFault>
    ensures { Gives WireFault.NoMemory result (open_ask name.now opening.now content.now) }
{
    let mode = mode_in(opening.mode)?;
    let events = events_in(opening.events)?;
    let create = create_in(alloc, opening, content)?;
    opened(alloc, name, opening.lock_delay, mode, events, create)
}

fn opened(
    alloc: Global,
    name: &[u8],
    delay: u64,
    mode: Mode,
    events: Events,
    create: Option<Create>,
) -> Result<Ask, WireFault>
    ensures { Gives WireFault.NoMemory result (opening_of delay mode events (Ok create) (name_in name.now)) }
{
    match name_in(alloc, name) {
        Ok(name) => Ok(Ask::Open(Open {
            name,
            mode,
            create,
            delay,
            events,
        })),
        Err(fault) => {
            drop(create);
            Err(fault)
        }
    }
}

fn name_in(alloc: Global, name: &[u8]) -> Result<Name, WireFault>
    ensures { Gives WireFault.NoMemory result (name_in name.now) }
{
    let Ok(text) = str::from_utf8(name) else {
        return Err(WireFault::BadText);
    };
    Ok(Name::parse(alloc, text)?)
}

fn create_in(
    alloc: Global,
    opening: &OpenParts,
    content: &[u8],
) -> Result<Option<Create>, WireFault>
    ensures { Gives WireFault.NoMemory result (create_in opening.now content.now) }
{
    match disposition_in(opening.create)? {
        Some(disposition) => made_as(alloc, disposition, opening, content),
        None => Ok(None),
    }
}

fn made_as(
    alloc: Global,
    disposition: Disposition,
    opening: &OpenParts,
    content: &[u8],
) -> Result<Option<Create>, WireFault>
    ensures { Gives WireFault.NoMemory result (made_as disposition (life_in opening.now.life) (node_in opening.now.kind content.now)) }
{
    let life = life_in(opening.life)?;
    let node = node_in(alloc, opening.kind, content)?;
    Ok(Some(Create {
        disposition,
        node,
        life,
        acls: None,
    }))
}

fn mode_in(bits: u8) -> Result<Mode, WireFault>
    ensures { result ≡ mode_in bits }
{
    Mode::from_bits(bits).ok_or(WireFault::BadNumber)
}

fn events_in(bits: u8) -> Result<Events, WireFault>
    ensures { result ≡ events_in bits }
{
    Events::from_bits(bits).ok_or(WireFault::BadNumber)
}

fn disposition_in(create: u8) -> Result<Option<Disposition>, WireFault>
    ensures { result ≡ disposition_in create }
{
    if create == 0 {
        Ok(None)
    } else if create == 1 {
        Ok(Some(Disposition::May))
    } else if create == 2 {
        Ok(Some(Disposition::Must))
    } else {
        Err(WireFault::BadKind)
    }
}

fn life_in(life: u8) -> Result<Life, WireFault>
    ensures { result ≡ life_in life }
{
    if life == 0 {
        Ok(Life::Permanent)
    } else if life == 1 {
        Ok(Life::Ephemeral)
    } else {
        Err(WireFault::BadKind)
    }
}

fn node_in(alloc: Global, kind: u8, content: &[u8]) -> Result<NewNode, WireFault>
    ensures { Gives WireFault.NoMemory result (node_in kind content.now) }
{
    if kind == 0 {
        Ok(NewNode::File(Bytes::copy_of(alloc, content)?))
    } else if kind == 1 {
        Ok(NewNode::Directory)
    } else {
        Err(WireFault::BadKind)
    }
}

fn lock_mode_in(mode: u32) -> Result<LockMode, WireFault>
    ensures { result ≡ lock_mode_in mode }
{
    if mode == 0 {
        Ok(LockMode::Exclusive)
    } else if mode == 1 {
        Ok(LockMode::Shared)
    } else {
        Err(WireFault::BadKind)
    }
}

fn acquire_ask(handle: u64, mode: u32) -> Result<Ask, WireFault>
    ensures { result ≡ acquire_ask handle mode }
{
    Ok(Ask::Node(handle, NodeCall::Acquire(lock_mode_in(mode)?)))
}

fn try_acquire_ask(handle: u64, mode: u32) -> Result<Ask, WireFault>
    ensures { result ≡ try_acquire_ask handle mode }
{
    Ok(Ask::Node(handle, NodeCall::TryAcquire(lock_mode_in(mode)?)))
}

fn set_ask(alloc: Global, handle: u64, content: &[u8], generation: u64) -> Result<Ask, WireFault>
    ensures { Gives WireFault.NoMemory result (set_ask handle content.now generation) }
{
    let content = Bytes::copy_of(alloc, content)?;
    Ok(Ask::Node(handle, NodeCall::Set(content, generation_in(generation))))
}

pub(crate) fn generation_in(generation: u64) -> Option<u64>
    ensures { result ≡ generation_in generation }
{
    if generation == 0 {
        None
    } else {
        Some(generation)
    }
}
