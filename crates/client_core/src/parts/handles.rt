//! What a client keeps of a handle.
ghost use Rattle.std.specs.Prelude.{◌≡◌, IfOk};
ghost use Rattle.client_core.specs.Opens.{is_plain, is_read_only, only_reads, is_shareable, kept_handle, read_answer, names_in, list_answer, cached_answer};

use crate::parts::asks::NodeCall;
use cache_core::{Shared, SharedHandle};
use collections::Bytes;
use names_cell::Name;
use node_core::{Answer, Fault, Kind, Life, Right, View};
use std::alloc::AllocError;
use tags_cell::{HandleBytes, Mode, NewHandle, Open, Ordinal};

/// A handle of a client's: the bytes as its master sent them, which a client doesn't read; its name and mode, as they
/// were asked for; the instance and the life of the node, as the master told them; whether it was poisoned; and the
/// sequencer that its calls stand under.
#[derive(Drop)]
pub struct ClientHandle {
    pub bytes: HandleBytes,
    pub name: Name,
    /// The handle is of no use for a later node of the same name.
    pub instance: Ordinal,
    pub mode: Mode,
    pub life: Life,
    /// From then on every call on it but a Close is refused by the client itself (Burrows 2006, section 2.6).
    pub poisoned: bool,
    /// The master's handle may be behind several of the client's numbers, and stays open when one of them is closed
    /// (Burrows 2006, section 2.7).
    pub shared: bool,
    /// The bytes of the sequencer that was set on the client's number, also where the master's handle is shared: each call
    /// on it but a Close carries it, and the cache answers none (Burrows 2006, section 2.4).
    pub sequencer: Option<Bytes>,
}

impl Clone for ClientHandle {
    ghost is_clone = { λ s t. t ≡ s };

    fn clone(&self) -> Result<ClientHandle, AllocError> {
        Ok(ClientHandle {
            bytes: self.bytes.clone()?,
            name: self.name.clone()?,
            instance: self.instance,
            mode: self.mode,
            life: self.life,
            poisoned: self.poisoned,
            shared: self.shared,
            sequencer: match &self.sequencer {
                Some(sequencer) => Some(sequencer.clone()?),
                None => None,
            },
        })
    }
}

impl ClientHandle {
    /// What is kept of the handle that an Open gave.
    pub fn of(handle: &NewHandle, opening: &Open, shared: bool) -> Result<ClientHandle, AllocError>
        ensures { IfOk result (λ kept. kept ≡ kept_handle handle.now opening.now shared) }
    {
        Ok(ClientHandle {
            bytes: handle.bytes.clone()?,
            name: opening.name.clone()?,
            instance: handle.instance,
            mode: opening.mode,
            life: handle.life,
            poisoned: false,
            shared,
            sequencer: None,
        })
    }

    /// How a read of it ends where this is cached under its name: only a view of its own instance is of use.
    pub fn read_answer(&self, entry: &Option<Shared<View>>) -> Result<Answer, AllocError>
        ensures { IfOk result (λ answer. answer ≡ read_answer self.now entry.now) }
    {
        match entry {
            Some(view) if view.get().node.instance == self.instance.get() => {
                Ok(Answer::Viewed(view.get().clone()?))
            }
            Some(_) | None => Ok(Answer::Refused(Fault::StaleInstance)),
        }
    }

    /// How a ReadDir of it ends where this is cached under its name; None where that is a file of its own instance.
    pub fn list_answer(&self, entry: &Option<Shared<View>>) -> Result<Option<Answer>, AllocError>
        ensures { IfOk result (λ answer. answer ≡ list_answer self.now entry.now) }
    {
        match entry {
            Some(view) if self.instance.get() == view.get().node.instance => names_in(view.get()),
            Some(_) | None => Ok(Some(Answer::Refused(Fault::StaleInstance))),
        }
    }

    /// How a call on it ends where this is cached under its name; None where the master has to answer it.
    pub fn cached_answer(
        &self,
        call: &NodeCall,
        entry: &Option<Shared<View>>,
    ) -> Result<Option<Answer>, AllocError>
        ensures { IfOk result (λ answer. answer ≡ cached_answer self.now call.now entry.now) }
    {
        match call {
            NodeCall::Read => Ok(Some(self.read_answer(entry)?)),
            NodeCall::List => self.list_answer(entry),
            _ => Ok(None),
        }
    }
}

// The children of a directory.
fn names_in(view: &View) -> Result<Option<Answer>, AllocError>
    ensures { IfOk result (λ answer. answer ≡ names_in view.now.node.kind view.now.children) }
{
    match view.node.kind {
        Kind::Directory => Ok(Some(Answer::Names(view.children.clone()?))),
        Kind::File => Ok(None),
    }
}

/// Whether an Open makes nothing.
pub fn is_plain(opening: &Open) -> bool
    ensures { result ≡ is_plain opening.now }
{
    opening.create.is_none()
}

/// Whether it is to read, and for nothing else.
pub fn is_read_only(mode: Mode) -> bool
    ensures { result ≡ is_read_only mode }
{
    mode.has(Right::Read) && !mode.has(Right::Write) && !mode.has(Right::Change)
}

/// Whether an Open is to read alone, and asks for no lock-delay and for no events.
pub fn only_reads(opening: &Open) -> bool
    ensures { result ≡ only_reads opening.now }
{
    is_read_only(opening.mode) && opening.delay == 0 && opening.events.is_none()
}

/// Whether the handle that an Open gave is kept, to be shared: of such a plain Open, on a permanent node.
pub fn is_shareable(handle: &NewHandle, opening: &Open) -> bool
    ensures { result ≡ is_shareable handle.now opening.now }
{
    is_plain(opening) && only_reads(opening) && handle.life == Life::Permanent
}

/// A handle that is kept to be shared.
pub fn share_of(handle: &NewHandle, opening: &Open) -> Result<SharedHandle<NewHandle>, AllocError>
    ensures { IfOk result (λ kept. kept ≡ record { name = opening.now.name; instance = handle.now.instance; handle = handle.now }) }
{
    Ok(SharedHandle {
        name: opening.name.clone()?,
        instance: handle.instance.get(),
        handle: handle.clone()?,
    })
}
