//! The handles that clients show.
ghost use Rattle.std.specs.Prelude.{◌≡◌, Some, IfOk};
ghost use Rattle.std.specs.Option.{option_copied};
ghost use Rattle.tags_cell.specs.Handles.{read_handle};
ghost use Rattle.tags_cell.specs.declared.handles.Handle.{Handle as HandleValue};
ghost use Rattle.master_state.specs.NameSpace.{name_space};
ghost use Rattle.master_state.specs.Lookups.{handle_state_of, is_usable, own_handle, shown_handle, node_of_handle, has_open, has_to_stay};
ghost use Rattle.master_parts.specs.Keys.{key_of};

use crate::masters::Master;
use master_parts::{HandleKey, HandleState};
use names_cell::Name;
use node_core::Node;
use std::alloc::AllocError;
use tags_cell::{ClientNumber, Handle, HandleFault, Ordinal};

// The key of the handle whose bytes these are, where they are a handle's of this client: its number stands in the eight
// bytes from 17.
fn shown_key(client: ClientNumber, bytes: &[u8]) -> Option<HandleKey> {
    let number = bytes.get(17..)?.first_chunk::<8>()?;
    Some(HandleKey {
        client: Ordinal::from(client),
        number: Ordinal::new(u64::from_be_bytes(*number))?,
    })
}

impl Master {
    /// The handle whose bytes these are. Its check digits are made anew only where no open handle is noted with the same
    /// bytes.
    pub fn handle_in(
        &self,
        client: ClientNumber,
        bytes: &[u8],
    ) -> Result<Option<Handle>, AllocError>
        ensures { IfOk result (λ handle. handle ≡ read_handle self.now.secret bytes.now) }
    {
        match self.noted_handle(client, bytes) {
            Some(handle) => Ok(Some(handle.clone()?)),
            None => self.read_handle(bytes),
        }
    }

    // The open handle that is noted of this client, where these are its bytes.
    fn noted_handle(&self, client: ClientNumber, bytes: &[u8]) -> Option<&Handle>
        ensures { (handle : HandleValue) → option_copied result ≡ Some handle → read_handle self.now.secret bytes.now ≡ Some handle }
    {
        match self.handles().get(&shown_key(client, bytes)?)? {
            HandleState::Open(noted) => noted.handle_of(bytes, &self.secret),
            HandleState::Closed => None,
        }
    }

    fn read_handle(&self, bytes: &[u8]) -> Result<Option<Handle>, AllocError>
        ensures { IfOk result (λ handle. handle ≡ read_handle self.now.secret bytes.now) }
    {
        match Handle::read(self.alloc, bytes, &self.secret) {
            Ok(handle) => Ok(Some(handle)),
            Err(HandleFault::BadHandle) => Ok(None),
            Err(HandleFault::NoMemory) => Err(AllocError),
        }
    }

    /// The handle that a client shows, where it is the client's own and of use.
    pub fn shown_handle(
        &self,
        client: ClientNumber,
        bytes: &[u8],
    ) -> Result<Option<Handle>, AllocError>
        ensures own { IfOk result (λ handle. handle ≡ shown_handle self.now client bytes.now) }
        ensures read { IfOk result (λ shown. (handle : HandleValue) → shown ≡ Some handle → read_handle self.now.secret bytes.now ≡ Some handle) }
    {
        match self.handle_in(client, bytes)? {
            None => Ok(None),
            Some(handle) => Ok(self.own_handle(client, handle)),
        }
    }

    fn own_handle(&self, client: ClientNumber, handle: Handle) -> Option<Handle>
        ensures { result ≡ own_handle self.now client handle }
    {
        if handle.client.get() == client.get() && self.is_usable(&handle) {
            Some(handle)
        } else {
            None
        }
    }

    fn is_usable(&self, handle: &Handle) -> bool
        ensures { result ≡ is_usable self.now handle.now (handle_state_of self.now (key_of handle.now)) }
    {
        self.is_usable_as(handle, self.handles().get(&HandleKey::of(handle)))
    }

    // By what is noted of it, if anything.
    fn is_usable_as(&self, handle: &Handle, state: Option<&HandleState>) -> bool
        ensures { result ≡ is_usable self.now handle.now (option_copied state.entry) }
    {
        let epoch = handle.epoch.get();
        match state {
            Some(HandleState::Open(noted)) => epoch == noted.epoch(),
            Some(HandleState::Closed) => false,
            None => epoch < self.epoch,
        }
    }

    /// Whether an open handle of a live session is one of the node.
    pub fn has_open(&self, instance: u64) -> bool
        ensures { result ≡ has_open self.now instance }
    {
        self.tables.is_held_open(instance)
    }

    /// Whether the node of a name stays whoever holds it open: the root, and a directory with children.
    pub fn has_to_stay(&self, name: &Name) -> Result<bool, AllocError>
        ensures { IfOk result (λ stays. stays ≡ has_to_stay self.now name.now) }
    {
        self.tables.must_stay(name)
    }

    /// The node of a handle, where its instance is there.
    pub fn node_of(&self, handle: &Handle) -> Option<&Node>
        ensures { option_copied result ≡ node_of_handle (name_space self.now) handle.now }
    {
        let node = self.map().get(&handle.name)?;
        if node.instance == handle.instance.get() {
            Some(node)
        } else {
            None
        }
    }
}
