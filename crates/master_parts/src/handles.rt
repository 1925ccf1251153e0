//! What a master knows of handles.
ghost use Rattle.std.specs.Prelude.{◌≡◌, Some, IfOk, IfSome};
ghost use Rattle.std.specs.Option.{option_copied};
ghost use Rattle.tags_cell.specs.Handles.{handle_bytes, read_handle};
ghost use Rattle.tags_cell.specs.declared.handles.Handle.{Handle as HandleValue};
ghost use Rattle.master_parts.specs.Keys.{key_of, is_key};
ghost use Rattle.master_parts.specs.Notes.{open_note};
ghost use Rattle.master_parts.specs.OpenHandles.{to_forget};
ghost use Rattle.master_parts.specs.Claims.{owner_of, claim_of};

use collections::{Same, Secret};
use lock_core::{Claim, Hold, Owner};
use node_core::LockMode;
use std::alloc::{AllocError, Global};
use std::marker::Model;
use tags_cell::{Handle, HandleBytes, Ordinal, written_is_read};

/// Which handle it is: the client that opened it, and the number of the call that did. Ordered by client, then number.
#[derive(Clone, Copy, PartialEq, Eq, PartialOrd, Ord)]
pub struct HandleKey {
    pub client: Ordinal,
    pub number: Ordinal,
}

impl HandleKey {
    pub fn of(handle: &Handle) -> HandleKey
        ensures { result ≡ key_of handle.now }
    {
        HandleKey {
            client: handle.client,
            number: handle.number,
        }
    }

    /// Whether it is the same handle.
    pub fn is(&self, other: &HandleKey) -> bool
        ensures { result ≡ is_key self.now other.now }
    {
        self.client.get() == other.client.get() && self.number.get() == other.number.get()
    }
}

// The least key of a client's handles.
pub(crate) fn first_key(client: u64) -> Option<HandleKey>
    ensures { IfSome result (λ key. key ≡ record { client = client; number = 1 }) }
{
    Some(HandleKey {
        client: Ordinal::new(client)?,
        number: Ordinal::new(1)?,
    })
}

/// Who a handle is to a lock.
pub fn owner_of(handle: &Handle) -> Owner
    ensures { result ≡ owner_of handle.now }
{
    Owner {
        client: handle.client.get(),
        handle: handle.number.get(),
    }
}

/// How a handle asks for a lock: with its lock-delay.
pub fn claim_of(handle: &Handle, mode: LockMode) -> Claim
    ensures { result ≡ claim_of handle.now mode }
{
    Claim {
        owner: owner_of(handle),
        hold: Hold {
            mode,
            delay: u64::from(handle.delay.get()),
        },
    }
}

impl Same for HandleKey {
    ghost exact = { λ x y h. h };
}

/// An open handle, with the bytes that its client shows for it: the same bytes need no check digits anew.
#[derive(Drop)]
pub struct OpenHandle {
    handle: Handle,
    bytes: HandleBytes,
    // What the check digits were made over.
    secret: Secret,
}

impl Model for OpenHandle {
    ghost use Rattle.std.specs.Prelude.{◌≡◌, Some};
    ghost use Rattle.tags_cell.specs.Handles.{read_handle};
    ghost use Rattle.master_parts.specs.Handles.{NotedHandle};

    ghost Value = { NotedHandle };

    ghost view = { λ a. record { handle = a.handle; bytes = a.bytes } };

    ghost invariant = { λ a. read_handle a.secret a.bytes ≡ Some a.handle };
}

impl OpenHandle {
    /// A new handle, whose bytes are made here.
    pub fn new(alloc: Global, handle: Handle, secret: &Secret) -> Result<OpenHandle, AllocError>
        ensures { IfOk result (λ noted. noted ≡ record { handle = handle; bytes = handle_bytes secret.now handle }) }
    {
        written_is_read();
        let bytes = handle.write(alloc, secret)?;
        Ok(OpenHandle {
            handle,
            bytes,
            secret: secret.clone()?,
        })
    }

    /// A handle that its client shows for the first time in this epoch.
    pub fn shown(
        alloc: Global,
        handle: &Handle,
        bytes: &[u8],
        secret: &Secret,
    ) -> Result<OpenHandle, AllocError>
        requires { read_handle secret.now bytes.now ≡ Some handle.now }
        ensures { IfOk result (λ noted. noted ≡ record { handle = handle.now; bytes = bytes.now }) }
    {
        let bytes = HandleBytes::copy_of(alloc, bytes)?;
        let secret = secret.clone()?;
        Ok(OpenHandle {
            handle: handle.clone()?,
            bytes,
            secret,
        })
    }

    pub fn bytes(&self) -> &HandleBytes
        ensures { result.now ≡ self.now.bytes }
    {
        &self.bytes
    }

    pub fn handle(&self) -> &Handle
        ensures { result.now ≡ self.now.handle }
    {
        &self.handle
    }

    /// The instance of its node.
    pub fn instance(&self) -> u64
        ensures { result ≡ self.now.handle.instance }
    {
        self.handle.instance.get()
    }

    /// The epoch of the master that gave it.
    pub fn epoch(&self) -> u64
        ensures { result ≡ self.now.handle.epoch }
    {
        self.handle.epoch.get()
    }

    /// The handle, where these are its bytes.
    pub fn handle_of(&self, bytes: &[u8], secret: &Secret) -> Option<&Handle>
        ensures { (handle : HandleValue) → option_copied result ≡ Some handle → read_handle secret.now bytes.now ≡ Some handle }
    {
        if self.bytes.as_slice() == bytes && self.secret.as_bytes() == secret.as_bytes() {
            Some(&self.handle)
        } else {
            None
        }
    }

    /// What is noted of it.
    pub fn note(self) -> OpenNote
        ensures { result ≡ open_note self.handle self.bytes }
    {
        OpenNote {
            key: HandleKey::of(&self.handle),
            noted: self,
        }
    }
}

/// How a handle stands in this epoch.
#[derive(Drop)]
pub enum HandleState {
    /// It was opened, or shown by its client.
    Open(OpenHandle),
    /// It was closed, and is of no use from then on. One that this epoch gave is forgotten instead.
    Closed,
}

/// What a master notes of a handle.
#[derive(Drop)]
pub struct HandleNote {
    pub key: HandleKey,
    /// How it stands from now on; None where it is forgotten.
    pub state: Option<HandleState>,
}

impl HandleNote {
    /// The handle, where it is forgotten.
    pub fn forgets(&self) -> Option<HandleKey>
        ensures { result ≡ to_forget self.now.key self.now.state }
    {
        match &self.state {
            None => Some(self.key),
            Some(_) => None,
        }
    }
}

/// The note of a handle that is open. To a contract it is a `HandleNote`.
#[derive(Drop)]
pub struct OpenNote {
    key: HandleKey,
    noted: OpenHandle,
}

impl Model for OpenNote {
    ghost use Rattle.std.specs.Prelude.{Some};
    ghost use Rattle.master_parts.specs.declared.handles.HandleNote.{HandleNote};
    ghost use Rattle.master_parts.specs.declared.handles.HandleState.TheVariants.{Open};

    ghost Value = { HandleNote };

    ghost view = { λ n. record { key = n.key; state = Some (Open n.noted) } };
}

impl OpenNote {
    /// Which handle it is, and how it stands.
    pub fn parts(self) -> (HandleKey, HandleState)
        ensures { self ≡ record { key = result.0; state = Some result.1 } }
    {
        let OpenNote { key, noted } = self;
        (key, HandleState::Open(noted))
    }

    /// The same among notes of any kind.
    pub fn any(self) -> HandleNote
        ensures { result ≡ self }
    {
        let OpenNote { key, noted } = self;
        HandleNote {
            key,
            state: Some(HandleState::Open(noted)),
        }
    }
}
