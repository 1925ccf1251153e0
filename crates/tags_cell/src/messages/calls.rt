//! What a client calls.
ghost use Rattle.std.specs.Prelude.{◌≡◌};

use crate::handle_bytes::HandleBytes;
use crate::masks::Events;
use crate::modes::Mode;
use collections::{Bytes, Same};
use names_cell::{Component, Name};
use node_core::{Life, LockMode};
use std::alloc::AllocError;

/// Whether a node that is to be made may be there already.
#[derive(Clone, Copy)]
pub enum Disposition {
    /// Where a node of the name is there, it is opened.
    May,
    /// Where a node of the name is there, the call is refused.
    Must,
}

impl Same for Disposition {
    ghost exact = { λ x y h. h };
}

/// The names of a node's three ACLs, each a file in the cell's ACL directory (Burrows 2006, section 2.3).
#[derive(Drop)]
pub struct AclNames {
    pub read: Component,
    pub write: Component,
    pub change: Component,
}

impl Clone for AclNames {
    ghost is_clone = { λ s t. t ≡ s };

    fn clone(&self) -> Result<AclNames, AllocError> {
        Ok(AclNames {
            read: self.read.clone()?,
            write: self.write.clone()?,
            change: self.change.clone()?,
        })
    }
}

impl Same for AclNames {
    ghost exact = { λ x y h. h };
}

/// The node that an Open makes.
#[derive(Drop)]
pub enum NewNode {
    /// A file with this content.
    File(Bytes),
    Directory,
}

impl Clone for NewNode {
    ghost is_clone = { λ s t. t ≡ s };

    fn clone(&self) -> Result<NewNode, AllocError> {
        Ok(match self {
            NewNode::File(content) => NewNode::File(content.clone()?),
            NewNode::Directory => NewNode::Directory,
        })
    }
}

impl Same for NewNode {
    ghost exact = { λ x y h. h };
}

/// What an Open makes where there is no node of its name.
#[derive(Drop)]
pub struct Create {
    pub disposition: Disposition,
    pub node: NewNode,
    /// An ephemeral node goes when nobody holds it open (Burrows 2006, section 2.3).
    pub life: Life,
    /// None where the node takes the ACL names of its parent.
    pub acls: Option<AclNames>,
}

impl Clone for Create {
    ghost is_clone = { λ s t. t ≡ s };

    fn clone(&self) -> Result<Create, AllocError> {
        Ok(Create {
            disposition: self.disposition,
            node: self.node.clone()?,
            life: self.life,
            acls: match &self.acls {
                Some(acls) => Some(acls.clone()?),
                None => None,
            },
        })
    }
}

impl Same for Create {
    ghost exact = { λ x y h. h };
}

/// The call that gives a handle (Burrows 2006, section 2.6).
#[derive(Drop)]
pub struct Open {
    pub name: Name,
    pub mode: Mode,
    /// None for a plain Open, which makes nothing.
    pub create: Option<Create>,
    /// For how long nobody else gets a lock that the handle holds when its client's session expires, in milliseconds
    /// (Burrows 2006, section 2.4). The master refuses more than 60,000.
    pub delay: u64,
    /// Of which events of the node the handle's client is told (Burrows 2006, section 2.5).
    pub events: Events,
}

impl Clone for Open {
    ghost is_clone = { λ s t. t ≡ s };

    fn clone(&self) -> Result<Open, AllocError> {
        Ok(Open {
            name: self.name.clone()?,
            mode: self.mode,
            create: match &self.create {
                Some(create) => Some(create.clone()?),
                None => None,
            },
            delay: self.delay,
            events: self.events,
        })
    }
}

impl Same for Open {
    ghost exact = { λ x y h. h };
}

/// What a client calls (Burrows 2006, section 2.6). A call on a node shows the bytes of the client's handle.
#[derive(Drop)]
pub enum Call {
    Open(Open),
    Close(HandleBytes),
    /// GetContentsAndStat.
    Read(HandleBytes),
    /// GetStat.
    Stat(HandleBytes),
    /// ReadDir.
    List(HandleBytes),
    /// SetContents: the whole new content, and where it is given the content generation that has to be present.
    Set {
        handle: HandleBytes,
        content: Bytes,
        generation: Option<u64>,
    },
    /// SetACL: the new names, and where it is given the ACL generation that has to be present.
    SetAcl {
        handle: HandleBytes,
        acls: AclNames,
        generation: Option<u64>,
    },
    Delete(HandleBytes),
    /// Waits for the node's lock in this mode (Burrows 2006, section 2.4).
    Acquire {
        handle: HandleBytes,
        mode: LockMode,
    },
    /// The same, and is refused where it would have to wait.
    TryAcquire {
        handle: HandleBytes,
        mode: LockMode,
    },
    Release(HandleBytes),
    /// What describes the lock that the handle holds, to be handed to others.
    GetSequencer(HandleBytes),
    /// From then on calls on the handle stand under the sequencer that this message carries.
    SetSequencer(HandleBytes),
    /// Whether a sequencer, by its bytes, is still valid.
    CheckSequencer(Bytes),
    /// The client ends its session (Burrows 2006, section 2.8). It is on no handle.
    Leave,
}

impl Clone for Call {
    ghost is_clone = { λ s t. t ≡ s };

    fn clone(&self) -> Result<Call, AllocError> {
        Ok(match self {
            Call::Open(open) => Call::Open(open.clone()?),
            Call::Close(handle) => Call::Close(handle.clone()?),
            Call::Read(handle) => Call::Read(handle.clone()?),
            Call::Stat(handle) => Call::Stat(handle.clone()?),
            Call::List(handle) => Call::List(handle.clone()?),
            Call::Set {
                handle,
                content,
                generation,
            } => Call::Set {
                handle: handle.clone()?,
                content: content.clone()?,
                generation: *generation,
            },
            Call::SetAcl {
                handle,
                acls,
                generation,
            } => Call::SetAcl {
                handle: handle.clone()?,
                acls: acls.clone()?,
                generation: *generation,
            },
            Call::Delete(handle) => Call::Delete(handle.clone()?),
            Call::Acquire { handle, mode } => Call::Acquire {
                handle: handle.clone()?,
                mode: *mode,
            },
            Call::TryAcquire { handle, mode } => Call::TryAcquire {
                handle: handle.clone()?,
                mode: *mode,
            },
            Call::Release(handle) => Call::Release(handle.clone()?),
            Call::GetSequencer(handle) => Call::GetSequencer(handle.clone()?),
            Call::SetSequencer(handle) => Call::SetSequencer(handle.clone()?),
            Call::CheckSequencer(bytes) => Call::CheckSequencer(bytes.clone()?),
            Call::Leave => Call::Leave,
        })
    }
}

impl Same for Call {
    ghost exact = { λ x y h. h };
}
