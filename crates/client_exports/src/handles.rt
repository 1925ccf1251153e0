//! A client on the heap, as its address.
ghost use Rattle.std.specs.Prelude.{◌≡◌, Option, Some};
ghost use Rattle.client_exports.specs.States.{HeldState};

use crate::held::HeldClient;
use crate::parts::BoxParts;
use std::alloc::Global;
use std::marker::Model;

/// What a program holds of an open client: it owns it. In C a struct of one pointer, `client_exports`. To a contract, `value` is the
/// client, with what came of its last step.
#[repr(C)]
pub struct OwnedClient {
    pub(crate) at: *mut u8,
    pub(crate) alloc: Global,
    pub ghost value: { HeldState },
}

impl Model for OwnedClient {
    ghost use Rattle.std.specs.Box.Ownership.{box_owns};
    ghost use Rattle.std.specs.contracts.impls.GlobalAllocator.TheImpl.{ghosts};
    ghost use Rattle.client_exports.specs.contracts.held.HeldClient.{the_row};

    ghost also_owns = { λ h. box_owns (ghosts.dealloc_token h.alloc) the_row h.at h.value };
}

impl OwnedClient {
    pub(crate) fn into_parts(self) -> BoxParts<HeldClient, Global>
        ensures { result.value ≡ self.value }
    {
        let OwnedClient { at, alloc } = self;
        BoxParts {
            ptr: at as *mut HeldClient,
            alloc,
        }
    }
}

/// Where a program wants the address of a client that is opened. In C a pointer, which may be anything before. To a contract, `value`
/// is the client that it owns, if it owns one, with what came of its last step. To let it go frees nothing: a `OwnedClient` does.
#[derive(Drop)]
#[repr(C)]
pub struct HandlePlace {
    pub(crate) at: *mut u8,
    alloc: Global,
    pub ghost value: { Option HeldState },
}

impl Model for HandlePlace {
    ghost use Rattle.std.specs.Box.Ownership.{box_owns};
    ghost use Rattle.std.specs.contracts.impls.GlobalAllocator.TheImpl.{ghosts};
    ghost use Rattle.client_exports.specs.contracts.held.HeldClient.{the_row};
    ghost use Rattle.client_exports.specs.Owned.{owns_if};

    ghost also_owns = { λ h. owns_if (λ held. box_owns (ghosts.dealloc_token h.alloc) the_row h.at held) h.value };
}

impl HandlePlace {
    pub(crate) fn of_parts(parts: BoxParts<HeldClient, Global>) -> HandlePlace
        ensures { result.value ≡ Some parts.value }
    {
        let BoxParts { ptr, alloc } = parts;
        HandlePlace {
            at: ptr as *mut u8,
            alloc,
        }
    }
}
