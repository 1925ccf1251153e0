//! A client that is lent where its handle has it.
ghost use Rattle.std.specs.Prelude.{◌≡◌};
ghost use Rattle.std.specs.Borrow.{sem};
ghost use Rattle.client_exports.specs.Follows.{handle_follows};

use crate::handles::OwnedClient;
use crate::held::HeldClient;

impl OwnedClient {
    // The client, to be changed in its place.
    pub(crate) fn as_mut(&mut self) -> &mut HeldClient
        ensures* writes_back { sem 𝓛 (handle_follows self.entry result) }
        ensures value { result.now ≡ self.old.value }
    {
        unsafe { &mut *(self.at as *mut HeldClient) }
    }
}
