//! A new client for a holder.
ghost use Rattle.std.specs.Prelude.{◌≡◌};
ghost use Rattle.collections.specs.Results.{Gives};
ghost use Rattle.client_exports.specs.Opens.{opened};

use crate::held::HeldClient;
use crate::statuses::Status;
use codec::WireFault;
use names_cell::{NameFault, Principal};
use node_core::Fault;
use std::alloc::Global;
use std::str;
use tags_cell::ClientNumber;

impl HeldClient {
    /// Holds a new client of this number, 1 to 2^53-1, for this principal. Bad as BadNumber for another number, and as BadText
    /// for a text that isn't a principal.
    pub fn open(alloc: Global, number: u64, principal: &[u8]) -> Result<HeldClient, WireFault>
        ensures { Gives WireFault.NoMemory result (opened number principal.now) }
    {
        let number = ClientNumber::new(number).ok_or(WireFault::BadNumber)?;
        let Ok(text) = str::from_utf8(principal) else {
            return Err(WireFault::BadText);
        };
        let principal = Principal::parse(alloc, text)?;
        Ok(HeldClient::new(alloc, number, principal))
    }
}
