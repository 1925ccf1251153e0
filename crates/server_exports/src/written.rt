//! What a server writes.
ghost use Rattle.collections.specs.Results.{Gives};
ghost use Rattle.server_exports.specs.Written.{store_refused};

use codec::{WireFault, write_out};
use collections::Bytes;
use node_core::Fault;
use std::alloc::Global;
use tags_cell::{CallResult, ClientNumber, MessageNumber, Out, Reply};

// The reply that the store refused a call.
pub(crate) fn store_refused(
    alloc: Global,
    client: u64,
    epoch: u64,
    number: u64,
) -> Result<Bytes, WireFault>
    ensures { Gives WireFault.NoMemory result (store_refused client epoch number) }
{
    let Some(client) = ClientNumber::new(client) else {
        return Err(WireFault::BadNumber);
    };
    let Some(number) = MessageNumber::new(number) else {
        return Err(WireFault::BadNumber);
    };
    let message = Out::Reply(Reply {
        client,
        epoch,
        number,
        stamp: None,
        result: CallResult::Refused(Fault::StoreRefused),
    });
    let written = write_out(alloc, &message);
    drop(message);
    written
}
