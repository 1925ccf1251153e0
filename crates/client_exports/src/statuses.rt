//! How a call of the holder's ends.
ghost use Rattle.std.specs.Prelude.{◌≡◌};
ghost use Rattle.client_exports.specs.Statuses.{wire_code, status_code};

use codec::WireFault;
use node_core::Fault;

/// How a call of the holder's ends.
#[derive(Clone, Copy, Drop)]
pub enum Status {
    /// Done, and there is nothing to send.
    Done,
    /// There is a message to send.
    Send,
    /// Answered out of the cache.
    Served,
    /// Refused: by the client, out of its cache, or as a message that no master sends. The time is noted.
    Refused(Fault),
    /// Out of memory, or a number or a moment at its end: nothing has changed.
    Failed(Fault),
    /// What is wrong with the bytes: nothing has changed.
    Bad(WireFault),
    /// The bytes are a message, but ask for no call: nothing has changed.
    NoCall,
}

impl Status {
    /// Its number: 0 for done; 1 to 42, the number of the refusal; 64 for a message to send, 65 for an answer out of the cache; 81
    /// to 87 for what is wrong with the bytes, 88 where they ask for no call.
    pub fn code(self) -> u32
        ensures { result ≡ status_code self }
    {
        match self {
            Status::Done => 0,
            Status::Send => 64,
            Status::Served => 65,
            Status::Refused(fault) | Status::Failed(fault) => fault.number() as u32,
            Status::Bad(fault) => wire_code(fault),
            Status::NoCall => 88,
        }
    }
}

fn wire_code(fault: WireFault) -> u32
    ensures { result ≡ wire_code fault }
{
    match fault {
        WireFault::NoMemory => 1,
        WireFault::TooLong => 81,
        WireFault::Cut => 82,
        WireFault::BadVersion => 83,
        WireFault::BadKind => 84,
        WireFault::BadNumber => 85,
        WireFault::BadText => 86,
        WireFault::Extra => 87,
    }
}
