//! Why the frames of a stream are answered no further.
use codec::WireFault;
use node_core::Fault;
use std::alloc::{AllocError, AllocFailed};

/// Why the frames of a stream are answered no further.
#[derive(Clone, Copy, Debug)]
pub enum StreamStop {
    /// The stream can't be read.
    Unread,
    /// The answers can't be written.
    Unwritten,
    /// There is no memory for an answer.
    NoMemory,
}

/// Why groups of frames are answered no further.
#[derive(Clone, Copy)]
pub enum GroupStop {
    Stopped(StreamStop),
    /// The store refused what a group changed.
    Refused(Fault),
}

impl From<AllocError> for StreamStop {
    ghost use Rattle.std.specs.Prelude.{◌≡◌};
    ghost use Rattle.hosting.specs.declared.stops.StreamStop.TheVariants.{NoMemory};

    ghost from_gives = { λ _ e. e ≡ NoMemory };

    fn from(_e: AllocError) -> StreamStop {
        StreamStop::NoMemory
    }
}

// An answer of 2^32 bytes or more counts as one that finds no memory.
impl From<WireFault> for StreamStop {
    ghost use Rattle.std.specs.Prelude.{◌≡◌};
    ghost use Rattle.hosting.specs.declared.stops.StreamStop.TheVariants.{NoMemory};

    ghost from_gives = { λ _ e. e ≡ NoMemory };

    fn from(_e: WireFault) -> StreamStop {
        StreamStop::NoMemory
    }
}
