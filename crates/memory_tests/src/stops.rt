//! Why a run ends early.
use node_core::Fault;
use std::alloc::{AllocError, AllocFailed};

/// Why a run ends early.
#[derive(Clone, Copy)]
pub(crate) enum Stop {
    /// Something was refused, for good or where nothing is tried.
    Refused(Fault),
    /// Something isn't as it is where nothing is refused: what that is.
    Apart(&'static str),
}

impl From<Fault> for Stop {
    fn from(fault: Fault) -> Stop {
        Stop::Refused(fault)
    }
}

impl From<AllocError> for Stop {
    fn from(_error: AllocError) -> Stop {
        Stop::Refused(Fault::NoMemory)
    }
}

impl<T: Drop> From<AllocFailed<T>> for Stop {
    fn from(_error: AllocFailed<T>) -> Stop {
        Stop::Refused(Fault::NoMemory)
    }
}
