//! Why a run ends early.
use codec::WireFault;
use names_cell::NameFault;
use node_core::Fault;
use rows_cell::{SettingsFault, StoreFault};
use std::alloc::{AllocError, AllocFailed};
use std::fmt;

/// Why a run ends early.
#[derive(Clone, Copy)]
pub(crate) enum Stop {
    /// Memory ran out.
    NoMemory,
    /// A table isn't as its page says: what there is.
    Bad(&'static str),
    /// A script before a row is refused.
    Refused(Fault),
}

impl fmt::Display for Stop {
    fn fmt<W: fmt::Write>(&self, f: &mut fmt::Formatter<W>) -> fmt::Result {
        match self {
            Stop::NoMemory => f.write_str("out of memory"),
            Stop::Bad(what) => f.write_str(what),
            Stop::Refused(fault) => write!(f, "refused {fault}"),
        }
    }
}

impl From<AllocError> for Stop {
    fn from(_error: AllocError) -> Stop {
        Stop::NoMemory
    }
}

impl<T: Drop> From<AllocFailed<T>> for Stop {
    fn from(_error: AllocFailed<T>) -> Stop {
        Stop::NoMemory
    }
}

impl From<Fault> for Stop {
    fn from(fault: Fault) -> Stop {
        Stop::Refused(fault)
    }
}

impl From<SettingsFault> for Stop {
    fn from(_fault: SettingsFault) -> Stop {
        Stop::Bad("no settings")
    }
}

impl From<NameFault> for Stop {
    fn from(_fault: NameFault) -> Stop {
        Stop::Bad("no name")
    }
}

impl From<StoreFault> for Stop {
    fn from(_fault: StoreFault) -> Stop {
        Stop::Bad("rows that can't be read")
    }
}

impl From<WireFault> for Stop {
    fn from(_fault: WireFault) -> Stop {
        Stop::Bad("bytes that are no message")
    }
}
