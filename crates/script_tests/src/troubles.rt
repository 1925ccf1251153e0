//! Why a row can't be run.
use std::alloc::{AllocError, AllocFailed};

/// Why a row can't be run.
#[derive(Clone, Copy)]
pub(crate) enum Trouble {
    NoMemory,
    Said(&'static str),
}

impl Trouble {
    pub(crate) fn text(self) -> &'static str {
        match self {
            Trouble::NoMemory => "out of memory",
            Trouble::Said(text) => text,
        }
    }
}

impl<T: Drop> From<AllocFailed<T>> for Trouble {
    fn from(_e: AllocFailed<T>) -> Trouble {
        Trouble::NoMemory
    }
}

impl From<AllocError> for Trouble {
    fn from(_e: AllocError) -> Trouble {
        Trouble::NoMemory
    }
}
