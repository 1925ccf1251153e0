//! Why the map refuses a change.
use crate::kinds::Kind;
use collections::Same;
use std::alloc::{AllocError, AllocFailed};
use thiserror::Error;

/// Why the map refuses a change. Each but want of memory says that the change doesn't fit the map.
#[derive(Clone, Copy, Debug, Error)]
pub enum NodeFault {
    /// A growth was refused; the map is as it was.
    #[error("out of memory")]
    NoMemory,
    /// No parent to put a node under, or no node to take away.
    #[error("no such node")]
    NotFound,
    /// The other kind is needed; this one is present.
    #[error("a {0} is present")]
    WrongKind(Kind),
    /// A directory with children, or the root, can't be taken away.
    #[error("a directory with children, or the root")]
    NotEmpty,
    /// A content above 262,144 bytes.
    #[error("content above 262,144 bytes")]
    TooLarge,
    /// A number above 2^63-1.
    #[error("a number above its limit")]
    Exhausted,
    /// A node of another instance is present.
    #[error("another instance is present")]
    StaleInstance,
}

impl Same for NodeFault {
    ghost exact = { λ x y h. h };
}

impl From<AllocError> for NodeFault {
    ghost use Rattle.std.specs.Prelude.{◌≡◌};
    ghost use Rattle.node_core.specs.declared.faults.NodeFault.TheVariants.{NoMemory};

    ghost from_gives = { λ _ e. e ≡ NoMemory };

    fn from(_e: AllocError) -> NodeFault {
        NodeFault::NoMemory
    }
}

impl<T: Drop> From<AllocFailed<T>> for NodeFault {
    ghost use Rattle.std.specs.Prelude.{◌≡◌};
    ghost use Rattle.node_core.specs.declared.faults.NodeFault.TheVariants.{NoMemory};

    ghost from_gives = { λ _ e. e ≡ NoMemory };

    fn from(_e: AllocFailed<T>) -> NodeFault {
        NodeFault::NoMemory
    }
}
