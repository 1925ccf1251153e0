//! Why bytes are turned away.
ghost use Rattle.std.specs.Prelude.{◌≡◌};

use collections::Same;
use names_cell::NameFault;
use std::alloc::{AllocError, AllocFailed};
use thiserror::Error;

/// Why bytes are no message, or a message has no bytes: of several reasons, the first from the left.
#[derive(Clone, Copy, Debug, PartialEq, Eq, Error)]
pub enum WireFault {
    #[error("out of memory")]
    NoMemory,
    /// 2^32 bytes or more.
    #[error("too long")]
    TooLong,
    /// The bytes end within a message.
    #[error("cut off")]
    Cut,
    /// Bytes stand after the message.
    #[error("bytes behind the message")]
    Extra,
    /// The first byte isn't the version of this format.
    #[error("another version")]
    BadVersion,
    /// A byte that stands for none of the choices at its place.
    #[error("no such kind")]
    BadKind,
    /// A number out of its range; and a file has 0 children.
    #[error("a number out of its range")]
    BadNumber,
    /// A text that isn't a name, a component or a principal.
    #[error("not a name")]
    BadText,
}

impl Same for WireFault {
    ghost exact = { λ x y h. h };
}

impl From<AllocError> for WireFault {
    ghost use Rattle.std.specs.Prelude.{◌≡◌};
    ghost use Rattle.codec.specs.declared.faults.WireFault.TheVariants.{NoMemory};

    ghost from_gives = { λ _ e. e ≡ NoMemory };

    fn from(_e: AllocError) -> WireFault {
        WireFault::NoMemory
    }
}

impl<T: Drop> From<AllocFailed<T>> for WireFault {
    ghost use Rattle.std.specs.Prelude.{◌≡◌};
    ghost use Rattle.codec.specs.declared.faults.WireFault.TheVariants.{NoMemory};

    ghost from_gives = { λ _ e. e ≡ NoMemory };

    fn from(_e: AllocFailed<T>) -> WireFault {
        WireFault::NoMemory
    }
}

impl From<NameFault> for WireFault {
    ghost use Rattle.std.specs.Prelude.{◌≡◌};
    ghost use Rattle.codec.specs.Faults.{fault_of_text};

    ghost from_gives = { λ e fault. fault ≡ fault_of_text e };

    fn from(fault: NameFault) -> WireFault {
        match fault {
            NameFault::NoMemory => WireFault::NoMemory,
            _ => WireFault::BadText,
        }
    }
}
