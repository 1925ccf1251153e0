//! Why a text is turned away.
use std::alloc::AllocError;
use thiserror::Error;

/// Why a text is turned away.
#[derive(Clone, Copy, Debug, PartialEq, Eq, Error)]
pub enum NameFault {
    #[error("out of memory")]
    NoMemory,
    #[error("not a name")]
    BadName,
    #[error("not a principal")]
    BadPrincipal,
    #[error("not an ACL file")]
    BadAcl,
}

impl From<AllocError> for NameFault {
    ghost use Rattle.std.specs.Prelude.{◌≡◌};
    ghost use Rattle.names_cell.specs.declared.faults.NameFault.TheVariants.{NoMemory};

    ghost from_gives = { λ _ e. e ≡ NoMemory };

    fn from(_e: AllocError) -> NameFault {
        NameFault::NoMemory
    }
}
