//! Why a text says no settings.
ghost use Rattle.std.specs.Prelude.{◌≡◌};

use std::alloc::AllocError;
use thiserror::Error;
use toml::de;

/// Why a text says no settings.
#[derive(Debug, Drop, Error)]
pub enum TextFault {
    #[error("out of memory")]
    NoMemory,
    #[error("{0}")]
    NotToml(de::Error),
    #[error("no setting has the key `{0}`: the keys are `cell`, `lease`, `principals`, `secret` and `limits`")]
    UnknownKey(String),
    #[error("`cell` has to be a component: 1 to 64 of a to z, 0 to 9, `.`, `_` and `-`, and neither `.` nor `..`")]
    WrongCell,
    #[error("`lease` has to be a whole number of milliseconds, 1000 to 60000")]
    WrongLease,
    #[error("`principals` has to be an array of principals, which fill at most 262144 bytes with a line each")]
    WrongPrincipals,
    #[error("`secret` has to be 64 hexadecimal digits in lower case")]
    WrongSecret,
    #[error("`limits` has to be a table of `max_nodes`, `max_bytes` and `max_locks`, or some of them, each a whole number, 0 or more")]
    WrongLimits,
}

impl From<AllocError> for TextFault {
    ghost use Rattle.std.specs.Prelude.{◌≡◌};
    ghost use Rattle.scripts.specs.declared.faults.TextFault.TheVariants.{NoMemory};

    ghost from_gives = { λ _ e. e ≡ NoMemory };

    fn from(_error: AllocError) -> TextFault {
        TextFault::NoMemory
    }
}
