//! Why a script stops before its end.
ghost use Rattle.std.specs.Prelude.{◌≡◌};
ghost use Rattle.scripts.specs.Stops.{status_of};

use std::alloc::AllocError;
use std::io;

/// Why a script stops before its end.
#[derive(Clone, Copy, Debug)]
pub(crate) enum ScriptStop {
    /// The line of this number, counted from 1, is no step.
    BadStep(u64),
    /// The line of this number can't be read.
    Unread(u64),
    /// Memory ran out outside a step.
    NoMemory,
    /// The lines can't be written.
    Unwritten,
}

impl ScriptStop {
    /// The exit status.
    pub(crate) fn status(&self) -> u8
        ensures { result ≡ status_of self.now }
    {
        match self {
            ScriptStop::BadStep(_) | ScriptStop::Unread(_) | ScriptStop::Unwritten => 1,
            ScriptStop::NoMemory => 4,
        }
    }
}

impl From<AllocError> for ScriptStop {
    ghost use Rattle.std.specs.Prelude.{◌≡◌};
    ghost use Rattle.scripts.specs.declared.stops.ScriptStop.TheVariants.{NoMemory};

    ghost from_gives = { λ _ e. e ≡ NoMemory };

    fn from(_e: AllocError) -> ScriptStop {
        ScriptStop::NoMemory
    }
}

impl From<io::Error> for ScriptStop {
    ghost use Rattle.std.specs.Prelude.{◌≡◌};
    ghost use Rattle.scripts.specs.declared.stops.ScriptStop.TheVariants.{Unwritten};

    ghost from_gives = { λ _ e. e ≡ Unwritten };

    fn from(_e: io::Error) -> ScriptStop {
        ScriptStop::Unwritten
    }
}
