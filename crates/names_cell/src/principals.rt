//! Principals.
ghost use Rattle.std.specs.Prelude.{◌≡◌, Some, Ok, Err, true, nat_eq, if◌then◌else◌};
ghost use Rattle.std.specs.Cmp.{partial_equiv_from_equiv};
ghost use Rattle.std.specs.Cmp.Lexicographic.{pointwise, nat_list_eq_equiv};
ghost use Rattle.collections.specs.Results.{Gives};
ghost use Rattle.names_cell.specs.Text.{is_component};

use crate::faults::NameFault;
use crate::grammar;
use collections::Same;
use std::alloc::{AllocError, Global};
use std::fmt;
use std::marker::Model;

/// Who calls, as the caller was told: authentication is done outside. Written like a component. To a contract, its
/// bytes.
#[derive(Debug, Drop)]
pub struct Principal {
    text: String,
}

impl Model for Principal {
    ghost use Rattle.std.specs.Prelude.{◌≡◌, List, ℕ, true, string_bytes};
    ghost use Rattle.names_cell.specs.Text.{is_component};

    ghost Value = { List ℕ };

    ghost view = { λ a. string_bytes a.text };

    ghost invariant = { λ a. is_component (string_bytes a.text) ≡ true };
}

impl Principal {
    /// Reads a principal.
    pub fn parse(alloc: Global, text: &str) -> Result<Principal, NameFault>
        ensures { Gives NameFault.NoMemory result (if is_component text.now then Ok text.now else Err NameFault.BadPrincipal) }
    {
        if !grammar::is_component(text.as_bytes()) {
            return Err(NameFault::BadPrincipal);
        }
        Ok(Principal {
            text: text.to_string(alloc)?,
        })
    }

    pub fn as_str(&self) -> &str
        ensures text { result.now ≡ self.now }
        ensures component { is_component self.now ≡ true }
    {
        self.text.as_str()
    }
}

impl fmt::Display for Principal {
    ghost output = { λ n. Some n };

    fn fmt<W: fmt::Write>(&self, f: &mut fmt::Formatter<W>) -> fmt::Result {
        f.write_str(self.as_str())
    }
}

impl Clone for Principal {
    ghost is_clone = { λ s t. t ≡ s };

    fn clone(&self) -> Result<Principal, AllocError> {
        Ok(Principal {
            text: self.text.clone()?,
        })
    }
}

impl Same for Principal {
    ghost exact = { λ x y h. h };
}

impl PartialEq for Principal {
    ghost eq = { pointwise nat_eq };

    ghost laws = { partial_equiv_from_equiv nat_list_eq_equiv };

    fn eq(&self, other: &Principal) -> bool {
        self.text == other.text
    }
}

impl Eq for Principal {
    ghost laws = { nat_list_eq_equiv };
}
