//! Components of names.
ghost use Rattle.std.specs.Prelude.{◌≡◌, Some, Ok, Err, true, nat_eq, if◌then◌else◌, IfOk};
ghost use Rattle.std.specs.Cmp.{partial_equiv_from_equiv};
ghost use Rattle.std.specs.Cmp.Lexicographic.{pointwise, nat_list_eq_equiv};
ghost use Rattle.collections.specs.Results.{Gives};
ghost use Rattle.names_cell.specs.Kept.{kept_text};
ghost use Rattle.names_cell.specs.Text.{is_component};

use crate::faults::NameFault;
use crate::grammar;
use arrayvec::ArrayString;
use collections::Same;
use std::alloc::{AllocError, Global};
use std::fmt;
use std::marker::Model;

// Where the bytes of a component lie: up to 24 in the value itself, and more in memory of their own.
#[derive(Debug, Drop)]
enum Kept {
    Here(ArrayString<24>),
    Apart(String),
}

impl Kept {
    fn of(alloc: Global, text: &str) -> Result<Kept, AllocError>
        ensures { IfOk result (λ kept. kept_text kept ≡ text.now) }
    {
        match ArrayString::from(text) {
            Ok(here) => Ok(Kept::Here(here)),
            Err(_) => Ok(Kept::Apart(text.to_string(alloc)?)),
        }
    }

    fn as_str(&self) -> &str
        ensures { result.now ≡ kept_text self.now }
    {
        match self {
            Kept::Here(text) => text.as_str(),
            Kept::Apart(text) => text.as_str(),
        }
    }

    fn copied(&self) -> Result<Kept, AllocError>
        ensures { IfOk result (λ kept. kept_text kept ≡ kept_text self.now) }
    {
        match self {
            Kept::Here(text) => Ok(Kept::Here(*text)),
            Kept::Apart(text) => Ok(Kept::Apart(text.clone()?)),
        }
    }
}

/// One component of a name, 1 to 64 bytes: it also names a cell, and an ACL. To a contract, its bytes. One of up to 24 bytes
/// takes no memory besides the value.
#[derive(Debug, Drop)]
pub struct Component {
    text: Kept,
}

impl Model for Component {
    ghost use Rattle.std.specs.Prelude.{◌≡◌, List, ℕ, true};
    ghost use Rattle.names_cell.specs.Kept.{kept_text};
    ghost use Rattle.names_cell.specs.Text.{is_component};

    ghost Value = { List ℕ };

    ghost view = { λ a. kept_text a.text };

    ghost invariant = { λ a. is_component (kept_text a.text) ≡ true };
}

impl Component {
    /// Reads a component.
    pub fn parse(alloc: Global, text: &str) -> Result<Component, NameFault>
        ensures { Gives NameFault.NoMemory result (if is_component text.now then Ok text.now else Err NameFault.BadName) }
    {
        if !grammar::is_component(text.as_bytes()) {
            return Err(NameFault::BadName);
        }
        Ok(Component {
            text: Kept::of(alloc, text)?,
        })
    }

    // A text that is known to be a component.
    pub(crate) fn known(alloc: Global, text: &str) -> Result<Component, AllocError>
        requires { is_component text.now ≡ true }
        ensures { IfOk result (λ c. c ≡ text.now) }
    {
        Ok(Component {
            text: Kept::of(alloc, text)?,
        })
    }

    pub fn as_str(&self) -> &str
        ensures text { result.now ≡ self.now }
        ensures component { is_component self.now ≡ true }
    {
        self.text.as_str()
    }
}

impl fmt::Display for Component {
    ghost output = { λ n. Some n };

    fn fmt<W: fmt::Write>(&self, f: &mut fmt::Formatter<W>) -> fmt::Result {
        f.write_str(self.as_str())
    }
}

impl Clone for Component {
    ghost is_clone = { λ s t. t ≡ s };

    fn clone(&self) -> Result<Component, AllocError> {
        Ok(Component {
            text: self.text.copied()?,
        })
    }
}

impl Same for Component {
    ghost exact = { λ x y h. h };
}

impl PartialEq for Component {
    ghost eq = { pointwise nat_eq };

    ghost laws = { partial_equiv_from_equiv nat_list_eq_equiv };

    fn eq(&self, other: &Component) -> bool {
        self.as_str() == other.as_str()
    }
}

impl Eq for Component {
    ghost laws = { nat_list_eq_equiv };
}
