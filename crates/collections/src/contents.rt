//! Contents of files.
ghost use Rattle.std.specs.Prelude.{◌≡◌, ◌==◌, List, ℕ, length, IfOk, nat_eq};
ghost use Rattle.std.specs.Arc.{arc_slice_items};
ghost use Rattle.std.specs.Cmp.{partial_equiv_from_equiv};
ghost use Rattle.std.specs.Cmp.Lexicographic.{pointwise, nat_list_eq_equiv};

use crate::clones::Same;
use std::alloc::{AllocError, Global};
use std::marker::Model;
use std::sync::ArcSlice;

/// What a file holds. To a contract it is the list of its bytes. A clone shares them, so it costs the same at any
/// length; a comparison is one of two blocks of memory. The limit on a file's length, 262,144 bytes, is the map's
/// to test, so that a longer content can be asked for and refused.
#[derive(Debug, Drop)]
pub struct Bytes {
    shared: ArcSlice<u8>,
}

impl Model for Bytes {
    ghost use Rattle.std.specs.Prelude.{List, ℕ};
    ghost use Rattle.std.specs.Arc.{arc_slice_items};

    ghost Value = { List ℕ };

    ghost view = { λ a. arc_slice_items a.shared };
}

impl Bytes {
    /// A copy of these bytes.
    pub fn copy_of(alloc: Global, bytes: &[u8]) -> Result<Bytes, AllocError>
        ensures { IfOk result (λ b. b ≡ bytes.now) }
    {
        Ok(Bytes {
            shared: ArcSlice::from_slice(alloc, bytes)?,
        })
    }

    /// The bytes of a `Vec`, without a copy.
    pub fn from_vec(bytes: Vec<u8>) -> Result<Bytes, AllocError>
        ensures { IfOk result (λ b. b ≡ bytes.items) }
    {
        Ok(Bytes {
            shared: ArcSlice::from_vec(bytes)?,
        })
    }

    pub fn as_slice(&self) -> &[u8]
        ensures { result.now ≡ self.now }
    {
        self.shared.as_slice()
    }

    pub fn len(&self) -> usize
        ensures { result ≡ length self.now }
    {
        self.as_slice().len()
    }

    pub fn is_empty(&self) -> bool
        ensures { result ≡ (length self.now == 0) }
    {
        self.len() == 0
    }
}

impl Clone for Bytes {
    ghost is_clone = { λ s t. t ≡ s };

    fn clone(&self) -> Result<Bytes, AllocError> {
        Ok(Bytes {
            shared: self.shared.clone()?,
        })
    }
}

impl Same for Bytes {
    ghost exact = { λ x y h. h };
}

impl PartialEq for Bytes {
    ghost eq = { pointwise nat_eq };

    ghost laws = { partial_equiv_from_equiv nat_list_eq_equiv };

    fn eq(&self, other: &Bytes) -> bool {
        self.as_slice() == other.as_slice()
    }
}

impl Eq for Bytes {
    ghost laws = { nat_list_eq_equiv };
}
