//! The secret of a cell.
ghost use Rattle.std.specs.Prelude.{◌≡◌, length};

use crate::clones::Same;
use std::alloc::AllocError;
use std::fmt;
use std::marker::Model;

/// The secret of a cell, 32 bytes, over which check digits are made. To a contract, its bytes. `Debug` doesn't show
/// them.
#[derive(Drop)]
pub struct Secret {
    bytes: [u8; 32],
}

impl Model for Secret {
    ghost use Rattle.std.specs.Prelude.{List, ℕ};

    ghost Value = { List ℕ };

    ghost view = { λ s. s.bytes };
}

impl Secret {
    pub fn new(bytes: [u8; 32]) -> Secret
        ensures { result ≡ bytes }
    {
        Secret { bytes }
    }

    pub fn as_bytes(&self) -> &[u8]
        ensures bytes { result.now ≡ self.now }
        ensures length { length self.now ≡ 32 }
    {
        &self.bytes
    }
}

impl Clone for Secret {
    ghost is_clone = { λ s t. t ≡ s };

    fn clone(&self) -> Result<Secret, AllocError> {
        Ok(Secret { bytes: self.bytes })
    }
}

impl Same for Secret {
    ghost exact = { λ x y h. h };
}

impl fmt::Debug for Secret {
    fn fmt<W: fmt::Write>(&self, f: &mut fmt::Formatter<W>) -> fmt::Result {
        f.write_str("Secret")
    }
}
