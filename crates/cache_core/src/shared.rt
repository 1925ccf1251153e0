//! A value that several caches hold without a copy of it.
ghost use Rattle.std.specs.Prelude.{◌≡◌, IfOk};

use collections::Same;
use std::alloc::{AllocError, Global};
use std::marker::Model;
use std::sync::Arc;

/// A value that is counted by who holds it. To a contract it is that value. A clone shares it, so it costs the same whatever
/// the value is, and takes no memory.
#[derive(Drop)]
pub struct Shared<T> {
    held: Arc<T>,
}

impl<T> Model for Shared<T> {
    ghost use Rattle.std.specs.Arc.{arc_value};

    ghost Value = { T };

    ghost view = { λ s. arc_value s.held };
}

impl<T> Shared<T> {
    /// The value, lent.
    pub fn get(&self) -> &T
        ensures { result.now ≡ self.now }
    {
        &self.held
    }
}

impl<T: Drop> Shared<T> {
    /// This value, held once.
    pub fn new(alloc: Global, value: T) -> Result<Shared<T>, AllocError>
        ensures { IfOk result (λ s. s ≡ value) }
    {
        Ok(Shared {
            held: Arc::new(alloc, value)?,
        })
    }
}

impl<T: Drop> Clone for Shared<T> {
    ghost is_clone = { λ s t. t ≡ s };

    fn clone(&self) -> Result<Shared<T>, AllocError> {
        Ok(Shared {
            held: self.held.clone()?,
        })
    }
}

impl<T: Drop> Same for Shared<T> {
    ghost exact = { λ x y h. h };
}
