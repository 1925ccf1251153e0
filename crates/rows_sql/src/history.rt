//! A history that only proofs read. It takes no memory, and its methods do nothing at run time.
ghost use Rattle.std.specs.Prelude.{◌≡◌, List, [], ◌∷◌, ◌++◌};
ghost use Rattle.std.specs.Borrow.{ftrue};

use std::marker::{Model, PhantomData};

/// A clause reads the pairs as `items`.
#[derive(Drop)]
pub struct StoreLog<A, B> {
    of: PhantomData<(A, B)>,
    pub ghost items: { List (A × B) },
}

impl<A, B> Model for StoreLog<A, B> {
    ghost also_owns = { λ _. ftrue };
}

impl<A, B> StoreLog<A, B> {
    pub fn new() -> StoreLog<A, B>
        ensures { result.items ≡ [] }
    {
        StoreLog { of: PhantomData }
    }

    pub fn and(&self, first: &A, second: &B) -> StoreLog<A, B>
        ensures { result.items ≡ self.now.items ++ (first.now, second.now) ∷ [] }
    {
        StoreLog { of: PhantomData }
    }
}
