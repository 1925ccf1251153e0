//! A history that only proofs read. It takes no memory, and its methods do nothing at run time.
ghost use Rattle.std.specs.Prelude.{◌≡◌, List, [], ◌∷◌, ◌++◌};
ghost use Rattle.std.specs.Borrow.{ftrue};

use std::marker::{Model, PhantomData};

/// A clause reads the pairs as `items`.
#[derive(Drop)]
pub struct KeeperLog<A, B> {
    of: PhantomData<(A, B)>,
    pub ghost items: { List (A × B) },
}

impl<A, B> Model for KeeperLog<A, B> {
    ghost also_owns = { λ _. ftrue };
}

impl<A, B> KeeperLog<A, B> {
    pub fn new() -> KeeperLog<A, B>
        ensures { result.items ≡ [] }
    {
        KeeperLog { of: PhantomData }
    }

    pub fn and(&self, first: &A, second: &B) -> KeeperLog<A, B>
        ensures { result.items ≡ self.now.items ++ (first.now, second.now) ∷ [] }
    {
        KeeperLog { of: PhantomData }
    }
}
