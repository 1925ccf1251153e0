//! Values that are compared whole.
ghost use Rattle.std.specs.Prelude.{◌≡◌, ◌↔◌, IsTrue};

use collections::{Bytes, Items};
use names_cell::{Component, Name, Principal};
use node_core::Listing;
use tags_cell::HandleBytes;

/// A type whose values can be compared whole. Costs their size.
pub trait Alike {
    ghost use Rattle.std.specs.Prelude.{◌≡◌, ◌↔◌, IsTrue};

    fn is_same(&self, other: &Self) -> bool
        ensures { IsTrue result ↔ (self.now ≡ other.now) };
}

impl Alike for u64 {
    fn is_same(&self, other: &u64) -> bool {
        *self == *other
    }
}

impl Alike for Name {
    fn is_same(&self, other: &Name) -> bool {
        self.as_str() == other.as_str()
    }
}

impl Alike for Component {
    fn is_same(&self, other: &Component) -> bool {
        self.as_str() == other.as_str()
    }
}

impl Alike for Principal {
    fn is_same(&self, other: &Principal) -> bool {
        self.as_str() == other.as_str()
    }
}

impl Alike for Bytes {
    fn is_same(&self, other: &Bytes) -> bool {
        self.as_slice() == other.as_slice()
    }
}

impl Alike for HandleBytes {
    fn is_same(&self, other: &HandleBytes) -> bool {
        self.as_slice() == other.as_slice()
    }
}

impl<T: Alike> Alike for Option<T> {
    fn is_same(&self, other: &Option<T>) -> bool {
        match (self, other) {
            (None, None) => true,
            (Some(a), Some(b)) => a.is_same(b),
            _ => false,
        }
    }
}

impl<T: Alike> Alike for Items<T> {
    fn is_same(&self, other: &Items<T>) -> bool {
        are_same(self.as_slice(), other.as_slice())
    }
}

impl Alike for Listing {
    fn is_same(&self, other: &Listing) -> bool {
        are_same(self.as_slice(), other.as_slice())
    }
}

fn are_same<T: Alike>(some: &[T], others: &[T]) -> bool
    ensures { IsTrue result ↔ (some.now ≡ others.now) }
{
    if some.len() != others.len() {
        return false;
    }
    for i in 0..some.len() {
        if !some[i].is_same(&others[i]) {
            return false;
        }
    }
    true
}
