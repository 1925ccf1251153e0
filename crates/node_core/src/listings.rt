//! The children of a directory, as a client sees them.
ghost use Rattle.std.specs.Prelude.{◌≡◌, [], IfOk};

use collections::{Items, Same};
use names_cell::Component;
use std::alloc::AllocError;
use std::marker::Model;
use std::sync::ArcSlice;

/// The last components of a directory's children, in order of bytes. To a contract, the list of them. A clone shares
/// them, so it costs the same at any number.
#[derive(Drop)]
pub struct Listing {
    shared: Option<ArcSlice<Component>>,
}

impl Model for Listing {
    ghost use Rattle.std.specs.Prelude.{List, [], ℕ};
    ghost use Rattle.std.specs.Option.{option_map_or};
    ghost use Rattle.std.specs.Arc.{arc_slice_items};

    ghost Value = { List (List ℕ) };

    ghost view = { λ a. option_map_or arc_slice_items a.shared [] };
}

impl Listing {
    /// No children; takes no memory.
    pub fn new() -> Listing
        ensures { result ≡ [] }
    {
        Listing { shared: None }
    }

    /// These children, without a copy.
    pub fn of(names: Items<Component>) -> Result<Listing, AllocError>
        ensures { IfOk result (λ listing. listing ≡ names) }
    {
        if names.is_empty() {
            return Ok(Listing::new());
        }
        Ok(Listing {
            shared: Some(ArcSlice::from_vec(names.into_vec())?),
        })
    }

    pub fn as_slice(&self) -> &[Component]
        ensures { result.now ≡ self.now }
    {
        match &self.shared {
            Some(names) => names.as_slice(),
            None => &[],
        }
    }
}

impl Clone for Listing {
    ghost is_clone = { λ s t. t ≡ s };

    fn clone(&self) -> Result<Listing, AllocError> {
        Ok(Listing {
            shared: match &self.shared {
                Some(names) => Some(names.clone()?),
                None => None,
            },
        })
    }
}

impl Same for Listing {
    ghost exact = { λ x y h. h };
}
