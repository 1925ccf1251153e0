//! A name that several have.
ghost use Rattle.std.specs.Prelude.{◌≡◌, IfOk, nat_eq};
ghost use Rattle.std.specs.Cmp.{partial_equiv_from_equiv};
ghost use Rattle.std.specs.Cmp.Lexicographic.{pointwise, nat_list_eq_equiv};
ghost use Rattle.std.specs.Cmp.Rules.{hashing};
ghost use Rattle.std.specs.Hash as fed;
ghost use Rattle.std.proofs.Common.{rules};

use indexmap::Equivalent;
use names_cell::Name;
use std::alloc::{AllocError, Global};
use std::hash::{Hash, Hasher};
use std::marker::Model;
use std::sync::Arc;

// A name whose text all clients have that hold it. To a contract, its bytes; a clone takes no memory.
#[derive(Drop)]
pub(crate) struct SharedName {
    name: Arc<Name, Global>,
}

impl Model for SharedName {
    ghost use Rattle.std.specs.Prelude.{List, ℕ};
    ghost use Rattle.std.specs.Arc.{arc_value};

    ghost Value = { List ℕ };

    ghost view = { λ s. arc_value s.name };
}

impl SharedName {
    pub(crate) fn new(alloc: Global, name: &Name) -> Result<SharedName, AllocError>
        ensures { IfOk result (λ shared. shared ≡ name.now) }
    {
        let Ok(name) = Arc::new(alloc, name.clone()?) else {
            return Err(AllocError);
        };
        Ok(SharedName { name })
    }

    pub(crate) fn share(&self) -> Result<SharedName, AllocError>
        ensures { IfOk result (λ shared. shared ≡ self.now) }
    {
        Ok(SharedName {
            name: Arc::try_clone(&self.name)?,
        })
    }

    pub(crate) fn name(&self) -> &Name
        ensures { result.now ≡ self.now }
    {
        &self.name
    }
}

impl PartialEq for SharedName {
    ghost eq = { pointwise nat_eq };

    ghost laws = { partial_equiv_from_equiv nat_list_eq_equiv };

    fn eq(&self, other: &SharedName) -> bool {
        self.name() == other.name()
    }
}

impl Eq for SharedName {
    ghost laws = { nat_list_eq_equiv };
}

impl Hash for SharedName {
    ghost hash_input = { fed.slice fed.u8 };

    ghost respects_eq = { Prim.search (hashing, rules) };

    fn hash<H: Hasher>(&self, state: &mut H) {
        self.name().hash(state);
    }
}

impl Equivalent<SharedName> for &Name {
    ghost equivalent = { λ q. pointwise nat_eq q.now };

    ghost respects_hash = { Prim.search (hashing, rules) };

    ghost respects_eq = { λ q. nat_list_eq_equiv.congr q.now };

    fn equivalent(&self, key: &SharedName) -> bool {
        **self == *key.name()
    }
}
