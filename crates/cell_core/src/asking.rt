//! Asking clients for the names that a change touches.
ghost use Rattle.std.specs.Prelude.{◌≡◌, Some, IfOk};
ghost use Rattle.cell_core.specs.Step.{names_of, asking, asking_for};

use collections::Items;
use master_state::Master;
use names_cell::Name;
use std::alloc::{AllocError, Global};

/// What a change that waits touches: the names whose view it may change (Burrows 2006, section 2.7).
#[derive(Drop)]
pub enum TouchedNames {
    /// The node of this name changes.
    Alone(Name),
    /// The node of this name comes or goes, and is listed above it.
    WithParent(Name),
}

impl TouchedNames {
    /// The name of the node that changes, comes or goes.
    pub(crate) fn name(&self) -> &Name {
        match self {
            TouchedNames::Alone(name) | TouchedNames::WithParent(name) => name,
        }
    }

    pub(crate) fn names(&self, alloc: Global) -> Result<Items<Name>, AllocError>
        ensures { IfOk result (λ names. names ≡ names_of (Some self.now)) }
    {
        let mut names = Items::new(alloc);
        match self {
            TouchedNames::Alone(name) => names.push(name.clone()?)?,
            TouchedNames::WithParent(name) => {
                names.push(name.clone()?)?;
                if let Some(parent) = name.parent()? {
                    names.push(parent)?;
                }
            }
        }
        Ok(names)
    }
}

/// Each client that holds one of these names is asked for it by its next invalidation, unless it was asked already.
/// Takes no memory that it can't do without.
pub(crate) fn ask(master: &mut Master, names: Items<Name>)
    ensures { master.new ≡ asking_for master.old names }
{
    ask_all(master, names.as_slice());
}

fn ask_all(master: &mut Master, names: &[Name])
    ensures { master.new ≡ asking_for master.old names.now }
{
    for name in names {
        ask_one(master, name);
    }
}

fn ask_one(master: &mut Master, name: &Name)
    ensures { master.new ≡ asking master.old name.now }
{
    master.tables.ask_back(name);
}
