//! What is seen of a name, and the changes of the map.
ghost use Rattle.std.specs.Prelude.{◌≡◌, Some};
ghost use Rattle.node_core.specs.Texts.{view_text, node_text};
ghost use Rattle.node_core.specs.Nodes.{name_of};

use crate::kinds::Kind;
use crate::listings::Listing;
use crate::nodes::Node;
use crate::texts::{AclNamesText, Header, Hex, Listed};
use collections::Same;
use names_cell::Name;
use std::alloc::AllocError;
use std::fmt;

/// What a client sees of a name, and may keep in its cache (Burrows 2006, sections 2.3 and 2.7).
#[derive(Drop)]
pub struct View {
    pub node: Node,
    /// Of a directory its children; of a file none.
    pub children: Listing,
}

impl Clone for View {
    ghost is_clone = { λ s t. t ≡ s };

    fn clone(&self) -> Result<View, AllocError> {
        Ok(View {
            node: self.node.clone()?,
            children: self.children.clone()?,
        })
    }
}

impl Same for View {
    ghost exact = { λ x y h. h };
}

/// A node and the names that are listed of it, as they are printed.
#[derive(Clone, Copy)]
pub(crate) struct Shown<'a> {
    node: &'a Node,
    children: &'a Listing,
}

impl<'a> Shown<'a> {
    pub(crate) fn of(node: &'a Node, children: &'a Listing) -> Shown<'a>
        ensures node { result.node.now ≡ node.now }
        ensures children { result.children.now ≡ children.now }
    {
        Shown { node, children }
    }
}

impl fmt::Display for Shown<'_> {
    ghost output = { λ x. Some (node_text x.node.now x.children.now) };

    fn fmt<W: fmt::Write>(&self, f: &mut fmt::Formatter<W>) -> fmt::Result {
        let header = Header::of_node(self.node);
        let acls = AclNamesText::of_node(self.node);
        let life = self.node.life;
        write!(f, "{header} {acls} {life}")?;
        match self.node.kind {
            Kind::Directory => {
                let count = self.children.as_slice().len();
                let listed = Listed(self.children.as_slice());
                write!(f, " {count}{listed}")
            }
            Kind::File => {
                let length = self.node.content.len();
                let hex = Hex(self.node.content.as_slice());
                write!(f, " {length} {hex}")
            }
        }
    }
}

impl fmt::Display for View {
    ghost output = { λ x. Some (view_text x) };

    fn fmt<W: fmt::Write>(&self, f: &mut fmt::Formatter<W>) -> fmt::Result {
        let shown = Shown::of(&self.node, &self.children);
        write!(f, "{shown}")
    }
}

/// A change of the map: a node is set, or it is gone.
#[derive(Drop)]
pub enum Mod {
    Put(Name, Node),
    Gone(Name),
}

impl Mod {
    /// The name whose node changes.
    pub fn name(&self) -> &Name
        ensures { result.now ≡ name_of self.now }
    {
        match self {
            Mod::Put(name, _) => name,
            Mod::Gone(name) => name,
        }
    }
}

impl Clone for Mod {
    ghost is_clone = { λ s t. t ≡ s };

    fn clone(&self) -> Result<Mod, AllocError> {
        Ok(match self {
            Mod::Put(name, node) => Mod::Put(name.clone()?, node.clone()?),
            Mod::Gone(name) => Mod::Gone(name.clone()?),
        })
    }
}

impl Same for Mod {
    ghost exact = { λ x y h. h };
}
