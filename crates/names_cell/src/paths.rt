//! Names of nodes.
ghost use Rattle.std.specs.Prelude.{◌≡◌, ◌≤◌, Some, Ok, Err, true, refl, nat_eq, if◌then◌else◌, IfOk, codes, ◌∷◌, ◌++◌, length, is_none};
ghost use Rattle.std.specs.List.{list_all, slice_split};
ghost use Rattle.std.specs.Str.{bytes_eq};
ghost use Rattle.std.specs.Cmp.{partial_equiv_from_equiv};
ghost use Rattle.std.specs.Cmp.Lexicographic.{slice_cmp, pointwise, nat_list_eq_equiv, nat_list_cmp_total, texts_ties, texts_po};
ghost use Rattle.std.specs.Ordering.{nat_cmp};
ghost use Rattle.std.specs.Cmp.Rules.{hashing};
ghost use Rattle.std.specs.Hash as fed;
ghost use Rattle.std.proofs.Common.{rules};
ghost use Rattle.collections.specs.Results.{Gives};
ghost use Rattle.names_cell.specs.Text.{is_component, is_name, is_slash, parent_of, is_child, is_under, first_child_of, last_child_of, cell_of, last_of, child_part, root_of, acl_file_of};

use crate::components::Component;
use crate::faults::NameFault;
use crate::grammar;
use collections::Same;
use std::alloc::{AllocError, Global};
use std::cmp::Ordering;
use std::fmt;
use std::hash::{Hash, Hasher};
use std::marker::Model;

/// The name of a node: `/ls/`, the cell, and any number of further components, each behind a slash; at most 512 bytes.
/// To a contract, its bytes. Names are compared by their bytes.
#[derive(Debug, Drop)]
pub struct Name {
    text: String,
}

impl Model for Name {
    ghost use Rattle.std.specs.Prelude.{◌≡◌, List, ℕ, true, string_bytes};
    ghost use Rattle.names_cell.specs.Text.{is_name};

    ghost Value = { List ℕ };

    ghost view = { λ a. string_bytes a.text };

    ghost invariant = { λ a. is_name (string_bytes a.text) ≡ true };
}

impl Name {
    /// Reads a name.
    pub fn parse(alloc: Global, text: &str) -> Result<Name, NameFault>
        ensures { Gives NameFault.NoMemory result (if is_name text.now then Ok text.now else Err NameFault.BadName) }
    {
        if !grammar::is_name(text) {
            return Err(NameFault::BadName);
        }
        Ok(Name {
            text: text.to_string(alloc)?,
        })
    }

    pub fn as_str(&self) -> &str
        ensures text { result.now ≡ self.now }
        ensures name { is_name self.now ≡ true }
    {
        self.text.as_str()
    }

    /// The root of a cell: `/ls/` and the cell.
    pub fn root(alloc: Global, cell: &Component) -> Result<Name, AllocError>
        ensures { IfOk result (λ root. root ≡ root_of cell.now) }
    {
        let cell = cell.as_str();
        Ok(Name {
            text: format!(in alloc; "/ls/{cell}")?,
        })
    }

    /// The name without its last component; the root, `/ls/` and the cell, has none.
    pub fn parent(&self) -> Result<Option<Name>, AllocError>
        ensures { IfOk result (λ p. p ≡ parent_of self.now) }
    {
        let Some(front) = grammar::front_of(self.path()) else {
            return Ok(None);
        };
        Ok(Some(Name {
            text: format!(in *self.text.allocator(); "/ls/{front}")?,
        }))
    }

    /// Whether it is a name of the cell. Takes no memory.
    pub fn in_cell(&self, cell: &str) -> bool
        ensures { result ≡ bytes_eq (cell_of self.now) cell.now }
    {
        grammar::first_of(self.path()) == cell
    }

    /// The last component; of the root it is the cell.
    pub fn last(&self) -> &str
        ensures last { result.now ≡ last_of self.now }
    {
        grammar::last_of(self.as_str())
    }

    /// The last component, as a value of its own; of the root it is the cell.
    pub fn last_component(&self) -> Result<Component, AllocError>
        ensures { IfOk result (λ last. last ≡ last_of self.now) }
    {
        Component::known(*self.text.allocator(), grammar::last_of(self.path()))
    }

    /// Whether it is the root of its cell.
    pub fn is_root(&self) -> bool
        ensures { result ≡ is_none (parent_of self.now) }
    {
        grammar::front_of(self.path()).is_none()
    }

    /// Whether the other name is its parent. Takes no memory.
    pub fn is_child_of(&self, parent: &Name) -> bool
        ensures { result ≡ is_child self.now parent.now }
    {
        match grammar::front_of(self.path()) {
            Some(front) => front == parent.path(),
            None => false,
        }
    }

    /// Whether it lies below the other name, at any depth. Takes no memory.
    pub fn is_under(&self, top: &Name) -> bool
        ensures { result ≡ is_under self.now top.now }
    {
        let top = top.as_str().as_bytes();
        match self.as_str().as_bytes().strip_prefix(top) {
            Some(rest) => rest.starts_with(b"/"),
            None => false,
        }
    }

    /// Of a name that lies below the other: where the other is its parent its last component, and none where more lies between
    /// them. Of its bytes only those behind the other are looked at.
    pub fn child_part(&self, top: &Name) -> Result<Option<Component>, AllocError>
        requires { is_under self.now top.now ≡ true }
        ensures { IfOk result (λ part. part ≡ child_part self.now top.now) }
    {
        let part = self.behind(top);
        match grammar::front_of(part) {
            Some(_) => Ok(None),
            None => Ok(Some(Component::known(*self.text.allocator(), part)?)),
        }
    }

    // What stands behind the other name and a slash.
    fn behind(&self, top: &Name) -> &str
        requires { is_under self.now top.now ≡ true }
        ensures joined { self.now ≡ top.now ++ 47 ∷ result.now }
        ensures name { is_name self.now ≡ true }
        ensures above { is_name top.now ≡ true }
    {
        let text = self.as_str();
        let start = top.as_str().len() + 1;
        &text[start..]
    }

    /// The least name, in order of bytes, that a child of this one can have; none where there is no room for a child.
    pub fn first_child(&self) -> Result<Option<Name>, AllocError>
        ensures { IfOk result (λ first. first ≡ first_child_of self.now) }
    {
        if self.text.len() > 510 {
            return Ok(None);
        }
        let path = self.path();
        Ok(Some(Name {
            text: format!(in *self.text.allocator(); "/ls/{path}/-")?,
        }))
    }

    /// The greatest name, in order of bytes, that a child of this one can have; none where there is no room for a child.
    pub fn last_child(&self) -> Result<Option<Name>, AllocError>
        ensures { IfOk result (λ last. last ≡ last_child_of self.now) }
    {
        let room = 511usize.saturating_sub(self.text.len());
        if room == 0 {
            return Ok(None);
        }
        let alloc = *self.text.allocator();
        let path = self.path();
        let last = "z".repeat(alloc, room.min(64))?;
        Ok(Some(Name {
            text: format!(in alloc; "/ls/{path}/{last}")?,
        }))
    }

    /// The file of an ACL in this name's cell: `/ls/`, the cell, `/acl/` and the ACL's name.
    pub fn acl_file(&self, acl: &Component) -> Result<Name, AllocError>
        ensures { IfOk result (λ file. file ≡ acl_file_of self.now acl.now) }
    {
        let cell = grammar::first_of(self.path());
        let acl = acl.as_str();
        Ok(Name {
            text: format!(in *self.text.allocator(); "/ls/{cell}/acl/{acl}")?,
        })
    }

    // What stands behind `/ls/`.
    fn path(&self) -> &str
        ensures path { self.now ≡ codes "/ls/" ++ result.now }
        ensures components { list_all is_component (slice_split is_slash result.now) ≡ true }
        ensures length { length self.now ≤ 512 }
    {
        self.text.strip_prefix("/ls/").unwrap_or("")
    }
}

impl fmt::Display for Name {
    ghost output = { λ n. Some n };

    fn fmt<W: fmt::Write>(&self, f: &mut fmt::Formatter<W>) -> fmt::Result {
        f.write_str(self.as_str())
    }
}

impl Clone for Name {
    ghost is_clone = { λ s t. t ≡ s };

    fn clone(&self) -> Result<Name, AllocError> {
        Ok(Name {
            text: self.text.clone()?,
        })
    }
}

impl PartialEq for Name {
    ghost eq = { pointwise nat_eq };

    ghost laws = { partial_equiv_from_equiv nat_list_eq_equiv };

    fn eq(&self, other: &Name) -> bool {
        self.text == other.text
    }
}

impl Eq for Name {
    ghost laws = { nat_list_eq_equiv };
}

impl Hash for Name {
    ghost hash_input = { fed.slice fed.u8 };

    ghost respects_eq = { Prim.search (hashing, rules) };

    fn hash<H: Hasher>(&self, state: &mut H) {
        self.as_str().as_bytes().hash(state);
    }
}

impl PartialOrd for Name {
    ghost partial_cmp = { λ x y. Some (slice_cmp nat_cmp x y) };

    ghost laws = { texts_po };

    fn partial_cmp(&self, other: &Name) -> Option<Ordering> {
        Some(self.cmp(other))
    }
}

impl Ord for Name {
    ghost cmp = { slice_cmp nat_cmp };

    ghost total = { nat_list_cmp_total };

    ghost matches_partial_cmp = { λ x y. refl };

    ghost matches_eq = { texts_ties };

    fn cmp(&self, other: &Name) -> Ordering {
        self.text.cmp(&other.text)
    }
}

impl Same for Name {
    ghost exact = { λ x y h. h };
}
