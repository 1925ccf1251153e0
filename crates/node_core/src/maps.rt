//! The map of names to nodes.
ghost use Rattle.std.specs.Prelude.{◌≡◌, ◌≢◌, [], Some, None, IfOk, IfErr, OnOk, OnErr, length, unwrap_or};
ghost use Rattle.std.specs.Option.{option_copied, option_map};
ghost use Rattle.std.specs.BTreeMap.{is_at, insert_entry};
ghost use Rattle.std.specs.Map.{remove_entry, set_value};
ghost use Rattle.std.specs.Cmp.Lexicographic.{slice_cmp};
ghost use Rattle.std.specs.Ordering.{nat_cmp};
ghost use Rattle.node_core.specs.Nodes.{HasNamesInOrder, get_node, children, listing, view_of, has_children, misfit, put_misfit, parent_misfit, limit_misfit, present_misfit, gone_misfit, after, name_of, last_sibling_of};
ghost use Rattle.node_core.specs.Access.{first_name};
ghost use Rattle.node_core.specs.Room.{content_length, content_bytes, Counts};
ghost use Rattle.collections.specs.Tables.{with_former};

use crate::faults::NodeFault;
use crate::kinds::Kind;
use crate::listings::Listing;
use crate::nodes::Node;
use crate::room::Total;
use crate::views::{Mod, View};
use collections::{Items, Same, Table};
use names_cell::{Component, Name};
use std::alloc::{AllocError, Global};
use std::collections::BTreeMap;
use std::marker::Model;
use std::ops::Bound;

/// The greatest length of a content, in bytes.
pub const CONTENT_LIMIT: usize = 262_144;

/// The greatest instance, generation, epoch, or number of a message: 2^63-1.
pub const NUMBER_LIMIT: u64 = 0x7fff_ffff_ffff_ffff;

/// What a change of the map found.
#[derive(Drop)]
pub struct MapOutcome {
    /// The node that stood at the name before, if any.
    pub former: Option<Node>,
}

/// The nodes of a cell, by their names (Burrows 2006, section 2.3). To a contract, the entries in the order of the
/// names' bytes. No lock's generation is in it.
#[derive(Drop)]
pub struct Map {
    alloc: Global,
    nodes: Table<Name, Node>,
    // The bytes of all contents.
    bytes: Total,
}

impl Model for Map {
    ghost use Rattle.std.specs.Prelude.{List, ℕ};
    ghost use Rattle.node_core.specs.declared.nodes.Node.{Node};
    ghost use Rattle.node_core.specs.Nodes.{HasNamesInOrder};
    ghost use Rattle.node_core.specs.Room.{content_bytes, Says};

    ghost Value = { List (List ℕ × Node) };

    ghost view = { λ m. m.nodes };

    ghost invariant = { λ m. HasNamesInOrder m.nodes × Says m.bytes.sum (content_bytes m.nodes) };
}

impl Clone for Map {
    ghost is_clone = { λ s t. t ≡ s };

    fn clone(&self) -> Result<Map, AllocError> {
        Ok(Map {
            alloc: self.alloc,
            nodes: self.nodes.clone()?,
            bytes: self.bytes,
        })
    }
}

impl Same for Map {
    ghost exact = { λ x y h. h };
}

impl Map {
    /// No nodes; takes no memory yet.
    pub fn new(alloc: Global) -> Map
        ensures { result ≡ [] }
    {
        Map {
            alloc,
            nodes: Table::new(alloc),
            bytes: Total::new(),
        }
    }

    /// The node of a name: one look-up in a tree. Takes no memory.
    pub fn get(&self, name: &Name) -> Option<&Node>
        ensures { option_copied result ≡ get_node self.now name.now }
    {
        self.nodes.get(name)
    }

    /// The entries, for loops and chains.
    pub fn as_map(&self) -> &BTreeMap<Name, Node>
        ensures entries { result.now.entries ≡ self.now }
        ensures ordered { HasNamesInOrder self.now }
    {
        self.nodes.as_map()
    }

    /// How many nodes there are.
    pub fn len(&self) -> usize
        ensures { result ≡ length self.now }
    {
        self.nodes.as_map().len()
    }

    /// How many bytes the contents have in all; None where these are more than `u64::MAX`. The sum is kept: only after it was
    /// above that once is it counted anew.
    pub fn content_bytes(&self) -> Option<u64>
        ensures { Counts result (content_bytes self.now) }
    {
        match self.bytes.get() {
            Some(sum) => Some(sum),
            None => self.counted_bytes(),
        }
    }

    fn counted_bytes(&self) -> Option<u64>
        ensures { Counts result (content_bytes self.now) }
    {
        let mut sum: u64 = 0;
        for (_, node) in self.as_map() {
            sum = sum.checked_add(content_length(node))?;
        }
        Some(sum)
    }

    /// The first of the names, in order of bytes.
    pub fn first(&self) -> Option<&Name>
        ensures { option_copied result ≡ first_name self.now }
    {
        let (name, _) = self.nodes.as_map().first_key_value()?;
        Some(name)
    }

    /// The last components of the children of a name, in order of bytes. It walks from the least name that a child may have to
    /// the greatest, looks at what stands behind the name alone, and passes what lies below each child by look-ups in a tree.
    pub fn children(&self, name: &Name) -> Result<Items<Component>, AllocError>
        ensures { IfOk result (λ names. names ≡ children self.now name.now) }
    {
        let nodes = self.as_map();
        let mut names = Items::new(self.alloc);
        let Some(least) = name.first_child()? else {
            return Ok(names);
        };
        let Some(greatest) = name.last_child()? else {
            return Ok(names);
        };
        let mut entries = nodes.range((Bound::Included(&least), Bound::Included(&greatest)));
        while let Some((child, _)) = entries.next() {
            if let Some(part) = child.child_part(name)? {
                names.push(part)?;
            } else if let Some(last) = last_sibling(child)? {
                entries = nodes.range((Bound::Excluded(&last), Bound::Included(&greatest)));
            }
        }
        Ok(names)
    }

    /// What is listed of a node of this kind at a name: of a directory its children, as `children` finds them.
    pub fn listing(&self, name: &Name, kind: Kind) -> Result<Listing, AllocError>
        ensures { IfOk result (λ names. names ≡ listing self.now name.now kind) }
    {
        match kind {
            Kind::Directory => Listing::of(self.children(name)?),
            Kind::File => Ok(Listing::new()),
        }
    }

    /// What a client sees of a node at a name. Its children cost what `children` does.
    pub fn view_of(&self, name: &Name, node: &Node) -> Result<View, AllocError>
        ensures { IfOk result (λ view. view ≡ view_of self.now name.now node.now) }
    {
        let children = self.listing(name, node.kind)?;
        Ok(View {
            node: node.clone()?,
            children,
        })
    }

    /// Whether any name has this one as its parent. It walks over the names below this one up to the first child.
    pub fn has_children(&self, name: &Name) -> Result<bool, AllocError>
        ensures { IfOk result (λ any. any ≡ has_children self.now name.now) }
    {
        let entries = self.as_map();
        let Some(first) = name.first_child()? else {
            return Ok(false);
        };
        for (child, _) in entries.range(&first..) {
            if !child.is_under(name) {
                return Ok(false);
            }
            if child.is_child_of(name) {
                return Ok(true);
            }
        }
        Ok(false)
    }

    /// Sets a node, whether it fits or not. What stood at the name is given back.
    pub fn set(&mut self, name: Name, node: Node) -> Result<Option<Node>, AllocError>
        ensures ok { OnOk result (self.new ≡ insert_entry (slice_cmp nat_cmp) self.old name node) }
        ensures former { IfOk result (λ former. former ≡ get_node self.old name) }
        ensures undone { IfOk result (λ former. with_former (slice_cmp nat_cmp) self.new name former ≡ self.old) }
        ensures err { OnErr result (self.new ≡ self.old) }
    {
        let _text = name.as_str();
        let came = content_length(&node);
        let former = self.nodes.put(name, node)?;
        self.bytes.change(length_of(&former), came);
        Ok(former)
    }

    /// Gives a name the node that it had before a `set`, or none where it had none. Takes no memory.
    pub fn restore(&mut self, name: &Name, former: Option<Node>)
        ensures { self.new ≡ with_former (slice_cmp nat_cmp) self.old name.now former }
    {
        match former {
            Some(node) => self.replace(name, node),
            None => drop(self.unset(name)),
        }
    }

    // Puts a node in the place of one that is there, which takes no memory.
    fn replace(&mut self, name: &Name, node: Node)
        ensures { self.new ≡ set_value (is_at (slice_cmp nat_cmp name.now)) self.old node }
    {
        let came = content_length(&node);
        match self.nodes.replace(name, node) {
            Ok(former) => {
                self.bytes.change(content_length(&former), came);
                drop(former);
            }
            Err(back) => drop(back),
        }
    }

    /// Takes a node away, whether it fits or not. What stood at the name is given back. Takes no memory.
    pub fn unset(&mut self, name: &Name) -> Option<Node>
        ensures after { self.new ≡ remove_entry (is_at (slice_cmp nat_cmp name.now)) self.old }
        ensures former { result ≡ get_node self.old name.now }
    {
        let former = self.nodes.remove(name);
        self.bytes.change(length_of(&former), 0);
        former
    }

    /// Does a change where it fits, and else gives the first reason why it doesn't; the map is then as it was. A Put
    /// of a node that is there costs a look-up in a tree.
    pub fn apply(&mut self, change: &Mod) -> Result<MapOutcome, NodeFault>
        ensures after { OnOk result (after self.old change.now ≡ Some self.new) }
        ensures former { IfOk result (λ outcome. outcome.former ≡ get_node self.old (name_of change.now)) }
        ensures fault { IfErr result (λ e. e ≢ NodeFault.NoMemory → misfit self.old change.now ≡ Some e) }
        ensures err { OnErr result (self.new ≡ self.old) }
    {
        match change {
            Mod::Put(name, node) => self.put(name, node),
            Mod::Gone(name) => self.remove(name),
        }
    }

    fn put(&mut self, name: &Name, node: &Node) -> Result<MapOutcome, NodeFault>
        ensures fits { OnOk result (put_misfit self.old name.now node.now ≡ None) }
        ensures changed { OnOk result (self.new ≡ insert_entry (slice_cmp nat_cmp) self.old name.now node.now) }
        ensures former { IfOk result (λ outcome. outcome.former ≡ get_node self.old name.now) }
        ensures fault { IfErr result (λ e. e ≢ NodeFault.NoMemory → put_misfit self.old name.now node.now ≡ Some e) }
        ensures err { OnErr result (self.new ≡ self.old) }
    {
        if let Some(fault) = self.put_misfit(name, node)? {
            return Err(fault);
        }
        let name = name.clone()?;
        let node = node.clone()?;
        let former = self.set(name, node)?;
        Ok(MapOutcome { former })
    }

    fn remove(&mut self, name: &Name) -> Result<MapOutcome, NodeFault>
        ensures fits { OnOk result (gone_misfit self.old name.now ≡ None) }
        ensures changed { OnOk result (self.new ≡ remove_entry (is_at (slice_cmp nat_cmp name.now)) self.old) }
        ensures former { IfOk result (λ outcome. outcome.former ≡ get_node self.old name.now) }
        ensures fault { IfErr result (λ e. e ≢ NodeFault.NoMemory → gone_misfit self.old name.now ≡ Some e) }
        ensures err { OnErr result (self.new ≡ self.old) }
    {
        if let Some(fault) = self.gone_misfit(name)? {
            return Err(fault);
        }
        let former = self.unset(name);
        Ok(MapOutcome { former })
    }

    // The first fault of a Put.
    fn put_misfit(&self, name: &Name, node: &Node) -> Result<Option<NodeFault>, AllocError>
        ensures { IfOk result (λ fault. fault ≡ put_misfit self.now name.now node.now) }
    {
        if let Some(fault) = self.parent_misfit(name)? {
            return Ok(Some(fault));
        }
        if let Some(fault) = limit_misfit(node) {
            return Ok(Some(fault));
        }
        Ok(self.present_misfit(name, node))
    }

    // What is wrong with the parent.
    fn parent_misfit(&self, name: &Name) -> Result<Option<NodeFault>, AllocError>
        ensures { IfOk result (λ fault. fault ≡ parent_misfit self.now name.now) }
    {
        let Some(parent) = name.parent()? else {
            return Ok(None);
        };
        Ok(match self.get(&parent) {
            None => Some(NodeFault::NotFound),
            Some(node) => match node.kind {
                Kind::Directory => None,
                Kind::File => Some(NodeFault::WrongKind(Kind::File)),
            },
        })
    }

    // What is wrong with the node that stands there.
    fn present_misfit(&self, name: &Name, node: &Node) -> Option<NodeFault>
        ensures { result ≡ present_misfit (get_node self.now name.now) node.now }
    {
        let present = self.get(name)?;
        if present.instance != node.instance {
            return Some(NodeFault::StaleInstance);
        }
        if present.kind != node.kind {
            return Some(NodeFault::WrongKind(present.kind));
        }
        None
    }

    // The first fault of a Gone.
    fn gone_misfit(&self, name: &Name) -> Result<Option<NodeFault>, AllocError>
        ensures { IfOk result (λ fault. fault ≡ gone_misfit self.now name.now) }
    {
        if self.get(name).is_none() {
            return Ok(Some(NodeFault::NotFound));
        }
        if self.has_children(name)? || name.is_root() {
            return Ok(Some(NodeFault::NotEmpty));
        }
        Ok(None)
    }
}

// The greatest name, in order of bytes, that may have the same parent.
fn last_sibling(name: &Name) -> Result<Option<Name>, AllocError>
    ensures { IfOk result (λ last. last ≡ last_sibling_of name.now) }
{
    let Some(parent) = name.parent()? else {
        return Ok(None);
    };
    parent.last_child()
}

fn content_length(node: &Node) -> u64
    ensures { result ≡ content_length node.now }
{
    node.content.len() as u64
}

// 0 where there is no node.
fn length_of(node: &Option<Node>) -> u64
    ensures { result ≡ unwrap_or (option_map content_length node.now) 0 }
{
    match node {
        Some(node) => content_length(node),
        None => 0,
    }
}

// What is wrong with the node itself.
fn limit_misfit(node: &Node) -> Option<NodeFault>
    ensures { result ≡ limit_misfit node.now }
{
    if node.content.len() > CONTENT_LIMIT {
        return Some(NodeFault::TooLarge);
    }
    if node.instance > NUMBER_LIMIT
        || node.content_generation > NUMBER_LIMIT
        || node.acl_generation > NUMBER_LIMIT
    {
        return Some(NodeFault::Exhausted);
    }
    None
}
