//! The nodes of a cell, which of them are ephemeral, and which stands for an instance.
ghost use Rattle.std.specs.Prelude.{◌≡◌, true, false, Some, IfOk, OnOk, OnErr};
ghost use Rattle.std.specs.Option.{option_copied};
ghost use Rattle.std.specs.BTreeMap.{is_at, insert_entry};
ghost use Rattle.std.specs.Map.{remove_entry};
ghost use Rattle.std.specs.Cmp.Lexicographic.{slice_cmp};
ghost use Rattle.std.specs.Ordering.{nat_cmp};
ghost use Rattle.collections.specs.Tables.{with_former};
ghost use Rattle.node_core.specs.Nodes.{HasNamesInOrder, get_node};
ghost use Rattle.master_parts.specs.EphemeralNames.{is_ephemeral, NameTable, AreNamed, IsNamed, with_name, was_ephemeral, with_former_name};
ghost use Rattle.master_parts.specs.NameIndex.{name_of, AreIndexed};

use crate::name_index::{NameIndex, first_of, stands_at};
use collections::Table;
use names_cell::Name;
use node_core::{Life, Map, Node};
use std::alloc::{AllocError, Global};
use std::marker::Model;

/// The nodes of a cell, by their names. To a contract, the entries in the order of the names' bytes. The ephemeral ones
/// are found by their names, and each by its instance.
#[derive(Drop)]
pub struct Nodes {
    map: Map,
    // The name of each ephemeral node, and some others.
    ephemerals: Table<Name, ()>,
    // Whether each ephemeral node has its name there.
    complete: bool,
    index: NameIndex,
}

impl Model for Nodes {
    ghost use Rattle.std.specs.Prelude.{◌≡◌, List, ℕ, true};
    ghost use Rattle.node_core.specs.declared.nodes.Node.{Node};
    ghost use Rattle.master_parts.specs.EphemeralNames.{AreNamed};
    ghost use Rattle.master_parts.specs.NameIndex.{AreIndexed};

    ghost Value = { List (List ℕ × Node) };

    ghost view = { λ n. n.map };

    ghost invariant = { λ n. (n.complete ≡ true → AreNamed n.map n.ephemerals) × (n.index.complete ≡ true → AreIndexed n.map n.index.names) };
}

impl Nodes {
    /// The nodes of a map.
    pub fn of_map(alloc: Global, map: Map) -> Result<Nodes, AllocError>
        ensures { IfOk result (λ nodes. nodes ≡ map) }
    {
        let ephemerals = names_of(alloc, &map)?;
        let index = index_of(alloc, &map)?;
        Ok(Nodes {
            map,
            ephemerals,
            complete: true,
            index,
        })
    }

    pub fn map(&self) -> &Map
        ensures { result.now ≡ self.now }
    {
        &self.map
    }

    /// The names of the ephemeral nodes, and of some others; None where that of each isn't known.
    pub fn ephemerals(&self) -> Option<&Table<Name, ()>>
        ensures { (names : NameTable) → option_copied result ≡ Some names → AreNamed self.now names }
    {
        if self.complete {
            Some(&self.ephemerals)
        } else {
            None
        }
    }

    /// The name of an instance's node; of two of one instance the first. Two look-ups, as long as no two nodes had one
    /// instance, and else a walk over the map up to it.
    pub fn name_of(&self, instance: u64) -> Option<&Name>
        ensures { option_copied result ≡ name_of self.now instance }
    {
        let _nodes = self.map.as_map();
        if !self.index.complete {
            return first_of(&self.map, instance);
        }
        let Some(name) = self.index.get(instance) else {
            return None;
        };
        if stands_at(&self.map, name, instance) {
            Some(name)
        } else {
            None
        }
    }

    /// Sets a node. What stood at the name is given back.
    pub fn set(&mut self, name: Name, node: Node) -> Result<Option<Node>, AllocError>
        ensures ok { OnOk result (self.new ≡ insert_entry (slice_cmp nat_cmp) self.old name node) }
        ensures former { IfOk result (λ former. former ≡ get_node self.old name) }
        ensures undone { IfOk result (λ former. with_former (slice_cmp nat_cmp) self.new name former ≡ self.old) }
        ensures err { OnErr result (self.new ≡ self.old) }
    {
        add_name(&mut self.ephemerals, &name, &node)?;
        self.index.add(&self.map, &name, node.instance)?;
        self.map.set(name, node)
    }

    /// Gives a name the node that it had before a `set`, or none where it had none. Takes no memory.
    pub fn restore(&mut self, name: &Name, former: Option<Node>)
        ensures { self.new ≡ with_former (slice_cmp nat_cmp) self.old name.now former }
    {
        let _nodes = self.map.as_map();
        let _count = self.ephemerals.as_map().len();
        if !restore_name(&mut self.ephemerals, name, &former) {
            self.complete = false;
        }
        self.index.restore(&self.map, name, &former);
        self.map.restore(name, former);
    }

    /// Takes a node away. What stood at the name is given back. Takes no memory.
    pub fn unset(&mut self, name: &Name) -> Option<Node>
        ensures after { self.new ≡ remove_entry (is_at (slice_cmp nat_cmp name.now)) self.old }
        ensures former { result ≡ get_node self.old name.now }
    {
        let _nodes = self.map.as_map();
        let _count = self.ephemerals.as_map().len();
        let former = self.map.unset(name);
        self.ephemerals.remove(name);
        self.index.remove(&former);
        former
    }
}

pub fn is_ephemeral(life: Life) -> bool
    ensures { result ≡ is_ephemeral life }
{
    match life {
        Life::Permanent => false,
        Life::Ephemeral => true,
    }
}

fn names_of(alloc: Global, map: &Map) -> Result<Table<Name, ()>, AllocError>
    ensures { IfOk result (λ names. AreNamed map.now names) }
{
    let mut names = Table::new(alloc);
    for (name, node) in map.as_map() {
        add_name(&mut names, name, node)?;
    }
    Ok(names)
}

fn index_of(alloc: Global, map: &Map) -> Result<NameIndex, AllocError>
    ensures { IfOk result (λ index. index.complete ≡ true → AreIndexed map.now index.names) }
{
    let mut index = NameIndex::new(alloc);
    for (name, node) in map.as_map() {
        index.add(map, name, node.instance)?;
    }
    Ok(index)
}

// The name of an ephemeral node is put among the others.
fn add_name(names: &mut Table<Name, ()>, name: &Name, node: &Node) -> Result<(), AllocError>
    ensures ok { OnOk result (names.new ≡ with_name names.old name.now node.now) }
    ensures err { OnErr result (names.new ≡ names.old) }
{
    if is_ephemeral(node.life) {
        names.put(name.clone()?, ())?;
    }
    Ok(())
}

// The name stays where its node is an ephemeral one again. False where the name of such a node isn't there.
fn restore_name(names: &mut Table<Name, ()>, name: &Name, former: &Option<Node>) -> bool
    ensures after { names.new ≡ with_former_name names.old name.now former.now }
    ensures named { result ≡ true → IsNamed names.new name.now former.now }
{
    if was_ephemeral(former) {
        return names.get(name).is_some();
    }
    names.remove(name);
    true
}

fn was_ephemeral(former: &Option<Node>) -> bool
    ensures { result ≡ was_ephemeral former.now }
{
    match former {
        Some(node) => is_ephemeral(node.life),
        None => false,
    }
}
