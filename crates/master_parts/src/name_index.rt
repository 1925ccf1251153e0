//! Under which name the node of an instance stands.
ghost use Rattle.std.specs.Prelude.{◌≡◌, ◌≢◌, ℕ, List, [], true, false, Some, OnOk};
ghost use Rattle.std.specs.Option.{option_copied};
ghost use Rattle.node_core.specs.Nodes.{get_node};
ghost use Rattle.master_parts.specs.NameIndex.{name_of, stands_at, indexed_name, StayIndexed, IsIndexed, unindexed, with_former_index};

use collections::Table;
use names_cell::Name;
use node_core::{Map, Node};
use std::alloc::{AllocError, Global};

// The name of each node by its instance, so that a node is found by its instance.
#[derive(Drop)]
pub(crate) struct NameIndex {
    pub(crate) names: Table<u64, Name>,
    // Whether each node's name is there. Not where two nodes had one instance, or one that left came back: then a look at
    // the map finds it.
    pub(crate) complete: bool,
}

impl NameIndex {
    // No names; takes no memory yet.
    pub(crate) fn new(alloc: Global) -> NameIndex
        ensures { result ≡ record { names = []; complete = true } }
    {
        NameIndex {
            names: Table::new(alloc),
            complete: true,
        }
    }

    // The name that is noted of an instance: one look-up.
    pub(crate) fn get(&self, instance: u64) -> Option<&Name>
        ensures { option_copied result ≡ indexed_name self.now.names instance }
    {
        self.names.get(&instance)
    }

    // The name of a node that comes is noted. What is noted of another that stands there stays.
    #[tactic(auto, using(crate::proofs::IndexedNodes::stay_noted))]
    pub(crate) fn add(&mut self, map: &Map, name: &Name, instance: u64) -> Result<(), AllocError>
        ensures own { OnOk result (self.new.complete ≡ true → indexed_name self.new.names instance ≡ Some name.now) }
        ensures complete { self.new.complete ≡ true → self.old.complete ≡ true }
        ensures others { StayIndexed map.now self.old.names self.new.names }
    {
        match seat_of(&self.names, map, name, instance) {
            InstanceNote::Own => Ok(()),
            InstanceNote::Taken => {
                self.complete = false;
                Ok(())
            }
            InstanceNote::Free => note(&mut self.names, instance, name),
        }
    }

    // Nothing is noted any more of a node that left, where there was one. Takes no memory.
    pub(crate) fn remove(&mut self, former: &Option<Node>)
        ensures complete { self.new.complete ≡ self.old.complete }
        ensures names { self.new.names ≡ unindexed self.old.names former.now }
    {
        if let Some(node) = former {
            self.names.remove(&node.instance);
        }
    }

    // The node of a name that is in the map gives way to the one that was there before, if one was. Takes no memory.
    pub(crate) fn restore(&mut self, map: &Map, name: &Name, former: &Option<Node>)
        ensures complete { self.new.complete ≡ true → self.old.complete ≡ true }
        ensures names { self.new.names ≡ with_former_index self.old.names (get_node map.now name.now) former.now }
        ensures own { self.new.complete ≡ true → IsIndexed self.new.names name.now former.now }
    {
        match former {
            Some(node) => {
                let indexed = is_indexed(&self.names, name, node);
                self.complete = self.complete && indexed;
            }
            None => {
                if let Some(node) = map.get(name) {
                    self.names.remove(&node.instance);
                }
            }
        }
    }
}

// What is noted of an instance.
enum InstanceNote {
    // This name.
    Own,
    // Another name, at which it stands.
    Taken,
    // Nothing, or a name at which it doesn't stand.
    Free,
}

fn seat_of(names: &Table<u64, Name>, map: &Map, name: &Name, instance: u64) -> InstanceNote
    ensures own { result ≡ InstanceNote.Own → indexed_name names.now instance ≡ Some name.now }
    ensures free { result ≡ InstanceNote.Free → (n : List ℕ) → indexed_name names.now instance ≡ Some n → stands_at map.now n instance ≡ false }
{
    let Some(noted) = names.get(&instance) else {
        return InstanceNote::Free;
    };
    if noted == name {
        return InstanceNote::Own;
    }
    if stands_at(map, noted, instance) {
        InstanceNote::Taken
    } else {
        InstanceNote::Free
    }
}

// A name is noted of an instance.
#[tactic(auto, using(crate::proofs::IndexedNodes::noted_own, crate::proofs::IndexedNodes::noted_others))]
fn note(names: &mut Table<u64, Name>, instance: u64, name: &Name) -> Result<(), AllocError>
    ensures own { OnOk result (indexed_name names.new instance ≡ Some name.now) }
    ensures others { (q : ℕ) → q ≢ instance → indexed_name names.new q ≡ indexed_name names.old q }
{
    names.put(instance, name.clone()?)?;
    Ok(())
}

// Whether this name is noted of a node.
fn is_indexed(names: &Table<u64, Name>, name: &Name, node: &Node) -> bool
    ensures { result ≡ true → indexed_name names.now node.now.instance ≡ Some name.now }
{
    match names.get(&node.instance) {
        Some(noted) => noted == name,
        None => false,
    }
}

// Whether a node of this instance stands at a name.
pub(crate) fn stands_at(map: &Map, name: &Name, instance: u64) -> bool
    ensures { result ≡ stands_at map.now name.now instance }
{
    match map.get(name) {
        Some(node) => node.instance == instance,
        None => false,
    }
}

// The name of an instance's node, by a walk over the map up to it.
pub(crate) fn first_of(map: &Map, instance: u64) -> Option<&Name>
    ensures { option_copied result ≡ name_of map.now instance }
{
    for (name, node) in map.as_map() {
        if node.instance == instance {
            return Some(name);
        }
    }
    None
}
