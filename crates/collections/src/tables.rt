//! A map that contracts see as the list of its entries.
ghost use Rattle.std.specs.Prelude.{◌≡◌, List, [], IfOk, IfErr, OnOk, OnErr, Some, None};
ghost use Rattle.std.specs.Borrow.{sem};
ghost use Rattle.std.specs.Option.{option_copied, option_copied_mut};
ghost use Rattle.std.specs.Map.{lookup, remove_entry, set_value};
ghost use Rattle.std.specs.Map.Calls.{CalledAtPair, TakesPair, CallableOnEachPair, RetainsPairs};
ghost use Rattle.std.specs.BTreeMap.{is_at, insert_entry};
ghost use Rattle.collections.specs.Tables.{with_former};

use crate::clones::Same;
use std::alloc::{AllocError, Global};
use std::collections::BTreeMap;
use std::marker::Model;
use std::mem;

/// A map. To a contract it is the list of its entries in the order of the keys.
#[derive(Drop)]
pub struct Table<K: Ord, V> {
    map: BTreeMap<K, V>,
}

impl<K: Ord, V> Model for Table<K, V> {
    ghost use Rattle.std.specs.Prelude.{List};

    ghost Value = { List (K × V) };

    ghost view = { λ a. a.map.entries };
}

impl<K: Ord, V> Table<K, V> {
    /// No entries; takes no memory yet.
    pub fn new(alloc: Global) -> Table<K, V>
        ensures { result ≡ [] }
    {
        Table {
            map: BTreeMap::new(alloc),
        }
    }

    /// The value of a key: one look-up in the tree.
    pub fn get(&self, key: &K) -> Option<&V>
        ensures { option_copied result ≡ lookup (is_at (K.cmp key.now)) self.now }
    {
        self.map.get(key)
    }

    /// The entries, for loops and chains.
    pub fn as_map(&self) -> &BTreeMap<K, V>
        ensures { result.now.entries ≡ self.now }
    {
        &self.map
    }
}

impl<K: Ord, V> Table<K, V> {
    ghost use Rattle.collections.specs.Lent.{LendsValue};

    /// The value of a key, to be changed where it stands: one look-up in the tree. Takes no memory. Once the borrow
    /// ends the key has what was left behind it; a key that isn't there leaves the table.
    pub fn get_mut(&mut self, key: &K) -> Option<&mut V>
        ensures* writes_back { sem 𝓛 (LendsValue K.row V.row K.Ord self.entry key.now result) }
        ensures value { option_copied_mut result ≡ lookup (is_at (K.cmp key.now)) self.old }
    {
        self.map.get_mut(key)
    }
}

impl<K: Ord + Drop, V: Drop> Table<K, V> {
    /// Sets the value of a key, and gives the one before.
    pub fn put(&mut self, key: K, value: V) -> Result<Option<V>, AllocError>
        ensures former { IfOk result (λ former. former ≡ lookup (is_at (K.cmp key)) self.old) }
        ensures ok { OnOk result (self.new ≡ insert_entry K.cmp self.old key value) }
        ensures undone { IfOk result (λ former. with_former K.cmp self.new key former ≡ self.old) }
        ensures err { OnErr result (self.new ≡ self.old) }
    {
        Ok(self.map.insert(key, value)?)
    }

    /// Sets the value of a key that is there, which takes no memory. Where it isn't there the value comes back.
    pub fn replace(&mut self, key: &K, value: V) -> Result<V, V>
        ensures found { IfOk result (λ former. lookup (is_at (K.cmp key.now)) self.old ≡ Some former) }
        ensures set { OnOk result (self.new ≡ set_value (is_at (K.cmp key.now)) self.old value) }
        ensures absent { IfErr result (λ back. (lookup (is_at (K.cmp key.now)) self.old ≡ None) × (back ≡ value) × (self.new ≡ self.old)) }
    {
        match self.map.get_mut(key) {
            Some(slot) => Ok(mem::replace(slot, value)),
            None => Err(value),
        }
    }

    /// Removes a key, and gives its value.
    pub fn remove(&mut self, key: &K) -> Option<V>
        ensures former { result ≡ lookup (is_at (K.cmp key.now)) self.old }
        ensures removed { self.new ≡ remove_entry (is_at (K.cmp key.now)) self.old }
    {
        self.map.remove(key)
    }

    /// Gives a key the value that it had before a `put`, or takes it out where it had none. Takes no memory.
    pub fn restore(&mut self, key: &K, former: Option<V>)
        ensures { self.new ≡ with_former K.cmp self.old key.now former }
    {
        match former {
            Some(value) => self.write(key, value),
            None => {
                self.remove(key);
            }
        }
    }

    // Sets the value of a key, where it is there.
    #[tactic(auto, using(crate::proofs::Formers::set_absent))]
    fn write(&mut self, key: &K, value: V)
        ensures { self.new ≡ set_value (is_at (K.cmp key.now)) self.old value }
    {
        if let Some(slot) = self.map.get_mut(key) {
            *slot = value;
        }
    }

    /// Keeps the entries at which the test answers yes, which takes no memory. The test is called once at each entry,
    /// in the order of the keys.
    pub fn retain<F: FnMut(&K, &mut V) -> bool>(&mut self, test: F)
        requires { CallableOnEachPair (CalledAtPair F.FnMut) (TakesPair F.FnMut) test self.old }
        ensures { RetainsPairs (CalledAtPair F.FnMut) test self.old self.new }
    {
        self.map.retain(test);
    }
}

impl<K: Ord + Same, V: Same> Clone for Table<K, V> {
    ghost is_clone = { λ s t. t ≡ s };

    fn clone(&self) -> Result<Table<K, V>, AllocError> {
        Ok(Table {
            map: self.map.clone()?,
        })
    }
}

impl<K: Ord + Same, V: Same> Same for Table<K, V> {
    ghost exact = { λ x y h. h };
}
