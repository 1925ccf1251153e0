//! A list that contracts see as such.
ghost use Rattle.std.specs.Prelude.{◌≡◌, ◌==◌, ◌<◌, ◌+◌, ◌-◌, List, [], ◌∷◌, ◌++◌, length, take, drop, remove, slice_set, OnOk, OnErr};
ghost use Rattle.std.specs.Option.{option_to_list};

use crate::clones::Same;
use std::alloc::{AllocError, Global};
use std::marker::Model;

/// A list. To a contract it is the plain list of its items: what a `Vec` tells beyond that, its capacity and its
/// allocator, is not seen.
#[derive(Debug, Drop)]
pub struct Items<T> {
    items: Vec<T>,
}

impl<T> Model for Items<T> {
    ghost Value = { List T };

    ghost view = { λ a. a.items.items };
}

impl<T> Items<T> {
    /// No items; takes no memory yet.
    pub fn new(alloc: Global) -> Items<T>
        ensures { result ≡ [] }
    {
        Items {
            items: Vec::new(alloc),
        }
    }

    /// The items of a `Vec`, which takes no memory.
    pub fn from_vec(items: Vec<T>) -> Items<T>
        ensures { result ≡ items.items }
    {
        Items { items }
    }

    /// The items as a `Vec`, which takes no memory.
    pub fn into_vec(self) -> Vec<T>
        ensures { result.items ≡ self }
    {
        let Items { items } = self;
        items
    }

    pub fn as_slice(&self) -> &[T]
        ensures { result.now ≡ self.now }
    {
        self.items.as_slice()
    }

    pub fn len(&self) -> usize
        ensures { result ≡ length self.now }
    {
        self.items.len()
    }

    pub fn is_empty(&self) -> bool
        ensures { result ≡ (length self.now == 0) }
    {
        self.items.is_empty()
    }
}

impl<T: Drop> Items<T> {
    /// Adds an item at the end.
    pub fn push(&mut self, item: T) -> Result<(), AllocError>
        ensures ok { OnOk result (self.new ≡ self.old ++ item ∷ []) }
        ensures err { OnErr result (self.new ≡ self.old) }
    {
        Ok(self.items.push(item)?)
    }

    /// Takes what the other has behind its own.
    pub fn append(&mut self, other: Items<T>) -> Result<(), AllocError>
        ensures ok { OnOk result (self.new ≡ self.old ++ other) }
        ensures err { OnErr result (self.new ≡ self.old) }
    {
        let mut items = other.items;
        Ok(self.items.append(&mut items)?)
    }

    /// Puts an item into the place of another, which takes no memory.
    pub fn set(&mut self, at: usize, item: T)
        requires { at < length self.old }
        ensures { self.new ≡ slice_set self.old at item }
    {
        self.items[at] = item;
    }

    /// Takes an item out; those behind it move up.
    pub fn remove(&mut self, at: usize) -> T
        requires { at < length self.old }
        ensures rest { self.new ≡ remove self.old at }
        ensures taken { self.old ≡ take at self.old ++ result ∷ drop (at + 1) self.old }
    {
        self.items.remove(at)
    }

    /// Takes the last item off, so that a push can be undone.
    pub fn pop(&mut self) -> Option<T>
        ensures rest { self.new ≡ take (length self.old - 1) self.old }
        ensures last { self.old ≡ self.new ++ option_to_list result }
    {
        self.items.pop()
    }
}

impl<T: Same> Clone for Items<T> {
    ghost is_clone = { λ s t. t ≡ s };

    fn clone(&self) -> Result<Items<T>, AllocError> {
        Ok(Items {
            items: self.items.clone()?,
        })
    }
}

impl<T: Same> Same for Items<T> {
    ghost exact = { λ x y h. h };
}
