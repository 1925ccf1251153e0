//! Where the handles stand that asked to be told of events.
ghost use Rattle.std.specs.Prelude.{◌≡◌, ◌≤◌, ◌+◌, ℕ, [], true, OnOk};
ghost use Rattle.std.specs.Option.{option_copied};
ghost use Rattle.master_parts.specs.declared.handles.HandleKey.{HandleKey as KeyValue};
ghost use Rattle.master_parts.specs.OpenHandles.{AreAmong, is_among};
ghost use Rattle.master_parts.specs.Listeners.{rank_of, seat_of, asks, IsSeated, HasSeats};

use crate::handles::{HandleKey, HandleState};
use collections::Table;
use std::alloc::{AllocError, Global};
use std::marker::Model;
use tags_cell::Handle;

/// What a handle may have asked to be told of. Of a conflict only the holders of the lock are told, who are found by it.
#[derive(Clone, Copy, PartialEq, Eq)]
pub enum ListenSubject {
    Contents,
    Children,
    Lock,
}

impl ListenSubject {
    fn rank(self) -> u8
        ensures value { result ≡ rank_of self }
        ensures small { result ≤ 2 }
    {
        match self {
            ListenSubject::Contents => 0,
            ListenSubject::Children => 1,
            ListenSubject::Lock => 2,
        }
    }
}

/// A node, by its instance, and what may be asked for there, by its rank.
#[derive(Clone, Copy, PartialEq, Eq, PartialOrd, Ord)]
pub struct Post {
    pub instance: u64,
    pub rank: u8,
}

/// Where a handle stands that asked for something: all handles that one event on a node is told to stand next to each
/// other.
#[derive(Clone, Copy, PartialEq, Eq, PartialOrd, Ord)]
pub struct ListenerPlace {
    pub post: Post,
    pub client: u64,
    pub number: u64,
}

impl ListenerPlace {
    fn of(instance: u64, subject: ListenSubject, key: &HandleKey) -> ListenerPlace
        ensures { result ≡ seat_of instance subject key.now }
    {
        let rank = subject.rank();
        ListenerPlace {
            post: Post { instance, rank },
            client: key.client.get(),
            number: key.number.get(),
        }
    }

    // No handle on the instance that asked for what has this rank stands before it.
    fn first(instance: u64, rank: u8) -> ListenerPlace
        ensures { result ≡ record { post = record { instance = instance; rank = rank }; client = 0; number = 0 } }
    {
        ListenerPlace {
            post: Post { instance, rank },
            client: 0,
            number: 0,
        }
    }
}

// A seat for each open handle and each thing that it asked for, and some of handles that are closed. To a contract, the
// entries.
#[derive(Drop)]
pub(crate) struct Listeners {
    seats: Table<ListenerPlace, HandleKey>,
}

impl Model for Listeners {
    ghost use Rattle.std.specs.Prelude.{List};
    ghost use Rattle.master_parts.specs.declared.handles.HandleKey.{HandleKey};
    ghost use Rattle.master_parts.specs.declared.listeners.ListenerPlace.{ListenerPlace};

    ghost Value = { List (ListenerPlace × HandleKey) };

    ghost view = { λ l. l.seats };
}

impl Listeners {
    // None; takes no memory yet.
    pub(crate) fn new(alloc: Global) -> Listeners
        ensures { result ≡ [] }
    {
        Listeners {
            seats: Table::new(alloc),
        }
    }

    // A handle that is open gets its seats.
    pub(crate) fn add(&mut self, key: &HandleKey, state: &HandleState) -> Result<(), AllocError>
        ensures own { OnOk result (HasSeats self.new key.now state.now) }
        ensures kept { (s : ListenSubject) (i : ℕ) (q : KeyValue) → IsSeated self.old s i q → IsSeated self.new s i q }
    {
        match state {
            HandleState::Open(noted) => self.add_open(key, noted.handle()),
            HandleState::Closed => Ok(()),
        }
    }

    fn add_open(&mut self, key: &HandleKey, handle: &Handle) -> Result<(), AllocError>
        ensures own { OnOk result ((s : ListenSubject) → asks s handle.now ≡ true → IsSeated self.new s handle.now.instance key.now) }
        ensures kept { (s : ListenSubject) (i : ℕ) (q : KeyValue) → IsSeated self.old s i q → IsSeated self.new s i q }
    {
        let instance = handle.instance.get();
        self.add_if(
            handle.events.contents,
            ListenSubject::Contents,
            instance,
            key,
        )?;
        self.add_if(
            handle.events.children,
            ListenSubject::Children,
            instance,
            key,
        )?;
        self.add_if(handle.events.lock, ListenSubject::Lock, instance, key)
    }

    // A handle gets its seat, where it asked for this.
    fn add_if(
        &mut self,
        asked: bool,
        subject: ListenSubject,
        instance: u64,
        key: &HandleKey,
    ) -> Result<(), AllocError>
        ensures own { OnOk result (asked ≡ true → IsSeated self.new subject instance key.now) }
        ensures kept { (s : ListenSubject) (i : ℕ) (q : KeyValue) → IsSeated self.old s i q → IsSeated self.new s i q }
    {
        if asked {
            self.seats
                .put(ListenerPlace::of(instance, subject, key), *key)?;
        }
        Ok(())
    }

    // Whether a handle in this state has its seats.
    pub(crate) fn has(&self, key: &HandleKey, state: &HandleState) -> bool
        ensures { result ≡ true → HasSeats self.now key.now state.now }
    {
        match state {
            HandleState::Open(noted) => self.has_open(key, noted.handle()),
            HandleState::Closed => true,
        }
    }

    fn has_open(&self, key: &HandleKey, handle: &Handle) -> bool
        ensures { result ≡ true → (s : ListenSubject) → asks s handle.now ≡ true → IsSeated self.now s handle.now.instance key.now }
    {
        let instance = handle.instance.get();
        let events = handle.events;
        let contents = self.has_if(events.contents, ListenSubject::Contents, instance, key);
        let children = self.has_if(events.children, ListenSubject::Children, instance, key);
        let lock = self.has_if(events.lock, ListenSubject::Lock, instance, key);
        contents && children && lock
    }

    // Whether a handle has its seat, where it asked for this.
    fn has_if(&self, asked: bool, subject: ListenSubject, instance: u64, key: &HandleKey) -> bool
        ensures { result ≡ true → asked ≡ true → IsSeated self.now subject instance key.now }
    {
        if !asked {
            return true;
        }
        match self.seats.get(&ListenerPlace::of(instance, subject, key)) {
            Some(found) => found.is(key),
            None => false,
        }
    }

    // A handle gives its seats on an instance up. Takes no memory.
    pub(crate) fn remove(&mut self, key: &HandleKey, instance: u64)
        ensures { (s : ListenSubject) (i : ℕ) (q : KeyValue) → (i ≡ instance → q ≡ key.now → ⊥) → IsSeated self.old s i q → IsSeated self.new s i q }
    {
        self.remove_seat(ListenSubject::Contents, key, instance);
        self.remove_seat(ListenSubject::Children, key, instance);
        self.remove_seat(ListenSubject::Lock, key, instance);
    }

    fn remove_seat(&mut self, subject: ListenSubject, key: &HandleKey, instance: u64)
        ensures { (s : ListenSubject) (i : ℕ) (q : KeyValue) → (i ≡ instance → q ≡ key.now → ⊥) → IsSeated self.old s i q → IsSeated self.new s i q }
    {
        let _count = self.seats.as_map().len();
        self.seats
            .remove(&ListenerPlace::of(instance, subject, key));
    }

    // The keys of the handles on an instance that asked for this, and maybe others, are added.
    pub(crate) fn add_keys(
        &self,
        subject: ListenSubject,
        instance: u64,
        keys: &mut Table<HandleKey, ()>,
    ) -> Result<(), AllocError>
        ensures kept { OnOk result (AreAmong keys.old keys.new) }
        ensures found { OnOk result ((q : KeyValue) → IsSeated self.now subject instance q → is_among keys.new q ≡ true) }
    {
        let rank = subject.rank();
        add_seated(&self.seats, subject, instance, rank, keys)
    }
}

fn add_seated(
    seats: &Table<ListenerPlace, HandleKey>,
    subject: ListenSubject,
    instance: u64,
    rank: u8,
    keys: &mut Table<HandleKey, ()>,
) -> Result<(), AllocError>
    requires value { rank ≡ rank_of subject }
    requires small { rank ≤ 2 }
    ensures kept { OnOk result (AreAmong keys.old keys.new) }
    ensures found { OnOk result ((q : KeyValue) → IsSeated seats.now subject instance q → is_among keys.new q ≡ true) }
{
    let first = ListenerPlace::first(instance, rank);
    let end = ListenerPlace::first(instance, rank + 1);
    for (_, key) in seats.as_map().range(first..end) {
        keys.put(*key, ())?;
    }
    Ok(())
}
