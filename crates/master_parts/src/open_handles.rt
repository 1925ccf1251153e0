//! What a master knows of handles, and which are open on a node.
ghost use Rattle.std.specs.Prelude.{◌≡◌, ◌+◌, [], true, false, Some, IfOk, OnOk, OnErr, length, find};
ghost use Rattle.std.specs.Option.{option_copied, option_map};
ghost use Rattle.std.specs.Ordering.{is_le};
ghost use Rattle.std.specs.List.{list_any};
ghost use Rattle.std.specs.List.Sorted.{IsStrictlySortedBy};
ghost use Rattle.std.specs.Map.{keys_of, remove_entry};
ghost use Rattle.std.specs.BTreeMap.{is_at, insert_entry};
ghost use Rattle.std.specs.BTreeMap.Range.{entries_between};
ghost use Rattle.std.specs.declared.ops.Bound.TheVariants.{Included, Excluded};
ghost use Rattle.collections.specs.Tables.{with_former};
ghost use Rattle.master_parts.specs.declared.handles.HandleState.{HandleState as StateValue};
ghost use Rattle.master_parts.specs.Keys.{handle_order};
ghost use Rattle.master_parts.specs.Listeners.{HasSeats, HasAsking};
ghost use Rattle.master_parts.specs.Candidates.{HaveNumbers};
ghost use Rattle.master_parts.specs.OpenHandles.{place_of, with_place, state_at, is_shut, forgotten, goes_with, without_client, AreBetween, ArePlaced, IsPlaced, IsNotOpenOn, AreAmong, HasPlaced, HasAll, HasOpenOn, HasHoldersOn, HasOwner, HasOwners, IsOwn, is_open_in, is_known_open};

use crate::handles::{HandleKey, HandleState, first_key};
use crate::listeners::{ListenSubject, Listeners};
use collections::Table;
use lock_core::{Hold, Lock, Owner};
use session_core::Sessions;
use std::alloc::{AllocError, Global};
use std::marker::Model;
use tags_cell::{Ordinal, Reply};

/// Where a handle stands: its node's instance first, so that all handles on a node stand next to each other.
#[derive(Clone, Copy, PartialEq, Eq, PartialOrd, Ord)]
pub struct PlaceOnNode {
    pub instance: u64,
    pub client: u64,
    pub number: u64,
}

impl PlaceOnNode {
    fn of(instance: u64, key: &HandleKey) -> PlaceOnNode
        ensures { result ≡ place_of instance key.now }
    {
        PlaceOnNode {
            instance,
            client: key.client.get(),
            number: key.number.get(),
        }
    }

    // No handle on the instance stands before it.
    fn first(instance: u64) -> PlaceOnNode
        ensures { result ≡ record { instance = instance; client = 0; number = 0 } }
    {
        PlaceOnNode {
            instance,
            client: 0,
            number: 0,
        }
    }
}

/// How each handle stands that was opened in this epoch or shown, until it is forgotten. To a contract, the entries in the
/// order of the keys. The handles that are open on a node are found by their places.
#[derive(Drop)]
pub struct Handles {
    states: Table<HandleKey, HandleState>,
    // The place of each open handle, and of some that are closed.
    places: Table<PlaceOnNode, HandleKey>,
    // The seats of those that asked to be told of events.
    listeners: Listeners,
    // Whether each open handle has its place and its seats.
    complete: bool,
    // Whether each open handle is noted under its own key.
    own_keys: bool,
}

impl Model for Handles {
    ghost use Rattle.std.specs.Prelude.{◌≡◌, List, true};
    ghost use Rattle.master_parts.specs.declared.handles.HandleKey.{HandleKey};
    ghost use Rattle.master_parts.specs.declared.handles.HandleState.{HandleState};
    ghost use Rattle.master_parts.specs.OpenHandles.{ArePlaced, AreOwn};
    ghost use Rattle.master_parts.specs.Listeners.{AreSeated};

    ghost Value = { List (HandleKey × HandleState) };

    ghost view = { λ h. h.states };

    ghost invariant = { λ h. (h.complete ≡ true → ArePlaced h.states h.places × AreSeated h.states h.listeners) × (h.own_keys ≡ true → AreOwn h.states) };
}

impl Handles {
    /// No handles; takes no memory yet.
    pub fn new(alloc: Global) -> Handles
        ensures { result ≡ [] }
    {
        Handles {
            states: Table::new(alloc),
            places: Table::new(alloc),
            listeners: Listeners::new(alloc),
            complete: true,
            own_keys: true,
        }
    }

    /// How many there are; their keys are in order.
    pub fn len(&self) -> usize
        ensures count { result ≡ length self.now }
        ensures ordered { IsStrictlySortedBy handle_order (keys_of self.now) }
    {
        self.states.as_map().len()
    }

    /// How each stands, for loops and chains.
    pub fn states(&self) -> &Table<HandleKey, HandleState>
        ensures { result.now ≡ self.now }
    {
        &self.states
    }

    /// How a handle stands: one look-up in a tree.
    pub fn get(&self, key: &HandleKey) -> Option<&HandleState>
        ensures { option_copied result ≡ state_at self.now key.now }
    {
        self.states.get(key)
    }

    /// Notes how a handle stands, and gives how it stood before.
    pub fn put(
        &mut self,
        key: HandleKey,
        state: HandleState,
    ) -> Result<Option<HandleState>, AllocError>
        ensures former { IfOk result (λ former. former ≡ state_at self.old key) }
        ensures ok { OnOk result (self.new ≡ insert_entry handle_order self.old key state) }
        ensures undone { IfOk result (λ former. with_former handle_order self.new key former ≡ self.old) }
        ensures err { OnErr result (self.new ≡ self.old) }
    {
        add_place(&mut self.places, &key, &state)?;
        self.listeners.add(&key, &state)?;
        self.own_keys = stays_own(self.own_keys, &key, &state);
        self.states.put(key, state)
    }

    /// Notes again how a handle stood before a `put`. Takes no memory.
    pub fn restore(&mut self, key: &HandleKey, former: Option<HandleState>)
        ensures { self.new ≡ with_former handle_order self.old key.now former }
    {
        let _count = self.states.as_map().len();
        if !is_found(&self.places, &self.listeners, key, &former) {
            self.complete = false;
        }
        self.own_keys = stays_own_again(self.own_keys, key, &former);
        self.states.restore(key, former);
    }

    /// What was kept of how a handle stood before a `put` is forgotten. Takes no memory.
    pub fn settle(&mut self, key: &HandleKey, former: Option<HandleState>)
        ensures { self.new ≡ self.old }
    {
        let Some(HandleState::Open(noted)) = &former else {
            return;
        };
        let instance = noted.instance();
        if is_open_on(self.states.get(key), instance) {
            return;
        }
        let _count = self.places.as_map().len();
        self.places.remove(&PlaceOnNode::of(instance, key));
        self.listeners.remove(key, instance);
    }

    /// Nothing is known of a handle any more; one that is known as closed stays so. Takes no memory.
    pub fn forget(&mut self, key: &HandleKey)
        ensures { self.new ≡ forgotten self.old key.now }
    {
        let _count = self.len();
        if is_shut(self.get(key)) {
            return;
        }
        let former = self.take_out(key);
        self.settle(key, former);
    }

    /// The handles that a client has open are forgotten. Costs a look-up for each of them, and a step for each of the
    /// client's that is known as closed. Takes no memory.
    pub fn forget_client(&mut self, client: u64)
        requires { HaveNumbers self.old }
        ensures { self.new ≡ without_client self.old client }
    {
        let _count = self.len();
        let Some(next) = client.checked_add(1) else {
            return self.forget_among_all(client);
        };
        match (first_key(client), first_key(next)) {
            (Some(first), Some(end)) => self.forget_between(client, first, end),
            _ => self.forget_among_all(client),
        }
    }

    // They all stand from one key to below another.
    fn forget_between(&mut self, client: u64, first: HandleKey, end: HandleKey)
        requires order { is_le (handle_order first end) ≡ true }
        requires inside { AreBetween client first end self.old }
        ensures { self.new ≡ without_client self.old client }
    {
        let mut from = first;
        while let Some(key) = self.first_between(client, &from, &end) {
            self.take(&key);
            from = key;
        }
    }

    // No client has a number that stands outside of all keys, so nobody waits for this.
    fn forget_among_all(&mut self, client: u64)
        ensures { self.new ≡ without_client self.old client }
    {
        while let Some(key) = self.first_of_client(client) {
            self.take(&key);
        }
    }

    // The first that the client has open from a key on to below another.
    fn first_between(&self, client: u64, first: &HandleKey, end: &HandleKey) -> Option<HandleKey>
        requires { is_le (handle_order first.now end.now) ≡ true }
        ensures ordered { IsStrictlySortedBy handle_order (keys_of self.now) }
        ensures found { result ≡ option_map (λ entry. entry.0) (find (goes_with client) (entries_between handle_order (Included first.now) (Excluded end.now) self.now)) }
    {
        let _count = self.len();
        for (key, state) in self.states.as_map().range(*first..*end) {
            if goes_with(client, key, state) {
                return Some(*key);
            }
        }
        None
    }

    // The first that the client has open.
    fn first_of_client(&self, client: u64) -> Option<HandleKey>
        ensures ordered { IsStrictlySortedBy handle_order (keys_of self.now) }
        ensures found { result ≡ option_map (λ entry. entry.0) (find (goes_with client) self.now) }
    {
        let _count = self.len();
        for (key, state) in self.states.as_map() {
            if goes_with(client, key, state) {
                return Some(*key);
            }
        }
        None
    }

    // Nothing is known of it any more.
    fn take(&mut self, key: &HandleKey)
        ensures { self.new ≡ remove_entry (is_at (handle_order key.now)) self.old }
    {
        let former = self.take_out(key);
        self.settle(key, former);
    }

    // Its place and its seats stay.
    fn take_out(&mut self, key: &HandleKey) -> Option<HandleState>
        ensures { self.new ≡ remove_entry (is_at (handle_order key.now)) self.old }
    {
        let _count = self.states.as_map().len();
        self.states.remove(key)
    }

    /// Whether a handle of a live session is open on an instance.
    pub fn is_open_in(&self, instance: u64, sessions: &Sessions<Reply>) -> bool
        ensures { result ≡ list_any (λ entry. is_open_in sessions.now instance entry.0 entry.1) self.now }
    {
        let Some(next) = instance.checked_add(1) else {
            return any_open_in(&self.states, instance, sessions);
        };
        if self.complete {
            any_placed_open(&self.states, &self.places, instance, next, sessions)
        } else {
            any_open_in(&self.states, instance, sessions)
        }
    }

    /// Adds the keys of the handles that are open on an instance, and maybe of others, whose states are looked up.
    pub fn add_open_on(
        &self,
        instance: u64,
        keys: &mut Table<HandleKey, ()>,
    ) -> Result<(), AllocError>
        ensures kept { OnOk result (AreAmong keys.old keys.new) }
        ensures found { OnOk result (HasOpenOn self.now instance keys.new) }
    {
        let Some(next) = instance.checked_add(1) else {
            return add_all(&self.states, keys);
        };
        if self.complete {
            add_placed(&self.places, instance, next, keys)
        } else {
            add_all(&self.states, keys)
        }
    }

    /// Adds the keys of the handles that are open on an instance and asked to be told of this, and maybe of others, whose
    /// states are looked up. Costs one look-up for each that asked.
    pub fn add_asking(
        &self,
        subject: ListenSubject,
        instance: u64,
        keys: &mut Table<HandleKey, ()>,
    ) -> Result<(), AllocError>
        ensures kept { OnOk result (AreAmong keys.old keys.new) }
        ensures found { OnOk result (HasAsking self.now subject instance keys.new) }
    {
        if self.complete {
            self.listeners.add_keys(subject, instance, keys)
        } else {
            add_all(&self.states, keys)
        }
    }

    /// Adds the keys of the handles that are open on an instance and hold this lock, and maybe of others, whose states
    /// are looked up. Costs one look-up for each holder; once a handle was noted under another's key, what
    /// `add_open_on` costs.
    pub fn add_holders(
        &self,
        instance: u64,
        lock: &Lock,
        keys: &mut Table<HandleKey, ()>,
    ) -> Result<(), AllocError>
        ensures kept { OnOk result (AreAmong keys.old keys.new) }
        ensures found { OnOk result (HasHoldersOn self.now instance lock.now keys.new) }
    {
        if self.own_keys {
            add_owners(lock.holders(), keys)
        } else {
            self.add_open_on(instance, keys)
        }
    }
}

// A handle that is open gets its place.
fn add_place(
    places: &mut Table<PlaceOnNode, HandleKey>,
    key: &HandleKey,
    state: &HandleState,
) -> Result<(), AllocError>
    ensures ok { OnOk result (places.new ≡ with_place places.old key.now state.now) }
    ensures err { OnErr result (places.new ≡ places.old) }
{
    if let HandleState::Open(noted) = state {
        places.put(PlaceOnNode::of(noted.instance(), key), *key)?;
    }
    Ok(())
}

// Whether a handle has its place, where it is open.
fn is_placed(
    places: &Table<PlaceOnNode, HandleKey>,
    key: &HandleKey,
    state: &Option<HandleState>,
) -> bool
    ensures { result ≡ true → IsPlaced places.now key.now state.now }
{
    let Some(HandleState::Open(noted)) = state else {
        return true;
    };
    match places.get(&PlaceOnNode::of(noted.instance(), key)) {
        Some(found) => found.is(key),
        None => false,
    }
}

// Whether a handle has its place and its seats, where it is open.
fn is_found(
    places: &Table<PlaceOnNode, HandleKey>,
    listeners: &Listeners,
    key: &HandleKey,
    state: &Option<HandleState>,
) -> bool
    ensures { result ≡ true → IsPlaced places.now key.now state.now × ((there : StateValue) → state.now ≡ Some there → HasSeats listeners.now key.now there) }
{
    is_placed(places, key, state) && is_seated(listeners, key, state)
}

fn is_seated(listeners: &Listeners, key: &HandleKey, state: &Option<HandleState>) -> bool
    ensures { result ≡ true → (there : StateValue) → state.now ≡ Some there → HasSeats listeners.now key.now there }
{
    match state {
        Some(state) => listeners.has(key, state),
        None => true,
    }
}

// Whether a handle is closed.
fn is_shut(state: Option<&HandleState>) -> bool
    ensures { result ≡ is_shut (option_copied state.entry) }
{
    match state {
        Some(HandleState::Open(_)) => false,
        Some(HandleState::Closed) => true,
        None => false,
    }
}

// Whether a client has a handle open.
fn goes_with(client: u64, key: &HandleKey, state: &HandleState) -> bool
    ensures { result ≡ goes_with client (key.now, state.now) }
{
    key.client.get() == client && !is_shut(Some(state))
}

// Whether a handle is open on an instance.
fn is_open_on(state: Option<&HandleState>, instance: u64) -> bool
    ensures { result ≡ false → IsNotOpenOn (option_copied state.entry) instance }
{
    match state {
        Some(HandleState::Open(noted)) => noted.instance() == instance,
        _ => false,
    }
}

// Whether a handle of a live session is open on an instance.
fn is_open_in(
    instance: u64,
    sessions: &Sessions<Reply>,
    key: &HandleKey,
    state: &HandleState,
) -> bool
    ensures { result ≡ is_open_in sessions.now instance key.now state.now }
{
    match state {
        HandleState::Open(noted) => {
            noted.instance() == instance && sessions.is_live(key.client.get())
        }
        HandleState::Closed => false,
    }
}

fn any_open_in(
    states: &Table<HandleKey, HandleState>,
    instance: u64,
    sessions: &Sessions<Reply>,
) -> bool
    ensures { result ≡ list_any (λ entry. is_open_in sessions.now instance entry.0 entry.1) states.now }
{
    for (key, state) in states.as_map() {
        if is_open_in(instance, sessions, key, state) {
            return true;
        }
    }
    false
}

// The same by the places of the instance.
fn any_placed_open(
    states: &Table<HandleKey, HandleState>,
    places: &Table<PlaceOnNode, HandleKey>,
    instance: u64,
    next: u64,
    sessions: &Sessions<Reply>,
) -> bool
    requires next { next ≡ instance + 1 }
    requires placed { ArePlaced states.now places.now }
    ensures { result ≡ list_any (λ entry. is_open_in sessions.now instance entry.0 entry.1) states.now }
{
    let _count = states.as_map().len();
    let first = PlaceOnNode::first(instance);
    let end = PlaceOnNode::first(next);
    for (_, key) in places.as_map().range(first..end) {
        if is_known_open(states, instance, sessions, key) {
            return true;
        }
    }
    false
}

// Whether the handle of a key is open on an instance, and its session live.
fn is_known_open(
    states: &Table<HandleKey, HandleState>,
    instance: u64,
    sessions: &Sessions<Reply>,
    key: &HandleKey,
) -> bool
    ensures { result ≡ is_known_open states.now sessions.now instance key.now }
{
    match states.get(key) {
        Some(state) => is_open_in(instance, sessions, key, state),
        None => false,
    }
}

// The keys that stand in the places of an instance.
fn add_placed(
    places: &Table<PlaceOnNode, HandleKey>,
    instance: u64,
    next: u64,
    keys: &mut Table<HandleKey, ()>,
) -> Result<(), AllocError>
    requires { next ≡ instance + 1 }
    ensures kept { OnOk result (AreAmong keys.old keys.new) }
    ensures found { OnOk result (HasPlaced places.now instance keys.new) }
{
    let first = PlaceOnNode::first(instance);
    let end = PlaceOnNode::first(next);
    for (_, key) in places.as_map().range(first..end) {
        keys.put(*key, ())?;
    }
    Ok(())
}

fn add_all(
    states: &Table<HandleKey, HandleState>,
    keys: &mut Table<HandleKey, ()>,
) -> Result<(), AllocError>
    ensures kept { OnOk result (AreAmong keys.old keys.new) }
    ensures found { OnOk result (HasAll states.now keys.new) }
{
    for (key, _) in states.as_map() {
        keys.put(*key, ())?;
    }
    Ok(())
}

// Whether a handle has this key as its own, where it is open.
fn is_own(key: &HandleKey, state: &HandleState) -> bool
    ensures { result ≡ true → IsOwn key.now (Some state.now) }
{
    match state {
        HandleState::Open(noted) => {
            let handle = noted.handle();
            handle.client.get() == key.client.get() && handle.number.get() == key.number.get()
        }
        HandleState::Closed => true,
    }
}

// The same, where all others have theirs.
fn stays_own(own_keys: bool, key: &HandleKey, state: &HandleState) -> bool
    ensures { result ≡ true → (own_keys ≡ true) × IsOwn key.now (Some state.now) }
{
    own_keys && is_own(key, state)
}

fn stays_own_again(own_keys: bool, key: &HandleKey, former: &Option<HandleState>) -> bool
    ensures { result ≡ true → (own_keys ≡ true) × IsOwn key.now former.now }
{
    match former {
        Some(state) => stays_own(own_keys, key, state),
        None => own_keys,
    }
}

// The keys of the handles that are these owners.
fn add_owners(
    holders: &Table<Owner, Hold>,
    keys: &mut Table<HandleKey, ()>,
) -> Result<(), AllocError>
    ensures kept { OnOk result (AreAmong keys.old keys.new) }
    ensures found { OnOk result (HasOwners holders.now keys.new) }
{
    for (owner, _) in holders.as_map() {
        add_owner(owner, keys)?;
    }
    Ok(())
}

// An owner whose numbers are no handle's is passed over.
fn add_owner(owner: &Owner, keys: &mut Table<HandleKey, ()>) -> Result<(), AllocError>
    ensures kept { OnOk result (AreAmong keys.old keys.new) }
    ensures found { OnOk result (HasOwner owner.now keys.new) }
{
    let Some(client) = Ordinal::new(owner.client) else {
        return Ok(());
    };
    let Some(number) = Ordinal::new(owner.handle) else {
        return Ok(());
    };
    keys.put(HandleKey { client, number }, ())?;
    Ok(())
}
