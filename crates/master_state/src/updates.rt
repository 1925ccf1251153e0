//! What a step of a master changes in it: what may want memory first, which can be taken back, then the rest.
ghost use Rattle.std.specs.Prelude.{◌≡◌, [], ◌∷◌, ◌++◌, Some, None, IfOk, OnOk, OnErr};
ghost use Rattle.std.specs.Map.{lookup};
ghost use Rattle.std.specs.BTreeMap.{is_at};
ghost use Rattle.std.specs.Ordering.{nat_cmp};
ghost use Rattle.collections.specs.Tables.{with_former};
ghost use Rattle.lock_core.specs.Locks.{with_lock};
ghost use Rattle.master_state.specs.Departed.{without_last};
ghost use Rattle.master_state.specs.declared.updates.SessionUpdate.TheVariants.{Ends};
ghost use Rattle.master_state.specs.Updates.{with_standing, BeginsNew, with_begun, with_put, with_node, with_locks, grown, without_begun, without_note, without_node, without_locks, undone, session_rest, map_rest, forgets_of, rest_of, without_handle, retired, with_session_rest, with_kept_put, with_kept, with_map, without_lock, recovered, left, with_rest};

use crate::masters::Master;
use crate::partings::ending_by;
use collections::Items;
use lock_core::{Lock, Parting};
use master_parts::{HandleKey, HandleNote, HandleState};
use names_cell::{Name, Principal};
use node_core::{Mod, Node};
use session_core::LastCall;
use std::alloc::AllocError;
use tags_cell::{ClientNumber, Reply};

/// What a step does to a client's session.
#[derive(Drop)]
pub enum SessionUpdate {
    /// A session of a client that has none begins, and is committed.
    Begins(ClientNumber, Principal),
    /// It lives for a lease from now on.
    Prolongs(ClientNumber),
    /// It has ended, which is committed. It holds no right any more.
    Ends(u64, Principal, Parting),
    /// Its parked Beat is answered.
    Answers(ClientNumber),
}

/// The last call of a client.
#[derive(Drop)]
pub struct KeptPut {
    pub client: ClientNumber,
    pub kept: LastCall<Reply>,
}

/// A lock that changes: what of it the rows hold is committed.
#[derive(Drop)]
pub struct LockPut {
    /// The name of its node.
    pub name: Name,
    pub instance: u64,
    /// What becomes of it.
    pub lock: Lock,
}

/// A change of the map.
#[derive(Drop)]
pub struct Change {
    pub change: Mod,
    /// The instance of the next node from then on.
    pub next_instance: u64,
}

/// What a step changes in the parts of the master.
#[derive(Drop)]
pub struct Update {
    pub session: Option<SessionUpdate>,
    /// The client of whose session nothing is known any more: it has ended, which its number tells then.
    pub retires: Option<ClientNumber>,
    /// The reply to the call, and those to calls that waited for a lock.
    pub kept: Items<KeptPut>,
    pub note: Option<HandleNote>,
    /// A change of the map, which is committed.
    pub change: Option<Change>,
    /// The locks that change.
    pub locks: Items<LockPut>,
    /// The instance of a node that goes, and its lock with it.
    pub ends_lock: Option<u64>,
    /// Whether the recovery is over.
    pub recovers: bool,
    /// The number of the change that leaves the gate.
    pub leaves: Option<u64>,
}

/// What was begun of a session: nothing, one of this client, or the end of one, where that was noted.
#[derive(Drop)]
pub enum FormerSession {
    Same,
    Begun(ClientNumber),
    Noted(bool),
}

/// What takes an update back that was begun: what was begun of a session, and what stood at each key before.
#[derive(Drop)]
pub struct FormerParts {
    pub session: FormerSession,
    pub note: Option<(HandleKey, Option<HandleState>)>,
    pub node: Option<(Name, Option<Node>)>,
    /// In the order in which they were put.
    pub locks: Items<(u64, Option<Lock>)>,
}

/// What is left of a change of the map.
#[derive(Drop)]
pub struct MapRest {
    /// The name of a node that goes.
    pub gone: Option<Name>,
    pub next_instance: u64,
}

/// What is left of an update for after the commit. It takes no memory.
#[derive(Drop)]
pub struct Rest {
    /// The handle of which nothing is known any more.
    pub forgets: Option<HandleKey>,
    /// The client of whose session nothing is known any more.
    pub retires: Option<ClientNumber>,
    pub session: Option<SessionUpdate>,
    pub kept: Items<KeptPut>,
    pub map: Option<MapRest>,
    /// The instance of a node that goes.
    pub ends_lock: Option<u64>,
    pub recovers: bool,
    pub leaves: Option<u64>,
}

/// An update that was begun: how it is taken back, and what is left of it.
#[derive(Drop)]
pub struct Grown {
    pub former: FormerParts,
    pub rest: Rest,
}

// A note and a node that were put: what stood there before, and what is left of the change of the map.
struct GrownMap {
    note: Option<(HandleKey, Option<HandleState>)>,
    node: Option<(Name, Option<Node>)>,
    rest: Option<MapRest>,
}

// The same, and the locks.
struct GrownParts {
    map: GrownMap,
    locks: Items<(u64, Option<Lock>)>,
}

/// Begins an update: all of it that may want memory. Where memory is refused nothing has changed.
pub fn grow(master: &mut Master, update: Update) -> Result<Grown, AllocError>
    requires { BeginsNew master.old update.session }
    ensures ok { OnOk result (master.new ≡ grown master.old update) }
    ensures back { IfOk result (λ begun. undone master.new begun.former ≡ master.old) }
    ensures rest { IfOk result (λ begun. begun.rest ≡ rest_of update) }
    ensures err { OnErr result (master.new ≡ master.old) }
{
    let Update {
        session,
        retires,
        kept,
        note,
        change,
        locks,
        ends_lock,
        recovers,
        leaves,
    } = update;
    let forgets = forgets_of(&note);
    let (begun, session) = begin_session(master, session)?;
    let rest = Rest {
        forgets,
        retires,
        session,
        kept,
        map: None,
        ends_lock,
        recovers,
        leaves,
    };
    match grow_parts(master, note, change, locks) {
        Ok(parts) => Ok(grown_of(begun, parts, rest)),
        Err(error) => {
            drop(rest);
            take_back(master, begun);
            Err(error)
        }
    }
}

/// Takes an update back that was begun and not finished. Takes no memory.
pub fn undo(master: &mut Master, former: FormerParts)
    ensures { master.new ≡ undone master.old former }
{
    let FormerParts {
        session,
        note,
        node,
        locks,
    } = former;
    restore_locks(master, locks);
    restore_node(master, node);
    restore_note(master, note);
    take_back(master, session);
}

/// What was kept for taking an update back is forgotten. To be called after the commit. Takes no memory.
pub fn settle(master: &mut Master, former: FormerParts)
    ensures { master.new ≡ master.old }
{
    let FormerParts { note, .. } = former;
    if let Some((key, state)) = note {
        settle_note(master, &key, state);
    }
}

/// Finishes an update that was begun. Takes no memory.
pub fn finish(master: &mut Master, rest: Rest)
    ensures { master.new ≡ with_rest master.old rest }
{
    let Rest {
        forgets,
        retires,
        session,
        kept,
        map,
        ends_lock,
        recovers,
        leaves,
    } = rest;
    forget_all(master, forgets, retires);
    finish_session(master, session);
    keep(master, kept);
    finish_map(master, map);
    finish_last(master, ends_lock, recovers, leaves);
}

// The lock of a node that goes, the end of recovery, and the change that leaves the gate.
fn finish_last(master: &mut Master, ends_lock: Option<u64>, recovers: bool, leaves: Option<u64>)
    ensures { master.new ≡ left (recovered (without_lock master.old ends_lock) recovers) leaves }
{
    if let Some(instance) = ends_lock {
        drop(master.locks.end_of_node(instance));
    }
    if recovers {
        master.recovering = false;
        master.serving_from = master.clock;
    }
    if let Some(number) = leaves {
        drop(master.tables.take(number));
    }
}

/// How a handle stood before is forgotten.
pub fn settle_note(master: &mut Master, key: &HandleKey, former: Option<HandleState>)
    ensures { master.new ≡ master.old }
{
    master.tables.settle_handle(key, former);
}

// Nothing is known any more of a handle, and of a session that has ended.
fn forget_all(master: &mut Master, key: Option<HandleKey>, client: Option<ClientNumber>)
    ensures { master.new ≡ retired (without_handle master.old key) client }
{
    forget(master, key);
    retire(master, client);
}

// The handle that a note forgets.
fn forgets_of(note: &Option<HandleNote>) -> Option<HandleKey>
    ensures { result ≡ forgets_of note.now }
{
    match note {
        None => None,
        Some(note) => note.forgets(),
    }
}

// Nothing is known of it any more.
fn forget(master: &mut Master, key: Option<HandleKey>)
    ensures { master.new ≡ without_handle master.old key }
{
    if let Some(key) = key {
        master.tables.forget_handle(&key);
    }
}

// Nothing is known of a session any more that has ended, but that its number gets none any more.
fn retire(master: &mut Master, client: Option<ClientNumber>)
    ensures { master.new ≡ retired master.old client }
{
    if let Some(client) = client {
        master.tables.forget_session(client);
        master.departed.pass();
        master.ended_below = master.ended_below.max(client.get() + 1);
    }
}

// A session that begins, and the end of one is noted; any other update is left for the rest.
fn begin_session(
    master: &mut Master,
    update: Option<SessionUpdate>,
) -> Result<(FormerSession, Option<SessionUpdate>), AllocError>
    requires { BeginsNew master.old update }
    ensures ok { OnOk result (master.new ≡ with_begun master.old update) }
    ensures back { IfOk result (λ begun. without_begun master.new begun.0 ≡ master.old) }
    ensures rest { IfOk result (λ begun. begun.1 ≡ session_rest update) }
    ensures err { OnErr result (master.new ≡ master.old) }
{
    let Some(update) = update else {
        return Ok((FormerSession::Same, None));
    };
    match update {
        SessionUpdate::Begins(client, principal) => {
            let now = master.clock;
            master.tables.begin(client, principal, now)?;
            Ok((FormerSession::Begun(client), None))
        }
        SessionUpdate::Prolongs(client) => {
            Ok((FormerSession::Same, Some(SessionUpdate::Prolongs(client))))
        }
        SessionUpdate::Ends(client, principal, parting) => {
            note_end(master, client, principal, parting)
        }
        SessionUpdate::Answers(client) => {
            Ok((FormerSession::Same, Some(SessionUpdate::Answers(client))))
        }
    }
}

// The end of a session is noted, which is left for the rest.
fn note_end(
    master: &mut Master,
    client: u64,
    principal: Principal,
    parting: Parting,
) -> Result<(FormerSession, Option<SessionUpdate>), AllocError>
    ensures ok { OnOk result (master.new ≡ with_begun master.old (Some (Ends client principal parting))) }
    ensures back { IfOk result (λ begun. without_begun master.new begun.0 ≡ master.old) }
    ensures rest { IfOk result (λ begun. begun.1 ≡ Some (Ends client principal parting)) }
    ensures err { OnErr result (master.new ≡ master.old) }
{
    match master.departed.note(client) {
        Ok(noted) => Ok((
            FormerSession::Noted(noted),
            Some(SessionUpdate::Ends(client, principal, parting)),
        )),
        Err(error) => {
            drop(principal);
            Err(error)
        }
    }
}

// What was begun of a session is taken back.
fn take_back(master: &mut Master, begun: FormerSession)
    ensures { master.new ≡ without_begun master.old begun }
{
    match begun {
        FormerSession::Same => {}
        FormerSession::Begun(client) => master.tables.take_back(client),
        FormerSession::Noted(noted) => take_back_note(master, noted),
    }
}

// That a session ends isn't noted any more, where it was.
fn take_back_note(master: &mut Master, noted: bool)
    ensures { master.new ≡ record master.old { departed = without_last noted master.old.departed } }
{
    if noted {
        master.departed.take_back();
    }
}

// What is left of a session's update.
fn finish_session(master: &mut Master, update: Option<SessionUpdate>)
    ensures { master.new ≡ with_session_rest master.old update }
{
    let now = master.clock;
    match &update {
        Some(SessionUpdate::Prolongs(client)) => {
            let until = now + master.sessions().lease();
            master.tables.prolong(*client, until);
        }
        Some(SessionUpdate::Ends(client, _, parting)) => {
            master.tables.expire(*client);
            master.tables.end(*client, ending_by(*parting));
        }
        Some(SessionUpdate::Answers(client)) => master.tables.answer(*client, now),
        _ => {}
    }
}

fn keep(master: &mut Master, puts: Items<KeptPut>)
    ensures { master.new ≡ with_kept master.old puts }
{
    for put in puts.into_vec() {
        keep_one(master, put);
    }
}

fn keep_one(master: &mut Master, put: KeptPut)
    ensures { master.new ≡ record master.old { sessions = with_kept_put master.old.sessions put } }
{
    let KeptPut { client, kept } = put;
    master.tables.keep(client, kept);
}

fn finish_map(master: &mut Master, rest: Option<MapRest>)
    ensures { master.new ≡ with_map master.old rest }
{
    if let Some(rest) = rest {
        let MapRest {
            gone,
            next_instance,
        } = rest;
        if let Some(name) = gone {
            drop(master.tables.unset_node(&name));
        }
        master.next_instance = next_instance;
    }
}

// The note, the node and the locks.
fn grow_parts(
    master: &mut Master,
    note: Option<HandleNote>,
    change: Option<Change>,
    locks: Items<LockPut>,
) -> Result<GrownParts, AllocError>
    ensures ok { OnOk result (master.new ≡ with_locks (with_node (with_standing master.old note) change) locks) }
    ensures back { IfOk result (λ begun. without_note (without_node (without_locks master.new begun.locks) begun.map.node) begun.map.note ≡ master.old) }
    ensures rest { IfOk result (λ begun. begun.map.rest ≡ map_rest change) }
    ensures err { OnErr result (master.new ≡ master.old) }
{
    let GrownMap { note, node, rest } = grow_map(master, note, change)?;
    match put_locks(master, locks) {
        Ok(locks) => Ok(GrownParts {
            map: GrownMap { note, node, rest },
            locks,
        }),
        Err(error) => {
            drop(rest);
            restore_node(master, node);
            restore_note(master, note);
            Err(error)
        }
    }
}

// One after the other. Where memory is refused those that were put are taken back.
fn put_locks(
    master: &mut Master,
    puts: Items<LockPut>,
) -> Result<Items<(u64, Option<Lock>)>, AllocError>
    ensures ok { OnOk result (master.new ≡ with_locks master.old puts) }
    ensures back { IfOk result (λ formers. without_locks master.new formers ≡ master.old) }
    ensures err { OnErr result (master.new ≡ master.old) }
{
    let mut formers = Vec::new(master.alloc);
    for put in puts.into_vec() {
        let LockPut {
            name: _,
            instance,
            lock,
        } = put;
        match put_lock(master, instance, lock, &mut formers) {
            Ok(()) => {}
            Err(error) => {
                restore_locks(master, Items::from_vec(formers));
                return Err(error);
            }
        }
    }
    Ok(Items::from_vec(formers))
}

// What stood there before is noted after the others.
fn put_lock(
    master: &mut Master,
    instance: u64,
    lock: Lock,
    formers: &mut Vec<(u64, Option<Lock>)>,
) -> Result<(), AllocError>
    ensures ok { OnOk result (master.new ≡ record master.old { locks = with_lock master.old.locks instance lock }) }
    ensures noted { OnOk result (formers.new.items ≡ formers.old.items ++ (instance, lookup (is_at (nat_cmp instance)) master.old.locks) ∷ []) }
    ensures back { OnOk result (with_former nat_cmp master.new.locks instance (lookup (is_at (nat_cmp instance)) master.old.locks) ≡ master.old.locks) }
    ensures err { OnErr result (master.new ≡ master.old) }
    ensures kept { OnErr result (formers.new.items ≡ formers.old.items) }
{
    formers.reserve(1)?;
    let former = master.locks.set(instance, lock)?;
    formers.push_reserved((instance, former));
    Ok(())
}

// The last that was put is taken back first.
fn restore_locks(master: &mut Master, formers: Items<(u64, Option<Lock>)>)
    ensures { master.new ≡ without_locks master.old formers }
{
    let mut formers = formers;
    while let Some((instance, former)) = formers.pop() {
        restore_lock(master, instance, former);
    }
}

fn restore_lock(master: &mut Master, instance: u64, former: Option<Lock>)
    ensures { master.new ≡ record master.old { locks = with_former nat_cmp master.old.locks instance former } }
{
    master.locks.restore(instance, former);
}

// The note and the node.
fn grow_map(
    master: &mut Master,
    note: Option<HandleNote>,
    change: Option<Change>,
) -> Result<GrownMap, AllocError>
    ensures ok { OnOk result (master.new ≡ with_node (with_standing master.old note) change) }
    ensures back { IfOk result (λ begun. without_note (without_node master.new begun.node) begun.note ≡ master.old) }
    ensures rest { IfOk result (λ begun. begun.rest ≡ map_rest change) }
    ensures err { OnErr result (master.new ≡ master.old) }
{
    let note = put_note(master, note)?;
    match put_node(master, change) {
        Ok((node, rest)) => Ok(GrownMap { note, node, rest }),
        Err(error) => {
            restore_note(master, note);
            Err(error)
        }
    }
}

fn put_note(
    master: &mut Master,
    note: Option<HandleNote>,
) -> Result<Option<(HandleKey, Option<HandleState>)>, AllocError>
    ensures ok { OnOk result (master.new ≡ with_standing master.old note) }
    ensures back { IfOk result (λ former. without_note master.new former ≡ master.old) }
    ensures err { OnErr result (master.new ≡ master.old) }
{
    match note {
        None => Ok(None),
        Some(note) => put_standing(master, note),
    }
}

// A handle that is to be forgotten stands until the rest is done.
fn put_standing(
    master: &mut Master,
    note: HandleNote,
) -> Result<Option<(HandleKey, Option<HandleState>)>, AllocError>
    ensures ok { OnOk result (master.new ≡ with_standing master.old (Some note)) }
    ensures back { IfOk result (λ former. without_note master.new former ≡ master.old) }
    ensures err { OnErr result (master.new ≡ master.old) }
{
    let HandleNote { key, state } = note;
    match state {
        None => Ok(None),
        Some(state) => {
            let HandleKey { client, number } = key;
            let former = master.tables.put_handle(key, state)?;
            Ok(Some((HandleKey { client, number }, former)))
        }
    }
}

// A node that is put; one that goes stays until the rest is done.
fn put_node(
    master: &mut Master,
    change: Option<Change>,
) -> Result<(Option<(Name, Option<Node>)>, Option<MapRest>), AllocError>
    ensures ok { OnOk result (master.new ≡ with_node master.old change) }
    ensures back { IfOk result (λ put. without_node master.new put.0 ≡ master.old) }
    ensures rest { IfOk result (λ put. put.1 ≡ map_rest change) }
    ensures err { OnErr result (master.new ≡ master.old) }
{
    let Some(
        Change {
            change,
            next_instance,
        },
    ) = change
    else {
        return Ok((None, None));
    };
    match change {
        Mod::Gone(name) => Ok((
            None,
            Some(MapRest {
                gone: Some(name),
                next_instance,
            }),
        )),
        Mod::Put(name, node) => {
            let former = set_node(master, name, node)?;
            Ok((
                Some(former),
                Some(MapRest {
                    gone: None,
                    next_instance,
                }),
            ))
        }
    }
}

fn set_node(master: &mut Master, name: Name, node: Node) -> Result<(Name, Option<Node>), AllocError>
    ensures ok { OnOk result (master.new ≡ with_put master.old (Mod.Put name node)) }
    ensures back { IfOk result (λ former. without_node master.new (Some former) ≡ master.old) }
    ensures err { OnErr result (master.new ≡ master.old) }
{
    let key = name.clone()?;
    let former = master.tables.set_node(name, node)?;
    Ok((key, former))
}

fn restore_note(master: &mut Master, former: Option<(HandleKey, Option<HandleState>)>)
    ensures { master.new ≡ without_note master.old former }
{
    if let Some((key, state)) = former {
        master.tables.restore_handle(&key, state);
    }
}

fn restore_node(master: &mut Master, former: Option<(Name, Option<Node>)>)
    ensures { master.new ≡ without_node master.old former }
{
    if let Some((name, node)) = former {
        master.tables.restore_node(&name, node);
    }
}

// What is left of the change of the map comes from the parts.
fn grown_of(begun: FormerSession, parts: GrownParts, rest: Rest) -> Grown
    ensures former { result.former ≡ record { session = begun; note = parts.map.note; node = parts.map.node; locks = parts.locks } }
    ensures rest { result.rest ≡ record rest { map = parts.map.rest } }
{
    let GrownParts {
        map: GrownMap {
            note,
            node,
            rest: map,
        },
        locks,
    } = parts;
    let Rest {
        forgets,
        retires,
        session,
        kept,
        ends_lock,
        recovers,
        leaves,
        ..
    } = rest;
    Grown {
        former: FormerParts {
            session: begun,
            note,
            node,
            locks,
        },
        rest: Rest {
            forgets,
            retires,
            session,
            kept,
            map,
            ends_lock,
            recovers,
            leaves,
        },
    }
}
