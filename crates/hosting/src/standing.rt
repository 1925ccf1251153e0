//! How a master stands.
ghost use Rattle.std.specs.Prelude.{◌≡◌, ◌==◌, IfOk};
ghost use Rattle.std.specs.List.{list_all};
ghost use Rattle.std.specs.Map.{keys_of};
ghost use Rattle.rights_core.specs.Rights.{held_on};
ghost use Rattle.session_core.specs.Session.{has_heard};
ghost use Rattle.hosting.specs.Standing.{counts_of, unheard, last_end, recovery_of, holds_any, awaited_by, delay_of, longest_of, standing_of};

use collections::Items;
use gate_core::Waiting;
use master_parts::Task;
use master_state::Master;
use names_cell::Name;
use rights_core::Rights;
use session_core::{Session, Sessions};
use std::alloc::{AllocError, Global};
use tags_cell::Reply;

/// How many of the changes that wait are told of one by one.
pub const LONGEST_LIMIT: usize = 10;

/// How much a master has.
#[derive(Clone, Copy)]
pub struct MasterCounts {
    pub epoch: u64,
    /// Its sessions, those that have ended included.
    pub sessions: u64,
    pub nodes: u64,
    /// The rights to cache names that are held.
    pub rights: u64,
    /// The changes that wait.
    pub changes: u64,
}

/// Whom a master waits for that took over from another, before it changes anything.
#[derive(Drop)]
pub struct Recovery {
    /// By this moment, in milliseconds, the last of their sessions has ended, unless one is heard from meanwhile.
    pub until: u64,
    /// The clients of the sessions that haven't acknowledged that it is up, ascending.
    pub awaited: Items<u64>,
}

/// A change that waits, and whom it waits for.
#[derive(Drop)]
pub struct Delay {
    /// In the order in which changes came in this epoch, from 1.
    pub number: u64,
    /// The names that it may change.
    pub touched: Items<Name>,
    /// The clients that hold a right on one of these names, ascending.
    pub awaited: Items<u64>,
}

/// How a master stands.
#[derive(Drop)]
pub struct MasterStanding {
    pub counts: MasterCounts,
    /// None where it doesn't recover.
    pub recovery: Option<Recovery>,
    /// The changes that have waited longest, the first of them first: at most ten.
    pub longest: Items<Delay>,
}

/// How a master stands. Nothing changes. The counts cost a look-up each. While it recovers all sessions are walked over
/// twice, and once for each of the ten changes that a right holds up.
pub fn standing_of(alloc: Global, master: &Master) -> Result<MasterStanding, AllocError>
    ensures { IfOk result (λ standing. standing ≡ standing_of master.now) }
{
    let counts = counts_of(master);
    let recovery = recovery_of(alloc, master)?;
    let longest = longest_of(alloc, master)?;
    Ok(MasterStanding {
        counts,
        recovery,
        longest,
    })
}

fn counts_of(master: &Master) -> MasterCounts
    ensures { result ≡ counts_of master.now }
{
    MasterCounts {
        epoch: master.epoch(),
        sessions: master.sessions().as_map().len() as u64,
        nodes: master.map().as_map().len() as u64,
        rights: master.rights().count_held() as u64,
        changes: master.gate().len() as u64,
    }
}

fn recovery_of(alloc: Global, master: &Master) -> Result<Option<Recovery>, AllocError>
    ensures { IfOk result (λ recovery. recovery ≡ recovery_of master.now) }
{
    if !master.recovering() {
        return Ok(None);
    }
    let until = last_end(master.sessions(), master.clock());
    let awaited = unheard(alloc, master.sessions())?;
    Ok(Some(Recovery { until, awaited }))
}

// Whether the client of a session has acknowledged that the master is up, or its session has ended.
fn has_heard(session: &Session<Reply>) -> bool
    ensures { result ≡ has_heard session.now }
{
    let acknowledged = match &session.events {
        None => 0,
        Some(events) => events.acknowledged(),
    };
    !session.live || acknowledged >= 1
}

fn unheard(alloc: Global, sessions: &Sessions<Reply>) -> Result<Items<u64>, AllocError>
    ensures { IfOk result (λ clients. clients ≡ unheard sessions.now.sessions) }
{
    let mut clients = Items::new(alloc);
    for (client, session) in sessions.as_map() {
        if !has_heard(session) {
            clients.push(*client)?;
        }
    }
    Ok(clients)
}

fn last_end(sessions: &Sessions<Reply>, clock: u64) -> u64
    ensures { result ≡ last_end sessions.now.sessions clock }
{
    let mut latest = clock;
    for (_, session) in sessions.as_map() {
        if !has_heard(session) {
            latest = latest.max(session.timeout);
        }
    }
    latest
}

// The clients that hold up a change of these names. Where nobody does they aren't looked for.
fn awaited_by(alloc: Global, master: &Master, names: &[Name]) -> Result<Items<u64>, AllocError>
    ensures { IfOk result (λ clients. clients ≡ awaited_by master.now.rights (keys_of master.now.sessions.sessions) names.now) }
{
    let rights = master.rights();
    if nobody_holds(rights, names) {
        return Ok(Items::new(alloc));
    }
    let clients = master
        .sessions()
        .as_map()
        .keys()
        .copied()
        .filter(|client| holds_any(rights, names, *client))
        .collect(alloc)?;
    Ok(Items::from_vec(clients))
}

fn nobody_holds(rights: &Rights, names: &[Name]) -> bool
    ensures { result ≡ list_all (λ name. held_on name rights.now == 0) names.now }
{
    names.iter().all(|name| rights.held_on(name) == 0)
}

fn holds_any(rights: &Rights, names: &[Name], client: u64) -> bool
    ensures { result ≡ holds_any rights.now names.now client }
{
    names.iter().any(|name| rights.holds(client, name))
}

fn delay_of(alloc: Global, master: &Master, waiting: &Waiting<Task>) -> Result<Delay, AllocError>
    ensures { IfOk result (λ delay. delay ≡ delay_of master.now waiting.now) }
{
    let touched = waiting.change.touched.clone()?;
    let awaited = awaited_by(alloc, master, waiting.change.touched.as_slice())?;
    Ok(Delay {
        number: waiting.number,
        touched,
        awaited,
    })
}

fn longest_of(alloc: Global, master: &Master) -> Result<Items<Delay>, AllocError>
    ensures { IfOk result (λ longest. longest ≡ longest_of master.now) }
{
    let mut longest = Items::new(alloc);
    for (_, waiting) in master.gate().changes().as_map() {
        if longest.len() >= LONGEST_LIMIT {
            return Ok(longest);
        }
        longest.push(delay_of(alloc, master, waiting)?)?;
    }
    Ok(longest)
}
