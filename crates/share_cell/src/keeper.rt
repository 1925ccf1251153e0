//! A client, and the writer of the copies of its cache that viewers read.
ghost use Rattle.std.specs.Prelude.{◌≡◌, ◌≢◌, ◌↔◌, ◌+◌, ◌≤◌, ◌<◌, ◌^◌, [], ◌++◌, length, drop, All, None, Some, vec_len, IsTrue, IfOk, IfSome, OnOk, MatchResult};
ghost use Rattle.std.specs.Option.{option_copied};
ghost use Rattle.std.proofs.Props.{props};
ghost use Rattle.left_right.specs.Sides.{view};
ghost use Rattle.node_core.specs.Limits.{number_end};
ghost use Rattle.cache_core.specs.Caches.{new_cache};
ghost use Rattle.cache_core.specs.Changes.{applied_all};
ghost use Rattle.client_core.specs.Asks.{ask_step};
ghost use Rattle.client_core.specs.Beats.{beat_step};
ghost use Rattle.client_core.specs.Gives.{give_step};
ghost use Rattle.share_cell.specs.Published.{opening, IsOpening};
ghost use Rattle.share_cell.specs.Owed.{newest, ops_of, AllPlaced};

use crate::rule::{Adds, Known, KnowsTheSame, Longer, Published};
use crate::side::{Side, SideStep};
use crate::viewer::{PublishedCount, Viewer};
use cache_core::{Cache, CacheOp};
use client_core::{Ask, AskOutcome, Beaten, Client, Given};
use core::mem::replace_with;
use left_right::reader::Factory;
use left_right::writer::Writer;
use node_core::{Fault, NUMBER_LIMIT};
use std::alloc::{AllocError, Global};
use std::collections::VecDeque;
use std::mem;
use std::sync::Wait;
use tags_cell::Out;

/// So many more readers may be told at a time.
const TOLD_PLACES: usize = 64;

/// An answer that waits until what the client has then is published.
#[derive(Drop)]
pub enum LateAnswer {
    Asked(AskOutcome),
    Given(Given),
    Beaten(Beaten),
}

/// A client whose cache many viewers read. What its client has in its cache after a call is published before the call's answer
/// is handed out, so that what an invalidation took away is shown no more when the Beat leaves that acknowledges it (Burrows 2006,
/// section 2.7).
///
/// A publish may be refused for want of memory. Then the keeper is late: the call is done and its answer kept, viewers see what was
/// published before, and `resume` publishes and hands the answer out.
///
/// It can't be let go, only closed.
pub struct Keeper {
    client: Client,
    writer: Writer<Side, SideStep, Known, Published>,
    // The changes that the writer has not taken yet.
    rest: VecDeque<CacheOp>,
    late: Option<LateAnswer>,
    published: u64,
    ghost counted: { (published ≡ length (view writer.desk.place)) × (writer.desk.shown.value.place ≡ published) × (0 < published) },
    ghost last: { newest (view writer.desk.place) ≡ writer.desk.shown.value.cache } by { Prim.hlevel props },
    ghost owed: { applied_all writer.desk.shown.value.cache (ops_of (drop writer.behind writer.log.items) ++ rest.items) ≡ client.cache } by { Prim.hlevel props },
    ghost placed: { AllPlaced (published + 1) (drop writer.behind writer.log.items) } by { Prim.hlevel props },
    ghost room: { late ≢ None → published + 1 < number_end },
    ghost on_time: { late ≡ None → (length (drop writer.behind writer.log.items) ≡ 0) × (length rest.items ≡ 0) },
}

/// The two copies and their writer.
fn sides(
    alloc: Global,
    readers: usize,
) -> Result<Writer<Side, SideStep, Known, Published>, AllocError>
    requires { (0 < readers) × (readers < 2 ^ 32) }
    ensures { IfOk result (λ w. IsOpening w.desk.shown.value × (drop w.behind w.log.items ≡ []) × (view w.desk.place ≡ opening)) }
{
    let first = Side {
        cache: Cache::with_room(alloc)?,
        place: 1,
    };
    let second = Side {
        cache: Cache::with_room(alloc)?,
        place: 1,
    };
    Writer::new(alloc, first, second, readers)
}

fn seats(
    alloc: Global,
    from: &Factory<Side, Known, Published>,
    viewers: usize,
) -> Result<Vec<Viewer>, AllocError>
    ensures { IfOk result (λ v. (vec_len v ≡ viewers) × All (λ x. x ≡ opening) v.items) }
{
    let mut seats = Vec::with_capacity(alloc, viewers)?;
    for _ in 0..viewers {
        seats.push(Viewer::over(from.reader()?, 1))?;
    }
    Ok(seats)
}

/// Hands the changes to the writer, as steps for the view at that place. What it could not take stays.
fn hand_over(
    writer: &mut Writer<Side, SideStep, Known, Published>,
    rest: &mut VecDeque<CacheOp>,
    place: u64,
) -> Result<(), AllocError>
    requires { AllPlaced place (drop writer.old.behind writer.old.log.items) }
    ensures desk { writer.new.desk ≡ writer.old.desk }
    ensures ops { ops_of (drop writer.new.behind writer.new.log.items) ++ rest.new.items ≡ ops_of (drop writer.old.behind writer.old.log.items) ++ rest.old.items }
    ensures placed { AllPlaced place (drop writer.new.behind writer.new.log.items) }
    ensures all { OnOk result (rest.new.items ≡ []) }
{
    while let Some(op) = rest.pop_front() {
        if let Err(step) = writer.append(SideStep { place, op }) {
            let SideStep { place: _, op } = step;
            rest.push_front_reserved(op);
            return Err(AllocError);
        }
    }
    Ok(())
}

impl Keeper {
    ghost use Rattle.share_cell.specs.Keeping.{IsShown, KeeperState, Lends, Publishes, unless_last};

    /// A keeper that is not late, and its viewers, 1 to 64. The client, which has no session yet, comes back where there is no
    /// memory. Both copies have room for all entries that a cache may hold, but for their places in the order of installing.
    pub fn new<R: Wait>(
        rt: &R,
        alloc: Global,
        client: Client,
        viewers: usize,
    ) -> Result<(Keeper, Vec<Viewer>), Client>
        requires fresh { client.cache ≡ new_cache }
        requires viewers { (0 < viewers) × (viewers ≤ 64) }
        ensures { MatchResult result
            (λ k. (k.0.client ≡ client) × (k.0.late ≡ None) × (view k.0.writer.desk.place ≡ opening) × (vec_len k.1 ≡ viewers) × All (λ x. x ≡ opening) k.1.items)
            (λ c. c ≡ client) }
    {
        let Ok(writer) = sides(alloc, viewers + TOLD_PLACES) else {
            return Err(client);
        };
        let Ok(seats) = seats(alloc, writer.factory(), viewers) else {
            writer.take(rt);
            return Err(client);
        };
        let keeper = Keeper {
            client,
            writer,
            rest: VecDeque::new(alloc),
            late: None,
            published: 1,
        };
        Ok((keeper, seats))
    }

    /// Whether an answer waits for its view to be published.
    pub fn late(&self) -> bool
        ensures { IsTrue result ↔ (self.now.late ≢ None) }
    {
        self.late.is_some()
    }

    /// Its client, whose cache is what was published last; None exactly if the keeper is late. Then the message of a call that was
    /// asked for may not go out, as `Client::again` would lend it: a Leave lets the master change what viewers are still shown.
    pub fn client(&self) -> Option<&Client>
        ensures { Lends (record { client = self.now.client; late = self.now.late; views = view self.now.writer.desk.place }) (option_copied result) }
    {
        if self.late.is_some() {
            return None;
        }
        Some(&self.client)
    }

    /// Ends the keeper. Its viewers see nothing from now on. An answer that was kept is let go.
    pub fn close<R: Wait>(self, rt: &R) -> Client
        ensures { result ≡ self.client }
    {
        let Keeper {
            client,
            writer,
            rest: _,
            late: _,
            published: _,
        } = self;
        writer.take(rt);
        client
    }

    /// Asks the client for a call (`Client::ask`), and publishes what its cache holds then before the answer is handed out.
    /// Refused for want of memory, nothing has changed, or the keeper is late. After the last view, 2^63-1, it is Exhausted.
    pub fn ask<R: Wait>(&mut self, rt: &R, now: u64, asked: &Ask) -> Result<AskOutcome, Fault>
        requires on_time { self.old.late ≡ None }
        ensures { Publishes LateAnswer.Asked
            (record { client = self.old.client; late = self.old.late; views = view self.old.writer.desk.place })
            (record { client = self.new.client; late = self.new.late; views = view self.new.writer.desk.place })
            result (unless_last self.old.client (view self.old.writer.desk.place) (ask_step self.old.client now asked.now)) }
    {
        if self.published >= NUMBER_LIMIT {
            return Err(Fault::Exhausted);
        }
        let Ok(ops) = self.client.ask_ops(now, asked) else {
            return Err(Fault::NoMemory);
        };
        let answer = match self.client.ask(now, asked) {
            Ok(answer) => answer,
            Err(fault) => {
                drop(ops);
                return Err(fault);
            }
        };
        drop(mem::replace(&mut self.rest, ops));
        drop(mem::replace(&mut self.late, Some(LateAnswer::Asked(answer))));
        match self.resume(rt) {
            Ok(Some(LateAnswer::Asked(answer))) => Ok(answer),
            Ok(_) => unreachable!(),
            Err(_) => Err(Fault::NoMemory),
        }
    }

    /// Gives the client a message (`Client::give`), as `ask` asks it for a call.
    pub fn give<R: Wait>(&mut self, rt: &R, now: u64, out: &Out) -> Result<Given, Fault>
        requires on_time { self.old.late ≡ None }
        ensures { Publishes LateAnswer.Given
            (record { client = self.old.client; late = self.old.late; views = view self.old.writer.desk.place })
            (record { client = self.new.client; late = self.new.late; views = view self.new.writer.desk.place })
            result (unless_last self.old.client (view self.old.writer.desk.place) (give_step self.old.client now out.now)) }
    {
        if self.published >= NUMBER_LIMIT {
            return Err(Fault::Exhausted);
        }
        let Ok(ops) = self.client.give_ops(now, out) else {
            return Err(Fault::NoMemory);
        };
        let answer = match self.client.give(now, out) {
            Ok(answer) => answer,
            Err(fault) => {
                drop(ops);
                return Err(fault);
            }
        };
        drop(mem::replace(&mut self.rest, ops));
        drop(mem::replace(&mut self.late, Some(LateAnswer::Given(answer))));
        match self.resume(rt) {
            Ok(Some(LateAnswer::Given(answer))) => Ok(answer),
            Ok(_) => unreachable!(),
            Err(_) => Err(Fault::NoMemory),
        }
    }

    /// Asks the client for what keeps its session (`Client::beat`), as `ask` asks it for a call.
    pub fn beat<R: Wait>(&mut self, rt: &R, now: u64) -> Result<Beaten, Fault>
        requires on_time { self.old.late ≡ None }
        ensures { Publishes LateAnswer.Beaten
            (record { client = self.old.client; late = self.old.late; views = view self.old.writer.desk.place })
            (record { client = self.new.client; late = self.new.late; views = view self.new.writer.desk.place })
            result (unless_last self.old.client (view self.old.writer.desk.place) (beat_step self.old.client now)) }
    {
        if self.published >= NUMBER_LIMIT {
            return Err(Fault::Exhausted);
        }
        let Ok(ops) = self.client.note_ops(now) else {
            return Err(Fault::NoMemory);
        };
        let answer = match self.client.beat(now) {
            Ok(answer) => answer,
            Err(fault) => {
                drop(ops);
                return Err(fault);
            }
        };
        drop(mem::replace(&mut self.rest, ops));
        drop(mem::replace(&mut self.late, Some(LateAnswer::Beaten(answer))));
        match self.resume(rt) {
            Ok(Some(LateAnswer::Beaten(answer))) => Ok(answer),
            Ok(_) => unreachable!(),
            Err(_) => Err(Fault::NoMemory),
        }
    }

    /// Publishes what the client's cache holds, and hands out the answer that was kept. It is None where the keeper is not late.
    /// Refused for want of memory, the keeper is still late, and viewers see what they saw.
    pub fn resume<R: Wait>(&mut self, rt: &R) -> Result<Option<LateAnswer>, AllocError>
        ensures client { self.new.client ≡ self.old.client }
        ensures shown { MatchResult result
            (λ kept. (kept ≡ self.old.late) × (self.new.late ≡ None) × IsShown self.old.late (view self.old.writer.desk.place) self.old.client.cache (view self.new.writer.desk.place))
            (λ _. (self.old.late ≢ None) × (self.new.late ≡ self.old.late) × (view self.new.writer.desk.place ≡ view self.old.writer.desk.place)) }
    {
        replace_with(self, rt, Keeper::show::<R>)
    }

    /// Tells how many views are published, for one viewer to learn. It is None where no more viewers can be told at a time.
    pub fn tell(&mut self) -> Option<PublishedCount>
        ensures told { IfSome result (λ t. (t ≡ view self.old.writer.desk.place) × (length t ≡ self.old.published)) }
        ensures same { (view self.new.writer.desk.place ≡ view self.old.writer.desk.place) × (self.new.client ≡ self.old.client) × (self.new.late ≡ self.old.late) }
    {
        let mut reader = self.writer.factory().reader().ok()?;
        reader.learn::<Longer>(self.writer.tell::<KnowsTheSame>());
        Some(PublishedCount::of(reader, self.published))
    }

    // Publishes what the client has, if it differs from what is shown, and takes the answer that was kept.
    fn show<R: Wait>(self, rt: &R) -> (Keeper, Result<Option<LateAnswer>, AllocError>)
        ensures client { result.0.client ≡ self.client }
        ensures shown { MatchResult result.1
            (λ kept. (kept ≡ self.late) × (result.0.late ≡ None) × IsShown self.late (view self.writer.desk.place) self.client.cache (view result.0.writer.desk.place))
            (λ _. (self.late ≢ None) × (result.0.late ≡ self.late) × (view result.0.writer.desk.place ≡ view self.writer.desk.place)) }
    {
        if self.late.is_none() {
            return (self, Ok(None));
        }
        let Keeper {
            client,
            mut writer,
            mut rest,
            late,
            published,
        } = self;
        if let Err(e) = hand_over(&mut writer, &mut rest, published + 1) {
            let keeper = Keeper {
                client,
                writer,
                rest,
                late,
                published,
            };
            return (keeper, Err(e));
        }
        if !writer.has_pending_operations() {
            let keeper = Keeper {
                client,
                writer,
                rest,
                late: None,
                published,
            };
            return (keeper, Ok(late));
        }
        let (writer, done) = writer.publish_as::<Adds, R>(rt);
        match done {
            Ok(()) => {
                let keeper = Keeper {
                    client,
                    writer,
                    rest,
                    late: None,
                    published: published + 1,
                };
                (keeper, Ok(late))
            }
            Err(e) => {
                let keeper = Keeper {
                    client,
                    writer,
                    rest,
                    late,
                    published,
                };
                (keeper, Err(e))
            }
        }
    }
}
