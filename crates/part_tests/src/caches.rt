//! A cache, the handles that Opens share, and the grace period, step by step.
use crate::rights::name;
use cache_core::{Cache, CacheOp, KeptHandles, SessionTrust, Shared, SharedHandle};
use collections::Bytes;
use lease_core::Lease;
use names_cell::{Component, Name};
use node_core::{Kind, Life, Listing, Node, View};
use std::alloc::Global;
use std::process::Abort;
use std::test::Fail;

/// A step on a cache. A name is told by its number, a view by its instance, the absence of a node by 0.
#[derive(Clone, Copy)]
enum Step {
    /// A lease of this sending and span is offered, and taken or not.
    Offer(u64, u64),
    Enable,
    Disable,
    /// The time is noted, and a lease runs or not.
    Note(u64),
    Install(u64, u64),
    /// Absences are installed for the names from 0 to 4,095.
    Fill,
    Flush(u64),
    Clear,
    /// What is served for a name at a moment.
    Look(u64, u64),
    /// So many entries are held.
    Len,
}

#[derive(Clone, Copy, PartialEq)]
enum Answer {
    Nothing,
    Is(bool),
    Serves(Option<u64>),
    Count(usize),
}

fn node(alloc: Global, instance: u64) -> Result<Node, Fail> {
    Ok(Node {
        kind: Kind::File,
        instance,
        content_generation: 1,
        acl_generation: 1,
        read: Component::parse(alloc, "base")?,
        write: Component::parse(alloc, "base")?,
        change: Component::parse(alloc, "base")?,
        life: Life::Permanent,
        content: Bytes::copy_of(alloc, b"a")?,
    })
}

fn view(alloc: Global, instance: u64) -> Result<View, Fail> {
    Ok(View {
        node: node(alloc, instance)?,
        children: Listing::new(),
    })
}

fn lease(sent: u64, span: u64) -> Result<Lease, &'static str> {
    Lease::new(sent, span).ok_or("no moment")
}

fn install_view(cache: &mut Cache, alloc: Global, name: Name, instance: u64) -> Result<(), Fail> {
    let entry = view(alloc, instance)?;
    cache.install(name, Some(Shared::new(alloc, entry)?))?;
    Ok(())
}

fn install(cache: &mut Cache, alloc: Global, number: u64, instance: u64) -> Result<(), Fail> {
    if instance > 0 {
        return install_view(cache, alloc, name(alloc, number)?, instance);
    }
    cache.install(name(alloc, number)?, None)?;
    Ok(())
}

fn fill(cache: &mut Cache, alloc: Global) -> Result<(), Fail> {
    for number in 0..4_096 {
        install(cache, alloc, number, 0)?;
    }
    Ok(())
}

// The instance of the view that is served, 0 for an absence; None for a miss.
fn served(cache: &Cache, name: &Name, now: u64) -> Option<u64> {
    match cache.look(name, now) {
        Some(Some(view)) => Some(view.get().node.instance),
        Some(None) => Some(0),
        None => None,
    }
}

fn does(cache: &mut Cache, alloc: Global, step: Step) -> Result<Answer, Fail> {
    match step {
        Step::Offer(sent, span) => return Ok(Answer::Is(cache.take_lease(lease(sent, span)?))),
        Step::Install(number, instance) => install(cache, alloc, number, instance)?,
        Step::Fill => fill(cache, alloc)?,
        Step::Enable => cache.enable(),
        Step::Disable => cache.disable(),
        Step::Note(now) => return Ok(Answer::Is(cache.note(now))),
        Step::Flush(number) => cache.flush(&name(alloc, number)?),
        Step::Clear => cache.clear(),
        Step::Look(number, now) => {
            return Ok(Answer::Serves(served(cache, &name(alloc, number)?, now)));
        }
        Step::Len => return Ok(Answer::Count(cache.len())),
    }
    Ok(Answer::Nothing)
}

const STEPS: &[(Step, Answer)] = &[
    // Served under an unexpired lease, where the cache is enabled.
    (Step::Install(1, 4), Answer::Nothing),
    (Step::Look(1, 0), Answer::Serves(None)),
    (Step::Offer(0, 12_000), Answer::Is(true)),
    (Step::Look(1, 0), Answer::Serves(None)),
    (Step::Enable, Answer::Nothing),
    (Step::Look(1, 11_293), Answer::Serves(Some(4))),
    (Step::Look(1, 11_294), Answer::Serves(None)),
    (Step::Look(2, 0), Answer::Serves(None)),
    (Step::Disable, Answer::Nothing),
    (Step::Look(1, 0), Answer::Serves(None)),
    (Step::Enable, Answer::Nothing),
    // A lease is taken where it ends later.
    (Step::Offer(0, 12_000), Answer::Is(false)),
    (Step::Offer(1, 12_000), Answer::Is(true)),
    (Step::Look(1, 11_294), Answer::Serves(Some(4))),
    (Step::Note(11_294), Answer::Is(true)),
    (Step::Len, Answer::Count(1)),
    // A present name keeps its place; a flush takes one name away.
    (Step::Install(2, 0), Answer::Nothing),
    (Step::Install(1, 5), Answer::Nothing),
    (Step::Look(1, 0), Answer::Serves(Some(5))),
    (Step::Look(2, 0), Answer::Serves(Some(0))),
    (Step::Flush(1), Answer::Nothing),
    (Step::Look(1, 0), Answer::Serves(None)),
    (Step::Look(2, 0), Answer::Serves(Some(0))),
    (Step::Clear, Answer::Nothing),
    (Step::Look(2, 0), Answer::Serves(None)),
    // Above 4,096 the oldest goes.
    (Step::Fill, Answer::Nothing),
    (Step::Len, Answer::Count(4_096)),
    (Step::Install(0, 4), Answer::Nothing),
    (Step::Len, Answer::Count(4_096)),
    (Step::Look(0, 0), Answer::Serves(Some(4))),
    (Step::Install(5_000, 5), Answer::Nothing),
    (Step::Len, Answer::Count(4_096)),
    (Step::Look(0, 0), Answer::Serves(None)),
    (Step::Look(1, 0), Answer::Serves(Some(0))),
    (Step::Look(5_000, 0), Answer::Serves(Some(5))),
    // The first note of an ended lease empties and disables it.
    (Step::Note(11_295), Answer::Is(false)),
    (Step::Len, Answer::Count(0)),
    (Step::Install(1, 4), Answer::Nothing),
    (Step::Offer(11_295, 12_000), Answer::Is(true)),
    (Step::Look(1, 11_295), Answer::Serves(None)),
    (Step::Enable, Answer::Nothing),
    (Step::Look(1, 11_295), Answer::Serves(Some(4))),
];

fn do_all(rt: &impl Abort, cache: &mut Cache, alloc: Global) -> Result<(), Fail> {
    for (index, (step, want)) in STEPS.iter().enumerate() {
        assert!(rt; does(cache, alloc, *step)? == *want, "step {index}");
    }
    Ok(())
}

#[test]
fn a_cache_step_by_step(rt: HostRuntime) -> Result<(), Fail> {
    let mut cache = Cache::new(rt.alloc());
    let done = do_all(&rt, &mut cache, rt.alloc());
    drop(cache);
    done
}

fn apply(cache: &mut Cache, change: &CacheOp) -> Result<(), Fail> {
    cache.apply(change)?;
    Ok(())
}

fn take_in(cache: &mut Cache, change: CacheOp) -> Result<(), Fail> {
    let taken = cache.take_in(change).is_ok();
    if taken { Ok(()) } else { Err("no memory")? }
}

fn changes(cache: &mut Cache, alloc: Global) -> Result<(), Fail> {
    apply(cache, &CacheOp::Lease(Some(lease(0, 12_000)?)))?;
    apply(cache, &CacheOp::Install(name(alloc, 1)?, None))?;
    take_in(cache, CacheOp::Install(name(alloc, 2)?, None))?;
    take_in(cache, CacheOp::Flush(name(alloc, 1)?))?;
    apply(cache, &CacheOp::Enabled(true))
}

// What is then served for both names.
fn followed(cache: &mut Cache, alloc: Global) -> Result<(Option<u64>, Option<u64>), Fail> {
    changes(cache, alloc)?;
    let first = served(cache, &name(alloc, 1)?, 0);
    Ok((first, served(cache, &name(alloc, 2)?, 0)))
}

#[test]
fn a_copy_follows(rt: HostRuntime) -> Result<(), Fail> {
    let mut cache = Cache::with_room(rt.alloc())?;
    let served = followed(&mut cache, rt.alloc());
    drop(cache);
    assert!(rt; served? == (None, Some(0)));
    Ok(())
}

/// A step on the handles that are kept for one name.
#[derive(Clone, Copy)]
enum Update {
    /// A handle on this instance is kept.
    Keep(u64, u64),
    /// For each instance from 0 to 4,095 a handle of that number is kept.
    Fill,
    /// Which handle serves an instance.
    Serves(u64),
    Forget(u64),
    Clear,
    Len,
}

fn keep(
    handles: &mut KeptHandles<u64>,
    alloc: Global,
    instance: u64,
    handle: u64,
) -> Result<(), Fail> {
    let name = name(alloc, 1)?;
    handles.keep(SharedHandle {
        name,
        instance,
        handle,
    })?;
    Ok(())
}

fn keep_many(handles: &mut KeptHandles<u64>, alloc: Global) -> Result<(), Fail> {
    for instance in 0..4_096 {
        keep(handles, alloc, instance, instance)?;
    }
    Ok(())
}

fn carry_out(
    handles: &mut KeptHandles<u64>,
    alloc: Global,
    update: Update,
) -> Result<Answer, Fail> {
    let name = name(alloc, 1)?;
    match update {
        Update::Keep(instance, handle) => keep(handles, alloc, instance, handle)?,
        Update::Fill => keep_many(handles, alloc)?,
        Update::Serves(instance) => {
            return Ok(Answer::Serves(handles.kept_for(&name, instance).copied()));
        }
        Update::Forget(instance) => handles.forget(&name, instance),
        Update::Clear => handles.clear(),
        Update::Len => return Ok(Answer::Count(handles.len())),
    }
    Ok(Answer::Nothing)
}

const UPDATES: &[(Update, Answer)] = &[
    // The older of two on one instance serves.
    (Update::Keep(4, 10), Answer::Nothing),
    (Update::Keep(4, 11), Answer::Nothing),
    (Update::Keep(5, 12), Answer::Nothing),
    (Update::Serves(4), Answer::Serves(Some(10))),
    (Update::Serves(5), Answer::Serves(Some(12))),
    (Update::Serves(6), Answer::Serves(None)),
    (Update::Forget(4), Answer::Nothing),
    (Update::Serves(4), Answer::Serves(Some(11))),
    (Update::Clear, Answer::Nothing),
    (Update::Serves(4), Answer::Serves(None)),
    // Above 4,096 the oldest is forgotten.
    (Update::Fill, Answer::Nothing),
    (Update::Serves(0), Answer::Serves(Some(0))),
    (Update::Keep(5_000, 7), Answer::Nothing),
    (Update::Len, Answer::Count(4_096)),
    (Update::Serves(0), Answer::Serves(None)),
    (Update::Serves(1), Answer::Serves(Some(1))),
    (Update::Serves(5_000), Answer::Serves(Some(7))),
];

fn carry_out_all(
    rt: &impl Abort,
    handles: &mut KeptHandles<u64>,
    alloc: Global,
) -> Result<(), Fail> {
    for (index, (update, want)) in UPDATES.iter().enumerate() {
        assert!(rt;
            carry_out(handles, alloc, *update)? == *want,
            "step {index}"
        );
    }
    Ok(())
}

#[test]
fn kept_handles_step_by_step(rt: HostRuntime) -> Result<(), Fail> {
    let mut handles = KeptHandles::new(rt.alloc());
    let done = carry_out_all(&rt, &mut handles, rt.alloc());
    drop(handles);
    done
}

#[test]
fn the_grace_period(rt: HostRuntime) {
    // Before, whether a lease runs, now, behind it.
    let rows = [
        (SessionTrust::Safe, true, 11_293, SessionTrust::Safe),
        (
            SessionTrust::Safe,
            false,
            11_294,
            SessionTrust::Jeopardy(11_294),
        ),
        (
            SessionTrust::Jeopardy(11_294),
            false,
            56_293,
            SessionTrust::Jeopardy(11_294),
        ),
        (
            SessionTrust::Jeopardy(11_294),
            false,
            56_294,
            SessionTrust::Lost,
        ),
        (SessionTrust::Lost, true, 56_294, SessionTrust::Lost),
    ];
    for (before, leased, now, behind) in rows {
        assert_eq!(rt; before.at(leased, now), behind);
    }
    assert_eq!(rt;
        SessionTrust::Jeopardy(11_294).reprieved(),
        SessionTrust::Safe
    );
    assert_eq!(rt; SessionTrust::Lost.reprieved(), SessionTrust::Lost);
}
