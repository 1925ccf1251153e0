//! Locks: who gets them and who waits, the delay behind an expiry, sequencers, and what the rows tell a new master.
use lock_core::{Acquired, Claim, Hold, Lock, Locks, Owner, Parting, Turn};
use names_cell::Name;
use node_core::LockMode::{Exclusive, Shared};
use node_core::{Fault, LockMode};
use std::alloc::Global;
use std::process::Abort;
use tags_cell::{Ordinal, Sequencer};

// The instance of the node, whose name is `/ls/c/f`.
const NODE: u64 = 4;

const LAST: u64 = 9_223_372_036_854_775_807;

// Of handle 1 of a client. Moments and delays are in milliseconds.
#[derive(Clone, Copy)]
enum Step {
    // With the moment.
    Try(u64, LockMode, u64),
    // With the lock-delay.
    Acquire(u64, LockMode, u64),
    Release(u64),
    Close(u64),
    // Of the client's session, with the moment: its timeout has come, or the client has ended it.
    Expire(u64, u64),
    Leave(u64, u64),
    Due(u64),
    // How many locks the client holds or waits for.
    Claims(u64),
    Reopen,
    NodeEnds,
    Sequencer(u64),
    // By mode, instance and generation, where this instance stands at the name.
    Check(LockMode, u64, u64, Option<u64>),
    // What the rows tell: a generation; a holder with its delay; a closing, with the moment of the coming up.
    Generation(u64),
    Holder(u64, LockMode, u64),
    Closing(u64, u64),
    // A moment is noted; that nothing was due at one.
    Moment(u64),
    Quiet(u64),
}

#[derive(Clone, Copy, PartialEq)]
enum Answer {
    Nothing,
    // A generation, or an instance.
    Number(u64),
    Waits,
    // So many waiters got it, and so many were turned away.
    Turn(usize, usize),
    Refused(Fault),
}

fn claim(client: u64, mode: LockMode, delay: u64) -> Claim {
    Claim {
        owner: owner(client),
        hold: Hold { mode, delay },
    }
}

fn owner(client: u64) -> Owner {
    Owner { client, handle: 1 }
}

fn puts(locks: &mut Locks, lock: Lock) -> Result<Answer, Fault> {
    let generation = lock.generation();
    drop(locks.set(NODE, lock)?);
    Ok(Answer::Number(generation))
}

fn turns(locks: &mut Locks, turn: Turn) -> Result<Answer, Fault> {
    let Turn {
        lock,
        granted,
        exhausted,
    } = turn;
    drop(locks.set(NODE, lock)?);
    Ok(Answer::Turn(granted.len(), exhausted.len()))
}

fn tries(locks: &mut Locks, claim: Claim, now: u64) -> Result<Answer, Fault> {
    let lock = locks.try_acquire(NODE, claim, now)?;
    puts(locks, lock)
}

fn acquires(locks: &mut Locks, claim: Claim) -> Result<Answer, Fault> {
    match locks.acquire(NODE, claim)? {
        Acquired::Held(lock) => puts(locks, lock),
        Acquired::Waits(lock) => {
            puts(locks, lock)?;
            Ok(Answer::Waits)
        }
    }
}

fn releases(locks: &mut Locks, client: u64) -> Result<Answer, Fault> {
    let turn = locks.release(NODE, owner(client))?;
    turns(locks, turn)
}

fn closes(locks: &mut Locks, client: u64) -> Result<Answer, Fault> {
    match locks.close_handle(NODE, owner(client))? {
        Some(turn) => turns(locks, turn),
        None => Ok(Answer::Nothing),
    }
}

// How many locks the session held or awaited.
fn parts(locks: &mut Locks, parting: Parting, client: u64, now: u64) -> Result<Answer, Fault> {
    let ended = locks.lapse(parting, client, now)?;
    let count = ended.len() as u64;
    locks.carry_out(ended);
    Ok(Answer::Number(count))
}

fn reopens(locks: &mut Locks) -> Result<Answer, Fault> {
    let turn = locks.reopen(NODE)?;
    turns(locks, turn)
}

// How many waited.
fn node_ends(locks: &mut Locks) -> Answer {
    match locks.end_of_node(NODE) {
        Some(lock) => Answer::Number(lock.waiters().len() as u64),
        None => Answer::Nothing,
    }
}

fn number(value: u64) -> Result<Ordinal, Fault> {
    Ordinal::new(value).ok_or(Fault::Exhausted)
}

// Its generation.
fn sequencer_of(alloc: Global, locks: &Locks, client: u64) -> Result<Answer, Fault> {
    let name = Name::parse(alloc, "/ls/c/f")?;
    let sequencer = locks.sequencer(number(NODE)?, &name, owner(client))?;
    Ok(Answer::Number(sequencer.generation.get()))
}

fn checks(locks: &Locks, sequencer: &Sequencer, present: Option<u64>) -> Result<Answer, Fault> {
    locks.check(sequencer, present)?;
    Ok(Answer::Nothing)
}

fn sequencer(
    alloc: Global,
    mode: LockMode,
    instance: u64,
    generation: u64,
) -> Result<Sequencer, Fault> {
    Ok(Sequencer {
        mode,
        instance: number(instance)?,
        generation: number(generation)?,
        name: Name::parse(alloc, "/ls/c/f")?,
    })
}

fn reads(alloc: Global, locks: &Locks, step: Step) -> Result<Answer, Fault> {
    match step {
        Step::Due(now) => Ok(match locks.due(now) {
            Some(instance) => Answer::Number(instance),
            None => Answer::Nothing,
        }),
        Step::Claims(client) => Ok(match locks.claim_count(client)? {
            Some(count) => Answer::Number(count),
            None => Answer::Nothing,
        }),
        Step::Sequencer(client) => sequencer_of(alloc, locks, client),
        Step::Check(mode, instance, generation, present) => {
            let shown = sequencer(alloc, mode, instance, generation)?;
            checks(locks, &shown, present)
        }
        _ => Ok(Answer::Nothing),
    }
}

// What the rows tell.
fn tells(locks: &mut Locks, step: Step) -> Result<Answer, Fault> {
    match step {
        Step::Generation(generation) => {
            if generation <= LAST {
                locks.put_generation(NODE, generation)?;
            }
        }
        Step::Holder(client, mode, delay) => locks.put_holder(NODE, claim(client, mode, delay))?,
        Step::Closing(from, delay) => locks.put_closing(NODE, from, delay)?,
        _ => {}
    }
    Ok(Answer::Number(locks.generation(NODE)))
}

// What changes no lock.
fn notes(locks: &mut Locks, step: Step) -> Answer {
    match step {
        Step::Moment(now) => locks.note_moment(now),
        Step::Quiet(now) => locks.note_quiet(now),
        _ => {}
    }
    Answer::Nothing
}

fn does(alloc: Global, locks: &mut Locks, step: Step) -> Result<Answer, Fault> {
    match step {
        Step::Try(client, mode, now) => tries(locks, claim(client, mode, 0), now),
        Step::Acquire(client, mode, delay) => acquires(locks, claim(client, mode, delay)),
        Step::Release(client) => releases(locks, client),
        Step::Close(client) => closes(locks, client),
        Step::Expire(client, now) => parts(locks, Parting::Expiry, client, now),
        Step::Leave(client, now) => parts(locks, Parting::Leave, client, now),
        Step::Reopen => reopens(locks),
        Step::NodeEnds => Ok(node_ends(locks)),
        Step::Generation(_) | Step::Holder(_, _, _) | Step::Closing(_, _) => tells(locks, step),
        Step::Moment(_) | Step::Quiet(_) => Ok(notes(locks, step)),
        _ => reads(alloc, locks, step),
    }
}

fn told(alloc: Global, locks: &mut Locks, step: Step) -> Answer {
    match does(alloc, locks, step) {
        Ok(answer) => answer,
        Err(fault) => Answer::Refused(fault),
    }
}

// A new table of locks, and each step with its answer.
fn runs(rt: &impl Abort, alloc: Global, name: &str, table: &[(Step, Answer)]) {
    let mut locks = Locks::new(alloc);
    for (row, (step, want)) in table.iter().enumerate() {
        assert!(rt;
            told(alloc, &mut locks, *step) == *want,
            "row {row} of {name}"
        );
    }
}

const STALE: Answer = Answer::Refused(Fault::SequencerStale);

// Each begins with a new table of locks.
const TABLES: &[(&str, &[(Step, Answer)])] = &[
    (
        "claims_of_each_client",
        &[
            (Step::Claims(1), Answer::Number(0)),
            (Step::Acquire(1, Shared, 0), Answer::Number(1)),
            (Step::Acquire(2, Exclusive, 0), Answer::Waits),
            (Step::Claims(1), Answer::Number(1)),
            (Step::Claims(2), Answer::Number(1)),
            (Step::Claims(3), Answer::Number(0)),
            (Step::Release(1), Answer::Turn(1, 0)),
            (Step::Claims(1), Answer::Number(0)),
            (Step::Claims(2), Answer::Number(1)),
            (Step::Close(2), Answer::Turn(0, 0)),
            (Step::Claims(2), Answer::Number(0)),
        ],
    ),
    (
        "claims_on_a_lock_with_many",
        &[
            (Step::Acquire(1, Exclusive, 0), Answer::Number(1)),
            (Step::Acquire(2, Exclusive, 0), Answer::Waits),
            (Step::Acquire(3, Exclusive, 0), Answer::Waits),
            (Step::Acquire(4, Exclusive, 0), Answer::Waits),
            (Step::Acquire(5, Exclusive, 0), Answer::Waits),
            (Step::Acquire(6, Exclusive, 0), Answer::Waits),
            (Step::Acquire(7, Exclusive, 0), Answer::Waits),
            (Step::Acquire(8, Exclusive, 0), Answer::Waits),
            (Step::Acquire(9, Exclusive, 0), Answer::Waits),
            (Step::Acquire(10, Exclusive, 0), Answer::Waits),
            (Step::Acquire(11, Exclusive, 0), Answer::Waits),
            (Step::Acquire(12, Exclusive, 0), Answer::Waits),
            (Step::Acquire(13, Exclusive, 0), Answer::Waits),
            (Step::Acquire(14, Exclusive, 0), Answer::Waits),
            (Step::Acquire(15, Exclusive, 0), Answer::Waits),
            (Step::Acquire(16, Exclusive, 0), Answer::Waits),
            (Step::Acquire(17, Exclusive, 0), Answer::Waits),
            (Step::Acquire(18, Exclusive, 0), Answer::Waits),
            (Step::Claims(1), Answer::Number(1)),
            (Step::Claims(18), Answer::Number(1)),
            (Step::Claims(19), Answer::Number(0)),
            (Step::Close(18), Answer::Turn(0, 0)),
            (Step::Claims(18), Answer::Number(0)),
        ],
    ),
    (
        "modes_and_waiters",
        &[
            (Step::Acquire(1, Exclusive, 0), Answer::Number(1)),
            (Step::Acquire(2, Shared, 0), Answer::Waits),
            (
                Step::Acquire(1, Exclusive, 0),
                Answer::Refused(Fault::Held(Exclusive)),
            ),
            (
                Step::Try(1, Exclusive, 0),
                Answer::Refused(Fault::Held(Exclusive)),
            ),
            (
                Step::Try(3, Shared, 0),
                Answer::Refused(Fault::Held(Exclusive)),
            ),
            (Step::Release(2), Answer::Refused(Fault::NotHolder)),
            (Step::Release(1), Answer::Turn(1, 0)),
            (Step::Try(1, Shared, 0), Answer::Number(2)),
            (Step::Acquire(3, Exclusive, 0), Answer::Waits),
            (
                Step::Try(4, Shared, 0),
                Answer::Refused(Fault::Held(Shared)),
            ),
            (Step::Acquire(4, Shared, 0), Answer::Waits),
            (Step::Release(1), Answer::Turn(0, 0)),
            (Step::Release(2), Answer::Turn(1, 0)),
            (Step::Close(4), Answer::Turn(0, 0)),
            (Step::Close(4), Answer::Nothing),
            (Step::Release(3), Answer::Turn(0, 0)),
            (Step::Release(3), Answer::Refused(Fault::NotHolder)),
        ],
    ),
    (
        "lock_delay",
        &[
            (Step::Acquire(1, Exclusive, 60_000), Answer::Number(1)),
            (Step::Expire(1, 60_000), Answer::Number(1)),
            (
                Step::Try(2, Exclusive, 60_000),
                Answer::Refused(Fault::Delayed(60_000)),
            ),
            (
                Step::Try(2, Exclusive, 119_999),
                Answer::Refused(Fault::Delayed(1)),
            ),
            (Step::Due(119_999), Answer::Nothing),
            (Step::Due(120_000), Answer::Number(NODE)),
            (
                Step::Try(2, Exclusive, 120_000),
                Answer::Refused(Fault::Delayed(0)),
            ),
            (Step::Acquire(3, Shared, 0), Answer::Waits),
            (Step::Reopen, Answer::Turn(1, 0)),
            (Step::Try(2, Shared, 120_000), Answer::Number(2)),
        ],
    ),
    // The clock goes back by a millisecond; a lock that closes while it is to be looked at; one whose node goes.
    (
        "lock_delay_noted",
        &[
            (Step::Acquire(1, Exclusive, 60_000), Answer::Number(1)),
            (Step::Expire(1, 60_000), Answer::Number(1)),
            (Step::Moment(119_999), Answer::Nothing),
            (Step::Due(119_999), Answer::Nothing),
            (Step::Quiet(119_999), Answer::Nothing),
            (Step::Moment(120_000), Answer::Nothing),
            (Step::Due(120_000), Answer::Number(NODE)),
            (Step::Due(119_999), Answer::Nothing),
            (Step::Quiet(119_999), Answer::Nothing),
            (Step::Due(120_000), Answer::Number(NODE)),
            (Step::Moment(120_000), Answer::Nothing),
            (Step::Due(120_000), Answer::Number(NODE)),
            (Step::Closing(120_000, 10), Answer::Number(1)),
            (Step::Due(120_000), Answer::Nothing),
            (Step::Moment(120_010), Answer::Nothing),
            (Step::Due(120_010), Answer::Number(NODE)),
            (Step::Reopen, Answer::Turn(0, 0)),
            (Step::Due(120_010), Answer::Nothing),
            (Step::Closing(120_010, 10), Answer::Number(1)),
            (Step::NodeEnds, Answer::Number(0)),
            (Step::Moment(120_020), Answer::Nothing),
            (Step::Due(120_020), Answer::Nothing),
        ],
    ),
    // Without a delay, whatever was asked for: the lock is free, or the next waiter's, at once.
    (
        "leaves",
        &[
            (Step::Acquire(1, Exclusive, 60_000), Answer::Number(1)),
            (Step::Leave(1, 50), Answer::Number(1)),
            (Step::Due(60_050), Answer::Nothing),
            (Step::Try(2, Exclusive, 50), Answer::Number(2)),
            (Step::Acquire(3, Shared, 0), Answer::Waits),
            (Step::Acquire(4, Shared, 0), Answer::Waits),
            (Step::Leave(3, 60), Answer::Number(1)),
            (Step::Leave(2, 70), Answer::Number(1)),
            (
                Step::Try(3, Exclusive, 70),
                Answer::Refused(Fault::Held(Shared)),
            ),
            (Step::Sequencer(4), Answer::Number(3)),
        ],
    ),
    // With no delay the next waiter gets the lock at once. A session that leaves others there gives no delay.
    (
        "expiries",
        &[
            (Step::Acquire(1, Exclusive, 0), Answer::Number(1)),
            (Step::Acquire(2, Shared, 5), Answer::Waits),
            (Step::Expire(3, 90), Answer::Number(0)),
            (Step::Expire(1, 100), Answer::Number(1)),
            (Step::Sequencer(2), Answer::Number(2)),
            (Step::Acquire(4, Shared, 9), Answer::Number(2)),
            (Step::Expire(4, 200), Answer::Number(1)),
            (Step::Due(1_000_000), Answer::Nothing),
            (Step::Expire(2, 300), Answer::Number(1)),
            (Step::Due(304), Answer::Nothing),
            (Step::Due(305), Answer::Number(NODE)),
        ],
    ),
    (
        "rows_tell_a_new_master",
        &[
            (Step::Generation(7), Answer::Number(7)),
            (Step::Holder(1, Shared, 5), Answer::Number(7)),
            (Step::Holder(2, Shared, 9), Answer::Number(7)),
            (
                Step::Try(3, Exclusive, 0),
                Answer::Refused(Fault::Held(Shared)),
            ),
            (Step::Sequencer(1), Answer::Number(7)),
            (Step::NodeEnds, Answer::Number(0)),
            (Step::Generation(3), Answer::Number(3)),
            (Step::Closing(1_000, 50), Answer::Number(3)),
            (Step::Due(1_049), Answer::Nothing),
            (Step::Due(1_050), Answer::Number(NODE)),
        ],
    ),
    (
        "sequencers",
        &[
            (Step::Acquire(1, Exclusive, 0), Answer::Number(1)),
            (Step::Sequencer(1), Answer::Number(1)),
            (Step::Sequencer(2), Answer::Refused(Fault::NotHolder)),
            (Step::Check(Exclusive, NODE, 1, Some(NODE)), Answer::Nothing),
            (Step::Check(Shared, NODE, 1, Some(NODE)), STALE),
            (Step::Check(Exclusive, NODE, 2, Some(NODE)), STALE),
            (Step::Check(Exclusive, 5, 1, Some(5)), STALE),
            (Step::Check(Exclusive, NODE, 1, Some(5)), STALE),
            (Step::Check(Exclusive, NODE, 1, None), STALE),
            (Step::Release(1), Answer::Turn(0, 0)),
            (Step::Check(Exclusive, NODE, 1, Some(NODE)), STALE),
            (Step::Try(1, Exclusive, 0), Answer::Number(2)),
            (Step::Check(Exclusive, NODE, 1, Some(NODE)), STALE),
        ],
    ),
    // Behind the last one the lock is given to nobody; a node that goes ends its lock.
    (
        "last_generation",
        &[
            (Step::Generation(LAST - 1), Answer::Number(LAST - 1)),
            (Step::Acquire(1, Exclusive, 5), Answer::Number(LAST)),
            (Step::Acquire(2, Exclusive, 0), Answer::Waits),
            (Step::Release(1), Answer::Turn(0, 1)),
            (
                Step::Try(2, Exclusive, 0),
                Answer::Refused(Fault::Exhausted),
            ),
            (
                Step::Acquire(2, Exclusive, 0),
                Answer::Refused(Fault::Exhausted),
            ),
            (Step::Closing(0, 10), Answer::Number(LAST)),
            (Step::Acquire(2, Exclusive, 0), Answer::Waits),
            (Step::Reopen, Answer::Turn(0, 1)),
            (Step::NodeEnds, Answer::Number(0)),
            (Step::Acquire(1, Exclusive, 0), Answer::Number(1)),
            (Step::Acquire(2, Exclusive, 0), Answer::Waits),
            (Step::NodeEnds, Answer::Number(1)),
            (Step::NodeEnds, Answer::Nothing),
        ],
    ),
];

#[test]
fn locks_step_by_step(rt: HostRuntime) {
    for (name, table) in TABLES {
        runs(&rt, rt.alloc(), name, table);
    }
}
