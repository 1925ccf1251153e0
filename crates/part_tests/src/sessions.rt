//! Sessions: Starts, Beats, events, what was issued and acknowledged, the last call, expiry, and a new master. The lease is
//! 12,000 ms.
use event_core::BoxedEvent;
use names_cell::Principal;
use node_core::{Event, Fault};
use session_core::{LastCall, Sessions};
use std::alloc::{AllocError, Global};
use std::process::Abort;
use tags_cell::{Beat, ClientNumber, MessageNumber};

const LEASE: u64 = 12_000;

const LAST: u64 = 9_223_372_036_854_775_807;

// By the number of a client, and then moments in milliseconds unless it says otherwise.
#[derive(Clone, Copy)]
enum Step {
    // As whom, when received, when answered: the span.
    Start(u64, &'static str, u64, u64),
    TakeBack(u64),
    // Whether it is live, and when the master came up.
    Recover(u64, bool, u64),
    // An invalidation.
    Issue(u64),
    // So many events.
    Tell(u64, u64),
    // How many events wait for its acknowledgement.
    Waiting(u64),
    // The number of the last event that waits, or 0.
    Last(u64),
    // 1 where the last event that waits says that some were missed.
    IsLost(u64),
    // 1 where the first event that waits tells of a new master.
    IsFailOver(u64),
    // 1 for yes.
    HasSpentEvents,
    // Its number, the processed invalidations and events, when received.
    Beat(u64, u64, u64, u64, u64),
    // The client whose Beat is due, or 0.
    Due(u64),
    // The span, or 0.
    Offer(u64, u64),
    Answer(u64, u64),
    // The client whose session may be ended, or 0.
    Expired(u64),
    Expire(u64),
    // By the number of a call: 0 for a new call, 1 where it waits, else the reply.
    Kept(u64, u64),
    // The call's number, and its reply, if there is one.
    Keep(u64, u64, Option<u64>),
    // 1 for yes.
    AllHeard,
    IsLive(u64),
}

fn client(number: u64) -> Result<ClientNumber, Fault> {
    ClientNumber::new(number).ok_or(Fault::NoSession)
}

fn message(number: u64) -> Result<MessageNumber, Fault> {
    MessageNumber::new(number).ok_or(Fault::Exhausted)
}

fn start(
    alloc: Global,
    sessions: &mut Sessions<u64>,
    number: u64,
    principal: &str,
    received: u64,
    now: u64,
) -> Result<u64, Fault> {
    if now > LAST / 1_024 {
        return Err(Fault::Exhausted);
    }
    let principal = Principal::parse(alloc, principal)?;
    let begun = sessions.start(client(number)?, principal, received, now)?;
    Ok(begun.span)
}

fn recover(
    alloc: Global,
    sessions: &mut Sessions<u64>,
    client: u64,
    live: bool,
    now: u64,
) -> Result<u64, Fault> {
    if now > LAST / 1_024 {
        return Err(Fault::Exhausted);
    }
    sessions.recover(client, Principal::parse(alloc, "ann")?, live, now)?;
    Ok(0)
}

fn beat(number: u64, message_number: u64, invalidations: u64, events: u64) -> Result<Beat, Fault> {
    Ok(Beat {
        client: client(number)?,
        epoch: 1,
        number: message(message_number)?,
        invalidations,
        events,
    })
}

fn kept(sessions: &Sessions<u64>, number: u64, call: u64) -> Result<u64, Fault> {
    Ok(match sessions.kept(client(number)?, message(call)?)? {
        None => 0,
        Some(kept) => kept.reply.unwrap_or(1),
    })
}

fn due(sessions: &Sessions<u64>, now: u64) -> u64 {
    match sessions.due(now) {
        Some(client) => client.get(),
        None => 0,
    }
}

fn offer(sessions: &Sessions<u64>, number: u64, now: u64) -> Result<u64, Fault> {
    if now > LAST / 1_024 {
        return Err(Fault::Exhausted);
    }
    Ok(match sessions.offer(client(number)?, now) {
        Some(offer) => offer.span,
        None => 0,
    })
}

fn tell(
    alloc: Global,
    sessions: &mut Sessions<u64>,
    client: u64,
    count: u64,
) -> Result<(), AllocError> {
    for handle in 0..count {
        sessions.tell(client, BoxedEvent::new(alloc, Event::Locked(handle))?);
    }
    Ok(())
}

// Of the events that wait: how many, the number of the last, and whether the last says that some were missed and the first tells
// of a new master.
fn waiting(sessions: &Sessions<u64>, client: u64) -> Result<[u64; 4], Fault> {
    let waiting = sessions.unacked(client)?;
    let count = waiting.len() as u64;
    Ok(
        match (waiting.as_slice().first(), waiting.as_slice().last()) {
            (Some(first), Some(last)) => {
                let lost = u64::from(matches!(&last.event, Event::Lost));
                let told = u64::from(matches!(&first.event, Event::FailOver));
                [count, last.number, lost, told]
            }
            _ => [0; 4],
        },
    )
}

fn reads(sessions: &Sessions<u64>, step: Step) -> Result<u64, Fault> {
    match step {
        Step::Due(now) => Ok(due(sessions, now)),
        Step::Offer(client, now) => offer(sessions, client, now),
        Step::Expired(now) => Ok(sessions.expired(now).unwrap_or(0)),
        Step::Kept(client, call) => kept(sessions, client, call),
        Step::AllHeard => Ok(u64::from(sessions.all_heard())),
        Step::HasSpentEvents => Ok(u64::from(sessions.has_spent_events())),
        Step::Waiting(client) => Ok(waiting(sessions, client)?[0]),
        Step::Last(client) => Ok(waiting(sessions, client)?[1]),
        Step::IsLost(client) => Ok(waiting(sessions, client)?[2]),
        Step::IsFailOver(client) => Ok(waiting(sessions, client)?[3]),
        Step::IsLive(client) => Ok(u64::from(sessions.is_live(client))),
        _ => Err(Fault::Unknown),
    }
}

fn changes(alloc: Global, sessions: &mut Sessions<u64>, step: Step) -> Result<u64, Fault> {
    match step {
        Step::TakeBack(number) => sessions.take_back(client(number)?),
        Step::Issue(client) => sessions.issue(client)?,
        Step::Tell(client, count) => tell(alloc, sessions, client, count)?,
        Step::Beat(client, number, invalidations, events, received) => {
            sessions.beat(&beat(client, number, invalidations, events)?, received)?
        }
        Step::Answer(number, now) => {
            if now < LAST / 1_024 {
                sessions.answer(client(number)?, now);
            }
        }
        Step::Expire(client) => sessions.expire(client),
        Step::Keep(number, call, reply) => sessions.keep(
            client(number)?,
            LastCall {
                number: message(call)?,
                reply,
            },
        ),
        _ => return reads(sessions, step),
    }
    Ok(0)
}

fn does(alloc: Global, sessions: &mut Sessions<u64>, step: Step) -> Result<u64, Fault> {
    match step {
        Step::Start(client, principal, received, now) => {
            start(alloc, sessions, client, principal, received, now)
        }
        Step::Recover(client, live, now) => recover(alloc, sessions, client, live, now),
        _ => changes(alloc, sessions, step),
    }
}

fn runs(rt: &impl Abort, alloc: Global, name: &str, table: &[(Step, Result<u64, Fault>)]) {
    let mut sessions = Sessions::new(alloc, LEASE);
    for (row, (step, want)) in table.iter().enumerate() {
        assert!(rt;
            does(alloc, &mut sessions, *step) == *want,
            "row {row} of {name}"
        );
    }
}

// Each begins without a session.
const TABLES: &[(&str, &[(Step, Result<u64, Fault>)])] = &[
    // The timeout is near from 3,000 + 12,000 / 16 ms on.
    (
        "beats_fall_due",
        &[
            (Step::Start(1, "ann", 0, 0), Ok(12_000)),
            (Step::Start(2, "bob", 100, 1_000), Ok(12_900)),
            (Step::Due(13_000), Ok(0)),
            (Step::Beat(2, 2, 0, 0, 2_000), Ok(0)),
            (Step::Beat(1, 2, 0, 0, 3_000), Ok(0)),
            (Step::Due(8_249), Ok(0)),
            (Step::Due(8_250), Ok(1)),
            (Step::Offer(1, 8_250), Ok(17_250)),
            (Step::Answer(1, 8_250), Ok(0)),
            (Step::Offer(1, 8_250), Ok(0)),
            (Step::Due(9_249), Ok(0)),
            (Step::Due(9_250), Ok(2)),
            (Step::Tell(1, 1), Ok(0)),
            (Step::Beat(1, 3, 0, 0, 9_000), Ok(0)),
            (Step::Due(9_250), Ok(1)),
            (Step::Beat(1, 4, 0, 1, 9_000), Ok(0)),
            (Step::Due(9_250), Ok(2)),
            (Step::Expired(12_999), Ok(0)),
            (Step::Expired(13_000), Ok(2)),
            (Step::Expired(20_250), Ok(1)),
        ],
    ),
    (
        "acknowledgements",
        &[
            (Step::Beat(1, 1, 0, 0, 0), Err(Fault::NoSession)),
            (Step::Start(1, "ann", 0, 0), Ok(12_000)),
            (Step::Tell(1, 1), Ok(0)),
            (Step::Beat(1, 2, 1, 0, 0), Err(Fault::BadAck(0))),
            (Step::Beat(1, 2, 0, 5, 0), Err(Fault::BadAck(1))),
            (Step::Beat(1, 2, 1, 5, 0), Err(Fault::BadAck(0))),
            (Step::Beat(1, 2, 0, 1, 0), Ok(0)),
            (Step::Beat(1, 2, 0, 1, 0), Err(Fault::Repeat)),
            (Step::Beat(1, 1, 9, 9, 0), Err(Fault::Repeat)),
            (Step::Beat(1, 3, 0, 0, 0), Ok(0)),
            (Step::Due(0), Ok(0)),
        ],
    ),
    (
        "events_of_each_session",
        &[
            (Step::Tell(1, 1), Ok(0)),
            (Step::Waiting(1), Ok(0)),
            (Step::Start(1, "ann", 0, 0), Ok(12_000)),
            (Step::Start(2, "bob", 0, 0), Ok(12_000)),
            (Step::Waiting(1), Ok(0)),
            (Step::Tell(1, 300), Ok(0)),
            (Step::Tell(2, 2), Ok(0)),
            (Step::Waiting(1), Ok(256)),
            (Step::Waiting(2), Ok(2)),
            (Step::IsLost(1), Ok(0)),
            (Step::Beat(1, 2, 0, 257, 0), Err(Fault::BadAck(256))),
            (Step::Beat(1, 2, 0, 1, 0), Ok(0)),
            (Step::Waiting(1), Ok(256)),
            (Step::Last(1), Ok(257)),
            (Step::IsLost(1), Ok(1)),
            (Step::Due(0), Ok(1)),
            (Step::Beat(1, 3, 0, 257, 0), Ok(0)),
            (Step::Waiting(1), Ok(0)),
            (Step::Due(0), Ok(0)),
            (Step::Issue(1), Ok(0)),
            (Step::Due(0), Ok(1)),
            (Step::Waiting(1), Ok(0)),
            (Step::HasSpentEvents, Ok(0)),
            (Step::Expire(2), Ok(0)),
            (Step::Waiting(2), Ok(0)),
            (Step::Tell(2, 1), Ok(0)),
            (Step::Waiting(2), Ok(0)),
        ],
    ),
    (
        "starts_and_ends",
        &[
            (Step::Start(1, "ann", 0, 0), Ok(12_000)),
            (Step::Start(1, "bob", 1, 1), Err(Fault::NoSession)),
            (Step::Start(1, "ann", 500, 1_000), Ok(12_500)),
            (Step::Expired(12_999), Ok(0)),
            (Step::Expired(13_000), Ok(1)),
            (Step::Expire(1), Ok(0)),
            (Step::Expired(13_000), Ok(0)),
            (Step::IsLive(1), Ok(0)),
            (Step::Start(1, "ann", 13_000, 13_000), Err(Fault::NoSession)),
            (Step::Beat(1, 9, 0, 0, 13_000), Err(Fault::NoSession)),
            (Step::Start(2, "ann", 13_000, 13_000), Ok(12_000)),
            (Step::TakeBack(2), Ok(0)),
            (Step::IsLive(2), Ok(0)),
            (Step::Start(2, "bob", 13_000, 13_000), Ok(12_000)),
            (Step::IsLive(2), Ok(1)),
        ],
    ),
    // Its time is 60,002 ms from the coming up on. The first event of a live one tells that the master is up. It is heard once
    // that is acknowledged, and a parked Beat is answered at once until then.
    (
        "sessions_of_a_new_master",
        &[
            (Step::AllHeard, Ok(1)),
            (Step::Recover(1, true, 1_000), Ok(0)),
            (Step::Recover(2, false, 1_000), Ok(0)),
            (Step::Recover(3, true, 1_000), Ok(0)),
            (Step::AllHeard, Ok(0)),
            (Step::Waiting(1), Ok(1)),
            (Step::IsFailOver(1), Ok(1)),
            (Step::Last(3), Ok(1)),
            (Step::Waiting(2), Ok(0)),
            (Step::Beat(2, 1, 0, 0, 1_500), Err(Fault::NoSession)),
            (Step::Beat(1, 5, 0, 2, 1_500), Err(Fault::BadAck(1))),
            (Step::Beat(1, 5, 1, 1, 1_500), Err(Fault::BadAck(0))),
            (Step::Beat(1, 5, 0, 0, 1_500), Ok(0)),
            (Step::Due(1_500), Ok(1)),
            (Step::Answer(1, 1_500), Ok(0)),
            (Step::Due(1_500), Ok(0)),
            (Step::Beat(1, 7, 0, 1, 2_000), Ok(0)),
            (Step::Due(2_000), Ok(0)),
            (Step::AllHeard, Ok(0)),
            (Step::Answer(1, 2_000), Ok(0)),
            (Step::Expired(61_001), Ok(0)),
            (Step::Expired(61_002), Ok(1)),
            (Step::Expire(1), Ok(0)),
            (Step::Expired(61_002), Ok(3)),
            (Step::Expire(3), Ok(0)),
            (Step::AllHeard, Ok(1)),
            (Step::Expired(61_002), Ok(0)),
        ],
    ),
    // The lease that was offered at 1,500 ends at 13,500, long before the session.
    (
        "lease_of_a_new_master",
        &[
            (Step::Recover(1, true, 1_000), Ok(0)),
            (Step::Beat(1, 5, 0, 0, 1_500), Ok(0)),
            (Step::Answer(1, 1_500), Ok(0)),
            (Step::Beat(1, 7, 0, 1, 2_000), Ok(0)),
            (Step::Due(9_749), Ok(0)),
            (Step::Due(9_750), Ok(1)),
            (Step::Expired(61_001), Ok(0)),
            (Step::Expired(61_002), Ok(1)),
        ],
    ),
    // A mark is old 12,000 and 48,000 ms behind the answer that set it.
    (
        "who_does_not_let_go",
        &[
            (Step::Start(1, "ann", 0, 0), Ok(12_000)),
            (Step::Issue(1), Ok(0)),
            (Step::Beat(1, 2, 0, 0, 1_000), Ok(0)),
            (Step::Answer(1, 1_000), Ok(0)),
            (Step::Beat(1, 3, 0, 0, 30_000), Ok(0)),
            (Step::Answer(1, 30_000), Ok(0)),
            (Step::Beat(1, 4, 0, 0, 60_999), Ok(0)),
            (Step::Due(60_999), Ok(1)),
            (Step::Due(61_000), Ok(1)),
            (Step::Beat(1, 5, 0, 0, 61_000), Ok(0)),
            (Step::Due(61_000), Ok(0)),
            (Step::Issue(1), Ok(0)),
            (Step::Due(72_000), Ok(0)),
            (Step::Beat(1, 6, 1, 0, 61_000), Ok(0)),
            (Step::Due(61_000), Ok(1)),
            (Step::Answer(1, 61_000), Ok(0)),
            (Step::Beat(1, 7, 1, 0, 120_999), Ok(0)),
            (Step::Due(120_999), Ok(1)),
            (Step::Beat(1, 8, 1, 0, 121_000), Ok(0)),
            (Step::Due(121_000), Ok(0)),
        ],
    ),
    (
        "who_does_not_hear_of_the_new_master",
        &[
            (Step::Recover(1, true, 0), Ok(0)),
            (Step::Beat(1, 1, 0, 0, 0), Ok(0)),
            (Step::Answer(1, 0), Ok(0)),
            (Step::Beat(1, 2, 0, 0, 59_999), Ok(0)),
            (Step::Due(59_999), Ok(1)),
            (Step::Beat(1, 3, 0, 0, 60_000), Ok(0)),
            (Step::Due(60_000), Ok(0)),
            (Step::Beat(1, 4, 0, 1, 60_000), Ok(0)),
            (Step::Due(60_000), Ok(1)),
        ],
    ),
    // Events alone, or what came since, hold up nobody.
    (
        "who_owes_what_came_since",
        &[
            (Step::Start(1, "ann", 0, 0), Ok(12_000)),
            (Step::Tell(1, 1), Ok(0)),
            (Step::Beat(1, 2, 0, 0, 0), Ok(0)),
            (Step::Answer(1, 0), Ok(0)),
            (Step::Beat(1, 3, 0, 0, 90_000), Ok(0)),
            (Step::Due(90_000), Ok(1)),
            (Step::Issue(1), Ok(0)),
            (Step::Answer(1, 90_000), Ok(0)),
            (Step::Issue(1), Ok(0)),
            (Step::Beat(1, 4, 1, 0, 120_000), Ok(0)),
            (Step::Answer(1, 120_000), Ok(0)),
            (Step::Issue(1), Ok(0)),
            (Step::Beat(1, 5, 2, 0, 150_000), Ok(0)),
            (Step::Due(150_000), Ok(1)),
        ],
    ),
    (
        "last_call_is_kept",
        &[
            (Step::Start(1, "ann", 0, 0), Ok(12_000)),
            (Step::Kept(1, 3), Ok(0)),
            (Step::Keep(1, 3, None), Ok(0)),
            (Step::Kept(1, 3), Ok(1)),
            (Step::Kept(1, 4), Err(Fault::CallOutstanding)),
            (Step::Kept(1, 2), Err(Fault::Repeat)),
            (Step::Keep(1, 3, Some(30)), Ok(0)),
            (Step::Kept(1, 3), Ok(30)),
            (Step::Kept(1, 4), Ok(0)),
            (Step::Kept(1, 2), Err(Fault::Repeat)),
        ],
    ),
];

#[test]
fn sessions_step_by_step(rt: HostRuntime) {
    for (name, table) in TABLES {
        runs(&rt, rt.alloc(), name, table);
    }
}
