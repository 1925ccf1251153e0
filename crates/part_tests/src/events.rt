//! The events of a session: their numbers, what is missed, and acknowledgements.
use event_core::{BoxedEvent, EventQueue};
use node_core::{Event, Fault};
use std::alloc::{AllocError, Global};
use std::process::Abort;
use std::test::Fail;

#[derive(Clone, Copy)]
enum Step {
    // So many events.
    Push(u64),
    // Up to this number.
    Acknowledge(u64),
    // How many wait.
    Waiting,
    // The number of the first one that waits, or 0.
    First,
    // The number of the last one that waits, or 0.
    Last,
    // 1 where the last one says that some were missed.
    IsLost,
    // The number of the last one, whether it waits or not.
    Count,
    // 1 where some wait.
    Owes,
}

fn push(alloc: Global, queue: &mut EventQueue, count: u64) -> Result<(), AllocError> {
    for handle in 0..count {
        queue.push(BoxedEvent::new(alloc, Event::Locked(handle))?);
    }
    Ok(())
}

// Of the events that wait: how many, the numbers of the first and the last, and whether the last says that some were missed.
fn waiting(alloc: Global, queue: &EventQueue) -> Result<[u64; 4], Fault> {
    let waiting = queue.unacked(alloc)?;
    let count = waiting.len() as u64;
    Ok(
        match (waiting.as_slice().first(), waiting.as_slice().last()) {
            (Some(first), Some(last)) => {
                let lost = u64::from(matches!(&last.event, Event::Lost));
                [count, first.number, last.number, lost]
            }
            _ => [0; 4],
        },
    )
}

fn does(alloc: Global, queue: &mut EventQueue, step: Step) -> Result<u64, Fault> {
    match step {
        Step::Push(count) => push(alloc, queue, count)?,
        Step::Acknowledge(number) => queue.acknowledge(number)?,
        Step::Waiting => return Ok(waiting(alloc, queue)?[0]),
        Step::First => return Ok(waiting(alloc, queue)?[1]),
        Step::Last => return Ok(waiting(alloc, queue)?[2]),
        Step::IsLost => return Ok(waiting(alloc, queue)?[3]),
        Step::Count => return Ok(queue.count()),
        Step::Owes => return Ok(u64::from(queue.owes())),
    }
    Ok(0)
}

fn runs(
    rt: &impl Abort,
    alloc: Global,
    name: &str,
    table: &[(Step, Result<u64, Fault>)],
) -> Result<(), Fail> {
    let mut queue = EventQueue::new(alloc)?;
    for (row, (step, want)) in table.iter().enumerate() {
        assert!(rt;
            does(alloc, &mut queue, *step) == *want,
            "row {row} of {name}"
        );
    }
    Ok(())
}

// Each begins without an event.
const TABLES: &[(&str, &[(Step, Result<u64, Fault>)])] = &[
    (
        "missed_events_are_told_as_one",
        &[
            (Step::Push(256), Ok(0)),
            (Step::Waiting, Ok(256)),
            (Step::Last, Ok(256)),
            (Step::Push(44), Ok(0)),
            (Step::Waiting, Ok(256)),
            (Step::Last, Ok(256)),
            (Step::Count, Ok(256)),
            (Step::IsLost, Ok(0)),
            (Step::Acknowledge(257), Err(Fault::BadAck(256))),
            (Step::Acknowledge(0), Ok(0)),
            (Step::IsLost, Ok(0)),
            (Step::Acknowledge(1), Ok(0)),
            (Step::Waiting, Ok(256)),
            (Step::First, Ok(2)),
            (Step::Last, Ok(257)),
            (Step::IsLost, Ok(1)),
            (Step::Push(1), Ok(0)),
            (Step::Last, Ok(257)),
            (Step::Acknowledge(257), Ok(0)),
            (Step::Waiting, Ok(1)),
            (Step::Last, Ok(258)),
            (Step::IsLost, Ok(1)),
            (Step::Acknowledge(258), Ok(0)),
            (Step::Waiting, Ok(0)),
            (Step::Owes, Ok(0)),
            (Step::Push(1), Ok(0)),
            (Step::Last, Ok(259)),
            (Step::IsLost, Ok(0)),
        ],
    ),
    (
        "events_wait_for_their_acknowledgement",
        &[
            (Step::Owes, Ok(0)),
            (Step::Acknowledge(0), Ok(0)),
            (Step::Acknowledge(1), Err(Fault::BadAck(0))),
            (Step::Push(3), Ok(0)),
            (Step::Owes, Ok(1)),
            (Step::First, Ok(1)),
            (Step::Last, Ok(3)),
            (Step::Acknowledge(2), Ok(0)),
            (Step::First, Ok(3)),
            (Step::Acknowledge(1), Ok(0)),
            (Step::Waiting, Ok(1)),
            (Step::Acknowledge(4), Err(Fault::BadAck(3))),
            (Step::Acknowledge(3), Ok(0)),
            (Step::Owes, Ok(0)),
            (Step::Count, Ok(3)),
            (Step::Push(1), Ok(0)),
            (Step::First, Ok(4)),
        ],
    ),
];

#[test]
fn events_step_by_step(rt: HostRuntime) -> Result<(), Fail> {
    for (name, table) in TABLES {
        runs(&rt, rt.alloc(), name, table)?;
    }
    Ok(())
}
