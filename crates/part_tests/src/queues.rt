//! The changes that wait beside the rights that hold them up: at each step the change that is ready is the one that a walk
//! finds.
use crate::rights::{Last, name};
use collections::Items;
use gate_core::{Pending, Queue};
use names_cell::Name;
use rights_core::Ending;
use std::alloc::Global;
use std::process::Abort;
use std::test::Fail;

/// A step on the queue. A name is told by its number.
#[derive(Clone, Copy)]
enum Step {
    /// A client asks for a right on a name.
    Grant(u64, u64),
    /// A change of two names comes.
    Push(u64, u64),
    /// Each client is asked for a name.
    AskBack(u64),
    /// A client acknowledges up to this number.
    Acknowledge(u64, u64),
    /// A client's session expires.
    Expire(u64),
    /// The change of this number is taken out.
    Take(u64),
    /// No later call need look at what was freed until now.
    Quiet,
}

fn push(queue: &mut Queue<u64>, alloc: Global, first: u64, second: u64) -> Result<(), Fail> {
    let mut touched = Items::new(alloc);
    touched.push(name(alloc, first)?)?;
    touched.push(name(alloc, second)?)?;
    queue.push(Pending { touched, body: 0 })?;
    Ok(())
}

fn ask_back(queue: &mut Queue<u64>, name: &Name) {
    let mut last = Last { number: 0 };
    queue.ask_back(name, &mut last);
}

fn grant(queue: &mut Queue<u64>, client: u64, name: &Name) -> Result<(), Fail> {
    queue.grant(client, name)?;
    Ok(())
}

fn does(queue: &mut Queue<u64>, alloc: Global, step: Step) -> Result<(), Fail> {
    match step {
        Step::Grant(client, number) => return grant(queue, client, &name(alloc, number)?),
        Step::Push(first, second) => return push(queue, alloc, first, second),
        Step::AskBack(number) => ask_back(queue, &name(alloc, number)?),
        Step::Acknowledge(client, upto) => queue.end(client, Ending::Acknowledgement(upto)),
        Step::Expire(client) => queue.end(client, Ending::Expiry),
        Step::Take(number) => drop(queue.take(number)),
        Step::Quiet => queue.note_quiet(),
    }
    Ok(())
}

fn walked(queue: &Queue<u64>) -> Option<u64> {
    queue.gate().ready(queue.rights())
}

// Each step, and the change that is ready behind it.
const STEPS: &[(Step, Option<u64>)] = &[
    (Step::Grant(1, 1), None),
    (Step::Grant(2, 1), None),
    (Step::Grant(1, 2), None),
    (Step::Push(1, 2), None),
    (Step::Push(1, 3), None),
    (Step::Quiet, None),
    (Step::Push(3, 4), Some(3)),
    (Step::Push(4, 5), Some(3)),
    (Step::AskBack(1), Some(3)),
    (Step::AskBack(2), Some(3)),
    (Step::Quiet, Some(3)),
    (Step::Take(3), Some(4)),
    (Step::Take(4), None),
    (Step::Quiet, None),
    (Step::Acknowledge(1, 1), None),
    (Step::Quiet, None),
    (Step::Expire(2), Some(2)),
    (Step::Take(2), None),
    (Step::Quiet, None),
    (Step::Acknowledge(1, 2), Some(1)),
    (Step::Grant(3, 6), Some(1)),
    (Step::Push(6, 6), Some(1)),
    (Step::Take(1), None),
    (Step::Expire(1), None),
    (Step::Expire(3), Some(5)),
    (Step::Take(5), None),
    (Step::Take(5), None),
];

fn do_all(rt: &impl Abort, queue: &mut Queue<u64>, alloc: Global) -> Result<(), Fail> {
    for (index, (step, want)) in STEPS.iter().enumerate() {
        does(queue, alloc, *step)?;
        assert_eq!(rt; queue.ready(), *want, "step {index}");
        assert_eq!(rt; walked(queue), *want, "step {index}");
    }
    Ok(())
}

#[test]
fn the_change_that_is_ready_is_found(rt: HostRuntime) -> Result<(), Fail> {
    let mut queue = Queue::new(rt.alloc());
    do_all(&rt, &mut queue, rt.alloc())
}
