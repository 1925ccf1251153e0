//! Rights, and the changes that wait for them, step by step.
use collections::Items;
use gate_core::{Gate, Pending};
use names_cell::Name;
use node_core::{Fault, Issues};
use rights_core::{Grant, Rights};
use std::alloc::Global;
use std::process::Abort;
use std::test::Fail;

/// A step on the rights. A name is told by its number.
#[derive(Clone, Copy)]
enum Step {
    /// A client asks for a right on a name.
    Grant(u64, u64),
    /// Clients are asked for a name, the last one by the invalidation of this number; 0 where nobody is.
    AskBack(u64),
    /// A client has so many invalidations still to acknowledge.
    Unacked(u64),
    /// A client acknowledges up to this number, and so many rights end.
    Acknowledge(u64, u64),
    /// A client's session expires, and so many rights end.
    Expire(u64),
    /// So many rights are held on a name.
    HeldOn(u64),
    /// How many were issued, are held, were acknowledged and expired.
    Totals,
}

#[derive(Clone, Copy, PartialEq)]
enum Answer {
    Right(Grant),
    Count(usize),
    Number(u64),
    Totals([u64; 4]),
}

/// A name is told by its number.
pub(crate) fn name(alloc: Global, number: u64) -> Result<Name, Fail> {
    let text = format!(in alloc; "/ls/c/{number}")?;
    Ok(Name::parse(alloc, &text)?)
}

/// The number that was issued last, or 0.
#[derive(Drop)]
pub(crate) struct Last {
    pub number: u64,
}

impl Issues for Last {
    ghost use Rattle.part_tests.specs.declared.rights.Last.{Last};

    ghost issued = { λ last entry. record { number = entry.1 } };

    fn issue_through(&mut self, _client: u64, number: u64) {
        self.number = number;
    }
}

fn ask_back(rights: &mut Rights, name: &Name) -> u64 {
    let mut last = Last { number: 0 };
    rights.ask_back(name, &mut last);
    last.number
}

fn totals(rights: &Rights) -> Answer {
    let totals = rights.totals();
    Answer::Totals([
        totals.issued,
        totals.held,
        totals.acknowledged,
        totals.expired,
    ])
}

fn does(rights: &mut Rights, alloc: Global, step: Step) -> Result<Answer, Fail> {
    Ok(match step {
        Step::Grant(client, number) => Answer::Right(rights.grant(client, &name(alloc, number)?)?),
        Step::AskBack(number) => Answer::Number(ask_back(rights, &name(alloc, number)?)),
        Step::Unacked(client) => Answer::Count(rights.unacked(client)?.as_map().len()),
        Step::Acknowledge(client, upto) => Answer::Count(rights.acknowledge(client, upto)?.len()),
        Step::Expire(client) => Answer::Count(rights.expire(client)?.len()),
        Step::HeldOn(number) => Answer::Count(rights.held_on(&name(alloc, number)?)),
        Step::Totals => totals(rights),
    })
}

fn runs(
    rt: &impl Abort,
    rights: &mut Rights,
    alloc: Global,
    steps: &[(Step, Answer)],
) -> Result<(), Fail> {
    for (index, (step, want)) in steps.iter().enumerate() {
        assert!(rt; does(rights, alloc, *step)? == *want, "step {index}");
    }
    Ok(())
}

const STEPS: &[(Step, Answer)] = &[
    (Step::Grant(1, 1), Answer::Right(Grant::Granted(1))),
    (Step::Grant(1, 1), Answer::Right(Grant::Already(1))),
    (Step::Grant(2, 1), Answer::Right(Grant::Granted(2))),
    (Step::Grant(1, 2), Answer::Right(Grant::Granted(3))),
    (Step::HeldOn(1), Answer::Count(2)),
    (Step::Unacked(1), Answer::Count(0)),
    (Step::AskBack(1), Answer::Number(1)),
    (Step::Unacked(2), Answer::Count(1)),
    (Step::AskBack(1), Answer::Number(0)),
    (Step::Grant(1, 1), Answer::Right(Grant::Already(1))),
    (Step::Unacked(1), Answer::Count(1)),
    (Step::Acknowledge(1, 0), Answer::Count(0)),
    (Step::Acknowledge(1, 1), Answer::Count(1)),
    (Step::Acknowledge(1, 1), Answer::Count(0)),
    (Step::HeldOn(1), Answer::Count(1)),
    (Step::Grant(1, 1), Answer::Right(Grant::Granted(4))),
    (Step::AskBack(1), Answer::Number(2)),
    (Step::Acknowledge(1, 1), Answer::Count(0)),
    (Step::Expire(2), Answer::Count(1)),
    (Step::Expire(2), Answer::Count(0)),
    (Step::Acknowledge(1, 2), Answer::Count(1)),
    (Step::HeldOn(1), Answer::Count(0)),
    (Step::Totals, Answer::Totals([4, 1, 2, 1])),
    (Step::Grant(3, 3), Answer::Right(Grant::Granted(5))),
    (Step::Grant(3, 4), Answer::Right(Grant::Granted(6))),
    (Step::AskBack(3), Answer::Number(1)),
    (Step::AskBack(4), Answer::Number(2)),
    (Step::Unacked(3), Answer::Count(2)),
];

// So many clients are granted a name.
fn grant_to_all(rights: &mut Rights, name: &Name, clients: u64) -> Result<(), Fail> {
    for client in 1..=clients {
        rights.grant(client, name)?;
    }
    Ok(())
}

// 1,048,575 rights: of 1,023 clients on 1,025 names.
fn almost_fill(rights: &mut Rights, alloc: Global) -> Result<(), Fail> {
    for number in 1..=1_025 {
        grant_to_all(rights, &name(alloc, number)?, 1_023)?;
    }
    Ok(())
}

// A new right is one too many; one that is held stays known, and one that ends makes room.
const FULL: &[(Step, Answer)] = &[
    (
        Step::Grant(1_024, 1),
        Answer::Right(Grant::Granted(1_048_576)),
    ),
    (Step::Grant(1_024, 2), Answer::Right(Grant::Full)),
    (Step::Grant(1, 1_026), Answer::Right(Grant::Full)),
    (Step::Grant(1, 1), Answer::Right(Grant::Already(1))),
    (
        Step::Grant(1_023, 1_025),
        Answer::Right(Grant::Already(1_048_575)),
    ),
    (
        Step::Grant(1_024, 1),
        Answer::Right(Grant::Already(1_048_576)),
    ),
    (Step::Expire(1_024), Answer::Count(1)),
    (
        Step::Grant(1_024, 2),
        Answer::Right(Grant::Granted(1_048_577)),
    ),
    (Step::Grant(1_024, 1), Answer::Right(Grant::Full)),
    (Step::Totals, Answer::Totals([1_048_577, 1_048_576, 0, 1])),
];

#[test]
fn the_1048577th_held_right_is_refused(rt: HostRuntime) -> Result<(), Fail> {
    let mut rights = Rights::new(rt.alloc());
    let done = match almost_fill(&mut rights, rt.alloc()) {
        Ok(()) => runs(&rt, &mut rights, rt.alloc(), FULL),
        Err(fail) => Err(fail),
    };
    drop(rights);
    done
}

#[test]
fn rights_step_by_step(rt: HostRuntime) -> Result<(), Fail> {
    let mut rights = Rights::new(rt.alloc());
    let done = runs(&rt, &mut rights, rt.alloc(), STEPS);
    drop(rights);
    done
}

/// A step on the changes that wait, or on the rights.
#[derive(Clone, Copy)]
enum Turn {
    /// A client is granted a name.
    Grant(u64, u64),
    /// A change of a name comes, and gets this number.
    Push(u64),
    /// Whether a client's answer on a name may be kept in its cache.
    Cachable(u64, u64),
    Ready,
    /// Whether the change of this number waits; it is taken out.
    Take(u64),
    /// A client's session expires, and some right ends.
    Expire(u64),
}

#[derive(Clone, Copy, PartialEq)]
enum Told {
    Number(Option<u64>),
    Is(bool),
}

fn push(gate: &mut Gate<u64>, alloc: Global, number: u64) -> Result<u64, Fail> {
    let mut touched = Items::new(alloc);
    touched.push(name(alloc, number)?)?;
    Ok(gate.push(Pending { touched, body: 0 })?)
}

fn number_of(grant: Grant) -> Option<u64> {
    match grant {
        Grant::Granted(number) => Some(number),
        _ => None,
    }
}

fn turns(
    gate: &mut Gate<u64>,
    rights: &mut Rights,
    alloc: Global,
    turn: Turn,
) -> Result<Told, Fail> {
    Ok(match turn {
        Turn::Grant(client, number) => {
            Told::Number(number_of(rights.grant(client, &name(alloc, number)?)?))
        }
        Turn::Push(number) => Told::Number(Some(push(gate, alloc, number)?)),
        Turn::Cachable(client, number) => {
            Told::Is(gate.cachable(rights, client, &name(alloc, number)?))
        }
        Turn::Ready => Told::Number(gate.ready(rights)),
        Turn::Take(number) => Told::Is(gate.take(number).is_some()),
        Turn::Expire(client) => Told::Is(rights.expire(client)?.len() > 0),
    })
}

fn turn_all(
    rt: &impl Abort,
    gate: &mut Gate<u64>,
    rights: &mut Rights,
    alloc: Global,
) -> Result<(), Fail> {
    for (index, (turn, want)) in TURNS.iter().enumerate() {
        assert!(rt; turns(gate, rights, alloc, *turn)? == *want, "turn {index}");
    }
    Ok(())
}

const TURNS: &[(Turn, Told)] = &[
    // The first right is granted.
    (Turn::Grant(1, 1), Told::Number(Some(1))),
    (Turn::Ready, Told::Number(None)),
    (Turn::Cachable(1, 1), Told::Is(true)),
    (Turn::Cachable(2, 1), Told::Is(true)),
    (Turn::Push(1), Told::Number(Some(1))),
    (Turn::Cachable(1, 1), Told::Is(false)),
    (Turn::Cachable(2, 1), Told::Is(false)),
    (Turn::Cachable(2, 2), Told::Is(true)),
    (Turn::Ready, Told::Number(None)),
    (Turn::Push(2), Told::Number(Some(2))),
    (Turn::Push(2), Told::Number(Some(3))),
    (Turn::Ready, Told::Number(Some(2))),
    (Turn::Take(2), Told::Is(true)),
    (Turn::Take(2), Told::Is(false)),
    (Turn::Cachable(2, 2), Told::Is(false)),
    (Turn::Ready, Told::Number(Some(3))),
    (Turn::Expire(1), Told::Is(true)),
    (Turn::Ready, Told::Number(Some(1))),
    (Turn::Take(1), Told::Is(true)),
    (Turn::Cachable(2, 1), Told::Is(true)),
    (Turn::Ready, Told::Number(Some(3))),
];

#[test]
fn changes_wait_for_rights(rt: HostRuntime) -> Result<(), Fail> {
    let mut gate = Gate::new(rt.alloc());
    let mut rights = Rights::new(rt.alloc());
    let done = turn_all(&rt, &mut gate, &mut rights, rt.alloc());
    drop(rights);
    drop(gate);
    done
}

// 4,096 wait, and one more is refused; one that is taken out makes room.
fn fill(gate: &mut Gate<u64>, alloc: Global) -> Result<bool, Fail> {
    for number in 0..4_096 {
        push(gate, alloc, number)?;
    }
    let touched = Items::new(alloc);
    let is_busy = gate.push(Pending { touched, body: 0 }) == Err(Fault::Busy);
    let is_taken = gate.take(7).is_some();
    Ok(is_busy && is_taken && push(gate, alloc, 1)? == 4_097)
}

#[test]
fn the_4097th_change_is_busy(rt: HostRuntime) -> Result<(), Fail> {
    let mut gate = Gate::new(rt.alloc());
    let is_so = fill(&mut gate, rt.alloc());
    drop(gate);
    assert!(rt; is_so?);
    Ok(())
}
