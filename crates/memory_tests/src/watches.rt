//! A client and a watch over a cell, from its opening to its close, each call refused memory until it is done.
ghost use Rattle.std.specs.Prelude.{◌≡◌, [], IfOk};
ghost use Rattle.watch_cell.specs.Views.{watched};

use crate::cells::{settings_of, text_of_records};
use crate::hoard::{Hoard, TURN_END};
use crate::rows::CALLS;
use crate::seats::Seat;
use crate::stops::Stop;
use crate::texts::{half_of, steps_of, write_lines};
use crate::told::Told;
use collections::Items;
use node_core::{Fault, Line};
use over_core::Cell;
use rows_cell::ListRecords;
use std::alloc::Global;
use std::marker::Brand;
use std::mem;
use std::sync::Wait;
use std::sync::ledger::Ledger;
use tags_cell::Request;
use threads::{give_up, new_cell};
use watch_cell::{Blanks, Closed, Opening, Pass, Receipt, Watch, WatchEvent};
use world_steps::Step;

// A pass that takes messages, and one that sweeps.
const SEATS: u64 = 2;

// What a step asks the master for.
fn event_of(seat: &Seat, step: &Step) -> Result<WatchEvent, Fault> {
    match step {
        Step::Take(number) => Ok(WatchEvent::Take(0, seat.request(*number)?)),
        Step::Sweep => Ok(WatchEvent::Sweep(0)),
        _ => Err(Fault::Unknown),
    }
}

// Tries a call until it isn't refused memory.
fn called<O: Opening, I: Ledger, A: Ledger, E: Ledger, C: Ledger, W: Wait>(
    rt: &W,
    hoard: &mut Hoard,
    watch: &Watch<ListRecords, O, I, A, E, C>,
    pass: &mut Pass<I, A, E, C>,
    seat: &Seat,
    step: &Step,
) -> Result<Receipt, Stop> {
    for turn in 0..TURN_END {
        let event = event_of(seat, step)?;
        hoard.leave(turn);
        let told = watch.call(rt, pass, event);
        hoard.relax();
        match told {
            Ok(receipt) => return Ok(receipt),
            Err(Fault::NoMemory) => {}
            Err(fault) => return Err(Stop::Refused(fault)),
        }
    }
    Err(Stop::Refused(Fault::NoMemory))
}

// Does a step of the master's, and writes its lines.
fn serve<O: Opening, I: Ledger, A: Ledger, E: Ledger, C: Ledger, W: Wait>(
    rt: &W,
    hoard: &mut Hoard,
    watch: &Watch<ListRecords, O, I, A, E, C>,
    pass: Option<&mut Pass<I, A, E, C>>,
    seat: &mut Seat,
    step: &Step,
    text: &mut String,
) -> Result<(), Stop> {
    let Some(pass) = pass else {
        return Err(Stop::Apart("there is no pass"));
    };
    let receipt = called(rt, hoard, watch, pass, seat, step)?;
    let posted = seat.post(&receipt.reply().outs);
    let written = write_lines(text, &receipt.reply().lines);
    drop(receipt);
    posted?;
    Ok(written?)
}

// Tries a step of the client's until it isn't refused memory. After each refusal the message goes out again that a late keeper lends.
fn try_step<O: Opening, I: Ledger, A: Ledger, E: Ledger, C: Ledger, W: Wait>(
    rt: &W,
    hoard: &mut Hoard,
    watch: &Watch<ListRecords, O, I, A, E, C>,
    passes: &mut [Pass<I, A, E, C>],
    seat: &mut Seat,
    step: &Step,
    text: &mut String,
) -> Result<(), Stop> {
    for turn in 0..TURN_END {
        if seat.plays(rt, hoard, turn, step, text)? {
            return Ok(());
        }
        send_late(rt, hoard, watch, passes, seat)?;
    }
    Err(Stop::Refused(Fault::NoMemory))
}

// A session that ends by it may have no viewer that still sees the file.
fn send_late<O: Opening, I: Ledger, A: Ledger, E: Ledger, C: Ledger, W: Wait>(
    rt: &W,
    hoard: &mut Hoard,
    watch: &Watch<ListRecords, O, I, A, E, C>,
    passes: &mut [Pass<I, A, E, C>],
    seat: &mut Seat,
) -> Result<(), Stop> {
    let Some(request) = seat.lent_late()? else {
        return Ok(());
    };
    if !ends_session(rt, watch, passes, request)? {
        return Ok(());
    }
    if seat.sees_something(hoard)? {
        return Err(Stop::Apart("a session has ended, and its viewer sees the file"));
    }
    Ok(())
}

// The master takes a message, and sweeps. Whether a session ended by that.
fn ends_session<O: Opening, I: Ledger, A: Ledger, E: Ledger, C: Ledger, W: Wait>(
    rt: &W,
    watch: &Watch<ListRecords, O, I, A, E, C>,
    passes: &mut [Pass<I, A, E, C>],
    request: Request,
) -> Result<bool, Stop> {
    let Some(pass) = passes.first_mut() else {
        return Err(Stop::Apart("there is no pass"));
    };
    drop(watch.call(rt, pass, WatchEvent::Take(0, request))?);
    let receipt = watch.call(rt, pass, WatchEvent::Sweep(0))?;
    let ends = has_end(&receipt.reply().lines);
    drop(receipt);
    Ok(ends)
}

fn has_end(lines: &Items<Line>) -> bool {
    for line in lines.as_slice() {
        if matches!(line, Line::Ended(_)) {
            return true;
        }
    }
    false
}

fn play<O: Opening, I: Ledger, A: Ledger, E: Ledger, C: Ledger, W: Wait>(
    rt: &W,
    hoard: &mut Hoard,
    watch: &Watch<ListRecords, O, I, A, E, C>,
    passes: &mut [Pass<I, A, E, C>],
    seat: &mut Seat,
    steps: &[Step],
    text: &mut String,
) -> Result<(), Stop> {
    seat.write_seen(hoard, text)?;
    for step in steps {
        match step {
            Step::Take(_) => serve(rt, hoard, watch, passes.first_mut(), seat, step, text)?,
            Step::Sweep => serve(rt, hoard, watch, passes.last_mut(), seat, step, text)?,
            _ => try_step(rt, hoard, watch, passes, seat, step, text)?,
        }
    }
    Ok(())
}

// Does the steps with a new client, and writes how many calls were refused.
fn play_with_client<O: Opening, I: Ledger, A: Ledger, E: Ledger, C: Ledger, W: Wait>(
    rt: &W,
    alloc: Global,
    hoard: &mut Hoard,
    watch: &Watch<ListRecords, O, I, A, E, C>,
    passes: &mut [Pass<I, A, E, C>],
    steps: &[Step],
    told: &mut Told,
) -> Result<(), Stop> {
    let mut seat = Seat::new(rt, alloc)?;
    let text = &mut told.text;
    let played = play(rt, hoard, watch, passes, &mut seat, steps, text);
    let late = seat.late;
    drop(mem::replace(&mut told.sent, seat.close(rt)));
    played?;
    hoard.write_refused(&mut told.text, "calls", half_of(steps))?;
    Ok(hoard.write_count(&mut told.text, "publications", late, 1)?)
}

// The lines, and what the watch holds at its close.
fn run_with<O: Opening, I: Ledger, A: Ledger, E: Ledger, C: Ledger, W: Wait>(
    rt: &W,
    alloc: Global,
    hoard: &mut Hoard,
    cell: Cell<ListRecords>,
    blanks: Blanks,
    steps: &[Step],
    told: &mut Told,
) -> Result<(), Stop>
    requires cell { (watched cell ≡ O.opening) × (cell.master.rights ≡ []) }
    requires seats { O.seats ≡ 2 }
    requires issued { (blanks.issued.name ≡ I.name) × (blanks.issued.parts ≡ I.parts) × (I.parts ≡ 2) }
    requires acknowledged { (blanks.acknowledged.name ≡ A.name) × (blanks.acknowledged.parts ≡ A.parts) × (A.parts ≡ 2) }
    requires expired { (blanks.expired.name ≡ E.name) × (blanks.expired.parts ≡ E.parts) × (E.parts ≡ 2) }
    requires calls { (blanks.calls.name ≡ C.name) × (blanks.calls.parts ≡ C.parts) × (C.parts ≡ 2) }
{
    let (watch, mut passes) = match Watch::<ListRecords, O, I, A, E, C>::open(
        alloc, cell, SEATS, blanks,
    ) {
        Ok(opened) => opened,
        Err(refused) => {
            drop(refused);
            return Err(Stop::Refused(Fault::NoMemory));
        }
    };
    let played = play_with_client(rt, alloc, hoard, &watch, passes.as_mut_slice(), steps, told);
    let ended = end(rt, alloc, hoard, watch, passes, &mut told.text);
    played?;
    ended
}

// The second pass is retired, and the watch closed with the first.
fn end<O: Opening, I: Ledger, A: Ledger, E: Ledger, C: Ledger, W: Wait>(
    rt: &W,
    alloc: Global,
    hoard: &mut Hoard,
    watch: Watch<ListRecords, O, I, A, E, C>,
    mut passes: Vec<Pass<I, A, E, C>>,
    text: &mut String,
) -> Result<(), Stop> {
    if let Some(pass) = passes.pop() {
        retire(rt, hoard, &watch, pass);
    }
    let written = match close(rt, hoard, watch, passes) {
        Ok(closed) => write_closed(alloc, closed, text),
        Err(fault) => Err(Stop::Refused(fault)),
    };
    written?;
    Ok(hoard.write_refused(text, "ends", 2)?)
}

// Tries to retire a pass until it isn't refused memory.
fn retire<O: Opening, I: Ledger, A: Ledger, E: Ledger, C: Ledger, W: Wait>(
    rt: &W,
    hoard: &mut Hoard,
    watch: &Watch<ListRecords, O, I, A, E, C>,
    pass: Pass<I, A, E, C>,
) {
    let mut left = pass;
    let mut turn = 0u64;
    for _ in rt.forever() {
        hoard.leave(turn);
        let told = watch.retire(rt, left);
        hoard.relax();
        match told {
            Ok(()) => return,
            Err((_, back)) => left = back,
        }
        turn = turn.saturating_add(1);
    }
    unreachable!()
}

// Tries to close a watch until it isn't refused memory.
fn close<O: Opening, I: Ledger, A: Ledger, E: Ledger, C: Ledger, W: Wait>(
    rt: &W,
    hoard: &mut Hoard,
    watch: Watch<ListRecords, O, I, A, E, C>,
    passes: Vec<Pass<I, A, E, C>>,
) -> Result<Closed<ListRecords>, Fault> {
    let mut left = (watch, passes);
    let mut turn = 0u64;
    for _ in rt.forever() {
        let (watch, passes) = left;
        hoard.leave(turn);
        let told = watch.close(passes);
        hoard.relax();
        match told {
            Ok(closed) => return Ok(closed),
            Err((Fault::NoMemory, locked, passes)) => left = (Watch::over(locked), passes),
            Err((fault, locked, passes)) => {
                give_up(rt, Watch::over(locked), passes);
                return Err(fault);
            }
        }
        turn = turn.saturating_add(1);
    }
    unreachable!()
}

fn write_closed(alloc: Global, closed: Closed<ListRecords>, text: &mut String) -> Result<(), Stop> {
    let entries = closed.trail().len();
    let totals = closed.totals();
    let mut records = closed.into_cell().down();
    let rows = text_of_records(alloc, &mut records);
    drop(records);
    let rows = rows?;
    let (issued, held, acknowledged) = (totals.issued, totals.held, totals.acknowledged);
    write!(
        text,
        "entries {entries} rights {issued} held {held} acknowledged {acknowledged}\n{rows}"
    )?;
    Ok(())
}

fn first_cell(alloc: Global) -> Result<Cell<ListRecords>, Stop>
    ensures { IfOk result (λ cell. cell.master.rights ≡ []) }
{
    let settings = settings_of(alloc, 12_000)?;
    Ok(new_cell(alloc, &settings)?)
}

/// Runs the calls of a client and of a watch.
pub(crate) fn run_calls<W: Wait>(
    rt: &W,
    alloc: Global,
    hoard: &mut Hoard,
    told: &mut Told,
) -> Result<(), Stop> {
    write!(told.text, "calls\n")?;
    let steps = steps_of(alloc, CALLS)?;
    let cell = first_cell(alloc)?;
    run_cell(rt, alloc, hoard, cell, steps.as_slice(), told)
}

fn run_cell<W: Wait>(
    rt: &W,
    alloc: Global,
    hoard: &mut Hoard,
    cell: Cell<ListRecords>,
    steps: &[Step],
    told: &mut Told,
) -> Result<(), Stop>
    requires { cell.master.rights ≡ [] }
{
    run_with::<Brand, Brand, Brand, Brand, Brand, W>(
        rt,
        alloc,
        hoard,
        cell,
        Blanks::new(SEATS),
        steps,
        told,
    )
}
