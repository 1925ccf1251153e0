//! A run of clients over list rows, and the line that it prints.
ghost use Rattle.std.specs.Prelude.{◌≡◌, ◌↔◌, ◌⊎◌, false, [], IfOk};
ghost use Rattle.threads.specs.Bounds.{is_within, IsStatus};

use crate::bounds::is_within;
use crate::runs::run_clients;
use crate::turns::AnswerHook;
use node_core::Fault;
use over_core::Cell;
use rights_core::Totals;
use rows_cell::{ListRecords, Settings};
use std::alloc::Global;
use std::io::Write;
use std::sync::Wait;
use std::thread::Threads;

/// So many clients, each in a thread of its own, use the master of a new cell in lists for so many rounds. Writes one line, and
/// answers the exit status: 0 where all went well, 2 out of the bounds, after which nothing is done, and 5 where something
/// was refused, which the line tells.
pub fn live_with<W: Threads + Wait + Sync, T: AnswerHook + Sync>(
    rt: &W,
    alloc: Global,
    clients: u64,
    rounds: u64,
    turn: &T,
    writer: &mut impl Write,
) -> u8
    ensures bounds { (result ≡ 2) ↔ (is_within clients rounds ≡ false) }
    ensures status { IsStatus result }
{
    if !is_within(clients, rounds) {
        return 2;
    }
    match totals(rt, alloc, clients, rounds, turn) {
        Ok(totals) => write_balanced(writer, clients, rounds, &totals),
        Err(fault) => write_refused(writer, fault),
    }
}

fn write_balanced(writer: &mut impl Write, clients: u64, rounds: u64, totals: &Totals) -> u8
    ensures { (result ≡ 0) ⊎ (result ≡ 5) }
{
    let held = totals.held;
    match writeln!(
        writer,
        "balanced clients {clients} rounds {rounds} held {held}"
    ) {
        Ok(()) => 0,
        Err(_) => 5,
    }
}

fn write_refused(writer: &mut impl Write, fault: Fault) -> u8
    ensures { result ≡ 5 }
{
    let _ = writeln!(writer, "refused {fault}");
    5
}

// What became of the rights that such a run granted.
fn totals<W: Threads + Wait + Sync, T: AnswerHook + Sync>(
    rt: &W,
    alloc: Global,
    clients: u64,
    rounds: u64,
    turn: &T,
) -> Result<Totals, Fault> {
    let settings = Settings::standard(alloc).map_err(|_| Fault::NoMemory)?;
    let lease = settings.lease();
    let cell = new_cell(alloc, &settings)?;
    let closed = run_clients(rt, alloc, cell, clients, rounds, lease, turn)?;
    let totals = closed.totals();
    drop(closed);
    Ok(totals)
}

/// A first master over new rows in lists, at the moment 0: it has granted no right yet.
pub fn new_cell(alloc: Global, settings: &Settings) -> Result<Cell<ListRecords>, Fault>
    ensures { IfOk result (λ cell. cell.master.rights ≡ []) }
{
    let records = ListRecords::new(alloc, settings)?;
    match Cell::up(alloc, records, settings.terms(), 0) {
        Ok(cell) => Ok(cell),
        Err((fault, records)) => {
            drop(records);
            Err(fault)
        }
    }
}
