//! A run of clients, from the opening of its watch to the close.
ghost use Rattle.std.specs.Prelude.{◌≡◌, ◌++◌, [], IfOk};
ghost use Rattle.std.specs.Thread.{IsSync};
ghost use Rattle.watch_cell.specs.Closing.{Settled};
ghost use Rattle.watch_cell.specs.Views.{watched};

use crate::clients::client;
use crate::letters::Letters;
use crate::turns::AnswerHook;
use node_core::Fault;
use over_core::Cell;
use rows_cell::Records;
use std::alloc::Global;
use std::marker::Brand;
use std::sync::Wait;
use std::sync::ledger::Ledger;
use std::thread::{Threads, join};
use watch_cell::{Blanks, Closed, Opening, Pass, Watch, WatchEvent};

// A thread for each pass.
fn threads<
    R: Records + Send,
    O: Opening + Send + Sync,
    I: Ledger + Send + Sync,
    A: Ledger + Send + Sync,
    E: Ledger + Send + Sync,
    C: Ledger + Send + Sync,
    W: Threads + Wait + Sync,
    T: AnswerHook + Sync,
>(
    rt: &W,
    alloc: Global,
    watch: &Watch<R, O, I, A, E, C>,
    passes: &mut [Pass<I, A, E, C>],
    letters: &Letters,
    rounds: u64,
    turn: &T,
) -> Result<(), Fault> {
    let Some((first, rest)) = passes.split_first_mut() else {
        return Ok(());
    };
    let (one, others) = join(
        rt,
        ||
            requires { IsSync W.row }
        { client(rt, alloc, watch, first, letters, rounds, turn) },
        ||
            requires { IsSync W.row }
        { threads(rt, alloc, watch, rest, letters, rounds, turn) },
    );
    one.and(others)
}

// At a moment at which all sessions have ended.
fn expire<R: Records, O: Opening, I: Ledger, A: Ledger, E: Ledger, C: Ledger, W: Wait>(
    rt: &W,
    watch: &Watch<R, O, I, A, E, C>,
    passes: &mut [Pass<I, A, E, C>],
    now: u64,
) -> Result<(), Fault> {
    let Some(pass) = passes.first_mut() else {
        return Ok(());
    };
    for _ in rt.forever() {
        if watch.call(rt, pass, WatchEvent::Sweep(now))?.reply().quiet {
            return Ok(());
        }
    }
    unreachable!()
}

/// So many clients use a master at the moment 0, each in a thread of its own; then all sessions end at the moment `end`, and the
/// watch is closed.
pub fn run_clients<R: Records + Drop + Send, W: Threads + Wait + Sync, T: AnswerHook + Sync>(
    rt: &W,
    alloc: Global,
    cell: Cell<R>,
    clients: u64,
    rounds: u64,
    end: u64,
    turn: &T,
) -> Result<Closed<R>, Fault>
    requires { cell.master.rights ≡ [] }
    ensures { IfOk result (λ c. Settled (watched cell) clients (c.retired ++ c.handed) (watched c.cell) c.trail c.totals) }
{
    run_with::<R, Brand, Brand, Brand, Brand, Brand, W, T>(
        rt,
        alloc,
        cell,
        clients,
        rounds,
        end,
        Blanks::new(clients),
        turn,
    )
}

fn run_with<
    R: Records + Drop + Send,
    O: Opening + Send + Sync,
    I: Ledger + Send + Sync,
    A: Ledger + Send + Sync,
    E: Ledger + Send + Sync,
    C: Ledger + Send + Sync,
    W: Threads + Wait + Sync,
    T: AnswerHook + Sync,
>(
    rt: &W,
    alloc: Global,
    cell: Cell<R>,
    clients: u64,
    rounds: u64,
    end: u64,
    blanks: Blanks,
    turn: &T,
) -> Result<Closed<R>, Fault>
    requires cell { (watched cell ≡ O.opening) × (cell.master.rights ≡ []) }
    requires seats { clients ≡ O.seats }
    requires issued { (blanks.issued.name ≡ I.name) × (blanks.issued.parts ≡ I.parts) × (I.parts ≡ clients) }
    requires acknowledged { (blanks.acknowledged.name ≡ A.name) × (blanks.acknowledged.parts ≡ A.parts) × (A.parts ≡ clients) }
    requires expired { (blanks.expired.name ≡ E.name) × (blanks.expired.parts ≡ E.parts) × (E.parts ≡ clients) }
    requires calls { (blanks.calls.name ≡ C.name) × (blanks.calls.parts ≡ C.parts) × (C.parts ≡ clients) }
    ensures { IfOk result (λ c. Settled O.opening O.seats (c.retired ++ c.handed) (watched c.cell) c.trail c.totals) }
{
    let letters = Letters::new(alloc, clients)?;
    let (watch, mut passes) = match Watch::<R, O, I, A, E, C>::open(alloc, cell, clients, blanks) {
        Ok(opened) => opened,
        Err(refused) => {
            drop(refused);
            return Err(Fault::NoMemory);
        }
    };
    let played = play_all(
        rt,
        alloc,
        &watch,
        passes.as_mut_slice(),
        &letters,
        rounds,
        end,
        turn,
    );
    close(rt, watch, passes, played)
}

fn play_all<
    R: Records + Send,
    O: Opening + Send + Sync,
    I: Ledger + Send + Sync,
    A: Ledger + Send + Sync,
    E: Ledger + Send + Sync,
    C: Ledger + Send + Sync,
    W: Threads + Wait + Sync,
    T: AnswerHook + Sync,
>(
    rt: &W,
    alloc: Global,
    watch: &Watch<R, O, I, A, E, C>,
    passes: &mut [Pass<I, A, E, C>],
    letters: &Letters,
    rounds: u64,
    end: u64,
    turn: &T,
) -> Result<(), Fault> {
    threads(rt, alloc, watch, passes, letters, rounds, turn)?;
    expire(rt, watch, passes, end)
}

// Where the run was refused, that stands.
fn close<R: Records + Drop, O: Opening, I: Ledger, A: Ledger, E: Ledger, C: Ledger, W: Wait>(
    rt: &W,
    watch: Watch<R, O, I, A, E, C>,
    passes: Vec<Pass<I, A, E, C>>,
    played: Result<(), Fault>,
) -> Result<Closed<R>, Fault>
    ensures settled { IfOk result (λ c. Settled O.opening O.seats (c.retired ++ c.handed) (watched c.cell) c.trail c.totals) }
{
    if let Err(fault) = played {
        give_up(rt, watch, passes);
        return Err(fault);
    }
    match watch.close(passes) {
        Ok(closed) => Ok(closed),
        Err((fault, locked, passes)) => {
            give_up(rt, Watch::over(locked), passes);
            Err(fault)
        }
    }
}

/// Retires the passes of a watch that is let go: a pass has to be spent.
pub fn give_up<R: Records + Drop, O: Opening, I: Ledger, A: Ledger, E: Ledger, C: Ledger, W: Wait>(
    rt: &W,
    watch: Watch<R, O, I, A, E, C>,
    mut passes: Vec<Pass<I, A, E, C>>,
) {
    while let Some(pass) = passes.pop() {
        retire(rt, &watch, pass);
    }
    passes.destroy_empty();
}

/// Retires a pass, however often memory is refused.
pub fn retire<R: Records, O: Opening, I: Ledger, A: Ledger, E: Ledger, C: Ledger, W: Wait>(
    rt: &W,
    watch: &Watch<R, O, I, A, E, C>,
    pass: Pass<I, A, E, C>,
) {
    let mut left = pass;
    for _ in rt.forever() {
        match watch.retire(rt, left) {
            Ok(()) => return,
            Err((_, back)) => left = back,
        }
    }
    unreachable!()
}
