//! The thread of a client.
use crate::letters::{Letter, Letters};
use crate::players::{FILE, Player};
use crate::turns::AnswerHook;
use crate::viewers::view;
use names_cell::Name;
use node_core::Fault;
use over_core::Swept;
use rows_cell::Records;
use std::alloc::Global;
use std::sync::Wait;
use std::sync::atomic::{AtomicU64, Ordering};
use std::sync::ledger::Ledger;
use std::thread::{Threads, join};
use tags_cell::{Out, Request};
use watch_cell::{Opening, Pass, Watch, WatchEvent};

/// A client's threads, until all clients have finished or one was refused: then all end.
pub(crate) fn client<
    R: Records,
    O: Opening,
    I: Ledger,
    A: Ledger,
    E: Ledger,
    C: Ledger,
    W: Threads + Wait + Sync,
    T: AnswerHook,
>(
    rt: &W,
    alloc: Global,
    watch: &Watch<R, O, I, A, E, C>,
    pass: &mut Pass<I, A, E, C>,
    letters: &Letters,
    rounds: u64,
    turn: &T,
) -> Result<(), Fault> {
    let played = share(rt, alloc, watch, pass, letters, rounds, turn);
    if played.is_err() {
        letters.end(rt);
    }
    played
}

// The client in this thread, and what reads its cache in another. Where no other can be made, that reads once the client is done.
fn share<
    R: Records,
    O: Opening,
    I: Ledger,
    A: Ledger,
    E: Ledger,
    C: Ledger,
    W: Threads + Wait + Sync,
    T: AnswerHook,
>(
    rt: &W,
    alloc: Global,
    watch: &Watch<R, O, I, A, E, C>,
    pass: &mut Pass<I, A, E, C>,
    letters: &Letters,
    rounds: u64,
    turn: &T,
) -> Result<(), Fault> {
    let name = Name::parse(alloc, FILE)?;
    let (mut player, mut viewers) = Player::new(rt, alloc, pass.number(), rounds)?;
    let finished = AtomicU64::new(0);
    let seats = viewers.as_mut_slice();
    let ((), played) = join(
        rt,
        || view(rt, &name, &finished, seats),
        || {
            let played = play(rt, watch, pass, letters, &mut player, &finished, turn);
            finished.store(1, Ordering::SeqCst);
            played
        },
    );
    player.close(rt);
    played
}

fn play<R: Records, O: Opening, I: Ledger, A: Ledger, E: Ledger, C: Ledger, W: Wait, T: AnswerHook>(
    rt: &W,
    watch: &Watch<R, O, I, A, E, C>,
    pass: &mut Pass<I, A, E, C>,
    letters: &Letters,
    player: &mut Player,
    finished: &AtomicU64,
    turn: &T,
) -> Result<(), Fault> {
    let start = player.beat(rt)?;
    deliver(rt, watch, pass, letters, turn, start)?;
    for _ in rt.forever() {
        let Letter::Out(out) = letters.next(rt, pass.number()) else {
            return Ok(());
        };
        let beat = player.hear(rt, &out);
        drop(out);
        deliver(rt, watch, pass, letters, turn, beat?)?;
        let call = player.play(rt)?;
        deliver(rt, watch, pass, letters, turn, call)?;
        if player.finishes() {
            finished.store(1, Ordering::SeqCst);
            letters.finish(rt);
        }
    }
    unreachable!()
}

// Takes a message, and sweeps until the master is quiet.
fn deliver<
    R: Records,
    O: Opening,
    I: Ledger,
    A: Ledger,
    E: Ledger,
    C: Ledger,
    W: Wait,
    T: AnswerHook,
>(
    rt: &W,
    watch: &Watch<R, O, I, A, E, C>,
    pass: &mut Pass<I, A, E, C>,
    letters: &Letters,
    turn: &T,
    request: Option<Request>,
) -> Result<(), Fault> {
    let Some(request) = request else {
        return Ok(());
    };
    call(rt, watch, pass, letters, turn, WatchEvent::Take(0, request))?;
    for _ in rt.forever() {
        if call(rt, watch, pass, letters, turn, WatchEvent::Sweep(0))? {
            return Ok(());
        }
    }
    unreachable!()
}

// One call of the master, whose messages go to their clients. Whether it found nothing to do.
fn call<R: Records, O: Opening, I: Ledger, A: Ledger, E: Ledger, C: Ledger, W: Wait, T: AnswerHook>(
    rt: &W,
    watch: &Watch<R, O, I, A, E, C>,
    pass: &mut Pass<I, A, E, C>,
    letters: &Letters,
    turn: &T,
    event: WatchEvent,
) -> Result<bool, Fault> {
    let receipt = watch.call(rt, pass, event)?;
    turn.answered(pass.number());
    send_on(rt, letters, receipt.reply())
}

fn send_on<W: Wait>(rt: &W, letters: &Letters, reply: &Swept) -> Result<bool, Fault> {
    for out in reply.outs.as_slice() {
        letters.send(rt, out.clone()?);
    }
    Ok(reply.quiet)
}
