//! A master that threads share.
ghost use Rattle.std.specs.Prelude.{◌≡◌, ◌++◌, [], IfOk, IfErr, OnOk, OnErr};
ghost use Rattle.watch_cell.specs.Trail.{Calls, IsCallRefused, Retires};
ghost use Rattle.watch_cell.specs.Views.{watched, fresh_hands};
ghost use Rattle.watch_cell.specs.Closing.{Settled, Refuses};

use crate::events::WatchEvent;
use crate::ledgers::Blanks;
use crate::locked::{Closed, Locked, Opening, Pass, Receipt, open_locked, serve};
use node_core::Fault;
use over_core::Cell;
use rows_cell::Records;
use std::alloc::{AllocError, Global};
use std::sync::ledger::Ledger;
use std::sync::{Mutex, Wait};

/// A cell that threads share.
#[derive(Drop)]
pub struct Watch<R: Records, O: Opening, I: Ledger, A: Ledger, E: Ledger, C: Ledger> {
    locked: Mutex<Locked<R, O, I, A, E, C>>,
}

impl<R: Records, O: Opening, I: Ledger, A: Ledger, E: Ledger, C: Ledger> Watch<R, O, I, A, E, C> {
    /// A watch over a cell, and its passes.
    pub fn open(
        alloc: Global,
        cell: Cell<R>,
        seats: u64,
        blanks: Blanks,
    ) -> Result<(Self, Vec<Pass<I, A, E, C>>), (AllocError, Cell<R>, Blanks)>
        requires cell { (watched cell ≡ O.opening) × (cell.master.rights ≡ []) }
        requires seats { seats ≡ O.seats }
        requires issued { (blanks.issued.name ≡ I.name) × (blanks.issued.parts ≡ I.parts) × (I.parts ≡ seats) }
        requires acknowledged { (blanks.acknowledged.name ≡ A.name) × (blanks.acknowledged.parts ≡ A.parts) × (A.parts ≡ seats) }
        requires expired { (blanks.expired.name ≡ E.name) × (blanks.expired.parts ≡ E.parts) × (E.parts ≡ seats) }
        requires calls { (blanks.calls.name ≡ C.name) × (blanks.calls.parts ≡ C.parts) × (C.parts ≡ seats) }
        ensures passes { IfOk result (λ r. r.1.items ≡ fresh_hands seats) }
        ensures err { IfErr result (λ e. (e.1 ≡ cell) × (e.2 ≡ blanks)) }
    {
        let (locked, passes) = open_locked(alloc, cell, seats, blanks)?;
        let watch = Watch {
            locked: Mutex::new(locked),
        };
        Ok((watch, passes))
    }

    /// Keeps a pass that makes no more calls. Refused for want of memory alone.
    pub fn retire<W: Wait>(
        &self,
        rt: &W,
        pass: Pass<I, A, E, C>,
    ) -> Result<(), (AllocError, Pass<I, A, E, C>)>
        ensures ok { OnOk result (Retires O.opening pass) }
        ensures err { IfErr result (λ e. e.1 ≡ pass) }
    {
        let mut locked = self.locked.lock(rt);
        take_in(&mut *locked, pass)
    }

    /// One call of a thread. It takes the lock once, and does what `serve` does to what lies there.
    pub fn call<W: Wait>(
        &self,
        rt: &W,
        pass: &mut Pass<I, A, E, C>,
        event: WatchEvent,
    ) -> Result<Receipt, Fault>
        ensures ok { IfOk result (λ t. Calls O.opening pass.old pass.new event t) }
        ensures err { OnErr result (pass.new ≡ pass.old) }
        ensures refusal { IfErr result (λ e. IsCallRefused O.opening event e) }
    {
        let mut locked = self.locked.lock(rt);
        serve_one(&mut *locked, pass, event)
    }

    /// The watch with all that lay under its lock, once all passes are there: `Locked::settle`. Else what lies there comes
    /// back with the passes, and `over` makes a watch of it again.
    pub fn close(
        self,
        passes: Vec<Pass<I, A, E, C>>,
    ) -> Result<Closed<R>, (Fault, Locked<R, O, I, A, E, C>, Vec<Pass<I, A, E, C>>)>
        ensures ok { IfOk result (λ c. Settled O.opening O.seats (c.retired ++ c.handed) (watched c.cell) c.trail c.totals) }
        ensures handed { IfOk result (λ c. c.handed ≡ passes.items) }
        ensures passes { IfErr result (λ e. e.2 ≡ passes) }
        ensures refusal { IfErr result (λ e. Refuses (e.1.retired ++ passes.items) e.1.trail O.seats e.0) }
    {
        let Watch { locked } = self;
        locked.into_inner().settle(passes)
    }

    /// A watch over what lay under a lock.
    pub fn over(locked: Locked<R, O, I, A, E, C>) -> Self {
        Watch {
            locked: Mutex::new(locked),
        }
    }
}

// What lies under a lock takes in a pass: it keeps to the opening before and after that.
fn take_in<R: Records, O: Opening, I: Ledger, A: Ledger, E: Ledger, C: Ledger>(
    locked: &mut Locked<R, O, I, A, E, C>,
    pass: Pass<I, A, E, C>,
) -> Result<(), (AllocError, Pass<I, A, E, C>)>
    ensures ok { OnOk result (Retires O.opening pass) }
    ensures err { IfErr result (λ e. e.1 ≡ pass) }
{
    locked.kept();
    let taken = locked.take_in(pass);
    locked.kept();
    taken
}

// The same of a call.
fn serve_one<R: Records, O: Opening, I: Ledger, A: Ledger, E: Ledger, C: Ledger>(
    locked: &mut Locked<R, O, I, A, E, C>,
    pass: &mut Pass<I, A, E, C>,
    event: WatchEvent,
) -> Result<Receipt, Fault>
    ensures ok { IfOk result (λ t. Calls O.opening pass.old pass.new event t) }
    ensures err { OnErr result (pass.new ≡ pass.old) }
    ensures refusal { IfErr result (λ e. IsCallRefused O.opening event e) }
{
    locked.kept();
    let served = serve(locked, pass, event);
    locked.kept();
    served
}
