//! What lies under the lock of a watch, passes and receipts. Their fields are private to this file, in which `serve` alone
//! makes a receipt, adds to a pass's receipts, or changes the cell, the books or the trail.
ghost use Rattle.std.specs.Prelude.{◌≡◌, ◌≢◌, ◌<◌, ◌≤◌, ◌+◌, ◌↔◌, ◌++◌, ◌∷◌, [], ℕ, Ok, IfOk, IfErr, OnOk, OnErr, IsErrOf, length, count_by, vec_len, vec_capacity};
ghost use Rattle.node_core.specs.declared.refusals.Fault.TheVariants.{WatchFull};
ghost use Rattle.rights_core.specs.Grants.{Tells, is_granted_line, is_acked_line, is_expired_line};
ghost use Rattle.over_core.specs.Sweep.{swept_as};
ghost use Rattle.watch_cell.specs.Trail.{Kept, Lies, Served, StepRefuses, CallRefuses, hand_of, step_of};
ghost use Rattle.watch_cell.specs.Views.{Desk, watched, opened, fresh, fresh_hands};
ghost use Rattle.watch_cell.specs.Closing.{gathered, places, AllThere, SoundOf, Refuses, Settled};

use crate::closing::{lowest_flaw, lowest_missing};
use crate::events::{Entry, ThreeEvents, WatchEvent};
use crate::ledgers::{Blanks, Books, Shares};
use crate::steps::{count_acked, count_expired, count_granted, step_thrice};
use node_core::Fault;
use over_core::{Cell, Swept, SweptThrice};
use rights_core::Totals;
use rows_cell::Records;
use std::alloc::{AllocError, Global};
use std::marker::{Brand, Model, PhantomData};
use std::sync::ledger::Ledger;

/// The most entries of a trail.
const MOST: usize = 1_000_000;

/// The state in which a watch opens, and how many passes it has. Each call of a program picks them.
pub trait Opening {
    ghost use Rattle.watch_cell.specs.Views.{WatchedState};

    ghost opening: { WatchedState };

    ghost seats: { ℕ };
}

impl Opening for Brand {
    ghost use Rattle.watch_cell.specs.Views.{nowhere};

    ghost opening = { nowhere };

    ghost seats = { 0 };
}

/// What a call answers: the place in the trail, the event and the reply.
#[derive(Drop)]
pub struct Receipt {
    place: u64,
    event: WatchEvent,
    reply: Swept,
}

impl Model for Receipt {
    ghost use Rattle.watch_cell.specs.Views.{Ticket};

    ghost Value = { Ticket };

    ghost view = { λ r. record { place = r.place; event = r.event; reply = r.reply } };

    ghost use Rattle.std.specs.Prelude.{◌<◌};

    ghost invariant = { λ r. r.place < 1000000 };
}

impl Receipt {
    pub fn place(&self) -> u64
        ensures place { result ≡ self.now.place }
        ensures below { result < 1000000 }
    {
        self.place
    }

    pub fn event(&self) -> &WatchEvent
        ensures { result.now ≡ self.now.event }
    {
        &self.event
    }

    pub fn reply(&self) -> &Swept
        ensures { result.now ≡ self.now.reply }
    {
        &self.reply
    }
}

/// The right of one thread to call, with its shares and its receipts. It must be spent.
pub struct Pass<I: Ledger, A: Ledger, E: Ledger, C: Ledger> {
    number: u64,
    shares: Shares<I, A, E, C>,
    receipts: Vec<Receipt>,
}

impl<I: Ledger, A: Ledger, E: Ledger, C: Ledger> Model for Pass<I, A, E, C> {
    ghost use Rattle.std.specs.Prelude.{◌≡◌, length};
    ghost use Rattle.rights_core.specs.Grants.{is_granted_line, is_acked_line, is_expired_line};
    ghost use Rattle.watch_cell.specs.Trail.{told_in};
    ghost use Rattle.watch_cell.specs.Views.{Hand};

    ghost Value = { Hand };

    ghost view = { λ p. record { number = p.number; issued = p.shares.issued.amount; acknowledged = p.shares.acknowledged.amount; expired = p.shares.expired.amount; calls = p.shares.calls.amount; receipts = p.receipts.items } };

    ghost invariant = { λ p. (p.shares.issued.parts ≡ 1) × (p.shares.acknowledged.parts ≡ 1) × (p.shares.expired.parts ≡ 1) × (p.shares.calls.parts ≡ 1) × (p.shares.calls.amount ≡ length p.receipts.items)
        × (p.shares.issued.amount ≡ told_in is_granted_line p.receipts.items) × (p.shares.acknowledged.amount ≡ told_in is_acked_line p.receipts.items) × (p.shares.expired.amount ≡ told_in is_expired_line p.receipts.items) };
}

impl<I: Ledger, A: Ledger, E: Ledger, C: Ledger> Pass<I, A, E, C> {
    /// A pass without receipts, with one part of each share.
    fn first(alloc: Global, number: u64, rest: &mut Shares<I, A, E, C>) -> Self
        requires issued { (0 < rest.old.issued.parts) × (rest.old.issued.amount ≡ 0) }
        requires acknowledged { (0 < rest.old.acknowledged.parts) × (rest.old.acknowledged.amount ≡ 0) }
        requires expired { (0 < rest.old.expired.parts) × (rest.old.expired.amount ≡ 0) }
        requires calls { (0 < rest.old.calls.parts) × (rest.old.calls.amount ≡ 0) }
        ensures pass { result ≡ fresh number }
        ensures issued { (rest.new.issued.parts + 1 ≡ rest.old.issued.parts) × (rest.new.issued.amount ≡ 0) }
        ensures acknowledged { (rest.new.acknowledged.parts + 1 ≡ rest.old.acknowledged.parts) × (rest.new.acknowledged.amount ≡ 0) }
        ensures expired { (rest.new.expired.parts + 1 ≡ rest.old.expired.parts) × (rest.new.expired.amount ≡ 0) }
        ensures calls { (rest.new.calls.parts + 1 ≡ rest.old.calls.parts) × (rest.new.calls.amount ≡ 0) }
    {
        let shares = Shares {
            issued: rest.issued.split_off(1, 0),
            acknowledged: rest.acknowledged.split_off(1, 0),
            expired: rest.expired.split_off(1, 0),
            calls: rest.calls.split_off(1, 0),
        };
        Pass {
            number,
            shares,
            receipts: Vec::new(alloc),
        }
    }

    pub fn number(&self) -> u64
        ensures { result ≡ self.now.number }
    {
        self.number
    }

    pub fn receipts(&self) -> &[Receipt]
        ensures { result.now ≡ self.now.receipts }
    {
        self.receipts.as_slice()
    }
}

/// A pass that makes no more calls, of a watch that is closed: its number and its receipts.
#[derive(Drop)]
pub struct Spent {
    number: u64,
    receipts: Vec<Receipt>,
}

impl Model for Spent {
    ghost use Rattle.watch_cell.specs.Trail.{hand_of};
    ghost use Rattle.watch_cell.specs.Views.{Hand};

    ghost Value = { Hand };

    ghost view = { λ p. hand_of p.number p.receipts.items };
}

impl Spent {
    pub fn number(&self) -> u64
        ensures { result ≡ self.now.number }
    {
        self.number
    }

    pub fn receipts(&self) -> &[Receipt]
        ensures { result.now ≡ self.now.receipts }
    {
        self.receipts.as_slice()
    }
}

/// What lies under the lock.
pub struct Locked<R: Records, O: Opening, I: Ledger, A: Ledger, E: Ledger, C: Ledger> {
    alloc: Global,
    cell: Cell<R>,
    trail: Vec<Entry>,
    books: Books<I, A, E, C>,
    retired: Vec<Pass<I, A, E, C>>,
    rest: Shares<I, A, E, C>,
    seats: u64,
    opening: PhantomData<O>,
}

impl<R: Records, O: Opening, I: Ledger, A: Ledger, E: Ledger, C: Ledger> Model
    for Locked<R, O, I, A, E, C> {
    ghost use Rattle.watch_cell.specs.Views.{Desk, watched};
    ghost use Rattle.watch_cell.specs.Trail.{Kept};

    ghost Value = { Desk };

    ghost view = { λ l. record { cell = watched l.cell; refusals = l.cell.store.refusals; trail = l.trail.items; issued = l.books.issued.total; acknowledged = l.books.acknowledged.total; expired = l.books.expired.total; calls = l.books.calls.total; retired = l.retired.items } };

    ghost use Rattle.std.specs.Prelude.{◌≡◌};

    ghost invariant = { λ l. Kept O.opening (watched l.cell) l.trail.items l.books.issued.total l.books.acknowledged.total l.books.expired.total l.books.calls.total
        × (l.seats ≡ O.seats)
        × ((l.rest.issued.parts ≡ 0) × (l.rest.issued.amount ≡ 0))
        × ((l.rest.acknowledged.parts ≡ 0) × (l.rest.acknowledged.amount ≡ 0))
        × ((l.rest.expired.parts ≡ 0) × (l.rest.expired.amount ≡ 0))
        × ((l.rest.calls.parts ≡ 0) × (l.rest.calls.amount ≡ 0))
        × ((I.parts ≡ O.seats) × (A.parts ≡ O.seats) × (E.parts ≡ O.seats) × (C.parts ≡ O.seats)) };
}

impl<R: Records + Drop, O: Opening, I: Ledger, A: Ledger, E: Ledger, C: Ledger> Drop
    for Locked<R, O, I, A, E, C> {
    fn drop(self) {
        let Locked {
            alloc: _,
            cell: _,
            trail: _,
            books: _,
            mut retired,
            rest: _,
            seats: _,
            opening: _,
        } = self;
        while let Some(pass) = retired.pop() {
            let Pass {
                number: _,
                shares: _,
                receipts: _,
            } = pass;
        }
        retired.destroy_empty();
    }
}

impl<R: Records, O: Opening, I: Ledger, A: Ledger, E: Ledger, C: Ledger> Locked<R, O, I, A, E, C> {
    /// A cell with an empty trail.
    pub fn new(
        alloc: Global,
        cell: Cell<R>,
        seats: u64,
        books: Books<I, A, E, C>,
        rest: Shares<I, A, E, C>,
    ) -> Self
        requires cell { (watched cell ≡ O.opening) × (cell.master.rights ≡ []) }
        requires seats { (seats ≡ O.seats) × (I.parts ≡ O.seats) × (A.parts ≡ O.seats) × (E.parts ≡ O.seats) × (C.parts ≡ O.seats) }
        requires books { (books.issued.total ≡ 0) × (books.acknowledged.total ≡ 0) × (books.expired.total ≡ 0) × (books.calls.total ≡ 0) }
        requires parts { (rest.issued.parts ≡ 0) × (rest.acknowledged.parts ≡ 0) × (rest.expired.parts ≡ 0) × (rest.calls.parts ≡ 0) }
        requires amounts { (rest.issued.amount ≡ 0) × (rest.acknowledged.amount ≡ 0) × (rest.expired.amount ≡ 0) × (rest.calls.amount ≡ 0) }
        ensures { result ≡ opened cell }
    {
        Locked {
            alloc,
            cell,
            trail: Vec::new(alloc),
            books,
            retired: Vec::new(alloc),
            rest,
            seats,
            opening: PhantomData,
        }
    }

    /// What holds whenever the lock is free.
    pub fn kept(&self)
        ensures { Lies O.opening self.now }
    {
        let _cell = &self.cell;
    }

    /// Keeps a pass that makes no more calls.
    pub fn take_in(&mut self, pass: Pass<I, A, E, C>) -> Result<(), (AllocError, Pass<I, A, E, C>)>
        ensures ok { OnOk result (self.new ≡ record self.old { retired = self.old.retired ++ pass ∷ [] }) }
        ensures err { IfErr result (λ e. (self.new ≡ self.old) × (e.1 ≡ pass)) }
    {
        match self.retired.push(pass) {
            Ok(()) => Ok(()),
            Err(failed) => Err((AllocError, failed.value)),
        }
    }
}

/// A watch that is closed: its cell, its trail, its totals and its passes. `Locked::settle` alone makes one.
#[derive(Drop)]
pub struct Closed<R: Records> {
    cell: Cell<R>,
    trail: Vec<Entry>,
    totals: Totals,
    retired: Vec<Spent>,
    handed: Vec<Spent>,
}

impl<R: Records> Model for Closed<R> {
    ghost use Rattle.watch_cell.specs.Views.{ClosedState};

    ghost Value = { ClosedState };

    ghost view = { λ c. record { cell = c.cell; trail = c.trail.items; totals = c.totals; retired = c.retired.items; handed = c.handed.items } };
}

impl<R: Records> Closed<R> {
    pub fn trail(&self) -> &[Entry]
        ensures { result.now ≡ self.now.trail }
    {
        self.trail.as_slice()
    }

    /// How many rights the trail grants, and how many of them stand in each way.
    pub fn totals(&self) -> Totals
        ensures { result ≡ self.now.totals }
    {
        self.totals
    }

    /// The passes that had been retired, in that order.
    pub fn retired(&self) -> &[Spent]
        ensures { result.now ≡ self.now.retired }
    {
        self.retired.as_slice()
    }

    /// The passes that the close was handed.
    pub fn handed(&self) -> &[Spent]
        ensures { result.now ≡ self.now.handed }
    {
        self.handed.as_slice()
    }

    pub fn into_cell(self) -> Cell<R>
        ensures { result ≡ self.cell }
    {
        let Closed {
            cell,
            trail: _,
            totals: _,
            retired: _,
            handed: _,
        } = self;
        cell
    }
}

impl<R: Records, O: Opening, I: Ledger, A: Ledger, E: Ledger, C: Ledger> Locked<R, O, I, A, E, C> {
    // Tests the passes, retired ones included, against the trail.
    fn test(&self, passes: &[Pass<I, A, E, C>]) -> Result<(), Fault>
        ensures there { OnOk result (AllThere (self.now.retired ++ passes.now) O.seats) }
        ensures sound { OnOk result (SoundOf self.now.trail (places (self.now.retired ++ passes.now)) (self.now.retired ++ passes.now)) }
        ensures err { IfErr result (λ e. Refuses (self.now.retired ++ passes.now) self.now.trail O.seats e) }
    {
        let retired = self.retired.as_slice();
        if let Some(number) = lowest_missing(retired, passes, self.seats) {
            return Err(Fault::PassMissing(number));
        }
        match lowest_flaw(self.alloc, self.trail.as_slice(), retired, passes) {
            Err(AllocError) => Err(Fault::NoMemory),
            Ok(Some(place)) => Err(Fault::ReceiptApart(place + 1)),
            Ok(None) => Ok(()),
        }
    }

    // The same, with room for what is left of the passes.
    fn rooms(&self, passes: &[Pass<I, A, E, C>]) -> Result<(Vec<Spent>, Vec<Spent>), Fault>
        ensures there { OnOk result (AllThere (self.now.retired ++ passes.now) O.seats) }
        ensures sound { OnOk result (SoundOf self.now.trail (places (self.now.retired ++ passes.now)) (self.now.retired ++ passes.now)) }
        ensures retired { IfOk result (λ r. (r.0.items ≡ []) × (vec_len r.0 ≡ 0) × (length self.now.retired ≤ vec_capacity r.0)) }
        ensures handed { IfOk result (λ r. (r.1.items ≡ []) × (vec_len r.1 ≡ 0) × (length passes.now ≤ vec_capacity r.1)) }
        ensures err { IfErr result (λ e. Refuses (self.now.retired ++ passes.now) self.now.trail O.seats e) }
    {
        self.test(passes)?;
        let retired = Vec::with_capacity(self.alloc, self.retired.len())?;
        let handed = Vec::with_capacity(self.alloc, passes.len())?;
        Ok((retired, handed))
    }

    /// The cell, the trail, the totals, which are the sums of the shares of all passes, and these passes. Refused for want of
    /// memory, which costs 40 bytes a pass and one for each entry of the trail, or as the passes and their receipts are.
    pub fn settle(
        self,
        passes: Vec<Pass<I, A, E, C>>,
    ) -> Result<Closed<R>, (Fault, Self, Vec<Pass<I, A, E, C>>)>
        ensures ok { IfOk result (λ c. Settled O.opening O.seats (c.retired ++ c.handed) (watched c.cell) c.trail c.totals) }
        ensures same { IfOk result (λ c. (watched c.cell ≡ self.cell) × (c.trail ≡ self.trail)) }
        ensures retired { IfOk result (λ c. c.retired ≡ self.retired) }
        ensures handed { IfOk result (λ c. c.handed ≡ passes.items) }
        ensures back { IfErr result (λ e. (e.1 ≡ self) × (e.2 ≡ passes)) }
        ensures refusal { IfErr result (λ e. Refuses (e.1.retired ++ passes.items) e.1.trail O.seats e.0) }
    {
        let (mut early, mut late) = match self.rooms(passes.as_slice()) {
            Err(fault) => return Err((fault, self, passes)),
            Ok(rooms) => rooms,
        };
        let totals = self.cell.totals();
        let Locked {
            alloc: _,
            cell,
            trail,
            mut books,
            retired,
            rest,
            seats: _,
            opening: _,
        } = self;
        let rest = gather(rest, retired, &mut early);
        let mut all = gather(rest, passes, &mut late);
        books.issued.audit(&mut all.issued);
        books.acknowledged.audit(&mut all.acknowledged);
        books.expired.audit(&mut all.expired);
        books.calls.audit(&mut all.calls);
        Ok(Closed {
            cell,
            trail,
            totals,
            retired: early,
            handed: late,
        })
    }
}

// Joins the shares of passes to others. What is left of the passes goes to a list that has room for it.
fn gather<I: Ledger, A: Ledger, E: Ledger, C: Ledger>(
    mut rest: Shares<I, A, E, C>,
    mut passes: Vec<Pass<I, A, E, C>>,
    spent: &mut Vec<Spent>,
) -> Shares<I, A, E, C>
    requires parts { (rest.issued.parts ≤ I.parts) × (rest.acknowledged.parts ≤ A.parts) × (rest.expired.parts ≤ E.parts) × (rest.calls.parts ≤ C.parts) }
    requires room { (spent.old.items ≡ []) × (vec_len spent.old ≡ 0) × (length passes.items ≤ vec_capacity spent.old) }
    ensures issued { (result.issued.parts ≡ rest.issued.parts + length passes.items) × (result.issued.amount ≡ rest.issued.amount + gathered (λ h. h.issued) passes.items) × (result.issued.parts ≤ I.parts) }
    ensures acknowledged { (result.acknowledged.parts ≡ rest.acknowledged.parts + length passes.items) × (result.acknowledged.amount ≡ rest.acknowledged.amount + gathered (λ h. h.acknowledged) passes.items) × (result.acknowledged.parts ≤ A.parts) }
    ensures expired { (result.expired.parts ≡ rest.expired.parts + length passes.items) × (result.expired.amount ≡ rest.expired.amount + gathered (λ h. h.expired) passes.items) × (result.expired.parts ≤ E.parts) }
    ensures calls { (result.calls.parts ≡ rest.calls.parts + length passes.items) × (result.calls.amount ≡ rest.calls.amount + gathered (λ h. h.calls) passes.items) × (result.calls.parts ≤ C.parts) }
    ensures receipts { gathered (λ h. h.calls) passes.items ≡ gathered (λ h. length h.receipts) passes.items }
    ensures spent { spent.new.items ≡ passes.items }
{
    while let Some(pass) = passes.pop() {
        let Pass {
            number,
            shares,
            receipts,
        } = pass;
        let Shares {
            issued,
            acknowledged,
            expired,
            calls,
        } = shares;
        rest.issued.merge(issued);
        rest.acknowledged.merge(acknowledged);
        rest.expired.merge(expired);
        rest.calls.merge(calls);
        spent.push_reserved(Spent { number, receipts });
    }
    passes.destroy_empty();
    spent.reverse();
    rest
}

/// The locked value and the passes 1 to `seats`.
pub fn open_locked<R: Records, O: Opening, I: Ledger, A: Ledger, E: Ledger, C: Ledger>(
    alloc: Global,
    cell: Cell<R>,
    seats: u64,
    blanks: Blanks,
) -> Result<(Locked<R, O, I, A, E, C>, Vec<Pass<I, A, E, C>>), (AllocError, Cell<R>, Blanks)>
    requires cell { (watched cell ≡ O.opening) × (cell.master.rights ≡ []) }
    requires seats { seats ≡ O.seats }
    requires issued { (blanks.issued.name ≡ I.name) × (blanks.issued.parts ≡ I.parts) × (I.parts ≡ seats) }
    requires acknowledged { (blanks.acknowledged.name ≡ A.name) × (blanks.acknowledged.parts ≡ A.parts) × (A.parts ≡ seats) }
    requires expired { (blanks.expired.name ≡ E.name) × (blanks.expired.parts ≡ E.parts) × (E.parts ≡ seats) }
    requires calls { (blanks.calls.name ≡ C.name) × (blanks.calls.parts ≡ C.parts) × (C.parts ≡ seats) }
    ensures locked { IfOk result (λ r. r.0 ≡ opened cell) }
    ensures passes { IfOk result (λ r. r.1.items ≡ fresh_hands seats) }
    ensures err { IfErr result (λ e. (e.1 ≡ cell) × (e.2 ≡ blanks)) }
{
    let Ok(passes) = Vec::with_capacity(alloc, seats as usize) else {
        return Err((AllocError, cell, blanks));
    };
    let (books, mut rest) = blanks.open::<I, A, E, C>();
    let passes = fill(alloc, passes, seats, &mut rest);
    Ok((Locked::new(alloc, cell, seats, books, rest), passes))
}

fn fill<I: Ledger, A: Ledger, E: Ledger, C: Ledger>(
    alloc: Global,
    mut passes: Vec<Pass<I, A, E, C>>,
    seats: u64,
    rest: &mut Shares<I, A, E, C>,
) -> Vec<Pass<I, A, E, C>>
    requires room { (passes.items ≡ []) × (vec_len passes ≡ 0) × (seats ≤ vec_capacity passes) }
    requires parts { (rest.old.issued.parts ≡ seats) × (rest.old.acknowledged.parts ≡ seats) × (rest.old.expired.parts ≡ seats) × (rest.old.calls.parts ≡ seats) }
    requires amounts { (rest.old.issued.amount ≡ 0) × (rest.old.acknowledged.amount ≡ 0) × (rest.old.expired.amount ≡ 0) × (rest.old.calls.amount ≡ 0) }
    ensures passes { result.items ≡ fresh_hands seats }
    ensures parts { (rest.new.issued.parts ≡ 0) × (rest.new.acknowledged.parts ≡ 0) × (rest.new.expired.parts ≡ 0) × (rest.new.calls.parts ≡ 0) }
    ensures amounts { (rest.new.issued.amount ≡ 0) × (rest.new.acknowledged.amount ≡ 0) × (rest.new.expired.amount ≡ 0) × (rest.new.calls.amount ≡ 0) }
{
    for i in 0..seats {
        passes.push_reserved(Pass::first(alloc, i + 1, rest));
    }
    passes
}

/// One call: the cell makes the event's step, the trail gains its entry, the books and the pass's shares rise by what its
/// lines tell of rights and by one call, and the pass gains the receipt that is answered. Refused as WatchFull exactly
/// where the trail has 1,000,000 entries, before all else; then for want of memory, and as the step is, or by the store. A
/// refusal changes nothing, but that the store counts its own. All memory is taken before the step has an effect. Costs what the step costs.
pub fn serve<R: Records, O: Opening, I: Ledger, A: Ledger, E: Ledger, C: Ledger>(
    locked: &mut Locked<R, O, I, A, E, C>,
    pass: &mut Pass<I, A, E, C>,
    event: WatchEvent,
) -> Result<Receipt, Fault>
    ensures ok { IfOk result (λ t. Served locked.old locked.new pass.old pass.new event t) }
    ensures err { OnErr result (pass.new ≡ pass.old) }
    ensures full { IsErrOf result WatchFull ↔ (length locked.old.trail ≡ 1000000) }
    ensures refusal { IfErr result (λ e. CallRefuses locked.old locked.new event e) }
{
    if locked.trail.len() >= MOST {
        drop(event);
        return Err(Fault::WatchFull);
    }
    let events = ThreeEvents::of(event)?;
    let Pass {
        number: _,
        shares,
        receipts,
    } = pass;
    let Locked {
        alloc: _,
        cell,
        trail,
        books,
        retired: _,
        rest: _,
        seats: _,
        opening: _,
    } = locked;
    let done = made(cell, trail, receipts, events)?;
    let Replied {
        events,
        first,
        second,
        third,
    } = done;
    let (event, event_again, event_answered) = events.all();
    let place = trail.len() as u64;
    let lines = first.lines.as_slice();
    books.issued.add(&mut shares.issued, count_granted(lines));
    books
        .acknowledged
        .add(&mut shares.acknowledged, count_acked(lines));
    books.expired.add(&mut shares.expired, count_expired(lines));
    books.calls.add(&mut shares.calls, 1);
    receipts.push_reserved(Receipt {
        place,
        event: event_again,
        reply: second,
    });
    trail.push_reserved(Entry {
        event,
        reply: first,
    });
    Ok(Receipt {
        place,
        event: event_answered,
        reply: third,
    })
}

// An event that was served, and its reply three times.
struct Replied {
    events: ThreeEvents,
    first: Swept,
    second: Swept,
    third: Swept,
}

// The step of an event, with room for its entry and its receipt.
fn made<R: Records>(
    cell: &mut Cell<R>,
    trail: &mut Vec<Entry>,
    receipts: &mut Vec<Receipt>,
    events: ThreeEvents,
) -> Result<Replied, Fault>
    ensures ok { IfOk result (λ t. step_of (watched cell.old) events ≡ Ok (watched cell.new, t.first)) }
    ensures same { IfOk result (λ t. t.events ≡ events) }
    ensures copies { IfOk result (λ t. (t.second ≡ t.first) × (t.third ≡ t.first)) }
    ensures tells { IfOk result (λ t. Tells cell.old.master.rights t.first.lines cell.new.master.rights) }
    ensures items { (trail.new.items ≡ trail.old.items) × (receipts.new.items ≡ receipts.old.items) }
    ensures room { OnOk result ((vec_len trail.new < vec_capacity trail.new) × (vec_len receipts.new < vec_capacity receipts.new)) }
    ensures fault { IfErr result (λ e. e ≢ WatchFull) }
    ensures counted { OnOk result (cell.new.store.refusals ≡ cell.old.store.refusals) }
    ensures refusal { IfErr result (λ e. StepRefuses (watched cell.old) events e cell.old.store.refusals cell.new.store.refusals) }
    ensures err { OnErr result (watched cell.new ≡ watched cell.old) }
{
    match stepped(cell, trail, receipts, events.event()) {
        Ok(SweptThrice { answers, quiet }) => {
            let (first, second, third) = answers.all();
            Ok(Replied {
                events,
                first: Swept::of(first, quiet),
                second: Swept::of(second, quiet),
                third: Swept::of(third, quiet),
            })
        }
        Err(fault) => {
            drop(events);
            Err(fault)
        }
    }
}

// The same, of the event alone.
fn stepped<R: Records>(
    cell: &mut Cell<R>,
    trail: &mut Vec<Entry>,
    receipts: &mut Vec<Receipt>,
    event: &WatchEvent,
) -> Result<SweptThrice, Fault>
    ensures ok { IfOk result (λ t. step_of (watched cell.old) event.now ≡ Ok (watched cell.new, swept_as t.answers t.quiet)) }
    ensures tells { IfOk result (λ t. Tells cell.old.master.rights t.answers.lines cell.new.master.rights) }
    ensures items { (trail.new.items ≡ trail.old.items) × (receipts.new.items ≡ receipts.old.items) }
    ensures room { OnOk result ((vec_len trail.new < vec_capacity trail.new) × (vec_len receipts.new < vec_capacity receipts.new)) }
    ensures fault { IfErr result (λ e. e ≢ WatchFull) }
    ensures counted { OnOk result (cell.new.store.refusals ≡ cell.old.store.refusals) }
    ensures refusal { IfErr result (λ e. StepRefuses (watched cell.old) event.now e cell.old.store.refusals cell.new.store.refusals) }
    ensures err { OnErr result (watched cell.new ≡ watched cell.old) }
{
    receipts.reserve(1)?;
    trail.reserve(1)?;
    step_thrice(cell, event)
}
