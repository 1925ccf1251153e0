//! Watches by themselves: passes that are retired, closed or kept back, and a trail that is full.
ghost use Rattle.std.specs.Prelude.{◌≡◌, [], IfOk};
ghost use Rattle.watch_cell.specs.Views.{watched};

use collections::Bytes;
use names_cell::{Name, Principal};
use node_core::{Fault, Life};
use over_core::Cell;
use rows_cell::{ListRecords, Records, Rows, Settings};
use std::alloc::Global;
use std::marker::Brand;
use std::process::Abort;
use std::sync::Wait;
use std::sync::ledger::Ledger;
use std::test::Fail;
use tags_cell::{
    Call, CallMessage, ClientNumber, Create, Disposition, Events, MessageNumber, Mode, NewNode,
    Open, Request, Start,
};
use threads::{give_up, new_cell, retire};
use watch_cell::{Blanks, Closed, Opening, Pass, Watch, WatchEvent};

// What is done with a watch and its passes.
#[derive(Clone, Copy)]
enum Case {
    // Of two passes, by each of which a file is made, one is retired and the other closed: the rows hold both contents.
    OneRetired,
    // Of three passes the second is kept back, and comes later.
    KeptBack,
    // A trail of 1,000,000 entries takes no more.
    Full,
}

const CASES: &[(&str, u64, Case)] = &[
    ("one_retired", 2, Case::OneRetired),
    ("kept_back", 3, Case::KeptBack),
    ("full", 1, Case::Full),
];

// The file of the client of each pass, and what it holds.
const FILES: &[(&str, &[u8])] = &[("/ls/c/one", b"a"), ("/ls/c/two", b"bc")];

#[test]
fn watches(rt: HostRuntime) -> Result<(), Fail> {
    for (name, seats, case) in CASES {
        let cell = first_cell(rt.alloc())?;
        let went = on_watch::<_, Brand, Brand, Brand, Brand, Brand, _>(
            &rt,
            rt.alloc(),
            cell,
            *seats,
            Blanks::new(*seats),
            *case,
        );
        assert!(&rt; went, "{name}");
    }
    Ok(())
}

fn first_cell(alloc: Global) -> Result<Cell<ListRecords>, Fail>
    ensures { IfOk result (λ cell. cell.master.rights ≡ []) }
{
    let settings = Settings::standard(alloc)?;
    Ok(new_cell(alloc, &settings)?)
}

fn on_watch<
    R: Records + Drop,
    O: Opening,
    I: Ledger,
    A: Ledger,
    E: Ledger,
    C: Ledger,
    W: Wait + Abort,
>(rt: &W, alloc: Global, cell: Cell<R>, seats: u64, blanks: Blanks, case: Case) -> bool
    requires cell { (watched cell ≡ O.opening) × (cell.master.rights ≡ []) }
    requires seats { seats ≡ O.seats }
    requires issued { (blanks.issued.name ≡ I.name) × (blanks.issued.parts ≡ I.parts) × (I.parts ≡ seats) }
    requires acknowledged { (blanks.acknowledged.name ≡ A.name) × (blanks.acknowledged.parts ≡ A.parts) × (A.parts ≡ seats) }
    requires expired { (blanks.expired.name ≡ E.name) × (blanks.expired.parts ≡ E.parts) × (E.parts ≡ seats) }
    requires calls { (blanks.calls.name ≡ C.name) × (blanks.calls.parts ≡ C.parts) × (C.parts ≡ seats) }
{
    let Ok((watch, passes)) = Watch::<R, O, I, A, E, C>::open(alloc, cell, seats, blanks) else {
        return false;
    };
    match case {
        Case::OneRetired => one_retired(rt, alloc, watch, passes),
        Case::KeptBack => kept_back(rt, watch, passes),
        Case::Full => full(rt, watch, passes),
    }
}

fn one_retired<R: Records + Drop, O: Opening, I: Ledger, A: Ledger, E: Ledger, C: Ledger, W: Wait>(
    rt: &W,
    alloc: Global,
    watch: Watch<R, O, I, A, E, C>,
    mut passes: Vec<Pass<I, A, E, C>>,
) -> bool {
    let made = make_all(rt, alloc, &watch, passes.as_mut_slice());
    let Some(second) = passes.pop() else {
        give_up(rt, watch, passes);
        return false;
    };
    retire(rt, &watch, second);
    match watch.close(passes) {
        Ok(closed) => made && hold(alloc, closed),
        Err((_, locked, passes)) => {
            give_up(rt, Watch::over(locked), passes);
            false
        }
    }
}

// By each pass its file is made.
fn make_all<R: Records, O: Opening, I: Ledger, A: Ledger, E: Ledger, C: Ledger, W: Wait>(
    rt: &W,
    alloc: Global,
    watch: &Watch<R, O, I, A, E, C>,
    passes: &mut [Pass<I, A, E, C>],
) -> bool {
    for (pass, (name, content)) in passes.iter_mut().zip(FILES) {
        let Ok((start, open)) = requests(alloc, pass.number(), name, content) else {
            return false;
        };
        if !goes(rt, watch, pass, start) || !goes(rt, watch, pass, open) {
            return false;
        }
    }
    true
}

// The Start of a client, and its Open that makes a file.
fn requests(
    alloc: Global,
    number: u64,
    name: &str,
    content: &[u8],
) -> Result<(Request, Request), Fault> {
    let client = ClientNumber::new(number).ok_or(Fault::Exhausted)?;
    let number = MessageNumber::new(1).ok_or(Fault::Exhausted)?;
    let principal = Principal::parse(alloc, "ann")?;
    let open = opening(alloc, name, content)?;
    let start = Request::Start(Start {
        client,
        number,
        principal,
    });
    let open = Request::Call(CallMessage {
        client,
        epoch: 1,
        number,
        call: Call::Open(open),
        sequencer: None,
    });
    Ok((start, open))
}

fn opening(alloc: Global, name: &str, content: &[u8]) -> Result<Open, Fault> {
    let mode = Mode::new(true, true, false).ok_or(Fault::Exhausted)?;
    let name = Name::parse(alloc, name)?;
    let content = Bytes::copy_of(alloc, content)?;
    let create = Create {
        disposition: Disposition::Must,
        node: NewNode::File(content),
        life: Life::Permanent,
        acls: None,
    };
    Ok(Open {
        name,
        mode,
        create: Some(create),
        delay: 0,
        events: Events::none(),
    })
}

// Whether a message is taken through a pass, and what is then to do is done.
fn goes<R: Records, O: Opening, I: Ledger, A: Ledger, E: Ledger, C: Ledger, W: Wait>(
    rt: &W,
    watch: &Watch<R, O, I, A, E, C>,
    pass: &mut Pass<I, A, E, C>,
    request: Request,
) -> bool {
    watch.call(rt, pass, WatchEvent::Take(0, request)).is_ok() && sweeps(rt, watch, pass, 4)
}

// So many sweeps through a pass.
fn sweeps<R: Records, O: Opening, I: Ledger, A: Ledger, E: Ledger, C: Ledger, W: Wait>(
    rt: &W,
    watch: &Watch<R, O, I, A, E, C>,
    pass: &mut Pass<I, A, E, C>,
    count: u64,
) -> bool {
    for _ in 0..count {
        if watch.call(rt, pass, WatchEvent::Sweep(0)).is_err() {
            return false;
        }
    }
    true
}

// Whether the rows hold each file with its content.
fn hold<R: Records + Drop>(alloc: Global, closed: Closed<R>) -> bool {
    let mut records = closed.into_cell().down();
    match records.load() {
        Ok(rows) => FILES
            .iter()
            .all(|(name, content)| has(alloc, &rows, name, content)),
        Err(_) => false,
    }
}

fn has(alloc: Global, rows: &Rows, name: &str, content: &[u8]) -> bool {
    let Ok(name) = Name::parse(alloc, name) else {
        return false;
    };
    match rows.nodes.get(&name) {
        Some(node) => node.node.content.as_slice() == content,
        None => false,
    }
}

fn kept_back<
    R: Records + Drop,
    O: Opening,
    I: Ledger,
    A: Ledger,
    E: Ledger,
    C: Ledger,
    W: Wait + Abort,
>(rt: &W, watch: Watch<R, O, I, A, E, C>, mut passes: Vec<Pass<I, A, E, C>>) -> bool {
    let swept = sweep_all(rt, &watch, passes.as_mut_slice());
    let third = passes.pop().expect(rt, "a third");
    let second = passes.pop().expect(rt, "a second");
    retire(rt, &watch, third);
    match watch.close(passes) {
        Ok(_) => panic!(rt; "the second pass is missing"),
        Err((fault, locked, mut passes)) => {
            let watch = Watch::over(locked);
            let missing = fault == Fault::PassMissing(2) && passes.len() == 1;
            match passes.push(second) {
                Ok(()) => {}
                Err(failed) => retire(rt, &watch, failed.value),
            }
            let swept_again = sweep_all(rt, &watch, passes.as_mut_slice());
            let closed = closes(rt, watch, passes, 5);
            swept && missing && swept_again && closed
        }
    }
}

// Whether a watch closes with a trail of so many entries.
fn closes<R: Records + Drop, O: Opening, I: Ledger, A: Ledger, E: Ledger, C: Ledger, W: Wait>(
    rt: &W,
    watch: Watch<R, O, I, A, E, C>,
    passes: Vec<Pass<I, A, E, C>>,
    entries: usize,
) -> bool {
    match watch.close(passes) {
        Ok(closed) => {
            let there = closed.trail().len();
            drop(closed);
            there == entries
        }
        Err((_, locked, passes)) => {
            give_up(rt, Watch::over(locked), passes);
            false
        }
    }
}

// A sweep through each pass.
fn sweep_all<R: Records, O: Opening, I: Ledger, A: Ledger, E: Ledger, C: Ledger, W: Wait>(
    rt: &W,
    watch: &Watch<R, O, I, A, E, C>,
    passes: &mut [Pass<I, A, E, C>],
) -> bool {
    for pass in passes {
        if !sweeps(rt, watch, pass, 1) {
            return false;
        }
    }
    true
}

fn full<R: Records + Drop, O: Opening, I: Ledger, A: Ledger, E: Ledger, C: Ledger, W: Wait>(
    rt: &W,
    watch: Watch<R, O, I, A, E, C>,
    mut passes: Vec<Pass<I, A, E, C>>,
) -> bool {
    let filled = match passes.first_mut() {
        Some(pass) => fills(rt, &watch, pass),
        None => false,
    };
    let closed = closes(rt, watch, passes, 1_000_000);
    filled && closed
}

// Whether a pass makes 1,000,000 calls, and is refused the next one as it was.
fn fills<R: Records, O: Opening, I: Ledger, A: Ledger, E: Ledger, C: Ledger, W: Wait>(
    rt: &W,
    watch: &Watch<R, O, I, A, E, C>,
    pass: &mut Pass<I, A, E, C>,
) -> bool {
    if !sweeps(rt, watch, pass, 1_000_000) {
        return false;
    }
    let refused = match watch.call(rt, pass, WatchEvent::Sweep(0)) {
        Ok(_) => false,
        Err(fault) => fault == Fault::WatchFull,
    };
    refused && pass.receipts().len() == 1_000_000
}
