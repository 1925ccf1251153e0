//! Viewers in threads of their own.
use crate::stages::{Seats, Stage};
use lease_core::Clock;
use names_cell::Name;
use node_core::Fault;
use share_cell::{Hit, Viewer};
use std::alloc::Global;
use std::sync::Wait;
use std::sync::atomic::{AtomicU64, Ordering};
use std::test::Fail;
use std::thread::{Threads, join, yield_now};

// So often a clock looks whether what it waits for is done.
const TURNS: u64 = 10_000_000;

// A clock that stands at 0. Once read it waits until something is done, for so many turns at most; it lets others run where that is
// to end.
#[derive(Drop)]
struct Gate {
    lets_run: bool,
    read: AtomicU64,
    done: AtomicU64,
    late: AtomicU64,
}

impl Gate {
    fn new(lets_run: bool) -> Gate {
        Gate {
            lets_run,
            read: AtomicU64::new(0),
            done: AtomicU64::new(0),
            late: AtomicU64::new(0),
        }
    }

    // Waits until the clock is read.
    fn wait(&self) {
        for _ in 0..TURNS {
            if self.read.load(Ordering::SeqCst) != 0 {
                return;
            }
            yield_now();
        }
    }

    fn open(&self) {
        self.done.store(1, Ordering::SeqCst);
    }

    // Whether it was read and waited in vain.
    fn is_late(&self) -> bool {
        self.read.load(Ordering::SeqCst) != 0 && self.late.load(Ordering::SeqCst) != 0
    }

    // Whether it was read, and what it waited for was done.
    fn is_in_time(&self) -> bool {
        self.read.load(Ordering::SeqCst) != 0 && self.late.load(Ordering::SeqCst) == 0
    }
}

impl Clock for Gate {
    ghost use Rattle.std.specs.Prelude.{◌≡◌};

    ghost is_reading = { λ _ moment. moment ≡ 0 };

    fn now(&self) -> u64 {
        self.read.store(1, Ordering::SeqCst);
        for _ in 0..TURNS {
            if self.done.load(Ordering::SeqCst) != 0 {
                return 0;
            }
            if self.lets_run {
                yield_now();
            }
        }
        self.late.store(1, Ordering::SeqCst);
        0
    }
}

// A file in the cache of client 1, and handles on two more.
const BEFORE: &str =
    "beat 1; settle; ask 1 open /ls/c/f rw must file permanent 61; settle; ask 1 open /ls/c/g rw must file permanent 62; settle; ask 1 open /ls/c/h rw must file permanent 63; settle; ask 1 read 1; settle";

// Two more views are published.
const TWO_MORE: &str = "ask 1 read 2; settle; ask 1 read 3; settle";

fn is_view(hit: &Hit) -> bool {
    match hit {
        Hit::View(_) => true,
        _ => false,
    }
}

#[test]
fn readers(rt: HostRuntime) -> Result<(), Fail> {
    assert!(&rt;
        is_played(&rt, rt.alloc(), false)?,
        "the second publish waits for who is inside"
    );
    assert!(&rt;
        is_played(&rt, rt.alloc(), true)?,
        "no viewer waits for another"
    );
    Ok(())
}

fn is_played<W: Threads + Wait + Sync>(rt: &W, alloc: Global, of_two: bool) -> Result<bool, Fail> {
    let mut seats = Seats::new(rt, alloc)?;
    let played = play(rt, alloc, &mut seats, of_two);
    seats.close(rt);
    Ok(played?)
}

fn play<W: Threads + Wait + Sync>(
    rt: &W,
    alloc: Global,
    seats: &mut Seats,
    of_two: bool,
) -> Result<bool, Fault> {
    let mut stage = Stage::new(alloc)?;
    let played = look(rt, alloc, &mut stage, seats, of_two);
    drop(stage);
    played
}

fn look<W: Threads + Wait + Sync>(
    rt: &W,
    alloc: Global,
    stage: &mut Stage,
    seats: &mut Seats,
    of_two: bool,
) -> Result<bool, Fault> {
    stage.go(rt, seats, BEFORE)?;
    let name = Name::parse(alloc, "/ls/c/f")?;
    if of_two {
        return Ok(are_two_inside(rt, seats.of_one.as_mut_slice(), &name));
    }
    let Some(mut viewer) = seats.of_one.pop() else {
        return Ok(false);
    };
    let seen = outlasts(rt, stage, seats, &mut viewer, &name);
    drop(viewer);
    seen
}

// Whether a publish behind the next one isn't done while a viewer is inside.
fn outlasts<W: Threads + Wait + Sync>(
    rt: &W,
    stage: &mut Stage,
    seats: &mut Seats,
    viewer: &mut Viewer,
    name: &Name,
) -> Result<bool, Fault> {
    let gate = Gate::new(false);
    let (hit, went) = join(
        rt,
        || viewer.hit(name, &gate),
        || publish_two(rt, stage, seats, &gate),
    );
    went?;
    Ok(gate.is_late() && is_view(&hit?))
}

fn publish_two<W: Wait>(
    rt: &W,
    stage: &mut Stage,
    seats: &mut Seats,
    gate: &Gate,
) -> Result<(), Fault> {
    gate.wait();
    let went = stage.go(rt, seats, TWO_MORE);
    gate.open();
    went
}

fn are_two_inside<W: Threads + Wait + Sync>(rt: &W, viewers: &mut [Viewer], name: &Name) -> bool {
    match viewers {
        [one, two, ..] => are_both_inside(rt, one, two, name),
        _ => false,
    }
}

// Whether the first viewer, which waits until the second was answered, sees that.
fn are_both_inside<W: Threads + Wait + Sync>(
    rt: &W,
    one: &mut Viewer,
    two: &mut Viewer,
    name: &Name,
) -> bool {
    let gate = Gate::new(true);
    let (first, second) = join(rt, || one.hit(name, &gate), || answered(two, name, &gate));
    gate.is_in_time() && first.is_ok_and(|hit| is_view(&hit)) && second
}

fn answered(viewer: &mut Viewer, name: &Name, gate: &Gate) -> bool {
    gate.wait();
    let still = Gate::new(true);
    still.open();
    let hit = viewer.hit(name, &still);
    gate.open();
    hit.is_ok_and(|hit| is_view(&hit))
}
