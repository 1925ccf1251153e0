//! Scripts in which keepers stand in the place of clients, and what viewers then see.
use crate::stages::{Seats, Stage};
use lease_core::Clock;
use names_cell::Name;
use node_core::{Fault, View};
use share_cell::{Hit, Keeper, LateAnswer, Viewer};
use std::alloc::{AllocError, Global};
use std::sync::Wait;
use std::test::Fail;

// What a viewer of a client sees of a name once it was told of what is published.
type Look = (u64, &'static str, &'static str);

// What is done, what is printed, and what viewers then see. The master is up.
const ROWS: &[(&str, &str, &str, &[Look])] = &[
    (
        "first_view",
        "beat 1",
        "",
        &[(1, "/ls/c/f", "miss"), (2, "/ls/c/f", "miss")],
    ),
    (
        "cached_read",
        "beat 1; beat 2; settle; ask 1 open /ls/c/f rw must file permanent 61; settle; ask 2 open /ls/c/f rw; settle; ask 1 read 1; settle; ask 1 read 1",
        "started 1; started 2; applied 1 1 put /ls/c/f file 4 1 1 base base base permanent 1 61; done 1 1 opened 1; done 2 1 opened 1; granted 1 1 /ls/c/f; done 1 2 view file 4 1 1 base base base permanent 1 61; served 1 /ls/c/f file 4 1 1 base base base permanent 1 61",
        &[
            (
                1,
                "/ls/c/f",
                "view file 4 1 1 base base base permanent 1 61",
            ),
            (1, "/ls/c/g", "miss"),
            (2, "/ls/c/f", "miss"),
        ],
    ),
    (
        "flushed",
        "beat 1; beat 2; settle; ask 1 open /ls/c/f rw must file permanent 61; settle; ask 2 open /ls/c/f rw; settle; ask 1 read 1; settle; ask 2 set 1 62; settle; beat 1; settle; beat 1; settle",
        "started 1; started 2; applied 1 1 put /ls/c/f file 4 1 1 base base base permanent 1 61; done 1 1 opened 1; done 2 1 opened 1; granted 1 1 /ls/c/f; done 1 2 view file 4 1 1 base base base permanent 1 61; acked 1; applied 2 2 put /ls/c/f file 4 2 1 base base base permanent 1 62; done 2 2 ok",
        &[(1, "/ls/c/f", "miss")],
    ),
    (
        "cached_absence",
        "beat 1; beat 2; settle; ask 2 open /ls/c/g r; settle; ask 2 open /ls/c/g r",
        "started 1; started 2; granted 1 2 /ls/c/g; done 2 1 refused 6 NotFound; served 2 /ls/c/g absent",
        &[(2, "/ls/c/g", "absent"), (1, "/ls/c/g", "miss")],
    ),
    (
        "lease_end",
        "beat 1; beat 2; settle; ask 1 open /ls/c/f rw must file permanent 61; settle; ask 2 open /ls/c/f rw; settle; ask 1 read 1; settle; ask 1 read 1; tick 11999 11293; ask 1 read 1; tick 0 1; ask 1 read 1",
        "started 1; started 2; applied 1 1 put /ls/c/f file 4 1 1 base base base permanent 1 61; done 1 1 opened 1; done 2 1 opened 1; granted 1 1 /ls/c/f; done 1 2 view file 4 1 1 base base base permanent 1 61; served 1 /ls/c/f file 4 1 1 base base base permanent 1 61; served 1 /ls/c/f file 4 1 1 base base base permanent 1 61; jeopardy 1; refused 30 InJeopardy",
        &[(1, "/ls/c/f", "miss")],
    ),
    (
        "grace_period",
        "beat 1; settle; tick 0 11294; beat 1; tick 0 44999; ask 1 stat 1; tick 0 1; ask 1 stat 1",
        "started 1; jeopardy 1; refused 30 InJeopardy; lost 1; refused 31 SessionExpired",
        &[(1, "/ls/c/f", "miss")],
    ),
    (
        "shared_handle",
        "beat 1; beat 2; settle; ask 1 open /ls/c/f rw must file permanent 61; settle; ask 2 open /ls/c/f rw; settle; ask 2 open /ls/c/f r; settle; ask 2 read 2; settle; ask 2 open /ls/c/f r; ask 2 close 2",
        "started 1; started 2; applied 1 1 put /ls/c/f file 4 1 1 base base base permanent 1 61; done 1 1 opened 1; done 2 1 opened 1; done 2 2 opened 2; granted 1 2 /ls/c/f; done 2 3 view file 4 1 1 base base base permanent 1 61; served 2 /ls/c/f file 4 1 1 base base base permanent 1 61; done 2 0 opened 3; done 2 0 closed",
        &[(
            2,
            "/ls/c/f",
            "view file 4 1 1 base base base permanent 1 61",
        )],
    ),
    (
        "cached_listing",
        "beat 1; beat 2; settle; ask 1 open /ls/c/f rw must file permanent 61; settle; ask 2 open /ls/c/f rw; settle; ask 2 open /ls/c r; settle; ask 2 list 2; settle; ask 2 list 2",
        "started 1; started 2; applied 1 1 put /ls/c/f file 4 1 1 base base base permanent 1 61; done 1 1 opened 1; done 2 1 opened 1; done 2 2 opened 2; granted 1 2 /ls/c; done 2 3 names acl f; served 2 /ls/c dir 1 0 1 base base base permanent 2 acl f",
        &[(
            2,
            "/ls/c",
            "view dir 1 0 1 base base base permanent 2 acl f",
        )],
    ),
];

#[test]
fn rows(rt: HostRuntime) -> Result<(), Fail> {
    for (name, steps, lines, looks) in ROWS {
        assert!(&rt; is_played(&rt, rt.alloc(), steps, lines, looks)?, "{name}");
    }
    Ok(())
}

fn is_played<W: Wait>(
    rt: &W,
    alloc: Global,
    steps: &str,
    lines: &str,
    looks: &[Look],
) -> Result<bool, Fail> {
    let mut seats = Seats::new(rt, alloc)?;
    let went = is_seen(rt, alloc, &mut seats, steps, lines, looks);
    seats.close(rt);
    Ok(went?)
}

// Whether these steps print these lines, and the viewers then see this.
fn is_seen<W: Wait>(
    rt: &W,
    alloc: Global,
    seats: &mut Seats,
    steps: &str,
    lines: &str,
    looks: &[Look],
) -> Result<bool, Fault> {
    let Some(clock) = clock_behind(rt, alloc, seats, steps, lines)? else {
        return Ok(false);
    };
    sees_all(rt, alloc, seats, clock, looks)
}

// What the clocks of the clients show behind these steps, where they print these lines.
fn clock_behind<W: Wait>(
    rt: &W,
    alloc: Global,
    seats: &mut Seats,
    steps: &str,
    lines: &str,
) -> Result<Option<u64>, Fault> {
    let mut stage = Stage::new(alloc)?;
    let went = stage.go(rt, seats, steps);
    let clock = clock_where(&stage, lines);
    drop(stage);
    went?;
    Ok(clock)
}

fn clock_where(stage: &Stage, lines: &str) -> Option<u64> {
    if stage.printed() == lines {
        return Some(stage.clock());
    }
    None
}

fn sees_all<W: Wait>(
    rt: &W,
    alloc: Global,
    seats: &mut Seats,
    clock: u64,
    looks: &[Look],
) -> Result<bool, Fault> {
    for look in looks {
        if !looks_so(rt, alloc, seats, clock, look)? {
            return Ok(false);
        }
    }
    Ok(true)
}

// Whether the client's keeper isn't late, and its viewer sees so.
fn looks_so<W: Wait>(
    rt: &W,
    alloc: Global,
    seats: &mut Seats,
    clock: u64,
    look: &Look,
) -> Result<bool, Fault> {
    let (client, name, sight) = *look;
    let name = Name::parse(alloc, name)?;
    let Some((keeper, viewer)) = seats.with_viewer(client) else {
        return Ok(false);
    };
    if !is_on_time(rt, keeper) {
        return Ok(false);
    }
    sees(alloc, keeper, viewer, &name, clock, sight)
}

// Whether there is nothing to resume.
fn is_on_time<W: Wait>(rt: &W, keeper: &mut Keeper) -> bool {
    if keeper.late() {
        return false;
    }
    is_nothing(keeper.resume(rt))
}

fn is_nothing(resumed: Result<Option<LateAnswer>, AllocError>) -> bool {
    let is_nothing = match &resumed {
        Ok(None) => true,
        _ => false,
    };
    drop(resumed);
    is_nothing
}

// The viewer is told of what is published, and asked.
fn sees(
    alloc: Global,
    keeper: &mut Keeper,
    viewer: &mut Viewer,
    name: &Name,
    clock: u64,
    sight: &str,
) -> Result<bool, Fault> {
    let Some(told) = keeper.tell() else {
        return Ok(false);
    };
    let count = told.count();
    viewer.learn(told);
    let hit = viewer.hit(name, &At(clock))?;
    let seen = is_sight(alloc, &hit, sight);
    drop(hit);
    Ok(seen? && viewer.front() >= count)
}

fn is_sight(alloc: Global, hit: &Hit, sight: &str) -> Result<bool, Fault> {
    Ok(hit_text(alloc, hit)?.as_str() == sight)
}

fn hit_text(alloc: Global, hit: &Hit) -> Result<String, Fault> {
    match hit {
        Hit::View(view) => view_text(alloc, view.get()),
        Hit::Absent => Ok(String::from_str(alloc, "absent")?),
        Hit::Miss => Ok(String::from_str(alloc, "miss")?),
        Hit::Gone => Ok(String::from_str(alloc, "gone")?),
    }
}

fn view_text(alloc: Global, view: &View) -> Result<String, Fault> {
    Ok(format!(in alloc; "view {view}")?)
}

// A clock that stands still.
#[derive(Drop)]
struct At(u64);

impl Clock for At {
    ghost use Rattle.std.specs.Prelude.{◌≡◌, min};

    ghost is_reading = { λ clock moment. moment ≡ min clock.0 9007199254740991 };

    fn now(&self) -> u64 {
        self.0.min(9_007_199_254_740_991)
    }
}
