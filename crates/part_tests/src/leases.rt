ghost use Rattle.lease_core.specs.Lease.{IsMoment};

use lease_core::{Clock, Lease};
use std::test::Fail;

const LAST_MOMENT: u64 = 9_007_199_254_740_991;

/// A clock that stands.
#[derive(Drop)]
struct Standing {
    moment: u64,
    ghost is_moment: { IsMoment moment },
}

impl Clock for Standing {
    ghost use Rattle.std.specs.Prelude.{◌≡◌};

    ghost is_reading = { λ clock moment. moment ≡ clock.moment };

    fn now(&self) -> u64 {
        self.moment
    }
}

fn reading<C: Clock>(clock: &C) -> u64 {
    clock.now()
}

fn lease(sent: u64, span: u64) -> Result<Lease, &'static str> {
    Lease::new(sent, span).ok_or("no moment")
}

// What is asked of leases, each by when it was sent and its span.
#[derive(Debug)]
enum Ask {
    // Whether it still runs at that moment.
    Runs(u64, u64, u64),
    // Whether the first ends later: a millisecond of sending counts 17, and one of span 16.
    IsBetter((u64, u64), (u64, u64)),
    // Whether there is such a lease, with these numbers.
    IsMade(u64, u64),
}

const ASKS: &[(Ask, bool)] = &[
    (Ask::Runs(0, 12_000, 0), true),
    (Ask::Runs(0, 12_000, 11_293), true),
    (Ask::Runs(0, 12_000, 11_294), false),
    (Ask::Runs(500, 12_000, 11_793), true),
    (Ask::Runs(500, 12_000, 11_794), false),
    (Ask::Runs(0, 0, 0), false),
    (Ask::Runs(0, 1, 0), false),
    (Ask::Runs(0, 2, 0), true),
    (Ask::Runs(0, 2, 1), false),
    (Ask::Runs(1_000, 0, 0), false),
    (Ask::Runs(1_000, 2, 0), true),
    (Ask::Runs(1_000, 2, 1_000), true),
    (Ask::Runs(1_000, 2, 1_001), false),
    (Ask::Runs(LAST_MOMENT, LAST_MOMENT, LAST_MOMENT), true),
    (Ask::Runs(0, LAST_MOMENT, LAST_MOMENT), false),
    (Ask::Runs(LAST_MOMENT, LAST_MOMENT, u64::MAX), false),
    (Ask::IsBetter((16, 0), (0, 17)), false),
    (Ask::IsBetter((0, 17), (16, 0)), false),
    (Ask::IsBetter((16, 1), (0, 17)), true),
    (Ask::IsBetter((0, 18), (16, 0)), true),
    (
        Ask::IsBetter((LAST_MOMENT, LAST_MOMENT), (LAST_MOMENT, LAST_MOMENT - 1)),
        true,
    ),
    (
        Ask::IsBetter((LAST_MOMENT, LAST_MOMENT), (LAST_MOMENT, LAST_MOMENT)),
        false,
    ),
    (Ask::IsMade(LAST_MOMENT, 7), true),
    (Ask::IsMade(7, LAST_MOMENT), true),
    (Ask::IsMade(LAST_MOMENT + 1, 0), false),
    (Ask::IsMade(0, LAST_MOMENT + 1), false),
];

fn is_made(sent: u64, span: u64) -> bool {
    match Lease::new(sent, span) {
        Some(lease) => lease.sent() == sent && lease.span() == span,
        None => false,
    }
}

fn answer(ask: &Ask) -> Result<bool, &'static str> {
    Ok(match ask {
        Ask::Runs(sent, span, now) => lease(*sent, *span)?.unexpired(*now),
        Ask::IsBetter(one, other) => lease(one.0, one.1)?.better(lease(other.0, other.1)?),
        Ask::IsMade(sent, span) => is_made(*sent, *span),
    })
}

#[test]
fn leases_at_their_limits(rt: HostRuntime) -> Result<(), Fail> {
    for (ask, want) in ASKS {
        assert!(rt; answer(ask)? == *want, "at {ask:?}");
    }
    Ok(())
}

#[test]
fn a_clock_is_read(rt: HostRuntime) {
    let clock = Standing {
        moment: LAST_MOMENT,
    };
    assert!(rt; reading(&clock) == LAST_MOMENT);
}
