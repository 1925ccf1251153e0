//! When a mastership ends.
ghost use Rattle.std.specs.Prelude.{◌≡◌};
ghost use Rattle.lease_core.specs.Lease.{IsMoment};
ghost use Rattle.mastership.specs.Ends.{EndsAt};

use lease_core::MOMENT_LIMIT;

pub(crate) fn ends_at(sent: u64, span: u64) -> u64
    ensures end { IsMoment sent → IsMoment span → EndsAt sent span result }
    ensures other { (IsMoment sent → IsMoment span → ⊥) → result ≡ 0 }
{
    if sent >= MOMENT_LIMIT || span >= MOMENT_LIMIT || span < 2 {
        return 0;
    }
    sent + (16 * span - 1) / 17
}
