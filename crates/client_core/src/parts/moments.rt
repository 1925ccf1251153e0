//! The moments that a client notes.
ghost use Rattle.std.specs.Prelude.{◌≡◌, IfOk};
ghost use Rattle.lease_core.specs.Lease.{IsMoment};
ghost use Rattle.client_core.specs.Moments.{moment};

use lease_core::MOMENT_LIMIT;
use node_core::Fault;

/// The moment that is noted: an earlier one than the clock's counts as that.
pub fn moment_by(clock: u64, now: u64) -> Result<u64, Fault>
    requires { IsMoment clock }
    ensures value { result ≡ moment clock now }
    ensures moment { IfOk result IsMoment }
{
    if now < MOMENT_LIMIT {
        Ok(clock.max(now))
    } else {
        Err(Fault::Exhausted)
    }
}
