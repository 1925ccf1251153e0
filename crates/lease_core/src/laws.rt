//! What follows from the definitions.
ghost use Rattle.lease_core.specs.Lease.{BetterLastsLonger};

/// Wherever a lease still runs, a better one does, once its own request has been sent.
pub fn better_lasts_longer()
    ensures { BetterLastsLonger }
{}
