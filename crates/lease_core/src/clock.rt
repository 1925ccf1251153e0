//! A clock that a client's code reads.
ghost use Rattle.lease_core.specs.Lease.{IsMoment};
ghost use Rattle.std.specs.Prelude.{ℕ};

/// What tells the time, in milliseconds from a beginning of its own.
pub trait Clock {
    // The clock stands at this moment at some reading of it.
    ghost is_reading: { Self → ℕ → Type 0 };

    /// The moment at which the clock stands now.
    fn now(&self) -> u64
        ensures reading { is_reading self.now result }
        ensures moment { IsMoment result };
}
