//! How long leases last, in milliseconds.

/// The shortest lease that a master may give, in milliseconds.
pub const LEAST_LEASE: u64 = 1_000;

/// The longest lease that a master may give, in milliseconds.
pub const LONGEST_LEASE: u64 = 60_000;

/// For how long from its coming up on a new master lets every session live that it finds in the rows, in milliseconds
/// by its own clock. A lease of the master before has ended by then: `coherence` proves it. It is never offered as a
/// span.
pub const RECOVERY_TIMEOUT: u64 = 60_002;
