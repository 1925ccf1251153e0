//! A client's lease by its own clock: whether it still runs, and which of two ends later.
//!
//! Nothing here takes memory, and every call succeeds. Moments and spans are whole milliseconds below 2^53.
#![tactic(auto)]

mod clock;
mod laws;
mod lease;
mod limits;

pub use clock::Clock;
pub use laws::better_lasts_longer;
pub use lease::{Lease, MOMENT_LIMIT};
pub use limits::{LEAST_LEASE, LONGEST_LEASE, RECOVERY_TIMEOUT};
