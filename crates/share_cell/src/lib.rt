//! A client's cache that many threads read without a lock.
//!
//! A `Keeper` is the client and the writer of two copies of its cache; a `Viewer` in any thread answers from the copy that was
//! published last, and waits for nobody.
#![tactic(auto)]

mod hit;
mod keeper;
mod rule;
mod side;
mod viewer;

pub use hit::Hit;
pub use keeper::{Keeper, LateAnswer};
pub use rule::{Known, Published};
pub use side::{Side, SideStep};
pub use viewer::{PublishedCount, Viewer};
