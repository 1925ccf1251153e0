//! The locks of a cell's nodes: who holds them, who waits, and what becomes of them (Burrows 2006, section 2.4).
#![tactic(auto)]

mod claimants;
mod claims;
mod counted;
mod laws;
mod leavers;
mod moments;
mod partings;
mod states;
mod stored;
mod tables;
mod tenures;
mod turns;

pub use claims::{Claim, Closing, Hold, Owner};
pub use laws::{
    first_waiter_does_not_fit, generation_rises_by_one, no_generation_twice,
    try_succeeds_exactly_where_it_fits,
};
pub use partings::Parting;
pub use states::Lock;
pub use tables::Locks;
pub use turns::{Acquired, Lapse, Turn};
