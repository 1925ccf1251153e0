//! The sessions of a master: leases, Beats, events, what was issued and acknowledged, and the last call of each client.
#![tactic(auto)]

mod beats;
mod bounds;
mod calls;
mod ends;
mod events;
mod issues;
mod laws;
mod moments;
mod records;
mod sessions;
mod starts;

pub use laws::{
    acknowledged_was_issued, last_call_is_kept, offer_is_covered, session_outlives_its_lease,
    step_is_its_own, table_issues_to_each, timeout_never_moves_back,
};
pub use records::{Begun, LastCall, Mark, Offer, PATIENCE, Parked, Session, Tally};
pub use sessions::Sessions;
