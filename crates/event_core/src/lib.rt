//! The events of a session, which wait for its acknowledgements.
#![tactic(auto)]

mod boxes;
mod laws;
mod queues;

pub use boxes::BoxedEvent;
pub use laws::{greater_numbers_wait, missed_is_told, queued_gets_next};
pub use queues::{EventQueue, WAITING_LIMIT};
