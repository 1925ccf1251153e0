//! A master over its records: it comes up, takes messages, sweeps, and goes. A sweep and a coming up are tables, with one case
//! for each of their arms; and a master tells when it has something to do next.
#![tactic(auto)]

mod actions;
mod beats;
mod cells;
mod deadlines;
mod keeping;
mod lapses;
mod laws;
mod plans;
mod sweeps;
mod swept;
mod tellings;

pub use actions::{Action, first_action};
pub use cells::Cell;
pub use deadlines::next_deadline;
pub use laws::{masters_stay_within, quiet_tells_of_sweeps};
pub use master_parts::Taken;
pub use plans::{Plan, plan_of};
pub use sweeps::{PlannedSweep, SweptThrice, is_over, is_quiet, note_if_quiet, planned_sweep};
pub use swept::Swept;
pub use tellings::tellings_of;
