//! The master in memory: what it does with a message, and what a call does when its turn comes.
#![tactic(auto)]

mod admissions;
mod answers;
mod asking;
mod cells;
mod creates;
mod effects;
mod ephemerals;
mod laws;
mod locks;
mod notices;
mod outcomes;
mod room;
mod stored;
mod takes;
mod writes;

pub use answers::{Answers, Thrice};
pub use asking::TouchedNames;
pub use cells::MemoryMaster;
pub use effects::{Effect, Leave, Locking, effect_of};
pub use ephemerals::SPARED_FOR;
pub use laws::{limits_hold, limits_only_refuse, queues_what_it_touches};
pub use locks::gone_by_itself;
pub use master_parts::Taken;
pub use notices::{change_notices, contest_notices, contested_by, locks_notices};
pub use outcomes::{effect_lines, effect_replies, lock_ended, locking_puts, locking_replies};
