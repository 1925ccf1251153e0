//! The parts of a world: records, a master while one is up, clients with their clocks, and the messages between them; and what
//! each step does to them, and a crash.
#![tactic(auto)]

mod crashes;
mod laws;
pub mod mail;
mod members;
mod parts;
mod steps;

pub use crashes::{CrashRecords, Crashes};
pub use laws::{fair_ticks_are_taken, taken_ticks_are_fair};
pub use mail::Message;
pub use members::{WorldClient, WorldClients};
pub use parts::{SweepResult, WorldParts};
pub use steps::{Commit, Step, Ticks};
