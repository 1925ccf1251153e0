//! Which of many keys may be due at a moment, without a look at the others.
//!
//! Base types that contracts see as plain lists, so that two values with the same contents are equal in a proof.
#![tactic(auto)]

mod clones;
mod contents;
mod lists;
mod secrets;
mod tables;
mod timers;

pub use clones::Same;
pub use contents::Bytes;
pub use lists::Items;
pub use secrets::Secret;
pub use tables::Table;
pub use timers::Timers;
