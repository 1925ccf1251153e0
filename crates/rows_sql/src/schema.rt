//! The tables of a cell's store, and whether a schema is theirs, in each version.

mod columns;
mod keys;
mod ours;

pub use ours::{Version, is_first, is_ours, version_of};
