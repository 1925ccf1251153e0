//! Bytes and texts that are written whole, or a front of them is.
#![tactic(auto)]

mod shown;
mod windows;
mod writes;

pub use shown::write_line;
pub use writes::{Unwritten, write_bytes};
