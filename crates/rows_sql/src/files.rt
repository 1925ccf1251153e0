//! A store in SQL as the bytes of its files.

mod file;
mod verdicts;

pub use file::inspect_file;
pub use verdicts::verdict;
