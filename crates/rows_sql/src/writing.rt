//! Edits of the rows of a cell, done in the tables of a database.

mod carrying;
mod changes;
mod creation;
mod edits;
mod values;

pub use carrying::carry_over;
pub(crate) use changes::any_sets_next;
pub use changes::commit_all;
pub use creation::make_store;
