//! The rows of a cell, kept in a SQL database: the schema of its tables (`schema`), how they are read (`reading`) and
//! changed (`writing`), what a store is taken over as, and the test of a store's files (`files`).
#![tactic(auto)]

mod adoption;
mod carrying;
mod closing;
mod files;
mod history;
mod knowing;
mod laws;
mod orders;
mod reading;
mod records;
mod schema;
mod steps;
mod writing;

pub use files::{inspect_file, verdict};
pub use history::StoreLog;
pub use laws::carrying_keeps;
pub use orders::OrderedStore;
pub use reading::{Acls, Meta, Numbers, can_read, children_of, inspect, load_as, load_said};
pub use records::SqlRecords;
pub use schema::{Version, is_first, is_ours, version_of};
pub use writing::{carry_over, commit_all, make_store};
