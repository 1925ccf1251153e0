//! For tests: records that refuse one commit, and rows as texts.
//!
//! What outlives a master: the rows of a cell, and who keeps them.
//!
//! What a cell is set to: its name, its lease, the principals of its first ACL, its secret, and what it holds at most.
#![tactic(auto)]

mod counts;
mod failing;
mod keys;
mod lists;
mod records;
mod settings;
mod soundness;
mod tables;
mod texts;
mod undo;

pub use counts::Counts;
pub use failing::FailAt;
pub use keys::LockKey;
pub use lists::ListRecords;
pub use records::{Records, StoreFault};
pub use settings::{Limits, MasterTerms, Settings, SettingsFault, component};
pub use soundness::is_sound;
pub use tables::{Edit, LockRow, LockState, Rows, SessionRow, StoredNode};
pub use texts::text_of;
