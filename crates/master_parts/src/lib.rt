//! The tables of a master in memory: its nodes, handles, sessions, rights and what waits, each by itself and all as one; and
//! which ephemeral nodes are to go.
#![tactic(auto)]

mod calls;
mod candidates;
mod ephemerals;
mod handles;
mod listeners;
mod name_index;
mod nodes;
mod notices;
mod open_handles;
mod pending;
mod rows;
mod tables;
mod tasks;
mod walks;

pub use calls::{
    bytes_of, create_fault, delay_of, denied, denied_without, is_leave, node_fault, set_answer,
};
pub use handles::{HandleKey, HandleNote, HandleState, OpenHandle, OpenNote, claim_of, owner_of};
pub use listeners::ListenSubject;
pub use nodes::{Nodes, is_ephemeral};
pub use notices::{Notice, SessionEvent, event_of, instance_of};
pub use open_handles::Handles;
pub use pending::{Orphan, Taken, Task, WaitingRequest, Work, answered_by};
pub use rows::{lock_rows, row_edits};
pub use tables::Tables;
