//! What a client is made of: its handles, its outstanding call, how it stands with its master; what it is asked for, and what comes
//! of that; what the invalidations that it is sent do to its cache, and what it prints of the events.

mod alives;
mod asks;
mod events;
mod handles;
mod held;
mod invalidations;
mod leased;
mod lines;
mod moments;
mod ops;
mod outstanding;
mod sessions;
mod steps;
mod targets;

pub use alives::is_numbered;
pub use asks::{Ask, AskOutcome, NodeCall, Outcome};
pub use events::{are_events_in_order, last_event, with_events};
pub use handles::{ClientHandle, is_plain, is_read_only, is_shareable, only_reads, share_of};
pub use held::{has_number, keep_handle, put_sequencer, usable_handle};
pub use invalidations::{flush_all, is_in_order, last_number};
pub use leased::{put_under, standing_by};
pub use lines::{one_line, opened_lines, pushed, served_line, turn_lines};
pub use moments::moment_by;
pub use ops::{noted_ops, with_flushes, with_lease, with_losses, with_op};
pub use outstanding::{absence_taught, drop_reply, sent_sequencer, with_unknown};
pub use sessions::ClientStanding;
pub use steps::{Beaten, Given};
pub use targets::{Outstanding, Target};
