//! The client library: it keeps a client's session and the lease on it, its cache, its handles and its one outstanding call
//! (`parts` has each of these by itself), and tells when it has something to do next (`deadline`).
//!
//! Every moment is a number of milliseconds by the client's own clock.
#![tactic(auto)]

mod calls;
mod client;
mod deadline;
mod epochs;
mod laws;
mod lessons;
mod notes;
mod offers;
mod ops;
mod parts;
mod plans;
mod poisons;
mod refusals;
mod replies;
mod seen;
mod serves;

pub use client::Client;
pub use deadline::{next_beat, next_turn};
pub use laws::{
    handle_numbers_rise, handle_numbers_stay, refused_call_changes_nothing,
    repeated_reply_is_dropped, safe_note_sets_the_clock, shared_numbers_rise,
};
pub use parts::{
    Ask, AskOutcome, Beaten, ClientHandle, ClientStanding, Given, NodeCall, Outcome, Outstanding,
    Target, absence_taught, are_events_in_order, drop_reply, flush_all, has_number, is_in_order,
    is_numbered, is_plain, is_read_only, is_shareable, keep_handle, last_event, last_number,
    moment_by, noted_ops, one_line, only_reads, opened_lines, pushed, put_sequencer, put_under,
    sent_sequencer, served_line, share_of, standing_by, turn_lines, usable_handle, with_events,
    with_flushes, with_lease, with_losses, with_op, with_unknown,
};
pub use plans::AskPlan;
pub use seen::ClientFields;
