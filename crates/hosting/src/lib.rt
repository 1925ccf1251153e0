//! A master that another program starts: frames come in a stream, each is answered by a step and by sweeps until one is quiet,
//! and the answers go into another stream.
#![tactic(auto)]

mod answers;
mod blocks;
mod frames;
mod gathers;
mod groups;
mod heard;
mod held;
mod holds;
mod inputs;
mod kinds;
mod laws;
mod outputs;
mod pieces;
mod runs;
mod seats;
mod settling;
mod standing;
mod stops;
mod streams;
mod sweeping;
mod tellings;

pub use answers::{Answered, answer};
pub use blocks::{ANSWER_LIMIT, BLOCK_LIMIT};
pub use frames::{Frame, carry_message, read_frame, write_frame};
pub use gathers::GROUP_LIMIT;
pub use groups::serve_groups;
pub use heard::read_told;
pub use holds::Group;
pub use kinds::{FrameKind, ToldKind};
pub use laws::{
    carried_is_read, framed_is_next, frames_are_of_format, read_frame_was_written,
    read_told_was_written, told_is_next, written_frame_is_read, written_told_is_read,
};
pub use outputs::write_reply;
pub use pieces::{GroupLimits, GroupTerms};
pub use runs::{TimedRequest, serve};
pub use seats::{FrameReply, HostedMaster};
pub use settling::{End, Round, SWEEP_LIMIT, Settled, settle};
pub use standing::{Delay, LONGEST_LIMIT, MasterCounts, MasterStanding, Recovery, standing_of};
pub use stops::{GroupStop, StreamStop};
pub use streams::{Turned, serve_on};
pub use tellings::{
    MasterFrame, write_awaited, write_bad, write_counts, write_end, write_line, write_message,
    write_recovers, write_touches, write_waits,
};
