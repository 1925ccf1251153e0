//! The parts of a master in memory as one record: what is looked up in it, what a step changes in it, and what of that is
//! committed, printed and sent.
#![tactic(auto)]

mod answers;
mod departed;
mod edits;
mod lapses;
mod locks;
mod masters;
mod opens;
mod partings;
mod replies;
mod rights;
mod sends;
mod shown;
mod tellings;
mod updates;

pub use departed::Departed;
pub use edits::edits_of;
pub use lapses::{lapses_puts, lapses_replies, parting_lines};
pub use masters::Master;
pub use replies::{
    StepReply, line_if, locked_line, locked_lines, puts_of, replies_to, told_by, turn_replies,
};
pub use updates::{
    Change, FormerParts, FormerSession, Grown, KeptPut, LockPut, MapRest, Rest, SessionUpdate,
    Update, finish, grow, settle, settle_note, undo,
};
