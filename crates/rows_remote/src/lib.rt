//! The rows of a cell, kept by the program that started the master: they are asked for in one stream, and the answers
//! come in another.
#![tactic(auto)]

mod answers;
mod asked;
mod edits;
mod frames;
mod history;
mod holders;
mod inputs;
mod kinds;
mod laws;
mod nodes;
mod outputs;
mod records;
mod rows;
mod streams;
mod texts;
mod told;

pub use answers::read_answer;
pub use asked::{EDITS_AT, read_asked, write_commit, write_load};
pub use edits::read_edit;
pub use frames::{KeeperAnswer, KeeperQuestion, Own, Row, Whole};
pub use history::KeeperLog;
pub use kinds::{AskedKind, EditKind, KeeperAnswerKind, RowKind};
pub use laws::{
    edits_stand_behind, read_answer_was_written, read_asked_was_written, rows_stand_behind,
    written_answer_is_read, written_asked_is_read,
};
pub use records::{FrameRecords, KeeperHistory, KeeperStanding};
pub use told::{write_front, write_kept, write_refused, write_row};
