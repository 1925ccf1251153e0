//! How a call ends.
ghost use Rattle.std.specs.Prelude.{◌≡◌, Some};
ghost use Rattle.node_core.specs.Texts.{answer_text};

use crate::listings::Listing;
use crate::refusals::Fault;
use crate::stats::Stat;
use crate::texts::{HexBytes, Listed, write_number};
use crate::views::View;
use collections::{Bytes, Same};
use std::alloc::AllocError;
use std::fmt;

/// How a call ended.
#[derive(Drop)]
pub enum Answer {
    /// An Open: the client's number for the handle.
    Opened(u64),
    Closed,
    Poisoned,
    /// What a read found.
    Viewed(View),
    /// What GetStat found.
    Stated(Stat),
    /// The last components of a directory's children, in order of bytes.
    Names(Listing),
    /// The bytes of a sequencer.
    Sequencer(Bytes),
    /// The end of every other call.
    Okay,
    Refused(Fault),
}

impl Clone for Answer {
    ghost is_clone = { λ s t. t ≡ s };

    fn clone(&self) -> Result<Answer, AllocError> {
        Ok(match self {
            Answer::Opened(handle) => Answer::Opened(*handle),
            Answer::Closed => Answer::Closed,
            Answer::Poisoned => Answer::Poisoned,
            Answer::Viewed(view) => Answer::Viewed(view.clone()?),
            Answer::Stated(stat) => Answer::Stated(stat.clone()?),
            Answer::Names(names) => Answer::Names(names.clone()?),
            Answer::Sequencer(bytes) => Answer::Sequencer(bytes.clone()?),
            Answer::Okay => Answer::Okay,
            Answer::Refused(fault) => Answer::Refused(*fault),
        })
    }
}

impl Same for Answer {
    ghost exact = { λ x y h. h };
}

impl fmt::Display for Answer {
    ghost output = { λ x. Some (answer_text x) };

    fn fmt<W: fmt::Write>(&self, f: &mut fmt::Formatter<W>) -> fmt::Result {
        match self {
            Answer::Opened(handle) => write_number(f, "opened ", *handle),
            Answer::Closed => f.write_str("closed"),
            Answer::Poisoned => f.write_str("poisoned"),
            Answer::Viewed(view) => write!(f, "view {view}"),
            Answer::Stated(stat) => write!(f, "stat {stat}"),
            Answer::Names(names) => {
                let listed = Listed(names.as_slice());
                write!(f, "names{listed}")
            }
            Answer::Sequencer(bytes) => {
                let hex = HexBytes(bytes.as_slice());
                write!(f, "sequencer {hex}")
            }
            Answer::Okay => f.write_str("ok"),
            Answer::Refused(fault) => write!(f, "refused {fault}"),
        }
    }
}
