//! What a run tells.
use crate::twins::are_same;
use std::alloc::Global;
use world_steps::Message;

/// What a run prints, and what the client and the watch sent one another.
#[derive(Drop)]
pub(crate) struct Told {
    pub text: String,
    pub sent: Vec<Message>,
}

impl Told {
    /// Nothing.
    pub(crate) fn new(alloc: Global) -> Told {
        Told {
            text: String::new(alloc),
            sent: Vec::new(alloc),
        }
    }

    /// Whether both tell the same.
    pub(crate) fn is_as(&self, other: &Told) -> bool {
        self.text.as_str() == other.text.as_str()
            && are_same(self.sent.as_slice(), other.sent.as_slice())
    }
}
