//! What a client's thread does between its calls.

/// What a client's thread does after each answer of the master's.
pub trait AnswerHook {
    fn answered(&self, client: u64);
}

/// Nothing.
pub struct NoHook;

impl AnswerHook for NoHook {
    fn answered(&self, _client: u64) {}
}
