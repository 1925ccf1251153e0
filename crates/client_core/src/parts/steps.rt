//! What comes of a message, and of the asking for a Beat.

use collections::Items;
use node_core::{Fault, Line};
use tags_cell::Request;

/// What comes of a message that a client was given.
#[derive(Drop)]
pub struct Given {
    /// The lines that are printed, but for that of a refusal.
    pub lines: Items<Line>,
    /// The client refused it, as ProtocolFault: no master sends such a message.
    pub refused: Option<Fault>,
}

/// What comes of it where a client is asked for a Start or a Beat.
#[derive(Drop)]
pub struct Beaten {
    /// The lines that are printed.
    pub lines: Items<Line>,
    /// The Start or the Beat, for the master.
    pub request: Option<Request>,
}
