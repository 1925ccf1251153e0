//! What messages carry: numbers in their ranges, modes and masks, and the bytes of handles and sequencers.
#![tactic(auto)]

mod clients;
mod delays;
mod digits;
mod handle_bytes;
mod handle_faults;
mod handles;
mod laws;
mod masks;
mod messages;
mod modes;
mod numbers;
mod ordinals;
mod places;
mod sequencer_faults;
mod sequencers;

pub use clients::ClientNumber;
pub use delays::LockDelay;
pub use handle_bytes::HandleBytes;
pub use handle_faults::HandleFault;
pub use handles::Handle;
pub use laws::{
    bytes_tell_handles, bytes_tell_sequencers, read_sequencer_was_written, read_was_written,
    written_is_read, written_sequencer_is_read,
};
pub use masks::Events;
pub use messages::{
    AclNames, Alive, Beat, Call, CallMessage, CallResult, Create, Disposition, Invalidation,
    NewHandle, NewNode, NumberedEvent, Open, Out, Refused, Reply, Request, Start, Started,
};
pub use modes::Mode;
pub use numbers::MessageNumber;
pub use ordinals::Ordinal;
pub use sequencer_faults::SequencerFault;
pub use sequencers::Sequencer;
