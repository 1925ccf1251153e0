//! The messages between a client and its master.

mod beats;
mod calls;
mod outs;
mod requests;

pub use beats::{Alive, Beat, Invalidation, NumberedEvent};
pub use calls::{AclNames, Call, Create, Disposition, NewNode, Open};
pub use outs::{CallResult, NewHandle, Out, Refused, Reply, Started};
pub use requests::{CallMessage, Request, Start};
