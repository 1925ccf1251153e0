//! The bytes of the messages between a client and its master, and of the lines that are printed.
#![tactic(auto)]

mod beats;
mod calls;
mod choices;
mod events;
mod faults;
mod inputs;
mod kinds;
mod laws;
mod lines;
mod messages;
mod numbers;
mod opens;
mod outputs;
mod outs;
mod refusals;
mod requests;
mod results;
mod texts;

pub use faults::WireFault;
pub use laws::{
    bytes_are_of_format, read_line_was_written, read_out_was_written, read_request_was_written,
    written_line_is_read, written_out_is_read, written_request_is_read,
};
pub use messages::{
    VERSION, read_line, read_out, read_request, write_line, write_out, write_request,
};
