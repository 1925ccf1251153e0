//! Clients in threads of their own over one master behind one lock.
#![tactic(auto)]

mod bounds;
mod clients;
mod letters;
mod live;
mod players;
mod runs;
mod turns;
mod viewers;

pub use live::{live_with, new_cell};
pub use runs::{give_up, retire, run_clients};
pub use turns::{AnswerHook, NoHook};
