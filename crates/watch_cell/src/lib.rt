//! A master that many threads share behind one lock: a trail of its steps under the lock, and a pass for each thread that
//! counts what its own calls did; and whether two messages, or what two steps printed and sent, are the same.
#![tactic(auto)]

mod alike;
mod closing;
mod events;
mod ledgers;
mod lines;
mod locked;
mod outs;
mod requests;
mod steps;
mod watches;

pub use alike::Alike;
pub use events::{Entry, WatchEvent};
pub use ledgers::{Blanks, Books, Shares};
pub use locked::{Closed, Locked, Opening, Pass, Receipt, Spent, serve};
pub use watches::Watch;
