//! When a client has something to do next, by its own clock.

mod beats;
mod moments;
mod turns;

pub use beats::next_beat;
pub use turns::next_turn;
