//! A world: records, a master while one is up, clients, and the messages between them. What holds of every world, and of every
//! run of its steps, is defined here and proved from the table of steps.
#![tactic(auto)]

mod answers;
mod runs;
mod worlds;

pub use answers::answers_are_shown;
pub use world_steps::Step;
pub use worlds::World;
