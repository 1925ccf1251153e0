//! What may be done in a world.
use client_core::Ask;
use collections::Items;
use names_cell::Principal;
use tags_cell::ClientNumber;

/// How the clocks move, in milliseconds.
#[derive(Drop)]
pub struct Ticks {
    /// The master's.
    pub master: u64,
    /// That of each client that has no step of its own.
    pub clients: u64,
    /// Steps of single clients, by their numbers. The first of a number counts.
    pub own: Items<(u64, u64)>,
}

/// What becomes of the commit of a step that a crash cuts.
#[derive(Clone, Copy, Debug, PartialEq, Eq)]
pub enum Commit {
    Kept,
    Lost,
}

/// What may be done in a world. Messages are numbered from 1 in the order in which they were sent, in both directions
/// together, and may be delivered in any order, any number of times, or never.
#[derive(Drop)]
pub enum Step {
    /// A master comes up, its clock at this moment in milliseconds.
    Up(u64),
    /// A client of this number joins, which acts for the principal.
    Join(ClientNumber, Principal),
    /// The client of this number is asked for a call.
    Ask(u64, Ask),
    /// The client of this number is asked for what keeps its session.
    Beat(u64),
    /// The clocks move.
    Tick(Ticks),
    /// The message of this number comes to the master.
    Take(u64),
    /// The message of this number comes to its client.
    Give(u64),
    Sweep,
    /// The lowest client's Beat that is due is answered, where its session's timeout hasn't come; nothing is committed. So a
    /// master keeps sessions alive whose store refuses.
    Beats,
    /// The master is gone; the rows stay.
    Down,
    /// A sweep that a crash cuts after its commit, or before: nothing is sent, and the master is gone.
    CutSweep(Commit),
    /// The same of a master that comes up at this moment.
    CutUp(u64, Commit),
}
