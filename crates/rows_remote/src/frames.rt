//! What is asked of the program that keeps the rows, and what it answers.
use collections::{Items, Secret};
use names_cell::{Component, Name};
use rows_cell::{Edit, LockKey, LockRow, SessionRow, StoredNode};

/// One row of a cell, as it is told.
#[derive(Drop)]
pub enum Row {
    Node(Name, StoredNode),
    /// By client number.
    Session(u64, SessionRow),
    Lock(LockKey, LockRow),
}

/// All rows of a cell, as they are told: of two rows with the same key the later one stands.
#[derive(Drop)]
pub struct Whole {
    /// How many commits made them.
    pub number: u64,
    pub cell: Component,
    pub secret: Secret,
    /// How many masters came up.
    pub epoch: u64,
    /// The instance of the next node.
    pub next_instance: u64,
    /// A client number below it that has no session gets none any more.
    pub ended_below: u64,
    pub rows: Items<Row>,
}

/// Of these rows all that is told before the first of them.
#[derive(Drop)]
pub struct Own {
    /// How many commits made them.
    pub number: u64,
    pub cell: Component,
    pub secret: Secret,
    /// How many masters came up.
    pub epoch: u64,
    /// The instance of the next node.
    pub next_instance: u64,
    /// A client number below it that has no session gets none any more.
    pub ended_below: u64,
}

/// What is asked of the program that keeps the rows.
#[derive(Drop)]
pub enum KeeperQuestion {
    /// All rows.
    Load,
    /// That these edits be done, all of them or none, as the commit of this number.
    Commit(u64, Items<Edit>),
}

/// What it answers.
#[derive(Drop)]
pub enum KeeperAnswer {
    /// All rows, as they stand.
    Rows(Whole),
    /// The edits stand.
    Kept,
    /// They don't, or that isn't known.
    Refused,
}
