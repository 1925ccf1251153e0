//! Of which kind a row, an edit, a question or an answer is: the byte in front of its fields.
use rows_cell::LockState;

/// Of which kind a row is.
#[derive(Clone, Copy)]
pub enum RowKind {
    Node,
    Session,
    Lock,
}

pub(crate) const ROW_KINDS: [RowKind; 3] = [RowKind::Node, RowKind::Session, RowKind::Lock];

/// Of which kind an edit is.
#[derive(Clone, Copy)]
pub enum EditKind {
    Epoch,
    NextInstance,
    PutNode,
    LockGeneration,
    RemoveNode,
    PutSession,
    PutLock,
    RemoveLock,
    RemoveSession,
    EndedBelow,
}

pub(crate) const EDIT_KINDS: [EditKind; 10] = [
    EditKind::Epoch,
    EditKind::NextInstance,
    EditKind::PutNode,
    EditKind::LockGeneration,
    EditKind::RemoveNode,
    EditKind::PutSession,
    EditKind::PutLock,
    EditKind::RemoveLock,
    EditKind::RemoveSession,
    EditKind::EndedBelow,
];

/// Of which kind it is what is asked.
#[derive(Clone, Copy)]
pub enum AskedKind {
    Load,
    Commit,
}

pub(crate) const ASKED_KINDS: [AskedKind; 2] = [AskedKind::Load, AskedKind::Commit];

/// Of which kind an answer is.
#[derive(Clone, Copy)]
pub enum KeeperAnswerKind {
    Rows,
    Kept,
    Refused,
}

pub(crate) const ANSWER_KINDS: [KeeperAnswerKind; 3] = [
    KeeperAnswerKind::Rows,
    KeeperAnswerKind::Kept,
    KeeperAnswerKind::Refused,
];

// How a lock may stand, each at its place.
pub(crate) const LOCK_STATES: [LockState; 3] = [
    LockState::Lapsed,
    LockState::Exclusive,
    LockState::Shared,
];
