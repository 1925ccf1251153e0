//! Rows as texts.
use crate::keys::LockKey;
use crate::tables::{LockRow, LockState, Rows, SessionRow, StoredNode};
use names_cell::Name;
use node_core::{Listing, View};
use std::alloc::{AllocError, Global};

// A directory is shown without children, which have lines of their own.
fn push_node(text: &mut String, name: &Name, stored: &StoredNode) -> Result<(), AllocError> {
    let view = View {
        node: stored.node.clone()?,
        children: Listing::new(),
    };
    let generation = stored.lock_generation;
    write!(text, "node {name} {view} {generation}\n")
}

fn push_session(text: &mut String, client: u64, session: &SessionRow) -> Result<(), AllocError> {
    let principal = session.principal.as_str();
    let live = session.live;
    write!(text, "session {client} {principal} {live}\n")
}

// Below which number clients without a session get none any more, if below any.
fn push_ended(text: &mut String, ended_below: u64) -> Result<(), AllocError> {
    if ended_below == 0 {
        return Ok(());
    }
    write!(text, "ended below {ended_below}\n")
}

fn state_text(state: LockState) -> &'static str {
    match state {
        LockState::Lapsed => "lapsed",
        LockState::Exclusive => "exclusive",
        LockState::Shared => "shared",
    }
}

fn push_lock(text: &mut String, key: &LockKey, row: &LockRow) -> Result<(), AllocError> {
    let state = state_text(row.state);
    let (instance, client, handle) = (key.instance, key.client, key.handle);
    let delay = row.delay;
    write!(text, "lock {instance} {client} {handle} {state} {delay}\n")
}

/// All that the rows hold, a line for each, but for the cell's name and its secret, which nothing changes. Refused for want of
/// memory alone. Costs what the rows hold.
pub fn text_of(alloc: Global, rows: &Rows) -> Result<String, AllocError> {
    let epoch = rows.epoch;
    let next = rows.next_instance;
    let mut text = format!(in alloc; "epoch {epoch} next {next}\n")?;
    for (name, node) in rows.nodes.as_map() {
        push_node(&mut text, name, node)?;
    }
    for (client, session) in rows.sessions.as_map() {
        push_session(&mut text, *client, session)?;
    }
    push_ended(&mut text, rows.ended_below)?;
    for (key, row) in rows.locks.as_map() {
        push_lock(&mut text, key, row)?;
    }
    Ok(text)
}
