//! A change, done in one transaction.
ghost use Rattle.std.specs.Prelude.{◌≡◌, ◌∷◌, [], false, drop, OnOk, OnErr};
ghost use Rattle.std.specs.List.{list_any};
ghost use Rattle.sqlite.specs.State.{HasCleanDisk, KeepsCommit, Survives};
ghost use Rattle.sqlite.specs.Held.{state};
ghost use Rattle.rows_sql.specs.Ongoing.{Changed, Committed, MayCommit};
ghost use Rattle.rows_sql.specs.Overtaken.{sets_next, is_overtaken, GoesOver};

use crate::writing::edits::{
    put_lock, put_node, put_session, remove_lock, remove_node, remove_session, set_ended_below,
    set_epoch, set_lock_generation, set_next_instance,
};
use rows_cell::Edit;
use sqlite::{Alter, Connection, Error, Transaction};

// Does one edit.
fn edit<S: Alter>(tx: &mut Transaction<'_, S>, edit: &Edit) -> Result<(), Error>
    ensures same { tx.new.conn.ghost_name ≡ tx.old.conn.ghost_name }
    ensures ok { HasCleanDisk (state S.Store tx.new.conn.now) → OnOk result (Changed (edit.now ∷ []) (state S.Store tx.old.conn.now) (state S.Store tx.new.conn.now)) }
    ensures kept { HasCleanDisk (state S.Store tx.new.conn.now) → KeepsCommit (state S.Store tx.old.conn.now) (state S.Store tx.new.conn.now) }
    ensures survives { Survives (state S.Store tx.old.conn.now) (state S.Store tx.new.conn.now) (λ _. ⊥) }
{
    match edit {
        Edit::Epoch(epoch) => set_epoch(tx, *epoch),
        Edit::NextInstance(next) => set_next_instance(tx, *next),
        Edit::PutNode(name, node) => put_node(tx, name, node),
        Edit::LockGeneration(name, generation) => set_lock_generation(tx, name, *generation),
        Edit::RemoveNode(name) => remove_node(tx, name),
        Edit::PutSession(client, session) => put_session(tx, *client, session),
        Edit::RemoveSession(client) => remove_session(tx, *client),
        Edit::EndedBelow(next) => set_ended_below(tx, *next),
        Edit::PutLock(key, row) => put_lock(tx, key, row),
        Edit::RemoveLock(key) => remove_lock(tx, key),
    }
}

fn sets_next(edit: &Edit) -> bool
    ensures { result ≡ sets_next edit.now }
{
    matches!(edit, Edit::NextInstance(_))
}

/// Whether one of the edits says a next instance.
pub(crate) fn any_sets_next(edits: &[Edit]) -> bool
    ensures { result ≡ list_any sets_next edits.now }
{
    edits.iter().any(|edit| sets_next(edit))
}

// Whether it says a next instance, and a later edit says one again.
fn is_overtaken(edit: &Edit, later: &[Edit]) -> bool
    ensures { result ≡ is_overtaken edit.now later.now }
{
    sets_next(edit) && any_sets_next(later)
}

// Does one edit, or leaves it to a later one.
fn edit_or_leave<S: Alter>(
    tx: &mut Transaction<'_, S>,
    it: &Edit,
    later: &[Edit],
) -> Result<(), Error>
    ensures same { tx.new.conn.ghost_name ≡ tx.old.conn.ghost_name }
    ensures ok { HasCleanDisk (state S.Store tx.new.conn.now) → OnOk result (GoesOver it.now later.now (state S.Store tx.old.conn.now) (state S.Store tx.new.conn.now)) }
    ensures kept { HasCleanDisk (state S.Store tx.new.conn.now) → KeepsCommit (state S.Store tx.old.conn.now) (state S.Store tx.new.conn.now) }
    ensures survives { Survives (state S.Store tx.old.conn.now) (state S.Store tx.new.conn.now) (λ _. ⊥) }
{
    if is_overtaken(it, later) {
        return Ok(());
    }
    edit(tx, it)
}

// The edits after the first.
fn after_first(edits: &[Edit]) -> &[Edit]
    ensures { result.now ≡ drop 1 edits.now }
{
    match edits {
        [] => edits,
        [_, rest @ ..] => rest,
    }
}

/// Does the edits in order. The next instance is set once: if a change says several, the last one stands. Each edit is one
/// statement, and one that says a next instance looks among those after it for the next such edit.
pub(crate) fn edit_all<S: Alter>(tx: &mut Transaction<'_, S>, change: &[Edit]) -> Result<(), Error>
    ensures same { tx.new.conn.ghost_name ≡ tx.old.conn.ghost_name }
    ensures ok { HasCleanDisk (state S.Store tx.new.conn.now) → OnOk result (Changed change.now (state S.Store tx.old.conn.now) (state S.Store tx.new.conn.now)) }
    ensures kept { HasCleanDisk (state S.Store tx.new.conn.now) → KeepsCommit (state S.Store tx.old.conn.now) (state S.Store tx.new.conn.now) }
    ensures survives { Survives (state S.Store tx.old.conn.now) (state S.Store tx.new.conn.now) (λ _. ⊥) }
{
    let mut later = change;
    for it in change {
        later = after_first(later);
        edit_or_leave(tx, it, later)?;
    }
    Ok(())
}

/// Does the edits in order, in one transaction: all of them, or none where the database refuses one. It refuses want of
/// memory, what the file's disk refuses, a number above 2^63-1, a node whose instance another node has, another instance
/// for a node that has locks, and a lock of no node.
pub fn commit_all<S: Alter>(conn: &mut Connection<S>, change: &[Edit]) -> Result<(), Error>
    requires { conn.old.in_transaction ≡ false }
    ensures ended { conn.new.in_transaction ≡ false }
    ensures ok { HasCleanDisk (state S.Store conn.new) → OnOk result (Committed change.now (state S.Store conn.old) (state S.Store conn.new)) }
    ensures err { HasCleanDisk (state S.Store conn.new) → OnErr result (KeepsCommit (state S.Store conn.old) (state S.Store conn.new)) }
    ensures survives { Survives (state S.Store conn.old) (state S.Store conn.new) (MayCommit change.now (state S.Store conn.old)) }
{
    let mut tx = conn.transaction();
    edit_all(&mut tx, change)?;
    tx.commit()
}
