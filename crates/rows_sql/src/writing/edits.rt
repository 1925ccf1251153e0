//! The ten edits, in a transaction: each is one statement. A put of a node is one of two: which is tried first is read off the
//! node, and if that finds the row otherwise, the other one is made.
ghost use Rattle.std.specs.Prelude.{◌≡◌, ◌∷◌, [], OnOk, OnErr, IfOk, IsTrue};
ghost use Rattle.sqlite.specs.Values.{bound};
ghost use Rattle.sqlite.specs.State.{HasCleanDisk, KeepsCommit, Survives};
ghost use Rattle.sqlite.specs.Held.{state};
ghost use Rattle.rows_cell.specs.declared.tables.Edit.TheVariants.{Epoch, NextInstance, PutNode, LockGeneration, RemoveNode, PutSession, RemoveSession, EndedBelow, PutLock, RemoveLock};
ghost use Rattle.rows_sql.specs.Ongoing.{RanInside, RanCounted, Changed, Renews, IsSpared};

use crate::writing::values::{kind_as, life_as, live_as, mode_as, number, version_with};
use names_cell::Name;
use node_core::Node;
use rows_cell::{LockKey, LockRow, SessionRow};
use sqlite::{Alter, Error, Transaction};
use sqlite_value::value::ValueRef;

/// Runs one statement in a transaction.
pub(crate) fn run<S: Alter>(
    tx: &mut Transaction<'_, S>,
    sql: &str,
    params: &[ValueRef<'_>],
) -> Result<(), Error>
    ensures same { tx.new.conn.ghost_name ≡ tx.old.conn.ghost_name }
    ensures ok { HasCleanDisk (state S.Store tx.new.conn.now) → OnOk result (RanInside sql.now (bound params.now) (state S.Store tx.old.conn.now) (state S.Store tx.new.conn.now)) }
    ensures err { HasCleanDisk (state S.Store tx.new.conn.now) → OnErr result (IsSpared (state S.Store tx.old.conn.now) (state S.Store tx.new.conn.now)) }
    ensures kept { HasCleanDisk (state S.Store tx.new.conn.now) → KeepsCommit (state S.Store tx.old.conn.now) (state S.Store tx.new.conn.now) }
    ensures survives { Survives (state S.Store tx.old.conn.now) (state S.Store tx.new.conn.now) (λ _. ⊥) }
{
    tx.execute(sql, params)?;
    Ok(())
}

// Runs one statement in a transaction, and counts the rows that it changed.
fn run_counted<S: Alter>(
    tx: &mut Transaction<'_, S>,
    sql: &str,
    params: &[ValueRef<'_>],
) -> Result<usize, Error>
    ensures same { tx.new.conn.ghost_name ≡ tx.old.conn.ghost_name }
    ensures ok { HasCleanDisk (state S.Store tx.new.conn.now) → IfOk result (λ count. RanCounted sql.now (bound params.now) count (state S.Store tx.old.conn.now) (state S.Store tx.new.conn.now)) }
    ensures kept { HasCleanDisk (state S.Store tx.new.conn.now) → KeepsCommit (state S.Store tx.old.conn.now) (state S.Store tx.new.conn.now) }
    ensures survives { Survives (state S.Store tx.old.conn.now) (state S.Store tx.new.conn.now) (λ _. ⊥) }
{
    tx.execute(sql, params)
}

/// Sets the epoch.
pub(crate) fn set_epoch<S: Alter>(tx: &mut Transaction<'_, S>, epoch: u64) -> Result<(), Error>
    ensures same { tx.new.conn.ghost_name ≡ tx.old.conn.ghost_name }
    ensures ok { HasCleanDisk (state S.Store tx.new.conn.now) → OnOk result (Changed (Epoch epoch ∷ []) (state S.Store tx.old.conn.now) (state S.Store tx.new.conn.now)) }
    ensures kept { HasCleanDisk (state S.Store tx.new.conn.now) → KeepsCommit (state S.Store tx.old.conn.now) (state S.Store tx.new.conn.now) }
    ensures survives { Survives (state S.Store tx.old.conn.now) (state S.Store tx.new.conn.now) (λ _. ⊥) }
{
    let epoch = number(epoch)?;
    run(tx, "UPDATE meta SET epoch = ?1 WHERE id = 1", &[epoch])
}

/// Sets the instance of the next node. Where it is that already no row is found, and no page is written.
pub(crate) fn set_next_instance<S: Alter>(
    tx: &mut Transaction<'_, S>,
    next: u64,
) -> Result<(), Error>
    ensures same { tx.new.conn.ghost_name ≡ tx.old.conn.ghost_name }
    ensures ok { HasCleanDisk (state S.Store tx.new.conn.now) → OnOk result (Changed (NextInstance next ∷ []) (state S.Store tx.old.conn.now) (state S.Store tx.new.conn.now)) }
    ensures kept { HasCleanDisk (state S.Store tx.new.conn.now) → KeepsCommit (state S.Store tx.old.conn.now) (state S.Store tx.new.conn.now) }
    ensures survives { Survives (state S.Store tx.old.conn.now) (state S.Store tx.new.conn.now) (λ _. ⊥) }
{
    let next = number(next)?;
    run(
        tx,
        "UPDATE meta SET next_instance = ?1 WHERE id = 1 AND next_instance <> ?1",
        &[next],
    )
}

/// Sets below which number the sessions that no row names have ended.
pub(crate) fn set_ended_below<S: Alter>(
    tx: &mut Transaction<'_, S>,
    ended_below: u64,
) -> Result<(), Error>
    ensures same { tx.new.conn.ghost_name ≡ tx.old.conn.ghost_name }
    ensures ok { HasCleanDisk (state S.Store tx.new.conn.now) → OnOk result (Changed (EndedBelow ended_below ∷ []) (state S.Store tx.old.conn.now) (state S.Store tx.new.conn.now)) }
    ensures kept { HasCleanDisk (state S.Store tx.new.conn.now) → KeepsCommit (state S.Store tx.old.conn.now) (state S.Store tx.new.conn.now) }
    ensures survives { Survives (state S.Store tx.old.conn.now) (state S.Store tx.new.conn.now) (λ _. ⊥) }
{
    let version = version_with(ended_below)?;
    run(tx, "UPDATE meta SET version = ?1 WHERE id = 1", &[version])
}

/// Puts a node: one that is there keeps the generation of its lock.
pub(crate) fn put_node<S: Alter>(
    tx: &mut Transaction<'_, S>,
    name: &Name,
    node: &Node,
) -> Result<(), Error>
    ensures same { tx.new.conn.ghost_name ≡ tx.old.conn.ghost_name }
    ensures ok { HasCleanDisk (state S.Store tx.new.conn.now) → OnOk result (Changed (PutNode name.now node.now ∷ []) (state S.Store tx.old.conn.now) (state S.Store tx.new.conn.now)) }
    ensures kept { HasCleanDisk (state S.Store tx.new.conn.now) → KeepsCommit (state S.Store tx.old.conn.now) (state S.Store tx.new.conn.now) }
    ensures survives { Survives (state S.Store tx.old.conn.now) (state S.Store tx.new.conn.now) (λ _. ⊥) }
{
    if is_untouched(node) {
        return put_first(tx, name, node);
    }
    put_again(tx, name, node)
}

// Whether its generations are those of a new node: each later put of it raises one of them.
fn is_untouched(node: &Node) -> bool {
    node.content_generation <= 1 && node.acl_generation <= 1
}

// Puts a node that is most likely new. An INSERT that is refused changes nothing, so if there is a row of this name after all,
// it is put as one that is there.
fn put_first<S: Alter>(tx: &mut Transaction<'_, S>, name: &Name, node: &Node) -> Result<(), Error>
    ensures same { tx.new.conn.ghost_name ≡ tx.old.conn.ghost_name }
    ensures ok { HasCleanDisk (state S.Store tx.new.conn.now) → OnOk result (Changed (PutNode name.now node.now ∷ []) (state S.Store tx.old.conn.now) (state S.Store tx.new.conn.now)) }
    ensures kept { HasCleanDisk (state S.Store tx.new.conn.now) → KeepsCommit (state S.Store tx.old.conn.now) (state S.Store tx.new.conn.now) }
    ensures survives { Survives (state S.Store tx.old.conn.now) (state S.Store tx.new.conn.now) (λ _. ⊥) }
{
    match add_node(tx, name, node) {
        Ok(()) => Ok(()),
        Err(_error) => put_again(tx, name, node),
    }
}

// Puts a node that is most likely there.
fn put_again<S: Alter>(tx: &mut Transaction<'_, S>, name: &Name, node: &Node) -> Result<(), Error>
    ensures same { tx.new.conn.ghost_name ≡ tx.old.conn.ghost_name }
    ensures ok { HasCleanDisk (state S.Store tx.new.conn.now) → OnOk result (Changed (PutNode name.now node.now ∷ []) (state S.Store tx.old.conn.now) (state S.Store tx.new.conn.now)) }
    ensures inside { HasCleanDisk (state S.Store tx.new.conn.now) → OnOk result (IsTrue (state S.Store tx.old.conn.now).in_transaction) }
    ensures kept { HasCleanDisk (state S.Store tx.new.conn.now) → KeepsCommit (state S.Store tx.old.conn.now) (state S.Store tx.new.conn.now) }
    ensures survives { Survives (state S.Store tx.old.conn.now) (state S.Store tx.new.conn.now) (λ _. ⊥) }
{
    if renew_entry(tx, name, node)? {
        return Ok(());
    }
    add_node(tx, name, node)
}

// Puts the row of a node that is there, and answers whether it is.
fn renew_entry<S: Alter>(
    tx: &mut Transaction<'_, S>,
    name: &Name,
    node: &Node,
) -> Result<bool, Error>
    ensures same { tx.new.conn.ghost_name ≡ tx.old.conn.ghost_name }
    ensures ok { HasCleanDisk (state S.Store tx.new.conn.now) → IfOk result (λ there. Renews name.now node.now there (state S.Store tx.old.conn.now) (state S.Store tx.new.conn.now)) }
    ensures kept { HasCleanDisk (state S.Store tx.new.conn.now) → KeepsCommit (state S.Store tx.old.conn.now) (state S.Store tx.new.conn.now) }
    ensures survives { Survives (state S.Store tx.old.conn.now) (state S.Store tx.new.conn.now) (λ _. ⊥) }
{
    let instance = number(node.instance)?;
    let content_generation = number(node.content_generation)?;
    let acl_generation = number(node.acl_generation)?;
    let count = run_counted(
        tx,
        "UPDATE nodes SET instance = ?2, kind = ?3, life = ?4, content_gen = ?5, acl_gen = ?6, acl_read = ?7, acl_write = ?8, acl_change = ?9, content = ?10 WHERE name = ?1",
        &[
            ValueRef::Text(name.as_str().as_bytes()),
            instance,
            kind_as(node.kind),
            life_as(node.life),
            content_generation,
            acl_generation,
            ValueRef::Text(node.read.as_str().as_bytes()),
            ValueRef::Text(node.write.as_str().as_bytes()),
            ValueRef::Text(node.change.as_str().as_bytes()),
            ValueRef::Blob(node.content.as_slice()),
        ],
    )?;
    Ok(count != 0)
}

// Puts a node that isn't there.
fn add_node<S: Alter>(tx: &mut Transaction<'_, S>, name: &Name, node: &Node) -> Result<(), Error>
    ensures same { tx.new.conn.ghost_name ≡ tx.old.conn.ghost_name }
    ensures ok { HasCleanDisk (state S.Store tx.new.conn.now) → OnOk result (Changed (PutNode name.now node.now ∷ []) (state S.Store tx.old.conn.now) (state S.Store tx.new.conn.now)) }
    ensures err { HasCleanDisk (state S.Store tx.new.conn.now) → OnErr result (IsSpared (state S.Store tx.old.conn.now) (state S.Store tx.new.conn.now)) }
    ensures kept { HasCleanDisk (state S.Store tx.new.conn.now) → KeepsCommit (state S.Store tx.old.conn.now) (state S.Store tx.new.conn.now) }
    ensures survives { Survives (state S.Store tx.old.conn.now) (state S.Store tx.new.conn.now) (λ _. ⊥) }
{
    let instance = number(node.instance)?;
    let content_generation = number(node.content_generation)?;
    let acl_generation = number(node.acl_generation)?;
    run(
        tx,
        "INSERT INTO nodes (name, instance, kind, life, content_gen, acl_gen, lock_gen, acl_read, acl_write, acl_change, content) VALUES (?1, ?2, ?3, ?4, ?5, ?6, 0, ?7, ?8, ?9, ?10)",
        &[
            ValueRef::Text(name.as_str().as_bytes()),
            instance,
            kind_as(node.kind),
            life_as(node.life),
            content_generation,
            acl_generation,
            ValueRef::Text(node.read.as_str().as_bytes()),
            ValueRef::Text(node.write.as_str().as_bytes()),
            ValueRef::Text(node.change.as_str().as_bytes()),
            ValueRef::Blob(node.content.as_slice()),
        ],
    )
}

/// Sets the generation of a node's lock, where the node is there.
pub(crate) fn set_lock_generation<S: Alter>(
    tx: &mut Transaction<'_, S>,
    name: &Name,
    generation: u64,
) -> Result<(), Error>
    ensures same { tx.new.conn.ghost_name ≡ tx.old.conn.ghost_name }
    ensures ok { HasCleanDisk (state S.Store tx.new.conn.now) → OnOk result (Changed (LockGeneration name.now generation ∷ []) (state S.Store tx.old.conn.now) (state S.Store tx.new.conn.now)) }
    ensures kept { HasCleanDisk (state S.Store tx.new.conn.now) → KeepsCommit (state S.Store tx.old.conn.now) (state S.Store tx.new.conn.now) }
    ensures survives { Survives (state S.Store tx.old.conn.now) (state S.Store tx.new.conn.now) (λ _. ⊥) }
{
    let generation = number(generation)?;
    run(
        tx,
        "UPDATE nodes SET lock_gen = ?2 WHERE name = ?1",
        &[ValueRef::Text(name.as_str().as_bytes()), generation],
    )
}

/// Removes a node, and its locks: the reference of the schema takes these with it.
pub(crate) fn remove_node<S: Alter>(tx: &mut Transaction<'_, S>, name: &Name) -> Result<(), Error>
    ensures same { tx.new.conn.ghost_name ≡ tx.old.conn.ghost_name }
    ensures ok { HasCleanDisk (state S.Store tx.new.conn.now) → OnOk result (Changed (RemoveNode name.now ∷ []) (state S.Store tx.old.conn.now) (state S.Store tx.new.conn.now)) }
    ensures kept { HasCleanDisk (state S.Store tx.new.conn.now) → KeepsCommit (state S.Store tx.old.conn.now) (state S.Store tx.new.conn.now) }
    ensures survives { Survives (state S.Store tx.old.conn.now) (state S.Store tx.new.conn.now) (λ _. ⊥) }
{
    run(
        tx,
        "DELETE FROM nodes WHERE name = ?1",
        &[ValueRef::Text(name.as_str().as_bytes())],
    )
}

/// Puts a session, also to end it.
pub(crate) fn put_session<S: Alter>(
    tx: &mut Transaction<'_, S>,
    client: u64,
    session: &SessionRow,
) -> Result<(), Error>
    ensures same { tx.new.conn.ghost_name ≡ tx.old.conn.ghost_name }
    ensures ok { HasCleanDisk (state S.Store tx.new.conn.now) → OnOk result (Changed (PutSession client session.now ∷ []) (state S.Store tx.old.conn.now) (state S.Store tx.new.conn.now)) }
    ensures kept { HasCleanDisk (state S.Store tx.new.conn.now) → KeepsCommit (state S.Store tx.old.conn.now) (state S.Store tx.new.conn.now) }
    ensures survives { Survives (state S.Store tx.old.conn.now) (state S.Store tx.new.conn.now) (λ _. ⊥) }
{
    let client = number(client)?;
    let principal = session.principal.as_str().as_bytes();
    let live = live_as(session.live);
    run(
        tx,
        "INSERT INTO sessions (client, principal, live) VALUES (?1, ?2, ?3) ON CONFLICT (client) DO UPDATE SET principal = excluded.principal, live = excluded.live",
        &[client, ValueRef::Text(principal), live],
    )
}

/// Removes a session.
pub(crate) fn remove_session<S: Alter>(
    tx: &mut Transaction<'_, S>,
    client: u64,
) -> Result<(), Error>
    ensures same { tx.new.conn.ghost_name ≡ tx.old.conn.ghost_name }
    ensures ok { HasCleanDisk (state S.Store tx.new.conn.now) → OnOk result (Changed (RemoveSession client ∷ []) (state S.Store tx.old.conn.now) (state S.Store tx.new.conn.now)) }
    ensures kept { HasCleanDisk (state S.Store tx.new.conn.now) → KeepsCommit (state S.Store tx.old.conn.now) (state S.Store tx.new.conn.now) }
    ensures survives { Survives (state S.Store tx.old.conn.now) (state S.Store tx.new.conn.now) (λ _. ⊥) }
{
    let client = number(client)?;
    run(tx, "DELETE FROM sessions WHERE client = ?1", &[client])
}

/// Puts a holder of a lock, or a lapsed lock.
pub(crate) fn put_lock<S: Alter>(
    tx: &mut Transaction<'_, S>,
    key: &LockKey,
    row: &LockRow,
) -> Result<(), Error>
    ensures same { tx.new.conn.ghost_name ≡ tx.old.conn.ghost_name }
    ensures ok { HasCleanDisk (state S.Store tx.new.conn.now) → OnOk result (Changed (PutLock key.now row.now ∷ []) (state S.Store tx.old.conn.now) (state S.Store tx.new.conn.now)) }
    ensures kept { HasCleanDisk (state S.Store tx.new.conn.now) → KeepsCommit (state S.Store tx.old.conn.now) (state S.Store tx.new.conn.now) }
    ensures survives { Survives (state S.Store tx.old.conn.now) (state S.Store tx.new.conn.now) (λ _. ⊥) }
{
    let instance = number(key.instance)?;
    let client = number(key.client)?;
    let handle = number(key.handle)?;
    let mode = mode_as(row.state);
    let delay = number(row.delay)?;
    run(
        tx,
        "INSERT INTO locks (instance, client, handle, mode, delay) VALUES (?1, ?2, ?3, ?4, ?5) ON CONFLICT (instance, client, handle) DO UPDATE SET mode = excluded.mode, delay = excluded.delay",
        &[instance, client, handle, mode, delay],
    )
}

/// Removes a holder of a lock, or a lapsed lock.
pub(crate) fn remove_lock<S: Alter>(tx: &mut Transaction<'_, S>, key: &LockKey) -> Result<(), Error>
    ensures same { tx.new.conn.ghost_name ≡ tx.old.conn.ghost_name }
    ensures ok { HasCleanDisk (state S.Store tx.new.conn.now) → OnOk result (Changed (RemoveLock key.now ∷ []) (state S.Store tx.old.conn.now) (state S.Store tx.new.conn.now)) }
    ensures kept { HasCleanDisk (state S.Store tx.new.conn.now) → KeepsCommit (state S.Store tx.old.conn.now) (state S.Store tx.new.conn.now) }
    ensures survives { Survives (state S.Store tx.old.conn.now) (state S.Store tx.new.conn.now) (λ _. ⊥) }
{
    let instance = number(key.instance)?;
    let client = number(key.client)?;
    let handle = number(key.handle)?;
    run(
        tx,
        "DELETE FROM locks WHERE instance = ?1 AND client = ?2 AND handle = ?3",
        &[instance, client, handle],
    )
}
