//! A store of an earlier version, carried over in one transaction.
ghost use Rattle.std.specs.Prelude.{◌≡◌, false, OnOk, OnErr};
ghost use Rattle.sqlite.specs.State.{HasCleanDisk, KeepsCommit, Survives};
ghost use Rattle.sqlite.specs.Held.{state};
ghost use Rattle.rows_sql.specs.Creation.{StaysInside};
ghost use Rattle.rows_sql.specs.Carrying.{DropsChildren, LeavesFour, SetsVersion, Carries, IsCarried, MayCarry};

use crate::schema::Version;
use crate::writing::creation::make_view;
use crate::writing::edits::run;
use crate::writing::values::number;
use sqlite::{Alter, Connection, Error, Transaction};

// Drops the table of the children, and its indexes with it.
fn drop_children<S: Alter>(tx: &mut Transaction<'_, S>) -> Result<(), Error>
    ensures same { tx.new.conn.ghost_name ≡ tx.old.conn.ghost_name }
    ensures ok { HasCleanDisk (state S.Store tx.new.conn.now) → OnOk result (DropsChildren (state S.Store tx.old.conn.now) (state S.Store tx.new.conn.now)) }
    ensures stays { StaysInside (state S.Store tx.old.conn.now) (state S.Store tx.new.conn.now) }
{
    run(tx, "DROP TABLE children", &[])
}

// Leaves the four tables alone of a store of an earlier version.
fn leave_four<S: Alter>(tx: &mut Transaction<'_, S>, version: Version) -> Result<(), Error>
    ensures same { tx.new.conn.ghost_name ≡ tx.old.conn.ghost_name }
    ensures ok { HasCleanDisk (state S.Store tx.new.conn.now) → OnOk result (LeavesFour version (state S.Store tx.old.conn.now) (state S.Store tx.new.conn.now)) }
    ensures stays { StaysInside (state S.Store tx.old.conn.now) (state S.Store tx.new.conn.now) }
{
    match version {
        Version::First => Ok(()),
        Version::Third => Ok(()),
        Version::Unindexed | Version::Second => drop_children(tx),
    }
}

// Sets the number of the version, and the epoch.
fn set_version<S: Alter>(tx: &mut Transaction<'_, S>, epoch: u64) -> Result<(), Error>
    ensures same { tx.new.conn.ghost_name ≡ tx.old.conn.ghost_name }
    ensures ok { HasCleanDisk (state S.Store tx.new.conn.now) → OnOk result (SetsVersion epoch (state S.Store tx.old.conn.now) (state S.Store tx.new.conn.now)) }
    ensures stays { StaysInside (state S.Store tx.old.conn.now) (state S.Store tx.new.conn.now) }
{
    let epoch = number(epoch)?;
    run(
        tx,
        "UPDATE meta SET version = 3, epoch = ?1 WHERE id = 1",
        &[epoch],
    )
}

// Makes a store of an earlier version one of now.
fn carry<S: Alter>(tx: &mut Transaction<'_, S>, version: Version, epoch: u64) -> Result<(), Error>
    ensures same { tx.new.conn.ghost_name ≡ tx.old.conn.ghost_name }
    ensures ok { HasCleanDisk (state S.Store tx.new.conn.now) → OnOk result (Carries version epoch (state S.Store tx.old.conn.now) (state S.Store tx.new.conn.now)) }
    ensures stays { StaysInside (state S.Store tx.old.conn.now) (state S.Store tx.new.conn.now) }
{
    leave_four(tx, version)?;
    make_view(tx)?;
    set_version(tx, epoch)
}

/// Makes a store of an earlier version one of now, in one transaction: its table of children goes, if it has one, with the
/// indexes; the view of the children is made, and the number of the version and this epoch are set. All of it is done, or
/// nothing if the database refuses one of its statements. The cost is that of the table that goes.
pub fn carry_over<S: Alter>(
    conn: &mut Connection<S>,
    version: Version,
    epoch: u64,
) -> Result<(), Error>
    requires { conn.old.in_transaction ≡ false }
    ensures ended { conn.new.in_transaction ≡ false }
    ensures ok { HasCleanDisk (state S.Store conn.new) → OnOk result (IsCarried version epoch (state S.Store conn.old) (state S.Store conn.new)) }
    ensures err { HasCleanDisk (state S.Store conn.new) → OnErr result (KeepsCommit (state S.Store conn.old) (state S.Store conn.new)) }
    ensures survives { Survives (state S.Store conn.old) (state S.Store conn.new) (MayCarry version epoch (state S.Store conn.old)) }
{
    let mut tx = conn.transaction();
    carry(&mut tx, version, epoch)?;
    tx.commit()
}
