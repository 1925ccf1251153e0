//! Values of a row, as SQL has them.
ghost use Rattle.std.specs.Prelude.{IfOk, ◌+◌};
ghost use Rattle.rows_sql.specs.Decode.{kind_of, life_of, live_of, lock_state_of};
ghost use Rattle.rows_sql.specs.Numbers.{IsNumber, IsReadAs};

use node_core::{Kind, Life};
use rows_cell::LockState;
use sqlite::Error;
use sqlite_value::value::ValueRef;

/// A number as SQL has it: refused above 2^63-1.
pub(crate) fn number<'a>(x: u64) -> Result<ValueRef<'a>, Error>
    ensures { IfOk result (λ v. IsNumber v x) }
{
    match i64::try_from(x) {
        Ok(n) => Ok(ValueRef::Int(n)),
        Err(_) => Err(Error::IntegralValueOutOfRange(0)),
    }
}

/// The number in the row of a cell by which sessions below this one have ended: refused above 2^63-4.
pub(crate) fn version_with<'a>(ended_below: u64) -> Result<ValueRef<'a>, Error>
    ensures { IfOk result (λ v. IsNumber v (ended_below + 3)) }
{
    match ended_below.checked_add(3) {
        Some(version) => number(version),
        None => Err(Error::IntegralValueOutOfRange(0)),
    }
}

/// How a lock stands, as SQL has it.
pub(crate) fn mode_as<'a>(state: LockState) -> ValueRef<'a>
    ensures { IsReadAs lock_state_of result state }
{
    match state {
        LockState::Lapsed => ValueRef::Int(0),
        LockState::Exclusive => ValueRef::Int(1),
        LockState::Shared => ValueRef::Int(2),
    }
}

/// A node's kind, as SQL has it.
pub(crate) fn kind_as<'a>(kind: Kind) -> ValueRef<'a>
    ensures { IsReadAs kind_of result kind }
{
    match kind {
        Kind::File => ValueRef::Int(0),
        Kind::Directory => ValueRef::Int(1),
    }
}

/// How long a node lives, as SQL has it.
pub(crate) fn life_as<'a>(life: Life) -> ValueRef<'a>
    ensures { IsReadAs life_of result life }
{
    match life {
        Life::Permanent => ValueRef::Int(0),
        Life::Ephemeral => ValueRef::Int(1),
    }
}

/// Whether a session is live, as SQL has it.
pub(crate) fn live_as<'a>(live: bool) -> ValueRef<'a>
    ensures { IsReadAs live_of result live }
{
    if live {
        ValueRef::Int(1)
    } else {
        ValueRef::Int(0)
    }
}
