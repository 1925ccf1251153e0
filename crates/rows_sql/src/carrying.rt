//! Taking a store of an earlier version over.
ghost use Rattle.std.specs.Prelude.{◌≡◌, ◌<◌, true, false, Err, IfOk, IfErr, OnOk};
ghost use Rattle.node_core.specs.Limits.{number_limit};
ghost use Rattle.sqlite.specs.State.{HasCleanDisk};
ghost use Rattle.sqlite.specs.Held.{state};
ghost use Rattle.rows_cell.specs.Sound.{sound};
ghost use Rattle.rows_cell.specs.declared.tables.Rows.{Rows as Held};
ghost use Rattle.rows_sql.specs.OurSchema.{first_schema};
ghost use Rattle.rows_sql.specs.Versions.{schema_of, HasFifth};
ghost use Rattle.rows_sql.specs.declared.schema.ours.Version.TheVariants.{First};
ghost use Rattle.rows_sql.specs.Held.{SaysAs};
ghost use Rattle.rows_sql.specs.Ready.{IsReadyAs, IsStillAs, QuietAs, tables_as};
ghost use Rattle.rows_sql.specs.Adopting.{IsAnew, IsAtItsEnd, IsTaken, IsLeftAlone};
ghost use Rattle.rows_sql.specs.Carryings.{Becomes, Remains};

use crate::reading::load_as;
use crate::schema::Version;
use crate::writing::carry_over;
use node_core::NUMBER_LIMIT;
use rows_cell::{Rows, Settings, StoreFault, is_sound};
use sqlite::{Alter, Connection};
use std::alloc::Global;

/// The rows of a store of this version, where a cell of this name may have them.
pub(crate) fn load_sound_as<S: Alter>(
    alloc: Global,
    conn: &mut Connection<S>,
    settings: &Settings,
    version: Version,
) -> Result<Rows, StoreFault>
    ensures rows { HasCleanDisk (state S.Store conn.new) → IsReadyAs version (state S.Store conn.old) → IfOk result (λ rows. SaysAs version (tables_as version (state S.Store conn.old).now.trees) rows) }
    ensures fits { IfOk result (λ rows. sound settings.now.cell rows ≡ true) }
    ensures damaged { HasCleanDisk (state S.Store conn.new) → IsReadyAs version (state S.Store conn.old) → result ≡ Err StoreFault.Damaged → (rows : Held) → SaysAs version (tables_as version (state S.Store conn.old).now.trees) rows → sound settings.now.cell rows ≡ false }
    ensures counted { result ≡ Err StoreFault.Exhausted → ⊥ }
    ensures quiet { QuietAs version S.Store conn.old conn.new }
    ensures still { HasCleanDisk (state S.Store conn.new) → IsReadyAs version (state S.Store conn.old) → OnOk result (IsStillAs version (state S.Store conn.old) (state S.Store conn.new)) }
{
    let rows = load_as(alloc, conn, version)?;
    if !is_sound(alloc, settings.cell(), &rows)? {
        return Err(StoreFault::Damaged);
    }
    Ok(rows)
}

// The rows of a store of the first version, where a cell of this name may have them, and its epoch can go on.
#[tactic(auto, using(crate::proofs::Carryings::epoch_low, crate::proofs::Carryings::epoch_last))]
fn load_first<S: Alter>(
    alloc: Global,
    conn: &mut Connection<S>,
    settings: &Settings,
) -> Result<Rows, StoreFault>
    ensures rows { HasCleanDisk (state S.Store conn.new) → IsReadyAs First (state S.Store conn.old) → IfOk result (λ rows. SaysAs First (tables_as First (state S.Store conn.old).now.trees) rows) }
    ensures fits { IfOk result (λ rows. (sound settings.now.cell rows ≡ true) × (rows.epoch < number_limit)) }
    ensures damaged { HasCleanDisk (state S.Store conn.new) → IsReadyAs First (state S.Store conn.old) → result ≡ Err StoreFault.Damaged → (rows : Held) → SaysAs First (tables_as First (state S.Store conn.old).now.trees) rows → sound settings.now.cell rows ≡ false }
    ensures full { HasCleanDisk (state S.Store conn.new) → IsReadyAs First (state S.Store conn.old) → result ≡ Err StoreFault.Exhausted → (rows : Held) × SaysAs First (tables_as First (state S.Store conn.old).now.trees) rows × (sound settings.now.cell rows ≡ true) × (rows.epoch ≡ number_limit) }
    ensures quiet { QuietAs First S.Store conn.old conn.new }
    ensures still { HasCleanDisk (state S.Store conn.new) → IsReadyAs First (state S.Store conn.old) → OnOk result (IsStillAs First (state S.Store conn.old) (state S.Store conn.new)) }
{
    let rows = load_sound_as(alloc, conn, settings, Version::First)?;
    if rows.epoch == NUMBER_LIMIT {
        return Err(StoreFault::Exhausted);
    }
    Ok(rows)
}

// Carries a store over that says these rows, with this epoch.
fn carry<S: Alter>(
    conn: &mut Connection<S>,
    version: Version,
    rows: Rows,
    epoch: u64,
) -> Result<Rows, StoreFault>
    requires { conn.old.in_transaction ≡ false }
    ensures ok { IfOk result (λ next. (next ≡ record rows { epoch = epoch }) × Becomes S.Store version rows epoch conn.old conn.new) }
    ensures err { IfErr result (λ e. Remains S.Store version rows epoch conn.old conn.new) }
    ensures why { (result ≡ Err StoreFault.Damaged → ⊥) × (result ≡ Err StoreFault.Exhausted → ⊥) }
{
    let mut rows = rows;
    rows.epoch = epoch;
    match carry_over(conn, version, epoch) {
        Ok(()) => Ok(rows),
        Err(_) => Err(StoreFault::Refused),
    }
}

/// Carries a store of the first version over: its rows are tested by the rules of that version, and then one transaction
/// makes it a store of now, of the next epoch.
pub(crate) fn take_first<S: Alter>(
    alloc: Global,
    conn: &mut Connection<S>,
    settings: &Settings,
) -> Result<Rows, StoreFault>
    requires anew { IsAnew (state S.Store conn.old) }
    requires first { (state S.Store conn.old).now.schema ≡ first_schema }
    ensures ok { IfOk result (λ rows. IsTaken S.Store settings.now conn.old conn.new rows) }
    ensures err { IfErr result (λ e. IsLeftAlone S.Store settings.now conn.old conn.new) }
    ensures why { HasCleanDisk (state S.Store conn.new) → result ≡ Err StoreFault.Damaged → (rows : Held) → SaysAs First (tables_as First (state S.Store conn.old).now.trees) rows → sound settings.now.cell rows ≡ false }
    ensures full { HasCleanDisk (state S.Store conn.new) → result ≡ Err StoreFault.Exhausted → IsAtItsEnd settings.now.cell (state S.Store conn.old).now }
{
    let rows = load_first(alloc, conn, settings)?;
    let epoch = rows.epoch + 1;
    carry(conn, Version::First, rows, epoch)
}

/// Carries a store of the second version over, with its last index or without it: its rows are tested by the rules of that
/// version, and then one transaction makes it a store of now. They stay as they are.
pub(crate) fn take_second<S: Alter>(
    alloc: Global,
    conn: &mut Connection<S>,
    settings: &Settings,
    version: Version,
) -> Result<Rows, StoreFault>
    requires anew { IsAnew (state S.Store conn.old) }
    requires second { HasFifth version }
    requires ours { (state S.Store conn.old).now.schema ≡ schema_of version }
    ensures ok { IfOk result (λ rows. IsTaken S.Store settings.now conn.old conn.new rows) }
    ensures err { IfErr result (λ e. IsLeftAlone S.Store settings.now conn.old conn.new) }
    ensures why { HasCleanDisk (state S.Store conn.new) → result ≡ Err StoreFault.Damaged → (rows : Held) → SaysAs version (tables_as version (state S.Store conn.old).now.trees) rows → sound settings.now.cell rows ≡ false }
    ensures counted { result ≡ Err StoreFault.Exhausted → ⊥ }
{
    let rows = load_sound_as(alloc, conn, settings, version)?;
    let epoch = rows.epoch;
    carry(conn, version, rows, epoch)
}
