//! Looking at a store.
ghost use Rattle.std.specs.Prelude.{◌≡◌, Err, IfOk};
ghost use Rattle.sqlite.specs.State.{HasCleanDisk};
ghost use Rattle.sqlite.specs.Held.{state};
ghost use Rattle.rows_cell.specs.Counts.{counts_of};
ghost use Rattle.rows_cell.specs.declared.tables.Rows.{Rows as Held};
ghost use Rattle.rows_sql.specs.declared.schema.ours.Version.{Version as Which};
ghost use Rattle.rows_sql.specs.Ready.{IsSettled, QuietAs};
ghost use Rattle.rows_sql.specs.Inspected.{HasSound, IsDamaged};

use crate::reading::load::load_as;
use crate::schema::version_of;
use names_cell::Component;
use rows_cell::{Counts, StoreFault, is_sound};
use sqlite::{Alter, Connection};
use std::alloc::Global;

/// Tests a store by the name of its cell and by the rules of its own version, and counts what it holds. It writes
/// nothing: the clause `quiet`, whatever the answer. `Damaged` is a store of another schema, or of rows that break a
/// rule; `Refused` is the store's own refusal.
#[tactic(auto, using(crate::proofs::InspectLemmas::quiet_as, crate::proofs::InspectLemmas::quiet_still, crate::proofs::InspectLemmas::none_damaged, crate::proofs::InspectLemmas::said_damaged, crate::proofs::InspectLemmas::unsaid_damaged, crate::proofs::InspectLemmas::is_sound_as))]
pub fn inspect<S: Alter>(
    alloc: Global,
    conn: &mut Connection<S>,
    cell: &Component,
) -> Result<Counts, StoreFault>
    ensures sound { HasCleanDisk (state S.Store conn.new) → IsSettled (state S.Store conn.old) → IfOk result (λ counts. (rows : Held) × HasSound cell.now (state S.Store conn.old) rows × (counts ≡ counts_of rows)) }
    ensures damaged { HasCleanDisk (state S.Store conn.new) → IsSettled (state S.Store conn.old) → result ≡ Err StoreFault.Damaged → IsDamaged cell.now (state S.Store conn.old) }
    ensures quiet { (version : Which) → QuietAs version S.Store conn.old conn.new }
    ensures counted { result ≡ Err StoreFault.Exhausted → ⊥ }
{
    let Some(version) = version_of(alloc, conn.schema())? else {
        return Err(StoreFault::Damaged);
    };
    let rows = load_as(alloc, conn, version)?;
    if !is_sound(alloc, cell, &rows)? {
        return Err(StoreFault::Damaged);
    }
    Ok(rows.counts())
}
