//! What a master commits, and whether a crash may leave something else than the rows that stand.
ghost use Rattle.std.specs.Prelude.{◌≡◌, ◌||◌, not, true, [], IfOk};
ghost use Rattle.rows_cell.specs.Rows.{changed_rows};
ghost use Rattle.rows_cell.specs.Sound.{sound};
ghost use Rattle.over_core.specs.Sweep.{Sweeps, asked_edits, IsSettled};

use collections::Items;
use node_core::Fault;
use rows_cell::{Edit, Records};
use std::alloc::AllocError;
use std::marker::Model;

/// The records of a master, and whether its last commit stood: a crash then leaves the rows that stand. After one that was
/// refused it may leave the rows of that. To a contract it is what the records keep.
#[derive(Drop)]
pub(crate) struct Keeping<R: Records> {
    records: R,
    is_settled: bool,
}

impl<R: Records> Model for Keeping<R> {
    ghost use Rattle.std.specs.Prelude.{◌≡◌, true};
    ghost use Rattle.rows_cell.specs.Stores.{Store};
    ghost use Rattle.over_core.specs.Sweep.{IsSettled};

    ghost Value = { Store };

    ghost view = { λ k. R.store k.records };

    ghost invariant = { λ k. k.is_settled ≡ true → IsSettled (R.store k.records) };
}

impl<R: Records> Keeping<R> {
    /// The records of a master whose last commit stood.
    pub(crate) fn of(records: R) -> Keeping<R>
        requires { IsSettled (R.store records) }
        ensures { result ≡ R.store records }
    {
        Keeping {
            records,
            is_settled: true,
        }
    }

    /// Whether the last commit stood.
    pub(crate) fn is_settled(&self) -> bool
        ensures { result ≡ true → IsSettled self.now }
    {
        self.is_settled
    }

    /// The records, to be looked at.
    pub(crate) fn records(&self) -> &R
        ensures { R.store result.now ≡ self.now }
    {
        &self.records
    }

    pub(crate) fn into_records(self) -> R
        ensures { R.store result ≡ self }
    {
        let Keeping { records, .. } = self;
        records
    }

    /// Commits what a sweep changes. Where that is nothing, but a change leaves the gate, and the last commit was refused,
    /// the rows are committed as they are: what a crash leaves then isn't that refused commit.
    pub(crate) fn commit(
        &mut self,
        edits: Items<Edit>,
        frees: bool,
        next_instance: u64,
    ) -> Result<(), Fault>
        requires sound { sound self.old.cell (changed_rows self.old.rows edits) ≡ true }
        requires same { self.old.rows.next_instance ≡ next_instance }
        ensures { Sweeps frees edits self.old self.new result }
    {
        let asked = asked_of(edits, self.is_settled, frees, next_instance)?;
        let is_asked = !asked.is_empty();
        let committed = self.records.commit(&asked);
        drop(asked);
        match committed {
            Ok(()) => {
                self.is_settled = self.is_settled || is_asked;
                Ok(())
            }
            Err(fault) => {
                self.is_settled = false;
                Err(fault.into())
            }
        }
    }
}

// What is asked of the store.
fn asked_of(
    edits: Items<Edit>,
    is_settled: bool,
    frees: bool,
    next_instance: u64,
) -> Result<Items<Edit>, AllocError>
    ensures { IfOk result (λ asked. asked ≡ asked_edits is_settled frees next_instance edits) }
{
    let mut asked = edits;
    if asked.is_empty() && frees && !is_settled {
        asked.push(Edit::NextInstance(next_instance))?;
    }
    Ok(asked)
}
