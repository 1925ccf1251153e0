//! Records over others, which refuse one commit.
ghost use Rattle.std.specs.Prelude.{◌≡◌};

use crate::records::{Records, StoreFault};
use crate::tables::{Edit, Rows};
use collections::Items;
use node_core::NUMBER_LIMIT;
use std::marker::Model;

/// Records over others. They refuse one commit as a store does that refuses: it is counted and not done. All else they
/// hand on. To a contract, what the others keep, how many commits are left up to that one, and the count of refusals.
#[derive(Drop)]
pub struct FailAt<R: Records> {
    records: R,
    left: u64,
    refusals: u64,
}

impl<R: Records> Model for FailAt<R> {
    ghost use Rattle.std.specs.Prelude.{◌≤◌};
    ghost use Rattle.node_core.specs.Limits.{number_limit};
    ghost use Rattle.rows_cell.specs.Failing.{Failing};

    ghost Value = { Failing };

    ghost view = { λ f. record { inner = R.store f.records; left = f.left; refusals = f.refusals } };

    ghost invariant = { λ f. ((R.store f.records).refusals ≤ f.refusals) × (f.refusals ≤ number_limit) };
}

impl<R: Records> FailAt<R> {
    /// Takes records that never refused. They refuse the commit with this number, counted from 1; those of no edit aren't
    /// counted. With 0 they refuse none.
    pub fn new(records: R, number: u64) -> FailAt<R>
        requires { (R.store records).refusals ≡ 0 }
        ensures { result ≡ record { inner = R.store records; left = number; refusals = 0 } }
    {
        FailAt {
            records,
            left: number,
            refusals: 0,
        }
    }

    /// Gives the records back.
    pub fn into_inner(self) -> R
        ensures { R.store result ≡ self.inner }
    {
        let FailAt { records, .. } = self;
        records
    }
}

impl<R: Records> Records for FailAt<R> {
    ghost use Rattle.std.specs.Prelude.{◌≡◌, ◌<◌, true};
    ghost use Rattle.node_core.specs.Limits.{number_limit};
    ghost use Rattle.rows_cell.specs.Rows.{changed_rows};
    ghost use Rattle.rows_cell.specs.Sound.{sound};
    ghost use Rattle.rows_cell.specs.Stores.{Loads, Commits, told};
    ghost use Rattle.rows_cell.specs.Failing.{kept_in, is_the_one, FailsIf};

    ghost store = { λ f. kept_in f };

    /// Read by the others. Once 2^63-1 refusals are counted it is refused as Exhausted.
    fn load(&mut self) -> Result<Rows, StoreFault>
        ensures loads { Loads (kept_in self.old) (kept_in self.new) (told result) }
        ensures handed_on { self.old.refusals < number_limit → Loads self.old.inner self.new.inner (told result) }
        ensures left { self.new.left ≡ self.old.left }
    {
        if self.refusals == NUMBER_LIMIT {
            return Err(StoreFault::Exhausted);
        }
        match self.records.load() {
            Ok(rows) => Ok(rows),
            Err(StoreFault::Refused) => {
                self.refusals += 1;
                Err(StoreFault::Refused)
            }
            Err(fault) => Err(fault),
        }
    }

    /// The one with the number is refused, and every other is handed on. Once 2^63-1 refusals are counted each with an edit
    /// is refused as Exhausted.
    fn commit(&mut self, change: &Items<Edit>) -> Result<(), StoreFault>
        requires { sound (kept_in self.old).cell (changed_rows (kept_in self.old).rows change.now) ≡ true }
        ensures commits { Commits change.now (kept_in self.old) (kept_in self.new) (told result) }
        ensures one { self.old.refusals < number_limit → FailsIf (is_the_one change.now self.old.left) change.now self.old self.new (told result) }
    {
        if change.is_empty() {
            return self.records.commit(change);
        }
        if self.refusals == NUMBER_LIMIT {
            return Err(StoreFault::Exhausted);
        }
        let number = self.left;
        self.left = number.saturating_sub(1);
        if number == 1 {
            self.refusals += 1;
            return Err(StoreFault::Refused);
        }
        match self.records.commit(change) {
            Ok(()) => Ok(()),
            Err(StoreFault::Refused) => {
                self.refusals += 1;
                Err(StoreFault::Refused)
            }
            Err(fault) => Err(fault),
        }
    }
}
