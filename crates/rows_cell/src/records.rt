//! Who keeps the rows.
ghost use Rattle.std.specs.Prelude.{◌≡◌};

use crate::tables::{Edit, Rows};
use collections::Items;
use node_core::Fault;
use std::alloc::AllocError;
use thiserror::Error;

/// Why a store doesn't do what it is asked.
#[derive(Clone, Copy, Debug, PartialEq, Eq, Error)]
pub enum StoreFault {
    #[error("out of memory")]
    NoMemory,
    #[error("the count of the store's refusals is at its end")]
    Exhausted,
    #[error("the store refused")]
    Refused,
    #[error("the stored rows are damaged")]
    Damaged,
}

impl From<AllocError> for StoreFault {
    ghost use Rattle.std.specs.Prelude.{◌≡◌};
    ghost use Rattle.rows_cell.specs.declared.records.StoreFault.TheVariants.{NoMemory};

    ghost from_gives = { λ _ e. e ≡ NoMemory };

    fn from(_e: AllocError) -> StoreFault {
        StoreFault::NoMemory
    }
}

impl From<StoreFault> for Fault {
    ghost use Rattle.std.specs.Prelude.{◌≡◌};
    ghost use Rattle.rows_cell.specs.Stores.{store_fault};

    ghost from_gives = { λ x e. e ≡ store_fault x };

    fn from(fault: StoreFault) -> Fault {
        match fault {
            StoreFault::NoMemory => Fault::NoMemory,
            StoreFault::Exhausted => Fault::Exhausted,
            StoreFault::Refused => Fault::StoreRefused,
            StoreFault::Damaged => Fault::StoreDamaged,
        }
    }
}

/// What keeps the rows of a cell, one change at a time.
pub trait Records {
    ghost use Rattle.std.specs.Prelude.{◌≡◌, true};
    ghost use Rattle.rows_cell.specs.Rows.{changed_rows};
    ghost use Rattle.rows_cell.specs.Sound.{sound};
    ghost use Rattle.rows_cell.specs.Stores.{Store, Loads, Commits, told};

    /// What is kept: the cell that the settings name, the rows, what a crash may leave of them, how often the store
    /// refused, and how often what is read was in doubt: where that is 0, nobody else writes the store, and it gives
    /// back what was written.
    ghost store: { Self → Store };

    /// Reads all rows. They are those of before where nothing is in doubt.
    fn load(&mut self) -> Result<Rows, StoreFault>
        ensures { Loads (store self.old) (store self.new) (told result) };

    /// Does the edits in order, all of them or none.
    fn commit(&mut self, change: &Items<Edit>) -> Result<(), StoreFault>
        requires { sound (store self.old).cell (changed_rows (store self.old).rows change.now) ≡ true }
        ensures { Commits change.now (store self.old) (store self.new) (told result) };
}
