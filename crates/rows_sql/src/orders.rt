//! Stores whose last commit stands in order.
ghost use Rattle.std.specs.Prelude.{IsTrue};
ghost use Rattle.rows_sql.specs.Orders.{StandsInOrder};
ghost use Rattle.rows_sql.specs.Standing.{files_stand, memory_stands};

use sqlite::{Alter, FileStore, MemStore};
use sqlite_disk::Disk;

/// A store whose last commit stands in order for as long as it is open, as files and memory do. So what a connection to it
/// shows is known without opening it anew.
pub trait OrderedStore: Alter {
    ghost in_order: { (s : Self) → IsTrue (Self.Store.view s).is_open → StandsInOrder (Self.Store.view s) };
}

impl<D: Disk> OrderedStore for FileStore<D> {
    ghost in_order = { files_stand };
}

impl OrderedStore for MemStore {
    ghost in_order = { λ s _. memory_stands s };
}
