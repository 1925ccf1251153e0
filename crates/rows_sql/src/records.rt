//! The rows of a cell in a SQL database.
ghost use Rattle.std.specs.Prelude.{◌≡◌, ◌≤◌, ◌∷◌, [], IfOk, IfErr, IfSome, IsTrue};
ghost use Rattle.sqlite_trees.specs.View.{doubt, IsClean};
ghost use Rattle.sqlite.specs.State.{HasCleanDisk};
ghost use Rattle.sqlite.specs.Held.{state};
ghost use Rattle.rows_cell.specs.declared.tables.Rows.{Rows as Held};
ghost use Rattle.rows_sql.specs.Held.{Says};
ghost use Rattle.rows_sql.specs.Ready.{tables_of};
ghost use Rattle.rows_cell.specs.Stores.{Loads, told};
ghost use Rattle.rows_sql.specs.Keeping.{told_in, noted, stood, IsLeft};
ghost use Rattle.rows_sql.specs.Adopting.{Adopts, ComesBack, IsOther, IsFull};

use crate::adoption::{last_committed, take_over};
use crate::history::StoreLog;
use crate::knowing::{needed, next_after};
use crate::orders::OrderedStore;
use crate::steps::{goes_on, is_committed, load_sound};
use collections::Items;
use names_cell::Component;
use node_core::NUMBER_LIMIT;
use rows_cell::{Edit, Records, Rows, Settings, StoreFault, is_sound};
use sqlite::{Alter, Connection};
use std::alloc::Global;
use std::marker::Model;

/// What was done to the rows: they were taken over, or read again, or a change was committed, or refused.
#[derive(Drop)]
pub enum StoreHistory {
    Adopted(Rows),
    Read(Rows),
    Done,
    Tried,
}

/// The rows of a cell in the four tables of a database, over any store of the kit's `sqlite`: a file that sqlite3 reads,
/// or memory. Each change is one transaction.
pub struct SqlRecords<S: Alter> {
    alloc: Global,
    conn: Connection<S>,
    cell: Component,
    refusals: u64,
    is_shut: bool,
    first: Option<Rows>,
    next: Option<u64>,
    past: StoreLog<StoreHistory, Items<Edit>>,
}

impl<S: Alter> Model for SqlRecords<S> {
    ghost use Rattle.std.specs.Prelude.{◌≡◌, ◌≤◌, Some};
    ghost use Rattle.sqlite_trees.specs.View.{doubt};
    ghost use Rattle.sqlite.specs.Held.{state};
    ghost use Rattle.node_core.specs.Limits.{number_limit};
    ghost use Rattle.rows_cell.specs.declared.tables.Rows.{Rows as Held};
    ghost use Rattle.rows_cell.specs.Stores.{Store};
    ghost use Rattle.rows_sql.specs.Keeping.{stood, Keeps};
    ghost use Rattle.rows_sql.specs.Known.{HasNext};

    ghost Value = { Store };

    ghost view = { λ s. record {
      cell = s.cell;
      rows = (stood s.past.items).rows;
      may_leave = (stood s.past.items).left;
      refusals = s.refusals;
      doubt = doubt (state S.Store s.conn).is_clean;
    } };

    ghost invariant = { λ s. Keeps (state S.Store s.conn) s.is_shut (stood s.past.items).rows (stood s.past.items).left × (s.refusals ≤ number_limit) × ((rows : Held) → s.first ≡ Some rows → rows ≡ (stood s.past.items).rows) × HasNext (stood s.past.items).rows s.next };
}

impl<S: Alter + Drop> Drop for SqlRecords<S> {
    fn drop(self) {
        let SqlRecords {
            alloc: _,
            conn: _,
            cell: _,
            refusals: _,
            is_shut: _,
            first: _,
            next: _,
            past: _,
        } = self;
    }
}

fn noted(
    past: &StoreLog<StoreHistory, Items<Edit>>,
    note: &StoreHistory,
    change: &Items<Edit>,
) -> StoreLog<StoreHistory, Items<Edit>>
    ensures { stood result.items ≡ noted note.now change.now (stood past.now.items) }
{
    past.and(note, change)
}

// The rows of a note, if there are any.
fn rows_in(note: StoreHistory) -> Option<Rows>
    ensures { result ≡ told_in note }
{
    match note {
        StoreHistory::Adopted(rows) | StoreHistory::Read(rows) => Some(rows),
        StoreHistory::Done | StoreHistory::Tried => None,
    }
}

impl<S: Alter> SqlRecords<S> {
    /// The rows that were read as the database was taken over, until they are loaded or changed.
    pub fn first_rows(&self) -> Option<&Rows>
        ensures { IfSome result (λ rows. rows.now ≡ self.now.rows) }
    {
        self.first.as_ref()
    }

    // Gives rows that were read before, where a cell may have them.
    fn give(&self, rows: Rows) -> Result<Rows, StoreFault>
        requires { rows ≡ self.now.rows }
        ensures { Loads self.now self.now (told result) }
    {
        if is_sound(self.alloc, &self.cell, &rows)? {
            Ok(rows)
        } else {
            Err(StoreFault::Damaged)
        }
    }
}

impl<S: Alter> Records for SqlRecords<S> {
    ghost use Rattle.std.specs.Prelude.{◌≡◌};

    ghost store = { λ s. s };

    // The rows that were read as the database was taken over, once; from then on all are read.
    fn load(&mut self) -> Result<Rows, StoreFault> {
        if self.refusals == NUMBER_LIMIT {
            return Err(StoreFault::Exhausted);
        }
        if self.is_shut {
            self.refusals += 1;
            return Err(StoreFault::Refused);
        }
        if let Some(rows) = self.first.take() {
            return self.give(rows);
        }
        match load_sound(self.alloc, &mut self.conn, &self.cell) {
            Ok(rows) => {
                let none = Items::new(self.alloc);
                self.next = Some(rows.next_instance);
                let note = StoreHistory::Read(rows);
                self.past = noted(&self.past, &note, &none);
                drop(none);
                rows_in(note).ok_or(StoreFault::NoMemory)
            }
            Err(StoreFault::Refused) => {
                self.is_shut = !goes_on(self.alloc, &mut self.conn);
                self.refusals += 1;
                Err(StoreFault::Refused)
            }
            Err(fault) => Err(fault),
        }
    }

    fn commit(&mut self, change: &Items<Edit>) -> Result<(), StoreFault> {
        if change.is_empty() {
            return Ok(());
        }
        if self.refusals == NUMBER_LIMIT {
            return Err(StoreFault::Exhausted);
        }
        if self.is_shut {
            self.refusals += 1;
            return Err(StoreFault::Refused);
        }
        self.first = None;
        let edits = change.as_slice();
        if !is_committed(&mut self.conn, needed(edits, self.next)) {
            self.next = None;
            self.past = noted(&self.past, &StoreHistory::Tried, change);
            self.is_shut = !goes_on(self.alloc, &mut self.conn);
            self.refusals += 1;
            return Err(StoreFault::Refused);
        }
        self.next = next_after(edits, self.next);
        self.past = noted(&self.past, &StoreHistory::Done, change);
        Ok(())
    }
}

impl<S: OrderedStore + Drop> SqlRecords<S> {
    /// Takes a database over. What isn't committed there is undone. The rows of a store are taken as they are, whether a
    /// cell may have them or not; if there is no table, the four tables and their view are made and the opening rows put, in
    /// one transaction. A store of an earlier version is carried over, if a cell of this name may have its rows: one
    /// transaction makes it a store of now with these rows, of the first version with the next epoch.
    ///
    /// Refused as `Damaged` if other tables are there, or if the tables say no rows, in an earlier version none that a cell
    /// of this name may have; as `Exhausted` if the epoch of a store of the first version can't go on; as `Refused` if the
    /// database can't be read or written. The store then comes back, over which a connection can be opened.
    pub fn adopt(
        alloc: Global,
        conn: Connection<S>,
        settings: &Settings,
    ) -> Result<SqlRecords<S>, (StoreFault, S)>
        ensures cell { IfOk result (λ records. records.cell ≡ settings.now.cell) }
        ensures counted { IfOk result (λ records. records.refusals ≡ 0) }
        ensures left { IfOk result (λ records. records.may_leave ≡ records.rows ∷ []) }
        // What was in doubt stays so; and over a store that never takes a wrong answer as true, as memory, nothing is.
        ensures doubted { IfOk result (λ records. doubt (state S.Store conn).is_clean ≤ records.doubt) }
        ensures undoubted { IfOk result (λ records. ((store : S) → IsClean (S.Store.view store)) → records.doubt ≡ 0) }
        ensures rows { IfOk result (λ records. records.doubt ≡ 0 → Adopts settings.now (state S.Store conn) records.rows) }
        ensures ours { IfOk result (λ records. records.doubt ≡ 0 → ¬ IsOther settings.now.cell (state S.Store conn)) }
        ensures back { IfErr result (λ e. ComesBack S.Store settings.now conn e.1) }
        ensures damaged { IfErr result (λ e. IsClean (S.Store.view e.1) → e.0 ≡ StoreFault.Damaged → IsOther settings.now.cell (state S.Store conn)) }
        ensures full { IfErr result (λ e. IsClean (S.Store.view e.1) → e.0 ≡ StoreFault.Exhausted → IsFull settings.now.cell (state S.Store conn)) }
    {
        let cell = match settings.cell().clone() {
            Ok(cell) => cell,
            Err(_) => return Err((StoreFault::NoMemory, conn.into_store())),
        };
        let mut conn = match last_committed(alloc, conn) {
            Ok(conn) => conn,
            Err(store) => return Err((StoreFault::Refused, store)),
        };
        match take_over(alloc, &mut conn, settings) {
            Ok(rows) => {
                let none = Items::new(alloc);
                let next = Some(rows.next_instance);
                let note = StoreHistory::Adopted(rows);
                let past = noted(&StoreLog::new(), &note, &none);
                Ok(SqlRecords {
                    alloc,
                    conn,
                    cell,
                    refusals: 0,
                    is_shut: false,
                    first: rows_in(note),
                    next,
                    past,
                })
            }
            Err(fault) => Err((fault, conn.into_store())),
        }
    }
}

impl<S: Alter> SqlRecords<S> {
    /// Gives the connection back. Where it is still open its tables say the rows; and a crash leaves one of the rows that
    /// it may leave.
    pub fn release(self) -> Connection<S>
        // The doubt of the records is that of the connection's disk: 0 where it took no wrong answer as true.
        ensures doubted { doubt (state S.Store result).is_clean ≡ self.doubt }
        ensures settled { HasCleanDisk (state S.Store result) → IsTrue (state S.Store result).is_open → (state S.Store result).committed ≡ (state S.Store result).now }
        ensures says { HasCleanDisk (state S.Store result) → IsTrue (state S.Store result).is_open → Says (tables_of (state S.Store result).now.trees) self.rows }
        ensures left { HasCleanDisk (state S.Store result) → (db : _) → (state S.Store result).may_leave db → IsLeft self.may_leave db }
    {
        let SqlRecords {
            alloc: _,
            conn,
            cell: _,
            refusals: _,
            is_shut: _,
            first: _,
            next: _,
            past: _,
        } = self;
        conn
    }
}
