//! The rows of a cell, kept by another program.
ghost use Rattle.std.specs.Prelude.{◌≡◌, ◌≢◌, ◌<◌, ◌+◌, ◌-◌, ◌^◌, [], Ok, Err, Some, None, IfOk};
ghost use Rattle.node_core.specs.Limits.{number_limit};
ghost use Rattle.node_core.specs.declared.refusals.Fault.TheVariants as faults;
ghost use Rattle.rows_cell.specs.declared.tables.Rows.{Rows as Held};
ghost use Rattle.rows_cell.specs.Stores.{Commits, Loads, told};
ghost use Rattle.rows_cell.specs.Sound.{sound};
ghost use Rattle.rows_cell.specs.Rows.{changed_rows};
ghost use Rattle.rows_remote.specs.declared.frames.KeeperQuestion.TheVariants as asks;
ghost use Rattle.rows_remote.specs.Frames.{asked, framed};
ghost use Rattle.rows_remote.specs.Asking.{begun, IsOpened, CommitsBy, LoadsBy, TakesRows, GivesFirst, refused_again, with_tried};
ghost use Rattle.rows_remote.specs.Keeping.{told_in, noted, stood};

use crate::asked::{write_commit, write_load};
use crate::frames::{KeeperAnswer, Whole};
use crate::history::KeeperLog;
use crate::rows::rows_of;
use crate::streams::ask;
use codec::WireFault;
use collections::Items;
use names_cell::Component;
use node_core::NUMBER_LIMIT;
use rows_cell::{Edit, Records, Rows, StoreFault, is_sound};
use std::alloc::Global;
use std::io::{Read, Write};
use std::marker::Model;

/// What was told of the rows: the first ones, or later ones, sound or damaged; or a change was kept, or refused.
#[derive(Drop)]
pub enum KeeperHistory {
    Began(Rows),
    Read(Rows),
    Damaged(Rows),
    Done,
    Tried,
}

/// How it stands with the program that keeps the rows.
#[derive(Clone, Copy, Debug, PartialEq, Eq)]
pub enum KeeperStanding {
    /// It may be asked for a commit.
    Ready,
    /// It refused a commit: it is asked for none before all rows are loaded.
    Behind,
    /// It gave no answer: it is asked no more.
    Shut,
}

/// The rows of a cell, kept by another program, which is asked in one stream and answers in another. A change is
/// committed where it answers so, and never else. Where no answer comes, or none that is one, all is refused from then on.
pub struct FrameRecords<I: Read, W: Write> {
    alloc: Global,
    cell: Component,
    asked: W,
    answered: I,
    number: u64,
    refusals: u64,
    standing: KeeperStanding,
    first: Option<Rows>,
    past: KeeperLog<KeeperHistory, Items<Edit>>,
}

impl<I: Read, W: Write> Model for FrameRecords<I, W> {
    ghost use Rattle.std.specs.Prelude.{◌≡◌, ◌≤◌, Some};
    ghost use Rattle.node_core.specs.Limits.{number_limit};
    ghost use Rattle.rows_cell.specs.declared.tables.Rows.{Rows as Held};
    ghost use Rattle.rows_remote.specs.Asking.{Framed};
    ghost use Rattle.rows_remote.specs.Keeping.{stood};

    ghost Value = { Framed };

    ghost view = { λ s. record {
      store = record {
        cell = s.cell;
        rows = (stood s.past.items).rows;
        may_leave = (stood s.past.items).left;
        refusals = s.refusals;
        doubt = (stood s.past.items).doubt;
      };
      number = s.number;
      standing = s.standing;
      first = s.first;
      asked = W.contents s.asked;
      coming = I.remaining s.answered;
    } };

    ghost invariant = { λ s. (s.refusals ≤ number_limit) × ((rows : Held) → s.first ≡ Some rows → rows ≡ (stood s.past.items).rows) };
}

impl<I: Read + Drop, W: Write + Drop> Drop for FrameRecords<I, W> {
    fn drop(self) {
        let FrameRecords {
            alloc: _,
            cell: _,
            asked: _,
            answered: _,
            number: _,
            refusals: _,
            standing: _,
            first: _,
            past: _,
        } = self;
    }
}

fn noted(
    past: &KeeperLog<KeeperHistory, Items<Edit>>,
    note: &KeeperHistory,
    change: &Items<Edit>,
) -> KeeperLog<KeeperHistory, Items<Edit>>
    ensures { stood result.items ≡ noted note.now change.now (stood past.now.items) }
{
    past.and(note, change)
}

// Rows that were told and that nobody wants end here.
fn drop_whole(_whole: Whole) {}

// The rows of a note, if there are any.
fn rows_in(note: KeeperHistory) -> Option<Rows>
    ensures { result ≡ told_in note }
{
    match note {
        KeeperHistory::Began(rows) | KeeperHistory::Read(rows) | KeeperHistory::Damaged(rows) =>
            Some(rows),
        KeeperHistory::Done | KeeperHistory::Tried => None,
    }
}

// Over rows that were told, of which nobody has loaded any.
fn begun<I: Read, W: Write>(
    alloc: Global,
    cell: Component,
    asked: W,
    answered: I,
    number: u64,
    rows: Rows,
) -> FrameRecords<I, W>
    ensures { result ≡ begun cell number rows (W.contents asked) (I.remaining answered) }
{
    let none = Items::new(alloc);
    let note = KeeperHistory::Began(rows);
    let past = noted(&KeeperLog::new(), &note, &none);
    FrameRecords {
        alloc,
        cell,
        asked,
        answered,
        number,
        refusals: 0,
        standing: KeeperStanding::Ready,
        first: rows_in(note),
        past,
    }
}

impl<I: Read + Drop, W: Write + Drop> FrameRecords<I, W> {
    /// Asks for all rows, which stand from then on. The first load gives them, without another question.
    ///
    /// Refused as `Refused` where no answer comes, or none that has rows.
    pub fn open(
        alloc: Global,
        cell: Component,
        asked: W,
        answered: I,
    ) -> Result<FrameRecords<I, W>, StoreFault>
        ensures { IfOk result (λ records. IsOpened cell (W.contents asked) (I.remaining answered) records) }
    {
        let (mut asked, mut answered) = (asked, answered);
        let Ok(question) = write_load(alloc) else {
            return Err(StoreFault::NoMemory);
        };
        let Some(KeeperAnswer::Rows(whole)) = ask(
            alloc,
            &mut asked,
            &mut answered,
            question.as_slice(),
        ) else {
            return Err(StoreFault::Refused);
        };
        let (number, rows) = rows_of(alloc, whole)?;
        Ok(begun(alloc, cell, asked, answered, number, rows))
    }
}

impl<I: Read, W: Write> FrameRecords<I, W> {
    // A refusal more.
    fn refuse(&mut self) -> StoreFault
        requires { self.old.store.refusals < number_limit }
        ensures fault { result ≡ StoreFault.Refused }
        ensures counted { self.new ≡ refused_again self.old }
    {
        self.refusals += 1;
        StoreFault::Refused
    }

    // Notes that a commit was asked for, which isn't known to stand: it was refused, or not answered.
    fn turn_down(&mut self, change: &Items<Edit>, standing: KeeperStanding) -> StoreFault
        requires { self.old.store.refusals < number_limit }
        ensures fault { result ≡ StoreFault.Refused }
        ensures tried { self.new ≡ with_tried standing change.now self.old }
    {
        self.past = noted(&self.past, &KeeperHistory::Tried, change);
        self.standing = standing;
        self.refuse()
    }

    // The first rows are asked for no more.
    fn forget_first(&mut self)
        ensures { self.new ≡ record self.old { first = None } }
    {
        self.first = None;
    }

    // Asks for a commit of these bytes.
    fn ask_commit(&mut self, change: &Items<Edit>, question: &[u8]) -> Result<(), StoreFault>
        requires ready { self.old.standing ≡ KeeperStanding.Ready }
        requires bytes { framed asked (asks.Commit (self.old.number + 1) change.now) ≡ Ok question.now }
        requires some { change.now ≢ [] }
        requires number { self.old.number < 2 ^ 64 - 1 }
        requires counted { self.old.store.refusals < number_limit }
        ensures commits { Commits change.now self.old.store self.new.store (told result) }
        ensures by { CommitsBy change.now self.old self.new (told result) }
    {
        self.forget_first();
        match ask(self.alloc, &mut self.asked, &mut self.answered, question) {
            Some(KeeperAnswer::Kept) => {
                self.past = noted(&self.past, &KeeperHistory::Done, change);
                self.number += 1;
                Ok(())
            }
            Some(KeeperAnswer::Refused) => Err(self.turn_down(change, KeeperStanding::Behind)),
            Some(KeeperAnswer::Rows(whole)) => {
                drop_whole(whole);
                Err(self.turn_down(change, KeeperStanding::Shut))
            }
            None => Err(self.turn_down(change, KeeperStanding::Shut)),
        }
    }

    // Asks for all rows.
    fn ask_rows(&mut self) -> Result<Rows, StoreFault>
        requires open { self.old.standing ≢ KeeperStanding.Shut }
        requires first { self.old.first ≡ None }
        requires counted { self.old.store.refusals < number_limit }
        ensures loads { Loads self.old.store self.new.store (told result) }
        ensures by { LoadsBy self.old self.new (told result) }
    {
        let Ok(question) = write_load(self.alloc) else {
            return Err(StoreFault::NoMemory);
        };
        match ask(
            self.alloc,
            &mut self.asked,
            &mut self.answered,
            question.as_slice(),
        ) {
            Some(KeeperAnswer::Rows(whole)) => self.take_rows(whole),
            _ => {
                self.standing = KeeperStanding::Shut;
                Err(self.refuse())
            }
        }
    }

    // Takes the rows that were told.
    fn take_rows(&mut self, whole: Whole) -> Result<Rows, StoreFault>
        requires first { self.old.first ≡ None }
        ensures loads { Loads self.old.store self.new.store (told result) }
        ensures by { TakesRows whole self.old self.new (told result) }
    {
        let (number, rows) = rows_of(self.alloc, whole)?;
        let is_sound = is_sound(self.alloc, &self.cell, &rows)?;
        let none = Items::new(self.alloc);
        if !is_sound {
            self.past = noted(&self.past, &KeeperHistory::Damaged(rows), &none);
            return Err(StoreFault::Damaged);
        }
        let note = KeeperHistory::Read(rows);
        self.past = noted(&self.past, &note, &none);
        self.number = number;
        self.standing = KeeperStanding::Ready;
        rows_in(note).ok_or(StoreFault::NoMemory)
    }

    // Gives the first rows, which are given up where a cell of this name may not have them.
    fn give(&mut self, rows: Rows) -> Result<Rows, StoreFault>
        requires rows { rows ≡ self.old.store.rows }
        requires first { self.old.first ≡ None }
        ensures loads { Loads self.old.store self.new.store (told result) }
        ensures given { GivesFirst rows self.old self.new (told result) }
    {
        match is_sound(self.alloc, &self.cell, &rows) {
            Ok(true) => Ok(rows),
            Ok(false) => Err(StoreFault::Damaged),
            Err(_) => {
                self.first = Some(rows);
                Err(StoreFault::NoMemory)
            }
        }
    }
}

impl<I: Read, W: Write> Records for FrameRecords<I, W> {
    ghost use Rattle.std.specs.Prelude.{◌≡◌, true};
    ghost use Rattle.rows_cell.specs.Rows.{changed_rows};
    ghost use Rattle.rows_cell.specs.Sound.{sound};
    ghost use Rattle.rows_cell.specs.Stores.{Loads, Commits, told};
    ghost use Rattle.rows_remote.specs.Asking.{CommitsBy, LoadsBy};

    ghost store = { λ s. s.store };

    /// The first rows, once; from then on all rows are asked for. After no answer it is refused.
    fn load(&mut self) -> Result<Rows, StoreFault>
        ensures loads { Loads self.old.store self.new.store (told result) }
        ensures by { LoadsBy self.old self.new (told result) }
    {
        if self.refusals == NUMBER_LIMIT {
            return Err(StoreFault::Exhausted);
        }
        if matches!(self.standing, KeeperStanding::Shut) {
            return Err(self.refuse());
        }
        match self.first.take() {
            Some(rows) => self.give(rows),
            None => self.ask_rows(),
        }
    }

    /// Asks for the commit of the next number. After a refused commit, until all rows were loaded, and after no answer
    /// it is refused without a question.
    fn commit(&mut self, change: &Items<Edit>) -> Result<(), StoreFault>
        requires { sound self.old.store.cell (changed_rows self.old.store.rows change.now) ≡ true }
        ensures commits { Commits change.now self.old.store self.new.store (told result) }
        ensures by { CommitsBy change.now self.old self.new (told result) }
    {
        if change.is_empty() {
            return Ok(());
        }
        if self.refusals == NUMBER_LIMIT {
            return Err(StoreFault::Exhausted);
        }
        if !matches!(self.standing, KeeperStanding::Ready) || self.number == u64::MAX {
            return Err(self.refuse());
        }
        match write_commit(self.alloc, self.number + 1, change) {
            Ok(question) => self.ask_commit(change, question.as_slice()),
            Err(WireFault::NoMemory) => Err(StoreFault::NoMemory),
            Err(_) => Err(self.refuse()),
        }
    }
}
