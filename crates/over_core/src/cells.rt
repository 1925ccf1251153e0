//! A master over its records.
ghost use Rattle.std.specs.Prelude.{◌≡◌, ◌≢◌, ◌⊎◌, ◌≤◌, ◌<◌, ◌+◌, ◌∷◌, [], length, true, Ok, Err, IfOk, IfErr, OnOk, OnErr};
ghost use Rattle.std.specs.Vec.{vec_len, vec_capacity};
ghost use Rattle.std.specs.List.Sorted.{IsStrictlySortedBy};
ghost use Rattle.std.specs.Map.{keys_of};
ghost use Rattle.std.specs.Ordering.{nat_cmp};
ghost use Rattle.std.specs.Cmp.Lexicographic.{slice_cmp};
ghost use Rattle.rows_cell.specs.Keys.{lock_order};
ghost use Rattle.rows_cell.specs.Rows.{changed_rows};
ghost use Rattle.rows_cell.specs.Sound.{sound};
ghost use Rattle.cell_core.specs.Step.{take_step};
ghost use Rattle.rows_cell.specs.Stores.{Commits, IsRead, IsUnread};
ghost use Rattle.over_core.specs.Sweep.{IsHeldUp, IsSettled, IsSwept, sweep_step, sweep_edits, sweep_frees, beats_step, swept_as};
ghost use Rattle.rights_core.specs.Rights.{totals_of};
ghost use Rattle.over_core.specs.Kept.{IsKept};
ghost use Rattle.over_core.specs.Up.{up_edits, next_epoch, ComesUp, StaysDown, CouldComeUp, CouldNotComeUp};
ghost use Rattle.over_core.specs.Deadlines.{IsDeadline};

use crate::beats::{beats_by, beats_thrice_by};
use crate::keeping::Keeping;
use crate::sweeps::{SweptThrice, sweep_by, sweep_thrice_by};
use crate::swept::Swept;
use cell_core::Thrice;
use collections::Items;
use lease_core::MOMENT_LIMIT;
use master_parts::Taken;
use master_state::Master;
use node_core::{Fault, Line, NUMBER_LIMIT};
use rights_core::Totals;
use rows_cell::{Edit, MasterTerms, Records, Rows};
use std::alloc::{AllocError, Global};
use std::marker::Model;
use tags_cell::Request;

/// A master of a cell with the records that outlive it (Burrows 2006, sections 2.7 and 2.9). To a contract, what the
/// master is, the name of its cell, the rows that stand, the rows that a crash may leave, how often the store refused, and
/// how often what is read from it was in doubt.
#[derive(Drop)]
pub struct Cell<R: Records> {
    records: Keeping<R>,
    master: cell_core::MemoryMaster,
}

impl<R: Records> Model for Cell<R> {
    ghost use Rattle.over_core.specs.Kept.{CellState, IsKept};

    ghost Value = { CellState };

    ghost view = { λ c. record { master = c.master; store = c.records } };

    ghost invariant = { λ c. IsKept c.records.cell c.records.rows c.master };
}

impl<R: Records> Cell<R> {
    /// A master comes up: it reads the rows and commits the next epoch, before it can send anything. It goes by its terms: its
    /// lease and what the cell holds at most. The moment is in milliseconds. Each live session of the rows goes on, with 60,002 ms from the moment: its client may
    /// count on a lease that an earlier master gave. To each the master issues its first event, which tells of the
    /// fail-over. While there is one that neither acknowledged it nor expired the master is in recovery (Burrows 2006,
    /// section 2.9: fail-overs), in which it makes no change and begins no session.
    ///
    /// Refused, in this order: a moment of 2^53 or more as Exhausted; where the store refuses to be read, or its rows
    /// aren't sound; after the last epoch, 2^63-1, as Exhausted; where the store refuses the commit. The records then
    /// come back, with the rows as they were, or as they were read. They were read as they were where nothing is in doubt.
    pub fn up(
        alloc: Global,
        mut records: R,
        terms: MasterTerms,
        now: u64,
    ) -> Result<Cell<R>, (Fault, R)>
        requires { (1000 ≤ terms.lease) × (terms.lease ≤ 60000) }
        ensures ok { IfOk result (λ cell. ComesUp terms now cell.master (R.store records) cell.store) }
        ensures fault { IfErr result (λ e. StaysDown terms now e.0 (R.store records) (R.store e.1)) }
    {
        match next_master(alloc, &mut records, terms, now) {
            Ok(master) => Ok(Cell {
                records: Keeping::of(records),
                master,
            }),
            Err(fault) => Err((fault, records)),
        }
    }

    /// Whether a master could come up at a moment, by the rows as they stand: they are read, and nothing is committed.
    /// Refused as `up` is before its commit, and in the same order; but memory is asked for the rows alone.
    pub fn could_come_up(records: &mut R, now: u64) -> Result<(), Fault>
        ensures ok { OnOk result (CouldComeUp now (R.store records.old) (R.store records.new)) }
        ensures fault { IfErr result (λ e. CouldNotComeUp now e (R.store records.old) (R.store records.new)) }
    {
        if now >= MOMENT_LIMIT {
            return Err(Fault::Exhausted);
        }
        drop(next_rows(records)?);
        Ok(())
    }

    /// One step by a request that came; nothing is committed. A moment, in milliseconds, that is earlier than the last
    /// one counts as that; one of 2^53 or more is refused as Exhausted. A Beat waits for its answer, which a sweep gives
    /// (Burrows 2006, section 2.8). A refusal changes nothing.
    pub fn take(&mut self, now: u64, request: &Request) -> Result<Taken, Fault>
        ensures ok { IfOk result (λ taken. take_step self.old.master now request.now ≡ Ok (self.new.master, taken)) }
        ensures store { self.new ≡ record self.old { master = self.new.master } }
        ensures fault { IfErr result (λ e. e ≢ Fault.NoMemory → take_step self.old.master now request.now ≡ Err e) }
        ensures err { OnErr result (self.new ≡ self.old) }
    {
        let _client = request.client().get();
        self.master.take(now, request)
    }

    /// Does the first action that there is, with at most one commit, before all that is printed and sent; or finds
    /// nothing to do, and is quiet. A live session ends from its timeout on, lowest client first, and its end is
    /// committed, and with it its rights to cache end; an answer to a Start or a Beat lets it live for a lease from the
    /// moment of the answer, and offers its client just that, counted from the receipt (Gray and Cheriton 1989, section
    /// 2). A change waits while a client holds a right on a name that it touches, and the answer to a Beat tells the
    /// client what it is to let go of (Burrows 2006, section 2.7). After all that, events wait in the sessions of those
    /// who opened handles on what changed (section 2.5). A change whose turn comes after a refused commit leaves with a
    /// commit, be it of the rows as they are: so what was refused isn't what a crash leaves once another client may keep an
    /// answer in its cache. Moments are as in `take`. A refusal leaves the master and the rows as they were, and comes only for a moment of 2^53 or more, or where a session's count of events is at
    /// 2^63-1, as Exhausted, for want of memory, or where the store refused.
    pub fn sweep(&mut self, now: u64) -> Result<Swept, Fault>
        ensures ok { IfOk result (λ swept. sweep_step self.old.master now ≡ Ok (self.new.master, swept)) }
        ensures committed { OnOk result (IsSwept (sweep_frees self.old.master now) (sweep_edits self.old.master now) self.old.store self.new.store) }
        ensures fault { IfErr result (λ e. (sweep_step self.old.master now ≡ Err e × self.new ≡ self.old)
            ⊎ IsHeldUp e (sweep_frees self.old.master now) (sweep_edits self.old.master now) self.old.store self.new.store) }
        ensures err { OnErr result (self.new.master ≡ self.old.master) }
    {
        let mut room: Vec<Line> = Vec::new(self.master.master().alloc());
        let swept = self.sweep_with_room(now, &mut room);
        drop(room);
        swept
    }

    /// A sweep, with room in a list of the caller's, made before anything changes: for all that the sweep sends, and for
    /// all that it prints and one more. So what the caller adds of them afterwards takes no memory.
    pub fn sweep_with_room<T>(&mut self, now: u64, room: &mut Vec<T>) -> Result<Swept, Fault>
        ensures ok { IfOk result (λ swept. sweep_step self.old.master now ≡ Ok (self.new.master, swept)) }
        ensures committed { OnOk result (IsSwept (sweep_frees self.old.master now) (sweep_edits self.old.master now) self.old.store self.new.store) }
        ensures fault { IfErr result (λ e. (sweep_step self.old.master now ≡ Err e × self.new ≡ self.old)
            ⊎ IsHeldUp e (sweep_frees self.old.master now) (sweep_edits self.old.master now) self.old.store self.new.store) }
        ensures err { OnErr result (self.new.master ≡ self.old.master) }
        ensures items { room.new.items ≡ room.old.items }
        ensures outs { IfOk result (λ swept. vec_len room.new + length swept.outs ≤ vec_capacity room.new) }
        ensures lines { IfOk result (λ swept. vec_len room.new + length swept.lines < vec_capacity room.new) }
    {
        sweep_by(&mut self.master, &mut self.records, now, room)
    }

    /// Answers the lowest client's Beat that is due, where the session's timeout hasn't come; or finds none, and is quiet. No
    /// store is asked: so sessions live while the store refuses the change whose turn it is. Else as `sweep_with_room`.
    pub fn beats_with_room<T>(&mut self, now: u64, room: &mut Vec<T>) -> Result<Swept, Fault>
        ensures ok { IfOk result (λ swept. beats_step self.old.master now ≡ Ok (self.new.master, swept)) }
        ensures store { self.new ≡ record self.old { master = self.new.master } }
        ensures fault { IfErr result (λ e. e ≢ Fault.NoMemory → beats_step self.old.master now ≡ Err e) }
        ensures err { OnErr result (self.new ≡ self.old) }
        ensures items { room.new.items ≡ room.old.items }
        ensures outs { IfOk result (λ swept. vec_len room.new + length swept.outs ≤ vec_capacity room.new) }
        ensures lines { IfOk result (λ swept. vec_len room.new + length swept.lines < vec_capacity room.new) }
    {
        beats_by(&mut self.master, now, room)
    }

    /// The same, its answer three times, and whether it found no Beat. All memory is taken before it has an effect.
    pub fn beats_thrice(&mut self, now: u64) -> Result<SweptThrice, Fault>
        ensures ok { IfOk result (λ done. beats_step self.old.master now ≡ Ok (self.new.master, swept_as done.answers done.quiet)) }
        ensures store { self.new ≡ record self.old { master = self.new.master } }
        ensures fault { IfErr result (λ e. e ≢ Fault.NoMemory → beats_step self.old.master now ≡ Err e) }
        ensures err { OnErr result (self.new ≡ self.old) }
    {
        beats_thrice_by(&mut self.master, now)
    }

    /// A step by a request as `take` does it, its answer three times. All memory is taken before the step has an effect.
    pub fn take_thrice(&mut self, now: u64, request: &Request) -> Result<Thrice, Fault>
        ensures ok { IfOk result (λ taken. take_step self.old.master now request.now ≡ Ok (self.new.master, taken)) }
        ensures store { self.new ≡ record self.old { master = self.new.master } }
        ensures fault { IfErr result (λ e. e ≢ Fault.NoMemory → take_step self.old.master now request.now ≡ Err e) }
        ensures err { OnErr result (self.new ≡ self.old) }
    {
        let _client = request.client().get();
        self.master.take_thrice(now, request)
    }

    /// A sweep as `sweep` does it, its answer three times, and whether it found nothing to do. All memory is taken before
    /// the sweep has an effect.
    pub fn sweep_thrice(&mut self, now: u64) -> Result<SweptThrice, Fault>
        ensures ok { IfOk result (λ done. sweep_step self.old.master now ≡ Ok (self.new.master, swept_as done.answers done.quiet)) }
        ensures committed { OnOk result (IsSwept (sweep_frees self.old.master now) (sweep_edits self.old.master now) self.old.store self.new.store) }
        ensures fault { IfErr result (λ e. (sweep_step self.old.master now ≡ Err e × self.new ≡ self.old)
            ⊎ IsHeldUp e (sweep_frees self.old.master now) (sweep_edits self.old.master now) self.old.store self.new.store) }
        ensures err { OnErr result (self.new.master ≡ self.old.master) }
    {
        sweep_thrice_by(&mut self.master, &mut self.records, now)
    }

    /// The earliest moment, from the last one that the master was told on, at which a sweep would do something, in
    /// milliseconds: at every one before it a sweep is quiet, and at no later one. None where a sweep would be quiet at
    /// every moment there is. Want of memory alone refuses; the master stays as it is. It costs 54 times what a sweep
    /// looks at.
    pub fn next_deadline(&mut self) -> Result<Option<u64>, AllocError>
        ensures deadline { IfOk result (IsDeadline self.old.master) }
        ensures same { self.new ≡ self.old }
    {
        crate::deadlines::next_deadline(&mut self.master)
    }

    /// How many rights were granted in this master's epoch, and how many of them stand in each way. Takes no memory.
    pub fn totals(&self) -> Totals
        ensures counts { result ≡ totals_of self.now.master.rights }
        ensures sum { result.issued ≡ result.held + result.acknowledged + result.expired }
    {
        self.master.master().rights().totals()
    }

    /// How many masters came up, this one being the last.
    pub fn epoch(&self) -> u64
        ensures { result ≡ self.now.master.epoch }
    {
        self.master.master().epoch()
    }

    /// The parts of the master, to be looked at.
    pub fn master(&self) -> &Master
        ensures { result.now ≡ self.now.master }
    {
        self.master.master()
    }

    /// The records that the master commits to, to be looked at.
    pub fn records(&self) -> &R
        ensures { R.store result.now ≡ self.now.store }
    {
        self.records.records()
    }

    /// What holds of every master: what it knows of its rows is what they hold, and they are sound.
    pub fn kept(&self)
        ensures { IsKept self.now.store.cell self.now.store.rows self.now.master }
    {
        let _master = &self.master;
    }

    /// The master and its records, each by itself.
    pub fn into_parts(self) -> (cell_core::MemoryMaster, R)
        ensures master { result.0 ≡ self.master }
        ensures store { R.store result.1 ≡ self.store }
        ensures kept { IsKept self.store.cell self.store.rows self.master }
    {
        let Cell { records, master } = self;
        (master, records.into_records())
    }

    /// A master over records that hold what it knows of them, and of which a crash leaves just that.
    pub fn of_parts(master: cell_core::MemoryMaster, records: R) -> Cell<R>
        requires kept { IsKept (R.store records).cell (R.store records).rows master }
        requires settled { IsSettled (R.store records) }
        ensures { result ≡ record { master = master; store = R.store records } }
    {
        Cell {
            records: Keeping::of(records),
            master,
        }
    }

    /// Whether the last commit stood. A crash then leaves the rows that stand; after one that was refused it may leave the
    /// rows of that, until another commit stands.
    pub fn is_settled(&self) -> bool
        ensures { result ≡ true → IsSettled self.now.store }
    {
        self.records.is_settled()
    }

    /// The master is gone, and the records come back. What waited is lost.
    pub fn down(self) -> R
        ensures { R.store result ≡ self.store }
    {
        let Cell { records, .. } = self;
        records.into_records()
    }
}

// Reads the rows and commits the next epoch.
fn next_master<R: Records>(
    alloc: Global,
    records: &mut R,
    terms: MasterTerms,
    now: u64,
) -> Result<cell_core::MemoryMaster, Fault>
    requires { (1000 ≤ terms.lease) × (terms.lease ≤ 60000) }
    ensures ok { IfOk result (λ master. ComesUp terms now master (R.store records.old) (R.store records.new)) }
    ensures kept { IfOk result (λ master. IsKept (R.store records.new).cell (R.store records.new).rows master) }
    ensures settled { OnOk result (IsSettled (R.store records.new)) }
    ensures fault { IfErr result (λ e. StaysDown terms now e (R.store records.old) (R.store records.new)) }
{
    if now >= MOMENT_LIMIT {
        return Err(Fault::Exhausted);
    }
    let rows = next_rows(records)?;
    let epoch = rows.epoch;
    let master = cell_core::MemoryMaster::of_rows(alloc, rows, terms, now)?;
    match commit_epoch(alloc, records, epoch) {
        Ok(()) => Ok(master),
        Err(fault) => {
            drop(master);
            Err(fault)
        }
    }
}

// Reads the rows, and gives them with the next epoch.
fn next_rows<R: Records>(records: &mut R) -> Result<Rows, Fault>
    ensures ok { IfOk result (λ rows. next_epoch (R.store records.new).cell (R.store records.new).rows ≡ Ok rows) }
    ensures next { IfOk result (λ rows. rows ≡ changed_rows (R.store records.new).rows (up_edits (R.store records.new).rows)) }
    ensures sound { OnOk result (sound (R.store records.new).cell (changed_rows (R.store records.new).rows (up_edits (R.store records.new).rows)) ≡ true) }
    ensures sessions { IfOk result (λ rows. IsStrictlySortedBy nat_cmp (keys_of rows.sessions)) }
    ensures locks { IfOk result (λ rows. IsStrictlySortedBy lock_order (keys_of rows.locks)) }
    ensures names { IfOk result (λ rows. IsStrictlySortedBy (slice_cmp nat_cmp) (keys_of rows.nodes)) }
    ensures read { OnOk result (IsRead (R.store records.old) (R.store records.new)) }
    ensures fault { IfErr result (λ e. IsUnread e (R.store records.old) (R.store records.new)
        ⊎ (IsRead (R.store records.old) (R.store records.new) × next_epoch (R.store records.new).cell (R.store records.new).rows ≡ Err e)) }
{
    let mut rows = records.load()?;
    if rows.epoch >= NUMBER_LIMIT {
        drop(rows);
        return Err(Fault::Exhausted);
    }
    let epoch = rows.epoch + 1;
    rows.epoch = epoch;
    note_orders(&rows);
    Ok(rows)
}

// The tables of rows stand in the order of their keys.
fn note_orders(rows: &Rows)
    ensures sessions { IsStrictlySortedBy nat_cmp (keys_of rows.now.sessions) }
    ensures locks { IsStrictlySortedBy lock_order (keys_of rows.now.locks) }
    ensures names { IsStrictlySortedBy (slice_cmp nat_cmp) (keys_of rows.now.nodes) }
{
    let sessions = rows.sessions.as_map();
    let locks = rows.locks.as_map();
    let nodes = rows.nodes.as_map();
    let _sessions = sessions.len();
    let _locks = locks.len();
    let _nodes = nodes.len();
}

// Commits an epoch.
fn commit_epoch<R: Records>(alloc: Global, records: &mut R, epoch: u64) -> Result<(), Fault>
    requires { sound (R.store records.now).cell (changed_rows (R.store records.now).rows (Edit.Epoch epoch ∷ [])) ≡ true }
    ensures { Commits (Edit.Epoch epoch ∷ []) (R.store records.old) (R.store records.new) result }
{
    let mut edits = Items::new(alloc);
    edits.push(Edit::Epoch(epoch))?;
    records.commit(&edits)?;
    Ok(())
}
