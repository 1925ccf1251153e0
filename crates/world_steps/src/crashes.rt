//! Records that can be left as a crash may leave them.
ghost use Rattle.std.specs.Prelude.{◌≡◌, ◌==◌, ◌<◌, ◌∷◌, [], Some, false, length, IfOk};
ghost use Rattle.std.specs.Option.{option_map};
ghost use Rattle.node_core.specs.Limits.{number_limit};
ghost use Rattle.rows_cell.specs.Opening.{opening};
ghost use Rattle.rows_cell.specs.Stores.{Commits, IsRefused, told};
ghost use Rattle.world_steps.specs.Crash.{IsBeside, IsChanged, KeepsOther, MayChange, kept_beside};

use collections::Items;
use node_core::{Fault, NUMBER_LIMIT};
use rows_cell::{Edit, ListRecords, Records, Rows, Settings, StoreFault};
use std::alloc::{AllocError, Global};
use std::marker::Model;
use std::mem;

/// Records that can be left as a crash may leave them.
pub trait Crashes: Records {
    ghost use Rattle.std.specs.Prelude.{◌≡◌, is_some, true};
    ghost use Rattle.world_steps.specs.Crash.{left_at, LeavesOne};

    /// Whether there are rows of this number, counted from 1, among those that a crash may leave.
    fn may_leave(&self, number: u64) -> bool
        ensures { result ≡ is_some (left_at (Self.store self.now).may_leave number) };

    /// A crash that leaves these rows, which stand then.
    fn crash(&mut self, number: u64)
        requires { is_some (left_at (Self.store self.old).may_leave number) ≡ true }
        ensures { LeavesOne number (Self.store self.old) (Self.store self.new) };
}

/// Lists refuse nothing, so a crash leaves the rows that stand.
impl Crashes for ListRecords {
    fn may_leave(&self, number: u64) -> bool {
        number == 1
    }

    fn crash(&mut self, number: u64) {
        let _one = number;
    }
}

/// Rows in lists that refuse one commit, as a store does whose log is written and whose answer is lost: what it would have
/// changed may be what a crash leaves, until another commit stands. To a contract, what the lists hold, what the refused commit
/// would have left, how many commits are left up to it, and how often they refused.
#[derive(Drop)]
pub struct CrashRecords<R: Records> {
    // The rows that stand.
    lists: R,
    // The same once more, up to the commit that is refused, where there was memory for them.
    same: Option<R>,
    // What the refused commit would have left, until another stands.
    other: Option<R>,
    // How many commits are left up to the one that is refused, that one too.
    left: u64,
    refusals: u64,
}

impl<R: Records> Model for CrashRecords<R> {
    ghost use Rattle.std.specs.Option.{option_map};
    ghost use Rattle.world_steps.specs.Crash.{CrashState, AreBeside};

    ghost Value = { CrashState };

    ghost view = { λ c. record { lists = R.store c.lists; same = option_map R.store c.same; other = option_map R.store c.other; left = c.left; refusals = c.refusals } };

    ghost invariant = { λ c. AreBeside (record { lists = R.store c.lists; same = option_map R.store c.same; other = option_map R.store c.other; left = c.left; refusals = c.refusals }) };
}

impl CrashRecords<ListRecords> {
    /// The rows of a new store. The commit with this number is refused, counted from 1; those of no edit aren't counted. With 0
    /// none is.
    pub fn new(
        alloc: Global,
        settings: &Settings,
        number: u64,
    ) -> Result<CrashRecords<ListRecords>, AllocError>
        ensures { IfOk result (λ records. kept_beside records ≡ record { cell = settings.now.cell; rows = opening settings.now; may_leave = opening settings.now ∷ []; refusals = 0; doubt = 0 }) }
    {
        let lists = ListRecords::new(alloc, settings)?;
        let same = ListRecords::new(alloc, settings)?;
        Ok(CrashRecords {
            lists,
            same: Some(same),
            other: None,
            left: number,
            refusals: 0,
        })
    }
}

impl Records for CrashRecords<ListRecords> {
    ghost use Rattle.std.specs.Prelude.{◌≡◌, true};
    ghost use Rattle.rows_cell.specs.Rows.{changed_rows};
    ghost use Rattle.rows_cell.specs.Sound.{sound};
    ghost use Rattle.rows_cell.specs.Stores.{Loads, Commits, told};
    ghost use Rattle.world_steps.specs.Crash.{kept_beside};

    ghost store = { λ c. kept_beside c };

    #[tactic(auto, using(crate::proofs::Beside::loads_beside, crate::proofs::Beside::read_beside))]
    fn load(&mut self) -> Result<Rows, StoreFault> {
        self.lists.load()
    }

    /// The one with the number is refused: what it would have changed may be left, where there is memory for that. One that
    /// stands forgets it. Once 2^63-1 refusals are counted each with an edit is refused as Exhausted.
    fn commit(&mut self, change: &Items<Edit>) -> Result<(), StoreFault> {
        if change.is_empty() {
            return Ok(());
        }
        if self.refusals == NUMBER_LIMIT {
            return Err(StoreFault::Exhausted);
        }
        if self.left == 1 {
            self.refuse(change);
            return Err(StoreFault::Refused);
        }
        self.stand(change)
    }
}

impl CrashRecords<ListRecords> {
    // Refuses a commit with an edit, and keeps what it would have left.
    #[tactic(auto, using(crate::proofs::Beside::refused_beside, crate::proofs::Beside::changed_beside))]
    fn refuse(&mut self, change: &Items<Edit>)
        requires some { (length change.now == 0) ≡ false }
        requires few { self.old.refusals < number_limit }
        requires sound { MayChange change.now (Some self.old.lists) }
        ensures { IsRefused Fault.StoreRefused change.now (kept_beside self.old) (kept_beside self.new) }
    {
        let other = changed(self.same.take(), change);
        self.left = 0;
        self.refusals += 1;
        self.keep(other);
    }

    // What was refused may be left, where nothing else was refused since a commit stood.
    fn keep(&mut self, refused: Option<ListRecords>)
        requires { IsBeside self.old.lists (option_map ⟦<ListRecords as Records>⟧.store refused) }
        ensures { KeepsOther (option_map ⟦<ListRecords as Records>⟧.store refused) self.old self.new }
    {
        if self.other.is_none() {
            self.other = refused;
        } else {
            drop(refused);
        }
    }

    // A commit with an edit, which stands where there is memory for it.
    #[tactic(auto, using(crate::proofs::Beside::commits_beside, crate::proofs::Beside::changed_same))]
    fn stand(&mut self, change: &Items<Edit>) -> Result<(), StoreFault>
        requires some { (length change.now == 0) ≡ false }
        requires sound { MayChange change.now (Some self.old.lists) }
        ensures { Commits change.now (kept_beside self.old) (kept_beside self.new) (told result) }
    {
        let same = changed(self.same.take(), change);
        match self.lists.commit(change) {
            Ok(()) => {
                self.left = self.left.saturating_sub(1);
                self.same = same;
                drop(self.other.take());
                Ok(())
            }
            Err(fault) => {
                drop(same);
                Err(fault)
            }
        }
    }
}

impl Crashes for CrashRecords<ListRecords> {
    #[tactic(auto, using(crate::proofs::Beside::two_left))]
    fn may_leave(&self, number: u64) -> bool {
        number == 1 || (number == 2 && self.other.is_some())
    }

    #[tactic(auto, using(crate::proofs::Beside::first_stays, crate::proofs::Beside::first_alone, crate::proofs::Beside::second_stands))]
    fn crash(&mut self, number: u64) {
        match self.other.take() {
            Some(other) => {
                if number == 2 {
                    drop(mem::replace(&mut self.lists, other));
                    drop(self.same.take());
                } else {
                    drop(other);
                }
            }
            None => {}
        }
    }
}

// Lists with a change done; none where there were none, or memory is wanting.
fn changed(lists: Option<ListRecords>, change: &Items<Edit>) -> Option<ListRecords>
    requires { MayChange change.now (option_map ⟦<ListRecords as Records>⟧.store lists) }
    ensures { IsChanged change.now (option_map ⟦<ListRecords as Records>⟧.store lists) (option_map ⟦<ListRecords as Records>⟧.store result) }
{
    let mut lists = lists?;
    match lists.commit(change) {
        Ok(()) => Some(lists),
        Err(_) => {
            drop(lists);
            None
        }
    }
}
