//! The next instance that the tables have, as far as it is known.
ghost use Rattle.std.specs.Prelude.{◌≡◌, IsTrue};
ghost use Rattle.rows_cell.specs.Rows.{edited, changed_rows};
ghost use Rattle.rows_cell.specs.declared.tables.Rows.{Rows as Held};
ghost use Rattle.rows_sql.specs.Known.{HasNext, IsSaid};

use crate::writing::any_sets_next;
use rows_cell::Edit;

// Whether an edit says the next instance that is known.
fn says_known(edit: &Edit, next: Option<u64>) -> bool
    ensures { IsTrue result → IsSaid edit.now next }
{
    let Edit::NextInstance(said) = edit else {
        return false;
    };
    match next {
        Some(known) => *said == known,
        None => false,
    }
}

/// What of a change has to be done, if this is what is known of the next instance: all but a last edit that says just that, and alone
/// says one.
pub(crate) fn needed(change: &[Edit], next: Option<u64>) -> &[Edit]
    ensures { (rows : Held) → HasNext rows next → changed_rows rows result.now ≡ changed_rows rows change.now }
{
    let Some((last, front)) = change.split_last() else {
        return change;
    };
    if says_known(last, next) && !any_sets_next(front) {
        return front;
    }
    change
}

// The next instance that an edit says.
fn said_by(edit: &Edit) -> Option<u64>
    ensures { (rows : Held) → HasNext (edited rows edit.now) result }
{
    match edit {
        Edit::NextInstance(said) => Some(*said),
        _ => None,
    }
}

/// What is known of the next instance after a change.
pub(crate) fn next_after(change: &[Edit], next: Option<u64>) -> Option<u64>
    ensures { (rows : Held) → HasNext rows next → HasNext (changed_rows rows change.now) result }
{
    if !any_sets_next(change) {
        return next;
    }
    let Some((last, _front)) = change.split_last() else {
        return next;
    };
    said_by(last)
}
