//! The tests of a watch that closes.
ghost use Rattle.std.specs.Prelude.{◌≡◌, ◌↔◌, ◌++◌, ℕ, ◌<◌, Some, List, IfOk, IsTrue, MatchOption, length, nat_lt, replicate, slice_get};
ghost use Rattle.watch_cell.specs.Closing.{times, numbers, ticket_places, places, Sound, SoundIn, SoundOf, FlawIn, FlawOf, IsLowest, lower_of, IsPlace, Misses, AllThere};
ghost use Rattle.watch_cell.specs.Marks.{IsMarked, marked};
ghost use Rattle.watch_cell.specs.Trail.{entry};

use crate::events::{Entry, is_same};
use crate::locked::{Pass, Receipt};
use std::alloc::{AllocError, Global};
use std::sync::ledger::Ledger;

/// Whether a pass has this number.
pub fn has_number<I: Ledger, A: Ledger, E: Ledger, C: Ledger>(
    passes: &[Pass<I, A, E, C>],
    number: u64,
) -> bool
    ensures { result ≡ nat_lt 0 (times number (numbers passes.now)) }
{
    for pass in passes {
        if pass.number() == number {
            return true;
        }
    }
    false
}

// Whether one of two lists has this number.
#[tactic(auto, using(crate::proofs::Lists::times_numbers_append))]
fn have_number<I: Ledger, A: Ledger, E: Ledger, C: Ledger>(
    retired: &[Pass<I, A, E, C>],
    passes: &[Pass<I, A, E, C>],
    number: u64,
) -> bool
    ensures { result ≡ nat_lt 0 (times number (numbers (retired.now ++ passes.now))) }
{
    has_number(retired, number) || has_number(passes, number)
}

/// The lowest number that neither list has.
pub fn lowest_missing<I: Ledger, A: Ledger, E: Ledger, C: Ledger>(
    retired: &[Pass<I, A, E, C>],
    passes: &[Pass<I, A, E, C>],
    seats: u64,
) -> Option<u64>
    ensures { MatchOption result (AllThere (retired.now ++ passes.now) seats) (λ n. Misses (retired.now ++ passes.now) seats n) }
{
    for i in 0..seats {
        if !have_number(retired, passes, i + 1) {
            return Some(i + 1);
        }
    }
    None
}

// Notes a place: 0, 1 or at least 2 receipts.
fn mark(marks: &mut Vec<u8>, receipts: &[Receipt])
    ensures { marks.new.items ≡ marked marks.old.items (ticket_places receipts.now) }
{
    for receipt in receipts {
        let place = receipt.place() as usize;
        if place < marks.len() && marks[place] < 2 {
            marks[place] += 1;
        }
    }
}

fn mark_all<I: Ledger, A: Ledger, E: Ledger, C: Ledger>(
    marks: &mut Vec<u8>,
    passes: &[Pass<I, A, E, C>],
)
    ensures { marks.new.items ≡ marked marks.old.items (places passes.now) }
{
    for pass in passes {
        mark(marks, pass.receipts());
    }
}

fn zeros(alloc: Global, count: usize) -> Result<Vec<u8>, AllocError>
    ensures { IfOk result (λ v. v.items ≡ replicate count 0) }
{
    vec![in alloc; 0u8; count]
}

// How often each place of the trail has a receipt, up to 2.
fn marks_of<I: Ledger, A: Ledger, E: Ledger, C: Ledger>(
    alloc: Global,
    count: usize,
    retired: &[Pass<I, A, E, C>],
    passes: &[Pass<I, A, E, C>],
) -> Result<Vec<u8>, AllocError>
    ensures marked { IfOk result (λ v. IsMarked v.items (places (retired.now ++ passes.now))) }
    ensures count { IfOk result (λ v. length v.items ≡ count) }
{
    let mut marks = zeros(alloc, count)?;
    mark_all(&mut marks, retired);
    mark_all(&mut marks, passes);
    Ok(marks)
}

// Whether the trail has a receipt's event and reply at its place.
fn is_entered(trail: &[Entry], receipt: &Receipt) -> bool
    ensures entered { IsTrue result ↔ (slice_get trail.now receipt.now.place ≡ Some (entry receipt.now.event receipt.now.reply)) }
    ensures there { IsTrue result → receipt.now.place < length trail.now }
{
    match trail.get(receipt.place() as usize) {
        None => false,
        Some(entry) => is_same(entry, receipt.event(), receipt.reply()),
    }
}

// Whether a receipt is sound; there is a mark for each place of the trail.
fn is_sound(marks: &[u8], trail: &[Entry], top: u64, receipt: &Receipt) -> bool
    requires { length marks.now ≡ length trail.now }
    ensures { (all : List ℕ) → IsMarked marks.now all → IsTrue result ↔ Sound trail.now all top receipt.now }
{
    let place = receipt.place();
    top <= place && is_entered(trail, receipt) && marks[place as usize] == 1
}

// The lowest place of a receipt of one pass that isn't sound.
fn flaw_in(marks: &[u8], trail: &[Entry], receipts: &[Receipt]) -> Option<u64>
    requires { length marks.now ≡ length trail.now }
    ensures lowest { (all : List ℕ) → IsMarked marks.now all → IsLowest (SoundIn trail.now all 0 receipts.now) (FlawIn trail.now all 0 receipts.now) result }
    ensures place { IsPlace result }
{
    let mut lowest = None;
    let mut top = 0;
    for receipt in receipts {
        let place = receipt.place();
        if !is_sound(marks, trail, top, receipt) {
            lowest = lower(lowest, Some(place));
        }
        top = top.max(place + 1);
    }
    lowest
}

// The lower of two numbers that may be there.
fn lower(a: Option<u64>, b: Option<u64>) -> Option<u64>
    ensures lower { result ≡ lower_of a b }
    ensures place { IsPlace a → IsPlace b → IsPlace result }
{
    match (a, b) {
        (Some(a), Some(b)) => Some(a.min(b)),
        (Some(a), None) => Some(a),
        (None, b) => b,
    }
}

// The same of all passes of a list.
fn flaw_of<I: Ledger, A: Ledger, E: Ledger, C: Ledger>(
    marks: &[u8],
    trail: &[Entry],
    passes: &[Pass<I, A, E, C>],
) -> Option<u64>
    requires { length marks.now ≡ length trail.now }
    ensures lowest { (all : List ℕ) → IsMarked marks.now all → IsLowest (SoundOf trail.now all passes.now) (FlawOf trail.now all passes.now) result }
    ensures place { IsPlace result }
{
    let mut lowest = None;
    for pass in passes {
        lowest = lower(lowest, flaw_in(marks, trail, pass.receipts()));
    }
    lowest
}

/// The lowest place of a receipt that isn't sound.
pub fn lowest_flaw<I: Ledger, A: Ledger, E: Ledger, C: Ledger>(
    alloc: Global,
    trail: &[Entry],
    retired: &[Pass<I, A, E, C>],
    passes: &[Pass<I, A, E, C>],
) -> Result<Option<u64>, AllocError>
    ensures lowest { IfOk result (λ o. let hands = retired.now ++ passes.now in IsLowest (SoundOf trail.now (places hands) hands) (FlawOf trail.now (places hands) hands) o) }
    ensures place { IfOk result (λ o. IsPlace o) }
{
    let marks = marks_of(alloc, trail.len(), retired, passes)?;
    let first = flaw_of(marks.as_slice(), trail, retired);
    let second = flaw_of(marks.as_slice(), trail, passes);
    Ok(lower(first, second))
}
