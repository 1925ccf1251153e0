//! The invalidations that an Alive carries: those that the master didn't know to be processed, in order of their numbers
//! (Burrows 2006, section 2.7). The numbers may be any that a u64 holds.
ghost use Rattle.std.specs.Prelude.{◌≡◌};
ghost use Rattle.client_core.specs.InOrder.{follow};
ghost use Rattle.client_core.specs.Invalidations.{invalidation_numbers, is_in_order, last_number, all_flushed};

use cache_core::Cache;
use tags_cell::Invalidation;

/// Whether the numbers rise by one, and begin at most one above what was processed.
pub fn is_in_order(processed: u64, invalidations: &[Invalidation]) -> bool
    ensures { result ≡ is_in_order processed invalidations.now }
{
    match invalidations {
        [] => true,
        [first, others @ ..] => {
            first.number.saturating_sub(1) <= processed && follow(first.number, others)
        }
    }
}

// Whether the numbers rise by one from after this one on.
fn follow(mut last: u64, invalidations: &[Invalidation]) -> bool
    ensures { result ≡ follow last (invalidation_numbers invalidations.now) }
{
    for next in invalidations {
        if next.number.checked_sub(1) != Some(last) {
            return false;
        }
        last = next.number;
    }
    true
}

/// The last number, 0 where there is none.
pub fn last_number(invalidations: &[Invalidation]) -> u64
    ensures { result ≡ last_number 0 invalidations.now }
{
    match invalidations {
        [] => 0,
        [.., last] => last.number,
    }
}

/// Takes the entries of the names away that the invalidations above this number are of. What is invalidated is never
/// updated (Burrows 2006, section 2.7).
pub fn flush_all(cache: &mut Cache, processed: u64, invalidations: &[Invalidation])
    ensures { cache.new ≡ record cache.old { entries = all_flushed processed cache.old.entries invalidations.now } }
{
    for next in invalidations {
        if next.number > processed {
            cache.flush(&next.name);
        }
    }
}
