//! How much there is of what a limit counts, and whether there is room for more.
ghost use Rattle.std.specs.Prelude.{◌≡◌, ◌+◌, ℕ};
ghost use Rattle.node_core.specs.Room.{Says, Counts, has_room, room_fault};

use crate::refusals::Fault;

// A sum that is kept beside what it is of, so that it costs by what changes. One that was above `u64::MAX` once isn't known
// any more.
#[derive(Clone, Copy)]
pub(crate) struct Total {
    sum: Option<u64>,
}

impl Total {
    // That of nothing.
    pub(crate) fn new() -> Total
        ensures { Says result.sum 0 }
    {
        Total { sum: Some(0) }
    }

    // The sum, where it is known.
    pub(crate) fn get(self) -> Option<u64>
        ensures { result ≡ self.sum }
    {
        self.sum
    }

    // So much went, and so much came.
    pub(crate) fn change(&mut self, went: u64, came: u64)
        ensures { (old new : ℕ) → Says self.old.sum old → new + went ≡ old + came → Says self.new.sum new }
    {
        self.sum = changed(self.sum, went, came);
    }
}

fn changed(sum: Option<u64>, went: u64, came: u64) -> Option<u64>
    ensures { (old new : ℕ) → Says sum old → new + went ≡ old + came → Says result new }
{
    let left = sum?.checked_sub(went)?;
    left.checked_add(came)
}

/// Why so much more may not come of what a limit counts, where `held` is how much there is, None more than `u64::MAX`: the
/// refusal that names the limit. None where there is room, or no limit. What doesn't grow is never refused.
pub fn room_fault(limit: Option<u64>, held: Option<u64>, growth: u64) -> Option<Fault>
    ensures { (n : ℕ) → Counts held n → result ≡ room_fault limit n growth }
{
    match limit {
        Some(limit) if !has_room(limit, held, growth) => Some(Fault::NoRoom(limit)),
        _ => None,
    }
}

fn has_room(limit: u64, held: Option<u64>, growth: u64) -> bool
    ensures { (n : ℕ) → Counts held n → result ≡ has_room limit n growth }
{
    if growth == 0 {
        return true;
    }
    let Some(held) = held else {
        return false;
    };
    match held.checked_add(growth) {
        Some(sum) => sum <= limit,
        None => false,
    }
}
