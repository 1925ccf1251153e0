//! Which number of those that were taken is given next.
ghost use Rattle.std.specs.Prelude.{◌≡◌, ◌+◌, ◌<◌, ◌≤◌};
ghost use Rattle.mastership.specs.Numbers.{Gives};

pub(crate) fn next_of(from: u64, to: u64, given: u64) -> u64
    ensures one { from + given < to → Gives from to given result }
    ensures none { to ≤ from + given → result ≡ 0 }
{
    if from < to && given < to - from {
        from + given
    } else {
        0
    }
}
