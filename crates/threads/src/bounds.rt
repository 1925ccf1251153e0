//! How many clients and rounds a run may have.
ghost use Rattle.std.specs.Prelude.{◌≡◌};
ghost use Rattle.threads.specs.Bounds.{is_within};

/// Whether a run may have so many clients and rounds.
pub(crate) fn is_within(clients: u64, rounds: u64) -> bool
    ensures { result ≡ is_within clients rounds }
{
    if clients < 1 || clients > 64 || rounds < 1 || rounds > 10_000 {
        return false;
    }
    clients * rounds <= 20_000
}
