//! Who is told of the invalidations that clients are issued.
ghost use Rattle.std.specs.Prelude.{◌≡◌};

/// Keeps, for each client, up to which number it was issued invalidations. Who asks clients back tells it one by one, so that
/// no table of them is made.
pub trait Issues {
    ghost use Rattle.std.specs.Prelude.{ℕ};

    /// What it becomes once a client was issued the invalidations up to this number.
    ghost issued: { Self → ℕ × ℕ → Self };

    /// A client was issued the invalidations up to this number, those of before included.
    fn issue_through(&mut self, client: u64, number: u64)
        ensures { self.new ≡ issued self.old (client, number) };
}
