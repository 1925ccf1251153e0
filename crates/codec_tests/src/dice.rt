//! Numbers that look random, and are always the same.

/// By a counter whose bits are mixed.
#[derive(Drop)]
pub(crate) struct Dice {
    state: u64,
}

impl Dice {
    pub(crate) fn new(seed: u64) -> Dice {
        Dice { state: seed }
    }

    /// A number below this one; 0 below 0.
    pub(crate) fn below(&mut self, end: u64) -> u64 {
        self.state = self.state.wrapping_add(0x9e37_79b9_7f4a_7c15);
        let mixed = (self.state ^ (self.state >> 30)).wrapping_mul(0xbf58_476d_1ce4_e5b9);
        let mixed = (mixed ^ (mixed >> 27)).wrapping_mul(0x94d0_49bb_1331_11eb);
        (mixed ^ (mixed >> 31)).checked_rem(end).unwrap_or(0)
    }

    /// One of these; 0 of none.
    pub(crate) fn of(&mut self, choices: &[u64]) -> u64 {
        let place = self.below(choices.len() as u64) as usize;
        choices.get(place).copied().unwrap_or(0)
    }
}
