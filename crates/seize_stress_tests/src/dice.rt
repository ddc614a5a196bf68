//! Numbers by chance, the same for the same seed.

/// A state that leads from one number to the next.
#[derive(Clone, Copy)]
pub(crate) struct Dice {
    state: u64,
}

impl Dice {
    /// One for this seed.
    pub(crate) fn of(seed: u64) -> Dice {
        let state = seed.wrapping_mul(0x9e37_79b9_7f4a_7c15) | 1;
        Dice { state }
    }

    /// The next number, below so many.
    pub(crate) fn roll(&mut self, sides: u64) -> u64 {
        let mut x = self.state;
        x ^= x << 13;
        x ^= x >> 7;
        x ^= x << 17;
        self.state = x;
        (x >> 11) % sides.max(1)
    }
}
