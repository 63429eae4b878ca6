//! Numbers drawn by a fixed rule.

/// Draws numbers.
#[derive(Clone, Copy)]
pub(crate) struct Dice {
    state: u64,
}

impl Dice {
    pub(crate) fn new(seed: u64) -> Dice {
        let mut dice = Dice {
            state: seed.wrapping_mul(2_862_933_555_777_941_757),
        };
        for _ in 0..4 {
            let _ = dice.below(2);
        }
        dice
    }

    /// The next number below a bound.
    pub(crate) fn below(&mut self, bound: u64) -> u64 {
        self.state = self
            .state
            .wrapping_mul(6_364_136_223_846_793_005)
            .wrapping_add(1_442_695_040_888_963_407);
        let high = self.state.checked_div(8_589_934_592).unwrap_or(0);
        high.checked_rem(bound).unwrap_or(0)
    }

    /// The next number from a lowest one on, below a bound.
    pub(crate) fn from(&mut self, low: u64, bound: u64) -> u64 {
        let more = self.below(bound.saturating_sub(low));
        low.saturating_add(more)
    }

    /// Whether what happens so many times in a thousand happens.
    pub(crate) fn happens(&mut self, thousandths: u64) -> bool {
        self.below(1_000) < thousandths
    }
}
