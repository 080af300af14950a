//! A generator of numbers that look random. Generators with equal seeds return equal numbers.

/// A linear congruential generator.
#[derive(Clone, Copy)]
pub(crate) struct Random {
    state: u64,
}

impl Random {
    /// Returns the generator that starts with this seed.
    pub(crate) fn new(seed: u64) -> Random {
        Random {
            state: seed.wrapping_mul(0x9e37_79b9_7f4a_7c15).wrapping_add(1),
        }
    }

    /// Returns a number below the bound, or 0 if the bound is 0.
    pub(crate) fn below(&mut self, bound: usize) -> usize {
        self.state = self
            .state
            .wrapping_mul(6_364_136_223_846_793_005)
            .wrapping_add(1_442_695_040_888_963_407);
        (self.state >> 33) as usize % bound.max(1)
    }
}
