//! Ranges of leaves drawn one after another.

use tree_core::{Location, Mmr};

/// A generator of numbers: a linear congruence of 64 bits, of which the upper half is given.
#[derive(Drop)]
pub(crate) struct Draws {
    state: u64,
}

impl Draws {
    pub(crate) fn new() -> Self {
        Draws { state: 1 }
    }

    /// A number below 2^32.
    fn draw(&mut self) -> u64 {
        self.state = self
            .state
            .wrapping_mul(6364136223846793005)
            .wrapping_add(1442695040888963407);
        self.state >> 32
    }

    /// A range of at least one of so many leaves.
    pub(crate) fn range(&mut self, leaves: u64) -> (Location<Mmr>, Location<Mmr>) {
        let start = self.draw() % leaves.max(1);
        let end = start.saturating_add(1 + self.draw() % leaves.saturating_sub(start).max(1));
        (Location::new(start), Location::new(end))
    }
}
