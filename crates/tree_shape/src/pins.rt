ghost use Rattle.std.specs.Prelude.{ℕ, ◌≤◌, length};

use crate::{Family, MAX_LEAVES, MAX_PINNED_NODES, Position, width};
use std::marker::{Model, PhantomData};

/// A tree has at most `MAX_PINNED_NODES` peaks.
pub fn few_peaks_law<F: Family>()
    ensures { (n : ℕ) → n ≤ MAX_LEAVES → length (F.shape.heights n) ≤ MAX_PINNED_NODES }
{}

/// The positions of the peaks of a number of leaves, the oldest first. Contracts see it as those that are left.
#[derive(Drop)]
pub struct Pins<F: Family> {
    leaves: u64,
    start: u64,
    left: u32,
    family: PhantomData<F>,
}

impl<F: Family> Model for Pins<F> {
    ghost use Rattle.std.specs.Prelude.{List, ℕ};
    ghost use Rattle.tree_shape.specs.Pins.{pins_left, IsWalk};

    ghost Value = { List ℕ };

    ghost view = { λ p. pins_left F.shape p.leaves p.left };

    ghost invariant = { λ p. IsWalk F.shape p.leaves p.start p.left };
}

impl<F: Family> Pins<F> {
    ghost use Rattle.std.specs.Prelude.{◌≡◌, ◌≤◌, ◌^◌};
    ghost use Rattle.tree_shape.specs.Pins.{pins};

    /// All the peaks of a number of leaves.
    pub(crate) fn new(leaves: u64) -> Self
        requires { leaves ≤ 2 ^ 62 }
        ensures { result ≡ pins F.shape leaves }
    {
        Pins {
            leaves,
            start: 0,
            left: F::peak_count(leaves),
            family: PhantomData,
        }
    }
}

impl<F: Family> Iterator for Pins<F> {
    ghost use Rattle.std.specs.Iterator.{YieldsFirst, item_count};

    type Item = Position<F>;

    ghost next_gives = { YieldsFirst (λ s. s) };

    ghost remaining = { item_count (λ s. s) };

    fn next(&mut self) -> Option<Position<F>> {
        if self.left == 0 {
            return None;
        }
        let height = F::peak_height(self.leaves, self.left - 1);
        let pos = Position::new(F::position(self.start, height));
        self.start += width(height);
        self.left -= 1;
        Some(pos)
    }
}
