//! Pins as what is known of a tree.
ghost use Rattle.std.specs.Prelude.{◌≤◌, ◌^◌, []};
ghost use Rattle.tree_shape.specs.Slow.{leaf};
ghost use Rattle.tree_proof.specs.Pinned.{above_pins};

use crate::known::Known;
use crate::wanted::Wanted;
use tree_shape::{Family, Hasher, Location, Position, Standard, is_peak};

/// The peaks of so many leaves, whose digests are pins.
#[derive(Drop)]
pub(crate) struct PinsOf<F> {
    pub(crate) leaves: Location<F>,
}

impl<F: Family> Wanted for PinsOf<F> {
    ghost met = { λ p. above_pins F.shape p.leaves };

    ghost ready = { λ p. p.leaves ≤ 2 ^ 62 };

    fn is_met(&self, x: u64, height: u32) -> bool {
        !is_peak::<F>(self.leaves.as_u64(), x, height)
    }
}

impl<F: Family, H: Hasher> Known<F, H> for PinsOf<F> {
    ghost leaf_of = { λ p x. leaf F.shape H.hash x [] };

    fn leaf(&self, hasher: &Standard<H>, x: u64) -> H::Digest {
        let pos = Position::<F>::new(F::position(x, 0));
        hasher.leaf_digest(pos, &[])
    }
}
