ghost use Rattle.std.specs.Prelude.{◌≡◌, ◌↔◌, ◌≤◌, ◌^◌, IsTrue, length};
ghost use Rattle.tree_shape.specs.Shape.{made};

use crate::{Family, Location, MAX_LEAVES, Position};

impl<F> Location<F> {
    /// Whether it is at most `MAX_LEAVES`.
    pub fn is_valid(&self) -> bool
        ensures { IsTrue result ↔ (self.now ≤ MAX_LEAVES) }
    {
        self.as_u64() <= MAX_LEAVES
    }
}

impl<F: Family> Position<F> {
    /// Whether it is at most the number of nodes of `MAX_LEAVES` leaves.
    pub fn is_valid(&self) -> bool
        ensures { IsTrue result ↔ (self.now ≤ length (made F.shape MAX_LEAVES)) }
    {
        self.as_u64() <= F::size(MAX_LEAVES)
    }
}
