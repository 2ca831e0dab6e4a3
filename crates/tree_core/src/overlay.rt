//! The nodes of a sealed batch and of a tree below it.
use crate::{Mem, MerkleizedBatch, Readable};
use tree_shape::{Digest, Family, Location, Position};

/// A batch, and the tree that has what stands before the batch's nodes.
#[derive(Drop)]
pub(crate) struct Overlay<'a, F: Family, D: Digest> {
    pub(crate) base: &'a Mem<F, D>,
    pub(crate) batch: &'a MerkleizedBatch<F, D>,
}

impl<F: Family, D: Digest> Readable for Overlay<'_, F, D> {
    ghost use Rattle.std.specs.Prelude.{◌≡◌};
    ghost use Rattle.tree_core.specs.Overlay.{overlaid};

    type Family = F;

    type Digest = D;

    ghost leaves = { λ o. o.batch.now.leaves };

    ghost told = { λ o p. overlaid F.shape o.batch.now o.base.now p };

    fn leaves(&self) -> Location<F> {
        self.batch.leaves()
    }

    fn size(&self) -> Position<F> {
        self.batch.size()
    }

    fn get_node(&self, pos: Position<F>) -> Option<D>
        ensures { result ≡ overlaid F.shape self.now.batch.now self.now.base.now pos }
    {
        if pos.as_u64() < self.batch.first_position() {
            self.base.get_node(pos)
        } else {
            self.batch.get_node(pos)
        }
    }
}
