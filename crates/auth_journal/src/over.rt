//! The nodes of a sealed batch and of a tree below it, and the peaks among them.
ghost use Rattle.std.specs.Prelude.{◌≡◌, ◌≤◌, ◌^◌, IfOk};
ghost use Rattle.tree_shape.specs.Pins.{pins};
ghost use Rattle.auth_journal.specs.Proving.{AreBatchPeaks};

use std::alloc::{AllocError, Global};
use tree_core::{Digest, Error, Family, Location, Mem, MerkleizedBatch, Position, Readable};
use tree_store::nodes_from_memory;

/// A batch, and the tree that has what stands before the batch's nodes.
#[derive(Drop)]
struct Over<'a, F: Family, D: Digest> {
    base: &'a Mem<F, D>,
    batch: &'a MerkleizedBatch<F, D>,
}

impl<F: Family, D: Digest> Readable for Over<'_, F, D> {
    ghost use Rattle.std.specs.Prelude.{◌≡◌};
    ghost use Rattle.tree_core.specs.Overlay.{overlaid};

    type Family = F;

    type Digest = D;

    ghost leaves = { λ o. o.batch.now.leaves };

    ghost told = { λ o p. overlaid F.shape o.batch.now o.base.now p };

    fn leaves(&self) -> Location<F> {
        self.batch.leaves()
    }

    fn size(&self) -> Position<F> {
        self.batch.size()
    }

    fn get_node(&self, pos: Position<F>) -> Option<D>
        ensures { result ≡ overlaid F.shape self.now.batch.now self.now.base.now pos }
    {
        let place = pos.as_u64();
        // Its leaves tell that the batch is sound.
        let _sound = self.batch.leaves();
        if place >= self.batch.size().as_u64() {
            return None;
        }
        match self.batch.get_node(Position::new(place)) {
            Some(node) => Some(node),
            None => self.base.get_node(Position::new(place)),
        }
    }
}

/// Where the peaks of so many leaves stand, the oldest first.
fn peak_positions<F: Family>(alloc: Global, leaves: u64) -> Result<Vec<Position<F>>, AllocError>
    requires { leaves ≤ 2 ^ 62 }
    ensures { IfOk result (λ positions. positions.items ≡ pins F.shape leaves) }
{
    let mut positions = Vec::new(alloc);
    for position in F::nodes_to_pin(Location::new(leaves)) {
        positions.push(position)?;
    }
    Ok(positions)
}

/// The peaks of so many leaves of a batch over a tree that has what stands before the batch's nodes, the oldest first. It refuses
/// with `ElementPruned` the first that isn't there, or with `Memory`.
pub(crate) fn peaks_over<F: Family, D: Digest>(
    alloc: Global,
    base: &Mem<F, D>,
    batch: &MerkleizedBatch<F, D>,
    leaves: u64,
) -> Result<Vec<D>, Error<F>>
    requires { leaves ≤ batch.now.leaves }
    ensures { AreBatchPeaks F.shape batch.now base.now leaves result }
{
    // Their leaves tell that both are sound.
    let _stored = base.leaves();
    let _sealed = batch.leaves();
    let positions = peak_positions::<F>(alloc, leaves)?;
    let nodes = Over { base, batch };
    nodes_from_memory(alloc, &nodes, &positions)
}
