//! The proof of a witness's commit by the witness's pins alone.
ghost use Rattle.std.specs.Prelude.{◌≡◌, ◌<◌, ◌≤◌, ◌^◌, ℕ, None, IfOk, IfSome, IsOkUnless};
ghost use Rattle.tree_shape.specs.Hashing.{Hashing};
ghost use Rattle.compact_db.specs.Pinned.{IsUnpinned, ProvesCommit};

use chain_core::Error;
use std::alloc::Global;
use std::marker::PhantomData;
use tree_core::{Digest, Family, Location, Position, Proof, Readable};
use tree_verification::proof_from_memory;
use witness_store::Witness;

/// The peaks before the last leaf of a tree, the oldest first. It has no other node of the tree.
#[derive(Drop)]
struct PinnedPeaks<'a, F: Family, D: Digest> {
    before: u64,
    pins: &'a [D],
    family: PhantomData<F>,
    ghost few: { before < 2 ^ 62 },
}

impl<F: Family, D: Digest> Readable for PinnedPeaks<'_, F, D> {
    ghost use Rattle.std.specs.Prelude.{◌≡◌, ◌+◌};
    ghost use Rattle.compact_db.specs.Pinned.{pin_at};

    type Family = F;

    type Digest = D;

    ghost leaves = { λ t. t.before + 1 };

    ghost told = { λ t p. pin_at F.shape t.before t.pins.now p };

    fn leaves(&self) -> Location<F> {
        Location::new(self.before + 1)
    }

    fn size(&self) -> Position<F> {
        F::location_to_position(Location::new(self.before + 1))
    }

    fn get_node(&self, pos: Position<F>) -> Option<D>
        ensures { result ≡ pin_at F.shape self.now.before self.now.pins.now pos }
    {
        let mut positions = F::nodes_to_pin(Location::new(self.before));
        for i in 0..self.pins.len() {
            let position = positions.next()?;
            if position.as_u64() == pos.as_u64() {
                return Some(self.pins[i]);
            }
        }
        None
    }
}

/// The proof of a witness's commit, where it takes no node but the witness's pins; none where it takes another.
/// Nothing is hashed. It refuses with `Memory` alone.
pub(crate) fn pinned_proof<F: Family, D: Digest>(
    alloc: Global,
    witness: &Witness<F, D>,
    floor: Location<F>,
) -> Result<Option<Proof<F, D>>, Error<F>>
    requires some { 0 < witness.now.size }
    requires few { witness.now.size ≤ 2 ^ 62 }
    ensures proof { IfOk result (λ found. IfSome found (λ proof. (h : Hashing D) →
        ProvesCommit F.shape h witness.now floor proof)) }
    ensures none { IfOk result (λ found. found ≡ None → (p : ℕ) × IsUnpinned F.shape witness.now p) }
    ensures memory { IsOkUnless result Error.Memory }
{
    let size = witness.size.as_u64();
    let inactive = F::inactive_peaks(Location::new(size), floor);
    let peaks = PinnedPeaks::<F, D> {
        before: size - 1,
        pins: witness.pinned_nodes.as_slice(),
        family: PhantomData,
    };
    match proof_from_memory(alloc, &peaks, Location::new(size - 1), inactive) {
        Ok(proof) => Ok(Some(proof)),
        Err(tree_core::Error::ElementPruned(_)) => Ok(None),
        Err(tree_core::Error::Memory) => Err(Error::Memory),
        Err(_) => unreachable!(),
    }
}
