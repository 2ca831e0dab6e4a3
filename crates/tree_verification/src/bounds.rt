//! Which ranges can be proved.
ghost use Rattle.std.specs.Prelude.{◌≡◌, ◌+◌, ◌≤◌, ◌^◌, length, OnOk};
ghost use Rattle.tree_proof.specs.Cover.{meets, cover};
ghost use Rattle.tree_verification.specs.Ranges.{range_answer};
ghost use Rattle.tree_verification.specs.Told.{told_answer};

use crate::counting::is_cover_count;
use tree_proof::{LeafRange, Proof};
use tree_shape::{Digest, Family, Location, MAX_LEAVES};
use tree_store::Error;

/// Whether a range can be proved in the tree of so many leaves, where so many are stored.
pub(crate) fn check_range<F>(stored: u64, leaves: u64, range: &LeafRange) -> Result<(), Error<F>>
    ensures { result ≡ range_answer stored leaves range.now.start range.now.end }
{
    if range.end <= range.start {
        return Err(Error::Empty);
    }
    if range.end > MAX_LEAVES {
        return Err(Error::LocationOverflow(Location::new(range.end)));
    }
    if leaves > stored {
        return Err(Error::RangeOutOfBounds(Location::new(leaves)));
    }
    if range.end > leaves {
        return Err(Error::RangeOutOfBounds(Location::new(range.end)));
    }
    Ok(())
}

/// Whether a proof and so many elements from `start` on tell the nodes of a tree.
pub(crate) fn check_told<F: Family, D: Digest>(
    proof: &Proof<F, D>,
    start: u64,
    count: u64,
) -> Result<(), Error<F>>
    ensures answer { result ≡ told_answer F.shape proof.now start count }
    ensures few { OnOk result (proof.now.leaves ≤ 2 ^ 62) }
    ensures within { OnOk result (start + count ≤ proof.now.leaves) }
    ensures counted { OnOk result (length proof.now.digests ≡
        length (cover F.shape (meets start (start + count)) proof.now.leaves)) }
{
    if count == 0 {
        return Err(Error::Empty);
    }
    let leaves = proof.leaves.as_u64();
    if leaves > MAX_LEAVES {
        return Err(Error::LocationOverflow(Location::new(leaves)));
    }
    let end = start.saturating_add(count);
    if end > leaves {
        return Err(Error::RangeOutOfBounds(Location::new(end)));
    }
    let range = LeafRange { start, end };
    if !is_cover_count::<F, LeafRange>(&range, leaves, proof.digests.len()) {
        return Err(Error::InvalidPinnedNodes);
    }
    Ok(())
}
