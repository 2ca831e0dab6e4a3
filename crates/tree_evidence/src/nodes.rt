//! Below two nodes with one digest: the inputs that clash.
ghost use Rattle.std.specs.Prelude.{◌≡◌, ◌≤◌, ◌<◌, ◌+◌, ◌^◌, slice_get, IfOk};
ghost use Rattle.tree_evidence.specs.Whole.{AreWhole, ClashBelow, leaf_count, node_in};

use crate::inputs::{leaf_bytes, node_bytes};
use crate::pair::Pair;
use crate::tree::{Tree, node_at};
use codec_base::Bytes;
use std::alloc::{AllocError, Global};
use tree_shape::{Family, Hasher, Standard, half_width};

/// The nodes of this height over the leaves from `start` on.
fn both_at<F: Family, H: Hasher>(
    hasher: &Standard<H>,
    one: &Tree<'_, H::Digest>,
    other: &Tree<'_, H::Digest>,
    start: u64,
    height: u32,
) -> Pair<H::Digest>
    requires whole { AreWhole F.shape H.hash one.now other.now }
    requires counted { leaf_count one.now ≡ leaf_count other.now }
    requires within { start + 2 ^ height ≤ leaf_count one.now }
    requires low { height < 63 }
    ensures one { result.one ≡ node_in F.shape H.hash one.now start height }
    ensures other { result.other ≡ node_in F.shape H.hash other.now start height }
{
    Pair {
        one: node_at::<F, H>(hasher, one, start, height),
        other: node_at::<F, H>(hasher, other, start, height),
    }
}

/// The two inputs that clash at or below the nodes of one place, which have one digest: the first that differ on the way
/// down to a leaf where the lists differ.
pub(crate) fn find_below<F: Family, H: Hasher>(
    alloc: Global,
    hasher: &Standard<H>,
    one: &Tree<'_, H::Digest>,
    other: &Tree<'_, H::Digest>,
    start: u64,
    height: u32,
    place: u64,
) -> Result<(Bytes, Bytes), AllocError>
    requires whole { AreWhole F.shape H.hash one.now other.now }
    requires counted { leaf_count one.now ≡ leaf_count other.now }
    requires within { start + 2 ^ height ≤ leaf_count one.now }
    requires low { height < 63 }
    requires over { (start ≤ place) × (place < start + 2 ^ height) }
    requires differ { slice_get one.now.elements.now place ≡ slice_get other.now.elements.now place → ⊥ }
    requires same { node_in F.shape H.hash one.now start height ≡ node_in F.shape H.hash other.now start height }
    ensures { IfOk result (λ r. ClashBelow F.shape H.hash one.now other.now start height r) }
{
    let pos = F::position(start, height);
    if height == 0 {
        let first = leaf_bytes(alloc, pos, one.elements[start as usize].as_slice())?;
        let second = leaf_bytes(alloc, pos, other.elements[start as usize].as_slice())?;
        return Ok((first, second));
    }
    let middle = start + half_width(height);
    let left = both_at::<F, H>(hasher, one, other, start, height - 1);
    let right = both_at::<F, H>(hasher, one, other, middle, height - 1);
    if !left.is_same() || !right.is_same() {
        let first = node_bytes::<H>(alloc, pos, &left.one, &right.one)?;
        let second = node_bytes::<H>(alloc, pos, &left.other, &right.other)?;
        return Ok((first, second));
    }
    if place < middle {
        find_below::<F, H>(alloc, hasher, one, other, start, height - 1, place)
    } else {
        find_below::<F, H>(alloc, hasher, one, other, middle, height - 1, place)
    }
}
