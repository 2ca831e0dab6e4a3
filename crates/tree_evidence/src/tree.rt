//! The tree of a list of elements, as far as the search needs it.
ghost use Rattle.std.specs.Prelude.{◌≡◌, ◌≤◌, ◌<◌, ◌+◌, ◌^◌, length, IfOk};
ghost use Rattle.tree_shape.specs.Slow.{leaf_digests};
ghost use Rattle.tree_evidence.specs.Whole.{IsWhole, leaf_count, peak_count, node_in, root_in};

use codec_base::Bytes;
use std::alloc::{AllocError, Global};
use tree_shape::{
    Digest, Family, Hasher, Position, Standard, root_of_peaks, slow_node, slow_peaks,
};

/// A list of elements, with the digests of their leaves and of the peaks of their tree, the oldest first.
#[derive(Drop)]
pub(crate) struct Tree<'a, D: Digest> {
    pub(crate) elements: &'a [Bytes],
    pub(crate) peaks: Vec<D>,
    leaves: Vec<D>,
}

/// The digests of the leaves of these elements.
fn leaves_of<F: Family, H: Hasher>(
    alloc: Global,
    hasher: &Standard<H>,
    elements: &[Bytes],
) -> Result<Vec<H::Digest>, AllocError>
    requires { length elements.now ≤ 2 ^ 62 }
    ensures { IfOk result (λ ds. ds.items ≡ leaf_digests F.shape H.hash elements.now) }
{
    let mut leaves = Vec::new(alloc);
    for i in 0..elements.len() {
        let pos = Position::<F>::new(F::position(i as u64, 0));
        leaves.push(hasher.leaf_digest(pos, elements[i].as_slice()))?;
    }
    Ok(leaves)
}

/// The tree of these elements. Each node is hashed once.
pub(crate) fn tree_of<'a, F: Family, H: Hasher>(
    alloc: Global,
    hasher: &Standard<H>,
    elements: &'a [Bytes],
) -> Result<Tree<'a, H::Digest>, AllocError>
    requires { length elements.now ≤ 2 ^ 62 }
    ensures whole { IfOk result (λ t. IsWhole F.shape H.hash t) }
    ensures elements { IfOk result (λ t. t.elements.now ≡ elements.now) }
{
    let leaves = leaves_of::<F, H>(alloc, hasher, elements)?;
    let peaks = slow_peaks::<F, H>(alloc, hasher, &leaves)?;
    Ok(Tree {
        elements,
        peaks,
        leaves,
    })
}

/// The node of this height over the leaves from `start` on, hashed from its leaves.
pub(crate) fn node_at<F: Family, H: Hasher>(
    hasher: &Standard<H>,
    tree: &Tree<'_, H::Digest>,
    start: u64,
    height: u32,
) -> H::Digest
    requires whole { IsWhole F.shape H.hash tree.now }
    requires within { start + 2 ^ height ≤ leaf_count tree.now }
    requires low { height < 63 }
    ensures { result ≡ node_in F.shape H.hash tree.now start height }
{
    slow_node::<F, H>(hasher, &tree.leaves, start, height)
}

/// The root with this many inactive peaks.
pub(crate) fn root_of<F: Family, H: Hasher>(
    hasher: &Standard<H>,
    tree: &Tree<'_, H::Digest>,
    inactive: u64,
) -> H::Digest
    requires whole { IsWhole F.shape H.hash tree.now }
    requires within { inactive ≤ peak_count F.shape tree.now }
    ensures { result ≡ root_in F.shape H.hash hasher.now tree.now inactive }
{
    root_of_peaks(
        hasher,
        tree.elements.len() as u64,
        inactive as usize,
        &tree.peaks,
    )
}
