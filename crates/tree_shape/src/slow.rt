ghost use Rattle.std.specs.Prelude.{◌≡◌, ◌≤◌, ◌<◌, ◌+◌, ◌-◌, ◌^◌, length, map, IfOk};
ghost use Rattle.tree_shape.specs.Shape.{peaks};
ghost use Rattle.tree_shape.specs.Slow.{node, node_of};
ghost use Rattle.tree_shape.specs.Root.{root};

use crate::root::root_of_peaks;
use crate::{Family, Hasher, Position, Standard, half_width, peak_nodes};
use std::alloc::{AllocError, Global};

/// The node of this height over the leaves from `start` on, from the leaves each time.
pub fn slow_node<F: Family, H: Hasher>(
    hasher: &Standard<H>,
    leaves: &[H::Digest],
    start: u64,
    height: u32,
) -> H::Digest
    requires within { start + 2 ^ height ≤ length leaves.now }
    requires few { length leaves.now ≤ 2 ^ 62 }
    requires low { height < 63 }
    ensures { result ≡ node F.shape H.hash leaves.now start height }
{
    if height == 0 {
        leaves[start as usize]
    } else {
        let half = half_width(height);
        let left = slow_node::<F, H>(hasher, leaves, start, height - 1);
        let right = slow_node::<F, H>(hasher, leaves, start + half, height - 1);
        let pos = Position::<F>::new(F::position(start, height));
        hasher.node_digest(pos, &left, &right)
    }
}

/// The digests of the peaks, the oldest first, each from the leaves.
pub fn slow_peaks<F: Family, H: Hasher>(
    alloc: Global,
    hasher: &Standard<H>,
    leaves: &[H::Digest],
) -> Result<Vec<H::Digest>, AllocError>
    requires { length leaves.now ≤ 2 ^ 62 }
    ensures { IfOk result (λ ps. ps.items ≡
        map (node_of F.shape H.hash leaves.now) (peaks F.shape (length leaves.now))) }
{
    let peaks = peak_nodes::<F>(alloc, leaves.len() as u64)?;
    let mut digests = Vec::new(alloc);
    for i in 0..peaks.len() {
        let (x, height) = peaks[i];
        digests.push(slow_node::<F, H>(hasher, leaves, x, height))?;
    }
    Ok(digests)
}

/// The root of a list of leaf digests with this many inactive peaks, from the leaves.
pub fn slow_root<F: Family, H: Hasher>(
    alloc: Global,
    hasher: &Standard<H>,
    leaves: &[H::Digest],
    inactive: u64,
) -> Result<H::Digest, AllocError>
    requires few { length leaves.now ≤ 2 ^ 62 }
    requires inactive { inactive ≤ length (F.shape.heights (length leaves.now)) }
    ensures { IfOk result (λ r. r ≡ root F.shape H.hash leaves.now inactive hasher.now) }
{
    let digests = slow_peaks::<F, H>(alloc, hasher, leaves)?;
    Ok(root_of_peaks(hasher, leaves.len() as u64, inactive as usize, &digests))
}
