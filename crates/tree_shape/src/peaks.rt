//! The peaks of a tree: all in one list, and whether a node is one.
ghost use Rattle.std.specs.Prelude.{◌≡◌, ◌==◌, ◌&&◌, ◌≤◌, ◌<◌, ◌+◌, ◌^◌, All, IfOk};
ghost use Rattle.std.specs.Bool.{Decides};
ghost use Rattle.tree_shape.specs.Kept.{PeakOf, is_peak as test_peak};
ghost use Rattle.tree_shape.specs.Shape.{peaks};

use crate::{Family, width};
use std::alloc::{AllocError, Global};

/// The peaks of a number of leaves, the oldest first, each by its first leaf and its height.
pub fn peak_nodes<F: Family>(alloc: Global, leaves: u64) -> Result<Vec<(u64, u32)>, AllocError>
    requires { leaves ≤ 2 ^ 62 }
    ensures nodes { IfOk result (λ nodes. nodes.items ≡ peaks F.shape leaves) }
    ensures small { IfOk result (λ nodes. All (λ p. (p.0 + 2 ^ p.1 ≤ 2 ^ 62) × (p.1 < 63)) nodes.items) }
{
    let mut nodes = Vec::new(alloc);
    let mut x = 0;
    let count = F::peak_count(leaves);
    for i in 0..count {
        let height = F::peak_height(leaves, count - 1 - i);
        nodes.push((x, height))?;
        x += width(height);
    }
    Ok(nodes)
}

/// Whether these are the first leaf and the height of a node.
fn is_node(x: u64, height: u32, start: u64, peak: u32) -> bool
    ensures { result ≡ ((x == start) && (height == peak)) }
{
    x == start && height == peak
}

/// Whether the node of this height over the leaves from x on is a peak of so many leaves.
pub fn is_peak<F: Family>(leaves: u64, x: u64, height: u32) -> bool
    requires { leaves ≤ 2 ^ 62 }
    ensures test { result ≡ test_peak leaves (F.shape.heights leaves) x height }
    // The test is true exactly of the peaks.
    ensures peak { Decides (test_peak leaves (F.shape.heights leaves) x height) (PeakOf F.shape leaves x height) }
{
    let mut end = leaves;
    let count = F::peak_count(leaves);
    for i in 0..count {
        let peak = F::peak_height(leaves, i);
        end -= width(peak);
        if is_node(x, height, end, peak) {
            return true;
        }
    }
    false
}
