//! The nodes of a cover that stand left of its range.
ghost use Rattle.std.specs.Prelude.{◌≡◌, ◌≤◌, ◌<◌, ◌+◌, ◌^◌, ◌++◌, ℕ, All, OnOk, IfOk};
ghost use Rattle.tree_proof.specs.Cover.{meets, cover_in, cover};
ghost use Rattle.tree_proof.specs.Pinned.{left_of};

use std::alloc::{AllocError, Global};
use tree_shape::{Family, half_width, peak_nodes, width};

/// Adds those of the cover of a range from so many leaves on, inside a node, that stand left of it.
fn push_left(
    nodes: &mut Vec<(u64, u32)>,
    leaves: u64,
    x: u64,
    height: u32,
) -> Result<(), AllocError>
    requires few { x + 2 ^ height ≤ 2 ^ 62 }
    requires low { height < 63 }
    ensures { OnOk result ((end : ℕ) → leaves < end →
        nodes.new.items ≡ nodes.old.items ++ left_of leaves (cover_in (meets leaves end) x height)) }
{
    if x + width(height) <= leaves {
        nodes.push((x, height))?;
        return Ok(());
    }
    if leaves <= x || height == 0 {
        return Ok(());
    }
    let half = half_width(height);
    push_left(nodes, leaves, x, height - 1)?;
    push_left(nodes, leaves, x + half, height - 1)?;
    Ok(())
}

/// The nodes of the cover of a range from `start` on, in a tree of so many leaves, that stand left of it.
pub(crate) fn left_nodes<F: Family>(
    alloc: Global,
    start: u64,
    leaves: u64,
) -> Result<Vec<(u64, u32)>, AllocError>
    requires { (start ≤ 2 ^ 62) × (leaves ≤ 2 ^ 62) }
    ensures nodes { IfOk result (λ nodes. (end : ℕ) → start < end →
        nodes.items ≡ left_of start (cover F.shape (meets start end) leaves)) }
    ensures small { IfOk result (λ nodes. All (λ p. (p.0 + 2 ^ p.1 ≤ 2 ^ 62) × (p.1 < 63)) nodes.items) }
{
    let peaks = peak_nodes::<F>(alloc, leaves)?;
    let mut nodes = Vec::new(alloc);
    for i in 0..peaks.len() {
        let (x, height) = peaks[i];
        push_left(&mut nodes, start, x, height)?;
    }
    Ok(nodes)
}
