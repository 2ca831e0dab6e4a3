//! Which nodes a prune keeps, and what a tree is built from.
ghost use Rattle.std.specs.Prelude.{◌≡◌, ℕ, ◌+◌, ◌-◌, ◌≤◌, ◌^◌, ◌++◌, min, take, length, IfOk, IfErr, false, None, vec_capacity};
ghost use Rattle.tree_shape.specs.Shape.{made};
ghost use Rattle.tree_shape.specs.Sizes.{HasSize};
ghost use Rattle.tree_core.specs.Pruned.{is_peak_at};
ghost use Rattle.tree_core.specs.Reading.{ArePeaks};
ghost use Rattle.tree_core.specs.KeptNodes.{entry_at, placed, peaks_found, AreBefore, HasRoom};

use crate::Error;
use crate::kept_nodes::{PIN_ROOM, node_among, push_found};
use std::alloc::{AllocError, Global};
use tree_shape::{Digest, Family, Position, peak_nodes, width};

/// Puts behind the pins those of the first `count` pins and the nodes from `first` on that stand at peaks of so many leaves.
/// It takes no memory.
pub(crate) fn push_peaks<F: Family, D: Digest>(
    pins: &mut Vec<(u64, D)>,
    count: usize,
    first: u64,
    nodes: &[D],
    leaves: u64,
)
    requires few { leaves ≤ 2 ^ 62 }
    requires within { count ≤ length pins.old.items }
    requires before { AreBefore first (take count pins.old.items) }
    requires room { length pins.old.items + length (F.shape.heights leaves) ≤ vec_capacity pins.old }
    ensures pins { let kept = take count pins.old.items ++ placed first nodes.now in
        pins.new.items ≡ pins.old.items ++ peaks_found F.shape (entry_at kept) leaves (F.shape.heights leaves) }
    ensures room { vec_capacity pins.old ≤ vec_capacity pins.new }
{
    let mut end = leaves;
    let peaks = F::peak_count(leaves);
    for i in 0..peaks {
        let height = F::peak_height(leaves, i);
        end -= width(height);
        let position = F::position(end, height);
        let found = node_among(pins, count, first, nodes, position);
        push_found(pins, position, found);
    }
}

/// A table of the peaks of a number of leaves, the oldest first, each at its position.
pub(crate) fn pins_of<F: Family, D: Digest>(
    alloc: Global,
    leaves: u64,
    pinned: &[D],
) -> Result<Vec<(u64, D)>, AllocError>
    requires few { leaves ≤ 2 ^ 62 }
    requires counted { length pinned.now ≡ length (F.shape.heights leaves) }
    ensures pins { IfOk result (λ v.
        ArePeaks F.shape leaves (λ x k. entry_at v.items (F.shape.position x k)) pinned.now) }
    ensures others { IfOk result (λ v. (p : ℕ) → is_peak_at F.shape leaves (F.shape.heights leaves) p ≡ false →
        entry_at v.items p ≡ None) }
    ensures before { IfOk result (λ v. AreBefore (length (made F.shape leaves)) v.items) }
    ensures room { IfOk result (λ v. HasRoom (length v.items) (vec_capacity v)) }
{
    let peaks = peak_nodes::<F>(alloc, leaves)?;
    let mut nodes = Vec::new(alloc);
    for j in 0..peaks.len() {
        let (x, height) = peaks[j];
        nodes.push((F::position(x, height), pinned[j]))?;
    }
    nodes.reserve(PIN_ROOM)?;
    Ok(nodes)
}

/// The number of leaves whose nodes are those of `boundary` leaves and `more` behind them.
pub(crate) fn leaves_with<F: Family>(boundary: u64, more: u64) -> Result<u64, Error<F>>
    requires { boundary ≤ 2 ^ 62 }
    ensures found { IfOk result (λ n. HasSize F.shape n (length (made F.shape boundary) + more)) }
    ensures missing { let size = length (made F.shape boundary) + more in
        IfErr result (λ e. (e ≡ Error.MissingNode (min size (2 ^ 64 - 1))) × ((n : ℕ) → HasSize F.shape n size → ⊥)) }
{
    let end = F::size(boundary).saturating_add(more);
    match F::leaves_at(Position::new(end)) {
        Some(leaves) => Ok(leaves.as_u64()),
        None => Err(Error::MissingNode(Position::new(end))),
    }
}
