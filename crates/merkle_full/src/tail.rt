//! The nodes that memory has from a position on. From its boundary's position on it lends them, and before that they are read.
ghost use Rattle.std.specs.Prelude.{◌≡◌, ◌⊎◌, ℕ, ◌+◌, ◌-◌, ◌<◌, ◌≤◌, List, length, drop, slice_get, Some, None, IsOk, IfOk, IfErr};
ghost use Rattle.tree_shape.specs.Hashing.{Hashing};
ghost use Rattle.tree_shape.specs.Shape.{made};
ghost use Rattle.tree_shape.specs.Slow.{nodes};
ghost use Rattle.tree_core.specs.Tree.{node_at, IsOf};
ghost use Rattle.merkle_full.specs.Flushing.{IsTail};

use std::alloc::Global;
use tree_core::{Digest, Error, Family, Mem, Position};

/// The nodes of a tree in memory from a position to its end. It refuses the first that memory doesn't have with
/// `MissingNode`.
fn nodes_from<F: Family, D: Digest>(
    alloc: Global,
    mem: &Mem<F, D>,
    first: u64,
) -> Result<Vec<D>, Error<F>>
    ensures counted { IfOk result (λ tail. length tail.items ≡ length (made F.shape mem.now.leaves) - first) }
    ensures told { IfOk result (λ tail. (i : ℕ) (d : D) → slice_get tail.items i ≡ Some d →
        node_at mem.now (first + i) ≡ Some d) }
    ensures tree { IfOk result (λ tail. (h : Hashing D) (all : List D) → IsOf F.shape h all mem.now →
        tail.items ≡ drop first (nodes F.shape h all)) }
    ensures missing { IfErr result (λ e. (e ≡ Error.Memory)
        ⊎ ((p : ℕ) × (first ≤ p) × (p < length (made F.shape mem.now.leaves))
        × (node_at mem.now p ≡ None) × (e ≡ Error.MissingNode p))) }
    // Of no nodes it takes no memory.
    ensures idle { length (made F.shape mem.now.leaves) ≤ first → IsOk result }
{
    let size = mem.size().as_u64();
    let mut tail = Vec::new(alloc);
    for position in first..size {
        match mem.get_node(Position::new(position)) {
            Some(node) => tail.push(node)?,
            None => return Err(Error::MissingNode(Position::new(position))),
        }
    }
    Ok(tail)
}

/// The nodes from a position to the end, where it stands before the boundary's, and so none that memory lends. It refuses as
/// `nodes_from`.
pub(crate) fn nodes_before<F: Family, D: Digest>(
    alloc: Global,
    mem: &Mem<F, D>,
    first: u64,
) -> Result<Vec<D>, Error<F>>
    ensures tail { IfOk result (λ tail. first < length (made F.shape mem.now.boundary) →
        IsTail F.shape mem.now first tail.items) }
    ensures missing { IfErr result (λ e. (e ≡ Error.Memory)
        ⊎ ((p : ℕ) × (first ≤ p) × (p < length (made F.shape mem.now.leaves))
        × (node_at mem.now p ≡ None) × (e ≡ Error.MissingNode p))) }
    // From there on it takes no memory.
    ensures idle { length (made F.shape mem.now.boundary) ≤ first → IsOk result }
{
    let (boundary, _) = mem.retained();
    if boundary.as_u64() <= first {
        return Ok(Vec::new(alloc));
    }
    nodes_from(alloc, mem, first)
}

/// The nodes from a position to the end: those that were read, where it stands before the boundary's, and else those that
/// memory lends.
pub(crate) fn tail_from<'a, F: Family, D: Digest>(
    mem: &'a Mem<F, D>,
    read: &'a [D],
    first: u64,
) -> &'a [D]
    requires { first < length (made F.shape mem.now.boundary) → IsTail F.shape mem.now first read.now }
    ensures tail { IsTail F.shape mem.now first result.now }
    ensures tree { (h : Hashing D) (all : List D) → IsOf F.shape h all mem.now →
        result.now ≡ drop first (nodes F.shape h all) }
{
    let (boundary, lent) = mem.retained();
    if first < boundary.as_u64() {
        return read;
    }
    let past = (first - boundary.as_u64()).min(lent.len() as u64);
    &lent[past as usize..]
}
