//! A tree in memory at rest, with the peaks of a boundary.
ghost use Rattle.std.specs.Prelude.{◌≡◌, ◌⊎◌, ◌<◌, ◌≤◌, ◌^◌, ℕ, List, length, map, slice_get, Some, IsSome, is_some, IfOk, IsOkUnless};
ghost use Rattle.std.specs.BTreeMap.{get};
ghost use Rattle.std.specs.Ordering.{nat_cmp};
ghost use Rattle.tree_shape.specs.Hashing.{Hashing};
ghost use Rattle.tree_shape.specs.Pins.{pins};
ghost use Rattle.tree_shape.specs.Shape.{peaks};
ghost use Rattle.tree_shape.specs.Slow.{node_of};
ghost use Rattle.tree_core.specs.Tree.{IsOf, IsSound, node_at, rests};
ghost use Rattle.merkle_full.specs.Pinning.{IsPinAt};

use std::alloc::Global;
use std::collections::BTreeMap;
use tree_core::{Digest, Error, Family, Location, Mem, Position};

/// These digests at these positions.
fn pin_map<F: Family, D: Digest>(
    alloc: Global,
    positions: &[Position<F>],
    digests: &[D],
) -> Result<BTreeMap<Position<F>, D>, Error<F>>
    requires { length positions.now ≡ length digests.now }
    ensures among { IfOk result (λ m. (p : ℕ) (d : D) → get nat_cmp m p ≡ Some d →
        IsPinAt positions.now digests.now p d) }
    ensures all { IfOk result (λ m. (i p : ℕ) → slice_get positions.now i ≡ Some p → IsSome (get nat_cmp m p)) }
    ensures memory { IsOkUnless result Error.Memory }
{
    let mut pinned = BTreeMap::new(alloc);
    for i in 0..positions.len() {
        pinned.insert(Position::new(positions[i].as_u64()), digests[i])?;
    }
    Ok(pinned)
}

/// The tree at rest, with these peaks of the boundary.
pub(crate) fn repinned<F: Family, D: Digest>(
    alloc: Global,
    mem: Mem<F, D>,
    positions: &[Position<F>],
    digests: &[D],
    boundary: Location<F>,
) -> Result<Mem<F, D>, Error<F>>
    requires positions { positions.now ≡ pins F.shape boundary }
    requires counted { length positions.now ≡ length digests.now }
    requires low { boundary ≤ mem.leaves }
    requires sound { IsSound F.shape mem }
    ensures leaves { IfOk result (λ m. m.leaves ≡ mem.leaves) }
    ensures boundary { IfOk result (λ m. m.boundary ≡ mem.leaves) }
    ensures sound { IfOk result (λ m. IsSound F.shape m) }
    ensures exact { IfOk result (λ m. (p : ℕ) → is_some (node_at m p) ≡ rests F.shape mem.leaves boundary p) }
    ensures nodes { IfOk result (λ m. (p : ℕ) (d : D) → node_at m p ≡ Some d →
        (node_at mem p ≡ Some d) ⊎ IsPinAt positions.now digests.now p d) }
    ensures tree { IfOk result (λ m. (h : Hashing D) (all : List D) → IsOf F.shape h all mem →
        digests.now ≡ map (node_of F.shape h all) (peaks F.shape boundary) → IsOf F.shape h all m) }
    ensures memory { IsOkUnless result Error.Memory }
{
    let pinned = pin_map(alloc, positions, digests)?;
    let mut mem = mem;
    mem.add_pinned_nodes(pinned)?;
    mem.rest(boundary);
    Ok(mem)
}
