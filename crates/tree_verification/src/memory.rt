//! Proofs from what memory has of a tree.
ghost use Rattle.std.specs.Prelude.{◌≡◌, ◌+◌, ◌≤◌, ◌^◌, length, IfOk, IfErr};
ghost use Rattle.tree_store.specs.Stores.{IsUnread};
ghost use Rattle.tree_proof.specs.Cover.{meets};
ghost use Rattle.tree_verification.specs.Ranges.{cover_positions, range_answer, leaf_answer, HasForm, IsProofIn, Proves};

use crate::bounds::check_range;
use crate::walk::find_cover;
use codec_base::ListOf;
use std::alloc::Global;
use tree_proof::{LeafRange, Proof, Wanted};
use tree_shape::{Location, MAX_LEAVES};
use tree_store::{Error, Readable, nodes_from_memory};

/// The proof of what is wanted in the tree of so many leaves.
fn prove_from_memory<R: Readable, W: Wanted>(
    alloc: Global,
    nodes: &R,
    leaves: u64,
    wanted: &W,
    inactive_peaks: u64,
) -> Result<Proof<R::Family, R::Digest>, Error<R::Family>>
    requires ready { W.ready wanted.now }
    requires few { leaves ≤ 2 ^ 62 }
    ensures form { IfOk result (HasForm R.Family.shape leaves inactive_peaks (W.met wanted.now)) }
    ensures proof { IfOk result (IsProofIn R.Family.shape (R.told nodes.now) leaves inactive_peaks (W.met wanted.now)) }
    ensures unread { IfErr result (IsUnread (R.told nodes.now)
        (cover_positions R.Family.shape (W.met wanted.now) leaves)) }
{
    let positions = find_cover::<R::Family, W>(alloc, wanted, leaves)?;
    let digests = nodes_from_memory(alloc, nodes, &positions)?;
    Ok(Proof {
        leaves: Location::new(leaves),
        inactive_peaks,
        digests: ListOf::from_vec(digests),
    })
}

/// The proof of the leaves from `start` up to `end`. Refuses, in this order: `Empty`, `LocationOverflow`,
/// `RangeOutOfBounds`; then `ElementPruned` of the first node of the cover that isn't there, or `Memory`.
pub fn range_proof_from_memory<R: Readable>(
    alloc: Global,
    nodes: &R,
    start: Location<R::Family>,
    end: Location<R::Family>,
    inactive_peaks: u64,
) -> Result<Proof<R::Family, R::Digest>, Error<R::Family>>
    requires { inactive_peaks ≤ length (R.Family.shape.heights (R.leaves nodes.now)) }
    ensures { let leaves = R.leaves nodes.now in
        let answer = range_answer leaves leaves start end in
        Proves R.Family.shape answer leaves inactive_peaks (meets start end) (R.told nodes.now) result }
{
    let leaves = nodes.leaves().as_u64();
    let range = LeafRange {
        start: start.as_u64(),
        end: end.as_u64(),
    };
    check_range::<R::Family>(leaves, leaves, &range)?;
    prove_from_memory(alloc, nodes, leaves, &range, inactive_peaks)
}

/// The proof of one leaf. Refuses, in this order: `LocationOverflow`, `RangeOutOfBounds`; then `ElementPruned` of the first
/// node of the cover that isn't there, or `Memory`.
pub fn proof_from_memory<R: Readable>(
    alloc: Global,
    nodes: &R,
    loc: Location<R::Family>,
    inactive_peaks: u64,
) -> Result<Proof<R::Family, R::Digest>, Error<R::Family>>
    requires { inactive_peaks ≤ length (R.Family.shape.heights (R.leaves nodes.now)) }
    ensures { let leaves = R.leaves nodes.now in
        let answer = leaf_answer leaves loc in
        Proves R.Family.shape answer leaves inactive_peaks (meets loc (loc + 1)) (R.told nodes.now) result }
{
    let start = loc.as_u64();
    if start >= MAX_LEAVES {
        return Err(Error::LocationOverflow(loc));
    }
    let end = Location::new(start + 1);
    range_proof_from_memory(alloc, nodes, loc, end, inactive_peaks)
}
