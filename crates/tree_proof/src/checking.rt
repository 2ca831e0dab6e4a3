//! Whether a proof shows that items stand in a tree.
ghost use Rattle.std.specs.Prelude.{◌≡◌, ◌↔◌, ℕ, List, ◌+◌, ◌≤◌, ◌^◌, length, All, IfOk, IsOkUnless, IsTrue};
ghost use Rattle.tree_shape.specs.Slow.{leaf_digests};
ghost use Rattle.tree_shape.specs.Root.{root as root_of};
ghost use Rattle.tree_proof.specs.Check.{Checks, IsInBounds, rebuilt_root};
ghost use Rattle.tree_proof.specs.Inputs.{ShowsElements};

use crate::Proof;
use crate::known::Items;
use crate::peaks::rebuild_peaks;
use codec_base::Bytes;
use std::alloc::{AllocError, Global};
use tree_shape::{Digest, Family, Hasher, Location, Standard, root_of_peaks};
use tree_store::Error;

/// Whether so many items from a leaf on, and the inactive peaks, are within the proof's leaves.
fn is_in_bounds<F: Family, D>(proof: &Proof<F, D>, start: u64, count: u64) -> bool
    ensures { IsTrue result ↔ IsInBounds F.shape proof.now start count }
{
    let leaves = proof.leaves.as_u64();
    count > 0
        && proof.leaves.is_valid()
        && start <= leaves
        && count <= leaves - start
        && proof.inactive_peaks <= u64::from(F::peak_count(leaves))
}

/// The root that the proof and the items give, where the digests are as many as the cover's nodes.
fn rebuild_root<F: Family, H: Hasher>(
    alloc: Global,
    hasher: &Standard<H>,
    proof: &Proof<F, H::Digest>,
    start: u64,
    items: &[Bytes],
) -> Result<Option<H::Digest>, AllocError>
    requires { IsInBounds F.shape proof.now start (length items.now) }
    ensures { IfOk result (λ r. r ≡ rebuilt_root F.shape H.hash hasher.now proof.now start items.now) }
{
    let leaves = proof.leaves.as_u64();
    let digests = proof.digests.as_slice();
    let known = Items { start, items };
    match rebuild_peaks::<F, H, _>(alloc, hasher, &known, leaves, digests)? {
        None => Ok(None),
        Some(peaks) => {
            let inactive = proof.inactive_peaks as usize;
            Ok(Some(root_of_peaks(hasher, leaves, inactive, &peaks)))
        }
    }
}

/// Whether two digests are one.
pub(crate) fn is_same<D: Digest>(a: &D, b: &D) -> bool
    ensures { IsTrue result ↔ (a.now ≡ b.now) }
{
    a.as_slice() == b.as_slice()
}

/// Looks at the digests one by one: each has the length of digests.
pub(crate) fn look_at_all<D: Digest>(digests: &[D])
    ensures sized { All (λ d. length (D.bytes d) ≡ D.FixedSize.width) digests.now }
{
    let mut i = 0;
    while i < digests.len() {
        let _bytes = digests[i].as_slice();
        i += 1;
    }
}

/// Whether the proof is within its bounds and gives this root.
fn is_shown<F: Family, H: Hasher>(
    alloc: Global,
    hasher: &Standard<H>,
    proof: &Proof<F, H::Digest>,
    start: u64,
    elements: &[Bytes],
    root: &H::Digest,
) -> Result<bool, AllocError>
    ensures { IfOk result (λ shown. IsTrue shown ↔
        Checks F.shape H.hash hasher.now proof.now start elements.now root.now) }
{
    if !is_in_bounds(proof, start, elements.len() as u64) {
        return Ok(false);
    }
    match rebuild_root(alloc, hasher, proof, start, elements)? {
        None => Ok(false),
        Some(rebuilt) => Ok(is_same(&rebuilt, root)),
    }
}

/// Whether the proof shows that the elements stand from `start` on in the tree with this root. It takes memory for the
/// peaks alone, and each node is hashed once.
pub fn verify<F: Family, H: Hasher>(
    alloc: Global,
    hasher: &Standard<H>,
    proof: &Proof<F, H::Digest>,
    start: Location<F>,
    elements: &[Bytes],
    root: &H::Digest,
) -> Result<bool, Error<F>>
    ensures checks { IfOk result (λ shown. IsTrue shown ↔
        Checks F.shape H.hash hasher.now proof.now start elements.now root.now) }
    ensures memory { IsOkUnless result Error.Memory }

    // Against the root of any list of elements, they are those of the list, or two different hash inputs have one digest.
    ensures sound { IfOk result (λ shown. IsTrue shown →
        (all : List (List ℕ)) (inactive : ℕ) → length all ≤ 2 ^ 62 → inactive ≤ length (F.shape.heights (length all)) →
        root.now ≡ root_of F.shape H.hash (leaf_digests F.shape H.hash all) inactive hasher.now →
        ShowsElements F.shape H.hash hasher.now all inactive proof.now start elements.now) }
{
    look_at_all(proof.digests.as_slice());
    let shown = is_shown(alloc, hasher, proof, start.as_u64(), elements, root)?;
    Ok(shown)
}
