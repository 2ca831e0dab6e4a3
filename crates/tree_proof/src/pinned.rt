//! Whether pins stand left of what a proof shows.
ghost use Rattle.std.specs.Prelude.{◌≡◌, ◌↔◌, ℕ, ◌≤◌, ◌<◌, ◌^◌, List, length, take, IfOk, IsOkUnless, IsTrue};
ghost use Rattle.tree_shape.specs.Slow.{leaf_digests};
ghost use Rattle.tree_shape.specs.Root.{root as root_of};
ghost use Rattle.tree_proof.specs.Check.{Checks};
ghost use Rattle.tree_proof.specs.Inputs.{ShowsElements, ShowsPins};
ghost use Rattle.tree_proof.specs.Pinned.{HasPins};

use crate::Proof;
use crate::checking::{is_same, look_at_all, verify};
use crate::left::left_nodes;
use crate::peaks::rebuild_nodes;
use crate::pins::PinsOf;
use codec_base::Bytes;
use std::alloc::{AllocError, Global};
use tree_shape::{Digest, Family, Hasher, Location, Standard};
use tree_store::Error;

/// Whether the digests begin with these.
fn begins_with<D: Digest>(digests: &[D], front: &[D]) -> bool
    ensures { IsTrue result ↔ (front.now ≡ take (length front.now) digests.now) }
{
    if digests.len() < front.len() {
        return false;
    }
    for i in 0..front.len() {
        if !is_same(&front[i], &digests[i]) {
            return false;
        }
    }
    true
}

/// Whether the pins hash to the nodes of the proof's cover left of a leaf.
fn has_pins<F: Family, H: Hasher>(
    alloc: Global,
    hasher: &Standard<H>,
    proof: &Proof<F, H::Digest>,
    start: u64,
    pinned: &[H::Digest],
) -> Result<bool, AllocError>
    requires { (start ≤ proof.now.leaves) × (proof.now.leaves ≤ 2 ^ 62) }
    ensures { IfOk result (λ pins. (count : ℕ) → 0 < count →
        (IsTrue pins ↔ HasPins F.shape H.hash proof.now start count pinned.now)) }
{
    if pinned.len() as u64 != u64::from(F::peak_count(start)) {
        return Ok(false);
    }
    let nodes = left_nodes::<F>(alloc, start, proof.leaves.as_u64())?;
    let known = PinsOf::<F> {
        leaves: Location::new(start),
    };
    match rebuild_nodes::<F, H, _>(alloc, hasher, &known, &nodes, pinned)? {
        None => Ok(false),
        Some(digests) => Ok(begins_with(proof.digests.as_slice(), &digests)),
    }
}

/// Whether the proof shows that the elements stand from `start` on in the tree with this root, and the pins are the peaks
/// of `start` leaves, the oldest first, as the proof's digests left of `start` tell them.
pub fn verify_proof_and_pinned_nodes<F: Family, H: Hasher>(
    alloc: Global,
    hasher: &Standard<H>,
    proof: &Proof<F, H::Digest>,
    start: Location<F>,
    elements: &[Bytes],
    pinned: &[H::Digest],
    root: &H::Digest,
) -> Result<bool, Error<F>>
    ensures checks { IfOk result (λ shown. IsTrue shown ↔
        (Checks F.shape H.hash hasher.now proof.now start elements.now root.now ×
        HasPins F.shape H.hash proof.now start (length elements.now) pinned.now)) }
    ensures memory { IsOkUnless result Error.Memory }

    // Against the root of any list of elements, they are those of the list, or two different hash inputs have one digest; so are the pins.
    ensures sound { IfOk result (λ shown. IsTrue shown →
        (all : List (List ℕ)) (inactive : ℕ) → length all ≤ 2 ^ 62 → inactive ≤ length (F.shape.heights (length all)) →
        root.now ≡ root_of F.shape H.hash (leaf_digests F.shape H.hash all) inactive hasher.now →
        ShowsElements F.shape H.hash hasher.now all inactive proof.now start elements.now ×
        ShowsPins F.shape H.hash hasher.now all inactive proof.now start elements.now pinned.now) }
{
    look_at_all(proof.digests.as_slice());
    look_at_all(pinned);
    let from = start.as_u64();
    if !verify(alloc, hasher, proof, start, elements, root)? {
        return Ok(false);
    }
    Ok(has_pins(alloc, hasher, proof, from, pinned)?)
}
