//! The walk over the peaks that finds the nodes which a proof and its elements tell.
ghost use Rattle.std.specs.Prelude.{◌≡◌, ℕ, ◌+◌, ◌≤◌, ◌<◌, ◌^◌, List, [], ◌∷◌, ◌++◌, length, map, drop, OnOk, IfOk};
ghost use Rattle.std.specs.BTreeMap.{get};
ghost use Rattle.std.specs.Ordering.{nat_cmp};
ghost use Rattle.tree_proof.specs.Cover.{cover_in, cover};
ghost use Rattle.tree_verification.specs.Told.{told_nodes, in_tree, IsHashed, entries, TellsExactly, found, Puts};

use std::alloc::{AllocError, Global};
use std::collections::BTreeMap;
use tree_proof::Known;
use tree_shape::{Digest, Family, Hasher, Position, Standard, half_width, peak_nodes};

/// Puts a node at its position.
fn put<F: Family, D: Digest>(
    nodes: &mut BTreeMap<u64, D>,
    x: u64,
    height: u32,
    digest: D,
) -> Result<(), AllocError>
    requires { x + 2 ^ height ≤ 2 ^ 62 }
    ensures { let place = F.shape.position x height in
        OnOk result ((p : ℕ) → get nat_cmp nodes.new p ≡ found p (get nat_cmp nodes.old p) ((place, digest) ∷ [])) }
{
    nodes.insert(F::position(x, height), digest)?;
    Ok(())
}

/// Puts the nodes that are told inside one node, with the digests from a place on. Gives that node and the place behind
/// the digests that it took.
fn tell<F: Family, H: Hasher, K: Known<F, H>>(
    nodes: &mut BTreeMap<u64, H::Digest>,
    hasher: &Standard<H>,
    known: &K,
    digests: &[H::Digest],
    x: u64,
    height: u32,
    at: usize,
) -> Result<(H::Digest, usize), AllocError>
    requires few { x + 2 ^ height ≤ 2 ^ 62 }
    requires low { height < 63 }
    requires ready { K.ready known.now }
    requires enough { at + length (cover_in (K.met known.now) x height) ≤ length digests.now }
    ensures behind { IfOk result (λ r. r.1 ≡ at + length (cover_in (K.met known.now) x height)) }
    ensures puts { IfOk result (λ r. (tree : ℕ → ℕ → H.Digest) (rest : List H.Digest) →
        IsHashed F.shape H.hash (K.met known.now) (K.leaf_of known.now) tree →
        drop at digests.now ≡ map (in_tree tree) (cover_in (K.met known.now) x height) ++ rest →
        let left = drop r.1 digests.now in
        Puts F.shape (K.met known.now) tree x height (get nat_cmp nodes.old) (get nat_cmp nodes.new) r.0 left rest) }
{
    if !known.is_met(x, height) {
        let count = digests.len();
        prove!(at < count);
        let digest = digests[at];
        put::<F, H::Digest>(nodes, x, height, digest)?;
        return Ok((digest, at + 1));
    }
    if height == 0 {
        let digest = known.leaf(hasher, x);
        put::<F, H::Digest>(nodes, x, height, digest)?;
        return Ok((digest, at));
    }
    let half = half_width(height);
    let (left, then) = tell::<F, H, K>(nodes, hasher, known, digests, x, height - 1, at)?;
    let (right, end) = tell::<F, H, K>(nodes, hasher, known, digests, x + half, height - 1, then)?;
    let pos = Position::<F>::new(F::position(x, height));
    let parent = hasher.node_digest(pos, &left, &right);
    put::<F, H::Digest>(nodes, x, height, parent)?;
    Ok((parent, end))
}

/// The nodes that are told in a tree of so many leaves, by their positions.
pub(crate) fn tell_peaks<F: Family, H: Hasher, K: Known<F, H>>(
    alloc: Global,
    hasher: &Standard<H>,
    known: &K,
    leaves: u64,
    digests: &[H::Digest],
) -> Result<BTreeMap<u64, H::Digest>, AllocError>
    requires few { leaves ≤ 2 ^ 62 }
    requires ready { K.ready known.now }
    requires counted { length digests.now ≡ length (cover F.shape (K.met known.now) leaves) }
    ensures { IfOk result (λ nodes. (tree : ℕ → ℕ → H.Digest) →
        IsHashed F.shape H.hash (K.met known.now) (K.leaf_of known.now) tree →
        digests.now ≡ map (in_tree tree) (cover F.shape (K.met known.now) leaves) →
        TellsExactly (get nat_cmp nodes) (entries F.shape tree (told_nodes F.shape (K.met known.now) leaves))) }
{
    let peaks = peak_nodes::<F>(alloc, leaves)?;
    let mut nodes = BTreeMap::new(alloc);
    let mut at = 0;
    for i in 0..peaks.len() {
        let (x, height) = peaks[i];
        let (_, then) = tell::<F, H, K>(&mut nodes, hasher, known, digests, x, height, at)?;
        at = then;
    }
    Ok(nodes)
}
