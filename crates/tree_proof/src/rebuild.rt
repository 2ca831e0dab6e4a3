//! Nodes rebuilt from what is known and digests.
ghost use Rattle.std.specs.Prelude.{◌≡◌, ◌≤◌, ◌<◌, ◌+◌, ◌-◌, ◌^◌, length, drop, Some, None, IfSome, IfNone};
ghost use Rattle.tree_proof.specs.Check.{next_of, rebuilt};

use crate::known::Known;
use tree_shape::{Family, Hasher, Position, Standard, half_width};

/// The digest at a place, and the place behind it.
fn next<D: Copy>(digests: &[D], at: usize) -> Option<(D, usize)>
    ensures some { IfSome result (λ r. next_of (drop at digests.now) ≡ Some (r.0, drop r.1 digests.now)) }
    ensures within { IfSome result (λ r. r.1 ≤ length digests.now) }
    ensures none { IfNone result (next_of (drop at digests.now) ≡ None) }
{
    if at < digests.len() {
        Some((digests[at], at + 1))
    } else {
        None
    }
}

/// A node rebuilt from what is known and the digests from a place on, with the place behind those that it took.
pub(crate) fn rebuild<F: Family, H: Hasher, K: Known<F, H>>(
    hasher: &Standard<H>,
    known: &K,
    x: u64,
    height: u32,
    digests: &[H::Digest],
    at: usize,
) -> Option<(H::Digest, usize)>
    requires few { x + 2 ^ height ≤ 2 ^ 62 }
    requires low { height < 63 }
    requires ready { K.ready known.now }
    ensures some { let ds = drop at digests.now in IfSome result (λ r.
        rebuilt F.shape H.hash (K.met known.now) (K.leaf_of known.now) x height ds ≡ Some (r.0, drop r.1 digests.now)) }
    ensures none { let ds = drop at digests.now in IfNone result
        (rebuilt F.shape H.hash (K.met known.now) (K.leaf_of known.now) x height ds ≡ None) }
{
    if !known.is_met(x, height) {
        return next(digests, at);
    }
    if height == 0 {
        return Some((known.leaf(hasher, x), at));
    }
    let half = half_width(height);
    match rebuild::<F, H, K>(hasher, known, x, height - 1, digests, at) {
        None => None,
        Some((left, then)) => {
            match rebuild::<F, H, K>(hasher, known, x + half, height - 1, digests, then) {
                None => None,
                Some((right, then)) => {
                    let pos = Position::<F>::new(F::position(x, height));
                    let parent = hasher.node_digest(pos, &left, &right);
                    Some((parent, then))
                }
            }
        }
    }
}
