//! Nodes rebuilt one after another, as the peaks are.
ghost use Rattle.std.specs.Prelude.{◌≡◌, ◌≤◌, ◌<◌, ◌+◌, ◌^◌, All, IfOk};
ghost use Rattle.std.specs.Option.{option_map};
ghost use Rattle.tree_shape.specs.Shape.{peaks};
ghost use Rattle.tree_proof.specs.Check.{wholly_rebuilt};

use crate::known::Known;
use crate::rebuild::rebuild;
use std::alloc::{AllocError, Global};
use tree_shape::{Family, Hasher, Standard, peak_nodes};

/// These nodes, rebuilt from what is known and all of the digests; none where there are too few or too many of these.
pub(crate) fn rebuild_nodes<F: Family, H: Hasher, K: Known<F, H>>(
    alloc: Global,
    hasher: &Standard<H>,
    known: &K,
    nodes: &[(u64, u32)],
    digests: &[H::Digest],
) -> Result<Option<Vec<H::Digest>>, AllocError>
    requires small { All (λ p. (p.0 + 2 ^ p.1 ≤ 2 ^ 62) × (p.1 < 63)) nodes.now }
    requires ready { K.ready known.now }
    ensures { IfOk result (λ r. option_map (λ v. v.items) r ≡
        wholly_rebuilt F.shape H.hash (K.met known.now) (K.leaf_of known.now) nodes.now digests.now) }
{
    let mut rebuilt = Vec::new(alloc);
    let mut at = 0;
    for i in 0..nodes.len() {
        let (x, height) = nodes[i];
        let Some((node, then)) = rebuild::<F, H, K>(hasher, known, x, height, digests, at) else {
            return Ok(None);
        };
        rebuilt.push(node)?;
        at = then;
    }
    if at < digests.len() {
        return Ok(None);
    }
    Ok(Some(rebuilt))
}

/// The peaks of n leaves, rebuilt from what is known and all of the digests; none where there are too few or too many of
/// these.
pub(crate) fn rebuild_peaks<F: Family, H: Hasher, K: Known<F, H>>(
    alloc: Global,
    hasher: &Standard<H>,
    known: &K,
    leaves: u64,
    digests: &[H::Digest],
) -> Result<Option<Vec<H::Digest>>, AllocError>
    requires few { leaves ≤ 2 ^ 62 }
    requires ready { K.ready known.now }
    ensures { IfOk result (λ r. option_map (λ v. v.items) r ≡
        wholly_rebuilt F.shape H.hash (K.met known.now) (K.leaf_of known.now) (peaks F.shape leaves) digests.now) }
{
    let nodes = peak_nodes::<F>(alloc, leaves)?;
    let rebuilt = rebuild_nodes::<F, H, K>(alloc, hasher, known, &nodes, digests)?;
    Ok(rebuilt)
}
