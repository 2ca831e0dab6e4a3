//! What appends make after a mark.
ghost use Rattle.std.specs.Prelude.{◌≡◌, ℕ, ◌+◌, ◌-◌, ◌≤◌, ◌<◌, ◌^◌, List, length, map, take, slice_get, OnOk, IfOk, Some};
ghost use Rattle.tree_shape.specs.Shape.{peaks_down};
ghost use Rattle.tree_shape.specs.Slow.{node_of};
ghost use Rattle.tree_core.specs.Pruned.{made_from, nodes_from, peaks_at, Continues};
ghost use Rattle.tree_core.specs.Hashed.{AreHashed};
ghost use Rattle.tree_core.specs.Reading.{TellsPeaks};

use crate::mark::Mark;
use crate::peaks::Peaks;
use std::alloc::{AllocError, Global};
use std::marker::PhantomData;
use tree_shape::{Digest, Family, Hasher, Position, Standard, half_width, width};

/// Adds the nodes that the append of a leaf makes behind the leaf, where `later` leaves were appended before it.
fn push_parents<F: Family, H: Hasher>(
    mark: &Mark<F, H::Digest>,
    since: &mut Vec<H::Digest>,
    later: u64,
    hasher: &Standard<H>,
) -> Result<(), AllocError>
    requires few { mark.now.leaves + later < 2 ^ 62 }
    requires counted { length since.old.items ≡ length (made_from F.shape mark.now.leaves later) + 1 }
    ensures counted { OnOk result (length since.new.items ≡ length (made_from F.shape mark.now.leaves (later + 1))) }
    ensures nodes { OnOk result ((leaves : List H.Digest) →
        mark.now.peaks.items ≡ peaks_at F.shape H.hash leaves mark.now.leaves →
        let made = made_from F.shape mark.now.leaves (later + 1) in
        since.old.items ≡ map (node_of F.shape H.hash leaves) (take (length since.old.items) made) →
        since.new.items ≡ nodes_from F.shape H.hash leaves mark.now.leaves (later + 1)) }
    // What stood there stands there still.
    ensures front { OnOk result ((i : ℕ) (d : H.Digest) →
        slice_get since.old.items i ≡ Some d → slice_get since.new.items i ≡ Some d) }
    ensures hashed { let mark = mark.now in OnOk result (
        AreHashed F.shape H.hash mark.leaves (later + 1) mark.peaks.items since.old.items →
        AreHashed F.shape H.hash mark.leaves (later + 1) mark.peaks.items since.new.items) }
{
    let n = mark.leaves + later;
    let size = F::size(mark.leaves);
    let mut i = 0;
    while let Some((start, height)) = F::parent(n, i) {
        let half = half_width(height);
        let left = mark.node_since(since, start, height - 1);
        let right = mark.node_since(since, start + half, height - 1);
        let place = Position::<F>::new(size + since.len() as u64);
        let parent = hasher.node_digest(place, &left, &right);
        since.push(parent)?;
        i += 1;
    }
    Ok(())
}

/// The nodes that the appends of these leaf digests make after a mark.
pub(crate) fn nodes_after<F: Family, H: Hasher>(
    alloc: Global,
    mark: &Mark<F, H::Digest>,
    digests: &[H::Digest],
    hasher: &Standard<H>,
) -> Result<Vec<H::Digest>, AllocError>
    requires { mark.now.leaves + length digests.now ≤ 2 ^ 62 }
    ensures counted { IfOk result (λ since. length since.items ≡
        length (made_from F.shape mark.now.leaves (length digests.now))) }
    ensures nodes { IfOk result (λ since. (all : List H.Digest) →
        mark.now.peaks.items ≡ peaks_at F.shape H.hash all mark.now.leaves →
        Continues all mark.now.leaves digests.now →
        since.items ≡ nodes_from F.shape H.hash all mark.now.leaves (length digests.now)) }
    // Whatever the mark, each leaf digest stands behind what the leaves before it made.
    ensures leaves { IfOk result (λ since. (i : ℕ) (d : H.Digest) → slice_get digests.now i ≡ Some d →
        slice_get since.items (length (made_from F.shape mark.now.leaves i)) ≡ Some d) }
    // And each node over two others is hashed from them.
    ensures hashed { IfOk result (λ since.
        AreHashed F.shape H.hash mark.now.leaves (length digests.now) mark.now.peaks.items since.items) }
{
    let later = digests.len() as u64;
    let count = F::size(mark.leaves + later).saturating_sub(F::size(mark.leaves));
    let mut since = Vec::with_capacity(alloc, count as usize)?;
    for i in 0..digests.len() {
        since.push(digests[i])?;
        push_parents::<F, H>(mark, &mut since, i as u64, hasher)?;
    }
    Ok(since)
}

/// The mark of a number of leaves with these peaks.
pub(crate) fn mark_of<F: Family, D: Digest, P: Peaks<F, D>>(
    alloc: Global,
    peaks: &P,
    leaves: u64,
) -> Result<Mark<F, D>, AllocError>
    requires few { leaves ≤ 2 ^ 62 }
    requires there { TellsPeaks F.shape leaves (P.told peaks.now) }
    ensures leaves { IfOk result (λ m. m.leaves ≡ leaves) }
    ensures peaks { IfOk result (λ m. map Some m.peaks.items ≡
        map (λ c. P.told peaks.now c.0 c.1) (peaks_down leaves (F.shape.heights leaves))) }
{
    let count = F::peak_count(leaves);
    let mut digests = Vec::with_capacity(alloc, count as usize)?;
    let mut end = leaves;
    for i in 0..count {
        let height = F::peak_height(leaves, i);
        end -= width(height);
        digests.push(peaks.read(end, height))?;
    }
    Ok(Mark {
        leaves,
        peaks: digests,
        family: PhantomData,
    })
}
