//! What two lists of elements and the roots of their trees show.
ghost use Rattle.std.specs.Prelude.{◌≡◌, ◌≤◌, ◌^◌, length, slice_get, IfOk, IfSome, IfNone, IsOkUnless};
ghost use Rattle.tree_evidence.specs.Evidence.{IsEvidence};
ghost use Rattle.tree_evidence.specs.Whole.{AreWhole, ClashIn, peak_count, root_in};

use crate::answer::Clash;
use crate::difference::{first_difference, is_equal};
use crate::fold_pairs::find_folded;
use crate::folds::root_input_of;
use crate::nodes::find_below;
use crate::pair::Pair;
use crate::peaks::peak_over;
use crate::tree::{Tree, root_of, tree_of};
use codec_base::Bytes;
use std::alloc::{AllocError, Global};
use tree_shape::{Bagging, Family, Hasher, Standard};
use tree_store::Error;

/// The two inputs that clash in two trees with one root: from the root down, the first that differ on the way to a leaf
/// where the lists differ.
fn find_under<F: Family, H: Hasher>(
    alloc: Global,
    hasher: &Standard<H>,
    one: &Tree<'_, H::Digest>,
    other: &Tree<'_, H::Digest>,
    inactive_one: u64,
    inactive_other: u64,
    difference: Option<u64>,
) -> Result<(Bytes, Bytes), AllocError>
    requires whole { AreWhole F.shape H.hash one.now other.now }
    requires within { (inactive_one ≤ peak_count F.shape one.now) × (inactive_other ≤ peak_count F.shape other.now) }
    requires place { IfSome difference (λ i.
        slice_get one.now.elements.now i ≡ slice_get other.now.elements.now i → ⊥) }
    requires counts { IfNone difference (inactive_one ≡ inactive_other → ⊥) }
    requires same { root_in F.shape H.hash hasher.now one.now inactive_one ≡
        root_in F.shape H.hash hasher.now other.now inactive_other }
    ensures { IfOk result (λ r.
        ClashIn F.shape H.hash hasher.now one.now other.now inactive_one inactive_other r) }
{
    let leaves = one.elements.len() as u64;
    let others = other.elements.len() as u64;
    let first = root_input_of(alloc, hasher, leaves, inactive_one, &one.peaks)?;
    let second = root_input_of(alloc, hasher, others, inactive_other, &other.peaks)?;
    if !is_equal(&first, &second) {
        return Ok((first, second));
    }
    if let Some(clash) = find_folded(alloc, hasher, inactive_one, &one.peaks, &other.peaks)? {
        return Ok(clash);
    }
    match difference {
        Some(place) => {
            let (start, height) = peak_over::<F>(leaves, place);
            find_below::<F, H>(alloc, hasher, one, other, start, height, place)
        }
        None => unreachable!(),
    }
}

/// What two lists of elements and the roots of their trees, with so many inactive peaks each, show: `Equal` exactly where
/// the lists and the numbers of inactive peaks are equal, `RootsDiffer` exactly where the roots differ, with these, and
/// else two different hash inputs of the two trees that have one digest. Each node is hashed once for its root. Where the
/// roots are one, both trees are walked down to the first leaf where the lists differ, which takes at most two more hashes
/// for each leaf. Refuses only with `Memory`.
pub fn find_clash<F: Family, H: Hasher>(
    alloc: Global,
    a: &[Bytes],
    b: &[Bytes],
    inactive_a: u64,
    inactive_b: u64,
    bagging: Bagging,
) -> Result<Clash<H::Digest>, Error<F>>
    requires few { (length a.now ≤ 2 ^ 62) × (length b.now ≤ 2 ^ 62) }
    requires within_a { inactive_a ≤ length (F.shape.heights (length a.now)) }
    requires within_b { inactive_b ≤ length (F.shape.heights (length b.now)) }
    ensures evidence { IfOk result (λ found.
        IsEvidence F.shape H.hash bagging a.now b.now inactive_a inactive_b found) }
    ensures memory { IsOkUnless result Error.Memory }
{
    let difference = first_difference(a, b);
    if difference.is_none() && inactive_a == inactive_b {
        return Ok(Clash::Equal);
    }
    let hasher = Standard::<H>::new(bagging);
    let one = tree_of::<F, H>(alloc, &hasher, a)?;
    let other = tree_of::<F, H>(alloc, &hasher, b)?;
    let roots = Pair {
        one: root_of::<F, H>(&hasher, &one, inactive_a),
        other: root_of::<F, H>(&hasher, &other, inactive_b),
    };
    if !roots.is_same() {
        return Ok(Clash::RootsDiffer(roots.one, roots.other));
    }
    let (first, second) = find_under::<F, H>(
        alloc, &hasher, &one, &other, inactive_a, inactive_b, difference,
    )?;
    Ok(Clash::Clash(first, second))
}
