//! The peaks of two trees that fold to one digest: the folds that clash, from the outermost in.
ghost use Rattle.std.specs.Prelude.{◌≡◌, ◌≤◌, ◌<◌, ◌+◌, ◌∷◌, length, IfOk};
ghost use Rattle.tree_shape.specs.Root.{fold_forward, fold_backward, bagged, folded_bytes};
ghost use Rattle.tree_evidence.specs.Searches.{AreTheFold, FindsForward, FindsBackward, FindsBagged, FindsFolded};

use crate::inputs::fold_bytes;
use crate::pair::Pair;
use codec_base::Bytes;
use std::alloc::{AllocError, Global};
use tree_shape::{Bagging, Hasher, Standard, backward_fold, forward_fold};

/// The inputs of one fold in each tree, where they differ.
fn differing_folds<H: Hasher>(
    alloc: Global,
    left: Pair<H::Digest>,
    right: Pair<H::Digest>,
) -> Result<Option<(Bytes, Bytes)>, AllocError>
    ensures { IfOk result (λ r. AreTheFold H.hash left right r) }
{
    if left.is_same() && right.is_same() {
        return Ok(None);
    }
    let first = fold_bytes::<H>(alloc, &left.one, &right.one)?;
    let second = fold_bytes::<H>(alloc, &left.other, &right.other)?;
    Ok(Some((first, second)))
}

/// From the left. Each fold is hashed once.
fn find_forward<H: Hasher>(
    alloc: Global,
    hasher: &Standard<H>,
    first: Pair<H::Digest>,
    ones: &[H::Digest],
    others: &[H::Digest],
) -> Result<Option<(Bytes, Bytes)>, AllocError>
    requires counted { length ones.now ≡ length others.now }
    requires same { fold_forward H.hash first.one ones.now ≡ fold_forward H.hash first.other others.now }
    ensures { IfOk result (λ r. FindsForward H.hash first ones.now others.now r) }
{
    if ones.is_empty() {
        return Ok(None);
    }
    let next = Pair {
        one: ones[0],
        other: others[0],
    };
    let folded = Pair {
        one: hasher.fold(&first.one, &next.one),
        other: hasher.fold(&first.other, &next.other),
    };
    match find_forward(alloc, hasher, folded, &ones[1..], &others[1..])? {
        Some(clash) => Ok(Some(clash)),
        None => differing_folds::<H>(alloc, first, next),
    }
}

/// From the right. It makes at most p (p - 1) / 2 folds of p peaks, which is less than their leaves, at least 2^p - 1.
fn find_backward<H: Hasher>(
    alloc: Global,
    hasher: &Standard<H>,
    first: Pair<H::Digest>,
    ones: &[H::Digest],
    others: &[H::Digest],
) -> Result<Option<(Bytes, Bytes)>, AllocError>
    requires counted { length ones.now ≡ length others.now }
    requires same { fold_backward H.hash first.one ones.now ≡ fold_backward H.hash first.other others.now }
    ensures { IfOk result (λ r. FindsBackward H.hash first ones.now others.now r) }
{
    if ones.is_empty() {
        return Ok(None);
    }
    let next = Pair {
        one: ones[0],
        other: others[0],
    };
    let rest = Pair {
        one: backward_fold(hasher, next.one, &ones[1..]),
        other: backward_fold(hasher, next.other, &others[1..]),
    };
    match differing_folds::<H>(alloc, first, rest)? {
        Some(clash) => Ok(Some(clash)),
        None => find_backward(alloc, hasher, next, &ones[1..], &others[1..]),
    }
}

fn find_bagged<H: Hasher>(
    alloc: Global,
    hasher: &Standard<H>,
    first: Pair<H::Digest>,
    ones: &[H::Digest],
    others: &[H::Digest],
) -> Result<Option<(Bytes, Bytes)>, AllocError>
    requires counted { length ones.now ≡ length others.now }
    requires same { bagged H.hash hasher.now first.one ones.now ≡
        bagged H.hash hasher.now first.other others.now }
    ensures { IfOk result (λ r. FindsBagged H.hash first ones.now others.now hasher.now r) }
{
    match hasher.root_bagging() {
        Bagging::ForwardFold => find_forward(alloc, hasher, first, ones, others),
        Bagging::BackwardFold => find_backward(alloc, hasher, first, ones, others),
    }
}

/// Of as many peaks, of which the first `inactive` are inactive.
pub(crate) fn find_folded<H: Hasher>(
    alloc: Global,
    hasher: &Standard<H>,
    inactive: u64,
    ones: &[H::Digest],
    others: &[H::Digest],
) -> Result<Option<(Bytes, Bytes)>, AllocError>
    requires counted { length ones.now ≡ length others.now }
    requires within { inactive ≤ length ones.now }
    requires same { folded_bytes H.hash hasher.now inactive ones.now ≡
        folded_bytes H.hash hasher.now inactive others.now }
    ensures { IfOk result (λ r. FindsFolded H.hash hasher.now inactive ones.now others.now r) }
{
    if ones.is_empty() {
        return Ok(None);
    }
    let first = Pair {
        one: ones[0],
        other: others[0],
    };
    let count = inactive as usize;
    if count == 0 {
        return find_bagged(alloc, hasher, first, &ones[1..], &others[1..]);
    }
    let joined = Pair {
        one: forward_fold(hasher, first.one, &ones[1..count]),
        other: forward_fold(hasher, first.other, &others[1..count]),
    };
    match find_bagged(alloc, hasher, joined, &ones[count..], &others[count..])? {
        Some(clash) => Ok(Some(clash)),
        None => find_forward(alloc, hasher, first, &ones[1..count], &others[1..count]),
    }
}
