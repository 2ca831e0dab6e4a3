ghost use Rattle.std.specs.Prelude.{◌≡◌, ◌≤◌, ◌+◌, ◌∷◌, length};
ghost use Rattle.tree_shape.specs.Root.{fold_forward, fold_backward, bagged, root_input, folded_bytes, root_over};

use crate::standard::{begin, update_number};
use crate::{Bagging, Digest, Hasher, Standard};

/// The first digest and the others folded to one, from the left.
pub fn forward_fold<H: Hasher>(
    hasher: &Standard<H>,
    first: H::Digest,
    others: &[H::Digest],
) -> H::Digest
    ensures { result ≡ fold_forward H.hash first others.now }
{
    let mut folded = first;
    for other in others {
        folded = hasher.fold(&folded, other);
    }
    folded
}

/// The first digest and the others folded to one, from the right.
pub fn backward_fold<H: Hasher>(
    hasher: &Standard<H>,
    first: H::Digest,
    others: &[H::Digest],
) -> H::Digest
    ensures { result ≡ fold_backward H.hash first others.now }
{
    if others.is_empty() {
        return first;
    }
    let mut i = others.len() - 1;
    let mut folded = others[i];
    while i > 0 {
        i -= 1;
        folded = hasher.fold(&others[i], &folded);
    }
    hasher.fold(&first, &folded)
}

fn bag<H: Hasher>(hasher: &Standard<H>, first: H::Digest, others: &[H::Digest]) -> H::Digest
    ensures { result ≡ bagged H.hash hasher.now first others.now }
{
    match hasher.root_bagging() {
        Bagging::ForwardFold => forward_fold(hasher, first, others),
        Bagging::BackwardFold => backward_fold(hasher, first, others),
    }
}

/// The digest of a root's input, with the bytes of the folded peaks.
pub fn root_digest<H: Hasher>(
    leaves: u64,
    inactive: u64,
    bagging: Bagging,
    folded: &[u8],
) -> H::Digest
    ensures { result ≡ H.hash.digest (root_input leaves inactive bagging folded.now) }
{
    let mut hasher = begin::<H>(3);
    update_number(&mut hasher, leaves);
    update_number(&mut hasher, inactive);
    hasher.update(&[bagging.byte()]);
    hasher.update(folded);
    hasher.finish()
}

/// These peaks, the oldest first, folded to one, of which the first `inactive` are folded first.
pub fn fold_peaks<H: Hasher>(
    hasher: &Standard<H>,
    inactive: usize,
    first: H::Digest,
    others: &[H::Digest],
) -> H::Digest
    requires { inactive ≤ length others.now + 1 }
    ensures { H.hash.bytes result ≡ folded_bytes H.hash hasher.now inactive (first ∷ others.now) }
{
    if inactive == 0 {
        bag(hasher, first, others)
    } else {
        let joined = forward_fold(hasher, first, &others[..inactive - 1]);
        bag(hasher, joined, &others[inactive - 1..])
    }
}

/// The root over these peaks, the oldest first, of which the first `inactive` are inactive.
pub fn root_of_peaks<H: Hasher>(
    hasher: &Standard<H>,
    leaves: u64,
    inactive: usize,
    peaks: &[H::Digest],
) -> H::Digest
    requires { inactive ≤ length peaks.now }
    ensures { result ≡ root_over H.hash leaves peaks.now inactive hasher.now }
{
    match peaks {
        [] => root_digest::<H>(leaves, inactive as u64, hasher.root_bagging(), &[]),
        [first, others @ ..] => {
            let folded = fold_peaks(hasher, inactive, *first, others);
            root_digest::<H>(
                leaves,
                inactive as u64,
                hasher.root_bagging(),
                folded.as_slice(),
            )
        }
    }
}
