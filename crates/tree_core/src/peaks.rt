//! Roots from peaks that are read one by one.
ghost use Rattle.std.specs.Prelude.{◌≡◌, ℕ, ◌+◌, ◌-◌, ◌≤◌, ◌<◌, ◌^◌, List, [], ◌∷◌, length, take, drop, Option, Some, IsSome};
ghost use Rattle.tree_shape.specs.Root.{fold_forward, fold_backward, folded_bytes, root_over};
ghost use Rattle.tree_core.specs.Reading.{TellsPeaks, ArePeaks};

use tree_shape::{Bagging, Digest, Family, Hasher, Standard, root_digest, width};

/// What has the peaks of a tree.
pub(crate) trait Peaks<F: Family, D: Digest> {
    /// The node of this height over the leaves from here on, where it is known.
    ghost told: { Self → ℕ → ℕ → Option D };

    /// The node of this height over the leaves from `start` on.
    fn read(&self, start: u64, height: u32) -> D
        requires small { start + 2 ^ height ≤ 2 ^ 62 }
        requires there { IsSome (told self.now start height) }
        ensures { Some result ≡ told self.now start height };
}

/// The first peaks, folded from the left.
fn fold_first<F: Family, H: Hasher, P: Peaks<F, H::Digest>>(
    peaks: &P,
    hasher: &Standard<H>,
    leaves: u64,
    first: u32,
) -> H::Digest
    requires few { leaves ≤ 2 ^ 62 }
    requires some { 0 < first }
    requires within { first ≤ length (F.shape.heights leaves) }
    requires there { TellsPeaks F.shape leaves (P.told peaks.now) }
    ensures { (d : H.Digest) (ds : List H.Digest) → ArePeaks F.shape leaves (P.told peaks.now) (d ∷ ds) →
        result ≡ fold_forward H.hash d (take (first - 1) ds) }
{
    let count = F::peak_count(leaves);
    let oldest = F::peak_height(leaves, count - 1);
    let mut folded = peaks.read(0, oldest);
    let mut start = width(oldest);
    for j in 1..first {
        let height = F::peak_height(leaves, count - 1 - j);
        folded = hasher.fold(&folded, &peaks.read(start, height));
        start += width(height);
    }
    folded
}

/// The peaks behind the first `skipped`, folded from the right.
fn fold_last<F: Family, H: Hasher, P: Peaks<F, H::Digest>>(
    peaks: &P,
    hasher: &Standard<H>,
    leaves: u64,
    skipped: u32,
) -> H::Digest
    requires few { leaves ≤ 2 ^ 62 }
    requires some { skipped < length (F.shape.heights leaves) }
    requires there { TellsPeaks F.shape leaves (P.told peaks.now) }
    ensures { (ds es : List H.Digest) (d : H.Digest) → ArePeaks F.shape leaves (P.told peaks.now) ds →
        drop skipped ds ≡ d ∷ es → result ≡ fold_backward H.hash d es }
{
    let newest = F::peak_height(leaves, 0);
    let mut end = leaves - width(newest);
    let mut folded = peaks.read(end, newest);
    for i in 1..F::peak_count(leaves) - skipped {
        let height = F::peak_height(leaves, i);
        end -= width(height);
        folded = hasher.fold(&peaks.read(end, height), &folded);
    }
    folded
}

/// The peaks folded to one, the first `inactive` of them first.
fn fold_all<F: Family, H: Hasher, P: Peaks<F, H::Digest>>(
    peaks: &P,
    hasher: &Standard<H>,
    leaves: u64,
    inactive: u32,
) -> H::Digest
    requires few { leaves ≤ 2 ^ 62 }
    requires some { 0 < length (F.shape.heights leaves) }
    requires within { inactive ≤ length (F.shape.heights leaves) }
    requires there { TellsPeaks F.shape leaves (P.told peaks.now) }
    ensures { (ds : List H.Digest) → ArePeaks F.shape leaves (P.told peaks.now) ds →
        H.hash.bytes result ≡ folded_bytes H.hash hasher.now inactive ds }
{
    let count = F::peak_count(leaves);
    match hasher.root_bagging() {
        Bagging::ForwardFold => fold_first::<F, H, P>(peaks, hasher, leaves, count),
        Bagging::BackwardFold => {
            if inactive == 0 {
                return fold_last::<F, H, P>(peaks, hasher, leaves, 0);
            }
            let joined = fold_first::<F, H, P>(peaks, hasher, leaves, inactive);
            if inactive == count {
                return joined;
            }
            hasher.fold(
                &joined,
                &fold_last::<F, H, P>(peaks, hasher, leaves, inactive),
            )
        }
    }
}

/// The root of a number of leaves with these peaks. It takes no memory.
pub(crate) fn root_from<F: Family, H: Hasher, P: Peaks<F, H::Digest>>(
    peaks: &P,
    hasher: &Standard<H>,
    leaves: u64,
    inactive: u64,
) -> H::Digest
    requires few { leaves ≤ 2 ^ 62 }
    requires within { inactive ≤ length (F.shape.heights leaves) }
    requires there { TellsPeaks F.shape leaves (P.told peaks.now) }
    ensures { (ds : List H.Digest) → ArePeaks F.shape leaves (P.told peaks.now) ds →
        result ≡ root_over H.hash leaves ds inactive hasher.now }
{
    let bagging = hasher.root_bagging();
    if F::peak_count(leaves) == 0 {
        return root_digest::<H>(leaves, inactive, bagging, &[]);
    }
    let folded = fold_all::<F, H, P>(peaks, hasher, leaves, inactive as u32);
    root_digest::<H>(leaves, inactive, bagging, folded.as_slice())
}
