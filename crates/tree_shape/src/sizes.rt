ghost use Rattle.std.specs.Prelude.{◌≡◌, ℕ, ◌≤◌, ◌<◌, ◌^◌, length};
ghost use Rattle.tree_shape.specs.Shape.{made};

use crate::{Family, MAX_LEAVES};

/// The most leaves, at most `MAX_LEAVES`, whose nodes are at most `pos`.
pub(crate) fn leaves_within<F: Family>(pos: u64) -> u64
    ensures few { result ≤ 2 ^ 62 }
    ensures below { length (made F.shape result) ≤ pos }
    ensures most { (m : ℕ) → m ≤ 2 ^ 62 → length (made F.shape m) ≤ pos → m ≤ result }
{
    let mut low = 0;
    let mut high = MAX_LEAVES;
    while low < high {
        let middle = high - (high - low) / 2;
        if F::size(middle) <= pos {
            low = middle;
        } else {
            high = middle - 1;
        }
    }
    low
}
