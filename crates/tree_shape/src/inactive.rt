ghost use Rattle.std.specs.Prelude.{◌≡◌, ℕ, ◌+◌, ◌≤◌, ◌<◌, ◌^◌, All, take, drop, length};
ghost use Rattle.tree_shape.specs.Shape.{inactive, peaks};

use crate::{Family, width};

/// How many peaks of n leaves end at or below the floor.
pub(crate) fn inactive_of<F: Family>(n: u64, floor: u64) -> u64
    requires { n ≤ 2 ^ 62 }
    ensures { result ≡ inactive F.shape n floor }
{
    let mut end = n;
    let count = F::peak_count(n);
    for i in 0..count {
        if end <= floor {
            return u64::from(count - i);
        }
        end -= width(F::peak_height(n, i));
    }
    0
}

/// The peaks that end at or below a floor lead: of the peaks of n leaves, the oldest first, the first `inactive` do, and no other.
/// With the leaves as the floor they are all the peaks.
pub fn inactive_law<F: Family>()
    ensures leading { (n f : ℕ) → All (λ p. p.0 + 2 ^ p.1 ≤ f) (take (inactive F.shape n f) (peaks F.shape n)) }
    ensures others { (n f : ℕ) → All (λ p. f < p.0 + 2 ^ p.1) (drop (inactive F.shape n f) (peaks F.shape n)) }
    ensures within { (n f : ℕ) → inactive F.shape n f ≤ length (F.shape.heights n) }
    ensures all { (n : ℕ) → inactive F.shape n n ≡ length (F.shape.heights n) }
{}
