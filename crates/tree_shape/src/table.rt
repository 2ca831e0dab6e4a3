ghost use Rattle.std.specs.Prelude.{◌≡◌, ℕ, suc, ◌+◌, ◌-◌, ◌*◌, ◌≤◌, ◌<◌, ◌^◌, length, count_ones};
ghost use Rattle.tree_shape.specs.Shape.{made};
ghost use Rattle.tree_shape.specs.Mmr.{mmr};
ghost use Rattle.tree_shape.specs.Mmb.{mmb};
ghost use Rattle.tree_shape.specs.Table.{ones, raised_digits};

/// Peaks, sizes and positions of both families by binary digits. In the range the peaks are the ones of n;
/// in the belt, where n + 1 has k digits behind its first, there are k, as high as the place of their digit and the digit.
pub fn table_laws()
    ensures mmr_peaks { (n k : ℕ) → n < 2 ^ k → mmr.heights n ≡ ones n k }
    ensures mmr_size { (n : ℕ) → length (made mmr n) ≡ 2 * n - count_ones n }
    ensures mmr_node { (x h : ℕ) → mmr.position x h ≡ length (made mmr (x + 2 ^ h - 1)) + h }
    ensures mmb_peaks { (n k : ℕ) → 2 ^ k ≤ n + 1 → n + 1 < 2 ^ (k + 1) → mmb.heights n ≡ raised_digits (n + 1) k }
    ensures mmb_size { (n k : ℕ) → 2 ^ k ≤ n + 1 → n + 1 < 2 ^ (k + 1) → length (made mmb n) ≡ 2 * n - k }
    ensures mmb_leaf { (x : ℕ) → mmb.position x 0 ≡ length (made mmb x) }
    ensures mmb_node { (x h : ℕ) → mmb.position x (suc h) ≡ length (made mmb (x + 2 ^ suc h + 2 ^ h - 2)) + 1 }
{}
