ghost use Rattle.std.specs.Prelude.{◌≡◌, ◌⊎◌, ℕ, ◌≤◌, length};
ghost use Rattle.tree_shape.specs.Shape.{made};
ghost use Rattle.tree_shape.specs.Kept.{PeakOf};
ghost use Rattle.tree_shape.specs.Needed.{IsNeeded};

use crate::Family;

/// A node that is needed from a number of leaves on is a peak of them, or stands at or past their position.
pub fn needed_nodes<F: Family>()
    ensures { (n b x h : ℕ) → b ≤ n → IsNeeded F.shape n b x h →
        (length (made F.shape b) ≤ F.shape.position x h) ⊎ PeakOf F.shape b x h }
{}
