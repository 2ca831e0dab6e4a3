ghost use Rattle.std.specs.Prelude.{◌≡◌, ℕ, List, ◌++◌, length, map};
ghost use Rattle.tree_shape.specs.declared.bagging.Bagging.{Bagging};
ghost use Rattle.tree_shape.specs.Hashing.{Hashing};
ghost use Rattle.tree_shape.specs.Shape.{peaks};
ghost use Rattle.tree_shape.specs.Slow.{node_of};
ghost use Rattle.tree_shape.specs.Root.{root};

use tree_shape::{Digest, Family};

/// Leaf count and peaks tell every later root: two lists as long as one another, with the same peaks, have the same roots,
/// now and after equal appends. So has a tree that is rebuilt from its leaf count and its pins.
pub fn rebuilt_roots<F: Family, D: Digest>()
    ensures { (h : Hashing D) (one two more : List D) (k : ℕ) (bagging : Bagging) → length one ≡ length two →
        map (node_of F.shape h one) (peaks F.shape (length one)) ≡
        map (node_of F.shape h two) (peaks F.shape (length two)) →
        root F.shape h (one ++ more) k bagging ≡ root F.shape h (two ++ more) k bagging }
{}
