ghost use Rattle.std.specs.Prelude.{ℕ, List, ◌++◌};
ghost use Rattle.tree_proof.specs.Inputs.{Clash};
ghost use Rattle.tree_evidence.specs.Evidence.{IsClash};

use tree_shape::Hasher;

/// An input of one list and one of another that clash are two members of both lists together.
pub fn clash_law<H: Hasher>()
    ensures { (ones others : List (List ℕ)) (x y : List ℕ) →
        IsClash H.hash ones others x y → Clash H.hash (ones ++ others) }
{}
