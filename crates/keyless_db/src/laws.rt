//! What holds of every proof of operations.
ghost use Rattle.std.specs.Prelude.{◌≡◌, ℕ, ◌<◌, ◌≤◌, ◌^◌, List, None, length, map, take};
ghost use Rattle.tree_shape.specs.declared.bagging.Bagging.TheVariants.{ForwardFold};
ghost use Rattle.tree_proof.specs.Check.{Checks};
ghost use Rattle.log_model.specs.Operations.{root_of};
ghost use Rattle.log_model.specs.Proofs.{proof_answer, proof_end, proof_refusal};

use crate::KeylessOperation;
use tree_core::{Family, Hasher};
use tree_verification::range_proofs_check;

/// What `proof` and `historical_proof` answer verifies: the proof shows these operations in the tree with the root of
/// the list at that size.
pub fn answers_verify_law<F: Family, H: Hasher, O: KeylessOperation>()
    ensures { (ops : List O) (start n a most : ℕ) → length ops ≤ 2 ^ 62 → 0 < most →
        proof_refusal O.meaning ops start n a ≡ None →
        let made = proof_answer F.shape H.hash O.meaning {F = F} ops n a (proof_end n a most) in
        Checks F.shape H.hash ForwardFold made.0 a (map O.spelling made.1)
        (root_of F.shape H.hash O.meaning (take n ops)) }
{
    range_proofs_check::<F, H>();
}
