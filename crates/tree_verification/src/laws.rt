//! What holds of every proof of a range.
ghost use Rattle.std.specs.Prelude.{◌≡◌, ℕ, ◌+◌, ◌≤◌, List, All, length, map, slice_range, Some};
ghost use Rattle.tree_shape.specs.Needed.{IsNeeded};
ghost use Rattle.tree_shape.specs.Shape.{peaks};
ghost use Rattle.tree_shape.specs.Slow.{leaf_digests};
ghost use Rattle.tree_shape.specs.Root.{root};
ghost use Rattle.tree_shape.specs.declared.bagging.Bagging.{Bagging};
ghost use Rattle.tree_proof.specs.declared.proof.Proof.{Proof};
ghost use Rattle.tree_proof.specs.Cover.{meets, cover};
ghost use Rattle.tree_proof.specs.Check.{item_leaf, wholly_rebuilt, Checks};
ghost use Rattle.tree_proof.specs.SlowProof.{IsRange, proof_of};
ghost use Rattle.tree_verification.specs.Told.{in_tree, IsTold};

use tree_shape::{Family, Hasher};

/// The proof of a range of the leaf digests of some elements shows these elements in their tree.
pub fn range_proofs_check<F: Family, H: Hasher>()
    ensures { (bagging : Bagging) (elements : List (List ℕ)) (inactive a b : ℕ) →
        let leaves = leaf_digests F.shape H.hash elements in
        let proof = proof_of {F = F} F.shape H.hash leaves inactive (meets a b) in
        IsRange F.shape elements inactive a b →
        Checks F.shape H.hash bagging proof a (slice_range elements a b) (root F.shape H.hash leaves inactive bagging) }
{}

/// The nodes of the cover of a range are needed from each number of leaves on that is at most its start.
pub fn needed_cover_law<F: Family>()
    ensures { (n loc a b : ℕ) → loc ≤ a → All (λ p. IsNeeded F.shape n loc p.0 p.1) (cover F.shape (meets a b) n) }
{}

/// A proof with as many digests as its cover has nodes tells a tree with any elements. The peaks of such a tree are what
/// the check rebuilds.
pub fn told_tree_law<F: Family, H: Hasher>()
    ensures some { (proof : Proof F H.Digest) (a : ℕ) (items : List (List ℕ)) →
        length proof.digests ≡ length (cover F.shape (meets a (a + length items)) proof.leaves) →
        (tree : ℕ → ℕ → H.Digest) × IsTold F.shape H.hash proof a items tree }
    ensures rebuilt { (proof : Proof F H.Digest) (a : ℕ) (items : List (List ℕ)) (tree : ℕ → ℕ → H.Digest) →
        let ps = peaks F.shape proof.leaves in
        let met = meets a (a + length items) in
        IsTold F.shape H.hash proof a items tree →
        wholly_rebuilt F.shape H.hash met (item_leaf F.shape H.hash a items) ps proof.digests ≡
        Some (map (in_tree tree) ps) }
{}
