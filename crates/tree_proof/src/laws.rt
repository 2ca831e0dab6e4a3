//! What holds of every proof.
ghost use Rattle.std.specs.Prelude.{◌≡◌, ◌⊎◌, ◌+◌, ◌-◌, ◌^◌, ◌≤◌, ◌++◌, ℕ, List, length, map, slice_range};
ghost use Rattle.tree_shape.specs.Shape.{peaks};
ghost use Rattle.tree_shape.specs.Slow.{leaf_digests, node_of};
ghost use Rattle.tree_shape.specs.Root.{root};
ghost use Rattle.tree_shape.specs.declared.bagging.Bagging.{Bagging};
ghost use Rattle.tree_proof.specs.declared.proof.Proof.{Proof};
ghost use Rattle.tree_proof.specs.Cover.{meets, cover};
ghost use Rattle.tree_proof.specs.Check.{Checks};
ghost use Rattle.tree_proof.specs.Inputs.{Clash, tree_inputs};
ghost use Rattle.tree_proof.specs.Pinned.{HasPins};
ghost use Rattle.tree_proof.specs.SlowProof.{IsRange, slow_proof};

use tree_shape::{Family, Hasher};

/// The proof that has the slow nodes of the cover shows its range of the elements in the tree with their slow root.
pub fn slow_proof_law<F: Family, H: Hasher>()
    ensures { (bagging : Bagging) (elements : List (List ℕ)) (inactive a b : ℕ) →
        let root_of_all = root F.shape H.hash (leaf_digests F.shape H.hash elements) inactive bagging in
        let proof = slow_proof {F = F} F.shape H.hash elements inactive a b in
        IsRange F.shape elements inactive a b →
        Checks F.shape H.hash bagging proof a (slice_range elements a b) root_of_all }
{}

/// A proof that shows something has as many digests as the cover has nodes.
pub fn cover_count_law<F: Family, H: Hasher>()
    ensures { (bagging : Bagging) (proof : Proof F H.Digest) (a : ℕ) (items : List (List ℕ)) (r : H.Digest) →
        Checks F.shape H.hash bagging proof a items r →
        length proof.digests ≡ length (cover F.shape (meets a (a + length items)) proof.leaves) }
{}

/// The peaks of the leaves before a range, the oldest first, are pins of its proof.
pub fn slow_pins_law<F: Family, H: Hasher>()
    ensures { (elements : List (List ℕ)) (inactive a b : ℕ) → IsRange F.shape elements inactive a b →
        HasPins {F = F} F.shape H.hash (slow_proof F.shape H.hash elements inactive a b) a (b - a)
        (map (node_of F.shape H.hash (leaf_digests F.shape H.hash elements)) (peaks F.shape a)) }
{}

/// Two lists of elements whose trees, with so many inactive peaks each, have one root are one list with one number of
/// inactive peaks; or two different hash inputs of the two trees have one digest.
pub fn one_root_law<F: Family, H: Hasher>()
    ensures { (bagging : Bagging) (first second : List (List ℕ)) (j k : ℕ) →
        length first ≤ 2 ^ 62 → length second ≤ 2 ^ 62 →
        j ≤ length (F.shape.heights (length first)) → k ≤ length (F.shape.heights (length second)) →
        root F.shape H.hash (leaf_digests F.shape H.hash first) j bagging ≡
        root F.shape H.hash (leaf_digests F.shape H.hash second) k bagging →
        ((first ≡ second) × (j ≡ k)) ⊎
        Clash H.hash (tree_inputs F.shape H.hash first j bagging ++ tree_inputs F.shape H.hash second k bagging) }
{}
