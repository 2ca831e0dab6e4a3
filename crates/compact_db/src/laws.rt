//! What holds of the witnesses of a list.
ghost use Rattle.std.specs.Prelude.{◌≡◌, ◌++◌, ◌<◌, ◌≤◌, ◌^◌, ℕ, List, length};
ghost use Rattle.log_model.specs.Operations.{leaves_from};
ghost use Rattle.log_model.specs.Witness.{last_bytes, witness_text};
ghost use Rattle.witness_store.specs.Witness.{text_of, IsAllowed};
ghost use Rattle.compact_db.specs.Verified.{verified_leaves};
ghost use Rattle.compact_db.specs.WitnessOf.{witness_of};

use log_model::Logged;
use tree_core::{Family, Hasher};

/// The witnesses of a list: their spellings, in a longer list, as they are made of a tree, and that they can be read.
pub fn witness_laws<F: Family, H: Hasher, O: Logged>()
    // A witness is spelled as the text that images hold.
    ensures text { (ops : List O) (size : ℕ) →
        text_of H.Digest.spelling (witness_of {F = F} F.shape H.hash O.meaning ops size) ≡
        witness_text F.shape H.hash O.meaning H.Digest.spelling ops size }
    // In a longer list it is the same.
    ensures longer { (ops more : List O) (size : ℕ) → 0 < size → size ≤ length ops →
        witness_of {F = F} F.shape H.hash O.meaning (ops ++ more) size ≡ witness_of F.shape H.hash O.meaning ops size }
    // It is what is made of the tree of the list's leaves.
    ensures verified { (ops : List O) (floor : ℕ) →
        (verified_leaves {F = F} F.shape H.hash (leaves_from F.shape H.hash O.meaning 0 ops)
        (last_bytes F.shape H.hash O.meaning ops (length ops)) floor).witness ≡
        witness_of F.shape H.hash O.meaning ops (length ops) }
    // It is allowed in a log of witnesses.
    ensures allowed { (ops : List O) (size : ℕ) → size ≤ 2 ^ 62 →
        length (last_bytes F.shape H.hash O.meaning ops size) < 2 ^ 64 →
        IsAllowed {F = F} (H.Digest.admits tt) (witness_of F.shape H.hash O.meaning ops size) }
{}
