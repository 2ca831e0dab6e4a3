//! How a batch is applied to a compact database.
ghost use Rattle.std.specs.Prelude.{◌≡◌, ◌⊎◌, ◌<◌, ◌^◌, ◌++◌, ◌∷◌, [], ℕ, List, length, IfOk, IfErr, IsErrOf};
ghost use Rattle.tree_core.specs.Applied.{FitsTree, Fits};
ghost use Rattle.tree_core.specs.Batches.{IsSealedOf};
ghost use Rattle.tree_core.specs.Tree.{IsOf};
ghost use Rattle.tree_store.specs.declared.error.Error.TheVariants as tree_error;
ghost use Rattle.log_model.specs.Operations.{floor_of};
ghost use Rattle.merkle_compact.specs.Frontier.{IsFrontier};
ghost use Rattle.compact_db.specs.StateOf.{IsRestored};
ghost use Rattle.compact_db.specs.Verified.{root_under};

use crate::verified::witness_under;
use crate::{CompactOperation, VerifiedWitness};
use chain_core::Error;
use codec_base::Bytes;
use merkle_compact::Merkle;
use std::alloc::Global;
use tree_core::{Family, Hasher, Location, MerkleizedBatch};

/// A tree's refusal of a batch, as a database's.
fn as_stale<F>(error: tree_core::Error<F>) -> Error<F>
    ensures memory { error ≡ tree_error.Memory → result ≡ Error.Memory }
    ensures stale { (error ≡ tree_error.Memory → ⊥) → result ≡ Error.StaleBatch }
{
    match error {
        tree_core::Error::Memory => Error::Memory,
        _ => Error::StaleBatch,
    }
}

/// The tree with what a batch has behind it, which this commit of these bytes ends, and what is derived of it under the
/// batch's root, which isn't hashed again. It refuses with `StaleBatch` where the tree takes the batch at no mark, and
/// with `Memory`.
pub(crate) fn applied<F: Family, O: CompactOperation, H: Hasher>(
    alloc: Global,
    mut merkle: Merkle<F, H::Digest>,
    batch: &MerkleizedBatch<F, H::Digest>,
    root: H::Digest,
    commit: &O,
    op_bytes: Bytes,
) -> Result<(VerifiedWitness<F, H::Digest>, Merkle<F, H::Digest>), Error<F>>
    requires longer { merkle.leaves < batch.now.leaves }
    requires bytes { op_bytes ≡ O.spelling commit.now }
    ensures leaves { IfOk result (λ r. r.1.leaves ≡ batch.now.leaves) }
    ensures size { IfOk result (λ r. r.0.witness.size ≡ batch.now.leaves) }
    ensures root { IfOk result (λ r. r.0.root ≡ root) }
    ensures frontier { IfOk result (λ r. IsFrontier F.shape r.1) }
    ensures short { IfOk result (λ r. length r.0.witness.op_bytes < 2 ^ 64) }
    ensures bytes { IfOk result (λ r. r.0.witness.op_bytes ≡ O.spelling commit.now) }
    ensures list { IfOk result (λ r. (all more : List H.Digest) → IsOf F.shape H.hash all merkle →
        IsSealedOf F.shape H.hash (all ++ more) batch.now →
        root ≡ root_under F.shape H.hash (all ++ more) (floor_of O.meaning (commit.now ∷ [])) →
        IsRestored F.shape H.hash (all ++ more) (O.meaning.encoding commit.now)
        (floor_of O.meaning (commit.now ∷ [])) (r.0, r.1)) }
    ensures stale { IsErrOf result Error.StaleBatch → (i : ℕ) → FitsTree F.shape merkle batch.now i → ⊥ }
    ensures misfit { IsErrOf result Error.StaleBatch → (all : List H.Digest) → IsOf F.shape H.hash all merkle →
        (i : ℕ) → Fits F.shape H.hash all merkle.leaves batch.now i → ⊥ }
    ensures errors { IfErr result (λ e. (e ≡ Error.StaleBatch) ⊎ (e ≡ Error.Memory)) }
{
    // Its length tells that it is one of 64 bits.
    let _short = op_bytes.len();
    // Its leaves tell that the tree is sound.
    let _sound = merkle.leaves();
    match merkle.apply_batch(batch) {
        Ok(()) => {}
        Err(error) => return Err(as_stale(error)),
    }
    let floor = Location::new(commit.commit_floor().unwrap_or(0));
    let tip = witness_under::<F, H>(alloc, &merkle, root, floor, op_bytes)?;
    merkle.prune_to_frontier();
    Ok((tip, merkle))
}
