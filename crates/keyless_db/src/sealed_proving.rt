//! What proves a sealed batch's own operations: their proof, and the peaks before the first.
ghost use Rattle.std.specs.Prelude.{◌≡◌, List, length, map, take, Err, IfOk};
ghost use Rattle.tree_shape.specs.Shape.{inactive, peaks};
ghost use Rattle.tree_shape.specs.Slow.{node_of};
ghost use Rattle.tree_proof.specs.Cover.{meets};
ghost use Rattle.tree_proof.specs.SlowProof.{proof_of};
ghost use Rattle.tree_verification.specs.Ranges.{range_answer};
ghost use Rattle.volume_base.specs.Moments.{Image};
ghost use Rattle.auth_journal.specs.Proving.{AreBatchPeaks, IsBatchProof};
ghost use Rattle.log_model.specs.Operations.{floor_of, leaves_from};
ghost use Rattle.chain_core.specs.declared.error.Error.{Error};
ghost use Rattle.keyless_db.specs.Batches.{IsMerkleizedOf};
ghost use Rattle.keyless_db.specs.DbView.{IsHeldFor};
ghost use Rattle.keyless_db.specs.Reading.{IsInChain, LiftsTree};

use crate::errors::from_joined;
use crate::sealed_reading::check_read;
use crate::{Keyless, KeylessOperation, MerkleizedBatch};
use chain_core::Error;
use journal_base::Backing;
use tree_core::{Digest, Family, Hasher, Location, Proof};

impl<F: Family, D: Digest, O: KeylessOperation> MerkleizedBatch<F, D, O> {
    /// The proof of the batch's own operations, in the tree with the batch. It refuses, in this order: with `StaleRead`
    /// a database off the batch's chain, with `Merkle(Empty)` a batch without operations of its own, and with
    /// `Merkle(ElementPruned)` the first node that is wanting.
    pub fn proof<C: Backing<Item = O>, H: Hasher<Digest = D>>(
        &self,
        db: &Keyless<F, O, C, H>,
    ) -> Result<Proof<F, D>, Error<F>>
        ensures stands { IfOk result (λ proof. IsInChain self.now db.now) }
        ensures stale { (IsInChain self.now db.now → ⊥) → result ≡ Err Error.StaleRead }
        ensures proves { let n = self.now.tree.nodes.leaves in let base = self.now.bounds.base.size in
            IsInChain self.now db.now →
            LiftsTree (IsBatchProof F.shape self.now.tree.nodes db.now.journal.tree.tree (range_answer n n base n)
            (inactive F.shape n self.now.bounds.inactivity_floor) base n) result }
        // Of a batch of a list, over a database of a front of it, it is the list's proof.
        ensures list { IfOk result (λ proof. (ops list : List O) (image : Image) →
            IsHeldFor F.shape H.hash O.meaning D.spelling (D.Read.admits tt) O.spelling ops db.now image →
            ops ≡ take (length ops) list → IsMerkleizedOf F.shape H.hash O.meaning O.spelling list self.now →
            proof ≡ proof_of F.shape H.hash (leaves_from F.shape H.hash O.meaning 0 list)
            (inactive F.shape (length list) (floor_of O.meaning list))
            (meets self.now.bounds.base.size (length list))) }
    {
        match check_read(&self.bounds, db.commitment()) {
            Ok(()) => {}
            Err(error) => return Err(error),
        }
        let end = self.tree.size();
        let floor = Location::new(self.bounds.inactivity_floor.as_u64());
        let inactive = F::inactive_peaks(Location::new(end), floor);
        match db.journal.speculative_proof(&self.tree, inactive) {
            Ok(proof) => Ok(proof),
            Err(error) => Err(from_joined(error)),
        }
    }

    /// The peaks of the tree before the batch's own operations, the oldest first. It refuses, in this order: with
    /// `StaleRead` a database off the batch's chain, and with `Merkle(ElementPruned)` the first peak that is wanting.
    pub fn pinned_nodes<C: Backing<Item = O>, H: Hasher<Digest = D>>(
        &self,
        db: &Keyless<F, O, C, H>,
    ) -> Result<Vec<D>, Error<F>>
        ensures stands { IfOk result (λ ds. IsInChain self.now db.now) }
        ensures stale { (IsInChain self.now db.now → ⊥) → result ≡ Err Error.StaleRead }
        ensures peaks { let base = self.now.bounds.base.size in IsInChain self.now db.now →
            LiftsTree (AreBatchPeaks F.shape self.now.tree.nodes db.now.journal.tree.tree base) result }
        // Of a batch of a list, over a database of a front of it, they are the list's.
        ensures list { IfOk result (λ ds. (ops list : List O) (image : Image) →
            IsHeldFor F.shape H.hash O.meaning D.spelling (D.Read.admits tt) O.spelling ops db.now image →
            ops ≡ take (length ops) list → IsMerkleizedOf F.shape H.hash O.meaning O.spelling list self.now →
            ds.items ≡ map (node_of F.shape H.hash (leaves_from F.shape H.hash O.meaning 0 list))
            (peaks F.shape self.now.bounds.base.size)) }
    {
        match check_read(&self.bounds, db.commitment()) {
            Ok(()) => {}
            Err(error) => return Err(error),
        }
        match db.journal.speculative_pinned_nodes(&self.tree) {
            Ok(found) => Ok(found),
            Err(error) => Err(from_joined(error)),
        }
    }
}
