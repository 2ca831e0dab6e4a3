//! What proves a sealed batch's own operations: their proof, and the nodes before the first.
ghost use Rattle.std.specs.Prelude.{◌≡◌, ◌↔◌, ◌∷◌, ◌≤◌, ◌^◌, ◌++◌, List, length, map, Some, Err, IsOk, IfOk, IfErr, IsOkUnless, Contains};
ghost use Rattle.tree_shape.specs.Pins.{pins};
ghost use Rattle.tree_shape.specs.Shape.{inactive};
ghost use Rattle.tree_store.specs.Stores.{IsUnread};
ghost use Rattle.tree_core.specs.Overlay.{overlaid};
ghost use Rattle.tree_core.specs.Reading.{OnlyRefusedBy};
ghost use Rattle.tree_proof.specs.Cover.{meets};
ghost use Rattle.tree_proof.specs.SlowProof.{proof_of};
ghost use Rattle.tree_verification.specs.Ranges.{range_answer, Proves};
ghost use Rattle.log_model.specs.Operations.{floor_of, leaves_from};
ghost use Rattle.log_model.specs.Witness.{pins_of};
ghost use Rattle.compact_db.specs.Batches.{IsMerkleizedOf};
ghost use Rattle.compact_db.specs.DbView.{IsOfList};
ghost use Rattle.compact_db.specs.Proving.{IsInChain, Lifts, node_over};

use crate::{CompactDb, CompactOperation, MerkleizedBatch};
use chain_core::{Bounds, Commitment, Error};
use std::alloc::Global;
use tree_core::{Digest, Family, Hasher, Location, Mem, Position, Proof};

/// Whether a batch of these states may be read at the state `current`. It refuses with `StaleRead`.
fn check_read<F: Family, D: Digest>(
    bounds: &Bounds<F, D>,
    current: Commitment<F, D>,
) -> Result<(), Error<F>>
    ensures in_chain { IsOk result ↔ Contains (bounds.now.tip ∷ bounds.now.db ∷ bounds.now.ancestors) current }
    ensures stale { IsOkUnless result Error.StaleRead }
{
    match bounds.compatible(&(), current) {
        Ok(_) => Ok(()),
        Err(error) => Err(error),
    }
}

/// The node at a position: the batch's, or else the tree's.
fn node_over<F: Family, D: Digest>(
    batch: &tree_core::MerkleizedBatch<F, D>,
    mem: &Mem<F, D>,
    position: u64,
) -> Option<D>
    ensures { result ≡ node_over F.shape batch.now mem.now position }
{
    match batch.get_node(Position::new(position)) {
        Some(digest) => Some(digest),
        None => mem.get_node(Position::new(position)),
    }
}

/// The peaks of so many leaves, the oldest first, of a batch over a tree. It refuses with `ElementPruned` of the
/// first that is wanting, or with `Memory`.
fn pins_over<F: Family, D: Digest>(
    alloc: Global,
    batch: &tree_core::MerkleizedBatch<F, D>,
    mem: &Mem<F, D>,
    leaves: Location<F>,
) -> Result<Vec<D>, tree_core::Error<F>>
    requires { leaves ≤ 2 ^ 62 }
    ensures nodes { IfOk result (λ ds. map Some ds.items ≡
        map (node_over F.shape batch.now mem.now) (pins F.shape leaves)) }
    ensures unread { IfErr result (IsUnread (node_over F.shape batch.now mem.now) (pins F.shape leaves)) }
{
    let mut nodes = Vec::new(alloc);
    for position in F::nodes_to_pin(leaves) {
        let place = position.as_u64();
        match node_over(batch, mem, place) {
            Some(digest) => nodes.push(digest)?,
            None => return Err(tree_core::Error::ElementPruned(Position::new(place))),
        }
    }
    Ok(nodes)
}

impl<F: Family, O: CompactOperation, D: Digest> MerkleizedBatch<F, O, D> {
    /// The proof of the batch's own operations, in the tree with the batch. Refuses, in this order: `StaleRead` where
    /// the database stands at no state of the batch's chain; `Merkle(Empty)` of a batch without operations of its
    /// own; `Merkle(ElementPruned)` of the first node that is wanting.
    pub fn proof<H: Hasher<Digest = D>>(
        &self,
        db: &CompactDb<F, O, H>,
    ) -> Result<Proof<F, D>, Error<F>>
        ensures stands { IfOk result (λ proof. IsInChain self.now db.now) }
        ensures stale { (IsInChain self.now db.now → ⊥) → result ≡ Err Error.StaleRead }
        ensures proves { IsInChain self.now db.now → let n = self.now.tree.leaves in
            let base = self.now.bounds.base.size in
            Lifts (Proves F.shape (range_answer n n base n) n (inactive F.shape n self.now.bounds.inactivity_floor)
            (meets base n) (overlaid F.shape self.now.tree db.now.tree)) result }
        // Over a tree at no later state than the batch's base, which has what stands before the batch's nodes, no
        // node is wanting.
        ensures kept { IsInChain self.now db.now → let n = self.now.tree.leaves in
            let base = self.now.bounds.base.size in
            db.now.tree.leaves ≤ base → self.now.tree.first ≤ db.now.tree.leaves →
            Lifts (OnlyRefusedBy (range_answer n n base n)) result }
        // Of a list that begins with the database's, it is the list's proof.
        ensures list { IfOk result (λ proof. (ops more : List O) → IsOfList F.shape H.hash O.meaning ops db.now →
            IsMerkleizedOf F.shape H.hash O.meaning (ops ++ more) self.now →
            let all = leaves_from F.shape H.hash O.meaning 0 (ops ++ more) in
            let n = length (ops ++ more) in
            proof ≡ proof_of F.shape H.hash all (inactive F.shape n (floor_of O.meaning (ops ++ more)))
            (meets self.now.bounds.base.size n)) }
    {
        match check_read(&self.bounds, db.commitment()) {
            Ok(()) => {}
            Err(error) => return Err(error),
        }
        let end = self.tree.leaves().as_u64();
        let floor = Location::new(self.bounds.inactivity_floor.as_u64());
        let inactive = F::inactive_peaks(Location::new(end), floor);
        // Its leaves tell that the tree is sound.
        let _sound = db.merkle.leaves();
        let start = Location::new(self.bounds.base.size.as_u64());
        match self
            .tree
            .range_proof(db.merkle.mem(), start, Location::new(end), inactive)
        {
            Ok(proof) => Ok(proof),
            Err(error) => Err(Error::from(error)),
        }
    }

    /// The peaks of the tree before the batch's own operations, the oldest first. Refuses, in this order: `StaleRead`
    /// where the database stands at no state of the batch's chain; `Merkle(ElementPruned)` of the first peak that is
    /// wanting.
    pub fn pinned_nodes<H: Hasher<Digest = D>>(
        &self,
        db: &CompactDb<F, O, H>,
    ) -> Result<Vec<D>, Error<F>>
        ensures stands { IfOk result (λ ds. IsInChain self.now db.now) }
        ensures stale { (IsInChain self.now db.now → ⊥) → result ≡ Err Error.StaleRead }
        ensures nodes { IfOk result (λ ds. map Some ds.items ≡
            map (node_over F.shape self.now.tree db.now.tree) (pins F.shape self.now.bounds.base.size)) }
        ensures unread { IsInChain self.now db.now → let told = node_over F.shape self.now.tree db.now.tree in
            Lifts (λ below. IfErr below (IsUnread told (pins F.shape self.now.bounds.base.size))) result }
        // Over a tree at no later state than the batch's base, which has what stands before the batch's nodes, no peak
        // is wanting.
        ensures kept { IsInChain self.now db.now → db.now.tree.leaves ≤ self.now.bounds.base.size →
            self.now.tree.first ≤ db.now.tree.leaves → IsOkUnless result Error.Memory }
        // Of a list that begins with the database's, they are the list's.
        ensures list { IfOk result (λ ds. (ops more : List O) → IsOfList F.shape H.hash O.meaning ops db.now →
            IsMerkleizedOf F.shape H.hash O.meaning (ops ++ more) self.now →
            ds.items ≡ pins_of F.shape H.hash O.meaning (ops ++ more) self.now.bounds.base.size) }
    {
        match check_read(&self.bounds, db.commitment()) {
            Ok(()) => {}
            Err(error) => return Err(error),
        }
        // Its leaves tell that it is no longer than a tree can be.
        let _few = self.tree.leaves();
        // The tree's leaves tell that it is sound.
        let _sound = db.merkle.leaves();
        let before = Location::new(self.bounds.base.size.as_u64());
        match pins_over(db.alloc, &self.tree, db.merkle.mem(), before) {
            Ok(nodes) => Ok(nodes),
            Err(error) => Err(Error::from(error)),
        }
    }
}
