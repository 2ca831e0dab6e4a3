//! Proofs of items, at the present size and at fewer, and of the items of a batch.
use crate::lift::lift;
use crate::over::peaks_over;
use crate::reading::read_range;
use crate::{Error, Journal, MerkleizedBatch};
use journal_base::{Backing, Contiguous};
use std::num::NonZeroU64;
use tree_core::{Family, Hasher, Location, Proof};
use volume_base::Volume;

impl<F: Family, C: Backing, H: Hasher> Journal<F, C, H> {
    ghost use Rattle.std.specs.Prelude.{◌≡◌, ◌≤◌, ◌-◌, ◌+◌, length, Err, IfErr};
    ghost use Rattle.std.specs.NonZero.{non_zero_u64_get};
    ghost use Rattle.tree_shape.specs.Pins.{pins};
    ghost use Rattle.tree_store.specs.declared.error.Error as tree_error;
    ghost use Rattle.tree_verification.specs.Ranges.{range_answer};
    ghost use Rattle.volume_base.specs.Moments.{present};
    ghost use Rattle.volume_base.specs.Volume.{Reads};
    ghost use Rattle.merkle_full.specs.Reading.{peaks_answer};
    ghost use Rattle.auth_journal.specs.Batched.{own_length};
    ghost use Rattle.auth_journal.specs.Errors.{Lifts, IsLifted};
    ghost use Rattle.auth_journal.specs.Proving.{IsItemsProof, IsBatchProof, AreBatchPeaks, ArePeaksAt, items_answer};

    /// The proof of the items from `start` on in the tree as it was at `leaves`, and these items: at most `max_ops`, and none past
    /// the leaves. It refuses, in this order: with `RangeOutOfBounds` of the log's end where it has fewer items, with
    /// `RangeOutOfBounds` a start at or past the leaves; then the first node, and then the first item, that isn't there.
    pub fn historical_proof<V: Volume>(
        &self,
        vol: &mut V,
        leaves: Location<F>,
        start: Location<F>,
        max_ops: NonZeroU64,
        inactive_peaks: u64,
    ) -> Result<(Proof<F, H::Digest>, Vec<C::Item>), Error<F>>
        requires { inactive_peaks ≤ length (F.shape.heights leaves) }
        ensures proves { IsItemsProof V.tells F.shape H.hash H.Digest.spelling (H.Digest.Read.admits tt) (H.Digest.Read.reads tt)
            C.Item.spelling C.Item.admits self.now (present (V.state vol.old)) leaves inactive_peaks start (non_zero_u64_get max_ops) result }
        ensures uncalled { (e : tree_error.Error F) → items_answer self.now.items.end leaves start ≡ Err e → vol.new ≡ vol.old }
        // Of any journal, whatever the volume holds.
        ensures lifted { IfErr result IsLifted }
        ensures reads { Reads V.tells Error.Volume (V.state vol.old) (V.state vol.new) result }
    {
        // Its leaves tell that the tree in memory is sound.
        let _stored = self.merkle.mem().leaves();
        let (_, end) = self.journal.bounds();
        let count = leaves.as_u64();
        let first = start.as_u64();
        if count > end {
            return Err(Error::Merkle(tree_core::Error::RangeOutOfBounds(Location::new(end))));
        }
        if first >= count {
            return Err(Error::Merkle(tree_core::Error::RangeOutOfBounds(Location::new(first))));
        }
        let size = max_ops.get().min(count - first);
        let to = first + size;
        let proof = self.merkle.historical_range_proof(
            vol,
            Location::new(count),
            Location::new(first),
            Location::new(to),
            inactive_peaks,
        )?;
        let items = read_range(self.alloc, &self.journal, vol, first, to)?;
        Ok((proof, items))
    }

    /// The proof of the items from `start` on, at most `max_ops`, and these items. It refuses as `historical_proof` at the present
    /// size.
    pub fn proof<V: Volume>(
        &self,
        vol: &mut V,
        start: Location<F>,
        max_ops: NonZeroU64,
        inactive_peaks: u64,
    ) -> Result<(Proof<F, H::Digest>, Vec<C::Item>), Error<F>>
        requires { inactive_peaks ≤ length (F.shape.heights self.now.items.end) }
        ensures proves { IsItemsProof V.tells F.shape H.hash H.Digest.spelling (H.Digest.Read.admits tt) (H.Digest.Read.reads tt)
            C.Item.spelling C.Item.admits self.now (present (V.state vol.old)) self.now.items.end inactive_peaks start
            (non_zero_u64_get max_ops) result }
        ensures uncalled { let end = self.now.items.end in
            (e : tree_error.Error F) → items_answer end end start ≡ Err e → vol.new ≡ vol.old }
        // Of any journal, whatever the volume holds.
        ensures lifted { IfErr result IsLifted }
        ensures reads { Reads V.tells Error.Volume (V.state vol.old) (V.state vol.new) result }
    {
        let leaves = self.size();
        self.historical_proof(vol, leaves, start, max_ops, inactive_peaks)
    }

    /// The peaks of a number of leaves, the oldest first. It refuses as the tree's `pinned_nodes_at`.
    pub fn pinned_nodes_at<V: Volume>(
        &self,
        vol: &mut V,
        loc: Location<F>,
    ) -> Result<Vec<H::Digest>, Error<F>>
        ensures peaks { Lifts (ArePeaksAt V.tells F.shape H.Digest.spelling H.Digest.Read.admits (H.Digest.Read.reads tt)
            self.now.tree (V.state vol.old) loc) result }
        ensures uncalled { (e : tree_error.Error F) → peaks_answer self.now.tree.tree.leaves loc ≡ Err e → vol.new ≡ vol.old }
        ensures reads { Reads V.tells Error.Volume (V.state vol.old) (V.state vol.new) result }
        ensures count { (V.state vol.new).reads ≤ (V.state vol.old).reads + length (pins F.shape loc) }
    {
        lift(self.merkle.pinned_nodes_at(vol, loc))
    }

    /// The proof of the batch's own items, in the tree with the batch, over this journal's tree in memory. It refuses with `Empty` a
    /// batch without items of its own.
    pub fn speculative_proof(
        &self,
        batch: &MerkleizedBatch<F, H::Digest, C::Item>,
        inactive_peaks: u64,
    ) -> Result<Proof<F, H::Digest>, Error<F>>
        requires { inactive_peaks ≤ length (F.shape.heights batch.now.nodes.leaves) }
        ensures { let end = batch.now.nodes.leaves in
            let start = end - own_length batch.now in
            Lifts (IsBatchProof F.shape batch.now.nodes self.now.tree.tree
            (range_answer end end start end) inactive_peaks start end) result }
    {
        let end = batch.size();
        let start = end - batch.items().len() as u64;
        batch.range_proof(
            self.merkle.mem(),
            Location::new(start),
            Location::new(end),
            inactive_peaks,
        )
    }

    /// The peaks of the leaves before the batch's own items, the oldest first, over this journal's tree in memory. It refuses with
    /// `ElementPruned` the first that isn't there.
    pub fn speculative_pinned_nodes(
        &self,
        batch: &MerkleizedBatch<F, H::Digest, C::Item>,
    ) -> Result<Vec<H::Digest>, Error<F>>
        ensures { let start = batch.now.nodes.leaves - own_length batch.now in
            Lifts (AreBatchPeaks F.shape batch.now.nodes self.now.tree.tree start) result }
    {
        let start = batch.size() - batch.items().len() as u64;
        lift(peaks_over(self.alloc, self.merkle.mem(), &batch.nodes, start))
    }
}
