//! Batches of a compact database.
use crate::CompactOperation;
use chain_core::{BatchId, Bounds, Chained, Commitment, Error, Pool};
use codec_base::{Bytes, ListOf};
use std::marker::Model;
use tree_core::{Digest, Family, Hasher, Location};

/// A batch that still collects. Contracts see it as what it has of the tree, its operations, its base and its
/// parent's number.
#[derive(Drop)]
pub struct UnmerkleizedBatch<F: Family, O: CompactOperation, H: Hasher> {
    pub(crate) tree: tree_core::UnmerkleizedBatch<F, H::Digest>,
    pub(crate) pending: O::Pending,
    pub(crate) base: Commitment<F, H::Digest>,
    pub(crate) parent: Option<BatchId>,
}

impl<F: Family, O: CompactOperation, H: Hasher> Model for UnmerkleizedBatch<F, O, H> {
    ghost use Rattle.std.specs.Prelude.{length};
    ghost use Rattle.compact_db.specs.Batches.{UnmerkleizedView, IsSoundUnmerkleized};

    ghost Value = { UnmerkleizedView F H.Digest O };

    ghost view = { λ b. record { tree = b.tree; pending = O.collected b.pending; base = b.base; parent = b.parent } };

    ghost invariant = { λ b. IsSoundUnmerkleized b.tree b.base.size (length (O.collected b.pending)) };
}

/// A sealed batch. Contracts see it as its part of the tree, its own operations and its states.
#[derive(Drop)]
pub struct MerkleizedBatch<F: Family, O: CompactOperation, D: Digest> {
    pub(crate) tree: tree_core::MerkleizedBatch<F, D>,
    pub(crate) operations: ListOf<O>,
    /// The encoding of its commit, which is its last operation; empty where it has none, as of a database's own state.
    pub(crate) commit_bytes: Bytes,
    pub(crate) bounds: Bounds<F, D>,
}

impl<F: Family, O: CompactOperation, D: Digest> Model for MerkleizedBatch<F, O, D> {
    ghost use Rattle.compact_db.specs.Batches.{MerkleizedView, IsSoundMerkleized};

    ghost Value = { MerkleizedView F D O };

    ghost view = { λ b. record { tree = b.tree; operations = b.operations; bounds = b.bounds } };

    ghost invariant = { λ b. IsSoundMerkleized O.spelling b.tree b.operations b.commit_bytes b.bounds };
}

impl<F: Family, O: CompactOperation, D: Digest> Chained<F, D> for MerkleizedBatch<F, O, D> {
    ghost use Rattle.compact_db.specs.Batches.{bounds_of};

    ghost bounds_of = { bounds_of };

    fn bounds(&self) -> &Bounds<F, D> {
        &self.bounds
    }
}

impl<F: Family, O: CompactOperation, H: Hasher> UnmerkleizedBatch<F, O, H> {
    ghost use Rattle.std.specs.Prelude.{◌≡◌, ◌≤◌, ◌^◌, ◌+◌, length};
    ghost use Rattle.std.specs.Option.{ForSome};
    ghost use Rattle.chain_core.specs.Slots.{IsAlive, link_released};

    /// Where the next operation goes. The coming commit isn't counted.
    pub fn size(&self) -> Location<F>
        ensures size { result ≡ self.now.base.size + length self.now.pending }
        ensures few { result ≤ 2 ^ 62 }
    {
        Location::new(self.base.size.as_u64() + O::count(&self.pending))
    }

    /// The number of the batch on which it was made, where it was made on one.
    pub fn parent(&self) -> Option<BatchId>
        ensures { result ≡ self.now.parent }
    {
        self.parent
    }

    /// Gives up the batch, and its hold on its parent.
    pub fn discard(self, pool: &mut Pool<MerkleizedBatch<F, O, H::Digest>>)
        requires { ForSome self.parent (IsAlive pool.old) }
        ensures { pool.new ≡ link_released pool.old self.parent }
    {
        pool.release_link(&self.parent);
    }
}

impl<F: Family, O: CompactOperation, D: Digest> MerkleizedBatch<F, O, D> {
    ghost use Rattle.std.specs.Prelude.{◌≡◌, ◌<◌, ◌-◌, ◌^◌, [], List, Some, IfOk, OnOk, OnErr, IsOkUnless};
    ghost use Rattle.chain_core.specs.Reached.{item_at};
    ghost use Rattle.chain_core.specs.Slots.{IsAlive, holds_of, link_held};
    ghost use Rattle.tree_core.specs.Batches.{IsChildOf};
    ghost use Rattle.tree_core.specs.Links.{StandsBehind};
    ghost use Rattle.compact_db.specs.Batches.{MerkleizedView, IsUnmerkleizedOf, IsMerkleizedOf};

    /// A batch on a sealed one, which it holds.
    pub fn new_batch<H: Hasher<Digest = D>>(
        pool: &mut Pool<Self>,
        id: BatchId,
    ) -> Result<UnmerkleizedBatch<F, O, H>, Error<F>>
        requires alive { IsAlive pool.old id }
        requires room { holds_of pool.old id < 2 ^ 64 - 1 }
        ensures held { OnOk result (pool.new ≡ link_held pool.old (Some id)) }
        ensures err { OnErr result (pool.new ≡ pool.old) }
        ensures pending { IfOk result (λ b. b.pending ≡ []) }
        ensures parent { IfOk result (λ b. b.parent ≡ Some id) }
        ensures base { IfOk result (λ b. (p : MerkleizedView F D O) → item_at pool.old id ≡ Some p →
            b.base ≡ p.bounds.tip) }
        // It keeps the parent's segments, and stands on the mark behind them.
        ensures child { IfOk result (λ b. (p : MerkleizedView F D O) → item_at pool.old id ≡ Some p →
            IsChildOf p.tree b.tree × StandsBehind F.shape p.tree.links b.tree.base b.tree.base_peaks) }
        ensures list { IfOk result (λ b. (p : MerkleizedView F D O) → item_at pool.old id ≡ Some p → (list : List O) →
            IsMerkleizedOf F.shape H.hash O.meaning list p → IsUnmerkleizedOf F.shape H.hash O.meaning list b) }
        ensures memory { IsOkUnless result Error.Memory }
    {
        let parent = pool.item(id);
        let base = parent.bounds.tip.copied();
        let tree = parent.tree.new_batch()?;
        let pending = O::none(pool.allocator());
        pool.hold_link(&Some(id));
        Ok(UnmerkleizedBatch {
            tree,
            pending,
            base,
            parent: Some(id),
        })
    }

    /// The root with this batch.
    pub fn root(&self) -> D
        ensures { result ≡ self.now.bounds.tip.root }
    {
        self.bounds.tip.root
    }

    /// The states of the batch.
    pub fn bounds(&self) -> &Bounds<F, D>
        ensures { result.now ≡ self.now.bounds }
    {
        &self.bounds
    }

    /// The batch's own operations, and the place of the first.
    pub fn operations(&self) -> (Location<F>, &[O])
        ensures first { result.0 ≡ self.now.bounds.base.size }
        ensures own { result.1.now ≡ self.now.operations }
    {
        let first = Location::new(self.bounds.base.size.as_u64());
        (first, self.operations.as_slice())
    }
}
