//! Batches of the database.
use crate::KeylessOperation;
use chain_core::{BatchId, Bounds, Chained, Commitment, Error, Pool};
use std::marker::Model;
use tree_core::{Digest, Family, Hasher, Location, MAX_LEAVES};

/// A batch that still collects. Contracts see it as its operations with what it has of the tree, its base and its
/// parent's number.
#[derive(Drop)]
pub struct UnmerkleizedBatch<F: Family, H: Hasher, O: KeylessOperation> {
    pub(crate) tree: auth_journal::UnmerkleizedBatch<F, H, O>,
    pub(crate) base: Commitment<F, H::Digest>,
    pub(crate) parent: Option<BatchId>,
}

impl<F: Family, H: Hasher, O: KeylessOperation> Model for UnmerkleizedBatch<F, H, O> {
    ghost use Rattle.keyless_db.specs.Batches.{UnmerkleizedView, IsSoundUnmerkleized};

    ghost Value = { UnmerkleizedView F H.Digest O };

    ghost view = { λ b. record { tree = b.tree; base = b.base; parent = b.parent } };

    ghost invariant = { λ b. IsSoundUnmerkleized b.tree b.base.size };
}

/// A sealed batch. Contracts see it as its operations with its part of the tree, and its states.
#[derive(Drop)]
pub struct MerkleizedBatch<F: Family, D: Digest, O: KeylessOperation> {
    pub(crate) tree: auth_journal::MerkleizedBatch<F, D, O>,
    pub(crate) bounds: Bounds<F, D>,
}

impl<F: Family, D: Digest, O: KeylessOperation> Model for MerkleizedBatch<F, D, O> {
    ghost use Rattle.keyless_db.specs.Batches.{MerkleizedView, IsSoundMerkleized};

    ghost Value = { MerkleizedView F D O };

    ghost view = { λ b. record { tree = b.tree; bounds = b.bounds } };

    ghost invariant = { λ b. IsSoundMerkleized b.tree b.bounds };
}

impl<F: Family, D: Digest, O: KeylessOperation> Chained<F, D> for MerkleizedBatch<F, D, O> {
    ghost use Rattle.keyless_db.specs.Batches.{bounds_of};

    ghost bounds_of = { bounds_of };

    fn bounds(&self) -> &Bounds<F, D> {
        &self.bounds
    }
}

impl<F: Family, H: Hasher, O: KeylessOperation> UnmerkleizedBatch<F, H, O> {
    ghost use Rattle.std.specs.Prelude.{◌≡◌, ◌<◌, ◌≤◌, ◌^◌, ◌+◌, length, Err, OnOk, OnErr, IsOkUnless};
    ghost use Rattle.std.specs.Option.{ForSome};
    ghost use Rattle.tree_store.specs.declared.error.Error.TheVariants.{LocationOverflow};
    ghost use Rattle.auth_journal.specs.Batched.{with_item};
    ghost use Rattle.chain_core.specs.Slots.{IsAlive, link_released};

    /// Where the next operation goes. The coming commit isn't counted.
    pub fn size(&self) -> Location<F>
        ensures size { result ≡ self.now.base.size + length self.now.tree.items }
        ensures few { result ≤ 2 ^ 62 }
    {
        Location::new(self.base.size.as_u64() + self.tree.items().len() as u64)
    }

    /// The number of the batch on which it was made, where it was made on one.
    pub fn parent(&self) -> Option<BatchId>
        ensures { result ≡ self.now.parent }
    {
        self.parent
    }

    /// Gives up the batch, and its hold on its parent.
    pub fn discard(self, pool: &mut Pool<MerkleizedBatch<F, H::Digest, O>>)
        requires { ForSome self.parent (IsAlive pool.old) }
        ensures { pool.new ≡ link_released pool.old self.parent }
    {
        pool.release_link(&self.parent);
    }

    /// Appends a value. It refuses with `Merkle(LocationOverflow(size + 1))` where the batch has `MAX_LEAVES`
    /// operations, and is then as before.
    pub fn append(&mut self, value: O::Value) -> Result<(), Error<F>>
    where
        O::Value: Drop,
        ensures ok { OnOk result (self.new ≡ record self.old {
          tree = with_item F.shape H.hash O.spelling self.old.tree (O.appended value);
        }) }
        ensures full { 2 ^ 62 ≤ self.old.base.size + length self.old.tree.items →
            result ≡ Err (Error.Merkle (LocationOverflow (self.old.base.size + length self.old.tree.items + 1))) }
        ensures memory { self.old.base.size + length self.old.tree.items < 2 ^ 62 → IsOkUnless result Error.Memory }
        ensures err { OnErr result (self.new ≡ self.old) }
    {
        let size = self.size().as_u64();
        if size >= MAX_LEAVES {
            let overflow = tree_core::Error::LocationOverflow(Location::new(size + 1));
            return Err(Error::Merkle(overflow));
        }
        match self.tree.add(O::append(value)) {
            Ok(()) => Ok(()),
            Err(_) => Err(Error::Memory),
        }
    }
}

impl<F: Family, D: Digest, O: KeylessOperation> MerkleizedBatch<F, D, O> {
    ghost use Rattle.std.specs.Prelude.{◌≡◌, ◌<◌, ◌≤◌, ◌-◌, ◌^◌, [], List, Some, IfOk, OnOk, OnErr, IsOkUnless};
    ghost use Rattle.chain_core.specs.Reached.{item_at};
    ghost use Rattle.chain_core.specs.Slots.{IsAlive, holds_of, link_held};
    ghost use Rattle.auth_journal.specs.Batched.{AreChildOf};
    ghost use Rattle.keyless_db.specs.Batches.{MerkleizedView, IsUnmerkleizedOf, IsMerkleizedOf, own_items};

    /// A batch on a sealed one, which it holds.
    pub fn new_batch<H: Hasher<Digest = D>>(
        pool: &mut Pool<Self>,
        id: BatchId,
    ) -> Result<UnmerkleizedBatch<F, H, O>, Error<F>>
        requires alive { IsAlive pool.old id }
        requires room { holds_of pool.old id < 2 ^ 64 - 1 }
        ensures held { OnOk result (pool.new ≡ link_held pool.old (Some id)) }
        ensures err { OnErr result (pool.new ≡ pool.old) }
        ensures parent { IfOk result (λ b. b.parent ≡ Some id) }
        ensures base { IfOk result (λ b. (p : MerkleizedView F D O) → item_at pool.old id ≡ Some p →
            b.base ≡ p.bounds.tip) }
        // It is empty, and has the parent's operations and those that the parent keeps.
        ensures child { IfOk result (λ b. (p : MerkleizedView F D O) → item_at pool.old id ≡ Some p →
            AreChildOf p.tree b.tree) }
        ensures list { IfOk result (λ b. (p : MerkleizedView F D O) → item_at pool.old id ≡ Some p → (list : List O) →
            IsMerkleizedOf F.shape H.hash O.meaning O.spelling list p →
            IsUnmerkleizedOf F.shape H.hash O.meaning O.spelling list b) }
        ensures memory { IsOkUnless result Error.Memory }
    {
        let parent = pool.item(id);
        let base = parent.bounds.tip.copied();
        let Ok(tree) = parent.tree.new_batch() else {
            return Err(Error::Memory);
        };
        pool.hold_link(&Some(id));
        Ok(UnmerkleizedBatch {
            tree,
            base,
            parent: Some(id),
        })
    }

    /// The root with this batch.
    pub fn root(&self) -> D
        ensures { result ≡ self.now.bounds.tip.root }
    {
        self.bounds.tip.root
    }

    /// The number of operations with this batch and all before it.
    pub fn size(&self) -> Location<F>
        ensures size { result ≡ self.now.bounds.tip.size }
        ensures few { result ≤ 2 ^ 62 }
    {
        Location::new(self.bounds.tip.size.as_u64())
    }

    /// The states of the batch.
    pub fn bounds(&self) -> &Bounds<F, D>
        ensures { result.now ≡ self.now.bounds }
    {
        &self.bounds
    }

    /// The batch's own operations, and the place of the first.
    pub fn operations(&self) -> (Location<F>, &[O])
        ensures first { result.0 ≡ self.now.bounds.base.size }
        ensures own { result.1.now ≡ own_items self.now.tree }
    {
        let first = Location::new(self.bounds.base.size.as_u64());
        (first, self.tree.items())
    }
}
