use crate::lift::lift;
use crate::segment::Segment;
use crate::{Error, MerkleizedBatch, UnmerkleizedBatch};
use journal_base::{Backing, Contiguous};
use merkle_full::Merkle;
use std::alloc::Global;
use std::marker::Model;
use std::rc::Rc;
use tree_core::{Family, Hasher, Location, Standard};

/// A log of items, the tree of their spellings, how leaves are hashed and peaks folded, and whether a failed sync is kept.
#[derive(Drop)]
pub struct Journal<F: Family, C: Backing, H: Hasher> {
    pub(crate) alloc: Global,
    pub(crate) journal: C,
    pub(crate) merkle: Merkle<F, H::Digest>,
    pub(crate) hasher: Standard<H>,
    pub(crate) failed: bool,
}

impl<F: Family, C: Backing, H: Hasher> Model for Journal<F, C, H> {
    ghost use Rattle.auth_journal.specs.Joined.{Joined, IsSoundJoin};

    ghost Value = { Joined H.Digest C.Item.Cfg };

    ghost view = { λ j. record { items = C.view j.journal; tree = j.merkle; bagging = j.hasher; failed = j.failed } };

    ghost invariant = { λ j. IsSoundJoin (record { items = C.view j.journal; tree = j.merkle; bagging = j.hasher; failed = j.failed }) };
}

impl<F: Family, C: Backing, H: Hasher> Journal<F, C, H> {
    ghost use Rattle.std.specs.Prelude.{◌≡◌, ◌≤◌, ◌∷◌, [], List, length, reverse, IsOk, IfOk, IsOkUnless};
    ghost use Rattle.tree_shape.specs.Root.{root, root_over};
    ghost use Rattle.tree_core.specs.Applied.{IsMarkOf, FitsTree, EndsAtTree};
    ghost use Rattle.tree_core.specs.Batches.{BeginsAt, StandsAt};
    ghost use Rattle.tree_core.specs.Tree.{IsOf};
    ghost use Rattle.volume_base.specs.Moments.{Image};
    ghost use Rattle.auth_journal.specs.Batched.{IsSealedOfItems, IsUnsealedOfItems};
    ghost use Rattle.auth_journal.specs.Joined.{IsJoinedOf};

    /// The number of items, whatever was pruned.
    pub fn size(&self) -> Location<F>
        ensures { result ≡ self.now.items.end }
    {
        let (_, end) = self.journal.bounds();
        Location::new(end)
    }

    /// The root of the tree with this many inactive peaks. It takes no memory.
    pub fn root(&self, inactive_peaks: u64) -> Result<H::Digest, Error<F>>
        requires { inactive_peaks ≤ length (F.shape.heights self.now.tree.tree.leaves) }
        ensures ok { IsOk result }
        ensures root { IfOk result (λ d. (all : List H.Digest) → IsOf F.shape H.hash all self.now.tree.tree →
            d ≡ root F.shape H.hash all inactive_peaks self.now.bagging) }
        // It is the root over the mark of the tree, whether or not that is a list's.
        ensures marked { let tree = self.now.tree.tree in
            IfOk result (λ d. (ps : List H.Digest) → IsMarkOf F.shape tree tree.leaves ps →
            d ≡ root_over H.hash tree.leaves (reverse ps) inactive_peaks self.now.bagging) }
    {
        lift(self.merkle.root(&self.hasher, inactive_peaks))
    }

    /// An empty batch on this journal.
    pub fn new_batch(&self) -> Result<UnmerkleizedBatch<F, H, C::Item>, Error<F>>
        ensures begins { IfOk result (λ b. BeginsAt self.now.tree.tree.leaves b.nodes) }
        ensures marked { let tree = self.now.tree.tree in IfOk result (λ b.
            IsMarkOf F.shape tree b.nodes.began b.nodes.peaks × IsMarkOf F.shape tree b.nodes.base b.nodes.base_peaks) }
        ensures empty { IfOk result (λ b. (b.bagging ≡ self.now.bagging) × (b.kept ≡ []) × (b.items ≡ [])) }
        ensures batch { IfOk result (λ b. (list : List C.Item) (image : Image) →
            IsJoinedOf F.shape H.hash H.Digest.spelling (H.Digest.Read.admits tt) C.Item.spelling list self.now image →
            IsUnsealedOfItems F.shape H.hash C.Item.spelling list b) }
        ensures memory { IsOkUnless result Error.Memory }
    {
        let nodes = self.merkle.new_batch()?;
        let hasher = Standard::new(self.hasher.root_bagging());
        Ok(UnmerkleizedBatch::begin(
            nodes,
            hasher,
            Vec::new(self.alloc),
            Segment::new(self.alloc),
        ))
    }

    /// An empty sealed batch of this journal.
    pub fn to_merkleized_batch(&self) -> Result<MerkleizedBatch<F, H::Digest, C::Item>, Error<F>>
        ensures stands { IfOk result (λ b. StandsAt self.now.tree.tree.leaves b.nodes) }
        ensures marked { let tree = self.now.tree.tree in IfOk result (λ b.
            IsMarkOf F.shape tree b.nodes.began b.nodes.peaks × FitsTree F.shape tree b.nodes 0) }
        ensures behind { IfOk result (λ b. EndsAtTree F.shape b.nodes self.now.tree.tree) }
        ensures empty { IfOk result (λ b. (b.bagging ≡ self.now.bagging) × (b.items ≡ [] ∷ [])) }
        ensures batch { IfOk result (λ b. (list : List C.Item) (image : Image) →
            IsJoinedOf F.shape H.hash H.Digest.spelling (H.Digest.Read.admits tt) C.Item.spelling list self.now image →
            IsSealedOfItems F.shape H.hash C.Item.spelling list b) }
        ensures memory { IsOkUnless result Error.Memory }
    {
        let nodes = self.merkle.mem().to_batch()?;
        // Its leaves tell that it is sound.
        let _leaves = nodes.leaves();
        let mut items = Vec::new(self.alloc);
        items.push(Rc::new(self.alloc, Segment::new(self.alloc))?)?;
        Ok(MerkleizedBatch {
            nodes,
            bagging: self.hasher.root_bagging(),
            items,
        })
    }
}
