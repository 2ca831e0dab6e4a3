use crate::items::{count_of, item_of, share_all};
use crate::lift::lift;
use crate::segment::Segment;
use crate::{Error, UnmerkleizedBatch};
use codec_base::Write;
use std::marker::Model;
use std::rc::Rc;
use tree_core::{
    Bagging, Digest, Family, Hasher, Location, Mem, Position, Proof, Readable, Standard,
};

/// A sealed batch of items: its nodes, how their peaks are folded, and a list of items with their encodings for each
/// segment of the nodes, its own the last.
#[derive(Drop)]
pub struct MerkleizedBatch<F: Family, D: Digest, Item: Write + Drop> {
    pub(crate) nodes: tree_core::MerkleizedBatch<F, D>,
    pub(crate) bagging: Bagging,
    pub(crate) items: Vec<Rc<Segment<Item>>>,
}

impl<F: Family, D: Digest, Item: Write + Drop> Model for MerkleizedBatch<F, D, Item> {
    ghost use Rattle.std.specs.Prelude.{List, map};
    ghost use Rattle.auth_journal.specs.Batched.{SealedItems, AreCounted};

    ghost Value = { SealedItems D Item };

    ghost view = { λ b. record { nodes = b.nodes; bagging = b.bagging; items = map {B = List Item} (λ l. l.value) b.items.items } };

    ghost invariant = { λ b. AreCounted b.nodes.links (map {B = List Item} (λ l. l.value) b.items.items) };
}

impl<F: Family, D: Digest, Item: Write + Drop> MerkleizedBatch<F, D, Item> {
    ghost use Rattle.std.specs.Prelude.{◌≡◌, ◌+◌, ◌-◌, ◌≤◌, ◌^◌, List, length, reverse, slice_get, Some, IsOk, IfOk, IsOkUnless};
    ghost use Rattle.std.specs.Option.{option_copied};
    ghost use Rattle.tree_shape.specs.Root.{root, root_over};
    ghost use Rattle.tree_core.specs.Batches.{IsSealedOf};
    ghost use Rattle.tree_core.specs.Links.{StandsBehind};
    ghost use Rattle.tree_verification.specs.Ranges.{range_answer, leaf_answer};
    ghost use Rattle.auth_journal.specs.Batched.{AreChildOf, IsSealedOfItems, IsUnsealedOfItems, own_length};
    ghost use Rattle.auth_journal.specs.Kept.{kept_item};
    ghost use Rattle.auth_journal.specs.Errors.{Lifts};
    ghost use Rattle.auth_journal.specs.Proving.{IsBatchProof};

    /// The number of items with this batch and all before it.
    pub fn size(&self) -> u64
        ensures size { result ≡ self.now.nodes.leaves }
        ensures few { result ≤ 2 ^ 62 }
    {
        self.nodes.leaves().as_u64()
    }

    /// The batch's own items.
    pub fn items(&self) -> &[Item]
        ensures own { slice_get self.now.items (length self.now.items - 1) ≡ Some result.now }
        ensures counted { length result.now ≡ own_length self.now }
        ensures within { length result.now ≤ self.now.nodes.leaves }
    {
        let _sound = self.nodes.leaves();
        self.items[self.items.len() - 1].items()
    }

    /// The item at a position, where the batch has it, or an ancestor whose items are kept.
    pub fn item(&self, position: u64) -> Option<&Item>
        ensures { option_copied result ≡ kept_item self.now position }
    {
        let leaves = self.nodes.leaves().as_u64();
        let first = leaves - count_of(&self.items);
        if position < first {
            return None;
        }
        item_of(&self.items, position - first)
    }

    /// The root of the tree with this batch.
    pub fn root<H: Hasher<Digest = D>>(
        &self,
        hasher: &Standard<H>,
        inactive_peaks: u64,
    ) -> Result<D, Error<F>>
        requires { inactive_peaks ≤ length (F.shape.heights self.now.nodes.leaves) }
        ensures ok { IsOk result }
        ensures root { IfOk result (λ d. (all : List D) → IsSealedOf F.shape H.hash all self.now.nodes →
            d ≡ root F.shape H.hash all inactive_peaks hasher.now) }
        // It is the root over the mark behind the batch, whether or not that is a list's.
        ensures marked { IfOk result (λ d. (ps : List D) × StandsBehind F.shape self.now.nodes.links self.now.nodes.leaves ps
            × (d ≡ root_over H.hash self.now.nodes.leaves (reverse ps) inactive_peaks hasher.now)) }
    {
        lift(self.nodes.root(hasher, inactive_peaks))
    }

    /// The proof of the item at `loc`, over a tree that has what stands before the batch's nodes. It refuses as `Mem::proof`.
    pub fn proof(
        &self,
        base: &Mem<F, D>,
        loc: Location<F>,
        inactive_peaks: u64,
    ) -> Result<Proof<F, D>, Error<F>>
        requires { inactive_peaks ≤ length (F.shape.heights self.now.nodes.leaves) }
        ensures { Lifts (IsBatchProof F.shape self.now.nodes base.now
            (leaf_answer self.now.nodes.leaves loc) inactive_peaks loc (loc + 1)) result }
    {
        lift(self.nodes.proof(base, loc, inactive_peaks))
    }

    /// The proof of the items from `start` up to `end`, over a tree that has what stands before the batch's nodes. It refuses as
    /// `Mem::range_proof`.
    pub fn range_proof(
        &self,
        base: &Mem<F, D>,
        start: Location<F>,
        end: Location<F>,
        inactive_peaks: u64,
    ) -> Result<Proof<F, D>, Error<F>>
        requires { inactive_peaks ≤ length (F.shape.heights self.now.nodes.leaves) }
        ensures { let leaves = self.now.nodes.leaves in
            Lifts (IsBatchProof F.shape self.now.nodes base.now
            (range_answer leaves leaves start end) inactive_peaks start end) result }
    {
        lift(self.nodes.range_proof(base, start, end, inactive_peaks))
    }

    /// A child, with this batch's lists and its own.
    pub fn new_batch<H: Hasher<Digest = D>>(
        &self,
    ) -> Result<UnmerkleizedBatch<F, H, Item>, Error<F>>
        ensures child { IfOk result (λ b. AreChildOf self.now b) }
        ensures behind { IfOk result (λ b. StandsBehind F.shape self.now.nodes.links b.nodes.base b.nodes.base_peaks) }
        ensures batch { IfOk result (λ b. (list : List Item) →
            IsSealedOfItems F.shape H.hash Item.spelling list self.now →
            IsUnsealedOfItems F.shape H.hash Item.spelling list b) }
        ensures memory { IsOkUnless result Error.Memory }
    {
        let alloc = *self.items.allocator();
        let nodes = self.nodes.new_batch()?;
        let kept = share_all(alloc, &self.items)?;
        Ok(UnmerkleizedBatch::begin(
            nodes,
            Standard::new(self.bagging),
            kept,
            Segment::new(alloc),
        ))
    }
}

impl<F: Family, D: Digest, Item: Write + Drop> Readable for MerkleizedBatch<F, D, Item> {
    ghost use Rattle.std.specs.Prelude.{◌≡◌};
    ghost use Rattle.tree_core.specs.Batches.{sealed_node};

    type Family = F;

    type Digest = D;

    ghost leaves = { λ b. b.nodes.leaves };

    ghost told = { λ b p. sealed_node F.shape b.nodes p };

    fn leaves(&self) -> Location<F> {
        self.nodes.leaves()
    }

    fn size(&self) -> Position<F> {
        self.nodes.size()
    }

    fn get_node(&self, pos: Position<F>) -> Option<D>
        ensures { result ≡ sealed_node F.shape self.now.nodes pos }
    {
        self.nodes.get_node(pos)
    }
}
