use journal_base::FixedJournal;
use std::marker::Model;
use tree_core::{
    Digest, Error, Family, Hasher, Location, Mem, MerkleizedBatch, Position, Readable, Standard,
    UnmerkleizedBatch,
};

/// A tree: what memory keeps of it, the log of its nodes, the name of the map of its pins, and the leaves at which it
/// is pruned.
#[derive(Drop)]
pub struct Merkle<F: Family, D: Digest> {
    pub(crate) mem: Mem<F, D>,
    pub(crate) nodes: FixedJournal<D>,
    pub(crate) metadata: String,
    pub(crate) boundary: u64,
}

impl<F: Family, D: Digest> Model for Merkle<F, D> {
    ghost use Rattle.std.specs.Prelude.{string_bytes};
    ghost use Rattle.journal_base.specs.View.{view_of};
    ghost use Rattle.merkle_full.specs.Full.{Full, IsKept};

    ghost Value = { Full D };

    ghost view = { λ m. record {
      tree = m.mem;
      boundary = m.boundary;
      log = view_of m.nodes;
      metadata = string_bytes m.metadata;
    } };

    ghost invariant = { λ m. IsKept F.shape (record {
      tree = m.mem;
      boundary = m.boundary;
      log = view_of m.nodes;
      metadata = string_bytes m.metadata;
    }) };
}

impl<F: Family, D: Digest> Merkle<F, D> {
    ghost use Rattle.std.specs.Prelude.{◌≡◌, ◌≤◌, ◌++◌, ◌^◌, ℕ, List, length, reverse, drop, IsOk, IfOk, IfErr, OnOk, IsOkUnless};
    ghost use Rattle.tree_shape.specs.Hashing.{Hashing};
    ghost use Rattle.tree_shape.specs.Root.{root, root_over};
    ghost use Rattle.tree_shape.specs.Shape.{made};
    ghost use Rattle.tree_core.specs.Applied.{IsLonger, IsMarkOf, FitsTree, EndsAtTree, RefusedByTree, Refused};
    ghost use Rattle.tree_core.specs.Batches.{BeginsAt, IsUnsealedOf, IsSealedOf, sealed_node};
    ghost use Rattle.tree_core.specs.Reading.{ArePeaks};
    ghost use Rattle.tree_core.specs.Tree.{IsOf, IsSound, node_at};
    ghost use Rattle.volume_base.specs.Moments.{Image};
    ghost use Rattle.merkle_full.specs.Full.{IsBeside};
    ghost use Rattle.merkle_full.specs.Lists.{AreDigests, IsFullOf};

    /// The number of nodes, whatever was pruned. The next leaf stands at this position.
    pub fn size(&self) -> Position<F>
        ensures size { result ≡ length (made F.shape self.now.tree.leaves) }
        ensures few { self.now.tree.leaves ≤ 2 ^ 62 }
    {
        self.mem.size()
    }

    /// The number of leaves, whatever was pruned.
    pub fn leaves(&self) -> Location<F>
        ensures leaves { result ≡ self.now.tree.leaves }
        ensures few { result ≤ 2 ^ 62 }
    {
        self.mem.leaves()
    }

    /// The oldest kept leaf, and the number of leaves.
    pub fn bounds(&self) -> (Location<F>, Location<F>)
        ensures start { result.0 ≡ self.now.boundary }
        ensures end { result.1 ≡ self.now.tree.leaves }
        ensures within { result.0 ≤ result.1 }
        ensures few { result.1 ≤ 2 ^ 62 }
    {
        (Location::new(self.boundary), self.mem.leaves())
    }

    /// The tree in memory.
    pub fn mem(&self) -> &Mem<F, D>
        ensures { result.now ≡ self.now.tree }
    {
        &self.mem
    }

    /// The root with this many inactive peaks. It takes no memory.
    pub fn root<H: Hasher<Digest = D>>(
        &self,
        hasher: &Standard<H>,
        inactive_peaks: u64,
    ) -> Result<D, Error<F>>
        requires { inactive_peaks ≤ length (F.shape.heights self.now.tree.leaves) }
        ensures ok { IsOk result }
        ensures root { IfOk result (λ d. (all : List D) → IsOf F.shape H.hash all self.now.tree →
            d ≡ root F.shape H.hash all inactive_peaks hasher.now) }
        ensures peaks { let tree = self.now.tree in IfOk result (λ d. (ds : List D) →
            ArePeaks F.shape tree.leaves (λ x k. node_at tree (F.shape.position x k)) ds →
            d ≡ root_over H.hash tree.leaves ds inactive_peaks hasher.now) }
        ensures marked { let tree = self.now.tree in IfOk result (λ d. (ps : List D) →
            IsMarkOf F.shape tree tree.leaves ps →
            d ≡ root_over H.hash tree.leaves (reverse ps) inactive_peaks hasher.now) }
    {
        self.mem.root(hasher, inactive_peaks)
    }

    /// An empty batch on this tree.
    pub fn new_batch(&self) -> Result<UnmerkleizedBatch<F, D>, Error<F>>
        ensures begins { IfOk result (λ b. BeginsAt self.now.tree.leaves b) }
        ensures marked { let tree = self.now.tree in
            IfOk result (λ b. IsMarkOf F.shape tree b.began b.peaks × IsMarkOf F.shape tree b.base b.base_peaks) }
        ensures batch { IfOk result (λ b. (h : Hashing D) (all : List D) →
            IsOf F.shape h all self.now.tree → IsUnsealedOf F.shape h all b) }
        ensures memory { IsOkUnless result Error.Memory }
    {
        self.mem.new_batch()
    }

    /// Appends what the batch has behind the mark of this tree, in memory. Where the tree has no mark of the batch it
    /// refuses, with `AncestorDropped` where the batch's chain began at it, and else with `StaleBatch`.
    pub fn apply_batch(self, batch: &MerkleizedBatch<F, D>) -> Result<Self, Error<F>>
        ensures longer { IfOk result (λ t. IsLonger F.shape batch.now.leaves self.tree t.tree) }
        ensures since { IfOk result (λ t. (p : ℕ) → length (made F.shape self.tree.leaves) ≤ p →
            node_at t.tree p ≡ sealed_node F.shape batch.now p) }
        ensures behind { IfOk result (λ t. EndsAtTree F.shape batch.now t.tree) }
        ensures beside { IfOk result (λ t. IsBeside self t) }
        ensures marked { OnOk result ((i : ℕ) × FitsTree F.shape self.tree batch.now i) }
        ensures full { IfOk result (λ t. (h : Hashing D) (all made : List D) (image : Image) →
            IsFullOf F.shape h D.spelling (D.Read.admits tt) all self image → IsSealedOf F.shape h made batch.now →
            AreDigests F.shape h (D.Read.admits tt) (all ++ drop (length all) made) →
            IsFullOf F.shape h D.spelling (D.Read.admits tt) (all ++ drop (length all) made) t image) }
        ensures answer { IfErr result (RefusedByTree F.shape self.tree batch.now) }
        ensures refused { IfErr result (λ e. (h : Hashing D) (all : List D) →
            IsOf F.shape h all self.tree → Refused F.shape h all self.tree.leaves batch.now e) }
    {
        let mut mem = self.mem;
        mem.apply_batch(batch)?;
        // Its leaves tell that memory is sound.
        let _leaves = mem.leaves();
        Ok(Merkle {
            mem,
            nodes: self.nodes,
            metadata: self.metadata,
            boundary: self.boundary,
        })
    }
}

impl<F: Family, D: Digest> Readable for Merkle<F, D> {
    ghost use Rattle.std.specs.Prelude.{◌≡◌};
    ghost use Rattle.tree_core.specs.Tree.{node_at};

    type Family = F;

    type Digest = D;

    ghost leaves = { λ t. t.tree.leaves };

    ghost told = { λ t p. node_at t.tree p };

    fn leaves(&self) -> Location<F> {
        self.mem.leaves()
    }

    fn size(&self) -> Position<F> {
        self.mem.size()
    }

    fn get_node(&self, pos: Position<F>) -> Option<D>
        ensures { result ≡ node_at self.now.tree pos }
    {
        self.mem.get_node(pos)
    }
}
