use std::alloc::Global;
use std::marker::Model;
use tree_core::{
    Digest, Error, Family, Hasher, Location, MAX_LEAVES, Mem, MerkleizedBatch, Standard,
    UnmerkleizedBatch,
};

/// A tree that needs no more than its peaks for later roots and appends. Contracts see it as its tree in memory.
#[derive(Drop)]
pub struct Merkle<F: Family, D: Digest> {
    alloc: Global,
    mem: Mem<F, D>,
}

impl<F: Family, D: Digest> Model for Merkle<F, D> {
    ghost use Rattle.tree_core.specs.Tree.{Tree};
    ghost use Rattle.merkle_compact.specs.Frontier.{HasNoPins};

    ghost Value = { Tree D };

    ghost view = { λ m. m.mem };

    ghost invariant = { λ m. HasNoPins F.shape m.mem };
}

impl<F: Family, D: Digest> Merkle<F, D> {
    ghost use Rattle.std.specs.Prelude.{◌≡◌, ℕ, ◌+◌, ◌≤◌, ◌<◌, ◌^◌, List, [], ◌∷◌, ◌++◌, length, reverse, drop, Ok, Err, OnOk, OnErr, IsOk, IfOk, IfErr, IsOkUnless};
    ghost use Rattle.tree_shape.specs.Hashing.{Hashing};
    ghost use Rattle.tree_shape.specs.Shape.{made};
    ghost use Rattle.tree_shape.specs.Slow.{leaf};
    ghost use Rattle.tree_shape.specs.Root.{root, root_over};
    ghost use Rattle.tree_shape.specs.Kept.{PeakOf};
    ghost use Rattle.tree_core.specs.Reading.{ArePeaks};
    ghost use Rattle.tree_core.specs.Tree.{Tree, node_at, IsSound, IsOf, empty_tree};
    ghost use Rattle.tree_core.specs.Batches.{BeginsAt, StandsAt, IsUnsealedOf, IsSealedOf, sealed_node};
    ghost use Rattle.tree_core.specs.Applied.{IsLonger, IsMarkOf, FitsTree, EndsAtTree, RefusedByTree, Fits, Refused};
    ghost use Rattle.merkle_compact.specs.Frontier.{IsFrontier, HasPeaks, IsTreeOfPins, frontier_answer};

    /// The empty tree, where memory allows.
    pub fn new(alloc: Global) -> Result<Self, Error<F>>
        ensures empty { IfOk result (λ t. t ≡ empty_tree) }
        ensures tree { IfOk result (λ t. (h : Hashing D) → IsOf F.shape h [] t) }
        ensures memory { IsOkUnless result Error.Memory }
    {
        let mem = Mem::new(alloc)?;
        Ok(Merkle { alloc, mem })
    }

    /// The tree of a number of leaves with these peaks, the oldest first. Refuses, in this order: `LocationOverflow` above
    /// `MAX_LEAVES`, `InvalidPinnedNodes` where the tree has more or fewer peaks; then with `Memory`.
    pub fn from_compact_state(
        alloc: Global,
        leaves: Location<F>,
        pinned_nodes: Vec<D>,
    ) -> Result<Self, Error<F>>
        ensures leaves { IfOk result (λ t. t.leaves ≡ leaves) }
        ensures frontier { IfOk result (IsFrontier F.shape) }
        ensures pins { IfOk result (HasPeaks F.shape leaves pinned_nodes.items) }
        ensures tree { IfOk result (IsTreeOfPins F.shape leaves pinned_nodes.items) }
        ensures refused { (e : Error F) →
            frontier_answer F.shape leaves (length pinned_nodes.items) ≡ Err e → result ≡ Err e }
        ensures memory { frontier_answer {F = F} F.shape leaves (length pinned_nodes.items) ≡ Ok tt →
            IsOkUnless result Error.Memory }
    {
        let mem = Mem::init(alloc, Vec::new(alloc), leaves, pinned_nodes)?;
        // Its leaves tell that the tree is sound.
        let _sound = mem.leaves();
        Ok(Merkle { alloc, mem })
    }

    /// Puts the tree of a number of leaves with these peaks in the place of this one. It refuses as `from_compact_state`,
    /// and is then as before.
    pub fn reset_to(&mut self, leaves: Location<F>, pinned_nodes: Vec<D>) -> Result<(), Error<F>>
        ensures leaves { OnOk result (self.new.leaves ≡ leaves) }
        ensures frontier { OnOk result (IsFrontier F.shape self.new) }
        ensures pins { OnOk result (HasPeaks F.shape leaves pinned_nodes.items self.new) }
        ensures tree { OnOk result (IsTreeOfPins F.shape leaves pinned_nodes.items self.new) }
        ensures refused { (e : Error F) →
            frontier_answer F.shape leaves (length pinned_nodes.items) ≡ Err e → result ≡ Err e }
        ensures memory { frontier_answer {F = F} F.shape leaves (length pinned_nodes.items) ≡ Ok tt →
            IsOkUnless result Error.Memory }
        ensures err { OnErr result (self.new ≡ self.old) }
    {
        let rebuilt = Merkle::from_compact_state(self.alloc, leaves, pinned_nodes)?;
        *self = rebuilt;
        Ok(())
    }

    /// Keeps the peaks alone. It takes no memory.
    pub fn prune_to_frontier(&mut self)
        ensures leaves { self.new.leaves ≡ self.old.leaves }
        ensures frontier { IsFrontier F.shape self.new }
        ensures nodes { (x k : ℕ) → PeakOf F.shape self.old.leaves x k →
            node_at self.new (F.shape.position x k) ≡ node_at self.old (F.shape.position x k) }
        ensures tree { (h : Hashing D) (all : List D) → IsOf F.shape h all self.old → IsOf F.shape h all self.new }
    {
        // Its leaves tell that the tree is sound, here and behind the prune.
        let _before = self.mem.leaves();
        self.mem.prune_all();
        let _after = self.mem.leaves();
    }

    /// Appends a leaf. It refuses with `LocationOverflow` a tree of `MAX_LEAVES`, and otherwise only with `Memory`.
    pub fn append_leaf<H: Hasher<Digest = D>>(
        &mut self,
        hasher: &Standard<H>,
        element: &[u8],
    ) -> Result<(), Error<F>>
        ensures leaves { OnOk result (self.new.leaves ≡ self.old.leaves + 1) }
        ensures longer { OnOk result (IsLonger F.shape (self.old.leaves + 1) self.old self.new) }
        ensures tree { OnOk result ((all : List D) → IsOf F.shape H.hash all self.old →
            IsOf F.shape H.hash (all ++ leaf F.shape H.hash (length all) element.now ∷ []) self.new) }
        ensures full { self.old.leaves ≡ 2 ^ 62 → result ≡ Err (Error.LocationOverflow (2 ^ 62 + 1)) }
        ensures memory { self.old.leaves < 2 ^ 62 → IsOkUnless result Error.Memory }
        ensures err { OnErr result (self.new ≡ self.old) }
    {
        if self.mem.leaves().as_u64() == MAX_LEAVES {
            return Err(Error::LocationOverflow(Location::new(MAX_LEAVES + 1)));
        }
        let mut batch = self.mem.new_batch()?;
        batch.add(hasher, element)?;
        let sealed = batch.merkleize(hasher, 0)?;
        match self.mem.apply_batch(&sealed) {
            Ok(()) => Ok(()),
            Err(error) => Err(error),
        }
    }

    /// The root with this many inactive peaks. It takes no memory.
    pub fn root<H: Hasher<Digest = D>>(
        &self,
        hasher: &Standard<H>,
        inactive_peaks: u64,
    ) -> Result<D, Error<F>>
        requires { inactive_peaks ≤ length (F.shape.heights self.now.leaves) }
        ensures ok { IsOk result }
        ensures root { IfOk result (λ d. (all : List D) → IsOf F.shape H.hash all self.now → d ≡ root F.shape H.hash all inactive_peaks hasher.now) }
        ensures peaks { IfOk result (λ d. (ds : List D) → ArePeaks F.shape self.now.leaves (λ x k. node_at self.now (F.shape.position x k)) ds →
            d ≡ root_over H.hash self.now.leaves ds inactive_peaks hasher.now) }
        ensures marked { IfOk result (λ d. (ps : List D) → IsMarkOf F.shape self.now self.now.leaves ps →
            d ≡ root_over H.hash self.now.leaves (reverse ps) inactive_peaks hasher.now) }
    {
        self.mem.root(hasher, inactive_peaks)
    }

    /// The number of leaves, whatever is kept.
    pub fn leaves(&self) -> Location<F>
        ensures leaves { result ≡ self.now.leaves }
        ensures sound { IsSound F.shape self.now }
    {
        self.mem.leaves()
    }

    /// The tree in memory.
    pub fn mem(&self) -> &Mem<F, D>
        ensures { result.now ≡ self.now }
    {
        &self.mem
    }

    /// An empty batch on this tree.
    pub fn new_batch(&self) -> Result<UnmerkleizedBatch<F, D>, Error<F>>
        ensures begins { IfOk result (λ b. BeginsAt self.now.leaves b) }
        ensures marked { IfOk result (λ b. IsMarkOf F.shape self.now b.began b.peaks × IsMarkOf F.shape self.now b.base b.base_peaks) }
        ensures batch { IfOk result (λ b. (h : Hashing D) (all : List D) → IsOf F.shape h all self.now → IsUnsealedOf F.shape h all b) }
        ensures memory { IsOkUnless result Error.Memory }
    {
        self.mem.new_batch()
    }

    /// An empty sealed batch of this tree.
    pub fn to_batch(&self) -> Result<MerkleizedBatch<F, D>, Error<F>>
        ensures stands { IfOk result (λ b. StandsAt self.now.leaves b) }
        ensures marked { IfOk result (λ b. IsMarkOf F.shape self.now b.began b.peaks × FitsTree F.shape self.now b 0) }
        ensures behind { IfOk result (λ b. EndsAtTree F.shape b self.now) }
        ensures batch { IfOk result (λ b. (h : Hashing D) (all : List D) → IsOf F.shape h all self.now → IsSealedOf F.shape h all b) }
        ensures memory { IsOkUnless result Error.Memory }
    {
        self.mem.to_batch()
    }

    /// Appends what the batch has behind the mark of this tree. It refuses as `Mem::apply_batch`, and is then as before.
    pub fn apply_batch(&mut self, batch: &MerkleizedBatch<F, D>) -> Result<(), Error<F>>
        ensures longer { OnOk result (IsLonger F.shape batch.now.leaves self.old self.new) }
        ensures since { OnOk result ((p : ℕ) → length (made F.shape self.old.leaves) ≤ p →
            node_at self.new p ≡ sealed_node F.shape batch.now p) }
        ensures behind { OnOk result (EndsAtTree F.shape batch.now self.new) }
        ensures marked { OnOk result ((i : ℕ) × FitsTree F.shape self.old batch.now i) }
        ensures answer { IfErr result (RefusedByTree F.shape self.old batch.now) }
        ensures fits { OnOk result ((h : Hashing D) (all : List D) → IsOf F.shape h all self.old → (i : ℕ) × Fits F.shape h all self.old.leaves batch.now i) }
        ensures tree { OnOk result ((h : Hashing D) (all made : List D) → IsOf F.shape h all self.old → IsSealedOf F.shape h made batch.now →
            IsOf F.shape h (all ++ drop (length all) made) self.new) }
        ensures refused { IfErr result (λ e. (h : Hashing D) (all : List D) → IsOf F.shape h all self.old → Refused F.shape h all self.old.leaves batch.now e) }
        ensures err { OnErr result (self.new ≡ self.old) }
    {
        // Its leaves tell that the tree is sound.
        let _sound = self.mem.leaves();
        match self.mem.apply_batch(batch) {
            Ok(()) => {}
            Err(error) => return Err(error),
        }
        Ok(())
    }
}
