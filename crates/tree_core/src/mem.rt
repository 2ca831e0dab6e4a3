use crate::growth::mark_of;
use crate::kept::{leaves_with, pins_of, push_peaks};
use crate::kept_nodes::{PIN_ROOM, drop_front, node_of, with_pins};
use crate::mark::Mark;
use crate::peaks::{Peaks, root_from};
use crate::segment::{Segment, push_own};
use crate::{Error, MerkleizedBatch, Readable, Storage, UnmerkleizedBatch};
use std::alloc::{AllocError, Global};
use std::collections::BTreeMap;
use std::marker::{Model, PhantomData};
use std::rc::Rc;
use tree_proof::Proof;
use tree_shape::{Digest, Family, Hasher, Location, MAX_LEAVES, Position, Standard};
use tree_store::nodes_from_memory;
use tree_verification::{proof_from_memory, range_proof_from_memory};
use volume_base::Volume;

/// A tree in memory, pruned at a boundary: all nodes from the boundary's position on, one after another, and some before it,
/// the pins, each with its position. The table of pins takes its room when it is made, so a prune takes none.
#[derive(Drop)]
pub struct Mem<F: Family, D: Digest> {
    alloc: Global,
    nodes: Vec<D>,
    pins: Vec<(u64, D)>,
    leaves: u64,
    boundary: u64,
    family: PhantomData<F>,
}

impl<F: Family, D: Digest> Model for Mem<F, D> {
    ghost use Rattle.std.specs.Prelude.{vec_capacity};
    ghost use Rattle.tree_core.specs.Tree.{Tree, IsStored, stored_tree};

    ghost Value = { Tree D };

    ghost view = { λ m. stored_tree F.shape m.leaves m.boundary m.pins.items m.nodes.items };

    ghost invariant = { λ m.
        IsStored F.shape m.leaves m.boundary (vec_capacity m.pins) m.pins.items m.nodes.items };
}

impl<F: Family, D: Digest> Peaks<F, D> for Mem<F, D> {
    ghost use Rattle.tree_core.specs.Tree.{node_at};

    ghost told = { λ m x k. node_at m (F.shape.position x k) };

    fn read(&self, start: u64, height: u32) -> D {
        match self.node(F::position(start, height)) {
            Some(digest) => digest,
            None => unreachable!(),
        }
    }
}

impl<F: Family, D: Digest> Mem<F, D> {
    ghost use Rattle.std.specs.Prelude.{◌≡◌, ℕ, ◌+◌, ◌≤◌, ◌<◌, ◌^◌, List, [], ◌++◌, ◌-◌, length, map, reverse, drop, slice_get, Some, OnOk, OnErr, IsOk, IfOk, IfErr, IsOkUnless};
    ghost use Rattle.tree_shape.specs.Hashing.{Hashing};
    ghost use Rattle.tree_shape.specs.Shape.{made, peaks};
    ghost use Rattle.std.specs.BTreeMap.{get};
    ghost use Rattle.std.specs.Ordering.{nat_cmp};
    ghost use Rattle.tree_shape.specs.Slow.{node_of, nodes};
    ghost use Rattle.tree_shape.specs.Root.{root, root_over};
    ghost use Rattle.tree_core.specs.Pruned.{made_from, nodes_from, peaks_at, Extends};
    ghost use Rattle.tree_core.specs.Reading.{ArePeaks, OnlyRefusedBy};
    ghost use Rattle.tree_core.specs.Tree.{Tree, node_at, IsSound, IsOf, IsPrunedTo, IsGrown, IsBuilt, NotBuilt, IsPinned, IsRested, empty_tree, prune_answer};
    ghost use Rattle.tree_core.specs.Links.{joined_nodes};
    ghost use Rattle.tree_core.specs.Batches.{BeginsAt, StandsAt, IsSoundSealed, IsUnsealedOf, IsSealedOf, sealed_node};
    ghost use Rattle.tree_core.specs.Applied.{IsLonger, IsMarkOf, EndsAtTree, FitsTree, RefusedByTree, Fits, Refused};
    ghost use Rattle.tree_proof.specs.Cover.{meets};
    ghost use Rattle.tree_verification.specs.Ranges.{range_answer, leaf_answer, Proves};

    /// The empty tree, where memory allows.
    pub fn new(alloc: Global) -> Result<Self, Error<F>>
        ensures empty { IfOk result (λ t. t ≡ empty_tree) }
        ensures tree { IfOk result (λ t. (h : Hashing D) → IsOf F.shape h [] t) }
        ensures memory { IsOkUnless result Error.Memory }
    {
        let pins = Vec::with_capacity(alloc, PIN_ROOM)?;
        Ok(Mem {
            alloc,
            nodes: Vec::new(alloc),
            pins,
            leaves: 0,
            boundary: 0,
            family: PhantomData,
        })
    }

    /// A tree that is pruned at a number of leaves: its peaks there, the oldest first, and its nodes from there on. Refuses, in
    /// this order: `LocationOverflow`, `InvalidPinnedNodes`, `MissingNode`, `Memory`.
    pub fn init(
        alloc: Global,
        nodes: Vec<D>,
        boundary: Location<F>,
        pinned: Vec<D>,
    ) -> Result<Self, Error<F>>
        ensures built { IfOk result (λ t. IsBuilt F.shape boundary nodes.items pinned.items t) }
        ensures tree { IfOk result (λ t. (h : Hashing D) (all : List D) → t.leaves ≡ length all →
            pinned.items ≡ map (node_of F.shape h all) (peaks F.shape boundary) →
            nodes.items ≡ nodes_from F.shape h all boundary (t.leaves - boundary) → IsOf F.shape h all t) }
        ensures refused { IfErr result (NotBuilt F.shape boundary (length nodes.items) (length pinned.items)) }
    {
        let loc = boundary.as_u64();
        if loc > MAX_LEAVES {
            return Err(Error::LocationOverflow(boundary));
        }
        if pinned.len() as u64 != u64::from(F::peak_count(loc)) {
            return Err(Error::InvalidPinnedNodes);
        }
        let leaves = leaves_with::<F>(loc, nodes.len() as u64)?;
        let pins = pins_of::<F, D>(alloc, loc, &pinned)?;
        Ok(Mem {
            alloc,
            nodes,
            pins,
            leaves,
            boundary: loc,
            family: PhantomData,
        })
    }

    /// The number of nodes, whatever was pruned.
    pub fn size(&self) -> Position<F>
        ensures size { result ≡ length (made F.shape self.now.leaves) }
        ensures few { self.now.leaves ≤ 2 ^ 62 }
    {
        Position::new(F::size(self.leaves))
    }

    /// The number of leaves, whatever was pruned.
    pub fn leaves(&self) -> Location<F>
        ensures leaves { result ≡ self.now.leaves }
        ensures sound { IsSound F.shape self.now }
    {
        Location::new(self.leaves)
    }

    /// The number of peaks.
    pub fn peak_count(&self) -> u64
        ensures { result ≡ length (F.shape.heights self.now.leaves) }
    {
        u64::from(F::peak_count(self.leaves))
    }

    /// The node at a position, where it is kept.
    pub fn get_node(&self, pos: Position<F>) -> Option<D>
        ensures { result ≡ node_at self.now pos }
    {
        self.node(pos.as_u64())
    }

    /// The node that stands here, where it is kept.
    fn node(&self, position: u64) -> Option<D>
        ensures { result ≡ node_at self.now position }
    {
        let first = F::size(self.boundary);
        node_of(&self.pins, first, &self.nodes, position)
    }

    /// The position of the tree's own boundary, and the nodes from there to the size, one a position, in order. It takes no
    /// memory.
    pub fn retained(&self) -> (Position<F>, &[D])
        ensures boundary { result.0 ≡ length (made F.shape self.now.boundary) }
        ensures counted { result.0 + length result.1.now ≡ length (made F.shape self.now.leaves) }
        ensures nodes { (i : ℕ) → node_at self.now (result.0 + i) ≡ slice_get result.1.now i }
    {
        (Position::new(F::size(self.boundary)), self.nodes.as_slice())
    }

    /// The root with this many inactive peaks. It takes no memory.
    pub fn root<H: Hasher<Digest = D>>(
        &self,
        hasher: &Standard<H>,
        inactive_peaks: u64,
    ) -> Result<D, Error<F>>
        requires { inactive_peaks ≤ length (F.shape.heights self.now.leaves) }
        ensures ok { IsOk result }
        ensures root { IfOk result (λ d. (all : List D) → IsOf F.shape H.hash all self.now →
            d ≡ root F.shape H.hash all inactive_peaks hasher.now) }
        ensures peaks { IfOk result (λ d. (ds : List D) → ArePeaks F.shape self.now.leaves
            (λ x k. node_at self.now (F.shape.position x k)) ds →
            d ≡ root_over H.hash self.now.leaves ds inactive_peaks hasher.now) }
        ensures marked { IfOk result (λ d. (ps : List D) → IsMarkOf F.shape self.now self.now.leaves ps →
            d ≡ root_over H.hash self.now.leaves (reverse ps) inactive_peaks hasher.now) }
    {
        Ok(root_from::<F, H, Mem<F, D>>(self, hasher, self.leaves, inactive_peaks))
    }

    /// The proof of one leaf. Refuses, in this order: `LocationOverflow`, `RangeOutOfBounds`; then `ElementPruned` of the first
    /// node that is wanting, or `Memory`.
    pub fn proof(&self, loc: Location<F>, inactive_peaks: u64) -> Result<Proof<F, D>, Error<F>>
        requires { inactive_peaks ≤ length (F.shape.heights self.now.leaves) }
        ensures proves { let n = self.now.leaves in
            Proves F.shape (leaf_answer n loc) n inactive_peaks (meets loc (loc + 1)) (node_at self.now) result }

        // From the boundary on no node is wanting.
        ensures kept { self.now.boundary ≤ loc → OnlyRefusedBy (leaf_answer self.now.leaves loc) result }
    {
        proof_from_memory(self.alloc, self, loc, inactive_peaks)
    }

    /// The proof of the leaves from `start` up to `end`. Refuses, in this order: `Empty`, `LocationOverflow`,
    /// `RangeOutOfBounds`; then `ElementPruned` of the first node that is wanting, or `Memory`.
    pub fn range_proof(
        &self,
        start: Location<F>,
        end: Location<F>,
        inactive_peaks: u64,
    ) -> Result<Proof<F, D>, Error<F>>
        requires { inactive_peaks ≤ length (F.shape.heights self.now.leaves) }
        ensures proves { let n = self.now.leaves in
            Proves F.shape (range_answer n n start end) n inactive_peaks (meets start end) (node_at self.now) result }

        // From the boundary on no node is wanting.
        ensures kept { self.now.boundary ≤ start →
            OnlyRefusedBy (range_answer self.now.leaves self.now.leaves start end) result }
    {
        range_proof_from_memory(self.alloc, self, start, end, inactive_peaks)
    }

    /// Prunes to a number of leaves. Refuses, in this order: `LocationOverflow`, `LeafOutOfBounds`. It takes no memory.
    pub fn prune(&mut self, loc: Location<F>) -> Result<(), Error<F>>
        ensures answer { result ≡ prune_answer self.old.leaves loc }
        ensures err { OnErr result (self.new ≡ self.old) }
        ensures below { OnOk result (loc ≤ self.old.boundary → self.new ≡ self.old) }
        ensures above { OnOk result (self.old.boundary < loc → IsPrunedTo F.shape loc self.old self.new) }
        ensures tree { (h : Hashing D) (all : List D) → IsOf F.shape h all self.old → IsOf F.shape h all self.new }
    {
        let leaves = self.leaves;
        if loc.as_u64() > MAX_LEAVES {
            return Err(Error::LocationOverflow(loc));
        }
        if loc.as_u64() > leaves {
            return Err(Error::LeafOutOfBounds(loc));
        }
        if loc.as_u64() <= self.boundary {
            return Ok(());
        }
        let boundary = loc.as_u64();
        let first = F::size(self.boundary);
        let gone = F::size(boundary) - first;
        let count = self.pins.len();
        push_peaks::<F, D>(&mut self.pins, count, first, &self.nodes, boundary);
        drop_front(&mut self.pins, count);
        drop_front(&mut self.nodes, gone as usize);
        self.boundary = boundary;
        Ok(())
    }

    /// Prunes to the leaves. It takes no memory.
    pub fn prune_all(&mut self)
        ensures below { self.old.boundary ≡ self.old.leaves → self.new ≡ self.old }
        ensures above { self.old.boundary < self.old.leaves → IsPrunedTo F.shape self.old.leaves self.old self.new }
        ensures tree { (h : Hashing D) (all : List D) → IsOf F.shape h all self.old → IsOf F.shape h all self.new }
    {
        let leaves = self.leaves();
        match self.prune(leaves) {
            Ok(()) => {}
            Err(_) => unreachable!(),
        }
    }

    /// Prunes to the leaves, but keeps the peaks of `boundary` leaves that it has. It takes no memory.
    pub fn rest(&mut self, boundary: Location<F>)
        requires { boundary ≤ 2 ^ 62 }
        ensures rested { IsRested F.shape boundary self.old self.new }
        ensures sound { IsSound F.shape self.new }
        ensures tree { (h : Hashing D) (all : List D) → IsOf F.shape h all self.old → IsOf F.shape h all self.new }
    {
        let leaves = self.leaves;
        let kept = boundary.as_u64();
        let first = F::size(self.boundary);
        let count = self.pins.len();
        push_peaks::<F, D>(&mut self.pins, count, first, &self.nodes, leaves);
        push_peaks::<F, D>(&mut self.pins, count, first, &self.nodes, kept);
        drop_front(&mut self.pins, count);
        self.nodes.clear();
        self.boundary = leaves;
    }

    /// Keeps more nodes of this tree, where it has none, until a prune moves the boundary.
    pub fn add_pinned_nodes(&mut self, pins: BTreeMap<Position<F>, D>) -> Result<(), Error<F>>
        requires { (p : ℕ) (d : D) → get nat_cmp pins p ≡ Some d → p < length (made F.shape self.old.leaves) }
        ensures ok { OnOk result (IsPinned (get nat_cmp pins) self.old self.new) }
        ensures err { OnErr result (self.new ≡ self.old) }
        ensures tree { (h : Hashing D) (all : List D) → IsOf F.shape h all self.old →
            ((p : ℕ) (d : D) → get nat_cmp pins p ≡ Some d → slice_get (nodes F.shape h all) p ≡ Some d) →
            IsOf F.shape h all self.new }
        ensures memory { IsOkUnless result Error.Memory }
    {
        let first = F::size(self.boundary);
        let table = with_pins(self.alloc, &self.pins, first, &self.nodes, &pins)?;
        self.pins = table;
        Ok(())
    }

    /// The mark of the tree.
    pub(crate) fn mark(&self) -> Result<Mark<F, D>, AllocError>
        ensures leaves { IfOk result (λ m. m.leaves ≡ self.now.leaves) }
        ensures mark { IfOk result (λ m. IsMarkOf F.shape self.now m.leaves m.peaks.items) }
        ensures peaks { IfOk result (λ m. (h : Hashing D) (all : List D) → IsOf F.shape h all self.now →
            m.peaks.items ≡ peaks_at F.shape h all self.now.leaves) }
    {
        let mark = mark_of::<F, D, Mem<F, D>>(self.alloc, self, self.leaves)?;
        Ok(mark)
    }

    /// Adds what the batch has from a kept segment on, whose mark has the tree's leaves: all or nothing.
    fn append_from(&mut self, batch: &MerkleizedBatch<F, D>, place: usize) -> Result<(), AllocError>
        requires { FitsTree F.shape self.old batch.now place }
        ensures ok { OnOk result (IsGrown F.shape (batch.now.leaves - self.old.leaves)
            (joined_nodes (drop place batch.now.links)) self.old self.new) }
        ensures sound { IsSoundSealed F.shape batch.now }
        ensures err { OnErr result (self.new ≡ self.old) }
    {
        let leaves = batch.leaves().as_u64();
        batch.push_nodes(&mut self.nodes, place)?;
        self.leaves = leaves;
        Ok(())
    }

    /// An empty batch on this tree.
    pub fn new_batch(&self) -> Result<UnmerkleizedBatch<F, D>, Error<F>>
        ensures begins { IfOk result (λ b. BeginsAt self.now.leaves b) }
        ensures marked { IfOk result (λ b. IsMarkOf F.shape self.now b.began b.peaks ×
            IsMarkOf F.shape self.now b.base b.base_peaks) }
        ensures batch { IfOk result (λ b. (h : Hashing D) (all : List D) → IsOf F.shape h all self.now →
            IsUnsealedOf F.shape h all b) }
        ensures memory { IsOkUnless result Error.Memory }
    {
        let base = self.mark()?;
        let boundary = Rc::new(self.alloc, base.copied(self.alloc)?)?;
        let segments = Vec::new(self.alloc);
        Ok(UnmerkleizedBatch::begin(self.alloc, boundary, segments, self.leaves, base))
    }

    /// An empty sealed batch of this tree.
    pub fn to_batch(&self) -> Result<MerkleizedBatch<F, D>, Error<F>>
        ensures stands { IfOk result (λ b. StandsAt self.now.leaves b) }
        ensures marked { IfOk result (λ b. IsMarkOf F.shape self.now b.began b.peaks × FitsTree F.shape self.now b 0) }
        ensures behind { IfOk result (λ b. EndsAtTree F.shape b self.now) }
        ensures batch { IfOk result (λ b. (h : Hashing D) (all : List D) → IsOf F.shape h all self.now →
            IsSealedOf F.shape h all b) }
        ensures memory { IsOkUnless result Error.Memory }
    {
        let mark = self.mark()?;
        let boundary = Rc::new(self.alloc, mark.copied(self.alloc)?)?;
        let nodes = Vec::new(self.alloc);
        let own = Rc::new(self.alloc, Segment::new(mark, 0, nodes))?;
        let mut segments = Vec::new(self.alloc);
        push_own(&mut segments, own)?;
        Ok(MerkleizedBatch::seal(self.alloc, boundary, segments, self.leaves, self.leaves))
    }

    /// The place, among the batch's kept segments, of one that goes on from the mark of this tree. Refuses, in this order:
    /// `AncestorDropped` of a batch that began at this tree but no longer has what stands behind it, `StaleBatch` of another that
    /// doesn't fit; or with `Memory`.
    pub fn place_of(&self, batch: &MerkleizedBatch<F, D>) -> Result<u64, Error<F>>
        ensures place { IfOk result (λ i. FitsTree F.shape self.now batch.now i) }
        ensures answer { IfErr result (RefusedByTree F.shape self.now batch.now) }
        ensures fits { IfOk result (λ i. (h : Hashing D) (all : List D) → IsOf F.shape h all self.now →
            Fits F.shape h all self.now.leaves batch.now i) }
        ensures refused { IfErr result (λ e. (h : Hashing D) (all : List D) → IsOf F.shape h all self.now →
            Refused F.shape h all self.now.leaves batch.now e) }
    {
        let mark = self.mark()?;
        match batch.place_of(&mark) {
            Some(place) => Ok(place as u64),
            None => Err(batch.refusal(&mark)),
        }
    }

    /// Appends what the batch has behind the mark of this tree. Refuses as `place_of`.
    pub fn apply_batch(&mut self, batch: &MerkleizedBatch<F, D>) -> Result<(), Error<F>>
        ensures longer { OnOk result (IsLonger F.shape batch.now.leaves self.old self.new) }
        ensures since { OnOk result ((p : ℕ) → length (made F.shape self.old.leaves) ≤ p →
            node_at self.new p ≡ sealed_node F.shape batch.now p) }
        ensures behind { OnOk result (EndsAtTree F.shape batch.now self.new) }
        ensures marked { OnOk result ((i : ℕ) × FitsTree F.shape self.old batch.now i) }
        ensures answer { IfErr result (RefusedByTree F.shape self.old batch.now) }
        ensures fits { OnOk result ((h : Hashing D) (all : List D) → IsOf F.shape h all self.old →
            (i : ℕ) × Fits F.shape h all self.old.leaves batch.now i) }
        ensures tree { OnOk result ((h : Hashing D) (all made : List D) → IsOf F.shape h all self.old →
            IsSealedOf F.shape h made batch.now → IsOf F.shape h (all ++ drop (length all) made) self.new) }
        ensures refused { IfErr result (λ e. (h : Hashing D) (all : List D) → IsOf F.shape h all self.old →
            Refused F.shape h all self.old.leaves batch.now e) }
        ensures err { OnErr result (self.new ≡ self.old) }
    {
        match self.place_of(batch) {
            Ok(place) => {
                self.append_from(batch, place as usize)?;
                Ok(())
            }
            Err(error) => Err(error),
        }
    }
}

impl<F: Family, D: Digest> Readable for Mem<F, D> {
    ghost use Rattle.std.specs.Prelude.{◌≡◌};
    ghost use Rattle.tree_core.specs.Tree.{node_at};

    type Family = F;

    type Digest = D;

    ghost leaves = { λ t. t.leaves };

    ghost told = { λ t p. node_at t p };

    fn leaves(&self) -> Location<F> {
        Mem::leaves(self)
    }

    fn size(&self) -> Position<F> {
        Mem::size(self)
    }

    fn get_node(&self, pos: Position<F>) -> Option<D>
        ensures { result ≡ node_at self.now pos }
    {
        Mem::get_node(self, pos)
    }
}

impl<F: Family, D: Digest> Storage<F> for Mem<F, D> {
    ghost use Rattle.std.specs.Prelude.{◌≡◌, ◌<◌, length, map, Some, Ok, All, IfOk, IfErr};
    ghost use Rattle.tree_shape.specs.Shape.{made};
    ghost use Rattle.volume_base.specs.Volume.{Reads};
    ghost use Rattle.tree_store.specs.Stores.{IsReadFault, IsReadRefusal, IsOutside, IsOutsideOr, IsUnread};
    ghost use Rattle.tree_core.specs.Tree.{node_at};

    type Digest = D;

    ghost leaves = { λ t. t.leaves };

    ghost held = { λ t c. Unit {0} };

    ghost told = { λ t c p. node_at t p };

    fn allocator(&self) -> Global {
        self.alloc
    }

    fn leaves(&self) -> Location<F> {
        Mem::leaves(self)
    }

    fn size(&self) -> Position<F> {
        Mem::size(self)
    }

    fn get_node<V: Volume>(
        &self,
        _vol: &mut V,
        position: Position<F>,
    ) -> Result<Option<D>, Error<F>>
        ensures node { IfOk result (λ node. V.tells → Unit {0} → node ≡ node_at self.now position) }
        ensures fault { position < length (made F.shape self.now.leaves) → IfErr result IsReadFault }
        ensures outside { position < length (made F.shape self.now.leaves) → V.tells → Unit {0} →
            IfErr result IsOutside }
        ensures reads { Reads V.tells Error.Volume (V.state _vol.old) (V.state _vol.new) result }
        // It is told from memory, at any position.
        ensures exact { result ≡ Ok (node_at self.now position) }
        ensures volume { _vol.new ≡ _vol.old }
    {
        Ok(Mem::get_node(self, position))
    }

    fn get_nodes<V: Volume>(
        &self,
        _vol: &mut V,
        positions: &[Position<F>],
    ) -> Result<Vec<D>, Error<F>>
        ensures nodes { IfOk result (λ nodes. V.tells → Unit {0} →
            map Some nodes.items ≡ map (node_at self.now) positions.now) }
        ensures counted { IfOk result (λ nodes. length nodes.items ≡ length positions.now) }
        ensures fault { All (λ p. p < length (made F.shape self.now.leaves)) positions.now →
            IfErr result IsReadRefusal }
        ensures outside { All (λ p. p < length (made F.shape self.now.leaves)) positions.now → V.tells → Unit {0} →
            IfErr result (IsOutsideOr (node_at self.now) positions.now) }
        ensures reads { Reads V.tells Error.Volume (V.state _vol.old) (V.state _vol.new) result }
        // They are told from memory, at any positions.
        ensures exact { IfOk result (λ nodes. map Some nodes.items ≡ map (node_at self.now) positions.now) }
        ensures absent { IfErr result (IsUnread (node_at self.now) positions.now) }
        ensures volume { _vol.new ≡ _vol.old }
    {
        let nodes = nodes_from_memory(self.alloc, self, positions)?;
        Ok(nodes)
    }
}
