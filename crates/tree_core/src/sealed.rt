use crate::mark::Mark;
use crate::overlay::Overlay;
use crate::segment::{Segment, node_in, place_of, push_nodes, share_all};
use crate::{Error, Mem, UnmerkleizedBatch};
use std::alloc::{AllocError, Global};
use std::marker::Model;
use std::rc::Rc;
use tree_proof::Proof;
use tree_shape::{Digest, Family, Hasher, Location, Position, Standard};
use tree_verification::{proof_from_memory, range_proof_from_memory};

/// A sealed batch: the mark on which its chain began, and the segments that are kept, its own the last.
#[derive(Drop)]
pub struct MerkleizedBatch<F: Family, D: Digest> {
    alloc: Global,
    boundary: Rc<Mark<F, D>>,
    segments: Vec<Rc<Segment<F, D>>>,
    first: u64,
    leaves: u64,
}

impl<F: Family, D: Digest> Model for MerkleizedBatch<F, D> {
    ghost use Rattle.std.specs.Prelude.{map};
    ghost use Rattle.tree_core.specs.Links.{ChainSegment};
    ghost use Rattle.tree_core.specs.Batches.{Sealed, IsSoundSealed};

    ghost Value = { Sealed D };

    ghost view = { λ b. record {
      began = b.boundary.value.leaves;
      peaks = b.boundary.value.peaks.items;
      first = b.first;
      links = map (λ g. g.value) b.segments.items;
      leaves = b.leaves;
    } };

    ghost invariant = { λ b. IsSoundSealed F.shape (record {
      began = b.boundary.value.leaves;
      peaks = b.boundary.value.peaks.items;
      first = b.first;
      links = map (λ g. g.value) b.segments.items;
      leaves = b.leaves;
    }) };
}

impl<F: Family, D: Digest> MerkleizedBatch<F, D> {
    ghost use Rattle.std.specs.Prelude.{◌≡◌, ℕ, ◌+◌, ◌-◌, ◌≤◌, ◌<◌, ◌^◌, List, [], length, map, reverse, drop, ◌++◌, slice_get, Some, None, OnOk, OnErr, IfOk, IfSome, IsOk, IsOkUnless, IsSome};
    ghost use Rattle.tree_shape.specs.Hashing.{Hashing};
    ghost use Rattle.tree_shape.specs.Shape.{made};
    ghost use Rattle.tree_shape.specs.Root.{root, root_over};
    ghost use Rattle.tree_shape.specs.Slow.{nodes};
    ghost use Rattle.tree_core.specs.Links.{ChainSegment, IsLinked, StandsBehind, HasMark, joined_nodes};
    ghost use Rattle.tree_core.specs.Batches.{Sealed, IsSoundSealed, IsSealedOf, IsUnsealedOf, IsChildOf, sealed_node};
    ghost use Rattle.tree_core.specs.Applied.{WhyNot};
    ghost use Rattle.tree_core.specs.Tree.{IsOf};
    ghost use Rattle.tree_core.specs.Overlay.{overlaid, AreAlike};
    ghost use Rattle.tree_core.specs.Reading.{OnlyRefusedBy};
    ghost use Rattle.tree_proof.specs.Cover.{meets};
    ghost use Rattle.tree_verification.specs.Ranges.{range_answer, leaf_answer, Proves};
    ghost use Rattle.tree_proof.specs.SlowProof.{proof_of};

    /// The batch of these segments, whose leaves follow one another from `first` to `leaves`.
    pub(crate) fn seal(
        alloc: Global,
        boundary: Rc<Mark<F, D>>,
        segments: Vec<Rc<Segment<F, D>>>,
        first: u64,
        leaves: u64,
    ) -> Self
        requires sound { IsSoundSealed F.shape (record {
          began = boundary.value.leaves;
          peaks = boundary.value.peaks.items;
          first = first;
          links = map {B = ChainSegment D} (λ g. g.value) segments.items;
          leaves = leaves;
        }) }
        ensures { result ≡ record {
          began = boundary.value.leaves;
          peaks = boundary.value.peaks.items;
          first = first;
          links = map (λ g. g.value) segments.items;
          leaves = leaves;
        } }
    {
        MerkleizedBatch {
            alloc,
            boundary,
            segments,
            first,
            leaves,
        }
    }

    /// The batch's own segment.
    fn own(&self) -> &Segment<F, D>
        ensures last { slice_get self.now.links (length self.now.links - 1) ≡ Some result.now }
        ensures ends { result.now.leaves + result.now.later ≡ self.now.leaves }
        ensures sound { IsSoundSealed F.shape self.now }
    {
        &self.segments[self.segments.len() - 1]
    }

    /// The number of leaves with this batch.
    pub fn leaves(&self) -> Location<F>
        ensures leaves { result ≡ self.now.leaves }
        ensures valid { result ≤ 2 ^ 62 }
        ensures sound { IsSoundSealed F.shape self.now }
    {
        Location::new(self.leaves)
    }

    /// The number of nodes with this batch.
    pub fn size(&self) -> Position<F>
        ensures size { result ≡ length (made F.shape self.now.leaves) }
        ensures few { self.now.leaves ≤ 2 ^ 62 }
    {
        Position::new(F::size(self.leaves))
    }

    /// The position of the first node that this batch and its kept ancestors made.
    pub(crate) fn first_position(&self) -> u64
        ensures { result ≡ length (made F.shape self.now.first) }
    {
        F::size(self.first)
    }

    /// The node at a position, of those that this batch and its kept ancestors made: each from the size of their first leaf on.
    pub fn get_node(&self, pos: Position<F>) -> Option<D>
        ensures told { result ≡ sealed_node F.shape self.now pos }
        ensures node { IfSome result (λ d. (h : Hashing D) (all : List D) → IsSealedOf F.shape h all self.now →
            slice_get (nodes F.shape h all) pos ≡ Some d) }
        ensures before { pos < length (made F.shape self.now.first) → result ≡ None }
        ensures since { length (made F.shape self.now.first) ≤ pos → pos < length (made F.shape self.now.leaves) →
            IsSome result }
    {
        let first = self.first_position();
        if pos.as_u64() < first {
            return None;
        }
        node_in(&self.segments, pos.as_u64() - first)
    }

    /// The root of the tree with this batch. It takes no memory.
    pub fn root<H: Hasher<Digest = D>>(
        &self,
        hasher: &Standard<H>,
        inactive_peaks: u64,
    ) -> Result<D, Error<F>>
        requires { inactive_peaks ≤ length (F.shape.heights self.now.leaves) }
        ensures ok { IsOk result }
        ensures root { IfOk result (λ d. (all : List D) → IsSealedOf F.shape H.hash all self.now →
            d ≡ root F.shape H.hash all inactive_peaks hasher.now) }
        // It is the root over the mark behind the batch, whether or not that is a list's.
        ensures marked { IfOk result (λ d. (ps : List D) × StandsBehind F.shape self.now.links self.now.leaves ps ×
            (d ≡ root_over H.hash self.now.leaves (reverse ps) inactive_peaks hasher.now)) }
    {
        Ok(self.own().root(hasher, inactive_peaks))
    }

    /// The proof of one leaf of the tree with this batch, over a tree that has what stands before the batch's nodes.
    /// Refuses, in this order: `LocationOverflow`, `RangeOutOfBounds`; then `ElementPruned` of the first node that is wanting, or
    /// `Memory`.
    pub fn proof(
        &self,
        base: &Mem<F, D>,
        loc: Location<F>,
        inactive_peaks: u64,
    ) -> Result<Proof<F, D>, Error<F>>
        requires { inactive_peaks ≤ length (F.shape.heights self.now.leaves) }
        ensures proves { let n = self.now.leaves in
            let told = overlaid F.shape self.now base.now in
            Proves F.shape (leaf_answer n loc) n inactive_peaks (meets loc (loc + 1)) told result }
        ensures batch { IfOk result (λ proof. (h : Hashing D) (all made : List D) → IsOf F.shape h all base.now →
            IsSealedOf F.shape h made self.now → AreAlike all made →
            proof ≡ proof_of F.shape h made inactive_peaks (meets loc (loc + 1))) }

        // From the tree's boundary on no node is wanting, where the tree has what stands before the batch's nodes.
        ensures kept { base.now.boundary ≤ loc → self.now.first ≤ base.now.leaves →
            OnlyRefusedBy (leaf_answer self.now.leaves loc) result }
    {
        // Its leaves tell that the tree is sound.
        let _stored = base.leaves();
        let nodes = Overlay { base, batch: self };
        proof_from_memory(self.alloc, &nodes, loc, inactive_peaks)
    }

    /// The proof of the leaves from `start` up to `end` of the tree with this batch, over a tree that has what stands before the batch's nodes.
    /// Refuses, in this order: `Empty`, `LocationOverflow`, `RangeOutOfBounds`; then `ElementPruned` of the first node that is
    /// wanting, or `Memory`.
    pub fn range_proof(
        &self,
        base: &Mem<F, D>,
        start: Location<F>,
        end: Location<F>,
        inactive_peaks: u64,
    ) -> Result<Proof<F, D>, Error<F>>
        requires { inactive_peaks ≤ length (F.shape.heights self.now.leaves) }
        ensures proves { let n = self.now.leaves in
            let told = overlaid F.shape self.now base.now in
            Proves F.shape (range_answer n n start end) n inactive_peaks (meets start end) told result }
        ensures batch { IfOk result (λ proof. (h : Hashing D) (all made : List D) → IsOf F.shape h all base.now →
            IsSealedOf F.shape h made self.now → AreAlike all made →
            proof ≡ proof_of F.shape h made inactive_peaks (meets start end)) }

        // From the tree's boundary on no node is wanting, where the tree has what stands before the batch's nodes.
        ensures kept { base.now.boundary ≤ start → self.now.first ≤ base.now.leaves →
            OnlyRefusedBy (range_answer self.now.leaves self.now.leaves start end) result }
    {
        // Its leaves tell that the tree is sound.
        let _stored = base.leaves();
        let nodes = Overlay { base, batch: self };
        range_proof_from_memory(self.alloc, &nodes, start, end, inactive_peaks)
    }

    /// A child, with this batch's segments and its own.
    pub fn new_batch(&self) -> Result<UnmerkleizedBatch<F, D>, Error<F>>
        ensures child { IfOk result (λ b. IsChildOf self.now b) }
        ensures behind { IfOk result (λ b. StandsBehind F.shape self.now.links b.base b.base_peaks) }
        ensures batch { IfOk result (λ b. (h : Hashing D) (all : List D) → IsSealedOf F.shape h all self.now →
            IsUnsealedOf F.shape h all b) }
        ensures memory { IsOkUnless result Error.Memory }
    {
        let base = self.own().mark_behind(self.alloc)?;
        let boundary = self.boundary.clone()?;
        let segments = share_all(self.alloc, &self.segments)?;
        Ok(UnmerkleizedBatch::begin(self.alloc, boundary, segments, self.first, base))
    }

    /// The first kept segment with this mark before it.
    pub(crate) fn place_of(&self, mark: &Mark<F, D>) -> Option<usize>
        ensures some { IfSome result (λ i. HasMark self.now.links i mark.now.leaves mark.now.peaks.items) }
        ensures none { result ≡ None → (i : ℕ) → HasMark self.now.links i mark.now.leaves mark.now.peaks.items → ⊥ }
        ensures sound { IsSoundSealed F.shape self.now }
    {
        place_of(&self.segments, mark)
    }

    /// Puts its nodes from a kept segment on behind others, or none.
    pub(crate) fn push_nodes(&self, nodes: &mut Vec<D>, place: usize) -> Result<(), AllocError>
        requires { place ≤ length self.now.links }
        ensures ok { OnOk result (nodes.new.items ≡ nodes.old.items ++ joined_nodes (drop place self.now.links)) }
        ensures err { OnErr result (nodes.new.items ≡ nodes.old.items) }
    {
        push_nodes(nodes, &self.segments, place)
    }

    /// Why a tree with this mark, which stands before no kept segment, can't take the batch.
    pub(crate) fn refusal(&self, mark: &Mark<F, D>) -> Error<F>
        ensures { WhyNot F.shape self.now mark.now.leaves mark.now.peaks.items result }
    {
        if self.boundary.is_same(mark) {
            Error::AncestorDropped {
                expected: Position::new(F::size(self.first)),
                actual: Position::new(F::size(mark.leaves)),
            }
        } else {
            Error::StaleBatch
        }
    }
}
