use crate::growth::nodes_after;
use crate::mark::Mark;
use crate::segment::{Segment, first_of, keep_from, push_own};
use crate::{Error, MerkleizedBatch};
use std::alloc::Global;
use std::marker::Model;
use std::rc::Rc;
use tree_shape::{Digest, Family, Hasher, Location, MAX_LEAVES, Position, Standard};

/// A batch that still takes leaves: where its chain began, the ancestors that are kept, the mark that it stands on.
#[derive(Drop)]
pub struct UnmerkleizedBatch<F: Family, D: Digest> {
    alloc: Global,
    boundary: Rc<Mark<F, D>>,
    segments: Vec<Rc<Segment<F, D>>>,
    first: u64,
    base: Mark<F, D>,
    digests: Vec<D>,
}

impl<F: Family, D: Digest> Model for UnmerkleizedBatch<F, D> {
    ghost use Rattle.std.specs.Prelude.{map};
    ghost use Rattle.tree_core.specs.Links.{ChainSegment};
    ghost use Rattle.tree_core.specs.Batches.{Unsealed, IsSoundUnsealed};

    ghost Value = { Unsealed D };

    ghost view = { λ b. record {
      began = b.boundary.value.leaves;
      peaks = b.boundary.value.peaks.items;
      first = b.first;
      links = map (λ g. g.value) b.segments.items;
      base = b.base.leaves;
      base_peaks = b.base.peaks.items;
      digests = b.digests.items;
    } };

    ghost invariant = { λ b. IsSoundUnsealed F.shape (record {
      began = b.boundary.value.leaves;
      peaks = b.boundary.value.peaks.items;
      first = b.first;
      links = map (λ g. g.value) b.segments.items;
      base = b.base.leaves;
      base_peaks = b.base.peaks.items;
      digests = b.digests.items;
    }) };
}

impl<F: Family, D: Digest> UnmerkleizedBatch<F, D> {
    ghost use Rattle.std.specs.Prelude.{◌≡◌, ℕ, ◌+◌, ◌-◌, ◌≤◌, ◌<◌, ◌^◌, List, [], ◌∷◌, ◌++◌, length, map, slice_get, Some, IfOk, OnOk, OnErr, IsOkUnless};
    ghost use Rattle.tree_shape.specs.Slow.{leaf};
    ghost use Rattle.tree_shape.specs.Shape.{made};
    ghost use Rattle.tree_core.specs.Hashed.{AreHashed};
    ghost use Rattle.tree_core.specs.Links.{ChainSegment, IsLinked, AreChained, StandsBehind};
    ghost use Rattle.tree_core.specs.Batches.{Unsealed, IsUnsealedOf, IsSealedOf, IsSealedFrom, leaf_count, with_digests, sealed_node};

    /// An empty batch that stands on a mark, behind these segments.
    pub(crate) fn begin(
        alloc: Global,
        boundary: Rc<Mark<F, D>>,
        segments: Vec<Rc<Segment<F, D>>>,
        first: u64,
        base: Mark<F, D>,
    ) -> Self
        requires linked { IsLinked F.shape first (map {B = ChainSegment D} (λ g. g.value) segments.items) base.leaves }
        requires chained { AreChained F.shape (map {B = ChainSegment D} (λ g. g.value) segments.items) }
        requires marked { let links = map {B = ChainSegment D} (λ g. g.value) segments.items in
            StandsBehind F.shape links base.leaves base.peaks.items }
        ensures { result ≡ record {
          began = boundary.value.leaves;
          peaks = boundary.value.peaks.items;
          first = first;
          links = map (λ g. g.value) segments.items;
          base = base.leaves;
          base_peaks = base.peaks.items;
          digests = [];
        } }
    {
        UnmerkleizedBatch {
            alloc,
            boundary,
            segments,
            first,
            base,
            digests: Vec::new(alloc),
        }
    }

    /// The number of leaves with this batch.
    pub fn leaves(&self) -> Location<F>
        ensures leaves { result ≡ leaf_count self.now }
        ensures valid { result ≤ 2 ^ 62 }
    {
        Location::new(self.base.leaves + self.digests.len() as u64)
    }

    /// The number of ancestors that are kept.
    pub fn segments(&self) -> u64
        ensures { result ≡ length self.now.links }
    {
        self.segments.len() as u64
    }

    /// Adds a leaf by its digest. It refuses with `LocationOverflow` where there are `MAX_LEAVES`, and else only with
    /// `Memory`; the batch is then as before.
    pub fn add_leaf_digest(&mut self, digest: D) -> Result<(), Error<F>>
        ensures ok { OnOk result (self.new ≡ with_digests self.old (digest ∷ [])) }
        ensures err { OnErr result (self.new ≡ self.old) }
        ensures full { leaf_count self.old ≡ 2 ^ 62 → result ≡ Err (Error.LocationOverflow (2 ^ 62 + 1)) }
        ensures memory { leaf_count self.old < 2 ^ 62 → IsOkUnless result Error.Memory }
    {
        if self.base.leaves + self.digests.len() as u64 == MAX_LEAVES {
            return Err(Error::LocationOverflow(Location::new(MAX_LEAVES + 1)));
        }
        self.digests.push(digest)?;
        Ok(())
    }

    /// Adds leaves by their digests, all or none. It refuses with `LocationOverflow` where there would be more than
    /// `MAX_LEAVES`, and else only with `Memory`.
    pub fn add_leaf_digests(&mut self, digests: &[D]) -> Result<(), Error<F>>
        ensures ok { OnOk result (self.new ≡ with_digests self.old digests.now) }
        ensures err { OnErr result (self.new ≡ self.old) }
        ensures full { 2 ^ 62 < leaf_count self.old + length digests.now →
            result ≡ Err (Error.LocationOverflow (2 ^ 62 + 1)) }
        ensures memory { leaf_count self.old + length digests.now ≤ 2 ^ 62 → IsOkUnless result Error.Memory }
    {
        let leaves = self.base.leaves + self.digests.len() as u64;
        if digests.len() as u64 > MAX_LEAVES - leaves {
            return Err(Error::LocationOverflow(Location::new(MAX_LEAVES + 1)));
        }
        self.digests.extend_from_slice(digests)?;
        Ok(())
    }

    /// Seals the batch, with the newest `reached` ancestors. Each new node is hashed once.
    pub fn merkleize<H: Hasher<Digest = D>>(
        self,
        hasher: &Standard<H>,
        reached: u64,
    ) -> Result<MerkleizedBatch<F, D>, Error<F>>
        requires { reached ≤ length self.links }
        ensures sealed { IfOk result (λ b. IsSealedFrom self reached b) }
        ensures batch { IfOk result (λ b. (all : List D) → IsUnsealedOf F.shape H.hash all self →
            IsSealedOf F.shape H.hash (all ++ self.digests) b) }
        // Each of its leaf digests stands where it was added, whatever it goes on from.
        ensures leaves { IfOk result (λ b. (i : ℕ) (d : D) → slice_get self.digests i ≡ Some d →
            sealed_node F.shape b (length (made F.shape (self.base + i))) ≡ Some d) }
        // And each of its nodes over two others is hashed from them.
        ensures hashed { IfOk result (λ b. (own : ChainSegment D) → slice_get b.links (length b.links - 1) ≡ Some own →
            AreHashed F.shape H.hash own.leaves own.later own.peaks own.nodes) }
        ensures memory { IsOkUnless result Error.Memory }
    {
        let UnmerkleizedBatch {
            alloc,
            boundary,
            mut segments,
            first: _,
            base,
            digests,
        } = self;
        let place = segments.len() - reached as usize;
        let first = first_of(&segments, place, base.leaves);
        keep_from(&mut segments, place);
        let nodes = nodes_after::<F, H>(alloc, &base, &digests, hasher)?;
        let later = digests.len() as u64;
        let leaves = base.leaves + later;
        let own = Rc::new(alloc, Segment::new(base, later, nodes))?;
        push_own(&mut segments, own)?;
        Ok(MerkleizedBatch::seal(alloc, boundary, segments, first, leaves))
    }

    /// Adds the leaf of an element. It refuses as `add_leaf_digest`.
    pub fn add<H: Hasher<Digest = D>>(
        &mut self,
        hasher: &Standard<H>,
        element: &[u8],
    ) -> Result<(), Error<F>>
        ensures ok { OnOk result (self.new ≡ with_digests self.old
            (leaf F.shape H.hash (leaf_count self.old) element.now ∷ [])) }
        ensures err { OnErr result (self.new ≡ self.old) }
        ensures full { leaf_count self.old ≡ 2 ^ 62 → result ≡ Err (Error.LocationOverflow (2 ^ 62 + 1)) }
        ensures memory { leaf_count self.old < 2 ^ 62 → IsOkUnless result Error.Memory }
    {
        let leaves = self.leaves();
        let place = Position::<F>::new(F::size(leaves.as_u64()));
        self.add_leaf_digest(hasher.leaf_digest(place, element))
    }
}
