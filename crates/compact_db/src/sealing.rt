//! How a batch is sealed.
ghost use Rattle.std.specs.Prelude.{◌≡◌, ◌≤◌, ◌<◌, ◌^◌, ◌+◌, ◌++◌, ◌∷◌, [], List, length, min, IfOk, IfErr, OnOk, IsOkUnless};
ghost use Rattle.std.specs.Option.{ForSome};
ghost use Rattle.chain_core.specs.Slots.{IsAlive};
ghost use Rattle.log_model.specs.Operations.{floor_of, leaves_from, root_of};
ghost use Rattle.tree_core.specs.Batches.{IsSealedOf, IsSealedFrom, IsUnsealedOf, with_digests};
ghost use Rattle.tree_shape.specs.Slow.{leaf};
ghost use Rattle.chain_core.specs.Marks.{IsMarkedOn};
ghost use Rattle.compact_db.specs.Batches.{IsUnmerkleizedOf, IsPoolOf, IsSealedBy, HasMarks, AreLastBytes, bounds_of, link_marks};
ghost use Rattle.compact_db.specs.Sealing.{IsEnded, IsSealedIn, WhyNotSealed};

use crate::{CompactOperation, MerkleizedBatch, UnmerkleizedBatch};
use chain_core::{Bounds, Commitment, Error, Place, Pool};
use codec_base::{Bytes, CodecError, ListOf};
use log_model::Logged;
use std::alloc::Global;
use tree_core::{Bagging, Digest, Family, Hasher, Location, Position, Standard};

/// Adds the digest of the leaf at a place that an operation is. The buffer has the operation's bytes then.
fn push_leaf<F: Family, O: Logged, H: Hasher>(
    hasher: &Standard<H>,
    buffer: &mut Bytes,
    leaves: &mut Vec<H::Digest>,
    place: u64,
    operation: &O,
) -> Result<(), CodecError>
    requires { place < 2 ^ 62 }
    ensures leaf { OnOk result (leaves.new.items ≡ leaves.old.items ++
        leaf F.shape H.hash place (O.meaning.encoding operation.now) ∷ []) }
    ensures spelled { OnOk result (buffer.new ≡ O.spelling operation.now) }
    ensures memory { IsOkUnless result CodecError.Memory }
{
    buffer.truncate(0);
    operation.write(buffer)?;
    let position = Position::<F>::new(F::position(place, 0));
    leaves.push(hasher.leaf_digest(position, buffer.as_slice()))?;
    Ok(())
}

/// The digests of the leaves that these operations are, the first at this place, and the bytes of the last of them.
fn leaves_of<F: Family, O: Logged, H: Hasher>(
    alloc: Global,
    hasher: &Standard<H>,
    first: u64,
    operations: &[O],
) -> Result<(Vec<H::Digest>, Bytes), CodecError>
    requires some { 0 < length operations.now }
    requires few { first + length operations.now ≤ 2 ^ 62 }
    ensures leaves { IfOk result (λ r. r.0.items ≡ leaves_from F.shape H.hash O.meaning first operations.now) }
    ensures bytes { IfOk result (λ r. AreLastBytes O.spelling operations.now r.1) }
    ensures memory { IsOkUnless result CodecError.Memory }
{
    let last = operations.len() - 1;
    let mut leaves = Vec::with_capacity(alloc, operations.len())?;
    // This buffer is used again for each operation before the last; that of the last is kept.
    let mut buffer = Bytes::new(alloc);
    for i in 0..last {
        let place = first + i as u64;
        push_leaf::<F, O, H>(hasher, &mut buffer, &mut leaves, place, &operations[i])?;
    }
    let mut bytes = Bytes::new(alloc);
    let place = first + last as u64;
    push_leaf::<F, O, H>(hasher, &mut bytes, &mut leaves, place, &operations[last])?;
    Ok((leaves, bytes))
}

/// The operations that a batch has collected, and the commit that ends them.
fn ended<O: CompactOperation>(
    pending: O::Pending,
    metadata: Option<O::Value>,
    floor: u64,
) -> Result<Vec<O>, CodecError>
where
    O::Value: Drop,
    ensures ended { IfOk result (λ ops. IsEnded O.meaning (O.collected pending) metadata floor ops.items) }
    ensures memory { IsOkUnless result CodecError.Memory }
{
    let mut operations = O::into_operations(pending)?;
    operations.push(O::commit(metadata, floor))?;
    Ok(operations)
}

/// The tree of a batch, sealed, its root, and the encoding of its commit.
#[derive(Drop)]
struct SealedTree<F: Family, D: Digest> {
    tree: tree_core::MerkleizedBatch<F, D>,
    root: D,
    commit_bytes: Bytes,
}

/// The tree of a batch with the leaves of these operations, its root under this floor, and the last operation's bytes.
fn hashed<F: Family, O: Logged, H: Hasher>(
    alloc: Global,
    mut tree: tree_core::UnmerkleizedBatch<F, H::Digest>,
    operations: &[O],
    reached: u64,
    floor: Location<F>,
) -> Result<SealedTree<F, H::Digest>, Error<F>>
    requires none { tree.digests ≡ [] }
    requires some { 0 < length operations.now }
    requires few { tree.base + length operations.now ≤ 2 ^ 62 }
    requires reached { reached ≤ length tree.links }
    ensures leaves { IfOk result (λ r. r.tree.leaves ≡ tree.base + length operations.now) }
    ensures tree { IfOk result (λ r. (list : List O) → tree.base ≡ length list →
        IsUnsealedOf F.shape H.hash (leaves_from F.shape H.hash O.meaning 0 list) tree →
        IsSealedOf F.shape H.hash (leaves_from F.shape H.hash O.meaning 0 (list ++ operations.now)) r.tree) }
    ensures root { IfOk result (λ r. (list : List O) → tree.base ≡ length list →
        IsUnsealedOf F.shape H.hash (leaves_from F.shape H.hash O.meaning 0 list) tree →
        floor ≡ floor_of O.meaning (list ++ operations.now) →
        r.root ≡ root_of F.shape H.hash O.meaning (list ++ operations.now)) }
    ensures segments { IfOk result (λ r.
        IsSealedFrom (with_digests tree (leaves_from F.shape H.hash O.meaning tree.base operations.now)) reached
        r.tree) }
    ensures bytes { IfOk result (λ r. AreLastBytes O.spelling operations.now r.commit_bytes) }
    ensures memory { IsOkUnless result Error.Memory }
{
    let hasher = Standard::<H>::new(Bagging::ForwardFold);
    let first = tree.leaves().as_u64();
    let Ok((leaves, commit_bytes)) = leaves_of::<F, O, H>(alloc, &hasher, first, operations) else {
        return Err(Error::Memory);
    };
    let Ok(()) = tree.add_leaf_digests(&leaves) else {
        return Err(Error::Memory);
    };
    let sealed = tree.merkleize(&hasher, reached)?;
    let inactive = F::inactive_peaks(sealed.leaves(), floor);
    let root = sealed.root(&hasher, inactive)?;
    Ok(SealedTree {
        tree: sealed,
        root,
        commit_bytes,
    })
}

impl<F: Family, O: CompactOperation, H: Hasher> UnmerkleizedBatch<F, O, H>
where
    O::Value: Drop,
{
    /// The batch, sealed by a commit at the state `current` of a log whose floor is `below`. Refuses, in this order:
    /// `StaleBatch`, `Merkle(LocationOverflow)`, `FloorRegressed`, `FloorBeyondSize`; or with `Memory`.
    pub(crate) fn seal(
        self,
        pool: &Pool<MerkleizedBatch<F, O, H::Digest>>,
        current: &Commitment<F, H::Digest>,
        below: Location<F>,
        metadata: Option<O::Value>,
        floor: Location<F>,
    ) -> Result<MerkleizedBatch<F, O, H::Digest>, Error<F>>
        requires { ForSome self.parent (IsAlive pool.now) }
        ensures sealed { IfOk result (λ b. IsSealedIn H.Digest.bytes pool.now self current.now below floor b.bounds) }
        ensures refused { IfErr result (WhyNotSealed H.Digest.bytes pool.now self current.now below floor) }
        // The batch of a list becomes one of the list with its operations and the commit.
        ensures list { IfOk result (λ b. (list : List O) → IsUnmerkleizedOf F.shape H.hash O.meaning list self →
            IsPoolOf F.shape H.hash O.meaning pool.now self.parent list →
            IsSealedBy F.shape H.hash O.meaning list self.pending metadata floor b) }
        // Its tree keeps a segment for each ancestor whose tip is kept, as far as there are as many, and its own.
        ensures segments { IfOk result (λ b.
            IsSealedFrom (with_digests self.tree (leaves_from F.shape H.hash O.meaning self.base.size b.operations))
            (min (length b.bounds.ancestors) (length self.tree.links)) b.tree) }
        // Of a list, where its segments are those of the parent's chain, there is one behind each state of its own.
        ensures marks { IfOk result (λ b. (list : List O) → IsUnmerkleizedOf F.shape H.hash O.meaning list self →
            IsMarkedOn bounds_of pool.now self.parent self.base (link_marks self.tree.links) → HasMarks b) }
        ensures own { IfOk result (λ b. IsEnded O.meaning self.pending metadata floor b.operations) }
    {
        let Ok(place) = Place::of(pool, self.parent, &self.base, below) else {
            return Err(Error::Memory);
        };
        let size = self.size().as_u64();
        let tip = match place.check(current, size, Location::new(floor.as_u64())) {
            Ok(tip) => tip,
            Err(error) => return Err(error),
        };
        let reached = place.ancestors.len().min(self.tree.segments());
        let Ok(operations) = ended::<O>(self.pending, metadata, floor.as_u64()) else {
            return Err(Error::Memory);
        };
        let below_tip = Location::new(floor.as_u64());
        let sealed = hashed::<F, O, H>(
            pool.allocator(),
            self.tree,
            &operations,
            reached,
            below_tip,
        )?;
        let bounds = Bounds {
            base: self.base,
            db: place.boundary,
            tip: Commitment::new(Location::new(tip), sealed.root),
            ancestors: place.ancestors,
            inactivity_floor: floor,
        };
        Ok(MerkleizedBatch {
            tree: sealed.tree,
            operations: ListOf::from_vec(operations),
            commit_bytes: sealed.commit_bytes,
            bounds,
        })
    }
}
