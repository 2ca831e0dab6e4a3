//! How a batch is sealed.
ghost use Rattle.std.specs.Prelude.{◌≡◌, ◌≤◌, ◌<◌, ◌-◌, ◌^◌, ◌+◌, ◌++◌, ◌∷◌, [], List, Some, length, min, IfOk};
ghost use Rattle.std.specs.Prelude.{IfErr, OnOk, OnErr, IsOkUnless};
ghost use Rattle.std.specs.Option.{ForSome};
ghost use Rattle.tree_core.specs.Batches.{leaf_count};
ghost use Rattle.auth_journal.specs.Batched.{AreSealedFrom, IsSealedOfItems, IsUnsealedOfItems, with_item};
ghost use Rattle.log_model.specs.Operations.{floor_of, root_of};
ghost use Rattle.chain_core.specs.Chains.{IsPoolOf, IsSealedAt, WhyUnsealed};
ghost use Rattle.chain_core.specs.Marks.{IsMarkedOn};
ghost use Rattle.chain_core.specs.Slots.{IsAlive, link_released};
ghost use Rattle.keyless_db.specs.Batches.{MerkleizedView, IsUnmerkleizedOf, IsMerkleizedOf, HasMarks, bounds_of};
ghost use Rattle.keyless_db.specs.Batches.{link_marks, sealing_of};
ghost use Rattle.keyless_db.specs.DbView.{floor_in};

use crate::{Keyless, KeylessOperation, MerkleizedBatch, UnmerkleizedBatch};
use chain_core::{BatchId, Bounds, Commitment, Error, Place, Pool};
use journal_base::Backing;
use tree_core::{Bagging, Family, Hasher, Location, Standard};

/// A batch's operations with this commit behind them, sealed with the newest `reached` ancestors, and the root under
/// this floor.
fn hashed<F: Family, H: Hasher, O: KeylessOperation>(
    mut tree: auth_journal::UnmerkleizedBatch<F, H, O>,
    commit: O,
    reached: u64,
    floor: Location<F>,
) -> Result<(auth_journal::MerkleizedBatch<F, H::Digest, O>, H::Digest), Error<F>>
    requires room { leaf_count tree.nodes < 2 ^ 62 }
    requires reached { reached ≤ length tree.kept }
    ensures sealed { IfOk result (λ t. AreSealedFrom (with_item F.shape H.hash O.spelling tree commit) reached t.0) }
    ensures list { IfOk result (λ t. (list : List O) → IsUnsealedOfItems F.shape H.hash O.spelling list tree →
        IsSealedOfItems F.shape H.hash O.spelling (list ++ (tree.items ++ commit ∷ [])) t.0) }
    ensures root { IfOk result (λ t. (list : List O) → IsUnsealedOfItems F.shape H.hash O.spelling list tree →
        leaf_count tree.nodes ≡ length list + length tree.items →
        floor ≡ floor_of O.meaning (list ++ (tree.items ++ commit ∷ [])) →
        t.1 ≡ root_of F.shape H.hash O.meaning (list ++ (tree.items ++ commit ∷ []))) }
    ensures memory { IsOkUnless result Error.Memory }
{
    let Ok(()) = tree.add(commit) else {
        return Err(Error::Memory);
    };
    let Ok(sealed) = tree.merkleize(reached) else {
        return Err(Error::Memory);
    };
    let hasher = Standard::<H>::new(Bagging::ForwardFold);
    let leaves = sealed.size();
    let inactive = F::inactive_peaks(Location::new(leaves), floor);
    let Ok(root) = sealed.root(&hasher, inactive) else {
        return Err(Error::Memory);
    };
    Ok((sealed, root))
}

impl<F: Family, H: Hasher, O: KeylessOperation> UnmerkleizedBatch<F, H, O>
where
    O::Value: Drop,
{
    /// The batch, sealed by a commit at the state `current` of a log whose floor is `below`. Refuses, in this order:
    /// `StaleBatch`, `Merkle(LocationOverflow)`, `FloorRegressed`, `FloorBeyondSize`; or with `Memory`.
    pub(crate) fn seal(
        self,
        pool: &Pool<MerkleizedBatch<F, H::Digest, O>>,
        current: &Commitment<F, H::Digest>,
        below: Location<F>,
        metadata: Option<O::Value>,
        floor: Location<F>,
    ) -> Result<MerkleizedBatch<F, H::Digest, O>, Error<F>>
        requires { ForSome self.parent (IsAlive pool.now) }
        ensures sealed { IfOk result (λ b. IsSealedAt bounds_of H.Digest.bytes pool.now (sealing_of self) current.now
            below floor b.bounds) }
        ensures refused { IfErr result (WhyUnsealed bounds_of H.Digest.bytes pool.now (sealing_of self) current.now
            below floor) }
        ensures tree { let ended = with_item F.shape H.hash O.spelling self.tree (O.committed metadata floor) in
            IfOk result (λ b. AreSealedFrom ended (min (length b.bounds.ancestors) (length self.tree.kept)) b.tree) }
        ensures list { let ops = self.tree.items ++ O.committed metadata floor ∷ [] in
            IfOk result (λ b. (list : List O) →
            IsUnmerkleizedOf F.shape H.hash O.meaning O.spelling list self →
            IsPoolOf bounds_of F.shape H.hash O.meaning pool.now self.parent list →
            IsMerkleizedOf F.shape H.hash O.meaning O.spelling (list ++ ops) b) }
        // Of a list, where its segments are those of the parent's chain, there is one behind each state of its own.
        ensures marks { IfOk result (λ b. (list : List O) →
            IsUnmerkleizedOf F.shape H.hash O.meaning O.spelling list self →
            IsMarkedOn bounds_of pool.now self.parent self.base (link_marks self.tree.nodes.links) → HasMarks b) }
    {
        let Ok(place) = Place::of(pool, self.parent, &self.base, below) else {
            return Err(Error::Memory);
        };
        let size = self.size().as_u64();
        let tip = match place.check(current, size, Location::new(floor.as_u64())) {
            Ok(tip) => tip,
            Err(error) => return Err(error),
        };
        let reached = place.ancestors.len().min(self.tree.segments());
        let commit = O::commit(metadata, floor.as_u64());
        let below_tip = Location::new(floor.as_u64());
        let (tree, root) = hashed::<F, H, O>(self.tree, commit, reached, below_tip)?;
        let bounds = Bounds {
            base: self.base,
            db: place.boundary,
            tip: Commitment::new(Location::new(tip), root),
            ancestors: place.ancestors,
            inactivity_floor: floor,
        };
        Ok(MerkleizedBatch { tree, bounds })
    }

    /// Seals the batch by a commit, and puts it into the pool. Its hold on its parent ends, whatever is answered.
    /// Refuses, in this order: `StaleBatch`, `Merkle(LocationOverflow)`, `FloorRegressed`, `FloorBeyondSize`.
    pub fn merkleize<C: Backing<Item = O>>(
        self,
        pool: &mut Pool<MerkleizedBatch<F, H::Digest, O>>,
        db: &Keyless<F, O, C, H>,
        metadata: Option<O::Value>,
        inactivity_floor: Location<F>,
    ) -> Result<BatchId, Error<F>>
        requires parent { ForSome self.parent (IsAlive pool.old) }
        requires room { length pool.old < 2 ^ 64 - 1 }
        ensures number { IfOk result (λ id. id ≡ length pool.old) }
        ensures inserted { let commit = O.committed metadata inactivity_floor in
            let below = floor_in O.meaning db.now in OnOk result ((b : MerkleizedView F H.Digest O)
            × (pool.new ≡ link_released pool.old self.parent ++ Some (record {
              item = b;
              parent = self.parent;
              holds
                  = 1;
            }) ∷ [])
            × IsSealedAt bounds_of H.Digest.bytes pool.old (sealing_of self) db.now.state below inactivity_floor
            b.bounds
            × AreSealedFrom (with_item F.shape H.hash O.spelling self.tree commit) (min (length b.bounds.ancestors)
            (length self.tree.kept)) b.tree
            × ((list : List O) → IsUnmerkleizedOf F.shape H.hash O.meaning O.spelling list self →
            IsPoolOf bounds_of F.shape H.hash O.meaning pool.old self.parent list →
            IsMerkleizedOf F.shape H.hash O.meaning O.spelling (list ++ (self.tree.items ++ commit ∷ [])) b)
            × ((list : List O) → IsUnmerkleizedOf F.shape H.hash O.meaning O.spelling list self →
            IsMarkedOn bounds_of pool.old self.parent self.base (link_marks self.tree.nodes.links) → HasMarks b)) }
        ensures released { OnErr result (pool.new ≡ link_released pool.old self.parent) }
        ensures refused { IfErr result
            (WhyUnsealed bounds_of H.Digest.bytes pool.old (sealing_of self) db.now.state (floor_in O.meaning db.now)
            inactivity_floor) }
    {
        let parent = self.parent;
        let below = db.inactivity_floor_loc();
        let sealed = self.seal(pool, &db.commitment(), below, metadata, inactivity_floor);
        pool.release_link(&parent);
        match sealed {
            Ok(batch) => match pool.insert(batch, parent) {
                Ok(id) => Ok(id),
                Err(_) => Err(Error::Memory),
            },
            Err(error) => Err(error),
        }
    }
}
