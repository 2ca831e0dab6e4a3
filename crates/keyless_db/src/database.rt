//! The database.
use crate::{KeylessOperation, MerkleizedBatch, UnmerkleizedBatch};
use auth_journal::Journal;
use chain_core::{BatchId, Bounds, Commitment, Error, Pool};
use journal_base::{Backing, Contiguous};
use std::alloc::Global;
use std::marker::Model;
use tree_core::{Family, Hasher, Location};
use volume_base::Volume;

/// A database that keeps its list of operations whole, with the tree of all of them. Contracts see its log with the
/// tree, its state by size and root, and its last commit.
#[derive(Drop)]
pub struct Keyless<F: Family, O: KeylessOperation, C: Backing<Item = O>, H: Hasher> {
    pub(crate) alloc: Global,
    pub(crate) journal: Journal<F, C, H>,
    pub(crate) state: Commitment<F, H::Digest>,
    pub(crate) last_commit: O,
}

impl<F: Family, O: KeylessOperation, C: Backing<Item = O>, H: Hasher> Model
    for Keyless<F, O, C, H> {
    ghost use Rattle.keyless_db.specs.DbView.{DbView, IsSoundDb};

    ghost Value = { DbView F H.Digest O O.Cfg };

    ghost view = { λ d. record { journal = d.journal; state = d.state; commit = d.last_commit } };

    ghost invariant = { λ d. IsSoundDb d.journal d.state };
}

impl<F: Family, O: KeylessOperation, C: Backing<Item = O>, H: Hasher> Keyless<F, O, C, H> {
    ghost use Rattle.std.specs.Prelude.{◌≡◌, ◌↔◌, ◌<◌, ◌≤◌, ◌^◌, ◌-◌, [], ◌∷◌, ◌++◌, List, length, Some, None, IsOk};
    ghost use Rattle.std.specs.Prelude.{IfOk, OnOk, OnErr, IsOkUnless, Contains};
    ghost use Rattle.volume_base.specs.Moments.{Image};
    ghost use Rattle.tree_core.specs.Applied.{FitsTree};
    ghost use Rattle.tree_core.specs.Batches.{BeginsAt};
    ghost use Rattle.chain_core.specs.MarkedPool.{AreMarked};
    ghost use Rattle.chain_core.specs.Reached.{item_at};
    ghost use Rattle.chain_core.specs.Slots.{IsAlive};
    ghost use Rattle.keyless_db.specs.Batches.{MerkleizedView, IsUnmerkleizedOf, IsMerkleizedOf, HasMarks, bounds_of};
    ghost use Rattle.keyless_db.specs.DbView.{IsHeldFor, floor_in, snapshot_of};

    /// The root of the applied list.
    pub fn root(&self) -> H::Digest
        ensures { result ≡ self.now.state.root }
    {
        self.state.root
    }

    /// The applied state.
    pub fn commitment(&self) -> Commitment<F, H::Digest>
        ensures { result ≡ self.now.state }
    {
        self.state.copied()
    }

    /// The first location whose operation is kept, and the number of operations.
    pub fn bounds(&self) -> (Location<F>, Location<F>)
        ensures start { result.0 ≡ self.now.journal.items.start }
        ensures size { result.1 ≡ self.now.state.size }
    {
        let (start, _) = self.journal.bounds();
        (
            Location::new(start),
            Location::new(self.state.size.as_u64()),
        )
    }

    /// The floor of the last commit.
    pub fn inactivity_floor_loc(&self) -> Location<F>
        ensures { result ≡ floor_in O.meaning self.now }
    {
        Location::new(self.last_commit.commit_floor().unwrap_or(0))
    }

    /// From where on a follower needs the operations: the floor of the last commit.
    pub fn sync_boundary(&self) -> Location<F>
        ensures { result ≡ floor_in O.meaning self.now }
    {
        self.inactivity_floor_loc()
    }

    /// A copy of the last commit's metadata. It is kept in memory, and the volume isn't called.
    pub fn get_metadata<V: Volume>(&self, _vol: &mut V) -> Result<Option<O::Value>, Error<F>>
        ensures value { IfOk result (λ value. value ≡ O.meaning.value self.now.commit) }
        ensures still { _vol.new ≡ _vol.old }
        ensures memory { IsOkUnless result Error.Memory }
    {
        match self.last_commit.copied_value() {
            Ok(value) => Ok(value),
            Err(_) => Err(Error::Memory),
        }
    }

    /// A batch on this state.
    pub fn new_batch(&self) -> Result<UnmerkleizedBatch<F, H, O>, Error<F>>
        ensures pending { IfOk result (λ b. b.tree.items ≡ []) }
        ensures kept { IfOk result (λ b. b.tree.kept ≡ []) }
        ensures begins { IfOk result (λ b. BeginsAt self.now.state.size b.tree.nodes) }
        ensures parent { IfOk result (λ b. b.parent ≡ None) }
        ensures base { IfOk result (λ b. b.base ≡ self.now.state) }
        ensures list { IfOk result (λ b. (ops : List O) (image : Image) →
            IsHeldFor F.shape H.hash O.meaning H.Digest.spelling (H.Digest.Read.admits tt) O.spelling ops
            self.now image →
            IsUnmerkleizedOf F.shape H.hash O.meaning O.spelling ops b) }
        ensures memory { IsOkUnless result Error.Memory }
    {
        let Ok(tree) = self.journal.new_batch() else {
            return Err(Error::Memory);
        };
        Ok(UnmerkleizedBatch {
            tree,
            base: self.commitment(),
            parent: None,
        })
    }

    /// A sealed batch of this state, without operations of its own.
    pub fn to_batch(
        &self,
        pool: &mut Pool<MerkleizedBatch<F, H::Digest, O>>,
    ) -> Result<BatchId, Error<F>>
        requires { length pool.old < 2 ^ 64 - 1 }
        ensures number { IfOk result (λ id. id ≡ length pool.old) }
        ensures inserted { OnOk result ((b : MerkleizedView F H.Digest O)
            × (pool.new ≡ pool.old ++ Some (record { item = b; parent = None; holds = 1 }) ∷ [])
            × (b.tree.items ≡ [] ∷ []) × (b.bounds ≡ snapshot_of O.meaning self.now) × HasMarks b
            × ((ops : List O) (image : Image) →
            IsHeldFor F.shape H.hash O.meaning H.Digest.spelling (H.Digest.Read.admits tt) O.spelling ops
            self.now image →
            IsMerkleizedOf F.shape H.hash O.meaning O.spelling ops b)) }
        // Whatever the volume holds, its part of the tree fits behind the database's.
        ensures fits { IfOk result (λ id. (b : MerkleizedView F H.Digest O) → item_at pool.new id ≡ Some b →
            FitsTree F.shape self.now.journal.tree.tree b.tree.nodes 0) }
        ensures err { OnErr result (pool.new ≡ pool.old) }
        ensures memory { IsOkUnless result Error.Memory }
    {
        let Ok(tree) = self.journal.to_merkleized_batch() else {
            return Err(Error::Memory);
        };
        let floor = self.inactivity_floor_loc();
        let bounds = Bounds::from_db(self.alloc, self.commitment(), floor)?;
        match pool.insert(MerkleizedBatch { tree, bounds }, None) {
            Ok(id) => Ok(id),
            Err(_) => Err(Error::Memory),
        }
    }

    /// Whether a batch may be applied here: at its boundary, or at the tip of an ancestor. It refuses with
    /// `StaleBatch`.
    pub fn validate_batch(
        &self,
        pool: &Pool<MerkleizedBatch<F, H::Digest, O>>,
        id: BatchId,
    ) -> Result<(), Error<F>>
        requires { IsAlive pool.now id }
        ensures stands { (b : MerkleizedView F H.Digest O) → item_at pool.now id ≡ Some b →
            (IsOk result ↔ Contains (b.bounds.db ∷ b.bounds.ancestors) self.now.state) }
        ensures stale { IsOkUnless result Error.StaleBatch }
        // Where each batch of the pool has its marks, one isn't applied at its own tip, unless that is its boundary.
        ensures own_tip { (b : MerkleizedView F H.Digest O) → item_at pool.now id ≡ Some b →
            AreMarked bounds_of pool.now → self.now.state ≡ b.bounds.tip → IsOk result → b.bounds.db ≡ b.bounds.tip }
    {
        pool.item(id).bounds.validate_apply_to(self.commitment())
    }
}
