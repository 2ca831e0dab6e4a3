//! The compact database.
use crate::{CompactOperation, MerkleizedBatch, UnmerkleizedBatch, VerifiedWitness};
use chain_core::{BatchId, Bounds, Commitment, Error, Pool};
use codec_base::{Bytes, ListOf};
use journal_base::JournalConfig;
use merkle_compact::Merkle;
use op_codec::CompactTarget;
use std::alloc::Global;
use std::marker::Model;
use std::num::NonZeroU64;
use tree_core::{Digest, Family, Hasher, Location};
use witness_store::Store;

/// Where a database has its witnesses, and how its commits are decoded.
#[derive(Drop)]
pub struct CompactConfig<C> {
    /// The name of the witness log.
    pub witness: String,
    /// How many witnesses a blob of it has.
    pub items_per_blob: NonZeroU64,
    /// What a commit may be.
    pub commit_codec: C,
}

/// The witness log of a database: open, or to be made by the first write after an import.
#[derive(Drop)]
pub enum WitnessLog<F: Family, D: Digest> {
    Open(Store<F, D>),
    Import(JournalConfig<()>),
}

/// A database that keeps of its list of operations the frontier of the tree, the last commit, and a witness of each
/// applied state.
#[derive(Drop)]
pub struct CompactDb<F: Family, O: CompactOperation, H: Hasher> {
    pub(crate) alloc: Global,
    pub(crate) log: WitnessLog<F, H::Digest>,
    pub(crate) tip: VerifiedWitness<F, H::Digest>,
    pub(crate) merkle: Merkle<F, H::Digest>,
    pub(crate) last_commit: O,
    pub(crate) codec: O::Cfg,
}

impl<F: Family, O: CompactOperation, H: Hasher> Model for CompactDb<F, O, H> {
    ghost use Rattle.compact_db.specs.DbView.{DbView, IsSoundDb};

    ghost Value = { DbView F H.Digest O O.Cfg };

    ghost view = { λ d. record { log = d.log; tip = d.tip; tree = d.merkle; commit = d.last_commit; codec = d.codec } };

    ghost invariant = { λ d. IsSoundDb F.shape d.tip d.merkle };
}

impl<F: Family, O: CompactOperation, H: Hasher> CompactDb<F, O, H> {
    ghost use Rattle.std.specs.Prelude.{◌≡◌, ◌↔◌, ◌∷◌, ◌++◌, [], ◌<◌, ◌-◌, ◌^◌, List, length, Some, None, IsOk, IfOk, OnOk, OnErr, IsOkUnless, Contains};
    ghost use Rattle.chain_core.specs.Reached.{item_at};
    ghost use Rattle.chain_core.specs.Slots.{IsAlive};
    ghost use Rattle.compact_db.specs.Batches.{MerkleizedView, IsUnmerkleizedOf, IsMerkleizedOf, HasMarks};
    ghost use Rattle.tree_core.specs.Batches.{BeginsAt};
    ghost use Rattle.compact_db.specs.DbView.{IsOfList, commitment_in, floor_in, snapshot_of};

    /// The root of the applied state.
    pub fn root(&self) -> H::Digest
        ensures { result ≡ self.now.tip.root }
    {
        self.tip.root
    }

    /// The number of operations.
    pub fn size(&self) -> Location<F>
        ensures { result ≡ self.now.tip.witness.size }
    {
        Location::new(self.tip.witness.size.as_u64())
    }

    /// The floor of the last commit.
    pub fn inactivity_floor_loc(&self) -> Location<F>
        ensures { result ≡ floor_in O.meaning self.now }
    {
        Location::new(self.last_commit.commit_floor().unwrap_or(0))
    }

    /// What a follower of the applied state is synced to.
    pub fn target(&self) -> CompactTarget<F, H::Digest>
        ensures { result ≡ record { root = self.now.tip.root; size = self.now.tip.witness.size } }
    {
        CompactTarget {
            root: self.tip.root,
            size: self.size(),
        }
    }

    /// The applied state.
    pub fn commitment(&self) -> Commitment<F, H::Digest>
        ensures { result ≡ commitment_in self.now }
    {
        Commitment::new(self.size(), self.tip.root)
    }

    /// A copy of the last commit's metadata.
    pub fn get_metadata(&self) -> Result<Option<O::Value>, Error<F>>
        ensures value { IfOk result (λ value. value ≡ O.meaning.value self.now.commit) }
        ensures memory { IsOkUnless result Error.Memory }
    {
        match self.last_commit.copied_value() {
            Ok(value) => Ok(value),
            Err(_) => Err(Error::Memory),
        }
    }

    /// A batch on this state.
    pub fn new_batch(&self) -> Result<UnmerkleizedBatch<F, O, H>, Error<F>>
        ensures pending { IfOk result (λ b. b.pending ≡ []) }
        ensures parent { IfOk result (λ b. b.parent ≡ None) }
        ensures base { IfOk result (λ b. b.base ≡ commitment_in self.now) }
        ensures begins { IfOk result (λ b. BeginsAt self.now.tree.leaves b.tree) }
        ensures list { IfOk result (λ b. (list : List O) → IsOfList F.shape H.hash O.meaning list self.now →
            IsUnmerkleizedOf F.shape H.hash O.meaning list b) }
        ensures memory { IsOkUnless result Error.Memory }
    {
        let tree = self.merkle.new_batch()?;
        let pending = O::none(self.alloc);
        Ok(UnmerkleizedBatch {
            tree,
            pending,
            base: self.commitment(),
            parent: None,
        })
    }

    /// A sealed batch of this state, without operations of its own.
    pub fn to_batch(
        &self,
        pool: &mut Pool<MerkleizedBatch<F, O, H::Digest>>,
    ) -> Result<BatchId, Error<F>>
        requires { length pool.old < 2 ^ 64 - 1 }
        ensures number { IfOk result (λ id. id ≡ length pool.old) }
        ensures inserted { OnOk result ((b : MerkleizedView F H.Digest O)
            × (pool.new ≡ pool.old ++ Some (record { item = b; parent = None; holds = 1 }) ∷ [])
            × (b.operations ≡ []) × (b.bounds ≡ snapshot_of O.meaning self.now) × HasMarks b
            × ((list : List O) → IsOfList F.shape H.hash O.meaning list self.now →
            IsMerkleizedOf F.shape H.hash O.meaning list b)) }
        ensures err { OnErr result (pool.new ≡ pool.old) }
        ensures memory { IsOkUnless result Error.Memory }
    {
        let tree = self.merkle.to_batch()?;
        let bounds = Bounds::from_db(self.alloc, self.commitment(), self.inactivity_floor_loc())?;
        let batch = MerkleizedBatch {
            tree,
            operations: ListOf::new(self.alloc),
            commit_bytes: Bytes::new(self.alloc),
            bounds,
        };
        match pool.insert(batch, None) {
            Ok(id) => Ok(id),
            Err(_) => Err(Error::Memory),
        }
    }

    /// Whether a batch may be applied here: at its boundary, or at the tip of an ancestor. It refuses with
    /// `StaleBatch`.
    pub fn validate_batch(
        &self,
        pool: &Pool<MerkleizedBatch<F, O, H::Digest>>,
        id: BatchId,
    ) -> Result<(), Error<F>>
        requires { IsAlive pool.now id }
        ensures stands { (b : MerkleizedView F H.Digest O) → item_at pool.now id ≡ Some b →
            (IsOk result ↔ Contains (b.bounds.db ∷ b.bounds.ancestors) (commitment_in self.now)) }
        ensures stale { IsOkUnless result Error.StaleBatch }
    {
        pool.item(id).bounds.validate_apply_to(self.commitment())
    }
}

impl<F: Family, O: CompactOperation, H: Hasher> UnmerkleizedBatch<F, O, H>
where
    O::Value: Drop,
{
    ghost use Rattle.std.specs.Prelude.{◌≡◌, ◌<◌, ◌-◌, ◌^◌, ◌++◌, ◌∷◌, [], List, Some, length, min, IfOk, IfErr, OnOk, OnErr};
    ghost use Rattle.std.specs.Option.{ForSome};
    ghost use Rattle.chain_core.specs.Slots.{IsAlive, link_released};
    ghost use Rattle.log_model.specs.Operations.{leaves_from};
    ghost use Rattle.tree_core.specs.Batches.{IsSealedFrom, with_digests};
    ghost use Rattle.chain_core.specs.Marks.{IsMarkedOn};
    ghost use Rattle.compact_db.specs.Batches.{MerkleizedView, IsUnmerkleizedOf, IsPoolOf, IsSealedBy, HasMarks, bounds_of, link_marks};
    ghost use Rattle.compact_db.specs.DbView.{commitment_in, floor_in};
    ghost use Rattle.compact_db.specs.Sealing.{IsEnded, IsSealedIn, WhyNotSealed};

    /// Seals the batch by a commit, and puts it into the pool. Its hold on its parent ends, whatever is answered. It
    /// refuses as `seal` at the database's state.
    pub fn merkleize(
        self,
        pool: &mut Pool<MerkleizedBatch<F, O, H::Digest>>,
        db: &CompactDb<F, O, H>,
        metadata: Option<O::Value>,
        inactivity_floor: Location<F>,
    ) -> Result<BatchId, Error<F>>
        requires parent { ForSome self.parent (IsAlive pool.old) }
        requires room { length pool.old < 2 ^ 64 - 1 }
        ensures number { IfOk result (λ id. id ≡ length pool.old) }
        ensures inserted { OnOk result ((b : MerkleizedView F H.Digest O)
            × (pool.new ≡ link_released pool.old self.parent
            ++ Some (record { item = b; parent = self.parent; holds = 1 }) ∷ [])
            × IsSealedIn H.Digest.bytes pool.old self (commitment_in db.now) (floor_in O.meaning db.now)
            inactivity_floor b.bounds
            × ((list : List O) → IsUnmerkleizedOf F.shape H.hash O.meaning list self →
            IsPoolOf F.shape H.hash O.meaning pool.old self.parent list →
            IsSealedBy F.shape H.hash O.meaning list self.pending metadata inactivity_floor b)
            × ((list : List O) → IsUnmerkleizedOf F.shape H.hash O.meaning list self →
            IsMarkedOn bounds_of pool.old self.parent self.base (link_marks self.tree.links) → HasMarks b)
            × IsSealedFrom (with_digests self.tree (leaves_from F.shape H.hash O.meaning self.base.size b.operations))
            (min (length b.bounds.ancestors) (length self.tree.links)) b.tree
            × IsEnded O.meaning self.pending metadata inactivity_floor b.operations) }
        ensures released { OnErr result (pool.new ≡ link_released pool.old self.parent) }
        ensures refused { IfErr result (WhyNotSealed H.Digest.bytes pool.old self (commitment_in db.now)
            (floor_in O.meaning db.now) inactivity_floor) }
    {
        let parent = self.parent;
        let below = db.inactivity_floor_loc();
        let sealed = self.seal(pool, &db.commitment(), below, metadata, inactivity_floor);
        pool.release_link(&parent);
        match sealed {
            Ok(batch) => match pool.insert(batch, parent) {
                Ok(id) => Ok(id),
                Err(_) => Err(Error::Memory),
            },
            Err(error) => Err(error),
        }
    }
}
