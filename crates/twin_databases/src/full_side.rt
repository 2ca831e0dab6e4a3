//! The full database, which keeps each operation and their tree on a volume, as a database of the run.
ghost use Rattle.std.specs.Prelude.{◌≡◌, ◌≢◌, ◌<◌, ℕ, List, Some, Err, IfOk, IfErr, string_bytes};
ghost use Rattle.std.specs.NonZero.{non_zero_u64_get};
ghost use Rattle.volume_base.specs.Moments.{present};
ghost use Rattle.volume_base.specs.Names.{two_logs_and_map, NamesCall};
ghost use Rattle.volume_base.specs.Volume.{Changes};
ghost use Rattle.tree_shape.specs.Mmr.{mmr};
ghost use Rattle.merkle_full.specs.Full.{Rests};
ghost use Rattle.chain_core.specs.Answers.{IsOutside};
ghost use Rattle.log_model.specs.Machine.{State};
ghost use Rattle.list_machine.specs.Operation.{Operation};
ghost use Rattle.twin_databases.specs.OpeningErrors.{IsOfFullOpening};
ghost use Rattle.twin_databases.specs.FullKind.{HasFullStart, IsFullDbOf, full_end, full_kind, kept_full, opened_list};
ghost use Rattle.twin_databases.specs.Reopening.{KeepsOperations};
ghost use Rattle.twin_databases.specs.Standing.{KeepStanding, OpensGood, StandNow, settled_at};

use crate::database::Database;
use chain_core::{BatchId, Bounds, Commitment, Error, Pool};
use codec_base::{Bytes, Duplicate, LengthCfg, Read};
use journal_base::VariableJournal;
use keyless_db::variable::Config;
use keyless_db::{Keyless, MerkleizedBatch, UnmerkleizedBatch};
use list_machine::Operation;
use std::alloc::Global;
use tree_shape::{Location, Mmr, Sha256Digest, Sha256Hasher};
use volume_base::Volume;

/// The full database of the run.
pub type Full = Keyless<Mmr, Operation, VariableJournal<Operation>, Sha256Hasher>;

impl Database for Keyless<Mmr, Operation, VariableJournal<Operation>, Sha256Hasher> {
    type Sealed = MerkleizedBatch<Mmr, Sha256Digest, Operation>;

    type Unsealed = UnmerkleizedBatch<Mmr, Sha256Hasher, Operation>;

    ghost kind = { full_kind };

    fn commitment(&self) -> Commitment<Mmr, Sha256Digest> {
        self.commitment()
    }

    fn floor(&self) -> u64 {
        self.inactivity_floor_loc().as_u64()
    }

    fn metadata<V: Volume>(&self, volume: &mut V) -> Result<Option<Bytes>, Error<Mmr>> {
        self.get_metadata(volume)
    }

    fn new_batch(&self) -> Result<UnmerkleizedBatch<Mmr, Sha256Hasher, Operation>, Error<Mmr>> {
        self.new_batch()
    }

    fn child(
        pool: &mut Pool<MerkleizedBatch<Mmr, Sha256Digest, Operation>>,
        id: BatchId,
    ) -> Result<UnmerkleizedBatch<Mmr, Sha256Hasher, Operation>, Error<Mmr>> {
        MerkleizedBatch::<Mmr, Sha256Digest, Operation>::new_batch::<Sha256Hasher>(pool, id)
    }

    fn size(batch: &UnmerkleizedBatch<Mmr, Sha256Hasher, Operation>) -> u64 {
        batch.size().as_u64()
    }

    fn append(
        batch: &mut UnmerkleizedBatch<Mmr, Sha256Hasher, Operation>,
        value: &Bytes,
    ) -> Result<(), Error<Mmr>> {
        let Ok(copy) = value.duplicate() else {
            return Err(Error::Memory);
        };
        batch.append(copy)
    }

    fn discard(
        batch: UnmerkleizedBatch<Mmr, Sha256Hasher, Operation>,
        pool: &mut Pool<MerkleizedBatch<Mmr, Sha256Digest, Operation>>,
    ) {
        batch.discard(pool);
    }

    fn seal(
        &self,
        batch: UnmerkleizedBatch<Mmr, Sha256Hasher, Operation>,
        pool: &mut Pool<MerkleizedBatch<Mmr, Sha256Digest, Operation>>,
        metadata: Option<Bytes>,
        floor: u64,
    ) -> Result<BatchId, Error<Mmr>> {
        batch.merkleize(pool, self, metadata, Location::new(floor))
    }

    fn bounds(batch: &MerkleizedBatch<Mmr, Sha256Digest, Operation>) -> &Bounds<Mmr, Sha256Digest> {
        batch.bounds()
    }

    fn snapshot(
        &self,
        pool: &mut Pool<MerkleizedBatch<Mmr, Sha256Digest, Operation>>,
    ) -> Result<BatchId, Error<Mmr>> {
        self.to_batch(pool)
    }

    fn validate(
        &self,
        pool: &Pool<MerkleizedBatch<Mmr, Sha256Digest, Operation>>,
        id: BatchId,
    ) -> Result<(), Error<Mmr>> {
        self.validate_batch(pool, id)
    }

    fn apply<V: Volume>(
        self,
        volume: &mut V,
        pool: &Pool<MerkleizedBatch<Mmr, Sha256Digest, Operation>>,
        id: BatchId,
    ) -> Result<Self, Error<Mmr>> {
        self.apply_batch(volume, pool, id)
    }
}

/// The full database of a log of operations and their tree, at the last commit within a cap. It refuses as
/// `Keyless::init`.
pub fn open_full<V: Volume>(
    alloc: Global,
    volume: &mut V,
    cfg: Config<LengthCfg>,
    cap: Option<Location<Mmr>>,
) -> Result<Full, Error<Mmr>>
    requires { string_bytes cfg.log.name ≢ string_bytes cfg.merkle.nodes }
    ensures bound { cap ≡ Some 0 → (result ≡ Err Error.InvalidInitializationBound) × (volume.new ≡ volume.old) }
    // Of contents that stand for a list, it is the list's up to the last commit within the cap; where there is none,
    // that of the first commit alone. The log begins where it did.
    ensures held { let old = V.state volume.old in let log = old.log (string_bytes cfg.log.name) in
        let nodes = old.log (string_bytes cfg.merkle.nodes) in
        let pins = old.map (string_bytes cfg.merkle.metadata) in
        IfOk result (λ db. V.tells → (list : List Operation) (sizes : List ℕ) (wstart : ℕ) →
        HasFullStart cfg.log.codec.max log nodes pins cap list →
        IsFullDbOf (kept_full (opened_list (full_end cap list) list) sizes log.start wstart)
        (present (V.state volume.new)) db) }
    // And it is refused by the volume or for want of memory alone.
    ensures standing { cap ≢ Some 0 → let old = V.state volume.old in let log = old.log (string_bytes cfg.log.name) in
        let nodes = old.log (string_bytes cfg.merkle.nodes) in
        let pins = old.map (string_bytes cfg.merkle.metadata) in
        IfErr result (λ e. V.tells → (list : List Operation) →
        HasFullStart cfg.log.codec.max log nodes pins cap list → IsOutside e) }
    // Whatever the volume holds, it fails by one of these alone; the log of operations keeps a front of what it has, or
    // begins at 0 and gets the first commit.
    ensures errors { IfErr result (IsOfFullOpening cap) }
    ensures operations { let name = string_bytes cfg.log.name in IfOk result (λ db. V.tells →
        KeepsOperations cfg.log.codec.max cap db.state.size ((V.state volume.old).log name)
        ((V.state volume.new).log name)) }
    // Where whatever a crash leaves of its names stands for a good state of which no more is durable than the cap
    // allows, it does so at each moment, whatever is answered. What is then left stands for the state up to the commit,
    // and all of that is durable.
    ensures images { V.tells → (s : State Operation) → OpensGood cfg.log.codec.max cap s →
        KeepStanding (string_bytes cfg.log.name) (string_bytes cfg.merkle.nodes) (string_bytes cfg.merkle.metadata) s
        (V.state volume.old) (V.state volume.new) }
    ensures settled { let log = string_bytes cfg.log.name in let nodes = string_bytes cfg.merkle.nodes in
        let metadata = string_bytes cfg.merkle.metadata in
        IfOk result (λ db. V.tells → (s : State Operation) → OpensGood cfg.log.codec.max cap s →
        StandNow log nodes metadata s (V.state volume.old) →
        StandNow log nodes metadata (settled_at s db.state.size) (V.state volume.new)) }
    // Its logs have the configuration's blobs and codec, it keeps no failed sync, and what is there is durable.
    ensures under { IfOk result (λ db. (db.journal.items.blob ≡ non_zero_u64_get cfg.log.items_per_blob)
        × (db.journal.tree.log.blob ≡ non_zero_u64_get cfg.merkle.items_per_blob)
        × (db.journal.items.codec ≡ cfg.log.codec)) }
    ensures sound { IfOk result (λ db. full_kind.is_sound db) }
    ensures durable { IfOk result (λ db. V.tells → full_kind.is_synced db (V.state volume.new)) }
    // It has an operation, and the tree's memory is at rest.
    ensures some { IfOk result (λ db. 0 < db.state.size) }
    ensures rests { IfOk result (λ db. Rests mmr db.journal.tree) }
    ensures names { let names = two_logs_and_map (string_bytes cfg.log.name) (string_bytes cfg.merkle.nodes)
        (string_bytes cfg.merkle.metadata) in V.tells → NamesCall names (V.state volume.old) (V.state volume.new) }
    ensures same_names { IfOk result (λ db. full_kind.names db ≡ two_logs_and_map (string_bytes cfg.log.name)
        (string_bytes cfg.merkle.nodes) (string_bytes cfg.merkle.metadata)) }
    ensures changes { Changes V.tells Error.Volume (V.state volume.old) (V.state volume.new) result }
{
    Keyless::init(alloc, volume, cfg, cap)
}
