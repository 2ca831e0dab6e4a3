//! The compact database, which keeps a witness of each applied state on a volume, as a database of the run.
ghost use Rattle.std.specs.Prelude.{◌≡◌, ◌≢◌, ◌-◌, ◌≤◌, ℕ, List, Some, IfOk, IfErr, IsErrOf, slice_get, string_bytes};
ghost use Rattle.std.specs.NonZero.{non_zero_u64_get};
ghost use Rattle.codec_base.specs.Parts.{whole};
ghost use Rattle.volume_base.specs.Log.{no_log};
ghost use Rattle.volume_base.specs.Moments.{present, LogHas, LogKeeps};
ghost use Rattle.volume_base.specs.Names.{log_alone, NamesCall};
ghost use Rattle.volume_base.specs.Volume.{Changes, OnlyLeft};
ghost use Rattle.tree_shape.specs.Mmr.{mmr};
ghost use Rattle.tree_shape.specs.Sha256Codec.{bytes_of, IsDigest};
ghost use Rattle.tree_shape.specs.declared.mmr.Mmr.{Mmr};
ghost use Rattle.log_model.specs.Good.{FloorsRise};
ghost use Rattle.log_model.specs.Machine.{State};
ghost use Rattle.log_model.specs.Opening.{last_kept, opened_at};
ghost use Rattle.log_model.specs.Stored.{DatabaseNames, CompactStands};
ghost use Rattle.tree_shape.specs.declared.sha256.Sha256Digest.{Sha256Digest};
ghost use Rattle.chain_core.specs.Answers.{IsOutside};
ghost use Rattle.compact_db.specs.DbView.{seen_log};
ghost use Rattle.compact_db.specs.Held.{HasStates};
ghost use Rattle.compact_db.specs.Opening.{IsLatest, IsOpeningFault, witnesses_in};
ghost use Rattle.list_machine.specs.Operation.{Operation, meaning, sha};
ghost use Rattle.list_machine.specs.Trace.{fresh_state};
ghost use Rattle.twin_batches.specs.Kind.{kept_of};
ghost use Rattle.twin_databases.specs.CompactKind.{IsCompactOf, IsOpenable, compact_kind, kept_to};
ghost use Rattle.twin_databases.specs.Reopening.{KeepsWitnesses};

use crate::database::Database;
use chain_core::{BatchId, Bounds, Commitment, Error, Pool};
use codec_base::{Bytes, Duplicate, LengthCfg, Read};
use compact_db::{CompactConfig, CompactDb, MerkleizedBatch, UnmerkleizedBatch};
use list_machine::Operation;
use std::alloc::Global;
use tree_shape::{Location, Mmr, Sha256Digest, Sha256Hasher};
use volume_base::Volume;

/// The compact database of the run.
pub type Compact = CompactDb<Mmr, Operation, Sha256Hasher>;

impl Database for CompactDb<Mmr, Operation, Sha256Hasher> {
    type Sealed = MerkleizedBatch<Mmr, Operation, Sha256Digest>;

    type Unsealed = UnmerkleizedBatch<Mmr, Operation, Sha256Hasher>;

    ghost kind = { compact_kind };

    fn commitment(&self) -> Commitment<Mmr, Sha256Digest> {
        self.commitment()
    }

    fn floor(&self) -> u64 {
        self.inactivity_floor_loc().as_u64()
    }

    fn metadata<V: Volume>(&self, _volume: &mut V) -> Result<Option<Bytes>, Error<Mmr>> {
        self.get_metadata()
    }

    fn new_batch(&self) -> Result<UnmerkleizedBatch<Mmr, Operation, Sha256Hasher>, Error<Mmr>> {
        self.new_batch()
    }

    fn child(
        pool: &mut Pool<MerkleizedBatch<Mmr, Operation, Sha256Digest>>,
        id: BatchId,
    ) -> Result<UnmerkleizedBatch<Mmr, Operation, Sha256Hasher>, Error<Mmr>> {
        MerkleizedBatch::<Mmr, Operation, Sha256Digest>::new_batch::<Sha256Hasher>(pool, id)
    }

    fn size(batch: &UnmerkleizedBatch<Mmr, Operation, Sha256Hasher>) -> u64 {
        batch.size().as_u64()
    }

    fn append(
        batch: &mut UnmerkleizedBatch<Mmr, Operation, Sha256Hasher>,
        value: &Bytes,
    ) -> Result<(), Error<Mmr>> {
        let Ok(copy) = value.duplicate() else {
            return Err(Error::Memory);
        };
        batch.append(copy)
    }

    fn discard(
        batch: UnmerkleizedBatch<Mmr, Operation, Sha256Hasher>,
        pool: &mut Pool<MerkleizedBatch<Mmr, Operation, Sha256Digest>>,
    ) {
        batch.discard(pool);
    }

    fn seal(
        &self,
        batch: UnmerkleizedBatch<Mmr, Operation, Sha256Hasher>,
        pool: &mut Pool<MerkleizedBatch<Mmr, Operation, Sha256Digest>>,
        metadata: Option<Bytes>,
        floor: u64,
    ) -> Result<BatchId, Error<Mmr>> {
        batch.merkleize(pool, self, metadata, Location::new(floor))
    }

    fn bounds(batch: &MerkleizedBatch<Mmr, Operation, Sha256Digest>) -> &Bounds<Mmr, Sha256Digest> {
        batch.bounds()
    }

    fn snapshot(
        &self,
        pool: &mut Pool<MerkleizedBatch<Mmr, Operation, Sha256Digest>>,
    ) -> Result<BatchId, Error<Mmr>> {
        self.to_batch(pool)
    }

    fn validate(
        &self,
        pool: &Pool<MerkleizedBatch<Mmr, Operation, Sha256Digest>>,
        id: BatchId,
    ) -> Result<(), Error<Mmr>> {
        self.validate_batch(pool, id)
    }

    fn apply<V: Volume>(
        self,
        volume: &mut V,
        pool: &Pool<MerkleizedBatch<Mmr, Operation, Sha256Digest>>,
        id: BatchId,
    ) -> Result<Self, Error<Mmr>> {
        self.apply_batch(volume, pool, id)
    }
}

/// The compact database of a log of witnesses, at the latest size within a cap. It refuses as `CompactDb::init`.
pub fn open_compact<V: Volume>(
    alloc: Global,
    volume: &mut V,
    cfg: CompactConfig<LengthCfg>,
    cap: Option<Location<Mmr>>,
) -> Result<CompactDb<Mmr, Operation, Sha256Hasher>, Error<Mmr>>
    ensures bound { cap ≡ Some 0 → IsErrOf result Error.InvalidInitializationBound × (volume.new ≡ volume.old) }
    // Of an empty log it is the database of the state in which a fresh volume is opened.
    ensures fresh { cap ≢ Some 0 → V.tells → (V.state volume.old).log (string_bytes cfg.witness) ≡ no_log →
        IfOk result (IsCompactOf (kept_of fresh_state) (present (V.state volume.new))) }
    // Of a log with the witnesses of a list, it is the list's up to the latest size within the cap.
    ensures held { cap ≢ Some 0 → V.tells →
        let log = (V.state volume.old).log (string_bytes cfg.witness) in
        IfOk result (λ db. (ops : List Operation) (sizes : List ℕ) (count size start : ℕ) →
        HasStates {F = Mmr} mmr sha meaning ops sizes (witnesses_in bytes_of IsDigest log) →
        IsLatest sizes log.start cap count size → count ≤ size →
        ((op : Operation) → slice_get ops (size - 1) ≡ Some op → ⟦<Operation as Read>⟧.admits cfg.commit_codec op) →
        IsCompactOf (kept_to ops sizes count size start log.start) (present (V.state volume.new)) db) }
    // Of a log that stands for a state, under a cap at or past what is durable, it is the state's at the last applied
    // size within the cap whose witness is kept.
    ensures opened { V.tells → let log = (V.state volume.old).log (string_bytes cfg.witness) in
        IfOk result (λ db. (names : DatabaseNames) (s : State Operation) (most : ℕ) →
        names.witness ≡ string_bytes cfg.witness → cap ≡ Some most → 1 ≤ most → s.durable ≤ most →
        IsOpenable (⟦<Operation as Read>⟧.admits cfg.commit_codec) s →
        CompactStands mmr sha bytes_of meaning s.ops s.sizes s.prune s.durable log →
        let before = present (V.state volume.old) in
        IsCompactOf (kept_of (opened_at names s before (last_kept most log 1 0 s.sizes)))
        (present (V.state volume.new)) db) }
    // Over an empty log it is refused by the volume or for want of memory alone.
    ensures fresh_refused { cap ≢ Some 0 → V.tells → (V.state volume.old).log (string_bytes cfg.witness) ≡ no_log →
        IfErr result (λ e. IsOutside e) }
    // So it is over a log that stands for a state whose floors rise, under such a cap.
    ensures refused { V.tells → let log = (V.state volume.old).log (string_bytes cfg.witness) in
        IfErr result (λ e. (s : State Operation) (most : ℕ) → cap ≡ Some most → 1 ≤ most → s.durable ≤ most →
        IsOpenable (⟦<Operation as Read>⟧.admits cfg.commit_codec) s → FloorsRise meaning 0 0 s.ops →
        CompactStands mmr sha bytes_of meaning s.ops s.sizes s.prune s.durable log → IsOutside e) }
    // Over whatever volume it fails by one of these alone.
    ensures errors { cap ≢ Some 0 → IfErr result (IsOpeningFault Sha256Digest mmr meaning
        (λ bytes. whole (⟦<Operation as Read>⟧.reads cfg.commit_codec bytes)) cap) }
    // Its log keeps a front that ends with a witness; or it was empty from 0 on, and gets the first commit's.
    ensures witnesses { cap ≢ Some 0 → let name = string_bytes cfg.witness in IfOk result (λ db. V.tells →
        KeepsWitnesses cap db.tip.witness.size ((V.state volume.old).log name) ((V.state volume.new).log name)) }
    // Under such a cap, where each log that a crash leaves stands for the state, so it does at each moment of the call.
    ensures images { V.tells → let name = string_bytes cfg.witness in (s : State Operation) (most : ℕ) →
        cap ≡ Some most → 1 ≤ most → s.durable ≤ most →
        IsOpenable (⟦<Operation as Read>⟧.admits cfg.commit_codec) s →
        let stands = CompactStands mmr sha bytes_of meaning s.ops s.sizes s.prune s.durable in
        stands ((V.state volume.old).log name) → LogHas (V.state volume.old) name stands →
        LogKeeps name stands (V.state volume.old) (V.state volume.new) }
    // Whatever the volume holds, its log has the configuration's blobs and codec, and it keeps no failed sync.
    ensures under { cap ≢ Some 0 → IfOk result (λ db.
        ((seen_log db.log).blob ≡ non_zero_u64_get cfg.items_per_blob) × (db.codec ≡ cfg.commit_codec)) }
    ensures sound { cap ≢ Some 0 → IfOk result (λ db. compact_kind.is_sound db) }
    // After it a crash leaves the log as it is.
    ensures durable { cap ≢ Some 0 → V.tells → let name = string_bytes cfg.witness in
        let state = V.state volume.new in
        IfOk result (λ db. OnlyLeft (state.log_left state.clock name) (state.log name)) }
    ensures names { V.tells → NamesCall (log_alone (string_bytes cfg.witness)) (V.state volume.old)
        (V.state volume.new) }
    ensures same_names { IfOk result (λ db. compact_kind.names db ≡ log_alone (string_bytes cfg.witness)) }
    ensures changes { cap ≢ Some 0 → Changes V.tells Error.Volume (V.state volume.old) (V.state volume.new) result }
{
    CompactDb::init(alloc, volume, cfg, cap)
}
