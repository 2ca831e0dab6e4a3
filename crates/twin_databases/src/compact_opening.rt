//! How the compact side of the run is opened.
ghost use Rattle.std.specs.Prelude.{◌≡◌, ◌≢◌, ◌≤◌, ℕ, List, length, Some, IfOk, IfErr, string_bytes};
ghost use Rattle.std.specs.NonZero.{non_zero_u64_get};
ghost use Rattle.chain_core.specs.Answers.{IsOutside};
ghost use Rattle.compact_db.specs.Opening.{IsOpeningFault};
ghost use Rattle.log_model.specs.Good.{AnyList, IsGood};
ghost use Rattle.log_model.specs.Machine.{State};
ghost use Rattle.log_model.specs.Opening.{last_kept, opened_at};
ghost use Rattle.log_model.specs.Stored.{CompactStands};
ghost use Rattle.tree_shape.specs.Mmr.{mmr};
ghost use Rattle.tree_shape.specs.Sha256Codec.{bytes_of};
ghost use Rattle.tree_shape.specs.declared.sha256.Sha256Digest.{Sha256Digest};
ghost use Rattle.volume_base.specs.Moments.{present, LogHas, LogKeeps};
ghost use Rattle.volume_base.specs.Names.{NamesCall};
ghost use Rattle.volume_base.specs.Volume.{Changes};
ghost use Rattle.list_machine.specs.Operation.{Operation, meaning, sha};
ghost use Rattle.list_machine.specs.Starts.{compact_names, names_in};
ghost use Rattle.list_machine.specs.Step.{plain_commit};
ghost use Rattle.twin_batches.specs.Kind.{kept_of};
ghost use Rattle.twin_databases.specs.CompactKind.{compact_kind};
ghost use Rattle.twin_databases.specs.OpeningErrors.{decoded_under};
ghost use Rattle.twin_databases.specs.Reopening.{KeepsWitnesses};

use crate::compact_side::{Compact, open_compact};
use chain_core::Error;
use codec_base::LengthCfg;
use compact_db::CompactConfig;
use list_machine::TwinConfig;
use std::alloc::{AllocError, Global};
use tree_shape::{Location, Mmr};
use volume_base::Volume;

/// What a configuration of the run is for the compact database: the name of its log, its blobs, and values of at most
/// its limit.
fn compact_config(
    alloc: Global,
    config: &TwinConfig,
) -> Result<CompactConfig<LengthCfg>, AllocError>
    ensures witness { IfOk result (λ c. string_bytes c.witness ≡ config.now.witness) }
    ensures blob { IfOk result (λ c. non_zero_u64_get c.items_per_blob ≡ config.now.witness_blob) }
    ensures codec { IfOk result (λ c. c.commit_codec ≡ record { max = config.now.value_limit }) }
    ensures within { config.now.value_limit ≤ 16777216 }
{
    let max = config.value_limit();
    let witness = String::from_str(alloc, config.witness())?;
    Ok(CompactConfig {
        witness,
        items_per_blob: config.witness_blob(),
        commit_codec: LengthCfg { max },
    })
}

/// A cap on sizes.
pub fn cap_of(cap: Option<u64>) -> Option<Location<Mmr>>
    ensures { result ≡ cap }
{
    match cap {
        Some(size) => Some(Location::new(size)),
        None => None,
    }
}

/// The compact database under a configuration, at the latest applied size within a cap, or without one. It refuses as
/// `open_compact`. What is there is durable.
pub fn open_compact_under<V: Volume>(
    alloc: Global,
    config: &TwinConfig,
    volume: &mut V,
    cap: Option<u64>,
) -> Result<Compact, Error<Mmr>>
    // Of a log that stands for a good state, under a cap at or past what is durable, it is the state's at the last
    // applied size within the cap whose witness is kept.
    ensures opened { IfOk result (λ db. V.tells → let log = (V.state volume.old).log config.now.witness in
        (s : State Operation) (most : ℕ) → cap ≡ Some most → 1 ≤ most → s.durable ≤ most →
        IsGood meaning AnyList (λ (v : List ℕ). length v ≤ config.now.value_limit) plain_commit s →
        CompactStands mmr sha bytes_of meaning s.ops s.sizes s.prune s.durable log →
        let now = opened_at (names_in config.now) s (present (V.state volume.old)) (last_kept most log 1 0 s.sizes) in
        compact_kind.is_of (kept_of now) (present (V.state volume.new)) db) }
    // Over such a log and under such a cap it is refused by the volume or for want of memory alone.
    ensures standing { IfErr result (λ e. V.tells → (s : State Operation) (most : ℕ) → cap ≡ Some most → 1 ≤ most →
        s.durable ≤ most →
        IsGood meaning AnyList (λ (v : List ℕ). length v ≤ config.now.value_limit) plain_commit s →
        CompactStands mmr sha bytes_of meaning s.ops s.sizes s.prune s.durable
        ((V.state volume.old).log config.now.witness) → IsOutside e) }
    // Under such a cap, where each log that a crash leaves stands for the state, so it does at each moment of the call.
    ensures images { V.tells → let name = config.now.witness in (s : State Operation) (most : ℕ) →
        cap ≡ Some most → 1 ≤ most → s.durable ≤ most →
        IsGood meaning AnyList (λ (v : List ℕ). length v ≤ config.now.value_limit) plain_commit s →
        let stands = CompactStands mmr sha bytes_of meaning s.ops s.sizes s.prune s.durable in
        stands ((V.state volume.old).log name) → LogHas (V.state volume.old) name stands →
        LogKeeps name stands (V.state volume.old) (V.state volume.new) }
    // Whatever the volume holds, it fails by one of these alone; its log keeps a front that ends with a witness, or was
    // empty from 0 on and gets the first commit's.
    ensures errors { cap ≢ Some 0 → IfErr result
        (IsOpeningFault Sha256Digest mmr meaning (decoded_under config.now.value_limit) cap) }
    ensures witnesses { cap ≢ Some 0 → IfOk result (λ db. V.tells → KeepsWitnesses cap db.tip.witness.size
        ((V.state volume.old).log config.now.witness) ((V.state volume.new).log config.now.witness)) }
    // It has the configuration's blobs and codec, keeps no failed sync, and what is there is durable.
    ensures under { IfOk result (λ db. compact_kind.is_under config.now db) }
    ensures sound { IfOk result (λ db. compact_kind.is_sound db) }
    ensures durable { IfOk result (λ db. V.tells → compact_kind.is_synced db (V.state volume.new)) }
    ensures names { V.tells → NamesCall (compact_names config.now) (V.state volume.old) (V.state volume.new) }
    ensures same_names { IfOk result (λ db. compact_kind.names db ≡ compact_names config.now) }
    ensures changes { Changes V.tells Error.Volume (V.state volume.old) (V.state volume.new) result }
{
    let Ok(cfg) = compact_config(alloc, config) else {
        return Err(Error::Memory);
    };
    open_compact(alloc, volume, cfg, cap_of(cap))
}
