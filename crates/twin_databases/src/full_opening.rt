//! How the full side of the run is opened.
ghost use Rattle.std.specs.Prelude.{◌≡◌, ◌≢◌, ◌<◌, ℕ, List, Some, IfOk, IfErr, IsErr, string_bytes};
ghost use Rattle.std.specs.NonZero.{non_zero_u64_get};
ghost use Rattle.chain_core.specs.Answers.{IsOutside};
ghost use Rattle.volume_base.specs.Moments.{present};
ghost use Rattle.volume_base.specs.Names.{NamesCall};
ghost use Rattle.volume_base.specs.Volume.{Changes};
ghost use Rattle.tree_shape.specs.Mmr.{mmr};
ghost use Rattle.merkle_full.specs.Full.{Rests};
ghost use Rattle.log_model.specs.Machine.{State};
ghost use Rattle.list_machine.specs.Operation.{Operation};
ghost use Rattle.list_machine.specs.Starts.{full_names};
ghost use Rattle.twin_databases.specs.OpeningErrors.{IsOfFullOpening};
ghost use Rattle.twin_databases.specs.FullKind.{IsFullDbOf, IsFullStart, full_end, full_kind, kept_full, opened_list};
ghost use Rattle.twin_databases.specs.Reopening.{KeepsOperations};
ghost use Rattle.twin_databases.specs.Standing.{KeepStanding, OpensGood, StandNow, settled_at};

use crate::compact_opening::cap_of;
use crate::full_side::{Full, open_full};
use chain_core::Error;
use codec_base::LengthCfg;
use journal_base::JournalConfig;
use keyless_db::variable;
use list_machine::TwinConfig;
use std::alloc::{AllocError, Global};
use tree_shape::Mmr;
use volume_base::Volume;

/// What a configuration of the run is for the full database: its names, its blobs, how many operations are replayed
/// at a time, and values of at most its limit.
fn full_config(
    alloc: Global,
    config: &TwinConfig,
) -> Result<variable::Config<LengthCfg>, AllocError>
    ensures log { IfOk result (λ c. string_bytes c.log.name ≡ config.now.log) }
    ensures nodes { IfOk result (λ c. string_bytes c.merkle.nodes ≡ config.now.nodes) }
    ensures metadata { IfOk result (λ c. string_bytes c.merkle.metadata ≡ config.now.metadata) }
    ensures blob { IfOk result (λ c. non_zero_u64_get c.log.items_per_blob ≡ config.now.log_blob) }
    ensures node_blob { IfOk result (λ c. non_zero_u64_get c.merkle.items_per_blob ≡ config.now.node_blob) }
    ensures apply_batch { IfOk result (λ c. non_zero_u64_get c.apply_batch ≡ config.now.apply_batch) }
    ensures codec { IfOk result (λ c. c.log.codec ≡ record { max = config.now.value_limit }) }
{
    let merkle = merkle_full::Config {
        nodes: String::from_str(alloc, config.nodes())?,
        items_per_blob: config.node_blob(),
        metadata: String::from_str(alloc, config.metadata())?,
    };
    let log = JournalConfig {
        name: String::from_str(alloc, config.log())?,
        items_per_blob: config.log_blob(),
        codec: LengthCfg {
            max: config.value_limit(),
        },
    };
    Ok(keyless_db::Config {
        merkle,
        log,
        apply_batch: config.apply_batch(),
    })
}

/// The full database under a configuration, at the last commit within a cap; or at the last of all. A log that holds
/// nothing gets the first commit. It refuses as `Keyless::init`, a cap of 0 with `InvalidInitializationBound` among it.
pub fn open_full_under<V: Volume>(
    alloc: Global,
    config: &TwinConfig,
    volume: &mut V,
    cap: Option<u64>,
) -> Result<Full, Error<Mmr>>
    // A cap of 0 is refused, and leaves the volume.
    ensures bound { cap ≡ Some 0 → IsErr result × (volume.new ≡ volume.old) }
    // Of contents that stand for a list, it is the list's up to the last commit within the cap; where there is none,
    // that of the first commit alone. The log begins where it did.
    ensures opened { let old = present (V.state volume.old) in
        IfOk result (λ db. V.tells → (list : List Operation) (sizes : List ℕ) (wstart : ℕ) →
        IsFullStart config.now old cap list →
        let start = (old.log config.now.log).start in
        IsFullDbOf (kept_full (opened_list (full_end cap list) list) sizes start wstart)
        (present (V.state volume.new)) db) }
    // And it is refused by the volume or for want of memory alone.
    ensures standing { cap ≢ Some 0 → let old = present (V.state volume.old) in
        IfErr result (λ e. V.tells → (list : List Operation) → IsFullStart config.now old cap list → IsOutside e) }
    // Whatever the volume holds, it fails by one of these alone; the log of operations keeps a front of what it has, or
    // begins at 0 and gets the first commit.
    ensures errors { IfErr result (IsOfFullOpening cap) }
    ensures operations { IfOk result (λ db. V.tells → KeepsOperations config.now.value_limit cap db.state.size
        ((V.state volume.old).log config.now.log) ((V.state volume.new).log config.now.log)) }
    // Where whatever a crash leaves of its names stands for a good state of which no more is durable than the cap
    // allows, it does so at each moment, whatever is answered. What is then left stands for the state up to the commit,
    // and all of that is durable.
    ensures images { let now = config.now in V.tells → (s : State Operation) → OpensGood now.value_limit cap s →
        KeepStanding now.log now.nodes now.metadata s (V.state volume.old) (V.state volume.new) }
    ensures settled { let now = config.now in IfOk result (λ db. V.tells → (s : State Operation) →
        OpensGood now.value_limit cap s → StandNow now.log now.nodes now.metadata s (V.state volume.old) →
        StandNow now.log now.nodes now.metadata (settled_at s db.state.size) (V.state volume.new)) }
    // It has the configuration's blobs and limit, keeps no failed sync, has an operation, its memory is at rest, and
    // both logs are durable.
    ensures under { IfOk result (λ db. full_kind.is_under config.now db) }
    ensures sound { IfOk result (λ db. full_kind.is_sound db) }
    ensures some { IfOk result (λ db. 0 < db.state.size) }
    ensures rests { IfOk result (λ db. Rests mmr db.journal.tree) }
    ensures durable { IfOk result (λ db. V.tells → full_kind.is_synced db (V.state volume.new)) }
    ensures names { V.tells → NamesCall (full_names config.now) (V.state volume.old) (V.state volume.new) }
    ensures same_names { IfOk result (λ db. full_kind.names db ≡ full_names config.now) }
    ensures changes { Changes V.tells Error.Volume (V.state volume.old) (V.state volume.new) result }
{
    let Ok(cfg) = full_config(alloc, config) else {
        return Err(Error::Memory);
    };
    config.names_apart();
    open_full(alloc, volume, cfg, cap_of(cap))
}
