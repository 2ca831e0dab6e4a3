//! Both databases of a volume, opened at one applied size.
ghost use Rattle.std.specs.Prelude.{◌≡◌, ℕ, List, take, Some, None, IfOk, IfErr};
ghost use Rattle.chain_core.specs.Answers.{IsOutside};
ghost use Rattle.log_model.specs.Machine.{State};
ghost use Rattle.merkle_full.specs.Full.{Rests};
ghost use Rattle.tree_shape.specs.Mmr.{mmr};
ghost use Rattle.volume_base.specs.Log.{Log};
ghost use Rattle.volume_base.specs.Moments.{present};
ghost use Rattle.volume_base.specs.Names.{NamesCall};
ghost use Rattle.volume_base.specs.Volume.{Changes};
ghost use Rattle.list_machine.specs.Operation.{Operation};
ghost use Rattle.list_machine.specs.Starts.{IsStart, full_names, opened_from, twin_names};
ghost use Rattle.twin_databases.specs.CompactKind.{compact_kind};
ghost use Rattle.twin_databases.specs.OpeningErrors.{IsOfFullOpening};
ghost use Rattle.twin_databases.specs.FullKind.{IsFullDbOf, full_kind, kept_full};
ghost use Rattle.twin_databases.specs.Reopening.{FollowsOperations, KeepsOperations, OpensAgain};
ghost use Rattle.twin_databases.specs.Standing.{KeepStanding, OpensGood, StandNow, settled_at};
ghost use Rattle.twin_run.specs.Faults.{IsCorrupt, IsOfOpenings, IsOwnFault};
ghost use Rattle.twin_run.specs.Standing.{TakesTo};
ghost use Rattle.twin_run.specs.Twins.{AreOpenedAs, AreSound, AreUnder};

use crate::agreement::check_same;
use crate::ending::{Fault, compact_fault, full_fault};
use chain_core::Error;
use list_machine::TwinConfig;
use std::alloc::Global;
use tree_shape::Mmr;
use twin_databases::{Compact, Full, open_compact_under, open_full_under};
use volume_base::Volume;

/// The full database itself where it is at this size, and else that which is opened under it.
fn lowered<V: Volume>(
    alloc: Global,
    config: &TwinConfig,
    volume: &mut V,
    full: Full,
    size: u64,
) -> Result<Full, Error<Mmr>>
    requires names { full_kind.names full ≡ full_names config.now }
    requires under { full_kind.is_under config.now full }
    requires sound { full_kind.is_sound full }
    requires rests { Rests mmr full.journal.tree }
    // Of a list that it holds and that opens again at this size, it is that of the first operations, so many.
    ensures opened { IfOk result (λ db. V.tells → (list : List Operation) (sizes : List ℕ) (start wstart : ℕ) →
        IsFullDbOf (kept_full list sizes start wstart) (present (V.state volume.old)) full →
        OpensAgain config.now start size list →
        IsFullDbOf (kept_full (take size list) sizes start wstart) (present (V.state volume.new)) db) }
    ensures standing { IfErr result (λ e. V.tells → (list : List Operation) (sizes : List ℕ) (start wstart : ℕ) →
        IsFullDbOf (kept_full list sizes start wstart) (present (V.state volume.old)) full →
        OpensAgain config.now start size list → IsOutside e) }
    // Whatever the volume holds, it fails by one of these alone. What a first opening has left of a log of operations
    // is then what an opening under this size leaves of that log.
    ensures errors { IfErr result (IsOfFullOpening (Some size)) }
    ensures operations { IfOk result (λ db. V.tells → (first : Log) → db.state.size ≡ size →
        KeepsOperations config.now.value_limit None full.state.size first
        ((V.state volume.old).log config.now.log) →
        KeepsOperations config.now.value_limit (Some size) size first ((V.state volume.new).log config.now.log)) }
    // Where whatever a crash leaves of its names stands for a good state of which no more is durable than this size, it
    // does so at each moment, whatever is answered. Where what it left stood for the state up to the full database's
    // size, and all of that was durable, it does so up to that of the database that is opened.
    ensures images { let now = config.now in V.tells → (s : State Operation) →
        OpensGood now.value_limit (Some size) s →
        KeepStanding now.log now.nodes now.metadata s (V.state volume.old) (V.state volume.new) }
    ensures settled { let now = config.now in IfOk result (λ db. V.tells → (s : State Operation) →
        OpensGood now.value_limit (Some size) s → StandNow now.log now.nodes now.metadata s (V.state volume.old) →
        StandNow now.log now.nodes now.metadata (settled_at s full.state.size) (V.state volume.old) →
        StandNow now.log now.nodes now.metadata (settled_at s db.state.size) (V.state volume.new)) }
    ensures under { IfOk result (λ db. full_kind.is_under config.now db) }
    ensures sound { IfOk result (λ db. full_kind.is_sound db) }
    ensures durable { IfOk result (λ db. V.tells → full_kind.is_synced full (V.state volume.old) →
        full_kind.is_synced db (V.state volume.new)) }
    ensures names { V.tells → NamesCall (full_names config.now) (V.state volume.old) (V.state volume.new) }
    ensures same_names { IfOk result (λ db. full_kind.names db ≡ full_names config.now) }
    ensures changes { Changes V.tells Error.Volume (V.state volume.old) (V.state volume.new) result }
{
    if size < full.commitment().size.as_u64() {
        open_full_under(alloc, config, volume, Some(size))
    } else {
        Ok(full)
    }
}

/// Opens the full database without a cap, then the compact one under the full one's size, and the full one again, where
/// the compact one is at a lesser size. Both are then at one size, and have one root. It fails with `Corrupt` where one
/// isn't opened for what the volume holds, or sizes or roots differ, with `Volume` where a call of the volume failed,
/// and with `Memory`.
pub fn realign<V: Volume>(
    alloc: Global,
    config: &TwinConfig,
    volume: &mut V,
) -> Result<(Full, Compact), Fault>
    // Whatever the volume holds, both have one size and one root.
    ensures equal { IfOk result (λ r. full_kind.state r.0 ≡ compact_kind.state r.1) }
    // Of contents that stand for a good state without batches, both are the databases of the state that is opened of
    // it: at the greatest applied size that the operation log reaches and whose witness is kept.
    ensures opened { IfOk result (λ r. V.tells → (s : State Operation) →
        IsStart config.now s (present (V.state volume.old)) →
        AreOpenedAs (opened_from config.now s (present (V.state volume.old))) (present (V.state volume.new)) r.0 r.1) }
    // Such contents aren't found to be no state.
    ensures corrupt { IfErr result (λ fault. V.tells → (s : State Operation) →
        IsStart config.now s (present (V.state volume.old)) → IsCorrupt fault → ⊥) }
    // Whatever a crash leaves up to a moment of it stands for such a state, and from that moment on for what is opened
    // of it; after an error that moment may not have come.
    ensures images { V.tells → (s : State Operation) → IsStart config.now s (present (V.state volume.old)) →
        TakesTo config.now s (opened_from config.now s (present (V.state volume.old))) (V.state volume.old)
        (V.state volume.new) result }
    ensures own { IfErr result IsOwnFault }
    // Whatever the volume holds, an error that is told of contents is one of that database's opening.
    ensures causes { IfErr result (IsOfOpenings V.tells config.now) }
    // And the log of operations keeps a front of what it has, up to its last commit within the one size; or it begins
    // at 0 and has none there, and gets the first commit. That of witnesses keeps a front whose last witness is within
    // what the operations allow, and the next one isn't, or there is none: the most, where their sizes rise. Or it was
    // empty from 0 on, and gets the first commit's. Neither is opened where it is empty past 0.
    ensures operations { IfOk result (λ r. V.tells → let size = (full_kind.state r.0).size in
        KeepsOperations config.now.value_limit (Some size) size
        ((V.state volume.old).log config.now.log) ((V.state volume.new).log config.now.log)) }
    ensures witnesses { IfOk result (λ r. V.tells → let log = (V.state volume.old).log in
        FollowsOperations config.now.value_limit (compact_kind.state r.1).size (log config.now.log)
        (log config.now.witness) ((V.state volume.new).log config.now.witness)) }
    ensures under { IfOk result (λ r. AreUnder config.now r.0 r.1) }
    ensures sound { IfOk result (λ r. AreSound r.0 r.1) }
    // Their logs are durable.
    ensures durable { IfOk result (λ r. V.tells →
        full_kind.is_synced r.0 (V.state volume.new) × compact_kind.is_synced r.1 (V.state volume.new)) }
    ensures names { V.tells → NamesCall (twin_names config.now) (V.state volume.old) (V.state volume.new) }
    ensures changes { Changes V.tells Fault.Volume (V.state volume.old) (V.state volume.new) result }
{
    config.names_apart();
    config.limit_within();
    let full = match open_full_under(alloc, config, volume, None) {
        Ok(full) => full,
        Err(error) => return Err(full_fault(error)),
    };
    let most = full.commitment().size.as_u64();
    let compact = match open_compact_under(alloc, config, volume, Some(most)) {
        Ok(compact) => compact,
        Err(error) => return Err(compact_fault(error)),
    };
    let size = compact.commitment().size.as_u64();
    let full = match lowered(alloc, config, volume, full, size) {
        Ok(full) => full,
        Err(error) => return Err(full_fault(error)),
    };
    match check_same(&full.commitment(), &compact.commitment()) {
        Ok(()) => Ok((full, compact)),
        Err(fault) => Err(fault),
    }
}
