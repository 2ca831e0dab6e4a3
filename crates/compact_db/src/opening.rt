//! How a compact database is opened, from its log or at an imported state.
ghost use Rattle.std.specs.Prelude.{◌≡◌, ◌≢◌, ◌↔◌, ◌++◌, ◌∷◌, [], ◌+◌, List, length, map, false, Some, Ok, IfOk, IsErrOf, IsOkUnless};
ghost use Rattle.codec_base.specs.Parts.{whole};
ghost use Rattle.journal_base.specs.View.{seen_of, config_of, IsHeld};
ghost use Rattle.tree_shape.specs.Shape.{peaks};
ghost use Rattle.tree_shape.specs.Slow.{node_of};
ghost use Rattle.log_model.specs.Operations.{leaves_from};
ghost use Rattle.compact_db.specs.DbView.{IsOfList};
ghost use Rattle.chain_core.specs.declared.error.Error.TheVariants as error;
ghost use Rattle.compact_db.specs.Import.{journal_of, import_answer};
ghost use Rattle.compact_db.specs.Opening.{Opens};
ghost use Rattle.compact_db.specs.Rebuild.{RefusedOnlyAs};

use crate::rebuilding::restored;
use crate::{CompactConfig, CompactDb, CompactOperation, WitnessLog};
use chain_core::{DataFault, Error};
use codec_base::encode;
use journal_base::{Backing, BackingRecovery, JournalConfig, Recovery, VariableJournal};
use std::alloc::Global;
use tree_core::{Family, Hasher, Location, MAX_LEAVES};
use volume_base::Volume;
use witness_store::Witness;

/// Refuses a cap of 0 with `InvalidInitializationBound`.
fn check_bound<F: Family>(cap: &Option<Location<F>>) -> Result<(), Error<F>>
    ensures zero { IsErrOf result error.InvalidInitializationBound ↔ (cap.now ≡ Some 0) }
    ensures only { IsOkUnless result error.InvalidInitializationBound }
{
    match cap {
        Some(cap) if cap.as_u64() == 0 => Err(Error::InvalidInitializationBound),
        _ => Ok(()),
    }
}

impl<F: Family, O: CompactOperation, H: Hasher> CompactDb<F, O, H> {
    /// The database of a log that is being opened: at the witness that is selected, or at the first commit where the
    /// log is empty at 0. It refuses with `DataCorrupted(NoTip)` where it is empty past 0.
    fn opened_from<V: Volume>(
        alloc: Global,
        vol: &mut V,
        recovery: Recovery<Witness<F, H::Digest>>,
        codec: O::Cfg,
        cap: Option<Location<F>>,
    ) -> Result<Self, Error<F>>
        requires held { V.tells → IsHeld (seen_of recovery) (V.state vol.old) }
        requires fresh { (seen_of recovery).failed ≡ false }
        ensures codec { IfOk result (λ db. db.codec ≡ codec) }
        ensures opens { Opens F.shape H.hash O.meaning H.Digest.spelling (H.Digest.admits tt)
            (λ bytes. whole (O.reads codec bytes)) (O.admits codec) (seen_of recovery) cap V.tells
            (V.state vol.old) (V.state vol.new) result }
    {
        let (start, end) = recovery.bounds();
        if start < end {
            return Self::resumed(alloc, vol, recovery, codec, cap);
        }
        if start > 0 {
            return Err(Error::DataCorrupted(DataFault::NoTip));
        }
        Self::begun(alloc, vol, recovery, codec)
    }

    /// The database of a log under a cap other than 0.
    fn opened_under<V: Volume>(
        alloc: Global,
        vol: &mut V,
        cfg: CompactConfig<O::Cfg>,
        cap: Option<Location<F>>,
    ) -> Result<Self, Error<F>>
        ensures codec { IfOk result (λ db. db.codec ≡ cfg.commit_codec) }
        ensures opens { Opens F.shape H.hash O.meaning H.Digest.spelling (H.Digest.admits tt)
            (λ bytes. whole (O.reads cfg.commit_codec bytes)) (O.admits cfg.commit_codec) (config_of (journal_of cfg))
            cap
            V.tells (V.state vol.old) (V.state vol.new) result }
    {
        let journal = JournalConfig {
            name: cfg.witness,
            items_per_blob: cfg.items_per_blob,
            codec: (),
        };
        let recovery = VariableJournal::<Witness<F, H::Digest>>::recover(vol, journal, None)?;
        Self::opened_from(alloc, vol, recovery, cfg.commit_codec, cap)
    }

    /// The database of a log of witnesses, at the latest one whose size is within a cap, if there is one: it is
    /// verified, and then newer ones are cut off, and what is left is made durable. An empty log at 0 gets the witness
    /// of the first commit. Refuses, in this order: `InvalidInitializationBound` of a cap of 0, before the volume is
    /// called; `DataCorrupted(NoTip)` where the log is empty past 0; `HistoricalFloorPruned` where the first witness is
    /// above the cap; or as `rebuild`. Where the bytes of a witness on its way are none it is `Journal(Corruption)`.
    pub fn init<V: Volume>(
        alloc: Global,
        vol: &mut V,
        cfg: CompactConfig<O::Cfg>,
        max_size: Option<Location<F>>,
    ) -> Result<Self, Error<F>>
        ensures bound { max_size ≡ Some 0 → IsErrOf result Error.InvalidInitializationBound × (vol.new ≡ vol.old) }
        ensures codec { IfOk result (λ db. db.codec ≡ cfg.commit_codec) }
        ensures opens { max_size ≢ Some 0 → Opens F.shape H.hash O.meaning H.Digest.spelling (H.Digest.admits tt)
            (λ bytes. whole (O.reads cfg.commit_codec bytes)) (O.admits cfg.commit_codec) (config_of (journal_of cfg))
            max_size
            V.tells (V.state vol.old) (V.state vol.new) result }
    {
        check_bound(&max_size)?;
        Self::opened_under(alloc, vol, cfg, max_size)
    }

    /// The database of an imported state: a commit at a location, and the peaks of the tree before it. Nothing is
    /// written before its first write. Refuses, in this order: `UnexpectedData` of an operation that is no commit;
    /// `DataCorrupted(Witness)` of one that is earlier than its floor; `Merkle(LocationOverflow)` at or past
    /// `MAX_LEAVES`; `Merkle(InvalidPinnedNodes)` where there are more or fewer pins than peaks.
    pub fn import<V: Volume>(
        alloc: Global,
        _vol: &mut V,
        cfg: CompactConfig<O::Cfg>,
        last_commit_loc: Location<F>,
        pinned_nodes: Vec<H::Digest>,
        op: O,
    ) -> Result<Self, Error<F>>
        ensures may { IfOk result (λ db. import_answer {F = F} F.shape O.meaning last_commit_loc
            (length pinned_nodes.items) op ≡ Ok tt) }
        ensures refused { RefusedOnlyAs
            (import_answer {F = F} F.shape O.meaning last_commit_loc (length pinned_nodes.items) op) result }
        ensures log { IfOk result (λ db. db.log ≡ WitnessLog.Import (journal_of cfg)) }
        ensures size { IfOk result (λ db. db.tip.witness.size ≡ last_commit_loc + 1) }
        ensures commit { IfOk result (λ db. db.commit ≡ op) }
        ensures codec { IfOk result (λ db. db.codec ≡ cfg.commit_codec) }
        // Of whichever pins, its witness has these.
        ensures witness { IfOk result (λ db. db.tip.witness ≡
            record {
              op_bytes = O.meaning.encoding op;
              size = last_commit_loc + 1;
              pinned_nodes = pinned_nodes.items;
            }) }
        // It is the database of each list with this commit behind so many operations whose peaks these are.
        ensures list { IfOk result (λ db. (before : List O) → length before ≡ last_commit_loc →
            pinned_nodes.items ≡ map (node_of F.shape H.hash (leaves_from F.shape H.hash O.meaning 0 before))
            (peaks F.shape last_commit_loc) →
            IsOfList F.shape H.hash O.meaning (before ++ op ∷ []) db) }
        ensures still { _vol.new ≡ _vol.old }
    {
        let Some(floor) = op.commit_floor() else {
            return Err(Error::UnexpectedData(last_commit_loc));
        };
        let before = last_commit_loc.as_u64();
        if floor > before {
            return Err(Error::DataCorrupted(DataFault::Witness));
        }
        if before >= MAX_LEAVES {
            let overflow = tree_core::Error::LocationOverflow(last_commit_loc);
            return Err(Error::Merkle(overflow));
        }
        if pinned_nodes.len() as u64 != u64::from(F::peak_count(before)) {
            return Err(Error::Merkle(tree_core::Error::InvalidPinnedNodes));
        }
        let Ok(op_bytes) = encode(alloc, &op) else {
            return Err(Error::Memory);
        };
        let (tip, merkle) = restored::<F, H>(
            alloc,
            before,
            pinned_nodes,
            op_bytes,
            Location::new(floor),
        )?;
        let journal = JournalConfig {
            name: cfg.witness,
            items_per_blob: cfg.items_per_blob,
            codec: (),
        };
        Ok(CompactDb {
            alloc,
            log: WitnessLog::Import(journal),
            tip,
            merkle,
            last_commit: op,
            codec: cfg.commit_codec,
        })
    }
}
