//! How a compact database drops witnesses, and is taken away.
ghost use Rattle.std.specs.Prelude.{◌≡◌, ℕ, List, length, map, max, true, false, IfOk, IfErr, OnOk, IsErrOf};
ghost use Rattle.journal_base.specs.Blobs.{blob_start};
ghost use Rattle.journal_base.specs.View.{log_of, left_of, SameButBounds, IsDurable, IsHeld};
ghost use Rattle.volume_base.specs.Log.{no_log, pruned_to, Vanishes};
ghost use Rattle.volume_base.specs.Moments.{LogHas, LogLeft, Steps};
ghost use Rattle.volume_base.specs.Names.{log_alone, NamesCall};
ghost use Rattle.volume_base.specs.Volume.{OnlyLeft, Changes, LogCall, Writes};
ghost use Rattle.chain_core.specs.Answers.{IsOutside};
ghost use Rattle.chain_core.specs.declared.error.DataFault.TheVariants as fault;
ghost use Rattle.witness_store.specs.StoreView.{HasWitnesses};
ghost use Rattle.witness_store.specs.Witnesses.{witnesses_of, kept_from};
ghost use Rattle.compact_db.specs.DbView.{seen_log, waits, is_uncommitted};
ghost use Rattle.compact_db.specs.Held.{IsHeldFor, SameState};
ghost use Rattle.compact_db.specs.Serving.{IsLogFault};
ghost use Rattle.compact_db.specs.WitnessOf.{witness_of};
ghost use Rattle.compact_db.specs.Writing.{IsSettledLog};

use crate::durable::removed;
use crate::{CompactDb, CompactOperation, WitnessLog};
use chain_core::{DataFault, Error};
use tree_core::{Family, Hasher, Location};
use volume_base::Volume;

impl<F: Family, O: CompactOperation, H: Hasher> CompactDb<F, O, H> {
    /// Drops whole blobs of witnesses of fewer operations, and never the last witness. All are durable before, and the
    /// new start behind it. It refuses with `DataCorrupted(ImportNotApplied)` where an import waits, and with `Volume`
    /// where a failed sync is kept. Where the bytes of a witness on its way are none it is `Journal(Corruption)`.
    pub fn prune<V: Volume>(self, vol: &mut V, boundary: Location<F>) -> Result<Self, Error<F>>
        ensures kept { (seen_log self.log).failed ≡ true → IsErrOf result Error.Volume × (vol.new ≡ vol.old) }
        ensures waiting { waits self.log ≡ true →
            IsErrOf result (Error.DataCorrupted fault.ImportNotApplied) × (vol.new ≡ vol.old) }
        ensures waiting_only { IsErrOf result (Error.DataCorrupted fault.ImportNotApplied) → waits self.log ≡ true }
        ensures same { IfOk result (SameState self) }
        ensures log { IfOk result (λ made. SameButBounds (seen_log self.log) (seen_log made.log)) }
        ensures bounds { IfOk result (λ made. V.tells → IsHeld (seen_log made.log) (V.state vol.new)) }
        ensures opened { IfOk result (λ made. waits made.log ≡ false) }
        ensures committed { IfOk result (λ made. is_uncommitted made.log ≡ false) }
        // The witnesses stay those of the list, but for a front.
        ensures held { IfOk result (λ made. V.tells → (ops : List O) (sizes : List ℕ) →
            IsHeldFor F.shape H.hash O.meaning H.Digest.spelling (H.Digest.admits tt) ops sizes self (V.state vol.old) →
            IsHeldFor F.shape H.hash O.meaning H.Digest.spelling (H.Digest.admits tt) ops sizes made
            (V.state vol.new)) }
        ensures pruned { let log = seen_log self.log in OnOk result (V.tells → (ops : List O) (sizes : List ℕ) →
            IsHeldFor F.shape H.hash O.meaning H.Digest.spelling (H.Digest.admits tt) ops sizes self (V.state vol.old) →
            log_of log (V.state vol.new) ≡ pruned_to (log_of log (V.state vol.old))
            (blob_start log.blob (kept_from (map (witness_of {F = F} F.shape H.hash O.meaning ops) sizes) log.start
            boundary))) }
        ensures durable { OnOk result (V.tells → IsDurable (seen_log self.log) (V.state vol.new)) }
        ensures names { V.tells → NamesCall (log_alone (seen_log self.log).name) (V.state vol.old) (V.state vol.new) }
        // Up to a turn a crash leaves what it left, and from it on all witnesses but for a front.
        ensures images { let name = (seen_log self.log).name in
            V.tells → IsSettledLog self.log (V.state vol.old) → (ops : List O) (sizes : List ℕ) (greatest least : ℕ) →
            IsHeldFor F.shape H.hash O.meaning H.Digest.spelling (H.Digest.admits tt) ops sizes self (V.state vol.old) →
            let ws = map (witness_of {F = F} F.shape H.hash O.meaning ops) sizes in
            LogHas (V.state vol.old) name (HasWitnesses H.Digest.spelling ws greatest least) →
            Steps (LogLeft name) (HasWitnesses H.Digest.spelling ws greatest least)
            (HasWitnesses H.Digest.spelling ws (max greatest (kept_from ws (seen_log self.log).start boundary))
            (length ws))
            (V.state vol.old) (V.state vol.new) result }
        ensures outside { waits self.log ≡ false → V.tells → (ops : List O) (sizes : List ℕ) →
            IsHeldFor F.shape H.hash O.meaning H.Digest.spelling (H.Digest.admits tt) ops sizes self (V.state vol.old) →
            IfErr result IsOutside }
        // On any contents an error is one of a read of the log.
        ensures fault { let view = seen_log self.log in
            let items = witnesses_of {F = F} H.Digest.spelling (H.Digest.admits tt) view (V.state vol.old) in
            waits self.log ≡ false → IfErr result (IsLogFault V.tells (IsHeld view (V.state vol.old)) items) }
        ensures changes { (seen_log self.log).failed ≡ false →
            Changes V.tells Error.Volume (V.state vol.old) (V.state vol.new) result }
    {
        let CompactDb {
            alloc,
            log,
            tip,
            merkle,
            last_commit,
            codec,
        } = self;
        match log {
            WitnessLog::Open(store) => {
                let store = store.prune(vol, boundary)?;
                Ok(CompactDb {
                    alloc,
                    log: WitnessLog::Open(store),
                    tip,
                    merkle,
                    last_commit,
                    codec,
                })
            }
            WitnessLog::Import(_) => Err(Error::DataCorrupted(DataFault::ImportNotApplied)),
        }
    }

    /// Takes the witness log away.
    pub fn destroy<V: Volume>(self, vol: &mut V) -> Result<(), Error<F>>
        ensures removed { OnOk result (V.tells → log_of (seen_log self.log) (V.state vol.new) ≡ no_log) }
        ensures durable { OnOk result (V.tells → OnlyLeft (left_of (seen_log self.log) (V.state vol.new)) no_log) }
        ensures log { V.tells → LogCall (seen_log self.log).name Vanishes (V.state vol.old) (V.state vol.new) }
        ensures errors { IfErr result IsOutside }
        ensures writes { Writes V.tells Error.Volume (V.state vol.old) (V.state vol.new) result }
    {
        removed(self.log, vol)?;
        Ok(())
    }
}
