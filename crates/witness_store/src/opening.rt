//! How a store begins: at a witness that is selected, or at an imported one.
ghost use Rattle.std.specs.Prelude.{◌≡◌, ◌≤◌, ◌<◌, ◌-◌, ◌^◌, ℕ, List, [], ◌∷◌, ◌++◌, length, min, take, true, IfOk, IfErr, OnOk, IsErrOf};
ghost use Rattle.journal_base.specs.Answers.{IsOfStart, IsOfSize, RefusesUnwritten};
ghost use Rattle.journal_base.specs.View.{seen_of, config_of, log_of, SameButBounds, IsDurable, IsHeld};
ghost use Rattle.volume_base.specs.Log.{end_of, cleared_at, appended, cut_to, Shrinks};
ghost use Rattle.volume_base.specs.Moments.{LogHas, LogKeeps};
ghost use Rattle.volume_base.specs.Volume.{LogCall, Writes, WritesLog};
ghost use Rattle.volume_base.specs.declared.error.JournalError.TheVariants.{ItemPruned, SizeOverflow, Volume};
ghost use Rattle.witness_store.specs.StoreView.{HasWitnesses, import_place, IsRestarted, Restarts};
ghost use Rattle.witness_store.specs.Witness.{text_of, IsAllowed};
ghost use Rattle.witness_store.specs.Witnesses.{witnesses_of, Keeps};

use crate::{Store, Witness};
use journal_base::{Backing, BackingRecovery, JournalConfig, Mutable, Recovery, VariableJournal};
use tree_shape::{Digest, Family};
use volume_base::{JournalError, Volume};

impl<F: Family, D: Digest> Store<F, D> {
    /// The store of the witnesses before an end: those from it on are cut off, and what is left is made durable. It refuses
    /// an end below the log's start with `ItemPruned`.
    pub fn open<V: Volume>(
        recovery: Recovery<Witness<F, D>>,
        vol: &mut V,
        end: u64,
    ) -> Result<Self, JournalError>
        ensures pruned { let start = (log_of (seen_of recovery) (V.state vol.old)).start in
            (p : ℕ) → IsErrOf result (ItemPruned p) → (p ≡ end) × (V.tells → end < start) }
        ensures reached { OnOk result (V.tells → (log_of (seen_of recovery) (V.state vol.old)).start ≤ end) }
        ensures made { IfOk result (λ made. SameButBounds (seen_of recovery) made.log × (made.uncommitted ≡ made.log.failed)) }
        ensures held { IfOk result (λ made. V.tells → IsHeld made.log (V.state vol.new)) }
        ensures cut { OnOk result (V.tells →
            log_of (seen_of recovery) (V.state vol.new) ≡ cut_to (log_of (seen_of recovery) (V.state vol.old)) end) }
        // Where the log keeps the witnesses of a list, it keeps those of the list before the end.
        ensures keeps { let items = witnesses_of D.spelling (D.admits tt) (seen_of recovery) in
            OnOk result (V.tells → (ws : List (Witness F D)) →
            Keeps (items (V.state vol.old)) ws → Keeps (items (V.state vol.new)) (take end ws)) }
        ensures durable { OnOk result (V.tells → IsDurable (seen_of recovery) (V.state vol.new)) }
        // Where nothing durable is cut off, at each moment a crash leaves a part of the list within the bounds of before.
        ensures images { let name = (seen_of recovery).name in
            V.tells → (ws : List (Witness F D)) (greatest least : ℕ) → least ≤ end →
            LogHas (V.state vol.old) name (HasWitnesses D.spelling ws greatest least) →
            LogKeeps name (HasWitnesses D.spelling ws greatest least) (V.state vol.old) (V.state vol.new) }
        ensures refused { RefusesUnwritten (V.state vol.old) (V.state vol.new) result }
        ensures errors { IfErr result IsOfStart }
        ensures call { let step = Shrinks (min end (end_of (log_of (seen_of recovery) (V.state vol.old)))) in
            WritesLog V.tells Volume (seen_of recovery).name step (V.state vol.old) (V.state vol.new) result }
    {
        let journal = recovery.finish(vol, end)?;
        let uncommitted = journal.keeps_failure();
        Ok(Store {
            journal,
            uncommitted,
        })
    }

    /// The first write after an import: the log is cleared, at its end or at 1 where that is 0, and the witness stands there
    /// alone. It refuses with `SizeOverflow` where the log's end is 2^64 - 1.
    pub fn write_import<V: Volume>(
        vol: &mut V,
        cfg: JournalConfig<()>,
        witness: &Witness<F, D>,
    ) -> Result<Self, JournalError>
        ensures overflow { let end = end_of (log_of (config_of cfg) (V.state vol.old)) in
            V.tells → IsErrOf result SizeOverflow → end ≡ 2 ^ 64 - 1 }
        ensures fits { OnOk result (V.tells → end_of (log_of (config_of cfg) (V.state vol.old)) < 2 ^ 64 - 1) }
        ensures made { IfOk result (λ made. SameButBounds (config_of cfg) made.log × (made.uncommitted ≡ true)) }
        ensures held { IfOk result (λ made. V.tells → IsHeld made.log (V.state vol.new)) }
        ensures written { let place = import_place (end_of (log_of (config_of cfg) (V.state vol.old))) in
            OnOk result (V.tells → log_of (config_of cfg) (V.state vol.new) ≡
            appended (cleared_at place) (text_of D.spelling witness.now ∷ [])) }
        // It is then the log of any witnesses before that place, and this one.
        ensures keeps { let place = import_place (end_of (log_of (config_of cfg) (V.state vol.old))) in
            let items = witnesses_of D.spelling (D.admits tt) (config_of cfg) (V.state vol.new) in
            OnOk result (V.tells → (ws : List (Witness F D)) → length ws ≡ place →
            IsAllowed (D.admits tt) witness.now → Keeps items (ws ++ witness.now ∷ [])) }
        // Each image is one of before, the empty log at the place, or that with the witness.
        ensures log { let place = import_place (end_of (log_of (config_of cfg) (V.state vol.old))) in
            let step = Restarts place (text_of D.spelling witness.now) in
            V.tells → LogCall (config_of cfg).name step (V.state vol.old) (V.state vol.new) }
        // After Ok none of before is left.
        ensures left { let place = import_place (end_of (log_of (config_of cfg) (V.state vol.old))) in
            OnOk result (V.tells →
            LogHas (V.state vol.new) (config_of cfg).name (IsRestarted place (text_of D.spelling witness.now))) }
        ensures refused { V.tells → RefusesUnwritten (V.state vol.old) (V.state vol.new) result }
        ensures errors { IfErr result IsOfSize }
        ensures writes { Writes V.tells Volume (V.state vol.old) (V.state vol.new) result }
    {
        let (_, end) = VariableJournal::<Witness<F, D>>::span(vol, &cfg)?;
        let journal = VariableJournal::<Witness<F, D>>::cleared(vol, cfg, end.max(1))?;
        let store = Store {
            journal,
            uncommitted: true,
        };
        store.append(vol, witness)
    }
}
