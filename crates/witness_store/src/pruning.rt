//! Witnesses that are dropped.
ghost use Rattle.std.specs.Prelude.{◌≡◌, ℕ, List, length, min, max, true, false, IfOk, IfErr, OnOk, IsErrOf};
ghost use Rattle.journal_base.specs.Answers.{IsOfRead, IsOfVolume};
ghost use Rattle.journal_base.specs.Blobs.{blob_start};
ghost use Rattle.journal_base.specs.Items.{IsCorrupt};
ghost use Rattle.journal_base.specs.View.{view_of, log_of, prune_point, SameButBounds, IsDurable, IsHeld};
ghost use Rattle.volume_base.specs.Log.{end_of, pruned_to, Advances};
ghost use Rattle.volume_base.specs.Moments.{LogHas, LogLeft, Steps};
ghost use Rattle.volume_base.specs.Names.{log_alone, NamesCall};
ghost use Rattle.volume_base.specs.Volume.{Changes, LogCall, Reads, Writes};
ghost use Rattle.volume_base.specs.declared.error.JournalError.TheVariants.{ItemPruned, ItemOutOfRange, Corruption, Volume};
ghost use Rattle.witness_store.specs.StoreView.{IsSettled, HasWitnesses};
ghost use Rattle.witness_store.specs.Witnesses.{witnesses_of, Keeps, kept_from};

use crate::{Found, Store, Witness, first_at_or_above};
use journal_base::{Contiguous, Mutable, VariableJournal};
use tree_shape::{Digest, Family, Location};
use volume_base::{JournalError, Volume};

/// From where on a prune keeps all: the first witness of at least so many operations, or the last one.
fn kept_start<F: Family, D: Digest, V: Volume>(
    journal: &VariableJournal<Witness<F, D>>,
    vol: &mut V,
    boundary: Location<F>,
) -> Result<u64, JournalError>
    ensures place { let view = view_of journal.now in
        let items = witnesses_of D.spelling (D.admits tt) view (V.state vol.old) in
        IfOk result (λ least. V.tells → IsHeld view (V.state vol.old) → (ws : List (Witness F D)) → Keeps items ws →
        min least (end_of items.log) ≡ kept_from ws view.start boundary) }
    ensures not_pruned { V.tells → IsHeld (view_of journal.now) (V.state vol.old) →
        (p : ℕ) → IsErrOf result (ItemPruned p) → ⊥ }
    ensures not_out_of_range { V.tells → IsHeld (view_of journal.now) (V.state vol.old) →
        (p : ℕ) → IsErrOf result (ItemOutOfRange p) → ⊥ }
    ensures corrupt { let view = view_of journal.now in
        let items = witnesses_of {F = F} D.spelling (D.admits tt) view (V.state vol.old) in
        (p : ℕ) → IsErrOf result (Corruption p) → V.tells → IsCorrupt items p }
    ensures errors { IfErr result IsOfRead }
    ensures answers { Reads V.tells Volume (V.state vol.old) (V.state vol.new) result }
{
    let found = first_at_or_above(journal, vol, boundary)?;
    let (_, end) = journal.bounds();
    let Found {
        position,
        before: _,
        here: _,
    } = found;
    Ok(position.min(end.max(1) - 1))
}

/// Drops whole blobs below a position, and makes the new start durable.
fn drop_to<F: Family, D: Digest, V: Volume>(
    journal: VariableJournal<Witness<F, D>>,
    vol: &mut V,
    least: u64,
) -> Result<VariableJournal<Witness<F, D>>, JournalError>
    requires { (view_of journal).failed ≡ false }
    ensures made { IfOk result (λ made. SameButBounds (view_of journal) (view_of made)) }
    ensures held { IfOk result (λ made. V.tells → IsHeld (view_of made) (V.state vol.new)) }
    ensures pruned { let view = view_of journal in
        OnOk result (V.tells → log_of view (V.state vol.new) ≡
        pruned_to (log_of view (V.state vol.old)) (prune_point view least (V.state vol.old))) }
    ensures durable { OnOk result (V.tells → IsDurable (view_of journal) (V.state vol.new)) }
    ensures log { let step = Advances (prune_point (view_of journal) least (V.state vol.old)) in
        V.tells → LogCall (view_of journal).name step (V.state vol.old) (V.state vol.new) }
    ensures errors { IfErr result IsOfVolume }
    ensures writes { Writes V.tells Volume (V.state vol.old) (V.state vol.new) result }
{
    let (journal, _) = journal.prune(vol, least)?;
    let journal = journal.sync(vol)?;
    Ok(journal)
}

/// Drops whole blobs of witnesses of fewer operations, and never the last witness, and makes the new start durable.
fn drop_below<F: Family, D: Digest, V: Volume>(
    journal: VariableJournal<Witness<F, D>>,
    vol: &mut V,
    boundary: Location<F>,
) -> Result<VariableJournal<Witness<F, D>>, JournalError>
    requires { (view_of journal).failed ≡ false }
    ensures made { IfOk result (λ made. SameButBounds (view_of journal) (view_of made)) }
    ensures held { IfOk result (λ made. V.tells → IsHeld (view_of made) (V.state vol.new)) }
    ensures pruned { let view = view_of journal in
        let items = witnesses_of D.spelling (D.admits tt) view (V.state vol.old) in
        OnOk result (V.tells → IsHeld view (V.state vol.old) → (ws : List (Witness F D)) → Keeps items ws →
        log_of view (V.state vol.new) ≡
        pruned_to items.log (blob_start view.blob (kept_from ws view.start boundary))) }
    ensures durable { OnOk result (V.tells → IsDurable (view_of journal) (V.state vol.new)) }
    ensures names { V.tells → NamesCall (log_alone (view_of journal).name) (V.state vol.old) (V.state vol.new) }
    ensures log { let view = view_of journal in
        let items = witnesses_of D.spelling (D.admits tt) view (V.state vol.old) in
        V.tells → IsHeld view (V.state vol.old) → (ws : List (Witness F D)) → Keeps items ws →
        LogCall view.name (Advances (blob_start view.blob (kept_from ws view.start boundary)))
        (V.state vol.old) (V.state vol.new) }
    ensures not_pruned { V.tells → IsHeld (view_of journal) (V.state vol.old) →
        (p : ℕ) → IsErrOf result (ItemPruned p) → ⊥ }
    ensures not_out_of_range { V.tells → IsHeld (view_of journal) (V.state vol.old) →
        (p : ℕ) → IsErrOf result (ItemOutOfRange p) → ⊥ }
    ensures corrupt { let items = witnesses_of {F = F} D.spelling (D.admits tt) (view_of journal) (V.state vol.old) in
        (p : ℕ) → IsErrOf result (Corruption p) → V.tells → IsCorrupt items p }
    ensures errors { IfErr result IsOfRead }
    ensures changes { Changes V.tells Volume (V.state vol.old) (V.state vol.new) result }
{
    let least = kept_start(&journal, vol, boundary)?;
    let journal = drop_to(journal, vol, least)?;
    Ok(journal)
}

impl<F: Family, D: Digest> Store<F, D> {
    /// Drops whole blobs of witnesses of fewer operations, and never the last witness. All are durable before, and the new
    /// start behind it. Where a failed sync is kept it refuses with `Volume`, and bytes on its way to the first witness that
    /// stays that are no witness with `Corruption`.
    pub fn prune<V: Volume>(self, vol: &mut V, boundary: Location<F>) -> Result<Self, JournalError>
        ensures kept { self.log.failed ≡ true → IsErrOf result Volume × (vol.new ≡ vol.old) }
        ensures made { IfOk result (λ made. SameButBounds self.log made.log × (made.uncommitted ≡ false)) }
        ensures held { IfOk result (λ made. V.tells → IsHeld made.log (V.state vol.new)) }
        ensures pruned { let items = witnesses_of D.spelling (D.admits tt) self.log (V.state vol.old) in
            OnOk result (V.tells → IsHeld self.log (V.state vol.old) → (ws : List (Witness F D)) → Keeps items ws →
            log_of self.log (V.state vol.new) ≡
            pruned_to items.log (blob_start self.log.blob (kept_from ws self.log.start boundary))) }
        // The log keeps the witnesses of the same list.
        ensures keeps { let items = witnesses_of D.spelling (D.admits tt) self.log in
            OnOk result (V.tells → IsHeld self.log (V.state vol.old) → (ws : List (Witness F D)) →
            Keeps (items (V.state vol.old)) ws → Keeps (items (V.state vol.new)) ws) }
        ensures durable { OnOk result (V.tells → IsDurable self.log (V.state vol.new)) }
        ensures names { V.tells → NamesCall (log_alone self.log.name) (V.state vol.old) (V.state vol.new) }
        // Up to a turn a crash leaves what it left, and from it on all witnesses but for a front.
        ensures images { let name = self.log.name in
            let items = witnesses_of D.spelling (D.admits tt) self.log (V.state vol.old) in
            V.tells → IsHeld self.log (V.state vol.old) → IsSettled self (V.state vol.old) →
            (ws : List (Witness F D)) (greatest least : ℕ) → Keeps items ws →
            LogHas (V.state vol.old) name (HasWitnesses D.spelling ws greatest least) →
            Steps (LogLeft name) (HasWitnesses D.spelling ws greatest least)
            (HasWitnesses D.spelling ws (max greatest (kept_from ws self.log.start boundary)) (length ws))
            (V.state vol.old) (V.state vol.new) result }
        ensures not_pruned { V.tells → IsHeld self.log (V.state vol.old) →
            (p : ℕ) → IsErrOf result (ItemPruned p) → ⊥ }
        ensures not_out_of_range { V.tells → IsHeld self.log (V.state vol.old) →
            (p : ℕ) → IsErrOf result (ItemOutOfRange p) → ⊥ }
        ensures corrupt { let items = witnesses_of {F = F} D.spelling (D.admits tt) self.log (V.state vol.old) in
            (p : ℕ) → IsErrOf result (Corruption p) → V.tells → IsCorrupt items p }
        ensures errors { IfErr result IsOfRead }
        ensures changes { self.log.failed ≡ false →
            Changes V.tells Volume (V.state vol.old) (V.state vol.new) result }
    {
        let store = self.commit(vol)?;
        let journal = drop_below(store.journal, vol, boundary)?;
        Ok(Store {
            journal,
            uncommitted: false,
        })
    }
}
