ghost use Rattle.std.specs.Prelude.{◌≡◌, ◌↔◌, ◌⊎◌, ◌+◌, ◌-◌, ◌<◌, ◌≤◌, ◌^◌, List, [], ◌∷◌, ◌++◌, map, length, true, false, IsTrue, IfOk, IfErr, OnOk, IsErrOf};
ghost use Rattle.codec_base.specs.Causes.{Rose};
ghost use Rattle.journal_base.specs.Items.{Spells};
ghost use Rattle.journal_base.specs.Tickets.{is_failed, outcome};
ghost use Rattle.journal_base.specs.Answers.{IsOfVolume, IsOfSize, IsOfAppend, RefusesUnwritten};
ghost use Rattle.journal_base.specs.View.{log_of, left_of, prune_point, SameButBounds, after_sync, SameLog, IsDurable, IsHeld};
ghost use Rattle.volume_base.specs.Log.{end_of, no_log, appended, pruned_to, Grows, Advances, Vanishes, Stays};
ghost use Rattle.volume_base.specs.Volume.{OnlyLeft, LogCall, Writes, Changes};
ghost use Rattle.volume_base.specs.declared.error.JournalError.TheVariants.{EmptyAppend, SizeOverflow, Volume};

use crate::{Contiguous, SyncTicket};
use volume_base::{JournalError, Volume};

/// A run of items that can be changed. What is said of one log alone has that as its premise.
pub trait Mutable: Contiguous {
    /// Whether it is one log alone.
    ghost one_log: { Type 0 };

    /// Whether it keeps a failed sync. `commit`, `sync`, `start_sync` and `prune` refuse then.
    fn keeps_failure(&self) -> bool
        ensures { result ≡ (Self.view self.now).failed };

    /// Adds an item behind the end, and answers its position. It refuses with `SizeOverflow` where the end would
    /// pass 2^64 - 1.
    fn append<V: Volume>(self, vol: &mut V, item: &Self::Item) -> Result<(Self, u64), JournalError>
        ensures overflow { let end = end_of (log_of (Self.view self) (V.state vol.old)) in
            V.tells → IsErrOf result SizeOverflow → end ≡ 2 ^ 64 - 1 }
        ensures fits { OnOk result (V.tells → end_of (log_of (Self.view self) (V.state vol.old)) < 2 ^ 64 - 1) }
        ensures position { IfOk result (λ made. V.tells → made.1 ≡ end_of (log_of (Self.view self) (V.state vol.old))) }
        ensures made { IfOk result (λ made. SameButBounds (Self.view self) (Self.view made.0)) }
        ensures held { IfOk result (λ made. V.tells → IsHeld (Self.view made.0) (V.state vol.new)) }
        ensures appended { let log = log_of (Self.view self) (V.state vol.old) in
            OnOk result (V.tells →
            log_of (Self.view self) (V.state vol.new) ≡ appended log (Self.Item.spelling item.now ∷ [])) }
        ensures listed { OnOk result (V.tells → (list : List Self.Item) →
            Spells Self.Item.spelling list (log_of (Self.view self) (V.state vol.old)) →
            Spells Self.Item.spelling (list ++ item.now ∷ []) (log_of (Self.view self) (V.state vol.new))) }
        ensures log { let texts = Self.Item.spelling item.now ∷ [] in
            let step = Grows (log_of (Self.view self) (V.state vol.old)) texts in
            one_log → V.tells → LogCall (Self.view self).name step (V.state vol.old) (V.state vol.new) }
        ensures refused { RefusesUnwritten (V.state vol.old) (V.state vol.new) result }
        ensures errors { one_log → IfErr result IsOfSize }
        ensures writes { Writes V.tells Volume (V.state vol.old) (V.state vol.new) result };

    /// Adds items behind the end, and answers the position of the last. It refuses no items with `EmptyAppend`, and
    /// with `SizeOverflow` where the end would pass 2^64 - 1.
    fn append_many<V: Volume>(
        self,
        vol: &mut V,
        items: &[Self::Item],
    ) -> Result<(Self, u64), JournalError>
        ensures empty { IsErrOf result EmptyAppend ↔ (length items.now ≡ 0) }
        ensures overflow { let end = end_of (log_of (Self.view self) (V.state vol.old)) in
            V.tells → IsErrOf result SizeOverflow → 2 ^ 64 - 1 < end + length items.now }
        ensures fits { let end = end_of (log_of (Self.view self) (V.state vol.old)) in
            OnOk result (V.tells → end + length items.now ≤ 2 ^ 64 - 1) }
        ensures position { let end = end_of (log_of (Self.view self) (V.state vol.old)) in
            IfOk result (λ made. V.tells → made.1 + 1 ≡ end + length items.now) }
        ensures made { IfOk result (λ made. SameButBounds (Self.view self) (Self.view made.0)) }
        ensures held { IfOk result (λ made. V.tells → IsHeld (Self.view made.0) (V.state vol.new)) }
        ensures appended { let log = log_of (Self.view self) (V.state vol.old) in
            OnOk result (V.tells →
            log_of (Self.view self) (V.state vol.new) ≡ appended log (map Self.Item.spelling items.now)) }
        ensures listed { OnOk result (V.tells → (list : List Self.Item) →
            Spells Self.Item.spelling list (log_of (Self.view self) (V.state vol.old)) →
            Spells Self.Item.spelling (list ++ items.now) (log_of (Self.view self) (V.state vol.new))) }
        ensures log { let texts = map Self.Item.spelling items.now in
            let step = Grows (log_of (Self.view self) (V.state vol.old)) texts in
            one_log → V.tells → LogCall (Self.view self).name step (V.state vol.old) (V.state vol.new) }
        ensures refused { RefusesUnwritten (V.state vol.old) (V.state vol.new) result }
        ensures errors { one_log → IfErr result IsOfAppend }
        ensures writes { Writes V.tells Volume (V.state vol.old) (V.state vol.new) result };

    /// After it a crash leaves what the log holds. Where a failed sync is kept it refuses with `Volume`.
    fn commit<V: Volume>(self, vol: &mut V) -> Result<Self, JournalError>
        ensures kept { (Self.view self).failed ≡ true → IsErrOf result Volume × (vol.new ≡ vol.old) }
        ensures made { IfOk result (λ made. Self.view made ≡ Self.view self) }
        ensures contents { V.tells → SameLog (Self.view self) (V.state vol.old) (V.state vol.new) }
        ensures durable { OnOk result (V.tells → IsDurable (Self.view self) (V.state vol.new)) }
        ensures log { one_log → V.tells → LogCall (Self.view self).name Stays (V.state vol.old) (V.state vol.new) }
        ensures errors { one_log → IfErr result IsOfVolume }
        ensures writes { (Self.view self).failed ≡ false →
            Writes V.tells Volume (V.state vol.old) (V.state vol.new) result };

    /// As `commit`.
    fn sync<V: Volume>(self, vol: &mut V) -> Result<Self, JournalError>
        ensures kept { (Self.view self).failed ≡ true → IsErrOf result Volume × (vol.new ≡ vol.old) }
        ensures made { IfOk result (λ made. Self.view made ≡ Self.view self) }
        ensures contents { V.tells → SameLog (Self.view self) (V.state vol.old) (V.state vol.new) }
        ensures durable { OnOk result (V.tells → IsDurable (Self.view self) (V.state vol.new)) }
        ensures log { one_log → V.tells → LogCall (Self.view self).name Stays (V.state vol.old) (V.state vol.new) }
        ensures errors { one_log → IfErr result IsOfVolume }
        ensures writes { (Self.view self).failed ≡ false →
            Writes V.tells Volume (V.state vol.old) (V.state vol.new) result };

    /// As `sync`. It syncs within the call, and the ticket tells how. A journal beside a failed ticket keeps the
    /// failure.
    fn start_sync<V: Volume>(self, vol: &mut V) -> Result<(Self, SyncTicket), JournalError>
        ensures kept { (Self.view self).failed ≡ true → IsErrOf result Volume × (vol.new ≡ vol.old) }
        ensures made { IfOk result (λ made. Self.view made.0 ≡ after_sync (Self.view self) (is_failed made.1)) }
        ensures contents { V.tells → SameLog (Self.view self) (V.state vol.old) (V.state vol.new) }
        ensures durable { IfOk result (λ made. made.1 ≡ SyncTicket.Done →
            V.tells → IsDurable (Self.view self) (V.state vol.new)) }
        ensures not_volume { one_log → (Self.view self).failed ≡ false → IsErrOf result Volume → ⊥ }
        ensures failed { IfOk result (λ made. made.1 ≡ SyncTicket.Failed →
            Rose (V.state vol.old).faults (V.state vol.new).faults) }
        ensures log { one_log → V.tells → LogCall (Self.view self).name Stays (V.state vol.old) (V.state vol.new) }
        ensures errors { one_log → IfErr result IsOfVolume }
        // A failed ticket is a failure of the volume, and beside one that is done nothing has failed.
        ensures writes { (Self.view self).failed ≡ false →
            Writes V.tells Volume (V.state vol.old) (V.state vol.new) (outcome result) };

    /// Takes whole blobs below a position away, and answers whether the start has moved. Where a failed sync is
    /// kept it refuses with `Volume`.
    fn prune<V: Volume>(self, vol: &mut V, least: u64) -> Result<(Self, bool), JournalError>
        ensures kept { (Self.view self).failed ≡ true → IsErrOf result Volume × (vol.new ≡ vol.old) }
        ensures made { IfOk result (λ made. SameButBounds (Self.view self) (Self.view made.0)) }
        ensures held { IfOk result (λ made. V.tells → one_log ⊎ IsHeld (Self.view self) (V.state vol.old) →
            IsHeld (Self.view made.0) (V.state vol.new)) }
        ensures moved { let start = (log_of (Self.view self) (V.state vol.old)).start in
            let point = prune_point (Self.view self) least (V.state vol.old) in
            IfOk result (λ made. one_log → V.tells → (IsTrue made.1 ↔ (start < point))) }
        ensures moved_true { let start = (log_of (Self.view self) (V.state vol.old)).start in
            let point = prune_point (Self.view self) least (V.state vol.old) in
            IfOk result (λ made. V.tells → one_log ⊎ IsHeld (Self.view self) (V.state vol.old) →
            start < point → IsTrue made.1) }
        ensures pruned { let log = log_of (Self.view self) (V.state vol.old) in
            let point = prune_point (Self.view self) least (V.state vol.old) in
            OnOk result (V.tells → one_log ⊎ IsHeld (Self.view self) (V.state vol.old) →
            log_of (Self.view self) (V.state vol.new) ≡ pruned_to log point) }
        ensures listed { OnOk result (V.tells → one_log ⊎ IsHeld (Self.view self) (V.state vol.old) →
            (list : List Self.Item) →
            Spells Self.Item.spelling list (log_of (Self.view self) (V.state vol.old)) →
            Spells Self.Item.spelling list (log_of (Self.view self) (V.state vol.new))) }
        ensures log { let step = Advances (prune_point (Self.view self) least (V.state vol.old)) in
            one_log → V.tells → LogCall (Self.view self).name step (V.state vol.old) (V.state vol.new) }
        ensures errors { one_log → IfErr result IsOfVolume }
        ensures changes { (Self.view self).failed ≡ false →
            Changes V.tells Volume (V.state vol.old) (V.state vol.new) result }
        ensures writes { one_log → (Self.view self).failed ≡ false →
            Writes V.tells Volume (V.state vol.old) (V.state vol.new) result };

    /// Takes the log away.
    fn destroy<V: Volume>(self, vol: &mut V) -> Result<(), JournalError>
        ensures removed { OnOk result (V.tells → log_of (Self.view self) (V.state vol.new) ≡ no_log) }
        ensures durable { OnOk result (V.tells → OnlyLeft (left_of (Self.view self) (V.state vol.new)) no_log) }
        ensures log { one_log → V.tells → LogCall (Self.view self).name Vanishes (V.state vol.old) (V.state vol.new) }
        ensures errors { one_log → IfErr result IsOfVolume }
        ensures writes { Writes V.tells Volume (V.state vol.old) (V.state vol.new) result };
}
