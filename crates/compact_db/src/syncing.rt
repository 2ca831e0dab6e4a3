//! How a compact database makes its witnesses durable.
ghost use Rattle.std.specs.Prelude.{◌≡◌, ◌<◌, ◌-◌, ◌^◌, ℕ, List, true, false, IsOk, IfOk, OnOk, IsErrOf};
ghost use Rattle.codec_base.specs.Causes.{Rose};
ghost use Rattle.journal_base.specs.Tickets.{is_failed};
ghost use Rattle.journal_base.specs.View.{log_of, after_sync, SameButBounds, IsDurable, IsHeld};
ghost use Rattle.volume_base.specs.Log.{end_of};
ghost use Rattle.compact_db.specs.DbView.{IsOfList, seen_log, waits, is_uncommitted};
ghost use Rattle.compact_db.specs.Held.{IsHeldFor, SameState};
ghost use Rattle.compact_db.specs.Writing.{written_log, outcome, IsSettledLog, SyncsLog};

use crate::durable::opened;
use crate::{CompactDb, CompactOperation, WitnessLog};
use chain_core::Error;
use journal_base::SyncTicket;
use tree_core::{Family, Hasher};
use volume_base::Volume;

impl<F: Family, O: CompactOperation, H: Hasher> CompactDb<F, O, H> {
    /// Makes the witnesses durable, where one may not be. Where an import waits, its witness is written before; it
    /// refuses with `Journal(SizeOverflow)` where the log's end is then 2^64 - 1. Where a failed sync is kept it
    /// refuses with `Volume`.
    pub fn commit<V: Volume>(self, vol: &mut V) -> Result<Self, Error<F>>
        ensures kept { (seen_log self.log).failed ≡ true → IsErrOf result Error.Volume × (vol.new ≡ vol.old) }
        ensures idle { is_uncommitted self.log ≡ false → IsOk result × (vol.new ≡ vol.old) }
        ensures same { IfOk result (SameState self) }
        ensures log { IfOk result (λ made. SameButBounds (seen_log self.log) (seen_log made.log)) }
        // The bounds that it knows stay those of the log.
        ensures bounds { V.tells → (waits self.log ≡ false → IsHeld (seen_log self.log) (V.state vol.old)) →
            IfOk result (λ made. IsHeld (seen_log made.log) (V.state vol.new)) }
        ensures opened { IfOk result (λ made. waits made.log ≡ false) }
        ensures committed { IfOk result (λ made. is_uncommitted made.log ≡ false) }
        // The witnesses stay those of the list.
        ensures held { IfOk result (λ made. V.tells → (ops : List O) (sizes : List ℕ) →
            IsHeldFor F.shape H.hash O.meaning H.Digest.spelling (H.Digest.admits tt) ops sizes self (V.state vol.old) →
            IsHeldFor F.shape H.hash O.meaning H.Digest.spelling (H.Digest.admits tt) ops sizes made
            (V.state vol.new)) }
        // Those of an import become those of its list.
        ensures imported { waits self.log ≡ true → IfOk result (λ made. V.tells → (ops : List O) →
            IsOfList F.shape H.hash O.meaning ops self → (sizes : List ℕ)
            × IsHeldFor F.shape H.hash O.meaning H.Digest.spelling (H.Digest.admits tt) ops sizes made
            (V.state vol.new)) }
        ensures written { waits self.log ≡ true → OnOk result (V.tells → log_of (seen_log self.log) (V.state vol.new)
            ≡ written_log H.Digest.spelling self.log self.tip.witness (V.state vol.old)) }
        ensures fits { waits self.log ≡ true →
            OnOk result (V.tells → end_of (log_of (seen_log self.log) (V.state vol.old)) < 2 ^ 64 - 1) }
        ensures durable { OnOk result (V.tells → IsSettledLog self.log (V.state vol.old) →
            IsDurable (seen_log self.log) (V.state vol.new)) }
        ensures syncs { (seen_log self.log).failed ≡ false →
            SyncsLog V.tells H.Digest.spelling self.log self.tip.witness (V.state vol.old) (V.state vol.new) result }
    {
        let CompactDb {
            alloc,
            log,
            tip,
            merkle,
            last_commit,
            codec,
        } = self;
        let store = opened(log, vol, &tip.witness)?;
        let store = store.commit(vol)?;
        Ok(CompactDb {
            alloc,
            log: WitnessLog::Open(store),
            tip,
            merkle,
            last_commit,
            codec,
        })
    }

    /// Makes the witnesses durable. Where an import waits, its witness is written before; it refuses with
    /// `Journal(SizeOverflow)` where the log's end is then 2^64 - 1. Where a failed sync is kept it refuses with
    /// `Volume`.
    pub fn sync<V: Volume>(self, vol: &mut V) -> Result<Self, Error<F>>
        ensures kept { (seen_log self.log).failed ≡ true → IsErrOf result Error.Volume × (vol.new ≡ vol.old) }
        ensures same { IfOk result (SameState self) }
        ensures log { IfOk result (λ made. SameButBounds (seen_log self.log) (seen_log made.log)) }
        // The bounds that it knows stay those of the log.
        ensures bounds { V.tells → (waits self.log ≡ false → IsHeld (seen_log self.log) (V.state vol.old)) →
            IfOk result (λ made. IsHeld (seen_log made.log) (V.state vol.new)) }
        ensures opened { IfOk result (λ made. waits made.log ≡ false) }
        ensures committed { IfOk result (λ made. is_uncommitted made.log ≡ false) }
        // The witnesses stay those of the list.
        ensures held { IfOk result (λ made. V.tells → (ops : List O) (sizes : List ℕ) →
            IsHeldFor F.shape H.hash O.meaning H.Digest.spelling (H.Digest.admits tt) ops sizes self (V.state vol.old) →
            IsHeldFor F.shape H.hash O.meaning H.Digest.spelling (H.Digest.admits tt) ops sizes made
            (V.state vol.new)) }
        // Those of an import become those of its list.
        ensures imported { waits self.log ≡ true → IfOk result (λ made. V.tells → (ops : List O) →
            IsOfList F.shape H.hash O.meaning ops self → (sizes : List ℕ)
            × IsHeldFor F.shape H.hash O.meaning H.Digest.spelling (H.Digest.admits tt) ops sizes made
            (V.state vol.new)) }
        ensures written { waits self.log ≡ true → OnOk result (V.tells → log_of (seen_log self.log) (V.state vol.new)
            ≡ written_log H.Digest.spelling self.log self.tip.witness (V.state vol.old)) }
        ensures fits { waits self.log ≡ true →
            OnOk result (V.tells → end_of (log_of (seen_log self.log) (V.state vol.old)) < 2 ^ 64 - 1) }
        ensures durable { OnOk result (V.tells → IsDurable (seen_log self.log) (V.state vol.new)) }
        ensures syncs { (seen_log self.log).failed ≡ false →
            SyncsLog V.tells H.Digest.spelling self.log self.tip.witness (V.state vol.old) (V.state vol.new) result }
    {
        let CompactDb {
            alloc,
            log,
            tip,
            merkle,
            last_commit,
            codec,
        } = self;
        let store = opened(log, vol, &tip.witness)?;
        let store = store.sync(vol)?;
        Ok(CompactDb {
            alloc,
            log: WitnessLog::Open(store),
            tip,
            merkle,
            last_commit,
            codec,
        })
    }

    /// As `sync`. It syncs within the call, and the ticket tells how. A database beside a failed ticket keeps the
    /// failure.
    pub fn start_sync<V: Volume>(self, vol: &mut V) -> Result<(Self, SyncTicket), Error<F>>
        ensures kept { (seen_log self.log).failed ≡ true → IsErrOf result Error.Volume × (vol.new ≡ vol.old) }
        ensures not_volume { (seen_log self.log).failed ≡ false → waits self.log ≡ false → IsErrOf result Error.Volume
            → ⊥ }
        ensures same { IfOk result (λ made. SameState self made.0) }
        ensures log { IfOk result (λ made.
            SameButBounds (after_sync (seen_log self.log) (is_failed made.1)) (seen_log made.0.log)) }
        // The bounds that it knows stay those of the log.
        ensures bounds { V.tells → (waits self.log ≡ false → IsHeld (seen_log self.log) (V.state vol.old)) →
            IfOk result (λ made. IsHeld (seen_log made.0.log) (V.state vol.new)) }
        ensures opened { IfOk result (λ made. waits made.0.log ≡ false) }
        ensures committed { IfOk result (λ made. is_uncommitted made.0.log ≡ is_failed made.1) }
        // The witnesses stay those of the list.
        ensures held { IfOk result (λ made. V.tells → (ops : List O) (sizes : List ℕ) →
            IsHeldFor F.shape H.hash O.meaning H.Digest.spelling (H.Digest.admits tt) ops sizes self (V.state vol.old) →
            IsHeldFor F.shape H.hash O.meaning H.Digest.spelling (H.Digest.admits tt) ops sizes made.0
            (V.state vol.new)) }
        // Those of an import become those of its list.
        ensures imported { waits self.log ≡ true → IfOk result (λ made. V.tells → (ops : List O) →
            IsOfList F.shape H.hash O.meaning ops self → (sizes : List ℕ)
            × IsHeldFor F.shape H.hash O.meaning H.Digest.spelling (H.Digest.admits tt) ops sizes made.0
            (V.state vol.new)) }
        ensures written { waits self.log ≡ true → OnOk result (V.tells → log_of (seen_log self.log) (V.state vol.new)
            ≡ written_log H.Digest.spelling self.log self.tip.witness (V.state vol.old)) }
        ensures fits { waits self.log ≡ true →
            OnOk result (V.tells → end_of (log_of (seen_log self.log) (V.state vol.old)) < 2 ^ 64 - 1) }
        ensures durable { IfOk result (λ made. made.1 ≡ SyncTicket.Done → V.tells →
            IsDurable (seen_log self.log) (V.state vol.new)) }
        ensures failed { IfOk result (λ made. made.1 ≡ SyncTicket.Failed →
            Rose (V.state vol.old).faults (V.state vol.new).faults) }
        ensures syncs { (seen_log self.log).failed ≡ false →
            SyncsLog V.tells H.Digest.spelling self.log self.tip.witness (V.state vol.old) (V.state vol.new)
            (outcome result) }
    {
        let CompactDb {
            alloc,
            log,
            tip,
            merkle,
            last_commit,
            codec,
        } = self;
        let store = opened(log, vol, &tip.witness)?;
        let (store, ticket) = store.start_sync(vol)?;
        let db = CompactDb {
            alloc,
            log: WitnessLog::Open(store),
            tip,
            merkle,
            last_commit,
            codec,
        };
        Ok((db, ticket))
    }
}
