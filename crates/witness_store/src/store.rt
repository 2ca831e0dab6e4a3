//! The log of witnesses: a new one behind the others, and what makes them durable.
ghost use Rattle.std.specs.Prelude.{◌≡◌, ◌<◌, ◌-◌, ◌^◌, ℕ, List, [], ◌∷◌, ◌++◌, true, false, IfOk, IfErr, OnOk, IsErrOf, Ok};
ghost use Rattle.codec_base.specs.Causes.{Rose};
ghost use Rattle.journal_base.specs.Answers.{IsOfVolume, IsOfSize, RefusesUnwritten};
ghost use Rattle.journal_base.specs.Items.{Spells};
ghost use Rattle.journal_base.specs.Tickets.{is_failed, outcome};
ghost use Rattle.journal_base.specs.View.{log_of, left_of, SameButBounds, after_sync, SameLog, IsDurable, IsHeld};
ghost use Rattle.volume_base.specs.Log.{end_of, no_log, appended, Grows, Vanishes, Stays};
ghost use Rattle.volume_base.specs.Moments.{LogHas, LogKeeps};
ghost use Rattle.volume_base.specs.Volume.{OnlyLeft, LogCall, Writes};
ghost use Rattle.volume_base.specs.declared.error.JournalError.TheVariants.{SizeOverflow, Volume};
ghost use Rattle.witness_store.specs.StoreView.{IsSettled, HasWitnesses};
ghost use Rattle.witness_store.specs.Witness.{text_of, IsAllowed};
ghost use Rattle.witness_store.specs.Witnesses.{witnesses_of, Keeps, LastIsBelow};

use crate::Witness;
use journal_base::{Mutable, SyncTicket, VariableJournal};
use std::marker::Model;
use tree_shape::{Digest, Family};
use volume_base::{JournalError, Volume};

/// A log of witnesses.
#[derive(Drop)]
pub struct Store<F: Family, D: Digest> {
    pub(crate) journal: VariableJournal<Witness<F, D>>,
    /// Whether a witness may not be durable.
    pub(crate) uncommitted: bool,
}

impl<F: Family, D: Digest> Model for Store<F, D> {
    ghost use Rattle.journal_base.specs.View.{view_of};
    ghost use Rattle.witness_store.specs.StoreView.{StoreView, MarksFailure};

    ghost Value = { StoreView };

    ghost view = { λ s. record { log = view_of s.journal; uncommitted = s.uncommitted } };

    ghost invariant = { λ s. MarksFailure (record { log = view_of s.journal; uncommitted = s.uncommitted }) };
}

impl<F: Family, D: Digest> Store<F, D> {
    /// Adds the witness of a new state behind the others. It refuses with `SizeOverflow` where the end would pass 2^64 - 1.
    pub fn append<V: Volume>(
        self,
        vol: &mut V,
        witness: &Witness<F, D>,
    ) -> Result<Self, JournalError>
        ensures overflow { let end = end_of (log_of self.log (V.state vol.old)) in
            V.tells → IsErrOf result SizeOverflow → end ≡ 2 ^ 64 - 1 }
        ensures fits { OnOk result (V.tells → end_of (log_of self.log (V.state vol.old)) < 2 ^ 64 - 1) }
        ensures made { IfOk result (λ made. SameButBounds self.log made.log × (made.uncommitted ≡ true)) }
        ensures held { IfOk result (λ made. V.tells → IsHeld made.log (V.state vol.new)) }
        ensures appended { let log = log_of self.log (V.state vol.old) in
            OnOk result (V.tells →
            log_of self.log (V.state vol.new) ≡ appended log (text_of D.spelling witness.now ∷ [])) }
        // Where the log keeps the witnesses of a list, it keeps this one behind them.
        ensures keeps { let items = witnesses_of D.spelling (D.admits tt) self.log in
            OnOk result (V.tells → IsHeld self.log (V.state vol.old) → (ws : List (Witness F D)) →
            Keeps (items (V.state vol.old)) ws → IsAllowed (D.admits tt) witness.now →
            LastIsBelow ws self.log.start witness.now.size →
            Keeps (items (V.state vol.new)) (ws ++ witness.now ∷ [])) }
        ensures log { let step = Grows (log_of self.log (V.state vol.old)) (text_of D.spelling witness.now ∷ []) in
            V.tells → LogCall self.log.name step (V.state vol.old) (V.state vol.new) }
        // At each moment a crash leaves a part of the longer list, within the bounds of before.
        ensures images { let name = self.log.name in
            V.tells → (ws : List (Witness F D)) (greatest least : ℕ) →
            Spells (text_of D.spelling) ws (log_of self.log (V.state vol.old)) →
            LogHas (V.state vol.old) name (HasWitnesses D.spelling ws greatest least) →
            LogKeeps name (HasWitnesses D.spelling (ws ++ witness.now ∷ []) greatest least)
            (V.state vol.old) (V.state vol.new) }
        ensures refused { RefusesUnwritten (V.state vol.old) (V.state vol.new) result }
        ensures errors { IfErr result IsOfSize }
        ensures writes { Writes V.tells Volume (V.state vol.old) (V.state vol.new) result }
    {
        let (journal, _) = self.journal.append(vol, witness)?;
        Ok(Store {
            journal,
            uncommitted: true,
        })
    }

    /// Makes the witnesses durable, where one may not be. Where a failed sync is kept it refuses with `Volume`.
    pub fn commit<V: Volume>(self, vol: &mut V) -> Result<Self, JournalError>
        ensures kept { self.log.failed ≡ true → IsErrOf result Volume × (vol.new ≡ vol.old) }
        ensures idle { self.uncommitted ≡ false → (result ≡ Ok self) × (vol.new ≡ vol.old) }
        ensures made { IfOk result (λ made. made ≡ record { log = self.log; uncommitted = false }) }
        ensures contents { V.tells → SameLog self.log (V.state vol.old) (V.state vol.new) }
        ensures durable { OnOk result (V.tells → IsSettled self (V.state vol.old) →
            IsDurable self.log (V.state vol.new)) }
        ensures log { V.tells → LogCall self.log.name Stays (V.state vol.old) (V.state vol.new) }
        ensures errors { IfErr result IsOfVolume }
        ensures writes { self.log.failed ≡ false →
            Writes V.tells Volume (V.state vol.old) (V.state vol.new) result }
    {
        if !self.uncommitted {
            return Ok(self);
        }
        let journal = self.journal.commit(vol)?;
        Ok(Store {
            journal,
            uncommitted: false,
        })
    }

    /// Makes the witnesses durable. Where a failed sync is kept it refuses with `Volume`.
    pub fn sync<V: Volume>(self, vol: &mut V) -> Result<Self, JournalError>
        ensures kept { self.log.failed ≡ true → IsErrOf result Volume × (vol.new ≡ vol.old) }
        ensures made { IfOk result (λ made. made ≡ record { log = self.log; uncommitted = false }) }
        ensures contents { V.tells → SameLog self.log (V.state vol.old) (V.state vol.new) }
        ensures durable { OnOk result (V.tells → IsDurable self.log (V.state vol.new)) }
        ensures log { V.tells → LogCall self.log.name Stays (V.state vol.old) (V.state vol.new) }
        ensures errors { IfErr result IsOfVolume }
        ensures writes { self.log.failed ≡ false →
            Writes V.tells Volume (V.state vol.old) (V.state vol.new) result }
    {
        let journal = self.journal.sync(vol)?;
        Ok(Store {
            journal,
            uncommitted: false,
        })
    }

    /// As `sync`. It syncs within the call, and the ticket tells how. A store beside a failed ticket keeps the failure.
    pub fn start_sync<V: Volume>(self, vol: &mut V) -> Result<(Self, SyncTicket), JournalError>
        ensures kept { self.log.failed ≡ true → IsErrOf result Volume × (vol.new ≡ vol.old) }
        ensures made { IfOk result (λ made. made.0 ≡ record {
          log = after_sync self.log (is_failed made.1);
          uncommitted = is_failed made.1;
        }) }
        ensures contents { V.tells → SameLog self.log (V.state vol.old) (V.state vol.new) }
        ensures durable { IfOk result (λ made. made.1 ≡ SyncTicket.Done →
            V.tells → IsDurable self.log (V.state vol.new)) }
        ensures not_volume { self.log.failed ≡ false → IsErrOf result Volume → ⊥ }
        ensures failed { IfOk result (λ made. made.1 ≡ SyncTicket.Failed →
            Rose (V.state vol.old).faults (V.state vol.new).faults) }
        ensures log { V.tells → LogCall self.log.name Stays (V.state vol.old) (V.state vol.new) }
        ensures errors { IfErr result IsOfVolume }
        ensures writes { self.log.failed ≡ false →
            Writes V.tells Volume (V.state vol.old) (V.state vol.new) (outcome result) }
    {
        let (journal, ticket) = self.journal.start_sync(vol)?;
        let uncommitted = match ticket {
            SyncTicket::Done => false,
            SyncTicket::Failed => true,
        };
        let store = Store {
            journal,
            uncommitted,
        };
        Ok((store, ticket))
    }

    /// Takes the log away.
    pub fn destroy<V: Volume>(self, vol: &mut V) -> Result<(), JournalError>
        ensures removed { OnOk result (V.tells → log_of self.log (V.state vol.new) ≡ no_log) }
        ensures durable { OnOk result (V.tells → OnlyLeft (left_of self.log (V.state vol.new)) no_log) }
        ensures log { V.tells → LogCall self.log.name Vanishes (V.state vol.old) (V.state vol.new) }
        ensures errors { IfErr result IsOfVolume }
        ensures writes { Writes V.tells Volume (V.state vol.old) (V.state vol.new) result }
    {
        self.journal.destroy(vol)
    }
}
