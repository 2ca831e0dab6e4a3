//! What witnesses are read from.
ghost use Rattle.std.specs.Prelude.{◌≡◌, ◌+◌, ◌≤◌, ◌<◌, ℕ, IfOk, IfErr, IsErrOf};
ghost use Rattle.journal_base.specs.Answers.{IsOfRead};
ghost use Rattle.journal_base.specs.Items.{IsCorrupt};
ghost use Rattle.journal_base.specs.View.{View, IsWithin};
ghost use Rattle.volume_base.specs.Volume.{Reads};
ghost use Rattle.volume_base.specs.declared.error.JournalError.TheVariants.{ItemPruned, ItemOutOfRange, Corruption, Volume};
ghost use Rattle.witness_store.specs.Searched.{IsWitnessAt};
ghost use Rattle.witness_store.specs.Witnesses.{witnesses_of};

use crate::Witness;
use journal_base::{BackingRecovery, Contiguous, Recovery, VariableJournal};
use tree_shape::{Digest, Family};
use volume_base::{JournalError, Volume};

/// What has witnesses at positions of a log: a journal of them, or one that is being opened.
pub trait Witnesses<F: Family, D: Digest> {
    /// Its view: the name of the log, and the bounds.
    ghost seen: { Self → View (Unit {0}) };

    /// The start and the end.
    fn span(&self) -> (u64, u64)
        ensures start { result.0 ≡ (seen self.now).start }
        ensures end { result.1 ≡ (seen self.now).end };

    /// The witness at a position between them. It refuses with `Corruption` where the bytes are no witness.
    fn witness_at<V: Volume>(
        &self,
        vol: &mut V,
        position: u64,
    ) -> Result<Witness<F, D>, JournalError>
        requires low { (seen self.now).start ≤ position }
        requires high { position < (seen self.now).end }
        ensures witness { let items = witnesses_of D.spelling (D.admits tt) (seen self.now) (V.state vol.old) in
            IfOk result (λ w. V.tells → IsWitnessAt items position w) }
        ensures not_pruned { V.tells → IsWithin (seen self.now) (V.state vol.old) →
            (p : ℕ) → IsErrOf result (ItemPruned p) → ⊥ }
        ensures not_out_of_range { V.tells → IsWithin (seen self.now) (V.state vol.old) →
            (p : ℕ) → IsErrOf result (ItemOutOfRange p) → ⊥ }
        ensures corrupt { let items = witnesses_of {F = F} D.spelling (D.admits tt) (seen self.now) (V.state vol.old) in
            (p : ℕ) → IsErrOf result (Corruption p) → (p ≡ position) × (V.tells → IsCorrupt items position) }
        ensures errors { IfErr result IsOfRead }
        ensures answers { Reads V.tells Volume (V.state vol.old) (V.state vol.new) result }
        ensures reads { (V.state vol.new).reads ≤ (V.state vol.old).reads + 1 };
}

impl<F: Family, D: Digest> Witnesses<F, D> for VariableJournal<Witness<F, D>> {
    ghost use Rattle.journal_base.specs.View.{view_of};

    ghost seen = { λ journal. view_of journal };

    fn span(&self) -> (u64, u64) {
        self.bounds()
    }

    fn witness_at<V: Volume>(
        &self,
        vol: &mut V,
        position: u64,
    ) -> Result<Witness<F, D>, JournalError> {
        self.read(vol, position)
    }
}

impl<F: Family, D: Digest> Witnesses<F, D> for Recovery<Witness<F, D>> {
    ghost use Rattle.journal_base.specs.View.{seen_of};

    ghost seen = { λ recovery. seen_of recovery };

    fn span(&self) -> (u64, u64) {
        self.bounds()
    }

    fn witness_at<V: Volume>(
        &self,
        vol: &mut V,
        position: u64,
    ) -> Result<Witness<F, D>, JournalError> {
        self.read(vol, position)
    }
}
