//! Where the witness of a state stands.
ghost use Rattle.std.specs.Prelude.{◌≡◌, ◌<◌, ◌-◌, ℕ, List, IfOk, IfErr, IsErrOf, IfSome};
ghost use Rattle.journal_base.specs.Answers.{IsOfRead};
ghost use Rattle.journal_base.specs.Items.{IsCorrupt};
ghost use Rattle.journal_base.specs.View.{IsHeld, IsWithin};
ghost use Rattle.volume_base.specs.Volume.{Reads};
ghost use Rattle.volume_base.specs.declared.error.JournalError.TheVariants.{ItemPruned, ItemOutOfRange, Corruption, Volume};
ghost use Rattle.witness_store.specs.Searched.{IsWitnessAt, LooksFew};
ghost use Rattle.witness_store.specs.Witnesses.{witnesses_of, Keeps, IsKept};

use crate::{Found, Store, Witness, first_at_or_above};
use tree_shape::{Digest, Family, Location};
use volume_base::{JournalError, Volume};

impl<F: Family, D: Digest> Store<F, D> {
    /// The kept witness of exactly so many operations, and its position; nothing where none is. It searches by halving,
    /// and refuses bytes on its way that are no witness with `Corruption`.
    pub fn place_at<V: Volume>(
        &self,
        vol: &mut V,
        size: Location<F>,
    ) -> Result<Option<(u64, Witness<F, D>)>, JournalError>
        // On any contents what is found stands there.
        ensures stands { let items = witnesses_of D.spelling (D.admits tt) self.now.log (V.state vol.old) in
            IfOk result (λ found. V.tells → IsWithin self.now.log (V.state vol.old) →
            IfSome found (λ s. (s.0 < self.now.log.end) × IsWitnessAt items s.0 s.1 × (s.1.size ≡ size))) }
        // Where the log keeps the witnesses of a list, it is the list's.
        ensures kept { let items = witnesses_of D.spelling (D.admits tt) self.now.log (V.state vol.old) in
            IfOk result (λ found. V.tells → IsHeld self.now.log (V.state vol.old) →
            (ws : List (Witness F D)) → Keeps items ws → IsKept ws self.now.log.start size found) }
        ensures not_pruned { V.tells → IsWithin self.now.log (V.state vol.old) →
            (p : ℕ) → IsErrOf result (ItemPruned p) → ⊥ }
        ensures not_out_of_range { V.tells → IsWithin self.now.log (V.state vol.old) →
            (p : ℕ) → IsErrOf result (ItemOutOfRange p) → ⊥ }
        ensures corrupt { let items = witnesses_of {F = F} D.spelling (D.admits tt) self.now.log (V.state vol.old) in
            (p : ℕ) → IsErrOf result (Corruption p) → V.tells → IsCorrupt items p }
        ensures errors { IfErr result IsOfRead }
        ensures answers { Reads V.tells Volume (V.state vol.old) (V.state vol.new) result }
        ensures few { let log = self.now.log in LooksFew (log.end - log.start) (V.state vol.old) (V.state vol.new) }
    {
        let wanted = size.as_u64();
        let found = first_at_or_above(&self.journal, vol, size)?;
        let Found {
            position,
            before: _,
            here,
        } = found;
        match here {
            Some(witness) => {
                if witness.size.as_u64() == wanted {
                    Ok(Some((position, witness)))
                } else {
                    Ok(None)
                }
            }
            None => Ok(None),
        }
    }
}
