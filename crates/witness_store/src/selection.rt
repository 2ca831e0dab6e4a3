//! The witness at which a log is opened.
ghost use Rattle.std.specs.Prelude.{◌≡◌, ◌<◌, ◌-◌, ℕ, List, None, MatchOption, IsSome, IfOk, IfErr, IsErrOf};
ghost use Rattle.journal_base.specs.Answers.{IsOfRead};
ghost use Rattle.journal_base.specs.Items.{IsCorrupt};
ghost use Rattle.journal_base.specs.View.{IsHeld, IsWithin};
ghost use Rattle.volume_base.specs.Volume.{Reads};
ghost use Rattle.volume_base.specs.declared.error.JournalError.TheVariants.{ItemPruned, ItemOutOfRange, Corruption, Volume};
ghost use Rattle.witness_store.specs.Searched.{LooksFew};
ghost use Rattle.witness_store.specs.Selected.{IsSelected, NoneWithin, IsLastWithin};
ghost use Rattle.witness_store.specs.Witnesses.{witnesses_of, Keeps};

use crate::{Found, Witness, Witnesses, first_at_or_above};
use tree_shape::{Digest, Family, Location, MAX_LEAVES};
use volume_base::{JournalError, Volume};

/// A witness of at most so many operations, behind which one of more stands, or the end; without a cap the last of all; and the
/// end behind it. Where sizes rise it is the last within the cap. Nothing only where the first witness is of more. It refuses
/// bytes on its way that are no witness with `Corruption`.
pub fn select<F: Family, D: Digest, R: Witnesses<F, D>, V: Volume>(
    reader: &R,
    vol: &mut V,
    cap: Option<Location<F>>,
) -> Result<Option<(u64, Witness<F, D>)>, JournalError>
    requires some { (R.seen reader.now).start < (R.seen reader.now).end }
    ensures selected { let view = R.seen reader.now in
        let items = witnesses_of {F = F} D.spelling (D.admits tt) view (V.state vol.old) in
        IfOk result (λ found. V.tells → IsWithin view (V.state vol.old) →
        MatchOption found (NoneWithin items view.start cap) (λ s. IsSelected items view.start view.end cap (s.0, s.1))) }
    ensures uncapped { cap ≡ None → IfOk result (λ found. IsSome found) }
    // Where the log keeps the witnesses of a list, it is the list's last within the cap.
    ensures last { let view = R.seen reader.now in
        let items = witnesses_of D.spelling (D.admits tt) view (V.state vol.old) in
        IfOk result (λ found. V.tells → IsHeld view (V.state vol.old) →
        (ws : List (Witness F D)) → Keeps items ws → IsLastWithin ws view.start cap found) }
    ensures not_pruned { V.tells → IsWithin (R.seen reader.now) (V.state vol.old) →
        (p : ℕ) → IsErrOf result (ItemPruned p) → ⊥ }
    ensures not_out_of_range { V.tells → IsWithin (R.seen reader.now) (V.state vol.old) →
        (p : ℕ) → IsErrOf result (ItemOutOfRange p) → ⊥ }
    ensures corrupt { let items = witnesses_of {F = F} D.spelling (D.admits tt) (R.seen reader.now) (V.state vol.old) in
        (p : ℕ) → IsErrOf result (Corruption p) → V.tells → IsCorrupt items p }
    ensures errors { IfErr result IsOfRead }
    ensures answers { Reads V.tells Volume (V.state vol.old) (V.state vol.new) result }
    ensures few { let view = R.seen reader.now in
        LooksFew (view.end - view.start) (V.state vol.old) (V.state vol.new) }
{
    match cap {
        Some(cap) if cap.as_u64() < MAX_LEAVES => {
            let above = Location::new(cap.as_u64() + 1);
            let found = first_at_or_above(reader, vol, above)?;
            let Found {
                position,
                before,
                here: _,
            } = found;
            match before {
                Some(witness) => Ok(Some((position, witness))),
                None => Ok(None),
            }
        }
        _ => {
            let (_, end) = reader.span();
            let witness = reader.witness_at(vol, end - 1)?;
            Ok(Some((end, witness)))
        }
    }
}
