//! The search for a witness by its size.
ghost use Rattle.std.specs.Prelude.{◌≡◌, ◌-◌, ℕ, List, IfOk, IfErr, IsErrOf};
ghost use Rattle.journal_base.specs.Answers.{IsOfRead};
ghost use Rattle.journal_base.specs.Items.{IsCorrupt};
ghost use Rattle.journal_base.specs.View.{IsHeld, IsWithin};
ghost use Rattle.volume_base.specs.Volume.{Reads};
ghost use Rattle.volume_base.specs.declared.error.JournalError.TheVariants.{ItemPruned, ItemOutOfRange, Corruption, Volume};
ghost use Rattle.witness_store.specs.Searched.{IsFirst, LooksFew};
ghost use Rattle.witness_store.specs.Witnesses.{witnesses_of, Keeps, place_of};

use crate::{Witness, Witnesses};
use tree_shape::{Digest, Family, Location};
use volume_base::{JournalError, Volume};

/// Where a search has ended.
#[derive(Drop)]
pub struct Found<F, D> {
    /// A position before which a witness of fewer operations stands, or the start, and at which one of at least so many stands,
    /// or the end.
    pub position: u64,
    /// The witness before it, where there is one.
    pub before: Option<Witness<F, D>>,
    /// The witness at it, where there is one.
    pub here: Option<Witness<F, D>>,
}

/// A position before which a witness of fewer operations stands, or the start, and at which one of at least so many stands, or
/// the end, with these two witnesses. Where sizes rise it is the first of at least so many operations. It halves what is left,
/// and makes one read for each half. It refuses bytes on its way that are no witness with `Corruption`.
pub fn first_at_or_above<F: Family, D: Digest, R: Witnesses<F, D>, V: Volume>(
    reader: &R,
    vol: &mut V,
    size: Location<F>,
) -> Result<Found<F, D>, JournalError>
    ensures found { let view = R.seen reader.now in
        let items = witnesses_of D.spelling (D.admits tt) view (V.state vol.old) in
        IfOk result (λ found. V.tells → IsWithin view (V.state vol.old) → IsFirst items view.start view.end size found) }
    // Where the log keeps the witnesses of a list, it is the place of the list's first of at least so many operations.
    ensures listed { let view = R.seen reader.now in
        let items = witnesses_of D.spelling (D.admits tt) view (V.state vol.old) in
        IfOk result (λ found. V.tells → IsHeld view (V.state vol.old) → (ws : List (Witness F D)) → Keeps items ws →
        found.position ≡ place_of ws view.start size) }
    ensures not_pruned { V.tells → IsWithin (R.seen reader.now) (V.state vol.old) →
        (p : ℕ) → IsErrOf result (ItemPruned p) → ⊥ }
    ensures not_out_of_range { V.tells → IsWithin (R.seen reader.now) (V.state vol.old) →
        (p : ℕ) → IsErrOf result (ItemOutOfRange p) → ⊥ }
    ensures corrupt { let items = witnesses_of {F = F} D.spelling (D.admits tt) (R.seen reader.now) (V.state vol.old) in
        (p : ℕ) → IsErrOf result (Corruption p) → V.tells → IsCorrupt items p }
    ensures errors { IfErr result IsOfRead }
    ensures answers { Reads V.tells Volume (V.state vol.old) (V.state vol.new) result }
    ensures few { let view = R.seen reader.now in
        LooksFew (view.end - view.start) (V.state vol.old) (V.state vol.new) }
{
    let (start, end) = reader.span();
    let mut low = start;
    let mut high = end;
    let mut before = None;
    let mut here = None;
    while low < high {
        let middle = low + (high - low) / 2;
        let witness = reader.witness_at(vol, middle)?;
        if witness.size < size {
            low = middle + 1;
            before = Some(witness);
        } else {
            high = middle;
            here = Some(witness);
        }
    }
    Ok(Found {
        position: low,
        before,
        here,
    })
}
