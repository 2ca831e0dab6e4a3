//! Items that a predicate answers.
ghost use Rattle.std.specs.Prelude.{◌≤◌, ◌<◌, ◌+◌, ◌-◌, ◌^◌, ℕ, min, MatchOption, IfSome, IfOk, IfErr, IsErrOf};
ghost use Rattle.std.specs.Fn.{FnReturnsAt};
ghost use Rattle.journal_base.specs.Answers.{IsOfRead, IsRefusedAt};
ghost use Rattle.journal_base.specs.Items.{items_of, IsCorrupt};
ghost use Rattle.journal_base.specs.Matches.{IsLastMatch, NoneMatches};
ghost use Rattle.journal_base.specs.View.{IsWithin};
ghost use Rattle.volume_base.specs.Volume.{Reads};
ghost use Rattle.volume_base.specs.declared.error.JournalError.TheVariants.{ItemPruned, ItemOutOfRange, Corruption};

use crate::Contiguous;
use volume_base::{JournalError, Volume};

/// The end behind the last item below a position that a predicate accepts. It goes down from there.
pub(crate) fn match_below<J: Contiguous, V: Volume, P: Fn(&J::Item) -> bool>(
    journal: &J,
    vol: &mut V,
    top: u64,
    predicate: P,
) -> Result<Option<u64>, JournalError>
    requires callable { P.IsAlwaysCallable predicate }
    requires within { top ≤ (J.view journal.now).end }
    ensures found { let items = items_of J.Item.spelling J.Item.admits (J.view journal.now) (V.state vol.old) in
        let says = FnReturnsAt P.Fn predicate in
        let start = (J.view journal.now).start in
        IfOk result (λ found. V.tells →
        MatchOption found (NoneMatches items says start top) (λ end. IsLastMatch items says start top end)) }
    ensures between { let start = (J.view journal.now).start in
        IfOk result (λ found. IfSome found (λ end. (start < end) × (end ≤ top))) }
    ensures not_pruned { V.tells → IsWithin (J.view journal.now) (V.state vol.old) →
        (p : ℕ) → IsErrOf result (ItemPruned p) → ⊥ }
    ensures not_out_of_range { V.tells → IsWithin (J.view journal.now) (V.state vol.old) →
        (p : ℕ) → IsErrOf result (ItemOutOfRange p) → ⊥ }
    ensures corrupt { let items = items_of J.Item.spelling J.Item.admits (J.view journal.now) (V.state vol.old) in
        let says = FnReturnsAt P.Fn predicate in
        V.tells → (p : ℕ) → IsErrOf result (Corruption p) →
        ((J.view journal.now).start ≤ p) × (p < top) × IsCorrupt items p × NoneMatches items says (p + 1) top }
    ensures named { (p : ℕ) → IsRefusedAt result p → ((J.view journal.now).start ≤ p) × (p < top) }
    ensures errors { IfErr result IsOfRead }
    ensures answers { Reads V.tells JournalError.Volume (V.state vol.old) (V.state vol.new) result }
    ensures reads { (V.state vol.new).reads ≤ (V.state vol.old).reads + (top - (J.view journal.now).start) }
    ensures counted { let start = (J.view journal.now).start in
        IfOk result (λ found. MatchOption found
        (min ((V.state vol.old).reads + (top - start)) (2 ^ 64 - 1) ≤ (V.state vol.new).reads)
        (λ end. min ((V.state vol.old).reads + (top - end)) (2 ^ 64 - 1) ≤ (V.state vol.new).reads)) }
    ensures counted_refused { (p : ℕ) → IsRefusedAt result p →
        min ((V.state vol.old).reads + (top - p)) (2 ^ 64 - 1) ≤ (V.state vol.new).reads }
{
    let (start, _) = journal.bounds();
    let mut end = top;
    while start < end {
        let item = journal.read(vol, end - 1)?;
        if predicate(&item) {
            return Ok(Some(end));
        }
        end -= 1;
    }
    Ok(None)
}
