//! Items put behind a journal's, where there are any.
ghost use Rattle.std.specs.Prelude.{◌≡◌, ◌+◌, ◌-◌, ◌<◌, ◌≤◌, ◌^◌, List, ◌++◌, length, map, IfOk, IfErr, OnOk, IsErrOf};
ghost use Rattle.journal_base.specs.Answers.{IsOfSize, RefusesUnwritten};
ghost use Rattle.journal_base.specs.Items.{Spells};
ghost use Rattle.journal_base.specs.View.{log_of, SameButBounds, IsHeld};
ghost use Rattle.volume_base.specs.Log.{end_of, appended, Grows};
ghost use Rattle.volume_base.specs.Volume.{LogCall, Writes};
ghost use Rattle.volume_base.specs.declared.error.JournalError.TheVariants.{EmptyAppend, SizeOverflow, Volume};

use crate::Mutable;
use volume_base::{JournalError, Volume};

/// The journal with these items behind its own; of no items nothing is written, and it stays as it is. It refuses
/// with `SizeOverflow` where the end would pass 2^64 - 1, and never with `EmptyAppend`.
pub fn append_all<C: Mutable, V: Volume>(
    journal: C,
    vol: &mut V,
    items: &[C::Item],
) -> Result<C, JournalError>
    ensures none { length items.now ≡ 0 → (result ≡ Ok journal) × (vol.new ≡ vol.old) }
    ensures overflow { let end = end_of (log_of (C.view journal) (V.state vol.old)) in
        V.tells → IsErrOf result SizeOverflow → 2 ^ 64 - 1 < end + length items.now }
    ensures fits { let end = end_of (log_of (C.view journal) (V.state vol.old)) in
        OnOk result (V.tells → 0 < length items.now → end + length items.now ≤ 2 ^ 64 - 1) }
    ensures not_empty { IsErrOf result EmptyAppend → ⊥ }
    ensures made { IfOk result (λ made. SameButBounds (C.view journal) (C.view made)) }
    ensures held { IfOk result (λ made. V.tells → IsHeld (C.view journal) (V.state vol.old) →
        IsHeld (C.view made) (V.state vol.new)) }
    ensures appended { let log = log_of (C.view journal) (V.state vol.old) in
        OnOk result (V.tells →
        log_of (C.view journal) (V.state vol.new) ≡ appended log (map C.Item.spelling items.now)) }
    ensures listed { OnOk result (V.tells → (list : List C.Item) →
        Spells C.Item.spelling list (log_of (C.view journal) (V.state vol.old)) →
        Spells C.Item.spelling (list ++ items.now) (log_of (C.view journal) (V.state vol.new))) }
    ensures log { let step = Grows (log_of (C.view journal) (V.state vol.old)) (map C.Item.spelling items.now) in
        C.one_log → V.tells → LogCall (C.view journal).name step (V.state vol.old) (V.state vol.new) }
    ensures refused { RefusesUnwritten (V.state vol.old) (V.state vol.new) result }
    ensures errors { C.one_log → IfErr result IsOfSize }
    ensures writes { Writes V.tells Volume (V.state vol.old) (V.state vol.new) result }
{
    if items.is_empty() {
        return Ok(journal);
    }
    let (journal, _) = journal.append_many(vol, items)?;
    Ok(journal)
}
