ghost use Rattle.std.specs.Prelude.{◌≡◌, ◌+◌, ◌-◌, ◌<◌, ◌≤◌, ◌^◌, true, false, length, map, IfOk, IfErr, OnOk, IsErrOf};
ghost use Rattle.journal_base.specs.Answers.{IsOfSize, RefusesUnwritten};
ghost use Rattle.journal_base.specs.View.{log_of, SameButBounds, IsHeld};
ghost use Rattle.marked_log.specs.MarkedLog.{AreDurable, Marks};
ghost use Rattle.volume_base.specs.Log.{end_of, appended};
ghost use Rattle.volume_base.specs.Names.{log_and_map, NamesCall};
ghost use Rattle.volume_base.specs.Volume.{Writes};
ghost use Rattle.volume_base.specs.declared.error.JournalError.TheVariants.{SizeOverflow, Volume};

use journal_base::{Backing, append_all};
use volume_base::{JournalError, MetaMap};

/// Appends items to a journal, makes them durable, and then puts a map of this name that marks them. It refuses with
/// `SizeOverflow` where the end would pass 2^64 - 1, and with `Volume` a journal that keeps a failed sync.
pub fn append_and_mark<C: Backing, V: volume_base::Volume>(
    journal: C,
    vol: &mut V,
    items: &[C::Item],
    name: &str,
    mark: &MetaMap,
) -> Result<C, JournalError>
    ensures kept { (C.view journal).failed ≡ true → IsErrOf result Volume × (vol.new ≡ vol.old) }
    ensures overflow { let end = end_of (log_of (C.view journal) (V.state vol.old)) in
        V.tells → IsErrOf result SizeOverflow → 2 ^ 64 - 1 < end + length items.now }
    ensures fits { let end = end_of (log_of (C.view journal) (V.state vol.old)) in
        OnOk result (V.tells → 0 < length items.now → end + length items.now ≤ 2 ^ 64 - 1) }
    ensures made { IfOk result (λ made. SameButBounds (C.view journal) (C.view made)) }
    ensures held { IfOk result (λ made. V.tells → IsHeld (C.view journal) (V.state vol.old) →
        IsHeld (C.view made) (V.state vol.new)) }
    ensures appended { let log = log_of (C.view journal) (V.state vol.old) in
        OnOk result (V.tells →
        log_of (C.view journal) (V.state vol.new) ≡ appended log (map C.Item.spelling items.now)) }
    ensures marked { OnOk result (V.tells → (V.state vol.new).map name.now ≡ mark.now) }
    ensures durable { OnOk result (V.tells → AreDurable (C.view journal).name name.now (V.state vol.new)) }
    // Where log and map were durable: up to a turn a crash leaves the old map, and from it on all items.
    ensures images { let log = (C.view journal).name in
        let texts = map C.Item.spelling items.now in
        V.tells → AreDurable log name.now (V.state vol.old) →
        Marks log name.now texts mark.now (V.state vol.old) (V.state vol.new) result }
    // Every other log and map stays, and so does what a crash leaves of it.
    ensures names { let names = log_and_map (C.view journal).name name.now in
        V.tells → NamesCall names (V.state vol.old) (V.state vol.new) }
    ensures refused { RefusesUnwritten (V.state vol.old) (V.state vol.new) result }
    ensures errors { IfErr result IsOfSize }
    ensures writes { (C.view journal).failed ≡ false →
        Writes V.tells Volume (V.state vol.old) (V.state vol.new) result }
{
    if journal.keeps_failure() {
        return Err(JournalError::Volume);
    }
    let journal = append_all(journal, vol, items)?;
    let journal = journal.sync(vol)?;
    vol.map_replace(name, mark)?;
    Ok(journal)
}
