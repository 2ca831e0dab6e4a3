//! Items read one after another.
ghost use Rattle.std.specs.Prelude.{◌≡◌, ◌-◌, ◌≤◌, List, length, take, drop, IfOk, IfErr};
ghost use Rattle.journal_base.specs.Answers.{IsOfVolume};
ghost use Rattle.journal_base.specs.Items.{items_of, Spells};
ghost use Rattle.journal_base.specs.View.{log_of};
ghost use Rattle.volume_base.specs.Volume.{Reads};
ghost use Rattle.journal_base.specs.Reads.{AreItemsAt};
ghost use Rattle.auth_journal.specs.Reading.{positions, AreUnread, AreAdmitted};

use journal_base::Contiguous;
use std::alloc::Global;
use volume_base::{JournalError, Volume};

/// The items from one position up to another. The first that can't be read is refused as by `read`.
pub(crate) fn read_range<C: Contiguous, V: Volume>(
    alloc: Global,
    journal: &C,
    vol: &mut V,
    from: u64,
    to: u64,
) -> Result<Vec<C::Item>, JournalError>
    ensures counted { IfOk result (λ read. length read.items ≡ to - from) }
    ensures items { let items = items_of C.Item.spelling C.Item.admits (C.view journal.now) (V.state vol.old) in
        IfOk result (λ read. V.tells → AreItemsAt items (positions from to) read.items) }
    ensures unread { let items = items_of C.Item.spelling C.Item.admits (C.view journal.now) (V.state vol.old) in
        IfErr result (AreUnread V.tells items from to) }
    // Where the log is a run of a list, they are the list's.
    ensures listed { let log = log_of (C.view journal.now) (V.state vol.old) in
        IfOk result (λ read. V.tells → (list : List C.Item) → Spells C.Item.spelling list log →
        log.start ≤ from → to ≤ length list → AreAdmitted (C.Item.admits (C.view journal.now).codec) list from to →
        read.items ≡ take (to - from) (drop from list)) }
    ensures outside { let log = log_of (C.view journal.now) (V.state vol.old) in
        V.tells → (list : List C.Item) → Spells C.Item.spelling list log →
        log.start ≤ from → to ≤ length list → AreAdmitted (C.Item.admits (C.view journal.now).codec) list from to →
        IfErr result IsOfVolume }
    ensures reads { Reads V.tells JournalError.Volume (V.state vol.old) (V.state vol.new) result }
{
    let mut items = Vec::new(alloc);
    for position in from..to {
        let item = journal.read(vol, position)?;
        items.push(item)?;
    }
    Ok(items)
}
