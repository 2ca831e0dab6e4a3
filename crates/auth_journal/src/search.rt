//! At which end a log is opened.
ghost use Rattle.std.specs.Prelude.{◌<◌, ◌≤◌, ◌-◌, IfOk, IfErr};
ghost use Rattle.std.specs.Fn.{FnReturnsAt};
ghost use Rattle.journal_base.specs.Answers.{IsOfRead};
ghost use Rattle.journal_base.specs.Items.{items_of};
ghost use Rattle.journal_base.specs.View.{IsHeld};
ghost use Rattle.volume_base.specs.Volume.{Reads};
ghost use Rattle.auth_journal.specs.Searching.{EndsAt, NotFound};

use journal_base::BackingRecovery;
use volume_base::{JournalError, Volume};

/// The end behind the last item up to a cap, or any, that a predicate accepts. An empty log without a cap keeps its
/// position. It refuses as `last_matching`.
pub(crate) fn find_end<R: BackingRecovery, V: Volume, P: Fn(&R::Item) -> bool>(
    journal: &R,
    vol: &mut V,
    max_size: Option<u64>,
    predicate: P,
) -> Result<u64, JournalError>
    requires callable { P.IsAlwaysCallable predicate }
    ensures found { let items = items_of R.Item.spelling R.Item.admits (R.view journal.now) (V.state vol.old) in
        let says = FnReturnsAt P.Fn predicate in
        IfOk result (λ end. V.tells → IsHeld (R.view journal.now) (V.state vol.old) →
        EndsAt items says max_size end) }
    // Whatever the volume tells.
    ensures between { let view = R.view journal.now in
        IfOk result (λ end. (view.start ≤ end) × (end ≤ view.end)) }
    ensures refused { let items = items_of R.Item.spelling R.Item.admits (R.view journal.now) (V.state vol.old) in
        let says = FnReturnsAt P.Fn predicate in
        V.tells → IsHeld (R.view journal.now) (V.state vol.old) → IfErr result (NotFound items says max_size) }
    ensures errors { IfErr result IsOfRead }
    ensures reads { Reads V.tells JournalError.Volume (V.state vol.old) (V.state vol.new) result }
{
    let (start, end) = journal.bounds();
    if max_size.is_none() && start == end {
        return Ok(end);
    }
    journal.last_matching(vol, max_size.unwrap_or(end), predicate)
}
