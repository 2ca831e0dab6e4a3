//! Items in their order, one by one.
ghost use Rattle.std.specs.Prelude.{◌≡◌, ◌+◌, ◌-◌, ◌<◌, ◌≤◌, ◌^◌, ℕ, min, MatchOption, MatchResult, IfSome, IfOk, IfErr, IsErrOf};
ghost use Rattle.journal_base.specs.Answers.{IsOfRead};
ghost use Rattle.journal_base.specs.Items.{items_of, Holds, IsCorrupt};
ghost use Rattle.journal_base.specs.Replays.{journal_of, next_of, end_at};
ghost use Rattle.journal_base.specs.View.{log_of};
ghost use Rattle.volume_base.specs.Log.{end_of};
ghost use Rattle.volume_base.specs.Volume.{Reads};
ghost use Rattle.volume_base.specs.declared.error.JournalError.TheVariants.{ItemPruned, ItemOutOfRange, Corruption};

use crate::Contiguous;
use volume_base::{JournalError, Volume};

/// The items of a journal from a position on to another.
#[derive(Drop)]
pub struct Replay<'a, J> {
    pub(crate) journal: &'a J,
    pub(crate) next: u64,
    pub(crate) end: u64,
}

impl<J: Contiguous> Replay<'_, J> {
    /// The next item. After an error there is none.
    pub fn next<V: Volume>(&mut self, vol: &mut V) -> Option<Result<J::Item, JournalError>>
        ensures some { MatchOption result
            (end_at self.old ≤ next_of self.old)
            (λ _. next_of self.old < end_at self.old) }
        ensures same { (journal_of self.new ≡ journal_of self.old) × (end_at self.new ≡ end_at self.old) }
        ensures next { MatchOption result (next_of self.new ≡ next_of self.old) (λ answer. MatchResult answer
            (λ _. next_of self.new ≡ next_of self.old + 1)
            (λ _. end_at self.old ≤ next_of self.new)) }
        ensures item { let view = J.view (journal_of self.old) in
            let items = items_of J.Item.spelling J.Item.admits view (V.state vol.old) in
            IfSome result (λ answer. IfOk answer (λ item. V.tells → Holds items (next_of self.old) item)) }
        ensures admitted { IfSome result (λ answer.
            IfOk answer (λ item. J.Item.admits (J.view (journal_of self.old)).codec item)) }
        ensures pruned { let log = log_of (J.view (journal_of self.old)) (V.state vol.old) in
            IfSome result (λ answer. (p : ℕ) → IsErrOf answer (ItemPruned p) →
            (p ≡ next_of self.old) × (V.tells → next_of self.old < log.start)) }
        ensures out_of_range { let log = log_of (J.view (journal_of self.old)) (V.state vol.old) in
            IfSome result (λ answer. (p : ℕ) → IsErrOf answer (ItemOutOfRange p) →
            (p ≡ next_of self.old) × (V.tells → end_of log ≤ next_of self.old)) }
        ensures corrupt { let view = J.view (journal_of self.old) in
            let items = items_of J.Item.spelling J.Item.admits view (V.state vol.old) in
            IfSome result (λ answer. (p : ℕ) → IsErrOf answer (Corruption p) →
            (p ≡ next_of self.old) × (V.tells → IsCorrupt items (next_of self.old))) }
        ensures errors { IfSome result (λ answer. IfErr answer IsOfRead) }
        ensures answers { MatchOption result (vol.new ≡ vol.old) (λ answer.
            Reads V.tells JournalError.Volume (V.state vol.old) (V.state vol.new) answer) }
        ensures reads { IfSome result (λ _. (V.state vol.new).reads ≡ min ((V.state vol.old).reads + 1) (2 ^ 64 - 1)) }
    {
        if self.next >= self.end {
            return None;
        }
        let answer = self.journal.read(vol, self.next);
        if answer.is_ok() {
            self.next += 1;
        } else {
            self.next = self.end;
        }
        Some(answer)
    }
}
