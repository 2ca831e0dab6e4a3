ghost use Rattle.std.specs.Prelude.{◌≡◌, ◌+◌, ◌-◌, ◌<◌, ◌≤◌, ◌^◌, ℕ, min, length, Contains, IfOk, IfErr, OnOk, IsErrOf};
ghost use Rattle.journal_base.specs.Answers.{IsOfRead, IsOfRange, IsRefusedAt};
ghost use Rattle.journal_base.specs.Items.{items_of, Holds, IsCorrupt, GivesListed};
ghost use Rattle.journal_base.specs.Reads.{AreItemsAt, IsFirstFailing};
ghost use Rattle.journal_base.specs.Replays.{journal_of, next_of, end_at};
ghost use Rattle.journal_base.specs.View.{View, log_of};
ghost use Rattle.volume_base.specs.Log.{end_of};
ghost use Rattle.volume_base.specs.Volume.{Reads};
ghost use Rattle.volume_base.specs.declared.error.JournalError.TheVariants.{ItemPruned, ItemOutOfRange, Corruption, Volume};

use crate::Replay;
use codec_base::{Duplicate, EncodeSize, Read, Write};
use volume_base::{JournalError, Volume};

/// A run of items in a log.
pub trait Contiguous: Sized + Drop {
    /// What it holds.
    type Item: Write + EncodeSize + Read + Duplicate + Drop;

    /// Its view: name, size of a blob, codec, bounds, and a kept failure.
    ghost view: { Self → View Self.Item.Cfg };

    /// The start and the end.
    fn bounds(&self) -> (u64, u64)
        ensures start { result.0 ≡ (view self.now).start }
        ensures end { result.1 ≡ (view self.now).end };

    /// The item at a position. It refuses with `ItemPruned` below the start, with `ItemOutOfRange` at or past the
    /// end, and with `Corruption` where the bytes are no item.
    fn read<V: Volume>(&self, vol: &mut V, position: u64) -> Result<Self::Item, JournalError>
        ensures item { let items = items_of Self.Item.spelling Self.Item.admits (view self.now) (V.state vol.old) in
            IfOk result (λ item. V.tells → Holds items position item) }
        ensures admitted { IfOk result (λ item. Self.Item.admits (view self.now).codec item) }
        ensures pruned { let log = log_of (view self.now) (V.state vol.old) in
            (p : ℕ) → IsErrOf result (ItemPruned p) → (p ≡ position) × (V.tells → position < log.start) }
        ensures out_of_range { let log = log_of (view self.now) (V.state vol.old) in
            (p : ℕ) → IsErrOf result (ItemOutOfRange p) → (p ≡ position) × (V.tells → end_of log ≤ position) }
        ensures corrupt { let items = items_of Self.Item.spelling Self.Item.admits (view self.now) (V.state vol.old) in
            (p : ℕ) → IsErrOf result (Corruption p) → (p ≡ position) × (V.tells → IsCorrupt items position) }
        // Where the log is a run of a list, an item that is read is the list's.
        ensures listed { let items = items_of Self.Item.spelling Self.Item.admits (view self.now) (V.state vol.old) in
            V.tells → GivesListed items position result }
        ensures errors { IfErr result IsOfRead }
        ensures answers { Reads V.tells Volume (V.state vol.old) (V.state vol.new) result }
        ensures reads { (V.state vol.new).reads ≡ min ((V.state vol.old).reads + 1) (2 ^ 64 - 1) };

    /// The items at these positions, in their order. The first that can't be read is refused as by `read`.
    fn read_many<V: Volume>(
        &self,
        vol: &mut V,
        positions: &[u64],
    ) -> Result<Vec<Self::Item>, JournalError>
        ensures items { let items = items_of Self.Item.spelling Self.Item.admits (view self.now) (V.state vol.old) in
            IfOk result (λ read. V.tells → AreItemsAt items positions.now read.items) }
        ensures pruned { let items = items_of Self.Item.spelling Self.Item.admits (view self.now) (V.state vol.old) in
            V.tells → (p : ℕ) → IsErrOf result (ItemPruned p) →
            IsFirstFailing items positions.now p × (p < items.log.start) }
        ensures out_of_range { let state = V.state vol.old in
            let items = items_of Self.Item.spelling Self.Item.admits (view self.now) state in
            V.tells → (p : ℕ) → IsErrOf result (ItemOutOfRange p) →
            IsFirstFailing items positions.now p × (end_of items.log ≤ p) }
        ensures corrupt { let items = items_of Self.Item.spelling Self.Item.admits (view self.now) (V.state vol.old) in
            V.tells → (p : ℕ) → IsErrOf result (Corruption p) →
            IsFirstFailing items positions.now p × IsCorrupt items p }
        // Whatever the volume tells, a refusal names a position that was asked for.
        ensures asked { (p : ℕ) → IsRefusedAt result p → Contains positions.now p }
        ensures errors { IfErr result IsOfRead }
        ensures answers { Reads V.tells Volume (V.state vol.old) (V.state vol.new) result }
        ensures reads { (V.state vol.new).reads ≤ (V.state vol.old).reads + length positions.now }
        ensures counted { let least = (V.state vol.old).reads + length positions.now in
            OnOk result (min least (2 ^ 64 - 1) ≤ (V.state vol.new).reads) };

    /// The items from a position on to another, to be read one by one. It refuses with `ItemPruned` where the one
    /// lies below the start, and with `ItemOutOfRange` where the other lies past the end.
    fn replay(&self, from: u64, to: u64) -> Result<Replay<'_, Self>, JournalError>
        ensures pruned { (p : ℕ) → IsErrOf result (ItemPruned p) → (p ≡ from) × (from < (view self.now).start) }
        ensures out_of_range { (p : ℕ) → IsErrOf result (ItemOutOfRange p) →
            (p ≡ to) × ((view self.now).start ≤ from) × ((view self.now).end < to) }
        ensures within { OnOk result (((view self.now).start ≤ from) × (to ≤ (view self.now).end)) }
        ensures made { IfOk result (λ replay.
            (journal_of replay ≡ self.now) × (next_of replay ≡ from) × (end_at replay ≡ to)) }
        ensures errors { IfErr result IsOfRange }
    {
        let (start, end) = self.bounds();
        if from < start {
            return Err(JournalError::ItemPruned(from));
        }
        if end < to {
            return Err(JournalError::ItemOutOfRange(to));
        }
        Ok(Replay {
            journal: self,
            next: from,
            end: to,
        })
    }
}
