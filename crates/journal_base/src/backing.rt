ghost use Rattle.std.specs.Prelude.{◌≡◌, ◌⊎◌, ◌+◌, ◌-◌, ◌<◌, ◌≤◌, ◌^◌, ◌++◌, ℕ, List, Some, false, length, map, min, take, IsOk, IfOk, IfErr, OnOk, IsErrOf};
ghost use Rattle.std.specs.Fn.{FnReturnsAt};
ghost use Rattle.journal_base.specs.Answers.{IsOfVolume, IsOfSize, IsOfStart, IsOfRead, IsRefusedAt, RefusesUnwritten};
ghost use Rattle.journal_base.specs.Clears.{Clears};
ghost use Rattle.journal_base.specs.Items.{items_of, Holds, IsCorrupt, GivesListed, Spells};
ghost use Rattle.journal_base.specs.Matches.{IsLastMatch, NoneMatches};
ghost use Rattle.journal_base.specs.View.{View, log_of, at_bounds, capped, SameButBounds, IsDurable, IsHeld, IsWithin};
ghost use Rattle.volume_base.specs.Log.{end_of, cut_to, appended, Grows, Shrinks};
ghost use Rattle.volume_base.specs.Volume.{LogCall, Writes, WritesLog, Reads};
ghost use Rattle.volume_base.specs.declared.error.JournalError.TheVariants.{ItemPruned, ItemOutOfRange, SizeOverflow, Corruption, Volume};

use crate::Mutable;
use codec_base::{Bytes, Duplicate, EncodeSize, Read, Write};
use volume_base::{JournalError, Volume};

/// A log that is being opened, seen up to an end.
pub trait BackingRecovery: Sized + Drop {
    /// What the log holds.
    type Item: Write + EncodeSize + Read + Duplicate + Drop;

    /// What is opened.
    type Journal;

    /// Its view: name, size of a blob, codec, bounds, and a kept failure.
    ghost view: { Self → View Self.Item.Cfg };

    /// The view of the opened journal.
    ghost opened: { Self.Journal → View Self.Item.Cfg };

    /// The start and the end of the view.
    fn bounds(&self) -> (u64, u64)
        ensures start { result.0 ≡ (view self.now).start }
        ensures end { result.1 ≡ (view self.now).end };

    /// The item at a position of the view. It refuses with `ItemPruned` below the view, with `ItemOutOfRange` at or
    /// past its end, and with `Corruption` where the bytes are no item.
    fn read<V: Volume>(&self, vol: &mut V, position: u64) -> Result<Self::Item, JournalError>
        ensures item { let items = items_of Self.Item.spelling Self.Item.admits (view self.now) (V.state vol.old) in
            IfOk result (λ item. V.tells → Holds items position item) }
        ensures admitted { IfOk result (λ item. Self.Item.admits (view self.now).codec item) }
        ensures within { OnOk result (((view self.now).start ≤ position) × (position < (view self.now).end)) }
        ensures pruned { (p : ℕ) → IsErrOf result (ItemPruned p) →
            (p ≡ position)
            × (V.tells → IsWithin (view self.now) (V.state vol.old) → position < (view self.now).start) }
        ensures out_of_range { (p : ℕ) → IsErrOf result (ItemOutOfRange p) →
            (p ≡ position)
            × (V.tells → IsWithin (view self.now) (V.state vol.old) → (view self.now).end ≤ position) }
        ensures corrupt { let items = items_of Self.Item.spelling Self.Item.admits (view self.now) (V.state vol.old) in
            (p : ℕ) → IsErrOf result (Corruption p) →
            (p ≡ position) × ((view self.now).start ≤ position) × (position < (view self.now).end)
            × (V.tells → IsCorrupt items position) }
        // Where the log is a run of a list, an item that is read is the list's.
        ensures listed { let items = items_of Self.Item.spelling Self.Item.admits (view self.now) (V.state vol.old) in
            V.tells → IsWithin (view self.now) (V.state vol.old) → GivesListed items position result }
        ensures errors { IfErr result IsOfRead }
        ensures answers { Reads V.tells Volume (V.state vol.old) (V.state vol.new) result }
        ensures reads { (V.state vol.new).reads ≤ (V.state vol.old).reads + 1 }
        ensures counted { OnOk result ((V.state vol.new).reads ≡ min ((V.state vol.old).reads + 1) (2 ^ 64 - 1)) };

    /// The end behind the last item below a ceiling that a predicate accepts. It reads each item at most once. It
    /// refuses with `Corruption` where it meets bytes that are no item, and with `ItemPruned` a ceiling below the
    /// view, or the start where nothing matches and the start isn't 0.
    fn last_matching<V: Volume, P: Fn(&Self::Item) -> bool>(
        &self,
        vol: &mut V,
        ceiling: u64,
        predicate: P,
    ) -> Result<u64, JournalError>
        requires { P.IsAlwaysCallable predicate }
        ensures found { let items = items_of Self.Item.spelling Self.Item.admits (view self.now) (V.state vol.old) in
            let says = FnReturnsAt P.Fn predicate in
            let start = (view self.now).start in
            let top = min ceiling (view self.now).end in
            IfOk result (λ end. V.tells → IsWithin (view self.now) (V.state vol.old) →
            IsLastMatch items says start top end
            ⊎ ((end ≡ 0) × (start ≡ 0) × NoneMatches items says 0 top)) }
        // Whatever the volume tells, it is an end behind an item below the ceiling, or 0 where the start is 0.
        ensures between { let start = (view self.now).start in
            IfOk result (λ end. ((start < end) × (end ≤ min ceiling (view self.now).end))
            ⊎ ((end ≡ 0) × (start ≡ 0))) }
        ensures pruned { let items = items_of Self.Item.spelling Self.Item.admits (view self.now) (V.state vol.old) in
            let says = FnReturnsAt P.Fn predicate in
            let start = (view self.now).start in
            let top = min ceiling (view self.now).end in
            (p : ℕ) → IsErrOf result (ItemPruned p) →
            ((p ≡ ceiling) × (ceiling < start))
            ⊎ (((p ≡ start) × (0 < start) × (start ≤ ceiling) × (V.tells → NoneMatches items says start top))
            ⊎ ((start ≤ p) × (p < top) × (V.tells → IsWithin (view self.now) (V.state vol.old) → ⊥))) }
        ensures out_of_range { let top = min ceiling (view self.now).end in
            (p : ℕ) → IsErrOf result (ItemOutOfRange p) →
            ((view self.now).start ≤ p) × (p < top)
            × (V.tells → IsWithin (view self.now) (V.state vol.old) → ⊥) }
        ensures corrupt { let items = items_of Self.Item.spelling Self.Item.admits (view self.now) (V.state vol.old) in
            let says = FnReturnsAt P.Fn predicate in
            let top = min ceiling (view self.now).end in
            (p : ℕ) → IsErrOf result (Corruption p) →
            ((view self.now).start ≤ p) × (p < top)
            × (V.tells → IsCorrupt items p × NoneMatches items says (p + 1) top) }
        ensures errors { IfErr result IsOfRead }
        ensures answers { Reads V.tells Volume (V.state vol.old) (V.state vol.new) result }
        ensures reads { let top = min ceiling (view self.now).end in
            (V.state vol.new).reads ≤ (V.state vol.old).reads + (top - (view self.now).start) }
        // Each item behind the match was read, and so was each from a position on that is refused.
        ensures counted { let top = min ceiling (view self.now).end in
            IfOk result (λ end. min ((V.state vol.old).reads + (top - end)) (2 ^ 64 - 1) ≤ (V.state vol.new).reads) }
        ensures counted_refused { let top = min ceiling (view self.now).end in
            (p : ℕ) → IsRefusedAt result p →
            min ((V.state vol.old).reads + (top - p)) (2 ^ 64 - 1) ≤ (V.state vol.new).reads };

    /// Leaves an empty log at a position. It refuses 2^64 - 1 with `SizeOverflow`.
    fn reset<V: Volume>(self, vol: &mut V, size: u64) -> Result<Self, JournalError>
        ensures made { IfOk result (λ made. view made ≡ at_bounds (view self) size size) }
        ensures within { IfOk result (λ made. V.tells → IsWithin (view made) (V.state vol.new)) }
        ensures clears { Clears V.tells (view self) size (V.state vol.old) (V.state vol.new) result };

    /// Cuts the log to the lesser of its end and a size, makes what is left durable, and opens it. It refuses a
    /// size below the log's start with `ItemPruned`.
    fn finish<V: Volume>(self, vol: &mut V, size: u64) -> Result<Self::Journal, JournalError>
        ensures pruned { let start = (log_of (view self) (V.state vol.old)).start in
            (p : ℕ) → IsErrOf result (ItemPruned p) → (p ≡ size) × (V.tells → size < start) }
        ensures reached { OnOk result (V.tells → (log_of (view self) (V.state vol.old)).start ≤ size) }
        ensures made { IfOk result (λ made. SameButBounds (view self) (opened made)) }
        ensures held { IfOk result (λ made. V.tells → IsHeld (opened made) (V.state vol.new)) }
        ensures cut { OnOk result (V.tells →
            log_of (view self) (V.state vol.new) ≡ cut_to (log_of (view self) (V.state vol.old)) size) }
        ensures listed { OnOk result (V.tells → (list : List Self.Item) →
            Spells Self.Item.spelling list (log_of (view self) (V.state vol.old)) →
            Spells Self.Item.spelling (take size list) (log_of (view self) (V.state vol.new))) }
        ensures durable { OnOk result (V.tells → IsDurable (view self) (V.state vol.new)) }
        ensures refused { RefusesUnwritten (V.state vol.old) (V.state vol.new) result }
        ensures errors { IfErr result IsOfStart }
        ensures call { let step = Shrinks (min size (end_of (log_of (view self) (V.state vol.old)))) in
            WritesLog V.tells Volume (view self).name step (V.state vol.old) (V.state vol.new) result };
}

/// A journal that is one log, and how it's opened.
pub trait Backing: Mutable {
    /// The log's name and what its items may be.
    type Config: Drop;

    /// The journal while it is being opened.
    type Recovery: BackingRecovery<Item = Self::Item, Journal = Self>;

    /// What a configuration tells of the journal.
    ghost config: { Self.Config → View Self.Item.Cfg };

    /// A view of the log that ends at the lesser of its end and a cap. It refuses a cap below the log's start with
    /// `ItemPruned`.
    fn recover<V: Volume>(
        vol: &mut V,
        cfg: Self::Config,
        max_size: Option<u64>,
    ) -> Result<Self::Recovery, JournalError>
        ensures pruned { let start = (log_of (config cfg) (V.state vol.old)).start in
            (p : ℕ) → IsErrOf result (ItemPruned p) → (max_size ≡ Some p) × (V.tells → p < start) }
        ensures reached { let start = (log_of (config cfg) (V.state vol.old)).start in
            OnOk result (V.tells → (cap : ℕ) → max_size ≡ Some cap → start ≤ cap) }
        ensures made { IfOk result (λ made. SameButBounds (config cfg) (Self.Recovery.view made)) }
        ensures start { let start = (log_of (config cfg) (V.state vol.old)).start in
            IfOk result (λ made. V.tells → (Self.Recovery.view made).start ≡ start) }
        ensures within { IfOk result (λ made. V.tells → IsWithin (Self.Recovery.view made) (V.state vol.new)) }
        ensures end { let end = end_of (log_of (config cfg) (V.state vol.old)) in
            IfOk result (λ made. V.tells → (Self.Recovery.view made).end ≡ capped max_size end) }
        ensures errors { IfErr result IsOfStart }
        ensures answers { Reads V.tells Volume (V.state vol.old) (V.state vol.new) result }
        ensures reads { (V.state vol.new).reads ≡ (V.state vol.old).reads };

    /// Leaves an empty log at a position. It refuses 2^64 - 1 with `SizeOverflow`.
    fn clear<V: Volume>(
        vol: &mut V,
        cfg: Self::Config,
        size: u64,
    ) -> Result<Self::Recovery, JournalError>
        ensures made { IfOk result (λ made. Self.Recovery.view made ≡ at_bounds (config cfg) size size) }
        ensures within { IfOk result (λ made. V.tells → IsWithin (Self.Recovery.view made) (V.state vol.new)) }
        ensures clears { Clears V.tells (config cfg) size (V.state vol.old) (V.state vol.new) result };

    /// The start and the end of the log.
    fn span<V: Volume>(vol: &mut V, cfg: &Self::Config) -> Result<(u64, u64), JournalError>
        ensures start { IfOk result (λ bounds. V.tells → bounds.0 ≡ (log_of (config cfg.now) (V.state vol.old)).start) }
        ensures end { IfOk result (λ bounds. V.tells → bounds.1 ≡ end_of (log_of (config cfg.now) (V.state vol.old))) }
        ensures errors { IfErr result IsOfVolume }
        ensures answers { Reads V.tells Volume (V.state vol.old) (V.state vol.new) result }
        ensures reads { (V.state vol.new).reads ≡ (V.state vol.old).reads };

    /// Puts items of which these are the encodings behind the end, by one append, and answers where the first of them
    /// stands; of none nothing is written, and it answers the end of the view. It refuses with `SizeOverflow` where
    /// the end would pass 2^64 - 1.
    fn append_encoded<V: Volume>(
        self,
        vol: &mut V,
        encodings: &[Bytes],
    ) -> Result<(Self, u64), JournalError>
        ensures none { length encodings.now ≡ 0 →
            IsOk result × (vol.new ≡ vol.old)
            × IfOk result (λ made. (made.0 ≡ self) × (made.1 ≡ (Self.view self).end)) }
        ensures overflow { let end = end_of (log_of (Self.view self) (V.state vol.old)) in
            V.tells → IsErrOf result SizeOverflow → (end ≤ 2 ^ 64 - 1) × (2 ^ 64 - 1 < end + length encodings.now) }
        ensures fits { let end = end_of (log_of (Self.view self) (V.state vol.old)) in
            OnOk result (V.tells → 0 < length encodings.now → end + length encodings.now ≤ 2 ^ 64 - 1) }
        ensures position { let end = end_of (log_of (Self.view self) (V.state vol.old)) in
            IfOk result (λ made. V.tells → 0 < length encodings.now → made.1 ≡ end) }
        // Whatever the volume tells, the last of them has a position.
        ensures room { IfOk result (λ made. 0 < length encodings.now →
            made.1 + length encodings.now ≤ 2 ^ 64 - 1) }
        ensures made { IfOk result (λ made. SameButBounds (Self.view self) (Self.view made.0)) }
        ensures held { IfOk result (λ made. V.tells →
            (0 < length encodings.now) ⊎ IsHeld (Self.view self) (V.state vol.old) →
            IsHeld (Self.view made.0) (V.state vol.new)) }
        ensures appended { let log = log_of (Self.view self) (V.state vol.old) in
            OnOk result (V.tells → log_of (Self.view self) (V.state vol.new) ≡ appended log encodings.now) }
        ensures listed { OnOk result (V.tells → (list items : List Self.Item) →
            map Self.Item.spelling items ≡ encodings.now →
            Spells Self.Item.spelling list (log_of (Self.view self) (V.state vol.old)) →
            Spells Self.Item.spelling (list ++ items) (log_of (Self.view self) (V.state vol.new))) }
        ensures log { let step = Grows (log_of (Self.view self) (V.state vol.old)) encodings.now in
            V.tells → LogCall (Self.view self).name step (V.state vol.old) (V.state vol.new) }
        ensures refused { RefusesUnwritten (V.state vol.old) (V.state vol.new) result }
        ensures errors { IfErr result IsOfSize }
        ensures writes { Writes V.tells Volume (V.state vol.old) (V.state vol.new) result };

    /// It is one log alone.
    ghost is_one_log: { Self.one_log };

    /// What is opened keeps no failure.
    ghost fresh: { (cfg : Self.Config) → (config cfg).failed ≡ false };

    /// What a recovery says of an opened journal is what the journal tells.
    ghost opened_is: { (journal : Self) → Self.Recovery.opened journal ≡ Self.view journal };
}
