//! A log made ready for the items of another.
ghost use Rattle.std.specs.Prelude.{◌≡◌, ◌↔◌, ◌⊎◌, ◌<◌, ◌-◌, ◌^◌, min, List, take, IsTrue, IfOk, IfErr, OnOk};
ghost use Rattle.journal_base.specs.Answers.{IsOfVolume};
ghost use Rattle.journal_base.specs.Items.{Spells};
ghost use Rattle.journal_base.specs.View.{log_of, left_of, SameButBounds, IsHeld};
ghost use Rattle.volume_base.specs.Log.{Log, cleared_at, end_of, BecomesOneOf};
ghost use Rattle.volume_base.specs.Moments.{LogKeeps};
ghost use Rattle.volume_base.specs.Names.{log_alone, NamesCall};
ghost use Rattle.volume_base.specs.Volume.{OnlyLeft, Follows, Changes};
ghost use Rattle.auth_journal.specs.Searching.{Covers, kept_between, Trims};

use journal_base::{Backing, BackingRecovery, Mutable};
use volume_base::{JournalError, Volume};

/// Whether a log with these bounds covers a place: it begins there, or before it and ends past it.
fn covers(start: u64, end: u64, place: u64) -> bool
    ensures { IsTrue result ↔ ((start ≡ place) ⊎ ((start < place) × (place < end))) }
{
    start == place || (start < place && place < end)
}

/// The log up to an end, without the whole blobs below a place.
fn keep_between<C: Backing + Mutable, V: Volume>(
    vol: &mut V,
    cfg: C::Config,
    start: u64,
    end: u64,
) -> Result<C, JournalError>
    ensures made { IfOk result (λ made. SameButBounds (C.config cfg) (C.view made)) }
    ensures held { IfOk result (λ made. V.tells → IsHeld (C.view made) (V.state vol.new)) }
    ensures kept { let log = log_of (C.config cfg) (V.state vol.old) in
        OnOk result (V.tells →
        log_of (C.config cfg) (V.state vol.new) ≡ kept_between (C.config cfg).blob log start end) }
    ensures listed { OnOk result (V.tells → (list : List C.Item) →
        Spells C.Item.spelling list (log_of (C.config cfg) (V.state vol.old)) →
        Spells C.Item.spelling (take end list) (log_of (C.config cfg) (V.state vol.new))) }
    // No crash brings an item at or past the end back.
    ensures ends { let view = C.config cfg in OnOk result (V.tells → (log : Log) → left_of view (V.state vol.new) log →
        end_of log ≡ end_of (log_of view (V.state vol.new))) }
    ensures log { let view = C.config cfg in let old = V.state vol.old in
        V.tells → LogKeeps view.name
        (Follows (left_of view old) (Trims (min end (end_of (log_of view old))) start)) old (V.state vol.new) }
    ensures errors { V.tells → (log_of (C.config cfg) (V.state vol.old)).start < end → IfErr result IsOfVolume }
    ensures names { V.tells → NamesCall (log_alone (C.config cfg).name) (V.state vol.old) (V.state vol.new) }
    ensures changes { Changes V.tells JournalError.Volume (V.state vol.old) (V.state vol.new) result }
{
    let seen = C::recover(vol, cfg, None)?;
    let journal = seen.finish(vol, end)?;
    let (journal, _) = journal.prune(vol, start)?;
    Ok(journal)
}

/// An empty log at a place.
fn cleared<C: Backing, V: Volume>(vol: &mut V, cfg: C::Config, size: u64) -> Result<C, JournalError>
    requires { size < 2 ^ 64 - 1 }
    ensures made { IfOk result (λ made. SameButBounds (C.config cfg) (C.view made)) }
    ensures held { IfOk result (λ made. V.tells → IsHeld (C.view made) (V.state vol.new)) }
    ensures cleared { OnOk result (V.tells → log_of (C.config cfg) (V.state vol.new) ≡ cleared_at size) }
    ensures durable { OnOk result (V.tells →
        OnlyLeft (left_of (C.config cfg) (V.state vol.new)) (cleared_at size)) }
    ensures log { let view = C.config cfg in let old = V.state vol.old in V.tells → LogKeeps view.name
        (Follows (left_of view old) (BecomesOneOf (cleared_at size))) old (V.state vol.new) }
    ensures errors { V.tells → IfErr result IsOfVolume }
    ensures names { V.tells → NamesCall (log_alone (C.config cfg).name) (V.state vol.old) (V.state vol.new) }
    ensures changes { Changes V.tells JournalError.Volume (V.state vol.old) (V.state vol.new) result }
{
    let empty = C::clear(vol, cfg, size)?;
    let journal = empty.finish(vol, size)?;
    Ok(journal)
}

/// Makes a log ready for the items from a start up to an end. One that covers the start is cut to the end, and its
/// whole blobs below the start are taken away; any other is cleared to the start.
pub fn init_sync<C: Backing + Mutable, V: Volume>(
    vol: &mut V,
    cfg: C::Config,
    start: u64,
    end: u64,
) -> Result<C, JournalError>
    requires some { start < end }
    ensures made { IfOk result (λ made. SameButBounds (C.config cfg) (C.view made)) }
    ensures held { IfOk result (λ made. V.tells → IsHeld (C.view made) (V.state vol.new)) }
    ensures kept { let log = log_of (C.config cfg) (V.state vol.old) in OnOk result (V.tells → Covers log start →
        log_of (C.config cfg) (V.state vol.new) ≡ kept_between (C.config cfg).blob log start end) }
    ensures listed { let log = log_of (C.config cfg) (V.state vol.old) in OnOk result (V.tells → Covers log start →
        (list : List C.Item) → Spells C.Item.spelling list log →
        Spells C.Item.spelling (take end list) (log_of (C.config cfg) (V.state vol.new))) }
    ensures cleared { let log = log_of (C.config cfg) (V.state vol.old) in OnOk result (V.tells → (Covers log start → ⊥) →
        (log_of (C.config cfg) (V.state vol.new) ≡ cleared_at start)
        × OnlyLeft (left_of (C.config cfg) (V.state vol.new)) (cleared_at start)) }
    // No crash brings an item at or past the end back.
    ensures ends { let view = C.config cfg in OnOk result (V.tells → Covers (log_of view (V.state vol.old)) start →
        (log : Log) → left_of view (V.state vol.new) log → end_of log ≡ end_of (log_of view (V.state vol.new))) }
    // Up to then an image loses at most what is behind the end, and what is below the start.
    ensures log { let view = C.config cfg in let old = V.state vol.old in
        V.tells → Covers (log_of view old) start → LogKeeps view.name
        (Follows (left_of view old) (Trims (min end (end_of (log_of view old))) start)) old (V.state vol.new) }
    ensures emptied { let view = C.config cfg in let old = V.state vol.old in
        V.tells → (Covers (log_of view old) start → ⊥) → LogKeeps view.name
        (Follows (left_of view old) (BecomesOneOf (cleared_at start))) old (V.state vol.new) }
    ensures errors { V.tells → IfErr result IsOfVolume }
    // Every other log and every map stays, and so does what a crash leaves of it.
    ensures names { V.tells → NamesCall (log_alone (C.config cfg).name) (V.state vol.old) (V.state vol.new) }
    ensures changes { Changes V.tells JournalError.Volume (V.state vol.old) (V.state vol.new) result }
{
    let (first, last) = C::span(vol, &cfg)?;
    if covers(first, last, start) {
        keep_between(vol, cfg, start, end)
    } else {
        cleared(vol, cfg, start)
    }
}
