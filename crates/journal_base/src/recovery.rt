ghost use Rattle.std.specs.Prelude.{◌≡◌, ◌≤◌, ◌<◌, ◌+◌, ◌-◌, ℕ, min, max, IfOk, IfErr, OnOk, IsErrOf};
ghost use Rattle.journal_base.specs.Answers.{IsOfVolume, IsOfStart, RefusesUnwritten};
ghost use Rattle.journal_base.specs.Clears.{Clears};
ghost use Rattle.journal_base.specs.View.{view_of, seen_of, config_of, log_of, prune_point, at_bounds, SameButBounds, capped, IsHeld, IsWithin};
ghost use Rattle.volume_base.specs.Log.{end_of, cut_to, pruned_to, Shrinks, Advances};
ghost use Rattle.volume_base.specs.Volume.{WritesLog, Reads};
ghost use Rattle.volume_base.specs.declared.error.JournalError.TheVariants.{ItemPruned, Volume};

use crate::journal::start_of_blob;
use crate::matching::match_below;
use crate::{Backing, BackingRecovery, Contiguous, Journal, JournalConfig, Kind, Variable};
use codec_base::{Bytes, Duplicate, EncodeSize, Read, Write};
use volume_base::{JournalError, Volume};

/// A journal that is being opened. It ends where the view ends.
#[derive(Drop)]
pub struct Recovery<T: Read, K = Variable> {
    seen: Journal<T, K>,
}

/// Cuts a log where its end falls.
fn cut_down<V: Volume>(vol: &mut V, name: &str, end: u64, to: u64) -> Result<(), JournalError>
    requires low { V.tells → ((V.state vol.old).log name.now).start ≤ to }
    requires end_is { V.tells → end ≡ end_of ((V.state vol.old).log name.now) }
    ensures cut { OnOk result (V.tells → (V.state vol.new).log name.now ≡ cut_to ((V.state vol.old).log name.now) to) }
    // Where the end doesn't fall nothing is written.
    ensures still { end ≤ to → vol.new ≡ vol.old }
    ensures errors { IfErr result IsOfVolume }
    ensures call { WritesLog V.tells Volume name.now (Shrinks to) (V.state vol.old) (V.state vol.new) result }
{
    if to < end {
        vol.log_cut(name, to)?;
    }
    Ok(())
}

/// The end of a view of these bounds, under a cap or none.
fn end_under(start: u64, end: u64, max_size: Option<u64>) -> Result<u64, JournalError>
    ensures end { IfOk result (λ made. made ≡ capped max_size end) }
    ensures reached { OnOk result ((cap : ℕ) → max_size ≡ Some cap → start ≤ cap) }
    ensures pruned { (p : ℕ) → IsErrOf result (ItemPruned p) → (max_size ≡ Some p) × (p < start) }
    ensures errors { IfErr result (λ e. (p : ℕ) × (e ≡ ItemPruned p)) }
{
    match max_size {
        None => Ok(end),
        Some(cap) => {
            if cap < start {
                return Err(JournalError::ItemPruned(cap));
            }
            Ok(cap.min(end))
        }
    }
}

impl<T: Write + EncodeSize + Read + Duplicate + Drop, K: Kind<T>> BackingRecovery
    for Recovery<T, K> {
    type Item = T;

    type Journal = Journal<T, K>;

    ghost view = { λ recovery. seen_of recovery };

    ghost opened = { λ journal. view_of journal };

    fn bounds(&self) -> (u64, u64) {
        (self.seen.start, self.seen.end)
    }

    fn read<V: Volume>(&self, vol: &mut V, position: u64) -> Result<T, JournalError> {
        if position < self.seen.start {
            return Err(JournalError::ItemPruned(position));
        }
        if position >= self.seen.end {
            return Err(JournalError::ItemOutOfRange(position));
        }
        let item = self.seen.read(vol, position)?;
        Ok(item)
    }

    fn last_matching<V: Volume, P: Fn(&T) -> bool>(
        &self,
        vol: &mut V,
        ceiling: u64,
        predicate: P,
    ) -> Result<u64, JournalError> {
        if ceiling < self.seen.start {
            return Err(JournalError::ItemPruned(ceiling));
        }
        let found = match_below(&self.seen, vol, ceiling.min(self.seen.end), predicate)?;
        if let Some(end) = found {
            return Ok(end);
        }
        if self.seen.start > 0 {
            return Err(JournalError::ItemPruned(self.seen.start));
        }
        Ok(0)
    }

    fn reset<V: Volume>(self, vol: &mut V, size: u64) -> Result<Self, JournalError> {
        let seen = self.seen.clear_to_size(vol, size)?;
        Ok(Recovery { seen })
    }

    fn finish<V: Volume>(self, vol: &mut V, size: u64) -> Result<Journal<T, K>, JournalError> {
        let name = self.seen.name.as_str();
        let (start, end) = vol.log_bounds(name)?;
        if size < start {
            return Err(JournalError::ItemPruned(size));
        }
        let to = size.min(end);
        cut_down(vol, name, end, to)?;
        vol.log_sync(name)?;
        Ok(Journal {
            start,
            end: to,
            ..self.seen
        })
    }
}

impl<T: Write + EncodeSize + Read + Duplicate + Drop, K: Kind<T>> Recovery<T, K> {
    /// Cuts the log to the lesser of the view's end and a size, where its end falls, and the view ends there. It
    /// refuses a size below the log's start with `ItemPruned`.
    pub fn truncate<V: Volume>(self, vol: &mut V, size: u64) -> Result<Self, JournalError>
        ensures pruned { let start = (log_of (seen_of self) (V.state vol.old)).start in
            (p : ℕ) → IsErrOf result (ItemPruned p) → (p ≡ size) × (V.tells → size < start) }
        ensures reached { OnOk result (V.tells → (log_of (seen_of self) (V.state vol.old)).start ≤ size) }
        ensures made { IfOk result (λ made. SameButBounds (seen_of self) (seen_of made)) }
        ensures end { IfOk result (λ made. V.tells → IsWithin (seen_of self) (V.state vol.old) →
            (seen_of made).end ≡ min size (seen_of self).end) }
        ensures within { IfOk result (λ made. V.tells → IsWithin (seen_of made) (V.state vol.new)) }
        ensures cut { let log = log_of (seen_of self) (V.state vol.old) in
            OnOk result (V.tells →
            log_of (seen_of self) (V.state vol.new) ≡ cut_to log (min size (seen_of self).end)) }
        // Where the log's end doesn't fall nothing is written.
        ensures still { V.tells → end_of (log_of (seen_of self) (V.state vol.old)) ≤ min size (seen_of self).end →
            (V.state vol.new).clock ≡ (V.state vol.old).clock }
        ensures refused { RefusesUnwritten (V.state vol.old) (V.state vol.new) result }
        ensures errors { IfErr result IsOfStart }
        ensures call { let step = Shrinks (min size (seen_of self).end) in
            WritesLog V.tells Volume (seen_of self).name step (V.state vol.old) (V.state vol.new) result }
    {
        let name = self.seen.name.as_str();
        let (start, end) = vol.log_bounds(name)?;
        if size < start {
            return Err(JournalError::ItemPruned(size));
        }
        let to = size.min(self.seen.end).max(start);
        cut_down(vol, name, end, to)?;
        let seen = Journal {
            start,
            end: to.min(end),
            ..self.seen
        };
        Ok(Recovery { seen })
    }

    /// Takes whole blobs below a position of the view away.
    pub fn prune<V: Volume>(self, vol: &mut V, least: u64) -> Result<Self, JournalError>
        ensures made { IfOk result (λ made. SameButBounds (seen_of self) (seen_of made)) }
        ensures end { IfOk result (λ made. V.tells → IsWithin (seen_of self) (V.state vol.old) →
            (seen_of made).end ≡ (seen_of self).end) }
        ensures within { IfOk result (λ made. V.tells → IsWithin (seen_of self) (V.state vol.old) →
            IsWithin (seen_of made) (V.state vol.new)) }
        ensures pruned { let log = log_of (seen_of self) (V.state vol.old) in
            let point = prune_point (seen_of self) (min least (seen_of self).end) (V.state vol.old) in
            OnOk result (V.tells → log_of (seen_of self) (V.state vol.new) ≡ pruned_to log point) }
        // Where the start doesn't rise nothing is written.
        ensures still { let point = prune_point (seen_of self) (min least (seen_of self).end) (V.state vol.old) in
            V.tells → point ≤ (log_of (seen_of self) (V.state vol.old)).start →
            (V.state vol.new).clock ≡ (V.state vol.old).clock }
        ensures errors { IfErr result IsOfVolume }
        ensures call { let point = prune_point (seen_of self) (min least (seen_of self).end) (V.state vol.old) in
            let step = Advances point in
            WritesLog V.tells Volume (seen_of self).name step (V.state vol.old) (V.state vol.new) result }
    {
        let name = self.seen.name.as_str();
        let (start, end) = vol.log_bounds(name)?;
        let top = least.min(self.seen.end).min(end);
        let to = start_of_blob(self.seen.items_per_blob, top);
        if to <= start {
            return Ok(self);
        }
        vol.log_prune(name, to)?;
        let seen = Journal {
            start: to,
            ..self.seen
        };
        Ok(Recovery { seen })
    }

    /// As `reset`.
    pub fn clear_to_size<V: Volume>(self, vol: &mut V, size: u64) -> Result<Self, JournalError>
        ensures made { IfOk result (λ made. seen_of made ≡ at_bounds (seen_of self) size size) }
        ensures within { IfOk result (λ made. V.tells → IsWithin (seen_of made) (V.state vol.new)) }
        ensures clears { Clears V.tells (seen_of self) size (V.state vol.old) (V.state vol.new) result }
    {
        self.reset(vol, size)
    }

    /// Ends the view at the log's end.
    pub fn unbounded<V: Volume>(self, vol: &mut V) -> Result<Self, JournalError>
        ensures made { IfOk result (λ made. SameButBounds (seen_of self) (seen_of made)) }
        ensures held { IfOk result (λ made. V.tells → IsHeld (seen_of made) (V.state vol.old)) }
        ensures errors { IfErr result IsOfVolume }
        ensures answers { Reads V.tells Volume (V.state vol.old) (V.state vol.new) result }
        ensures reads { (V.state vol.new).reads ≡ (V.state vol.old).reads }
    {
        let (start, end) = vol.log_bounds(self.seen.name.as_str())?;
        let seen = Journal {
            start,
            end,
            ..self.seen
        };
        Ok(Recovery { seen })
    }
}

impl<T: Write + EncodeSize + Read + Duplicate + Drop, K: Kind<T>> Backing for Journal<T, K> {
    type Config = JournalConfig<T::Cfg>;

    type Recovery = Recovery<T, K>;

    ghost use Rattle.std.specs.Prelude.{refl};

    ghost config = { λ cfg. config_of cfg };

    ghost is_one_log = { tt };

    ghost fresh = { λ _. refl };

    ghost opened_is = { λ journal. refl };

    fn recover<V: Volume>(
        vol: &mut V,
        cfg: JournalConfig<T::Cfg>,
        max_size: Option<u64>,
    ) -> Result<Recovery<T, K>, JournalError> {
        let (start, end) = vol.log_bounds(cfg.name.as_str())?;
        let end = end_under(start, end, max_size)?;
        Ok(Recovery {
            seen: Journal::new(cfg, start, end),
        })
    }

    fn clear<V: Volume>(
        vol: &mut V,
        cfg: JournalConfig<T::Cfg>,
        size: u64,
    ) -> Result<Recovery<T, K>, JournalError> {
        let recovery = Recovery {
            seen: Journal::new(cfg, size, size),
        };
        recovery.reset(vol, size)
    }

    fn span<V: Volume>(
        vol: &mut V,
        cfg: &JournalConfig<T::Cfg>,
    ) -> Result<(u64, u64), JournalError> {
        let bounds = vol.log_bounds(cfg.name.as_str())?;
        Ok(bounds)
    }

    fn append_encoded<V: Volume>(
        self,
        vol: &mut V,
        encodings: &[Bytes],
    ) -> Result<(Self, u64), JournalError> {
        if encodings.is_empty() {
            let end = self.end;
            return Ok((self, end));
        }
        self.put(vol, encodings)
    }
}
