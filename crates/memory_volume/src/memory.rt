//! A volume in memory.
ghost use Rattle.std.specs.Prelude.{◌≡◌, ◌+◌, ◌-◌, ◌<◌, ◌≤◌, ◌^◌, ℕ, List, if◌then◌else◌, min, [], ◌∷◌, ◌++◌, length, IfOk, IfErr, OnOk, OnErr, IsErrOf, IsOkUnless};
ghost use Rattle.std.specs.FinMap as map;
ghost use Rattle.std.specs.Str.{bytes_eq};
ghost use Rattle.memory_volume.specs.Choices.{chosen_log, IsChosen};
ghost use Rattle.memory_volume.specs.Record.{CanChange, versions_of, map_of};
ghost use Rattle.memory_volume.specs.Replay.{replay_name, replayed};
ghost use Rattle.memory_volume.specs.Starts.{Starts};
ghost use Rattle.memory_volume.specs.TableLaws.{AreKept-prop};
ghost use Rattle.memory_volume.specs.Tables.{AreKept, row_of, stored_map};
ghost use Rattle.memory_volume.specs.Versions.{only, IsVersion};
ghost use Rattle.memory_volume.specs.declared.entry.Entry.TheVariants.{OfLog, OfMap};
ghost use Rattle.memory_volume.specs.declared.entry.LogChange.TheVariants.{Append, Sync, Cut, Prune, Put};
ghost use Rattle.volume_base.specs.Log.{Log, IsItemAt, end_of, no_log, cleared_at, appended, cut_to, pruned_to, Grows, Shrinks, Advances, Vanishes, Stays, BecomesOneOf};
ghost use Rattle.volume_base.specs.Moments.{LeftAt, present};
ghost use Rattle.volume_base.specs.Volume.{OnlyLeft, LogCall, MapCall, WritesLog, WritesMap, WriteAnswers, Reads};
ghost use Rattle.volume_base.specs.declared.error.VolumeError.TheVariants.{Failed, ItemPruned, ItemOutOfRange};

use crate::choice::{LogChoice, chosen_in};
use crate::entry::{Entry, LogChange};
use crate::record::{record_log, record_map};
use crate::replay::{Replayed, replay, replay_row};
use crate::shared::shared_items;
use crate::stored::{StoredLog, StoredMap};
use crate::table::{bounds_of, map_in, read_item};
use codec_base::{Bytes, ListOf};
use std::alloc::Global;
use stream_base::FailingCalls;
use volume_base::{MetaMap, Volume, VolumeError};

/// A volume in memory. It keeps a record of the calls that wrote or synced.
#[derive(Drop)]
pub struct MemoryVolume {
    alloc: Global,
    calls: Vec<Entry>,
    logs: Vec<StoredLog>,
    maps: Vec<StoredMap>,
    failing: FailingCalls,
    reads: u64,
    ghost kept: { AreKept calls.items logs.items maps.items } by { AreKept-prop calls.items logs.items maps.items },
}

impl MemoryVolume {
    ghost use Rattle.memory_volume.specs.MemoryVolume.{calls_of, failing_of, state_of, Records};

    /// An empty volume with nothing set to fail. It takes no memory.
    pub fn new(alloc: Global) -> Self
        ensures calls { calls_of result ≡ [] }
        ensures failing { failing_of result ≡ record { ahead = []; faults = 0 } }
        ensures reads { (state_of result).reads ≡ 0 }
    {
        MemoryVolume {
            alloc,
            calls: Vec::new(alloc),
            logs: Vec::new(alloc),
            maps: Vec::new(alloc),
            failing: FailingCalls::new(alloc),
            reads: 0,
        }
    }

    /// Sets the n-th call of the volume from now to fail: 1 is the next, and 0 sets nothing. Such a call changes
    /// nothing but the count of faults.
    pub fn fail_call(&mut self, n: u64) -> Result<(), VolumeError>
        ensures set { let set = record (failing_of self.old) { ahead = (failing_of self.old).ahead ++ n ∷ [] } in
            OnOk result (failing_of self.new ≡ set) }
        ensures err { OnErr result (failing_of self.new ≡ failing_of self.old) }
        ensures calls { calls_of self.new ≡ calls_of self.old }
        ensures reads { (state_of self.new).reads ≡ (state_of self.old).reads }
        ensures memory { IsOkUnless result VolumeError.Memory }
    {
        self.failing.fail_call(n)?;
        Ok(())
    }

    /// Puts a durable log in the place of what is there. It is no call that could be set to fail.
    pub fn put_log(&mut self, name: &str, start: u64, items: &[Bytes]) -> Result<(), VolumeError>
        requires { start + length items.now < 2 ^ 64 }
        ensures put { OnOk result ((state_of self.new).log name.now ≡ record { start = start; items = items.now }) }
        ensures durable { let made : Log = record { start = start; items = items.now } in
            OnOk result (OnlyLeft ((state_of self.new).log_left (state_of self.new).clock name.now) made) }
        ensures log { let made : Log = record { start = start; items = items.now } in
            LogCall name.now (BecomesOneOf made) (state_of self.old) (state_of self.new) }
        ensures recorded { Records (OfLog name.now (Put start items.now)) self.old self.new result }
        ensures failing { failing_of self.new ≡ failing_of self.old }
        ensures memory { IsOkUnless result VolumeError.Memory }
    {
        let put = shared_items(self.alloc, items)?;
        self.record_change(name, LogChange::Put(start, put))?;
        Ok(())
    }

    /// Puts a durable map in the place of what is there. It is no call that could be set to fail.
    pub fn put_map(&mut self, name: &str, map: &MetaMap) -> Result<(), VolumeError>
        ensures put { OnOk result ((state_of self.new).map name.now ≡ map.now) }
        ensures durable { OnOk result (
            OnlyLeft ((state_of self.new).map_left (state_of self.new).clock name.now) map.now) }
        ensures map { MapCall name.now (BecomesOneOf map.now) (state_of self.old) (state_of self.new) }
        ensures recorded { Records (OfMap name.now map.now) self.old self.new result }
        ensures failing { failing_of self.new ≡ failing_of self.old }
        ensures memory { IsOkUnless result VolumeError.Memory }
    {
        self.record_replace(name, map)?;
        Ok(())
    }

    // Puts a change of a log behind the record.
    fn record_change(&mut self, name: &str, change: LogChange) -> Result<(), VolumeError>
        requires { CanChange ((state_of self.old).log name.now) change }
        ensures recorded { Records (OfLog name.now change) self.old self.new result }
        ensures failing { failing_of self.new ≡ failing_of self.old }
        ensures memory { IsOkUnless result VolumeError.Memory }
    {
        record_log(
            self.alloc,
            &mut self.calls,
            &mut self.logs,
            name.as_bytes(),
            change,
        )?;
        Ok(())
    }

    // Puts another map behind the record.
    fn record_replace(&mut self, name: &str, map: &MetaMap) -> Result<(), VolumeError>
        ensures recorded { Records (OfMap name.now map.now) self.old self.new result }
        ensures failing { failing_of self.new ≡ failing_of self.old }
        ensures memory { IsOkUnless result VolumeError.Memory }
    {
        record_map(
            self.alloc,
            &mut self.calls,
            &mut self.maps,
            name.as_bytes(),
            map,
        )?;
        Ok(())
    }

    /// What a crash now leaves: a volume whose durable contents are one image. The first choice of a log's name
    /// picks its image; a log that isn't named keeps its contents. Nothing is set to fail.
    pub fn crash(&self, choices: &[LogChoice]) -> Result<MemoryVolume, VolumeError>
        ensures logs { IfOk result (λ made. (name : List ℕ) →
            (state_of made).log name ≡ chosen_log choices.now (versions_of (calls_of self.now) name) name) }
        ensures maps { IfOk result (λ made. (name : List ℕ) → (state_of made).map name ≡ (state_of self.now).map name) }
        ensures only_logs { IfOk result (λ made. (name : List ℕ) →
            OnlyLeft ((state_of made).log_left (state_of made).clock name) ((state_of made).log name)) }
        ensures only_maps { IfOk result (λ made. (name : List ℕ) →
            OnlyLeft ((state_of made).map_left (state_of made).clock name) ((state_of made).map name)) }
        // Each choice gives an image.
        ensures image { IfOk result (λ made.
            LeftAt (state_of self.now) (state_of self.now).clock (present (state_of made))) }
        // Each image of a log is given by a choice.
        ensures every_image { (name : List ℕ) (log : Log) →
            (state_of self.now).log_left (state_of self.now).clock name log →
            IsChosen (versions_of (calls_of self.now) name) log }
        ensures failing { IfOk result (λ made. failing_of made ≡ record { ahead = []; faults = 0 }) }
        ensures reads { IfOk result (λ made. (state_of made).reads ≡ 0) }
        ensures memory { IsOkUnless result VolumeError.Memory }
    {
        let rows = replay(self.alloc, &self.calls)?;
        let mut made = MemoryVolume::new(self.alloc);
        made.crash_logs(&rows, choices)?;
        made.crash_maps(&self.maps)?;
        Ok(made)
    }

    // Puts the chosen image of each log of a replay.
    fn crash_logs(&mut self, rows: &[Replayed], choices: &[LogChoice]) -> Result<(), VolumeError>
        requires none { (name : List ℕ) → versions_of (calls_of self.old) name ≡ only no_log }
        requires fits { (name : List ℕ) (log : Log) → IsVersion (replayed rows.now name) log → end_of log < 2 ^ 64 }
        ensures logs { OnOk result ((name : List ℕ) →
            versions_of (calls_of self.new) name ≡ only (chosen_log choices.now (replayed rows.now name) name)) }
        ensures maps { (name : List ℕ) → map_of (calls_of self.new) name ≡ map_of (calls_of self.old) name }
        ensures failing { failing_of self.new ≡ failing_of self.old }
        ensures reads { (state_of self.new).reads ≡ (state_of self.old).reads }
        ensures memory { IsOkUnless result VolumeError.Memory }
    {
        let mut i = rows.len();
        while i > 0 {
            i -= 1;
            self.crash_log(rows, rows[i].name.get().as_slice(), choices)?;
        }
        Ok(())
    }

    // Puts the chosen image of a log.
    fn crash_log(
        &mut self,
        rows: &[Replayed],
        name: &[u8],
        choices: &[LogChoice],
    ) -> Result<(), VolumeError>
        requires within { row_of replay_name rows.now name.now < length rows.now }
        requires fits { (log : Log) → IsVersion (replayed rows.now name.now) log → end_of log < 2 ^ 64 }
        ensures logs { let chosen = only (chosen_log choices.now (replayed rows.now name.now) name.now) in
            OnOk result ((other : List ℕ) → versions_of (calls_of self.new) other
            ≡ (if bytes_eq name.now other then chosen else versions_of (calls_of self.old) other)) }
        ensures maps { (other : List ℕ) → map_of (calls_of self.new) other ≡ map_of (calls_of self.old) other }
        ensures failing { failing_of self.new ≡ failing_of self.old }
        ensures reads { (state_of self.new).reads ≡ (state_of self.old).reads }
        ensures memory { IsOkUnless result VolumeError.Memory }
    {
        let row = &rows[replay_row(rows, name)];
        let log = chosen_in(self.alloc, row, choices)?;
        let start = log.start();
        let put = LogChange::Put(start, ListOf::from_vec(log.into_items()));
        record_log(self.alloc, &mut self.calls, &mut self.logs, name, put)?;
        Ok(())
    }

    // Puts each map of a table.
    fn crash_maps(&mut self, maps: &[StoredMap]) -> Result<(), VolumeError>
        requires { (name : List ℕ) → map_of (calls_of self.old) name ≡ map.empty }
        ensures maps { OnOk result ((name : List ℕ) → map_of (calls_of self.new) name ≡ stored_map maps.now name) }
        ensures logs { (name : List ℕ) → versions_of (calls_of self.new) name ≡ versions_of (calls_of self.old) name }
        ensures failing { failing_of self.new ≡ failing_of self.old }
        ensures reads { (state_of self.new).reads ≡ (state_of self.old).reads }
        ensures memory { IsOkUnless result VolumeError.Memory }
    {
        let mut i = maps.len();
        while i > 0 {
            i -= 1;
            let row = &maps[i];
            let name = row.name.get().as_slice();
            let map = row.map.get();
            record_map(self.alloc, &mut self.calls, &mut self.maps, name, map)?;
        }
        Ok(())
    }

    // Begins a call, which may be one that is set to fail.
    fn start_call(&mut self) -> Result<(), VolumeError>
        ensures calls { self.new.calls.items ≡ self.old.calls.items }
        ensures reads { self.new.reads ≡ self.old.reads }
        ensures starts { Starts self.old.failing self.new.failing result }
    {
        if self.failing.next_fails() {
            return Err(VolumeError::Failed);
        }
        Ok(())
    }
}

impl Volume for MemoryVolume {
    ghost use Rattle.memory_volume.specs.MemoryVolume.{calls_of, state_of, Records, FailsAsSet};
    ghost use Rattle.memory_volume.specs.VersionLaws.{state_left};

    ghost tells = { Unit {0} };

    ghost state = { state_of };

    fn log_bounds(&mut self, name: &str) -> Result<(u64, u64), VolumeError>
        ensures start { IfOk result (λ bounds. Unit {0} → bounds.0 ≡ ((state_of self.old).log name.now).start) }
        ensures end { IfOk result (λ bounds. Unit {0} → bounds.1 ≡ end_of ((state_of self.old).log name.now)) }
        ensures answers { Reads (Unit {0}) Failed (state_of self.old) (state_of self.new) result }
        ensures reads { (state_of self.new).reads ≡ (state_of self.old).reads }
        ensures not_pruned { (p : ℕ) → IsErrOf result (ItemPruned p) → ⊥ }
        ensures not_out_of_range { (p : ℕ) → IsErrOf result (ItemOutOfRange p) → ⊥ }
        // It takes no memory.
        ensures only_failed { IfErr result (λ e. e ≡ Failed) }
        ensures calls { calls_of self.new ≡ calls_of self.old }
        ensures fails { FailsAsSet self.old self.new result }
    {
        self.start_call()?;
        Ok(bounds_of(&self.logs, name.as_bytes()))
    }

    fn log_read(&mut self, name: &str, position: u64) -> Result<Bytes, VolumeError>
        ensures item { IfOk result (λ item. Unit {0} → IsItemAt ((state_of self.old).log name.now) position item) }
        ensures pruned { (p : ℕ) → IsErrOf result (ItemPruned p) →
            (p ≡ position) × (Unit {0} → position < ((state_of self.old).log name.now).start) }
        ensures out_of_range { (p : ℕ) → IsErrOf result (ItemOutOfRange p) →
            (p ≡ position) × (Unit {0} → end_of ((state_of self.old).log name.now) ≤ position) }
        ensures answers { Reads (Unit {0}) Failed (state_of self.old) (state_of self.new) result }
        ensures reads { (state_of self.new).reads ≡ min ((state_of self.old).reads + 1) (2 ^ 64 - 1) }
        ensures calls { calls_of self.new ≡ calls_of self.old }
        ensures fails { FailsAsSet self.old self.new result }
    {
        self.reads = self.reads.saturating_add(1);
        self.start_call()?;
        read_item(self.alloc, &self.logs, name.as_bytes(), position)
    }

    fn log_append(&mut self, name: &str, items: &[Bytes]) -> Result<(), VolumeError>
        requires { Unit {0} → end_of ((state_of self.old).log name.now) + length items.now < 2 ^ 64 }
        ensures appended { OnOk result (Unit {0} →
            (state_of self.new).log name.now ≡ appended ((state_of self.old).log name.now) items.now) }
        ensures call { let step = Grows ((state_of self.old).log name.now) items.now in
            WritesLog (Unit {0}) Failed name.now step (state_of self.old) (state_of self.new) result }
        ensures answers { WriteAnswers (Unit {0}) (state_of self.old) (state_of self.new) result }
        ensures recorded { Records (OfLog name.now (Append items.now)) self.old self.new result }
        ensures fails { FailsAsSet self.old self.new result }
    {
        self.start_call()?;
        let kept = shared_items(self.alloc, items)?;
        self.record_change(name, LogChange::Append(kept))?;
        Ok(())
    }

    fn log_sync(&mut self, name: &str) -> Result<(), VolumeError>
        ensures contents { Unit {0} → (state_of self.new).log name.now ≡ (state_of self.old).log name.now }
        ensures durable { OnOk result (Unit {0} →
            OnlyLeft ((state_of self.new).log_left (state_of self.new).clock name.now)
            ((state_of self.new).log name.now)) }
        ensures call { WritesLog (Unit {0}) Failed name.now Stays (state_of self.old) (state_of self.new) result }
        ensures answers { WriteAnswers (Unit {0}) (state_of self.old) (state_of self.new) result }
        ensures recorded { Records (OfLog name.now Sync) self.old self.new result }
        ensures fails { FailsAsSet self.old self.new result }
    {
        self.start_call()?;
        self.record_change(name, LogChange::Sync)?;
        Ok(())
    }

    fn log_cut(&mut self, name: &str, end: u64) -> Result<(), VolumeError>
        requires low { Unit {0} → ((state_of self.old).log name.now).start ≤ end }
        requires high { Unit {0} → end ≤ end_of ((state_of self.old).log name.now) }
        ensures cut { OnOk result (Unit {0} →
            (state_of self.new).log name.now ≡ cut_to ((state_of self.old).log name.now) end) }
        ensures call { let step = Shrinks end in
            WritesLog (Unit {0}) Failed name.now step (state_of self.old) (state_of self.new) result }
        ensures answers { WriteAnswers (Unit {0}) (state_of self.old) (state_of self.new) result }
        ensures recorded { Records (OfLog name.now (Cut end)) self.old self.new result }
        ensures fails { FailsAsSet self.old self.new result }
    {
        self.start_call()?;
        self.record_change(name, LogChange::Cut(end))?;
        Ok(())
    }

    fn log_prune(&mut self, name: &str, start: u64) -> Result<(), VolumeError>
        requires low { Unit {0} → ((state_of self.old).log name.now).start ≤ start }
        requires high { Unit {0} → start ≤ end_of ((state_of self.old).log name.now) }
        ensures pruned { OnOk result (Unit {0} →
            (state_of self.new).log name.now ≡ pruned_to ((state_of self.old).log name.now) start) }
        ensures call { let step = Advances start in
            WritesLog (Unit {0}) Failed name.now step (state_of self.old) (state_of self.new) result }
        ensures answers { WriteAnswers (Unit {0}) (state_of self.old) (state_of self.new) result }
        ensures recorded { Records (OfLog name.now (Prune start)) self.old self.new result }
        ensures fails { FailsAsSet self.old self.new result }
    {
        self.start_call()?;
        self.record_change(name, LogChange::Prune(start))?;
        Ok(())
    }

    fn log_clear(&mut self, name: &str, size: u64) -> Result<(), VolumeError>
        ensures cleared { OnOk result (Unit {0} → (state_of self.new).log name.now ≡ cleared_at size) }
        ensures durable { OnOk result (Unit {0} →
            OnlyLeft ((state_of self.new).log_left (state_of self.new).clock name.now) (cleared_at size)) }
        ensures call { let step = BecomesOneOf (cleared_at size) in
            WritesLog (Unit {0}) Failed name.now step (state_of self.old) (state_of self.new) result }
        ensures answers { WriteAnswers (Unit {0}) (state_of self.old) (state_of self.new) result }
        ensures recorded { Records (OfLog name.now (Put size [])) self.old self.new result }
        ensures fails { FailsAsSet self.old self.new result }
    {
        self.start_call()?;
        let none = ListOf::new(self.alloc);
        self.record_change(name, LogChange::Put(size, none))?;
        Ok(())
    }

    fn log_remove(&mut self, name: &str) -> Result<(), VolumeError>
        ensures removed { OnOk result (Unit {0} → (state_of self.new).log name.now ≡ no_log) }
        ensures durable { OnOk result (Unit {0} →
            OnlyLeft ((state_of self.new).log_left (state_of self.new).clock name.now) no_log) }
        ensures call { WritesLog (Unit {0}) Failed name.now Vanishes (state_of self.old) (state_of self.new) result }
        ensures answers { WriteAnswers (Unit {0}) (state_of self.old) (state_of self.new) result }
        ensures recorded { Records (OfLog name.now (Put 0 [])) self.old self.new result }
        ensures fails { FailsAsSet self.old self.new result }
    {
        self.start_call()?;
        let none = ListOf::new(self.alloc);
        self.record_change(name, LogChange::Put(0, none))?;
        Ok(())
    }

    fn map_get(&mut self, name: &str) -> Result<MetaMap, VolumeError>
        ensures map { IfOk result (λ got. Unit {0} → got ≡ (state_of self.old).map name.now) }
        ensures answers { Reads (Unit {0}) Failed (state_of self.old) (state_of self.new) result }
        ensures reads { (state_of self.new).reads ≡ (state_of self.old).reads }
        ensures not_pruned { (p : ℕ) → IsErrOf result (ItemPruned p) → ⊥ }
        ensures not_out_of_range { (p : ℕ) → IsErrOf result (ItemOutOfRange p) → ⊥ }
        ensures calls { calls_of self.new ≡ calls_of self.old }
        ensures fails { FailsAsSet self.old self.new result }
    {
        self.start_call()?;
        let found = map_in(self.alloc, &self.maps, name.as_bytes())?;
        Ok(found)
    }

    fn map_replace(&mut self, name: &str, map: &MetaMap) -> Result<(), VolumeError>
        ensures map { OnOk result (Unit {0} → (state_of self.new).map name.now ≡ map.now) }
        ensures durable { OnOk result (Unit {0} →
            OnlyLeft ((state_of self.new).map_left (state_of self.new).clock name.now) map.now) }
        ensures call { let step = BecomesOneOf map.now in
            WritesMap (Unit {0}) Failed name.now step (state_of self.old) (state_of self.new) result }
        ensures answers { WriteAnswers (Unit {0}) (state_of self.old) (state_of self.new) result }
        ensures recorded { Records (OfMap name.now map.now) self.old self.new result }
        ensures fails { FailsAsSet self.old self.new result }
    {
        self.start_call()?;
        self.record_replace(name, map)?;
        Ok(())
    }

    fn map_remove(&mut self, name: &str) -> Result<(), VolumeError>
        ensures removed { OnOk result (Unit {0} → (state_of self.new).map name.now ≡ map.empty) }
        ensures durable { OnOk result (Unit {0} →
            OnlyLeft ((state_of self.new).map_left (state_of self.new).clock name.now) map.empty) }
        ensures call { let step = BecomesOneOf map.empty in
            WritesMap (Unit {0}) Failed name.now step (state_of self.old) (state_of self.new) result }
        ensures answers { WriteAnswers (Unit {0}) (state_of self.old) (state_of self.new) result }
        ensures recorded { Records (OfMap name.now map.empty) self.old self.new result }
        ensures fails { FailsAsSet self.old self.new result }
    {
        self.start_call()?;
        let none = MetaMap::new(self.alloc);
        self.record_replace(name, &none)?;
        Ok(())
    }

    ghost contents_left = { λ v told. state_left v.calls.items v.failing v.reads };
}
