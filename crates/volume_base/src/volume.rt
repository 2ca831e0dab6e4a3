ghost use Rattle.std.specs.Prelude.{◌≡◌, ◌+◌, ◌-◌, ◌<◌, ◌≤◌, ◌^◌, ℕ, min, length, IfOk, OnOk, IsErrOf};
ghost use Rattle.std.specs.FinMap as map;
ghost use Rattle.volume_base.specs.declared.error.VolumeError.TheVariants.{Failed, ItemPruned, ItemOutOfRange};
ghost use Rattle.volume_base.specs.Log.{IsItemAt, end_of, no_log, cleared_at, appended, cut_to, pruned_to, Grows, Shrinks, Advances, Vanishes, Stays, BecomesOneOf};
ghost use Rattle.volume_base.specs.Moments.{LeftAt, present};
ghost use Rattle.volume_base.specs.Volume.{State, OnlyLeft, WritesLog, WritesMap, WriteAnswers, Reads};

use crate::{MetaMap, VolumeError};
use codec_base::Bytes;

/// A place that holds logs and maps by name. A log is 0..0 where it isn't there, and a map empty.
pub trait Volume {
    /// Whether it tells its contents and what a crash leaves.
    ghost tells: { Type 0 };

    /// What it stands for.
    ghost state: { Self → State };

    /// The start and the end of a log.
    fn log_bounds(&mut self, name: &str) -> Result<(u64, u64), VolumeError>
        ensures start { IfOk result (λ bounds. tells → bounds.0 ≡ ((state self.old).log name.now).start) }
        ensures end { IfOk result (λ bounds. tells → bounds.1 ≡ end_of ((state self.old).log name.now)) }
        ensures answers { Reads tells Failed (state self.old) (state self.new) result }
        ensures reads { (state self.new).reads ≡ (state self.old).reads }
        ensures not_pruned { (p : ℕ) → IsErrOf result (ItemPruned p) → ⊥ }
        ensures not_out_of_range { (p : ℕ) → IsErrOf result (ItemOutOfRange p) → ⊥ };

    /// The item at a position.
    fn log_read(&mut self, name: &str, position: u64) -> Result<Bytes, VolumeError>
        ensures item { IfOk result (λ item. tells → IsItemAt ((state self.old).log name.now) position item) }
        ensures pruned { (p : ℕ) → IsErrOf result (ItemPruned p) →
            (p ≡ position) × (tells → position < ((state self.old).log name.now).start) }
        ensures out_of_range { (p : ℕ) → IsErrOf result (ItemOutOfRange p) →
            (p ≡ position) × (tells → end_of ((state self.old).log name.now) ≤ position) }
        ensures answers { Reads tells Failed (state self.old) (state self.new) result }
        ensures reads { (state self.new).reads ≡ min ((state self.old).reads + 1) (2 ^ 64 - 1) };

    /// Adds items behind the end. Until a sync a crash leaves any front of them.
    fn log_append(&mut self, name: &str, items: &[Bytes]) -> Result<(), VolumeError>
        requires { tells → end_of ((state self.old).log name.now) + length items.now < 2 ^ 64 }
        ensures appended { OnOk result (tells →
            (state self.new).log name.now ≡ appended ((state self.old).log name.now) items.now) }
        ensures call { let step = Grows ((state self.old).log name.now) items.now in
            WritesLog tells Failed name.now step (state self.old) (state self.new) result }
        ensures answers { WriteAnswers tells (state self.old) (state self.new) result };

    /// After it a crash leaves what the log holds.
    fn log_sync(&mut self, name: &str) -> Result<(), VolumeError>
        ensures contents { tells → (state self.new).log name.now ≡ (state self.old).log name.now }
        ensures durable { OnOk result (tells →
            OnlyLeft ((state self.new).log_left (state self.new).clock name.now) ((state self.new).log name.now)) }
        ensures call { WritesLog tells Failed name.now Stays (state self.old) (state self.new) result }
        ensures answers { WriteAnswers tells (state self.old) (state self.new) result };

    /// Takes the items from a position on away. Until a sync a crash leaves any front of them.
    fn log_cut(&mut self, name: &str, end: u64) -> Result<(), VolumeError>
        requires low { tells → ((state self.old).log name.now).start ≤ end }
        requires high { tells → end ≤ end_of ((state self.old).log name.now) }
        ensures cut { OnOk result (tells →
            (state self.new).log name.now ≡ cut_to ((state self.old).log name.now) end) }
        ensures call { WritesLog tells Failed name.now (Shrinks end) (state self.old) (state self.new) result }
        ensures answers { WriteAnswers tells (state self.old) (state self.new) result };

    /// Takes the items below a position away. Until a sync a crash leaves of them any back part.
    fn log_prune(&mut self, name: &str, start: u64) -> Result<(), VolumeError>
        requires low { tells → ((state self.old).log name.now).start ≤ start }
        requires high { tells → start ≤ end_of ((state self.old).log name.now) }
        ensures pruned { OnOk result (tells →
            (state self.new).log name.now ≡ pruned_to ((state self.old).log name.now) start) }
        ensures call { WritesLog tells Failed name.now (Advances start) (state self.old) (state self.new) result }
        ensures answers { WriteAnswers tells (state self.old) (state self.new) result };

    /// Leaves an empty log at a position, and a crash then leaves that.
    fn log_clear(&mut self, name: &str, size: u64) -> Result<(), VolumeError>
        ensures cleared { OnOk result (tells → (state self.new).log name.now ≡ cleared_at size) }
        ensures durable { OnOk result (tells →
            OnlyLeft ((state self.new).log_left (state self.new).clock name.now) (cleared_at size)) }
        ensures call { let step = BecomesOneOf (cleared_at size) in
            WritesLog tells Failed name.now step (state self.old) (state self.new) result }
        ensures answers { WriteAnswers tells (state self.old) (state self.new) result };

    /// Takes a log away, and a crash then leaves none.
    fn log_remove(&mut self, name: &str) -> Result<(), VolumeError>
        ensures removed { OnOk result (tells → (state self.new).log name.now ≡ no_log) }
        ensures durable { OnOk result (tells →
            OnlyLeft ((state self.new).log_left (state self.new).clock name.now) no_log) }
        ensures call { WritesLog tells Failed name.now Vanishes (state self.old) (state self.new) result }
        ensures answers { WriteAnswers tells (state self.old) (state self.new) result };

    /// The map of this name; an empty one where there is none.
    fn map_get(&mut self, name: &str) -> Result<MetaMap, VolumeError>
        ensures map { IfOk result (λ got. tells → got ≡ (state self.old).map name.now) }
        ensures answers { Reads tells Failed (state self.old) (state self.new) result }
        ensures reads { (state self.new).reads ≡ (state self.old).reads }
        ensures not_pruned { (p : ℕ) → IsErrOf result (ItemPruned p) → ⊥ }
        ensures not_out_of_range { (p : ℕ) → IsErrOf result (ItemOutOfRange p) → ⊥ };

    /// Puts a map in the place of what is there, and a crash then leaves this map.
    fn map_replace(&mut self, name: &str, map: &MetaMap) -> Result<(), VolumeError>
        ensures map { OnOk result (tells → (state self.new).map name.now ≡ map.now) }
        ensures durable { OnOk result (tells →
            OnlyLeft ((state self.new).map_left (state self.new).clock name.now) map.now) }
        ensures call { WritesMap tells Failed name.now (BecomesOneOf map.now) (state self.old) (state self.new) result }
        ensures answers { WriteAnswers tells (state self.old) (state self.new) result };

    /// Takes a map away, and a crash then leaves none.
    fn map_remove(&mut self, name: &str) -> Result<(), VolumeError>
        ensures removed { OnOk result (tells → (state self.new).map name.now ≡ map.empty) }
        ensures durable { OnOk result (tells →
            OnlyLeft ((state self.new).map_left (state self.new).clock name.now) map.empty) }
        ensures call { let step = BecomesOneOf map.empty in
            WritesMap tells Failed name.now step (state self.old) (state self.new) result }
        ensures answers { WriteAnswers tells (state self.old) (state self.new) result };

    /// What is there now is one of the images that a crash may leave now.
    ghost contents_left: { (volume : Self) → tells →
        LeftAt (state volume) (state volume).clock (present (state volume)) };
}
