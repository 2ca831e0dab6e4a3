//! Puts a call behind the record and its effect into the tables, or leaves both.
ghost use Rattle.std.specs.Prelude.{◌≡◌, [], ◌∷◌, ◌++◌, List, ℕ, OnOk, OnErr, IfOk, IsOkUnless};
ghost use Rattle.memory_volume.specs.declared.entry.Entry.TheVariants.{OfLog, OfMap};
ghost use Rattle.memory_volume.specs.declared.stored.StoredMap.{StoredMap};
ghost use Rattle.memory_volume.specs.declared.stored.StoredLog.{StoredLog};
ghost use Rattle.memory_volume.specs.Record.{CanChange};
ghost use Rattle.memory_volume.specs.Tables.{stored_log, AreKept};

use crate::entry::{Entry, LogChange};
use crate::shared::Shared;
use crate::stored::{StoredLog, StoredMap};
use crate::table::{change_log, log_slot, map_slot};
use codec_base::Duplicate;
use std::alloc::Global;
use volume_base::{MetaMap, VolumeError};

/// Makes a change of a log.
pub fn record_log(
    alloc: Global,
    calls: &mut Vec<Entry>,
    logs: &mut Vec<StoredLog>,
    name: &[u8],
    change: LogChange,
) -> Result<(), VolumeError>
    requires { CanChange (stored_log logs.old.items name.now) change }
    ensures recorded { OnOk result (calls.new.items ≡ calls.old.items ++ OfLog name.now change ∷ []) }
    ensures kept { (maps : List StoredMap) →
        AreKept calls.old.items logs.old.items maps → AreKept calls.new.items logs.new.items maps }
    ensures err { OnErr result (calls.new.items ≡ calls.old.items) }
    ensures memory { IsOkUnless result VolumeError.Memory }
{
    let row = log_slot(alloc, logs, name)?;
    let its = logs[row].name.share()?;
    calls.reserve(1)?;
    change_log(alloc, &mut logs[row], &change)?;
    calls.push_reserved(Entry::OfLog(its, change));
    Ok(())
}

/// Puts a map in the place of what is there.
pub fn record_map(
    alloc: Global,
    calls: &mut Vec<Entry>,
    maps: &mut Vec<StoredMap>,
    name: &[u8],
    map: &MetaMap,
) -> Result<(), VolumeError>
    ensures recorded { OnOk result (calls.new.items ≡ calls.old.items ++ OfMap name.now map.now ∷ []) }
    ensures kept { (logs : List StoredLog) →
        AreKept calls.old.items logs maps.old.items → AreKept calls.new.items logs maps.new.items }
    ensures err { OnErr result (calls.new.items ≡ calls.old.items) }
    ensures memory { IsOkUnless result VolumeError.Memory }
{
    let row = map_slot(alloc, maps, name)?;
    let its = maps[row].name.share()?;
    let copy = shared_map(alloc, map)?;
    let held = copy.share()?;
    calls.reserve(1)?;
    maps[row].map = held;
    calls.push_reserved(Entry::OfMap(its, copy));
    Ok(())
}

/// A copy of a map, to be shared.
fn shared_map(alloc: Global, map: &MetaMap) -> Result<Shared<MetaMap>, VolumeError>
    ensures same { IfOk result (λ made. made ≡ map.now) }
    ensures memory { IsOkUnless result VolumeError.Memory }
{
    let Ok(copy) = map.duplicate() else {
        return Err(VolumeError::Memory);
    };
    let made = Shared::new(alloc, copy)?;
    Ok(made)
}
