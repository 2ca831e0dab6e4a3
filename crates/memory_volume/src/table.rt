ghost use Rattle.std.specs.Prelude.{◌≡◌, ◌+◌, ◌-◌, ◌<◌, ◌≤◌, ◌^◌, List, ℕ, length, IfOk, OnOk, OnErr, IsErrOf, IsOkUnless};
ghost use Rattle.volume_base.specs.Log.{IsItemAt, end_of, no_log};
ghost use Rattle.volume_base.specs.declared.error.VolumeError.TheVariants.{Failed, ItemPruned, ItemOutOfRange};
ghost use Rattle.memory_volume.specs.Record.{after, CanChange};
ghost use Rattle.memory_volume.specs.Tables.{row_of, log_name, log_of, stored_log, map_name, stored_map};

use crate::entry::LogChange;
use crate::shared::{Shared, shared_bytes};
use crate::stored::{StoredLog, StoredMap};
use codec_base::{Bytes, Duplicate, ListOf};
use std::alloc::{AllocError, Global};
use volume_base::{MetaMap, VolumeError};

/// The index of the row of a log, or the length.
fn log_row(logs: &[StoredLog], name: &[u8]) -> usize
    ensures row { result ≡ row_of log_name logs.now name.now }
    ensures within { result ≤ length logs.now }
{
    for (i, log) in logs.iter().enumerate() {
        if log.name.get().as_slice() == name {
            return i;
        }
    }
    logs.len()
}

/// The index of the row of a map, or the length.
fn map_row(maps: &[StoredMap], name: &[u8]) -> usize
    ensures row { result ≡ row_of map_name maps.now name.now }
    ensures within { result ≤ length maps.now }
{
    for (i, map) in maps.iter().enumerate() {
        if map.name.get().as_slice() == name {
            return i;
        }
    }
    maps.len()
}

/// The start and the end of a log.
pub fn bounds_of(logs: &[StoredLog], name: &[u8]) -> (u64, u64)
    ensures start { result.0 ≡ (stored_log logs.now name.now).start }
    ensures end { result.1 ≡ end_of (stored_log logs.now name.now) }
{
    let row = log_row(logs, name);
    if row == logs.len() {
        return (0, 0);
    }
    let log = &logs[row];
    let end = log.start + (log.items.len() - log.skipped) as u64;
    (log.start, end)
}

/// A copy of the item at a position of a log.
pub fn read_item(
    alloc: Global,
    logs: &[StoredLog],
    name: &[u8],
    position: u64,
) -> Result<Bytes, VolumeError>
    ensures item { IfOk result (λ item. IsItemAt (stored_log logs.now name.now) position item) }
    ensures pruned { (p : ℕ) → IsErrOf result (ItemPruned p) →
        (p ≡ position) × (position < (stored_log logs.now name.now).start) }
    ensures out_of_range { (p : ℕ) → IsErrOf result (ItemOutOfRange p) →
        (p ≡ position) × (end_of (stored_log logs.now name.now) ≤ position) }
    ensures not_failed { IsErrOf result Failed → ⊥ }
{
    let row = log_row(logs, name);
    if row == logs.len() {
        return Err(VolumeError::ItemOutOfRange(position));
    }
    item_of(alloc, &logs[row], position)
}

/// A copy of the item at a position of what a log holds.
fn item_of(alloc: Global, log: &StoredLog, position: u64) -> Result<Bytes, VolumeError>
    ensures item { IfOk result (λ item. IsItemAt (log_of log.now) position item) }
    ensures pruned { (p : ℕ) → IsErrOf result (ItemPruned p) → (p ≡ position) × (position < (log_of log.now).start) }
    ensures out_of_range { (p : ℕ) → IsErrOf result (ItemOutOfRange p) →
        (p ≡ position) × (end_of (log_of log.now) ≤ position) }
    ensures not_failed { IsErrOf result Failed → ⊥ }
{
    if position < log.start {
        return Err(VolumeError::ItemPruned(position));
    }
    let from_start = position - log.start;
    if from_start >= (log.items.len() - log.skipped) as u64 {
        return Err(VolumeError::ItemOutOfRange(position));
    }
    let item = log.items[log.skipped + from_start as usize].get();
    match Bytes::from_slice(alloc, item.as_slice()) {
        Ok(copy) => Ok(copy),
        Err(_) => Err(VolumeError::Memory),
    }
}

/// A copy of a map.
pub fn map_in(alloc: Global, maps: &[StoredMap], name: &[u8]) -> Result<MetaMap, VolumeError>
    ensures map { IfOk result (λ found. found ≡ stored_map maps.now name.now) }
    ensures memory { IsOkUnless result VolumeError.Memory }
{
    let row = map_row(maps, name);
    if row == maps.len() {
        return Ok(MetaMap::new(alloc));
    }
    match maps[row].map.get().duplicate() {
        Ok(copy) => Ok(copy),
        Err(_) => Err(VolumeError::Memory),
    }
}

/// The index of the row of a log, which is made where there is none.
pub fn log_slot(alloc: Global, logs: &mut Vec<StoredLog>, name: &[u8]) -> Result<usize, VolumeError>
    ensures kept { (other : List ℕ) → stored_log logs.new.items other ≡ stored_log logs.old.items other }
    ensures at { IfOk result (λ row. row ≡ row_of log_name logs.new.items name.now) }
    ensures within { IfOk result (λ row. row < length logs.new.items) }
    ensures memory { IsOkUnless result VolumeError.Memory }
{
    let row = log_row(logs, name);
    if row == logs.len() {
        let its = shared_bytes(alloc, name)?;
        logs.push(StoredLog {
            name: its,
            start: 0,
            skipped: 0,
            items: Vec::new(alloc),
        })?;
    }
    Ok(row)
}

/// The index of the row of a map, which is made where there is none.
pub fn map_slot(alloc: Global, maps: &mut Vec<StoredMap>, name: &[u8]) -> Result<usize, VolumeError>
    ensures kept { (other : List ℕ) → stored_map maps.new.items other ≡ stored_map maps.old.items other }
    ensures at { IfOk result (λ row. row ≡ row_of map_name maps.new.items name.now) }
    ensures within { IfOk result (λ row. row < length maps.new.items) }
    ensures memory { IsOkUnless result VolumeError.Memory }
{
    let row = map_row(maps, name);
    if row == maps.len() {
        let its = shared_bytes(alloc, name)?;
        let map = Shared::new(alloc, MetaMap::new(alloc))?;
        maps.push(StoredMap { name: its, map })?;
    }
    Ok(row)
}

/// Owners more of these items.
pub fn share_all(alloc: Global, items: &[Shared<Bytes>]) -> Result<Vec<Shared<Bytes>>, VolumeError>
    ensures same { IfOk result (λ made. made.items ≡ items.now) }
    ensures memory { IsOkUnless result VolumeError.Memory }
{
    let mut made = Vec::with_capacity(alloc, items.len())?;
    for item in items {
        made.push(item.share()?)?;
    }
    Ok(made)
}

/// Makes a change of what a log holds, or leaves it.
pub fn change_log(alloc: Global, log: &mut StoredLog, change: &LogChange) -> Result<(), VolumeError>
    requires { CanChange (log_of log.old) change.now }
    ensures name { log.new.name ≡ log.old.name }
    ensures ok { OnOk result (log_of log.new ≡ after (log_of log.old) change.now) }
    ensures err { OnErr result (log_of log.new ≡ log_of log.old) }
    ensures memory { IsOkUnless result VolumeError.Memory }
{
    match change {
        LogChange::Append(items) => {
            let mut more = share_all(alloc, items.as_slice())?;
            log.items.append(&mut more)?;
        }
        LogChange::Sync => {}
        LogChange::Cut(end) => log
            .items
            .truncate(log.skipped + (*end - log.start) as usize),
        LogChange::Prune(start) => {
            log.skipped += (*start - log.start) as usize;
            log.start = *start;
        }
        LogChange::Put(start, items) => {
            let put = share_all(alloc, items.as_slice())?;
            log.start = *start;
            log.skipped = 0;
            log.items = put;
        }
    }
    Ok(())
}
