//! The versions that each log has after a record of calls.
ghost use Rattle.std.specs.Prelude.{◌≡◌, ◌+◌, ◌^◌, ◌<◌, ◌≤◌, [], ◌∷◌, List, ℕ, length, IfOk, OnOk, IsOkUnless};
ghost use Rattle.volume_base.specs.Log.{end_of, appended, cut_to, pruned_to};
ghost use Rattle.memory_volume.specs.Versions.{only, then_is, grown, part_of};
ghost use Rattle.memory_volume.specs.Record.{changed, next_versions, versions_of};
ghost use Rattle.memory_volume.specs.Replay.{versions_in, replay_name, replayed};
ghost use Rattle.memory_volume.specs.Tables.{row_of};

use crate::entry::{Entry, LogChange};
use crate::shared::Shared;
use crate::table::share_all;
use codec_base::Bytes;
use std::alloc::Global;
use std::marker::Model;
use std::mem;
use volume_base::VolumeError;

/// What a log held at a time.
#[derive(Drop)]
pub struct Version {
    start: u64,
    items: Vec<Shared<Bytes>>,
}

impl Model for Version {
    ghost use Rattle.volume_base.specs.Log.{Log};

    ghost Value = { Log };

    ghost view = { λ v. record { start = v.start; items = v.items.items } };
}

impl Version {
    /// An empty version, as of a log that isn't there. It takes no memory.
    fn none(alloc: Global) -> Self
        ensures { result ≡ record { start = 0; items = [] } }
    {
        Version {
            start: 0,
            items: Vec::new(alloc),
        }
    }

    /// A version of these items from this start on.
    pub fn new(alloc: Global, start: u64, items: &[Shared<Bytes>]) -> Result<Self, VolumeError>
        ensures made { IfOk result (λ made. made ≡ record { start = start; items = items.now }) }
        ensures memory { IsOkUnless result VolumeError.Memory }
    {
        let items = share_all(alloc, items)?;
        Ok(Version { start, items })
    }

    /// The version with one more item.
    fn with_item(&self, alloc: Global, item: &Shared<Bytes>) -> Result<Self, VolumeError>
        ensures made { IfOk result (λ made. made ≡ appended self.now (item.now ∷ [])) }
        ensures memory { IsOkUnless result VolumeError.Memory }
    {
        let mut items = share_all(alloc, &self.items)?;
        items.push(item.share()?)?;
        Ok(Version {
            start: self.start,
            items,
        })
    }

    /// The version up to an end.
    fn up_to(&self, alloc: Global, end: u64) -> Result<Self, VolumeError>
        ensures made { IfOk result (λ made. made ≡ cut_to self.now end) }
        ensures memory { IsOkUnless result VolumeError.Memory }
    {
        let mut items = share_all(alloc, &self.items)?;
        items.truncate(end.saturating_sub(self.start) as usize);
        Ok(Version {
            start: self.start,
            items,
        })
    }

    /// The version from a start on.
    fn from(&self, alloc: Global, start: u64) -> Result<Self, VolumeError>
        ensures made { IfOk result (λ made. made ≡ pruned_to self.now start) }
        ensures memory { IsOkUnless result VolumeError.Memory }
    {
        let skipped = start.saturating_sub(self.start) as usize;
        if skipped >= self.items.len() {
            return Ok(Version {
                start: self.start.max(start),
                items: Vec::new(alloc),
            });
        }
        let items = share_all(alloc, &self.items[skipped..])?;
        Ok(Version {
            start: self.start.max(start),
            items,
        })
    }

    /// The position of the first item.
    pub fn start(&self) -> u64
        ensures { result ≡ self.now.start }
    {
        self.start
    }

    /// The position behind the last item.
    pub fn end(&self) -> u64
        requires { end_of self.now < 2 ^ 64 }
        ensures { result ≡ end_of self.now }
    {
        self.start + self.items.len() as u64
    }

    /// The items, oldest first.
    pub fn items(&self) -> &[Shared<Bytes>]
        ensures { result.now ≡ self.now.items }
    {
        &self.items
    }

    /// The items. It takes no memory.
    pub fn into_items(self) -> Vec<Shared<Bytes>>
        ensures { result.items ≡ self.items }
    {
        self.items
    }

    /// The part between two positions.
    pub fn part(&self, alloc: Global, from: u64, to: u64) -> Result<Self, VolumeError>
        requires { from ≤ end_of self.now }
        ensures made { IfOk result (λ made. made ≡ part_of self.now from to) }
        ensures memory { IsOkUnless result VolumeError.Memory }
    {
        let skipped = from.saturating_sub(self.start) as usize;
        let mut items = share_all(alloc, &self.items[skipped..])?;
        items.truncate(to.saturating_sub(from) as usize);
        Ok(Version { start: from, items })
    }
}

/// The versions of a log, the newest of the others first.
#[derive(Drop)]
pub struct Replayed {
    pub name: Shared<Bytes>,
    pub present: Version,
    pub earlier: Vec<Version>,
}

/// Makes a version the present one.
fn then_is(row: &mut Replayed, next: Version) -> Result<(), VolumeError>
    ensures name { row.new.name ≡ row.old.name }
    ensures memory { IsOkUnless result VolumeError.Memory }
    ensures ok { OnOk result (versions_in row.new ≡ then_is (versions_in row.old) next) }
{
    let last = mem::replace(&mut row.present, next);
    row.earlier.insert(0, last)?;
    Ok(())
}

/// Makes a version the only one.
fn only_is(row: &mut Replayed, next: Version)
    ensures name { row.new.name ≡ row.old.name }
    ensures only { versions_in row.new ≡ only next }
{
    row.present = next;
    row.earlier.clear();
}

/// Makes each prefix of the items a version.
fn grow(alloc: Global, row: &mut Replayed, items: &[Shared<Bytes>]) -> Result<(), VolumeError>
    ensures name { row.new.name ≡ row.old.name }
    ensures memory { IsOkUnless result VolumeError.Memory }
    ensures ok { OnOk result (versions_in row.new ≡ grown (versions_in row.old) items.now) }
{
    for item in items {
        let next = row.present.with_item(alloc, item)?;
        then_is(row, next)?;
    }
    Ok(())
}

/// Makes a change of a log's versions.
fn change_versions(alloc: Global, row: &mut Replayed, change: &LogChange) -> Result<(), VolumeError>
    ensures name { row.new.name ≡ row.old.name }
    ensures memory { IsOkUnless result VolumeError.Memory }
    ensures ok { OnOk result (versions_in row.new ≡ changed (versions_in row.old) change.now) }
{
    match change {
        LogChange::Append(items) => grow(alloc, row, items.as_slice())?,
        LogChange::Sync => row.earlier.clear(),
        LogChange::Cut(end) => {
            let next = row.present.up_to(alloc, *end)?;
            then_is(row, next)?;
        }
        LogChange::Prune(start) => {
            let next = row.present.from(alloc, *start)?;
            then_is(row, next)?;
        }
        LogChange::Put(start, items) => {
            let next = Version::new(alloc, *start, items.as_slice())?;
            only_is(row, next);
        }
    }
    Ok(())
}

/// The index of the row of a log, or the length.
pub fn replay_row(rows: &[Replayed], name: &[u8]) -> usize
    ensures row { result ≡ row_of replay_name rows.now name.now }
    ensures within { result ≤ length rows.now }
{
    for (i, row) in rows.iter().enumerate() {
        if row.name.get().as_slice() == name {
            return i;
        }
    }
    rows.len()
}

/// The index of the row of a log, which is made where there is none.
fn replay_slot(
    alloc: Global,
    rows: &mut Vec<Replayed>,
    name: &Shared<Bytes>,
) -> Result<usize, VolumeError>
    ensures kept { (other : List ℕ) → replayed rows.new.items other ≡ replayed rows.old.items other }
    ensures at { IfOk result (λ row. row ≡ row_of replay_name rows.new.items name.now) }
    ensures within { IfOk result (λ row. row < length rows.new.items) }
    ensures memory { IsOkUnless result VolumeError.Memory }
{
    let row = replay_row(rows, name.get().as_slice());
    if row == rows.len() {
        let its = name.share()?;
        rows.push(Replayed {
            name: its,
            present: Version::none(alloc),
            earlier: Vec::new(alloc),
        })?;
    }
    Ok(row)
}

/// Replays a call.
fn replay_call(alloc: Global, rows: &mut Vec<Replayed>, call: &Entry) -> Result<(), VolumeError>
    ensures ok { OnOk result ((other : List ℕ) →
        replayed rows.new.items other ≡ next_versions other (replayed rows.old.items other) call.now) }
    ensures memory { IsOkUnless result VolumeError.Memory }
{
    match call {
        Entry::OfLog(name, change) => {
            let row = replay_slot(alloc, rows, name)?;
            change_versions(alloc, &mut rows[row], change)?;
        }
        Entry::OfMap(_, _) => {}
    }
    Ok(())
}

/// Replays a record of calls.
pub fn replay(alloc: Global, calls: &[Entry]) -> Result<Vec<Replayed>, VolumeError>
    ensures rows { IfOk result (λ rows. (name : List ℕ) → replayed rows.items name ≡ versions_of calls.now name) }
    ensures memory { IsOkUnless result VolumeError.Memory }
{
    let mut rows = Vec::new(alloc);
    for call in calls {
        replay_call(alloc, &mut rows, call)?;
    }
    Ok(rows)
}
