//! The image of a log that a choice picks.
ghost use Rattle.std.specs.Prelude.{◌≡◌, ◌<◌, ◌≤◌, ◌^◌, ℕ, IfOk, IsOkUnless};
ghost use Rattle.volume_base.specs.Log.{Log, end_of};
ghost use Rattle.memory_volume.specs.Choice.{version_from, chosen};
ghost use Rattle.memory_volume.specs.Choices.{chosen_log};
ghost use Rattle.memory_volume.specs.Replay.{versions_in};
ghost use Rattle.memory_volume.specs.Versions.{IsVersion, least_end, greatest_start};

use crate::replay::{Replayed, Version};
use codec_base::Bytes;
use std::alloc::Global;
use volume_base::VolumeError;

/// Which image a crash leaves of a log: a version, 0 the newest, and the part of it between two positions. Each
/// number is moved to the nearest allowed, the start before the end.
#[derive(Drop)]
pub struct LogChoice {
    pub name: Bytes,
    pub version: u64,
    pub start: u64,
    pub end: u64,
}

fn least_end_in(row: &Replayed) -> u64
    requires { (log : Log) → IsVersion (versions_in row.now) log → end_of log < 2 ^ 64 }
    ensures { result ≡ least_end (versions_in row.now) }
{
    let mut end = row.present.end();
    let mut i = row.earlier.len();
    while i > 0 {
        i -= 1;
        end = row.earlier[i].end().min(end);
    }
    end
}

fn greatest_start_in(row: &Replayed) -> u64
    ensures { result ≡ greatest_start (versions_in row.now) }
{
    let mut start = row.present.start();
    let mut i = row.earlier.len();
    while i > 0 {
        i -= 1;
        start = row.earlier[i].start().max(start);
    }
    start
}

/// A version, 0 the newest, and the oldest past the last.
fn version_at(row: &Replayed, version: u64) -> &Version
    ensures { result.now ≡ version_from (versions_in row.now).present (versions_in row.now).earlier version }
{
    let place = version.min(row.earlier.len() as u64);
    if place == 0 {
        return &row.present;
    }
    &row.earlier[place as usize - 1]
}

/// The image that a choice picks.
fn pick(
    alloc: Global,
    row: &Replayed,
    version: u64,
    start: u64,
    end: u64,
) -> Result<Version, VolumeError>
    requires { (log : Log) → IsVersion (versions_in row.now) log → end_of log < 2 ^ 64 }
    ensures made { IfOk result (λ made. made ≡ chosen (versions_in row.now) version start end) }
    ensures memory { IsOkUnless result VolumeError.Memory }
{
    let log = version_at(row, version);
    let last = log.end();
    let from = greatest_start_in(row).min(last).min(log.start().max(start));
    let to = last.min(least_end_in(row).max(from).max(end));
    log.part(alloc, from, to)
}

/// The image that the first choice of this log's name picks, or the present contents.
pub fn chosen_in(
    alloc: Global,
    row: &Replayed,
    choices: &[LogChoice],
) -> Result<Version, VolumeError>
    requires { (log : Log) → IsVersion (versions_in row.now) log → end_of log < 2 ^ 64 }
    ensures made { IfOk result (λ made. made ≡ chosen_log choices.now (versions_in row.now) row.now.name) }
    ensures memory { IsOkUnless result VolumeError.Memory }
{
    for choice in choices {
        if choice.name.as_slice() == row.name.get().as_slice() {
            return pick(alloc, row, choice.version, choice.start, choice.end);
        }
    }
    Version::new(alloc, row.present.start(), row.present.items())
}
