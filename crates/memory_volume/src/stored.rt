ghost use Rattle.std.specs.Prelude.{◌+◌, ◌-◌, ◌<◌, ◌≤◌, ◌^◌, length};

use crate::shared::Shared;
use codec_base::Bytes;
use volume_base::MetaMap;

/// What a log holds now: the items behind those that were skipped, from the start on.
#[derive(Drop)]
pub struct StoredLog {
    pub name: Shared<Bytes>,
    pub start: u64,
    pub skipped: usize,
    pub items: Vec<Shared<Bytes>>,
    ghost within: { skipped ≤ length items.items },
    ghost fits: { start + (length items.items - skipped) < 2 ^ 64 },
}

/// What a map holds now.
#[derive(Drop)]
pub struct StoredMap {
    pub name: Shared<Bytes>,
    pub map: Shared<MetaMap>,
}
