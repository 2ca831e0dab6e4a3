//! The volume that a case is run on.
use crate::error::ScriptError;
use crate::settings::{number, setting};
use codec_base::Bytes;
use memory_volume::MemoryVolume;
use std::alloc::Global;
use volume_base::MetaMap;

/// A map of one pair.
fn one_pair(alloc: Global) -> Result<MetaMap, ScriptError> {
    let mut map = MetaMap::new(alloc);
    let value = Bytes::from_slice(alloc, b"value")?;
    map.put(Bytes::from_slice(alloc, b"key")?, value)?;
    Ok(map)
}

/// A volume on which a log begins at 1, where `log` names one, and a map has a pair, where `map` names one; and the call of
/// the number `call` fails.
pub(crate) fn volume_of(alloc: Global, head: &str) -> Result<MemoryVolume, ScriptError> {
    let mut volume = MemoryVolume::new(alloc);
    let log = setting(head, "log");
    if !log.is_empty() {
        volume.put_log(log, 1, &[])?;
    }
    let map = setting(head, "map");
    if !map.is_empty() {
        volume.put_map(map, &one_pair(alloc)?)?;
    }
    volume.fail_call(number(head, "call"))?;
    Ok(volume)
}
