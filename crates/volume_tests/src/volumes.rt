//! A volume in memory at the greatest positions, and its maps where a call was set to fail. What its crashes leave is shown by
//! `crash_table`.
use codec_base::{Bytes, Duplicate};
use memory_volume::MemoryVolume;
use std::alloc::Global;
use std::test::Fail;
use volume_base::{MetaMap, Volume, VolumeError};

/// A volume whose log ends at the greatest number, with one item.
fn full(alloc: Global) -> Result<MemoryVolume, Fail> {
    let mut vol = MemoryVolume::new(alloc);
    vol.put_log("a", u64::MAX - 1, &[Bytes::from_slice(alloc, b"x")?])?;
    Ok(vol)
}

#[test]
fn positions_reach_the_end_of_a_u64(rt: HostRuntime) -> Result<(), Fail> {
    let mut vol = full(rt.alloc())?;
    assert!(rt; vol.log_bounds("a") == Ok((u64::MAX - 1, u64::MAX)));
    let rows = [
        (u64::MAX - 2, Some(VolumeError::ItemPruned(u64::MAX - 2))),
        (u64::MAX - 1, None),
        (u64::MAX, Some(VolumeError::ItemOutOfRange(u64::MAX))),
    ];
    for (position, want) in rows {
        assert!(rt; vol.log_read("a", position).err() == want);
    }
    vol.log_clear("a", u64::MAX)?;
    assert!(rt; vol.log_bounds("a") == Ok((u64::MAX, u64::MAX)));
    Ok(())
}

/// A map of one key.
fn map_of_one(alloc: Global) -> Result<MetaMap, Fail> {
    let mut map = MetaMap::new(alloc);
    let value = Bytes::from_slice(alloc, b"value")?;
    map.put(Bytes::from_slice(alloc, b"key")?, value)?;
    Ok(map.duplicate()?)
}

/// Whether a map of a volume has the key, where the call doesn't fail.
fn has_key(vol: &mut MemoryVolume) -> Result<bool, VolumeError> {
    Ok(vol.map_get("m")?.get(b"key").is_some())
}

#[test]
fn a_call_that_fails_changes_no_map(rt: HostRuntime) -> Result<(), Fail> {
    let mut vol = MemoryVolume::new(rt.alloc());
    vol.put_map("m", &map_of_one(rt.alloc())?)?;
    vol.fail_call(2)?;
    assert!(rt; has_key(&mut vol) == Ok(true));
    assert!(rt; vol.map_remove("m") == Err(VolumeError::Failed));
    assert!(rt; has_key(&mut vol) == Ok(true));
    vol.map_replace("m", &MetaMap::new(rt.alloc()))?;
    assert!(rt; has_key(&mut vol) == Ok(false));
    Ok(())
}
