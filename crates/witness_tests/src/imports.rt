//! The first write after an import.
use crate::shared::{Log, NAME, config, recovery, sizes, store_of, witness};
use codec_base::Bytes;
use journal_base::BackingRecovery;
use memory_volume::{LogChoice, MemoryVolume};
use std::alloc::Global;
use std::test::Fail;
use volume_base::JournalError;

/// A volume with the witnesses of these sizes, on which one of 9 operations is written in their place while the n-th call fails.
fn imported(alloc: Global, old: &[u64], n: u64) -> Result<(MemoryVolume, bool), Fail> {
    let mut vol = MemoryVolume::new(alloc);
    let _store = store_of(alloc, &mut vol, old)?;
    vol.fail_call(n)?;
    let written = Log::write_import(&mut vol, config(alloc)?, &witness(alloc, 9)?);
    Ok((vol, written.is_ok()))
}

/// The start of the log and the sizes that it keeps, after a crash that leaves least or most.
fn left(alloc: Global, vol: &MemoryVolume, most: bool) -> Result<(u64, Vec<u64>), Fail> {
    let choice = LogChoice {
        name: Bytes::from_slice(alloc, NAME.as_bytes())?,
        version: if most { 0 } else { u64::MAX },
        start: 0,
        end: if most { u64::MAX } else { 0 },
    };
    let mut left = vol.crash(&[choice])?;
    let (start, _) = recovery(alloc, &mut left)?.bounds();
    Ok((start, sizes(alloc, &mut left)?))
}

/// Whether the log begins here and keeps these sizes.
fn is_log(left: &(u64, Vec<u64>), start: u64, kept: &[u64]) -> bool {
    left.0 == start && left.1.as_slice() == kept
}

/// Whether the images that have least and most are as they are wanted, where the n-th call fails.
fn is_left(alloc: Global, old: &[u64], place: u64, n: u64) -> Result<bool, Fail> {
    let (vol, is_written) = imported(alloc, old, n)?;
    let least = left(alloc, &vol, false)?;
    let most = left(alloc, &vol, true)?;
    // The bounds are asked for before the clear, and once more before the append.
    Ok(match n {
        0 => is_written && is_log(&least, place, &[]) && is_log(&most, place, &[9]),
        1 | 2 => !is_written && is_log(&least, 0, old) && is_log(&most, 0, old),
        _ => !is_written && is_log(&least, place, &[]) && is_log(&most, place, &[]),
    })
}

#[test]
fn an_import_stands_behind_the_old_log_or_at_one(rt: HostRuntime) -> Result<(), Fail> {
    for n in 0..5 {
        assert!(rt; is_left(rt.alloc(), &[], 1, n)?);
        assert!(rt; is_left(rt.alloc(), &[1, 4, 7], 3, n)?);
    }
    Ok(())
}

#[test]
fn an_import_is_refused_where_no_place_is_left(rt: HostRuntime) -> Result<(), Fail> {
    let mut vol = MemoryVolume::new(rt.alloc());
    vol.put_log(NAME, u64::MAX, &[])?;
    let written = Log::write_import(&mut vol, config(rt.alloc())?, &witness(rt.alloc(), 9)?);
    assert!(rt; written.err() == Some(JournalError::SizeOverflow));
    Ok(())
}
