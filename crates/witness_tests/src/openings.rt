//! Which witness a log is opened at, and where one of a size is found.
use crate::shared::{open_at, sizes, store_of};
use memory_volume::MemoryVolume;
use std::alloc::Global;
use std::test::Fail;
use tree_shape::Location;

/// The sizes that are kept after an opening under a cap, of four witnesses; nothing where none is within it.
fn kept_under(alloc: Global, cap: Option<u64>) -> Result<Option<Vec<u64>>, Fail> {
    let mut vol = MemoryVolume::new(alloc);
    let _store = store_of(alloc, &mut vol, &[1, 3, 7, 13])?;
    match open_at(alloc, &mut vol, cap)? {
        Some(_) => Ok(Some(sizes(alloc, &mut vol)?)),
        None => Ok(None),
    }
}

#[test]
fn opens_at_the_last_witness_within_the_cap(rt: HostRuntime) -> Result<(), Fail> {
    let all = [1, 3, 7, 13];
    let rows = [
        (1, 1),
        (2, 1),
        (3, 2),
        (4, 2),
        (6, 2),
        (7, 3),
        (8, 3),
        (12, 3),
        (13, 4),
        (14, 4),
        (100, 4),
        (u64::MAX, 4),
    ];
    assert!(rt; kept_under(rt.alloc(), Some(0))?.is_none());
    for (cap, count) in rows {
        let kept = kept_under(rt.alloc(), Some(cap))?.ok_or("none is within the cap")?;
        assert!(rt; all.get(..count) == Some(kept.as_slice()));
    }
    Ok(())
}

/// Where the witness of a size stands among four of which the first blob is gone.
fn place_of(alloc: Global, size: u64) -> Result<Option<u64>, Fail> {
    let mut vol = MemoryVolume::new(alloc);
    let store = store_of(alloc, &mut vol, &[1, 3, 7, 13])?;
    let store = store.prune(&mut vol, Location::new(7))?;
    let found = store.place_at(&mut vol, Location::new(size))?;
    Ok(found.map(|(position, _)| position))
}

#[test]
fn finds_the_kept_witness_of_exactly_a_size(rt: HostRuntime) -> Result<(), Fail> {
    let rows = [
        (0, None),
        (1, None),
        (3, None),
        (7, Some(2)),
        (8, None),
        (13, Some(3)),
        (14, None),
    ];
    for (size, want) in rows {
        assert!(rt; place_of(rt.alloc(), size)? == want);
    }
    Ok(())
}

/// The sizes that a prune leaves of five.
fn pruned(alloc: Global, boundary: u64) -> Result<Vec<u64>, Fail> {
    let mut vol = MemoryVolume::new(alloc);
    let store = store_of(alloc, &mut vol, &[1, 3, 7, 13, 20])?;
    let _store = store.prune(&mut vol, Location::new(boundary))?;
    sizes(alloc, &mut vol)
}

#[test]
fn a_prune_leaves_whole_blobs_and_the_last_witness(rt: HostRuntime) -> Result<(), Fail> {
    let all = [1, 3, 7, 13, 20];
    for (boundary, from) in [
        (0, 0),
        (3, 0),
        (4, 2),
        (13, 2),
        (14, 4),
        (21, 4),
        (u64::MAX, 4),
    ] {
        assert!(rt; all.get(from..) == Some(pruned(rt.alloc(), boundary)?.as_slice()));
    }
    Ok(())
}
