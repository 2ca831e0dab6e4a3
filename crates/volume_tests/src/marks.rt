//! A small user of journals, whichever of its calls fails.
use crate::journals::{config, numbers, open};
use codec_base::{Bytes, U64};
use journal_base::FixedJournal;
use marked_log::append_and_mark;
use memory_volume::{LogChoice, MemoryVolume};
use std::alloc::Global;
use std::test::Fail;
use volume_base::{MetaMap, Volume};

/// A map of one key.
fn mark(alloc: Global) -> Result<MetaMap, Fail> {
    let mut mark = MetaMap::new(alloc);
    let one = Bytes::from_slice(alloc, b"1")?;
    mark.put(Bytes::from_slice(alloc, b"end")?, one)?;
    Ok(mark)
}

/// Appends a number to an empty journal and marks it, on a volume of which the n-th call then fails; says whether that was done.
fn marks(alloc: Global, vol: &mut MemoryVolume, n: u64) -> Result<bool, Fail> {
    let items = numbers(alloc, 1)?;
    let mark = mark(alloc)?;
    let journal: FixedJournal<U64> = open(vol, config(alloc, ())?, None)?;
    vol.fail_call(n)?;
    Ok(append_and_mark(journal, vol, &items, "map", &mark).is_ok())
}

/// The end of the log and whether the map has the mark, after a crash that leaves least.
fn least_left(alloc: Global, vol: &MemoryVolume) -> Result<(u64, bool), Fail> {
    let least = LogChoice {
        name: Bytes::from_slice(alloc, b"log")?,
        version: u64::MAX,
        start: 0,
        end: 0,
    };
    let mut left = vol.crash(&[least])?;
    let (_, end) = left.log_bounds("log")?;
    Ok((end, left.map_get("map")?.get(b"end").is_some()))
}

#[test]
fn marks_what_is_durable_whichever_call_fails(rt: HostRuntime) -> Result<(), Fail> {
    // The append makes two calls, the sync one, and the mark one.
    for n in 1..6 {
        let mut vol = MemoryVolume::new(rt.alloc());
        let is_marked = marks(rt.alloc(), &mut vol, n)?;
        let (end, has_mark) = least_left(rt.alloc(), &vol)?;
        assert!(rt; (is_marked, end, has_mark) == (n > 4, if n > 3 { 1 } else { 0 }, n > 4));
    }
    Ok(())
}
