//! What the tests share: a store of witnesses without peaks, by their sizes.
use codec_base::{Bytes, CodecError, ListOf};
use journal_base::{
    Backing, BackingRecovery, Contiguous, JournalConfig, Recovery, VariableJournal,
};
use memory_volume::MemoryVolume;
use std::alloc::Global;
use std::num::NonZeroU64;
use std::test::Fail;
use tree_shape::{Location, Mmr, Sha256Digest};
use volume_base::JournalError;
use witness_store::{Store, Witness, select};

pub(crate) type Kept = Witness<Mmr, Sha256Digest>;

pub(crate) type Log = Store<Mmr, Sha256Digest>;

/// The name of the log of every test.
pub(crate) const NAME: &str = "witness";

/// Two witnesses make a blob.
pub(crate) fn config(alloc: Global) -> Result<JournalConfig<()>, Fail> {
    Ok(JournalConfig {
        name: String::from_str(alloc, NAME)?,
        items_per_blob: NonZeroU64::new(2).ok_or("no blob")?,
        codec: (),
    })
}

/// The witness of so many operations, without peaks.
pub(crate) fn witness(alloc: Global, size: u64) -> Result<Kept, CodecError> {
    Ok(Witness {
        op_bytes: Bytes::from_slice(alloc, &[0, 0, 0])?,
        size: Location::new(size),
        pinned_nodes: ListOf::new(alloc),
    })
}

/// A log that is being opened.
pub(crate) fn recovery(alloc: Global, vol: &mut MemoryVolume) -> Result<Recovery<Kept>, Fail> {
    Ok(VariableJournal::<Kept>::recover(vol, config(alloc)?, None)?)
}

/// Appends the witnesses of these sizes.
pub(crate) fn append(
    alloc: Global,
    vol: &mut MemoryVolume,
    store: Log,
    sizes: &[u64],
) -> Result<Log, Fail> {
    let mut store = store;
    for size in sizes {
        store = store.append(vol, &witness(alloc, *size)?)?;
    }
    Ok(store)
}

/// A store of the witnesses of these sizes, all of them durable.
pub(crate) fn store_of(alloc: Global, vol: &mut MemoryVolume, sizes: &[u64]) -> Result<Log, Fail> {
    let recovery = recovery(alloc, vol)?;
    let store = Store::open(recovery, vol, 0)?;
    Ok(append(alloc, vol, store, sizes)?.commit(vol)?)
}

/// Opens a log at its last witness of at most so many operations; nothing where none is.
pub(crate) fn open_at(
    alloc: Global,
    vol: &mut MemoryVolume,
    cap: Option<u64>,
) -> Result<Option<Log>, Fail> {
    let recovery = recovery(alloc, vol)?;
    let (start, end) = recovery.bounds();
    if start >= end {
        return Ok(None);
    }
    match select(&recovery, vol, cap.map(|size| Location::new(size)))? {
        Some((to, _)) => Ok(Some(Store::open(recovery, vol, to)?)),
        None => Ok(None),
    }
}

/// The sizes of the witnesses that a log keeps.
pub(crate) fn sizes(alloc: Global, vol: &mut MemoryVolume) -> Result<Vec<u64>, Fail> {
    let recovery = recovery(alloc, vol)?;
    let (start, end) = recovery.bounds();
    let mut kept = Vec::new(alloc);
    for position in start..end {
        kept.push(recovery.read(vol, position)?.size.as_u64())?;
    }
    Ok(kept)
}
