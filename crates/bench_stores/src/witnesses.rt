//! A store of witnesses in memory.
use crate::BenchError;
use codec_base::{Bytes, ListOf};
use journal_base::{Backing, JournalConfig, VariableJournal};
use memory_volume::MemoryVolume;
use std::alloc::Global;
use std::num::NonZeroU64;
use tree_shape::{Hasher, Location, Mmr, Sha256Digest, Sha256Hasher};
use volume_base::Volume;
use witness_store::{Store, Witness};

type Kept = Witness<Mmr, Sha256Digest>;

/// The name of the log of witnesses.
const NAME: &str = "witness";

/// How many calls of the volume a look-up makes at most.
const MOST_CALLS: u64 = 64;

/// A volume, its store, and the witness that is appended next but for its size.
#[derive(Drop)]
pub(crate) struct Witnesses {
    vol: MemoryVolume,
    store: Store<Mmr, Sha256Digest>,
    next: Kept,
}

/// A witness with ten pins.
fn witness(alloc: Global) -> Result<Kept, BenchError> {
    let mut pins = ListOf::new(alloc);
    for _ in 0..10 {
        pins.push(Sha256Hasher::new().finish())?;
    }
    Ok(Witness {
        op_bytes: Bytes::from_slice(alloc, &[0, 0, 0])?,
        size: Location::new(0),
        pinned_nodes: pins,
    })
}

impl Witnesses {
    /// None.
    pub(crate) fn new(alloc: Global) -> Result<Self, BenchError> {
        let mut vol = MemoryVolume::new(alloc);
        let config = JournalConfig {
            name: String::from_str(alloc, NAME)?,
            items_per_blob: NonZeroU64::new(4096).ok_or(BenchError::Store)?,
            codec: (),
        };
        let recovery = VariableJournal::<Kept>::recover(&mut vol, config, None)?;
        let store = Store::open(recovery, &mut vol, 0)?;
        let next = witness(alloc)?;
        Ok(Witnesses { vol, store, next })
    }

    /// These and the witness of so many operations, committed.
    pub(crate) fn with(self, size: u64) -> Result<Self, BenchError> {
        let mut vol = self.vol;
        let mut next = self.next;
        next.size = Location::new(size);
        let store = self.store.append(&mut vol, &next)?;
        let store = store.commit(&mut vol)?;
        Ok(Witnesses { vol, store, next })
    }

    /// Looks up the witness of so many operations.
    pub(crate) fn find(&mut self, size: u64) -> Result<bool, BenchError> {
        let found = self.store.place_at(&mut self.vol, Location::new(size))?;
        Ok(found.is_some())
    }

    /// How many calls of the volume a look-up makes: of so many that don't fail, those that are left behind it are counted.
    pub(crate) fn calls_of_find(&mut self, size: u64) -> Result<u64, BenchError> {
        self.vol.fail_call(MOST_CALLS + 1)?;
        self.find(size)?;
        for left in 0..MOST_CALLS {
            if self.vol.log_bounds(NAME).is_err() {
                return Ok(MOST_CALLS - left);
            }
        }
        Ok(0)
    }
}
