//! A compact database in memory.
use crate::BenchError;
use chain_core::Pool;
use codec_base::U64;
use compact_db::{CompactConfig, CompactDb, CompactOperation};
use memory_volume::MemoryVolume;
use op_codec::{FixedEncoding, Request, keyless};
use std::alloc::Global;
use std::num::NonZeroU64;
use tree_core::{Family, Location, Mmr, Sha256Hasher};
use volume_base::Volume;

type Operation = keyless::Operation<Mmr, FixedEncoding<U64>>;

type Db = CompactDb<Mmr, Operation, Sha256Hasher>;

/// The name of the log of witnesses.
const NAME: &str = "witness";

/// How many witnesses a blob has, which a prune drops together.
pub(crate) const BLOB: u64 = 10;

/// How many calls of the volume a state takes at most to be served.
const MOST_CALLS: u64 = 64;

/// A volume, its database, and how many batches that has.
#[derive(Drop)]
pub(crate) struct Kept {
    vol: MemoryVolume,
    db: Db,
    batches: u64,
}

/// The size of the database after so many batches of one value.
fn size_after(batches: u64) -> Location<Mmr> {
    Location::new(batches.saturating_mul(2).saturating_add(1))
}

/// The request for the commit that ends the state after so many batches, with the nodes before it.
fn request_after(batches: u64) -> Result<Request<Mmr>, BenchError> {
    Ok(Request::Boundary {
        size: size_after(batches),
        start: Location::new(batches.saturating_mul(2)),
        max_ops: NonZeroU64::new(1).ok_or(BenchError::Database)?,
    })
}

/// Where a database keeps the witness of exactly so many operations.
fn position_in<F: Family, O: CompactOperation>(
    db: &CompactDb<F, O, Sha256Hasher>,
    vol: &mut MemoryVolume,
    size: Location<F>,
) -> Result<Option<u64>, BenchError> {
    let position = db.retained_position(vol, size)?;
    Ok(position)
}

impl Kept {
    /// No batch.
    pub(crate) fn new(alloc: Global) -> Result<Self, BenchError> {
        let mut vol = MemoryVolume::new(alloc);
        let config = CompactConfig {
            witness: String::from_str(alloc, NAME)?,
            items_per_blob: NonZeroU64::new(BLOB).ok_or(BenchError::Database)?,
            commit_codec: (),
        };
        let db: Db = CompactDb::init(alloc, &mut vol, config, None)?;
        Ok(Kept {
            vol,
            db,
            batches: 0,
        })
    }

    /// These and a batch of one value, committed.
    pub(crate) fn grown(self, alloc: Global) -> Result<Self, BenchError> {
        let batches = self.batches.saturating_add(1);
        let mut vol = self.vol;
        let db = self.db;
        let mut batch = db.new_batch()?;
        batch.append(U64::new(7))?;
        let mut pool = Pool::new(alloc);
        let id = batch.merkleize(&mut pool, &db, None, Location::new(0))?;
        if !pool.is_alive(id) {
            return Err(BenchError::Database);
        }
        let db = db.apply_batch(&mut vol, &pool, id)?;
        let db = db.commit(&mut vol)?;
        Ok(Kept { vol, db, batches })
    }

    /// The same states with the witnesses of the last so many, and of those before them in one blob with these.
    pub(crate) fn pruned(self, last: u64) -> Result<Self, BenchError> {
        let batches = self.batches;
        let oldest = size_after(self.before_last(last));
        let mut vol = self.vol;
        let db = self.db.prune(&mut vol, oldest)?;
        Ok(Kept { vol, db, batches })
    }

    /// How many states there are, that of no batch among them.
    pub(crate) fn states(&self) -> u64 {
        self.batches.saturating_add(1)
    }

    /// How many states are before the last so many.
    pub(crate) fn before_last(&self, last: u64) -> u64 {
        self.states().saturating_sub(last)
    }

    /// Where the witness of the state after so many batches is kept.
    fn position(&mut self, batches: u64) -> Result<Option<u64>, BenchError> {
        position_in(&self.db, &mut self.vol, size_after(batches))
    }

    /// How many states have their witness kept.
    pub(crate) fn count(&mut self) -> Result<u64, BenchError> {
        let mut kept: u64 = 0;
        for batches in 0..self.states() {
            if self.position(batches)?.is_some() {
                kept = kept.saturating_add(1);
            }
        }
        Ok(kept)
    }

    /// Looks the witness of the state after so many batches up.
    pub(crate) fn look_up(&mut self, batches: u64) -> Result<(), BenchError> {
        match self.position(batches)? {
            Some(_) => Ok(()),
            None => Err(BenchError::Database),
        }
    }

    /// Serves the state after so many batches.
    pub(crate) fn serve(&mut self, batches: u64) -> Result<(), BenchError> {
        let request = request_after(batches)?;
        self.db.serve(&mut self.vol, request)?;
        Ok(())
    }

    /// How many calls of the volume the state after so many batches takes to be served: of so many that don't fail,
    /// those that are left behind it are counted.
    pub(crate) fn calls_of_serve(&mut self, batches: u64) -> Result<u64, BenchError> {
        self.vol.fail_call(MOST_CALLS + 1)?;
        self.serve(batches)?;
        for left in 0..MOST_CALLS {
            if self.vol.log_bounds(NAME).is_err() {
                return Ok(MOST_CALLS - left);
            }
        }
        Ok(0)
    }
}
