//! A full database in memory.
ghost use Rattle.std.specs.Prelude.{◌≡◌, codes, string_bytes, IfOk};

use crate::BenchError;
use chain_core::Pool;
use codec_base::{Bytes, LengthCfg};
use journal_base::JournalConfig;
use keyless_db::variable::{Config, Db};
use memory_volume::MemoryVolume;
use std::alloc::Global;
use std::num::NonZeroU64;
use tree_core::{Location, Mmr, Sha256Digest, Sha256Hasher};

/// Each value.
const VALUE: [u8; 32] = [7; 32];

/// A volume and its database.
#[derive(Drop)]
pub(crate) struct Kept {
    vol: MemoryVolume,
    db: Db<Mmr, Bytes, Sha256Hasher>,
}

/// Where the database has its operations and their tree.
fn config(alloc: Global) -> Result<Config<LengthCfg>, BenchError>
    ensures log { IfOk result (λ cfg. string_bytes cfg.log.name ≡ codes "log") }
    ensures nodes { IfOk result (λ cfg. string_bytes cfg.merkle.nodes ≡ codes "nodes") }
{
    let items_per_blob = NonZeroU64::new(4096).ok_or(BenchError::Database)?;
    Ok(keyless_db::Config {
        merkle: merkle_full::Config {
            nodes: String::from_str(alloc, "nodes")?,
            items_per_blob,
            metadata: String::from_str(alloc, "pins")?,
        },
        log: JournalConfig {
            name: String::from_str(alloc, "log")?,
            items_per_blob,
            codec: LengthCfg { max: 32 },
        },
        apply_batch: items_per_blob,
    })
}

/// A value of its own.
fn value(alloc: Global) -> Result<Bytes, BenchError> {
    Ok(Bytes::from_slice(alloc, &VALUE)?)
}

impl Kept {
    /// No batch.
    pub(crate) fn new(alloc: Global) -> Result<Self, BenchError> {
        let mut vol = MemoryVolume::new(alloc);
        let db = Db::init(alloc, &mut vol, config(alloc)?, None)?;
        Ok(Kept { vol, db })
    }

    /// These and a batch of four values, sealed and applied.
    pub(crate) fn grown(self, alloc: Global) -> Result<Self, BenchError> {
        let mut vol = self.vol;
        let db = self.db;
        let mut batch = db.new_batch()?;
        batch.append(value(alloc)?)?;
        batch.append(value(alloc)?)?;
        batch.append(value(alloc)?)?;
        batch.append(value(alloc)?)?;
        let mut pool = Pool::new(alloc);
        let id = batch.merkleize(&mut pool, &db, None, Location::new(0))?;
        if !pool.is_alive(id) {
            return Err(BenchError::Database);
        }
        let db = db.apply_batch(&mut vol, &pool, id)?;
        Ok(Kept { vol, db })
    }

    /// The root of all operations.
    pub(crate) fn root(&self) -> Sha256Digest {
        self.db.root()
    }
}
