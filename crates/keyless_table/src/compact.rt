//! The compact database of the first batch.
ghost use Rattle.std.specs.Prelude.{◌<◌, ◌-◌, ◌^◌, length};

use crate::error::TableError;
use chain_core::{BatchId, Pool};
use compact_db::{CompactConfig, CompactDb, MerkleizedBatch};
use memory_volume::MemoryVolume;
use op_codec::keyless::{Codec, Operation};
use std::alloc::Global;
use std::num::NonZeroU64;
use tree_core::{Family, Location, Sha256Digest, Sha256Hasher};

type Db<F, V> = CompactDb<F, Operation<F, V>, Sha256Hasher>;

type Batches<F, V> = Pool<MerkleizedBatch<F, Operation<F, V>, Sha256Digest>>;

/// Three witnesses a blob.
fn config<V: Codec>(
    alloc: Global,
    codec: V::ReadCfg,
) -> Result<CompactConfig<V::ReadCfg>, TableError> {
    Ok(CompactConfig {
        witness: String::from_str(alloc, "witness")?,
        items_per_blob: NonZeroU64::new(3).ok_or(TableError::Database)?,
        commit_codec: codec,
    })
}

/// A batch of two values, sealed on a database.
fn sealed<F: Family, V: Codec>(
    pool: &mut Batches<F, V>,
    db: &Db<F, V>,
    first: V::Value,
    second: V::Value,
) -> Result<BatchId, TableError>
where
    V::Value: Drop,
    requires { length pool.old < 2 ^ 64 - 1 }
{
    let mut batch = db.new_batch()?;
    batch.append(first)?;
    batch.append(second)?;
    Ok(batch.merkleize(pool, db, None, Location::new(0))?)
}

/// The root behind a batch of the pool.
fn root_at<F: Family, V: Codec>(
    vol: &mut MemoryVolume,
    db: Db<F, V>,
    pool: &Batches<F, V>,
    id: BatchId,
) -> Result<Sha256Digest, TableError>
where
    V::Value: Drop,
{
    if !pool.is_alive(id) {
        return Err(TableError::Database);
    }
    let db = db.apply_batch(vol, pool, id)?;
    Ok(db.root())
}

/// The root of a compact database behind one batch of two values.
pub(crate) fn compact_root<F: Family, V: Codec>(
    alloc: Global,
    codec: V::ReadCfg,
    first: V::Value,
    second: V::Value,
) -> Result<Sha256Digest, TableError>
where
    V::Value: Drop,
{
    let mut vol = MemoryVolume::new(alloc);
    let db: Db<F, V> = CompactDb::init(alloc, &mut vol, config::<V>(alloc, codec)?, None)?;
    let mut pool = Pool::new(alloc);
    let id = sealed(&mut pool, &db, first, second)?;
    root_at(&mut vol, db, &pool, id)
}
