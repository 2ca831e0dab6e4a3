//! A history of three batches.
ghost use Rattle.std.specs.Prelude.{◌≡◌};

use crate::error::TableError;
use crate::kinds::{Keyed, Kind};
use crate::texts::{Db, print_digests, print_operations, print_proof, print_state};
use chain_core::{BatchId, Pool};
use compact_db::{CompactConfig, MerkleizedBatch, UnmerkleizedBatch};
use memory_volume::MemoryVolume;
use std::alloc::Global;
use std::num::NonZeroU64;
use tree_core::{Digest, Family, Location, Sha256Digest, Sha256Hasher};

/// The batches of the history: from which number to which, and the floor of the commit behind.
const BATCHES: [(u8, u8, u64); 3] = [(0, 1, 0), (1, 4, 2), (4, 9, 3)];

pub(crate) type Batches<F, O> = Pool<MerkleizedBatch<F, O, Sha256Digest>>;

/// Two witnesses a blob.
pub(crate) fn config<F: Family, O: Kind<F>>(
    alloc: Global,
) -> Result<CompactConfig<O::Cfg>, TableError>
where
    O::Value: Drop,
{
    Ok(CompactConfig {
        witness: String::from_str(alloc, "witness")?,
        items_per_blob: NonZeroU64::new(2).ok_or(TableError::Database)?,
        commit_codec: O::codec(),
    })
}

/// The database of a volume.
pub(crate) fn opened<F: Family, O: Kind<F>>(
    alloc: Global,
    vol: &mut MemoryVolume,
) -> Result<Db<F, O>, TableError>
where
    O::Value: Drop,
{
    let cfg = config::<F, O>(alloc)?;
    Ok(Db::init(alloc, vol, cfg, None)?)
}

/// Adds the operations of the numbers in a range.
pub(crate) fn fill<F: Family, O: Kind<F>>(
    alloc: Global,
    batch: &mut UnmerkleizedBatch<F, O, Sha256Hasher>,
    from: u8,
    to: u8,
) -> Result<(), TableError>
where
    O::Value: Drop,
    ensures { batch.new.parent ≡ batch.old.parent }
{
    for number in from..to {
        O::add(alloc, batch, number)?;
    }
    Ok(())
}

/// A sealed batch of the numbers in a range, on a database.
pub(crate) fn sealed<F: Family, O: Kind<F>>(
    alloc: Global,
    pool: &mut Batches<F, O>,
    db: &Db<F, O>,
    batch: (u8, u8, u64),
) -> Result<BatchId, TableError>
where
    O::Value: Drop,
{
    if pool.drawn() == u64::MAX {
        return Err(TableError::Memory);
    }
    let (from, to, floor) = batch;
    let mut made = db.new_batch()?;
    fill(alloc, &mut made, from, to)?;
    Ok(made.merkleize(pool, db, None, Location::new(floor))?)
}

/// A sealed batch in which a key is set, then an earlier key, and then the first one again.
fn repeated<F: Family, O: Keyed<F>>(
    alloc: Global,
    pool: &mut Batches<F, O>,
    db: &Db<F, O>,
) -> Result<BatchId, TableError>
where
    O::Value: Drop,
{
    if pool.drawn() == u64::MAX {
        return Err(TableError::Memory);
    }
    let mut batch = db.new_batch()?;
    O::set(alloc, &mut batch, 2, 1)?;
    O::set(alloc, &mut batch, 1, 2)?;
    O::set(alloc, &mut batch, 2, 3)?;
    Ok(batch.merkleize(pool, db, None, Location::new(0))?)
}

/// Prints the operations of a sealed batch.
fn print_own<F: Family, O: Kind<F>>(
    rt: &impl Print,
    alloc: Global,
    batch: &MerkleizedBatch<F, O, Sha256Digest>,
) -> Result<(), TableError>
where
    O::Value: Drop,
{
    let (first, operations) = batch.operations();
    print!(rt; "  operations from {}:", first.as_u64())?;
    print_operations(rt, alloc, operations)
}

/// Prints the nodes before the operations of a sealed batch over its database.
fn print_pins<F: Family, O: Kind<F>>(
    rt: &impl Print,
    alloc: Global,
    batch: &MerkleizedBatch<F, O, Sha256Digest>,
    db: &Db<F, O>,
) -> Result<(), TableError>
where
    O::Value: Drop,
{
    let pins = batch.pinned_nodes(db)?;
    print!(rt; "    pins:")?;
    print_digests(rt, alloc, pins.as_slice())
}

/// Prints the states of a sealed batch: between which its operations are, where its chain began, how many batches are
/// below it, and the floor and the root.
fn print_bounds<F: Family, O: Kind<F>>(
    rt: &impl Print,
    alloc: Global,
    batch: &MerkleizedBatch<F, O, Sha256Digest>,
) -> Result<(), TableError>
where
    O::Value: Drop,
{
    let bounds = batch.bounds();
    let root = hex::encode(alloc, batch.root().as_slice())?;
    print!(rt;
        "    from {} to {}, begun at {}, on {}",
        bounds.base.size.as_u64(),
        bounds.tip.size.as_u64(),
        bounds.db.size.as_u64(),
        bounds.ancestors.len()
    )?;
    println!(rt; ", floor {} root {root}", bounds.inactivity_floor.as_u64())?;
    Ok(())
}

/// Prints the operations and states of a sealed batch, and its proof and pins over its database.
fn print_batch<F: Family, O: Kind<F>>(
    rt: &impl Print,
    alloc: Global,
    batch: &MerkleizedBatch<F, O, Sha256Digest>,
    db: &Db<F, O>,
) -> Result<(), TableError>
where
    O::Value: Drop,
{
    print_own(rt, alloc, batch)?;
    print_bounds(rt, alloc, batch)?;
    print_proof(rt, alloc, &batch.proof(db)?)?;
    print_pins(rt, alloc, batch, db)
}

/// The database with one more batch.
fn grown<F: Family, O: Kind<F>>(
    vol: &mut MemoryVolume,
    db: Db<F, O>,
    pool: &Batches<F, O>,
    id: BatchId,
) -> Result<Db<F, O>, TableError>
where
    O::Value: Drop,
{
    if !pool.is_alive(id) {
        return Err(TableError::Database);
    }
    Ok(db.apply_batch(vol, pool, id)?)
}

/// The database with one more batch, which is printed.
pub(crate) fn print_grown<F: Family, O: Kind<F>>(
    rt: &impl Print,
    alloc: Global,
    vol: &mut MemoryVolume,
    db: Db<F, O>,
    pool: &Batches<F, O>,
    id: BatchId,
) -> Result<Db<F, O>, TableError>
where
    O::Value: Drop,
{
    match pool.get(id) {
        Ok(batch) => print_batch(rt, alloc, batch, &db)?,
        Err(_) => return Err(TableError::Database),
    }
    let db = grown(vol, db, pool, id)?;
    print!(rt; "  ")?;
    print_state(rt, alloc, &db)?;
    Ok(db)
}

/// The database with one more batch of the numbers in a range, which is printed.
pub(crate) fn applied<F: Family, O: Kind<F>>(
    rt: &impl Print,
    alloc: Global,
    vol: &mut MemoryVolume,
    db: Db<F, O>,
    batch: (u8, u8, u64),
) -> Result<Db<F, O>, TableError>
where
    O::Value: Drop,
{
    let mut pool = Pool::new(alloc);
    let id = sealed(alloc, &mut pool, &db, batch)?;
    print_grown(rt, alloc, vol, db, &pool, id)
}

/// Prints a batch in which a key is set, then an earlier key, and then the first one again.
pub(crate) fn print_order<F: Family, O: Keyed<F>>(
    rt: &impl Print,
    alloc: Global,
) -> Result<(), TableError>
where
    O::Value: Drop,
{
    let mut vol = MemoryVolume::new(alloc);
    let db: Db<F, O> = opened(alloc, &mut vol)?;
    let mut pool = Pool::new(alloc);
    let id = repeated(alloc, &mut pool, &db)?;
    print_grown(rt, alloc, &mut vol, db, &pool, id)?;
    Ok(())
}

/// Prints the history of a database that begins in the volume, and leaves it there.
pub(crate) fn print_history<F: Family, O: Kind<F>>(
    rt: &impl Print,
    alloc: Global,
    vol: &mut MemoryVolume,
) -> Result<(), TableError>
where
    O::Value: Drop,
{
    let mut db: Db<F, O> = opened(alloc, vol)?;
    print!(rt; "  ")?;
    print_state(rt, alloc, &db)?;
    for batch in BATCHES {
        db = applied(rt, alloc, vol, db, batch)?;
    }
    db.commit(vol)?;
    Ok(())
}
