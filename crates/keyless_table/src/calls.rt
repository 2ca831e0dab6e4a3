//! The calls of a database and its batches that no step of a history makes.
ghost use Rattle.std.specs.Prelude.{◌≡◌, Some, IfOk};
ghost use Rattle.std.specs.Option.{ForSome};
ghost use Rattle.chain_core.specs.Slots.{IsAlive};

use crate::answers::{locations, print_many, print_one};
use crate::batches::{Batch, fill};
use crate::error::TableError;
use crate::steps::Values;
use crate::stores::{Db, Kind, Store, opened};
use crate::texts::{print_operations, print_value};
use chain_core::{BatchId, Pool};
use keyless_db::{MerkleizedBatch, UnmerkleizedBatch};
use memory_volume::MemoryVolume;
use std::alloc::Global;
use tree_core::{Digest, Family, Location, Sha256Hasher};

type Sealed<F, O> = Pool<Batch<F, O>>;

type Unsealed<F, O> = UnmerkleizedBatch<F, Sha256Hasher, O>;

/// A sealed batch of the values of 1 and 2, with that of 9 as metadata, on a database.
fn sealed<F: Family, O: Kind, C: Store<Item = O>>(
    alloc: Global,
    pool: &mut Sealed<F, O>,
    db: &Db<F, O, C>,
) -> Result<BatchId, TableError>
where
    O::Value: Drop,
{
    if pool.drawn() == u64::MAX {
        return Err(TableError::Memory);
    }
    let mut batch = db.new_batch()?;
    fill(alloc, &mut batch, Values(1, 3, 0))?;
    let metadata = O::valued(alloc, 9)?;
    Ok(batch.merkleize(pool, db, Some(metadata), Location::new(0))?)
}

/// A batch of the values of 3 and 4, on a sealed one.
fn child<F: Family, O: Kind>(
    alloc: Global,
    pool: &mut Sealed<F, O>,
    parent: BatchId,
) -> Result<Unsealed<F, O>, TableError>
where
    O::Value: Drop,
    ensures { IfOk result (λ b. b.parent ≡ Some parent) }
{
    if !pool.is_alive(parent) || pool.holds(parent) == u64::MAX {
        return Err(TableError::Database);
    }
    let mut batch = MerkleizedBatch::new_batch(pool, parent)?;
    fill(alloc, &mut batch, Values(3, 5, 0))?;
    Ok(batch)
}

/// Prints the operations of a sealed batch.
fn print_own<F: Family, O: Kind>(
    rt: &impl Print,
    alloc: Global,
    batch: &Batch<F, O>,
) -> Result<(), TableError> {
    let (first, operations) = batch.operations();
    print!(rt; "  operations from {}:", first.as_u64())?;
    print_operations(rt, alloc, operations)
}

/// Prints the states of a sealed batch: between which its operations are, where its chain began, how many batches are
/// below it, and the floor.
fn print_bounds<F: Family, O: Kind>(
    rt: &impl Print,
    batch: &Batch<F, O>,
) -> Result<(), TableError> {
    let bounds = batch.bounds();
    print!(rt;
        "  from {} to {}, begun at {}, on {}",
        bounds.base.size.as_u64(),
        bounds.tip.size.as_u64(),
        bounds.db.size.as_u64(),
        bounds.ancestors.len()
    )?;
    println!(rt; ", floor {}", bounds.inactivity_floor.as_u64())?;
    Ok(())
}

/// Prints a batch of a pool.
fn print_batch<F: Family, O: Kind>(
    rt: &impl Print,
    alloc: Global,
    pool: &Sealed<F, O>,
    id: BatchId,
) -> Result<(), TableError> {
    match pool.get(id) {
        Ok(batch) => {
            print_own(rt, alloc, batch)?;
            print_bounds(rt, batch)
        }
        Err(_) => Err(TableError::Database),
    }
}

/// Prints whether a batch may be applied.
fn print_validated<F: Family, O: Kind, C: Store<Item = O>>(
    rt: &impl Print,
    pool: &Sealed<F, O>,
    db: &Db<F, O, C>,
    id: BatchId,
) -> Result<(), TableError> {
    if !pool.is_alive(id) {
        return Err(TableError::Database);
    }
    match db.validate_batch(pool, id) {
        Ok(()) => println!(rt; " may be applied")?,
        Err(_) => println!(rt; " may not be applied")?,
    }
    Ok(())
}

/// The database with one more batch.
fn applied<F: Family, O: Kind, C: Store<Item = O>>(
    vol: &mut MemoryVolume,
    pool: &Sealed<F, O>,
    db: Db<F, O, C>,
    id: BatchId,
) -> Result<Db<F, O, C>, TableError> {
    if !pool.is_alive(id) {
        return Err(TableError::Database);
    }
    Ok(db.apply_batch(vol, pool, id)?)
}

/// Prints a batch with metadata, and gives the database with it.
fn print_applied<F: Family, O: Kind, C: Store<Item = O>>(
    rt: &impl Print,
    alloc: Global,
    vol: &mut MemoryVolume,
    db: Db<F, O, C>,
) -> Result<Db<F, O, C>, TableError>
where
    O::Value: Drop,
{
    let mut pool = Pool::new(alloc);
    let id = sealed(alloc, &mut pool, &db)?;
    print_batch(rt, alloc, &pool, id)?;
    print!(rt; "  it")?;
    print_validated(rt, &pool, &db, id)?;
    let db = applied(vol, &pool, db, id)?;
    print!(rt; "  once more it")?;
    print_validated(rt, &pool, &db, id)?;
    Ok(db)
}

/// Prints the applied state.
fn print_commitment<F: Family, O: Kind, C: Store<Item = O>>(
    rt: &impl Print,
    alloc: Global,
    db: &Db<F, O, C>,
) -> Result<(), TableError> {
    let state = db.commitment();
    let root = hex::encode(alloc, state.root.as_slice())?;
    println!(rt; "  applied {} {root}", state.size.as_u64())?;
    Ok(())
}

/// Prints the metadata of the last commit.
fn print_metadata<F: Family, O: Kind, C: Store<Item = O>>(
    rt: &impl Print,
    alloc: Global,
    vol: &mut MemoryVolume,
    db: &Db<F, O, C>,
) -> Result<(), TableError>
where
    O::Value: Drop,
{
    let value = db.get_metadata(vol)?;
    print!(rt; "  metadata:")?;
    print_value::<O>(rt, alloc, &value)?;
    println!(rt; "")?;
    Ok(())
}

/// Prints where a batch adds its next operation, and which batch it is on.
fn print_unsealed<F: Family, O: Kind>(
    rt: &impl Print,
    batch: &Unsealed<F, O>,
) -> Result<(), TableError> {
    match batch.parent() {
        Some(id) => println!(rt; "  a batch at {} on {}", batch.size().as_u64(), id.number())?,
        None => println!(rt; "  a batch at {} on none", batch.size().as_u64())?,
    }
    Ok(())
}

/// Prints what a batch that isn't sealed has at a place.
fn print_get<F: Family, O: Kind, C: Store<Item = O>>(
    rt: &impl Print,
    alloc: Global,
    vol: &mut MemoryVolume,
    pool: &Sealed<F, O>,
    db: &Db<F, O, C>,
    batch: &Unsealed<F, O>,
    place: u64,
) -> Result<(), TableError>
where
    O::Value: Drop,
    requires { ForSome batch.now.parent (IsAlive pool.now) }
{
    print!(rt; "  get {place}:")?;
    print_one::<F, O>(rt, alloc, batch.get(vol, pool, db, Location::new(place)))
}

/// Prints what a batch that isn't sealed has at places of the database and of its own.
fn print_get_many<F: Family, O: Kind, C: Store<Item = O>>(
    rt: &impl Print,
    alloc: Global,
    vol: &mut MemoryVolume,
    pool: &Sealed<F, O>,
    db: &Db<F, O, C>,
    batch: &Unsealed<F, O>,
) -> Result<(), TableError>
where
    O::Value: Drop,
    requires { ForSome batch.now.parent (IsAlive pool.now) }
{
    let places = locations(alloc, &[1, 3, 4])?;
    print!(rt; "  get many 1 3 4:")?;
    print_many::<F, O>(rt, alloc, batch.get_many(vol, pool, db, &places))
}

/// Prints what a batch on a sealed one has.
fn print_reads<F: Family, O: Kind, C: Store<Item = O>>(
    rt: &impl Print,
    alloc: Global,
    vol: &mut MemoryVolume,
    pool: &Sealed<F, O>,
    db: &Db<F, O, C>,
    batch: &Unsealed<F, O>,
) -> Result<(), TableError>
where
    O::Value: Drop,
    requires { ForSome batch.now.parent (IsAlive pool.now) }
{
    print_get(rt, alloc, vol, pool, db, batch, 2)?;
    print_get(rt, alloc, vol, pool, db, batch, 5)?;
    print_get_many(rt, alloc, vol, pool, db, batch)
}

/// Prints a batch on a sealed one, and how often this is held with it, and when it is given up.
fn print_child<F: Family, O: Kind, C: Store<Item = O>>(
    rt: &impl Print,
    alloc: Global,
    vol: &mut MemoryVolume,
    pool: &mut Sealed<F, O>,
    db: &Db<F, O, C>,
    id: BatchId,
) -> Result<(), TableError>
where
    O::Value: Drop,
{
    let batch = child(alloc, pool, id)?;
    if !pool.is_alive(id) {
        return Err(TableError::Database);
    }
    print_unsealed(rt, &batch)?;
    print_reads(rt, alloc, vol, pool, db, &batch)?;
    println!(rt; "  with a batch on it it is held {}", pool.holds(id))?;
    batch.discard(pool);
    println!(rt; "  without, {}", pool.holds(id))?;
    Ok(())
}

/// Prints a snapshot of a database, and a batch on it that is given up.
fn print_snapshot<F: Family, O: Kind, C: Store<Item = O>>(
    rt: &impl Print,
    alloc: Global,
    vol: &mut MemoryVolume,
    db: &Db<F, O, C>,
) -> Result<(), TableError>
where
    O::Value: Drop,
{
    let mut pool = Pool::new(alloc);
    let snapshot = db.to_batch(&mut pool)?;
    print!(rt; "  a snapshot")?;
    print_validated(rt, &pool, db, snapshot)?;
    print_child(rt, alloc, vol, &mut pool, db, snapshot)
}

/// Prints what the calls answer that no step makes.
pub(crate) fn print_calls<F: Family, O: Kind, C: Store<Item = O>>(
    rt: &impl Print,
    alloc: Global,
) -> Result<(), TableError>
where
    O::Value: Drop,
{
    println!(rt; " a batch with metadata, and a snapshot")?;
    let mut vol = MemoryVolume::new(alloc);
    let db: Db<F, O, C> = opened(alloc, &mut vol)?;
    let db = print_applied(rt, alloc, &mut vol, db)?;
    print_commitment(rt, alloc, &db)?;
    print_metadata(rt, alloc, &mut vol, &db)?;
    print_snapshot(rt, alloc, &mut vol, &db)
}
