//! The calls of a database that its history doesn't need.
ghost use Rattle.std.specs.Prelude.{◌≡◌, Some, IfOk};

use crate::error::TableError;
use crate::history::{Batches, applied, fill, opened, print_grown, sealed};
use crate::imported::answered;
use crate::kinds::Kind;
use crate::texts::{Db, print_operations, print_proof, print_state};
use chain_core::{BatchId, Pool};
use compact_db::{MerkleizedBatch, UnmerkleizedBatch};
use memory_volume::MemoryVolume;
use op_codec::{Request, Response};
use std::alloc::Global;
use std::num::NonZeroU64;
use tree_core::{Digest, Family, Location, Sha256Digest, Sha256Hasher};

/// A batch of the numbers in a range, on a sealed one.
fn child<F: Family, O: Kind<F>>(
    alloc: Global,
    pool: &mut Batches<F, O>,
    parent: BatchId,
    from: u8,
    to: u8,
) -> Result<UnmerkleizedBatch<F, O, Sha256Hasher>, TableError>
where
    O::Value: Drop,
    ensures { IfOk result (λ b. b.parent ≡ Some parent) }
{
    if !pool.is_alive(parent) || pool.holds(parent) == u64::MAX {
        return Err(TableError::Database);
    }
    let mut batch = MerkleizedBatch::new_batch(pool, parent)?;
    fill(alloc, &mut batch, from, to)?;
    Ok(batch)
}

/// A sealed batch of the numbers in a range, on a sealed one.
fn sealed_on<F: Family, O: Kind<F>>(
    alloc: Global,
    pool: &mut Batches<F, O>,
    db: &Db<F, O>,
    parent: BatchId,
    batch: (u8, u8, u64),
) -> Result<BatchId, TableError>
where
    O::Value: Drop,
{
    let (from, to, floor) = batch;
    let made = child(alloc, pool, parent, from, to)?;
    if pool.drawn() == u64::MAX || !pool.is_alive(parent) {
        return Err(TableError::Memory);
    }
    Ok(made.merkleize(pool, db, None, Location::new(floor))?)
}

/// Prints whether a batch may be applied.
fn print_validated<F: Family, O: Kind<F>>(
    rt: &impl Print,
    pool: &Batches<F, O>,
    db: &Db<F, O>,
    id: BatchId,
) -> Result<(), TableError>
where
    O::Value: Drop,
{
    if !pool.is_alive(id) {
        return Err(TableError::Database);
    }
    match db.validate_batch(pool, id) {
        Ok(()) => println!(rt; " may be applied")?,
        Err(_) => println!(rt; " may not be applied")?,
    }
    Ok(())
}

/// Prints where a batch adds its next operation, and which batch it is on.
fn print_unsealed<F: Family, O: Kind<F>>(
    rt: &impl Print,
    batch: &UnmerkleizedBatch<F, O, Sha256Hasher>,
) -> Result<(), TableError>
where
    O::Value: Drop,
{
    match batch.parent() {
        Some(id) => println!(rt; "  a batch at {} on {}", batch.size().as_u64(), id.number())?,
        None => println!(rt; "  a batch at {} on none", batch.size().as_u64())?,
    }
    Ok(())
}

/// Prints how often a sealed batch is held with a batch on it, and when that is given up.
fn print_held<F: Family, O: Kind<F>>(
    rt: &impl Print,
    alloc: Global,
    pool: &mut Batches<F, O>,
    id: BatchId,
) -> Result<(), TableError>
where
    O::Value: Drop,
{
    let batch = child(alloc, pool, id, 0, 3)?;
    print_unsealed(rt, &batch)?;
    if !pool.is_alive(id) {
        return Err(TableError::Database);
    }
    println!(rt; "  with a batch on it it is held {}", pool.holds(id))?;
    batch.discard(pool);
    println!(rt; "  without, {}", pool.holds(id))?;
    Ok(())
}

/// Prints a snapshot of a database, and a batch on it that is given up.
fn print_snapshot<F: Family, O: Kind<F>>(
    rt: &impl Print,
    alloc: Global,
    db: &Db<F, O>,
) -> Result<(), TableError>
where
    O::Value: Drop,
{
    let mut pool = Pool::new(alloc);
    let snapshot = db.to_batch(&mut pool)?;
    print!(rt; "  a snapshot")?;
    print_validated(rt, &pool, db, snapshot)?;
    print_held(rt, alloc, &mut pool, snapshot)
}

/// Prints a batch on a batch, and gives the database with both.
fn print_chain<F: Family, O: Kind<F>>(
    rt: &impl Print,
    alloc: Global,
    vol: &mut MemoryVolume,
    db: Db<F, O>,
) -> Result<Db<F, O>, TableError>
where
    O::Value: Drop,
{
    let mut pool = Pool::new(alloc);
    let first = sealed(alloc, &mut pool, &db, (0, 2, 1))?;
    let second = sealed_on(alloc, &mut pool, &db, first, (2, 4, 2))?;
    print!(rt; "  a batch on a batch")?;
    print_validated(rt, &pool, &db, second)?;
    let db = print_grown(rt, alloc, vol, db, &pool, second)?;
    print!(rt; "  the batch below it")?;
    print_validated(rt, &pool, &db, first)?;
    Ok(db)
}

/// Prints whether the last commit has metadata.
fn print_metadata<F: Family, O: Kind<F>>(rt: &impl Print, db: &Db<F, O>) -> Result<(), TableError>
where
    O::Value: Drop,
{
    match db.get_metadata()? {
        Some(value) => {
            drop(value);
            println!(rt; "  metadata")?;
        }
        None => println!(rt; "  no metadata")?,
    }
    Ok(())
}

/// Prints the applied state.
fn print_commitment<F: Family, O: Kind<F>>(
    rt: &impl Print,
    alloc: Global,
    db: &Db<F, O>,
) -> Result<(), TableError>
where
    O::Value: Drop,
{
    let state = db.commitment();
    let root = hex::encode(alloc, state.root.as_slice())?;
    println!(rt; "  applied {} {root}", state.size.as_u64())?;
    Ok(())
}

/// Prints what a follower is synced to.
fn print_target<F: Family, O: Kind<F>>(
    rt: &impl Print,
    alloc: Global,
    db: &Db<F, O>,
) -> Result<(), TableError>
where
    O::Value: Drop,
{
    let target = db.target();
    let root = hex::encode(alloc, target.root.as_slice())?;
    println!(rt; "  target {} {root}", target.size.as_u64())?;
    Ok(())
}

/// The database, once it is told how its sync has ended.
fn started<F: Family, O: Kind<F>>(
    vol: &mut MemoryVolume,
    db: Db<F, O>,
) -> Result<Db<F, O>, TableError>
where
    O::Value: Drop,
{
    let (db, ticket) = db.start_sync(vol)?;
    match ticket.settle() {
        Ok(()) => Ok(db),
        Err(_) => Err(TableError::Volume),
    }
}

/// Prints two more batches, the first behind a sync and the second behind one that is started.
fn print_synced<F: Family, O: Kind<F>>(
    rt: &impl Print,
    alloc: Global,
    vol: &mut MemoryVolume,
    db: Db<F, O>,
) -> Result<Db<F, O>, TableError>
where
    O::Value: Drop,
{
    let db = db.sync(vol)?;
    let db = applied(rt, alloc, vol, db, (4, 6, 3))?;
    let db = started(vol, db)?;
    applied(rt, alloc, vol, db, (6, 9, 9))
}

/// Prints where the witness of each size stands.
fn print_places<F: Family, O: Kind<F>>(
    rt: &impl Print,
    vol: &mut MemoryVolume,
    db: &Db<F, O>,
) -> Result<(), TableError>
where
    O::Value: Drop,
{
    print!(rt; "  witnesses:")?;
    for size in 0..16 {
        if let Some(place) = db.retained_position(vol, Location::new(size))? {
            print!(rt; " {size} at {place}")?;
        }
    }
    println!(rt; "")?;
    Ok(())
}

/// The request for the commit that ends a state, as an operation.
fn asked<F: Family>(size: u64) -> Result<Request<F>, TableError> {
    Ok(Request::Operations {
        size: Location::new(size),
        start: Location::new(size.saturating_sub(1)),
        max_ops: NonZeroU64::new(1).ok_or(TableError::Database)?,
    })
}

/// Prints operations that are answered with, and their proof.
fn print_answer<F: Family, O: Kind<F>>(
    rt: &impl Print,
    alloc: Global,
    response: Response<F, O, Sha256Digest>,
) -> Result<(), TableError>
where
    O::Value: Drop,
{
    match response {
        Response::Operations { proof, operations } => {
            print_operations(rt, alloc, operations.as_slice())?;
            print_proof(rt, alloc, &proof)
        }
        Response::Boundary {
            proof,
            op,
            pinned_nodes,
        } => {
            drop(proof);
            drop(op);
            drop(pinned_nodes);
            Err(TableError::Database)
        }
    }
}

/// Prints the commit of a size, asked for as an operation, with its proof.
fn print_asked<F: Family, O: Kind<F>>(
    rt: &impl Print,
    alloc: Global,
    vol: &mut MemoryVolume,
    db: &Db<F, O>,
    size: u64,
) -> Result<(), TableError>
where
    O::Value: Drop,
{
    print!(rt; "  asked at {size}:")?;
    let request = asked(size)?;
    match answered(vol, db, request) {
        Some(response) => print_answer(rt, alloc, response),
        None => {
            println!(rt; " nothing")?;
            Ok(())
        }
    }
}

/// Prints which witnesses are kept, and what is answered of two sizes.
fn print_kept<F: Family, O: Kind<F>>(
    rt: &impl Print,
    alloc: Global,
    vol: &mut MemoryVolume,
    db: &Db<F, O>,
) -> Result<(), TableError>
where
    O::Value: Drop,
{
    print_places(rt, vol, db)?;
    print_asked(rt, alloc, vol, db, 7)?;
    print_asked(rt, alloc, vol, db, 10)
}

/// Prints what is kept of a database before a prune, and behind it.
fn print_pruned<F: Family, O: Kind<F>>(
    rt: &impl Print,
    alloc: Global,
    vol: &mut MemoryVolume,
    db: Db<F, O>,
) -> Result<Db<F, O>, TableError>
where
    O::Value: Drop,
{
    print_kept(rt, alloc, vol, &db)?;
    let db = db.prune(vol, Location::new(10))?;
    print_kept(rt, alloc, vol, &db)?;
    Ok(db)
}

/// Takes a database away, and prints the one that is opened in its place.
fn print_replaced<F: Family, O: Kind<F>>(
    rt: &impl Print,
    alloc: Global,
    vol: &mut MemoryVolume,
    db: Db<F, O>,
) -> Result<(), TableError>
where
    O::Value: Drop,
{
    db.destroy(vol)?;
    let other: Db<F, O> = opened(alloc, vol)?;
    print!(rt; "  taken away: ")?;
    print_state(rt, alloc, &other)
}

/// Prints what the other calls of a database answer, and takes it away.
pub(crate) fn print_calls<F: Family, O: Kind<F>>(
    rt: &impl Print,
    alloc: Global,
) -> Result<(), TableError>
where
    O::Value: Drop,
{
    let mut vol = MemoryVolume::new(alloc);
    let db: Db<F, O> = opened(alloc, &mut vol)?;
    print_snapshot(rt, alloc, &db)?;
    let db = print_chain(rt, alloc, &mut vol, db)?;
    print_metadata(rt, &db)?;
    print_commitment(rt, alloc, &db)?;
    print_target(rt, alloc, &db)?;
    let db = print_synced(rt, alloc, &mut vol, db)?;
    let db = print_pruned(rt, alloc, &mut vol, db)?;
    print_replaced(rt, alloc, &mut vol, db)
}
