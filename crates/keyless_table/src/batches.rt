//! The batches of a history.
ghost use Rattle.std.specs.Prelude.{◌≡◌};

use crate::error::TableError;
use crate::steps::Values;
use crate::stores::{Db, Kind, Store};
use chain_core::{BatchId, Error, Pool};
use keyless_db::{MerkleizedBatch, UnmerkleizedBatch};
use memory_volume::MemoryVolume;
use std::alloc::Global;
use tree_core::{Family, Location, Sha256Digest, Sha256Hasher};

pub(crate) type Batch<F, O> = MerkleizedBatch<F, Sha256Digest, O>;

/// The sealed batches, and their numbers in turn.
#[derive(Drop)]
pub(crate) struct Batches<F: Family, O: Kind> {
    pool: Pool<Batch<F, O>>,
    ids: Vec<BatchId>,
}

/// Adds the values of a batch.
pub(crate) fn fill<F: Family, O: Kind>(
    alloc: Global,
    batch: &mut UnmerkleizedBatch<F, Sha256Hasher, O>,
    values: Values,
) -> Result<(), TableError>
where
    O::Value: Drop,
    ensures { batch.new.parent ≡ batch.old.parent }
{
    for number in values.0..values.1 {
        batch.append(O::valued(alloc, number)?)?;
    }
    Ok(())
}

impl<F: Family, O: Kind> Batches<F, O> {
    /// None.
    pub(crate) fn new(alloc: Global) -> Self {
        Batches {
            pool: Pool::new(alloc),
            ids: Vec::new(alloc),
        }
    }

    /// How many were sealed.
    pub(crate) fn count(&self) -> usize {
        self.ids.len()
    }

    fn id(&self, number: usize) -> Result<BatchId, TableError> {
        match self.ids.get(number) {
            Some(id) => Ok(*id),
            None => Err(TableError::Database),
        }
    }

    /// The batch of a number.
    pub(crate) fn batch(&self, number: usize) -> Result<&Batch<F, O>, TableError> {
        let id = self.id(number)?;
        match self.pool.get(id) {
            Ok(batch) => Ok(batch),
            Err(_) => Err(TableError::Database),
        }
    }

    /// What becomes of a batch on a database, when it is sealed.
    fn first<C: Store<Item = O>>(
        &mut self,
        alloc: Global,
        db: &Db<F, O, C>,
        values: Values,
    ) -> Result<Result<BatchId, Error<F>>, TableError>
    where
        O::Value: Drop,
    {
        if self.pool.drawn() == u64::MAX {
            return Err(TableError::Memory);
        }
        let mut batch = db.new_batch()?;
        fill(alloc, &mut batch, values)?;
        Ok(batch.merkleize(&mut self.pool, db, None, Location::new(values.2)))
    }

    /// What becomes of a batch on a sealed one, when it is sealed over a database.
    fn child<C: Store<Item = O>>(
        &mut self,
        alloc: Global,
        db: &Db<F, O, C>,
        parent: BatchId,
        values: Values,
    ) -> Result<Result<BatchId, Error<F>>, TableError>
    where
        O::Value: Drop,
    {
        if !self.pool.is_alive(parent) || self.pool.holds(parent) == u64::MAX {
            return Err(TableError::Database);
        }
        let mut batch = MerkleizedBatch::new_batch(&mut self.pool, parent)?;
        fill(alloc, &mut batch, values)?;
        if self.pool.drawn() == u64::MAX || !self.pool.is_alive(parent) {
            return Err(TableError::Memory);
        }
        Ok(batch.merkleize(&mut self.pool, db, None, Location::new(values.2)))
    }

    /// Seals a batch over a database, on a sealed one if there is one, or tells why it isn't sealed.
    pub(crate) fn seal<C: Store<Item = O>>(
        &mut self,
        alloc: Global,
        db: &Db<F, O, C>,
        parent: Option<usize>,
        values: Values,
    ) -> Result<Result<(), Error<F>>, TableError>
    where
        O::Value: Drop,
    {
        let sealed = match parent {
            Some(number) => {
                let id = self.id(number)?;
                self.child(alloc, db, id, values)?
            }
            None => self.first(alloc, db, values)?,
        };
        match sealed {
            Ok(id) => {
                self.ids.push(id)?;
                Ok(Ok(()))
            }
            Err(error) => Ok(Err(error)),
        }
    }

    /// What becomes of a database when a batch is applied.
    pub(crate) fn apply<C: Store<Item = O>>(
        &self,
        vol: &mut MemoryVolume,
        db: Db<F, O, C>,
        number: usize,
    ) -> Result<Result<Db<F, O, C>, Error<F>>, TableError> {
        let id = self.id(number)?;
        if !self.pool.is_alive(id) {
            return Err(TableError::Database);
        }
        Ok(db.apply_batch(vol, &self.pool, id))
    }
}
