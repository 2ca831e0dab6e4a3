//! Calls that change a database.
use crate::batches::Batches;
use crate::error::TableError;
use crate::steps::{Change, Values};
use crate::stores::{Db, Kind, Store, opening};
use chain_core::Error;
use memory_volume::MemoryVolume;
use std::alloc::Global;
use tree_core::{Family, Location};

/// What becomes of a database, once it is told how its syncs have ended.
fn started<F: Family, O: Kind, C: Store<Item = O>>(
    vol: &mut MemoryVolume,
    db: Db<F, O, C>,
) -> Result<Db<F, O, C>, Error<F>> {
    let (db, ticket) = db.start_sync(vol)?;
    match ticket.settle() {
        Ok(()) => Ok(db),
        Err(_) => Err(Error::Volume),
    }
}

/// What becomes of a database by a call.
pub(crate) fn changed<F: Family, O: Kind, C: Store<Item = O>>(
    alloc: Global,
    vol: &mut MemoryVolume,
    batches: &Batches<F, O>,
    db: Db<F, O, C>,
    change: Change,
) -> Result<Result<Db<F, O, C>, Error<F>>, TableError> {
    match change {
        Change::Apply(number) => batches.apply(vol, db, number),
        Change::Commit => Ok(db.commit(vol)),
        Change::Sync => Ok(db.sync(vol)),
        Change::StartSync => Ok(started(vol, db)),
        Change::Prune(place) => Ok(db.prune(vol, Location::new(place))),
        Change::Open(cap) => {
            drop(db);
            opening(alloc, vol, cap)
        }
        Change::Destroy => match db.destroy(vol) {
            Ok(()) => opening(alloc, vol, None),
            Err(error) => Ok(Err(error)),
        },
    }
}

/// The database with one more batch.
pub(crate) fn grown<F: Family, O: Kind, C: Store<Item = O>>(
    alloc: Global,
    vol: &mut MemoryVolume,
    batches: &mut Batches<F, O>,
    db: Db<F, O, C>,
    values: Values,
) -> Result<Db<F, O, C>, TableError>
where
    O::Value: Drop,
{
    let number = batches.count();
    batches.seal(alloc, &db, None, values)??;
    Ok(batches.apply(vol, db, number)??)
}
