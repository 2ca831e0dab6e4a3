//! What is served of a history, and what is made of it elsewhere.
use crate::error::TableError;
use crate::history::{applied, config, opened};
use crate::kinds::Kind;
use crate::texts::{Db, print_digests, print_operation, print_proof, print_state};
use chain_core::{DataFault, Error};
use codec_base::ListOf;
use memory_volume::MemoryVolume;
use op_codec::{Request, Response};
use std::alloc::Global;
use std::num::NonZeroU64;
use tree_core::{Family, Location, Sha256Digest};

/// A commit that was served, with the nodes before it.
#[derive(Drop)]
struct ServedCommit<O> {
    commit: O,
    pins: Vec<Sha256Digest>,
}

/// The request for the commit that ends a state, with the nodes before it.
fn boundary<F: Family>(size: u64) -> Result<Request<F>, TableError> {
    Ok(Request::Boundary {
        size: Location::new(size),
        start: Location::new(size.saturating_sub(1)),
        max_ops: NonZeroU64::new(1).ok_or(TableError::Database)?,
    })
}

fn copied(alloc: Global, digests: &ListOf<Sha256Digest>) -> Result<Vec<Sha256Digest>, TableError> {
    let mut out = Vec::new(alloc);
    for digest in digests.as_slice() {
        out.push(*digest)?;
    }
    Ok(out)
}

/// The commit and the nodes of an answer, which are printed.
fn taken<F: Family, O: Kind<F>>(
    rt: &impl Print,
    alloc: Global,
    size: u64,
    response: Response<F, O, Sha256Digest>,
) -> Result<ServedCommit<O>, TableError>
where
    O::Value: Drop,
{
    match response {
        Response::Boundary {
            proof,
            op,
            pinned_nodes,
        } => {
            print!(rt; "  served at {size}:")?;
            print_operation(rt, alloc, &op)?;
            println!(rt; "")?;
            print_proof(rt, alloc, &proof)?;
            let pins = copied(alloc, &pinned_nodes)?;
            print!(rt; "    pins:")?;
            print_digests(rt, alloc, pins.as_slice())?;
            Ok(ServedCommit { commit: op, pins })
        }
        Response::Operations { proof, operations } => {
            drop(proof);
            drop(operations);
            Err(TableError::Database)
        }
    }
}

/// What is answered to a request, if it isn't refused.
pub(crate) fn answered<F: Family, O: Kind<F>>(
    vol: &mut MemoryVolume,
    db: &Db<F, O>,
    request: Request<F>,
) -> Option<Response<F, O, Sha256Digest>>
where
    O::Value: Drop,
{
    db.serve(vol, request).ok()
}

/// What is served of a state: the commit and the nodes, which are printed; or nothing.
fn served<F: Family, O: Kind<F>>(
    rt: &impl Print,
    alloc: Global,
    vol: &mut MemoryVolume,
    db: &Db<F, O>,
    size: u64,
) -> Result<Option<ServedCommit<O>>, TableError>
where
    O::Value: Drop,
{
    let request = boundary(size)?;
    match answered(vol, db, request) {
        Some(response) => Ok(Some(taken(rt, alloc, size, response)?)),
        None => {
            println!(rt; "  nothing served at {size}")?;
            Ok(None)
        }
    }
}

/// What is opened of a database when it is written.
fn reopened<F: Family, O: Kind<F>>(
    alloc: Global,
    vol: &mut MemoryVolume,
    db: Db<F, O>,
) -> Result<Db<F, O>, TableError>
where
    O::Value: Drop,
{
    db.commit(vol)?;
    opened(alloc, vol)
}

/// Prints what is opened of an imported database when it is written, and builds on it; then what it serves of the
/// imported state, whose witness stands in the log.
fn print_written<F: Family, O: Kind<F>>(
    rt: &impl Print,
    alloc: Global,
    vol: &mut MemoryVolume,
    db: Db<F, O>,
    size: u64,
) -> Result<(), TableError>
where
    O::Value: Drop,
{
    let db = reopened(alloc, vol, db)?;
    print!(rt; "  opened: ")?;
    print_state(rt, alloc, &db)?;
    let db = applied(rt, alloc, vol, db, (9, 11, 3))?;
    served(rt, alloc, vol, &db, size)?;
    Ok(())
}

/// The database of a served commit and nodes.
fn imported<F: Family, O: Kind<F>>(
    alloc: Global,
    vol: &mut MemoryVolume,
    size: u64,
    served: ServedCommit<O>,
) -> Result<Db<F, O>, TableError>
where
    O::Value: Drop,
{
    let before = Location::new(size.saturating_sub(1));
    let cfg = config::<F, O>(alloc)?;
    Ok(Db::import(alloc, vol, cfg, before, served.pins, served.commit)?)
}

/// Prints that a prune is refused while an import waits.
fn print_refused<F: Family, O: Kind<F>>(
    rt: &impl Print,
    vol: &mut MemoryVolume,
    db: Db<F, O>,
) -> Result<(), TableError>
where
    O::Value: Drop,
{
    match db.prune(vol, Location::new(1)).err() {
        Some(Error::DataCorrupted(DataFault::ImportNotApplied)) => {
            println!(rt; "  a prune is refused: import not applied")?;
            Ok(())
        }
        _ => Err(TableError::Database),
    }
}

/// Prints the state that is imported of what is served, written, opened and built on.
fn print_import<F: Family, O: Kind<F>>(
    rt: &impl Print,
    alloc: Global,
    size: u64,
    served: ServedCommit<O>,
    again: ServedCommit<O>,
) -> Result<(), TableError>
where
    O::Value: Drop,
{
    let mut vol = MemoryVolume::new(alloc);
    let db: Db<F, O> = imported(alloc, &mut vol, size, served)?;
    print_refused(rt, &mut vol, db)?;
    let db: Db<F, O> = imported(alloc, &mut vol, size, again)?;
    print!(rt; "  imported: ")?;
    print_state(rt, alloc, &db)?;
    print_written(rt, alloc, &mut vol, db, size)
}

/// Prints what is served at a size, and what is imported of it.
fn print_size<F: Family, O: Kind<F>>(
    rt: &impl Print,
    alloc: Global,
    vol: &mut MemoryVolume,
    db: &Db<F, O>,
    size: u64,
) -> Result<(), TableError>
where
    O::Value: Drop,
{
    let first = served(rt, alloc, vol, db, size)?;
    let second = served(rt, alloc, vol, db, size)?;
    match (first, second) {
        (Some(first), Some(second)) => print_import::<F, O>(rt, alloc, size, first, second),
        _ => Ok(()),
    }
}

/// Prints what is served at each size, and the state that is imported of it.
pub(crate) fn print_imported<F: Family, O: Kind<F>>(
    rt: &impl Print,
    alloc: Global,
    vol: &mut MemoryVolume,
) -> Result<(), TableError>
where
    O::Value: Drop,
{
    let db: Db<F, O> = opened(alloc, vol)?;
    for size in 0..16 {
        print_size(rt, alloc, vol, &db, size)?;
    }
    Ok(())
}
