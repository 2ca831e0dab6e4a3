//! How values, refusals, operations, proofs and states are printed, each behind its call.
use crate::error::TableError;
use crate::stores::{Db, Kind, Store};
use chain_core::Error;
use codec_base::encode;
use std::alloc::Global;
use tree_core::{Digest, Family, Proof, Sha256Digest};
use volume_base::JournalError;

/// Why a call was refused, or the error with which it ended otherwise.
pub(crate) fn print_refusal<F: Family>(rt: &impl Print, error: Error<F>) -> Result<(), TableError> {
    match error {
        Error::LocationOutOfBounds(place, size) => {
            println!(rt; " {} is out of bounds {}", place.as_u64(), size.as_u64())?;
        }
        Error::LocationOutOfOrder(one, next) => {
            println!(rt;
                " {} is out of order before {}",
                one.as_u64(),
                next.as_u64()
            )?;
        }
        Error::PruneBeyondMinRequired(place, floor) => {
            println!(rt; " {} is above the floor {}", place.as_u64(), floor.as_u64())?;
        }
        Error::FloorRegressed(floor, below) => {
            println!(rt; " floor {} is below {}", floor.as_u64(), below.as_u64())?;
        }
        Error::FloorBeyondSize(floor, place) => {
            println!(rt; " floor {} is past {}", floor.as_u64(), place.as_u64())?;
        }
        Error::BelowInactivityFloor(place) => println!(rt;
            " {} is below the floor",
            place.as_u64()
        )?,
        Error::HistoricalFloorPruned(size) => println!(rt; " no commit ends at {}", size.as_u64())?,
        Error::Journal(JournalError::ItemPruned(item)) => println!(rt; " {item} is pruned")?,
        Error::Merkle(tree_core::Error::RangeOutOfBounds(place)) => println!(rt;
            " {} is out of range",
            place.as_u64()
        )?,
        Error::StaleBatch => println!(rt; " stale batch")?,
        Error::StaleRead => println!(rt; " stale read")?,
        Error::InvalidInitializationBound => println!(rt; " invalid bound")?,
        other => return Err(other.into()),
    }
    Ok(())
}

/// Digests, from the left, and the end of the line.
pub(crate) fn print_digests(
    rt: &impl Print,
    alloc: Global,
    digests: &[Sha256Digest],
) -> Result<(), TableError> {
    for digest in digests {
        print!(rt; " {}", hex::encode(alloc, digest.as_slice())?)?;
    }
    println!(rt; "")?;
    Ok(())
}

/// A value, or where there is none a dash.
pub(crate) fn print_value<O: Kind>(
    rt: &impl Print,
    alloc: Global,
    value: &Option<O::Value>,
) -> Result<(), TableError> {
    match value {
        Some(value) => print!(rt; " {}", O::shown(alloc, value)?)?,
        None => print!(rt; " -")?,
    }
    Ok(())
}

/// The encoding of an operation.
pub(crate) fn print_operation<O: Kind>(
    rt: &impl Print,
    alloc: Global,
    operation: &O,
) -> Result<(), TableError> {
    let bytes = encode(alloc, operation)?;
    print!(rt; " {}", hex::encode(alloc, bytes.as_slice())?)?;
    Ok(())
}

/// The encodings of operations, and the end of the line.
pub(crate) fn print_operations<O: Kind>(
    rt: &impl Print,
    alloc: Global,
    operations: &[O],
) -> Result<(), TableError> {
    for operation in operations {
        print_operation(rt, alloc, operation)?;
    }
    println!(rt; "")?;
    Ok(())
}

/// The leaves, the inactive peaks and the digests of a proof.
pub(crate) fn print_proof<F: Family>(
    rt: &impl Print,
    alloc: Global,
    proof: &Proof<F, Sha256Digest>,
) -> Result<(), TableError> {
    print!(rt;
        " in {} leaves, {} inactive:",
        proof.leaves.as_u64(),
        proof.inactive_peaks
    )?;
    print_digests(rt, alloc, proof.digests.as_slice())
}

/// The start, the size, the floor and the root of a database.
pub(crate) fn print_state<F: Family, O: Kind, C: Store<Item = O>>(
    rt: &impl Print,
    alloc: Global,
    db: &Db<F, O, C>,
) -> Result<(), TableError> {
    let root = hex::encode(alloc, db.root().as_slice())?;
    let (start, size) = db.bounds();
    let floor = db.inactivity_floor_loc();
    let (start, size, floor) = (start.as_u64(), size.as_u64(), floor.as_u64());
    println!(rt; " start {start} size {size} floor {floor} root {root}")?;
    Ok(())
}
