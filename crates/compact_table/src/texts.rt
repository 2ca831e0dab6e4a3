//! How operations, digests, proofs and states are printed.
use crate::error::TableError;
use codec_base::{EncodeSize, encode};
use compact_db::{CompactDb, CompactOperation};
use std::alloc::Global;
use tree_core::{Digest, Family, Proof, Sha256Digest, Sha256Hasher};

pub(crate) type Db<F, O> = CompactDb<F, O, Sha256Hasher>;

/// The encoding of an operation.
pub(crate) fn print_operation<O: CompactOperation>(
    rt: &impl Print,
    alloc: Global,
    operation: &O,
) -> Result<(), TableError> {
    let bytes = encode(alloc, operation)?;
    print!(rt; " {}", hex::encode(alloc, bytes.as_slice())?)?;
    Ok(())
}

/// The encodings of operations, and the end of the line.
pub(crate) fn print_operations<O: CompactOperation>(
    rt: &impl Print,
    alloc: Global,
    operations: &[O],
) -> Result<(), TableError> {
    for operation in operations {
        print_operation(rt, alloc, operation)?;
    }
    println!(rt; "")?;
    Ok(())
}

/// Digests, from the left, and the end of the line.
pub(crate) fn print_digests(
    rt: &impl Print,
    alloc: Global,
    digests: &[Sha256Digest],
) -> Result<(), TableError> {
    for digest in digests {
        print!(rt; " {}", hex::encode(alloc, digest.as_slice())?)?;
    }
    println!(rt; "")?;
    Ok(())
}

/// A proof with its leaves and inactive peaks.
pub(crate) fn print_proof<F: Family>(
    rt: &impl Print,
    alloc: Global,
    proof: &Proof<F, Sha256Digest>,
) -> Result<(), TableError> {
    print!(rt;
        "    proof of {} leaves, {} inactive:",
        proof.leaves.as_u64(),
        proof.inactive_peaks
    )?;
    print_digests(rt, alloc, proof.digests.as_slice())
}

/// The size, the floor and the root of a database.
pub(crate) fn print_state<F: Family, O: CompactOperation>(
    rt: &impl Print,
    alloc: Global,
    db: &Db<F, O>,
) -> Result<(), TableError> {
    let root = hex::encode(alloc, db.root().as_slice())?;
    println!(rt;
        "size {} floor {} root {root}",
        db.size().as_u64(),
        db.inactivity_floor_loc().as_u64()
    )?;
    Ok(())
}
