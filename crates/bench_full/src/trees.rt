//! Trees that grow by ten leaves at a time: in a volume, and in memory alone.
use crate::BenchError;
use memory_volume::MemoryVolume;
use merkle_full::{Config, Merkle};
use std::alloc::Global;
use std::num::NonZeroU64;
use tree_core::{Bagging, Mem, Mmr, Sha256Digest, Sha256Hasher, Standard};

type Tree = Merkle<Mmr, Sha256Digest>;

/// Each leaf.
const LEAF: [u8; 32] = [7; 32];

fn hasher() -> Standard<Sha256Hasher> {
    Standard::new(Bagging::ForwardFold)
}

/// The tree with ten more leaves, flushed.
fn flushed(vol: &mut MemoryVolume, tree: Tree) -> Result<Tree, BenchError> {
    let mut batch = tree.new_batch()?;
    for _ in 0..10 {
        batch.add(&hasher(), &LEAF)?;
    }
    let sealed = batch.merkleize(&hasher(), 0)?;
    let tree = tree.apply_batch(&sealed)?;
    Ok(tree.flush(vol)?)
}

/// Appends so many batches to a tree in a volume.
pub(crate) fn append_flushed(alloc: Global, batches: u64) -> Result<u64, BenchError> {
    let mut vol = MemoryVolume::new(alloc);
    let config = Config {
        nodes: String::from_str(alloc, "nodes")?,
        items_per_blob: NonZeroU64::new(4096).ok_or(BenchError::Tree)?,
        metadata: String::from_str(alloc, "pins")?,
    };
    let mut tree: Tree = Merkle::init(alloc, &mut vol, &hasher(), config)?;
    for _ in 0..batches {
        tree = flushed(&mut vol, tree)?;
    }
    Ok(tree.leaves().as_u64())
}

/// Appends ten leaves.
fn append_ten(mem: &mut Mem<Mmr, Sha256Digest>) -> Result<(), BenchError> {
    let mut batch = mem.new_batch()?;
    for _ in 0..10 {
        batch.add(&hasher(), &LEAF)?;
    }
    let sealed = batch.merkleize(&hasher(), 0)?;
    mem.apply_batch(&sealed)?;
    Ok(())
}

/// Appends so many batches to a tree in memory alone.
pub(crate) fn append_alone(alloc: Global, batches: u64) -> Result<u64, BenchError> {
    let mut mem = Mem::new(alloc)?;
    for _ in 0..batches {
        append_ten(&mut mem)?;
    }
    Ok(mem.leaves().as_u64())
}
