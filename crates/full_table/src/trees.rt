//! Trees of bytes: in a volume, and in memory alone.
use crate::error::TableError;
use merkle_full::{Config, Merkle};
use std::alloc::Global;
use std::num::NonZeroU64;
use tree_core::{Bagging, Digest, Family, Mem, Sha256Digest, Sha256Hasher, Standard};

pub(crate) type Tree<F> = Merkle<F, Sha256Digest>;

/// It folds forward.
pub(crate) fn hasher() -> Standard<Sha256Hasher> {
    Standard::new(Bagging::ForwardFold)
}

/// Three nodes a blob.
pub(crate) fn config(alloc: Global) -> Result<Config, TableError> {
    Ok(Config {
        nodes: String::from_str(alloc, "nodes")?,
        items_per_blob: NonZeroU64::new(3).ok_or(TableError::Tree)?,
        metadata: String::from_str(alloc, "pins")?,
    })
}

/// The tree with more leaves, up to a number; leaf i is the one byte i.
pub(crate) fn grown<F: Family>(tree: Tree<F>, leaves: u8) -> Result<Tree<F>, TableError> {
    let mut batch = tree.new_batch()?;
    for leaf in tree.leaves().as_u64().min(255) as u8..leaves {
        batch.add(&hasher(), &[leaf])?;
    }
    let sealed = batch.merkleize(&hasher(), 0)?;
    Ok(tree.apply_batch(&sealed)?)
}

/// The tree of so many such leaves in memory.
pub(crate) fn memory<F: Family>(
    alloc: Global,
    leaves: u8,
) -> Result<Mem<F, Sha256Digest>, TableError> {
    let mut mem = Mem::new(alloc)?;
    let mut batch = mem.new_batch()?;
    for leaf in 0..leaves {
        batch.add(&hasher(), &[leaf])?;
    }
    let sealed = batch.merkleize(&hasher(), 0)?;
    mem.apply_batch(&sealed)?;
    Ok(mem)
}

/// The roots of the trees of up to so many leaves.
pub(crate) fn roots<F: Family>(alloc: Global, most: u8) -> Result<Vec<Sha256Digest>, TableError> {
    let mut roots = Vec::new(alloc);
    for leaves in 0..most {
        let mem = memory::<F>(alloc, leaves)?;
        roots.push(mem.root(&hasher(), 0)?)?;
    }
    Ok(roots)
}

/// Prints the oldest kept leaf, the leaves, the nodes and the root.
pub(crate) fn print_tree<F: Family>(
    rt: &impl Print,
    alloc: Global,
    tree: &Tree<F>,
) -> Result<(), TableError> {
    let (start, end) = tree.bounds();
    let root = hex::encode(alloc, tree.root(&hasher(), 0)?.as_slice())?;
    println!(rt;
        "{} {} {} {root}",
        start.as_u64(),
        end.as_u64(),
        tree.size().as_u64()
    )?;
    Ok(())
}
