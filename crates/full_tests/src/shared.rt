//! A tree of eleven leaves in a volume in memory.
use memory_volume::MemoryVolume;
use merkle_full::{Config, Merkle};
use std::alloc::Global;
use std::num::NonZeroU64;
use std::test::Fail;
use tree_core::{Bagging, Family, Hasher, Standard};

/// The tree over a hasher's digests.
pub(crate) type Tree<F, H> = Merkle<F, <H as Hasher>::Digest>;

/// It folds forward.
pub(crate) fn hasher<H: Hasher>() -> Standard<H> {
    Standard::new(Bagging::ForwardFold)
}

/// Three nodes a blob.
pub(crate) fn config(alloc: Global) -> Result<Config, Fail> {
    Ok(Config {
        nodes: String::from_str(alloc, "nodes")?,
        items_per_blob: NonZeroU64::new(3).ok_or("a blob of nothing")?,
        metadata: String::from_str(alloc, "pins")?,
    })
}

/// The tree of eleven leaves, of which leaf i is the one byte i, on this empty volume. Nothing is written yet.
pub(crate) fn full<F: Family, H: Hasher>(
    alloc: Global,
    vol: &mut MemoryVolume,
) -> Result<Tree<F, H>, Fail> {
    let tree: Tree<F, H> = Merkle::init(alloc, vol, &hasher::<H>(), config(alloc)?)?;
    let mut batch = tree.new_batch()?;
    for leaf in 0..11u8 {
        batch.add(&hasher::<H>(), &[leaf])?;
    }
    let sealed = batch.merkleize(&hasher::<H>(), 0)?;
    let tree = tree.apply_batch(&sealed)?;
    Ok(tree)
}
