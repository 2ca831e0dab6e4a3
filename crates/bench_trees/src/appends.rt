use std::alloc::Global;
use tree_core::{Bagging, Error, Mem, Mmr, Sha256Digest, Sha256Hasher, Standard};

/// Appends ten leaves, and gives the root behind them.
fn append_ten(
    tree: &mut Mem<Mmr, Sha256Digest>,
    hasher: &Standard<Sha256Hasher>,
) -> Result<Sha256Digest, Error<Mmr>> {
    let mut batch = tree.new_batch()?;
    for _ in 0..10 {
        batch.add(hasher, &[7u8; 32])?;
    }
    tree.apply_batch(&batch.merkleize(hasher, 0)?)?;
    tree.root(hasher, 0)
}

/// The root behind so many batches of ten leaves.
pub(crate) fn append_all(alloc: Global, batches: u64) -> Result<Sha256Digest, Error<Mmr>> {
    let hasher = Standard::new(Bagging::ForwardFold);
    let mut tree = Mem::new(alloc)?;
    let mut root = tree.root(&hasher, 0)?;
    for _ in 0..batches {
        root = append_ten(&mut tree, &hasher)?;
    }
    Ok(root)
}
