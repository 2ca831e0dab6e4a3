//! Digests over the nodes and the roots of trees whose elements are numbers.
use crate::elements::append;
use crate::error::TableError;
use std::alloc::Global;
use tree_core::{
    Bagging, Digest, Family, Hasher, Mem, Position, Sha256Digest, Sha256Hasher, Standard, Storage,
};
use volume_base::Volume;

/// One digest over all nodes of a store.
pub(crate) fn nodes_digest<F: Family, S: Storage<F>, V: Volume>(
    store: &S,
    vol: &mut V,
) -> Result<Sha256Digest, TableError> {
    let mut all = Sha256Hasher::new();
    for position in 0..store.size().as_u64() {
        if let Some(node) = store.get_node(vol, Position::new(position))? {
            all.update(node.as_slice());
        }
    }
    Ok(all.finish())
}

/// Adds the root for each number of inactive peaks.
fn add_roots<F: Family>(
    all: &mut Sha256Hasher,
    tree: &Mem<F, Sha256Digest>,
    bagging: Bagging,
) -> Result<(), TableError> {
    let hasher = Standard::<Sha256Hasher>::new(bagging);
    for inactive in 0..=tree.peak_count() {
        all.update(tree.root(&hasher, inactive)?.as_slice());
    }
    Ok(())
}

/// One digest over the roots of the trees of the numbers below each up to this one, with each bagging and each number of
/// inactive peaks.
pub(crate) fn roots_digest<F: Family>(
    alloc: Global,
    leaves: u64,
) -> Result<Sha256Digest, TableError> {
    let mut all = Sha256Hasher::new();
    let mut tree = Mem::<F, Sha256Digest>::new(alloc)?;
    for element in 0..leaves {
        add_roots(&mut all, &tree, Bagging::ForwardFold)?;
        add_roots(&mut all, &tree, Bagging::BackwardFold)?;
        append(&mut tree, element)?;
    }
    add_roots(&mut all, &tree, Bagging::ForwardFold)?;
    add_roots(&mut all, &tree, Bagging::BackwardFold)?;
    Ok(all.finish())
}
