//! Trees whose elements are numbers, in 8 bytes, the high one first.
use crate::error::TableError;
use codec_base::Bytes;
use std::alloc::Global;
use tree_core::{Bagging, Family, Mem, Sha256Digest, Sha256Hasher, Standard};

/// What stands in the place of a damaged element.
const OTHER: u64 = 1000;

/// Appends a number to a tree.
pub(crate) fn append<F: Family>(
    tree: &mut Mem<F, Sha256Digest>,
    element: u64,
) -> Result<(), TableError> {
    let hasher = Standard::<Sha256Hasher>::new(Bagging::ForwardFold);
    let mut batch = tree.new_batch()?;
    batch.add(&hasher, &element.to_be_bytes())?;
    tree.apply_batch(&batch.merkleize(&hasher, 0)?)?;
    Ok(())
}

/// The tree of the numbers below this one.
pub(crate) fn tree_of<F: Family>(
    alloc: Global,
    leaves: u64,
) -> Result<Mem<F, Sha256Digest>, TableError> {
    let mut tree = Mem::new(alloc)?;
    for element in 0..leaves {
        append(&mut tree, element)?;
    }
    Ok(tree)
}

/// The elements from one number on, up to another, with another element in the place of `damaged`.
pub(crate) fn elements_of(
    alloc: Global,
    start: u64,
    end: u64,
    damaged: u64,
) -> Result<Vec<Bytes>, TableError> {
    let mut elements = Vec::new(alloc);
    for number in start..end {
        let element = if number == damaged { OTHER } else { number };
        elements.push(Bytes::from_slice(alloc, &element.to_be_bytes())?)?;
    }
    Ok(elements)
}
