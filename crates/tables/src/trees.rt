//! The tables of trees: the first thousand shapes of a family, and digests over the nodes and roots of its small trees.
use crate::digests::{nodes_digest, roots_digest};
use crate::elements::tree_of;
use crate::error::TableError;
use crate::shapes::print_line;
use memory_volume::MemoryVolume;
use std::alloc::Global;
use tree_core::{Digest, Family};

const LINES: u64 = 1000;

const LEAVES: u64 = 70;

/// Prints the line of each number of leaves.
pub(crate) fn print_lines<F: Family>(rt: &impl Print, name: &str) -> Result<(), TableError> {
    for n in 0..LINES {
        print_line::<F>(rt, name, n)?;
    }
    Ok(())
}

/// Prints a digest over the nodes of one tree, and one over the roots of those up to it.
pub(crate) fn print_digests<F: Family>(
    rt: &impl Print,
    alloc: Global,
    name: &str,
) -> Result<(), TableError> {
    let tree = tree_of::<F>(alloc, LEAVES)?;
    let mut vol = MemoryVolume::new(alloc);
    let nodes = nodes_digest::<F, _, _>(&tree, &mut vol)?;
    let roots = roots_digest::<F>(alloc, LEAVES)?;
    println!(rt;
        "{name} nodes {}",
        hex::encode(alloc, nodes.as_slice())?.as_str()
    )?;
    println!(rt;
        "{name} roots {}",
        hex::encode(alloc, roots.as_slice())?.as_str()
    )?;
    Ok(())
}
