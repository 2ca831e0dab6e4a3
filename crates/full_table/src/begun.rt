//! A tree that begins in a sync: on a fresh volume, and in the place of a tree of fourteen leaves; with pins, without, and with a pin
//! less.
use crate::error::TableError;
use crate::trees::{Tree, config, grown, hasher, memory, print_tree};
use memory_volume::MemoryVolume;
use merkle_full::{Merkle, SyncConfig};
use std::alloc::Global;
use tree_core::{Error, Family, Location, Sha256Digest};
use volume_base::Volume;

/// The most leaves at which a tree begins.
const MOST_START: u8 = 16;

/// The leaves of the tree that stands before.
const STORED: u8 = 14;

/// How many leaves past the start are kept at most.
const KEPT: u64 = 4;

/// A volume with a tree of so many leaves.
fn stored<F: Family>(alloc: Global, leaves: u8) -> Result<MemoryVolume, TableError> {
    let mut vol = MemoryVolume::new(alloc);
    let tree: Tree<F> = Merkle::init(alloc, &mut vol, &hasher(), config(alloc)?)?;
    let _tree = grown(tree, leaves)?.sync(&mut vol)?;
    Ok(vol)
}

/// The peaks of so many leaves, the oldest first.
fn pins<F: Family>(alloc: Global, leaves: u8) -> Result<Vec<Sha256Digest>, TableError> {
    let mem = memory::<F>(alloc, leaves)?;
    let mut pins = Vec::new(alloc);
    for position in F::nodes_to_pin(Location::new(u64::from(leaves))) {
        pins.push(mem.get_node(position).ok_or(TableError::Tree)?)?;
    }
    Ok(pins)
}

/// Prints the tree that begins in this volume, or why none does.
fn print_begun<F: Family>(
    rt: &impl Print,
    alloc: Global,
    vol: &mut MemoryVolume,
    start: u8,
    pinned_nodes: Option<Vec<Sha256Digest>>,
) -> Result<(), TableError> {
    let first = u64::from(start);
    let cfg = SyncConfig {
        config: config(alloc)?,
        start: Location::new(first),
        end: Location::new(first + KEPT),
        pinned_nodes,
    };
    let begun: Result<Tree<F>, Error<F>> = Merkle::init_sync(alloc, vol, cfg);
    match begun {
        Ok(tree) => {
            let (low, high) = vol.log_bounds("nodes")?;
            print!(rt; "nodes {low} to {high}: ")?;
            print_tree(rt, alloc, &tree)
        }
        Err(Error::InvalidPinnedNodes) => {
            println!(rt; "invalid pinned nodes")?;
            Ok(())
        }
        Err(Error::MissingNode(position)) => {
            println!(rt; "missing node {}", position.as_u64())?;
            Ok(())
        }
        Err(error) => Err(error.into()),
    }
}

/// Prints what begins at so many leaves in the place of a tree of so many.
fn print_over<F: Family>(
    rt: &impl Print,
    alloc: Global,
    leaves: u8,
    start: u8,
) -> Result<(), TableError> {
    let given = pins::<F>(alloc, start)?;
    let mut fewer = pins::<F>(alloc, start)?;
    if fewer.pop().is_some() {
        print!(rt; "  over {leaves} leaves, a pin less: ")?;
        print_begun::<F>(
            rt,
            alloc,
            &mut stored::<F>(alloc, leaves)?,
            start,
            Some(fewer),
        )?;
    }
    print!(rt; "  over {leaves} leaves, with pins: ")?;
    print_begun::<F>(
        rt,
        alloc,
        &mut stored::<F>(alloc, leaves)?,
        start,
        Some(given),
    )?;
    print!(rt; "  over {leaves} leaves, without: ")?;
    print_begun::<F>(rt, alloc, &mut stored::<F>(alloc, leaves)?, start, None)
}

/// Prints what begins at each number of leaves.
pub(crate) fn print_syncs<F: Family>(
    rt: &impl Print,
    alloc: Global,
    name: &str,
) -> Result<(), TableError> {
    for start in 0..MOST_START + 1 {
        println!(rt; "{name} begun at {start}")?;
        print_over::<F>(rt, alloc, 0, start)?;
        print_over::<F>(rt, alloc, STORED, start)?;
    }
    Ok(())
}
