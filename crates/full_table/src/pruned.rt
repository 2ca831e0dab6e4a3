//! A tree of twenty leaves that is pruned at each number of leaves: what stays, its openings under caps, and its proofs.
use crate::error::TableError;
use crate::trees::{Tree, config, grown, hasher, memory, print_tree};
use memory_volume::MemoryVolume;
use merkle_full::Merkle;
use std::alloc::Global;
use tree_core::{Error, Family, Location, Mem, Sha256Digest};
use volume_base::{JournalError, Volume};

/// The number of leaves of the tree.
const LEAVES: u8 = 20;

/// The tree, pruned at a number of leaves. It is written in three parts.
fn pruned<F: Family>(
    alloc: Global,
    vol: &mut MemoryVolume,
    boundary: u8,
) -> Result<Tree<F>, TableError> {
    let tree: Tree<F> = Merkle::init(alloc, vol, &hasher(), config(alloc)?)?;
    let tree = grown(tree, 7)?.flush(vol)?;
    let tree = grown(tree, 14)?.sync(vol)?;
    let tree = grown(tree, LEAVES)?;
    Ok(tree.prune(vol, Location::new(u64::from(boundary)))?)
}

/// Prints what is opened of a copy of the volume under a cap, or why nothing is.
fn print_opened<F: Family>(
    rt: &impl Print,
    alloc: Global,
    vol: &MemoryVolume,
    cap: u8,
) -> Result<(), TableError> {
    let mut copy = vol.crash(&[])?;
    let most = Location::new(u64::from(cap));
    let opened: Result<Tree<F>, Error<F>> = Merkle::init_at_most(
        alloc,
        &mut copy,
        &hasher(),
        config(alloc)?,
        most,
    );
    print!(rt; "  cap {cap}: ")?;
    match opened {
        Ok(tree) => print_tree(rt, alloc, &tree),
        Err(Error::ElementPruned(position)) => {
            println!(rt; "element pruned {}", position.as_u64())?;
            Ok(())
        }
        Err(Error::Journal(JournalError::ItemPruned(position))) => {
            println!(rt; "item pruned {position}")?;
            Ok(())
        }
        Err(error) => Err(error.into()),
    }
}

/// How many ranges of leaves from one on up to an end have the proof that memory has, at the leaves of memory; and how many there
/// are.
fn count_to<F: Family>(
    vol: &mut MemoryVolume,
    tree: &Tree<F>,
    mem: &Mem<F, Sha256Digest>,
    first: u8,
    end: u8,
) -> Result<(u64, u64), TableError> {
    let (mut same, mut all) = (0u64, 0u64);
    for start in first..end {
        let (from, to) = (
            Location::new(u64::from(start)),
            Location::new(u64::from(end)),
        );
        let kept = tree.historical_range_proof(vol, mem.leaves(), from, to, 0)?;
        let (from, to) = (
            Location::new(u64::from(start)),
            Location::new(u64::from(end)),
        );
        let made = mem.range_proof(from, to, 0)?;
        if kept == made {
            same = same.saturating_add(1);
        }
        all = all.saturating_add(1);
    }
    Ok((same, all))
}

/// The same of all ranges from a leaf on, in the tree of so many first leaves.
fn count_in<F: Family>(
    alloc: Global,
    vol: &mut MemoryVolume,
    tree: &Tree<F>,
    first: u8,
    leaves: u8,
) -> Result<(u64, u64), TableError> {
    let (mut same, mut all) = (0u64, 0u64);
    let mem = memory::<F>(alloc, leaves)?;
    for end in first..leaves.saturating_add(1) {
        let (some, more) = count_to(vol, tree, &mem, first, end)?;
        same = same.saturating_add(some);
        all = all.saturating_add(more);
    }
    Ok((same, all))
}

/// As many of the ranges from a leaf on, in the tree of each number of first leaves.
fn count_proofs<F: Family>(
    alloc: Global,
    vol: &mut MemoryVolume,
    tree: &Tree<F>,
    first: u8,
) -> Result<(u64, u64), TableError> {
    let (mut same, mut all) = (0u64, 0u64);
    for leaves in first..LEAVES + 1 {
        let (some, more) = count_in(alloc, vol, tree, first, leaves)?;
        same = same.saturating_add(some);
        all = all.saturating_add(more);
    }
    Ok((same, all))
}

/// Prints the tree that is pruned at a number of leaves.
fn print_boundary<F: Family>(
    rt: &impl Print,
    alloc: Global,
    name: &str,
    boundary: u8,
) -> Result<(), TableError> {
    let mut vol = MemoryVolume::new(alloc);
    let tree = pruned::<F>(alloc, &mut vol, boundary)?;
    let (start, end) = vol.log_bounds("nodes")?;
    print!(rt; "{name} pruned at {boundary}, nodes {start} to {end}: ")?;
    print_tree(rt, alloc, &tree)?;
    let (same, all) = count_proofs(alloc, &mut vol, &tree, boundary)?;
    println!(rt; "  {same} of {all} proofs are those of memory")?;
    for cap in 0..LEAVES + 2 {
        print_opened::<F>(rt, alloc, &vol, cap)?;
    }
    Ok(())
}

/// Prints the tree for each number of leaves at which it is pruned.
pub(crate) fn print_pruned<F: Family>(
    rt: &impl Print,
    alloc: Global,
    name: &str,
) -> Result<(), TableError> {
    for boundary in 0..LEAVES + 1 {
        print_boundary::<F>(rt, alloc, name, boundary)?;
    }
    Ok(())
}
