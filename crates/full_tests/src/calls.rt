//! Calls on a tree, each once where memory is ample.
use crate::shared::{Tree, config, full, hasher};
use memory_volume::MemoryVolume;
use merkle_full::Merkle;
use std::alloc::Global;
use std::test::Fail;
use tree_core::{Digest, Family, Hasher, Location, Mmb, Mmr, Position, Sha256Hasher};

/// The tree flushed, synced twice, and pruned at the fourth leaf and at the leaves, and whether its root stayed.
fn rooted<F: Family, H: Hasher>(alloc: Global, vol: &mut MemoryVolume) -> Result<bool, Fail> {
    let tree = full::<F, H>(alloc, vol)?;
    let root = tree.root(&hasher::<H>(), 0)?;
    let tree = tree.flush(vol)?.sync(vol)?;
    let (tree, _ticket) = tree.start_sync(vol)?;
    let tree = tree.prune(vol, Location::new(4))?.prune_all(vol)?;
    Ok(tree.root(&hasher::<H>(), 0)? == root)
}

/// How many leaves an opening finds behind that, and how many once all is removed.
fn reopened<F: Family, H: Hasher>(alloc: Global) -> Result<(bool, u64, u64), Fail> {
    let mut vol = MemoryVolume::new(alloc);
    let same = rooted::<F, H>(alloc, &mut vol)?;
    let tree: Tree<F, H> = Merkle::init(alloc, &mut vol, &hasher::<H>(), config(alloc)?)?;
    let leaves = tree.leaves().as_u64();
    tree.destroy(&mut vol)?;
    let tree: Tree<F, H> = Merkle::init(alloc, &mut vol, &hasher::<H>(), config(alloc)?)?;
    Ok((same, leaves, tree.leaves().as_u64()))
}

#[test]
fn a_tree_keeps_its_root_and_is_opened_again(rt: HostRuntime) -> Result<(), Fail> {
    assert!(rt; reopened::<Mmr, Sha256Hasher>(rt.alloc())? == (true, 11, 0));
    assert!(rt; reopened::<Mmb, Sha256Hasher>(rt.alloc())? == (true, 11, 0));
    Ok(())
}

/// How many nodes and pins are read of a tree that is pruned at the fourth leaf.
fn nodes_of<F: Family, D: Digest>(
    vol: &mut MemoryVolume,
    tree: &Merkle<F, D>,
) -> Result<[u64; 3], Fail> {
    let node = tree.get_node(vol, Position::new(8))?;
    let nodes = tree.get_nodes(vol, &[Position::new(7), Position::new(8)])?;
    let pins = tree.pinned_nodes_at(vol, Location::new(4))?;
    Ok([
        u64::from(node.is_some()),
        nodes.len() as u64,
        pins.len() as u64,
    ])
}

/// How many digests its proofs have, of its fifth leaf and of all from there on.
fn proofs_of<F: Family, D: Digest>(
    vol: &mut MemoryVolume,
    tree: &Merkle<F, D>,
) -> Result<[u64; 2], Fail> {
    let one = tree.proof(vol, Location::new(4), 0)?;
    let range = tree.range_proof(vol, Location::new(4), Location::new(11), 0)?;
    Ok([one.digests.len(), range.digests.len()])
}

/// As many in the tree of the first eight leaves.
fn proofs_before<F: Family, D: Digest>(
    vol: &mut MemoryVolume,
    tree: &Merkle<F, D>,
) -> Result<[u64; 2], Fail> {
    let (leaves, from) = (Location::new(8), Location::new(4));
    let one = tree.historical_proof(vol, leaves, from, 0)?;
    let range = tree.historical_range_proof(
        vol,
        Location::new(8),
        Location::new(4),
        Location::new(8),
        0,
    )?;
    Ok([one.digests.len(), range.digests.len()])
}

/// The numbers of nodes and of digests.
fn read<F: Family, H: Hasher>(alloc: Global) -> Result<([u64; 3], [u64; 2], [u64; 2]), Fail> {
    let mut vol = MemoryVolume::new(alloc);
    let tree = full::<F, H>(alloc, &mut vol)?;
    let tree = tree.prune(&mut vol, Location::new(4))?;
    let nodes = nodes_of(&mut vol, &tree)?;
    let proofs = proofs_of(&mut vol, &tree)?;
    let before = proofs_before(&mut vol, &tree)?;
    Ok((nodes, proofs, before))
}

#[test]
fn a_pruned_tree_is_read(rt: HostRuntime) -> Result<(), Fail> {
    assert!(rt; read::<Mmr, Sha256Hasher>(rt.alloc())? == ([1, 2, 1], [5, 1], [3, 1]));
    Ok(())
}
