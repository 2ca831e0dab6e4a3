//! Openings of a tree: of an orphan leaf, and under caps; roots made by `tools/trees.py`.
use crate::shared::{Tree, config, full, hasher};
use codec_base::Bytes;
use memory_volume::MemoryVolume;
use merkle_full::Merkle;
use std::alloc::Global;
use std::test::Fail;
use tree_core::{Digest, Error, Family, Hasher, Location, Mmr, Position, Sha256Hasher};

/// Leaf i is the one byte i. The roots of 1, 2, 8 and 11 leaves, folded forward, with no inactive peak.
const ROOTS: [&str; 4] = [
    "8117a5e7fd967924b37403b182082079f0bca9c2a66b9216982578ddea837ae3",
    "b5113ca2222036bfd30ba8afd34fd8bf5d971769d9a02aa7b028c3dc6f3f5639",
    "24ff573ff1ad6b05f809db65dc9ff4a19c488e3bc9d0a22ce3d387ce62084f1d",
    "7ea9e73d9bfacdb2d52582bfe8fb47936b13175213ff204cc65d6783526aaa14",
];

/// A volume with the digests of leaves 0 and 1 as a node log, without their parent.
fn orphaned<F: Family, H: Hasher>(alloc: Global) -> Result<MemoryVolume, Fail> {
    let mut items = Vec::new(alloc);
    for leaf in 0..2u8 {
        let digest = hasher::<H>().leaf_digest(Position::<F>::new(u64::from(leaf)), &[leaf]);
        items.push(Bytes::from_slice(alloc, digest.as_slice())?)?;
    }
    let mut vol = MemoryVolume::new(alloc);
    vol.put_log("nodes", 0, &items)?;
    Ok(vol)
}

/// A volume with a tree of eleven leaves, pruned at the fourth.
fn pruned<F: Family, H: Hasher>(alloc: Global) -> Result<MemoryVolume, Fail> {
    let mut vol = MemoryVolume::new(alloc);
    let tree = full::<F, H>(alloc, &mut vol)?;
    let _tree = tree.prune(&mut vol, Location::new(4))?;
    Ok(vol)
}

/// The first kept leaf, the leaves and the root of the tree that is opened under a cap.
fn opened<F: Family, H: Hasher>(
    alloc: Global,
    vol: &mut MemoryVolume,
    cap: u64,
) -> Result<(u64, u64, String), Fail> {
    let tree: Tree<F, H> = Merkle::init_at_most(
        alloc,
        vol,
        &hasher::<H>(),
        config(alloc)?,
        Location::new(cap),
    )?;
    let (start, end) = tree.bounds();
    let root = tree.root(&hasher::<H>(), 0)?;
    let text = hex::encode(alloc, root.as_slice())?;
    Ok((start.as_u64(), end.as_u64(), text))
}

#[test]
fn an_orphan_leaf_is_taken_where_the_cap_allows_it(rt: HostRuntime) -> Result<(), Fail> {
    for (cap, root) in [(1, ROOTS[0]), (2, ROOTS[1])] {
        let mut vol = orphaned::<Mmr, Sha256Hasher>(rt.alloc())?;
        let tree = opened::<Mmr, Sha256Hasher>(rt.alloc(), &mut vol, cap)?;
        assert!(rt; (tree.0, tree.1, tree.2.as_str()) == (0, cap, root));
    }
    Ok(())
}

#[test]
fn a_cap_cuts_the_tree(rt: HostRuntime) -> Result<(), Fail> {
    for (cap, leaves, root) in [(8, 8, ROOTS[2]), (11, 11, ROOTS[3]), (100, 11, ROOTS[3])] {
        let mut vol = pruned::<Mmr, Sha256Hasher>(rt.alloc())?;
        let tree = opened::<Mmr, Sha256Hasher>(rt.alloc(), &mut vol, cap)?;
        assert!(rt; (tree.0, tree.1, tree.2.as_str()) == (4, leaves, root));
    }
    Ok(())
}

/// What an opening under a cap of three leaves answers to a tree that is pruned at the fourth.
fn refused<F: Family, H: Hasher>(alloc: Global) -> Result<Option<Error<F>>, Fail> {
    let mut vol = pruned::<F, H>(alloc)?;
    let opened: Result<Tree<F, H>, Error<F>> = Merkle::init_at_most(
        alloc,
        &mut vol,
        &hasher::<H>(),
        config(alloc)?,
        Location::new(3),
    );
    Ok(opened.err())
}

#[test]
fn a_cap_below_the_boundary_is_refused(rt: HostRuntime) -> Result<(), Fail> {
    // Three leaves have four nodes.
    let error = refused::<Mmr, Sha256Hasher>(rt.alloc())?;
    assert!(rt; error == Some(Error::ElementPruned(Position::new(4))));
    Ok(())
}
