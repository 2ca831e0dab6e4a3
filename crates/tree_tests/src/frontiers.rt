//! Trees that keep their frontier alone: refusals, batches on them, and roots made by `tools/trees.py`.
use merkle_compact::Merkle;
use std::alloc::Global;
use std::test::Fail;
use tree_core::{
    Bagging, Digest, Error, Family, Hasher, Location, MAX_LEAVES, MerkleizedBatch, Mmb, Mmr,
    Position, Sha256Digest, Sha256Hasher, Standard, UnmerkleizedBatch,
};

type Frontier<F> = Merkle<F, Sha256Digest>;

/// Leaf i is the one byte i. The roots of 8 and of 11 leaves, folded forward, with no inactive peak.
const MMR_ROOTS: [&str; 2] = [
    "24ff573ff1ad6b05f809db65dc9ff4a19c488e3bc9d0a22ce3d387ce62084f1d",
    "7ea9e73d9bfacdb2d52582bfe8fb47936b13175213ff204cc65d6783526aaa14",
];

const MMB_ROOTS: [&str; 2] = [
    "e0584f5086264fe0aa62bf32d1760b72287736f5ec9bb8390c6624fff9c65a73",
    "aabf39e1b5cb779da11af404594f4952366d684deca2bf3463c0614c806ecd57",
];

fn hasher() -> Standard<Sha256Hasher> {
    Standard::new(Bagging::ForwardFold)
}

/// Appends the leaves of these numbers, each behind the other, and prunes.
fn append<F: Family>(tree: &mut Frontier<F>, leaves: &[u8]) -> Result<(), Error<F>> {
    for leaf in leaves {
        tree.append_leaf(&hasher(), &[*leaf])?;
    }
    tree.prune_to_frontier();
    Ok(())
}

/// The peaks of a tree, the oldest first.
fn pins<F: Family>(alloc: Global, tree: &Frontier<F>) -> Result<Vec<Sha256Digest>, Fail> {
    let mut pinned = Vec::new(alloc);
    let leaves = tree.leaves();
    if !leaves.is_valid() {
        return Err("too many leaves".into());
    }
    for position in F::nodes_to_pin(leaves) {
        pinned.push(tree.mem().get_node(position).ok_or("a peak is absent")?)?;
    }
    Ok(pinned)
}

/// The root, in hexadecimal digits.
fn root_text<F: Family>(alloc: Global, tree: &Frontier<F>) -> Result<String, Fail> {
    let root = tree.root(&hasher(), 0)?;
    Ok(hex::encode(alloc, root.as_slice())?)
}

/// The root of a tree of eight leaves, and that of the tree which is rebuilt from its peaks and gets three more.
fn rebuilt_roots<F: Family>(alloc: Global) -> Result<(String, String), Fail> {
    let mut tree = Frontier::<F>::new(alloc)?;
    append(&mut tree, &[0, 1, 2, 3, 4, 5, 6, 7])?;
    let mut rebuilt = Frontier::<F>::from_compact_state(alloc, tree.leaves(), pins(alloc, &tree)?)?;
    append(&mut rebuilt, &[8, 9, 10])?;
    Ok((root_text(alloc, &tree)?, root_text(alloc, &rebuilt)?))
}

#[test]
fn roots_go_on_from_the_peaks_alone(rt: HostRuntime) -> Result<(), Fail> {
    let mmr = rebuilt_roots::<Mmr>(rt.alloc())?;
    let mmb = rebuilt_roots::<Mmb>(rt.alloc())?;
    assert!(rt; [mmr.0.as_str(), mmr.1.as_str()] == MMR_ROOTS);
    assert!(rt; [mmb.0.as_str(), mmb.1.as_str()] == MMB_ROOTS);
    Ok(())
}

/// The positions below the size at which the tree of eleven leaves keeps no node.
fn absent<F: Family>(alloc: Global) -> Result<Vec<u64>, Error<F>> {
    let mut tree = Frontier::<F>::new(alloc)?;
    append(&mut tree, &[0, 1, 2, 3, 4, 5, 6, 7, 8, 9, 10])?;
    let mut none = Vec::new(alloc);
    for position in 0..tree.mem().size().as_u64() {
        if tree.mem().get_node(Position::new(position)).is_none() {
            none.push(position)?;
        }
    }
    Ok(none)
}

#[test]
fn only_peaks_are_kept(rt: HostRuntime) -> Result<(), Fail> {
    // Peaks of eleven leaves stand at 14, 17 and 18.
    let want = [0, 1, 2, 3, 4, 5, 6, 7, 8, 9, 10, 11, 12, 13, 15, 16];
    assert!(rt; absent::<Mmr>(rt.alloc())?.as_slice() == want.as_slice());
    Ok(())
}

/// The answer to a reset to so many leaves without peaks, and the leaves of the tree behind it.
fn reset<F: Family>(alloc: Global, leaves: u64) -> Result<(Option<Error<F>>, u64), Error<F>> {
    let mut tree = Frontier::<F>::new(alloc)?;
    append(&mut tree, b"ab")?;
    let answer = tree.reset_to(Location::new(leaves), Vec::new(alloc)).err();
    Ok((answer, tree.leaves().as_u64()))
}

#[test]
fn a_reset_is_refused_or_replaces_the_tree(rt: HostRuntime) -> Result<(), Fail> {
    let past = MAX_LEAVES + 1;
    let overflow = Error::LocationOverflow(Location::new(past));
    for (leaves, want) in [
        (2, (Some(Error::InvalidPinnedNodes), 2)),
        (past, (Some(overflow), 2)),
        (0, (None, 0)),
    ] {
        assert!(rt; reset::<Mmr>(rt.alloc(), leaves)? == want);
    }
    Ok(())
}

/// The answer to an append to a tree of so many leaves with one peak.
fn appended<F: Family>(alloc: Global, leaves: u64) -> Result<Option<Error<F>>, Error<F>> {
    let mut pins = Vec::new(alloc);
    pins.push(hasher().leaf_digest(Position::<F>::new(0), &[0]))?;
    let mut tree = Frontier::<F>::from_compact_state(alloc, Location::new(leaves), pins)?;
    Ok(tree.append_leaf(&hasher(), &[1]).err())
}

#[test]
fn a_full_tree_takes_no_leaf(rt: HostRuntime) -> Result<(), Fail> {
    let past = Error::LocationOverflow(Location::new(MAX_LEAVES + 1));
    for (leaves, want) in [(MAX_LEAVES, Some(past)), (MAX_LEAVES / 2, None)] {
        assert!(rt; appended::<Mmr>(rt.alloc(), leaves)? == want);
    }
    Ok(())
}

/// A batch with the leaves of these numbers, sealed with all its ancestors.
fn sealed<F: Family>(
    mut batch: UnmerkleizedBatch<F, Sha256Digest>,
    leaves: &[u8],
) -> Result<MerkleizedBatch<F, Sha256Digest>, Error<F>> {
    for leaf in leaves {
        batch.add(&hasher(), &[*leaf])?;
    }
    let reached = batch.segments();
    batch.merkleize(&hasher(), reached)
}

/// Whether a tree takes the prefix 0 to 7 and then the child 10 of 8 and 9 on it, and has the child's root; and the leaves, and
/// what it answers to the prefix again.
fn grown<F: Family>(alloc: Global) -> Result<(bool, u64, Option<Error<F>>), Error<F>> {
    let mut tree = Frontier::<F>::new(alloc)?;
    let prefix = sealed(tree.new_batch()?, &[0, 1, 2, 3, 4, 5, 6, 7])?;
    let second = sealed(prefix.new_batch()?, &[8, 9])?;
    tree.apply_batch(&prefix)?;
    tree.prune_to_frontier();
    let child = sealed(second.new_batch()?, &[10])?;
    tree.apply_batch(&child)?;
    tree.prune_to_frontier();
    let same = tree.root(&hasher(), 0)? == child.root(&hasher(), 0)?;
    let again = tree.apply_batch(&prefix).err();
    Ok((same, tree.leaves().as_u64(), again))
}

#[test]
fn a_child_applies_behind_its_applied_prefix(rt: HostRuntime) -> Result<(), Fail> {
    assert!(rt; grown::<Mmr>(rt.alloc())? == (true, 11, Some(Error::StaleBatch)));
    Ok(())
}

/// The leaves of a tree of two, to which its own empty batch was applied.
fn with_nothing<F: Family>(alloc: Global) -> Result<u64, Error<F>> {
    let mut tree = Frontier::<F>::new(alloc)?;
    append(&mut tree, &[0, 1])?;
    let empty = tree.to_batch()?;
    tree.apply_batch(&empty)?;
    Ok(tree.leaves().as_u64())
}

#[test]
fn an_empty_batch_of_the_tree_applies_to_it(rt: HostRuntime) -> Result<(), Fail> {
    assert!(rt; with_nothing::<Mmr>(rt.alloc())? == 2);
    Ok(())
}
