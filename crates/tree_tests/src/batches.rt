//! Batches: which tree takes which, and proofs over a tree and a batch.
use crate::trees::ELEMENTS;
use std::alloc::Global;
use std::test::Fail;
use tree_core::{
    Bagging, Digest, Error, Family, Hasher, Location, Mem, MerkleizedBatch, Mmb, Mmr, Position,
    Sha256Digest, Sha256Hasher, Standard, UnmerkleizedBatch,
};

type Batch = MerkleizedBatch<Mmb, Sha256Digest>;

/// A batch with these elements, sealed with all its ancestors.
fn sealed<F: Family, H: Hasher>(
    batch: UnmerkleizedBatch<F, H::Digest>,
    hasher: &Standard<H>,
    elements: &[&[u8]],
) -> Result<MerkleizedBatch<F, H::Digest>, Error<F>> {
    let mut batch = batch;
    for element in elements {
        batch.add(hasher, element)?;
    }
    let reached = batch.segments();
    batch.merkleize(hasher, reached)
}

/// A batch of one leaf on another, which keeps its parent's nodes or not.
fn child<F: Family>(
    parent: &MerkleizedBatch<F, Sha256Digest>,
    keeps: bool,
    text: &[u8],
) -> Result<MerkleizedBatch<F, Sha256Digest>, Error<F>> {
    let hasher = hasher();
    let leaf = hasher.leaf_digest(Position::<F>::new(12), text);
    let mut batch = parent.new_batch()?;
    let reached = if keeps { batch.segments() } else { 0 };
    batch.add_leaf_digests(&[leaf])?;
    let kept = reached.min(batch.segments());
    batch.merkleize(&hasher, kept)
}

/// What a tree answers to the last of these batches in their order, and the leaves that it then has.
pub(crate) fn answers<F: Family, D: Digest>(
    tree: &mut Mem<F, D>,
    batches: &[MerkleizedBatch<F, D>],
    order: &[usize],
) -> (Option<Error<F>>, u64) {
    let mut refused = None;
    for at in order {
        if let Some(batch) = batches.get(*at) {
            refused = tree.apply_batch(batch).err();
        }
    }
    (refused, tree.leaves().as_u64())
}

/// What lies between these sizes was dropped.
pub(crate) fn dropped<F: Family>(expected: u64, actual: u64) -> Error<F> {
    Error::AncestorDropped {
        expected: Position::new(expected),
        actual: Position::new(actual),
    }
}

fn hasher() -> Standard<Sha256Hasher> {
    Standard::new(Bagging::BackwardFold)
}

/// The batch of all elements, on an empty tree.
fn first(alloc: Global) -> Result<Batch, Error<Mmb>> {
    let tree = Mem::<Mmb, Sha256Digest>::new(alloc)?;
    sealed(tree.to_batch()?.new_batch()?, &hasher(), &ELEMENTS)
}

/// The batch of all elements, and two children of it, of which the first has no nodes of its parent and the second has.
fn family(alloc: Global) -> Result<[Batch; 3], Error<Mmb>> {
    let parent = first(alloc)?;
    let bare = child(&parent, false, &[1])?;
    let whole = child(&parent, true, &[2])?;
    Ok([parent, bare, whole])
}

#[test]
fn batches_apply_once_in_an_order_that_fits(rt: HostRuntime) -> Result<(), Fail> {
    let batches = family(rt.alloc())?;
    // The parent is 0, the bare child 1 and the whole one 2. The answer to the last of each, and the number of leaves.
    let rows: [(&[usize], Option<Error<Mmb>>, u64); 5] = [
        (&[1], Some(dropped(11, 0)), 0),
        (&[0, 0], Some(Error::StaleBatch), 7),
        (&[0, 2], None, 8),
        (&[2, 0], Some(Error::StaleBatch), 8),
        (&[0, 2, 1], Some(Error::StaleBatch), 8),
    ];
    for (order, refused, leaves) in rows {
        let mut tree = Mem::<Mmb, Sha256Digest>::new(rt.alloc())?;
        assert!(rt; answers(&mut tree, &batches, order) == (refused, leaves));
    }
    Ok(())
}

/// Whether a tree to which a batch was applied has its root and its node at 3.
fn has_what_its_batch_has<F: Family, H: Hasher>(
    tree: &mut Mem<F, H::Digest>,
    batch: &MerkleizedBatch<F, H::Digest>,
    hasher: &Standard<H>,
) -> Result<bool, Error<F>> {
    tree.apply_batch(batch)?;
    let node = tree.get_node(Position::new(3));
    let has_node = node.is_some() && node == batch.get_node(Position::new(3));
    Ok(has_node && tree.root(hasher, 0)? == batch.root(hasher, 0)?)
}

#[test]
fn a_tree_has_what_its_batch_has(rt: HostRuntime) -> Result<(), Fail> {
    let batch = first(rt.alloc())?;
    let mut tree = Mem::<Mmb, Sha256Digest>::new(rt.alloc())?;
    assert!(rt; has_what_its_batch_has(&mut tree, &batch, &hasher())?);
    Ok(())
}

/// The numbers of digests of the proofs of two leaves and of one of three over a batch, and whether the tree that it makes has
/// the same.
fn proofs_agree<F: Family, H: Hasher>(
    tree: &mut Mem<F, H::Digest>,
    sealed: &MerkleizedBatch<F, H::Digest>,
) -> Result<(u64, u64, bool), Error<F>> {
    let two = sealed.range_proof(tree, Location::new(1), Location::new(3), 0)?;
    let single = sealed.proof(tree, Location::new(1), 0)?;
    tree.apply_batch(sealed)?;
    let same_two = tree.range_proof(Location::new(1), Location::new(3), 0)?;
    let same_single = tree.proof(Location::new(1), 0)?;
    let agree = two == same_two && single == same_single;
    Ok((two.digests.len(), single.digests.len(), agree))
}

#[test]
fn proofs_of_a_batch_are_those_of_the_tree_that_it_makes(rt: HostRuntime) -> Result<(), Fail> {
    let mut tree = Mem::<Mmr, Sha256Digest>::new(rt.alloc())?;
    let three = sealed(tree.new_batch()?, &hasher(), &ELEMENTS[..3])?;
    assert!(rt; proofs_agree::<Mmr, Sha256Hasher>(&mut tree, &three)? == (1, 2, true));
    Ok(())
}
