//! Chains of batches on a tree whose pins came from elsewhere, so that no list of leaves is told of it.
ghost use Rattle.std.specs.Prelude.{◌≡◌, ℕ, ◌+◌, ◌≤◌, ◌^◌, IsOkUnless};

use crate::batches::{answers, dropped};
use std::alloc::Global;
use std::test::Fail;
use tree_core::{
    Bagging, Error, Family, Hasher, Location, Mem, MerkleizedBatch, Mmb, Position, Sha256Digest,
    Sha256Hasher, Standard, UnmerkleizedBatch,
};

type Belt = Mem<Mmb, Sha256Digest>;

type Batch = MerkleizedBatch<Mmb, Sha256Digest>;

fn hasher() -> Standard<Sha256Hasher> {
    Standard::new(Bagging::ForwardFold)
}

/// Some digest.
fn digest(byte: u8) -> Sha256Digest {
    hasher().leaf_digest(Position::<Mmb>::new(0), &[byte])
}

/// A belt of three leaves with these digests as its two peaks.
fn imported(alloc: Global, peaks: [u8; 2]) -> Result<Belt, Error<Mmb>> {
    let mut pins = Vec::new(alloc);
    for byte in peaks {
        pins.push(digest(byte))?;
    }
    Mem::init(alloc, Vec::new(alloc), Location::new(3), pins)
}

/// The batch sealed with one leaf more, over so many of its ancestors, or all where there are fewer.
fn sealed<F: Family, H: Hasher>(
    batch: UnmerkleizedBatch<F, H::Digest>,
    hasher: &Standard<H>,
    leaf: H::Digest,
    reached: u64,
) -> Result<MerkleizedBatch<F, H::Digest>, Error<F>> {
    let mut batch = batch;
    batch.add_leaf_digest(leaf)?;
    let kept = reached.min(batch.segments());
    batch.merkleize(hasher, kept)
}

/// Appends two leaves by a batch and its child, one after the other. On no tree is the child stale.
fn append_two<F: Family, H: Hasher>(
    tree: &mut Mem<F, H::Digest>,
    hasher: &Standard<H>,
    first: H::Digest,
    second: H::Digest,
) -> Result<(), Error<F>>
    requires { tree.old.leaves + 2 ≤ 2 ^ 62 }
    ensures memory { IsOkUnless result Error.Memory }
{
    let mut parent = tree.new_batch()?;
    parent.add_leaf_digest(first)?;
    let parent = parent.merkleize(hasher, 0)?;
    let mut child = parent.new_batch()?;
    child.add_leaf_digest(second)?;
    let child = child.merkleize(hasher, 0)?;
    match tree.apply_batch(&parent) {
        Ok(()) => tree.apply_batch(&child),
        Err(error) => Err(error),
    }
}

/// A batch of one leaf on an imported belt.
fn parent(alloc: Global, peaks: [u8; 2]) -> Result<Batch, Error<Mmb>> {
    sealed(
        imported(alloc, peaks)?.new_batch()?,
        &hasher(),
        digest(3),
        0,
    )
}

/// Its child of one leaf, with or without its parent's nodes.
fn child(parent: &Batch, keeps: bool) -> Result<Batch, Error<Mmb>> {
    let batch = parent.new_batch()?;
    let reached = if keeps { batch.segments() } else { 0 };
    sealed(batch, &hasher(), digest(4), reached)
}

/// The belt with peaks 1 and 2, and two leaves more.
fn grown(alloc: Global) -> Result<Belt, Fail> {
    let mut tree = imported(alloc, [1, 2])?;
    if tree.leaves().as_u64() != 3 {
        return Err("other leaves".into());
    }
    append_two(&mut tree, &hasher(), digest(3), digest(4))?;
    Ok(tree)
}

/// Whether a tree and a batch have the same leaves, root and node at 6.
fn agree<F: Family, H: Hasher>(
    tree: &Mem<F, H::Digest>,
    batch: &MerkleizedBatch<F, H::Digest>,
    hasher: &Standard<H>,
) -> Result<bool, Error<F>> {
    let have_node = tree.get_node(Position::new(6)) == batch.get_node(Position::new(6));
    let have_leaves = tree.leaves() == batch.leaves();
    Ok(have_leaves && have_node && tree.root(hasher, 0)? == batch.root(hasher, 0)?)
}

#[test]
fn a_child_goes_on_from_its_parent_on_any_pins(rt: HostRuntime) -> Result<(), Fail> {
    let tree = grown(rt.alloc())?;
    let parent = parent(rt.alloc(), [1, 2])?;
    let child = child(&parent, false)?;
    assert!(rt; agree(&tree, &child, &hasher())?);
    Ok(())
}

/// A batch on the belt with peaks 1 and 2, two children of it, of which the first has no nodes of its parent and the second has,
/// and a batch on another belt.
fn family(alloc: Global) -> Result<[Batch; 4], Error<Mmb>> {
    let first = parent(alloc, [1, 2])?;
    let bare = child(&first, false)?;
    let whole = child(&first, true)?;
    let other = parent(alloc, [2, 1])?;
    Ok([first, bare, whole, other])
}

#[test]
fn batches_on_any_pins_are_applied_in_order(rt: HostRuntime) -> Result<(), Fail> {
    let batches = family(rt.alloc())?;
    // The parent is 0, the bare child 1, the whole one 2 and the other batch 3. The answer to the last of each on the belt with
    // peaks 1 and 2, and the number of leaves.
    let rows: [(&[usize], Option<Error<Mmb>>, u64); 6] = [
        (&[0, 1], None, 5),
        (&[2], None, 5),
        (&[1], Some(dropped(6, 4)), 3),
        (&[2, 0], Some(Error::StaleBatch), 5),
        (&[0, 1, 1], Some(Error::StaleBatch), 5),
        (&[3], Some(Error::StaleBatch), 3),
    ];
    for (order, refused, leaves) in rows {
        let mut tree = imported(rt.alloc(), [1, 2])?;
        assert!(rt; answers(&mut tree, &batches, order) == (refused, leaves));
    }
    Ok(())
}
