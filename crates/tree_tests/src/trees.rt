//! Trees in memory: what prunes keep, what they are rebuilt from, and proofs of what they have.
ghost use Rattle.std.specs.Prelude.{◌≡◌, ◌<◌, ℕ, length, IfOk, Some};
ghost use Rattle.std.specs.BTreeMap.{get};
ghost use Rattle.std.specs.Ordering.{nat_cmp};
ghost use Rattle.tree_shape.specs.Shape.{made};

use codec_base::Bytes;
use std::alloc::{AllocFailed, Global};
use std::collections::BTreeMap;
use std::test::Fail;
use tree_core::{
    Bagging, Digest, Error, Family, Location, MAX_LEAVES, Mem, Mmb, Mmr, Position, Readable,
    Sha256Digest, Sha256Hasher, Standard, TreeData, rebuilt_roots, verify,
};

type Belt = Mem<Mmb, Sha256Digest>;

pub(crate) const ELEMENTS: [&[u8]; 7] = [
    &[0, 0, 0],
    &[1, 1, 0x61],
    &[1, 1, 0x62],
    &[0, 0, 0],
    &[1, 1, 0xff],
    &[1, 2, 3, 4],
    &[0],
];

/// Appends an element to a tree, by a batch of its own.
fn append<F: Family>(
    tree: &mut Mem<F, Sha256Digest>,
    hasher: &Standard<Sha256Hasher>,
    element: &[u8],
) -> Result<(), Error<F>> {
    let mut batch = tree.new_batch()?;
    batch.add(hasher, element)?;
    tree.apply_batch(&batch.merkleize(hasher, 0)?)
}

/// The tree of these elements.
pub(crate) fn tree_of<F: Family>(
    alloc: Global,
    hasher: &Standard<Sha256Hasher>,
    elements: &[&[u8]],
) -> Result<Mem<F, Sha256Digest>, Error<F>> {
    let mut tree = Mem::new(alloc)?;
    for element in elements {
        append(&mut tree, hasher, element)?;
    }
    Ok(tree)
}

/// What memory tells at the positions from one to another, each of which it has.
fn told<R: Readable>(
    alloc: Global,
    memory: &R,
    first: u64,
    end: u64,
) -> Result<Vec<R::Digest>, Fail> {
    let mut nodes = Vec::new(alloc);
    for position in first..end {
        let node = memory.get_node(Position::new(position));
        nodes.push(node.ok_or("a node is absent")?)?;
    }
    Ok(nodes)
}

/// Whether two trees have one root.
fn have_one_root<F: Family>(
    tree: &Mem<F, Sha256Digest>,
    other: &Mem<F, Sha256Digest>,
) -> Result<bool, Error<F>> {
    let hasher = Standard::<Sha256Hasher>::new(Bagging::BackwardFold);
    Ok(tree.root(&hasher, 0)? == other.root(&hasher, 0)?)
}

fn elements_tree<F: Family>(alloc: Global) -> Result<Mem<F, Sha256Digest>, Error<F>> {
    tree_of(alloc, &Standard::new(Bagging::ForwardFold), &ELEMENTS)
}

#[test]
fn a_pruned_tree_keeps_its_root(rt: HostRuntime) -> Result<(), Fail> {
    let whole = elements_tree::<Mmr>(rt.alloc())?;
    let mut tree = elements_tree::<Mmr>(rt.alloc())?;
    tree.prune(Location::new(5))?;
    assert!(rt; tree.get_node(Position::new(1)).is_none());
    assert!(rt; tree.get_node(Position::new(6)) == whole.get_node(Position::new(6)));
    assert!(rt; have_one_root(&tree, &whole)?);
    let past = Location::new(8);
    assert!(rt; tree.prune(past) == Err(Error::LeafOutOfBounds(past)));
    tree.prune_all();
    assert!(rt; have_one_root(&tree, &whole)?);
    Ok(())
}

#[test]
fn a_tree_lends_its_nodes_from_the_boundary_on(rt: HostRuntime) -> Result<(), Fail> {
    let hasher = Standard::new(Bagging::ForwardFold);
    let whole = tree_of::<Mmr>(rt.alloc(), &hasher, &ELEMENTS[..5])?;
    let nodes = told(rt.alloc(), &whole, 3, 8)?;
    let mut tree = tree_of::<Mmr>(rt.alloc(), &hasher, &ELEMENTS[..5])?;
    tree.prune(Location::new(2))?;
    let (first, retained) = tree.retained();
    assert!(rt; first == Position::new(3));
    assert!(rt; retained == nodes.as_slice());
    Ok(())
}

#[test]
fn a_tree_tells_its_size(rt: HostRuntime) -> Result<(), Fail> {
    let tree = elements_tree::<Mmr>(rt.alloc())?;
    assert!(rt;
        (
            tree.leaves().as_u64(),
            tree.size().as_u64(),
            tree.peak_count()
        ) == (7, 11, 3)
    );
    assert!(rt; TreeData::Boundary.text() == "invalid Merkle pruning boundary");
    Ok(())
}

/// The peaks of a tree at these positions.
fn pins_at(alloc: Global, tree: &Belt, pins: &[u64]) -> Result<Vec<Sha256Digest>, Fail> {
    let mut pinned = Vec::new(alloc);
    for pin in pins {
        pinned.push(tree.get_node(Position::new(*pin)).ok_or("a pin is absent")?)?;
    }
    Ok(pinned)
}

/// A tree built from what that of the elements tells: of its nodes those from `first` to `end`, and as pins those that stand at
/// `pins`.
fn built(
    alloc: Global,
    first: u64,
    end: u64,
    boundary: u64,
    pins: &[u64],
) -> Result<Result<Belt, Error<Mmb>>, Fail> {
    let tree = elements_tree(alloc)?;
    let pins = pins_at(alloc, &tree, pins)?;
    Ok(Mem::init(
        alloc,
        told(alloc, &tree, first, end)?,
        Location::new(boundary),
        pins,
    ))
}

#[test]
fn a_tree_is_not_built_from_too_little(rt: HostRuntime) -> Result<(), Fail> {
    let past = Location::new(MAX_LEAVES + 1);
    let rows: [(u64, u64, u64, &[u64], Error<Mmb>); 3] = [
        (8, 11, 5, &[7], Error::InvalidPinnedNodes),
        (0, 0, MAX_LEAVES + 1, &[], Error::LocationOverflow(past)),
        (0, 2, 0, &[], Error::MissingNode(Position::new(2))),
    ];
    for (first, end, boundary, pins, want) in rows {
        assert!(rt; built(rt.alloc(), first, end, boundary, pins)?.err() == Some(want));
    }
    Ok(())
}

/// The tree of the elements, rebuilt from the peaks of five leaves, which stand at 7 and at 6, and from the nodes behind them.
fn rebuilt(alloc: Global) -> Result<Belt, Fail> {
    Ok(built(alloc, 8, 11, 5, &[7, 6])??)
}

#[test]
fn a_tree_is_rebuilt_from_its_pins(rt: HostRuntime) -> Result<(), Fail> {
    let tree = elements_tree::<Mmb>(rt.alloc())?;
    let rebuilt = rebuilt(rt.alloc())?;
    assert!(rt; rebuilt.size() == tree.size());
    assert!(rt; have_one_root(&tree, &rebuilt)?);
    assert!(rt; told(rt.alloc(), &rebuilt, 6, 11)? == told(rt.alloc(), &tree, 6, 11)?);
    rebuilt_roots::<Mmb, Sha256Digest>();
    Ok(())
}

/// A node at one position.
fn one_pin<F: Family, D: Digest>(
    alloc: Global,
    position: u64,
    digest: D,
) -> Result<BTreeMap<Position<F>, D>, AllocFailed<(Position<F>, D)>>
    ensures { IfOk result (λ m. (p : ℕ) (d : D) → get nat_cmp m p ≡ Some d → p ≡ position) }
{
    let mut pins = BTreeMap::new(alloc);
    pins.insert(Position::new(position), digest)?;
    Ok(pins)
}

/// Pins a node at one position.
fn add_pin<F: Family, D: Digest>(
    alloc: Global,
    tree: &mut Mem<F, D>,
    position: u64,
    digest: D,
) -> Result<(), Error<F>>
    requires { position < length (made F.shape tree.old.leaves) }
{
    let pins = one_pin(alloc, position, digest)?;
    tree.add_pinned_nodes(pins)
}

#[test]
fn a_pin_is_kept_until_a_prune(rt: HostRuntime) -> Result<(), Fail> {
    let two = Position::new(2);
    let mut rebuilt = rebuilt(rt.alloc())?;
    assert!(rt; rebuilt.get_node(two).is_none());
    let digest = elements_tree::<Mmb>(rt.alloc())?
        .get_node(two)
        .ok_or("a node is absent")?;
    assert!(rt; 2 < rebuilt.size().as_u64());
    add_pin(rt.alloc(), &mut rebuilt, 2, digest)?;
    assert!(rt; rebuilt.get_node(two) == Some(digest));
    rebuilt.prune(Location::new(6))?;
    assert!(rt; rebuilt.get_node(two).is_none());
    Ok(())
}

/// The mountain range of the first three elements, pruned to a leaf.
fn three(alloc: Global, pruned: u64) -> Result<Mem<Mmr, Sha256Digest>, Error<Mmr>> {
    let hasher = Standard::<Sha256Hasher>::new(Bagging::ForwardFold);
    let mut tree = tree_of(alloc, &hasher, &ELEMENTS[..3])?;
    tree.prune(Location::new(pruned))?;
    Ok(tree)
}

#[test]
fn proofs_are_refused_in_order(rt: HostRuntime) -> Result<(), Fail> {
    let tree = three(rt.alloc(), 0)?;
    let (one, four, most) = (
        Location::new(1),
        Location::new(4),
        Location::new(MAX_LEAVES),
    );
    let past = Location::new(MAX_LEAVES + 1);
    for (start, end, want) in [
        (most, most, Error::Empty),
        (one, past, Error::LocationOverflow(past)),
        (one, four, Error::RangeOutOfBounds(four)),
    ] {
        assert!(rt; tree.range_proof(start, end, 0).err() == Some(want));
    }
    assert!(rt; tree.proof(most, 0).err() == Some(Error::LocationOverflow(most)));
    let absent = Error::ElementPruned(Position::new(0));
    assert!(rt; three(rt.alloc(), 2)?.proof(one, 0).err() == Some(absent));
    Ok(())
}

/// Whether the proof of the second element of three shows it from a leaf on.
fn shows(alloc: Global, start: u64) -> Result<bool, Fail> {
    let hasher = Standard::<Sha256Hasher>::new(Bagging::ForwardFold);
    let tree = three(alloc, 0)?;
    let proof = tree.proof(Location::new(1), 0)?;
    let elements = [Bytes::from_slice(alloc, ELEMENTS[1])?];
    let root = tree.root(&hasher, 0)?;
    Ok(verify(
        alloc,
        &hasher,
        &proof,
        Location::new(start),
        &elements,
        &root,
    )?)
}

#[test]
fn proofs_show_what_the_tree_has(rt: HostRuntime) -> Result<(), Fail> {
    assert!(rt; shows(rt.alloc(), 1)?);
    assert!(rt; !shows(rt.alloc(), 0)?);
    Ok(())
}
