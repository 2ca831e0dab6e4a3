//! Stores of nodes: proofs over a tree and over what a proof tells, proofs of several leaves, and what is refused.
use crate::trees::tree_of;
use codec_base::{Bytes, ListOf};
use memory_volume::MemoryVolume;
use std::alloc::Global;
use std::test::Fail;
use tree_core::verification::{
    ProofStore, multi_proof, needed_cover_law, range_proof, range_proofs_check, told_tree_law,
};
use tree_core::{
    Bagging, Error, Family, Location, MAX_LEAVES, Mem, Mmb, Mmr, Position, Proof, Sha256Digest,
    Sha256Hasher, Standard, Storage, verify,
};

const LETTERS: [&[u8]; 11] = [
    b"a", b"b", b"c", b"d", b"e", b"f", b"g", b"h", b"i", b"j", b"k",
];

fn hasher() -> Standard<Sha256Hasher> {
    Standard::new(Bagging::ForwardFold)
}

/// The tree of the first letters.
fn letters_tree<F: Family>(alloc: Global, count: usize) -> Result<Mem<F, Sha256Digest>, Error<F>> {
    tree_of(alloc, &hasher(), &LETTERS[..LETTERS.len().min(count)])
}

/// So many letters from one on.
fn letters(alloc: Global, first: usize, count: usize) -> Result<Vec<Bytes>, Fail> {
    let mut elements = Vec::new(alloc);
    for letter in LETTERS.iter().skip(first).take(count) {
        elements.push(Bytes::from_slice(alloc, letter)?)?;
    }
    Ok(elements)
}

/// The proof of the letters from 2 up to 9, in the belt of the first eleven.
fn wide_proof(alloc: Global) -> Result<Proof<Mmb, Sha256Digest>, Error<Mmb>> {
    let mut vol = MemoryVolume::new(alloc);
    let tree = letters_tree(alloc, 11)?;
    range_proof(
        alloc,
        &mut vol,
        &tree,
        Location::new(2),
        Location::new(9),
        0,
    )
}

/// What a proof and so many letters from `first` on tell, where these stand from `start` on.
fn told(
    alloc: Global,
    proof: &Proof<Mmb, Sha256Digest>,
    start: u64,
    first: usize,
    count: usize,
) -> Result<Result<ProofStore<Mmb, Sha256Digest>, Error<Mmb>>, Fail> {
    let elements = letters(alloc, first, count)?;
    Ok(ProofStore::new(alloc, proof, Location::new(start), &elements, &hasher()))
}

/// Whether a proof of two letters, made over what the wide one tells, shows them in the tree.
fn narrower_shows(alloc: Global) -> Result<bool, Fail> {
    let mut vol = MemoryVolume::new(alloc);
    let store = told(alloc, &wide_proof(alloc)?, 2, 2, 7)??;
    let (start, end) = (Location::new(4), Location::new(6));
    let narrow = range_proof(alloc, &mut vol, &store, start, end, 0)?;
    let root = letters_tree::<Mmb>(alloc, 11)?.root(&hasher(), 0)?;
    Ok(verify(
        alloc,
        &hasher(),
        &narrow,
        start,
        &letters(alloc, 4, 2)?,
        &root,
    )?)
}

#[test]
fn narrower_proofs_are_made_over_what_a_proof_tells(rt: HostRuntime) -> Result<(), Fail> {
    assert!(rt; narrower_shows(rt.alloc())?);
    range_proofs_check::<Mmb, Sha256Hasher>();
    needed_cover_law::<Mmb>();
    told_tree_law::<Mmb, Sha256Hasher>();
    Ok(())
}

/// How many nodes of a tree a store tells, and nothing where it tells another.
fn told_nodes<F: Family, S: Storage<F>>(
    alloc: Global,
    store: &S,
    tree: &Mem<F, S::Digest>,
) -> Result<Option<u64>, Error<F>> {
    let mut vol = MemoryVolume::new(alloc);
    let mut nodes = 0u64;
    for position in 0..store.size().as_u64() {
        let node = store.get_node(&mut vol, Position::new(position))?;
        if node.is_some() && node != tree.get_node(Position::new(position)) {
            return Ok(None);
        }
        if node.is_some() {
            nodes = nodes.saturating_add(1);
        }
    }
    Ok(Some(nodes))
}

/// Of what the wide proof tells, whether the size is the tree's, and how many nodes are.
fn told_of_tree(alloc: Global) -> Result<(bool, Option<u64>), Fail> {
    let tree = letters_tree::<Mmb>(alloc, 11)?;
    let store = told(alloc, &wide_proof(alloc)?, 2, 2, 7)??;
    Ok((
        store.size() == tree.size(),
        told_nodes(alloc, &store, &tree)?,
    ))
}

#[test]
fn what_a_proof_tells_is_what_the_tree_has(rt: HostRuntime) -> Result<(), Fail> {
    // Three nodes of the cover, seven leaves, and seven over these.
    assert!(rt; told_of_tree(rt.alloc())? == (true, Some(17)));
    Ok(())
}

/// A proof of no digests for more leaves than a tree may have.
fn great(alloc: Global) -> Proof<Mmb, Sha256Digest> {
    Proof {
        leaves: Location::new(MAX_LEAVES + 1),
        inactive_peaks: 0,
        digests: ListOf::from_vec(Vec::new(alloc)),
    }
}

/// Why the wide proof and so many letters tell nothing, where these stand from `start` on.
fn refused(alloc: Global, start: u64, count: usize) -> Result<Option<Error<Mmb>>, Fail> {
    Ok(told(alloc, &wide_proof(alloc)?, start, 0, count)?.err())
}

#[test]
fn what_tells_nothing_is_refused_in_order(rt: HostRuntime) -> Result<(), Fail> {
    let rows = [
        (12, 0, Error::Empty),
        (5, 7, Error::RangeOutOfBounds(Location::new(12))),
        (
            u64::MAX,
            7,
            Error::RangeOutOfBounds(Location::new(u64::MAX)),
        ),
        // This range has one node in its cover, and the proof three.
        (4, 7, Error::InvalidPinnedNodes),
    ];
    for (start, count, want) in rows {
        assert!(rt; refused(rt.alloc(), start, count)? == Some(want));
    }
    Ok(())
}

#[test]
fn a_proof_for_too_many_leaves_tells_nothing(rt: HostRuntime) -> Result<(), Fail> {
    let overflow = Error::LocationOverflow(Location::new(MAX_LEAVES + 1));
    let answer = told(rt.alloc(), &great(rt.alloc()), u64::MAX, 0, 1)?;
    assert!(rt; answer.err() == Some(overflow));
    Ok(())
}

/// The range of three letters, pruned to a leaf.
fn three(alloc: Global, pruned: u64) -> Result<Mem<Mmr, Sha256Digest>, Error<Mmr>> {
    let mut tree = letters_tree::<Mmr>(alloc, 3)?;
    tree.prune(Location::new(pruned))?;
    Ok(tree)
}

/// How many nodes are told of two positions, or the first that isn't there.
fn two_nodes<F: Family, S: Storage<F>>(alloc: Global, store: &S) -> Result<usize, Error<F>> {
    let mut vol = MemoryVolume::new(alloc);
    let nodes = store.get_nodes(&mut vol, &[Position::new(0), Position::new(2)])?;
    Ok(nodes.len())
}

#[test]
fn a_store_names_the_first_node_that_is_absent(rt: HostRuntime) -> Result<(), Fail> {
    for (pruned, want) in [(0, Ok(2)), (2, Err(Error::ElementPruned(Position::new(0))))] {
        let tree = three(rt.alloc(), pruned)?;
        assert!(rt; two_nodes(rt.alloc(), &tree) == want);
    }
    Ok(())
}

/// The digests of the proof of several leaves of the range of three letters, pruned to a leaf.
fn several(
    alloc: Global,
    pruned: u64,
    places: &[Location<Mmr>],
) -> Result<ListOf<Sha256Digest>, Error<Mmr>> {
    let mut vol = MemoryVolume::new(alloc);
    let tree = three(alloc, pruned)?;
    Ok(multi_proof(alloc, &mut vol, &tree, 0, places)?.digests)
}

#[test]
fn several_leaves_have_one_proof(rt: HostRuntime) -> Result<(), Fail> {
    let places = [Location::new(0), Location::new(2)];
    let digests = several(rt.alloc(), 0, &places)?;
    let leaf = three(rt.alloc(), 0)?.get_node(Position::new(1));
    assert!(rt; digests.len() == 1 && digests.as_slice().first().copied() == leaf);
    Ok(())
}

#[test]
fn several_leaves_are_refused_in_order(rt: HostRuntime) {
    let (one, two, three) = (Location::new(1), Location::new(2), Location::new(3));
    let rows: [(u64, &[Location<Mmr>], Error<Mmr>); 5] = [
        (0, &[], Error::Empty),
        (0, &[one, one], Error::DuplicateLocation(one)),
        (0, &[two, one], Error::UnsortedLocation(one)),
        (0, &[one, three], Error::RangeOutOfBounds(three)),
        (2, &[one, two], Error::ElementPruned(Position::new(0))),
    ];
    for (pruned, places, want) in rows {
        assert!(rt; several(rt.alloc(), pruned, places).err() == Some(want));
    }
}
