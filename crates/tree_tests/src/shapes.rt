//! The families' shapes, and roots that another program's SHA-256 made.
use crate::trees::{ELEMENTS, tree_of};
use std::alloc::Global;
use std::test::Fail;
use tree_core::{
    Bagging, Digest, Family, Hasher, Location, Mmb, Mmr, Position, Sha256Digest, Sha256Hasher,
    Standard, inactive_law, needed_nodes, slow_root, table_laws,
};

/// Leaves, inactive peaks, whether the fold is from the left, root.
const ROOTS: [(usize, u64, bool, &str); 16] = [
    (
        0,
        0,
        true,
        "45f3cfb357f285c8d854597a1d23a2341dee97573b541d46bc211c40f33526eb",
    ),
    (
        0,
        0,
        false,
        "960ac6808a8c0d1b758dee361a23708719da1ffb1f2634f5add4943c51f41fdd",
    ),
    (
        1,
        0,
        true,
        "6e44d9af463dbbdb8e26fef511895e0a348e2bd099ab0f45425db61c3bd543cc",
    ),
    (
        2,
        0,
        true,
        "825eb4d29e51dbef2e57858149555ca8cb95a862784aafcaaec2261a9f6d4f81",
    ),
    (
        3,
        0,
        true,
        "55b35c492d8760ae5241af14763eb77c0db11bf43b09aeaa25fdd68f56dd4e02",
    ),
    (
        3,
        1,
        false,
        "e26e5e3fc5a129967ea1fdcf41529354814333afafb7beefb9981cc0868081cf",
    ),
    (
        4,
        0,
        true,
        "fb4f8178d68d9e1a3f68875e1f2f94fe29bba20b21ae969906f72e70ec26b646",
    ),
    (
        5,
        0,
        true,
        "744acfcb6388f3812ca73d741e07bd3ec6e48b93c3fef9690ab2b7cb8c501be4",
    ),
    (
        5,
        1,
        true,
        "b8dab5ae5fc804687cdb0259edf70d8c5d2f0d50877602880f5a875f10b80fd3",
    ),
    (
        6,
        0,
        true,
        "c4d58e0d42a7adf2fde2469830768aa030c9c7d197ee62eeffc427312be464a5",
    ),
    (
        7,
        0,
        true,
        "fac3389290187b36995c32bfb69a3f5f784640a6581c691d67ed7e718ec56ac3",
    ),
    (
        7,
        0,
        false,
        "09607ad34357fdd43e6d2dd9e99a723aa890d5ecbbc3ae0510e6be8dde859540",
    ),
    (
        7,
        1,
        true,
        "251dd950c914e00cbc3e6b940089d9861ab072d73734cf86fdd90e25a60d4581",
    ),
    (
        7,
        2,
        true,
        "d2b87e8639ce068220b6065dc6b878c1b9c53ee196dfd37cb9ac2cff97dc69d0",
    ),
    (
        7,
        2,
        false,
        "fc45c3a942b400d5d22565d67d73ab9a36b41d44d00303ded62f56fde83ceb1e",
    ),
    (
        7,
        3,
        false,
        "6be4b80e5b8de8f1d86ee1ecb0ba050c427333e4db460e61d64b749e1a1f44ba",
    ),
];

/// The leaf digests of the first elements.
fn leaves_of(alloc: Global, count: usize) -> Result<Vec<Sha256Digest>, Fail> {
    let hasher = Standard::<Sha256Hasher>::new(Bagging::ForwardFold);
    let mut leaves = Vec::new(alloc);
    for i in 0..ELEMENTS.len().min(count) {
        let pos = Mmr::location_to_position(Location::new(i as u64));
        leaves.push(hasher.leaf_digest(pos, ELEMENTS[i]))?;
    }
    Ok(leaves)
}

/// The root of the first elements, by the slow recursion from their leaves.
fn root_of_leaves(
    alloc: Global,
    hasher: &Standard<Sha256Hasher>,
    count: usize,
    inactive: u64,
) -> Result<Sha256Digest, Fail> {
    let leaves = leaves_of(alloc, count)?;
    if leaves.len() > 7 || inactive > u64::from(Mmr::peak_count(leaves.len() as u64)) {
        return Err("more inactive peaks than peaks".into());
    }
    Ok(slow_root::<Mmr, Sha256Hasher>(alloc, hasher, &leaves, inactive)?)
}

/// The root of the first elements, by a tree that they are appended to.
fn root_of_tree(
    alloc: Global,
    hasher: &Standard<Sha256Hasher>,
    count: usize,
    inactive: u64,
) -> Result<Sha256Digest, Fail> {
    let tree = tree_of::<Mmr>(alloc, hasher, &ELEMENTS[..ELEMENTS.len().min(count)])?;
    if inactive > tree.peak_count() {
        return Err("more inactive peaks than peaks".into());
    }
    Ok(tree.root(hasher, inactive)?)
}

/// Whether a digest has this text.
fn is_text(alloc: Global, digest: Sha256Digest, want: &str) -> Result<bool, Fail> {
    Ok(hex::encode(alloc, digest.as_slice())?.as_str() == want)
}

#[test]
fn roots_of_the_examples(rt: HostRuntime) -> Result<(), Fail> {
    let alloc = rt.alloc();
    for (count, inactive, forward, want) in ROOTS {
        let hasher = Standard::new(if forward {
            Bagging::ForwardFold
        } else {
            Bagging::BackwardFold
        });
        let slow = root_of_leaves(alloc, &hasher, count, inactive)?;
        assert!(rt; is_text(alloc, slow, want)?);
        assert!(rt; root_of_tree(alloc, &hasher, count, inactive)? == slow);
    }
    Ok(())
}

#[test]
fn laws_of_the_families(_rt: HostRuntime) {
    inactive_law::<Mmb>();
    needed_nodes::<Mmb>();
    table_laws();
}

/// The numbers of nodes of 0 to 5 leaves, in the mountain range and in the belt.
const SIZES: [(u64, u64); 6] = [(0, 0), (1, 1), (3, 3), (4, 4), (7, 6), (8, 8)];

#[test]
fn sizes_of_both_families(rt: HostRuntime) {
    for leaves in 0..6 {
        let sizes = (Mmr::size(leaves as u64), Mmb::size(leaves as u64));
        assert!(rt; sizes == SIZES[leaves]);
    }
}

/// Leaves, nodes, positions and heights of the peaks from the left, and peaks that end at or below leaf 8, of the belt.
const BELT: [(u64, u64, &[u64], &[u32], u64); 3] = [
    (3, 4, &[2, 3], &[1, 0], 2),
    (5, 8, &[7, 6], &[2, 0], 2),
    (11, 19, &[18, 16, 17], &[3, 1, 0], 1),
];

/// Whether the peaks of the belt stand at these positions.
fn are_pins(leaves: u64, want: &[u64]) -> bool {
    if leaves > 11 {
        return false;
    }
    let mut count = 0;
    for pin in Mmb::nodes_to_pin(Location::new(leaves)) {
        if want.get(count) != Some(&pin.as_u64()) {
            return false;
        }
        count += 1;
    }
    count == want.len()
}

/// Whether the peaks of the belt have these heights.
fn are_heights(leaves: u64, want: &[u32]) -> bool {
    if leaves > 11 || Mmb::peak_count(leaves) as usize != want.len() {
        return false;
    }
    let count = Mmb::peak_count(leaves);
    for i in 0..count {
        if want.get(i as usize) != Some(&Mmb::peak_height(leaves, count - 1 - i)) {
            return false;
        }
    }
    true
}

#[test]
fn the_belt_has_its_shape(rt: HostRuntime) {
    for (leaves, nodes, pins, heights, inactive) in BELT {
        assert!(rt; are_pins(leaves, pins) && are_heights(leaves, heights) && leaves <= 11);
        let location = Location::<Mmb>::new(leaves);
        assert!(rt; Mmb::location_to_position(location).as_u64() == nodes);
        assert!(rt; Mmb::leaves_at(Position::new(nodes)) == Some(location));
        assert!(rt; Mmb::to_nearest_size(Position::new(nodes)).as_u64() == nodes);
        assert!(rt; Mmb::inactive_peaks(location, Location::new(8)) == inactive);
    }
    assert!(rt; Mmb::leaves_at(Position::new(2)).is_none());
}
