//! Proofs from outside, whose digests another program's SHA-256 made.
use codec_base::{Bytes, ListOf, decode};
use std::alloc::Global;
use std::test::Fail;
use tree_proof::{
    Proof, cover_count_law, one_root_law, slow_pins_law, slow_proof_law, verify,
    verify_proof_and_pinned_nodes,
};
use tree_shape::{Bagging, Family, Location, Mmb, Mmr, Sha256Digest, Sha256Hasher, Standard};

const LEFT: &str = "77a56596481d6e223f4b82b9dc1402b0a004f19cbf4fbe02da4ba7fb7ce657af";

const THIRD: &str = "73d46843b19c7111c55ca379c6861d1dc0865c7d837ebbf8bcbc2d9d7c1b88e9";

const PAIR: &str = "10ec09f65581c8201a67acc6ecacc4eaf099309fc1dd655984e4d08685f226f8";

/// The belt's node over the third and the fourth leaf, and that over the first four.
const SECOND: &str = "56deee5775d0d97ee6fd377ee79262dad7958009cbca6c558a3ead8de88d3ba2";

const FOUR: &str = "b297b35062d44dc4edd4fa8fef8ee096315d96be25beca969ea2fa916b60da9a";

const THREE: &str = "cd47e813e70d3bb756a63e703b11d902442709b549edbea6a2de58179e962d05";

const FIVE: &str = "6fdf8ad9b6891b470c2c6f66e8dbd1cf307c0c956baa440192c91fabf7d07c31";

fn digest(alloc: Global, text: &str) -> Result<Sha256Digest, Fail> {
    let bytes = hex::decode(alloc, text)?;
    Ok(decode::<Sha256Digest>(alloc, bytes.as_slice(), &())?)
}

fn digests(alloc: Global, texts: &[&str]) -> Result<Vec<Sha256Digest>, Fail> {
    let mut all = Vec::new(alloc);
    for text in texts {
        all.push(digest(alloc, text)?)?;
    }
    Ok(all)
}

/// What a proof is given: whether the fold is from the left, leaves, inactive peaks and root of the tree, the first leaf, the
/// letters from it on, and the digests.
type Row = (
    bool,
    (u64, u64, &'static str),
    u64,
    &'static [u8],
    &'static [&'static str],
);

/// The way to fold, from the left or not.
fn hasher(forward: bool) -> Standard<Sha256Hasher> {
    Standard::new(if forward {
        Bagging::ForwardFold
    } else {
        Bagging::BackwardFold
    })
}

fn elements(alloc: Global, letters: &[u8]) -> Result<Vec<Bytes>, Fail> {
    let mut elements = Vec::new(alloc);
    for letter in letters {
        elements.push(Bytes::from_slice(alloc, &[*letter])?)?;
    }
    Ok(elements)
}

fn proof<F: Family>(
    alloc: Global,
    leaves: u64,
    inactive_peaks: u64,
    texts: &[&str],
) -> Result<Proof<F, Sha256Digest>, Fail> {
    Ok(Proof {
        leaves: Location::new(leaves),
        inactive_peaks,
        digests: ListOf::from_vec(digests(alloc, texts)?),
    })
}

/// Whether a row's letters are shown.
fn shown<F: Family>(alloc: Global, row: Row) -> Result<bool, Fail> {
    let (forward, (leaves, inactive, root), start, letters, texts) = row;
    let root = digest(alloc, root)?;
    let proof = proof::<F>(alloc, leaves, inactive, texts)?;
    let elements = elements(alloc, letters)?;
    let start = Location::new(start);
    Ok(verify(alloc, &hasher(forward), &proof, start, &elements, &root)?)
}

const ACCEPTED: [Row; 3] = [
    (true, (3, 0, THREE), 1, b"bc", &[LEFT]),
    (true, (3, 0, THREE), 1, b"b", &[LEFT, THIRD]),
    (true, (3, 0, THREE), 0, b"abc", &[]),
];

const REFUSED: [Row; 15] = [
    // Another start, other letters, none, more than there are leaves.
    (true, (3, 0, THREE), 0, b"bc", &[THIRD]),
    (true, (3, 0, THREE), 1, b"cb", &[LEFT]),
    (true, (3, 0, THREE), 1, b"", &[LEFT, THIRD]),
    (true, (3, 0, THREE), 1, b"bcd", &[LEFT]),
    (true, (3, 0, THREE), u64::MAX, b"bc", &[LEFT]),
    // A digest too few, one too many, another.
    (true, (3, 0, THREE), 1, b"b", &[LEFT]),
    (true, (3, 0, THREE), 1, b"bc", &[LEFT, THIRD]),
    (true, (3, 0, THREE), 1, b"bc", &[THIRD]),
    // Another count of leaves, of inactive peaks, another fold, another family's tree, another root.
    (true, (4, 0, THREE), 1, b"bc", &[LEFT]),
    (true, (u64::MAX, 0, THREE), 1, b"bc", &[LEFT]),
    (true, (3, 1, THREE), 1, b"bc", &[LEFT]),
    (true, (3, 9, THREE), 1, b"bc", &[LEFT]),
    (false, (3, 0, THREE), 1, b"bc", &[LEFT]),
    (true, (5, 1, FIVE), 3, b"de", &[PAIR, THIRD]),
    (true, (3, 0, FIVE), 1, b"bc", &[LEFT]),
];

#[test]
fn other_proofs_are_refused(rt: HostRuntime) -> Result<(), Fail> {
    for row in REFUSED {
        assert!(rt; !shown::<Mmr>(rt.alloc(), row)?);
    }
    Ok(())
}

#[test]
fn proofs_from_outside_are_accepted(rt: HostRuntime) -> Result<(), Fail> {
    for row in ACCEPTED {
        assert!(rt; shown::<Mmr>(rt.alloc(), row)?);
    }
    let belt: Row = (false, (5, 1, FIVE), 3, b"de", &[PAIR, THIRD]);
    assert!(rt; shown::<Mmb>(rt.alloc(), belt)?);
    Ok(())
}

/// Whether a letter is shown to stand behind these pins, in the belt of five leaves.
fn shown_behind(alloc: Global, cover: &str, pins: &[&str]) -> Result<bool, Fail> {
    let root = digest(alloc, FIVE)?;
    let proof = proof::<Mmb>(alloc, 5, 1, &[cover])?;
    let elements = elements(alloc, b"e")?;
    let pins = digests(alloc, pins)?;
    let start = Location::new(4);
    Ok(verify_proof_and_pinned_nodes(
        alloc,
        &hasher(false),
        &proof,
        start,
        &elements,
        &pins,
        &root,
    )?)
}

/// A cover of one digest, pins, and whether these hash to it.
const PINS: [(&str, &[&str], bool); 7] = [
    (FOUR, &[PAIR, SECOND], true),
    // Another order, one twice, one too few, one too many, the node of the cover itself, another cover.
    (FOUR, &[SECOND, PAIR], false),
    (FOUR, &[PAIR, PAIR], false),
    (FOUR, &[PAIR], false),
    (FOUR, &[PAIR, SECOND, SECOND], false),
    (FOUR, &[FOUR], false),
    (PAIR, &[PAIR, SECOND], false),
];

#[test]
fn pins_hash_to_the_cover(rt: HostRuntime) -> Result<(), Fail> {
    for (cover, pins, want) in PINS {
        assert_eq!(rt; shown_behind(rt.alloc(), cover, pins)?, want);
    }
    Ok(())
}

#[test]
fn laws_hold_at_both_families(_rt: HostRuntime) {
    slow_proof_law::<Mmr, Sha256Hasher>();
    slow_proof_law::<Mmb, Sha256Hasher>();
    cover_count_law::<Mmr, Sha256Hasher>();
    cover_count_law::<Mmb, Sha256Hasher>();
    slow_pins_law::<Mmr, Sha256Hasher>();
    slow_pins_law::<Mmb, Sha256Hasher>();
    one_root_law::<Mmr, Sha256Hasher>();
    one_root_law::<Mmb, Sha256Hasher>();
}
