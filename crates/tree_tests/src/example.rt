//! The lines that README shows: append, seal, prove, verify.
use codec_base::Bytes;
use std::alloc::Global;
use std::test::Fail;
use tree_core::{Bagging, Location, Mem, Mmr, Sha256Digest, Sha256Hasher, Standard, verify};

/// Whether the proof of the second element shows it, and whether it shows another in its place.
fn shown(alloc: Global) -> Result<(bool, bool), Fail> {
    let hasher = Standard::<Sha256Hasher>::new(Bagging::ForwardFold);
    let mut log = Mem::<Mmr, Sha256Digest>::new(alloc)?;
    let mut batch = log.new_batch()?;
    batch.add(&hasher, b"first")?;
    batch.add(&hasher, b"second")?;
    log.apply_batch(&batch.merkleize(&hasher, 0)?)?;
    let root = log.root(&hasher, 0)?;
    let at = Location::new(1);
    let proof = log.range_proof(at, Location::new(2), 0)?;
    let elements = [Bytes::from_slice(alloc, b"second")?];
    let others = [Bytes::from_slice(alloc, b"other")?];
    let is_shown = verify(alloc, &hasher, &proof, at, &elements, &root)?;
    let is_other = verify(alloc, &hasher, &proof, at, &others, &root)?;
    Ok((is_shown, is_other))
}

#[test]
fn the_example_of_the_readme(rt: HostRuntime) -> Result<(), Fail> {
    assert!(rt; shown(rt.alloc())? == (true, false));
    Ok(())
}
