//! Roots of lists of commits without metadata, made by `tools/expected.py`.
use codec_base::{Bytes, LengthCfg};
use log_model::{encodings_law, floor_of_operations, no_clash_law, push_leaves, root_of_leaves};
use op_codec::{VariableEncoding, keyless};
use std::alloc::Global;
use std::test::Fail;
use tree_shape::{Bagging, Digest, Location, Mmr, Sha256Digest, Sha256Hasher, Standard};

type Words = keyless::Operation<Mmr, VariableEncoding<Bytes>>;

/// Floors of a list of commits in two parts, the last of them, and the root.
const ROWS: [(&[u64], &[u64], u64, &str); 5] = [
    (
        &[],
        &[],
        0,
        "45f3cfb357f285c8d854597a1d23a2341dee97573b541d46bc211c40f33526eb",
    ),
    (
        &[0],
        &[],
        0,
        "6e44d9af463dbbdb8e26fef511895e0a348e2bd099ab0f45425db61c3bd543cc",
    ),
    (
        &[7],
        &[7, 3],
        3,
        "8632c258bba4d45abb0096c372699b277affa9a294cf16a3601a8bb9cbe6a5b7",
    ),
    (
        &[7, 7],
        &[2],
        2,
        "d5b3d84de597e2784e300f3bb329570a04d01f374a24decf3afacf9dbc25d036",
    ),
    (
        &[1, 2, 3],
        &[4, 5],
        5,
        "d08217a861a06c365088ea066e51bd8a6b1e89335968d1c20229558d9c15583d",
    ),
];

/// Adds the leaves of commits of these floors.
fn push_commits(
    alloc: Global,
    leaves: &mut Vec<Sha256Digest>,
    floors: &[u64],
) -> Result<u64, Fail> {
    let hasher = Standard::<Sha256Hasher>::new(Bagging::ForwardFold);
    let mut operations = Vec::new(alloc);
    for floor in floors {
        operations.push(Words::Commit(None, Location::new(*floor)))?;
    }
    if leaves.len() >= 100 || operations.len() >= 100 {
        return Err("a long list".into());
    }
    push_leaves::<Mmr, Sha256Hasher, Words>(alloc, &hasher, leaves, &operations)?;
    Ok(floor_of_operations(&operations))
}

/// The root of leaves.
fn root_of(alloc: Global, leaves: &[Sha256Digest], floor: u64) -> Result<Sha256Digest, Fail> {
    if leaves.len() >= 100 {
        return Err("a long list".into());
    }
    Ok(root_of_leaves::<Mmr, Sha256Hasher, Words>(alloc, leaves, floor)?)
}

#[test]
fn roots_of_lists_in_two_parts(rt: HostRuntime) -> Result<(), Fail> {
    let alloc = rt.alloc();
    for (first, others, floor, want) in ROWS {
        let mut leaves = Vec::new(alloc);
        let one = push_commits(alloc, &mut leaves, first)?;
        let two = push_commits(alloc, &mut leaves, others)?;
        assert_eq!(rt; if others.is_empty() { one } else { two }, floor);
        let root = root_of(alloc, &leaves, floor)?;
        assert_eq!(rt; hex::encode(alloc, root.as_slice())?.as_str(), want);
    }
    encodings_law::<Mmr, Sha256Hasher, Words>();
    no_clash_law::<Mmr, Sha256Hasher, Words>(&LengthCfg { max: 4 });
    Ok(())
}
