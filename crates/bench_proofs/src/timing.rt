//! How long proofs take.

use crate::BenchError;
use crate::draws::Draws;
use std::alloc::Global;
use std::time::{Clock, Instant};
use tree_core::{Bagging, Error, Location, Mem, Mmr, Sha256Digest, Sha256Hasher, Standard};

/// How many proofs of a kind are timed.
const PROOFS: u64 = 10000;

/// What is proved.
#[derive(Clone, Copy)]
enum Kind {
    OneLeaf,
    AllLeaves,
    AnyRange,
}

/// The median of each kind, in nanoseconds.
#[derive(Drop)]
pub(crate) struct Medians {
    pub(crate) one_leaf: u64,
    pub(crate) all_leaves: u64,
    pub(crate) any_range: u64,
}

/// The tree of so many equal leaves.
fn tree_of(alloc: Global, leaves: u64) -> Result<Mem<Mmr, Sha256Digest>, Error<Mmr>> {
    let hasher = Standard::<Sha256Hasher>::new(Bagging::ForwardFold);
    let mut tree = Mem::new(alloc)?;
    let mut batch = tree.new_batch()?;
    for _ in 0..leaves {
        batch.add(&hasher, &[7u8; 32])?;
    }
    tree.apply_batch(&batch.merkleize(&hasher, 0)?)?;
    Ok(tree)
}

/// The range that is proved next.
fn next_range(kind: Kind, leaves: u64, draws: &mut Draws) -> (Location<Mmr>, Location<Mmr>) {
    let (start, end) = draws.range(leaves);
    match kind {
        Kind::OneLeaf => (start, Location::new(start.as_u64().saturating_add(1))),
        Kind::AllLeaves => (Location::new(0), Location::new(leaves)),
        Kind::AnyRange => (start, end),
    }
}

/// The median time of proofs of a kind, in nanoseconds.
fn median(
    clock: &impl Clock,
    alloc: Global,
    tree: &Mem<Mmr, Sha256Digest>,
    kind: Kind,
) -> Result<u64, BenchError> {
    let leaves = tree.leaves().as_u64();
    let mut draws = Draws::new();
    let mut times = Vec::new(alloc);
    for _ in 0..PROOFS {
        let (start, end) = next_range(kind, leaves, &mut draws);
        let begin = Instant::now(clock)?;
        let proof = tree.range_proof(start, end, 0)?;
        let took = begin.elapsed(clock)?;
        let nanos = u64::try_from(took.as_nanos()).unwrap_or(u64::MAX);
        times.push((nanos, proof.digests.len()))?;
    }
    times.sort_unstable();
    match times.get(times.len() / 2) {
        Some((time, _)) => Ok(*time),
        None => Err(BenchError::Outside),
    }
}

/// The medians of all kinds, in one tree of so many leaves.
pub(crate) fn time_all(
    clock: &impl Clock,
    alloc: Global,
    leaves: u64,
) -> Result<Medians, BenchError> {
    let tree = tree_of(alloc, leaves)?;
    Ok(Medians {
        one_leaf: median(clock, alloc, &tree, Kind::OneLeaf)?,
        all_leaves: median(clock, alloc, &tree, Kind::AllLeaves)?,
        any_range: median(clock, alloc, &tree, Kind::AnyRange)?,
    })
}
