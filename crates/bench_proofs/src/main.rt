//! Times proofs in a tree in memory of as many leaves as the argument says, each of 10,000 of a kind alone, and prints the median
//! of each kind in nanoseconds: of one leaf, of all leaves, and of a range drawn anew for each proof. With no argument it prints
//! nothing.
#![tactic(auto)]

mod draws;
mod timing;

use crate::timing::time_all;
use std::alloc::{AllocError, AllocFailed};
use std::{env, io};
use tree_core::{Error, Mmr};

/// Why the work wasn't done.
#[derive(Debug, Drop)]
pub enum BenchError {
    Tree,
    Memory,
    Outside,
}

impl From<Error<Mmr>> for BenchError {
    fn from(_: Error<Mmr>) -> Self {
        BenchError::Tree
    }
}

impl From<AllocError> for BenchError {
    fn from(_: AllocError) -> Self {
        BenchError::Memory
    }
}

impl<T: Drop> From<AllocFailed<T>> for BenchError {
    fn from(_: AllocFailed<T>) -> Self {
        BenchError::Memory
    }
}

impl From<io::Error> for BenchError {
    fn from(_: io::Error) -> Self {
        BenchError::Outside
    }
}

fn main(rt: HostRuntime) -> Result<(), BenchError> {
    for word in env::args(&rt)? {
        if let Ok(leaves) = word.as_str().parse::<u64>() {
            let medians = time_all(&rt, rt.alloc(), leaves.clamp(1, 16777216))?;
            println!(rt; "one leaf {} ns", medians.one_leaf)?;
            println!(rt; "all leaves {} ns", medians.all_leaves)?;
            println!(rt; "any range {} ns", medians.any_range)?;
        }
    }
    Ok(())
}
