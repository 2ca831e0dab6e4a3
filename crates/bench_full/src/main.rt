//! Appends as many leaves as the argument says to a tree in a volume in memory, in batches of ten, each flushed. With the word `memory`
//! it appends them to a tree in memory alone. With no argument it does nothing.
#![tactic(auto)]

mod trees;

use crate::trees::{append_alone, append_flushed};
use std::alloc::{AllocError, Global};
use std::{env, io};
use tree_core::{Error, Mmr};

/// Why the work wasn't done.
#[derive(Debug, Drop)]
pub enum BenchError {
    Tree,
    Memory,
    Outside,
}

impl From<Error<Mmr>> for BenchError {
    fn from(_: Error<Mmr>) -> Self {
        BenchError::Tree
    }
}

impl From<AllocError> for BenchError {
    fn from(_: AllocError) -> Self {
        BenchError::Memory
    }
}

impl From<io::Error> for BenchError {
    fn from(_: io::Error) -> Self {
        BenchError::Outside
    }
}

/// Appends so many batches of ten leaves, and gives the leaves that there are then.
fn work(alloc: Global, batches: u64, alone: bool) -> Result<u64, BenchError> {
    if alone {
        append_alone(alloc, batches)
    } else {
        append_flushed(alloc, batches)
    }
}

fn main(rt: HostRuntime) -> Result<(), BenchError> {
    let mut alone = false;
    let mut leaves = None;
    for word in env::args(&rt)? {
        if word.as_str() == "memory" {
            alone = true;
        }
        if let Ok(number) = word.as_str().parse::<u64>() {
            leaves = Some(number);
        }
    }
    if let Some(number) = leaves {
        let made = work(rt.alloc(), number / 10, alone)?;
        println!(rt; "{made} leaves")?;
    }
    Ok(())
}
