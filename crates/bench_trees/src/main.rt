//! Appends as many leaves as the argument says to a tree in memory, in batches of ten with a root for each, and prints the
//! last root. With the word `hashes` it only calls SHA-256, as often and over as many bytes, and prints the last digest.
//! With no argument it prints nothing.
#![tactic(auto)]

ghost use Rattle.std.specs.Prelude.{◌≤◌};

mod appends;
mod hashes;

use crate::appends::append_all;
use crate::hashes::hash_all;
use std::alloc::{AllocError, Global};
use std::{env, io};
use tree_core::{Digest, Error, Mmr};

/// Why the work wasn't done.
#[derive(Debug, Drop)]
enum BenchError {
    Tree,
    Memory,
    Outside,
}

impl From<Error<Mmr>> for BenchError {
    fn from(_: Error<Mmr>) -> Self {
        BenchError::Tree
    }
}

impl From<AllocError> for BenchError {
    fn from(_: AllocError) -> Self {
        BenchError::Memory
    }
}

impl From<io::Error> for BenchError {
    fn from(_: io::Error) -> Self {
        BenchError::Outside
    }
}

/// The work of so many batches, in hexadecimal.
fn work(alloc: Global, batches: u64, alone: bool) -> Result<String, BenchError>
    requires { batches ≤ 1000000 }
{
    if alone {
        Ok(hex::encode(alloc, &hash_all(batches))?)
    } else {
        Ok(hex::encode(alloc, append_all(alloc, batches)?.as_slice())?)
    }
}

fn main(rt: HostRuntime) -> Result<(), BenchError> {
    let mut appends = 100;
    let mut alone = false;
    let mut told = false;
    for word in env::args(&rt)? {
        if word.as_str() == "hashes" {
            alone = true;
        }
        if let Ok(number) = word.as_str().parse::<u64>() {
            appends = number;
            told = true;
        }
    }
    let last = work(rt.alloc(), appends.min(10000000) / 10, alone)?;
    if told {
        println!(rt; "{last}")?;
    }
    Ok(())
}
