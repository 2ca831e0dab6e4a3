//! Seals and applies as many batches of four values as the argument says to a full database in memory, and prints its root. With the
//! word `hashes` it only calls SHA-256, as often and over as many blocks, and prints the last digest. With no argument it prints
//! nothing.
#![tactic(auto)]

ghost use Rattle.std.specs.Prelude.{◌≤◌};

mod databases;
mod hashes;

use crate::databases::Kept;
use crate::hashes::hash_all;
use codec_base::CodecError;
use std::alloc::{AllocError, Global};
use std::{env, io};
use tree_core::{Digest, Mmr};

/// Why the work wasn't done.
#[derive(Debug, Drop)]
pub enum BenchError {
    Database,
    Memory,
    Outside,
}

impl From<chain_core::Error<Mmr>> for BenchError {
    fn from(_: chain_core::Error<Mmr>) -> Self {
        BenchError::Database
    }
}

impl From<CodecError> for BenchError {
    fn from(_: CodecError) -> Self {
        BenchError::Memory
    }
}

impl From<AllocError> for BenchError {
    fn from(_: AllocError) -> Self {
        BenchError::Memory
    }
}

impl From<io::Error> for BenchError {
    fn from(_: io::Error) -> Self {
        BenchError::Outside
    }
}

/// A database with so many batches.
fn database_of(alloc: Global, batches: u64) -> Result<Kept, BenchError> {
    let mut kept = Kept::new(alloc)?;
    for _ in 0..batches {
        kept = kept.grown(alloc)?;
    }
    Ok(kept)
}

/// The work of so many batches, in hexadecimal.
fn work(alloc: Global, batches: u64, alone: bool) -> Result<String, BenchError>
    requires { batches ≤ 1000000 }
{
    if alone {
        Ok(hex::encode(alloc, &hash_all(batches))?)
    } else {
        Ok(hex::encode(alloc, database_of(alloc, batches)?.root().as_slice())?)
    }
}

fn main(rt: HostRuntime) -> Result<(), BenchError> {
    let mut alone = false;
    let mut batches = None;
    for word in env::args(&rt)? {
        if word.as_str() == "hashes" {
            alone = true;
        }
        if let Ok(number) = word.as_str().parse::<u64>() {
            batches = Some(number);
        }
    }
    if let Some(number) = batches {
        let last = work(rt.alloc(), number.min(1000000), alone)?;
        println!(rt; "{last}")?;
    }
    Ok(())
}
