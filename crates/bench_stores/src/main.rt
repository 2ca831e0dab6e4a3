//! Keeps witnesses in stores in memory. The arguments say how many each store keeps, how many stores are made one after another,
//! and how many look-ups are made in one more. Prints how many calls of the volume the longest look-up makes. With other arguments
//! it prints nothing.
#![tactic(auto)]

mod witnesses;

use crate::witnesses::Witnesses;
use codec_base::CodecError;
use std::alloc::{AllocError, AllocFailed, Global};
use std::{env, io};
use volume_base::{JournalError, VolumeError};

/// Why the work wasn't done.
#[derive(Debug, Drop)]
pub enum BenchError {
    Store,
    Memory,
    Outside,
}

impl From<JournalError> for BenchError {
    fn from(_: JournalError) -> Self {
        BenchError::Store
    }
}

impl From<VolumeError> for BenchError {
    fn from(_: VolumeError) -> Self {
        BenchError::Store
    }
}

impl From<CodecError> for BenchError {
    fn from(_: CodecError) -> Self {
        BenchError::Memory
    }
}

impl From<AllocError> for BenchError {
    fn from(_: AllocError) -> Self {
        BenchError::Memory
    }
}

impl<T: Drop> From<AllocFailed<T>> for BenchError {
    fn from(_: AllocFailed<T>) -> Self {
        BenchError::Memory
    }
}

impl From<io::Error> for BenchError {
    fn from(_: io::Error) -> Self {
        BenchError::Outside
    }
}

/// A store of so many witnesses, each committed.
fn store_of(alloc: Global, kept: u64) -> Result<Witnesses, BenchError> {
    let mut witnesses = Witnesses::new(alloc)?;
    for count in 0..kept {
        witnesses = witnesses.with(count + 1)?;
    }
    Ok(witnesses)
}

/// Makes so many stores.
fn make_stores(alloc: Global, kept: u64, stores: u64) -> Result<(), BenchError> {
    for _ in 0..stores {
        store_of(alloc, kept)?;
    }
    Ok(())
}

/// Makes so many stores, and in one more so many look-ups, of one witness after another. It gives the calls of the volume that the
/// look-up of the first makes.
fn work(alloc: Global, kept: u64, stores: u64, finds: u64) -> Result<u64, BenchError> {
    make_stores(alloc, kept, stores)?;
    let mut witnesses = store_of(alloc, kept)?;
    for count in 0..finds {
        witnesses.find(count % kept.max(1) + 1)?;
    }
    witnesses.calls_of_find(1)
}

fn main(rt: HostRuntime) -> Result<(), BenchError> {
    let mut numbers = Vec::new(rt.alloc());
    for word in env::args(&rt)? {
        if let Ok(number) = word.as_str().parse::<u64>() {
            numbers.push(number)?;
        }
    }
    if let [kept, stores, finds] = numbers.as_slice() {
        let calls = work(rt.alloc(), *kept, *stores, *finds)?;
        println!(rt; "{calls} calls")?;
    }
    Ok(())
}
