//! Works on compact databases in memory, each of whose batches has one value and is committed.
//!
//! `bench_compact WORK LAST COUNT` makes one of 100,000 states, that of no batch among them, prunes it to the witnesses
//! of the last LAST, and does COUNT times what the first word says:
//!
//! | word | work |
//! |---|---|
//! | `apply` | ten batches, and a prune that keeps the witnesses of the last LAST states |
//! | `prune` | such a prune alone |
//! | `count` | as `apply`, and then prints how many of how many states have their witness kept |
//! | `serve` | the next of these states is served, all but the last in turn |
//! | `find` | the next of their witnesses is looked up, all but the last in turn |
//!
//! Behind the states that are kept `count` prints how many calls of the volume the oldest of the last LAST takes to be
//! served.
//!
//! `bench_compact grow BATCHES` makes a database of so many batches, and `bench_compact hash BATCHES` only calls
//! SHA-256, as often and over as many blocks, and prints a byte of the last digest. With other arguments it does
//! nothing.
#![tactic(auto)]

ghost use Rattle.std.specs.Prelude.{◌≤◌};

mod databases;
mod hashes;

use crate::databases::{BLOB, Kept};
use crate::hashes::hash_all;
use codec_base::CodecError;
use std::alloc::{AllocError, AllocFailed, Global};
use std::{env, io};
use volume_base::VolumeError;

/// How many batches a database has before it is measured.
const BATCHES: u64 = 99999;

/// Why the work wasn't done.
#[derive(Debug, Drop)]
pub enum BenchError {
    Database,
    Memory,
    Outside,
}

impl<F> From<chain_core::Error<F>> for BenchError {
    fn from(_: chain_core::Error<F>) -> Self {
        BenchError::Database
    }
}

impl From<VolumeError> for BenchError {
    fn from(_: VolumeError) -> Self {
        BenchError::Database
    }
}

impl From<CodecError> for BenchError {
    fn from(_: CodecError) -> Self {
        BenchError::Memory
    }
}

impl From<AllocError> for BenchError {
    fn from(_: AllocError) -> Self {
        BenchError::Memory
    }
}

impl<T: Drop> From<AllocFailed<T>> for BenchError {
    fn from(_: AllocFailed<T>) -> Self {
        BenchError::Memory
    }
}

impl From<io::Error> for BenchError {
    fn from(_: io::Error) -> Self {
        BenchError::Outside
    }
}

/// These and so many batches more.
fn grown(alloc: Global, mut kept: Kept, batches: u64) -> Result<Kept, BenchError> {
    for _ in 0..batches {
        kept = kept.grown(alloc)?;
    }
    Ok(kept)
}

/// These after so many rounds, each of so many batches and of a prune that keeps the witnesses of the last so many
/// states.
fn after_rounds(
    alloc: Global,
    mut kept: Kept,
    last: u64,
    rounds: u64,
    batches: u64,
) -> Result<Kept, BenchError> {
    for _ in 0..rounds {
        kept = grown(alloc, kept, batches)?.pruned(last)?;
    }
    Ok(kept)
}

/// How many batches the state has that comes next behind so many of the last so many: the last of all is left out, and
/// behind the one before it the oldest comes again.
fn next_state(kept: &Kept, last: u64, behind: u64) -> u64 {
    let stored = last.saturating_sub(1).max(1);
    kept.before_last(last).saturating_add(behind % stored)
}

/// Serves so many of the last so many states, one after another.
fn serve_all(mut kept: Kept, last: u64, serves: u64) -> Result<(), BenchError> {
    for behind in 0..serves {
        let batches = next_state(&kept, last, behind);
        kept.serve(batches)?;
    }
    Ok(())
}

/// Looks up so many witnesses of the last so many states, one after another.
fn find_all(mut kept: Kept, last: u64, look_ups: u64) -> Result<(), BenchError> {
    for behind in 0..look_ups {
        let batches = next_state(&kept, last, behind);
        kept.look_up(batches)?;
    }
    Ok(())
}

/// Prints how many of the states have their witness kept, and how many calls of the volume the oldest of the last so
/// many takes to be served.
fn print_counts(rt: &impl Print, mut kept: Kept, last: u64) -> Result<(), BenchError> {
    let states = kept.states();
    let oldest = kept.before_last(last);
    let count = kept.count()?;
    let calls = kept.calls_of_serve(oldest)?;
    println!(rt; "{count} of {states} witnesses, {calls} calls")?;
    Ok(())
}

/// Does so many times what a word says, on a database that keeps the witnesses of the last so many states.
fn work(
    rt: &impl Print,
    alloc: Global,
    word: &str,
    last: u64,
    count: u64,
) -> Result<(), BenchError> {
    let kept = grown(alloc, Kept::new(alloc)?, BATCHES)?.pruned(last)?;
    match word {
        "apply" => {
            after_rounds(alloc, kept, last, count, BLOB)?;
            Ok(())
        }
        "prune" => {
            after_rounds(alloc, kept, last, count, 0)?;
            Ok(())
        }
        "count" => print_counts(rt, after_rounds(alloc, kept, last, count, BLOB)?, last),
        "serve" => serve_all(kept, last, count),
        "find" => find_all(kept, last, count),
        _ => Ok(()),
    }
}

/// Does what a word says of so many batches alone.
fn work_alone(rt: &impl Print, alloc: Global, word: &str, batches: u64) -> Result<(), BenchError>
    requires { batches ≤ 1000000 }
{
    match word {
        "grow" => {
            grown(alloc, Kept::new(alloc)?, batches)?;
        }
        "hash" => println!(rt; "{}", hash_all(batches)[0])?,
        _ => {}
    }
    Ok(())
}

/// The number that a word is; 0 where it is none.
fn number(word: &str) -> u64 {
    word.parse::<u64>().unwrap_or(0)
}

fn main(rt: HostRuntime) -> Result<(), BenchError> {
    let alloc = rt.alloc();
    let mut words = env::args(&rt)?.skip(1);
    let (Some(word), Some(first)) = (words.next(), words.next()) else {
        return Ok(());
    };
    let first = number(first.as_str());
    match words.next() {
        Some(second) => work(&rt, alloc, word.as_str(), first, number(second.as_str())),
        None => work_alone(&rt, alloc, word.as_str(), first.min(1000000)),
    }
}
