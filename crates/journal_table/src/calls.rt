//! A journal as any log of items; its proofs; and a log that is made ready for items from a place on.
use crate::error::TableError;
use crate::stores::{Store, at_last_match, items};
use auth_journal::{Journal, init_sync};
use codec_base::{Write, encode};
use journal_base::{Contiguous, Mutable};
use memory_volume::MemoryVolume;
use std::alloc::Global;
use std::num::NonZeroU64;
use tree_core::{Digest, Family, Location, Sha256Hasher};

/// All match.
const ALL: u64 = 31;

/// Prints the bounds of a log.
fn print_bounds<M: Contiguous>(rt: &impl Print, log: &M) -> Result<(), TableError> {
    let (start, end) = log.bounds();
    println!(rt; " {start} to {end}")?;
    Ok(())
}

/// The log with these items, made durable and pruned below a place, as any log of items.
fn driven<M: Mutable>(
    rt: &impl Print,
    vol: &mut MemoryVolume,
    log: M,
    first: &M::Item,
    more: &[M::Item],
) -> Result<M, TableError> {
    let (log, place) = log.append(vol, first)?;
    print!(rt; "  an item at {place}")?;
    let (log, last) = log.append_many(vol, more)?;
    println!(rt; ", more up to {last}")?;
    let log = log.commit(vol)?;
    let log = log.sync(vol)?;
    let (log, ticket) = log.start_sync(vol)?;
    ticket.settle()?;
    let (log, moved) = log.prune(vol, 3)?;
    print!(rt; "  pruned below 3, moved {moved}:")?;
    print_bounds(rt, &log)?;
    Ok(log)
}

/// Prints items by their bytes.
fn print_items<T: Write>(rt: &impl Print, alloc: Global, items: &[T]) -> Result<(), TableError> {
    for item in items {
        print!(rt; " {}", hex::encode(alloc, encode(alloc, item)?.as_slice())?)?;
    }
    Ok(())
}

/// Prints a proof of items, and these.
fn print_items_proof<F: Family, C: Store>(
    rt: &impl Print,
    alloc: Global,
    vol: &mut MemoryVolume,
    journal: &Journal<F, C, Sha256Hasher>,
    start: u64,
) -> Result<(), TableError> {
    let two = NonZeroU64::new(2).ok_or(TableError::Journal)?;
    let (proof, items) = journal.proof(vol, Location::new(start), two, 0)?;
    print!(rt; "  items from {start}:")?;
    print_items(rt, alloc, &items)?;
    print!(rt; " in {} leaves:", proof.leaves.as_u64())?;
    for digest in proof.digests.as_slice() {
        print!(rt; " {}", hex::encode(alloc, digest.as_slice())?)?;
    }
    println!(rt; "")?;
    Ok(())
}

/// Prints a journal as a log of items, and its proofs; and takes it away.
fn print_driven<F: Family, C: Store>(
    rt: &impl Print,
    alloc: Global,
    name: &str,
) -> Result<(), TableError> {
    println!(rt; "{name} as a log")?;
    let mut vol = MemoryVolume::new(alloc);
    let first = C::item(alloc, 0, true)?;
    let more = items::<C>(alloc, 1, 5, ALL)?;
    let journal: Journal<F, C, Sha256Hasher> = at_last_match::<F, C>(alloc, &mut vol)??;
    let journal = driven(rt, &mut vol, journal, &first, &more)?;
    let root = hex::encode(alloc, journal.root(0)?.as_slice())?;
    println!(rt; "  {} items, root {root}", journal.size().as_u64())?;
    print_items_proof(rt, alloc, &mut vol, &journal, 2)?;
    print_items_proof(rt, alloc, &mut vol, &journal, 4)?;
    Mutable::destroy(journal, &mut vol)?;
    let again = at_last_match::<F, C>(alloc, &mut vol)??;
    print!(rt; "  taken away:")?;
    print_bounds(rt, &again)
}

/// Prints the bounds of a log of five items that is made ready for those between two places.
fn print_ready<F: Family, C: Store + Mutable>(
    rt: &impl Print,
    alloc: Global,
    start: u64,
    end: u64,
) -> Result<(), TableError> {
    if start >= end {
        return Err(TableError::Journal);
    }
    let mut vol = MemoryVolume::new(alloc);
    let journal: Journal<F, C, Sha256Hasher> = at_last_match::<F, C>(alloc, &mut vol)??;
    let (journal, _) = journal.append_many(&mut vol, &items::<C>(alloc, 0, 5, ALL)?)?;
    drop(journal.sync(&mut vol)?);
    let ready: C = init_sync(&mut vol, C::settings(alloc)?, start, end)?;
    print!(rt; "  ready for {start} to {end}:")?;
    print_bounds(rt, &ready)
}

/// Prints what a journal is as any log of items, and logs that are made ready.
pub(crate) fn print_calls<F: Family, C: Store + Mutable>(
    rt: &impl Print,
    alloc: Global,
    name: &str,
) -> Result<(), TableError> {
    print_driven::<F, C>(rt, alloc, name)?;
    for (start, end) in [(0, 3), (3, 4), (4, 9), (5, 6), (7, 9)] {
        print_ready::<F, C>(rt, alloc, start, end)?;
    }
    Ok(())
}
