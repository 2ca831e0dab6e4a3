//! At which end a journal is opened, and why at none.
use crate::error::TableError;
use crate::stores::{
    Opened, Store, at_last_match, at_most, first_items, first_leaves, hasher, items, piece,
};
use auth_journal::{Error, Journal};
use memory_volume::MemoryVolume;
use std::alloc::Global;
use tree_core::{Digest, Family, Location, Sha256Hasher};
use volume_base::Volume;

/// The number of items.
const ITEMS: u8 = 5;

/// Items 0 and 3 match.
const TWO: u64 = 9;

/// Writes items into an empty volume, of which all match for the opening, and prunes them below a number.
fn write<F: Family, C: Store>(
    alloc: Global,
    vol: &mut MemoryVolume,
    count: u8,
    mask: u64,
    pruned: u8,
) -> Result<(), TableError> {
    let journal = at_last_match::<F, C>(alloc, vol)??;
    let items = items::<C>(alloc, 0, count, mask)?;
    let (journal, _) = journal.append_many(vol, &items)?;
    let synced = journal.sync(vol)?;
    let (_, _) = synced.prune(vol, Location::new(u64::from(pruned)))?;
    Ok(())
}

/// Prints the size and the root of what is opened, or why nothing is.
fn print_opened<F: Family, C: Store>(
    rt: &impl Print,
    alloc: Global,
    opened: Opened<F, C>,
) -> Result<(), TableError> {
    match opened {
        Ok(journal) => {
            let root = hex::encode(alloc, journal.root(0)?.as_slice())?;
            println!(rt; "{} {root}", journal.size().as_u64())?;
        }
        Err(error) => println!(rt; "{error:?}")?,
    }
    Ok(())
}

/// Prints the last item of an append, or why nothing is appended.
fn print_appended<F: Family, C: Store>(
    rt: &impl Print,
    appended: Result<(Journal<F, C, Sha256Hasher>, u64), Error<F>>,
) -> Result<(), TableError> {
    match appended {
        Ok(made) => println!(rt; "and {} is the last", made.1)?,
        Err(error) => println!(rt; "and of nothing: {error:?}")?,
    }
    Ok(())
}

/// Opens at the last match, then what that leaves at the last match under a cap, and appends nothing.
fn print_twice<F: Family, C: Store>(
    rt: &impl Print,
    alloc: Global,
    name: &str,
) -> Result<(), TableError> {
    let mut vol = MemoryVolume::new(alloc);
    write::<F, C>(alloc, &mut vol, ITEMS, TWO, 0)?;
    print!(rt; "{name} of five, 0 and 3 match: ")?;
    print_opened::<F, C>(rt, alloc, at_last_match(alloc, &mut vol)?)?;
    print!(rt; "  then at most 3: ")?;
    let opened = at_most::<F, C>(alloc, &mut vol, 3)??;
    print!(rt; "{}, ", opened.size().as_u64())?;
    let nothing = items::<C>(alloc, 0, 0, 0)?;
    let appended = opened.append_many(&mut vol, &nothing);
    print_appended(rt, appended)
}

/// Opens a pruned log without a match.
fn print_none<F: Family, C: Store>(
    rt: &impl Print,
    alloc: Global,
    name: &str,
) -> Result<(), TableError> {
    let mut vol = MemoryVolume::new(alloc);
    write::<F, C>(alloc, &mut vol, 3, 3, 2)?;
    print!(rt; "{name} of three, pruned to 2, where 0 and 1 match: ")?;
    print_opened::<F, C>(rt, alloc, at_last_match(alloc, &mut vol)?)
}

/// Opens a log at the last match under each cap.
fn print_capped<F: Family, C: Store>(
    rt: &impl Print,
    alloc: Global,
    vol: &MemoryVolume,
) -> Result<(), TableError> {
    for cap in 0..ITEMS + 2 {
        let mut copy = vol.crash(&[])?;
        print!(rt; "  at most {cap}: ")?;
        print_opened::<F, C>(rt, alloc, at_most(alloc, &mut copy, u64::from(cap))?)?;
    }
    Ok(())
}

/// Opens at the last match under each cap, of each pruned log of five items with these matches.
fn print_matches<F: Family, C: Store>(
    rt: &impl Print,
    alloc: Global,
    name: &str,
    mask: u64,
) -> Result<(), TableError> {
    for pruned in [0, 2, 4] {
        let mut vol = MemoryVolume::new(alloc);
        write::<F, C>(alloc, &mut vol, ITEMS, mask, pruned)?;
        print!(rt;
            "{name} matches {mask}, pruned to {}: ",
            vol.log_bounds("items")?.0
        )?;
        let mut copy = vol.crash(&[])?;
        print_opened::<F, C>(rt, alloc, at_last_match(alloc, &mut copy)?)?;
        print_capped::<F, C>(rt, alloc, &vol)?;
    }
    Ok(())
}

/// A tree of so many leaves, beside a log of so many items: both of five items, of which none matches.
fn joined<F: Family, C: Store>(
    alloc: Global,
    leaves: u8,
    count: u8,
) -> Result<Opened<F, C>, TableError> {
    let mut vol = MemoryVolume::new(alloc);
    write::<F, C>(alloc, &mut vol, ITEMS, 0, 0)?;
    let tree = first_leaves::<F>(alloc, &mut vol, leaves)?;
    let log = first_items::<C>(alloc, &mut vol, count)?;
    let piece = piece()?;
    Ok(Journal::from_components(alloc, &mut vol, tree, log, hasher(), piece))
}

fn print_joined_to<F: Family, C: Store>(
    rt: &impl Print,
    alloc: Global,
    name: &str,
    leaves: u8,
) -> Result<(), TableError> {
    for count in 0..5 {
        print!(rt; "{name} of {leaves} leaves and {count} items: ")?;
        print_opened::<F, C>(rt, alloc, joined(alloc, leaves, count)?)?;
    }
    Ok(())
}

fn print_joined<F: Family, C: Store>(
    rt: &impl Print,
    alloc: Global,
    name: &str,
) -> Result<(), TableError> {
    for leaves in 0..5 {
        print_joined_to::<F, C>(rt, alloc, name, leaves)?;
    }
    Ok(())
}

/// Prints the ends.
pub(crate) fn print_rows<F: Family, C: Store>(
    rt: &impl Print,
    alloc: Global,
    name: &str,
) -> Result<(), TableError> {
    print_twice::<F, C>(rt, alloc, name)?;
    print_none::<F, C>(rt, alloc, name)?;
    for mask in [0, 1, 4, 8, TWO, 20, 31] {
        print_matches::<F, C>(rt, alloc, name, mask)?;
    }
    print_joined::<F, C>(rt, alloc, name)
}
