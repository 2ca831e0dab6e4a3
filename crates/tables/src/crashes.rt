//! The image of a log that each choice of a crash picks after a small history.
use crate::error::TableError;
use codec_base::Bytes;
use memory_volume::{LogChoice, MemoryVolume};
use std::alloc::Global;
use volume_base::Volume;

/// Appends an item for each of these bytes.
fn append<V: Volume>(alloc: Global, vol: &mut V, bytes: &[u8]) -> Result<(), TableError> {
    let mut items = Vec::new(alloc);
    for byte in bytes {
        items.push(Bytes::from_slice(alloc, &[*byte])?)?;
    }
    let (_, end) = vol.log_bounds("a")?;
    if end < 100 && items.len() < 100 {
        vol.log_append("a", &items)?;
    }
    Ok(())
}

/// Three items that are synced, and behind them an append, a cut, another append and a prune.
fn history<V: Volume>(alloc: Global, vol: &mut V) -> Result<(), TableError> {
    append(alloc, vol, &[1, 2, 3])?;
    vol.log_sync("a")?;
    append(alloc, vol, &[4, 5])?;
    let (start, end) = vol.log_bounds("a")?;
    if start <= 4 && 4 <= end {
        vol.log_cut("a", 4)?;
    }
    append(alloc, vol, &[6])?;
    let (start, end) = vol.log_bounds("a")?;
    if start <= 1 && 1 <= end {
        vol.log_prune("a", 1)?;
    }
    Ok(())
}

/// Prints the bytes of an item.
fn print_item(rt: &impl Print, item: &[u8]) -> Result<(), TableError> {
    for byte in item {
        print!(rt; " {byte}")?;
    }
    Ok(())
}

/// Prints a choice, and the start and the items of the image that it picks.
fn print_image(
    rt: &impl Print,
    alloc: Global,
    vol: &MemoryVolume,
    version: u64,
    start: u64,
    end: u64,
) -> Result<(), TableError> {
    let name = Bytes::from_slice(alloc, b"a")?;
    let choice = LogChoice {
        name,
        version,
        start,
        end,
    };
    let mut left = vol.crash(&[choice])?;
    let (from, to) = left.log_bounds("a")?;
    print!(rt; "{version} {start} {end} {from}")?;
    for position in from..to {
        let item = left.log_read("a", position)?;
        print_item(rt, item.as_slice())?;
    }
    println!(rt)?;
    Ok(())
}

/// Prints a line for each choice of a version with a start.
fn print_ends(
    rt: &impl Print,
    alloc: Global,
    vol: &MemoryVolume,
    version: u64,
    start: u64,
) -> Result<(), TableError> {
    for end in 2..7 {
        print_image(rt, alloc, vol, version, start, end)?;
    }
    Ok(())
}

/// Prints a line for each choice of a version.
fn print_version(
    rt: &impl Print,
    alloc: Global,
    vol: &MemoryVolume,
    version: u64,
) -> Result<(), TableError> {
    for start in 0..4 {
        print_ends(rt, alloc, vol, version, start)?;
    }
    Ok(())
}

/// Prints a line for each choice.
pub(crate) fn print_crashes(rt: &impl Print, alloc: Global) -> Result<(), TableError> {
    let mut vol = MemoryVolume::new(alloc);
    history(alloc, &mut vol)?;
    for version in 0..7 {
        print_version(rt, alloc, &vol, version)?;
    }
    Ok(())
}
