//! What a crash leaves of a journal, opened again.
use crate::error::TableError;
use crate::stores::{Store, at_last_match};
use auth_journal::Error;
use codec_base::Bytes;
use memory_volume::{LogChoice, MemoryVolume};
use std::alloc::Global;
use tree_core::{Family, Sha256Digest};
use volume_base::{JournalError, Volume};

/// More than the items and the nodes of any of the journals.
const MOST: u64 = 32;

/// An image of a log: of a version the part between two positions.
#[derive(Clone, Copy)]
struct Part {
    version: u64,
    start: u64,
    end: u64,
}

/// How many images there are, and how many of them open as reckoned.
#[derive(Clone, Copy)]
pub(crate) struct Counted {
    pub(crate) same: u64,
    pub(crate) all: u64,
}

/// The end behind the last match of the first items: every third matches, from item 0 on.
pub(crate) fn end_of_match(items: u64) -> u64 {
    if items == 0 {
        0
    } else {
        (items - 1) / 3 * 3 + 1
    }
}

fn choice(alloc: Global, log: &str, part: Part) -> Result<LogChoice, TableError> {
    let Part {
        version,
        start,
        end,
    } = part;
    let name = Bytes::from_slice(alloc, log.as_bytes())?;
    Ok(LogChoice {
        name,
        version,
        start,
        end,
    })
}

/// The bounds of the image that a choice picks.
fn picked(
    alloc: Global,
    vol: &MemoryVolume,
    log: &str,
    part: Part,
) -> Result<(u64, u64), TableError> {
    let mut left = vol.crash(&[choice(alloc, log, part)?])?;
    Ok(left.log_bounds(log)?)
}

/// Adds the images of a version of a log that begin at a place and end between two.
fn add_parts(
    alloc: Global,
    vol: &MemoryVolume,
    log: &str,
    least: Part,
    most: u64,
    parts: &mut Vec<Part>,
) -> Result<(), TableError> {
    for end in least.end..most.saturating_add(1) {
        let part = Part { end, ..least };
        if picked(alloc, vol, log, part)? == (part.start, end) {
            parts.push(part)?;
        }
    }
    Ok(())
}

/// The images of a version of a log: those between the least that a choice picks and the greatest.
fn parts_of(
    alloc: Global,
    vol: &MemoryVolume,
    log: &str,
    version: u64,
    parts: &mut Vec<Part>,
) -> Result<(), TableError> {
    let least = Part {
        version,
        start: 0,
        end: 0,
    };
    let greatest = Part {
        version,
        start: MOST,
        end: MOST,
    };
    let (first, fewest) = picked(alloc, vol, log, least)?;
    let (last, most) = picked(alloc, vol, log, greatest)?;
    for start in first..last.saturating_add(1) {
        let part = Part {
            version,
            start,
            end: start.max(fewest),
        };
        add_parts(alloc, vol, log, part, most, parts)?;
    }
    Ok(())
}

/// The images of the two newest versions of a log.
fn parts(alloc: Global, vol: &MemoryVolume, log: &str) -> Result<Vec<Part>, TableError> {
    let mut parts = Vec::new(alloc);
    parts_of(alloc, vol, log, 0, &mut parts)?;
    parts_of(alloc, vol, log, 1, &mut parts)?;
    Ok(parts)
}

/// Whether what is left has so many items at least, and opens at its last match with the root of its first items, or is
/// refused where a log that starts past 0 has no match.
fn is_as_reckoned<F: Family, C: Store>(
    alloc: Global,
    left: MemoryVolume,
    roots: &[Sha256Digest],
    least: u64,
) -> Result<bool, TableError> {
    let mut left = left;
    let (start, end) = left.log_bounds("items")?;
    let last = if start == end { end } else { end_of_match(end) };
    let opened = at_last_match::<F, C>(alloc, &mut left)?;
    let same = match opened {
        Ok(journal) => {
            let root = journal.root(0)?;
            journal.size().as_u64() == last && roots.get(last as usize) == Some(&root)
        }
        Err(Error::Journal(JournalError::ItemPruned(position))) => {
            position == start && start < end && last <= start
        }
        Err(_) => false,
    };
    Ok(same && least <= end)
}

/// Opens an image of the log of items beside each of these of the node log.
fn count_beside<F: Family, C: Store>(
    alloc: Global,
    vol: &MemoryVolume,
    roots: &[Sha256Digest],
    least: u64,
    items: Part,
    nodes: &[Part],
) -> Result<Counted, TableError> {
    let mut counted = Counted { same: 0, all: 0 };
    for part in nodes {
        let one = choice(alloc, "items", items)?;
        let two = choice(alloc, "nodes", *part)?;
        let left = vol.crash(&[one, two])?;
        counted.all = counted.all.saturating_add(1);
        if is_as_reckoned::<F, C>(alloc, left, roots, least)? {
            counted.same = counted.same.saturating_add(1);
        }
    }
    Ok(counted)
}

/// Opens each image of the log of items beside each of the node log.
pub(crate) fn count_images<F: Family, C: Store>(
    alloc: Global,
    vol: &MemoryVolume,
    roots: &[Sha256Digest],
    least: u64,
) -> Result<Counted, TableError> {
    let mut counted = Counted { same: 0, all: 0 };
    let nodes = parts(alloc, vol, "nodes")?;
    for items in parts(alloc, vol, "items")? {
        let more = count_beside::<F, C>(alloc, vol, roots, least, items, &nodes)?;
        counted.same = counted.same.saturating_add(more.same);
        counted.all = counted.all.saturating_add(more.all);
    }
    Ok(counted)
}
