//! What a crash leaves of a volume, opened again.
use crate::error::TableError;
use crate::stores::{Db, Kind, Store, opening};
use codec_base::Bytes;
use memory_volume::{LogChoice, MemoryVolume};
use std::alloc::Global;
use tree_core::{Family, Sha256Digest};

/// More than the nodes of the history.
const NODES: u64 = 64;

/// The size and the root of a database.
#[derive(Clone, Copy)]
pub(crate) struct Stop {
    pub(crate) size: u64,
    root: Sha256Digest,
}

/// The sizes at which images open, and how many open at no state of the history that is as new as the durable one.
#[derive(Clone, Copy)]
pub(crate) struct Found {
    sizes: [bool; 32],
    others: u64,
}

/// The state of a database.
pub(crate) fn stop_of<F: Family, O: Kind, C: Store<Item = O>>(db: &Db<F, O, C>) -> Stop {
    let (_, size) = db.bounds();
    Stop {
        size: size.as_u64(),
        root: db.root(),
    }
}

/// Whether a state is one of these, and at or past a size.
fn is_among(stop: Stop, whole: &[Stop], least: u64) -> bool {
    let mut known = false;
    for one in whole {
        known = known || (one.size == stop.size && one.root == stop.root);
    }
    known && least <= stop.size
}

impl Found {
    /// No image.
    pub(crate) fn new() -> Self {
        Found {
            sizes: [false; 32],
            others: 0,
        }
    }

    /// One image more, which opens at a state, if it does.
    fn note(&mut self, stop: Option<Stop>, whole: &[Stop], least: u64) {
        if let Some(stop) = stop {
            if is_among(stop, whole, least) && stop.size < 32 {
                self.sizes[stop.size as usize] = true;
                return;
            }
        }
        self.others = self.others.saturating_add(1);
    }

    /// Prints the sizes at which images open, and how many open otherwise.
    pub(crate) fn print(&self, rt: &impl Print) -> Result<(), TableError> {
        println!(rt; "")?;
        print!(rt; "  images open at")?;
        for size in 0..32 {
            if self.sizes[size] {
                print!(rt; " {size}")?;
            }
        }
        println!(rt; ", and {} otherwise", self.others)?;
        Ok(())
    }
}

/// A choice of an image of a log: of one of its versions, from its first item on, up to an end.
fn choice(alloc: Global, log: &str, version: u64, end: u64) -> Result<LogChoice, TableError> {
    Ok(LogChoice {
        name: Bytes::from_slice(alloc, log.as_bytes())?,
        version,
        start: 0,
        end,
    })
}

/// The volume with an image of the log of operations beside one of the node log.
fn image(
    alloc: Global,
    vol: &MemoryVolume,
    operations: (u64, u64),
    nodes: (u64, u64),
) -> Result<MemoryVolume, TableError> {
    let operations = choice(alloc, "operations", operations.0, operations.1)?;
    let nodes = choice(alloc, "nodes", nodes.0, nodes.1)?;
    Ok(vol.crash(&[operations, nodes])?)
}

/// The state at which an image opens, if it does.
fn reopened<F: Family, O: Kind, C: Store<Item = O>>(
    alloc: Global,
    image: MemoryVolume,
) -> Result<Option<Stop>, TableError> {
    let mut left = image;
    match opening::<F, O, C>(alloc, &mut left, None)? {
        Ok(db) => Ok(Some(stop_of(&db))),
        Err(_) => Ok(None),
    }
}

/// Finds how the images of a version of the log of operations open, up to each end from the durable size to that behind
/// the next step, beside an image of the node log.
fn find_ends<F: Family, O: Kind, C: Store<Item = O>>(
    alloc: Global,
    vol: &MemoryVolume,
    whole: &[Stop],
    ends: (u64, u64),
    version: u64,
    nodes: (u64, u64),
    found: &mut Found,
) -> Result<(), TableError> {
    for end in ends.0..ends.1.saturating_add(1) {
        let left = image(alloc, vol, (version, end), nodes)?;
        found.note(reopened::<F, O, C>(alloc, left)?, whole, ends.0);
    }
    Ok(())
}

/// Finds how images of the two newest versions of the log of operations open, beside an image of the node log.
fn find_versions<F: Family, O: Kind, C: Store<Item = O>>(
    alloc: Global,
    vol: &MemoryVolume,
    whole: &[Stop],
    ends: (u64, u64),
    nodes: (u64, u64),
    found: &mut Found,
) -> Result<(), TableError> {
    for version in [0, 1] {
        find_ends::<F, O, C>(alloc, vol, whole, ends, version, nodes, found)?;
    }
    Ok(())
}

/// Finds how images of the two newest versions of the log of operations open, beside the whole node log and a part of
/// it that may be older, where the history stopped in a step.
pub(crate) fn find_images<F: Family, O: Kind, C: Store<Item = O>>(
    alloc: Global,
    vol: &MemoryVolume,
    whole: &[Stop],
    step: usize,
    least: u64,
    found: &mut Found,
) -> Result<(), TableError> {
    let most = whole.get(step).map_or(least, |stop| stop.size);
    for nodes in [(0, NODES), (1, 0)] {
        find_versions::<F, O, C>(alloc, vol, whole, (least, most), nodes, found)?;
    }
    Ok(())
}
