//! What an opening of a volume must give, reckoned from the bounds of the node log and the bytes of the boundary.
use crate::error::TableError;
use crate::trees::{Tree, config, hasher};
use memory_volume::MemoryVolume;
use merkle_full::Merkle;
use std::alloc::Global;
use tree_core::{Family, Sha256Digest};
use volume_base::Volume;

/// More leaves than any of the trees has.
const MOST: u64 = 100;

/// The stored boundary, or 0: its key is a one and eight zeros, and it is below 256.
fn stored(vol: &mut MemoryVolume) -> Result<u64, TableError> {
    let map = vol.map_get("pins")?;
    let boundary = match map.get(&[1, 0, 0, 0, 0, 0, 0, 0, 0]) {
        None => 0,
        Some(bytes) => match bytes.as_slice() {
            [0, 0, 0, 0, 0, 0, 0, boundary] => u64::from(*boundary),
            _ => return Err(TableError::Tree),
        },
    };
    Ok(boundary)
}

/// The oldest kept leaf and the leaves: those whose nodes are whole, and one more where a node stands behind them; pruned at the
/// boundary, or at the first leaf that stands in the log.
fn reckoned<F: Family>(vol: &mut MemoryVolume) -> Result<(u64, u64), TableError> {
    let (start, end) = vol.log_bounds("nodes")?;
    let boundary = stored(vol)?;
    let (mut complete, mut first) = (0, 0);
    for leaves in 0..MOST {
        if F::size(leaves) <= end {
            complete = leaves;
        }
        if F::size(leaves) < start {
            first = leaves.saturating_add(1);
        }
    }
    let orphans = u64::from(complete < MOST && F::size(complete) < end);
    Ok((boundary.max(first), complete.saturating_add(orphans)))
}

/// Whether what is opened is as reckoned, with the root of its first leaves, and has at least so many.
pub(crate) fn is_as_reckoned<F: Family>(
    alloc: Global,
    vol: MemoryVolume,
    roots: &[Sha256Digest],
    least: u64,
) -> Result<bool, TableError> {
    let mut vol = vol;
    let (start, end) = reckoned::<F>(&mut vol)?;
    let tree: Tree<F> = Merkle::init(alloc, &mut vol, &hasher(), config(alloc)?)?;
    let (from, to) = tree.bounds();
    let root = tree.root(&hasher(), 0)?;
    Ok(
        (from.as_u64(), to.as_u64()) == (start, end)
            && least <= end
            && roots.get(end as usize) == Some(&root),
    )
}
