//! At how many leaves a tree is opened.
ghost use Rattle.std.specs.Prelude.{◌≡◌, ◌⊎◌, ◌≤◌, ◌^◌, IfOk, IfErr};
ghost use Rattle.merkle_full.specs.Lifted.{IsLifted};
ghost use Rattle.merkle_full.specs.Opening.{Selects, NotSelected, boundary_in, stored_in};

use crate::keys::boundary_key;
use crate::sizes::{least_leaves, most_leaves};
use std::alloc::Global;
use tree_core::{Error, Family, Location, MAX_LEAVES, Position, TreeData};
use volume_base::{JournalError, MetaMap};

/// How many leaves a tree is opened at, and at how many it is pruned.
#[derive(Drop)]
pub(crate) struct Selection {
    pub(crate) complete: u64,
    pub(crate) pruned: u64,
}

/// The boundary that these bytes spell.
fn boundary_of<F: Family>(bytes: &[u8]) -> Result<u64, Error<F>>
    ensures boundary { result ≡ boundary_in bytes.now }
    ensures errors { IfErr result IsLifted }
{
    if bytes.len() != 8 {
        return Err(Error::DataCorrupted(TreeData::Boundary));
    }
    let mut eight = [0u8; 8];
    eight.copy_from_slice(bytes);
    let leaves = u64::from_be_bytes(eight);
    if leaves > MAX_LEAVES {
        return Err(Error::LocationOverflow(Location::new(leaves)));
    }
    Ok(leaves)
}

/// The boundary that a map stores, where there is one.
pub(crate) fn stored_boundary<F: Family>(
    alloc: Global,
    map: &MetaMap,
) -> Result<Option<u64>, Error<F>>
    ensures stored { IfOk result (λ boundary. stored_in {F = F} map.now ≡ Ok boundary) }
    ensures refused { IfErr result (λ e. (e ≡ Error.Memory) ⊎ (stored_in {F = F} map.now ≡ Err e)) }
    ensures errors { IfErr result IsLifted }
{
    let key = boundary_key(alloc)?;
    match map.get(key.as_slice()) {
        None => Ok(None),
        Some(bytes) => {
            let boundary = boundary_of::<F>(bytes.as_slice())?;
            Ok(Some(boundary))
        }
    }
}

/// How many leaves a log with these bounds is opened at, beside a stored boundary and under a cap. It refuses, in this
/// order: with `ElementPruned` a cap below the boundary, with `Journal(ItemPruned)` one whose position is below the
/// start, and with `MissingNode` where the log ends before what the tree is pruned at.
pub(crate) fn select<F: Family>(
    boundary: u64,
    start: u64,
    end: u64,
    cap: u64,
) -> Result<Selection, Error<F>>
    requires few { cap ≤ 2 ^ 62 }
    ensures selects { IfOk result (λ r. Selects F.shape boundary start end cap r.complete r.pruned) }
    ensures refused { IfErr result (NotSelected F.shape boundary start end cap) }
    ensures errors { IfErr result IsLifted }
{
    let top = F::size(cap);
    if cap < boundary {
        return Err(Error::ElementPruned(Position::new(top)));
    }
    if top < start {
        return Err(Error::Journal(JournalError::ItemPruned(top)));
    }
    let complete = most_leaves::<F>(cap, end);
    let pruned = boundary.max(least_leaves::<F>(start, cap));
    if complete < pruned {
        return Err(Error::MissingNode(Position::new(F::size(pruned))));
    }
    Ok(Selection { complete, pruned })
}
