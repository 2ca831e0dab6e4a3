//! The pins at which a tree begins in a sync, and the map of them alone.
ghost use Rattle.std.specs.Prelude.{◌≡◌, ◌≤◌, ◌^◌, ℕ, length, slice_get, Some, None, IfOk, IfErr, IfSome, OnOk, IsOkUnless};
ghost use Rattle.std.specs.Option.{option_map};
ghost use Rattle.std.specs.FinMap as finmap;
ghost use Rattle.journal_base.specs.View.{IsWithin};
ghost use Rattle.tree_store.specs.Stores.{IsOutside};
ghost use Rattle.volume_base.specs.Volume.{Reads};
ghost use Rattle.merkle_full.specs.Lifted.{IsLifted};
ghost use Rattle.merkle_full.specs.Pruning.{pinned_map};
ghost use Rattle.merkle_full.specs.Recovering.{source_of, IsRecovered, NotAllRecovered};
ghost use Rattle.merkle_full.specs.Syncing.{ArePins, IsMiscounted};

use crate::boundary_map::put_boundary;
use crate::recovered::recovered_nodes;
use journal_base::BackingRecovery;
use std::alloc::Global;
use tree_core::{Digest, Error, Family, Location, Position};
use volume_base::{MetaMap, Volume};

/// Refuses with `InvalidPinnedNodes` given pins, where there aren't as many as the leaves have peaks.
pub(crate) fn check_count<F: Family, D: Digest>(
    given: &Option<Vec<D>>,
    leaves: u64,
) -> Result<(), Error<F>>
    requires { leaves ≤ 2 ^ 62 }
    ensures counted { OnOk result (IsMiscounted F.shape leaves (option_map (λ v. v.items) given.now) → ⊥) }
    ensures refused { IfErr result (λ e.
        (e ≡ Error.InvalidPinnedNodes) × IsMiscounted F.shape leaves (option_map (λ v. v.items) given.now)) }
{
    if let Some(pins) = given {
        if pins.len() as u64 != u64::from(F::peak_count(leaves)) {
            return Err(Error::InvalidPinnedNodes);
        }
    }
    Ok(())
}

/// The nodes at these positions, from a map of the volume or else from the log. It refuses as `recovered_nodes`.
fn stored_pins<F: Family, D: Digest, R: BackingRecovery<Item = D>, V: Volume>(
    alloc: Global,
    vol: &mut V,
    log: &R,
    metadata: &str,
    positions: &[Position<F>],
) -> Result<Vec<D>, Error<F>>
    ensures counted { IfOk result (λ pins. length pins.items ≡ length positions.now) }
    ensures nodes { let map = (V.state vol.old).map metadata.now in
        let source = source_of D.spelling D.Read.admits map (R.view log.now) (V.state vol.old) in
        let known = V.tells × IsWithin (R.view log.now) (V.state vol.old) in
        IfOk result (λ pins. V.tells → (i p : ℕ) (d : D) → slice_get positions.now i ≡ Some p →
        slice_get pins.items i ≡ Some d → IsRecovered known source p d) }
    ensures refused { let map = (V.state vol.old).map metadata.now in
        let source = source_of D.spelling D.Read.admits map (R.view log.now) (V.state vol.old) in
        let known = V.tells × IsWithin (R.view log.now) (V.state vol.old) in
        V.tells → IfErr result (NotAllRecovered known source positions.now) }
    ensures errors { IfErr result IsLifted }
    ensures reads { Reads V.tells Error.Volume (V.state vol.old) (V.state vol.new) result }
{
    let read = vol.map_get(metadata)?;
    let pins = recovered_nodes(alloc, &read, log, vol, positions)?;
    Ok(pins)
}

/// The pins at these positions: those that are given, or else each from a map of the volume or from the log. Without
/// given ones it refuses as `recovered_nodes`.
pub(crate) fn start_pins<F: Family, D: Digest, R: BackingRecovery<Item = D>, V: Volume>(
    alloc: Global,
    vol: &mut V,
    log: &R,
    metadata: &str,
    positions: &[Position<F>],
    given: Option<Vec<D>>,
) -> Result<Vec<D>, Error<F>>
    requires { IfSome given (λ ds. length ds.items ≡ length positions.now) }
    ensures counted { IfOk result (λ pins. length pins.items ≡ length positions.now) }
    ensures pins { let map = (V.state vol.old).map metadata.now in
        let source = source_of D.spelling D.Read.admits map (R.view log.now) (V.state vol.old) in
        let known = V.tells × IsWithin (R.view log.now) (V.state vol.old) in
        IfOk result (λ pins. V.tells →
        ArePins known source positions.now (option_map (λ v. v.items) given) pins.items) }
    ensures refused { let map = (V.state vol.old).map metadata.now in
        let source = source_of D.spelling D.Read.admits map (R.view log.now) (V.state vol.old) in
        let known = V.tells × IsWithin (R.view log.now) (V.state vol.old) in
        V.tells → IfErr result (λ e. (option_map (λ v. v.items) given ≡ None)
        × NotAllRecovered known source positions.now e) }
    ensures errors { IfErr result IsLifted }
    ensures reads { Reads V.tells Error.Volume (V.state vol.old) (V.state vol.new) result }
{
    match given {
        Some(pins) => Ok(pins),
        None => stored_pins(alloc, vol, log, metadata, positions),
    }
}

/// The map with the boundary and its pins, and no other key.
pub(crate) fn start_map<F: Family, D: Digest>(
    alloc: Global,
    positions: &[Position<F>],
    pins: &[D],
    boundary: u64,
) -> Result<MetaMap, Error<F>>
    requires { length positions.now ≡ length pins.now }
    ensures map { IfOk result (λ m. m ≡ pinned_map D.spelling finmap.empty positions.now pins.now boundary) }
    ensures memory { IsOkUnless result Error.Memory }
{
    let mut map = MetaMap::new(alloc);
    put_boundary(alloc, &mut map, positions, pins, Location::new(boundary))?;
    Ok(map)
}
