//! The map of a boundary: its pins by their positions, and the boundary.
ghost use Rattle.std.specs.Prelude.{◌≡◌, length, IfOk, OnOk, IsOkUnless};
ghost use Rattle.std.specs.FinMap as finmap;
ghost use Rattle.merkle_full.specs.Pruning.{with_pins, pinned_map};

use crate::keys::{boundary_key, pin_key};
use codec_base::{Bytes, Write, encode};
use std::alloc::Global;
use tree_core::{Digest, Error, Family, Location, Position};
use volume_base::MetaMap;

/// The bytes of a value.
fn bytes_of<F: Family, T: Write>(alloc: Global, value: &T) -> Result<Bytes, Error<F>>
    ensures bytes { IfOk result (λ bytes. bytes ≡ T.spelling value.now) }
    ensures memory { IsOkUnless result Error.Memory }
{
    match encode(alloc, value) {
        Ok(bytes) => Ok(bytes),
        Err(_) => Err(Error::Memory),
    }
}

/// Puts a value under a key.
fn put<F: Family>(map: &mut MetaMap, key: Bytes, value: Bytes) -> Result<(), Error<F>>
    ensures ok { OnOk result (map.new ≡ finmap.insert map.old key value) }
    ensures memory { IsOkUnless result Error.Memory }
{
    match map.put(key, value) {
        Ok(()) => Ok(()),
        Err(_) => Err(Error::Memory),
    }
}

/// Pins these digests at these positions.
fn put_pins<F: Family, D: Digest>(
    alloc: Global,
    map: &mut MetaMap,
    positions: &[Position<F>],
    pins: &[D],
) -> Result<(), Error<F>>
    requires { length positions.now ≡ length pins.now }
    ensures ok { OnOk result (map.new ≡ with_pins D.spelling map.old positions.now pins.now) }
    ensures memory { IsOkUnless result Error.Memory }
{
    for i in 0..positions.len() {
        let key = pin_key(alloc, positions[i].as_u64())?;
        let value = bytes_of(alloc, &pins[i])?;
        put(map, key, value)?;
    }
    Ok(())
}

/// Pins these digests at these positions, and stores the boundary.
pub(crate) fn put_boundary<F: Family, D: Digest>(
    alloc: Global,
    map: &mut MetaMap,
    positions: &[Position<F>],
    pins: &[D],
    boundary: Location<F>,
) -> Result<(), Error<F>>
    requires { length positions.now ≡ length pins.now }
    ensures ok { OnOk result (map.new ≡ pinned_map D.spelling map.old positions.now pins.now boundary) }
    ensures memory { IsOkUnless result Error.Memory }
{
    put_pins(alloc, map, positions, pins)?;
    let key = boundary_key(alloc)?;
    let value = bytes_of(alloc, &boundary.as_u64())?;
    put(map, key, value)?;
    Ok(())
}
