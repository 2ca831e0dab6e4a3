//! Keys of the map beside the node log.
ghost use Rattle.std.specs.Prelude.{◌≡◌, ◌∷◌, IfOk, IsOkUnless};
ghost use Rattle.codec_base.specs.Laws.{eight_bytes};
ghost use Rattle.tree_store.specs.Stored.{node_key, boundary_key};

use codec_base::{Bytes, CodecError, Write};
use std::alloc::Global;
use tree_core::{Error, Family};

/// A prefix and a number.
fn key_of(alloc: Global, prefix: u8, number: u64) -> Result<Bytes, CodecError>
    ensures key { IfOk result (λ key. key ≡ prefix ∷ eight_bytes number) }
    ensures memory { IsOkUnless result CodecError.Memory }
{
    let mut key = Bytes::new(alloc);
    key.push(prefix)?;
    number.write(&mut key)?;
    Ok(key)
}

/// The key of the pin at a position.
#[tactic(auto, unfolding(tree_store::specs::Stored::node_key))]
pub(crate) fn pin_key<F: Family>(alloc: Global, position: u64) -> Result<Bytes, Error<F>>
    ensures key { IfOk result (λ key. key ≡ node_key position) }
    ensures memory { IsOkUnless result Error.Memory }
{
    match key_of(alloc, 0, position) {
        Ok(key) => Ok(key),
        Err(_) => Err(Error::Memory),
    }
}

/// The key of the boundary.
#[tactic(auto, unfolding(tree_store::specs::Stored::boundary_key))]
pub(crate) fn boundary_key<F: Family>(alloc: Global) -> Result<Bytes, Error<F>>
    ensures key { IfOk result (λ key. key ≡ boundary_key) }
    ensures memory { IsOkUnless result Error.Memory }
{
    match key_of(alloc, 1, 0) {
        Ok(key) => Ok(key),
        Err(_) => Err(Error::Memory),
    }
}
