//! Nodes of a tree that is being opened, each from the map or else from the log.
ghost use Rattle.std.specs.Prelude.{◌≡◌, ◌⊎◌, ℕ, List, length, slice_get, Some, None, IsSome, IfSome, OnOk, IfOk, IfErr};
ghost use Rattle.std.specs.FinMap as finmap;
ghost use Rattle.journal_base.specs.View.{IsWithin};
ghost use Rattle.tree_shape.specs.Hashing.{Hashing};
ghost use Rattle.tree_shape.specs.Slow.{nodes};
ghost use Rattle.tree_store.specs.Stored.{node_key, TreeStands};
ghost use Rattle.volume_base.specs.Volume.{Reads};
ghost use Rattle.merkle_full.specs.Recovering.{source_of, IsRecovered, AllRecovered, NotRecovered, NotAllRecovered};

use crate::keys::pin_key;
use codec_base::{CodecError, decode};
use journal_base::BackingRecovery;
use std::alloc::Global;
use tree_core::{Digest, Error, Family, Position, TreeData};
use volume_base::{JournalError, MetaMap, Volume};

/// The digest that these bytes spell.
fn digest_of<F: Family, D: Digest>(alloc: Global, bytes: &[u8]) -> Result<D, Error<F>>
    ensures digest { IfOk result (λ d. bytes.now ≡ D.spelling d) }
    ensures allowed { IfOk result (D.Read.admits tt) }
    ensures refused { IfErr result (λ e. (e ≡ Error.Memory) ⊎ ((e ≡ Error.DataCorrupted TreeData.Digest)
        × ((d : D) → D.Read.admits tt d → bytes.now ≡ D.spelling d → ⊥))) }
{
    match decode(alloc, bytes, &()) {
        Ok(digest) => Ok(digest),
        Err(CodecError::Memory) => Err(Error::Memory),
        Err(_) => Err(Error::DataCorrupted(TreeData::Digest)),
    }
}

/// The pin at a position. It refuses with `DataCorrupted` one that is no digest.
fn pin_at<F: Family, D: Digest>(
    alloc: Global,
    map: &MetaMap,
    position: u64,
) -> Result<Option<D>, Error<F>>
    ensures pin { IfOk result (λ pin. (bytes : List ℕ) → finmap.get map.now (node_key position) ≡ Some bytes →
        (d : D) × (pin ≡ Some d) × (bytes ≡ D.spelling d)) }
    ensures allowed { IfOk result (λ pin. IfSome pin (D.Read.admits tt)) }
    ensures none { IfOk result (λ pin. finmap.get map.now (node_key position) ≡ None → pin ≡ None) }
    ensures refused { IfErr result (λ e. (e ≡ Error.Memory) ⊎ ((e ≡ Error.DataCorrupted TreeData.Digest)
        × IsSome (finmap.get map.now (node_key position))
        × ((bytes : List ℕ) (d : D) → finmap.get map.now (node_key position) ≡ Some bytes →
        D.Read.admits tt d → bytes ≡ D.spelling d → ⊥))) }
{
    let key = pin_key(alloc, position)?;
    match map.get(key.as_slice()) {
        None => Ok(None),
        Some(bytes) => {
            let digest = digest_of(alloc, bytes.as_slice())?;
            Ok(Some(digest))
        }
    }
}

/// The node at a position, from the map or else from the log. It refuses with `DataCorrupted` a pin that is no digest,
/// with `MissingNode` where neither has the position, and with `Journal(Corruption)` bytes of the log that are no
/// digest.
pub(crate) fn recovered_node<F: Family, D: Digest, R: BackingRecovery<Item = D>, V: Volume>(
    alloc: Global,
    map: &MetaMap,
    log: &R,
    vol: &mut V,
    position: u64,
) -> Result<D, Error<F>>
    ensures node { let source = source_of D.spelling D.Read.admits map.now (R.view log.now) (V.state vol.old) in
        IfOk result (IsRecovered V.tells source position) }
    ensures list { IfOk result (λ d. V.tells → (h : Hashing D) (all : List D) (durable top : ℕ) →
        TreeStands F.shape h D.spelling all durable top ((V.state vol.old).log (R.view log.now).name) map.now →
        slice_get (nodes F.shape h all) position ≡ Some d) }
    ensures refused { let source = source_of D.spelling D.Read.admits map.now (R.view log.now) (V.state vol.old) in
        IfErr result (NotRecovered (V.tells × IsWithin (R.view log.now) (V.state vol.old)) source position) }
    ensures reads { Reads V.tells Error.Volume (V.state vol.old) (V.state vol.new) result }
{
    if let Some(digest) = pin_at(alloc, map, position)? {
        return Ok(digest);
    }
    match log.read(vol, position) {
        Ok(digest) => Ok(digest),
        Err(JournalError::ItemPruned(_)) | Err(JournalError::ItemOutOfRange(_)) => {
            Err(Error::MissingNode(Position::new(position)))
        }
        Err(error) => Err(Error::from(error)),
    }
}

/// The nodes at these positions, each from the map or else from the log. The first that isn't recovered is refused as
/// by `recovered_node`.
pub(crate) fn recovered_nodes<F: Family, D: Digest, R: BackingRecovery<Item = D>, V: Volume>(
    alloc: Global,
    map: &MetaMap,
    log: &R,
    vol: &mut V,
    positions: &[Position<F>],
) -> Result<Vec<D>, Error<F>>
    ensures counted { IfOk result (λ found. length found.items ≡ length positions.now) }
    ensures list { IfOk result (λ found. V.tells → (h : Hashing D) (all : List D) (durable top : ℕ) →
        TreeStands F.shape h D.spelling all durable top ((V.state vol.old).log (R.view log.now).name) map.now →
        (i p : ℕ) (d : D) → slice_get positions.now i ≡ Some p → slice_get found.items i ≡ Some d →
        slice_get (nodes F.shape h all) p ≡ Some d) }
    ensures nodes { let source = source_of D.spelling D.Read.admits map.now (R.view log.now) (V.state vol.old) in
        let known = V.tells × IsWithin (R.view log.now) (V.state vol.old) in
        IfOk result (λ found. (i p : ℕ) (d : D) → slice_get positions.now i ≡ Some p →
        slice_get found.items i ≡ Some d → IsRecovered known source p d) }
    ensures recovered { let source = source_of D.spelling D.Read.admits map.now (R.view log.now) (V.state vol.old) in
        OnOk result (AllRecovered (V.tells × IsWithin (R.view log.now) (V.state vol.old)) source positions.now) }
    ensures refused { let source = source_of D.spelling D.Read.admits map.now (R.view log.now) (V.state vol.old) in
        let known = V.tells × IsWithin (R.view log.now) (V.state vol.old) in
        IfErr result (NotAllRecovered known source positions.now) }
    ensures reads { Reads V.tells Error.Volume (V.state vol.old) (V.state vol.new) result }
{
    let mut found = Vec::new(alloc);
    for i in 0..positions.len() {
        let position = positions[i].as_u64();
        let node = recovered_node(alloc, map, log, vol, position)?;
        found.push(node)?;
    }
    Ok(found)
}
