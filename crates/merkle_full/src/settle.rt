//! The node log is brought to the nodes of the tree that is opened.
ghost use Rattle.std.specs.Prelude.{◌≡◌, ◌≤◌, ◌^◌, ℕ, List, length, string_bytes, IfOk, IfErr, OnOk};
ghost use Rattle.std.specs.NonZero.{non_zero_u64_get};
ghost use Rattle.journal_base.specs.Blobs.{blob_start};
ghost use Rattle.journal_base.specs.View.{seen_of, view_of, log_of, SameButBounds, IsDurable, IsHeld, IsWithin};
ghost use Rattle.tree_shape.specs.Hashing.{Hashing};
ghost use Rattle.tree_store.specs.Stored.{TreeStands, StoresBoundary, size};
ghost use Rattle.tree_store.specs.Stores.{IsOutside};
ghost use Rattle.volume_base.specs.Log.{cut_to, pruned_to};
ghost use Rattle.volume_base.specs.Moments.{PairHas, PairKeeps};
ghost use Rattle.volume_base.specs.Names.{log_and_map, NamesCall};
ghost use Rattle.volume_base.specs.Volume.{Writes};
ghost use Rattle.merkle_full.specs.Lifted.{IsLifted};

use journal_base::{BackingRecovery, Fixed, FixedJournal, Recovery as JournalRecovery};
use std::num::NonZeroU64;
use tree_core::{Digest, Error, Family};
use volume_base::{MetaMap, Volume};

/// Takes the whole blobs below a boundary's position away. Where the log's start moves, the map that was read is put
/// back before, whole, so that a crash can't leave an older one beside the later start.
fn advance<F: Family, D: Digest, V: Volume>(
    vol: &mut V,
    nodes: JournalRecovery<D, Fixed>,
    read: &MetaMap,
    metadata: &str,
    items_per_blob: NonZeroU64,
    boundary: u64,
) -> Result<JournalRecovery<D, Fixed>, Error<F>>
    requires few { boundary ≤ 2 ^ 62 }
    requires blob { (seen_of nodes).blob ≡ non_zero_u64_get items_per_blob }
    ensures made { IfOk result (λ made. SameButBounds (seen_of nodes) (seen_of made)) }
    ensures within { IfOk result (λ made. V.tells → IsWithin (seen_of nodes) (V.state vol.old) →
        IsWithin (seen_of made) (V.state vol.new)) }
    ensures pruned { let log = log_of (seen_of nodes) (V.state vol.old) in
        OnOk result (V.tells → IsWithin (seen_of nodes) (V.state vol.old) →
        size F.shape boundary ≤ (seen_of nodes).end →
        log_of (seen_of nodes) (V.state vol.new) ≡ pruned_to log
        (blob_start (seen_of nodes).blob (size F.shape boundary))) }
    ensures map { OnOk result (V.tells → (V.state vol.old).map metadata.now ≡ read.now →
        (V.state vol.new).map metadata.now ≡ read.now) }
    ensures outside { IfErr result IsOutside }
    ensures names { V.tells → NamesCall (log_and_map (seen_of nodes).name metadata.now) (V.state vol.old)
        (V.state vol.new) }
    ensures images { V.tells → (h : Hashing D) (all : List D) (durable top : ℕ) →
        (V.state vol.old).map metadata.now ≡ read.now →
        ((b : ℕ) → b ≤ length all → StoresBoundary read.now b → b ≡ boundary) →
        PairHas (V.state vol.old) (seen_of nodes).name metadata.now (TreeStands F.shape h D.spelling all durable top) →
        PairKeeps (seen_of nodes).name metadata.now (TreeStands F.shape h D.spelling all durable top)
        (V.state vol.old) (V.state vol.new) }
    ensures writes { Writes V.tells Error.Volume (V.state vol.old) (V.state vol.new) result }
{
    let (start, _) = nodes.bounds();
    let position = F::size(boundary);
    let blob = items_per_blob.get();
    if position / blob * blob <= start {
        return Ok(nodes);
    }
    vol.map_replace(metadata, read)?;
    let nodes = nodes.prune(vol, position)?;
    Ok(nodes)
}

/// The node log of a tree with so many complete leaves: cut to their nodes, from the blob of the boundary's position
/// on, and durable.
pub(crate) fn settled<F: Family, D: Digest, V: Volume>(
    vol: &mut V,
    nodes: JournalRecovery<D, Fixed>,
    read: &MetaMap,
    metadata: &str,
    items_per_blob: NonZeroU64,
    boundary: u64,
    complete: u64,
) -> Result<FixedJournal<D>, Error<F>>
    requires few { complete ≤ 2 ^ 62 }
    requires low { boundary ≤ complete }
    requires blob { (seen_of nodes).blob ≡ non_zero_u64_get items_per_blob }
    requires fits { size F.shape complete ≤ (seen_of nodes).end }
    requires past { (seen_of nodes).start ≤ size F.shape complete }
    ensures made { IfOk result (λ made. SameButBounds (seen_of nodes) (view_of made)) }
    ensures held { IfOk result (λ made. V.tells → IsHeld (view_of made) (V.state vol.new)) }
    ensures log { let log = log_of (seen_of nodes) (V.state vol.old) in
        OnOk result (V.tells → IsHeld (seen_of nodes) (V.state vol.old) →
        log_of (seen_of nodes) (V.state vol.new)
        ≡ pruned_to (cut_to log (size F.shape complete)) (blob_start (seen_of nodes).blob (size F.shape boundary))) }
    ensures durable { OnOk result (V.tells → IsDurable (seen_of nodes) (V.state vol.new)) }
    ensures map { OnOk result (V.tells → (V.state vol.old).map metadata.now ≡ read.now →
        (V.state vol.new).map metadata.now ≡ read.now) }
    ensures outside { V.tells → IsHeld (seen_of nodes) (V.state vol.old) → IfErr result IsOutside }
    ensures errors { IfErr result IsLifted }
    ensures names { V.tells → NamesCall (log_and_map (seen_of nodes).name metadata.now) (V.state vol.old)
        (V.state vol.new) }
    // Where no more leaves are durable than are complete, each image goes on standing for the list.
    ensures images { V.tells → (h : Hashing D) (all : List D) (durable top : ℕ) →
        IsHeld (seen_of nodes) (V.state vol.old) →
        (V.state vol.old).map metadata.now ≡ read.now →
        ((b : ℕ) → b ≤ length all → StoresBoundary read.now b → b ≡ boundary) →
        durable ≤ complete →
        PairHas (V.state vol.old) (seen_of nodes).name metadata.now (TreeStands F.shape h D.spelling all durable top) →
        PairKeeps (seen_of nodes).name metadata.now (TreeStands F.shape h D.spelling all durable top)
        (V.state vol.old) (V.state vol.new) }
    ensures writes { Writes V.tells Error.Volume (V.state vol.old) (V.state vol.new) result }
{
    let end = F::size(complete);
    let cut = nodes.truncate(vol, end)?;
    let kept = advance(vol, cut, read, metadata, items_per_blob, boundary)?;
    let journal = kept.finish(vol, end)?;
    Ok(journal)
}
