//! What is kept of the log of a tree that begins in a sync.
ghost use Rattle.std.specs.Prelude.{◌≡◌, ◌<◌, ◌≤◌, ◌+◌, ◌^◌, ℕ, length, IfOk, IfErr, IfSome, OnOk};
ghost use Rattle.journal_base.specs.Blobs.{blob_start};
ghost use Rattle.journal_base.specs.View.{seen_of, view_of, log_of, SameButBounds, IsDurable, IsHeld};
ghost use Rattle.tree_store.specs.Stored.{size};
ghost use Rattle.tree_store.specs.Stores.{IsOutside};
ghost use Rattle.volume_base.specs.Log.{Log, end_of, cleared_at, cut_to, pruned_to};
ghost use Rattle.volume_base.specs.Names.{log_alone, NamesCall};
ghost use Rattle.volume_base.specs.Volume.{Writes};
ghost use Rattle.merkle_full.specs.Lifted.{IsLifted};
ghost use Rattle.merkle_full.specs.Syncing.{KeepsOf, log_begun};

use crate::sizes::most_leaves;
use journal_base::{BackingRecovery, Fixed, FixedJournal, Recovery as JournalRecovery};
use tree_core::{Digest, Error, Family};
use volume_base::Volume;

/// How many leaves, up to `end`, a log with these bounds has, where it covers `start`.
pub(crate) fn leaves_kept<F: Family>(
    log_start: u64,
    log_end: u64,
    start: u64,
    end: u64,
) -> Option<u64>
    requires few { end ≤ 2 ^ 62 }
    requires below { start < end }
    ensures kept { (log : Log) → log.start ≡ log_start → end_of log ≡ log_end → KeepsOf F.shape start end log result }
    ensures within { IfSome result (λ n. (start ≤ n) × (n ≤ end)) }
    ensures low { IfSome result (λ n. log_start ≤ size F.shape start) }
    ensures fits { IfSome result (λ n. size F.shape n ≤ log_end) }
{
    let leaves = most_leaves::<F>(end, log_end);
    if log_start > F::size(start) || leaves <= start {
        return None;
    }
    Some(leaves)
}

/// An empty log at a position.
fn cleared_log<F: Family, D: Digest, V: Volume>(
    vol: &mut V,
    nodes: JournalRecovery<D, Fixed>,
    position: u64,
) -> Result<FixedJournal<D>, Error<F>>
    requires few { position + 1 < 2 ^ 64 }
    ensures made { IfOk result (λ made. SameButBounds (seen_of nodes) (view_of made)) }
    ensures held { IfOk result (λ made. V.tells → IsHeld (view_of made) (V.state vol.new)) }
    ensures log { OnOk result (V.tells → log_of (seen_of nodes) (V.state vol.new) ≡ cleared_at position) }
    ensures durable { OnOk result (V.tells → IsDurable (seen_of nodes) (V.state vol.new)) }
    ensures outside { V.tells → IfErr result IsOutside }
    ensures errors { IfErr result IsLifted }
    ensures names { V.tells → NamesCall (log_alone (seen_of nodes).name) (V.state vol.old) (V.state vol.new) }
    ensures writes { Writes V.tells Error.Volume (V.state vol.old) (V.state vol.new) result }
{
    let cleared = nodes.clear_to_size(vol, position)?;
    let journal = cleared.finish(vol, position)?;
    Ok(journal)
}

/// The log cut to an end, and then pruned below a position by blobs.
fn trimmed_log<F: Family, D: Digest, V: Volume>(
    vol: &mut V,
    nodes: JournalRecovery<D, Fixed>,
    position: u64,
    end: u64,
) -> Result<FixedJournal<D>, Error<F>>
    requires low { position ≤ end }
    requires past { (seen_of nodes).start ≤ end }
    requires fits { end ≤ (seen_of nodes).end }
    ensures made { IfOk result (λ made. SameButBounds (seen_of nodes) (view_of made)) }
    ensures held { IfOk result (λ made. V.tells → IsHeld (view_of made) (V.state vol.new)) }
    ensures log { let log = log_of (seen_of nodes) (V.state vol.old) in
        OnOk result (V.tells → IsHeld (seen_of nodes) (V.state vol.old) →
        log_of (seen_of nodes) (V.state vol.new) ≡
        pruned_to (cut_to log end) (blob_start (seen_of nodes).blob position)) }
    ensures durable { OnOk result (V.tells → IsDurable (seen_of nodes) (V.state vol.new)) }
    ensures outside { V.tells → IsHeld (seen_of nodes) (V.state vol.old) → IfErr result IsOutside }
    ensures errors { IfErr result IsLifted }
    ensures names { V.tells → NamesCall (log_alone (seen_of nodes).name) (V.state vol.old) (V.state vol.new) }
    ensures writes { Writes V.tells Error.Volume (V.state vol.old) (V.state vol.new) result }
{
    let cut = nodes.truncate(vol, end)?;
    let kept = cut.prune(vol, position)?;
    let journal = kept.finish(vol, end)?;
    Ok(journal)
}

/// The log of a tree that begins at `start`: empty there, or cut to the nodes of the leaves that are kept, and pruned
/// by blobs.
pub(crate) fn begun_log<F: Family, D: Digest, V: Volume>(
    vol: &mut V,
    nodes: JournalRecovery<D, Fixed>,
    start: u64,
    kept: Option<u64>,
) -> Result<FixedJournal<D>, Error<F>>
    requires few { start ≤ 2 ^ 62 }
    requires within { IfSome kept (λ n. (start ≤ n) × (n ≤ 2 ^ 62)) }
    requires low { IfSome kept (λ n. (seen_of nodes).start ≤ size F.shape start) }
    requires fits { IfSome kept (λ n. size F.shape n ≤ (seen_of nodes).end) }
    ensures made { IfOk result (λ made. SameButBounds (seen_of nodes) (view_of made)) }
    ensures held { IfOk result (λ made. V.tells → IsHeld (view_of made) (V.state vol.new)) }
    ensures log { let log = log_of (seen_of nodes) (V.state vol.old) in
        OnOk result (V.tells → IsHeld (seen_of nodes) (V.state vol.old) →
        log_of (seen_of nodes) (V.state vol.new) ≡ log_begun F.shape (seen_of nodes).blob start kept log) }
    ensures durable { OnOk result (V.tells → IsDurable (seen_of nodes) (V.state vol.new)) }
    ensures outside { V.tells → IsHeld (seen_of nodes) (V.state vol.old) → IfErr result IsOutside }
    ensures errors { IfErr result IsLifted }
    ensures names { V.tells → NamesCall (log_alone (seen_of nodes).name) (V.state vol.old) (V.state vol.new) }
    ensures writes { Writes V.tells Error.Volume (V.state vol.old) (V.state vol.new) result }
{
    let position = F::size(start);
    match kept {
        None => cleared_log(vol, nodes, position),
        Some(leaves) => trimmed_log(vol, nodes, position, F::size(leaves)),
    }
}
