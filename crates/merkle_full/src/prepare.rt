//! What is read before a tree is opened.
ghost use Rattle.std.specs.Prelude.{◌≡◌, ◌≤◌, ◌^◌, Option, Some, None, string_bytes, unwrap_or, IfOk, IfErr, OnOk};
ghost use Rattle.journal_base.specs.View.{config_of, seen_of, log_of, SameButBounds, IsHeld};
ghost use Rattle.tree_store.specs.Stores.{IsOutside};
ghost use Rattle.volume_base.specs.Log.{cleared_at, BecomesOneOf};
ghost use Rattle.volume_base.specs.Volume.{WritesLog};
ghost use Rattle.merkle_full.specs.Preparing.{cap_of, log_kept};

use journal_base::{
    Backing, BackingRecovery, Fixed, FixedJournal, JournalConfig, Recovery as JournalRecovery,
};
use tree_core::{Digest, Error, Family, Location, MAX_LEAVES};
use volume_base::Volume;

/// The greatest number of leaves under a cap. None, and one above `MAX_LEAVES`, counts as that.
pub(crate) fn cap_under<F: Family>(max_leaves: Option<Location<F>>) -> u64
    ensures cap { result ≡ cap_of max_leaves }
    ensures few { result ≤ 2 ^ 62 }
{
    match max_leaves {
        None => MAX_LEAVES,
        Some(cap) => cap.as_u64().min(MAX_LEAVES),
    }
}

/// The node log, seen to its end. Where no boundary is stored, one that starts past 0 is cleared first.
pub(crate) fn kept_nodes<F: Family, D: Digest, V: Volume>(
    vol: &mut V,
    cfg: JournalConfig<()>,
    stored: Option<u64>,
) -> Result<JournalRecovery<D, Fixed>, Error<F>>
    ensures made { IfOk result (λ made. SameButBounds (config_of cfg) (seen_of made)) }
    ensures held { IfOk result (λ made. V.tells → IsHeld (seen_of made) (V.state vol.new)) }
    ensures log { OnOk result (V.tells →
        log_of (config_of cfg) (V.state vol.new) ≡ log_kept stored (log_of (config_of cfg) (V.state vol.old))) }
    // Where the log is kept as it is nothing is written.
    ensures still { let log = log_of (config_of cfg) (V.state vol.old) in
        V.tells → log_kept stored log ≡ log → (V.state vol.new).clock ≡ (V.state vol.old).clock }
    ensures outside { IfErr result IsOutside }
    ensures call { let step = BecomesOneOf (cleared_at 0) in
        WritesLog V.tells Error.Volume (config_of cfg).name step (V.state vol.old) (V.state vol.new) result }
{
    let nodes = FixedJournal::<D>::recover(vol, cfg, None)?;
    let (start, _) = nodes.bounds();
    if stored.is_some() || start == 0 {
        return Ok(nodes);
    }
    let cleared = nodes.reset(vol, 0)?;
    Ok(cleared)
}
