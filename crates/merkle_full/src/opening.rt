//! What is opened of a map and a node log.
ghost use Rattle.std.specs.Prelude.{◌≡◌, ◌<◌, ◌≤◌, ◌^◌, ℕ, List, take, is_some, IfOk, IfErr};
ghost use Rattle.journal_base.specs.Items.{items_of};
ghost use Rattle.journal_base.specs.View.{IsWithin};
ghost use Rattle.tree_store.specs.Stored.{TreeStands, size};
ghost use Rattle.volume_base.specs.Volume.{Reads};
ghost use Rattle.tree_core.specs.Hashed.{HasParents};
ghost use Rattle.tree_core.specs.Tree.{IsOf, IsSound, node_at, rests};
ghost use Rattle.merkle_full.specs.Opening.{Selects};
ghost use Rattle.merkle_full.specs.Lifted.{IsLifted};
ghost use Rattle.merkle_full.specs.Recovering.{source_of, ArePeaksRecovered, IsRecalled};
ghost use Rattle.merkle_full.specs.Preparing.{leaves_reached, IsOrphanRead, HasLogged, NotOpened};

use crate::orphan::with_orphan;
use crate::reopen::reopened;
use crate::selection::{Selection, select};
use journal_base::BackingRecovery;
use std::alloc::Global;
use tree_core::{Digest, Error, Family, Hasher, Mem, Standard};
use volume_base::{MetaMap, Volume};

/// Memory of a tree, and what was selected for it.
#[derive(Drop)]
pub(crate) struct Opened<F: Family, D: Digest> {
    pub(crate) mem: Mem<F, D>,
    pub(crate) selection: Selection,
}

/// The tree of the most leaves that a stored boundary, the log and a cap allow, with an orphan. It refuses as `select`,
/// then as `reopened`, then as `with_orphan`.
pub(crate) fn open_memory<
    F: Family,
    D: Digest,
    H: Hasher<Digest = D>,
    R: BackingRecovery<Item = D>,
    V: Volume,
>(
    alloc: Global,
    map: &MetaMap,
    log: &R,
    vol: &mut V,
    hasher: &Standard<H>,
    boundary: u64,
    cap: u64,
) -> Result<Opened<F, D>, Error<F>>
    requires few { cap ≤ 2 ^ 62 }
    ensures selects { IfOk result (λ r. Selects F.shape boundary (R.view log.now).start (R.view log.now).end cap
        r.selection.complete r.selection.pruned) }
    ensures leaves { IfOk result (λ r.
        r.mem.leaves ≡ leaves_reached F.shape cap (R.view log.now).end r.selection.complete) }
    ensures boundary { IfOk result (λ r. r.mem.boundary ≡ r.selection.complete) }
    ensures sound { IfOk result (λ r. IsSound F.shape r.mem) }
    ensures exact { IfOk result (λ r. (p : ℕ) → p < size F.shape r.selection.complete →
        is_some (node_at r.mem p) ≡ rests F.shape r.selection.complete r.selection.pruned p) }
    ensures peaks { let source = source_of D.spelling D.Read.admits map.now (R.view log.now) (V.state vol.old) in
        let known = V.tells × IsWithin (R.view log.now) (V.state vol.old) in
        IfOk result (λ r. ArePeaksRecovered known source F.shape r.selection.complete r.selection.pruned) }
    ensures recalls { let source = source_of D.spelling D.Read.admits map.now (R.view log.now) (V.state vol.old) in
        let known = V.tells × IsWithin (R.view log.now) (V.state vol.old) in
        IfOk result (λ r. IsRecalled known source (size F.shape r.selection.complete) r.mem) }
    ensures orphan { let items = items_of D.spelling D.Read.admits (R.view log.now) (V.state vol.old) in
        IfOk result (λ r. V.tells → IsOrphanRead items F.shape cap (R.view log.now).end r.selection.complete) }
    ensures logged { let items = items_of D.spelling D.Read.admits (R.view log.now) (V.state vol.old) in
        IfOk result (λ r. V.tells → HasLogged items (size F.shape r.selection.complete) r.mem) }
    ensures parents { IfOk result (λ r. r.selection.complete < r.mem.leaves →
        HasParents F.shape H.hash r.selection.complete (node_at r.mem)) }
    // For each list that map and log stand for, it is the tree of its first leaves.
    ensures list { let log_now = (V.state vol.old).log (R.view log.now).name in
        IfOk result (λ r. V.tells → IsWithin (R.view log.now) (V.state vol.old) →
        (all : List D) (durable top : ℕ) → TreeStands F.shape H.hash D.spelling all durable top log_now map.now →
        IsOf F.shape H.hash (take r.mem.leaves all) r.mem) }
    ensures refused { let source = source_of D.spelling D.Read.admits map.now (R.view log.now) (V.state vol.old) in
        let known = V.tells × IsWithin (R.view log.now) (V.state vol.old) in
        V.tells → IsWithin (R.view log.now) (V.state vol.old) →
        IfErr result (NotOpened known source F.shape boundary cap) }
    ensures errors { IfErr result IsLifted }
    ensures reads { Reads V.tells Error.Volume (V.state vol.old) (V.state vol.new) result }
{
    let (start, end) = log.bounds();
    let selection = select::<F>(boundary, start, end, cap)?;
    let mem = reopened(alloc, map, log, vol, selection.complete, selection.pruned)?;
    let mem = with_orphan(mem, hasher, log, vol, cap)?;
    Ok(Opened { mem, selection })
}
