//! Memory of a tree that is being opened.
ghost use Rattle.std.specs.Prelude.{◌≡◌, ◌≤◌, ◌^◌, ℕ, List, length, take, is_some, IfOk, IfErr, OnOk};
ghost use Rattle.journal_base.specs.View.{IsWithin};
ghost use Rattle.tree_shape.specs.Hashing.{Hashing};
ghost use Rattle.tree_shape.specs.Shape.{made};
ghost use Rattle.tree_store.specs.Stored.{TreeStands, size};
ghost use Rattle.volume_base.specs.Log.{end_of};
ghost use Rattle.volume_base.specs.Volume.{Reads};
ghost use Rattle.tree_core.specs.Tree.{IsOf, IsSound, node_at, rests};
ghost use Rattle.merkle_full.specs.Recovering.{source_of, TellsPeaks, ArePeaksRecovered, IsRecalled, NotReopened};

use crate::pins::pin_positions;
use crate::recovered::recovered_nodes;
use crate::repin::repinned;
use journal_base::BackingRecovery;
use std::alloc::Global;
use tree_core::{Digest, Error, Family, Location, Mem};
use volume_base::{MetaMap, Volume};

/// Memory of so many leaves at rest, with the peaks of the leaves at which the tree is pruned. It refuses as
/// `recovered_node` the first peak that isn't recovered, those of the leaves before those of the boundary.
pub(crate) fn reopened<F: Family, D: Digest, R: BackingRecovery<Item = D>, V: Volume>(
    alloc: Global,
    map: &MetaMap,
    log: &R,
    vol: &mut V,
    complete: u64,
    pruned: u64,
) -> Result<Mem<F, D>, Error<F>>
    requires few { complete ≤ 2 ^ 62 }
    requires within { pruned ≤ complete }
    ensures leaves { IfOk result (λ m. m.leaves ≡ complete) }
    ensures boundary { IfOk result (λ m. m.boundary ≡ complete) }
    ensures sound { IfOk result (λ m. IsSound F.shape m) }
    ensures exact { IfOk result (λ m. (p : ℕ) → is_some (node_at m p) ≡ rests F.shape complete pruned p) }
    // For each list that map and log stand for, it is the tree of its first leaves.
    ensures list { let log = (V.state vol.old).log (R.view log.now).name in
        IfOk result (λ m. V.tells → (h : Hashing D) (all : List D) (durable top : ℕ) →
        TreeStands F.shape h D.spelling all durable top log map.now → length (made F.shape complete) ≤ end_of log →
        IsOf F.shape h (take complete all) m) }
    // So it is for each list whose peaks are what is recovered.
    ensures told { let source = source_of D.spelling D.Read.admits map.now (R.view log.now) (V.state vol.old) in
        let known = V.tells × IsWithin (R.view log.now) (V.state vol.old) in
        IfOk result (λ m. (h : Hashing D) (all : List D) → complete ≤ length all →
        TellsPeaks known source F.shape h all complete → TellsPeaks known source F.shape h all pruned →
        IsOf F.shape h (take complete all) m) }
    ensures recalls { let source = source_of D.spelling D.Read.admits map.now (R.view log.now) (V.state vol.old) in
        let known = V.tells × IsWithin (R.view log.now) (V.state vol.old) in
        IfOk result (IsRecalled known source (size F.shape complete)) }
    ensures peaks { let source = source_of D.spelling D.Read.admits map.now (R.view log.now) (V.state vol.old) in
        let known = V.tells × IsWithin (R.view log.now) (V.state vol.old) in
        OnOk result (ArePeaksRecovered known source F.shape complete pruned) }
    ensures refused { let source = source_of D.spelling D.Read.admits map.now (R.view log.now) (V.state vol.old) in
        let known = V.tells × IsWithin (R.view log.now) (V.state vol.old) in
        IfErr result (NotReopened known source F.shape complete pruned) }
    ensures reads { Reads V.tells Error.Volume (V.state vol.old) (V.state vol.new) result }
{
    let leaf_positions = pin_positions::<F>(alloc, complete)?;
    let peaks = recovered_nodes(alloc, map, log, vol, &leaf_positions)?;
    let positions = pin_positions::<F>(alloc, pruned)?;
    let pins = recovered_nodes(alloc, map, log, vol, &positions)?;
    let mem = Mem::init(alloc, Vec::new(alloc), Location::new(complete), peaks)?;
    // Its leaves tell that it is sound.
    let _leaves = mem.leaves();
    let opened = repinned(alloc, mem, &positions, &pins, Location::new(pruned))?;
    Ok(opened)
}
