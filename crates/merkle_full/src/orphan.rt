//! A leaf that stands in the node log behind the nodes of a complete tree.
ghost use Rattle.std.specs.Prelude.{◌≡◌, ◌+◌, ◌<◌, ◌≤◌, ◌^◌, ℕ, List, [], ◌∷◌, ◌++◌, take, length, Some, IfOk, IfErr, OnOk, IsOkUnless};
ghost use Rattle.journal_base.specs.Items.{items_of};
ghost use Rattle.journal_base.specs.View.{IsWithin};
ghost use Rattle.tree_shape.specs.Shape.{made};
ghost use Rattle.tree_store.specs.Stored.{TreeStands};
ghost use Rattle.volume_base.specs.Volume.{Reads};
ghost use Rattle.tree_core.specs.Hashed.{HasParents};
ghost use Rattle.tree_core.specs.Tree.{IsOf, IsSound, node_at};
ghost use Rattle.merkle_full.specs.Recovering.{source_of};
ghost use Rattle.merkle_full.specs.Lifted.{IsLifted};
ghost use Rattle.merkle_full.specs.Preparing.{leaves_reached, IsOrphanRead, HasLogged, NotReached};

use journal_base::BackingRecovery;
use tree_core::{Digest, Error, Family, Hasher, Mem, Standard};
use volume_base::Volume;

/// The tree with one more leaf, whose parents are hashed.
fn with_leaf<F: Family, D: Digest, H: Hasher<Digest = D>>(
    mem: Mem<F, D>,
    hasher: &Standard<H>,
    leaf: D,
) -> Result<Mem<F, D>, Error<F>>
    requires few { mem.leaves < 2 ^ 62 }
    ensures leaves { IfOk result (λ m. m.leaves ≡ mem.leaves + 1) }
    ensures boundary { IfOk result (λ m. m.boundary ≡ mem.boundary) }
    ensures sound { IfOk result (λ m. IsSound F.shape m) }
    ensures nodes { IfOk result (λ m. (p : ℕ) → p < length (made F.shape mem.leaves) → node_at m p ≡ node_at mem p) }
    ensures leaf { IfOk result (λ m. node_at m (length (made F.shape mem.leaves)) ≡ Some leaf) }
    ensures parents { IfOk result (λ m. HasParents F.shape H.hash mem.leaves (node_at m)) }
    ensures tree { IfOk result (λ m. (all : List D) →
        IsOf F.shape H.hash all mem → IsOf F.shape H.hash (all ++ leaf ∷ []) m) }
    ensures memory { IsOkUnless result Error.Memory }
{
    let mut batch = mem.new_batch()?;
    batch.add_leaf_digest(leaf)?;
    let sealed = batch.merkleize(hasher, 0)?;
    let mut mem = mem;
    mem.apply_batch(&sealed)?;
    // Its leaves tell that it is sound.
    let _leaves = mem.leaves();
    Ok(mem)
}

/// The tree of so many complete leaves, with the one that stands behind them in the log, where one does and the cap
/// allows it. It refuses with `Journal(Corruption)` where that is no digest.
pub(crate) fn with_orphan<
    F: Family,
    D: Digest,
    H: Hasher<Digest = D>,
    R: BackingRecovery<Item = D>,
    V: Volume,
>(
    mem: Mem<F, D>,
    hasher: &Standard<H>,
    log: &R,
    vol: &mut V,
    cap: u64,
) -> Result<Mem<F, D>, Error<F>>
    requires few { cap ≤ 2 ^ 62 }
    requires sound { IsSound F.shape mem }
    ensures leaves { IfOk result (λ m. m.leaves ≡ leaves_reached F.shape cap (R.view log.now).end mem.leaves) }
    ensures boundary { IfOk result (λ m. m.boundary ≡ mem.boundary) }
    ensures sound { IfOk result (λ m. IsSound F.shape m) }
    ensures nodes { IfOk result (λ m. (p : ℕ) → p < length (made F.shape mem.leaves) → node_at m p ≡ node_at mem p) }
    ensures orphan { let items = items_of D.spelling D.Read.admits (R.view log.now) (V.state vol.old) in
        OnOk result (V.tells → IsOrphanRead items F.shape cap (R.view log.now).end mem.leaves) }
    // It is the leaf that is added, whatever the log holds.
    ensures logged { let items = items_of D.spelling D.Read.admits (R.view log.now) (V.state vol.old) in
        IfOk result (λ m. V.tells → HasLogged items (length (made F.shape mem.leaves)) m) }
    // And its parents are hashed.
    ensures parents { IfOk result (λ m.
        mem.leaves < m.leaves → HasParents F.shape H.hash mem.leaves (node_at m)) }
    // For each list that a map stands for beside the log, a tree of the list's first leaves becomes one of its next.
    ensures list { let log = (V.state vol.old).log (R.view log.now).name in
        IfOk result (λ m. V.tells → (all : List D) (durable top : ℕ) (pins : _) →
        TreeStands F.shape H.hash D.spelling all durable top log pins →
        IsOf F.shape H.hash (take mem.leaves all) mem → IsOf F.shape H.hash (take m.leaves all) m) }
    ensures refused { let items = items_of D.spelling D.Read.admits (R.view log.now) (V.state vol.old) in
        V.tells → IsWithin (R.view log.now) (V.state vol.old) →
        (R.view log.now).start ≤ length (made F.shape mem.leaves) →
        IfErr result (NotReached items F.shape cap (R.view log.now).end mem.leaves) }
    ensures errors { IfErr result IsLifted }
    ensures reads { Reads V.tells Error.Volume (V.state vol.old) (V.state vol.new) result }
{
    let (_, end) = log.bounds();
    let leaves = mem.leaves().as_u64();
    let position = F::size(leaves);
    if leaves >= cap || position >= end {
        return Ok(mem);
    }
    match log.read(vol, position) {
        Ok(leaf) => with_leaf(mem, hasher, leaf),
        Err(error) => Err(Error::from(error)),
    }
}
