//! Proofs of a range of leaves.
ghost use Rattle.std.specs.Prelude.{◌≡◌, ◌≤◌, ◌^◌, length, Ok, Err, IfOk, IfErr};
ghost use Rattle.volume_base.specs.Volume.{Reads};
ghost use Rattle.volume_base.specs.Moments.{present};
ghost use Rattle.tree_store.specs.declared.error.Error.{Error};
ghost use Rattle.tree_store.specs.Stores.{IsReadRefusal, IsOutsideOr};
ghost use Rattle.tree_proof.specs.Cover.{meets};
ghost use Rattle.tree_verification.specs.Ranges.{cover_positions, range_answer, HasForm, TakesFrom, IsProofIn, IsProofAt};

use crate::bounds::check_range;
use crate::walk::find_cover;
use codec_base::ListOf;
use std::alloc::Global;
use tree_proof::{LeafRange, Proof, Wanted};
use tree_shape::{Family, Location};
use tree_store::{Error, Storage};
use volume_base::Volume;

/// The proof of what is wanted in the tree of so many leaves.
pub(crate) fn prove<F: Family, S: Storage<F>, V: Volume, W: Wanted>(
    alloc: Global,
    vol: &mut V,
    store: &S,
    leaves: u64,
    wanted: &W,
    inactive_peaks: u64,
) -> Result<Proof<F, S::Digest>, Error<F>>
    requires ready { W.ready wanted.now }
    requires few { leaves ≤ 2 ^ 62 }
    requires stored { leaves ≤ S.leaves store.now }
    ensures form { IfOk result (HasForm F.shape leaves inactive_peaks (W.met wanted.now)) }
    ensures proof { let image = present (V.state vol.old) in
        IfOk result (λ proof. V.tells → S.held store.now image →
        IsProofAt F.shape (S.told store.now image) (S.leaves store.now) leaves inactive_peaks
        (W.met wanted.now) proof) }
    ensures told { let image = present (V.state vol.old) in
        IfOk result (λ proof. V.tells → S.held store.now image →
        TakesFrom F.shape (S.told store.now image) leaves (W.met wanted.now) proof) }
    ensures fault { IfErr result IsReadRefusal }
    ensures outside { let image = present (V.state vol.old) in
        V.tells → S.held store.now image →
        IfErr result (IsOutsideOr (S.told store.now image) (cover_positions F.shape (W.met wanted.now) leaves)) }
    ensures reads { Reads V.tells Error.Volume (V.state vol.old) (V.state vol.new) result }
{
    let positions = find_cover::<F, W>(alloc, wanted, leaves)?;
    let digests = store.get_nodes(vol, &positions)?;
    Ok(Proof {
        leaves: Location::new(leaves),
        inactive_peaks,
        digests: ListOf::from_vec(digests),
    })
}

/// The proof of the leaves from `start` up to `end`, in the tree that the store had at so many leaves. Refuses, in this order:
/// `Empty`, `LocationOverflow`, `RangeOutOfBounds` of the leaves and then of the end; then as the store's reads do.
pub fn historical_range_proof<F: Family, S: Storage<F>, V: Volume>(
    alloc: Global,
    vol: &mut V,
    store: &S,
    leaves: Location<F>,
    start: Location<F>,
    end: Location<F>,
    inactive_peaks: u64,
) -> Result<Proof<F, S::Digest>, Error<F>>
    requires { inactive_peaks ≤ length (F.shape.heights leaves) }
    ensures refused { (e : Error F) → range_answer (S.leaves store.now) leaves start end ≡ Err e → result ≡ Err e }
    // Such a refusal comes before the volume is called.
    ensures uncalled { (e : Error F) → range_answer (S.leaves store.now) leaves start end ≡ Err e → vol.new ≡ vol.old }
    ensures within { IfOk result (λ proof. range_answer {F = F} (S.leaves store.now) leaves start end ≡ Ok tt) }
    ensures form { IfOk result (HasForm F.shape leaves inactive_peaks (meets start end)) }
    ensures proof { let image = present (V.state vol.old) in
        IfOk result (λ proof. V.tells → S.held store.now image →
        IsProofAt F.shape (S.told store.now image) (S.leaves store.now) leaves inactive_peaks (meets start end) proof) }
    // Its digests are what the store tells, whichever list the tree is of.
    ensures told { let image = present (V.state vol.old) in
        IfOk result (λ proof. V.tells → S.held store.now image →
        TakesFrom F.shape (S.told store.now image) leaves (meets start end) proof) }
    ensures fault { range_answer {F = F} (S.leaves store.now) leaves start end ≡ Ok tt → IfErr result IsReadRefusal }
    ensures outside { let image = present (V.state vol.old) in
        range_answer {F = F} (S.leaves store.now) leaves start end ≡ Ok tt → V.tells → S.held store.now image →
        IfErr result (IsOutsideOr (S.told store.now image) (cover_positions F.shape (meets start end) leaves)) }
    ensures reads { Reads V.tells Error.Volume (V.state vol.old) (V.state vol.new) result }
{
    let leaves = leaves.as_u64();
    let range = LeafRange {
        start: start.as_u64(),
        end: end.as_u64(),
    };
    check_range::<F>(store.leaves().as_u64(), leaves, &range)?;
    prove(alloc, vol, store, leaves, &range, inactive_peaks)
}

/// The proof of the leaves from `start` up to `end`, in the tree that the store has. Refuses, in this order: `Empty`,
/// `LocationOverflow`, `RangeOutOfBounds`; then as the store's reads do.
pub fn range_proof<F: Family, S: Storage<F>, V: Volume>(
    alloc: Global,
    vol: &mut V,
    store: &S,
    start: Location<F>,
    end: Location<F>,
    inactive_peaks: u64,
) -> Result<Proof<F, S::Digest>, Error<F>>
    requires { inactive_peaks ≤ length (F.shape.heights (S.leaves store.now)) }
    ensures refused { let leaves = S.leaves store.now in
        (e : Error F) → range_answer leaves leaves start end ≡ Err e → result ≡ Err e }
    ensures uncalled { let leaves = S.leaves store.now in
        (e : Error F) → range_answer leaves leaves start end ≡ Err e → vol.new ≡ vol.old }
    ensures within { let leaves = S.leaves store.now in
        IfOk result (λ proof. range_answer {F = F} leaves leaves start end ≡ Ok tt) }
    ensures form { IfOk result (HasForm F.shape (S.leaves store.now) inactive_peaks (meets start end)) }
    ensures proof { let image = present (V.state vol.old) in
        IfOk result (λ proof. V.tells → S.held store.now image →
        IsProofIn F.shape (S.told store.now image) (S.leaves store.now) inactive_peaks (meets start end) proof) }
    // Its digests are what the store tells, whichever list the tree is of.
    ensures told { let image = present (V.state vol.old) in
        IfOk result (λ proof. V.tells → S.held store.now image →
        TakesFrom F.shape (S.told store.now image) (S.leaves store.now) (meets start end) proof) }
    ensures fault { let leaves = S.leaves store.now in
        range_answer {F = F} leaves leaves start end ≡ Ok tt → IfErr result IsReadRefusal }
    ensures outside { let image = present (V.state vol.old) in
        let leaves = S.leaves store.now in
        range_answer {F = F} leaves leaves start end ≡ Ok tt → V.tells → S.held store.now image →
        IfErr result (IsOutsideOr (S.told store.now image) (cover_positions F.shape (meets start end) leaves)) }
    ensures reads { Reads V.tells Error.Volume (V.state vol.old) (V.state vol.new) result }
{
    let leaves = store.leaves();
    historical_range_proof(alloc, vol, store, leaves, start, end, inactive_peaks)
}
