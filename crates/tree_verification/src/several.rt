//! Proofs of several leaves.
ghost use Rattle.std.specs.Prelude.{◌≡◌, ◌≤◌, length, Ok, Err, IfOk, IfErr};
ghost use Rattle.volume_base.specs.Volume.{Reads};
ghost use Rattle.volume_base.specs.Moments.{present};
ghost use Rattle.tree_store.specs.declared.error.Error.{Error};
ghost use Rattle.tree_store.specs.Stores.{IsReadRefusal, IsOutsideOr};
ghost use Rattle.tree_proof.specs.Cover.{holds_one};
ghost use Rattle.tree_verification.specs.Ranges.{cover_positions, HasForm, TakesFrom, IsProofIn};
ghost use Rattle.tree_verification.specs.Several.{several_answer};

use crate::order::{check_order, check_within};
use crate::ranges::prove;
use crate::wanted::Several;
use std::alloc::Global;
use tree_proof::Proof;
use tree_shape::{Family, Location};
use tree_store::{Error, Storage};
use volume_base::Volume;

/// The proof of these leaves, each past the one before it, in the tree that the store has. Refuses, in this
/// order: `Empty`, `UnsortedLocation` or `DuplicateLocation`, `RangeOutOfBounds`; then as the store's reads do.
pub fn multi_proof<F: Family, S: Storage<F>, V: Volume>(
    alloc: Global,
    vol: &mut V,
    store: &S,
    inactive_peaks: u64,
    locations: &[Location<F>],
) -> Result<Proof<F, S::Digest>, Error<F>>
    requires { inactive_peaks ≤ length (F.shape.heights (S.leaves store.now)) }
    ensures refused { (e : Error F) → several_answer (S.leaves store.now) locations.now ≡ Err e → result ≡ Err e }
    // Such a refusal comes before the volume is called.
    ensures uncalled { (e : Error F) → several_answer (S.leaves store.now) locations.now ≡ Err e → vol.new ≡ vol.old }
    ensures within { IfOk result (λ proof. several_answer {F = F} (S.leaves store.now) locations.now ≡ Ok tt) }
    ensures form { IfOk result (HasForm F.shape (S.leaves store.now) inactive_peaks (holds_one locations.now)) }
    ensures proof { let image = present (V.state vol.old) in
        IfOk result (λ proof. V.tells → S.held store.now image →
        IsProofIn F.shape (S.told store.now image) (S.leaves store.now) inactive_peaks
        (holds_one locations.now) proof) }
    // Its digests are what the store tells, whichever list the tree is of.
    ensures told { let image = present (V.state vol.old) in
        IfOk result (λ proof. V.tells → S.held store.now image →
        TakesFrom F.shape (S.told store.now image) (S.leaves store.now) (holds_one locations.now) proof) }
    ensures fault { several_answer {F = F} (S.leaves store.now) locations.now ≡ Ok tt → IfErr result IsReadRefusal }
    ensures outside { let image = present (V.state vol.old) in
        let leaves = S.leaves store.now in
        several_answer {F = F} leaves locations.now ≡ Ok tt → V.tells → S.held store.now image →
        IfErr result (IsOutsideOr (S.told store.now image) (cover_positions F.shape (holds_one locations.now) leaves)) }
    ensures reads { Reads V.tells Error.Volume (V.state vol.old) (V.state vol.new) result }
{
    check_order(locations)?;
    let leaves = store.leaves().as_u64();
    check_within(locations, leaves)?;
    let several = Several { locations };
    prove(alloc, vol, store, leaves, &several, inactive_peaks)
}
