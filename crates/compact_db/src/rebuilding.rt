//! The state of a database, made of its witness.
ghost use Rattle.std.specs.Prelude.{◌≡◌, ◌+◌, ◌-◌, ◌^◌, ◌<◌, ◌≤◌, ◌++◌, ◌∷◌, [], ℕ, List, length, map, slice_get, Ok, Some, IfOk, IsOkUnless};
ghost use Rattle.codec_base.specs.Parts.{whole};
ghost use Rattle.tree_shape.specs.Shape.{peaks};
ghost use Rattle.tree_shape.specs.Slow.{leaf, node_of};
ghost use Rattle.tree_core.specs.Tree.{IsOf};
ghost use Rattle.log_model.specs.Good.{EndsWithCommit};
ghost use Rattle.merkle_compact.specs.Frontier.{IsFrontier};
ghost use Rattle.compact_db.specs.Derived.{ArePinsIn};
ghost use Rattle.compact_db.specs.Pinned.{ProvesCommit};
ghost use Rattle.compact_db.specs.Rebuild.{operation_answer, rebuild_answer, RefusedOnlyAs};
ghost use Rattle.compact_db.specs.StateOf.{IsRestored, IsStateOf, verified_of};
ghost use Rattle.compact_db.specs.Verified.{IsShownOf};
ghost use Rattle.compact_db.specs.WitnessOf.{witness_of};

use crate::pinned::pinned_proof;
use crate::verified::{Shown, shown_in};
use crate::{CompactOperation, VerifiedWitness, build_witness};
use chain_core::{DataFault, Error};
use codec_base::{Bytes, CodecError, decode};
use merkle_compact::Merkle;
use std::alloc::Global;
use tree_core::{Bagging, Digest, Family, Hasher, Location, MAX_LEAVES, Standard};
use witness_store::Witness;

/// What a witness rebuilds: the state, its tree and its commit.
#[derive(Drop)]
pub struct Rebuilt<F: Family, O, D: Digest> {
    pub tip: VerifiedWitness<F, D>,
    pub merkle: Merkle<F, D>,
    pub commit: O,
}

/// The tree of these peaks with the leaf of a commit behind them, not yet pruned. It refuses with `Memory` alone.
fn tree_with_commit<F: Family, H: Hasher>(
    alloc: Global,
    before: u64,
    pins: Vec<H::Digest>,
    op_bytes: &Bytes,
) -> Result<Merkle<F, H::Digest>, Error<F>>
    requires few { before < 2 ^ 62 }
    requires counted { length pins.items ≡ length (F.shape.heights before) }
    ensures leaves { IfOk result (λ t. t.leaves ≡ before + 1) }
    ensures kept { IfOk result (λ t. t.boundary < t.leaves) }
    ensures list { IfOk result (λ t. (all : List H.Digest) → before ≡ length all →
        pins.items ≡ map (node_of F.shape H.hash all) (peaks F.shape before) →
        IsOf F.shape H.hash (all ++ leaf F.shape H.hash (length all) op_bytes.now ∷ []) t) }
    ensures pins { IfOk result (λ t. (ds : List H.Digest) → ArePinsIn F.shape t before ds → ds ≡ pins.items) }
    ensures memory { IsOkUnless result Error.Memory }
{
    let hasher = Standard::<H>::new(Bagging::ForwardFold);
    let Ok(mut merkle) = Merkle::from_compact_state(alloc, Location::new(before), pins) else {
        return Err(Error::Memory);
    };
    // Its leaves tell that the tree is sound.
    let _sound = merkle.leaves();
    let Ok(()) = merkle.append_leaf(&hasher, op_bytes.as_slice()) else {
        return Err(Error::Memory);
    };
    Ok(merkle)
}

/// The tree of these peaks with the leaf of a commit behind them, and what is derived of it. It refuses with `Memory`
/// alone.
pub(crate) fn restored<F: Family, H: Hasher>(
    alloc: Global,
    before: u64,
    pins: Vec<H::Digest>,
    op_bytes: Bytes,
    floor: Location<F>,
) -> Result<(VerifiedWitness<F, H::Digest>, Merkle<F, H::Digest>), Error<F>>
    requires few { before < 2 ^ 62 }
    requires counted { length pins.items ≡ length (F.shape.heights before) }
    ensures leaves { IfOk result (λ r. r.1.leaves ≡ before + 1) }
    ensures size { IfOk result (λ r. r.0.witness.size ≡ before + 1) }
    ensures frontier { IfOk result (λ r. IsFrontier F.shape r.1) }
    ensures list { IfOk result (λ r. (all : List H.Digest) → before ≡ length all →
        pins.items ≡ map (node_of F.shape H.hash all) (peaks F.shape before) →
        IsRestored F.shape H.hash (all ++ leaf F.shape H.hash (length all) op_bytes ∷ []) op_bytes floor (r.0, r.1)) }
    ensures witness { IfOk result (λ r. r.0.witness ≡
        record { op_bytes = op_bytes; size = before + 1; pinned_nodes = pins.items }) }
    ensures memory { IsOkUnless result Error.Memory }
{
    let mut merkle = tree_with_commit::<F, H>(alloc, before, pins, &op_bytes)?;
    let tip = build_witness::<F, H>(alloc, &merkle, floor, op_bytes)?;
    merkle.prune_to_frontier();
    Ok((tip, merkle))
}

/// The operation of these bytes.
fn operation_of<F: Family, O: CompactOperation>(
    alloc: Global,
    codec: &O::Cfg,
    bytes: &Bytes,
) -> Result<O, Error<F>>
    ensures operation { IfOk result (λ op. operation_answer {F = F} (whole (O.reads codec.now bytes.now)) ≡ Ok op) }
    ensures allowed { IfOk result (O.admits codec.now) }
    ensures only { IfOk result (λ op. (x : O) → O.admits codec.now x → bytes.now ≡ O.spelling x → op ≡ x) }
    ensures refused { RefusedOnlyAs (operation_answer {F = F} (whole (O.reads codec.now bytes.now))) result }
{
    match decode::<O>(alloc, bytes.as_slice(), codec) {
        Ok(operation) => Ok(operation),
        Err(CodecError::Memory) => Err(Error::Memory),
        Err(_) => Err(Error::DataCorrupted(DataFault::CommitOperation)),
    }
}

/// The commit of a witness, and its floor. It refuses as `rebuild` says.
fn commit_of<F: Family, O: CompactOperation, D: Digest>(
    alloc: Global,
    codec: &O::Cfg,
    witness: &Witness<F, D>,
) -> Result<(O, Location<F>), Error<F>>
    ensures answer { let answer =
        rebuild_answer F.shape O.meaning (λ bytes. whole (O.reads codec.now bytes)) witness.now in
        IfOk result (λ r. answer ≡ Ok r.0) }
    ensures refused { let answer =
        rebuild_answer F.shape O.meaning (λ bytes. whole (O.reads codec.now bytes)) witness.now in
        RefusedOnlyAs answer result }
    ensures floor { IfOk result (λ r. O.meaning.floor r.0 ≡ Some r.1) }
    ensures some { IfOk result (λ r. 0 < witness.now.size) }
    ensures few { IfOk result (λ r. witness.now.size ≤ 2 ^ 62) }
    ensures counted { IfOk result (λ r.
        length witness.now.pinned_nodes ≡ length (F.shape.heights (witness.now.size - 1))) }
    ensures only { IfOk result (λ r. (x : O) → O.admits codec.now x → witness.now.op_bytes ≡ O.spelling x →
        r.0 ≡ x) }
{
    let size = witness.size.as_u64();
    if size == 0 || size > MAX_LEAVES {
        return Err(Error::DataCorrupted(DataFault::Witness));
    }
    let commit = operation_of::<F, O>(alloc, codec, &witness.op_bytes)?;
    let Some(floor) = commit.commit_floor() else {
        return Err(Error::DataCorrupted(DataFault::NotACommit));
    };
    let before = size - 1;
    let peaks = u64::from(F::peak_count(before));
    if floor > before || witness.pinned_nodes.len() != peaks {
        return Err(Error::DataCorrupted(DataFault::Witness));
    }
    Ok((commit, Location::new(floor)))
}

/// What is shown of the state of a witness whose commit has this floor. Nothing is hashed where the pins have each node
/// that the proof takes. It refuses with `Memory` alone.
fn shown_under<F: Family, H: Hasher>(
    alloc: Global,
    witness: Witness<F, H::Digest>,
    floor: Location<F>,
) -> Result<Shown<F, H::Digest>, Error<F>>
    requires some { 0 < witness.size }
    requires few { witness.size ≤ 2 ^ 62 }
    requires counted { length witness.pinned_nodes ≡ length (F.shape.heights (witness.size - 1)) }
    ensures witness { IfOk result (λ v. v.witness ≡ witness) }
    ensures proof { IfOk result (λ v. ProvesCommit F.shape H.hash witness floor v.proof) }
    ensures memory { IsOkUnless result Error.Memory }
{
    let below = Location::new(floor.as_u64());
    if let Some(proof) = pinned_proof::<F, H::Digest>(alloc, &witness, below)? {
        return Ok(Shown { witness, proof });
    }
    let before = witness.size.as_u64() - 1;
    let pins = witness.pinned_nodes.into_vec();
    let merkle = tree_with_commit::<F, H>(alloc, before, pins, &witness.op_bytes)?;
    let shown = shown_in::<F, H>(alloc, &merkle, floor, witness.op_bytes)?;
    Ok(shown)
}

/// What is shown of the state of a witness, and its commit. No root is folded. It refuses as `rebuild`.
pub(crate) fn shown_of<F: Family, O: CompactOperation, H: Hasher>(
    alloc: Global,
    codec: &O::Cfg,
    witness: Witness<F, H::Digest>,
) -> Result<(Shown<F, H::Digest>, O), Error<F>>
    ensures answer { let answer =
        rebuild_answer F.shape O.meaning (λ bytes. whole (O.reads codec.now bytes)) witness in
        IfOk result (λ r. answer ≡ Ok r.1) }
    ensures refused { let answer =
        rebuild_answer F.shape O.meaning (λ bytes. whole (O.reads codec.now bytes)) witness in
        RefusedOnlyAs answer result }
    ensures witness { IfOk result (λ r. r.0.witness ≡ witness) }
    // Of any witness, it is the proof of the commit by the witness's pins.
    ensures proof { IfOk result (λ r. (floor : ℕ) → O.meaning.floor r.1 ≡ Some floor →
        ProvesCommit F.shape H.hash witness floor r.0.proof) }
    // Of the witness of a list, whose commit is allowed, it is what is shown of the list's state.
    ensures list { IfOk result (λ r. (ops : List O) → EndsWithCommit O.meaning ops → length ops ≤ 2 ^ 62 →
        ((op : O) → slice_get ops (length ops - 1) ≡ Some op → O.admits codec.now op) →
        witness ≡ witness_of F.shape H.hash O.meaning ops (length ops) →
        IsShownOf r.0.witness r.0.proof (verified_of F.shape H.hash O.meaning ops)
        × (slice_get ops (length ops - 1) ≡ Some r.1)) }
{
    let (commit, floor) = commit_of::<F, O, H::Digest>(alloc, codec, &witness)?;
    let shown = shown_under::<F, H>(alloc, witness, floor)?;
    Ok((shown, commit))
}

/// The state of a witness, and its commit. Refuses, in this order: `DataCorrupted` of `Witness`, where its size is
/// that of no list that ends with a commit; of `CommitOperation`, where its bytes are no operation's; of
/// `NotACommit`; of `Witness`, where the commit is earlier than its floor, or the pins are more or fewer than the
/// peaks before it; or with `Memory`.
pub fn rebuild<F: Family, O: CompactOperation, H: Hasher>(
    alloc: Global,
    codec: &O::Cfg,
    witness: Witness<F, H::Digest>,
) -> Result<Rebuilt<F, O, H::Digest>, Error<F>>
    ensures answer { let answer =
        rebuild_answer F.shape O.meaning (λ bytes. whole (O.reads codec.now bytes)) witness in
        IfOk result (λ r. answer ≡ Ok r.commit) }
    ensures refused { let answer =
        rebuild_answer F.shape O.meaning (λ bytes. whole (O.reads codec.now bytes)) witness in
        RefusedOnlyAs answer result }
    ensures leaves { IfOk result (λ r. r.merkle.leaves ≡ witness.size) }
    ensures some { IfOk result (λ r. 0 < witness.size) }
    ensures witness { IfOk result (λ r. r.tip.witness ≡ witness) }
    ensures frontier { IfOk result (λ r. IsFrontier F.shape r.merkle) }
    // Of the witness of a list, whose commit is allowed, it makes the list's state.
    ensures list { IfOk result (λ r. (ops : List O) → EndsWithCommit O.meaning ops → length ops ≤ 2 ^ 62 →
        ((op : O) → slice_get ops (length ops - 1) ≡ Some op → O.admits codec.now op) →
        witness ≡ witness_of F.shape H.hash O.meaning ops (length ops) →
        IsStateOf F.shape H.hash O.meaning ops r.tip r.merkle r.commit) }
{
    let (commit, floor) = commit_of::<F, O, H::Digest>(alloc, codec, &witness)?;
    let before = witness.size.as_u64() - 1;
    let pins = witness.pinned_nodes.into_vec();
    let (tip, merkle) = restored::<F, H>(alloc, before, pins, witness.op_bytes, floor)?;
    Ok(Rebuilt {
        tip,
        merkle,
        commit,
    })
}
