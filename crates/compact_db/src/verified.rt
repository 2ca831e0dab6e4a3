//! What is derived from a witness.
ghost use Rattle.std.specs.Prelude.{◌≡◌, ◌<◌, ◌≤◌, ◌-◌, List, map, IfOk, IsOkUnless};
ghost use Rattle.tree_shape.specs.Shape.{peaks};
ghost use Rattle.tree_shape.specs.Slow.{node_of};
ghost use Rattle.tree_core.specs.Tree.{IsOf, IsSound};
ghost use Rattle.compact_db.specs.Derived.{ArePinsIn, IsDerivedOf, IsRootOver, ProvesLast};
ghost use Rattle.compact_db.specs.Verified.{root_under, verified_leaves, IsShownOf};

use codec_base::{Bytes, ListOf};
use merkle_compact::Merkle;
use std::alloc::Global;
use tree_core::{Bagging, Error, Family, Hasher, Location, Mem, Proof, Standard};
use witness_store::Witness;

/// A witness, the root of its state, and the proof of its commit.
#[derive(Drop)]
pub struct VerifiedWitness<F, D> {
    pub witness: Witness<F, D>,
    pub root: D,
    pub proof: Proof<F, D>,
}

/// What is shown of a state: its witness, and the proof of its commit.
#[derive(Drop)]
pub(crate) struct Shown<F, D> {
    pub witness: Witness<F, D>,
    pub proof: Proof<F, D>,
}

/// The peaks of so many leaves of a tree, the oldest first.
fn pins_before<F: Family, H: Hasher>(
    alloc: Global,
    mem: &Mem<F, H::Digest>,
    leaves: u64,
) -> Result<Vec<H::Digest>, Error<F>>
    requires sound { IsSound F.shape mem.now }
    requires kept { mem.now.boundary ≤ leaves }
    requires within { leaves ≤ mem.now.leaves }
    ensures pins { IfOk result (λ pins. (all : List H.Digest) → IsOf F.shape H.hash all mem.now →
        pins.items ≡ map (node_of F.shape H.hash all) (peaks F.shape leaves)) }
    ensures nodes { IfOk result (λ pins. ArePinsIn F.shape mem.now leaves pins.items) }
    ensures memory { IsOkUnless result Error.Memory }
{
    let mut pins = Vec::new(alloc);
    for position in F::nodes_to_pin(Location::new(leaves)) {
        match mem.get_node(position) {
            Some(digest) => pins.push(digest)?,
            None => unreachable!(),
        }
    }
    Ok(pins)
}

/// What is shown of a state, from a tree whose last leaf is the commit of these bytes and this floor, and which keeps
/// what stands before that leaf. Nothing is hashed. It refuses with `Memory` alone.
pub(crate) fn shown_in<F: Family, H: Hasher>(
    alloc: Global,
    merkle: &Merkle<F, H::Digest>,
    floor: Location<F>,
    op_bytes: Bytes,
) -> Result<Shown<F, H::Digest>, Error<F>>
    requires kept { merkle.now.boundary < merkle.now.leaves }
    ensures verified { IfOk result (λ v. (all : List H.Digest) → IsOf F.shape H.hash all merkle.now →
        IsShownOf v.witness v.proof (verified_leaves F.shape H.hash all op_bytes floor)) }
    // Of whichever tree, it is what the tree's nodes make.
    ensures pinned { IfOk result (λ v.
        ArePinsIn F.shape merkle.now (merkle.now.leaves - 1) v.witness.pinned_nodes) }
    ensures proof { IfOk result (λ v. ProvesLast F.shape merkle.now floor v.proof) }
    ensures size { IfOk result (λ v. v.witness.size ≡ merkle.now.leaves) }
    ensures bytes { IfOk result (λ v. v.witness.op_bytes ≡ op_bytes) }
    ensures memory { IsOkUnless result Error.Memory }
{
    let size = merkle.leaves().as_u64();
    let inactive = F::inactive_peaks(Location::new(size), floor);
    let pins = pins_before::<F, H>(alloc, merkle.mem(), size - 1)?;
    let proof = merkle.mem().proof(Location::new(size - 1), inactive)?;
    let witness = Witness {
        op_bytes,
        size: Location::new(size),
        pinned_nodes: ListOf::from_vec(pins),
    };
    Ok(Shown { witness, proof })
}

/// What is derived of a state with this root: what `shown_in` says, and the root. Nothing is hashed. It refuses with
/// `Memory` alone.
pub(crate) fn witness_under<F: Family, H: Hasher>(
    alloc: Global,
    merkle: &Merkle<F, H::Digest>,
    root: H::Digest,
    floor: Location<F>,
    op_bytes: Bytes,
) -> Result<VerifiedWitness<F, H::Digest>, Error<F>>
    requires kept { merkle.now.boundary < merkle.now.leaves }
    ensures verified { IfOk result (λ v. (all : List H.Digest) → IsOf F.shape H.hash all merkle.now →
        root ≡ root_under F.shape H.hash all floor →
        v ≡ verified_leaves F.shape H.hash all op_bytes floor) }
    // Of whichever tree whose root this is, it is what the tree's nodes make.
    ensures derived { IfOk result (λ v. IsRootOver F.shape H.hash merkle.now floor root →
        IsDerivedOf F.shape H.hash merkle.now op_bytes floor v) }
    ensures size { IfOk result (λ v. v.witness.size ≡ merkle.now.leaves) }
    ensures bytes { IfOk result (λ v. v.witness.op_bytes ≡ op_bytes) }
    ensures root { IfOk result (λ v. v.root ≡ root) }
    ensures memory { IsOkUnless result Error.Memory }
{
    let shown = shown_in::<F, H>(alloc, merkle, floor, op_bytes)?;
    Ok(VerifiedWitness {
        witness: shown.witness,
        root,
        proof: shown.proof,
    })
}

/// What is derived of a state, from a tree whose last leaf is the commit of these bytes and this floor, and which keeps
/// what stands before that leaf. It refuses with `Memory` alone.
pub fn build_witness<F: Family, H: Hasher>(
    alloc: Global,
    merkle: &Merkle<F, H::Digest>,
    floor: Location<F>,
    op_bytes: Bytes,
) -> Result<VerifiedWitness<F, H::Digest>, Error<F>>
    requires kept { merkle.now.boundary < merkle.now.leaves }
    ensures verified { IfOk result (λ v. (all : List H.Digest) → IsOf F.shape H.hash all merkle.now →
        v ≡ verified_leaves F.shape H.hash all op_bytes floor) }
    // Of whichever tree, it is what the tree's nodes make.
    ensures derived { IfOk result (IsDerivedOf F.shape H.hash merkle.now op_bytes floor) }
    ensures size { IfOk result (λ v. v.witness.size ≡ merkle.now.leaves) }
    ensures bytes { IfOk result (λ v. v.witness.op_bytes ≡ op_bytes) }
    ensures memory { IsOkUnless result Error.Memory }
{
    let size = merkle.leaves().as_u64();
    let hasher = Standard::<H>::new(Bagging::ForwardFold);
    let below = Location::new(floor.as_u64());
    let inactive = F::inactive_peaks(Location::new(size), below);
    let root = merkle.root(&hasher, inactive)?;
    witness_under::<F, H>(alloc, merkle, root, floor, op_bytes)
}
