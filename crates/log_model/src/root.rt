ghost use Rattle.std.specs.Prelude.{◌≡◌, ◌≤◌, ◌<◌, ◌+◌, ◌^◌, ◌++◌, ◌∷◌, [], List, length, IfOk, OnOk, OnErr, IsOkUnless};
ghost use Rattle.tree_shape.specs.Slow.{leaf};
ghost use Rattle.log_model.specs.Operations.{floor_of, leaves_from, root_of};

use crate::Logged;
use codec_base::{CodecError, encode};
use std::alloc::Global;
use tree_shape::{Bagging, Family, Hasher, Location, Position, Standard, slow_root};

/// The floor of the commit that ends a list, and 0 where none does. It takes no memory.
pub fn floor_of_operations<O: Logged>(operations: &[O]) -> u64
    ensures { result ≡ floor_of O.meaning operations.now }
{
    match operations {
        [.., last] => last.commit_floor().unwrap_or(0),
        [] => 0,
    }
}

/// Adds the digest of the leaf that the next operation of a list is.
fn push_leaf<F: Family, H: Hasher, O: Logged>(
    alloc: Global,
    hasher: &Standard<H>,
    leaves: &mut Vec<H::Digest>,
    operation: &O,
) -> Result<(), CodecError>
    requires { length leaves.old.items < 2 ^ 62 }
    ensures leaf { OnOk result (leaves.new.items ≡ leaves.old.items ++
        leaf F.shape H.hash (length leaves.old.items) (O.meaning.encoding operation.now) ∷ []) }
    ensures err { OnErr result (leaves.new.items ≡ leaves.old.items) }
    ensures memory { IsOkUnless result CodecError.Memory }
{
    let bytes = encode(alloc, operation)?;
    let position = Position::<F>::new(F::position(leaves.len() as u64, 0));
    leaves.push(hasher.leaf_digest(position, bytes.as_slice()))?;
    Ok(())
}

/// Adds the digests of the leaves that more operations of a list are, or of none.
pub fn push_leaves<F: Family, H: Hasher, O: Logged>(
    alloc: Global,
    hasher: &Standard<H>,
    leaves: &mut Vec<H::Digest>,
    operations: &[O],
) -> Result<(), CodecError>
    requires { length leaves.old.items + length operations.now ≤ 2 ^ 62 }
    ensures leaves { OnOk result (leaves.new.items ≡ leaves.old.items ++
        leaves_from F.shape H.hash O.meaning (length leaves.old.items) operations.now) }
    ensures count { OnOk result (length leaves.new.items ≡ length leaves.old.items + length operations.now) }
    ensures err { OnErr result (leaves.new.items ≡ leaves.old.items) }
    ensures memory { IsOkUnless result CodecError.Memory }
{
    let before = leaves.len();
    for i in 0..operations.len() {
        if push_leaf::<F, H, O>(alloc, hasher, leaves, &operations[i]).is_err() {
            leaves.truncate(before);
            return Err(CodecError::Memory);
        }
    }
    Ok(())
}

/// The root of the list of operations whose leaves these are and whose floor this is, by hashing all nodes.
pub fn root_of_leaves<F: Family, H: Hasher, O: Logged>(
    alloc: Global,
    leaves: &[H::Digest],
    floor: u64,
) -> Result<H::Digest, CodecError>
    requires { length leaves.now ≤ 2 ^ 62 }
    ensures root { (ops : List O) → leaves.now ≡ leaves_from F.shape H.hash O.meaning 0 ops →
        floor ≡ floor_of O.meaning ops → IfOk result (λ root. root ≡ root_of F.shape H.hash O.meaning ops) }
    ensures memory { IsOkUnless result CodecError.Memory }
{
    let hasher = Standard::<H>::new(Bagging::ForwardFold);
    let count = Location::new(leaves.len() as u64);
    let below = Location::new(floor);
    let inactive = F::inactive_peaks(count, below);
    Ok(slow_root::<F, H>(alloc, &hasher, leaves, inactive)?)
}
