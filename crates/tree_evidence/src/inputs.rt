//! What is hashed in a tree, byte for byte.
ghost use Rattle.std.specs.Prelude.{◌≡◌, ◌≤◌, ℕ, ◌∷◌, ◌++◌, length, IfOk, OnOk};
ghost use Rattle.tree_shape.specs.Hashing.{number, leaf_input, node_input, fold_input};
ghost use Rattle.tree_shape.specs.Root.{root_input};

use codec_base::Bytes;
use std::alloc::{AllocError, Global};
use tree_shape::{Bagging, Digest, Hasher};

/// Adds a number in 8 bytes, the high one first.
#[tactic(auto, unfolding(tree_shape::specs::Hashing::number))]
fn push_number(bytes: &mut Vec<u8>, n: u64) -> Result<(), AllocError>
    ensures { OnOk result (bytes.new.items ≡ bytes.old.items ++ number n) }
{
    bytes.extend_from_slice(&n.to_be_bytes())?;
    Ok(())
}

/// A byte, and a number in 8 bytes.
fn numbered(alloc: Global, tag: u8, n: u64) -> Result<Vec<u8>, AllocError>
    ensures { IfOk result (λ bytes. bytes.items ≡ tag ∷ number n) }
{
    let mut bytes = Vec::new(alloc);
    bytes.push(tag)?;
    push_number(&mut bytes, n)?;
    Ok(bytes)
}

/// The input of the leaf at a position.
pub(crate) fn leaf_bytes(alloc: Global, pos: u64, element: &[u8]) -> Result<Bytes, AllocError>
    ensures { IfOk result (λ bytes. bytes ≡ leaf_input pos element.now) }
{
    let mut bytes = numbered(alloc, 0, pos)?;
    bytes.extend_from_slice(element)?;
    Ok(Bytes::from_vec(bytes))
}

/// The input of the node at a position, over its children.
pub(crate) fn node_bytes<H: Hasher>(
    alloc: Global,
    pos: u64,
    left: &H::Digest,
    right: &H::Digest,
) -> Result<Bytes, AllocError>
    ensures { IfOk result (λ bytes. bytes ≡ node_input H.hash pos left.now right.now) }
{
    let mut bytes = numbered(alloc, 1, pos)?;
    bytes.extend_from_slice(left.as_slice())?;
    bytes.extend_from_slice(right.as_slice())?;
    Ok(Bytes::from_vec(bytes))
}

/// The input of the fold of two digests.
pub(crate) fn fold_bytes<H: Hasher>(
    alloc: Global,
    a: &H::Digest,
    b: &H::Digest,
) -> Result<Bytes, AllocError>
    ensures { IfOk result (λ bytes. bytes ≡ fold_input H.hash a.now b.now) }
{
    let mut bytes = Vec::new(alloc);
    bytes.push(2)?;
    bytes.extend_from_slice(a.as_slice())?;
    bytes.extend_from_slice(b.as_slice())?;
    Ok(Bytes::from_vec(bytes))
}

/// The input of the root of a number of leaves, with the bytes of the folded peaks.
pub(crate) fn root_bytes(
    alloc: Global,
    leaves: u64,
    inactive: u64,
    bagging: Bagging,
    folded: &[u8],
) -> Result<Bytes, AllocError>
    ensures { IfOk result (λ bytes. bytes ≡ root_input leaves inactive bagging folded.now) }
{
    let mut bytes = numbered(alloc, 3, leaves)?;
    push_number(&mut bytes, inactive)?;
    bytes.push(bagging.byte())?;
    bytes.extend_from_slice(folded)?;
    Ok(Bytes::from_vec(bytes))
}
