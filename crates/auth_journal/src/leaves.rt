//! Leaves of items, put behind those of a tree.
ghost use Rattle.std.specs.Prelude.{◌≡◌, ℕ, ◌+◌, ◌≤◌, ◌^◌, List, ◌++◌, length, OnOk, IfOk, IsOkUnless};
ghost use Rattle.tree_shape.specs.Slow.{leaf_digests};
ghost use Rattle.tree_core.specs.Applied.{IsLonger, FitsTree};
ghost use Rattle.tree_core.specs.Batches.{IsSealedOf, leaf_count, with_digests};
ghost use Rattle.tree_core.specs.Tree.{IsOf};
ghost use Rattle.volume_base.specs.Moments.{Image};
ghost use Rattle.merkle_full.specs.Full.{IsBeside};
ghost use Rattle.merkle_full.specs.Lists.{IsFullOf};
ghost use Rattle.auth_journal.specs.Batched.{leaves_from};
ghost use Rattle.auth_journal.specs.Joined.{leaves_of};

use crate::Error;
use codec_base::{Bytes, Write};
use journal_base::encode_all;
use merkle_full::Merkle;
use std::alloc::Global;
use tree_core::{Family, Hasher, MerkleizedBatch, Standard, UnmerkleizedBatch};

/// Adds a leaf for each of these encodings.
fn add_leaves<F: Family, H: Hasher>(
    batch: &mut UnmerkleizedBatch<F, H::Digest>,
    hasher: &Standard<H>,
    encodings: &[Bytes],
) -> Result<(), Error<F>>
    requires { leaf_count batch.old + length encodings.now ≤ 2 ^ 62 }
    ensures leaves { OnOk result (batch.new ≡ with_digests batch.old
        (leaves_from F.shape H.hash (leaf_count batch.old) encodings.now)) }
    ensures memory { IsOkUnless result Error.Memory }
{
    for i in 0..encodings.len() {
        match batch.add(hasher, encodings[i].as_slice()) {
            Ok(()) => {}
            Err(_) => return Err(Error::Memory),
        }
    }
    Ok(())
}

/// The leaves of the items of which these are the encodings, as a sealed batch on a tree.
pub(crate) fn sealed_leaves<F: Family, H: Hasher>(
    merkle: &Merkle<F, H::Digest>,
    hasher: &Standard<H>,
    encodings: &[Bytes],
) -> Result<MerkleizedBatch<F, H::Digest>, Error<F>>
    requires few { merkle.now.tree.leaves + length encodings.now ≤ 2 ^ 62 }
    ensures fits { IfOk result (λ b. FitsTree F.shape merkle.now.tree b 0) }
    ensures leaves { IfOk result (λ b. b.leaves ≡ merkle.now.tree.leaves + length encodings.now) }
    ensures batch { IfOk result (λ b. (elements : List (List ℕ)) →
        IsOf F.shape H.hash (leaf_digests F.shape H.hash elements) merkle.now.tree →
        IsSealedOf F.shape H.hash (leaf_digests F.shape H.hash (elements ++ encodings.now)) b) }
    ensures memory { IsOkUnless result Error.Memory }
{
    let mut batch = match merkle.new_batch() {
        Ok(batch) => batch,
        Err(_) => return Err(Error::Memory),
    };
    add_leaves(&mut batch, hasher, encodings)?;
    match batch.merkleize(hasher, 0) {
        Ok(sealed) => Ok(sealed),
        Err(_) => Err(Error::Memory),
    }
}

/// The tree with a leaf for each of these items behind its own.
pub(crate) fn with_leaves<F: Family, H: Hasher, T: Write>(
    alloc: Global,
    merkle: Merkle<F, H::Digest>,
    hasher: &Standard<H>,
    items: &[T],
) -> Result<Merkle<F, H::Digest>, Error<F>>
    requires few { merkle.tree.leaves + length items.now ≤ 2 ^ 62 }
    ensures beside { IfOk result (λ t. IsBeside merkle t) }
    ensures longer { IfOk result (λ t.
        IsLonger F.shape (merkle.tree.leaves + length items.now) merkle.tree t.tree) }
    ensures full { let admits = H.Digest.Read.admits tt in IfOk result (λ t. (list : List T) (image : Image) →
        IsFullOf F.shape H.hash H.Digest.spelling admits (leaves_of F.shape H.hash T.spelling list) merkle image →
        IsFullOf F.shape H.hash H.Digest.spelling admits
        (leaves_of F.shape H.hash T.spelling (list ++ items.now)) t image) }
    ensures memory { IsOkUnless result Error.Memory }
{
    let encodings = encode_all(alloc, items)?;
    let batch = sealed_leaves(&merkle, hasher, &encodings)?;
    match merkle.apply_batch(&batch) {
        Ok(longer) => Ok(longer),
        Err(_) => Err(Error::Memory),
    }
}
