//! How a list begins.
ghost use Rattle.std.specs.Prelude.{◌≡◌, ◌∷◌, [], None, IfOk, IsOkUnless};
ghost use Rattle.log_model.specs.Operations.{root_of};

use crate::KeylessOperation;
use chain_core::Error;
use codec_base::encode;
use std::alloc::Global;
use tree_core::{Bagging, Family, Hasher, Location, Mem, Standard};

/// The root of the first commit alone, which has no metadata and the floor 0. It refuses with `Memory` alone.
pub fn initial_root<F: Family, O: KeylessOperation, H: Hasher>(
    alloc: Global,
) -> Result<H::Digest, Error<F>>
    ensures root { IfOk result (λ d. d ≡ root_of F.shape H.hash O.meaning (O.committed None 0 ∷ [])) }
    ensures memory { IsOkUnless result Error.Memory }
{
    let hasher = Standard::<H>::new(Bagging::ForwardFold);
    let Ok(encoding) = encode(alloc, &O::commit(None, 0)) else {
        return Err(Error::Memory);
    };
    let Ok(tree) = Mem::<F, H::Digest>::new(alloc) else {
        return Err(Error::Memory);
    };
    let Ok(mut batch) = tree.new_batch() else {
        return Err(Error::Memory);
    };
    let Ok(()) = batch.add(&hasher, encoding.as_slice()) else {
        return Err(Error::Memory);
    };
    let Ok(sealed) = batch.merkleize(&hasher, 0) else {
        return Err(Error::Memory);
    };
    let inactive = F::inactive_peaks(sealed.leaves(), Location::new(0));
    let Ok(root) = sealed.root(&hasher, inactive) else {
        return Err(Error::Memory);
    };
    Ok(root)
}
