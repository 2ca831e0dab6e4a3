//! Encodings of items.
ghost use Rattle.std.specs.Prelude.{◌≡◌, map, IfOk, IsOkUnless};

use codec_base::{Bytes, Write, encode};
use std::alloc::Global;
use volume_base::JournalError;

/// The encodings of items, in their order.
pub fn encode_all<T: Write>(alloc: Global, items: &[T]) -> Result<Vec<Bytes>, JournalError>
    ensures same { IfOk result (λ v. v.items ≡ map T.spelling items.now) }
    ensures memory { IsOkUnless result JournalError.Memory }
{
    let mut encodings = Vec::with_capacity(alloc, items.len())?;
    for item in items {
        encodings.push(encode_one(alloc, item)?)?;
    }
    Ok(encodings)
}

/// The encoding of an item.
pub fn encode_one<T: Write>(alloc: Global, item: &T) -> Result<Bytes, JournalError>
    ensures same { IfOk result (λ encoding. encoding ≡ T.spelling item.now) }
    ensures memory { IsOkUnless result JournalError.Memory }
{
    match encode(alloc, item) {
        Ok(encoding) => Ok(encoding),
        Err(_) => Err(JournalError::Memory),
    }
}
