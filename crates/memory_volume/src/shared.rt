ghost use Rattle.std.specs.Prelude.{◌≡◌, IfOk, IsOkUnless};

use codec_base::{Bytes, ListOf};
use std::alloc::{AllocError, Global};
use std::marker::Model;
use std::rc::Rc;
use volume_base::VolumeError;

/// A value with several owners, which contracts see as that value.
#[derive(Drop)]
pub struct Shared<T> {
    owned: Rc<T>,
}

impl<T> Model for Shared<T> {
    ghost Value = { T };

    ghost view = { λ s. s.owned.value };
}

impl<T: Drop> Shared<T> {
    /// A value with one owner.
    pub fn new(alloc: Global, value: T) -> Result<Self, AllocError>
        ensures { IfOk result (λ made. made ≡ value) }
    {
        let owned = Rc::new(alloc, value)?;
        Ok(Shared { owned })
    }

    /// One owner more. It takes no memory, and fails where there are 2^64 - 1.
    pub fn share(&self) -> Result<Self, AllocError>
        ensures { IfOk result (λ made. made ≡ self.now) }
    {
        let owned = self.owned.clone()?;
        Ok(Shared { owned })
    }

    /// The value that the owners share.
    pub fn get(&self) -> &T
        ensures { result.now ≡ self.now }
    {
        &self.owned
    }
}

/// A copy of these bytes, to be shared.
pub fn shared_bytes(alloc: Global, bytes: &[u8]) -> Result<Shared<Bytes>, VolumeError>
    ensures same { IfOk result (λ made. made ≡ bytes.now) }
    ensures memory { IsOkUnless result VolumeError.Memory }
{
    let Ok(copy) = Bytes::from_slice(alloc, bytes) else {
        return Err(VolumeError::Memory);
    };
    let made = Shared::new(alloc, copy)?;
    Ok(made)
}

/// Copies of these items, to be shared.
pub fn shared_items(alloc: Global, items: &[Bytes]) -> Result<ListOf<Shared<Bytes>>, VolumeError>
    ensures same { IfOk result (λ made. made ≡ items.now) }
    ensures memory { IsOkUnless result VolumeError.Memory }
{
    let mut made = Vec::with_capacity(alloc, items.len())?;
    for item in items {
        made.push(shared_bytes(alloc, item.as_slice())?)?;
    }
    Ok(ListOf::from_vec(made))
}
