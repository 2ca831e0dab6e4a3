ghost use Rattle.std.specs.Prelude.{◌≡◌, IfOk, IsOkUnless};

use crate::CodecError;

/// What can be copied where memory allows.
pub trait Duplicate: Sized {
    /// A copy that is equal to its source.
    fn duplicate(&self) -> Result<Self, CodecError>
        ensures same { IfOk result (λ copy. copy ≡ self.now) }
        ensures memory { IsOkUnless result CodecError.Memory };
}

impl Duplicate for u8 {
    fn duplicate(&self) -> Result<Self, CodecError> {
        Ok(*self)
    }
}

impl Duplicate for u64 {
    fn duplicate(&self) -> Result<Self, CodecError> {
        Ok(*self)
    }
}

impl<T: Duplicate> Duplicate for Option<T> {
    fn duplicate(&self) -> Result<Self, CodecError> {
        match self {
            None => Ok(None),
            Some(value) => {
                let copy = value.duplicate()?;
                Ok(Some(copy))
            }
        }
    }
}
