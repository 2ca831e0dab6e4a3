//! Zeros behind a value that is shorter than its place.
ghost use Rattle.std.specs.Prelude.{◌≡◌, ◌<◌, ◌^◌, ℕ, List, ◌++◌, length, take, OnOk, OnErr, IsErrOf, IsOkUnless};
ghost use Rattle.codec_base.specs.Codec.{TakesAs};
ghost use Rattle.codec_base.specs.Combine.{zeros, zeros_at};

use crate::error::InvalidAt;
use crate::{Bytes, CodecError, Cursor, undo_on_err};

/// Takes this many zeros. An end before the last is `EndOfBuffer`, another byte is `Invalid` at the padding,
/// whichever comes first; on an error the cursor stays.
pub fn read_zeros(buf: &mut Cursor<'_>, count: u64) -> Result<(), CodecError>
    ensures taken { TakesAs (λ _. tt) result buf.new (zeros_at count buf.old) }
    ensures no_memory { IsErrOf result CodecError.Memory → ⊥ }
    ensures err { OnErr result (buf.new ≡ buf.old) }
{
    let mut ahead = buf.copy();
    for _ in 0..count {
        if ahead.byte()? != 0 {
            return Err(CodecError::Invalid(InvalidAt::Padding));
        }
    }
    *buf = ahead;
    Ok(())
}

/// Adds this many zeros. It fails for want of memory alone, and then adds nothing.
pub fn write_zeros(count: u64, out: &mut Bytes) -> Result<(), CodecError>
    ensures ok { OnOk result (out.new ≡ out.old ++ zeros count) }
    ensures err { OnErr result (out.new ≡ out.old) }
    ensures few { OnOk result (count < 2 ^ 63) }
    ensures memory { IsOkUnless result CodecError.Memory }
{
    let length = out.len();
    for _ in 0..count {
        undo_on_err(out.push(0), length, out)?;
    }
    let _length = out.len();
    Ok(())
}
