//! Whole byte strings.
ghost use Rattle.std.specs.Prelude.{◌≡◌, ℕ, List, [], ◌∷◌, ◌++◌, length, Ok, IfOk, IsErrOf, IsOkUnless};
ghost use Rattle.codec_base.specs.Codec.{Gives};
ghost use Rattle.codec_base.specs.Parts.{whole};

use crate::error::InvalidAt;
use crate::{Bytes, CodecError, Cursor, Read, Write};
use std::alloc::Global;

/// The room that a spelling begins with, in bytes: that of a digest.
const ROOM: usize = 32;

/// The spelling of a value. It fails for want of memory alone.
pub fn encode<T: Write>(alloc: Global, value: &T) -> Result<Bytes, CodecError>
    ensures spelled { IfOk result (λ bytes. bytes ≡ T.spelling value.now) }
    ensures memory { IsOkUnless result CodecError.Memory }
{
    let mut out = Bytes::from_vec(Vec::with_capacity(alloc, ROOM)?);
    value.write(&mut out)?;
    Ok(out)
}

/// The value that a byte string spells, whole: the first fault of reading it, or `Invalid` as extra data where bytes
/// are left behind it.
pub fn decode<T: Read + Drop>(alloc: Global, bytes: &[u8], cfg: &T::Cfg) -> Result<T, CodecError>
    // What is read is spelled so, and allowed.
    ensures found { IfOk result (λ x. (bytes.now ≡ T.spelling x) × T.admits cfg.now x) }
    // What is spelled so and allowed is read, unless memory runs out.
    ensures only { (x : T) → T.admits cfg.now x → bytes.now ≡ T.spelling x → Gives result (Ok x) }
    // Another refusal than want of memory comes only where nothing allowed is spelled so.
    ensures refused { (e : CodecError) → IsErrOf result e → (e ≡ CodecError.Memory → ⊥) → (x : T) →
        T.admits cfg.now x → bytes.now ≡ T.spelling x → ⊥ }
    // Which refusal it is.
    ensures exact { Gives result (whole (T.reads cfg.now bytes.now)) }
{
    whole_of(alloc, bytes, cfg)
}

fn whole_of<T: Read + Drop>(alloc: Global, bytes: &[u8], cfg: &T::Cfg) -> Result<T, CodecError>
    ensures { Gives result (whole (T.reads cfg.now bytes.now)) }
{
    let mut buf = Cursor::new(bytes);
    let value = T::read(alloc, &mut buf, cfg)?;
    if buf.remaining() > 0 {
        return Err(CodecError::Invalid(InvalidAt::ExtraData));
    }
    Ok(value)
}
