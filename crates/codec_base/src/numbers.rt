ghost use Rattle.std.specs.Prelude.{◌≡◌, ◌<◌, ◌^◌, ℕ, List, [], ◌∷◌, ◌++◌, length};
ghost use Rattle.codec_base.specs.Codec.{Takes};
ghost use Rattle.codec_base.specs.Numbers.{byte_at, u64_at};
ghost use Rattle.codec_base.specs.Laws.{one_byte, below_256, byte_lawful, eight_bytes, below_64, u64_lawful};

use crate::{Bytes, CodecError, Cursor, EncodeSize, FixedSize, Read, Spelled, Write};
use std::alloc::Global;

impl Spelled for u8 {
    ghost spelling = { one_byte };
}

impl Write for u8 {
    fn write(&self, out: &mut Bytes) -> Result<(), CodecError> {
        out.push(*self)
    }
}

impl EncodeSize for u8 {
    fn encode_size(&self) -> u64 {
        1
    }
}

impl Read for u8 {
    type Cfg = ();

    ghost admits = { λ _. below_256 };

    ghost reads = { λ _. byte_at };

    ghost lawful = { λ _. byte_lawful };

    fn read(_alloc: Global, buf: &mut Cursor<'_>, _cfg: &()) -> Result<Self, CodecError> {
        buf.byte()
    }
}

impl FixedSize for u8 {
    ghost use Rattle.std.specs.Prelude.{refl};

    ghost width = { 1 };

    ghost one_width = { λ _ x h. refl };

    fn size() -> u64 {
        1
    }
}

impl Spelled for u64 {
    ghost spelling = { eight_bytes };
}

impl Write for u64 {
    fn write(&self, out: &mut Bytes) -> Result<(), CodecError> {
        out.extend_from_slice(&self.to_be_bytes())
    }
}

impl EncodeSize for u64 {
    fn encode_size(&self) -> u64 {
        8
    }
}

impl Read for u64 {
    type Cfg = ();

    ghost admits = { λ _. below_64 };

    ghost reads = { λ _. u64_at };

    ghost lawful = { λ _. u64_lawful };

    fn read(_alloc: Global, buf: &mut Cursor<'_>, _cfg: &()) -> Result<Self, CodecError> {
        buf.number()
    }
}

impl FixedSize for u64 {
    ghost use Rattle.std.specs.Prelude.{refl};

    ghost width = { 8 };

    ghost one_width = { λ _ x h. refl };

    fn size() -> u64 {
        8
    }
}
