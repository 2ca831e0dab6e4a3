//! A location is written as a varint.
ghost use Rattle.codec_base.specs.Varint.{varint, varint_at};
ghost use Rattle.codec_base.specs.VarintLaws.{varint_lawful};
ghost use Rattle.codec_base.specs.Laws.{below_64};

use crate::Location;
use codec_base::{
    Bytes, CodecError, Cursor, EncodeSize, Read, Spelled, Write, read_varint, varint_size,
    write_varint,
};
use std::alloc::Global;

impl<F> Spelled for Location<F> {
    ghost spelling = { varint };
}

impl<F> Write for Location<F> {
    fn write(&self, out: &mut Bytes) -> Result<(), CodecError> {
        write_varint(self.as_u64(), out)?;
        Ok(())
    }
}

impl<F> EncodeSize for Location<F> {
    fn encode_size(&self) -> u64 {
        varint_size(self.as_u64())
    }
}

impl<F> Read for Location<F> {
    type Cfg = ();

    ghost admits = { λ _. below_64 };

    ghost reads = { λ _. varint_at };

    ghost lawful = { λ _. varint_lawful };

    fn read(_alloc: Global, buf: &mut Cursor<'_>, _cfg: &()) -> Result<Self, CodecError> {
        let value = read_varint(buf)?;
        Ok(Location::new(value))
    }
}
