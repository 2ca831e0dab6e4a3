ghost use Rattle.codec_base.specs.Codec.{Takes};
ghost use Rattle.op_codec.specs.Commits.{padded_at};
ghost use Rattle.op_codec.specs.Keyless.{parts, fixed_width, fixed_spelling, fixed_admits, fixed_at, fixed_lawful, fixed_length};

use super::{APPEND_CONTEXT, COMMIT_CONTEXT, Codec, Operation};
use crate::FixedEncoding;
use crate::commit::{commit_fixed_size, read_commit_fixed, write_commit_fixed};
use codec_base::{
    Bytes, CodecError, Cursor, Duplicate, EncodeSize, FixedSize, Read, Write, read_zeros,
    undo_on_err, write_zeros,
};
use std::alloc::Global;
use tree_shape::Family;

/// The zeros behind an appended value, in the place of a commit's option byte and floor.
const PADDING: u64 = 9;

impl<V: Write + EncodeSize + FixedSize + Read + Duplicate + Drop> Codec for FixedEncoding<V> {
    type ReadCfg = V::Cfg;

    ghost spelling = { fixed_spelling V.width V.spelling };

    ghost admits = { λ cfg. fixed_admits (V.admits cfg) };

    ghost reads = { λ cfg. fixed_at V.width (V.reads cfg) };

    ghost lawful = { λ cfg. fixed_lawful V.spelling (V.admits cfg) (V.reads cfg) (V.lawful cfg) V.width
        (V.one_width cfg) };

    fn write_operation<F: Family>(
        op: &Operation<F, Self>,
        out: &mut Bytes,
    ) -> Result<(), CodecError> {
        let length = out.len();
        match op {
            Operation::Append(value) => {
                out.push(APPEND_CONTEXT)?;
                undo_on_err(value.write(out), length, out)?;
                undo_on_err(write_zeros(PADDING, out), length, out)
            }
            Operation::Commit(metadata, floor) => {
                out.push(COMMIT_CONTEXT)?;
                undo_on_err(write_commit_fixed(metadata, floor, out), length, out)
            }
        }
    }

    #[tactic(auto, using(crate::specs::Commits::lengths))]
    fn operation_size<F: Family>(op: &Operation<F, Self>) -> u64 {
        match op {
            Operation::Append(value) => value.encode_size().saturating_add(1 + PADDING),
            Operation::Commit(metadata, floor) => {
                commit_fixed_size(metadata, floor).saturating_add(1)
            }
        }
    }

    fn read_operation<F: Family>(
        alloc: Global,
        buf: &mut Cursor<'_>,
        cfg: &V::Cfg,
    ) -> Result<Operation<F, Self>, CodecError> {
        if buf.remaining() < Operation::<F, Self>::size() {
            return Err(CodecError::EndOfBuffer);
        }
        let mut ahead = buf.copy();
        match ahead.byte()? {
            COMMIT_CONTEXT => {
                let (metadata, floor) = read_commit_fixed(alloc, &mut ahead, cfg)?;
                *buf = ahead;
                Ok(Operation::Commit(metadata, floor))
            }
            APPEND_CONTEXT => {
                let value = padded_of(alloc, &mut ahead, cfg)?;
                *buf = ahead;
                Ok(Operation::Append(value))
            }
            tag => Err(CodecError::InvalidEnum(tag)),
        }
    }
}

/// Takes a value and the zeros behind it.
fn padded_of<V: Read + Drop>(
    alloc: Global,
    buf: &mut Cursor<'_>,
    cfg: &V::Cfg,
) -> Result<V, CodecError>
    ensures { Takes result buf.new (padded_at 9 (V.reads cfg.now) buf.old) }
{
    let value = V::read(alloc, buf, cfg)?;
    read_zeros(buf, PADDING)?;
    Ok(value)
}

impl<F: Family, V: Write + EncodeSize + FixedSize + Read + Duplicate + Drop> FixedSize
    for Operation<F, FixedEncoding<V>> {
    ghost width = { fixed_width V.width };

    ghost one_width = { λ cfg op h. fixed_length V.spelling (V.admits cfg) (V.reads cfg) (V.lawful cfg) V.width
        (V.one_width cfg) (parts op) h };

    fn size() -> u64 {
        V::size().saturating_add(1 + PADDING)
    }
}
