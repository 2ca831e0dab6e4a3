ghost use Rattle.op_codec.specs.Keyless.{variable_spelling, variable_admits, variable_at, variable_lawful};

use super::{APPEND_CONTEXT, COMMIT_CONTEXT, Codec, Operation};
use crate::VariableEncoding;
use crate::commit::{commit_variable_size, read_commit_variable, write_commit_variable};
use codec_base::{Bytes, CodecError, Cursor, Duplicate, EncodeSize, Read, Write, undo_on_err};
use std::alloc::Global;
use tree_shape::Family;

impl<V: Write + EncodeSize + Read + Duplicate + Drop> Codec for VariableEncoding<V> {
    type ReadCfg = V::Cfg;

    ghost spelling = { variable_spelling V.spelling };

    ghost admits = { λ cfg. variable_admits (V.admits cfg) };

    ghost reads = { λ cfg. variable_at (V.reads cfg) };

    ghost lawful = { λ cfg. variable_lawful V.spelling (V.admits cfg) (V.reads cfg) (V.lawful cfg) };

    fn write_operation<F: Family>(
        op: &Operation<F, Self>,
        out: &mut Bytes,
    ) -> Result<(), CodecError> {
        let length = out.len();
        match op {
            Operation::Append(value) => {
                out.push(APPEND_CONTEXT)?;
                undo_on_err(value.write(out), length, out)
            }
            Operation::Commit(metadata, floor) => {
                out.push(COMMIT_CONTEXT)?;
                undo_on_err(write_commit_variable(metadata, floor, out), length, out)
            }
        }
    }

    fn operation_size<F: Family>(op: &Operation<F, Self>) -> u64 {
        match op {
            Operation::Append(value) => value.encode_size().saturating_add(1),
            Operation::Commit(metadata, floor) => {
                commit_variable_size(metadata, floor).saturating_add(1)
            }
        }
    }

    fn read_operation<F: Family>(
        alloc: Global,
        buf: &mut Cursor<'_>,
        cfg: &V::Cfg,
    ) -> Result<Operation<F, Self>, CodecError> {
        let mut ahead = buf.copy();
        match ahead.byte()? {
            COMMIT_CONTEXT => {
                let (metadata, floor) = read_commit_variable(alloc, &mut ahead, cfg)?;
                *buf = ahead;
                Ok(Operation::Commit(metadata, floor))
            }
            APPEND_CONTEXT => {
                let value = V::read(alloc, &mut ahead, cfg)?;
                *buf = ahead;
                Ok(Operation::Append(value))
            }
            tag => Err(CodecError::InvalidEnum(tag)),
        }
    }
}
