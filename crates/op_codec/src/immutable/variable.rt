ghost use Rattle.op_codec.specs.Immutable.{variable_spelling, variable_admits, variable_at, variable_lawful};

use super::{COMMIT_CONTEXT, Codec, Operation, SET_CONTEXT};
use crate::commit::{commit_variable_size, read_commit_variable, write_commit_variable};
use crate::{Key, VariableEncoding};
use codec_base::{Bytes, CodecError, Cursor, Duplicate, EncodeSize, Read, Write, undo_on_err};
use std::alloc::Global;
use tree_shape::Family;

impl<K: Key, V: Write + EncodeSize + Read + Duplicate + Drop> Codec<K> for VariableEncoding<V> {
    type ReadCfg = (K::Cfg, V::Cfg);

    ghost spelling = { variable_spelling K.spelling V.spelling };

    ghost admits = { λ cfg. variable_admits (K.admits cfg.0) (V.admits cfg.1) };

    ghost reads = { λ cfg. variable_at (K.reads cfg.0) (V.reads cfg.1) };

    ghost lawful = { λ cfg. variable_lawful K.spelling (K.admits cfg.0) (K.reads cfg.0) (K.lawful cfg.0) V.spelling
        (V.admits cfg.1) (V.reads cfg.1) (V.lawful cfg.1) };

    fn write_operation<F: Family>(
        op: &Operation<F, K, Self>,
        out: &mut Bytes,
    ) -> Result<(), CodecError> {
        let length = out.len();
        match op {
            Operation::Set(key, value) => {
                out.push(SET_CONTEXT)?;
                undo_on_err(key.write(out), length, out)?;
                undo_on_err(value.write(out), length, out)
            }
            Operation::Commit(metadata, floor) => {
                out.push(COMMIT_CONTEXT)?;
                undo_on_err(write_commit_variable(metadata, floor, out), length, out)
            }
        }
    }

    fn operation_size<F: Family>(op: &Operation<F, K, Self>) -> u64 {
        match op {
            Operation::Set(key, value) => key
                .encode_size()
                .saturating_add(value.encode_size())
                .saturating_add(1),
            Operation::Commit(metadata, floor) => {
                commit_variable_size(metadata, floor).saturating_add(1)
            }
        }
    }

    fn read_operation<F: Family>(
        alloc: Global,
        buf: &mut Cursor<'_>,
        cfg: &(K::Cfg, V::Cfg),
    ) -> Result<Operation<F, K, Self>, CodecError> {
        let mut ahead = buf.copy();
        match ahead.byte()? {
            SET_CONTEXT => {
                let key = K::read(alloc, &mut ahead, &cfg.0)?;
                let value = V::read(alloc, &mut ahead, &cfg.1)?;
                *buf = ahead;
                Ok(Operation::Set(key, value))
            }
            COMMIT_CONTEXT => {
                let (metadata, floor) = read_commit_variable(alloc, &mut ahead, &cfg.1)?;
                *buf = ahead;
                Ok(Operation::Commit(metadata, floor))
            }
            tag => Err(CodecError::InvalidEnum(tag)),
        }
    }
}
