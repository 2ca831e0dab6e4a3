ghost use Rattle.std.specs.Prelude.{◌≡◌, ◌<◌, ◌-◌, ◌^◌};
ghost use Rattle.codec_base.specs.Codec.{Takes};
ghost use Rattle.codec_base.specs.Combine.{pair_at};
ghost use Rattle.op_codec.specs.Commits.{padded_at, fixed_commit_at};
ghost use Rattle.op_codec.specs.Immutable.{parts, set_padding, commit_padding, fixed_width, fixed_spelling, fixed_admits, fixed_at, fixed_lawful, fixed_length};

use super::{COMMIT_CONTEXT, Codec, Operation, SET_CONTEXT};
use crate::commit::{commit_fixed_size, read_commit_fixed, write_commit_fixed};
use crate::{FixedEncoding, Key};
use codec_base::{
    Bytes, CodecError, Cursor, Duplicate, EncodeSize, FixedSize, Read, Write, read_zeros,
    undo_on_err, write_zeros,
};
use std::alloc::Global;
use tree_shape::{Family, Location};

/// What a commit has besides its tag and metadata: an option byte and a floor.
const OPTION_AND_FLOOR: u64 = 9;

impl<K: Key + FixedSize, V: Write + EncodeSize + FixedSize + Read + Duplicate + Drop> Codec<K>
    for FixedEncoding<V> {
    type ReadCfg = (K::Cfg, V::Cfg);

    ghost spelling = { fixed_spelling K.width V.width K.spelling V.spelling };

    ghost admits = { λ cfg. fixed_admits (K.admits cfg.0) (V.admits cfg.1) };

    ghost reads = { λ cfg. fixed_at K.width V.width (K.reads cfg.0) (V.reads cfg.1) };

    ghost lawful = { λ cfg. fixed_lawful K.spelling (K.admits cfg.0) (K.reads cfg.0) (K.lawful cfg.0) V.spelling
        (V.admits cfg.1) (V.reads cfg.1) (V.lawful cfg.1) K.width V.width (K.one_width cfg.0) (V.one_width cfg.1) };

    fn write_operation<F: Family>(
        op: &Operation<F, K, Self>,
        out: &mut Bytes,
    ) -> Result<(), CodecError> {
        let length = out.len();
        match op {
            Operation::Set(key, value) => {
                out.push(SET_CONTEXT)?;
                undo_on_err(key.write(out), length, out)?;
                undo_on_err(value.write(out), length, out)?;
                undo_on_err(write_zeros(behind_a_set(K::size()), out), length, out)
            }
            Operation::Commit(metadata, floor) => {
                out.push(COMMIT_CONTEXT)?;
                undo_on_err(write_commit_fixed(metadata, floor, out), length, out)?;
                undo_on_err(write_zeros(behind_a_commit(K::size()), out), length, out)
            }
        }
    }

    #[tactic(auto, using(crate::specs::Commits::more_lengths))]
    fn operation_size<F: Family>(op: &Operation<F, K, Self>) -> u64 {
        match op {
            Operation::Set(key, value) => key
                .encode_size()
                .saturating_add(value.encode_size())
                .saturating_add(behind_a_set(K::size()))
                .saturating_add(1),
            Operation::Commit(metadata, floor) => commit_fixed_size(metadata, floor)
                .saturating_add(behind_a_commit(K::size()))
                .saturating_add(1),
        }
    }

    fn read_operation<F: Family>(
        alloc: Global,
        buf: &mut Cursor<'_>,
        cfg: &(K::Cfg, V::Cfg),
    ) -> Result<Operation<F, K, Self>, CodecError> {
        if buf.remaining() < Operation::<F, K, Self>::size() {
            return Err(CodecError::EndOfBuffer);
        }
        let mut ahead = buf.copy();
        match ahead.byte()? {
            SET_CONTEXT => {
                let (key, value) = set_of(alloc, &mut ahead, &cfg.0, &cfg.1)?;
                *buf = ahead;
                Ok(Operation::Set(key, value))
            }
            COMMIT_CONTEXT => {
                let (metadata, floor) = padded_commit_of::<F, K, V>(alloc, &mut ahead, &cfg.1)?;
                *buf = ahead;
                Ok(Operation::Commit(metadata, floor))
            }
            tag => Err(CodecError::InvalidEnum(tag)),
        }
    }
}

/// How many zeros stand behind a set, with keys of this size.
fn behind_a_set(key: u64) -> u64
    ensures { result ≡ 9 - key }
{
    OPTION_AND_FLOOR.saturating_sub(key)
}

/// How many zeros stand behind a commit, with keys of this size.
fn behind_a_commit(key: u64) -> u64
    ensures { result ≡ key - 9 }
{
    key.saturating_sub(OPTION_AND_FLOOR)
}

/// Takes a key, its value and the zeros behind them.
fn set_of<K: Key + FixedSize, V: Read + Drop>(
    alloc: Global,
    buf: &mut Cursor<'_>,
    key_cfg: &K::Cfg,
    value_cfg: &V::Cfg,
) -> Result<(K, V), CodecError>
    requires { K.width < 2 ^ 64 - 1 }
    ensures { let reads = pair_at (K.reads key_cfg.now) (V.reads value_cfg.now) in
        Takes result buf.new (padded_at (set_padding K.width) reads buf.old) }
{
    let key = K::read(alloc, buf, key_cfg)?;
    let value = V::read(alloc, buf, value_cfg)?;
    read_zeros(buf, behind_a_set(K::size()))?;
    Ok((key, value))
}

/// Takes a commit's metadata, its floor and the zeros behind them.
fn padded_commit_of<F: Family, K: FixedSize, V: FixedSize + Drop>(
    alloc: Global,
    buf: &mut Cursor<'_>,
    cfg: &V::Cfg,
) -> Result<(Option<V>, Location<F>), CodecError>
    requires key { K.width < 2 ^ 64 - 1 }
    requires value { V.width < 2 ^ 64 - 1 }
    ensures { let reads = fixed_commit_at V.width (V.reads cfg.now) in
        Takes result buf.new (padded_at (commit_padding K.width) reads buf.old) }
{
    let (metadata, floor) = read_commit_fixed(alloc, buf, cfg)?;
    read_zeros(buf, behind_a_commit(K::size()))?;
    Ok((metadata, floor))
}

impl<
    F: Family,
    K: Key + FixedSize,
    V: Write + EncodeSize + FixedSize + Read + Duplicate + Drop,
> FixedSize for Operation<F, K, FixedEncoding<V>> {
    ghost width = { fixed_width K.width V.width };

    ghost one_width = { λ cfg op h. fixed_length K.spelling (K.admits cfg.0) (K.reads cfg.0) (K.lawful cfg.0)
        V.spelling (V.admits cfg.1) (V.reads cfg.1) (V.lawful cfg.1) K.width V.width (K.one_width cfg.0)
        (V.one_width cfg.1) (parts op) h };

    fn size() -> u64 {
        let set = K::size().saturating_add(V::size());
        let commit = V::size().saturating_add(OPTION_AND_FLOOR);
        set.max(commit).saturating_add(1)
    }
}
