//! Operations of a log of keys that are set once.
ghost use Rattle.std.specs.Prelude.{◌≡◌, ℕ, List, ◌++◌, length, OnOk, OnErr, IsOkUnless, option_copied};
ghost use Rattle.codec_base.specs.Codec.{Reading, TakesAs, IsLawful, held};
ghost use Rattle.op_codec.specs.Immutable.{Parts, parts, of_parts, of_parts_of, parts_of_parts, key_of, floor_of, sets, commits};

mod fixed;
mod laws;
mod logged;
mod text;
mod variable;

use crate::{Floored, Key, OperationTrait, ValueEncoding};
use codec_base::{Bytes, CodecError, Cursor, Duplicate, EncodeSize, Read, Spelled, Write};
pub use laws::{equality_laws, fixed_laws, hash_laws, order_laws, variable_laws};
use std::alloc::Global;
use tree_shape::{Family, Location};

/// The tag of a set.
pub const SET_CONTEXT: u8 = 0;

/// The tag of a commit.
pub const COMMIT_CONTEXT: u8 = 1;

/// An operation of a log of keys that are set once.
#[derive(Drop)]
#[derive_where(PartialEq, Eq, PartialOrd, Ord; V::Value)]
#[derive_where(Debug, Hash; K, V::Value)]
pub enum Operation<F: Family, K: Key, V: ValueEncoding> {
    /// Gives a key its value.
    Set(K, V::Value),
    /// Ends a batch, with metadata and an inactivity floor.
    Commit(Option<V::Value>, Location<F>),
}

/// How immutable operations are encoded.
pub trait Codec<K: Key>: ValueEncoding + Sized {
    /// What is allowed.
    type ReadCfg: Drop;

    /// The one spelling of an operation.
    ghost spelling: { Parts K Self.Value → List ℕ };

    /// Whether an operation is allowed.
    ghost admits: { Self.ReadCfg → Parts K Self.Value → Type 0 };

    /// The operation at the front of a byte string, and what is left; or the first fault.
    ghost reads: { Self.ReadCfg → List ℕ → Reading (Parts K Self.Value) };

    /// Adds the spelling.
    fn write_operation<F: Family>(
        op: &Operation<F, K, Self>,
        out: &mut Bytes,
    ) -> Result<(), CodecError>
        ensures ok { OnOk result (out.new ≡ out.old ++ spelling (parts op.now)) }
        ensures err { OnErr result (out.new ≡ out.old) }
        ensures memory { IsOkUnless result CodecError.Memory };

    /// The length of the spelling, held at 2^64 - 1.
    fn operation_size<F: Family>(op: &Operation<F, K, Self>) -> u64
        ensures { result ≡ held (length (spelling (parts op.now))) };

    /// Takes an operation from the front.
    fn read_operation<F: Family>(
        alloc: Global,
        buf: &mut Cursor<'_>,
        cfg: &Self::ReadCfg,
    ) -> Result<Operation<F, K, Self>, CodecError>
        ensures taken { TakesAs parts result buf.new (reads cfg.now buf.old) }
        ensures err { OnErr result (buf.new ≡ buf.old) };

    /// What is read stood there, and what is allowed is read wherever it stands.
    ghost lawful: { (cfg : Self.ReadCfg) → IsLawful spelling (admits cfg) (reads cfg) };
}

impl<F: Family, K: Key, V: ValueEncoding> Operation<F, K, V> {
    /// The key that is set. It takes no memory.
    pub fn key(&self) -> Option<&K>
        ensures { option_copied result ≡ key_of self.now }
    {
        match self {
            Operation::Set(key, _) => Some(key),
            Operation::Commit(_, _) => None,
        }
    }

    /// Whether it is a commit. It takes no memory.
    pub fn is_commit(&self) -> bool
        ensures { result ≡ commits self.now }
    {
        matches!(self, Operation::Commit(_, _))
    }

    /// The floor of a commit. It takes no memory.
    pub fn has_floor(&self) -> Option<Location<F>>
        ensures { result ≡ floor_of self.now }
    {
        match self {
            Operation::Set(_, _) => None,
            Operation::Commit(_, floor) => Some(Location::new(floor.as_u64())),
        }
    }
}

impl<F: Family, K: Key, V: ValueEncoding> Floored<F> for Operation<F, K, V> {
    ghost floor = { floor_of };

    fn has_floor(&self) -> Option<Location<F>> {
        Operation::has_floor(self)
    }
}

impl<F: Family, K: Key, V: ValueEncoding> OperationTrait<F> for Operation<F, K, V> {
    ghost use Rattle.std.specs.Prelude.{false};

    type Key = K;

    ghost key_of = { key_of };

    ghost deletes = { λ _. false };

    ghost updates = { sets };

    fn key(&self) -> Option<&K> {
        Operation::key(self)
    }

    fn into_key(self) -> Option<K> {
        match self {
            Operation::Set(key, _) => Some(key),
            Operation::Commit(_, _) => None,
        }
    }

    fn is_delete(&self) -> bool {
        false
    }

    fn is_update(&self) -> bool {
        matches!(self, Operation::Set(_, _))
    }
}

impl<F: Family, K: Key, V: ValueEncoding> Duplicate for Operation<F, K, V> {
    fn duplicate(&self) -> Result<Self, CodecError> {
        match self {
            Operation::Set(key, value) => {
                let key = key.duplicate()?;
                let value = value.duplicate()?;
                Ok(Operation::Set(key, value))
            }
            Operation::Commit(metadata, floor) => {
                let copy = metadata.duplicate()?;
                Ok(Operation::Commit(copy, Location::new(floor.as_u64())))
            }
        }
    }
}

impl<F: Family, K: Key, V: Codec<K>> Spelled for Operation<F, K, V> {
    ghost spelling = { λ op. V.Codec.spelling (parts op) };
}

impl<F: Family, K: Key, V: Codec<K>> Write for Operation<F, K, V> {
    fn write(&self, out: &mut Bytes) -> Result<(), CodecError> {
        V::write_operation(self, out)
    }
}

impl<F: Family, K: Key, V: Codec<K>> EncodeSize for Operation<F, K, V> {
    fn encode_size(&self) -> u64 {
        V::operation_size(self)
    }
}

impl<F: Family, K: Key, V: Codec<K>> Read for Operation<F, K, V> {
    ghost use Rattle.codec_base.specs.Combine.{through_at, through_lawful};

    type Cfg = V::ReadCfg;

    ghost admits = { λ cfg op. V.Codec.admits cfg (parts op) };

    ghost reads = { λ cfg. through_at of_parts (V.Codec.reads cfg) };

    ghost lawful = { λ cfg. through_lawful parts of_parts of_parts_of (parts_of_parts _ _ _ _ _ _) V.Codec.spelling
        (V.Codec.admits cfg) (V.Codec.reads cfg) (V.Codec.lawful cfg) };

    fn read(alloc: Global, buf: &mut Cursor<'_>, cfg: &V::ReadCfg) -> Result<Self, CodecError> {
        V::read_operation(alloc, buf, cfg)
    }
}
