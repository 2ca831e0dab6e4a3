//! Operations of a log without keys.
ghost use Rattle.std.specs.Prelude.{◌≡◌, ℕ, List, ◌++◌, length, OnOk, OnErr, IsOkUnless};
ghost use Rattle.codec_base.specs.Codec.{Reading, TakesAs, IsLawful, held};
ghost use Rattle.op_codec.specs.Keyless.{Parts, parts, of_parts, of_parts_of, parts_of_parts, value_of, floor_of, commits};

mod fixed;
mod laws;
mod logged;
mod text;
mod variable;

use crate::{Committable, Floored, ValueEncoding};
use codec_base::{Bytes, CodecError, Cursor, Duplicate, EncodeSize, Read, Spelled, Write};
pub use laws::{equality_laws, fixed_laws, hash_laws, order_laws, variable_laws};
use std::alloc::Global;
use tree_shape::{Family, Location};

/// The tag of a commit.
pub const COMMIT_CONTEXT: u8 = 0;

/// The tag of an append.
pub const APPEND_CONTEXT: u8 = 1;

/// An operation of a log without keys.
#[derive(Drop)]
#[derive_where(Debug, PartialEq, Eq, PartialOrd, Ord, Hash; V::Value)]
pub enum Operation<F: Family, V: ValueEncoding> {
    /// Adds a value.
    Append(V::Value),
    /// Ends a batch, with metadata and an inactivity floor.
    Commit(Option<V::Value>, Location<F>),
}

/// How keyless operations are encoded.
pub trait Codec: ValueEncoding + Sized {
    /// What is allowed.
    type ReadCfg: Drop;

    /// The one spelling of an operation.
    ghost spelling: { Parts Self.Value → List ℕ };

    /// Whether an operation is allowed.
    ghost admits: { Self.ReadCfg → Parts Self.Value → Type 0 };

    /// The operation at the front of a byte string, and what is left; or the first fault.
    ghost reads: { Self.ReadCfg → List ℕ → Reading (Parts Self.Value) };

    /// Adds the spelling.
    fn write_operation<F: Family>(
        op: &Operation<F, Self>,
        out: &mut Bytes,
    ) -> Result<(), CodecError>
        ensures ok { OnOk result (out.new ≡ out.old ++ spelling (parts op.now)) }
        ensures err { OnErr result (out.new ≡ out.old) }
        ensures memory { IsOkUnless result CodecError.Memory };

    /// The length of the spelling, held at 2^64 - 1.
    fn operation_size<F: Family>(op: &Operation<F, Self>) -> u64
        ensures { result ≡ held (length (spelling (parts op.now))) };

    /// Takes an operation from the front.
    fn read_operation<F: Family>(
        alloc: Global,
        buf: &mut Cursor<'_>,
        cfg: &Self::ReadCfg,
    ) -> Result<Operation<F, Self>, CodecError>
        ensures taken { TakesAs parts result buf.new (reads cfg.now buf.old) }
        ensures err { OnErr result (buf.new ≡ buf.old) };

    /// What is read stood there, and what is allowed is read wherever it stands.
    ghost lawful: { (cfg : Self.ReadCfg) → IsLawful spelling (admits cfg) (reads cfg) };
}

impl<F: Family, V: ValueEncoding> Operation<F, V> {
    /// The value; of a commit, its metadata.
    pub fn into_value(self) -> Option<V::Value>
        ensures { result ≡ value_of self }
    {
        match self {
            Operation::Append(value) => Some(value),
            Operation::Commit(metadata, _) => metadata,
        }
    }

    /// The floor of a commit. It takes no memory.
    pub fn has_floor(&self) -> Option<Location<F>>
        ensures { result ≡ floor_of self.now }
    {
        match self {
            Operation::Append(_) => None,
            Operation::Commit(_, floor) => Some(Location::new(floor.as_u64())),
        }
    }
}

impl<F: Family, V: ValueEncoding> Floored<F> for Operation<F, V> {
    ghost floor = { floor_of };

    fn has_floor(&self) -> Option<Location<F>> {
        Operation::has_floor(self)
    }
}

impl<F: Family, V: ValueEncoding> Committable for Operation<F, V> {
    ghost commits = { commits };

    fn is_commit(&self) -> bool {
        matches!(self, Operation::Commit(_, _))
    }
}

impl<F: Family, V: ValueEncoding> Duplicate for Operation<F, V> {
    fn duplicate(&self) -> Result<Self, CodecError> {
        match self {
            Operation::Append(value) => {
                let copy = value.duplicate()?;
                Ok(Operation::Append(copy))
            }
            Operation::Commit(metadata, floor) => {
                let copy = metadata.duplicate()?;
                Ok(Operation::Commit(copy, Location::new(floor.as_u64())))
            }
        }
    }
}

impl<F: Family, V: Codec> Spelled for Operation<F, V> {
    ghost spelling = { λ op. V.Codec.spelling (parts op) };
}

impl<F: Family, V: Codec> Write for Operation<F, V> {
    fn write(&self, out: &mut Bytes) -> Result<(), CodecError> {
        V::write_operation(self, out)
    }
}

impl<F: Family, V: Codec> EncodeSize for Operation<F, V> {
    fn encode_size(&self) -> u64 {
        V::operation_size(self)
    }
}

impl<F: Family, V: Codec> Read for Operation<F, V> {
    ghost use Rattle.codec_base.specs.Combine.{through_at, through_lawful};

    type Cfg = V::ReadCfg;

    ghost admits = { λ cfg op. V.Codec.admits cfg (parts op) };

    ghost reads = { λ cfg. through_at of_parts (V.Codec.reads cfg) };

    ghost lawful = { λ cfg. through_lawful parts of_parts of_parts_of (parts_of_parts _ _ _ _) V.Codec.spelling
        (V.Codec.admits cfg) (V.Codec.reads cfg) (V.Codec.lawful cfg) };

    fn read(alloc: Global, buf: &mut Cursor<'_>, cfg: &V::ReadCfg) -> Result<Self, CodecError> {
        V::read_operation(alloc, buf, cfg)
    }
}
