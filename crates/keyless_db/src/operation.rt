//! What the database asks of its operations.
ghost use Rattle.std.specs.Prelude.{◌≡◌, ℕ, Option, Some, None, IfOk, IsOkUnless};

use codec_base::{CodecError, Duplicate, EncodeSize, Read};
use log_model::Logged;
use op_codec::keyless::{Codec, Operation};
use tree_core::{Family, Location};

/// An operation of a log without keys: one that adds a value, or a commit.
pub trait KeylessOperation: Logged + EncodeSize + Read + Duplicate + Drop {
    /// The operation that adds a value.
    ghost appended: { Self.Value → Self };

    /// The commit of this metadata and floor.
    ghost committed: { Option Self.Value → ℕ → Self };

    /// The operation that adds a value.
    fn append(value: Self::Value) -> Self
        ensures { result ≡ appended value };

    /// The commit of this metadata and floor.
    fn commit(metadata: Option<Self::Value>, floor: u64) -> Self
        ensures { result ≡ committed metadata floor };

    /// The value; of a commit, its metadata.
    fn into_value(self) -> Option<Self::Value>
        ensures { result ≡ Self.meaning.value self };

    /// A copy of the value; of a commit, of its metadata.
    fn copied_value(&self) -> Result<Option<Self::Value>, CodecError>
        ensures value { IfOk result (λ value. value ≡ Self.meaning.value self.now) }
        ensures memory { IsOkUnless result CodecError.Memory };

    /// What adds a value is no commit.
    ghost appends: { (value : Self.Value) → Self.meaning.floor (appended value) ≡ None };

    /// A commit has its floor.
    ghost floored: { (metadata : Option Self.Value) (floor : ℕ) →
        Self.meaning.floor (committed metadata floor) ≡ Some floor };

    /// It has its metadata.
    ghost valued: { (metadata : Option Self.Value) (floor : ℕ) →
        Self.meaning.value (committed metadata floor) ≡ metadata };
}

impl<F: Family, V: Codec> KeylessOperation for Operation<F, V> {
    ghost use Rattle.std.specs.Prelude.{refl};
    ghost use Rattle.op_codec.specs.declared.keyless.Operation.TheVariants.{Append, Commit};

    ghost appended = { λ value. Append value };

    ghost committed = { λ metadata floor. Commit metadata floor };

    ghost appends = { λ value. refl };

    ghost floored = { λ metadata floor. refl };

    ghost valued = { λ metadata floor. refl };

    fn append(value: V::Value) -> Self {
        Operation::Append(value)
    }

    fn commit(metadata: Option<V::Value>, floor: u64) -> Self
        ensures { result ≡ Commit metadata floor }
    {
        Operation::Commit(metadata, Location::new(floor))
    }

    fn into_value(self) -> Option<V::Value> {
        Operation::into_value(self)
    }

    fn copied_value(&self) -> Result<Option<V::Value>, CodecError> {
        match self {
            Operation::Append(value) => {
                let copy = value.duplicate()?;
                Ok(Some(copy))
            }
            Operation::Commit(metadata, _) => metadata.duplicate(),
        }
    }
}
