//! The compact database of a log without keys.
ghost use Rattle.std.specs.Prelude.{◌≡◌, ◌≤◌, ◌<◌, ◌+◌, ◌^◌, length, Some, Err, OnOk, OnErr, IsOkUnless};
ghost use Rattle.op_codec.specs.Keyless.{floor_of, value_of};
ghost use Rattle.tree_store.specs.declared.error.Error.TheVariants.{LocationOverflow};
ghost use Rattle.compact_db.specs.Keyless.{with_append};

use crate::CompactOperation;
use chain_core::Error;
use codec_base::{CodecError, Duplicate};
use op_codec::keyless::{Codec, Operation};
use std::alloc::Global;
use tree_core::{Family, Hasher, Location, MAX_LEAVES};

/// A batch of appends that still collects.
pub type UnmerkleizedBatch<F, H, V> = crate::UnmerkleizedBatch<F, Operation<F, V>, H>;

/// A sealed batch of appends and a commit.
pub type MerkleizedBatch<F, D, V> = crate::MerkleizedBatch<F, Operation<F, V>, D>;

/// The compact database of a log without keys.
pub type CompactDb<F, V, H> = crate::CompactDb<F, Operation<F, V>, H>;

impl<F: Family, V: Codec> CompactOperation for Operation<F, V> {
    ghost use Rattle.compact_db.specs.Keyless.{appends_of, only_appends};

    type Pending = Vec<V::Value>;

    ghost collected = { λ values. appends_of values.items };

    ghost appends = { λ values. only_appends _ _ _ V.Codec.spelling values.items };

    fn none(alloc: Global) -> Vec<V::Value> {
        Vec::new(alloc)
    }

    fn count(pending: &Vec<V::Value>) -> u64 {
        pending.len() as u64
    }

    fn into_operations(pending: Vec<V::Value>) -> Result<Vec<Self>, CodecError> {
        // With room for the commit.
        let room = pending.len().saturating_add(1);
        let mut operations = Vec::with_capacity(*pending.allocator(), room)?;
        for value in pending {
            operations.push(Operation::Append(value))?;
        }
        Ok(operations)
    }

    fn commit(metadata: Option<V::Value>, floor: u64) -> Self
        ensures floor { floor_of result ≡ Some floor }
        ensures value { value_of result ≡ metadata }
    {
        Operation::Commit(metadata, Location::new(floor))
    }

    fn copied_value(&self) -> Result<Option<V::Value>, CodecError> {
        match self {
            Operation::Append(value) => {
                let copy = value.duplicate()?;
                Ok(Some(copy))
            }
            Operation::Commit(metadata, _) => metadata.duplicate(),
        }
    }
}

impl<F: Family, V: Codec, H: Hasher> crate::UnmerkleizedBatch<F, Operation<F, V>, H> {
    /// Appends a value. It refuses with `Merkle(LocationOverflow(size + 1))` where the batch has `MAX_LEAVES`
    /// operations, and is then as before.
    pub fn append(&mut self, value: V::Value) -> Result<(), Error<F>>
        ensures ok { OnOk result (self.new ≡ with_append self.old value) }
        ensures full { 2 ^ 62 ≤ self.old.base.size + length self.old.pending →
            result ≡ Err (Error.Merkle (LocationOverflow (self.old.base.size + length self.old.pending + 1))) }
        ensures memory { self.old.base.size + length self.old.pending < 2 ^ 62 → IsOkUnless result Error.Memory }
        ensures err { OnErr result (self.new ≡ self.old) }
    {
        let size = self.size().as_u64();
        if size >= MAX_LEAVES {
            let overflow = tree_core::Error::LocationOverflow(Location::new(size + 1));
            return Err(Error::Merkle(overflow));
        }
        self.pending.push(value)?;
        Ok(())
    }
}
