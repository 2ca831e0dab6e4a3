//! The compact database of a log of keys that are set once.
ghost use Rattle.std.specs.Prelude.{◌≡◌, ◌≤◌, ◌<◌, ◌+◌, ◌^◌, length, true, false, Err, OnOk, OnErr, IsOkUnless};
ghost use Rattle.std.specs.List.Sorted.{IsStrictlySortedBy};
ghost use Rattle.op_codec.specs.Immutable.{floor_of, value_of};
ghost use Rattle.tree_store.specs.declared.error.Error.TheVariants.{LocationOverflow};
ghost use Rattle.compact_db.specs.Immutable.{with_set, sets_key, keys_in};

use crate::CompactOperation;
use chain_core::Error;
use codec_base::{CodecError, Duplicate};
use op_codec::Key;
use op_codec::immutable::{Codec, Operation};
use std::alloc::Global;
use std::collections::BTreeMap;
use tree_core::{Family, Hasher, Location, MAX_LEAVES};

/// A batch of keys and their values that still collects.
pub type UnmerkleizedBatch<F, H, K, V> = crate::UnmerkleizedBatch<F, Operation<F, K, V>, H>;

/// A sealed batch of sets, in the order of their keys, and a commit.
pub type MerkleizedBatch<F, D, K, V> = crate::MerkleizedBatch<F, Operation<F, K, V>, D>;

/// The compact database of a log of keys that are set once.
pub type Db<F, K, V, H> = crate::CompactDb<F, Operation<F, K, V>, H>;

/// The keys that a batch sets, each with its latest value.
#[derive(Drop)]
pub struct Sets<K: Ord, X> {
    pub(crate) values: BTreeMap<K, X>,
    pub(crate) alloc: Global,
}

impl<K: Ord + Drop, X: Drop> Sets<K, X> {
    ghost use Rattle.std.specs.Prelude.{◌≡◌, ◌≤◌, ◌+◌, length, true, OnOk, OnErr, IsOkUnless};
    ghost use Rattle.std.specs.Option.{is_some};
    ghost use Rattle.std.specs.Map.{lookup, keys_of};
    ghost use Rattle.std.specs.List.Sorted.{IsStrictlySortedBy};
    ghost use Rattle.std.specs.BTreeMap.{insert_entry, is_at};

    /// Whether a key is among them.
    fn has(&self, key: &K) -> bool
        ensures { result ≡ is_some (lookup (is_at (K.cmp key.now)) self.now.values.entries) }
    {
        self.values.contains_key(key)
    }

    /// Gives a key its value.
    fn put(&mut self, key: K, value: X) -> Result<(), CodecError>
        ensures ok { OnOk result (self.new.values.entries ≡ insert_entry K.cmp self.old.values.entries key value) }
        ensures one_more { length self.new.values.entries ≤ length self.old.values.entries + 1 }
        ensures again { is_some (lookup (is_at (K.cmp key)) self.old.values.entries) ≡ true →
            length self.new.values.entries ≤ length self.old.values.entries }
        ensures ordered { IsStrictlySortedBy K.cmp (keys_of self.new.values.entries) }
        ensures err { OnErr result (self.new.values.entries ≡ self.old.values.entries) }
        ensures memory { IsOkUnless result CodecError.Memory }
    {
        match self.values.insert(key, value) {
            Ok(_) => Ok(()),
            Err(_) => Err(CodecError::Memory),
        }
    }
}

impl<F: Family, K: Key, V: Codec<K>> CompactOperation for Operation<F, K, V> {
    ghost use Rattle.compact_db.specs.Immutable.{sets_of, only_sets};

    type Pending = Sets<K, V::Value>;

    ghost collected = { λ sets. sets_of sets.values.entries };

    ghost appends = { λ sets. only_sets _ _ _ _ _ V.Codec.spelling sets.values.entries };

    fn none(alloc: Global) -> Sets<K, V::Value> {
        Sets {
            values: BTreeMap::new(alloc),
            alloc,
        }
    }

    fn count(pending: &Sets<K, V::Value>) -> u64 {
        pending.values.len() as u64
    }

    fn into_operations(pending: Sets<K, V::Value>) -> Result<Vec<Self>, CodecError> {
        // With room for the commit.
        let room = pending.values.len().saturating_add(1);
        let mut operations = Vec::with_capacity(pending.alloc, room)?;
        for (key, value) in pending.values {
            operations.push(Operation::Set(key, value))?;
        }
        Ok(operations)
    }

    fn commit(metadata: Option<V::Value>, floor: u64) -> Self
        ensures floor { floor_of result ≡ Some floor }
        ensures value { value_of result ≡ metadata }
    {
        Operation::Commit(metadata, Location::new(floor))
    }

    fn copied_value(&self) -> Result<Option<V::Value>, CodecError> {
        match self {
            Operation::Set(_, value) => {
                let copy = value.duplicate()?;
                Ok(Some(copy))
            }
            Operation::Commit(metadata, _) => metadata.duplicate(),
        }
    }
}

impl<F: Family, K: Key, V: Codec<K>, H: Hasher> crate::UnmerkleizedBatch<F, Operation<F, K, V>, H> {
    /// Whether the batch itself sets a key.
    fn has_key(&self, key: &K) -> bool
        ensures { result ≡ sets_key K.cmp key.now self.now.pending }
    {
        self.pending.has(key)
    }

    /// Gives a key its value, in place of an earlier one of this batch. Whether an earlier batch set the key isn't
    /// tested. It refuses with `Merkle(LocationOverflow(size + 1))` where the batch has `MAX_LEAVES` operations and
    /// none of its own sets the key, and is then as before.
    #[tactic(auto, using(crate::proofs::SetLemmas::sets_insert))]
    pub fn set(&mut self, key: K, value: V::Value) -> Result<(), Error<F>>
        ensures ok { OnOk result (self.new ≡ with_set K.cmp self.old key value) }
        // Each key stands once, in the order of keys.
        ensures ordered { OnOk result (IsStrictlySortedBy K.cmp (keys_in self.new.pending)) }
        ensures full { 2 ^ 62 ≤ self.old.base.size + length self.old.pending →
            sets_key K.cmp key self.old.pending ≡ false →
            result ≡ Err (Error.Merkle (LocationOverflow (self.old.base.size + length self.old.pending + 1))) }
        ensures memory { self.old.base.size + length self.old.pending < 2 ^ 62 → IsOkUnless result Error.Memory }
        ensures again { sets_key K.cmp key self.old.pending ≡ true → IsOkUnless result Error.Memory }
        ensures err { OnErr result (self.new ≡ self.old) }
    {
        let size = self.size().as_u64();
        if size >= MAX_LEAVES && !self.has_key(&key) {
            let overflow = tree_core::Error::LocationOverflow(Location::new(size + 1));
            return Err(Error::Merkle(overflow));
        }
        match self.pending.put(key, value) {
            Ok(()) => Ok(()),
            Err(_) => Err(Error::Memory),
        }
    }
}
