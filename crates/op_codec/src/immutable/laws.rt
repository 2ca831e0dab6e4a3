//! What is decoded from the encodings of immutable operations, and how these are compared, ordered and hashed, for callers that are generic over key and value.
ghost use Rattle.op_codec.specs.Compared.{IsOrderedImmutable, IsHashedImmutable};
ghost use Rattle.op_codec.specs.Decoding.{IsExact};
ghost use Rattle.op_codec.specs.Immutable.{IsAllowed};
ghost use Rattle.op_codec.specs.ImmutableMeanings.{IsFieldwise};

use super::Operation;
use crate::{FixedEncoding, Key, ValueEncoding, VariableEncoding};
use codec_base::{Duplicate, EncodeSize, FixedSize, Read, Spelled, Write};
use std::hash::Hash;
use tree_shape::Family;

/// An operation of any length is decoded from its encoding, and nothing is from any other byte string.
pub fn variable_laws<F: Family, K: Key, V: Write + EncodeSize + Read + Duplicate + Drop>(
    cfg: &(K::Cfg, V::Cfg),
)
    ensures { IsExact (IsAllowed (K.admits cfg.now.0) (V.admits cfg.now.1))
        (⟦<Operation<F, K, VariableEncoding<V>> as Spelled>⟧.spelling)
        (⟦<Operation<F, K, VariableEncoding<V>> as Read>⟧.reads cfg.now) }
{}

/// An operation of one length is decoded from its encoding, and nothing is from any other byte string.
pub fn fixed_laws<
    F: Family,
    K: Key + FixedSize,
    V: Write + EncodeSize + FixedSize + Read + Duplicate + Drop,
>(cfg: &(K::Cfg, V::Cfg))
    ensures { IsExact (IsAllowed (K.admits cfg.now.0) (V.admits cfg.now.1))
        (⟦<Operation<F, K, FixedEncoding<V>> as Spelled>⟧.spelling)
        (⟦<Operation<F, K, FixedEncoding<V>> as Read>⟧.reads cfg.now) }
{}

/// Operations are equal where their variants and their fields are, whether or not equal keys or equal values are one.
pub fn equality_laws<F: Family, K: Key, V: ValueEncoding>()
where
    V::Value: PartialEq,
    ensures { IsFieldwise K.eq V.Value.eq (⟦<Operation<F, K, V> as PartialEq>⟧.eq) }
{}

/// Operations are ordered by their variants, sets first, and then by their fields from the left.
pub fn order_laws<F: Family, K: Key, V: ValueEncoding>()
where
    V::Value: Ord,
    ensures { IsOrderedImmutable K.cmp V.Value.cmp (⟦<Operation<F, K, V> as Ord>⟧.cmp) }
{}

/// The variant and each field of an operation go into its hash.
pub fn hash_laws<F: Family, K: Key + Hash, V: ValueEncoding>()
where
    V::Value: Hash,
    ensures { IsHashedImmutable K.hash_input V.Value.hash_input (⟦<Operation<F, K, V> as Hash>⟧.hash_input) }
{}
