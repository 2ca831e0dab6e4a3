//! What is decoded from the encodings of keyless operations, and how these are compared, ordered and hashed, for callers that are generic over the value.
ghost use Rattle.op_codec.specs.Compared.{IsOrderedKeyless, IsHashedKeyless};
ghost use Rattle.op_codec.specs.Decoding.{IsExact};
ghost use Rattle.op_codec.specs.Keyless.{IsAllowed};
ghost use Rattle.op_codec.specs.Meanings.{IsFieldwise};

use super::Operation;
use crate::{FixedEncoding, ValueEncoding, VariableEncoding};
use codec_base::{Duplicate, EncodeSize, FixedSize, Read, Spelled, Write};
use std::hash::Hash;
use tree_shape::Family;

/// An operation of any length is decoded from its encoding, and nothing is from any other byte string.
pub fn variable_laws<F: Family, V: Write + EncodeSize + Read + Duplicate + Drop>(cfg: &V::Cfg)
    ensures { IsExact (IsAllowed (V.admits cfg.now)) (⟦<Operation<F, VariableEncoding<V>> as Spelled>⟧.spelling)
        (⟦<Operation<F, VariableEncoding<V>> as Read>⟧.reads cfg.now) }
{}

/// An operation of one length is decoded from its encoding, and nothing is from any other byte string.
pub fn fixed_laws<F: Family, V: Write + EncodeSize + FixedSize + Read + Duplicate + Drop>(
    cfg: &V::Cfg,
)
    ensures { IsExact (IsAllowed (V.admits cfg.now)) (⟦<Operation<F, FixedEncoding<V>> as Spelled>⟧.spelling)
        (⟦<Operation<F, FixedEncoding<V>> as Read>⟧.reads cfg.now) }
{}

/// Operations are equal where their variants and their fields are, whether or not equal values are one.
pub fn equality_laws<F: Family, V: ValueEncoding>()
where
    V::Value: PartialEq,
    ensures { IsFieldwise V.Value.eq (⟦<Operation<F, V> as PartialEq>⟧.eq) }
{}

/// Operations are ordered by their variants, appends first, and then by their fields from the left.
pub fn order_laws<F: Family, V: ValueEncoding>()
where
    V::Value: Ord,
    ensures { IsOrderedKeyless V.Value.cmp (⟦<Operation<F, V> as Ord>⟧.cmp) }
{}

/// The variant and each field of an operation go into its hash.
pub fn hash_laws<F: Family, V: ValueEncoding>()
where
    V::Value: Hash,
    ensures { IsHashedKeyless V.Value.hash_input (⟦<Operation<F, V> as Hash>⟧.hash_input) }
{}
