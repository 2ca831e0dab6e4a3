ghost use Rattle.std.specs.Prelude.{◌≡◌, IfOk, IsOkUnless, string_bytes};
ghost use Rattle.op_codec.specs.ImmutableText.{text_of};

use super::Operation;
use crate::text::{text_of_commit, text_of_set};
use crate::{Key, ValueEncoding};
use codec_base::CodecError;
use std::alloc::Global;
use tree_shape::Family;

impl<F: Family, K: Key, V: ValueEncoding> Operation<F, K, V> {
    /// `[key:HEX value:HEX]`, `[commit HEX floor:N]` or `[commit floor:N]`, where HEX is the key's raw bytes or the encoded value.
    pub fn text(&self, alloc: Global) -> Result<String, CodecError>
        ensures text { IfOk result (λ text. string_bytes text ≡ text_of K.raw V.Value.spelling self.now) }
        ensures memory { IsOkUnless result CodecError.Memory }
    {
        match self {
            Operation::Set(key, value) => text_of_set(alloc, key.raw(), value),
            Operation::Commit(metadata, floor) => text_of_commit(alloc, metadata, floor),
        }
    }
}
