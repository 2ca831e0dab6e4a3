ghost use Rattle.std.specs.Prelude.{◌≡◌, IfOk, IsOkUnless, string_bytes};
ghost use Rattle.op_codec.specs.KeylessText.{text_of};

use super::Operation;
use crate::ValueEncoding;
use crate::text::{text_of_append, text_of_commit};
use codec_base::CodecError;
use std::alloc::Global;
use tree_shape::Family;

impl<F: Family, V: ValueEncoding> Operation<F, V> {
    /// `[append value:HEX]`, `[commit HEX floor:N]` or `[commit floor:N]`, where HEX is the encoded value.
    pub fn text(&self, alloc: Global) -> Result<String, CodecError>
        ensures text { IfOk result (λ text. string_bytes text ≡ text_of V.Value.spelling self.now) }
        ensures memory { IsOkUnless result CodecError.Memory }
    {
        match self {
            Operation::Append(value) => text_of_append(alloc, value),
            Operation::Commit(metadata, floor) => text_of_commit(alloc, metadata, floor),
        }
    }
}
