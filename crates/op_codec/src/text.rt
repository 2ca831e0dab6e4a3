//! The texts of operations.
ghost use Rattle.std.specs.Prelude.{◌≡◌, IfOk, IsOkUnless, string_bytes};
ghost use Rattle.hex.specs.Hex.{encode_lower};
ghost use Rattle.op_codec.specs.Text.{append_text, set_text, commit_text};

use codec_base::{CodecError, Write, encode};
use std::alloc::Global;
use tree_shape::Location;

/// The digits of these bytes.
fn digits_of(alloc: Global, bytes: &[u8]) -> Result<String, CodecError>
    ensures digits { IfOk result (λ text. string_bytes text ≡ encode_lower bytes.now) }
    ensures memory { IsOkUnless result CodecError.Memory }
{
    let digits = hex::encode(alloc, bytes)?;
    Ok(digits)
}

/// The digits of a value's encoding.
fn encoded_digits<T: Write>(alloc: Global, value: &T) -> Result<String, CodecError>
    ensures digits { IfOk result (λ text. string_bytes text ≡ encode_lower (T.spelling value.now)) }
    ensures memory { IsOkUnless result CodecError.Memory }
{
    let bytes = encode(alloc, value)?;
    digits_of(alloc, bytes.as_slice())
}

/// The text of an append.
pub fn text_of_append<T: Write>(alloc: Global, value: &T) -> Result<String, CodecError>
    ensures text { IfOk result (λ text. string_bytes text ≡ append_text (T.spelling value.now)) }
    ensures memory { IsOkUnless result CodecError.Memory }
{
    let value = encoded_digits(alloc, value)?;
    let text = format!(in alloc; "[append value:{value}]")?;
    Ok(text)
}

/// The text of a key that is set to a value.
pub fn text_of_set<T: Write>(alloc: Global, key: &[u8], value: &T) -> Result<String, CodecError>
    ensures text { IfOk result (λ text. string_bytes text ≡ set_text key.now (T.spelling value.now)) }
    ensures memory { IsOkUnless result CodecError.Memory }
{
    let key = digits_of(alloc, key)?;
    let value = encoded_digits(alloc, value)?;
    let text = format!(in alloc; "[key:{key} value:{value}]")?;
    Ok(text)
}

/// The text of a commit.
pub fn text_of_commit<F, T: Write>(
    alloc: Global,
    metadata: &Option<T>,
    floor: &Location<F>,
) -> Result<String, CodecError>
    ensures text { IfOk result (λ text. string_bytes text ≡ commit_text T.spelling metadata.now floor.now) }
    ensures memory { IsOkUnless result CodecError.Memory }
{
    let floor = floor.as_u64();
    match metadata {
        None => {
            let text = format!(in alloc; "[commit floor:{floor}]")?;
            Ok(text)
        }
        Some(value) => {
            let value = encoded_digits(alloc, value)?;
            let text = format!(in alloc; "[commit {value} floor:{floor}]")?;
            Ok(text)
        }
    }
}
