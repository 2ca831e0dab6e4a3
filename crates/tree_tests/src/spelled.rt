//! How a value is spelled, and why bytes are no value.
use codec_base::{CodecError, EncodeSize, Read, Write, decode, encode};
use std::alloc::Global;

/// Whether a value is written in these bytes.
fn is_written<T: Write + EncodeSize>(
    alloc: Global,
    value: &T,
    want: &[u8],
) -> Result<bool, CodecError> {
    Ok(encode(alloc, value)?.as_slice() == want)
}

/// Whether a value is read from these bytes, of which it tells the number.
fn is_read<T: EncodeSize + Read + PartialEq + Drop>(
    alloc: Global,
    value: &T,
    cfg: &T::Cfg,
    bytes: &[u8],
) -> Result<bool, CodecError> {
    Ok(decode::<T>(alloc, bytes, cfg)? == *value && value.encode_size() == bytes.len() as u64)
}

/// Whether a value is written in these bytes and read from them.
pub(crate) fn is_spelled<T: Write + EncodeSize + Read + PartialEq + Drop>(
    alloc: Global,
    value: &T,
    cfg: &T::Cfg,
    bytes: &[u8],
) -> Result<bool, CodecError> {
    Ok(is_written(alloc, value, bytes)? && is_read(alloc, value, cfg, bytes)?)
}

/// The same of a value that is needed no more.
pub(crate) fn spells<T: Write + EncodeSize + Read + PartialEq + Drop>(
    alloc: Global,
    value: T,
    cfg: &T::Cfg,
    bytes: &[u8],
) -> Result<bool, CodecError> {
    is_spelled(alloc, &value, cfg, bytes)
}

/// Why bytes are no value.
pub(crate) fn refusal<T: Read + Drop>(
    alloc: Global,
    bytes: &[u8],
    cfg: &T::Cfg,
) -> Option<CodecError> {
    decode::<T>(alloc, bytes, cfg).err()
}
