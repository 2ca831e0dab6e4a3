//! Lists whose elements are one byte each: their places, but for one.
use crate::error::TableError;
use codec_base::Bytes;
use std::alloc::Global;

/// So many elements, with `value` at `place`.
pub(crate) fn elements_of(
    alloc: Global,
    count: u64,
    place: u64,
    value: u8,
) -> Result<Vec<Bytes>, TableError> {
    let mut elements = Vec::new(alloc);
    for i in 0..count {
        let byte = if i == place { value } else { (i % 256) as u8 };
        elements.push(Bytes::from_slice(alloc, &[byte])?)?;
    }
    Ok(elements)
}
