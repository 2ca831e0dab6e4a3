//! A byte string in a file: its length in 4 bytes big endian, and its bytes.
use crate::failure::Failure;
use codec_base::Bytes;
use std::alloc::Global;

/// Writes a byte string behind what is there. One of 2^32 bytes or more is refused.
pub(crate) fn push_part(out: &mut Vec<u8>, part: &[u8]) -> Result<(), Failure> {
    let Ok(size) = u32::try_from(part.len()) else {
        return Err(Failure::Outside);
    };
    out.extend_from_slice(&size.to_be_bytes())?;
    out.extend_from_slice(part)?;
    Ok(())
}

/// Takes the byte string in front, and gives what stands behind it. One that isn't whole is refused.
pub(crate) fn take_part(alloc: Global, bytes: &[u8]) -> Result<(Bytes, &[u8]), Failure> {
    let Some((prefix, rest)) = bytes.split_first_chunk::<4>() else {
        return Err(Failure::Outside);
    };
    let size = u32::from_be_bytes(*prefix) as usize;
    let Some((part, rest)) = rest.split_at_checked(size) else {
        return Err(Failure::Outside);
    };
    Ok((Bytes::from_vec(part.to_vec(alloc)?), rest))
}
