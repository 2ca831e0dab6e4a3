//! Whole streams.
ghost use Rattle.std.specs.Prelude.{◌≡◌, ℕ, ◌+◌, ◌-◌, ◌^◌, ◌<◌, ◌≤◌, List, length, min, OnOk, OnErr, IfOk, IfSome, IsErrOf};
ghost use Rattle.std.specs.Io.KnownBytes.{Consumes, IsAtEnd};
ghost use Rattle.stream_base.specs.declared.whole.ReadAllError.TheVariants.{Failed};
ghost use Rattle.codec_base.specs.Causes.{HasCause, Rose};
ghost use Rattle.stream_base.specs.Streams.{ReadsFront};
ghost use Rattle.stream_base.specs.Writing.{Writes};

use crate::{ReadFailed, Sink, Source, WriteFailed};
use codec_base::Bytes;
use std::alloc::Global;

/// Why a source wasn't read whole.
#[derive(Clone, Copy, Debug, PartialEq, Eq)]
pub enum ReadAllError {
    /// The source has more bytes than the limit.
    TooLong,
    /// A read failed.
    Failed,
    /// There is no memory for the bytes.
    Memory,
}

impl From<ReadFailed> for ReadAllError {
    ghost from_gives = { λ _ e. e ≡ Failed };

    fn from(_: ReadFailed) -> Self {
        ReadAllError::Failed
    }
}

/// Reads a source to its end, up to a limit of bytes. It refuses with `TooLong` where more stand there, with `Failed`
/// at the first read that fails, and for want of memory with `Memory`.
#[tactic(auto, using(crate::proofs::Known::front_read))]
pub fn read_all<S: Source>(alloc: Global, source: &mut S, limit: u64) -> Result<Bytes, ReadAllError>
    // It was read to its end, and these are its bytes.
    ensures whole { IfOk result (λ bytes. Consumes (S.left source.old) (S.left source.new) bytes × IsAtEnd (S.left source.new)) }
    ensures within { IfOk result (λ bytes. length bytes ≤ limit) }
    ensures long { IsErrOf result ReadAllError.TooLong → IfSome (S.left source.old) (λ left. limit < length left) }
    ensures failed { IsErrOf result ReadAllError.Failed → Rose (S.faults source.old) (S.faults source.new) }
    ensures later { S.faults source.old ≤ S.faults source.new }
    // It ends at the first fault: that one alone is counted, and every other answer counts none.
    ensures first { IsErrOf result ReadAllError.Failed → S.faults source.new ≡ min (S.faults source.old + 1) (2 ^ 64 - 1) }
    ensures kept { (IsErrOf result ReadAllError.Failed → ⊥) → S.faults source.new ≡ S.faults source.old }
    ensures err { OnErr result (ReadsFront (S.left source.old) (S.left source.new)) }
{
    let mut bytes = Bytes::new(alloc);
    let mut piece = [0u8; 32768];
    'pieces: loop {
        let count = source.read(&mut piece)?;
        if count == 0 {
            return Ok(bytes);
        }
        if bytes.len() + count as u64 > limit {
            return Err(ReadAllError::TooLong);
        }
        if bytes.extend_from_slice(&piece[..count]).is_err() {
            return Err(ReadAllError::Memory);
        }
    }
}

/// Writes all of these bytes. It ends at the first write that fails, and a front of them is then written.
pub fn write_all<K: Sink>(sink: &mut K, bytes: &[u8]) -> Result<(), WriteFailed>
    ensures text { Writes (K.written sink.old) (K.written sink.new) result bytes.now }
    ensures cause { HasCause (K.faults sink.old) (K.faults sink.new) result }
    // It ends at the first fault: that one alone is counted, and success counts none.
    ensures first { OnErr result (K.faults sink.new ≡ min (K.faults sink.old + 1) (2 ^ 64 - 1)) }
    ensures kept { OnOk result (K.faults sink.new ≡ K.faults sink.old) }
{
    let mut done = 0;
    while done < bytes.len() {
        done += sink.write(&bytes[done..])?;
    }
    Ok(())
}
