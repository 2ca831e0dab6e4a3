ghost use Rattle.std.specs.Prelude.{◌≡◌, ℕ, List, [], ◌∷◌, length, take, drop, IfOk, OnErr, IsErrOf, ◌<◌, ◌^◌};
ghost use Rattle.codec_base.specs.Codec.{Takes, TakesAs};
ghost use Rattle.codec_base.specs.Numbers.{byte_at, slice_at, u64_at};

use crate::CodecError;
use std::marker::Model;

/// What is left of a byte string.
#[derive(Debug, Drop)]
pub struct Cursor<'a> {
    bytes: &'a [u8],
}

impl<'a> Model for Cursor<'a> {
    ghost Value = { List ℕ };

    ghost view = { λ c. c.bytes.now };
}

impl<'a> Cursor<'a> {
    /// A cursor before these bytes.
    pub fn new(bytes: &'a [u8]) -> Self
        ensures { result ≡ bytes.now }
    {
        Cursor { bytes }
    }

    /// Another cursor at the same place, which can read ahead.
    pub fn copy(&self) -> Cursor<'a>
        ensures { result ≡ self.now }
    {
        Cursor { bytes: self.bytes }
    }

    /// How many bytes are left.
    pub fn remaining(&self) -> u64
        ensures length { result ≡ length self.now }
        ensures few { result < 2 ^ 63 }
    {
        self.bytes.len() as u64
    }

    /// Takes a byte. None left is `EndOfBuffer`, and the cursor stays.
    pub fn byte(&mut self) -> Result<u8, CodecError>
        ensures taken { Takes result self.new (byte_at self.old) }
        ensures no_memory { IsErrOf result CodecError.Memory → ⊥ }
        ensures err { OnErr result (self.new ≡ self.old) }
    {
        match self.bytes {
            [] => Err(CodecError::EndOfBuffer),
            [byte, rest @ ..] => {
                self.bytes = rest;
                Ok(*byte)
            }
        }
    }

    /// Takes this many bytes. Fewer left is `EndOfBuffer`, and the cursor stays.
    pub fn slice(&mut self, count: usize) -> Result<&'a [u8], CodecError>
        ensures taken { TakesAs (λ s. s.now) result self.new (slice_at count self.old) }
        ensures no_memory { IsErrOf result CodecError.Memory → ⊥ }
        ensures count { IfOk result (λ s. length s.now ≡ count) }
        ensures err { OnErr result (self.new ≡ self.old) }
    {
        if self.bytes.len() < count {
            return Err(CodecError::EndOfBuffer);
        }
        let (front, rest) = self.bytes.split_at(count);
        self.bytes = rest;
        Ok(front)
    }

    /// Takes eight bytes, the high one first. Fewer left is `EndOfBuffer`, and the cursor stays.
    pub fn number(&mut self) -> Result<u64, CodecError>
        ensures taken { Takes result self.new (u64_at self.old) }
        ensures no_memory { IsErrOf result CodecError.Memory → ⊥ }
        ensures err { OnErr result (self.new ≡ self.old) }
    {
        if self.bytes.len() < 8 {
            return Err(CodecError::EndOfBuffer);
        }
        let (front, rest) = self.bytes.split_at(8);
        self.bytes = rest;
        Ok(u64::from_be_bytes([
            front[0], front[1], front[2], front[3], front[4], front[5], front[6], front[7],
        ]))
    }
}
