//! Streams in memory.
ghost use Rattle.std.specs.Prelude.{◌≡◌, ◌↔◌, ◌⊎◌, ℕ, ◌+◌, ◌-◌, ◌^◌, ◌<◌, ◌≤◌, List, [], ◌∷◌, ◌++◌, length, take, drop, min, Some, Contains, IsErr, IfOk, OnOk, OnErr, vec_len, vec_capacity};
ghost use Rattle.std.specs.Io.{ReadsAtMost, WritesAtMost};
ghost use Rattle.std.specs.Io.KnownBytes.{ReadConsumes, WriteAppends, Keeps};
ghost use Rattle.codec_base.specs.Causes.{HasCause};
ghost use Rattle.stream_base.specs.Failing.{after_call};
ghost use Rattle.stream_base.specs.Streams.{Unread, Filled};

use crate::{FailingCalls, ReadFailed, Sink, Source, WriteFailed};
use codec_base::Bytes;
use std::alloc::{AllocError, Global};
use std::marker::Model;

/// A source in memory.
#[derive(Debug, Drop)]
pub struct MemorySource {
    bytes: Bytes,
    at: usize,
    failing: FailingCalls,
}

impl Model for MemorySource {
    ghost Value = { Unread };

    ghost view = { λ s. record { left = drop s.at s.bytes; failing = s.failing } };

    ghost invariant = { λ s. s.at ≤ length s.bytes };
}

impl MemorySource {
    /// A source of these bytes. It takes no memory.
    pub fn new(bytes: Bytes) -> Self
        ensures { result ≡ record { left = bytes; failing = record { ahead = []; faults = 0 } } }
    {
        let failing = FailingCalls::new(bytes.allocator());
        MemorySource {
            bytes,
            at: 0,
            failing,
        }
    }

    /// Sets the n-th call from now to fail: 1 is the next, and 0 sets nothing. Such a call changes nothing but the count of faults.
    pub fn fail_call(&mut self, n: u64) -> Result<(), AllocError>
        ensures set { OnOk result (self.new ≡ record self.old { failing = record self.old.failing { ahead = self.old.failing.ahead ++ n ∷ [] } }) }
        ensures err { OnErr result (self.new ≡ self.old) }
    {
        self.failing.fail_call(n)
    }
}

impl Source for MemorySource {
    ghost use Rattle.std.specs.Prelude.{Some};

    ghost left = { λ s. Some s.left };

    ghost faults = { λ s. s.failing.faults };

    fn read(&mut self, buf: &mut [u8]) -> Result<usize, ReadFailed>
        ensures bound { ReadsAtMost result buf.new }
        ensures bytes { ReadConsumes (Some self.old.left) (Some self.new.left) result buf.new }
        ensures cause { HasCause self.old.failing.faults self.new.failing.faults result }
        // A failure is counted once, and nothing else is.
        ensures counted { OnErr result (self.new.failing.faults ≡ min (self.old.failing.faults + 1) (2 ^ 64 - 1)) }
        ensures kept { OnOk result (self.new.failing.faults ≡ self.old.failing.faults) }
        // It fails exactly where it was set to, and else gives all that has room.
        ensures planned { IsErr result ↔ Contains self.old.failing.ahead 1 }
        ensures ahead { self.new.failing.ahead ≡ after_call self.old.failing.ahead }
        ensures count { IfOk result (λ n. n ≡ min (length self.old.left) (length buf.old)) }
        ensures buffer { OnErr result (buf.new ≡ buf.old) }
    {
        if self.failing.next_fails() {
            return Err(ReadFailed {});
        }
        let (_, left) = self.bytes.as_slice().split_at(self.at);
        let count = fill(buf, left);
        self.at += count;
        Ok(count)
    }
}

/// Copies what there is room for into the front of the buffer, and says how many bytes.
fn fill(buf: &mut [u8], bytes: &[u8]) -> usize
    ensures count { result ≡ min (length bytes.now) (length buf.old) }
    ensures front { take result buf.new ≡ take result bytes.now }
{
    let count = bytes.len().min(buf.len());
    buf[..count].copy_from_slice(&bytes[..count]);
    count
}

/// A sink in memory, with room that it takes when it is made.
#[derive(Debug, Drop)]
pub struct MemorySink {
    bytes: Vec<u8>,
    room: usize,
    failing: FailingCalls,
}

impl Model for MemorySink {
    ghost Value = { Filled };

    ghost view = { λ s. record { written = s.bytes.items; room = s.room; failing = s.failing } };

    ghost invariant = { λ s. vec_len s.bytes + s.room ≤ vec_capacity s.bytes };
}

impl MemorySink {
    /// A sink that takes this many bytes.
    pub fn new(alloc: Global, room: u64) -> Result<Self, AllocError>
        ensures { IfOk result (λ s. s ≡ record { written = []; room = room; failing = record { ahead = []; faults = 0 } }) }
    {
        let bytes = Vec::with_capacity(alloc, room as usize)?;
        Ok(MemorySink {
            bytes,
            room: room as usize,
            failing: FailingCalls::new(alloc),
        })
    }

    /// The bytes that were written.
    pub fn written(&self) -> &[u8]
        ensures { result.now ≡ self.now.written }
    {
        &self.bytes
    }

    /// Sets the n-th call from now to fail: 1 is the next, and 0 sets nothing. Such a call changes nothing but the count of faults.
    pub fn fail_call(&mut self, n: u64) -> Result<(), AllocError>
        ensures set { OnOk result (self.new ≡ record self.old { failing = record self.old.failing { ahead = self.old.failing.ahead ++ n ∷ [] } }) }
        ensures err { OnErr result (self.new ≡ self.old) }
    {
        self.failing.fail_call(n)
    }
}

impl Sink for MemorySink {
    ghost use Rattle.std.specs.Prelude.{Some};

    ghost written = { λ s. Some s.written };

    // Nothing waits.
    ghost flushed = { λ _. Unit {0} };

    ghost faults = { λ s. s.failing.faults };

    fn write(&mut self, buf: &[u8]) -> Result<usize, WriteFailed>
        ensures bound { WritesAtMost result buf.now }
        ensures some { 0 < length buf.now → IfOk result (λ n. 0 < n) }
        ensures bytes { WriteAppends (Some self.old.written) (Some self.new.written) result buf.now }
        ensures cause { HasCause self.old.failing.faults self.new.failing.faults result }
        // A failure is counted once, and nothing else is.
        ensures counted { OnErr result (self.new.failing.faults ≡ min (self.old.failing.faults + 1) (2 ^ 64 - 1)) }
        ensures kept { OnOk result (self.new.failing.faults ≡ self.old.failing.faults) }
        // It fails exactly where it was set to, or has no room for any of the bytes, and else takes what fits.
        ensures fails { IsErr result ↔ (Contains self.old.failing.ahead 1 ⊎ ((0 < length buf.now) × (self.old.room ≡ 0))) }
        ensures ahead { self.new.failing.ahead ≡ after_call self.old.failing.ahead }
        ensures count { IfOk result (λ n. n ≡ min (length buf.now) self.old.room) }
        ensures room { IfOk result (λ n. self.new.room + n ≡ self.old.room) }
        ensures full { OnErr result (self.new.room ≡ self.old.room) }
    {
        if self.failing.next_fails() {
            return Err(WriteFailed {});
        }
        if self.room == 0 && !buf.is_empty() {
            self.failing.count_fault();
            return Err(WriteFailed {});
        }
        let count = buf.len().min(self.room);
        self.bytes.extend_from_slice(&buf[..count]).unwrap();
        self.room -= count;
        Ok(count)
    }

    fn flush(&mut self) -> Result<(), WriteFailed>
        ensures passed { OnOk result (Unit {0}) }
        ensures bytes { Keeps (Some self.old.written) (Some self.new.written) }
        ensures cause { HasCause self.old.failing.faults self.new.failing.faults result }
        // A failure is counted once, and nothing else is.
        ensures counted { OnErr result (self.new.failing.faults ≡ min (self.old.failing.faults + 1) (2 ^ 64 - 1)) }
        ensures kept { OnOk result (self.new.failing.faults ≡ self.old.failing.faults) }
        ensures planned { IsErr result ↔ Contains self.old.failing.ahead 1 }
        ensures ahead { self.new.failing.ahead ≡ after_call self.old.failing.ahead }
        ensures room { self.new.room ≡ self.old.room }
    {
        if self.failing.next_fails() {
            return Err(WriteFailed {});
        }
        Ok(())
    }
}
