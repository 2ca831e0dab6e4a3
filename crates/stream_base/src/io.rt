//! Streams of bytes.
ghost use Rattle.std.specs.Prelude.{◌≡◌, ℕ, ◌+◌, ◌-◌, ◌^◌, ◌<◌, List, length, min, OnOk, OnErr, IfOk};
ghost use Rattle.std.specs.declared.option.Option.{Option};
ghost use Rattle.std.specs.Io.{ReadsAtMost, WritesAtMost};
ghost use Rattle.std.specs.Io.KnownBytes.{ReadConsumes, WriteAppends, Keeps};
ghost use Rattle.codec_base.specs.Causes.{HasCause};

/// A read that failed.
#[derive(Clone, Copy, Debug, PartialEq, Eq)]
pub struct ReadFailed {}

/// A write that failed.
#[derive(Clone, Copy, Debug, PartialEq, Eq)]
pub struct WriteFailed {}

/// A stream that gives bytes.
pub trait Source {
    /// The bytes that are left, where it tells them.
    ghost left: { Self → Option (List ℕ) };

    /// How often it has failed; the count stands still at the end of its type.
    ghost faults: { Self → ℕ };

    /// Reads some bytes into the front of the buffer, and says how many. 0 at a buffer that isn't empty is the end.
    /// After an error the bytes of the buffer may be any.
    fn read(&mut self, buf: &mut [u8]) -> Result<usize, ReadFailed>
        ensures bound { ReadsAtMost result buf.new }
        ensures bytes { ReadConsumes (left self.old) (left self.new) result buf.new }
        ensures cause { HasCause (faults self.old) (faults self.new) result }
        // A read that fails counts once, and one that succeeds counts nothing.
        ensures counted { OnErr result (faults self.new ≡ min (faults self.old + 1) (2 ^ 64 - 1)) }
        ensures kept { OnOk result (faults self.new ≡ faults self.old) };
}

/// A stream that takes bytes.
pub trait Sink {
    /// The bytes that were written, where it tells them.
    ghost written: { Self → Option (List ℕ) };

    /// Nothing that was written waits to be passed on.
    ghost flushed: { Self → Type 0 };

    /// How often it has failed; the count stands still at the end of its type.
    ghost faults: { Self → ℕ };

    /// Writes some of these bytes, from their front, and says how many: at least one of a piece that isn't empty.
    fn write(&mut self, buf: &[u8]) -> Result<usize, WriteFailed>
        ensures bound { WritesAtMost result buf.now }
        ensures some { 0 < length buf.now → IfOk result (λ n. 0 < n) }
        ensures bytes { WriteAppends (written self.old) (written self.new) result buf.now }
        ensures cause { HasCause (faults self.old) (faults self.new) result }
        // A write that fails counts once, and one that succeeds counts nothing.
        ensures counted { OnErr result (faults self.new ≡ min (faults self.old + 1) (2 ^ 64 - 1)) }
        ensures kept { OnOk result (faults self.new ≡ faults self.old) };

    /// Passes on what was written.
    fn flush(&mut self) -> Result<(), WriteFailed>
        ensures passed { OnOk result (flushed self.new) }
        ensures bytes { Keeps (written self.old) (written self.new) }
        ensures cause { HasCause (faults self.old) (faults self.new) result }
        ensures counted { OnErr result (faults self.new ≡ min (faults self.old + 1) (2 ^ 64 - 1)) }
        ensures kept { OnOk result (faults self.new ≡ faults self.old) };
}
