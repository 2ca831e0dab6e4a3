ghost use Rattle.std.specs.Prelude.{◌≡◌, ◌<◌, ◌+◌, ◌-◌, ◌^◌, min, length, Ok, IfOk, OnOk, OnErr};
ghost use Rattle.std.specs.Io.{WritesAtMost};
ghost use Rattle.std.specs.Io.KnownBytes.{WriteAppends, Keeps};
ghost use Rattle.codec_base.specs.Causes.{HasCause};

use crate::faults::FaultCount;
use std::io::{self, ErrorKind};
use std::marker::Model;
use stream_base::{Sink, WriteFailed};

/// A sink over a std writer. It tells the bytes that the writer tells, which the standard streams, files and sockets don't.
/// A call that a signal interrupts is made again, and a write of a piece that isn't empty never answers that nothing was taken.
#[derive(Drop)]
pub struct StdSink<W> {
    writer: W,
    waits: bool,
    faults: FaultCount,
}

impl<W> Model for StdSink<W> {
    ghost use Rattle.host_edge.specs.Adapters.{OverWriter};

    ghost Value = { OverWriter W };

    ghost view = { λ s. record { writer = s.writer; waits = s.waits; faults = s.faults } };
}

impl<W: io::Write> StdSink<W> {
    /// A sink that has not failed.
    pub fn new(writer: W) -> Self
        ensures faults { ⟦<StdSink<W> as Sink>⟧.faults result ≡ 0 }
        ensures written { ⟦<StdSink<W> as Sink>⟧.written result ≡ W.contents writer }
        ensures flushed { ⟦<StdSink<W> as Sink>⟧.flushed result }
    {
        StdSink {
            writer,
            waits: false,
            faults: FaultCount::new(),
        }
    }
}

impl<W: io::Write> Sink for StdSink<W> {
    ghost use Rattle.std.specs.Prelude.{IsFalse, IsTrue};

    ghost written = { λ s. W.contents s.writer };

    ghost flushed = { λ s. IsFalse s.waits };

    ghost faults = { λ s. s.faults };

    fn write(&mut self, buf: &[u8]) -> Result<usize, WriteFailed>
        ensures bound { WritesAtMost result buf.now }
        ensures some { 0 < length buf.now → IfOk result (λ n. 0 < n) }
        ensures bytes { WriteAppends (W.contents self.old.writer) (W.contents self.new.writer) result buf.now }
        ensures cause { HasCause self.old.faults self.new.faults result }
        // A write that succeeds counts nothing, whatever interrupted it; one that fails counts once.
        ensures kept { OnOk result (self.new.faults ≡ self.old.faults) }
        ensures counted { OnErr result (self.new.faults ≡ min (self.old.faults + 1) (2 ^ 64 - 1)) }
        // What was written waits for a flush, whatever is answered.
        ensures waits { IfOk result (λ n. 0 < n → IsTrue self.new.waits) }
        ensures still_waits { IsTrue self.old.waits → IsTrue self.new.waits }
        // Of an empty piece nothing is asked of the writer, and nothing changes.
        ensures empty { length buf.now ≡ 0 → (result ≡ Ok 0) × (self.new ≡ self.old) }
    {
        if buf.is_empty() {
            return Ok(0);
        }
        self.waits = true;
        let mut tries = 0;
        while tries < u64::MAX {
            match self.writer.write(buf) {
                // A writer that takes nothing has failed.
                Ok(0) => {
                    self.faults.failed(&io::Error::from(ErrorKind::WriteZero));
                    return Err(WriteFailed {});
                }
                Ok(count) => return Ok(count),
                Err(e) if e.kind() == ErrorKind::Interrupted => {}
                Err(e) => {
                    self.faults.failed(&e);
                    return Err(WriteFailed {});
                }
            }
            tries += 1;
        }
        self.faults.gave_up(tries);
        Err(WriteFailed {})
    }

    fn flush(&mut self) -> Result<(), WriteFailed>
        ensures passed { OnOk result (IsFalse self.new.waits) }
        ensures bytes { Keeps (W.contents self.old.writer) (W.contents self.new.writer) }
        ensures cause { HasCause self.old.faults self.new.faults result }
        ensures kept { OnOk result (self.new.faults ≡ self.old.faults) }
        ensures counted { OnErr result (self.new.faults ≡ min (self.old.faults + 1) (2 ^ 64 - 1)) }
        // What waited for a flush that failed still waits.
        ensures still { OnErr result (self.new.waits ≡ self.old.waits) }
    {
        let mut tries = 0;
        while tries < u64::MAX {
            match self.writer.flush() {
                Ok(()) => {
                    self.waits = false;
                    return Ok(());
                }
                Err(e) if e.kind() == ErrorKind::Interrupted => {}
                Err(e) => {
                    self.faults.failed(&e);
                    return Err(WriteFailed {});
                }
            }
            tries += 1;
        }
        self.faults.gave_up(tries);
        Err(WriteFailed {})
    }
}
