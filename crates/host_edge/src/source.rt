ghost use Rattle.std.specs.Prelude.{◌≡◌, ◌+◌, ◌-◌, ◌^◌, min, length, Ok, OnOk, OnErr};
ghost use Rattle.std.specs.Io.{ReadsAtMost};
ghost use Rattle.std.specs.Io.KnownBytes.{ReadConsumes};
ghost use Rattle.codec_base.specs.Causes.{HasCause};

use crate::faults::FaultCount;
use std::io::{self, ErrorKind};
use std::marker::Model;
use stream_base::{ReadFailed, Source};

/// A source over a std reader. It tells the bytes that the reader tells, which the standard streams, files and sockets don't.
/// A read that a signal interrupts is made again.
#[derive(Drop)]
pub struct StdSource<R> {
    reader: R,
    faults: FaultCount,
}

impl<R> Model for StdSource<R> {
    ghost use Rattle.host_edge.specs.Adapters.{OverReader};

    ghost Value = { OverReader R };

    ghost view = { λ s. record { reader = s.reader; faults = s.faults } };
}

impl<R: io::Read> StdSource<R> {
    /// A source that has not failed.
    pub fn new(reader: R) -> Self
        ensures faults { ⟦<StdSource<R> as Source>⟧.faults result ≡ 0 }
        ensures left { ⟦<StdSource<R> as Source>⟧.left result ≡ R.remaining reader }
    {
        StdSource {
            reader,
            faults: FaultCount::new(),
        }
    }
}

impl<R: io::Read> Source for StdSource<R> {
    ghost left = { λ s. R.remaining s.reader };

    ghost faults = { λ s. s.faults };

    fn read(&mut self, buf: &mut [u8]) -> Result<usize, ReadFailed>
        ensures bound { ReadsAtMost result buf.new }
        ensures bytes { ReadConsumes (R.remaining self.old.reader) (R.remaining self.new.reader) result buf.new }
        ensures cause { HasCause self.old.faults self.new.faults result }
        // A read that succeeds counts nothing, whatever interrupted it; one that fails counts once.
        ensures kept { OnOk result (self.new.faults ≡ self.old.faults) }
        ensures counted { OnErr result (self.new.faults ≡ min (self.old.faults + 1) (2 ^ 64 - 1)) }
        // Where there is no room nothing is asked of the reader, and nothing changes.
        ensures no_room { length buf.old ≡ 0 → (result ≡ Ok 0) × (self.new ≡ self.old) }
    {
        if buf.is_empty() {
            return Ok(0);
        }
        let mut tries = 0;
        while tries < u64::MAX {
            match self.reader.read(buf) {
                Ok(count) => return Ok(count),
                Err(e) if e.kind() == ErrorKind::Interrupted => {}
                Err(e) => {
                    self.faults.failed(&e);
                    return Err(ReadFailed {});
                }
            }
            tries += 1;
        }
        self.faults.gave_up(tries);
        Err(ReadFailed {})
    }
}
