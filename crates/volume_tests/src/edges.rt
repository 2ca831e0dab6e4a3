//! Streams over readers and writers that are interrupted, take little or fail.
use host_edge::{StdSink, StdSource};
use std::alloc::Global;
use std::io::{self, ErrorKind};
use std::test::Fail;
use stream_base::{ReadAllError, Sink, read_all, write_all};

/// A reader that is interrupted before its second piece, and fails after it where it is told to.
#[derive(Drop)]
struct Reader {
    calls: u8,
    fails: bool,
}

impl io::Read for Reader {
    fn read(&mut self, buf: &mut [u8]) -> io::Result<usize> {
        self.calls = self.calls.saturating_add(1);
        if buf.is_empty() {
            return Ok(0);
        }
        match self.calls {
            1 | 3 => {
                buf[0] = b'a';
                Ok(1)
            }
            2 => Err(io::Error::from(ErrorKind::Interrupted)),
            4 if self.fails => Err(io::Error::from(ErrorKind::ConnectionReset)),
            _ => Ok(0),
        }
    }
}

/// A writer that takes two bytes a call, and nothing at its third; its flush fails.
#[derive(Drop)]
struct Writer {
    calls: u8,
}

impl io::Write for Writer {
    fn write(&mut self, buf: &[u8]) -> io::Result<usize> {
        self.calls = self.calls.saturating_add(1);
        if self.calls == 3 {
            return Ok(0);
        }
        Ok(buf.len().min(2))
    }

    fn flush(&mut self) -> io::Result<()> {
        Err(io::Error::from(ErrorKind::BrokenPipe))
    }
}

/// How many bytes are read of the reader.
fn count(alloc: Global, fails: bool) -> Result<u64, ReadAllError> {
    let mut source = StdSource::new(Reader { calls: 0, fails });
    Ok(read_all(alloc, &mut source, 10)?.len())
}

#[test]
fn an_interrupted_read_is_made_again_and_a_failed_one_is_no_end(rt: HostRuntime) {
    assert!(rt; matches!(&count(rt.alloc(), false), Ok(2)));
    assert!(rt; matches!(&count(rt.alloc(), true), Err(ReadAllError::Failed)));
}

#[test]
fn a_writer_that_takes_nothing_fails(rt: HostRuntime) {
    let mut sink = StdSink::new(Writer { calls: 0 });
    assert!(rt; write_all(&mut sink, b"abcd").is_ok());
    assert!(rt; write_all(&mut sink, b"e").is_err());
    assert!(rt; sink.flush().is_err());
}
