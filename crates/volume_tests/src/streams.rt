//! Streams in memory, with calls that were set to fail.
use codec_base::Bytes;
use std::alloc::Global;
use std::test::Fail;
use stream_base::{MemorySink, MemorySource, ReadAllError, Sink, Source, read_all, write_all};

/// A source of five bytes, of which the n-th call from now fails.
fn source(alloc: Global, n: u64) -> Result<MemorySource, Fail> {
    let mut source = MemorySource::new(Bytes::from_slice(alloc, b"hello")?);
    source.fail_call(n)?;
    Ok(source)
}

/// What is read of the source within a limit, as a number of bytes.
fn read_within(alloc: Global, n: u64, limit: u64) -> Result<Result<u64, ReadAllError>, Fail> {
    let mut source = source(alloc, n)?;
    Ok(read_all(alloc, &mut source, limit).map(|bytes| bytes.len()))
}

#[test]
fn a_source_is_read_whole_or_not_at_all(rt: HostRuntime) -> Result<(), Fail> {
    let alloc = rt.alloc();
    assert!(rt; matches!(&read_within(alloc, 0, 5)?, Ok(5)));
    assert!(rt; matches!(&read_within(alloc, 0, 4)?, Err(ReadAllError::TooLong)));
    assert!(rt; matches!(&read_within(alloc, 2, 5)?, Err(ReadAllError::Failed)));
    Ok(())
}

#[test]
fn a_source_goes_on_behind_a_failed_read(rt: HostRuntime) -> Result<(), Fail> {
    let mut source = source(rt.alloc(), 2)?;
    let mut piece = [0u8; 2];
    for (read, want) in [(true, b"he"), (false, b"he"), (true, b"ll")] {
        assert!(rt; source.read(&mut piece).is_ok() == read);
        assert!(rt; piece == *want);
    }
    Ok(())
}

#[test]
fn a_sink_takes_what_fits(rt: HostRuntime) -> Result<(), Fail> {
    let mut sink = MemorySink::new(rt.alloc(), 4)?;
    sink.fail_call(2)?;
    assert!(rt; sink.write(b"ab") == Ok(2));
    assert!(rt; sink.flush().is_err());
    assert!(rt; write_all(&mut sink, b"cde").is_err());
    assert!(rt; sink.written() == b"abcd".as_slice());
    assert!(rt; sink.flush().is_ok());
    Ok(())
}
