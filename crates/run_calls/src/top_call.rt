//! The top call over an input, an output and a volume in memory.
use crate::error::ScriptError;
use crate::settings::{number, setting};
use crate::volume::volume_of;
use codec_base::Bytes;
use std::alloc::Global;
use std::str;
use stream_base::{MemorySink, MemorySource};
use twin_run::{Status, twins_main};

/// The words that `words` says, with commas between them; none where it says nothing.
fn words_of(alloc: Global, head: &str) -> Result<Vec<String>, ScriptError> {
    let mut words = Vec::new(alloc);
    let said = setting(head, "words");
    if !said.is_empty() {
        for word in said.split(',') {
            words.push(String::from_str(alloc, word)?)?;
        }
    }
    Ok(words)
}

/// An input of which the call of the number `read` fails.
fn source_of(alloc: Global, head: &str, input: &str) -> Result<MemorySource, ScriptError> {
    let mut source = MemorySource::new(Bytes::from_slice(alloc, input.as_bytes())?);
    source.fail_call(number(head, "read"))?;
    Ok(source)
}

/// An output of `room` bytes, of which the call of the number `write` fails.
fn sink_of(alloc: Global, head: &str) -> Result<MemorySink, ScriptError> {
    let mut sink = MemorySink::new(alloc, number(head, "room"))?;
    sink.fail_call(number(head, "write"))?;
    Ok(sink)
}

/// How the program ends, and what it has written.
fn end_of(alloc: Global, head: &str, input: &str) -> Result<(Status, MemorySink), ScriptError> {
    let words = words_of(alloc, head)?;
    let mut source = source_of(alloc, head, input)?;
    let mut sink = sink_of(alloc, head)?;
    let mut volume = volume_of(alloc, head)?;
    let status = twins_main(alloc, &words, &mut source, &mut sink, &mut volume);
    Ok((status, sink))
}

/// Prints what is written, and the code and the line of the status.
pub(crate) fn print_main(
    rt: &impl Print,
    alloc: Global,
    head: &str,
    input: &str,
) -> Result<(), ScriptError> {
    let (status, sink) = end_of(alloc, head, input)?;
    print!(rt; "{}", str::from_utf8(sink.written())?)?;
    println!(rt; "/ status {} {status}", status.code())?;
    Ok(())
}
