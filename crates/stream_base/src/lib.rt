//! Streams of bytes: what a source gives and a sink takes, each failure counted; streams in memory, whose calls can be set to fail.
#![tactic(auto)]

mod failing;
mod io;
mod memory;
mod whole;

pub use failing::FailingCalls;
pub use io::{ReadFailed, Sink, Source, WriteFailed};
pub use memory::{MemorySink, MemorySource};
pub use whole::{ReadAllError, read_all, write_all};
