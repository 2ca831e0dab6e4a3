//! Appends as many items as the argument says to a log in memory, with a sync behind each hundred. Prints nothing.
#![tactic(auto)]

use codec_base::{Bytes, CodecError};
use memory_volume::MemoryVolume;
use std::alloc::Global;
use std::{env, io};
use volume_base::{Volume, VolumeError};

/// Why the appends weren't done.
#[derive(Debug, Drop)]
enum BenchError {
    Volume(VolumeError),
    Arguments,
}

impl From<VolumeError> for BenchError {
    fn from(error: VolumeError) -> Self {
        BenchError::Volume(error)
    }
}

impl From<CodecError> for BenchError {
    fn from(_: CodecError) -> Self {
        BenchError::Volume(VolumeError::Memory)
    }
}

impl From<io::Error> for BenchError {
    fn from(_: io::Error) -> Self {
        BenchError::Arguments
    }
}

/// Appends an item, and syncs the log behind each hundredth.
fn append<V: Volume>(vol: &mut V, item: &[Bytes], count: u64) -> Result<(), VolumeError> {
    let (_, end) = vol.log_bounds("log")?;
    if end < u64::MAX && item.len() == 1 {
        vol.log_append("log", item)?;
    }
    if count % 100 == 99 {
        vol.log_sync("log")?;
    }
    Ok(())
}

fn run(alloc: Global, appends: u64) -> Result<(), BenchError> {
    let mut vol = MemoryVolume::new(alloc);
    let item = [Bytes::from_slice(alloc, &[7u8; 32])?];
    for count in 0..appends {
        append(&mut vol, &item, count)?;
    }
    Ok(())
}

fn main(rt: HostRuntime) -> Result<(), BenchError> {
    let mut appends = 100;
    for word in env::args(&rt)? {
        if let Ok(number) = word.as_str().parse::<u64>() {
            appends = number;
        }
    }
    run(rt.alloc(), appends)
}
