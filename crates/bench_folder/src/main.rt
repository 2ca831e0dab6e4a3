//! Works on a log of items of 100 bytes in a folder, through a volume or plainly, as often as is said: `bench_folder WORK FOLDER COUNT`.
//! Prints nothing.
//!
//! | through the volume | plainly |
//! |---|---|
//! | `append`: appends of one item, and a sync behind each thousandth | `write`: a write of the same bytes each, and the same syncs: the first also of the names of file and folder |
//! | `read`: reads of single items | `seek`: a seek and a read of the same bytes each |
//! | `open`: the log is opened anew | `load`: its file is read |
#![tactic(auto)]

ghost use Rattle.std.specs.Prelude.{◌<◌};

use codec_base::{Bytes, CodecError};
use host_edge::FolderVolume;
use std::alloc::AllocError;
use std::env;
use std::fs::{self, File};
use std::io::{self, Read, Seek, SeekFrom, Write};
use volume_base::{Volume, VolumeError};

/// Why the work wasn't done.
#[derive(Debug, Drop)]
enum BenchError {
    Volume(VolumeError),
    Files,
    Memory,
}

impl From<VolumeError> for BenchError {
    fn from(error: VolumeError) -> Self {
        BenchError::Volume(error)
    }
}

impl From<CodecError> for BenchError {
    fn from(_: CodecError) -> Self {
        BenchError::Memory
    }
}

impl From<AllocError> for BenchError {
    fn from(_: AllocError) -> Self {
        BenchError::Memory
    }
}

impl From<io::Error> for BenchError {
    fn from(_: io::Error) -> Self {
        BenchError::Files
    }
}

/// An item with its length, as it stands in the file.
fn stored_item() -> [u8; 104] {
    let mut stored = [7u8; 104];
    stored[0] = 0;
    stored[1] = 0;
    stored[2] = 0;
    stored[3] = 100;
    stored
}

fn append(rt: &HostRuntime, folder: &str, count: u64) -> Result<(), BenchError> {
    let alloc = rt.alloc();
    let item = [Bytes::from_slice(alloc, &[7u8; 100])?];
    let mut vol = FolderVolume::new(rt.clone()?, alloc, folder)?;
    for made in 0..count {
        vol.log_append("log", &item)?;
        if made % 1000 == 999 {
            vol.log_sync("log")?;
        }
    }
    Ok(())
}

/// Makes the names in a folder and its own outlast a crash.
fn sync_names(rt: &HostRuntime, folder: &str) -> Result<(), BenchError> {
    let alloc = rt.alloc();
    let inside = format!(in alloc; "{folder}/.")?;
    File::open(rt, inside.as_str())?.sync_all()?;
    let above = format!(in alloc; "{folder}/..")?;
    File::open(rt, above.as_str())?.sync_all()?;
    Ok(())
}

fn write(rt: &HostRuntime, folder: &str, path: &str, count: u64) -> Result<(), BenchError> {
    let mut file = File::create(rt, path)?;
    let item = stored_item();
    file.write_all(&[0u8; 8])?;
    for made in 0..count {
        file.write_all(&item)?;
        if made % 1000 == 999 {
            file.sync_all()?;
        }
        if made == 999 {
            sync_names(rt, folder)?;
        }
    }
    Ok(())
}

/// A position below the end, which is above 0, that lies far from the one before.
fn place(read: u64, end: u64) -> u64
    requires { 0 < end }
{
    read.wrapping_mul(7919) % end
}

fn read(rt: &HostRuntime, folder: &str, count: u64) -> Result<(), BenchError> {
    let mut vol = FolderVolume::new(rt.clone()?, rt.alloc(), folder)?;
    let (_, end) = vol.log_bounds("log")?;
    if end > 0 {
        for read in 0..count {
            vol.log_read("log", place(read, end))?;
        }
    }
    Ok(())
}

fn seek(rt: &HostRuntime, path: &str, count: u64) -> Result<(), BenchError> {
    let mut file = File::open(rt, path)?;
    let end = file.metadata()?.len() / 104;
    let mut item = [0u8; 100];
    if end > 0 {
        for read in 0..count {
            let at = place(read, end).saturating_mul(104).saturating_add(12);
            file.seek(SeekFrom::Start(at))?;
            file.read_exact(&mut item)?;
        }
    }
    Ok(())
}

fn open(rt: &HostRuntime, folder: &str, count: u64) -> Result<(), BenchError> {
    for _ in 0..count {
        let mut vol = FolderVolume::new(rt.clone()?, rt.alloc(), folder)?;
        vol.log_bounds("log")?;
    }
    Ok(())
}

fn load(rt: &HostRuntime, path: &str, count: u64) -> Result<(), BenchError> {
    for _ in 0..count {
        fs::read(rt, path)?;
    }
    Ok(())
}

fn main(rt: HostRuntime) -> Result<(), BenchError> {
    let alloc = rt.alloc();
    let mut words = env::args(&rt)?.skip(1);
    let (Some(work), Some(folder), Some(count)) = (words.next(), words.next(), words.next()) else {
        return Ok(());
    };
    let count = count.as_str().parse::<u64>().unwrap_or(0);
    let folder = folder.as_str();
    let path = format!(in alloc; "{folder}/log.log")?;
    match work.as_str() {
        "append" => append(&rt, folder, count),
        "write" => write(&rt, folder, path.as_str(), count),
        "read" => read(&rt, folder, count),
        "seek" => seek(&rt, path.as_str(), count),
        "open" => open(&rt, folder, count),
        "load" => load(&rt, path.as_str(), count),
        _ => Ok(()),
    }
}
