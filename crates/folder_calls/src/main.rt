//! Makes the calls of a script on a volume in a folder, `folder` or the one that the first argument names, and prints what each
//! answers. A line has a call, the name of a log or map, and numbers or words; the word `.` is the empty one.
#![tactic(auto)]

use codec_base::{Bytes, CodecError};
use host_edge::FolderVolume;
use std::alloc::{AllocError, AllocFailed, Global};
use std::str::SplitWhitespace;
use std::{env, io, str};
use volume_base::{MetaMap, Volume, VolumeError};

/// Why the script wasn't gone through.
#[derive(Debug, Drop)]
enum ScriptError {
    Memory,
    Streams,
}

impl From<CodecError> for ScriptError {
    fn from(_: CodecError) -> Self {
        ScriptError::Memory
    }
}

impl From<VolumeError> for ScriptError {
    fn from(_: VolumeError) -> Self {
        ScriptError::Memory
    }
}

impl From<AllocError> for ScriptError {
    fn from(_: AllocError) -> Self {
        ScriptError::Memory
    }
}

impl<T: Drop> From<AllocFailed<T>> for ScriptError {
    fn from(_: AllocFailed<T>) -> Self {
        ScriptError::Memory
    }
}

impl From<io::Error> for ScriptError {
    fn from(_: io::Error) -> Self {
        ScriptError::Streams
    }
}

/// A word as bytes.
fn bytes(alloc: Global, word: &str) -> Result<Bytes, CodecError> {
    let word = if word == "." { "" } else { word };
    Bytes::from_slice(alloc, word.as_bytes())
}

/// The words that are left, as items.
fn items(alloc: Global, words: SplitWhitespace<'_>) -> Result<Vec<Bytes>, ScriptError> {
    let mut items = Vec::new(alloc);
    for word in words {
        items.push(bytes(alloc, word)?)?;
    }
    Ok(items)
}

/// The words that are left, as keys and values in turn.
fn map(alloc: Global, words: SplitWhitespace<'_>) -> Result<MetaMap, ScriptError> {
    let mut map = MetaMap::new(alloc);
    let mut words = words;
    for _ in 0..1000 {
        let (Some(key), Some(value)) = (words.next(), words.next()) else {
            break;
        };
        map.put(bytes(alloc, key)?, bytes(alloc, value)?)?;
    }
    Ok(map)
}

/// The next word as a number; 0 where it is none.
fn number(words: &mut SplitWhitespace<'_>) -> u64 {
    match words.next() {
        Some(word) => word.parse::<u64>().unwrap_or(0),
        None => 0,
    }
}

/// A byte list as a word.
fn word(bytes: &[u8]) -> &str {
    if bytes.is_empty() {
        return ".";
    }
    str::from_utf8(bytes).unwrap_or("?")
}

fn print_error(rt: &impl Print, error: VolumeError) -> io::Result<()> {
    match error {
        VolumeError::Failed => println!(rt; "failed"),
        VolumeError::ItemPruned(position) => println!(rt; "pruned {position}"),
        VolumeError::ItemOutOfRange(position) => println!(rt; "out of range {position}"),
        VolumeError::Memory => println!(rt; "no memory"),
    }
}

fn print_done(rt: &impl Print, done: Result<(), VolumeError>) -> io::Result<()> {
    match done {
        Ok(()) => println!(rt; "done"),
        Err(error) => print_error(rt, error),
    }
}

fn print_item(rt: &impl Print, item: Result<Bytes, VolumeError>) -> io::Result<()> {
    match item {
        Ok(item) => println!(rt; "{}", word(item.as_slice())),
        Err(error) => print_error(rt, error),
    }
}

fn print_map(rt: &impl Print, map: Result<MetaMap, VolumeError>) -> io::Result<()> {
    match map {
        Ok(map) => {
            for (key, value) in map.entries() {
                print!(rt; "{} {} ", word(key.as_slice()), word(value.as_slice()))?;
            }
            println!(rt; "end")
        }
        Err(error) => print_error(rt, error),
    }
}

/// Makes the call of a line, and prints its answer.
fn make_call(
    rt: &HostRuntime,
    vol: &mut FolderVolume<HostRuntime>,
    line: &str,
) -> Result<(), ScriptError> {
    let alloc = rt.alloc();
    let mut words = line.split_whitespace();
    let (Some(call), Some(name)) = (words.next(), words.next()) else {
        return Ok(());
    };
    match call {
        "bounds" => match vol.log_bounds(name) {
            Ok((start, end)) => println!(rt; "{start} {end}")?,
            Err(error) => print_error(rt, error)?,
        },
        "read" => print_item(rt, vol.log_read(name, number(&mut words)))?,
        "append" => print_done(rt, vol.log_append(name, &items(alloc, words)?))?,
        "sync" => print_done(rt, vol.log_sync(name))?,
        "cut" => print_done(rt, vol.log_cut(name, number(&mut words)))?,
        "prune" => print_done(rt, vol.log_prune(name, number(&mut words)))?,
        "clear" => print_done(rt, vol.log_clear(name, number(&mut words)))?,
        "remove" => print_done(rt, vol.log_remove(name))?,
        "map" => print_map(rt, vol.map_get(name))?,
        "replace" => print_done(rt, vol.map_replace(name, &map(alloc, words)?))?,
        "take" => print_done(rt, vol.map_remove(name))?,
        _ => println!(rt; "no call")?,
    }
    Ok(())
}

/// The folder that the last argument names, or `folder`.
fn folder_name(rt: &HostRuntime) -> Result<String, ScriptError> {
    let mut folder = String::from_str(rt.alloc(), "folder")?;
    for argument in env::args(rt)?.skip(1) {
        folder = argument;
    }
    Ok(folder)
}

fn main(rt: HostRuntime) -> Result<(), ScriptError> {
    let alloc = rt.alloc();
    let folder = folder_name(&rt)?;
    let mut vol = FolderVolume::new(rt.clone()?, alloc, folder.as_str())?;
    for line in rt.lines(alloc) {
        make_call(&rt, &mut vol, line?.as_str())?;
    }
    Ok(())
}
