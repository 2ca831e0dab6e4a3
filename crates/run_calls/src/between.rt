//! What becomes of a volume between two runs of a case.
use crate::error::ScriptError;
use codec_base::Bytes;
use memory_volume::{LogChoice, MemoryVolume};
use std::alloc::Global;
use std::str::SplitWhitespace;
use volume_base::Volume;

/// More logs than a volume of the cases has.
const MOST_LOGS: u64 = 8;

/// The next word as a number; 0 where it is none.
fn number(words: &mut SplitWhitespace<'_>) -> u64 {
    match words.next() {
        Some(word) => word.parse::<u64>().unwrap_or(0),
        None => 0,
    }
}

/// What a crash leaves of logs: of each its name, and the start and the end of the part that is left of its newest version.
fn choices(alloc: Global, words: SplitWhitespace<'_>) -> Result<Vec<LogChoice>, ScriptError> {
    let mut choices = Vec::new(alloc);
    let mut words = words;
    for _ in 0..MOST_LOGS {
        let Some(name) = words.next() else {
            break;
        };
        choices.push(LogChoice {
            name: Bytes::from_slice(alloc, name.as_bytes())?,
            version: 0,
            start: number(&mut words),
            end: number(&mut words),
        })?;
    }
    Ok(choices)
}

/// Puts a log in the place of one: its name, and its items from 0 on as hexadecimal.
fn put(
    alloc: Global,
    volume: &mut MemoryVolume,
    words: SplitWhitespace<'_>,
) -> Result<(), ScriptError> {
    let mut words = words;
    let Some(name) = words.next() else {
        return Err(ScriptError::Script);
    };
    let mut items = Vec::new(alloc);
    for word in words {
        items.push(Bytes::from_vec(hex::decode(alloc, word)?))?;
    }
    volume.put_log(name, 0, &items)?;
    Ok(())
}

/// Begins a log at a later item, as a prune of that log alone does.
fn begin(volume: &mut MemoryVolume, words: SplitWhitespace<'_>) -> Result<(), ScriptError> {
    let mut words = words;
    let Some(name) = words.next() else {
        return Err(ScriptError::Script);
    };
    let place = number(&mut words);
    let (start, end) = volume.log_bounds(name)?;
    if place < start || end < place {
        return Err(ScriptError::Script);
    }
    volume.log_prune(name, place)?;
    Ok(())
}

/// Does with a volume what a line says that ends a run.
pub(crate) fn change(
    alloc: Global,
    volume: &mut MemoryVolume,
    line: &str,
) -> Result<(), ScriptError> {
    let mut words = line.split_whitespace();
    match words.next().unwrap_or("") {
        "/again" => {}
        "/crash" => *volume = volume.crash(&choices(alloc, words)?)?,
        "/put" => put(alloc, volume, words)?,
        "/start" => begin(volume, words)?,
        _ => return Err(ScriptError::Script),
    }
    Ok(())
}
