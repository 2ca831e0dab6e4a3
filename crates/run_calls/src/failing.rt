//! A run with each call of the volume failing in turn, and what a crash may then leave opened again.
use crate::error::ScriptError;
use crate::images::left_text;
use crate::whole_run::{answers, text_of};
use memory_volume::MemoryVolume;
use std::alloc::Global;

/// More calls than any run makes.
const MOST_CALLS: u64 = 1000;

/// Where a run ends: whether by itself, and the line on that and on what it has left.
#[derive(Drop)]
struct End {
    is_done: bool,
    line: String,
}

/// Where the run ends with the call of this number failing: by which fault and after how many replies, or by itself where
/// that doesn't stop it. Its replies have to be the first of the whole run.
fn end_of(
    alloc: Global,
    head: &str,
    input: &str,
    whole: &str,
    call: u64,
) -> Result<End, ScriptError> {
    let mut volume = MemoryVolume::new(alloc);
    volume.fail_call(call)?;
    let (replies, fault) = match answers(alloc, head, input, &mut volume)? {
        Ok(replies) => (replies, None),
        Err(stopped) => (stopped.replies, Some(stopped.fault)),
    };
    if !whole.starts_with(text_of(alloc, &replies)?.as_str()) {
        return Err(ScriptError::Script);
    }
    let left = left_text(alloc, head, &volume)?;
    let is_done = fault.is_none();
    let line = match fault {
        Some(fault) => {
            format!(in alloc; "stopped {fault:?} after {} replies, {left}", replies.len())?
        }
        None => format!(in alloc; "done, {left}")?,
    };
    Ok(End { is_done, line })
}

/// Prints where the run ends with each call failing in turn, and then with none; of calls that end it alike, one after
/// another, the first alone.
fn print_ends(
    rt: &impl Print,
    alloc: Global,
    head: &str,
    input: &str,
    whole: &str,
) -> Result<(), ScriptError> {
    let mut last = String::new(alloc);
    for call in 1..MOST_CALLS {
        let end = end_of(alloc, head, input, whole, call)?;
        if end.line.as_str() != last.as_str() {
            println!(rt; "{}", end.line)?;
        }
        if end.is_done {
            return Ok(());
        }
        last = end.line;
    }
    Err(ScriptError::Script)
}

/// Prints the replies, and then where the run ends with each call of the volume failing in turn.
pub(crate) fn print_failing(
    rt: &impl Print,
    alloc: Global,
    head: &str,
    input: &str,
) -> Result<(), ScriptError> {
    let mut volume = MemoryVolume::new(alloc);
    let Ok(replies) = answers(alloc, head, input, &mut volume)? else {
        return Err(ScriptError::Script);
    };
    let whole = text_of(alloc, &replies)?;
    print!(rt; "{whole}")?;
    print_ends(rt, alloc, head, input, whole.as_str())
}
