//! Runs of commands under a configuration that their case says.
use crate::between::change;
use crate::error::ScriptError;
use crate::settings::{number, setting};
use crate::volume::volume_of;
use command_text::{Replies, parse_commands, write_replies};
use memory_volume::MemoryVolume;
use std::alloc::Global;
use std::str;
use stream_base::MemorySink;
use twin_run::{Stopped, TwinConfig, run_twins};

/// The name of the log of operations.
pub(crate) const LOG: &str = "log";
/// The name of the log of nodes.
pub(crate) const NODES: &str = "nodes";
/// The name of the log of witnesses.
pub(crate) const WITNESS: &str = "witness";

/// The configuration of a case: the program's, where `config` is `standard`, and else one of short blobs, of 7 operations where
/// `blob` doesn't say another number.
fn config_of(alloc: Global, head: &str) -> Result<TwinConfig, ScriptError> {
    if setting(head, "config") == "standard" {
        return Ok(TwinConfig::standard(alloc)?);
    }
    let limit = number(head, "limit");
    let blob = match number(head, "blob") {
        0 => 7,
        blob => blob,
    };
    let map = "metadata";
    let config = TwinConfig::new(alloc, LOG, NODES, map, WITNESS, blob, 11, 3, 4, limit)?;
    Ok(config)
}

/// What the commands answer on a volume.
pub(crate) fn answers(
    alloc: Global,
    head: &str,
    input: &str,
    volume: &mut MemoryVolume,
) -> Result<Result<Replies, Stopped>, ScriptError> {
    let config = config_of(alloc, head)?;
    let commands = parse_commands(alloc, input.as_bytes())?;
    Ok(run_twins(alloc, &config, volume, &commands))
}

/// The text of replies.
pub(crate) fn text_of(alloc: Global, replies: &Replies) -> Result<String, ScriptError> {
    let mut output = MemorySink::new(alloc, 262144)?;
    write_replies(replies, &mut output)?;
    Ok(String::from_str(alloc, str::from_utf8(output.written())?)?)
}

/// Prints the replies of one run, and the fault that stopped it.
fn print_answers(
    rt: &impl Print,
    alloc: Global,
    head: &str,
    input: &str,
    volume: &mut MemoryVolume,
) -> Result<(), ScriptError> {
    match answers(alloc, head, input, volume)? {
        Ok(replies) => print!(rt; "{}", text_of(alloc, &replies)?)?,
        Err(stopped) => {
            print!(rt; "{}", text_of(alloc, &stopped.replies)?)?;
            println!(rt; "stopped {:?}", stopped.fault)?;
        }
    }
    Ok(())
}

/// Prints the runs of a case, one after another on one volume.
pub(crate) fn print_run(
    rt: &impl Print,
    alloc: Global,
    head: &str,
    input: &str,
) -> Result<(), ScriptError> {
    let mut volume = volume_of(alloc, head)?;
    let mut commands = String::new(alloc);
    for line in input.lines() {
        if line.starts_with('/') {
            print_answers(rt, alloc, head, commands.as_str(), &mut volume)?;
            change(alloc, &mut volume, line)?;
            commands = String::new(alloc);
        } else {
            commands.push_str(line)?;
            commands.push('\n')?;
        }
    }
    print_answers(rt, alloc, head, commands.as_str(), &mut volume)
}
