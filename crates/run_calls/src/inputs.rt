//! Inputs alone: how many commands each says, or which line is none.
use crate::error::ScriptError;
use command_text::{LineError, parse_commands};
use std::alloc::Global;

fn print_input(rt: &impl Print, alloc: Global, input: &[u8]) -> Result<(), ScriptError> {
    match parse_commands(alloc, input) {
        Ok(commands) => println!(rt; "{} commands", commands.len())?,
        Err(LineError::Bad(line)) => println!(rt; "bad line {line}")?,
        Err(LineError::Memory) => return Err(ScriptError::Memory),
    }
    Ok(())
}

/// Prints what each line says.
pub(crate) fn print_lines(rt: &impl Print, alloc: Global, input: &str) -> Result<(), ScriptError> {
    for line in input.lines() {
        print_input(rt, alloc, line.as_bytes())?;
    }
    Ok(())
}

/// Prints what the bytes of each line say.
pub(crate) fn print_hex(rt: &impl Print, alloc: Global, input: &str) -> Result<(), ScriptError> {
    for line in input.lines() {
        print_input(rt, alloc, &hex::decode(alloc, line)?)?;
    }
    Ok(())
}
