ghost use Rattle.std.specs.Prelude.{◌≡◌, List, IfOk, IfErr, OnOk, IsOkUnless, MatchResult};
ghost use Rattle.command_text.specs.declared.command.Command.{Command};
ghost use Rattle.command_text.specs.declared.parse.LineError.TheVariants.{Memory};
ghost use Rattle.line_text.specs.Lines.{lines_of, words_of};
ghost use Rattle.command_text.specs.Grammar.{IsReading, InputSays};
ghost use Rattle.command_text.specs.Bad.{IsCause, IsBadHere, Adds};

use crate::command::Command;
use crate::words::read_words;
use codec_base::CodecError;
use line_text::{Lines, Words, is_skipped};
use std::alloc::Global;

/// Why an input isn't read as commands.
#[derive(Clone, Copy, Debug, PartialEq, Eq)]
pub enum LineError {
    /// This line, counted from 1, is no command, and none before it is bad.
    Bad(u64),
    /// There is no memory.
    Memory,
}

impl From<CodecError> for LineError {
    ghost from_gives = { λ _ e. e ≡ Memory };

    fn from(_: CodecError) -> Self {
        LineError::Memory
    }
}

/// Reads the command that a line says.
fn read_line(alloc: Global, line: &[u8]) -> Result<Option<Command>, CodecError>
    ensures command { IfOk result (IsReading (words_of line.now)) }
    ensures memory { IsOkUnless result CodecError.Memory }
{
    let mut words = Words::new(line);
    let Some(name) = words.next_word() else {
        return Ok(None);
    };
    read_words(alloc, name, words)
}

/// Adds the command that the line of this number says, where it isn't skipped.
fn push_command(commands: &mut Vec<Command>, number: u64, line: &[u8]) -> Result<(), LineError>
    ensures ok { OnOk result (Adds line.now commands.old.items commands.new.items) }
    ensures bad { IfErr result (λ e. IsBadHere number line.now e) }
{
    if is_skipped(line) {
        return Ok(());
    }
    match read_line(*commands.allocator(), line)? {
        Some(command) => match commands.push(command) {
            Ok(()) => Ok(()),
            Err(_) => Err(LineError::Memory),
        },
        None => Err(LineError::Bad(number)),
    }
}

/// Reads an input as commands, one a line; empty lines and comments are skipped. It refuses with `Bad` the first line
/// that is no command, by its number from 1 on, and for want of memory with `Memory`.
pub fn parse_commands(alloc: Global, input: &[u8]) -> Result<Vec<Command>, LineError>
    ensures read { IfOk result (λ commands. InputSays input.now commands.items) }
    ensures bad { IfErr result (IsCause (lines_of input.now)) }
    ensures again { (commands : List Command) → InputSays input.now commands →
        MatchResult result (λ read. read.items ≡ commands) (λ e. e ≡ LineError.Memory) }
{
    let mut lines = Lines::new(input);
    let mut commands = Vec::new(alloc);
    let mut number = 0;
    while let Some(line) = lines.next_line() {
        number += 1;
        push_command(&mut commands, number, line)?;
    }
    Ok(commands)
}
