//! Commands that are generated from a number, and the summary of their run.
ghost use Rattle.std.specs.Prelude.{◌≡◌, ◌+◌, ◌*◌, ◌<◌, ◌≤◌, ◌++◌, IfOk, IsOkUnless, OnOk};
ghost use Rattle.codec_base.specs.Causes.{HasCause};
ghost use Rattle.stream_base.specs.Writing.{Writes};
ghost use Rattle.line_text.specs.Pending.{Puts};
ghost use Rattle.list_machine.specs.Generator.{draw, drawn, appends, upkeep, round_of, next_round, generated, is_refusal, refusals, summary_lines, summary_of, GeneratedAreAccepted};

use codec_base::{Bytes, CodecError};
use command_text::{Answer, Command, Replies, Reply};
use line_text::{Piece, put_digest, put_number};
use std::alloc::Global;
use stream_base::{Sink, WriteFailed};

/// Where a round begins: its number, the number that was drawn last, and the size before it.
#[derive(Clone, Copy)]
pub(crate) struct Round {
    number: u64,
    drawn: u64,
    size: u64,
}

/// The number that is drawn after this.
fn draw(x: u64) -> u64
    ensures { result ≡ draw x }
{
    x.wrapping_mul(6364136223846793005)
        .wrapping_add(1442695040888963407)
}

/// Adds so many appends to a batch, after the number that was drawn last; says which one is the last now.
fn push_appends(
    commands: &mut Vec<Command>,
    batch: u64,
    count: u64,
    before: u64,
) -> Result<u64, CodecError>
    ensures drawn { IfOk result (λ x. x ≡ drawn count before) }
    ensures ok { OnOk result (commands.new.items ≡ commands.old.items ++ appends batch count before) }
    ensures memory { IsOkUnless result CodecError.Memory }
{
    let alloc = *commands.allocator();
    let mut x = before;
    for _ in 0..count {
        x = draw(x);
        let value = Bytes::from_slice(alloc, &x.to_be_bytes())?;
        commands.push(Command::Append(batch, value))?;
    }
    Ok(x)
}

/// Adds what stands behind so many rounds, of which this is the last floor.
fn push_upkeep(commands: &mut Vec<Command>, passed: u64, floor: u64) -> Result<(), CodecError>
    ensures ok { OnOk result (commands.new.items ≡ commands.old.items ++ upkeep passed floor) }
    ensures memory { IsOkUnless result CodecError.Memory }
{
    if passed % 8 == 0 {
        commands.push(Command::Commit)?;
    }
    if passed % 32 == 0 {
        commands.push(Command::Prune(floor))?;
    }
    Ok(())
}

/// Adds the commands of a round, and says where the next one begins.
fn push_round(commands: &mut Vec<Command>, round: Round) -> Result<Round, CodecError>
    requires few { round.number < 10000 }
    requires some { 1 ≤ round.size }
    requires size { round.size ≤ 1 + 17 * round.number }
    ensures next { IfOk result (λ next. next ≡ next_round round) }
    ensures ok { OnOk result (commands.new.items ≡ commands.old.items ++ round_of round) }
    ensures memory { IsOkUnless result CodecError.Memory }
{
    let first = draw(round.drawn);
    let count = 1 + first / (1 << 60);
    let floor = round.size - 1;
    commands.push(Command::New(None))?;
    let drawn = push_appends(commands, round.number, count, first)?;
    commands.push(Command::Seal(round.number, None, floor))?;
    commands.push(Command::Apply(round.number))?;
    commands.push(Command::Release(round.number))?;
    push_upkeep(commands, round.number + 1, floor)?;
    Ok(Round {
        number: round.number + 1,
        drawn,
        size: round.size + count + 1,
    })
}

/// The commands of so many rounds, from a number on.
pub fn generate(alloc: Global, number: u64, count: u64) -> Result<Vec<Command>, CodecError>
    requires { count ≤ 10000 }
    ensures ok { IfOk result (λ commands. commands.items ≡ generated number count) }
    ensures memory { IsOkUnless result CodecError.Memory }
{
    let mut commands = Vec::new(alloc);
    let mut round = Round {
        number: 0,
        drawn: number,
        size: 1,
    };
    for _ in 0..count {
        round = push_round(&mut commands, round)?;
    }
    Ok(commands)
}

/// Whether an answer refuses its command.
fn is_refusal(answer: &Answer) -> bool
    ensures { result ≡ is_refusal answer.now }
{
    matches!(answer, Answer::Refused(_))
}

/// How many of these replies refuse their commands.
fn count_refusals(replies: &[Reply]) -> u64
    ensures { result ≡ refusals replies.now }
{
    let mut refused = 0;
    for reply in replies {
        if is_refusal(&reply.answer) {
            refused += 1;
        }
    }
    refused
}

/// Puts the four lines of a summary.
#[tactic(auto, using(line_text::specs::Pending::putting))]
fn put_summary<O: Sink>(
    piece: &mut Piece,
    out: &mut O,
    count: u64,
    refused: u64,
    last: &Reply,
) -> Result<(), WriteFailed>
    ensures text { Puts (O.written out.old) piece.old (O.written out.new) piece.new result
        (summary_lines count refused last.now) }
    ensures cause { HasCause (O.faults out.old) (O.faults out.new) result }
{
    put_number(piece, out, b"rounds ", count)?;
    put_number(piece, out, b"\nsize ", last.size)?;
    put_number(piece, out, b"\nrefused ", refused)?;
    put_digest(piece, out, b"\nroot ", &last.full_root)?;
    piece.put(out, b"\n")
}

/// Writes the summary of a run of so many rounds, by its replies. It takes no memory.
pub fn write_summary<O: Sink>(
    count: u64,
    replies: &Replies,
    output: &mut O,
) -> Result<(), WriteFailed>
    ensures text { Writes (O.written output.old) (O.written output.new) result (summary_of count replies.now) }
    ensures cause { HasCause (O.faults output.old) (O.faults output.new) result }
{
    let Some(last) = replies.as_slice().last() else {
        return Ok(());
    };
    let refused = count_refusals(replies.as_slice());
    let mut piece = Piece::new();
    put_summary(&mut piece, output, count, refused, last)?;
    piece.send(output)
}

/// Over a fresh volume, under the program's configuration, no generated command is refused.
pub fn generated_are_accepted()
    ensures { GeneratedAreAccepted }
{}
