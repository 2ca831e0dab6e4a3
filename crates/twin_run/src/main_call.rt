//! The top call of the program.
ghost use Rattle.std.specs.Prelude.{◌≡◌, ◌⊎◌, ◌↔◌, ℕ, List, ◌-◌, ◌^◌, ◌<◌, ◌≤◌, length, Some, IfSome, IfOk, IfErr, OnOk, IsOkUnless};
ghost use Rattle.codec_base.specs.Causes.{HasCause, Rose};
ghost use Rattle.stream_base.specs.Writing.{Writes};
ghost use Rattle.volume_base.specs.Moments.{present};
ghost use Rattle.volume_base.specs.Names.{NamesCall};
ghost use Rattle.volume_base.specs.Volume.{StaysSteady};
ghost use Rattle.line_text.specs.Lines.{lines_of};
ghost use Rattle.command_text.specs.declared.command.Command.{Command};
ghost use Rattle.command_text.specs.Bad.{IsFirstBad};
ghost use Rattle.command_text.specs.Grammar.{InputSays};
ghost use Rattle.list_machine.specs.Config.{standard_config};
ghost use Rattle.list_machine.specs.Starts.{OfEachStart, twin_names};
ghost use Rattle.twin_run.specs.Outcome.{IsValid, IsWhole, IsInput, Runs, AreToRun, IsAnswered, IsCutOff, IsStopped};
ghost use Rattle.twin_run.specs.Outcome.{IsEarly, IsReadStatus, IsRunStatus, fault_status, output_of};
ghost use Rattle.twin_run.specs.Generated.{IsSummedUp, OfFreshRun};
ghost use Rattle.twin_run.specs.Words.{WordsSay, HaveNoForm, texts_of};

use crate::ending::{Fault, Status};
use crate::run::run_twins;
use crate::words::{Task, parse_words};
use command_text::{Command, LineError, Replies, parse_commands, write_replies};
use list_machine::{TwinConfig, generate, write_summary};
use std::alloc::Global;
use stream_base::{ReadAllError, Sink, Source, WriteFailed, read_all};
use volume_base::Volume;

/// The longest input.
const INPUT_LIMIT: u64 = 16777216;

/// Reads the input to its end, and as commands; or says how the program ends.
fn read_commands<I: Source>(alloc: Global, input: &mut I) -> Result<Vec<Command>, Status>
    ensures input { IfOk result (λ commands. IsInput (I.left input.old) (I.left input.new) commands.items) }
    ensures early { IfErr result
        (IsReadStatus (I.left input.old) (I.left input.new) (I.faults input.old) (I.faults input.new)) }
    // They are the ones that it says.
    ensures only { (bytes : List ℕ) (said : List Command) → I.left input.old ≡ Some bytes → InputSays bytes said →
        IfOk result (λ commands. commands.items ≡ said) }
{
    let bytes = match read_all(alloc, input, INPUT_LIMIT) {
        Ok(bytes) => bytes,
        Err(ReadAllError::TooLong) => return Err(Status::TooLong),
        Err(ReadAllError::Failed) => return Err(Status::ReadFault),
        Err(ReadAllError::Memory) => return Err(Status::Memory),
    };
    match parse_commands(alloc, bytes.as_slice()) {
        Ok(commands) => Ok(commands),
        Err(LineError::Bad(n)) => Err(Status::BadLine(n)),
        Err(LineError::Memory) => Err(Status::Memory),
    }
}

/// The commands that a task runs; or says how the program ends. For generated ones no input is read.
fn commands_of<I: Source>(alloc: Global, task: Task, input: &mut I) -> Result<Vec<Command>, Status>
    requires { (number count : ℕ) → task ≡ Task.Generate number count → count ≤ 10000 }
    ensures runs { IfOk result (λ commands. Runs task (I.left input.old) (I.left input.new) commands.items) }
    ensures early { IfErr result
        (IsReadStatus (I.left input.old) (I.left input.new) (I.faults input.old) (I.faults input.new)) }
    ensures memory { (number count : ℕ) → task ≡ Task.Generate number count → IsOkUnless result Status.Memory }
    ensures only { (said : List Command) → AreToRun task (I.left input.old) said →
        IfOk result (λ commands. commands.items ≡ said) }
    ensures unread { (number count : ℕ) → task ≡ Task.Generate number count → input.new ≡ input.old }
{
    match task {
        Task::Commands => read_commands(alloc, input),
        Task::Generate { number, count } => match generate(alloc, number, count) {
            Ok(commands) => Ok(commands),
            Err(_) => Err(Status::Memory),
        },
    }
}

/// Writes what a task says of replies: their text, or the summary.
fn write_output<O: Sink>(task: Task, replies: &Replies, output: &mut O) -> Result<(), WriteFailed>
    ensures text { Writes (O.written output.old) (O.written output.new) result (output_of task replies.now) }
    ensures cause { HasCause (O.faults output.old) (O.faults output.new) result }
{
    match task {
        Task::Commands => write_replies(replies, output),
        Task::Generate { count, .. } => write_summary(count, replies, output),
    }
}

/// Writes what a task says of replies, and passes it on.
fn put_out<O: Sink>(task: Task, replies: &Replies, output: &mut O) -> Result<(), WriteFailed>
    ensures text { Writes (O.written output.old) (O.written output.new) result (output_of task replies.now) }
    ensures flushed { OnOk result (O.flushed output.new) }
    ensures passed_on { O.flushed output.new ⊎ Rose (O.faults output.old) (O.faults output.new) }
    ensures cause { HasCause (O.faults output.old) (O.faults output.new) result }
{
    write_output(task, replies, output)?;
    output.flush()?;
    Ok(())
}

/// How the program ends after this fault of its run.
fn status_of(fault: Fault) -> Status
    ensures { result ≡ fault_status fault }
{
    match fault {
        Fault::Volume => Status::Volume,
        Fault::Corrupt(_) => Status::Corrupt,
        Fault::Memory => Status::Memory,
    }
}

/// Runs commands over a volume under the program's configuration, and writes what their task says of the replies.
fn run_and_write<O: Sink, V: Volume>(
    alloc: Global,
    task: Task,
    commands: &[Command],
    output: &mut O,
    volume: &mut V,
) -> Status
    ensures run { IsRunStatus V.tells (V.state volume.old) (V.state volume.new) task commands.now
        (O.written output.old) (O.written output.new) (O.faults output.old) (O.faults output.new) result }
    ensures flushed { result ≡ Status.Done → O.flushed output.new }
    ensures passed_on { O.flushed output.new ⊎
        (Rose (O.faults output.old) (O.faults output.new) ⊎ (output.new ≡ output.old)) }
    ensures no_fault { ((result ≡ Status.Done) ⊎ (result ≡ Status.WriteFault)) →
        (V.state volume.new).faults ≡ (V.state volume.old).faults }
    ensures names { V.tells → NamesCall (twin_names standard_config) (V.state volume.old) (V.state volume.new) }
    ensures count { (V.state volume.old).faults ≤ (V.state volume.new).faults }
    ensures later { (V.state volume.old).clock ≤ (V.state volume.new).clock }
    ensures steady { (V.state volume.old).steady → StaysSteady (V.state volume.old) (V.state volume.new) }
{
    let Ok(config) = TwinConfig::standard(alloc) else {
        return Status::Memory;
    };
    match run_twins(alloc, &config, volume, commands) {
        Ok(replies) => match put_out(task, &replies, output) {
            Ok(()) => Status::Done,
            Err(_) => Status::WriteFault,
        },
        Err(stopped) => {
            // The run's fault is the answer, whatever comes of the output.
            let _ = put_out(task, &stopped.replies, output);
            status_of(stopped.fault)
        }
    }
}

/// Runs what the words say over a volume, commands of the input or generated ones, and writes the replies or the
/// summary of their run; says how the program ends.
pub fn twins_main<I: Source, O: Sink, V: Volume>(
    alloc: Global,
    words: &[String],
    input: &mut I,
    output: &mut O,
    volume: &mut V,
) -> Status
    // The words are refused exactly where they have none of the four forms. No input is read then, nor for generated
    // commands.
    ensures words { (result ≡ Status.BadWords) ↔ HaveNoForm (texts_of words.now) }
    ensures unread { result ≡ Status.BadWords → input.new ≡ input.old }
    ensures generates { (number count : ℕ) → WordsSay (texts_of words.now) (Task.Generate number count) →
        input.new ≡ input.old }
    ensures early { IsEarly result → (output.new ≡ output.old) × (volume.new ≡ volume.old) }

    // Before the run, where the words say that the input's commands are run.
    ensures reads { IsEarly result → (result ≡ Status.BadWords → ⊥) → WordsSay (texts_of words.now) Task.Commands }
    ensures bad_line { (n : ℕ) → result ≡ Status.BadLine n → IsWhole (I.left input.old) (I.left input.new) ×
        IfSome (I.left input.old) (λ bytes. IsFirstBad (lines_of bytes) n) }
    ensures read_fault { result ≡ Status.ReadFault → Rose (I.faults input.old) (I.faults input.new) }
    ensures too_long { result ≡ Status.TooLong → IfSome (I.left input.old) (λ bytes. 16777216 < length bytes) }

    // After a whole run the output of its replies is written, or a front of it. Where the volume tells what it holds,
    // and that stood for a good state without batches, and nothing clashes, both logs hold what is kept of the last
    // list; whatever it held, what the last of its opening, commits and syncs makes durable outlasts a crash where no
    // apply and no prune comes behind; and where each image that a crash may leave before the run stands for such a
    // state, each that one may leave at a moment of it stands for the list machine's state before or after the running
    // step.
    ensures done { result ≡ Status.Done → IsAnswered V.tells (V.state volume.old) (V.state volume.new)
        (texts_of words.now) (I.left input.old) (I.left input.new) (O.written output.old) (O.written output.new) }
    ensures flushed { result ≡ Status.Done → O.flushed output.new }
    ensures write_fault { result ≡ Status.WriteFault → Rose (O.faults output.old) (O.faults output.new) }
    ensures cut_off { result ≡ Status.WriteFault → IsCutOff V.tells (V.state volume.old) (V.state volume.new)
        (texts_of words.now) (I.left input.old) (I.left input.new) (O.written output.old) (O.written output.new) }
    ensures no_fault { ((result ≡ Status.Done) ⊎ (result ≡ Status.WriteFault)) →
        (V.state volume.new).faults ≡ (V.state volume.old).faults }

    // After a run that a fault ended.
    ensures volume { result ≡ Status.Volume → Rose (V.state volume.old).faults (V.state volume.new).faults }
    // What a volume that tells its contents holds is at fault only where that stands for no good state without batches,
    // or something clashes.
    // Each moment of such a run too lies in a step that was answered, or in the one that was running.
    ensures stopped { ((result ≡ Status.Volume) ⊎ (result ≡ Status.Corrupt)) →
        IsStopped V.tells (V.state volume.old) (V.state volume.new) (texts_of words.now) (I.left input.old)
        (I.left input.new) (O.written output.old) (O.written output.new) (result ≡ Status.Corrupt)
        (O.faults output.old) (O.faults output.new) }

    // Want of memory, in the run or before it.
    ensures memory { result ≡ Status.Memory → ((output.new ≡ output.old) × (volume.new ≡ volume.old)) ⊎
        IsStopped V.tells (V.state volume.old) (V.state volume.new) (texts_of words.now) (I.left input.old)
        (I.left input.new) (O.written output.old) (O.written output.new) (result ≡ Status.Corrupt)
        (O.faults output.old) (O.faults output.new) }

    // Whatever is answered, what was written is passed on, or the sink has failed.
    ensures passed_on { O.flushed output.new ⊎
        (Rose (O.faults output.old) (O.faults output.new) ⊎ (output.new ≡ output.old)) }

    // Whatever is answered, only the configuration's three logs and its map are touched, and no failure is forgotten.
    ensures names { V.tells → NamesCall (twin_names standard_config) (V.state volume.old) (V.state volume.new) }
    ensures count { (V.state volume.old).faults ≤ (V.state volume.new).faults }
    ensures later { (V.state volume.old).clock ≤ (V.state volume.new).clock }
    ensures steady { (V.state volume.old).steady → StaysSteady (V.state volume.old) (V.state volume.new) }

    // With nothing set to fail the volume doesn't end the run.
    ensures complete { (V.state volume.old).steady → (V.state volume.old).faults < 2 ^ 64 - 1 →
        result ≡ Status.Volume → ⊥ }

    // What is valid is answered, over contents that stand for a good state without batches, where nothing outside that
    // is asked has failed, nothing clashes and there is memory.
    ensures valid { (commands : List Command) → IsValid (texts_of words.now) (I.left input.old) commands → V.tells →
        OfEachStart standard_config (present (V.state volume.old)) commands (λ now.
        (WordsSay (texts_of words.now) Task.Commands → Rose (I.faults input.old) (I.faults input.new) → ⊥) →
        (Rose (O.faults output.old) (O.faults output.new) → ⊥) →
        (Rose (V.state volume.old).faults (V.state volume.new).faults → ⊥) → (result ≡ Status.Done) ⊎
        (result ≡ Status.Memory)) }

    // So are generated commands on a volume that holds nothing; and then the summary is of the size that the rounds
    // count, of none refused, and of the list's root.
    ensures fresh { OfFreshRun (texts_of words.now) V.tells (present (V.state volume.old)) (λ number count.
        (Rose (O.faults output.old) (O.faults output.new) → ⊥) →
        (Rose (V.state volume.old).faults (V.state volume.new).faults → ⊥) → (result ≡ Status.Done) ⊎
        (result ≡ Status.Memory)) }
    ensures summed { OfFreshRun (texts_of words.now) V.tells (present (V.state volume.old)) (λ number count.
        result ≡ Status.Done → IsSummedUp number count (O.written output.old) (O.written output.new)) }
{
    let Some(task) = parse_words(words) else {
        return Status::BadWords;
    };
    match commands_of(alloc, task, input) {
        Ok(commands) => run_and_write(alloc, task, &commands, output, volume),
        Err(status) => status,
    }
}
