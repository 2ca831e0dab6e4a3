//! The run of commands over what a volume holds.
ghost use Rattle.std.specs.Prelude.{◌≡◌, ◌<◌, ◌≤◌, ◌+◌, ◌-◌, ◌^◌, [], length, IfOk, IfErr, OnOk, OnErr};
ghost use Rattle.codec_base.specs.Causes.{Rose};
ghost use Rattle.volume_base.specs.Moments.{present};
ghost use Rattle.volume_base.specs.Names.{NamesCall};
ghost use Rattle.volume_base.specs.Volume.{Changes, StaysSteady};
ghost use Rattle.log_model.specs.Machine.{State};
ghost use Rattle.list_machine.specs.Operation.{Operation};
ghost use Rattle.list_machine.specs.Starts.{OfEachStart, IsLeft, opened_from, twin_names};
ghost use Rattle.list_machine.specs.Trace.{trace, state_after, IsBegun, TellOneRoot};
ghost use Rattle.twin_run.specs.Faults.{IsCorrupt, IsOwnFault};
ghost use Rattle.twin_run.specs.Lasting.{LastsBehind};
ghost use Rattle.twin_run.specs.Standing.{BeginsAt, CoversAll, CoversSome};
ghost use Rattle.twin_run.specs.declared.ending.Fault.TheVariants.{Volume, Memory};

use crate::ending::{Fault, Stopped};
use crate::sides::Twins;
use codec_base::ListOf;
use command_text::{Command, Replies};
use list_machine::{TwinConfig, states_are_told};
use std::alloc::Global;
use volume_base::Volume;

/// Opens both databases of a volume and answers each command. Where a fault ends it, the replies before are there.
fn answer_all<V: Volume>(
    alloc: Global,
    config: &TwinConfig,
    volume: &mut V,
    commands: &[Command],
    replies: &mut Replies,
) -> Result<(), Fault>
    requires { replies.old ≡ [] }
    ensures ok { OnOk result (V.tells → OfEachStart config.now (present (V.state volume.old)) commands.now
        (λ now. replies.new ≡ trace config.now now commands.now)) }
    ensures err { OnErr result (V.tells → OfEachStart config.now (present (V.state volume.old)) commands.now
        (λ now. IsBegun replies.new (trace config.now now commands.now))) }
    ensures equal { TellOneRoot replies.new }
    ensures count { OnOk result (length replies.new ≡ length commands.now + 1) }
    ensures fewer { OnErr result (length replies.new ≤ length commands.now) }
    ensures left { OnOk result (V.tells → OfEachStart config.now (present (V.state volume.old)) commands.now
        (λ now. IsLeft config.now (present (V.state volume.new)) (state_after config.now now commands.now))) }
    ensures durable { OnOk result (V.tells → LastsBehind config.now (V.state volume.new) commands.now) }
    ensures images { OnOk result (V.tells → (s : State Operation) →
        BeginsAt config.now commands.now s (V.state volume.old) →
        CoversAll config.now s (opened_from config.now s (present (V.state volume.old))) commands.now
        (V.state volume.old) (V.state volume.new)) }
    ensures images_so_far { OnErr result (V.tells → (s : State Operation) →
        BeginsAt config.now commands.now s (V.state volume.old) →
        CoversSome config.now s (opened_from config.now s (present (V.state volume.old))) commands.now
        (length replies.new) (V.state volume.old) (V.state volume.new)) }
    ensures corrupt { IfErr result (λ fault. V.tells → OfEachStart config.now (present (V.state volume.old))
        commands.now (λ now. IsCorrupt fault → ⊥)) }
    ensures own { IfErr result IsOwnFault }
    ensures names { V.tells → NamesCall (twin_names config.now) (V.state volume.old) (V.state volume.new) }
    ensures changes { Changes V.tells Fault.Volume (V.state volume.old) (V.state volume.new) result }
{
    states_are_told(config.value_limit());
    let (mut twins, opening) = match Twins::open(alloc, config, volume) {
        Ok(opened) => opened,
        Err(fault) => return Err(fault),
    };
    let Ok(()) = replies.push(opening) else {
        return Err(Fault::Memory);
    };
    for command in commands {
        let (next, reply) = match twins.step(volume, command) {
            Ok(step) => step,
            Err(fault) => return Err(fault),
        };
        twins = next;
        let Ok(()) = replies.push(reply) else {
            return Err(Fault::Memory);
        };
    }
    Ok(())
}

/// Opens both databases of a volume and runs commands over them. Where the opening or a step fails it stops with that
/// fault and the replies before.
pub fn run_twins<V: Volume>(
    alloc: Global,
    config: &TwinConfig,
    volume: &mut V,
    commands: &[Command],
) -> Result<Replies, Stopped>
    // One reply to the opening and one to each command, as the list machine answers from the state that is opened; or
    // the first of these. Lists are told by their sizes and roots, so this is where nothing clashes that is hashed for
    // the lists of the run; and where the volume tells what it holds, and that stands for a good state without batches.
    ensures replies { V.tells → OfEachStart config.now (present (V.state volume.old)) commands.now
        (λ now. IfOk result (λ replies. replies ≡ trace config.now now commands.now)) }
    ensures so_far { V.tells → OfEachStart config.now (present (V.state volume.old)) commands.now
        (λ now. IfErr result (λ s. IsBegun s.replies (trace config.now now commands.now))) }
    // Over any volume there are as many, or fewer.
    ensures count { IfOk result (λ replies. length replies ≡ length commands.now + 1) }
    ensures fewer { IfErr result (λ s. length s.replies ≤ length commands.now) }
    // And in each the roots of both databases are one.
    ensures equal { IfOk result TellOneRoot }
    ensures equal_so_far { IfErr result (λ s. TellOneRoot s.replies) }

    // After a whole run the operation log holds what is kept of the list machine's last list, the node log and the map
    // stand for its tree, and the witness log has its witnesses at the applied sizes. All this stands for the last
    // state without its batches, so the next run may begin there.
    ensures left { V.tells → OfEachStart config.now (present (V.state volume.old)) commands.now (λ now. OnOk result
        (IsLeft config.now (present (V.state volume.new)) (state_after config.now now commands.now))) }
    // Where each image that a crash may leave before the run stands for such a state, each that one may leave at a
    // moment of the run stands for the list machine's state before or after the running step: the states come one after
    // another, and of a run that stopped with so many replies the last is the one before, or behind, the step that was
    // running.
    ensures images { V.tells → (s : State Operation) → BeginsAt config.now commands.now s (V.state volume.old) →
        OnOk result (CoversAll config.now s (opened_from config.now s (present (V.state volume.old))) commands.now
        (V.state volume.old) (V.state volume.new)) }
    ensures images_so_far { V.tells → (s : State Operation) → BeginsAt config.now commands.now s (V.state volume.old) →
        IfErr result (λ e. CoversSome config.now s (opened_from config.now s (present (V.state volume.old)))
        commands.now (length e.replies) (V.state volume.old) (V.state volume.new)) }
    // Whatever the volume holds, behind a whole run the operation log and the witness log outlast a crash where behind
    // the last of its opening, commits and syncs there is no apply and no prune; and where that last one is no commit,
    // the node log too.
    ensures durable { OnOk result (V.tells → LastsBehind config.now (V.state volume.new) commands.now) }

    // When each fault comes. A database's error that is told of the contents is none of the volume and no want of
    // memory, and sizes or roots that are told differ.
    ensures volume { IfErr result (λ s. s.fault ≡ Fault.Volume →
        Rose (V.state volume.old).faults (V.state volume.new).faults) }
    ensures corrupt { V.tells → OfEachStart config.now (present (V.state volume.old)) commands.now
        (λ now. IfErr result (λ s. IsCorrupt s.fault → ⊥)) }
    ensures own { IfErr result (λ s. IsOwnFault s.fault) }

    // Whatever is answered, only the configuration's three logs and its map are touched.
    ensures names { V.tells → NamesCall (twin_names config.now) (V.state volume.old) (V.state volume.new) }
    // A whole run has counted no failure.
    ensures kept { OnOk result ((V.state volume.new).faults ≡ (V.state volume.old).faults) }
    ensures later { (V.state volume.old).clock ≤ (V.state volume.new).clock }
    ensures faults { (V.state volume.old).faults ≤ (V.state volume.new).faults }
    ensures steady { (V.state volume.old).steady → StaysSteady (V.state volume.old) (V.state volume.new) }

    // With nothing set to fail, over contents that stand for such a state, no other fault than want of memory comes.
    ensures complete { (V.state volume.old).steady → (V.state volume.old).faults < 2 ^ 64 - 1 → V.tells →
        OfEachStart config.now (present (V.state volume.old)) commands.now
        (λ now. IfErr result (λ s. s.fault ≡ Fault.Memory)) }
{
    // Room for all replies is taken once.
    let Ok(room) = Vec::with_capacity(alloc, commands.len() + 1) else {
        let replies = ListOf::new(alloc);
        return Err(Stopped {
            fault: Fault::Memory,
            replies,
        });
    };
    let mut replies = ListOf::from_vec(room);
    match answer_all(alloc, config, volume, commands, &mut replies) {
        Ok(()) => Ok(replies),
        Err(fault) => Err(Stopped { fault, replies }),
    }
}
