//! Both databases of a run.
ghost use Rattle.std.specs.Prelude.{◌≡◌, ℕ, ◌+◌, ◌-◌, ◌<◌, ◌^◌, length, Some, IfOk, IfErr};
ghost use Rattle.log_model.specs.Machine.{State};
ghost use Rattle.log_model.specs.declared.refusal.Refusal.{Refusal};
ghost use Rattle.command_text.specs.declared.command.Answer.TheVariants as answer;
ghost use Rattle.command_text.specs.declared.command.Command.TheVariants as commands;
ghost use Rattle.volume_base.specs.Moments.{Image, present};
ghost use Rattle.volume_base.specs.Names.{NamesCall};
ghost use Rattle.volume_base.specs.Volume.{Changes};
ghost use Rattle.list_machine.specs.Config.{Config};
ghost use Rattle.list_machine.specs.Operation.{Operation};
ghost use Rattle.list_machine.specs.Starts.{IsStart, opened_from, twin_names};
ghost use Rattle.list_machine.specs.Step.{step, reply};
ghost use Rattle.list_machine.specs.Told.{IsTold};
ghost use Rattle.twin_batches.specs.About.{StaysStill, NeedsNoItem, IsQuiet};
ghost use Rattle.twin_databases.specs.CompactKind.{compact_kind};
ghost use Rattle.twin_databases.specs.FullKind.{full_kind};
ghost use Rattle.twin_databases.specs.Reopening.{FollowsOperations, KeepsOperations};
ghost use Rattle.twin_run.specs.Faults.{IsCorrupt, IsOfOpenings, IsOwnFault};
ghost use Rattle.twin_run.specs.Standing.{TakesTo};
ghost use Rattle.twin_run.specs.Twins.{AreShaped, AreOf, AreKept, LeaveBatches, IsTwinsOf, IsDurableAfter, names_of, reply_of, opened_reply};

use crate::ending::Fault;
use crate::opening::realign;
use command_text::{Answer, Command, Reply};
use list_machine::TwinConfig;
use std::alloc::Global;
use twin_databases::{Compact, Database, Full};
use twin_side::Side;
use volume_base::Volume;

/// The full and the compact database of a volume, each with its batches.
#[derive(Drop)]
pub struct Twins {
    pub(crate) full: Side<Full>,
    pub(crate) compact: Side<Compact>,
}

impl Twins {
    /// Opens both databases of a volume, as `realign`, and fails as that does.
    pub fn open<V: Volume>(
        alloc: Global,
        config: &TwinConfig,
        volume: &mut V,
    ) -> Result<(Twins, Reply), Fault>
        ensures shaped { IfOk result (λ r. AreShaped r.0) }
        ensures taken { IfOk result (λ r. r.0.full.numbers.taken ≡ 0) }
        // Of contents that stand for a good state without batches both stand for what is opened of it, and the reply
        // tells it.
        ensures opened { IfOk result (λ r. V.tells → (s : State Operation) →
            IsStart config.now s (present (V.state volume.old)) →
            let now = opened_from config.now s (present (V.state volume.old)) in
            (r.1 ≡ opened_reply now) × IsTwinsOf config.now (present (V.state volume.new)) r.0 now) }
        // Whatever a crash leaves up to a moment of the opening stands for such a state, and from that moment on for
        // what is opened of it; after an error that moment may not have come.
        ensures images { V.tells → (s : State Operation) → IsStart config.now s (present (V.state volume.old)) →
            TakesTo config.now s (opened_from config.now s (present (V.state volume.old))) (V.state volume.old)
            (V.state volume.new) result }
        ensures of { IfOk result (λ r. AreOf config.now r.0) }
        ensures durable { IfOk result (λ r. V.tells →
            full_kind.is_synced r.0.full.db (V.state volume.new)
            × compact_kind.is_synced r.0.compact.db (V.state volume.new)) }
        // Whatever the volume holds, the roots in the reply are those of the two databases, and one.
        ensures roots { IfOk result (λ r. r.1 ≡ reply_of r.0 r.1.answer) }
        ensures equal { IfOk result (λ r. r.1.full_root ≡ r.1.compact_root) }
        // Such contents aren't found to be no state.
        ensures corrupt { IfErr result (λ fault. V.tells → (s : State Operation) →
            IsStart config.now s (present (V.state volume.old)) → IsCorrupt fault → ⊥) }
        ensures own { IfErr result IsOwnFault }
        // Whatever the volume holds, an error that is told of contents is one of that database's opening.
        ensures causes { IfErr result (IsOfOpenings V.tells config.now) }
        // And the log of operations keeps a front of what it has, up to its last commit within the one size; or it
        // begins at 0 and has none there, and gets the first commit. That of witnesses keeps a front whose last witness
        // is within what the operations allow, and the next one isn't, or there is none: the most, where their sizes
        // rise. Or it was empty from 0 on, and gets the first commit's.
        ensures operations { IfOk result (λ r. V.tells → let size = (full_kind.state r.0.full.db).size in
            KeepsOperations config.now.value_limit (Some size) size
            ((V.state volume.old).log config.now.log) ((V.state volume.new).log config.now.log)) }
        ensures witnesses { IfOk result (λ r. V.tells → let log = (V.state volume.old).log in
            FollowsOperations config.now.value_limit (compact_kind.state r.0.compact.db).size (log config.now.log)
            (log config.now.witness) ((V.state volume.new).log config.now.witness)) }
        ensures names { V.tells → NamesCall (twin_names config.now) (V.state volume.old) (V.state volume.new) }
        ensures changes { Changes V.tells Fault.Volume (V.state volume.old) (V.state volume.new) result }
    {
        config.names_apart();
        let limit = config.value_limit();
        let (full, compact) = match realign(alloc, config, volume) {
            Ok(opened) => opened,
            Err(fault) => return Err(fault),
        };
        let twins = Twins {
            full: Side::of(full, alloc, limit),
            compact: Side::of(compact, alloc, limit),
        };
        let reply = twins.reply(twins.opened());
        Ok((twins, reply))
    }

    /// How many steps were taken since the opening.
    pub fn taken(&self) -> u64
        ensures { result ≡ self.now.full.numbers.taken }
    {
        self.full.numbers.taken
    }

    /// The answer to an opening.
    fn opened(&self) -> Answer
        ensures { (config : Config) (image : Image) (s : State Operation) → IsTwinsOf config image self.now s →
            result ≡ answer.Opened (length s.ops) s.start }
    {
        Answer::Opened {
            size: self.full.db.commitment().size.as_u64(),
            start: self.full.start(),
        }
    }

    /// An answer, with the size and the root of the full database and the root of the compact one.
    fn reply(&self, answer: Answer) -> Reply
        ensures { result ≡ reply_of self.now answer }
    {
        let full = self.full.db.commitment();
        let compact = self.compact.db.commitment();
        Reply {
            answer,
            size: full.size.as_u64(),
            full_root: full.root,
            compact_root: compact.root,
        }
    }

    /// One step. No count passes its type's end, since each is at most that of the steps. It fails with `Corrupt` where
    /// the sides don't refuse alike, or come to different states, or what is read can't stand there, with `Volume` where a
    /// call of the volume failed, and with `Memory`; then there are no databases any more.
    pub fn step<V: Volume>(
        mut self,
        volume: &mut V,
        command: &Command,
    ) -> Result<(Twins, Reply), Fault>
        requires shaped { AreShaped self }
        requires taken { self.full.numbers.taken < 2 ^ 64 - 1 }
        ensures shaped { IfOk result (λ r. AreShaped r.0) }
        ensures taken { IfOk result (λ r. r.0.full.numbers.taken ≡ self.full.numbers.taken + 1) }
        // For each good state for which both stood it replies as the list machine, and they stand for the machine's
        // next state.
        ensures ok { IfOk result (λ r. V.tells → (config : Config) (s : State Operation) → IsTold s →
            IsTwinsOf config (present (V.state volume.old)) self s → (r.1 ≡ reply (step config s command.now))
            × IsTwinsOf config (present (V.state volume.new)) r.0 (step config s command.now).1) }
        // Whatever the volume holds, after a commit operations and witnesses are durable, and after a sync nodes too.
        ensures durable { IfOk result (λ r. V.tells →
            IsDurableAfter command.now r.0.full.db r.0.compact.db (V.state volume.new)) }
        // Where both stood for a state, a prune that is done leaves durable what a commit does.
        ensures pruned { IfOk result (λ r. V.tells → (config : Config) (s : State Operation) →
            IsTwinsOf config (present (V.state volume.old)) self s → (location start : ℕ) →
            command.now ≡ commands.Prune location → r.1.answer ≡ answer.Pruned start →
            IsDurableAfter commands.Commit r.0.full.db r.0.compact.db (V.state volume.new)) }
        // And it finds no fault in what the volume holds.
        ensures corrupt { IfErr result (λ fault. V.tells → (config : Config) (s : State Operation) → IsTold s →
            IsTwinsOf config (present (V.state volume.old)) self s → IsCorrupt fault → ⊥) }
        // Whatever a crash leaves at a moment stands for the state before, or for that which the list machine leaves.
        ensures images { V.tells → (config : Config) (s : State Operation) → IsTold s →
            IsTwinsOf config (present (V.state volume.old)) self s →
            TakesTo config s ((step config s command.now).1) (V.state volume.old) (V.state volume.new) result }
        ensures own { IfErr result IsOwnFault }
        // Whatever the volume holds, the roots in the reply are those of the two databases, and one.
        ensures roots { IfOk result (λ r. r.1 ≡ reply_of r.0 r.1.answer) }
        ensures equal { IfOk result (λ r. r.1.full_root ≡ r.1.compact_root) }
        // What asks, or is on batches alone, leaves the volume and both databases, and so does each refusal.
        ensures quiet { IsQuiet command.now → StaysStill V.tells (V.state volume.old) (V.state volume.new) }
        ensures kept { IfOk result (λ r. IsQuiet command.now → AreKept self r.0) }
        ensures refused { IfOk result (λ r. (why : Refusal) → r.1.answer ≡ answer.Refused why → AreKept self r.0
            × StaysStill V.tells (V.state volume.old) (V.state volume.new)) }
        // And what is refused leaves each batch of both, but a seal its own where the reason loses it.
        ensures left { IfOk result (λ r. (why : Refusal) → r.1.answer ≡ answer.Refused why →
            LeaveBatches command.now why self r.0) }
        ensures no_item { NeedsNoItem command.now → (V.state volume.new).reads ≡ (V.state volume.old).reads }
        ensures of { IfOk result (λ r. (config : Config) → AreOf config self → AreOf config r.0) }
        // It touches the logs and the maps of both databases alone, which are their configuration's.
        ensures own_names { V.tells → NamesCall (names_of self) (V.state volume.old) (V.state volume.new) }
        ensures names { V.tells → (config : Config) → AreOf config self →
            NamesCall (twin_names config) (V.state volume.old) (V.state volume.new) }
        ensures changes { Changes V.tells Fault.Volume (V.state volume.old) (V.state volume.new) result }
    {
        self.full.numbers.count();
        self.compact.numbers.count();
        match self.answer(volume, command) {
            Ok((twins, answer)) => {
                let reply = twins.reply(answer);
                Ok((twins, reply))
            }
            Err(fault) => Err(fault),
        }
    }
}
