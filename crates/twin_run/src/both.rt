//! What commands make of both databases of a run.
ghost use Rattle.std.specs.Prelude.{◌≡◌, ℕ, ◌≤◌, IfOk, IfErr, IsErrOf};
ghost use Rattle.log_model.specs.Machine.{State, batch_at, pruned};
ghost use Rattle.log_model.specs.declared.refusal.Refusal.{Refusal};
ghost use Rattle.command_text.specs.declared.command.Answer.TheVariants as answer;
ghost use Rattle.command_text.specs.declared.command.Command.TheVariants as commands;
ghost use Rattle.volume_base.specs.Moments.{Image, present};
ghost use Rattle.volume_base.specs.Names.{NamesCall};
ghost use Rattle.volume_base.specs.Volume.{Changes, Writes};
ghost use Rattle.list_machine.specs.Config.{Config};
ghost use Rattle.list_machine.specs.Operation.{Operation};
ghost use Rattle.list_machine.specs.Step.{step, apply, prune};
ghost use Rattle.list_machine.specs.Told.{IsTold};
ghost use Rattle.twin_batches.specs.About.{StaysStill, NeedsNoItem, IsQuiet, about_of};
ghost use Rattle.twin_batches.specs.StateOf.{Takes};
ghost use Rattle.twin_batches.specs.declared.about.Topic.TheVariants as topic;
ghost use Rattle.twin_databases.specs.CompactKind.{compact_kind};
ghost use Rattle.twin_databases.specs.FullKind.{full_kind};
ghost use Rattle.twin_run.specs.Faults.{IsCorrupt, IsOwnFault};
ghost use Rattle.twin_run.specs.Standing.{TakesTo};
ghost use Rattle.twin_run.specs.Twins.{AreShaped, HaveRoom, AreKept, AreSettled, GoOn, LeaveBatches, IsTwinsOf, IsDurableAfter, names_of};

use crate::agreement::{agreed, check_same, refusal_of_both};
use crate::ending::{Fault, compact_fault, full_fault};
use crate::sides::Twins;
use command_text::{Answer, Command};
use twin_batches::{Topic, topic_of};
use twin_databases::{Database, Durable};
use volume_base::Volume;

/// What a command that makes durable answers.
fn stored_answer(command: &Command) -> Answer
    requires { about_of command.now ≡ topic.Storage }
    ensures machine { (config : Config) (s : State Operation) → result ≡ (step config s command.now).0 }
    ensures done { (why : Refusal) → result ≡ answer.Refused why → ⊥ }
{
    match command {
        Command::Commit => Answer::Committed,
        Command::Sync => Answer::Synced,
        Command::StartSync => Answer::SyncStarted,
        _ => unreachable!(),
    }
}

/// The full database's answer counts. Where the compact one's isn't the same there are no databases any more.
impl Twins {
    /// What a command on batches answers, but an apply.
    fn on_batches(&mut self, command: &Command) -> Result<Answer, Fault>
        requires shaped { AreShaped self.old }
        requires room { HaveRoom self.old }
        requires about { about_of command.now ≡ topic.Batches }
        ensures ok { IfOk result (λ a. (config : Config) (image : Image) (s : State Operation) → IsTold s →
            IsTwinsOf config image self.old s → (a ≡ (step config s command.now).0)
            × IsTwinsOf config image self.new (step config s command.now).1) }
        ensures shaped { IfOk result (λ a. AreShaped self.new) }
        ensures goes_on { IfOk result (λ a. GoOn self.old self.new) }
        ensures kept { IfOk result (λ a. AreKept self.old self.new) }
        // Over any contents a refusal leaves each batch of both, but a seal its own where the reason loses it.
        ensures refused { IfOk result (λ a. (why : Refusal) → a ≡ answer.Refused why →
            LeaveBatches command.now why self.old self.new) }
        ensures corrupt { IfErr result (λ fault. (config : Config) (image : Image) (s : State Operation) → IsTold s →
            IsTwinsOf config image self.old s → IsCorrupt fault → ⊥) }
        ensures own { IfErr result IsOwnFault }
        ensures unfailed { IsErrOf result Fault.Volume → ⊥ }
    {
        let answer = match self.full.on_batches(command) {
            Ok(answer) => answer,
            Err(error) => return Err(full_fault(error)),
        };
        match self.compact.on_batches(command) {
            Ok(other) => agreed(answer, &other),
            Err(error) => Err(compact_fault(error)),
        }
    }

    /// Both after the list was made that of a sealed batch, which both may apply. They have one size and one root then.
    fn apply_both<V: Volume>(self, volume: &mut V, b: u64) -> Result<Self, Fault>
        requires shaped { AreShaped self }
        requires full_takes { Takes full_kind self.full.db self.full.numbers b }
        requires compact_takes { Takes compact_kind self.compact.db self.compact.numbers b }
        ensures ok { IfOk result (λ made. V.tells → (config : Config) (s : State Operation) → IsTold s →
            IsTwinsOf config (present (V.state volume.old)) self s →
            IsTwinsOf config (present (V.state volume.new)) made (apply s b (batch_at s b)).1) }
        ensures shaped { IfOk result AreShaped }
        ensures goes_on { IfOk result (GoOn self) }
        ensures corrupt { IfErr result (λ fault. V.tells → (config : Config) (s : State Operation) → IsTold s →
            IsTwinsOf config (present (V.state volume.old)) self s → IsCorrupt fault → ⊥) }
        ensures own { IfErr result IsOwnFault }
        // Whatever a crash leaves at a moment stands for the state before, or for that which the list machine leaves.
        ensures images { V.tells → (config : Config) (s : State Operation) → IsTold s →
            IsTwinsOf config (present (V.state volume.old)) self s →
            TakesTo config s ((apply s b (batch_at s b)).1) (V.state volume.old) (V.state volume.new) result }
        ensures names { V.tells → NamesCall (names_of self) (V.state volume.old) (V.state volume.new) }
        ensures writes { Writes V.tells Fault.Volume (V.state volume.old) (V.state volume.new) result }
    {
        let Twins { full, compact } = self;
        let full = match full.apply(volume, b) {
            Ok(full) => full,
            Err(error) => return Err(full_fault(error)),
        };
        let compact = match compact.apply(volume, b) {
            Ok(compact) => compact,
            Err(error) => return Err(compact_fault(error)),
        };
        match check_same(&full.db.commitment(), &compact.db.commitment()) {
            Ok(()) => Ok(Twins { full, compact }),
            Err(fault) => Err(fault),
        }
    }

    /// Makes the list that of a sealed batch. Where one alone may apply it nothing is done.
    fn apply<V: Volume>(self, volume: &mut V, b: u64) -> Result<(Self, Answer), Fault>
        requires { AreShaped self }
        ensures ok { IfOk result (λ r. V.tells → (config : Config) (s : State Operation) → IsTold s →
            IsTwinsOf config (present (V.state volume.old)) self s → (r.1 ≡ (apply s b (batch_at s b)).0)
            × IsTwinsOf config (present (V.state volume.new)) r.0 (apply s b (batch_at s b)).1) }
        ensures shaped { IfOk result (λ r. AreShaped r.0) }
        ensures goes_on { IfOk result (λ r. GoOn self r.0) }
        ensures refused { IfOk result (λ r. (why : Refusal) → r.1 ≡ answer.Refused why →
            (r.0 ≡ self) × (volume.new ≡ volume.old)) }
        ensures corrupt { IfErr result (λ fault. V.tells → (config : Config) (s : State Operation) → IsTold s →
            IsTwinsOf config (present (V.state volume.old)) self s → IsCorrupt fault → ⊥) }
        ensures own { IfErr result IsOwnFault }
        // Whatever a crash leaves at a moment stands for the state before, or for that which the list machine leaves.
        ensures images { V.tells → (config : Config) (s : State Operation) → IsTold s →
            IsTwinsOf config (present (V.state volume.old)) self s →
            TakesTo config s ((apply s b (batch_at s b)).1) (V.state volume.old) (V.state volume.new) result }
        ensures names { V.tells → NamesCall (names_of self) (V.state volume.old) (V.state volume.new) }
        ensures writes { Writes V.tells Fault.Volume (V.state volume.old) (V.state volume.new) result }
    {
        let full = self.full.apply_refusal(b);
        match refusal_of_both(full, self.compact.apply_refusal(b)) {
            Ok(None) => match self.apply_both(volume, b) {
                Ok(twins) => Ok((twins, Answer::Applied)),
                Err(fault) => Err(fault),
            },
            Ok(Some(refusal)) => Ok((self, Answer::Refused(refusal))),
            Err(fault) => Err(fault),
        }
    }

    /// Both after a command that makes them durable, the full one first.
    fn store<V: Volume>(self, volume: &mut V, command: &Command) -> Result<Self, Fault>
        requires shaped { AreShaped self }
        requires about { about_of command.now ≡ topic.Storage }
        ensures ok { IfOk result (λ made. V.tells → (config : Config) (s : State Operation) →
            IsTwinsOf config (present (V.state volume.old)) self s →
            IsTwinsOf config (present (V.state volume.new)) made (step config s command.now).1) }
        ensures settled { IfOk result (AreSettled self) }
        ensures durable { IfOk result (λ made. V.tells →
            IsDurableAfter command.now made.full.db made.compact.db (V.state volume.new)) }
        ensures corrupt { IfErr result (λ fault. V.tells → (config : Config) (s : State Operation) →
            IsTwinsOf config (present (V.state volume.old)) self s → IsCorrupt fault → ⊥) }
        ensures own { IfErr result IsOwnFault }
        // Whatever a crash leaves at a moment stands for the state before, or for that which the list machine leaves.
        ensures images { V.tells → (config : Config) (s : State Operation) →
            IsTwinsOf config (present (V.state volume.old)) self s →
            TakesTo config s ((step config s command.now).1) (V.state volume.old) (V.state volume.new) result }
        ensures names { V.tells → NamesCall (names_of self) (V.state volume.old) (V.state volume.new) }
        ensures writes { Writes V.tells Fault.Volume (V.state volume.old) (V.state volume.new) result }
    {
        let Twins { full, compact } = self;
        let full = match full.store(volume, command) {
            Ok(full) => full,
            Err(error) => return Err(full_fault(error)),
        };
        match compact.store(volume, command) {
            Ok(compact) => Ok(Twins { full, compact }),
            Err(error) => Err(compact_fault(error)),
        }
    }

    /// Both, made durable and then without what lies below a location, at most the floor of each, as far as whole blobs
    /// go.
    fn cut<V: Volume>(self, volume: &mut V, location: u64) -> Result<Self, Fault>
        requires shaped { AreShaped self }
        requires full_low { location ≤ full_kind.floor self.full.db }
        requires compact_low { location ≤ compact_kind.floor self.compact.db }
        ensures ok { IfOk result (λ made. V.tells → (config : Config) (s : State Operation) →
            IsTwinsOf config (present (V.state volume.old)) self s →
            IsTwinsOf config (present (V.state volume.new)) made
            (pruned config.log_blob config.witness_blob s location)) }
        ensures settled { IfOk result (AreSettled self) }
        // Of a state for which both stood it leaves durable what a commit does.
        ensures durable { IfOk result (λ made. V.tells → (config : Config) (s : State Operation) →
            IsTwinsOf config (present (V.state volume.old)) self s →
            IsDurableAfter commands.Commit made.full.db made.compact.db (V.state volume.new)) }
        ensures corrupt { IfErr result (λ fault. V.tells → (config : Config) (s : State Operation) →
            IsTwinsOf config (present (V.state volume.old)) self s → IsCorrupt fault → ⊥) }
        ensures own { IfErr result IsOwnFault }
        // Whatever a crash leaves at a moment stands for the state before, or for that which the list machine leaves.
        ensures images { V.tells → (config : Config) (s : State Operation) →
            IsTwinsOf config (present (V.state volume.old)) self s →
            TakesTo config s (pruned config.log_blob config.witness_blob s location) (V.state volume.old)
            (V.state volume.new) result }
        ensures names { V.tells → NamesCall (names_of self) (V.state volume.old) (V.state volume.new) }
        ensures changes { Changes V.tells Fault.Volume (V.state volume.old) (V.state volume.new) result }
    {
        let Twins { full, compact } = match self.store(volume, &Command::Commit) {
            Ok(twins) => twins,
            Err(fault) => return Err(fault),
        };
        let full = match full.prune(volume, location) {
            Ok(full) => full,
            Err(error) => return Err(full_fault(error)),
        };
        match compact.prune(volume, location) {
            Ok(compact) => Ok(Twins { full, compact }),
            Err(error) => Err(compact_fault(error)),
        }
    }

    /// Gives up what lies below a location, as far as whole blobs go, once all is durable. One past the floor is
    /// refused before anything is written.
    fn prune<V: Volume>(self, volume: &mut V, location: u64) -> Result<(Self, Answer), Fault>
        requires { AreShaped self }
        ensures ok { IfOk result (λ r. V.tells → (config : Config) (s : State Operation) → IsTold s →
            IsTwinsOf config (present (V.state volume.old)) self s →
            (r.1 ≡ (prune config.log_blob config.witness_blob s location).0)
            × IsTwinsOf config (present (V.state volume.new)) r.0
            (prune config.log_blob config.witness_blob s location).1) }
        ensures shaped { IfOk result (λ r. AreShaped r.0) }
        ensures goes_on { IfOk result (λ r. GoOn self r.0) }
        ensures durable { IfOk result (λ r. V.tells → (config : Config) (s : State Operation) →
            IsTwinsOf config (present (V.state volume.old)) self s → (start : ℕ) → r.1 ≡ answer.Pruned start →
            IsDurableAfter commands.Commit r.0.full.db r.0.compact.db (V.state volume.new)) }
        ensures refused { IfOk result (λ r. (why : Refusal) → r.1 ≡ answer.Refused why →
            (r.0 ≡ self) × (volume.new ≡ volume.old)) }
        ensures corrupt { IfErr result (λ fault. V.tells → (config : Config) (s : State Operation) → IsTold s →
            IsTwinsOf config (present (V.state volume.old)) self s → IsCorrupt fault → ⊥) }
        ensures own { IfErr result IsOwnFault }
        // Whatever a crash leaves at a moment stands for the state before, or for that which the list machine leaves.
        ensures images { V.tells → (config : Config) (s : State Operation) → IsTold s →
            IsTwinsOf config (present (V.state volume.old)) self s →
            TakesTo config s ((prune config.log_blob config.witness_blob s location).1) (V.state volume.old)
            (V.state volume.new) result }
        ensures names { V.tells → NamesCall (names_of self) (V.state volume.old) (V.state volume.new) }
        ensures changes { Changes V.tells Fault.Volume (V.state volume.old) (V.state volume.new) result }
    {
        let full = self.full.prune_refusal(location);
        match refusal_of_both(full, self.compact.prune_refusal(location)) {
            Ok(None) => match self.cut(volume, location) {
                Ok(twins) => {
                    let start = twins.full.start();
                    Ok((twins, Answer::Pruned(start)))
                }
                Err(fault) => Err(fault),
            },
            Ok(Some(why)) => Ok((self, Answer::Refused(why))),
            Err(fault) => Err(fault),
        }
    }

    /// What a command answers, and both databases after it.
    pub(crate) fn answer<V: Volume>(
        mut self,
        volume: &mut V,
        command: &Command,
    ) -> Result<(Self, Answer), Fault>
        requires shaped { AreShaped self }
        requires room { HaveRoom self }
        ensures ok { IfOk result (λ r. V.tells → (config : Config) (s : State Operation) → IsTold s →
            IsTwinsOf config (present (V.state volume.old)) self s → (r.1 ≡ (step config s command.now).0)
            × IsTwinsOf config (present (V.state volume.new)) r.0 (step config s command.now).1) }
        ensures shaped { IfOk result (λ r. AreShaped r.0) }
        ensures goes_on { IfOk result (λ r. GoOn self r.0) }
        ensures durable { IfOk result (λ r. V.tells →
            IsDurableAfter command.now r.0.full.db r.0.compact.db (V.state volume.new)) }
        ensures pruned { IfOk result (λ r. V.tells → (config : Config) (s : State Operation) →
            IsTwinsOf config (present (V.state volume.old)) self s → (location start : ℕ) →
            command.now ≡ commands.Prune location → r.1 ≡ answer.Pruned start →
            IsDurableAfter commands.Commit r.0.full.db r.0.compact.db (V.state volume.new)) }
        ensures corrupt { IfErr result (λ fault. V.tells → (config : Config) (s : State Operation) → IsTold s →
            IsTwinsOf config (present (V.state volume.old)) self s → IsCorrupt fault → ⊥) }
        ensures own { IfErr result IsOwnFault }
        ensures quiet { IsQuiet command.now → StaysStill V.tells (V.state volume.old) (V.state volume.new) }
        ensures kept { IfOk result (λ r. IsQuiet command.now → AreKept self r.0) }
        ensures refused { IfOk result (λ r. (why : Refusal) → r.1 ≡ answer.Refused why → AreKept self r.0
            × StaysStill V.tells (V.state volume.old) (V.state volume.new)) }
        ensures left { IfOk result (λ r. (why : Refusal) → r.1 ≡ answer.Refused why →
            LeaveBatches command.now why self r.0) }
        ensures no_item { NeedsNoItem command.now → (V.state volume.new).reads ≡ (V.state volume.old).reads }
        // Whatever a crash leaves at a moment stands for the state before, or for that which the list machine leaves.
        ensures images { V.tells → (config : Config) (s : State Operation) → IsTold s →
            IsTwinsOf config (present (V.state volume.old)) self s →
            TakesTo config s ((step config s command.now).1) (V.state volume.old) (V.state volume.new) result }
        ensures names { V.tells → NamesCall (names_of self) (V.state volume.old) (V.state volume.new) }
        ensures changes { Changes V.tells Fault.Volume (V.state volume.old) (V.state volume.new) result }
    {
        match topic_of(command) {
            Topic::Batches => match self.on_batches(command) {
                Ok(answer) => Ok((self, answer)),
                Err(fault) => Err(fault),
            },
            Topic::Apply(b) => self.apply(volume, b),
            Topic::Question => match self.full.ask(volume, command) {
                Ok(answer) => Ok((self, answer)),
                Err(error) => Err(full_fault(error)),
            },
            Topic::CommitProof(n) => match self.compact.prove_commit(volume, n) {
                Ok(answer) => Ok((self, answer)),
                Err(error) => Err(compact_fault(error)),
            },
            Topic::Storage => match self.store(volume, command) {
                Ok(twins) => Ok((twins, stored_answer(command))),
                Err(fault) => Err(fault),
            },
            Topic::Prune(location) => self.prune(volume, location),
        }
    }
}
