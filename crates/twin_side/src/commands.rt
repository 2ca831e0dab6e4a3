//! What commands make of one side.
ghost use Rattle.std.specs.Prelude.{◌≡◌, IfOk, IfErr, IsOkUnless};
ghost use Rattle.chain_core.specs.Answers.{IsOutside};
ghost use Rattle.log_model.specs.Good.{IsGoodLog};
ghost use Rattle.log_model.specs.Machine.{State};
ghost use Rattle.log_model.specs.declared.refusal.Refusal.{Refusal};
ghost use Rattle.command_text.specs.declared.command.Answer.TheVariants as answer;
ghost use Rattle.volume_base.specs.Moments.{Image, present};
ghost use Rattle.volume_base.specs.Names.{NamesCall};
ghost use Rattle.volume_base.specs.Volume.{Reads, Writes};
ghost use Rattle.list_machine.specs.Config.{Config};
ghost use Rattle.list_machine.specs.Operation.{Operation, meaning};
ghost use Rattle.list_machine.specs.Step.{step};
ghost use Rattle.list_machine.specs.Told.{IsTold};
ghost use Rattle.twin_batches.specs.Durability.{IsSettled};
ghost use Rattle.twin_batches.specs.Leaving.{LeavesBatches};
ghost use Rattle.twin_batches.specs.Standing.{StepsTo};
ghost use Rattle.twin_batches.specs.StateOf.{IsShaped, HasRoom, IsStateOf, StandsGood, Answers};
ghost use Rattle.twin_batches.specs.About.{NeedsNoItem, IsDurableFor, about_of};
ghost use Rattle.twin_batches.specs.declared.about.Topic.TheVariants as topic;
ghost use Rattle.twin_databases.specs.FullKind.{full_kind};

use crate::side::Side;
use chain_core::Error;
use command_text::{Answer, Command};
use tree_shape::Mmr;
use twin_databases::{Database, Durable, Full};
use volume_base::Volume;

impl<D: Database> Side<D> {
    /// What a command on batches answers, but an apply.
    pub fn on_batches(&mut self, command: &Command) -> Result<Answer, Error<Mmr>>
        requires shaped { IsShaped D.kind self.old.numbers }
        requires room { HasRoom self.old.numbers }
        requires about { about_of command.now ≡ topic.Batches }
        ensures ok { IfOk result (λ a. (c : Config) → c.value_limit ≡ self.old.limit →
            Answers D.kind IsTold (λ s. step c s command.now) self.old.db self.old.numbers self.new.numbers a) }
        // Over any contents a refusal leaves each batch, but a seal its own where the reason loses it.
        ensures refused { IfOk result (λ a. (why : Refusal) → a ≡ answer.Refused why →
            LeavesBatches D.kind command.now why self.old.numbers self.new.numbers) }
        ensures db { self.new.db ≡ self.old.db }
        ensures limit { self.new.limit ≡ self.old.limit }
        ensures taken { self.new.numbers.taken ≡ self.old.numbers.taken }
        ensures memory { IsOkUnless result Error.Memory }
    {
        match command {
            Command::New(parent) => self.begin(*parent),
            Command::Append(b, value) => self.append(*b, value),
            Command::Seal(b, metadata, floor) => self.seal(*b, metadata, *floor),
            Command::Hold(b) => Ok(self.hold(*b)),
            Command::Release(b) => Ok(self.release(*b)),
            Command::Snapshot => self.snapshot(),
            _ => unreachable!(),
        }
    }
}

impl<D: Durable> Side<D> {
    /// The side after a command that makes it durable. Where it fails there is no side any more.
    pub fn store<V: Volume>(self, volume: &mut V, command: &Command) -> Result<Self, Error<Mmr>>
        requires sound { D.kind.is_sound self.db }
        requires about { about_of command.now ≡ topic.Storage }
        ensures state { IfOk result (λ made. V.tells → (c : Config) (s : State Operation) →
            IsStateOf D.kind (present (V.state volume.old)) self.db self.numbers s →
            IsStateOf D.kind (present (V.state volume.new)) made.db made.numbers (step c s command.now).1) }
        ensures settled { IfOk result (λ made. IsSettled D.kind self.db made.db) }
        ensures numbers { IfOk result (λ made. made.numbers ≡ self.numbers) }
        ensures limit { IfOk result (λ made. made.limit ≡ self.limit) }
        ensures durable { IfOk result (λ made. V.tells →
            IsDurableFor D.kind command.now made.db (V.state volume.new)) }
        ensures errors { IfErr result (λ e. V.tells → (s : State Operation) →
            IsStateOf D.kind (present (V.state volume.old)) self.db self.numbers s → IsOutside e) }
        // Whatever a crash leaves at a moment stands for the state before, or for that which the list machine leaves.
        ensures images { V.tells → (c : Config) (s : State Operation) → IsGoodLog meaning s →
            IsStateOf D.kind (present (V.state volume.old)) self.db self.numbers s →
            StepsTo D.kind s (step c s command.now).1 self.db (V.state volume.old) (V.state volume.new) result }
        ensures names { V.tells → NamesCall (D.kind.names self.db) (V.state volume.old) (V.state volume.new) }
        ensures writes { Writes V.tells Error.Volume (V.state volume.old) (V.state volume.new) result }
    {
        match command {
            Command::Commit => self.commit(volume),
            Command::Sync => self.sync(volume),
            Command::StartSync => self.start_sync(volume),
            _ => unreachable!(),
        }
    }
}

impl Side<Full> {
    /// The first location that the log keeps.
    pub fn start(&self) -> u64
        ensures { (image : Image) (s : State Operation) →
            IsStateOf full_kind image self.now.db self.now.numbers s → result ≡ s.start }
    {
        self.db.bounds().0.as_u64()
    }

    /// What a command that asks answers.
    pub fn ask<V: Volume>(&self, volume: &mut V, command: &Command) -> Result<Answer, Error<Mmr>>
        requires shaped { IsShaped full_kind self.now.numbers }
        requires about { about_of command.now ≡ topic.Question }
        ensures ok { IfOk result (λ a. V.tells → (c : Config) (s : State Operation) → IsTold s →
            StandsGood full_kind c (present (V.state volume.old)) self.now.db self.now.numbers s →
            a ≡ (step c s command.now).0) }
        ensures errors { IfErr result (λ e. V.tells → (c : Config) (s : State Operation) → IsTold s →
            StandsGood full_kind c (present (V.state volume.old)) self.now.db self.now.numbers s → IsOutside e) }
        ensures no_item { NeedsNoItem command.now → (V.state volume.new).reads ≡ (V.state volume.old).reads }
        ensures reads { Reads V.tells Error.Volume (V.state volume.old) (V.state volume.new) result }
    {
        match command {
            Command::Get(l) => self.get(volume, *l),
            Command::GetMany(ls) => self.get_many(volume, ls),
            Command::BatchGet(b, l) => self.batch_get(volume, *b, *l),
            Command::BatchGetMany(b, ls) => self.batch_get_many(volume, *b, ls),
            Command::Size => Ok(self.size(self.start())),
            Command::Metadata => self.metadata(volume),
            Command::Proof(n, a, count) => self.prove(volume, *n, *a, *count),
            _ => unreachable!(),
        }
    }
}
