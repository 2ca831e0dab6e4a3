//! How a side is made durable, and gives up old operations.
ghost use Rattle.std.specs.Prelude.{◌≡◌, ◌<◌, ◌≤◌, Some, None, IfOk, IfErr};
ghost use Rattle.log_model.specs.Good.{AnyList, IsGoodLog};
ghost use Rattle.log_model.specs.Machine.{State, committed, synced, pruned};
ghost use Rattle.log_model.specs.Refusals as log;
ghost use Rattle.log_model.specs.declared.refusal.Refusal.TheVariants.{PruneBeyondMinRequired};
ghost use Rattle.chain_core.specs.Answers.{IsOutside};
ghost use Rattle.volume_base.specs.Moments.{Image, present};
ghost use Rattle.volume_base.specs.Names.{NamesCall};
ghost use Rattle.volume_base.specs.Volume.{Writes, Changes};
ghost use Rattle.list_machine.specs.Config.{Config};
ghost use Rattle.list_machine.specs.GoodRuns.{IsGoodState};
ghost use Rattle.list_machine.specs.Operation.{Operation, meaning};
ghost use Rattle.twin_batches.specs.Durability.{IsSettled};
ghost use Rattle.twin_batches.specs.Standing.{StepsTo};
ghost use Rattle.twin_batches.specs.StateOf.{IsStateOf};

use crate::side::Side;
use chain_core::Error;
use command_text::Refusal;
use tree_shape::Mmr;
use twin_databases::{Database, Durable};
use volume_base::Volume;

impl<D: Database> Side<D> {
    /// Why nothing is given up below a location, where it is so: the location is past the floor.
    pub fn prune_refusal(&self, location: u64) -> Option<Refusal>
        ensures past { D.kind.floor self.now.db < location →
            result ≡ Some (PruneBeyondMinRequired location (D.kind.floor self.now.db)) }
        ensures within { location ≤ D.kind.floor self.now.db → result ≡ None }
        // Over any contents it is the list machine's refusal in each state for which the side stands.
        ensures machine { (image : Image) (s : State Operation) →
            IsStateOf D.kind image self.now.db self.now.numbers s → result ≡ log.prune_refusal meaning s location }
    {
        let floor = self.db.floor();
        if location > floor {
            return Some(Refusal::PruneBeyondMinRequired(location, floor));
        }
        None
    }
}

/// What is said of a state for which the side stands is said where the volume tells its contents. Where a call fails
/// there is no side any more.
impl<D: Durable> Side<D> {
    /// Makes the operations durable.
    pub fn commit<V: Volume>(self, volume: &mut V) -> Result<Self, Error<Mmr>>
        requires sound { D.kind.is_sound self.db }
        // For each state for which it stood it stands for the state that the list machine leaves.
        ensures state { IfOk result (λ made. V.tells → (s : State Operation) →
            IsStateOf D.kind (present (V.state volume.old)) self.db self.numbers s →
            IsStateOf D.kind (present (V.state volume.new)) made.db made.numbers (committed s)) }
        ensures settled { IfOk result (λ made. IsSettled D.kind self.db made.db) }
        ensures numbers { IfOk result (λ made. made.numbers ≡ self.numbers) }
        ensures limit { IfOk result (λ made. made.limit ≡ self.limit) }
        ensures durable { IfOk result (λ made. V.tells → D.kind.is_durable made.db (V.state volume.new)) }
        ensures errors { IfErr result (λ e. V.tells → (s : State Operation) →
            IsStateOf D.kind (present (V.state volume.old)) self.db self.numbers s → IsOutside e) }
        // Whatever a crash leaves at a moment stands for the state before, or for that which the list machine leaves.
        ensures images { V.tells → (s : State Operation) → IsGoodLog meaning s →
            IsStateOf D.kind (present (V.state volume.old)) self.db self.numbers s →
            StepsTo D.kind s (committed s) self.db (V.state volume.old) (V.state volume.new) result }
        ensures names { V.tells → NamesCall (D.kind.names self.db) (V.state volume.old) (V.state volume.new) }
        ensures writes { Writes V.tells Error.Volume (V.state volume.old) (V.state volume.new) result }
    {
        let Side { db, numbers, limit } = self;
        match db.commit(volume) {
            Ok(db) => Ok(Side { db, numbers, limit }),
            Err(error) => Err(error),
        }
    }

    /// Makes the operations and their nodes durable.
    pub fn sync<V: Volume>(self, volume: &mut V) -> Result<Self, Error<Mmr>>
        requires sound { D.kind.is_sound self.db }
        // For each state for which it stood it stands for the state that the list machine leaves.
        ensures state { IfOk result (λ made. V.tells → (s : State Operation) →
            IsStateOf D.kind (present (V.state volume.old)) self.db self.numbers s →
            IsStateOf D.kind (present (V.state volume.new)) made.db made.numbers (synced s)) }
        ensures settled { IfOk result (λ made. IsSettled D.kind self.db made.db) }
        ensures numbers { IfOk result (λ made. made.numbers ≡ self.numbers) }
        ensures limit { IfOk result (λ made. made.limit ≡ self.limit) }
        ensures durable { IfOk result (λ made. V.tells → D.kind.is_synced made.db (V.state volume.new)) }
        ensures errors { IfErr result (λ e. V.tells → (s : State Operation) →
            IsStateOf D.kind (present (V.state volume.old)) self.db self.numbers s → IsOutside e) }
        // Whatever a crash leaves at a moment stands for the state before, or for that which the list machine leaves.
        ensures images { V.tells → (s : State Operation) → IsGoodLog meaning s →
            IsStateOf D.kind (present (V.state volume.old)) self.db self.numbers s →
            StepsTo D.kind s (synced s) self.db (V.state volume.old) (V.state volume.new) result }
        ensures names { V.tells → NamesCall (D.kind.names self.db) (V.state volume.old) (V.state volume.new) }
        ensures writes { Writes V.tells Error.Volume (V.state volume.old) (V.state volume.new) result }
    {
        let Side { db, numbers, limit } = self;
        match db.sync(volume) {
            Ok(db) => Ok(Side { db, numbers, limit }),
            Err(error) => Err(error),
        }
    }

    /// As `sync`, by a sync that is started and ends here. Where that sync fails it is the volume's failure.
    pub fn start_sync<V: Volume>(self, volume: &mut V) -> Result<Self, Error<Mmr>>
        requires sound { D.kind.is_sound self.db }
        // For each state for which it stood it stands for the state that the list machine leaves.
        ensures state { IfOk result (λ made. V.tells → (s : State Operation) →
            IsStateOf D.kind (present (V.state volume.old)) self.db self.numbers s →
            IsStateOf D.kind (present (V.state volume.new)) made.db made.numbers (synced s)) }
        ensures settled { IfOk result (λ made. IsSettled D.kind self.db made.db) }
        ensures numbers { IfOk result (λ made. made.numbers ≡ self.numbers) }
        ensures limit { IfOk result (λ made. made.limit ≡ self.limit) }
        ensures durable { IfOk result (λ made. V.tells → D.kind.is_synced made.db (V.state volume.new)) }
        ensures errors { IfErr result (λ e. V.tells → (s : State Operation) →
            IsStateOf D.kind (present (V.state volume.old)) self.db self.numbers s → IsOutside e) }
        // Whatever a crash leaves at a moment stands for the state before, or for that which the list machine leaves.
        ensures images { V.tells → (s : State Operation) → IsGoodLog meaning s →
            IsStateOf D.kind (present (V.state volume.old)) self.db self.numbers s →
            StepsTo D.kind s (synced s) self.db (V.state volume.old) (V.state volume.new) result }
        ensures names { V.tells → NamesCall (D.kind.names self.db) (V.state volume.old) (V.state volume.new) }
        ensures writes { Writes V.tells Error.Volume (V.state volume.old) (V.state volume.new) result }
    {
        let Side { db, numbers, limit } = self;
        match db.start_sync(volume) {
            Ok(db) => Ok(Side { db, numbers, limit }),
            Err(error) => Err(error),
        }
    }

    /// Gives up what lies below a location, at most the floor, as far as whole blobs go.
    pub fn prune<V: Volume>(self, volume: &mut V, location: u64) -> Result<Self, Error<Mmr>>
        requires sound { D.kind.is_sound self.db }
        requires low { location ≤ D.kind.floor self.db }
        // For each good state for which it stood, under each configuration that its database was opened under.
        ensures state { IfOk result (λ made. V.tells → (config : Config) (s : State Operation) →
            D.kind.is_under config self.db → IsGoodState AnyList config.value_limit s →
            IsStateOf D.kind (present (V.state volume.old)) self.db self.numbers s →
            IsStateOf D.kind (present (V.state volume.new)) made.db made.numbers
            (pruned config.log_blob config.witness_blob s location)) }
        ensures settled { IfOk result (λ made. IsSettled D.kind self.db made.db) }
        ensures numbers { IfOk result (λ made. made.numbers ≡ self.numbers) }
        ensures limit { IfOk result (λ made. made.limit ≡ self.limit) }
        ensures durable { IfOk result (λ made. V.tells → (s : State Operation) →
            IsStateOf D.kind (present (V.state volume.old)) self.db self.numbers s →
            D.kind.is_durable made.db (V.state volume.new)) }
        ensures errors { IfErr result (λ e. V.tells → (s : State Operation) →
            IsStateOf D.kind (present (V.state volume.old)) self.db self.numbers s → IsOutside e) }
        // Where all was durable whatever a crash leaves at a moment stands for the state before, or for that which the
        // list machine leaves.
        ensures images { V.tells → D.kind.is_durable self.db (V.state volume.old) →
            (config : Config) (s : State Operation) → IsGoodLog meaning s →
            IsStateOf D.kind (present (V.state volume.old)) self.db self.numbers s →
            StepsTo D.kind s (pruned config.log_blob config.witness_blob s location) self.db (V.state volume.old)
            (V.state volume.new) result }
        ensures names { V.tells → NamesCall (D.kind.names self.db) (V.state volume.old) (V.state volume.new) }
        ensures changes { Changes V.tells Error.Volume (V.state volume.old) (V.state volume.new) result }
    {
        let Side { db, numbers, limit } = self;
        match db.prune(volume, location) {
            Ok(db) => Ok(Side { db, numbers, limit }),
            Err(error) => Err(error),
        }
    }
}
