//! One side of the run: a database, and the batches of the run's numbers.
ghost use Rattle.std.specs.Prelude.{◌≡◌, ◌<◌, ◌≤◌, [], length, slice_index_or, None, IfOk, IfErr, IsOkUnless};
ghost use Rattle.log_model.specs.StateBatches as batches;
ghost use Rattle.log_model.specs.Good.{IsGoodLog};
ghost use Rattle.log_model.specs.Machine.{State, batch_at, with_batch};
ghost use Rattle.log_model.specs.declared.refusal.Refusal.{Refusal};
ghost use Rattle.command_text.specs.declared.command.Answer.TheVariants as answer;
ghost use Rattle.chain_core.specs.Answers.{IsOutside};
ghost use Rattle.volume_base.specs.Moments.{Image, present};
ghost use Rattle.volume_base.specs.Names.{NamesCall};
ghost use Rattle.volume_base.specs.Volume.{Writes};
ghost use Rattle.list_machine.specs.Config.{Config};
ghost use Rattle.list_machine.specs.Operation.{Operation, meaning};
ghost use Rattle.list_machine.specs.Step.{refusal_in, begin, append_to, metadata_length, seal, apply, hold, release, snapshot, size, metadata};
ghost use Rattle.list_machine.specs.Told.{IsTold};
ghost use Rattle.twin_batches.specs.Kind.{kept_of};
ghost use Rattle.twin_batches.specs.Leaving.{KeepsBatches, LeavesUnsealed};
ghost use Rattle.twin_batches.specs.Standing.{KeepsTo};
ghost use Rattle.twin_batches.specs.StateOf.{IsShaped, HasRoom, IsStateOf, AnyState, Answers, Takes};
ghost use Rattle.twin_batches.specs.declared.numbers.Batch.TheVariants.{Unsealed, Gone};

use chain_core::Error;
use codec_base::{Bytes, Duplicate};
use command_text::{Answer, Refusal};
use std::alloc::Global;
use std::mem::replace;
use tree_shape::{MAX_LEAVES, Mmr};
use twin_batches::{Batch, Holding, Numbers};
use twin_databases::Database;
use volume_base::Volume;

/// A database, and the batches of the run's numbers on it. Values and metadata have at most so many bytes.
#[derive(Drop)]
pub struct Side<D: Database> {
    pub db: D,
    pub numbers: Numbers<D::Sealed, D::Unsealed>,
    pub limit: u64,
}

/// The length of metadata, 0 where there is none.
fn metadata_length(metadata: &Option<Bytes>) -> u64
    ensures { result ≡ metadata_length metadata.now }
{
    match metadata {
        Some(bytes) => bytes.len(),
        None => 0,
    }
}

impl<D: Database> Side<D> {
    /// The side of a database that was opened: it has no batches, and has taken no step. It takes no memory.
    pub fn of(db: D, alloc: Global, limit: u64) -> Self
        ensures shaped { IsShaped D.kind result.numbers }
        // It stands for each state without batches of which the database is.
        ensures state { (image : Image) (s : State Operation) → s.batches ≡ [] → D.kind.is_of (kept_of s) image db →
            IsStateOf D.kind image result.db result.numbers s }
        ensures db { result.db ≡ db }
        ensures limit { result.limit ≡ limit }
        ensures taken { result.numbers.taken ≡ 0 }
    {
        Side {
            db,
            numbers: Numbers::new(alloc),
            limit,
        }
    }

    /// Makes an unsealed batch on the present list, or on a sealed batch.
    pub fn begin(&mut self, parent: Option<u64>) -> Result<Answer, Error<Mmr>>
        requires shaped { IsShaped D.kind self.old.numbers }
        requires room { HasRoom self.old.numbers }
        ensures ok { IfOk result
            (λ a. Answers D.kind AnyState (λ s. begin s parent) self.old.db self.old.numbers self.new.numbers a) }
        // Over any contents a refusal leaves each batch.
        ensures refused { IfOk result (λ a. (why : Refusal) → a ≡ answer.Refused why →
            KeepsBatches self.old.numbers self.new.numbers) }
        ensures db { self.new.db ≡ self.old.db }
        ensures limit { self.new.limit ≡ self.old.limit }
        ensures taken { self.new.numbers.taken ≡ self.old.numbers.taken }
        ensures memory { IsOkUnless result Error.Memory }
    {
        let number = self.numbers.batches.len() as u64;
        let Some(p) = parent else {
            let batch = self.db.new_batch()?;
            self.numbers.batches.push(Batch::Unsealed(batch))?;
            return Ok(Answer::Batch(number));
        };
        let Some(held) = self.numbers.held(p) else {
            return Ok(Answer::Refused(Refusal::NoBatch(p)));
        };
        let batch = D::child(&mut self.numbers.pool, held.id)?;
        self.numbers.batches.push(Batch::Unsealed(batch))?;
        Ok(Answer::Batch(number))
    }

    /// Adds a value to an unsealed batch.
    pub fn append(&mut self, b: u64, value: &Bytes) -> Result<Answer, Error<Mmr>>
        requires { IsShaped D.kind self.old.numbers }
        ensures ok { IfOk result
            (λ a. Answers D.kind AnyState (λ s. append_to self.old.limit s b value.now (batch_at s b)) self.old.db
            self.old.numbers self.new.numbers a) }
        // Over any contents a refusal leaves each batch.
        ensures refused { IfOk result (λ a. (why : Refusal) → a ≡ answer.Refused why →
            KeepsBatches self.old.numbers self.new.numbers) }
        ensures db { self.new.db ≡ self.old.db }
        ensures limit { self.new.limit ≡ self.old.limit }
        ensures taken { self.new.numbers.taken ≡ self.old.numbers.taken }
        ensures memory { IsOkUnless result Error.Memory }
    {
        if b >= self.numbers.batches.len() as u64 {
            return Ok(Answer::Refused(Refusal::NoBatch(b)));
        }
        match &mut self.numbers.batches[b as usize] {
            Batch::Unsealed(batch) => {
                if value.len() > self.limit {
                    return Ok(Answer::Refused(Refusal::ValueTooLong(value.len())));
                }
                let size = D::size(batch);
                if size >= MAX_LEAVES {
                    return Ok(Answer::Refused(Refusal::LocationOverflow(size + 1)));
                }
                D::append(batch, value)?;
                Ok(Answer::Done)
            }
            _ => Ok(Answer::Refused(Refusal::NoBatch(b))),
        }
    }

    /// Ends batch b, which is unsealed, by a commit whose metadata isn't too long, or loses it.
    fn end(&mut self, b: u64, metadata: Option<Bytes>, floor: u64) -> Result<Answer, Error<Mmr>>
        requires shaped { IsShaped D.kind self.old.numbers }
        requires room { HasRoom self.old.numbers }
        requires there { b < length self.old.numbers.batches.items }
        requires unsealed { (u : D.Unsealed) × (slice_index_or self.old.numbers.batches.items b Gone ≡ Unsealed u) }
        requires short { metadata_length metadata ≤ self.old.limit }
        ensures ok { IfOk result
            (λ a. Answers D.kind IsTold (λ s. seal self.old.limit s b metadata floor (batch_at s b)) self.old.db
            self.old.numbers self.new.numbers a) }
        // Over any contents a refusal leaves each batch, or this one alone is lost, by its reason.
        ensures refused { IfOk result (λ a. (why : Refusal) → a ≡ answer.Refused why →
            LeavesUnsealed D.kind b why self.old.numbers self.new.numbers) }
        ensures db { self.new.db ≡ self.old.db }
        ensures limit { self.new.limit ≡ self.old.limit }
        ensures taken { self.new.numbers.taken ≡ self.old.numbers.taken }
        ensures memory { IsOkUnless result Error.Memory }
    {
        let Batch::Unsealed(batch) = replace(&mut self.numbers.batches[b as usize], Batch::Gone)
        else {
            unreachable!();
        };
        match self.db.seal(batch, &mut self.numbers.pool, metadata, floor) {
            Ok(id) => {
                self.numbers.batches[b as usize] = Batch::Sealed(Holding { id, holds: 1 });
                let tip = &D::bounds(self.numbers.pool.item(id)).tip;
                Ok(Answer::Sealed {
                    size: tip.size.as_u64(),
                    root: tip.root,
                })
            }
            Err(error) => match error.refusal() {
                Some(refusal) => Ok(Answer::Refused(refusal)),
                None => Err(error),
            },
        }
    }

    /// Ends an unsealed batch by a commit, or loses it.
    pub fn seal(
        &mut self,
        b: u64,
        metadata: &Option<Bytes>,
        floor: u64,
    ) -> Result<Answer, Error<Mmr>>
        requires shaped { IsShaped D.kind self.old.numbers }
        requires room { HasRoom self.old.numbers }
        ensures ok { IfOk result
            (λ a. Answers D.kind IsTold (λ s. seal self.old.limit s b metadata.now floor (batch_at s b)) self.old.db
            self.old.numbers self.new.numbers a) }
        // Over any contents a refusal leaves each batch, or this one alone is lost, by its reason.
        ensures refused { IfOk result (λ a. (why : Refusal) → a ≡ answer.Refused why →
            LeavesUnsealed D.kind b why self.old.numbers self.new.numbers) }
        ensures db { self.new.db ≡ self.old.db }
        ensures limit { self.new.limit ≡ self.old.limit }
        ensures taken { self.new.numbers.taken ≡ self.old.numbers.taken }
        ensures memory { IsOkUnless result Error.Memory }
    {
        if b >= self.numbers.batches.len() as u64 {
            return Ok(Answer::Refused(Refusal::NoBatch(b)));
        }
        let Batch::Unsealed(_) = &self.numbers.batches[b as usize] else {
            return Ok(Answer::Refused(Refusal::NoBatch(b)));
        };
        let long = metadata_length(metadata);
        if long > self.limit {
            return Ok(Answer::Refused(Refusal::ValueTooLong(long)));
        }
        let Ok(metadata) = metadata.duplicate() else {
            return Err(Error::Memory);
        };
        self.end(b, metadata, floor)
    }

    /// Why batch b isn't applied, where something refuses it.
    pub fn apply_refusal(&self, b: u64) -> Option<Refusal>
        requires { IsShaped D.kind self.now.numbers }
        // Over any contents it is the list machine's refusal in each state for which the side stands.
        ensures machine { (image : Image) (s : State Operation) → IsTold s →
            IsStateOf D.kind image self.now.db self.now.numbers s →
            result ≡ refusal_in (apply s b (batch_at s b)).0 }
        ensures takes { result ≡ None → Takes D.kind self.now.db self.now.numbers b }
    {
        let Some(held) = self.numbers.held(b) else {
            return Some(Refusal::NoBatch(b));
        };
        if self.db.validate(&self.numbers.pool, held.id).is_err() {
            return Some(Refusal::StaleBatch);
        }
        None
    }

    /// Makes the list that of a sealed batch, which the side may apply. Where it fails there is no side any more.
    pub fn apply<V: Volume>(self, volume: &mut V, b: u64) -> Result<Self, Error<Mmr>>
        requires shaped { IsShaped D.kind self.numbers }
        requires takes { Takes D.kind self.db self.numbers b }
        ensures state { IfOk result (λ made. V.tells → (s : State Operation) → IsTold s →
            IsStateOf D.kind (present (V.state volume.old)) self.db self.numbers s →
            IsStateOf D.kind (present (V.state volume.new)) made.db made.numbers (apply s b (batch_at s b)).1) }
        ensures numbers { IfOk result (λ made. made.numbers ≡ self.numbers) }
        ensures limit { IfOk result (λ made. made.limit ≡ self.limit) }
        // Of a state for which it stands it fails by the volume or for want of memory alone.
        ensures errors { IfErr result (λ e. V.tells → (s : State Operation) → IsTold s →
            IsStateOf D.kind (present (V.state volume.old)) self.db self.numbers s → IsOutside e) }
        // Whatever a crash leaves at a moment then stands for the state that the list machine leaves.
        ensures images { V.tells → (s : State Operation) → IsTold s → IsGoodLog meaning s →
            IsStateOf D.kind (present (V.state volume.old)) self.db self.numbers s →
            KeepsTo D.kind s (apply s b (batch_at s b)).1 self.db (V.state volume.old) (V.state volume.new) }
        ensures names { V.tells → NamesCall (D.kind.names self.db) (V.state volume.old) (V.state volume.new) }
        ensures same_names { IfOk result (λ made. D.kind.names made.db ≡ D.kind.names self.db) }
        ensures sound { IfOk result (λ made. D.kind.is_sound self.db → D.kind.is_sound made.db) }
        ensures under { IfOk result (λ made. (config : Config) → D.kind.is_under config self.db →
            D.kind.is_under config made.db) }
        ensures writes { Writes V.tells Error.Volume (V.state volume.old) (V.state volume.new) result }
    {
        let Some(held) = self.numbers.held(b) else {
            unreachable!();
        };
        let Side { db, numbers, limit } = self;
        match db.apply(volume, &numbers.pool, held.id) {
            Ok(db) => Ok(Side { db, numbers, limit }),
            Err(error) => Err(error),
        }
    }

    /// Holds a sealed batch once more.
    pub fn hold(&mut self, b: u64) -> Answer
        requires shaped { IsShaped D.kind self.old.numbers }
        requires room { HasRoom self.old.numbers }
        ensures ok { Answers D.kind AnyState (λ s. hold s b (batch_at s b)) self.old.db self.old.numbers
            self.new.numbers result }
        // Over any contents a refusal leaves each batch.
        ensures refused { (why : Refusal) → result ≡ answer.Refused why →
            KeepsBatches self.old.numbers self.new.numbers }
        ensures db { self.new.db ≡ self.old.db }
        ensures limit { self.new.limit ≡ self.old.limit }
        ensures taken { self.new.numbers.taken ≡ self.old.numbers.taken }
    {
        let Some(held) = self.numbers.held(b) else {
            return Answer::Refused(Refusal::NoBatch(b));
        };
        self.numbers.hold(b, held);
        Answer::Done
    }

    /// Gives up batch b, which is unsealed.
    fn lose(&mut self, b: u64)
        requires shaped { IsShaped D.kind self.old.numbers }
        requires there { b < length self.old.numbers.batches.items }
        requires unsealed { (u : D.Unsealed) × (slice_index_or self.old.numbers.batches.items b Gone ≡ Unsealed u) }
        ensures shaped { IsShaped D.kind self.new.numbers }
        ensures lost { (image : Image) (s : State Operation) → IsStateOf D.kind image self.old.db self.old.numbers s →
            IsStateOf D.kind image self.old.db self.new.numbers (with_batch s b batches.Gone) }
        ensures db { self.new.db ≡ self.old.db }
        ensures limit { self.new.limit ≡ self.old.limit }
        ensures taken { self.new.numbers.taken ≡ self.old.numbers.taken }
    {
        let Batch::Unsealed(batch) = replace(&mut self.numbers.batches[b as usize], Batch::Gone)
        else {
            unreachable!();
        };
        D::discard(batch, &mut self.numbers.pool);
    }

    /// Holds a sealed batch once less, or gives up an unsealed one.
    pub fn release(&mut self, b: u64) -> Answer
        requires { IsShaped D.kind self.old.numbers }
        ensures ok { Answers D.kind AnyState (λ s. release s b (batch_at s b)) self.old.db self.old.numbers
            self.new.numbers result }
        // Over any contents a refusal leaves each batch.
        ensures refused { (why : Refusal) → result ≡ answer.Refused why →
            KeepsBatches self.old.numbers self.new.numbers }
        ensures db { self.new.db ≡ self.old.db }
        ensures limit { self.new.limit ≡ self.old.limit }
        ensures taken { self.new.numbers.taken ≡ self.old.numbers.taken }
    {
        if b >= self.numbers.batches.len() as u64 {
            return Answer::Refused(Refusal::NoBatch(b));
        }
        match &self.numbers.batches[b as usize] {
            Batch::Unsealed(_) => {
                self.lose(b);
                Answer::Done
            }
            Batch::Sealed(holding) => {
                let held = *holding;
                if held.holds == 0 {
                    return Answer::Refused(Refusal::NoBatch(b));
                }
                self.numbers.let_go(b, held);
                Answer::Done
            }
            Batch::Gone => Answer::Refused(Refusal::NoBatch(b)),
        }
    }

    /// Makes a sealed batch of the whole list.
    pub fn snapshot(&mut self) -> Result<Answer, Error<Mmr>>
        requires shaped { IsShaped D.kind self.old.numbers }
        requires room { HasRoom self.old.numbers }
        ensures ok { IfOk result
            (λ a. Answers D.kind AnyState snapshot self.old.db self.old.numbers self.new.numbers a) }
        ensures done { IfOk result (λ a. (why : Refusal) → a ≡ answer.Refused why → ⊥) }
        ensures db { self.new.db ≡ self.old.db }
        ensures limit { self.new.limit ≡ self.old.limit }
        ensures taken { self.new.numbers.taken ≡ self.old.numbers.taken }
        ensures memory { IsOkUnless result Error.Memory }
    {
        let id = self.db.snapshot(&mut self.numbers.pool)?;
        let number = self.numbers.batches.len() as u64;
        self.numbers
            .batches
            .push(Batch::Sealed(Holding { id, holds: 1 }))?;
        Ok(Answer::Batch(number))
    }

    /// The size and the floor of the list, which is kept from `start` on.
    pub fn size(&self, start: u64) -> Answer
        ensures { (image : Image) (s : State Operation) → IsStateOf D.kind image self.now.db self.now.numbers s →
            s.start ≡ start → result ≡ (size s).0 }
    {
        Answer::Size {
            size: self.db.commitment().size.as_u64(),
            start,
            floor: self.db.floor(),
        }
    }

    /// The last commit's metadata. The volume isn't touched.
    pub fn metadata<V: Volume>(&self, volume: &mut V) -> Result<Answer, Error<Mmr>>
        ensures ok { IfOk result (λ a. (image : Image) (s : State Operation) →
            IsStateOf D.kind image self.now.db self.now.numbers s → a ≡ (metadata s).0) }
        ensures still { volume.new ≡ volume.old }
        ensures memory { IsOkUnless result Error.Memory }
    {
        Ok(Answer::Metadata(self.db.metadata(volume)?))
    }
}
