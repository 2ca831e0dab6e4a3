//! Reads of the full database's list, and of the lists of batches on it.
ghost use Rattle.std.specs.Prelude.{◌≡◌, ◌↔◌, Some, Ok, IfOk, IfErr};
ghost use Rattle.volume_base.specs.Moments.{present};
ghost use Rattle.volume_base.specs.Volume.{Reads};
ghost use Rattle.log_model.specs.Machine.{State, batch_at};
ghost use Rattle.log_model.specs.declared.refusal.Refusal.{Refusal};
ghost use Rattle.chain_core.specs.Answers.{IsOutside};
ghost use Rattle.command_text.specs.declared.command.Answer.TheVariants as answer;
ghost use Rattle.list_machine.specs.Config.{Config};
ghost use Rattle.list_machine.specs.Operation.{Operation};
ghost use Rattle.list_machine.specs.Step.{get, get_many, batch_get, batch_get_many};
ghost use Rattle.list_machine.specs.Told.{IsTold};
ghost use Rattle.twin_batches.specs.StateOf.{IsShaped, StandsGood};
ghost use Rattle.twin_databases.specs.FullKind.{full_kind};
ghost use Rattle.twin_side.specs.ReadRefusals.{batch_read, kept_refusal, kept_refusals};
ghost use Rattle.twin_side.specs.Unread.{IsReadRefusedAt, AreReadsRefusedAt};

use crate::read_refusals::{in_tree, location_refusal, locations_refusal, unread};
use crate::side::Side;
use chain_core::Error;
use codec_base::Bytes;
use command_text::{Answer, Locations, Refusal, ValueList};
use tree_shape::{Location, Mmr};
use twin_batches::Batch;
use twin_databases::Full;
use volume_base::Volume;

/// The answer to a read of a batch at one location.
fn value_answer(read: Result<Option<Bytes>, Error<Mmr>>) -> Result<Answer, Error<Mmr>>
    ensures { result ≡ batch_read answer.Value read }
{
    match read {
        Ok(value) => Ok(Answer::Value(value)),
        Err(error) => match unread(&error) {
            Some(refusal) => Ok(Answer::Refused(refusal)),
            None => Err(error),
        },
    }
}

/// The answer to a read of a batch at several locations.
fn values_answer(read: Result<Vec<Option<Bytes>>, Error<Mmr>>) -> Result<Answer, Error<Mmr>>
    ensures { result ≡ batch_read (λ values. answer.Values values.items) read }
{
    match read {
        Ok(values) => Ok(Answer::Values(ValueList::from_vec(values))),
        Err(error) => match unread(&error) {
            Some(refusal) => Ok(Answer::Refused(refusal)),
            None => Err(error),
        },
    }
}

impl Side<Full> {
    /// The value at a location of the list; of a commit, its metadata. It refuses, in this order, a location at or past
    /// the end, and one that isn't kept. A refusal leaves the volume.
    pub fn get<V: Volume>(&self, volume: &mut V, location: u64) -> Result<Answer, Error<Mmr>>
        ensures ok { IfOk result (λ a. V.tells → (c : Config) (s : State Operation) →
            StandsGood full_kind c (present (V.state volume.old)) self.now.db self.now.numbers s →
            a ≡ (get s location).0) }
        // Of a good state it fails by the volume or for want of memory alone.
        ensures errors { IfErr result (λ e. V.tells → (c : Config) (s : State Operation) →
            StandsGood full_kind c (present (V.state volume.old)) self.now.db self.now.numbers s → IsOutside e) }
        // Over any contents it refuses exactly what the bounds of the list tell.
        ensures known { let db = self.now.db in (why : Refusal) → (result ≡ Ok (answer.Refused why))
            ↔ (kept_refusal db.state.size db.journal.items.start location ≡ Some why) }
        ensures refused { IfOk result (λ a. (why : Refusal) → a ≡ answer.Refused why → volume.new ≡ volume.old) }
        ensures reads { Reads V.tells Error.Volume (V.state volume.old) (V.state volume.new) result }
    {
        let (start, size) = self.db.bounds();
        if let Some(refusal) = location_refusal(location, size.as_u64(), start.as_u64()) {
            return Ok(Answer::Refused(refusal));
        }
        match self.db.get(volume, Location::new(location)) {
            Ok(value) => Ok(Answer::Value(value)),
            Err(error) => Err(error),
        }
    }

    /// The values at several locations of the list. It refuses, in this order, the first pair that doesn't rise, a last
    /// one at or past the end, and a first one that isn't kept. A refusal leaves the volume.
    pub fn get_many<V: Volume>(
        &self,
        volume: &mut V,
        locations: &Locations,
    ) -> Result<Answer, Error<Mmr>>
        ensures ok { IfOk result (λ a. V.tells → (c : Config) (s : State Operation) →
            StandsGood full_kind c (present (V.state volume.old)) self.now.db self.now.numbers s →
            a ≡ (get_many s locations.now).0) }
        ensures errors { IfErr result (λ e. V.tells → (c : Config) (s : State Operation) →
            StandsGood full_kind c (present (V.state volume.old)) self.now.db self.now.numbers s → IsOutside e) }
        ensures known { let db = self.now.db in (why : Refusal) → (result ≡ Ok (answer.Refused why))
            ↔ (kept_refusals db.state.size db.journal.items.start locations.now ≡ Some why) }
        ensures refused { IfOk result (λ a. (why : Refusal) → a ≡ answer.Refused why → volume.new ≡ volume.old) }
        ensures reads { Reads V.tells Error.Volume (V.state volume.old) (V.state volume.new) result }
    {
        let (start, size) = self.db.bounds();
        let locations = locations.as_slice();
        if let Some(refusal) = locations_refusal(locations, size.as_u64(), start.as_u64()) {
            return Ok(Answer::Refused(refusal));
        }
        let places = in_tree(*self.numbers.batches.allocator(), locations)?;
        match self.db.get_many(volume, &places) {
            Ok(values) => Ok(Answer::Values(ValueList::from_vec(values))),
            Err(error) => Err(error),
        }
    }

    /// The value at a location of the list of batch b, which is unsealed or held. It refuses, in this order, another
    /// batch, a list on which the batch can't be read, a location at or past its end, and one below the floor from
    /// which on it is read. A refusal leaves the volume.
    pub fn batch_get<V: Volume>(
        &self,
        volume: &mut V,
        b: u64,
        location: u64,
    ) -> Result<Answer, Error<Mmr>>
        requires { IsShaped full_kind self.now.numbers }
        ensures ok { IfOk result (λ a. V.tells → (c : Config) (s : State Operation) → IsTold s →
            StandsGood full_kind c (present (V.state volume.old)) self.now.db self.now.numbers s →
            a ≡ (batch_get s b location (batch_at s b)).0) }
        ensures errors { IfErr result (λ e. V.tells → (c : Config) (s : State Operation) → IsTold s →
            StandsGood full_kind c (present (V.state volume.old)) self.now.db self.now.numbers s → IsOutside e) }
        // Over any contents it refuses exactly what memory tells.
        ensures known { (why : Refusal) → (result ≡ Ok (answer.Refused why))
            ↔ IsReadRefusedAt self.now.db self.now.numbers b location why }
        ensures refused { IfOk result (λ a. (why : Refusal) → a ≡ answer.Refused why → volume.new ≡ volume.old) }
        ensures reads { Reads V.tells Error.Volume (V.state volume.old) (V.state volume.new) result }
    {
        let place = Location::new(location);
        if let Some(held) = self.numbers.held(b) {
            let batch = self.numbers.pool.item(held.id);
            return value_answer(batch.get(volume, &self.db, place));
        }
        if b >= self.numbers.batches.len() as u64 {
            return Ok(Answer::Refused(Refusal::NoBatch(b)));
        }
        let Batch::Unsealed(batch) = &self.numbers.batches[b as usize] else {
            return Ok(Answer::Refused(Refusal::NoBatch(b)));
        };
        value_answer(batch.get(volume, &self.numbers.pool, &self.db, place))
    }

    /// The values at several locations of the list of batch b, which is unsealed or held. It refuses, in this order,
    /// another batch, a list on which the batch can't be read, the first pair of locations that doesn't rise, a last
    /// one at or past its end, and a first one below the floor from which on it is read. A refusal leaves the volume.
    pub fn batch_get_many<V: Volume>(
        &self,
        volume: &mut V,
        b: u64,
        locations: &Locations,
    ) -> Result<Answer, Error<Mmr>>
        requires { IsShaped full_kind self.now.numbers }
        ensures ok { IfOk result (λ a. V.tells → (c : Config) (s : State Operation) → IsTold s →
            StandsGood full_kind c (present (V.state volume.old)) self.now.db self.now.numbers s →
            a ≡ (batch_get_many s b locations.now (batch_at s b)).0) }
        ensures errors { IfErr result (λ e. V.tells → (c : Config) (s : State Operation) → IsTold s →
            StandsGood full_kind c (present (V.state volume.old)) self.now.db self.now.numbers s → IsOutside e) }
        // Over any contents it refuses exactly what memory tells; or it fails there for want of memory.
        ensures known { IfOk result (λ a. (why : Refusal) → (a ≡ answer.Refused why)
            ↔ AreReadsRefusedAt self.now.db self.now.numbers b locations.now why) }
        ensures lacking { IfErr result (λ e. (why : Refusal) →
            AreReadsRefusedAt self.now.db self.now.numbers b locations.now why → e ≡ Error.Memory) }
        ensures refused { IfOk result (λ a. (why : Refusal) → a ≡ answer.Refused why → volume.new ≡ volume.old) }
        ensures reads { Reads V.tells Error.Volume (V.state volume.old) (V.state volume.new) result }
    {
        let places = in_tree(*self.numbers.batches.allocator(), locations.as_slice())?;
        if let Some(held) = self.numbers.held(b) {
            let batch = self.numbers.pool.item(held.id);
            return values_answer(batch.get_many(volume, &self.db, &places));
        }
        if b >= self.numbers.batches.len() as u64 {
            return Ok(Answer::Refused(Refusal::NoBatch(b)));
        }
        let Batch::Unsealed(batch) = &self.numbers.batches[b as usize] else {
            return Ok(Answer::Refused(Refusal::NoBatch(b)));
        };
        values_answer(batch.get_many(volume, &self.numbers.pool, &self.db, &places))
    }
}
