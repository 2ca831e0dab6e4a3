//! Reads of sealed batches: of the chain, and of the database below.
ghost use Rattle.std.specs.Prelude.{◌≡◌, ◌↔◌, ◌∷◌, ◌<◌, ◌≤◌, ℕ, List, length, map, take, Some, None, Ok, Err, IsOk};
ghost use Rattle.std.specs.Prelude.{IfOk, IfErr};
ghost use Rattle.std.specs.Prelude.{IsErrOf, IsOkUnless, IsSome, Contains};
ghost use Rattle.std.specs.List.{AllByRecursion};
ghost use Rattle.volume_base.specs.Moments.{present};
ghost use Rattle.volume_base.specs.Volume.{Reads};
ghost use Rattle.volume_base.specs.declared.error.JournalError.TheVariants.{ItemPruned};
ghost use Rattle.log_model.specs.Reads.{unless_refused, value_at};
ghost use Rattle.log_model.specs.declared.refusal.Refusal.{Refusal};
ghost use Rattle.journal_base.specs.Items.{items_of};
ghost use Rattle.auth_journal.specs.Batched.{IsSealedOfItems};
ghost use Rattle.auth_journal.specs.Kept.{kept_item};
ghost use Rattle.chain_core.specs.Answers.{IsRefusedFor};
ghost use Rattle.chain_core.specs.declared.error.Error.{Error};
ghost use Rattle.keyless_db.specs.Batches.{IsMerkleizedOf};
ghost use Rattle.keyless_db.specs.DbView.{IsHeldFor};
ghost use Rattle.keyless_db.specs.Reading.{AnswersAs, AreKeptValues, AreReadBelow, IsInChain, IsReadable};
ghost use Rattle.keyless_db.specs.Reading.{IsAllowedBelow, IsReadBelow, IsChainFault, IsFirstFault};
ghost use Rattle.keyless_db.specs.Reading.{batch_answer, batch_many_answer, first_refused, floored_refusal};
ghost use Rattle.keyless_db.specs.Reading.{kept_over, kept_value, location_refusal, locations_refusal, lost};

use crate::locations::{check_location, check_locations_from};
use crate::{Keyless, KeylessOperation, MerkleizedBatch};
use chain_core::{Bounds, Commitment, Error};
use journal_base::Backing;
use tree_core::{Digest, Family, Hasher, Location};
use volume_base::Volume;

/// Whether a batch of these states may be read at the state `current`. It refuses with `StaleRead`.
pub(crate) fn check_read<F: Family, D: Digest>(
    bounds: &Bounds<F, D>,
    current: Commitment<F, D>,
) -> Result<(), Error<F>>
    ensures in_chain { IsOk result ↔ Contains (bounds.now.tip ∷ bounds.now.db ∷ bounds.now.ancestors) current }
    ensures stale { IsOkUnless result Error.StaleRead }
{
    match bounds.compatible(&(), current) {
        Ok(_) => Ok(()),
        Err(error) => Err(error),
    }
}

impl<F: Family, D: Digest, O: KeylessOperation> MerkleizedBatch<F, D, O> {
    /// The value at a location of the batch's list: of the operation that the chain keeps, or else of the database's.
    /// Where neither keeps one it refuses with `Journal(ItemPruned)`.
    pub(crate) fn chain_value<V: Volume, C: Backing<Item = O>, H: Hasher<Digest = D>>(
        &self,
        vol: &mut V,
        db: &Keyless<F, O, C, H>,
        location: u64,
    ) -> Result<Option<O::Value>, Error<F>>
        // Of a batch of a list, over a database that is held for a front of it, it is the list's.
        ensures listed { let admits = D.Read.admits tt in V.tells → (ops list : List O) →
            IsHeldFor F.shape H.hash O.meaning D.spelling admits O.spelling ops db.now (present (V.state vol.old)) →
            IsReadable (O.admits db.now.journal.items.codec) ops (kept_item self.now.tree location) location →
            ops ≡ take (length ops) list →
            IsSealedOfItems F.shape H.hash O.spelling list self.now.tree → location < length list →
            AnswersAs (λ value. value)
            (kept_value O.meaning list (kept_over self.now.tree.nodes.first db.now) location) result }
        // What the chain keeps is told without the volume.
        ensures chain { (op : O) → kept_item self.now.tree location ≡ Some op →
            AnswersAs (λ value. value) (Ok (O.meaning.value op)) result × (vol.new ≡ vol.old) }
        ensures nowhere { kept_item self.now.tree location ≡ None → db.now.state.size ≤ location →
            (result ≡ Err (Error.Journal (ItemPruned location))) × (vol.new ≡ vol.old) }
        ensures told { let items = items_of O.spelling O.admits db.now.journal.items (V.state vol.old) in
            IfOk result (IsReadBelow O.meaning V.tells items db.now.state.size (kept_item self.now.tree location)
            location) }
        ensures fault { let items = items_of O.spelling O.admits db.now.journal.items (V.state vol.old) in
            IfErr result (IsChainFault V.tells items db.now.state.size (kept_item self.now.tree location) location) }
        ensures reads { Reads V.tells Error.Volume (V.state vol.old) (V.state vol.new) result }
    {
        match self.tree.item(location) {
            Some(op) => match op.copied_value() {
                Ok(value) => Ok(value),
                Err(_) => Err(Error::Memory),
            },
            None => db.value_before(vol, location),
        }
    }

    /// The value at a location of the batch's list; of a commit, its metadata. It refuses, in this order: with
    /// `StaleRead` a database off the batch's chain, with `LocationOutOfBounds` at or past the batch's size, with
    /// `BelowInactivityFloor` below its floor, and with `Journal(ItemPruned)` where neither chain nor database keeps
    /// the operation.
    pub fn get<V: Volume, C: Backing<Item = O>, H: Hasher<Digest = D>>(
        &self,
        vol: &mut V,
        db: &Keyless<F, O, C, H>,
        loc: Location<F>,
    ) -> Result<Option<O::Value>, Error<F>>
        ensures stale { (IsInChain self.now db.now → ⊥) → (result ≡ Err Error.StaleRead) × (vol.new ≡ vol.old) }
        ensures unfit { IsInChain self.now db.now → (why : Refusal) →
            location_refusal self.now.bounds.tip.size self.now.bounds.inactivity_floor loc ≡ Some why →
            IsRefusedFor why result × (vol.new ≡ vol.old) }
        // Of a batch of a list, over a database that is held for a front of it, it is the list's answer.
        ensures answer { let admits = D.Read.admits tt in V.tells → IsInChain self.now db.now → (ops list : List O) →
            IsHeldFor F.shape H.hash O.meaning D.spelling admits O.spelling ops db.now (present (V.state vol.old)) →
            IsReadable (O.admits db.now.journal.items.codec) ops (kept_item self.now.tree loc) loc →
            ops ≡ take (length ops) list →
            IsMerkleizedOf F.shape H.hash O.meaning O.spelling list self.now →
            let kept = kept_over self.now.tree.nodes.first db.now in
            AnswersAs (λ value. value) (batch_answer O.meaning list self.now.bounds.inactivity_floor kept loc) result }
        // What the chain keeps is told without the volume.
        ensures chain { (op : O) → IsInChain self.now db.now →
            location_refusal self.now.bounds.tip.size self.now.bounds.inactivity_floor loc ≡ None →
            kept_item self.now.tree loc ≡ Some op →
            AnswersAs (λ value. value) (Ok (O.meaning.value op)) result × (vol.new ≡ vol.old) }
        // Of any contents, what it doesn't keep is that of an operation that the database has there.
        ensures told { let items = items_of O.spelling O.admits db.now.journal.items (V.state vol.old) in
            IfOk result (IsReadBelow O.meaning V.tells items db.now.state.size (kept_item self.now.tree loc) loc) }
        ensures stale_only { IsErrOf result Error.StaleRead → IsInChain self.now db.now → ⊥ }
        ensures fault { let items = items_of O.spelling O.admits db.now.journal.items (V.state vol.old) in
            IsInChain self.now db.now →
            location_refusal self.now.bounds.tip.size self.now.bounds.inactivity_floor loc ≡ None →
            IfErr result (IsChainFault V.tells items db.now.state.size (kept_item self.now.tree loc) loc) }
        ensures reads { Reads V.tells Error.Volume (V.state vol.old) (V.state vol.new) result }
    {
        match check_read(&self.bounds, db.commitment()) {
            Ok(()) => {}
            Err(error) => return Err(error),
        }
        let location = loc.as_u64();
        let size = self.bounds.tip.size.as_u64();
        let floor = self.bounds.inactivity_floor.as_u64();
        match check_location(location, size, floor) {
            Ok(()) => self.chain_value(vol, db, location),
            Err(error) => Err(error),
        }
    }

    /// The values at these locations, one after another.
    fn chain_values<V: Volume, C: Backing<Item = O>, H: Hasher<Digest = D>>(
        &self,
        vol: &mut V,
        db: &Keyless<F, O, C, H>,
        locs: &[Location<F>],
    ) -> Result<Vec<Option<O::Value>>, Error<F>>
    where
        O::Value: Drop,
        ensures listed { let admits = D.Read.admits tt in V.tells → (ops list : List O) →
            IsHeldFor F.shape H.hash O.meaning D.spelling admits O.spelling ops db.now (present (V.state vol.old)) →
            AllByRecursion (λ l. IsReadable (O.admits db.now.journal.items.codec) ops (kept_item self.now.tree l) l)
            locs.now → ops ≡ take (length ops) list →
            IsSealedOfItems F.shape H.hash O.spelling list self.now.tree → locations_refusal (length list) locs.now ≡
            None →
            let kept = kept_over self.now.tree.nodes.first db.now in AnswersAs (λ values. values.items)
            (unless_refused (first_refused (lost kept) locs.now) (map (value_at O.meaning list) locs.now)) result }
        ensures kept { IfOk result (λ values. AreKeptValues O.meaning (kept_item self.now.tree) locs.now values.items) }
        ensures unread { AllByRecursion (λ l. IsSome (kept_item self.now.tree l)) locs.now → vol.new ≡ vol.old }
        ensures told { let items = items_of O.spelling O.admits db.now.journal.items (V.state vol.old) in
            IfOk result (λ values. AreReadBelow O.meaning V.tells items db.now.state.size (kept_item self.now.tree)
            locs.now values.items) }
        ensures count { IfOk result (λ values. length values.items ≡ length locs.now) }
        ensures fault { let items = items_of O.spelling O.admits db.now.journal.items (V.state vol.old) in
            IfErr result (λ e. (l : ℕ) × Contains locs.now l
            × IsChainFault V.tells items db.now.state.size (kept_item self.now.tree l) l e) }
        ensures first { let items = items_of O.spelling O.admits db.now.journal.items (V.state vol.old) in
            IfErr result (IsFirstFault
            (λ l. IsAllowedBelow V.tells items db.now.state.size (kept_item self.now.tree l) l)
            (λ l. IsChainFault V.tells items db.now.state.size (kept_item self.now.tree l) l) locs.now) }
        ensures reads { Reads V.tells Error.Volume (V.state vol.old) (V.state vol.new) result }
    {
        let mut values = Vec::new(db.alloc);
        for i in 0..locs.len() {
            let location = locs[i].as_u64();
            let value = self.chain_value(vol, db, location)?;
            values.push(value)?;
        }
        Ok(values)
    }

    /// The values at several locations, which is the list of what `get` answers at each. It refuses, in this order:
    /// with `StaleRead` a database off the batch's chain, with `LocationOutOfOrder` the first pair that doesn't rise,
    /// with `LocationOutOfBounds` the last at or past the batch's size, with `BelowInactivityFloor` a first below its
    /// floor, and with `Journal(ItemPruned)` the first that neither chain nor database keeps.
    pub fn get_many<V: Volume, C: Backing<Item = O>, H: Hasher<Digest = D>>(
        &self,
        vol: &mut V,
        db: &Keyless<F, O, C, H>,
        locs: &[Location<F>],
    ) -> Result<Vec<Option<O::Value>>, Error<F>>
    where
        O::Value: Drop,
        ensures stale { (IsInChain self.now db.now → ⊥) → (result ≡ Err Error.StaleRead) × (vol.new ≡ vol.old) }
        ensures unfit { IsInChain self.now db.now → (why : Refusal) →
            floored_refusal self.now.bounds.tip.size self.now.bounds.inactivity_floor locs.now ≡ Some why →
            IsRefusedFor why result × (vol.new ≡ vol.old) }
        // Of a batch of a list, over a database that is held for a front of it, it is the list's answer.
        ensures answer { let admits = D.Read.admits tt in V.tells → IsInChain self.now db.now → (ops list : List O) →
            IsHeldFor F.shape H.hash O.meaning D.spelling admits O.spelling ops db.now (present (V.state vol.old)) →
            AllByRecursion (λ l. IsReadable (O.admits db.now.journal.items.codec) ops (kept_item self.now.tree l) l)
            locs.now → ops ≡ take (length ops) list →
            IsMerkleizedOf F.shape H.hash O.meaning O.spelling list self.now →
            let kept = kept_over self.now.tree.nodes.first db.now in AnswersAs (λ values. values.items)
            (batch_many_answer O.meaning list self.now.bounds.inactivity_floor kept locs.now) result }
        // What the chain keeps is told by it, and where it keeps all the volume isn't called.
        ensures kept { IfOk result (λ values. AreKeptValues O.meaning (kept_item self.now.tree) locs.now values.items) }
        ensures unread { AllByRecursion (λ l. IsSome (kept_item self.now.tree l)) locs.now → vol.new ≡ vol.old }
        // Of any contents, any other is that of an operation that the database has there.
        ensures told { let items = items_of O.spelling O.admits db.now.journal.items (V.state vol.old) in
            IfOk result (λ values. AreReadBelow O.meaning V.tells items db.now.state.size (kept_item self.now.tree)
            locs.now values.items) }
        ensures count { IfOk result (λ values. length values.items ≡ length locs.now) }
        ensures stale_only { IsErrOf result Error.StaleRead → IsInChain self.now db.now → ⊥ }
        ensures fault { let items = items_of O.spelling O.admits db.now.journal.items (V.state vol.old) in
            IsInChain self.now db.now →
            floored_refusal self.now.bounds.tip.size self.now.bounds.inactivity_floor locs.now ≡ None →
            IfErr result (λ e. (l : ℕ) × Contains locs.now l
            × IsChainFault V.tells items db.now.state.size (kept_item self.now.tree l) l e) }
        // It is that of the first that can't be read.
        ensures first { let items = items_of O.spelling O.admits db.now.journal.items (V.state vol.old) in
            IsInChain self.now db.now →
            floored_refusal self.now.bounds.tip.size self.now.bounds.inactivity_floor locs.now ≡ None →
            IfErr result (IsFirstFault
            (λ l. IsAllowedBelow V.tells items db.now.state.size (kept_item self.now.tree l) l)
            (λ l. IsChainFault V.tells items db.now.state.size (kept_item self.now.tree l) l) locs.now) }
        ensures reads { Reads V.tells Error.Volume (V.state vol.old) (V.state vol.new) result }
    {
        match check_read(&self.bounds, db.commitment()) {
            Ok(()) => {}
            Err(error) => return Err(error),
        }
        let size = self.bounds.tip.size.as_u64();
        let floor = self.bounds.inactivity_floor.as_u64();
        match check_locations_from(locs, size, floor) {
            Ok(()) => self.chain_values(vol, db, locs),
            Err(error) => Err(error),
        }
    }
}
