//! Reads of batches that collect: of what is collected, of the parent's chain, and of the database below.
use crate::locations::{check_location, check_locations_from};
use crate::sealed_reading::check_read;
use crate::{Keyless, KeylessOperation, MerkleizedBatch, UnmerkleizedBatch};
use chain_core::{Error, Pool};
use journal_base::Backing;
use tree_core::{Family, Hasher, Location};
use volume_base::Volume;

impl<F: Family, H: Hasher, O: KeylessOperation> UnmerkleizedBatch<F, H, O> {
    ghost use Rattle.std.specs.Prelude.{◌≡◌, ◌↔◌, ◌+◌, ◌<◌, ◌++◌, ℕ, List, length, map, take, slice_get, Some, None};
    ghost use Rattle.std.specs.Prelude.{Ok, Err, IsOk};
    ghost use Rattle.std.specs.Prelude.{IfOk, IfErr, IsErrOf, IsOkUnless, IsSome, Contains};
    ghost use Rattle.std.specs.List.{AllByRecursion};
    ghost use Rattle.std.specs.Option.{ForSome};
    ghost use Rattle.volume_base.specs.Moments.{present};
    ghost use Rattle.volume_base.specs.Volume.{Reads};
    ghost use Rattle.log_model.specs.Reads.{unless_refused, value_at};
    ghost use Rattle.log_model.specs.declared.refusal.Refusal.{Refusal};
    ghost use Rattle.journal_base.specs.Items.{items_of};
    ghost use Rattle.auth_journal.specs.Batched.{IsSealedOfItems};
    ghost use Rattle.chain_core.specs.Answers.{IsRefusedFor};
    ghost use Rattle.chain_core.specs.Reached.{linked_item};
    ghost use Rattle.chain_core.specs.Slots.{IsAlive};
    ghost use Rattle.chain_core.specs.declared.error.Error.{Error};
    ghost use Rattle.keyless_db.specs.Batches.{MerkleizedView, IsUnmerkleizedOf};
    ghost use Rattle.keyless_db.specs.DbView.{IsHeldFor, floor_in};
    ghost use Rattle.keyless_db.specs.Reading.{AnswersAs, AreKeptValues, AreReadBelow, IsReadable, IsReadBelow};
    ghost use Rattle.keyless_db.specs.Reading.{IsAllowedBelow, IsChainFault, IsFirstFault, pending_item};
    ghost use Rattle.keyless_db.specs.Reading.{batch_answer, batch_many_answer, chain_start, first_refused};
    ghost use Rattle.keyless_db.specs.Reading.{floored_refusal, kept_over, kept_value, location_refusal};
    ghost use Rattle.keyless_db.specs.Reading.{locations_refusal, lost, read_floor, read_states};

    /// The floor below which the batch isn't read, where the database stands at a state at which it is: its parent
    /// decides, or else its base. It refuses with `StaleRead`.
    fn readable<C: Backing<Item = O>>(
        &self,
        pool: &Pool<MerkleizedBatch<F, H::Digest, O>>,
        db: &Keyless<F, O, C, H>,
    ) -> Result<u64, Error<F>>
        requires { ForSome self.now.parent (IsAlive pool.now) }
        ensures stands { IsOk result ↔ Contains (read_states pool.now self.now) db.now.state }
        ensures stale { IsOkUnless result Error.StaleRead }
        ensures floor { IfOk result (λ floor. floor ≡ read_floor pool.now self.now (floor_in O.meaning db.now)) }
    {
        let base = self.base.size.as_u64();
        match self.parent {
            Some(id) => {
                let bounds = pool.item(id).bounds();
                match check_read(bounds, db.commitment()) {
                    Ok(()) => Ok(bounds.inactivity_floor.as_u64().min(base)),
                    Err(error) => Err(error),
                }
            }
            None => match self.base.compatible(&(), db.commitment()) {
                Ok(_) => Ok(db.inactivity_floor_loc().as_u64().min(base)),
                Err(error) => Err(error),
            },
        }
    }

    /// The value of an operation that is collected.
    fn collected_value(&self, index: usize) -> Result<Option<O::Value>, Error<F>>
        requires { index < length self.now.tree.items }
        ensures value { (op : O) → slice_get self.now.tree.items index ≡ Some op → IfOk result
            (λ value. value ≡ O.meaning.value op) }
        ensures memory { IsOkUnless result Error.Memory }
    {
        match self.tree.items()[index].copied_value() {
            Ok(value) => Ok(value),
            Err(_) => Err(Error::Memory),
        }
    }

    /// The value at a location below the batch's size: of what is collected, of the parent's chain, or of the database.
    /// Where none of them keeps one it refuses with `Journal(ItemPruned)`.
    fn own_value<V: Volume, C: Backing<Item = O>>(
        &self,
        vol: &mut V,
        pool: &Pool<MerkleizedBatch<F, H::Digest, O>>,
        db: &Keyless<F, O, C, H>,
        location: u64,
    ) -> Result<Option<O::Value>, Error<F>>
        requires parent { ForSome self.now.parent (IsAlive pool.now) }
        requires within { location < self.now.base.size + length self.now.tree.items }
        // Of a batch on a list, over a database that is held for a front of it, it is that of the list with what is
        // collected.
        ensures listed { let admits = H.Digest.Read.admits tt in V.tells → (ops list : List O) →
            IsHeldFor F.shape H.hash O.meaning H.Digest.spelling admits O.spelling ops db.now
            (present (V.state vol.old)) →
            IsReadable (O.admits db.now.journal.items.codec) ops (pending_item pool.now self.now location) location →
            ops ≡ take (length ops) list → IsUnmerkleizedOf F.shape H.hash O.meaning O.spelling list self.now →
            ((p : MerkleizedView F H.Digest O) → linked_item pool.now self.now.parent ≡ Some p →
            IsSealedOfItems F.shape H.hash O.spelling list p.tree) →
            let kept = kept_over (chain_start pool.now self.now) db.now in
            AnswersAs (λ value. value) (kept_value O.meaning (list ++ self.now.tree.items) kept location) result }
        // What is collected, or kept by the parent's chain, is told without the volume.
        ensures chain { (op : O) → pending_item pool.now self.now location ≡ Some op →
            AnswersAs (λ value. value) (Ok (O.meaning.value op)) result × (vol.new ≡ vol.old) }
        ensures told { let items = items_of O.spelling O.admits db.now.journal.items (V.state vol.old) in
            IfOk result (IsReadBelow O.meaning V.tells items db.now.state.size
            (pending_item pool.now self.now location) location) }
        ensures fault { let items = items_of O.spelling O.admits db.now.journal.items (V.state vol.old) in
            IfErr result
            (IsChainFault V.tells items db.now.state.size (pending_item pool.now self.now location) location) }
        ensures reads { Reads V.tells Error.Volume (V.state vol.old) (V.state vol.new) result }
    {
        let base = self.base.size.as_u64();
        if location >= base {
            return self.collected_value((location - base) as usize);
        }
        match self.parent {
            Some(id) => pool.item(id).chain_value(vol, db, location),
            None => db.value_before(vol, location),
        }
    }

    /// The value at a location of what the batch has collected so far, with all before it. It refuses, in this order:
    /// with `StaleRead` a database off the chain, with `LocationOutOfBounds` at or past the size, with
    /// `BelowInactivityFloor` what isn't collected below the floor that it builds on, and with `Journal(ItemPruned)`
    /// where neither chain nor database keeps the operation.
    pub fn get<V: Volume, C: Backing<Item = O>>(
        &self,
        vol: &mut V,
        pool: &Pool<MerkleizedBatch<F, H::Digest, O>>,
        db: &Keyless<F, O, C, H>,
        loc: Location<F>,
    ) -> Result<Option<O::Value>, Error<F>>
        requires { ForSome self.now.parent (IsAlive pool.now) }
        ensures stale { (Contains (read_states pool.now self.now) db.now.state → ⊥) →
            (result ≡ Err Error.StaleRead) × (vol.new ≡ vol.old) }
        ensures unfit { Contains (read_states pool.now self.now) db.now.state → (why : Refusal) →
            location_refusal (self.now.base.size + length self.now.tree.items)
            (read_floor pool.now self.now (floor_in O.meaning db.now)) loc
            ≡ Some why → IsRefusedFor why result × (vol.new ≡ vol.old) }
        // Of a batch on a list, over a database that is held for a front of it, it is the answer of the list with what
        // is collected.
        ensures answer { let admits = H.Digest.Read.admits tt in V.tells → Contains
            (read_states pool.now self.now) db.now.state →
            (ops list : List O) →
            IsHeldFor F.shape H.hash O.meaning H.Digest.spelling admits O.spelling ops db.now
            (present (V.state vol.old)) →
            IsReadable (O.admits db.now.journal.items.codec) ops (pending_item pool.now self.now loc) loc →
            ops ≡ take (length ops) list → IsUnmerkleizedOf F.shape H.hash O.meaning O.spelling list self.now →
            ((p : MerkleizedView F H.Digest O) → linked_item pool.now self.now.parent ≡ Some p →
            IsSealedOfItems F.shape H.hash O.spelling list p.tree) →
            let kept = kept_over (chain_start pool.now self.now) db.now in
            let floor = read_floor pool.now self.now (floor_in O.meaning db.now) in
            AnswersAs (λ value. value) (batch_answer O.meaning (list ++ self.now.tree.items) floor kept loc) result }
        // What is collected, or kept by the parent's chain, is told without the volume.
        ensures chain { (op : O) → Contains (read_states pool.now self.now) db.now.state →
            location_refusal (self.now.base.size + length self.now.tree.items)
            (read_floor pool.now self.now (floor_in O.meaning db.now)) loc ≡ None →
            pending_item pool.now self.now loc ≡ Some op →
            AnswersAs (λ value. value) (Ok (O.meaning.value op)) result × (vol.new ≡ vol.old) }
        // Of any contents, any other is that of an operation that the database has there.
        ensures told { let items = items_of O.spelling O.admits db.now.journal.items (V.state vol.old) in
            IfOk result
            (IsReadBelow O.meaning V.tells items db.now.state.size (pending_item pool.now self.now loc) loc) }
        ensures stale_only { IsErrOf result Error.StaleRead →
            Contains (read_states pool.now self.now) db.now.state → ⊥ }
        ensures fault { let items = items_of O.spelling O.admits db.now.journal.items (V.state vol.old) in
            Contains (read_states pool.now self.now) db.now.state →
            location_refusal (self.now.base.size + length self.now.tree.items)
            (read_floor pool.now self.now (floor_in O.meaning db.now)) loc ≡ None →
            IfErr result (IsChainFault V.tells items db.now.state.size (pending_item pool.now self.now loc) loc) }
        ensures reads { Reads V.tells Error.Volume (V.state vol.old) (V.state vol.new) result }
    {
        let floor = match self.readable(pool, db) {
            Ok(floor) => floor,
            Err(error) => return Err(error),
        };
        let location = loc.as_u64();
        let size = self.size().as_u64();
        match check_location(location, size, floor) {
            Ok(()) => self.own_value(vol, pool, db, location),
            Err(error) => Err(error),
        }
    }

    /// The values at these locations below the batch's size, one after another.
    fn own_values<V: Volume, C: Backing<Item = O>>(
        &self,
        vol: &mut V,
        pool: &Pool<MerkleizedBatch<F, H::Digest, O>>,
        db: &Keyless<F, O, C, H>,
        locs: &[Location<F>],
    ) -> Result<Vec<Option<O::Value>>, Error<F>>
    where
        O::Value: Drop,
        requires parent { ForSome self.now.parent (IsAlive pool.now) }
        requires within { locations_refusal (self.now.base.size + length self.now.tree.items) locs.now ≡ None }
        ensures listed { let admits = H.Digest.Read.admits tt in V.tells → (ops list : List O) →
            IsHeldFor F.shape H.hash O.meaning H.Digest.spelling admits O.spelling ops db.now
            (present (V.state vol.old)) →
            AllByRecursion (λ l. IsReadable (O.admits db.now.journal.items.codec) ops
            (pending_item pool.now self.now l) l) locs.now →
            ops ≡ take (length ops) list → IsUnmerkleizedOf F.shape H.hash O.meaning O.spelling list self.now →
            ((p : MerkleizedView F H.Digest O) → linked_item pool.now self.now.parent ≡ Some p →
            IsSealedOfItems F.shape H.hash O.spelling list p.tree) →
            let kept = kept_over (chain_start pool.now self.now) db.now in AnswersAs (λ values. values.items)
            (unless_refused (first_refused (lost kept) locs.now)
            (map (value_at O.meaning (list ++ self.now.tree.items)) locs.now)) result }
        ensures kept { IfOk result (λ values.
            AreKeptValues O.meaning (pending_item pool.now self.now) locs.now values.items) }
        ensures unread { AllByRecursion (λ l. IsSome (pending_item pool.now self.now l)) locs.now → vol.new ≡ vol.old }
        ensures told { let items = items_of O.spelling O.admits db.now.journal.items (V.state vol.old) in
            IfOk result (λ values. AreReadBelow O.meaning V.tells items db.now.state.size
            (pending_item pool.now self.now) locs.now values.items) }
        ensures count { IfOk result (λ values. length values.items ≡ length locs.now) }
        ensures fault { let items = items_of O.spelling O.admits db.now.journal.items (V.state vol.old) in
            IfErr result (λ e. (l : ℕ) × Contains locs.now l
            × IsChainFault V.tells items db.now.state.size (pending_item pool.now self.now l) l e) }
        ensures first { let items = items_of O.spelling O.admits db.now.journal.items (V.state vol.old) in
            IfErr result (IsFirstFault
            (λ l. IsAllowedBelow V.tells items db.now.state.size (pending_item pool.now self.now l) l)
            (λ l. IsChainFault V.tells items db.now.state.size (pending_item pool.now self.now l) l) locs.now) }
        ensures reads { Reads V.tells Error.Volume (V.state vol.old) (V.state vol.new) result }
    {
        let mut values = Vec::new(db.alloc);
        for i in 0..locs.len() {
            let location = locs[i].as_u64();
            let value = self.own_value(vol, pool, db, location)?;
            values.push(value)?;
        }
        Ok(values)
    }

    /// The values at several locations, which is the list of what `get` answers at each. It refuses, in this order:
    /// with `StaleRead` a database off the chain, with `LocationOutOfOrder` the first pair that doesn't rise, with
    /// `LocationOutOfBounds` the last at or past the size, with `BelowInactivityFloor` a first that isn't collected and
    /// lies below the floor that the batch builds on, and with `Journal(ItemPruned)` the first that neither chain nor
    /// database keeps.
    pub fn get_many<V: Volume, C: Backing<Item = O>>(
        &self,
        vol: &mut V,
        pool: &Pool<MerkleizedBatch<F, H::Digest, O>>,
        db: &Keyless<F, O, C, H>,
        locs: &[Location<F>],
    ) -> Result<Vec<Option<O::Value>>, Error<F>>
    where
        O::Value: Drop,
        requires { ForSome self.now.parent (IsAlive pool.now) }
        ensures stale { (Contains (read_states pool.now self.now) db.now.state → ⊥) →
            (result ≡ Err Error.StaleRead) × (vol.new ≡ vol.old) }
        ensures unfit { Contains (read_states pool.now self.now) db.now.state → (why : Refusal) →
            floored_refusal (self.now.base.size + length self.now.tree.items)
            (read_floor pool.now self.now (floor_in O.meaning db.now)) locs.now
            ≡ Some why → IsRefusedFor why result × (vol.new ≡ vol.old) }
        // Of a batch on a list, over a database that is held for a front of it, it is the answer of the list with what
        // is collected.
        ensures answer { let admits = H.Digest.Read.admits tt in V.tells → Contains
            (read_states pool.now self.now) db.now.state →
            (ops list : List O) →
            IsHeldFor F.shape H.hash O.meaning H.Digest.spelling admits O.spelling ops db.now
            (present (V.state vol.old)) →
            AllByRecursion (λ l. IsReadable (O.admits db.now.journal.items.codec) ops
            (pending_item pool.now self.now l) l) locs.now →
            ops ≡ take (length ops) list → IsUnmerkleizedOf F.shape H.hash O.meaning O.spelling list self.now →
            ((p : MerkleizedView F H.Digest O) → linked_item pool.now self.now.parent ≡ Some p →
            IsSealedOfItems F.shape H.hash O.spelling list p.tree) →
            let kept = kept_over (chain_start pool.now self.now) db.now in
            let floor = read_floor pool.now self.now (floor_in O.meaning db.now) in
            AnswersAs (λ values. values.items)
            (batch_many_answer O.meaning (list ++ self.now.tree.items) floor kept locs.now) result }
        // What is collected, or kept by the parent's chain, is told by it, and where all is the volume isn't called.
        ensures kept { IfOk result (λ values.
            AreKeptValues O.meaning (pending_item pool.now self.now) locs.now values.items) }
        ensures unread { AllByRecursion (λ l. IsSome (pending_item pool.now self.now l)) locs.now → vol.new ≡ vol.old }
        // Of any contents, any other is that of an operation that the database has there.
        ensures told { let items = items_of O.spelling O.admits db.now.journal.items (V.state vol.old) in
            IfOk result (λ values. AreReadBelow O.meaning V.tells items db.now.state.size
            (pending_item pool.now self.now) locs.now values.items) }
        ensures count { IfOk result (λ values. length values.items ≡ length locs.now) }
        ensures stale_only { IsErrOf result Error.StaleRead →
            Contains (read_states pool.now self.now) db.now.state → ⊥ }
        ensures fault { let items = items_of O.spelling O.admits db.now.journal.items (V.state vol.old) in
            Contains (read_states pool.now self.now) db.now.state →
            floored_refusal (self.now.base.size + length self.now.tree.items)
            (read_floor pool.now self.now (floor_in O.meaning db.now)) locs.now ≡ None →
            IfErr result (λ e. (l : ℕ) × Contains locs.now l
            × IsChainFault V.tells items db.now.state.size (pending_item pool.now self.now l) l e) }
        // It is that of the first that can't be read.
        ensures first { let items = items_of O.spelling O.admits db.now.journal.items (V.state vol.old) in
            Contains (read_states pool.now self.now) db.now.state →
            floored_refusal (self.now.base.size + length self.now.tree.items)
            (read_floor pool.now self.now (floor_in O.meaning db.now)) locs.now ≡ None →
            IfErr result (IsFirstFault
            (λ l. IsAllowedBelow V.tells items db.now.state.size (pending_item pool.now self.now l) l)
            (λ l. IsChainFault V.tells items db.now.state.size (pending_item pool.now self.now l) l) locs.now) }
        ensures reads { Reads V.tells Error.Volume (V.state vol.old) (V.state vol.new) result }
    {
        let floor = match self.readable(pool, db) {
            Ok(floor) => floor,
            Err(error) => return Err(error),
        };
        let size = self.size().as_u64();
        match check_locations_from(locs, size, floor) {
            Ok(()) => self.own_values(vol, pool, db, locs),
            Err(error) => Err(error),
        }
    }
}
