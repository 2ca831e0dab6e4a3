//! Reads of a database.
use crate::locations::check_locations;
use crate::{Keyless, KeylessOperation};
use chain_core::Error;
use journal_base::{Backing, Contiguous};
use tree_core::{Family, Hasher, Location};
use volume_base::{JournalError, Volume};

impl<F: Family, O: KeylessOperation, C: Backing<Item = O>, H: Hasher> Keyless<F, O, C, H> {
    ghost use Rattle.std.specs.Prelude.{◌≡◌, ◌⊎◌, ℕ, ◌<◌, ◌≤◌, List, length, map, take};
    ghost use Rattle.std.specs.Prelude.{Some, None, slice_get, Err, IfOk};
    ghost use Rattle.std.specs.Prelude.{IfErr, Contains};
    ghost use Rattle.std.specs.List.{AllByRecursion};
    ghost use Rattle.journal_base.specs.Items.{items_of};
    ghost use Rattle.volume_base.specs.Moments.{present};
    ghost use Rattle.volume_base.specs.Volume.{Reads};
    ghost use Rattle.volume_base.specs.declared.error.JournalError.TheVariants as journal_error;
    ghost use Rattle.log_model.specs.Reads.{many_answer, read_answer, unless_refused, value_at};
    ghost use Rattle.log_model.specs.declared.refusal.Refusal.{Refusal};
    ghost use Rattle.log_model.specs.declared.refusal.Refusal.TheVariants.{ItemPruned};
    ghost use Rattle.chain_core.specs.Answers.{IsRefusedFor};
    ghost use Rattle.chain_core.specs.declared.error.Error.{Error};
    ghost use Rattle.keyless_db.specs.DbView.{IsHeldFor};
    ghost use Rattle.keyless_db.specs.Reading.{AnswersAs, AreReadAt, IsAllowedAt, IsChainFault, IsFirstFault};
    ghost use Rattle.keyless_db.specs.Reading.{IsReadAt, IsReadFault};
    ghost use Rattle.keyless_db.specs.Reading.{below_start};
    ghost use Rattle.keyless_db.specs.Reading.{first_refused, from_start, kept_over, kept_value, locations_refusal};

    /// The value of the operation that the log has at a location; of a commit, its metadata.
    pub(crate) fn value<V: Volume>(
        &self,
        vol: &mut V,
        location: u64,
    ) -> Result<Option<O::Value>, Error<F>>
        // Of a held database it is that of the list's operation.
        ensures listed { let admits = H.Digest.Read.admits tt in V.tells → (ops : List O) (op : O) →
            IsHeldFor F.shape H.hash O.meaning H.Digest.spelling admits O.spelling ops self.now
            (present (V.state vol.old)) →
            slice_get ops location ≡ Some op → O.admits self.now.journal.items.codec op →
            AnswersAs (λ value. value) (from_start self.now.journal.items.start location (O.meaning.value op)) result }
        // Of any contents it is that of an operation that stands there.
        ensures told { let items = items_of O.spelling O.admits self.now.journal.items (V.state vol.old) in
            IfOk result (λ value. V.tells → IsReadAt O.meaning items location value) }
        ensures fault { let items = items_of O.spelling O.admits self.now.journal.items (V.state vol.old) in
            IfErr result (IsReadFault V.tells items location) }
        ensures reads { Reads V.tells Error.Volume (V.state vol.old) (V.state vol.new) result }
    {
        match self.journal.read(vol, location) {
            Ok(op) => Ok(op.into_value()),
            Err(error) => Err(Error::from(error)),
        }
    }

    /// The value of the operation at a location of a longer list that a chain keeps from `first` on, before that place.
    /// It refuses with `Journal(ItemPruned)` below the start, and at or past the size.
    pub(crate) fn value_before<V: Volume>(
        &self,
        vol: &mut V,
        location: u64,
    ) -> Result<Option<O::Value>, Error<F>>
        // Of a held database of a front of a list, it is the list's.
        ensures listed { let admits = H.Digest.Read.admits tt in V.tells → (ops list : List O) (first : ℕ) →
            IsHeldFor F.shape H.hash O.meaning H.Digest.spelling admits O.spelling ops self.now
            (present (V.state vol.old)) →
            ((op : O) → slice_get ops location ≡ Some op → O.admits self.now.journal.items.codec op) →
            ops ≡ take (length ops) list → location < first →
            AnswersAs (λ value. value) (kept_value O.meaning list (kept_over first self.now) location) result }
        ensures nowhere { self.now.state.size ≤ location →
            (result ≡ Err (Error.Journal (journal_error.ItemPruned location))) × (vol.new ≡ vol.old) }
        ensures told { let items = items_of O.spelling O.admits self.now.journal.items (V.state vol.old) in
            IfOk result (λ value. (location < self.now.state.size)
            × (V.tells → IsReadAt O.meaning items location value)) }
        ensures fault { let items = items_of O.spelling O.admits self.now.journal.items (V.state vol.old) in
            IfErr result (IsChainFault V.tells items self.now.state.size None location) }
        ensures reads { Reads V.tells Error.Volume (V.state vol.old) (V.state vol.new) result }
    {
        if location >= self.state.size.as_u64() {
            return Err(Error::Journal(JournalError::ItemPruned(location)));
        }
        self.value(vol, location)
    }

    /// The value of the operation at a location; of a commit, its metadata. It refuses, in this order, with
    /// `LocationOutOfBounds` at or past the size, with `Journal(ItemPruned)` below the start, and with
    /// `Journal(Corruption)` where no operation is spelled there.
    pub fn get<V: Volume>(
        &self,
        vol: &mut V,
        loc: Location<F>,
    ) -> Result<Option<O::Value>, Error<F>>
        // Of a held database, whose operation there may be such, it is the list's answer.
        ensures answer { let admits = H.Digest.Read.admits tt in V.tells → (ops : List O) →
            IsHeldFor F.shape H.hash O.meaning H.Digest.spelling admits O.spelling ops self.now
            (present (V.state vol.old)) →
            ((op : O) → slice_get ops loc ≡ Some op → O.admits self.now.journal.items.codec op) →
            AnswersAs (λ value. value) (read_answer O.meaning ops self.now.journal.items.start ItemPruned loc) result }
        // Of any contents it is that of an operation that stands there.
        ensures told { let items = items_of O.spelling O.admits self.now.journal.items (V.state vol.old) in
            IfOk result (λ value. V.tells → IsReadAt O.meaning items loc value) }
        ensures outside { self.now.state.size ≤ loc →
            (result ≡ Err (Error.LocationOutOfBounds loc self.now.state.size)) × (vol.new ≡ vol.old) }
        ensures fault { let items = items_of O.spelling O.admits self.now.journal.items (V.state vol.old) in
            IfErr result (λ e. (self.now.state.size ≤ loc) ⊎ IsReadFault V.tells items loc e) }
        ensures reads { Reads V.tells Error.Volume (V.state vol.old) (V.state vol.new) result }
    {
        let size = self.state.size.as_u64();
        let location = loc.as_u64();
        if location >= size {
            return Err(Error::LocationOutOfBounds(Location::new(location), Location::new(size)));
        }
        self.value(vol, location)
    }

    /// The values at these locations, one after another.
    fn values<V: Volume>(
        &self,
        vol: &mut V,
        locs: &[Location<F>],
    ) -> Result<Vec<Option<O::Value>>, Error<F>>
    where
        O::Value: Drop,
        // Of a held database, at locations that rise within its list, they are the list's, where none is below the
        // start.
        ensures listed { let admits = H.Digest.Read.admits tt in V.tells → (ops : List O) →
            IsHeldFor F.shape H.hash O.meaning H.Digest.spelling admits O.spelling ops self.now
            (present (V.state vol.old)) →
            AllByRecursion (λ l. (op : O) → slice_get ops l ≡ Some op → O.admits self.now.journal.items.codec op)
            locs.now → locations_refusal (length ops) locs.now ≡ None →
            AnswersAs (λ values. values.items)
            (unless_refused (first_refused (below_start self.now.journal.items.start) locs.now)
            (map (value_at O.meaning ops) locs.now)) result }
        ensures told { let items = items_of O.spelling O.admits self.now.journal.items (V.state vol.old) in
            IfOk result (λ values. V.tells → AreReadAt O.meaning items locs.now values.items) }
        ensures count { IfOk result (λ values. length values.items ≡ length locs.now) }
        ensures fault { let items = items_of O.spelling O.admits self.now.journal.items (V.state vol.old) in
            IfErr result (λ e. (l : ℕ) × Contains locs.now l × IsReadFault V.tells items l e) }
        ensures first { let items = items_of O.spelling O.admits self.now.journal.items (V.state vol.old) in
            IfErr result (IsFirstFault (λ l. V.tells → IsAllowedAt items l) (IsReadFault V.tells items) locs.now) }
        ensures reads { Reads V.tells Error.Volume (V.state vol.old) (V.state vol.new) result }
    {
        let mut values = Vec::new(self.alloc);
        for i in 0..locs.len() {
            let location = locs[i].as_u64();
            let value = self.value(vol, location)?;
            values.push(value)?;
        }
        Ok(values)
    }

    /// The values at several locations, which is the list of what `get` answers at each. It refuses, in this order:
    /// with `LocationOutOfOrder` the first pair that doesn't rise, with `LocationOutOfBounds` the last at or past the
    /// size, and with `Journal(ItemPruned)` the first below the start.
    pub fn get_many<V: Volume>(
        &self,
        vol: &mut V,
        locs: &[Location<F>],
    ) -> Result<Vec<Option<O::Value>>, Error<F>>
    where
        O::Value: Drop,
        // Of a held database, whose operations there may be such, it is the list's answer.
        ensures answer { let admits = H.Digest.Read.admits tt in V.tells → (ops : List O) →
            IsHeldFor F.shape H.hash O.meaning H.Digest.spelling admits O.spelling ops self.now
            (present (V.state vol.old)) →
            AllByRecursion (λ l. (op : O) → slice_get ops l ≡ Some op → O.admits self.now.journal.items.codec op)
            locs.now →
            AnswersAs (λ values. values.items)
            (many_answer O.meaning ops self.now.journal.items.start ItemPruned locs.now) result }
        ensures unfit { (why : Refusal) → locations_refusal self.now.state.size locs.now ≡ Some why →
            IsRefusedFor why result × (vol.new ≡ vol.old) }
        // Of any contents each is that of an operation that stands there.
        ensures told { let items = items_of O.spelling O.admits self.now.journal.items (V.state vol.old) in
            IfOk result (λ values. V.tells → AreReadAt O.meaning items locs.now values.items) }
        ensures count { IfOk result (λ values. length values.items ≡ length locs.now) }
        ensures fault { let items = items_of O.spelling O.admits self.now.journal.items (V.state vol.old) in
            locations_refusal self.now.state.size locs.now ≡ None →
            IfErr result (λ e. (l : ℕ) × Contains locs.now l × IsReadFault V.tells items l e) }
        // It is that of the first that can't be read.
        ensures first { let items = items_of O.spelling O.admits self.now.journal.items (V.state vol.old) in
            locations_refusal self.now.state.size locs.now ≡ None →
            IfErr result (IsFirstFault (λ l. V.tells → IsAllowedAt items l) (IsReadFault V.tells items) locs.now) }
        ensures reads { Reads V.tells Error.Volume (V.state vol.old) (V.state vol.new) result }
    {
        let size = self.state.size.as_u64();
        match check_locations(locs, size) {
            Ok(()) => self.values(vol, locs),
            Err(error) => Err(error),
        }
    }
}
