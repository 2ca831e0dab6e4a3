//! Proofs of a database's operations, at the present size and at fewer.
use crate::errors::from_joined;
use crate::{Keyless, KeylessOperation};
use chain_core::Error;
use journal_base::{Backing, Contiguous};
use std::num::NonZeroU64;
use tree_core::{Family, Hasher, Location, Proof};
use volume_base::{JournalError, Volume};

impl<F: Family, O: KeylessOperation, C: Backing<Item = O>, H: Hasher> Keyless<F, O, C, H> {
    ghost use Rattle.std.specs.Prelude.{◌≡◌, ◌⊎◌, ℕ, ◌<◌, ◌≤◌, ◌+◌, ◌-◌, List, Some, length, slice_get, Err, IsErrOf, IfErr};
    ghost use Rattle.std.specs.NonZero.{non_zero_u64_get};
    ghost use Rattle.journal_base.specs.Items.{IsCorrupt, items_of};
    ghost use Rattle.volume_base.specs.Moments.{present};
    ghost use Rattle.volume_base.specs.Volume.{Reads};
    ghost use Rattle.volume_base.specs.declared.error.JournalError.TheVariants.{Corruption};
    ghost use Rattle.tree_shape.specs.Pins.{pins};
    ghost use Rattle.tree_store.specs.declared.error.Error as tree_error;
    ghost use Rattle.tree_store.specs.declared.error.Error.TheVariants.{RangeOutOfBounds};
    ghost use Rattle.merkle_full.specs.Reading.{peaks_answer};
    ghost use Rattle.auth_journal.specs.Errors.{IsLifted};
    ghost use Rattle.auth_journal.specs.Proving.{ArePeaksAt};
    ghost use Rattle.auth_journal.specs.Reading.{AreAdmitted};
    ghost use Rattle.log_model.specs.Proofs.{proof_refusal, proof_answer, proof_end};
    ghost use Rattle.log_model.specs.Reads.{unless_refused};
    ghost use Rattle.chain_core.specs.declared.error.Error.{Error};
    ghost use Rattle.keyless_db.specs.DbView.{IsHeldFor};
    ghost use Rattle.keyless_db.specs.Errors.{IsFromJoined};
    ghost use Rattle.keyless_db.specs.Reading.{AnswersAs, AreAdmittedFor, IsCorruptFor, IsFloorFault, IsNoCommitAt, LiftsTree, floor_refusal, late_refusal};

    /// The floor of the commit that ends the first operations, so many. It refuses with `Journal(ItemPruned)` one that
    /// isn't kept, and with `HistoricalFloorPruned` what is no commit.
    fn floor_at<V: Volume>(&self, vol: &mut V, count: u64) -> Result<u64, Error<F>>
        requires { 0 < count }
        ensures floor { let admits = H.Digest.Read.admits tt in V.tells → (ops : List O) (op : O) →
            IsHeldFor F.shape H.hash O.meaning H.Digest.spelling admits O.spelling ops self.now
            (present (V.state vol.old)) →
            slice_get ops (count - 1) ≡ Some op → O.admits self.now.journal.items.codec op →
            AnswersAs Some (unless_refused (floor_refusal self.now.journal.items.start count (O.meaning.floor op))
            (O.meaning.floor op)) result }
        ensures fault { let items = items_of O.spelling O.admits self.now.journal.items (V.state vol.old) in
            IfErr result (IsFloorFault V.tells O.meaning items count) }
        ensures uncounted { (n : ℕ) → IsErrOf result (Error.HistoricalFloorPruned n) →
            (V.state vol.new).faults ≡ (V.state vol.old).faults }
        ensures reads { Reads V.tells Error.Volume (V.state vol.old) (V.state vol.new) result }
    {
        match self.journal.read(vol, count - 1) {
            Ok(op) => match op.commit_floor() {
                Some(floor) => Ok(floor),
                None => Err(Error::HistoricalFloorPruned(Location::new(count))),
            },
            Err(error) => Err(Error::from(error)),
        }
    }

    /// The proof of the operations from `start` on in the tree as it was at `count`, whose last is a commit of this
    /// floor, and these operations: at most `max_ops`. It refuses with `Merkle(RangeOutOfBounds)` a start at or past
    /// the count, and with `Journal(ItemPruned)` one that isn't kept.
    fn proof_under<V: Volume>(
        &self,
        vol: &mut V,
        count: u64,
        floor: u64,
        start: Location<F>,
        max_ops: NonZeroU64,
    ) -> Result<(Proof<F, H::Digest>, Vec<O>), Error<F>>
        requires some { 0 < count }
        requires within { count ≤ self.now.state.size }
        ensures answer { let admits = H.Digest.Read.admits tt in V.tells → (ops : List O) (op : O) →
            IsHeldFor F.shape H.hash O.meaning H.Digest.spelling admits O.spelling ops self.now
            (present (V.state vol.old)) →
            AreAdmitted (O.admits self.now.journal.items.codec) ops start
            (proof_end count start (non_zero_u64_get max_ops)) →
            slice_get ops (count - 1) ≡ Some op → O.meaning.floor op ≡ Some floor →
            AnswersAs (λ made. (made.0, made.1.items))
            (unless_refused (late_refusal self.now.journal.items.start count start)
            (proof_answer F.shape H.hash O.meaning ops count start
            (proof_end count start (non_zero_u64_get max_ops)))) result }
        ensures corrupt { let admits = H.Digest.Read.admits tt in
            let items = items_of O.spelling O.admits self.now.journal.items (V.state vol.old) in V.tells →
            (ops : List O) →
            IsHeldFor F.shape H.hash O.meaning H.Digest.spelling admits O.spelling ops self.now
            (present (V.state vol.old)) →
            (p : ℕ) → IsErrOf result (Error.Journal (Corruption p)) →
            ((start ≤ p) × (p < proof_end count start (non_zero_u64_get max_ops))) × IsCorrupt items p }
        ensures no_commit { (n : ℕ) → IsErrOf result (Error.HistoricalFloorPruned n) → ⊥ }
        ensures errors { IfErr result (IsFromJoined IsLifted) }
        ensures reads { Reads V.tells Error.Volume (V.state vol.old) (V.state vol.new) result }
    {
        let first = start.as_u64();
        if first >= count {
            return Err(Error::Merkle(tree_core::Error::RangeOutOfBounds(Location::new(first))));
        }
        let (kept, _) = self.journal.bounds();
        if first < kept {
            return Err(Error::Journal(JournalError::ItemPruned(first)));
        }
        let inactive = F::inactive_peaks(Location::new(count), Location::new(floor));
        let leaves = Location::new(count);
        match self
            .journal
            .historical_proof(vol, leaves, start, max_ops, inactive)
        {
            Ok(made) => Ok(made),
            Err(error) => Err(from_joined(error)),
        }
    }

    /// The proof of the operations from `start` on in the tree as it was at `op_count`, and these operations: at most
    /// `max_ops`. It refuses, in this order: with `Merkle(RangeOutOfBounds)` a size of 0 or past the end, with
    /// `Journal(ItemPruned)` one whose last operation isn't kept, with `HistoricalFloorPruned` one that no commit ends;
    /// with `Merkle(RangeOutOfBounds)` a start at or past it, and with `Journal(ItemPruned)` one that isn't kept.
    pub fn historical_proof<V: Volume>(
        &self,
        vol: &mut V,
        op_count: Location<F>,
        start: Location<F>,
        max_ops: NonZeroU64,
    ) -> Result<(Proof<F, H::Digest>, Vec<O>), Error<F>>
        // Of a held database, whose operations that are read may be such, it is the list's answer: no node that is
        // wanted is missing.
        ensures answer { let admits = H.Digest.Read.admits tt in V.tells → (ops : List O) →
            IsHeldFor F.shape H.hash O.meaning H.Digest.spelling admits O.spelling ops self.now
            (present (V.state vol.old)) →
            AreAdmittedFor (O.admits self.now.journal.items.codec) ops op_count start (non_zero_u64_get max_ops) →
            AnswersAs (λ made. (made.0, made.1.items))
            (unless_refused (proof_refusal O.meaning ops self.now.journal.items.start op_count start)
            (proof_answer F.shape H.hash O.meaning ops op_count start
            (proof_end op_count start (non_zero_u64_get max_ops)))) result }
        ensures size { (op_count ≡ 0) ⊎ (self.now.state.size < op_count) →
            (result ≡ Err (Error.Merkle (RangeOutOfBounds op_count))) × (vol.new ≡ vol.old) }
        // Of a held database, that bytes are no operation is said only of some that are read and are none.
        ensures corrupt { let admits = H.Digest.Read.admits tt in
            let items = items_of O.spelling O.admits self.now.journal.items (V.state vol.old) in V.tells →
            (ops : List O) →
            IsHeldFor F.shape H.hash O.meaning H.Digest.spelling admits O.spelling ops self.now
            (present (V.state vol.old)) →
            (p : ℕ) → IsErrOf result (Error.Journal (Corruption p)) →
            IsCorruptFor items op_count start (non_zero_u64_get max_ops) p }
        // Of any contents, a size that no commit ends ends with an operation that is none.
        ensures no_commit { let items = items_of O.spelling O.admits self.now.journal.items (V.state vol.old) in
            (n : ℕ) → IsErrOf result (Error.HistoricalFloorPruned n) →
            (n ≡ op_count) × (V.tells → IsNoCommitAt O.meaning items (op_count - 1)) }
        // That no commit ends a size is no failure of the volume.
        ensures uncounted { (n : ℕ) → IsErrOf result (Error.HistoricalFloorPruned n) →
            (V.state vol.new).faults ≡ (V.state vol.old).faults }
        // Of any database, whatever the volume holds.
        ensures errors { IfErr result (λ e. IsFromJoined IsLifted e ⊎ (e ≡ Error.HistoricalFloorPruned op_count)) }
        ensures reads { Reads V.tells Error.Volume (V.state vol.old) (V.state vol.new) result }
    {
        let count = op_count.as_u64();
        if count == 0 || count > self.state.size.as_u64() {
            return Err(Error::Merkle(tree_core::Error::RangeOutOfBounds(Location::new(count))));
        }
        match self.floor_at(vol, count) {
            Ok(floor) => self.proof_under(vol, count, floor, start, max_ops),
            Err(error) => Err(error),
        }
    }

    /// The proof of the operations from `start` on, at most `max_ops`, and these operations. It refuses as
    /// `historical_proof` at the present size.
    pub fn proof<V: Volume>(
        &self,
        vol: &mut V,
        start: Location<F>,
        max_ops: NonZeroU64,
    ) -> Result<(Proof<F, H::Digest>, Vec<O>), Error<F>>
        ensures answer { let admits = H.Digest.Read.admits tt in let size = self.now.state.size in V.tells →
            (ops : List O) →
            IsHeldFor F.shape H.hash O.meaning H.Digest.spelling admits O.spelling ops self.now
            (present (V.state vol.old)) →
            AreAdmittedFor (O.admits self.now.journal.items.codec) ops size start (non_zero_u64_get max_ops) →
            AnswersAs (λ made. (made.0, made.1.items))
            (unless_refused (proof_refusal O.meaning ops self.now.journal.items.start size start)
            (proof_answer F.shape H.hash O.meaning ops size start
            (proof_end size start (non_zero_u64_get max_ops)))) result }
        // Of a held database, that bytes are no operation is said only of some that are read and are none.
        ensures corrupt { let admits = H.Digest.Read.admits tt in let size = self.now.state.size in
            let items = items_of O.spelling O.admits self.now.journal.items (V.state vol.old) in V.tells →
            (ops : List O) →
            IsHeldFor F.shape H.hash O.meaning H.Digest.spelling admits O.spelling ops self.now
            (present (V.state vol.old)) →
            (p : ℕ) → IsErrOf result (Error.Journal (Corruption p)) →
            IsCorruptFor items size start (non_zero_u64_get max_ops) p }
        // Of any contents, a size that no commit ends ends with an operation that is none.
        ensures no_commit { let size = self.now.state.size in
            let items = items_of O.spelling O.admits self.now.journal.items (V.state vol.old) in (n : ℕ) →
            IsErrOf result (Error.HistoricalFloorPruned n) →
            (n ≡ size) × (V.tells → IsNoCommitAt O.meaning items (size - 1)) }
        // Of any database, whatever the volume holds.
        ensures errors { IfErr result (λ e.
            IsFromJoined IsLifted e ⊎ (e ≡ Error.HistoricalFloorPruned self.now.state.size)) }
        ensures reads { Reads V.tells Error.Volume (V.state vol.old) (V.state vol.new) result }
    {
        let size = Location::new(self.state.size.as_u64());
        self.historical_proof(vol, size, start, max_ops)
    }

    /// The peaks of a number of operations, the oldest first. It refuses as the tree's `pinned_nodes_at`.
    pub fn pinned_nodes_at<V: Volume>(
        &self,
        vol: &mut V,
        loc: Location<F>,
    ) -> Result<Vec<H::Digest>, Error<F>>
        ensures peaks { LiftsTree
            (ArePeaksAt V.tells F.shape H.Digest.spelling H.Digest.Read.admits (H.Digest.Read.reads tt)
            self.now.journal.tree (V.state vol.old) loc) result }
        // What is refused before any read doesn't call the volume.
        ensures uncalled { (e : tree_error.Error F) → peaks_answer self.now.journal.tree.tree.leaves loc ≡ Err e →
            vol.new ≡ vol.old }
        ensures count { (V.state vol.new).reads ≤ (V.state vol.old).reads + length (pins F.shape loc) }
        ensures reads { Reads V.tells Error.Volume (V.state vol.old) (V.state vol.new) result }
    {
        match self.journal.pinned_nodes_at(vol, loc) {
            Ok(found) => Ok(found),
            Err(error) => Err(from_joined(error)),
        }
    }
}
