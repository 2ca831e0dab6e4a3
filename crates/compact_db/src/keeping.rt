//! How a compact database goes on to the state of a batch.
ghost use Rattle.std.specs.Prelude.{◌≡◌, ◌⊎◌, ◌<◌, ◌≤◌, ◌-◌, ◌^◌, ◌++◌, ◌∷◌, [], ℕ, List, length, map, Some, true, false, slice_get, Ok, IsOk, IfOk, IfErr, OnOk, IsErrOf, Contains};
ghost use Rattle.journal_base.specs.View.{log_of, SameButBounds, IsHeld};
ghost use Rattle.volume_base.specs.Log.{end_of};
ghost use Rattle.volume_base.specs.Moments.{LogHas, LogKeeps};
ghost use Rattle.volume_base.specs.Names.{log_alone, NamesCall};
ghost use Rattle.volume_base.specs.Volume.{LogCall, Writes};
ghost use Rattle.volume_base.specs.declared.error.JournalError.TheVariants.{SizeOverflow};
ghost use Rattle.tree_core.specs.Applied.{Fits};
ghost use Rattle.tree_core.specs.Batches.{IsSealedOf};
ghost use Rattle.log_model.specs.Good.{EndsWithCommit};
ghost use Rattle.log_model.specs.Operations.{leaves_from, root_of};
ghost use Rattle.chain_core.specs.Reached.{item_at};
ghost use Rattle.chain_core.specs.Slots.{IsAlive};
ghost use Rattle.chain_core.specs.declared.error.Error.TheVariants as error;
ghost use Rattle.witness_store.specs.StoreView.{HasWitnesses};
ghost use Rattle.witness_store.specs.declared.witness.Witness.{Witness};
ghost use Rattle.compact_db.specs.Batches.{MerkleizedView, IsMerkleizedOf, HasMarks};
ghost use Rattle.compact_db.specs.DbView.{IsOfList, commitment_in, seen_log, waits, is_uncommitted};
ghost use Rattle.compact_db.specs.Held.{IsHeldFor, SameState};
ghost use Rattle.compact_db.specs.WitnessOf.{witness_of};
ghost use Rattle.compact_db.specs.Writing.{written_log, Extends, Settles, IsOutsideOrFull, IsSettledLog};

use crate::applying::applied;
use crate::durable::{extended, opened};
use crate::{CompactDb, CompactOperation, MerkleizedBatch, WitnessLog};
use chain_core::{BatchId, Error, Pool};
use codec_base::{Bytes, Duplicate};
use tree_core::{Family, Hasher};
use volume_base::Volume;

impl<F: Family, O: CompactOperation, H: Hasher> CompactDb<F, O, H> {
    /// The database with what a batch has behind it, which this commit of these bytes ends, under the batch's root, and
    /// one more witness.
    pub(crate) fn grown<V: Volume>(
        self,
        vol: &mut V,
        batch: &tree_core::MerkleizedBatch<F, H::Digest>,
        root: H::Digest,
        commit: O,
        op_bytes: Bytes,
    ) -> Result<Self, Error<F>>
        requires longer { self.tree.leaves < batch.now.leaves }
        requires bytes { op_bytes ≡ O.spelling commit }
        ensures state { IfOk result (λ made. commitment_in made ≡ record { size = batch.now.leaves; root = root }) }
        ensures commit { IfOk result (λ made. made.commit ≡ commit) }
        ensures bytes { IfOk result (λ made. made.tip.witness.op_bytes ≡ O.spelling made.commit) }
        ensures codec { IfOk result (λ made. made.codec ≡ self.codec) }
        ensures opened { IfOk result (λ made. waits made.log ≡ false) }
        ensures list { IfOk result (λ made. (ops more : List O) → IsOfList F.shape H.hash O.meaning ops self →
            IsSealedOf F.shape H.hash (leaves_from F.shape H.hash O.meaning 0 (ops ++ more)) batch.now →
            EndsWithCommit O.meaning (ops ++ more) → length (ops ++ more) ≤ 2 ^ 62 →
            slice_get (ops ++ more) (length (ops ++ more) - 1) ≡ Some commit →
            root ≡ root_of F.shape H.hash O.meaning (ops ++ more) →
            IsOfList F.shape H.hash O.meaning (ops ++ more) made) }
        ensures held { IfOk result (λ made. V.tells → (ops more : List O) (sizes : List ℕ) →
            IsHeldFor F.shape H.hash O.meaning H.Digest.spelling (H.Digest.admits tt) ops sizes self (V.state vol.old) →
            IsOfList F.shape H.hash O.meaning (ops ++ more) made → length ops < length (ops ++ more) →
            IsHeldFor F.shape H.hash O.meaning H.Digest.spelling (H.Digest.admits tt) (ops ++ more)
            (sizes ++ length (ops ++ more) ∷ []) made (V.state vol.new)) }
        // Where an import waits, the volume has then this list's last witness.
        ensures imported { waits self.log ≡ true → IfOk result (λ made. V.tells → (ops : List O) →
            IsOfList F.shape H.hash O.meaning ops made → (sizes : List ℕ)
            × IsHeldFor F.shape H.hash O.meaning H.Digest.spelling (H.Digest.admits tt) ops sizes made
            (V.state vol.new)) }
        ensures log { IfOk result (λ made. SameButBounds (seen_log self.log) (seen_log made.log)) }
        ensures bounds { IfOk result (λ made. V.tells → IsHeld (seen_log made.log) (V.state vol.new)) }
        ensures uncommitted { IfOk result (λ made. is_uncommitted made.log ≡ true) }
        ensures written { IfOk result (λ made. V.tells → log_of (seen_log self.log) (V.state vol.new)
            ≡ written_log H.Digest.spelling self.log made.tip.witness (V.state vol.old)) }
        ensures room { OnOk result (V.tells → end_of (log_of (seen_log self.log) (V.state vol.old)) < 2 ^ 64 - 1) }
        ensures full { V.tells → IsErrOf result (error.Journal SizeOverflow) →
            (end_of (log_of (seen_log self.log) (V.state vol.old)) ≡ 2 ^ 64 - 1)
            × ((V.state vol.new).clock ≡ (V.state vol.old).clock) }
        // At each moment a crash leaves of an open log a part of the longer list's witnesses, within the bounds of
        // before.
        ensures images { V.tells → (ops more : List O) (sizes : List ℕ) (greatest least : ℕ) →
            IsHeldFor F.shape H.hash O.meaning H.Digest.spelling (H.Digest.admits tt) ops sizes self (V.state vol.old) →
            IsSealedOf F.shape H.hash (leaves_from F.shape H.hash O.meaning 0 (ops ++ more)) batch.now →
            EndsWithCommit O.meaning (ops ++ more) → length (ops ++ more) ≤ 2 ^ 62 →
            slice_get (ops ++ more) (length (ops ++ more) - 1) ≡ Some commit →
            root ≡ root_of F.shape H.hash O.meaning (ops ++ more) →
            let ws = map (witness_of {F = F} F.shape H.hash O.meaning ops) sizes in
            let last = witness_of F.shape H.hash O.meaning (ops ++ more) (length (ops ++ more)) in
            LogHas (V.state vol.old) (seen_log self.log).name (HasWitnesses H.Digest.spelling ws greatest least) →
            LogKeeps (seen_log self.log).name (HasWitnesses H.Digest.spelling (ws ++ last ∷ []) greatest least)
            (V.state vol.old) (V.state vol.new) }
        // Where an import waits, a crash leaves what was before, or a log with the longer list's last witness alone.
        ensures restarts { waits self.log ≡ true → V.tells → (ops more : List O) →
            IsOfList F.shape H.hash O.meaning ops self →
            IsSealedOf F.shape H.hash (leaves_from F.shape H.hash O.meaning 0 (ops ++ more)) batch.now →
            EndsWithCommit O.meaning (ops ++ more) → length (ops ++ more) ≤ 2 ^ 62 →
            slice_get (ops ++ more) (length (ops ++ more) - 1) ≡ Some commit →
            root ≡ root_of F.shape H.hash O.meaning (ops ++ more) →
            let last = witness_of {F = F} F.shape H.hash O.meaning (ops ++ more) (length (ops ++ more)) in
            LogCall (seen_log self.log).name (Settles H.Digest.spelling self.log last (V.state vol.old))
            (V.state vol.old) (V.state vol.new) }
        // Of whichever list, one witness is written.
        ensures call { V.tells → (w : Witness F H.Digest)
            × LogCall (seen_log self.log).name (Extends H.Digest.spelling self.log w (V.state vol.old))
            (V.state vol.old) (V.state vol.new)
            × IfOk result (λ made. made.tip.witness ≡ w) }
        ensures names { V.tells → NamesCall (log_alone (seen_log self.log).name) (V.state vol.old) (V.state vol.new) }
        // Where the batch isn't taken, nothing is written, and no mark of it is that of this tree.
        ensures unwritten { IsErrOf result error.StaleBatch → vol.new ≡ vol.old }
        ensures misfit { IsErrOf result error.StaleBatch → (ops : List O) → IsOfList F.shape H.hash O.meaning ops self →
            (i : ℕ) → Fits F.shape H.hash (leaves_from F.shape H.hash O.meaning 0 ops) self.tree.leaves
            batch.now i → ⊥ }
        ensures errors { IfErr result (λ e. (e ≡ error.StaleBatch) ⊎ IsOutsideOrFull e) }
        ensures writes { Writes V.tells error.Volume (V.state vol.old) (V.state vol.new) result }
    {
        let CompactDb {
            alloc,
            log,
            tip: _,
            merkle,
            last_commit: _,
            codec,
        } = self;
        let (tip, merkle) = applied::<F, O, H>(alloc, merkle, batch, root, &commit, op_bytes)?;
        let store = extended(log, vol, &tip.witness)?;
        Ok(CompactDb {
            alloc,
            log: WitnessLog::Open(store),
            tip,
            merkle,
            last_commit: commit,
            codec,
        })
    }

    /// The database with its log open: where an import waits, its witness is written.
    pub(crate) fn settled<V: Volume>(self, vol: &mut V) -> Result<Self, Error<F>>
        ensures same { IfOk result (SameState self) }
        ensures opened { IfOk result (λ made. waits made.log ≡ false) }
        ensures idle { waits self.log ≡ false → vol.new ≡ vol.old }
        ensures same_log { waits self.log ≡ false → IfOk result (λ made.
            (seen_log made.log ≡ seen_log self.log) × (is_uncommitted made.log ≡ is_uncommitted self.log)) }
        ensures done { waits self.log ≡ false → IsOk result }
        ensures imported { waits self.log ≡ true → IfOk result (λ made. V.tells → (ops : List O) →
            IsOfList F.shape H.hash O.meaning ops self → (sizes : List ℕ)
            × IsHeldFor F.shape H.hash O.meaning H.Digest.spelling (H.Digest.admits tt) ops sizes made
            (V.state vol.new)) }
        ensures log { IfOk result (λ made. SameButBounds (seen_log self.log) (seen_log made.log)) }
        ensures bounds { V.tells → (waits self.log ≡ false → IsHeld (seen_log self.log) (V.state vol.old)) →
            IfOk result (λ made. IsHeld (seen_log made.log) (V.state vol.new)) }
        ensures settled { V.tells → IsSettledLog self.log (V.state vol.old) →
            IfOk result (λ made. IsSettledLog made.log (V.state vol.new)) }
        ensures written { waits self.log ≡ true → OnOk result (V.tells → log_of (seen_log self.log) (V.state vol.new)
            ≡ written_log H.Digest.spelling self.log self.tip.witness (V.state vol.old)) }
        ensures room { waits self.log ≡ true →
            OnOk result (V.tells → end_of (log_of (seen_log self.log) (V.state vol.old)) < 2 ^ 64 - 1) }
        ensures full { V.tells → IsErrOf result (error.Journal SizeOverflow) → (waits self.log ≡ true)
            × (end_of (log_of (seen_log self.log) (V.state vol.old)) ≡ 2 ^ 64 - 1)
            × ((V.state vol.new).clock ≡ (V.state vol.old).clock) }
        ensures call { V.tells → LogCall (seen_log self.log).name
            (Settles H.Digest.spelling self.log self.tip.witness (V.state vol.old)) (V.state vol.old)
            (V.state vol.new) }
        ensures names { V.tells → NamesCall (log_alone (seen_log self.log).name) (V.state vol.old) (V.state vol.new) }
        ensures errors { IfErr result IsOutsideOrFull }
        ensures writes { Writes V.tells error.Volume (V.state vol.old) (V.state vol.new) result }
    {
        let CompactDb {
            alloc,
            log,
            tip,
            merkle,
            last_commit,
            codec,
        } = self;
        let store = opened(log, vol, &tip.witness)?;
        Ok(CompactDb {
            alloc,
            log: WitnessLog::Open(store),
            tip,
            merkle,
            last_commit,
            codec,
        })
    }

    /// Makes the list that of a sealed batch, where it stands on this state, and writes one witness, at the batch's
    /// tip; where the batch has no more operations, none, but that of an import that waits. Refuses, in this order,
    /// before anything is written: `StaleBatch` where this state is neither the one at which the batch's chain began
    /// nor an ancestor's tip; `Journal(SizeOverflow)` where a witness is to be written and the log's end is 2^64 - 1.
    /// Of a batch whose list doesn't begin with the database's, or that lacks a mark, it may answer `StaleBatch`
    /// besides.
    pub fn apply_batch<V: Volume>(
        self,
        vol: &mut V,
        pool: &Pool<MerkleizedBatch<F, O, H::Digest>>,
        id: BatchId,
    ) -> Result<Self, Error<F>>
        requires { IsAlive pool.now id }
        ensures stands { IfOk result (λ made. (b : MerkleizedView F H.Digest O) → item_at pool.now id ≡ Some b →
            Contains (b.bounds.db ∷ b.bounds.ancestors) (commitment_in self)) }
        ensures stale { (b : MerkleizedView F H.Digest O) → item_at pool.now id ≡ Some b →
            (Contains (b.bounds.db ∷ b.bounds.ancestors) (commitment_in self) → ⊥) →
            IsErrOf result error.StaleBatch × (vol.new ≡ vol.old) }
        // Of a batch of a list that begins with the database's, with a mark at each state of its chain, it comes
        // nowhere else.
        ensures fits { IsErrOf result error.StaleBatch → (ops more : List O) (b : MerkleizedView F H.Digest O) →
            item_at pool.now id ≡ Some b →
            IsOfList F.shape H.hash O.meaning ops self → IsMerkleizedOf F.shape H.hash O.meaning (ops ++ more) b →
            HasMarks b →
            Contains (b.bounds.db ∷ b.bounds.ancestors) (commitment_in self) → ⊥ }
        ensures unwritten { IsErrOf result error.StaleBatch → vol.new ≡ vol.old }
        ensures opened { IfOk result (λ made. waits made.log ≡ false) }
        ensures codec { IfOk result (λ made. made.codec ≡ self.codec) }
        // Of a batch of a list that begins with the database's, it makes that list's database.
        ensures list { IfOk result (λ made. (ops more : List O) (b : MerkleizedView F H.Digest O) →
            item_at pool.now id ≡ Some b →
            IsOfList F.shape H.hash O.meaning ops self → IsMerkleizedOf F.shape H.hash O.meaning (ops ++ more) b →
            IsOfList F.shape H.hash O.meaning (ops ++ more) made) }
        // Where that list is longer, the volume has one more witness.
        ensures held { IfOk result (λ made. V.tells →
            (ops more : List O) (sizes : List ℕ) (b : MerkleizedView F H.Digest O) → item_at pool.now id ≡ Some b →
            IsHeldFor F.shape H.hash O.meaning H.Digest.spelling (H.Digest.admits tt) ops sizes self (V.state vol.old) →
            IsMerkleizedOf F.shape H.hash O.meaning (ops ++ more) b → 0 < length more →
            IsHeldFor F.shape H.hash O.meaning H.Digest.spelling (H.Digest.admits tt) (ops ++ more)
            (sizes ++ length (ops ++ more) ∷ []) made (V.state vol.new)) }
        // Where an import waits, it is written first: the volume has then the witness of the list alone.
        ensures imported { waits self.log ≡ true →
            IfOk result (λ made. V.tells → (ops more : List O) (b : MerkleizedView F H.Digest O) →
            item_at pool.now id ≡ Some b → IsOfList F.shape H.hash O.meaning ops self →
            IsMerkleizedOf F.shape H.hash O.meaning (ops ++ more) b → (sizes : List ℕ)
            × IsHeldFor F.shape H.hash O.meaning H.Digest.spelling (H.Digest.admits tt) (ops ++ more) sizes made
            (V.state vol.new)) }
        // Of whichever batch that is longer, its state is the batch's tip, its commit the batch's last operation, and
        // its witness has that commit's bytes.
        ensures grows { IfOk result (λ made. (b : MerkleizedView F H.Digest O) → item_at pool.now id ≡ Some b →
            self.tip.witness.size < b.bounds.tip.size → (commitment_in made ≡ b.bounds.tip)
            × (slice_get b.operations (length b.operations - 1) ≡ Some made.commit)
            × (made.tip.witness.op_bytes ≡ O.spelling made.commit)) }
        // Where the batch has no more operations, the state stays, and what is held. Nothing is written but for an
        // import, and without one it is done.
        ensures stays { IfOk result (λ made. (b : MerkleizedView F H.Digest O) → item_at pool.now id ≡ Some b →
            b.bounds.tip.size ≤ self.tip.witness.size → SameState self made × (waits self.log ≡ false →
            (seen_log made.log ≡ seen_log self.log) × (is_uncommitted made.log ≡ is_uncommitted self.log))) }
        ensures idle { (b : MerkleizedView F H.Digest O) → item_at pool.now id ≡ Some b →
            b.bounds.tip.size ≤ self.tip.witness.size →
            waits self.log ≡ false → vol.new ≡ vol.old }
        ensures done { (b : MerkleizedView F H.Digest O) → item_at pool.now id ≡ Some b →
            b.bounds.tip.size ≤ self.tip.witness.size →
            waits self.log ≡ false → Contains (b.bounds.db ∷ b.bounds.ancestors) (commitment_in self) → IsOk result }
        ensures kept { IfOk result (λ made. V.tells →
            (ops : List O) (sizes : List ℕ) (b : MerkleizedView F H.Digest O) → item_at pool.now id ≡ Some b →
            b.bounds.tip.size ≤ self.tip.witness.size →
            IsHeldFor F.shape H.hash O.meaning H.Digest.spelling (H.Digest.admits tt) ops sizes self (V.state vol.old) →
            IsHeldFor F.shape H.hash O.meaning H.Digest.spelling (H.Digest.admits tt) ops sizes made
            (V.state vol.new)) }
        ensures log { IfOk result (λ made. SameButBounds (seen_log self.log) (seen_log made.log)) }
        // The bounds that it knows stay those of the log.
        ensures bounds { V.tells → (waits self.log ≡ false → IsHeld (seen_log self.log) (V.state vol.old)) →
            IfOk result (λ made. IsHeld (seen_log made.log) (V.state vol.new)) }
        ensures settled { V.tells → IsSettledLog self.log (V.state vol.old) →
            IfOk result (λ made. IsSettledLog made.log (V.state vol.new)) }
        // One witness is written, behind the others; where an import waits, alone.
        ensures written { IfOk result (λ made. V.tells → (b : MerkleizedView F H.Digest O) →
            item_at pool.now id ≡ Some b →
            (self.tip.witness.size < b.bounds.tip.size) ⊎ (waits self.log ≡ true) →
            log_of (seen_log self.log) (V.state vol.new)
            ≡ written_log H.Digest.spelling self.log made.tip.witness (V.state vol.old)) }
        ensures room { OnOk result (V.tells → (b : MerkleizedView F H.Digest O) → item_at pool.now id ≡ Some b →
            (self.tip.witness.size < b.bounds.tip.size) ⊎ (waits self.log ≡ true) →
            end_of (log_of (seen_log self.log) (V.state vol.old)) < 2 ^ 64 - 1) }
        ensures full { V.tells → IsErrOf result (error.Journal SizeOverflow) → (b : MerkleizedView F H.Digest O) →
            item_at pool.now id ≡ Some b →
            ((self.tip.witness.size < b.bounds.tip.size) ⊎ (waits self.log ≡ true))
            × (end_of (log_of (seen_log self.log) (V.state vol.old)) ≡ 2 ^ 64 - 1)
            × ((V.state vol.new).clock ≡ (V.state vol.old).clock) }
        // At each moment a crash leaves of an open log a part of the longer list's witnesses, within the bounds of
        // before.
        ensures images { V.tells → (ops more : List O) (sizes : List ℕ) (b : MerkleizedView F H.Digest O)
            (greatest least : ℕ) →
            item_at pool.now id ≡ Some b →
            IsHeldFor F.shape H.hash O.meaning H.Digest.spelling (H.Digest.admits tt) ops sizes self (V.state vol.old) →
            IsMerkleizedOf F.shape H.hash O.meaning (ops ++ more) b → 0 < length more →
            let ws = map (witness_of {F = F} F.shape H.hash O.meaning ops) sizes in
            let last = witness_of F.shape H.hash O.meaning (ops ++ more) (length (ops ++ more)) in
            LogHas (V.state vol.old) (seen_log self.log).name (HasWitnesses H.Digest.spelling ws greatest least) →
            LogKeeps (seen_log self.log).name (HasWitnesses H.Digest.spelling (ws ++ last ∷ []) greatest least)
            (V.state vol.old) (V.state vol.new) }
        // Where an import waits, a crash leaves what was before, or a log with the longer list's last witness alone.
        ensures restarts { waits self.log ≡ true → V.tells → (ops more : List O) (b : MerkleizedView F H.Digest O) →
            item_at pool.now id ≡ Some b → IsOfList F.shape H.hash O.meaning ops self →
            IsMerkleizedOf F.shape H.hash O.meaning (ops ++ more) b →
            let last = witness_of {F = F} F.shape H.hash O.meaning (ops ++ more) (length (ops ++ more)) in
            LogCall (seen_log self.log).name (Settles H.Digest.spelling self.log last (V.state vol.old))
            (V.state vol.old) (V.state vol.new) }
        // Of whichever list, an image of the log stays or gets one witness, which is the new state's; where an import
        // waits, the log restarts with it.
        ensures call { V.tells → (w : Witness F H.Digest)
            × LogCall (seen_log self.log).name (Extends H.Digest.spelling self.log w (V.state vol.old))
            (V.state vol.old) (V.state vol.new)
            × IfOk result (λ made. made.tip.witness ≡ w) }
        ensures names { V.tells → NamesCall (log_alone (seen_log self.log).name) (V.state vol.old) (V.state vol.new) }
        ensures errors { IfErr result (λ e. (e ≡ error.StaleBatch) ⊎ IsOutsideOrFull e) }
        ensures writes { Writes V.tells error.Volume (V.state vol.old) (V.state vol.new) result }
    {
        let batch = pool.item(id);
        match batch.bounds.validate_apply_to(self.commitment()) {
            Ok(()) => {}
            Err(error) => return Err(error),
        }
        if batch.tree.leaves().as_u64() <= self.merkle.leaves().as_u64() {
            return self.settled(vol);
        }
        let [.., commit] = batch.operations.as_slice() else {
            unreachable!();
        };
        let Ok(commit) = commit.duplicate() else {
            return Err(Error::Memory);
        };
        let Ok(op_bytes) = batch.commit_bytes.duplicate() else {
            return Err(Error::Memory);
        };
        self.grown(vol, &batch.tree, batch.bounds.tip.root, commit, op_bytes)
    }
}
