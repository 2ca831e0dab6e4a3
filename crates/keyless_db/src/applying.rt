//! How a batch is applied to a database.
ghost use Rattle.std.specs.Prelude.{◌≡◌, IfOk, IsOkUnless};
ghost use Rattle.keyless_db.specs.DbView.{EndsAs};

use crate::errors::from_apply;
use crate::{Keyless, KeylessOperation, MerkleizedBatch};
use chain_core::{BatchId, Error, Pool};
use codec_base::CodecError;
use journal_base::Backing;
use tree_core::{Family, Hasher};
use volume_base::Volume;

/// A copy of the last of these operations, or else the one of before.
fn last_of<O: KeylessOperation>(own: &[O], before: O) -> Result<O, CodecError>
    ensures ends { IfOk result (λ op. EndsAs own.now before op) }
    ensures memory { IsOkUnless result CodecError.Memory }
{
    match own {
        [.., last] => last.duplicate(),
        [] => Ok(before),
    }
}

impl<F: Family, O: KeylessOperation, C: Backing<Item = O>, H: Hasher> Keyless<F, O, C, H> {
    ghost use Rattle.std.specs.Prelude.{◌<◌, ◌-◌, ◌∷◌, ◌+◌, ◌^◌, ◌++◌, ℕ, Some, List, length, IfErr, OnOk, IsErrOf, Contains};
    ghost use Rattle.journal_base.specs.View.{log_of};
    ghost use Rattle.volume_base.specs.Log.{end_of};
    ghost use Rattle.volume_base.specs.Moments.{Image, present};
    ghost use Rattle.volume_base.specs.Names.{log_alone, NamesCall};
    ghost use Rattle.volume_base.specs.declared.error.JournalError.TheVariants.{SizeOverflow};
    ghost use Rattle.tree_core.specs.Applied.{Fits, FitsTree};
    ghost use Rattle.tree_core.specs.Tree.{IsOf};
    ghost use Rattle.auth_journal.specs.Appending.{Appends, unapplied};
    ghost use Rattle.auth_journal.specs.Joined.{IsSameJoin};
    ghost use Rattle.auth_journal.specs.Standing.{Marks, KeepsStanding};
    ghost use Rattle.chain_core.specs.Reached.{item_at};
    ghost use Rattle.chain_core.specs.Slots.{IsAlive};
    ghost use Rattle.chain_core.specs.declared.error.Error.{Error};
    ghost use Rattle.keyless_db.specs.Batches.{MerkleizedView, IsMerkleizedOf, HasMarks, own_items};
    ghost use Rattle.keyless_db.specs.DbView.{IsHeldFor};
    ghost use Rattle.keyless_db.specs.Errors.{IsOfApply};

    /// The database at the tip of a batch. It refuses with `StaleBatch` where the tree takes the batch at no mark.
    fn applied<V: Volume>(
        self,
        vol: &mut V,
        batch: &MerkleizedBatch<F, H::Digest, O>,
    ) -> Result<Self, Error<F>>
        ensures state { IfOk result (λ d. d.state ≡ batch.now.bounds.tip) }
        ensures commit { IfOk result (λ d. EndsAs (own_items batch.now.tree) self.commit d.commit) }
        ensures journal { IfOk result (λ d. IsSameJoin self.journal d.journal) }
        ensures held { let admits = H.Digest.Read.admits tt in IfOk result (λ d. V.tells → (ops more : List O) →
            Contains (batch.now.bounds.db ∷ batch.now.bounds.ancestors) self.state →
            IsHeldFor F.shape H.hash O.meaning H.Digest.spelling admits O.spelling ops self
            (present (V.state vol.old)) →
            IsMerkleizedOf F.shape H.hash O.meaning O.spelling (ops ++ more) batch.now →
            IsHeldFor F.shape H.hash O.meaning H.Digest.spelling admits O.spelling (ops ++ more) d
            (present (V.state vol.new))) }
        ensures unfit { IsErrOf result Error.StaleBatch → (i : ℕ) →
            FitsTree F.shape self.journal.tree.tree batch.now.tree.nodes i → ⊥ }
        ensures misfit { IsErrOf result Error.StaleBatch → (all : List H.Digest) →
            IsOf F.shape H.hash all self.journal.tree.tree → (i : ℕ) →
            Fits F.shape H.hash all self.journal.tree.tree.leaves batch.now.tree.nodes i → ⊥ }
        ensures unwritten { IsErrOf result Error.StaleBatch → vol.new ≡ vol.old }
        ensures appends { Appends V.tells Error.Volume O.spelling self.journal.items (λ d. d.journal.items)
            (unapplied batch.now.tree self.journal.tree.tree.leaves) (V.state vol.old) (V.state vol.new) result }
        ensures full { IsErrOf result (Error.Journal SizeOverflow) → ((V.state vol.new).clock ≡ (V.state vol.old).clock)
            × (V.tells →
            2 ^ 64 - 1 < end_of (log_of self.journal.items (V.state vol.old)) + batch.now.tree.nodes.leaves) }
        ensures beyond { let lacking = unapplied batch.now.tree self.journal.tree.tree.leaves in
            IsErrOf result (Error.Journal SizeOverflow) → V.tells →
            2 ^ 64 - 1 < end_of (log_of self.journal.items (V.state vol.old)) + length lacking }
        ensures errors { IfErr result IsOfApply }
        ensures images { let admits = H.Digest.Read.admits tt in V.tells → (ops : List O) (marks : Marks) →
            IsHeldFor F.shape H.hash O.meaning H.Digest.spelling admits O.spelling ops self
            (present (V.state vol.old)) →
            KeepsStanding F.shape H.hash H.Digest.spelling O.spelling ops
            (ops ++ unapplied batch.now.tree self.journal.tree.tree.leaves) marks
            self.journal (V.state vol.old) (V.state vol.new) }
    {
        let Ok(last_commit) = last_of(batch.tree.items(), self.last_commit) else {
            return Err(Error::Memory);
        };
        match self.journal.apply_batch(vol, &batch.tree) {
            Ok(journal) => Ok(Keyless {
                alloc: self.alloc,
                journal,
                state: batch.bounds.tip.copied(),
                last_commit,
            }),
            Err(error) => Err(from_apply(error)),
        }
    }

    /// Makes the state that of a sealed batch, where it stands at this one: the operations of the batch and of its
    /// ancestors that the log lacks are put behind it, by one append; where there are none nothing is written. It
    /// refuses, in this order: with `StaleBatch` where `validate_batch` does, and where the tree takes the batch at no
    /// mark; with `Journal(SizeOverflow)` where the end of the log would pass 2^64 - 1. Then nothing is written.
    pub fn apply_batch<V: Volume>(
        self,
        vol: &mut V,
        pool: &Pool<MerkleizedBatch<F, H::Digest, O>>,
        id: BatchId,
    ) -> Result<Self, Error<F>>
        requires { IsAlive pool.now id }
        ensures stands { IfOk result (λ d. (b : MerkleizedView F H.Digest O) → item_at pool.now id ≡ Some b →
            Contains (b.bounds.db ∷ b.bounds.ancestors) self.state) }
        ensures stale { (b : MerkleizedView F H.Digest O) → item_at pool.now id ≡ Some b →
            (Contains (b.bounds.db ∷ b.bounds.ancestors) self.state → ⊥) → IsErrOf result Error.StaleBatch }
        ensures unfit { IsErrOf result Error.StaleBatch → (b : MerkleizedView F H.Digest O) →
            item_at pool.now id ≡ Some b →
            Contains (b.bounds.db ∷ b.bounds.ancestors) self.state →
            (i : ℕ) → FitsTree F.shape self.journal.tree.tree b.tree.nodes i → ⊥ }
        // Of a batch of a list that begins with the database's, with a mark at each state of its chain, it comes
        // nowhere else, whatever the volume holds.
        ensures fits { let admits = H.Digest.Read.admits tt in IsErrOf result Error.StaleBatch →
            (b : MerkleizedView F H.Digest O) → item_at pool.now id ≡ Some b → (ops more : List O) (image : Image) →
            IsHeldFor F.shape H.hash O.meaning H.Digest.spelling admits O.spelling ops self image →
            IsMerkleizedOf F.shape H.hash O.meaning O.spelling (ops ++ more) b → HasMarks b →
            Contains (b.bounds.db ∷ b.bounds.ancestors) self.state → ⊥ }
        ensures unwritten { IsErrOf result Error.StaleBatch → vol.new ≡ vol.old }
        ensures state { IfOk result (λ d. (b : MerkleizedView F H.Digest O) → item_at pool.now id ≡ Some b →
            d.state ≡ b.bounds.tip) }
        // The last commit is the batch's last operation; of a batch without operations it stays.
        ensures commit { IfOk result (λ d. (b : MerkleizedView F H.Digest O) → item_at pool.now id ≡ Some b →
            EndsAs (own_items b.tree) self.commit d.commit) }
        ensures journal { IfOk result (λ d. IsSameJoin self.journal d.journal) }
        // Of a batch of a list that begins with the database's, it makes that list's database.
        ensures held { let admits = H.Digest.Read.admits tt in IfOk result (λ d. V.tells →
            (b : MerkleizedView F H.Digest O) → item_at pool.now id ≡ Some b → (ops more : List O) →
            IsHeldFor F.shape H.hash O.meaning H.Digest.spelling admits O.spelling ops self
            (present (V.state vol.old)) →
            IsMerkleizedOf F.shape H.hash O.meaning O.spelling (ops ++ more) b →
            IsHeldFor F.shape H.hash O.meaning H.Digest.spelling admits O.spelling (ops ++ more) d
            (present (V.state vol.new))) }
        // What the log lacks of the batch's list is put behind it.
        ensures appends { (b : MerkleizedView F H.Digest O) → item_at pool.now id ≡ Some b →
            Appends V.tells Error.Volume O.spelling self.journal.items (λ d. d.journal.items)
            (unapplied b.tree self.journal.tree.tree.leaves) (V.state vol.old) (V.state vol.new) result }
        ensures full { IsErrOf result (Error.Journal SizeOverflow) → ((V.state vol.new).clock ≡ (V.state vol.old).clock)
            × ((b : MerkleizedView F H.Digest O) → item_at pool.now id ≡ Some b → V.tells →
            2 ^ 64 - 1 < end_of (log_of self.journal.items (V.state vol.old)) + b.tree.nodes.leaves) }
        // It comes only where the log has no room for what it lacks of the batch.
        ensures beyond { IsErrOf result (Error.Journal SizeOverflow) → (b : MerkleizedView F H.Digest O) →
            item_at pool.now id ≡ Some b → V.tells → let lacking = unapplied b.tree self.journal.tree.tree.leaves in
            2 ^ 64 - 1 < end_of (log_of self.journal.items (V.state vol.old)) + length lacking }
        // Of a batch of a list that begins with the database's there is room in the log.
        ensures room { let admits = H.Digest.Read.admits tt in IsErrOf result (Error.Journal SizeOverflow) →
            V.tells → (b : MerkleizedView F H.Digest O) → item_at pool.now id ≡ Some b → (ops more : List O) →
            IsHeldFor F.shape H.hash O.meaning H.Digest.spelling admits O.spelling ops self
            (present (V.state vol.old)) →
            IsMerkleizedOf F.shape H.hash O.meaning O.spelling (ops ++ more) b → ⊥ }
        ensures errors { IfErr result IsOfApply }
        // Every other log and every map stays, and so does what a crash leaves of it.
        ensures names { V.tells → NamesCall (log_alone self.journal.items.name) (V.state vol.old) (V.state vol.new) }
        // At each moment whatever a crash leaves stands for the longer list, of which no more is durable than before.
        ensures images { let admits = H.Digest.Read.admits tt in V.tells → (ops : List O) (marks : Marks)
            (b : MerkleizedView F H.Digest O) → item_at pool.now id ≡ Some b →
            IsHeldFor F.shape H.hash O.meaning H.Digest.spelling admits O.spelling ops self
            (present (V.state vol.old)) →
            KeepsStanding F.shape H.hash H.Digest.spelling O.spelling ops
            (ops ++ unapplied b.tree self.journal.tree.tree.leaves) marks
            self.journal (V.state vol.old) (V.state vol.new) }
    {
        let batch = pool.item(id);
        let here = self.commitment();
        match batch.bounds.validate_apply_to(here) {
            Ok(()) => {}
            Err(error) => return Err(error),
        }
        self.applied(vol, batch)
    }
}
