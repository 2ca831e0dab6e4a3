//! A sync of a tree.
use crate::Merkle;
use journal_base::Mutable;
use tree_core::{Digest, Error, Family};
use volume_base::Volume;

impl<F: Family, D: Digest> Merkle<F, D> {
    ghost use Rattle.std.specs.Prelude.{◌≡◌, ℕ, List, length, true, false, IfOk, IfErr, OnOk, IsErrOf, ◌++◌};
    ghost use Rattle.codec_base.specs.Causes.{Rose};
    ghost use Rattle.journal_base.specs.Tickets.{is_failed};
    ghost use Rattle.journal_base.specs.View.{SameLog, IsDurable};
    ghost use Rattle.tree_shape.specs.Hashing.{Hashing};
    ghost use Rattle.tree_core.specs.Tree.{IsRested};
    ghost use Rattle.tree_store.specs.Stores.{IsOutside};
    ghost use Rattle.tree_store.specs.declared.error.Error.{Error};
    ghost use Rattle.volume_base.specs.Log.{Stays};
    ghost use Rattle.volume_base.specs.Moments.{present};
    ghost use Rattle.volume_base.specs.Names.{log_alone, NamesCall};
    ghost use Rattle.volume_base.specs.Volume.{LogCall, Writes};
    ghost use Rattle.merkle_full.specs.Flushing.{IsSameTree, IsFilled, AllStand, AllKeepStanding, after_start, outcome, IsOfFlush};
    ghost use Rattle.merkle_full.specs.Full.{Full, Rests, IsSeated};
    ghost use Rattle.merkle_full.specs.Lists.{IsFullOf};

    /// Whether it keeps a failed sync. `sync`, `start_sync`, `prune` and `prune_all` refuse then.
    pub fn keeps_failure(&self) -> bool
        ensures { result ≡ self.now.log.failed }
    {
        self.nodes.keeps_failure()
    }

    /// Appends the nodes that the log lacks, and then makes the log durable. Where a failed sync is kept it refuses
    /// with `Volume`, and writes nothing. Else a held tree is refused by the outside alone.
    pub fn sync<V: Volume>(self, vol: &mut V) -> Result<Self, Error<F>>
        ensures kept { self.log.failed ≡ true → IsErrOf result Error.Volume × (vol.new ≡ vol.old) }
        ensures same { IfOk result (λ t. IsSameTree self t) }
        ensures rests { IfOk result (λ t. Rests F.shape t) }
        ensures rested { IfOk result (λ t. IsRested F.shape self.boundary self.tree t.tree) }
        // Of any tree, whatever the volume holds: behind what the log had stand the nodes of memory.
        ensures filled { let name = self.log.name in OnOk result (V.tells →
            IsFilled F.shape D.spelling self.tree self.log.end ((V.state vol.old).log name)
            ((V.state vol.new).log name)) }
        ensures start { IfOk result (λ t. V.tells → (h : Hashing D) (all : List D) →
            IsFullOf F.shape h D.spelling (D.Read.admits tt) all self (present (V.state vol.old)) →
            t.log.start ≡ self.log.start) }
        ensures full { IfOk result (λ t. V.tells → (h : Hashing D) (all : List D) →
            IsFullOf F.shape h D.spelling (D.Read.admits tt) all self (present (V.state vol.old)) →
            IsFullOf F.shape h D.spelling (D.Read.admits tt) all t (present (V.state vol.new))) }
        ensures durable { OnOk result (V.tells → IsDurable self.log (V.state vol.new)) }
        // Of any tree, whatever the volume holds.
        ensures errors { IfErr result (IsOfFlush F.shape self) }
        ensures outside { V.tells → (h : Hashing D) (all : List D) →
            IsFullOf F.shape h D.spelling (D.Read.admits tt) all self (present (V.state vol.old)) →
            IfErr result IsOutside }
        // So it is wherever the log has its bounds; and then it has them afterwards.
        ensures bounded { V.tells → IsSeated F.shape self (present (V.state vol.old)) → IfErr result IsOutside }
        ensures seated { IfOk result (λ t. V.tells → IsSeated F.shape self (present (V.state vol.old)) →
            IsSeated F.shape t (present (V.state vol.new))) }
        // Every other log and every map stays, and so does what a crash leaves of it.
        ensures names { V.tells → NamesCall (log_alone self.log.name) (V.state vol.old) (V.state vol.new) }
        ensures images { V.tells → (h : Hashing D) (all : List D) (durable top : ℕ) →
            IsFullOf F.shape h D.spelling (D.Read.admits tt) all self (present (V.state vol.old)) →
            AllStand F.shape h D.spelling all durable top self (V.state vol.old) →
            AllKeepStanding F.shape h D.spelling all durable top self (V.state vol.old) (V.state vol.new) }
        // After it all leaves are durable.
        ensures settled { OnOk result (V.tells → (h : Hashing D) (all : List D) (durable top : ℕ) →
            IsFullOf F.shape h D.spelling (D.Read.admits tt) all self (present (V.state vol.old)) →
            AllStand F.shape h D.spelling all durable top self (V.state vol.old) →
            AllStand F.shape h D.spelling all (length all) top self (V.state vol.new)) }
        // So it is of a longer list, whose first leaves the tree has.
        ensures ahead { V.tells → (h : Hashing D) (all more : List D) (durable top : ℕ) →
            IsFullOf F.shape h D.spelling (D.Read.admits tt) all self (present (V.state vol.old)) →
            AllStand F.shape h D.spelling (all ++ more) durable top self (V.state vol.old) →
            AllKeepStanding F.shape h D.spelling (all ++ more) durable top self (V.state vol.old) (V.state vol.new) }
        ensures writes { self.log.failed ≡ false →
            Writes V.tells Error.Volume (V.state vol.old) (V.state vol.new) result }
    {
        if self.nodes.keeps_failure() {
            return Err(Error::Volume);
        }
        let flushed = self.flush(vol)?;
        let synced = flushed.sync_log(vol)?;
        Ok(synced)
    }

    /// Makes the log durable.
    fn sync_log<V: Volume>(self, vol: &mut V) -> Result<Self, Error<F>>
        ensures same { IfOk result (λ t. t ≡ self) }
        ensures contents { V.tells → SameLog self.log (V.state vol.old) (V.state vol.new) }
        ensures durable { OnOk result (V.tells → IsDurable self.log (V.state vol.new)) }
        ensures outside { IfErr result IsOutside }
        ensures log { V.tells → LogCall self.log.name Stays (V.state vol.old) (V.state vol.new) }
        ensures writes { self.log.failed ≡ false →
            Writes V.tells Error.Volume (V.state vol.old) (V.state vol.new) result }
    {
        let nodes = self.nodes.sync(vol)?;
        Ok(Merkle {
            mem: self.mem,
            nodes,
            metadata: self.metadata,
            boundary: self.boundary,
        })
    }
}
