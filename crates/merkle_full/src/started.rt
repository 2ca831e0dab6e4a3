//! A sync that is started, and whose outcome a ticket tells.
use crate::Merkle;
use journal_base::{Mutable, SyncTicket};
use tree_core::{Digest, Error, Family};
use volume_base::Volume;

impl<F: Family, D: Digest> Merkle<F, D> {
    ghost use Rattle.std.specs.Prelude.{◌≡◌, ℕ, List, length, true, false, IfOk, IfErr, OnOk, IsErrOf};
    ghost use Rattle.codec_base.specs.Causes.{Rose};
    ghost use Rattle.journal_base.specs.Tickets.{is_failed};
    ghost use Rattle.journal_base.specs.View.{SameLog, IsDurable};
    ghost use Rattle.tree_shape.specs.Hashing.{Hashing};
    ghost use Rattle.tree_shape.specs.Shape.{made};
    ghost use Rattle.tree_core.specs.Tree.{IsRested};
    ghost use Rattle.tree_store.specs.Stores.{IsOutside};
    ghost use Rattle.tree_store.specs.declared.error.Error.{Error};
    ghost use Rattle.volume_base.specs.Log.{Stays};
    ghost use Rattle.volume_base.specs.Moments.{present};
    ghost use Rattle.volume_base.specs.Names.{log_alone, NamesCall};
    ghost use Rattle.volume_base.specs.Volume.{LogCall, Writes};
    ghost use Rattle.merkle_full.specs.Flushing.{IsSameTree, IsFilled, after_start, outcome, AllStand, AllKeepStanding, IsOfFlush};
    ghost use Rattle.merkle_full.specs.Full.{Full, Rests, IsSeated};
    ghost use Rattle.merkle_full.specs.Lists.{IsFullOf};

    /// As `sync`, within the call: the ticket tells how the sync of the log has ended. A tree beside a failed ticket
    /// keeps the failure.
    pub fn start_sync<V: Volume>(self, vol: &mut V) -> Result<(Self, SyncTicket), Error<F>>
        ensures kept { self.log.failed ≡ true → IsErrOf result Error.Volume × (vol.new ≡ vol.old) }
        // Where the log lacks no node, a failure of the volume is the ticket's.
        ensures not_volume { self.log.failed ≡ false → self.log.end ≡ length (made F.shape self.tree.leaves) →
            IsErrOf result Error.Volume → ⊥ }
        ensures same { IfOk result (λ made. IsSameTree (after_start self (is_failed made.1)) made.0) }
        ensures rests { IfOk result (λ made. Rests F.shape made.0) }
        ensures rested { IfOk result (λ made. IsRested F.shape self.boundary self.tree made.0.tree) }
        // Of any tree, whatever the volume holds: behind what the log had stand the nodes of memory.
        ensures filled { let name = self.log.name in OnOk result (V.tells →
            IsFilled F.shape D.spelling self.tree self.log.end ((V.state vol.old).log name)
            ((V.state vol.new).log name)) }
        ensures start { IfOk result (λ made. V.tells → (h : Hashing D) (all : List D) →
            IsFullOf F.shape h D.spelling (D.Read.admits tt) all self (present (V.state vol.old)) →
            made.0.log.start ≡ self.log.start) }
        ensures full { IfOk result (λ made. V.tells → (h : Hashing D) (all : List D) →
            IsFullOf F.shape h D.spelling (D.Read.admits tt) all self (present (V.state vol.old)) →
            IsFullOf F.shape h D.spelling (D.Read.admits tt) all made.0 (present (V.state vol.new))) }
        ensures durable { IfOk result (λ made. made.1 ≡ SyncTicket.Done →
            V.tells → IsDurable self.log (V.state vol.new)) }
        ensures failed { IfOk result (λ made. made.1 ≡ SyncTicket.Failed →
            Rose (V.state vol.old).faults (V.state vol.new).faults) }
        // Of any tree, whatever the volume holds.
        ensures errors { IfErr result (IsOfFlush F.shape self) }
        ensures outside { V.tells → (h : Hashing D) (all : List D) →
            IsFullOf F.shape h D.spelling (D.Read.admits tt) all self (present (V.state vol.old)) →
            IfErr result IsOutside }
        // So it is wherever the log has its bounds; and then it has them afterwards.
        ensures bounded { V.tells → IsSeated F.shape self (present (V.state vol.old)) → IfErr result IsOutside }
        ensures seated { IfOk result (λ made. V.tells → IsSeated F.shape self (present (V.state vol.old)) →
            IsSeated F.shape made.0 (present (V.state vol.new))) }
        // Every other log and every map stays, and so does what a crash leaves of it.
        ensures names { V.tells → NamesCall (log_alone self.log.name) (V.state vol.old) (V.state vol.new) }
        ensures images { V.tells → (h : Hashing D) (all : List D) (durable top : ℕ) →
            IsFullOf F.shape h D.spelling (D.Read.admits tt) all self (present (V.state vol.old)) →
            AllStand F.shape h D.spelling all durable top self (V.state vol.old) →
            AllKeepStanding F.shape h D.spelling all durable top self (V.state vol.old) (V.state vol.new) }
        // Beside a ticket that is done all leaves are durable.
        ensures settled { IfOk result (λ made. made.1 ≡ SyncTicket.Done →
            V.tells → (h : Hashing D) (all : List D) (durable top : ℕ) →
            IsFullOf F.shape h D.spelling (D.Read.admits tt) all self (present (V.state vol.old)) →
            AllStand F.shape h D.spelling all durable top self (V.state vol.old) →
            AllStand F.shape h D.spelling all (length all) top self (V.state vol.new)) }
        // A failed ticket is a failure of the volume, and beside one that is done nothing has failed.
        ensures writes { self.log.failed ≡ false →
            Writes V.tells Error.Volume (V.state vol.old) (V.state vol.new) (outcome result) }
    {
        if self.nodes.keeps_failure() {
            return Err(Error::Volume);
        }
        let flushed = self.flush(vol)?;
        let started = flushed.start_log(vol)?;
        Ok(started)
    }

    /// Syncs the log, and tells in a ticket how.
    fn start_log<V: Volume>(self, vol: &mut V) -> Result<(Self, SyncTicket), Error<F>>
        ensures same { IfOk result (λ made. made.0 ≡ after_start self (is_failed made.1)) }
        ensures not_volume { self.log.failed ≡ false → IsErrOf result Error.Volume → ⊥ }
        ensures contents { V.tells → SameLog self.log (V.state vol.old) (V.state vol.new) }
        ensures durable { IfOk result (λ made. made.1 ≡ SyncTicket.Done →
            V.tells → IsDurable self.log (V.state vol.new)) }
        ensures outside { IfErr result IsOutside }
        ensures log { V.tells → LogCall self.log.name Stays (V.state vol.old) (V.state vol.new) }
        ensures writes { self.log.failed ≡ false →
            Writes V.tells Error.Volume (V.state vol.old) (V.state vol.new) (outcome result) }
    {
        let (nodes, ticket) = self.nodes.start_sync(vol)?;
        let tree = Merkle {
            mem: self.mem,
            nodes,
            metadata: self.metadata,
            boundary: self.boundary,
        };
        Ok((tree, ticket))
    }
}
