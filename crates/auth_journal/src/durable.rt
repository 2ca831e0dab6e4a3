//! Calls after which a crash leaves what the journal holds.
use crate::{Error, Journal};
use journal_base::{Backing, Mutable, SyncTicket};
use tree_core::{Family, Hasher};
use volume_base::Volume;

impl<F: Family, C: Backing, H: Hasher> Journal<F, C, H> {
    ghost use Rattle.std.specs.Prelude.{◌≡◌, List, length, true, false, IfOk, IfErr, OnOk, IsErrOf};
    ghost use Rattle.codec_base.specs.Causes.{Rose};
    ghost use Rattle.journal_base.specs.Tickets.{is_failed};
    ghost use Rattle.journal_base.specs.View.{SameLog, IsDurable};
    ghost use Rattle.merkle_full.specs.Flushing.{IsOfFlush};
    ghost use Rattle.merkle_full.specs.Full.{IsSeated, Rests};
    ghost use Rattle.tree_shape.specs.Shape.{made};
    ghost use Rattle.volume_base.specs.Moments.{present};
    ghost use Rattle.volume_base.specs.Names.{log_alone, NamesCall};
    ghost use Rattle.volume_base.specs.Volume.{Writes};
    ghost use Rattle.auth_journal.specs.Durable.{IsFlushed, IsStarted, IsFromTree, outcome};
    ghost use Rattle.auth_journal.specs.Errors.{IsOutside};
    ghost use Rattle.auth_journal.specs.Joined.{IsJoinedOf};
    ghost use Rattle.auth_journal.specs.Standing.{Marks, items_synced, all_synced, logs_of, StepsStanding};
    ghost use Rattle.auth_journal.specs.declared.error.Error.{Error};

    /// Makes the log of items durable, and then appends the nodes that the node log lacks. Where a failed sync is kept it refuses
    /// with `Volume`, and writes nothing. Else a held journal is refused by the outside alone.
    pub fn commit<V: Volume>(self, vol: &mut V) -> Result<Self, Error<F>>
        ensures kept { self.failed ≡ true → IsErrOf result Error.Volume × (vol.new ≡ vol.old) }
        ensures same { IfOk result (λ j. IsFlushed self j) }
        ensures rests { IfOk result (λ j. Rests F.shape j.tree) }
        ensures nodes { let admits = H.Digest.Read.admits tt in
            IfOk result (λ j. V.tells → (list : List C.Item) →
            IsJoinedOf F.shape H.hash H.Digest.spelling admits C.Item.spelling list self (present (V.state vol.old)) →
            j.tree.log.start ≡ self.tree.log.start) }
        ensures joined { let admits = H.Digest.Read.admits tt in
            IfOk result (λ j. V.tells → (list : List C.Item) →
            IsJoinedOf F.shape H.hash H.Digest.spelling admits C.Item.spelling list self (present (V.state vol.old)) →
            IsJoinedOf F.shape H.hash H.Digest.spelling admits C.Item.spelling list j (present (V.state vol.new))) }
        ensures contents { V.tells → SameLog self.items (V.state vol.old) (V.state vol.new) }
        ensures durable { OnOk result (V.tells → IsDurable self.items (V.state vol.new)) }
        // Of any journal, whatever the volume holds.
        ensures errors { IfErr result (IsFromTree (IsOfFlush F.shape self.tree)) }
        ensures outside { let admits = H.Digest.Read.admits tt in V.tells → (list : List C.Item) →
            IsJoinedOf F.shape H.hash H.Digest.spelling admits C.Item.spelling list self (present (V.state vol.old)) →
            IfErr result IsOutside }
        // Every other log and every map stays, and so does what a crash leaves of it.
        ensures names { V.tells → NamesCall (logs_of self) (V.state vol.old) (V.state vol.new) }
        // From a turn on all items are durable.
        ensures images { let admits = H.Digest.Read.admits tt in V.tells → (list : List C.Item) (marks : Marks) →
            IsJoinedOf F.shape H.hash H.Digest.spelling admits C.Item.spelling list self (present (V.state vol.old)) →
            StepsStanding F.shape H.hash H.Digest.spelling C.Item.spelling list marks (items_synced (length list) marks)
            self (V.state vol.old) (V.state vol.new) result }
        ensures writes { self.failed ≡ false →
            Writes V.tells Error.Volume (V.state vol.old) (V.state vol.new) result }
    {
        if self.failed {
            return Err(Error::Volume);
        }
        let journal = self.journal.commit(vol)?;
        let merkle = self.merkle.flush(vol)?;
        Ok(Journal {
            alloc: self.alloc,
            journal,
            merkle,
            hasher: self.hasher,
            failed: self.failed,
        })
    }

    /// Makes the log of items durable, and then the tree. It refuses as `commit`.
    pub fn sync<V: Volume>(self, vol: &mut V) -> Result<Self, Error<F>>
        ensures kept { self.failed ≡ true → IsErrOf result Error.Volume × (vol.new ≡ vol.old) }
        ensures same { IfOk result (λ j. IsFlushed self j) }
        ensures rests { IfOk result (λ j. Rests F.shape j.tree) }
        ensures nodes { let admits = H.Digest.Read.admits tt in
            IfOk result (λ j. V.tells → (list : List C.Item) →
            IsJoinedOf F.shape H.hash H.Digest.spelling admits C.Item.spelling list self (present (V.state vol.old)) →
            j.tree.log.start ≡ self.tree.log.start) }
        ensures joined { let admits = H.Digest.Read.admits tt in
            IfOk result (λ j. V.tells → (list : List C.Item) →
            IsJoinedOf F.shape H.hash H.Digest.spelling admits C.Item.spelling list self (present (V.state vol.old)) →
            IsJoinedOf F.shape H.hash H.Digest.spelling admits C.Item.spelling list j (present (V.state vol.new))) }
        ensures contents { V.tells → SameLog self.items (V.state vol.old) (V.state vol.new) }
        ensures durable { OnOk result (V.tells →
            IsDurable self.items (V.state vol.new) × IsDurable self.tree.log (V.state vol.new)) }
        // Of any journal, whatever the volume holds.
        ensures errors { IfErr result (IsFromTree (IsOfFlush F.shape self.tree)) }
        ensures outside { let admits = H.Digest.Read.admits tt in V.tells → (list : List C.Item) →
            IsJoinedOf F.shape H.hash H.Digest.spelling admits C.Item.spelling list self (present (V.state vol.old)) →
            IfErr result IsOutside }
        // So it is wherever the node log has its bounds.
        ensures bounded { V.tells → IsSeated F.shape self.tree (present (V.state vol.old)) → IfErr result IsOutside }
        // Every other log and every map stays, and so does what a crash leaves of it.
        ensures names { V.tells → NamesCall (logs_of self) (V.state vol.old) (V.state vol.new) }
        // From a turn on all items and all their nodes are durable.
        ensures images { let admits = H.Digest.Read.admits tt in V.tells → (list : List C.Item) (marks : Marks) →
            IsJoinedOf F.shape H.hash H.Digest.spelling admits C.Item.spelling list self (present (V.state vol.old)) →
            StepsStanding F.shape H.hash H.Digest.spelling C.Item.spelling list marks (all_synced (length list) marks)
            self (V.state vol.old) (V.state vol.new) result }
        ensures writes { self.failed ≡ false →
            Writes V.tells Error.Volume (V.state vol.old) (V.state vol.new) result }
    {
        if self.failed {
            return Err(Error::Volume);
        }
        let journal = self.journal.sync(vol)?;
        let merkle = self.merkle.sync(vol)?;
        Ok(Journal {
            alloc: self.alloc,
            journal,
            merkle,
            hasher: self.hasher,
            failed: self.failed,
        })
    }

    /// As `sync`, within the call: the ticket tells how the syncs have ended. Where that of the log of items has failed the tree
    /// isn't touched. A journal beside a failed ticket keeps the failure.
    pub fn start_sync<V: Volume>(self, vol: &mut V) -> Result<(Self, SyncTicket), Error<F>>
        ensures kept { self.failed ≡ true → IsErrOf result Error.Volume × (vol.new ≡ vol.old) }
        ensures same { IfOk result (λ made. IsStarted self made.0 (is_failed made.1)) }
        // Where the sync of the items has failed, the tree isn't touched.
        ensures untouched { IfOk result (λ made. made.0.items.failed ≡ true → (made.0.tree ≡ self.tree)
            × (V.tells → NamesCall (log_alone self.items.name) (V.state vol.old) (V.state vol.new))) }
        ensures rests { IfOk result (λ made. made.0.items.failed ≡ false → Rests F.shape made.0.tree) }
        ensures nodes { let admits = H.Digest.Read.admits tt in
            IfOk result (λ made. V.tells → (list : List C.Item) →
            IsJoinedOf F.shape H.hash H.Digest.spelling admits C.Item.spelling list self (present (V.state vol.old)) →
            made.0.tree.log.start ≡ self.tree.log.start) }
        // Where the sync of the items was done they are durable, whatever becomes of the tree.
        ensures items { IfOk result (λ made. made.0.items.failed ≡ false → V.tells →
            IsDurable self.items (V.state vol.new)) }
        ensures joined { let admits = H.Digest.Read.admits tt in
            IfOk result (λ made. V.tells → (list : List C.Item) →
            IsJoinedOf F.shape H.hash H.Digest.spelling admits C.Item.spelling list self (present (V.state vol.old)) →
            IsJoinedOf F.shape H.hash H.Digest.spelling admits C.Item.spelling list made.0 (present (V.state vol.new))) }
        ensures contents { V.tells → SameLog self.items (V.state vol.old) (V.state vol.new) }
        ensures durable { IfOk result (λ made. made.1 ≡ SyncTicket.Done → V.tells →
            IsDurable self.items (V.state vol.new) × IsDurable self.tree.log (V.state vol.new)) }
        ensures failed { IfOk result (λ made. made.1 ≡ SyncTicket.Failed →
            Rose (V.state vol.old).faults (V.state vol.new).faults) }
        // Nodes are written behind a sync of the items alone, and only a call that writes them fails with `Volume`.
        ensures behind { self.failed ≡ false → V.tells → IsErrOf result Error.Volume →
            IsDurable self.items (V.state vol.new) }
        ensures not_volume { self.failed ≡ false → self.tree.log.end ≡ length (made F.shape self.tree.tree.leaves) →
            IsErrOf result Error.Volume → ⊥ }
        // Of any journal, whatever the volume holds.
        ensures errors { IfErr result (IsFromTree (IsOfFlush F.shape self.tree)) }
        ensures outside { let admits = H.Digest.Read.admits tt in V.tells → (list : List C.Item) →
            IsJoinedOf F.shape H.hash H.Digest.spelling admits C.Item.spelling list self (present (V.state vol.old)) →
            IfErr result IsOutside }
        // Every other log and every map stays, and so does what a crash leaves of it.
        ensures names { V.tells → NamesCall (logs_of self) (V.state vol.old) (V.state vol.new) }
        // Beside a ticket that is done all items and all their nodes are durable from a turn on.
        ensures images { let admits = H.Digest.Read.admits tt in V.tells → (list : List C.Item) (marks : Marks) →
            IsJoinedOf F.shape H.hash H.Digest.spelling admits C.Item.spelling list self (present (V.state vol.old)) →
            StepsStanding F.shape H.hash H.Digest.spelling C.Item.spelling list marks (all_synced (length list) marks)
            self (V.state vol.old) (V.state vol.new) (outcome result) }
        // A failed ticket is a failure of the volume, and beside one that is done nothing has failed.
        ensures writes { self.failed ≡ false →
            Writes V.tells Error.Volume (V.state vol.old) (V.state vol.new) (outcome result) }
    {
        if self.failed {
            return Err(Error::Volume);
        }
        let (journal, items) = self.journal.start_sync(vol)?;
        match items {
            SyncTicket::Failed => {
                let unsynced = Journal {
                    alloc: self.alloc,
                    journal,
                    merkle: self.merkle,
                    hasher: self.hasher,
                    failed: true,
                };
                Ok((unsynced, items))
            }
            SyncTicket::Done => {
                let (merkle, nodes) = self.merkle.start_sync(vol)?;
                let started = Journal {
                    alloc: self.alloc,
                    journal,
                    merkle,
                    hasher: self.hasher,
                    failed: nodes == SyncTicket::Failed,
                };
                Ok((started, nodes))
            }
        }
    }
}
