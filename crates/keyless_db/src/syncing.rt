//! How a database is made durable.
use crate::errors::from_joined;
use crate::{Keyless, KeylessOperation};
use chain_core::Error;
use journal_base::{Backing, SyncTicket};
use tree_core::{Family, Hasher};
use volume_base::Volume;

impl<F: Family, O: KeylessOperation, C: Backing<Item = O>, H: Hasher> Keyless<F, O, C, H> {
    ghost use Rattle.std.specs.Prelude.{◌≡◌, List, length, true, false, IfOk, IfErr, OnOk, IsErrOf};
    ghost use Rattle.codec_base.specs.Causes.{Rose};
    ghost use Rattle.journal_base.specs.Tickets.{is_failed};
    ghost use Rattle.journal_base.specs.View.{SameLog, IsDurable};
    ghost use Rattle.volume_base.specs.Moments.{present};
    ghost use Rattle.volume_base.specs.Names.{log_alone, NamesCall};
    ghost use Rattle.volume_base.specs.Volume.{Writes};
    ghost use Rattle.tree_shape.specs.Shape.{made};
    ghost use Rattle.merkle_full.specs.Flushing.{IsOfFlush};
    ghost use Rattle.merkle_full.specs.Full.{Rests};
    ghost use Rattle.auth_journal.specs.Durable.{IsFlushed, IsStarted, IsFromTree};
    ghost use Rattle.auth_journal.specs.Standing.{Marks, items_synced, all_synced, logs_of, StepsStanding};
    ghost use Rattle.chain_core.specs.Answers.{IsOutside};
    ghost use Rattle.chain_core.specs.declared.error.Error.{Error};
    ghost use Rattle.keyless_db.specs.DbView.{SameState, IsHeldFor};
    ghost use Rattle.keyless_db.specs.Durable.{outcome};
    ghost use Rattle.keyless_db.specs.Errors.{IsFromJoined};

    /// Makes the operations durable, and then appends the nodes that the node log lacks. Where a failed sync is kept
    /// it refuses with `Volume`, and writes nothing. Else a held database is refused by the outside alone.
    pub fn commit<V: Volume>(self, vol: &mut V) -> Result<Self, Error<F>>
        ensures kept { self.journal.failed ≡ true → IsErrOf result Error.Volume × (vol.new ≡ vol.old) }
        ensures same { IfOk result (SameState self) }
        ensures journal { IfOk result (λ d. IsFlushed self.journal d.journal) }
        ensures rests { IfOk result (λ d. Rests F.shape d.journal.tree) }
        ensures nodes { let admits = H.Digest.Read.admits tt in IfOk result (λ d. V.tells → (ops : List O) →
            IsHeldFor F.shape H.hash O.meaning H.Digest.spelling admits O.spelling ops self
            (present (V.state vol.old)) →
            d.journal.tree.log.start ≡ self.journal.tree.log.start) }
        // It stays the database of its list.
        ensures held { let admits = H.Digest.Read.admits tt in IfOk result (λ d. V.tells → (ops : List O) →
            IsHeldFor F.shape H.hash O.meaning H.Digest.spelling admits O.spelling ops self
            (present (V.state vol.old)) →
            IsHeldFor F.shape H.hash O.meaning H.Digest.spelling admits O.spelling ops d (present (V.state vol.new))) }
        ensures contents { V.tells → SameLog self.journal.items (V.state vol.old) (V.state vol.new) }
        ensures durable { OnOk result (V.tells → IsDurable self.journal.items (V.state vol.new)) }
        // Of any database, whatever the volume holds.
        ensures errors { IfErr result (IsFromJoined (IsFromTree (IsOfFlush F.shape self.journal.tree))) }
        ensures outside { let admits = H.Digest.Read.admits tt in V.tells → (ops : List O) →
            IsHeldFor F.shape H.hash O.meaning H.Digest.spelling admits O.spelling ops self
            (present (V.state vol.old)) →
            IfErr result IsOutside }
        // Every other log and map stays, and so does what a crash leaves of it.
        ensures names { V.tells → NamesCall (logs_of self.journal) (V.state vol.old) (V.state vol.new) }
        // From a turn on all operations are durable.
        ensures images { let admits = H.Digest.Read.admits tt in V.tells → (ops : List O) (marks : Marks) →
            IsHeldFor F.shape H.hash O.meaning H.Digest.spelling admits O.spelling ops self
            (present (V.state vol.old)) →
            StepsStanding F.shape H.hash H.Digest.spelling O.spelling ops marks (items_synced (length ops) marks)
            self.journal (V.state vol.old) (V.state vol.new) result }
        ensures writes { self.journal.failed ≡ false →
            Writes V.tells Error.Volume (V.state vol.old) (V.state vol.new) result }
    {
        match self.journal.commit(vol) {
            Ok(journal) => Ok(Keyless {
                alloc: self.alloc,
                journal,
                state: self.state,
                last_commit: self.last_commit,
            }),
            Err(error) => Err(from_joined(error)),
        }
    }

    /// Makes the operations durable, and then their nodes. It refuses as `commit`.
    pub fn sync<V: Volume>(self, vol: &mut V) -> Result<Self, Error<F>>
        ensures kept { self.journal.failed ≡ true → IsErrOf result Error.Volume × (vol.new ≡ vol.old) }
        ensures same { IfOk result (SameState self) }
        ensures journal { IfOk result (λ d. IsFlushed self.journal d.journal) }
        ensures rests { IfOk result (λ d. Rests F.shape d.journal.tree) }
        ensures nodes { let admits = H.Digest.Read.admits tt in IfOk result (λ d. V.tells → (ops : List O) →
            IsHeldFor F.shape H.hash O.meaning H.Digest.spelling admits O.spelling ops self
            (present (V.state vol.old)) →
            d.journal.tree.log.start ≡ self.journal.tree.log.start) }
        // It stays the database of its list.
        ensures held { let admits = H.Digest.Read.admits tt in IfOk result (λ d. V.tells → (ops : List O) →
            IsHeldFor F.shape H.hash O.meaning H.Digest.spelling admits O.spelling ops self
            (present (V.state vol.old)) →
            IsHeldFor F.shape H.hash O.meaning H.Digest.spelling admits O.spelling ops d (present (V.state vol.new))) }
        ensures contents { V.tells → SameLog self.journal.items (V.state vol.old) (V.state vol.new) }
        ensures durable { OnOk result (V.tells →
            IsDurable self.journal.items (V.state vol.new) × IsDurable self.journal.tree.log (V.state vol.new)) }
        // Of any database, whatever the volume holds.
        ensures errors { IfErr result (IsFromJoined (IsFromTree (IsOfFlush F.shape self.journal.tree))) }
        ensures outside { let admits = H.Digest.Read.admits tt in V.tells → (ops : List O) →
            IsHeldFor F.shape H.hash O.meaning H.Digest.spelling admits O.spelling ops self
            (present (V.state vol.old)) →
            IfErr result IsOutside }
        // Every other log and map stays, and so does what a crash leaves of it.
        ensures names { V.tells → NamesCall (logs_of self.journal) (V.state vol.old) (V.state vol.new) }
        // From a turn on all operations and all their nodes are durable.
        ensures images { let admits = H.Digest.Read.admits tt in V.tells → (ops : List O) (marks : Marks) →
            IsHeldFor F.shape H.hash O.meaning H.Digest.spelling admits O.spelling ops self
            (present (V.state vol.old)) →
            StepsStanding F.shape H.hash H.Digest.spelling O.spelling ops marks (all_synced (length ops) marks)
            self.journal (V.state vol.old) (V.state vol.new) result }
        ensures writes { self.journal.failed ≡ false →
            Writes V.tells Error.Volume (V.state vol.old) (V.state vol.new) result }
    {
        match self.journal.sync(vol) {
            Ok(journal) => Ok(Keyless {
                alloc: self.alloc,
                journal,
                state: self.state,
                last_commit: self.last_commit,
            }),
            Err(error) => Err(from_joined(error)),
        }
    }

    /// As `sync`, within the call: the ticket tells how the syncs have ended. Where that of the operations has failed
    /// the tree isn't touched. A database beside a failed ticket keeps the failure.
    pub fn start_sync<V: Volume>(self, vol: &mut V) -> Result<(Self, SyncTicket), Error<F>>
        ensures kept { self.journal.failed ≡ true → IsErrOf result Error.Volume × (vol.new ≡ vol.old) }
        ensures same { IfOk result (λ made. SameState self made.0) }
        ensures journal { IfOk result (λ made. IsStarted self.journal made.0.journal (is_failed made.1)) }
        // Where the sync of the operations has failed, the tree isn't touched.
        ensures untouched { IfOk result (λ made. made.0.journal.items.failed ≡ true →
            (made.0.journal.tree ≡ self.journal.tree)
            × (V.tells → NamesCall (log_alone self.journal.items.name) (V.state vol.old) (V.state vol.new))) }
        ensures rests { IfOk result (λ made. made.0.journal.items.failed ≡ false → Rests F.shape made.0.journal.tree) }
        ensures nodes { let admits = H.Digest.Read.admits tt in IfOk result (λ made. V.tells → (ops : List O) →
            IsHeldFor F.shape H.hash O.meaning H.Digest.spelling admits O.spelling ops self
            (present (V.state vol.old)) →
            made.0.journal.tree.log.start ≡ self.journal.tree.log.start) }
        // Where the sync of the operations was done they are durable, whatever becomes of the tree.
        ensures items { IfOk result (λ made. made.0.journal.items.failed ≡ false → V.tells →
            IsDurable self.journal.items (V.state vol.new)) }
        // It stays the database of its list.
        ensures held { let admits = H.Digest.Read.admits tt in IfOk result (λ made. V.tells → (ops : List O) →
            IsHeldFor F.shape H.hash O.meaning H.Digest.spelling admits O.spelling ops self
            (present (V.state vol.old)) →
            IsHeldFor F.shape H.hash O.meaning H.Digest.spelling admits O.spelling ops made.0
            (present (V.state vol.new))) }
        ensures contents { V.tells → SameLog self.journal.items (V.state vol.old) (V.state vol.new) }
        ensures durable { IfOk result (λ made. made.1 ≡ SyncTicket.Done → V.tells →
            IsDurable self.journal.items (V.state vol.new) × IsDurable self.journal.tree.log (V.state vol.new)) }
        ensures failed { IfOk result (λ made. made.1 ≡ SyncTicket.Failed →
            Rose (V.state vol.old).faults (V.state vol.new).faults) }
        // Nodes are written behind a sync of the operations alone, and only a call that writes them fails with
        // `Volume`.
        ensures behind { self.journal.failed ≡ false → V.tells → IsErrOf result Error.Volume →
            IsDurable self.journal.items (V.state vol.new) }
        ensures not_volume { self.journal.failed ≡ false →
            self.journal.tree.log.end ≡ length (made F.shape self.journal.tree.tree.leaves) →
            IsErrOf result Error.Volume → ⊥ }
        // Of any database, whatever the volume holds.
        ensures errors { IfErr result (IsFromJoined (IsFromTree (IsOfFlush F.shape self.journal.tree))) }
        ensures outside { let admits = H.Digest.Read.admits tt in V.tells → (ops : List O) →
            IsHeldFor F.shape H.hash O.meaning H.Digest.spelling admits O.spelling ops self
            (present (V.state vol.old)) →
            IfErr result IsOutside }
        // Every other log and map stays, and so does what a crash leaves of it.
        ensures names { V.tells → NamesCall (logs_of self.journal) (V.state vol.old) (V.state vol.new) }
        // Beside a ticket that is done all operations and all their nodes are durable from a turn on.
        ensures images { let admits = H.Digest.Read.admits tt in V.tells → (ops : List O) (marks : Marks) →
            IsHeldFor F.shape H.hash O.meaning H.Digest.spelling admits O.spelling ops self
            (present (V.state vol.old)) →
            StepsStanding F.shape H.hash H.Digest.spelling O.spelling ops marks (all_synced (length ops) marks)
            self.journal (V.state vol.old) (V.state vol.new) (outcome result) }
        // A failed ticket is a failure of the volume, and beside one that is done nothing has failed.
        ensures writes { self.journal.failed ≡ false →
            Writes V.tells Error.Volume (V.state vol.old) (V.state vol.new) (outcome result) }
    {
        match self.journal.start_sync(vol) {
            Ok((journal, ticket)) => {
                let started = Keyless {
                    alloc: self.alloc,
                    journal,
                    state: self.state,
                    last_commit: self.last_commit,
                };
                Ok((started, ticket))
            }
            Err(error) => Err(from_joined(error)),
        }
    }
}
