//! How a database gives up old operations, and is taken away.
use crate::errors::from_joined;
use crate::{Keyless, KeylessOperation};
use chain_core::Error;
use journal_base::{Backing, Mutable};
use tree_core::{Family, Hasher, Location};
use volume_base::Volume;

impl<F: Family, O: KeylessOperation, C: Backing<Item = O>, H: Hasher> Keyless<F, O, C, H> {
    ghost use Rattle.std.specs.Prelude.{◌≡◌, ◌<◌, ◌≤◌, ℕ, List, length, max, true, false, Err};
    ghost use Rattle.std.specs.Prelude.{IfOk, IfErr, OnOk, IsErrOf};
    ghost use Rattle.std.specs.FinMap as finmap;
    ghost use Rattle.journal_base.specs.Blobs.{blob_start};
    ghost use Rattle.journal_base.specs.Items.{items_of};
    ghost use Rattle.journal_base.specs.View.{log_of, left_of, prune_point, IsDurable, IsHeld};
    ghost use Rattle.volume_base.specs.Log.{no_log, pruned_to};
    ghost use Rattle.volume_base.specs.Moments.{present};
    ghost use Rattle.volume_base.specs.Names.{NamesCall};
    ghost use Rattle.volume_base.specs.Volume.{MapStays, OnlyLeft, Changes, Writes};
    ghost use Rattle.tree_shape.specs.Shape.{made};
    ghost use Rattle.merkle_full.specs.Full.{Rests};
    ghost use Rattle.merkle_full.specs.Pruning.{KeepsPins};
    ghost use Rattle.auth_journal.specs.Durable.{IsPrunedTo, IsFromTree, IsJournalUnpruned};
    ghost use Rattle.auth_journal.specs.Standing.{Marks, all_synced, pruned_below, names_of, ItemsGoFirst};
    ghost use Rattle.auth_journal.specs.Standing.{StepsStanding};
    ghost use Rattle.chain_core.specs.Answers.{IsOutside};
    ghost use Rattle.chain_core.specs.declared.error.Error.{Error};
    ghost use Rattle.keyless_db.specs.DbView.{SameState, IsHeldFor, floor_in};
    ghost use Rattle.keyless_db.specs.Errors.{IsFromJoined};

    /// Gives up whole blobs of operations below a location: the database is synced first, then the log is pruned and
    /// synced again, and then the tree is pruned to where the log begins. Where a failed sync is kept it refuses with
    /// `Volume`, and then a location above the floor with `PruneBeyondMinRequired`, before anything is written.
    pub fn prune<V: Volume>(self, vol: &mut V, loc: Location<F>) -> Result<Self, Error<F>>
        ensures kept { self.journal.failed ≡ true → IsErrOf result Error.Volume × (vol.new ≡ vol.old) }
        ensures refused { self.journal.failed ≡ false → floor_in O.meaning self < loc →
            (result ≡ Err (Error.PruneBeyondMinRequired loc (floor_in O.meaning self))) × (vol.new ≡ vol.old) }
        ensures refused_only { (location floor : ℕ) → IsErrOf result (Error.PruneBeyondMinRequired location floor) →
            floor_in O.meaning self < loc }
        // Where the log never had an operation nothing is done.
        ensures empty { self.journal.failed ≡ false → loc ≤ floor_in O.meaning self → self.journal.items.end ≡ 0 →
            (result ≡ Ok self) × (vol.new ≡ vol.old) }
        ensures same { IfOk result (SameState self) }
        ensures below { OnOk result (loc ≤ floor_in O.meaning self) }
        ensures moved { IfOk result (λ d. 0 < self.journal.items.end → IsPrunedTo self.journal d.journal) }
        ensures rests { IfOk result (λ d. 0 < self.journal.items.end → Rests F.shape d.journal.tree) }
        // It stays the database of its list.
        ensures held { let admits = H.Digest.Read.admits tt in IfOk result (λ d. V.tells → (ops : List O) →
            IsHeldFor F.shape H.hash O.meaning H.Digest.spelling admits O.spelling ops self
            (present (V.state vol.old)) →
            IsHeldFor F.shape H.hash O.meaning H.Digest.spelling admits O.spelling ops d (present (V.state vol.new))) }
        ensures pruned { let items = self.journal.items in let point = prune_point items loc (V.state vol.old) in
            OnOk result (0 < items.end → V.tells →
            log_of items (V.state vol.new) ≡ pruned_to (log_of items (V.state vol.old)) point) }
        // Whole blobs below the boundary's position are gone from the node log, and no pin from its map.
        ensures nodes { let admits = H.Digest.Read.admits tt in IfOk result (λ d.
            self.journal.tree.boundary < d.journal.items.start → V.tells → (ops : List O) →
            IsHeldFor F.shape H.hash O.meaning H.Digest.spelling admits O.spelling ops self
            (present (V.state vol.old)) →
            let point = blob_start self.journal.tree.log.blob (length (made F.shape d.journal.items.start)) in
            d.journal.tree.log.start ≡ max self.journal.tree.log.start point) }
        // Where the tree isn't pruned further, the node log begins where it did, and the map stays, as what a crash
        // leaves of it.
        ensures nodes_stay { let admits = H.Digest.Read.admits tt in IfOk result (λ d.
            d.journal.items.start ≤ self.journal.tree.boundary → V.tells → (ops : List O) →
            IsHeldFor F.shape H.hash O.meaning H.Digest.spelling admits O.spelling ops self
            (present (V.state vol.old)) →
            d.journal.tree.log.start ≡ self.journal.tree.log.start) }
        ensures map_stays { let metadata = self.journal.tree.metadata in IfOk result (λ d.
            d.journal.items.start ≤ self.journal.tree.boundary → V.tells →
            ((V.state vol.new).map metadata ≡ (V.state vol.old).map metadata)
            × MapStays metadata (V.state vol.old) (V.state vol.new)) }
        ensures pins { let metadata = self.journal.tree.metadata in OnOk result (V.tells →
            KeepsPins ((V.state vol.old).map metadata) ((V.state vol.new).map metadata)) }
        ensures log { IfOk result (λ d. 0 < self.journal.items.end → V.tells →
            IsHeld d.journal.items (V.state vol.new)) }
        ensures durable { OnOk result (0 < self.journal.items.end → V.tells →
            IsDurable self.journal.items (V.state vol.new)) }
        // Of any database, whatever the volume holds: the place is where the log of operations begins then.
        ensures errors { loc ≤ floor_in O.meaning self → self.journal.failed ≡ false → let state = V.state vol.new in
            let nodes = items_of H.Digest.spelling H.Digest.Read.admits self.journal.tree.log state in
            let begins = (log_of self.journal.items state).start in
            IfErr result (IsFromJoined (IsFromTree
            (IsJournalUnpruned F.shape V.tells self.journal.tree nodes begins))) }
        ensures outside { let admits = H.Digest.Read.admits tt in V.tells → (ops : List O) →
            IsHeldFor F.shape H.hash O.meaning H.Digest.spelling admits O.spelling ops self
            (present (V.state vol.old)) →
            loc ≤ floor_in O.meaning self → IfErr result IsOutside }
        // Every other log and map stays, and so does what a crash leaves of it.
        ensures names { V.tells → NamesCall (names_of self.journal) (V.state vol.old) (V.state vol.new) }
        // From a turn on all operations and all their nodes are durable, and only from it on is anything pruned.
        ensures images { let admits = H.Digest.Read.admits tt in V.tells → (ops : List O) (marks : Marks) →
            IsHeldFor F.shape H.hash O.meaning H.Digest.spelling admits O.spelling ops self
            (present (V.state vol.old)) →
            StepsStanding F.shape H.hash H.Digest.spelling O.spelling ops marks
            (pruned_below loc (all_synced (length ops) marks)) self.journal (V.state vol.old) (V.state vol.new) result }
        ensures changes { self.journal.failed ≡ false →
            Changes V.tells Error.Volume (V.state vol.old) (V.state vol.new) result }
    {
        if self.journal.keeps_failure() {
            return Err(Error::Volume);
        }
        let floor = self.inactivity_floor_loc().as_u64();
        let location = loc.as_u64();
        if location > floor {
            return Err(Error::PruneBeyondMinRequired(
                Location::new(location),
                Location::new(floor),
            ));
        }
        match self.journal.prune(vol, Location::new(location)) {
            Ok((journal, _)) => Ok(Keyless {
                alloc: self.alloc,
                journal,
                state: self.state,
                last_commit: self.last_commit,
            }),
            Err(error) => Err(from_joined(error)),
        }
    }

    /// Takes the log of operations away, and then the tree. It is refused by the outside alone.
    pub fn destroy<V: Volume>(self, vol: &mut V) -> Result<(), Error<F>>
        ensures no_items { OnOk result (V.tells → log_of self.journal.items (V.state vol.new) ≡ no_log) }
        ensures no_nodes { OnOk result (V.tells → log_of self.journal.tree.log (V.state vol.new) ≡ no_log) }
        ensures no_map { OnOk result (V.tells → (V.state vol.new).map self.journal.tree.metadata ≡ finmap.empty) }
        ensures durable_items { OnOk result (V.tells → OnlyLeft (left_of self.journal.items (V.state vol.new)) no_log) }
        ensures durable_nodes { OnOk result (V.tells → OnlyLeft (left_of self.journal.tree.log (V.state vol.new))
            no_log) }
        ensures durable_map { let state = V.state vol.new in
            OnOk result (V.tells → OnlyLeft (state.map_left state.clock self.journal.tree.metadata) finmap.empty) }
        ensures outside { IfErr result IsOutside }
        // Every other log and map stays, and so does what a crash leaves of it.
        ensures names { V.tells → NamesCall (names_of self.journal) (V.state vol.old) (V.state vol.new) }
        // The tree is as it was until nothing is left of the log of operations.
        ensures images { V.tells → ItemsGoFirst self.journal (V.state vol.old) (V.state vol.new) }
        ensures writes { Writes V.tells Error.Volume (V.state vol.old) (V.state vol.new) result }
    {
        match self.journal.destroy(vol) {
            Ok(()) => Ok(()),
            Err(error) => Err(from_joined(error)),
        }
    }
}
