//! A journal that begins later.
use crate::{Error, Journal};
use journal_base::{Backing, Contiguous, Mutable};
use tree_core::{Family, Hasher, Location};
use volume_base::Volume;

impl<F: Family, C: Backing, H: Hasher> Journal<F, C, H> {
    ghost use Rattle.std.specs.Prelude.{◌≡◌, ◌<◌, ◌≤◌, ℕ, List, length, max, true, false, Ok, IfOk, IfErr, OnOk, IsErrOf};
    ghost use Rattle.journal_base.specs.Blobs.{blob_start};
    ghost use Rattle.journal_base.specs.Items.{items_of};
    ghost use Rattle.journal_base.specs.View.{log_of, prune_point, IsDurable, IsHeld};
    ghost use Rattle.merkle_full.specs.Flushing.{AllStand};
    ghost use Rattle.merkle_full.specs.Full.{Rests};
    ghost use Rattle.merkle_full.specs.Lists.{IsFullOf};
    ghost use Rattle.merkle_full.specs.Pruning.{StandsWhilePruned, KeepsPins, KeepsOthers};
    ghost use Rattle.tree_shape.specs.Pins.{pins};
    ghost use Rattle.tree_shape.specs.Shape.{made};
    ghost use Rattle.volume_base.specs.Log.{pruned_to, Advances};
    ghost use Rattle.volume_base.specs.Moments.{present};
    ghost use Rattle.volume_base.specs.Names.{log_and_map, NamesCall};
    ghost use Rattle.volume_base.specs.Volume.{LogCall, MapStays, Changes, Writes};
    ghost use Rattle.auth_journal.specs.Durable.{IsCut, IsPrunedTo, IsFromTree, IsTreeUnpruned, IsJournalUnpruned};
    ghost use Rattle.auth_journal.specs.Errors.{IsOutside};
    ghost use Rattle.auth_journal.specs.Joined.{IsSoundJoin, IsJoinedOf};
    ghost use Rattle.auth_journal.specs.Standing.{Marks, all_synced, pruned_below, names_of, StepsStanding};
    ghost use Rattle.auth_journal.specs.declared.error.Error.{Error};

    /// Takes whole blobs of the log of items below a location away, and makes its new start durable.
    fn prune_items<V: Volume>(self, vol: &mut V, loc: Location<F>) -> Result<Self, Error<F>>
        ensures sound { IsSoundJoin self }
        ensures cut { IfOk result (λ j. IsCut self j) }
        ensures held { IfOk result (λ j. V.tells → IsHeld j.items (V.state vol.new)) }
        ensures pruned { let point = prune_point self.items loc (V.state vol.old) in OnOk result (V.tells →
            log_of self.items (V.state vol.new) ≡ pruned_to (log_of self.items (V.state vol.old)) point) }
        ensures durable { OnOk result (V.tells → IsDurable self.items (V.state vol.new)) }
        ensures outside { IfErr result IsOutside }
        ensures log { let point = prune_point self.items loc (V.state vol.old) in
            V.tells → LogCall self.items.name (Advances point) (V.state vol.old) (V.state vol.new) }
        ensures writes { self.failed ≡ false →
            Writes V.tells Error.Volume (V.state vol.old) (V.state vol.new) result }
    {
        let (pruned, _) = self.journal.prune(vol, loc.as_u64())?;
        let journal = pruned.sync(vol)?;
        Ok(Journal {
            alloc: self.alloc,
            journal,
            merkle: self.merkle,
            hasher: self.hasher,
            failed: self.failed,
        })
    }

    /// Prunes the tree to where the log of items begins.
    fn prune_tree<V: Volume>(self, vol: &mut V) -> Result<Self, Error<F>>
        ensures items { IfOk result (λ j. j.items ≡ self.items) }
        ensures moved { IfOk result (λ j. IsPrunedTo self j) }
        ensures rests { IfOk result (λ j. Rests F.shape self.tree → Rests F.shape j.tree) }
        ensures start { let admits = H.Digest.Read.admits tt in
            let point = blob_start self.tree.log.blob (length (made F.shape self.items.start)) in
            IfOk result (λ j. self.tree.boundary < self.items.start → V.tells → (all : List H.Digest) →
            IsFullOf F.shape H.hash H.Digest.spelling admits all self.tree (present (V.state vol.old)) →
            j.tree.log.start ≡ max self.tree.log.start point) }
        ensures pins { OnOk result (V.tells →
            KeepsPins ((V.state vol.old).map self.tree.metadata) ((V.state vol.new).map self.tree.metadata)) }
        // Of the map's keys at most the boundary's and those of its pins change.
        ensures others { let old = V.state vol.old in
            OnOk result (V.tells → KeepsOthers (pins F.shape self.items.start) (old.map self.tree.metadata)
            ((V.state vol.new).map self.tree.metadata)) }
        // At or below its boundary nothing changes.
        ensures stays { IfOk result (λ j. self.items.start ≤ self.tree.boundary →
            (j.tree ≡ self.tree) × (vol.new ≡ vol.old)) }
        // Of any tree, whatever the volume holds.
        ensures errors { let items = items_of H.Digest.spelling H.Digest.Read.admits self.tree.log (V.state vol.new) in
            IfErr result (IsFromTree (IsTreeUnpruned F.shape V.tells self.tree items self.items.start)) }
        ensures full { let admits = H.Digest.Read.admits tt in
            IfOk result (λ j. V.tells → (all : List H.Digest) →
            IsFullOf F.shape H.hash H.Digest.spelling admits all self.tree (present (V.state vol.old)) →
            IsFullOf F.shape H.hash H.Digest.spelling admits all j.tree (present (V.state vol.new))) }
        ensures outside { let admits = H.Digest.Read.admits tt in V.tells → (all : List H.Digest) →
            IsFullOf F.shape H.hash H.Digest.spelling admits all self.tree (present (V.state vol.old)) →
            self.items.start ≤ self.tree.tree.leaves → IfErr result IsOutside }
        ensures names { let names = log_and_map self.tree.log.name self.tree.metadata in
            V.tells → NamesCall names (V.state vol.old) (V.state vol.new) }
        ensures images { let admits = H.Digest.Read.admits tt in V.tells → (all : List H.Digest) (durable top : ℕ) →
            IsFullOf F.shape H.hash H.Digest.spelling admits all self.tree (present (V.state vol.old)) →
            AllStand F.shape H.hash H.Digest.spelling all durable top self.tree (V.state vol.old) →
            StandsWhilePruned F.shape H.hash H.Digest.spelling all durable top self.items.start self.tree
            (V.state vol.old) (V.state vol.new) }
        ensures changes { self.failed ≡ false →
            Changes V.tells Error.Volume (V.state vol.old) (V.state vol.new) result }
    {
        let (start, _) = self.journal.bounds();
        let merkle = self.merkle.prune(vol, Location::new(start))?;
        Ok(Journal {
            alloc: self.alloc,
            journal: self.journal,
            merkle,
            hasher: self.hasher,
            failed: self.failed,
        })
    }

    /// Prunes to a location, by blobs, and answers the start: the journal is synced first, then the log of items is pruned and
    /// synced again, and then the tree is pruned to where that log begins. A location past the end counts as the end. Of a journal
    /// without items nothing changes. Where a failed sync is kept it refuses with `Volume`, and writes nothing.
    pub fn prune<V: Volume>(
        self,
        vol: &mut V,
        loc: Location<F>,
    ) -> Result<(Self, Location<F>), Error<F>>
        ensures kept { self.failed ≡ true → IsErrOf result Error.Volume × (vol.new ≡ vol.old) }
        ensures empty { self.failed ≡ false → self.items.end ≡ 0 →
            (result ≡ Ok (self, self.items.start)) × (vol.new ≡ vol.old) }
        ensures start { IfOk result (λ made. made.1 ≡ made.0.items.start) }
        ensures moved { IfOk result (λ made. 0 < self.items.end → IsPrunedTo self made.0) }
        ensures rests { IfOk result (λ made. 0 < self.items.end → Rests F.shape made.0.tree) }
        ensures held { IfOk result (λ made. 0 < self.items.end → V.tells → IsHeld made.0.items (V.state vol.new)) }
        ensures pruned { let point = prune_point self.items loc (V.state vol.old) in
            OnOk result (0 < self.items.end → V.tells →
            log_of self.items (V.state vol.new) ≡ pruned_to (log_of self.items (V.state vol.old)) point) }
        // Whole blobs below the boundary's position are gone from the node log, and no pin from its map.
        ensures nodes { let admits = H.Digest.Read.admits tt in
            IfOk result (λ pruned. self.tree.boundary < pruned.0.items.start → V.tells → (list : List C.Item) →
            IsJoinedOf F.shape H.hash H.Digest.spelling admits C.Item.spelling list self (present (V.state vol.old)) →
            let point = blob_start self.tree.log.blob (length (made F.shape pruned.0.items.start)) in
            pruned.0.tree.log.start ≡ max self.tree.log.start point) }
        // Where the tree isn't pruned further, the node log begins where it did, and the map stays, as what a crash
        // leaves of it.
        ensures nodes_stay { let admits = H.Digest.Read.admits tt in
            IfOk result (λ pruned. pruned.0.items.start ≤ self.tree.boundary → V.tells → (list : List C.Item) →
            IsJoinedOf F.shape H.hash H.Digest.spelling admits C.Item.spelling list self (present (V.state vol.old)) →
            pruned.0.tree.log.start ≡ self.tree.log.start) }
        ensures map_stays { let metadata = self.tree.metadata in
            IfOk result (λ pruned. pruned.0.items.start ≤ self.tree.boundary → V.tells →
            ((V.state vol.new).map metadata ≡ (V.state vol.old).map metadata)
            × MapStays metadata (V.state vol.old) (V.state vol.new)) }
        ensures pins { OnOk result (V.tells →
            KeepsPins ((V.state vol.old).map self.tree.metadata) ((V.state vol.new).map self.tree.metadata)) }
        // Of the map's keys at most the boundary's and those of its pins change.
        ensures others { let old = V.state vol.old in
            IfOk result (λ made. V.tells → KeepsOthers (pins F.shape made.0.items.start) (old.map self.tree.metadata)
            ((V.state vol.new).map self.tree.metadata)) }
        ensures durable { OnOk result (0 < self.items.end → V.tells → IsDurable self.items (V.state vol.new)) }
        ensures joined { let admits = H.Digest.Read.admits tt in
            IfOk result (λ made. V.tells → (list : List C.Item) →
            IsJoinedOf F.shape H.hash H.Digest.spelling admits C.Item.spelling list self (present (V.state vol.old)) →
            IsJoinedOf F.shape H.hash H.Digest.spelling admits C.Item.spelling list made.0 (present (V.state vol.new))) }
        // Of any journal, whatever the volume holds: the place is where the log of items begins then.
        ensures errors { let state = V.state vol.new in
            let items = items_of H.Digest.spelling H.Digest.Read.admits self.tree.log state in
            IfErr result (IsFromTree (IsJournalUnpruned F.shape V.tells self.tree items (log_of self.items state).start)) }
        ensures outside { let admits = H.Digest.Read.admits tt in V.tells → (list : List C.Item) →
            IsJoinedOf F.shape H.hash H.Digest.spelling admits C.Item.spelling list self (present (V.state vol.old)) →
            IfErr result IsOutside }
        // Every other log and map stays, and so does what a crash leaves of it.
        ensures names { V.tells → NamesCall (names_of self) (V.state vol.old) (V.state vol.new) }
        // From a turn on all items and all their nodes are durable, and only from it on is anything pruned.
        ensures images { let admits = H.Digest.Read.admits tt in V.tells → (list : List C.Item) (marks : Marks) →
            IsJoinedOf F.shape H.hash H.Digest.spelling admits C.Item.spelling list self (present (V.state vol.old)) →
            StepsStanding F.shape H.hash H.Digest.spelling C.Item.spelling list marks
            (pruned_below loc (all_synced (length list) marks)) self (V.state vol.old) (V.state vol.new) result }
        ensures changes { self.failed ≡ false →
            Changes V.tells Error.Volume (V.state vol.old) (V.state vol.new) result }
    {
        if self.failed {
            return Err(Error::Volume);
        }
        let (start, end) = self.journal.bounds();
        if end == 0 {
            return Ok((self, Location::new(start)));
        }
        let synced = self.sync(vol)?;
        let cut = synced.prune_items(vol, loc)?;
        let pruned = cut.prune_tree(vol)?;
        let (start, _) = pruned.journal.bounds();
        Ok((pruned, Location::new(start)))
    }
}
