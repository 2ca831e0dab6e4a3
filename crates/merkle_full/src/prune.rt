//! Pruning: the tree is synced, then its map is replaced, and then its log begins later.
use crate::Merkle;
use crate::boundary_map::put_boundary;
use crate::pins::pin_positions;
use crate::repin::repinned;
use journal_base::Mutable;
use tree_core::{Digest, Error, Family, Location, MAX_LEAVES, Position};
use volume_base::{MetaMap, Volume};

impl<F: Family, D: Digest> Merkle<F, D> {
    ghost use Rattle.std.specs.Prelude.{◌≡◌, ◌+◌, ◌<◌, ◌≤◌, ◌^◌, ℕ, List, length, map, max, true, false, Ok, Err, IfOk, IfErr, OnOk, IsErrOf, IsOkUnless};
    ghost use Rattle.journal_base.specs.Blobs.{blob_start};
    ghost use Rattle.journal_base.specs.Items.{items_of};
    ghost use Rattle.journal_base.specs.View.{log_of, IsDurable, prune_point};
    ghost use Rattle.tree_shape.specs.Hashing.{Hashing};
    ghost use Rattle.tree_shape.specs.Pins.{pins};
    ghost use Rattle.tree_shape.specs.Shape.{made, peaks};
    ghost use Rattle.tree_shape.specs.Slow.{node_of};
    ghost use Rattle.tree_core.specs.Tree.{IsOf, prune_answer};
    ghost use Rattle.tree_store.specs.Stores.{IsOutside};
    ghost use Rattle.tree_store.specs.Stored.{IsMapOf};
    ghost use Rattle.tree_store.specs.declared.error.Error.{Error};
    ghost use Rattle.volume_base.specs.Log.{Advances, BecomesOneOf};
    ghost use Rattle.volume_base.specs.Moments.{present};
    ghost use Rattle.volume_base.specs.Names.{log_and_map, NamesCall};
    ghost use Rattle.volume_base.specs.Volume.{OnlyLeft, LogCall, WritesMap, Changes, Writes, Reads};
    ghost use Rattle.merkle_full.specs.Flushing.{IsSameTree, AllStand, AllKeepStanding};
    ghost use Rattle.merkle_full.specs.Full.{Full, Rests};
    ghost use Rattle.merkle_full.specs.Lists.{IsFullOf};
    ghost use Rattle.merkle_full.specs.Reading.{IsUnreadAmong};
    ghost use Rattle.merkle_full.specs.Pruning.{pinned_map, at_boundary, KeepsPins, KeepsOthers, IsMovedTo, beside_map, StandsWhilePruned, IsOfPrune};

    /// The tree with these peaks of a boundary in memory, pruned there in memory alone.
    fn moved_to(
        self,
        boundary: Location<F>,
        positions: &[Position<F>],
        digests: &[D],
    ) -> Result<Self, Error<F>>
        requires positions { positions.now ≡ pins F.shape boundary }
        requires counted { length positions.now ≡ length digests.now }
        requires low { boundary ≤ self.tree.leaves }
        ensures moved { IfOk result (λ t. IsMovedTo boundary self t) }
        ensures rests { IfOk result (λ t. Rests F.shape t) }
        ensures tree { IfOk result (λ t. (h : Hashing D) (all : List D) → IsOf F.shape h all self.tree →
            digests.now ≡ map (node_of F.shape h all) (peaks F.shape boundary) → IsOf F.shape h all t.tree) }
        ensures memory { IsOkUnless result Error.Memory }
    {
        let leaves = boundary.as_u64();
        let alloc = *self.metadata.allocator();
        // Its leaves tell that memory is sound.
        let _leaves = self.mem.leaves();
        let mem = repinned(alloc, self.mem, positions, digests, Location::new(leaves))?;
        Ok(Merkle {
            mem,
            nodes: self.nodes,
            metadata: self.metadata,
            boundary: leaves,
        })
    }

    /// The map with these pins of a boundary, and with the boundary. It loses no pin.
    fn next_map<V: Volume>(
        &self,
        vol: &mut V,
        boundary: Location<F>,
        positions: &[Position<F>],
        digests: &[D],
    ) -> Result<MetaMap, Error<F>>
        requires { length positions.now ≡ length digests.now }
        ensures map { let old = (V.state vol.old).map self.now.metadata in
            IfOk result (λ m. V.tells → m ≡ pinned_map D.spelling old positions.now digests.now boundary) }
        ensures outside { IfErr result IsOutside }
        ensures reads { Reads V.tells Error.Volume (V.state vol.old) (V.state vol.new) result }
    {
        let mut map = vol.map_get(self.metadata.as_str())?;
        put_boundary(
            *self.metadata.allocator(),
            &mut map,
            positions,
            digests,
            boundary,
        )?;
        Ok(map)
    }

    /// Puts a map in the place of its own.
    fn put_map<V: Volume>(&self, vol: &mut V, map: &MetaMap) -> Result<(), Error<F>>
        ensures map { OnOk result (V.tells → (V.state vol.new).map self.now.metadata ≡ map.now) }
        ensures durable { let state = V.state vol.new in
            OnOk result (V.tells → OnlyLeft (state.map_left state.clock self.now.metadata) map.now) }
        ensures outside { IfErr result IsOutside }
        ensures call { let step = BecomesOneOf map.now in
            WritesMap V.tells Error.Volume self.now.metadata step (V.state vol.old) (V.state vol.new) result }
    {
        vol.map_replace(self.metadata.as_str(), map)?;
        Ok(())
    }

    /// Takes whole blobs of the log below the boundary's position away.
    fn prune_log<V: Volume>(self, vol: &mut V) -> Result<Self, Error<F>>
        ensures tree { IfOk result (λ t. t.tree ≡ self.tree) }
        ensures same { IfOk result (λ t. IsSameTree self t) }
        ensures start { let log = log_of self.log (V.state vol.old) in
            let point = prune_point self.log (length (made F.shape self.boundary)) (V.state vol.old) in
            IfOk result (λ t. V.tells → t.log.start ≡ max log.start point) }
        ensures full { IfOk result (λ t. V.tells → (h : Hashing D) (all : List D) →
            IsFullOf F.shape h D.spelling (D.Read.admits tt) all self (present (V.state vol.old)) →
            IsFullOf F.shape h D.spelling (D.Read.admits tt) all t (present (V.state vol.new))) }
        ensures outside { self.log.failed ≡ false → IfErr result IsOutside }
        ensures log { let point = prune_point self.log (length (made F.shape self.boundary)) (V.state vol.old) in
            V.tells → LogCall self.log.name (Advances point) (V.state vol.old) (V.state vol.new) }
        ensures writes { self.log.failed ≡ false →
            Writes V.tells Error.Volume (V.state vol.old) (V.state vol.new) result }
    {
        let (nodes, _) = self.nodes.prune(vol, F::size(self.boundary))?;
        Ok(Merkle {
            mem: self.mem,
            nodes,
            metadata: self.metadata,
            boundary: self.boundary,
        })
    }

    /// The tree as it will be pruned, in memory alone, and the map that it will have.
    fn next<V: Volume>(
        self,
        vol: &mut V,
        boundary: Location<F>,
    ) -> Result<(Self, MetaMap), Error<F>>
        requires { boundary ≤ self.tree.leaves }
        ensures moved { IfOk result (λ made. IsMovedTo boundary self made.0) }
        ensures rests { IfOk result (λ made. Rests F.shape made.0) }
        ensures ready { IfOk result (λ made. V.tells → (h : Hashing D) (all : List D) → self.boundary ≤ boundary →
            self.tree.boundary ≡ self.tree.leaves →
            IsFullOf F.shape h D.spelling (D.Read.admits tt) all self (present (V.state vol.old)) →
            IsFullOf F.shape h D.spelling (D.Read.admits tt) all made.0 (beside_map (V.state vol.new) made.1)) }
        ensures pins { IfOk result (λ made. V.tells →
            KeepsPins ((V.state vol.old).map self.metadata) made.1) }
        ensures others { IfOk result (λ made. V.tells →
            KeepsOthers (pins F.shape boundary) ((V.state vol.old).map self.metadata) made.1) }
        ensures refused { let items = items_of D.spelling D.Read.admits self.log (V.state vol.old) in
            IfErr result (IsUnreadAmong V.tells items (pins F.shape boundary)) }
        ensures outside { V.tells → (h : Hashing D) (all : List D) → self.boundary ≤ boundary →
            IsFullOf F.shape h D.spelling (D.Read.admits tt) all self (present (V.state vol.old)) →
            IfErr result IsOutside }
        ensures reads { Reads V.tells Error.Volume (V.state vol.old) (V.state vol.new) result }
    {
        // Its leaves tell that memory is sound.
        let _leaves = self.mem.leaves();
        let leaves = boundary.as_u64();
        let positions = pin_positions::<F>(*self.metadata.allocator(), leaves)?;
        let digests = self.peaks_at(vol, leaves, &positions)?;
        let map = self.next_map(vol, Location::new(leaves), &positions, &digests)?;
        let moved = self.moved_to(Location::new(leaves), &positions, &digests)?;
        Ok((moved, map))
    }

    /// Replaces the map, and then takes whole blobs of the log below the boundary's position away.
    fn store<V: Volume>(self, vol: &mut V, map: &MetaMap) -> Result<Self, Error<F>>
        ensures tree { IfOk result (λ t. t.tree ≡ self.tree) }
        ensures same { IfOk result (λ t. IsSameTree self t) }
        ensures start { let log = log_of self.log (V.state vol.old) in
            let point = prune_point self.log (length (made F.shape self.boundary)) (V.state vol.old) in
            IfOk result (λ t. V.tells → t.log.start ≡ max log.start point) }
        ensures full { IfOk result (λ t. V.tells → (h : Hashing D) (all : List D) →
            IsFullOf F.shape h D.spelling (D.Read.admits tt) all self (beside_map (V.state vol.old) map.now) →
            IsFullOf F.shape h D.spelling (D.Read.admits tt) all t (present (V.state vol.new))) }
        ensures stored { OnOk result (V.tells → (V.state vol.new).map self.metadata ≡ map.now) }
        ensures outside { self.log.failed ≡ false → IfErr result IsOutside }
        ensures names { let names = log_and_map self.log.name self.metadata in
            V.tells → NamesCall names (V.state vol.old) (V.state vol.new) }
        ensures images { V.tells → (h : Hashing D) (all : List D) (durable top : ℕ) → Rests F.shape self →
            IsFullOf F.shape h D.spelling (D.Read.admits tt) all self (beside_map (V.state vol.old) map.now) →
            IsDurable self.log (V.state vol.old) →
            AllStand F.shape h D.spelling all durable top self (V.state vol.old) →
            AllKeepStanding F.shape h D.spelling all durable (max top self.boundary) self (V.state vol.old)
            (V.state vol.new) }
        ensures writes { self.log.failed ≡ false →
            Writes V.tells Error.Volume (V.state vol.old) (V.state vol.new) result }
    {
        self.put_map(vol, map)?;
        let pruned = self.prune_log(vol)?;
        Ok(pruned)
    }

    /// As `prune`, of a tree that keeps no failure, above its boundary.
    fn prune_above<V: Volume>(self, vol: &mut V, boundary: Location<F>) -> Result<Self, Error<F>>
        requires unfailed { self.log.failed ≡ false }
        requires low { boundary ≤ self.tree.leaves }
        requires above { self.boundary ≤ boundary }
        ensures moved { IfOk result (λ t. IsSameTree (at_boundary self boundary) t) }
        ensures rests { IfOk result (λ t. Rests F.shape t) }
        ensures start { let start = blob_start self.log.blob (length (made F.shape boundary)) in
            IfOk result (λ t. V.tells → (h : Hashing D) (all : List D) →
            IsFullOf F.shape h D.spelling (D.Read.admits tt) all self (present (V.state vol.old)) →
            t.log.start ≡ max self.log.start start) }
        ensures full { IfOk result (λ t. V.tells → (h : Hashing D) (all : List D) →
            IsFullOf F.shape h D.spelling (D.Read.admits tt) all self (present (V.state vol.old)) →
            IsFullOf F.shape h D.spelling (D.Read.admits tt) all t (present (V.state vol.new))) }
        // Of any tree, whatever the volume holds.
        ensures errors { let items = items_of D.spelling D.Read.admits self.log (V.state vol.new) in
            IfErr result (IsOfPrune F.shape V.tells self items boundary) }
        ensures pins { OnOk result (V.tells →
            KeepsPins ((V.state vol.old).map self.metadata) ((V.state vol.new).map self.metadata)) }
        ensures others { let old = V.state vol.old in
            OnOk result (V.tells → KeepsOthers (pins F.shape boundary) (old.map self.metadata)
            ((V.state vol.new).map self.metadata)) }
        ensures outside { V.tells → (h : Hashing D) (all : List D) →
            IsFullOf F.shape h D.spelling (D.Read.admits tt) all self (present (V.state vol.old)) →
            IfErr result IsOutside }
        ensures names { let names = log_and_map self.log.name self.metadata in
            V.tells → NamesCall names (V.state vol.old) (V.state vol.new) }
        ensures images { V.tells → (h : Hashing D) (all : List D) (durable top : ℕ) →
            IsFullOf F.shape h D.spelling (D.Read.admits tt) all self (present (V.state vol.old)) →
            AllStand F.shape h D.spelling all durable top self (V.state vol.old) →
            StandsWhilePruned F.shape h D.spelling all durable top boundary self (V.state vol.old) (V.state vol.new) }
        // After it all leaves are durable.
        ensures settled { OnOk result (V.tells → (h : Hashing D) (all : List D) (durable top : ℕ) →
            IsFullOf F.shape h D.spelling (D.Read.admits tt) all self (present (V.state vol.old)) →
            AllStand F.shape h D.spelling all durable top self (V.state vol.old) →
            AllStand F.shape h D.spelling all (length all) (max top boundary) self (V.state vol.new)) }
        ensures changes { Changes V.tells Error.Volume (V.state vol.old) (V.state vol.new) result }
    {
        let leaves = boundary.as_u64();
        let synced = self.sync(vol)?;
        let (moved, map) = synced.next(vol, Location::new(leaves))?;
        let pruned = moved.store(vol, &map)?;
        Ok(pruned)
    }

    /// Prunes to a number of leaves, by blobs: the tree is synced first, then its map is replaced, and then whole blobs
    /// of its log are taken away. Where a failed sync is kept it refuses with `Volume`; then, in this order, with
    /// `LocationOverflow` above `MAX_LEAVES` and with `LeafOutOfBounds` past the leaves. At or below the boundary
    /// nothing changes.
    pub fn prune<V: Volume>(self, vol: &mut V, loc: Location<F>) -> Result<Self, Error<F>>
        ensures kept { self.log.failed ≡ true → IsErrOf result Error.Volume × (vol.new ≡ vol.old) }
        ensures refused { self.log.failed ≡ false → (e : Error F) → prune_answer self.tree.leaves loc ≡ Err e →
            (result ≡ Err e) × (vol.new ≡ vol.old) }
        ensures within { OnOk result (prune_answer {F = F} self.tree.leaves loc ≡ Ok tt) }
        ensures below { self.log.failed ≡ false → loc ≤ self.boundary → (result ≡ Ok self) × (vol.new ≡ vol.old) }
        ensures moved { IfOk result (λ t. self.boundary < loc → IsSameTree (at_boundary self loc) t) }
        ensures rests { IfOk result (λ t. self.boundary < loc → Rests F.shape t) }
        // Whole blobs below the boundary's position are gone from the log.
        ensures start { let start = blob_start self.log.blob (length (made F.shape loc)) in
            IfOk result (λ t. self.boundary < loc → V.tells → (h : Hashing D) (all : List D) →
            IsFullOf F.shape h D.spelling (D.Read.admits tt) all self (present (V.state vol.old)) →
            t.log.start ≡ max self.log.start start) }
        ensures full { IfOk result (λ t. V.tells → (h : Hashing D) (all : List D) →
            IsFullOf F.shape h D.spelling (D.Read.admits tt) all self (present (V.state vol.old)) →
            IsFullOf F.shape h D.spelling (D.Read.admits tt) all t (present (V.state vol.new))) }
        // Of any tree, whatever the volume holds.
        ensures errors { let items = items_of D.spelling D.Read.admits self.log (V.state vol.new) in
            prune_answer {F = F} self.tree.leaves loc ≡ Ok tt →
            IfErr result (IsOfPrune F.shape V.tells self items loc) }
        ensures pins { OnOk result (V.tells →
            KeepsPins ((V.state vol.old).map self.metadata) ((V.state vol.new).map self.metadata)) }
        // Of the map's keys at most the boundary's and those of its pins change.
        ensures others { let old = V.state vol.old in
            OnOk result (V.tells → KeepsOthers (pins F.shape loc) (old.map self.metadata)
            ((V.state vol.new).map self.metadata)) }
        ensures outside { prune_answer {F = F} self.tree.leaves loc ≡ Ok tt → V.tells → (h : Hashing D) (all : List D) →
            IsFullOf F.shape h D.spelling (D.Read.admits tt) all self (present (V.state vol.old)) →
            IfErr result IsOutside }
        // Every other log and map stays, and so does what a crash leaves of it.
        ensures names { let names = log_and_map self.log.name self.metadata in
            V.tells → NamesCall names (V.state vol.old) (V.state vol.new) }
        ensures images { V.tells → (h : Hashing D) (all : List D) (durable top : ℕ) →
            IsFullOf F.shape h D.spelling (D.Read.admits tt) all self (present (V.state vol.old)) →
            AllStand F.shape h D.spelling all durable top self (V.state vol.old) →
            StandsWhilePruned F.shape h D.spelling all durable top loc self (V.state vol.old) (V.state vol.new) }
        // After it all leaves are durable.
        ensures settled { OnOk result (self.boundary < loc → V.tells →
            (h : Hashing D) (all : List D) (durable top : ℕ) →
            IsFullOf F.shape h D.spelling (D.Read.admits tt) all self (present (V.state vol.old)) →
            AllStand F.shape h D.spelling all durable top self (V.state vol.old) →
            AllStand F.shape h D.spelling all (length all) (max top loc) self (V.state vol.new)) }
        ensures changes { self.log.failed ≡ false →
            Changes V.tells Error.Volume (V.state vol.old) (V.state vol.new) result }
    {
        if self.nodes.keeps_failure() {
            return Err(Error::Volume);
        }
        let leaves = loc.as_u64();
        if leaves > MAX_LEAVES {
            return Err(Error::LocationOverflow(Location::new(leaves)));
        }
        if leaves > self.mem.leaves().as_u64() {
            return Err(Error::LeafOutOfBounds(Location::new(leaves)));
        }
        if leaves <= self.boundary {
            return Ok(self);
        }
        let pruned = self.prune_above(vol, Location::new(leaves))?;
        Ok(pruned)
    }

    /// Prunes to the leaves, as `prune`.
    pub fn prune_all<V: Volume>(self, vol: &mut V) -> Result<Self, Error<F>>
        ensures kept { self.log.failed ≡ true → IsErrOf result Error.Volume × (vol.new ≡ vol.old) }
        ensures below { self.log.failed ≡ false → self.tree.leaves ≤ self.boundary →
            (result ≡ Ok self) × (vol.new ≡ vol.old) }
        ensures moved { IfOk result (λ t. self.boundary < self.tree.leaves →
            IsSameTree (at_boundary self self.tree.leaves) t) }
        ensures rests { IfOk result (λ t. self.boundary < self.tree.leaves → Rests F.shape t) }
        ensures start { let start = blob_start self.log.blob (length (made F.shape self.tree.leaves)) in
            IfOk result (λ t. self.boundary < self.tree.leaves → V.tells → (h : Hashing D) (all : List D) →
            IsFullOf F.shape h D.spelling (D.Read.admits tt) all self (present (V.state vol.old)) →
            t.log.start ≡ max self.log.start start) }
        ensures full { IfOk result (λ t. V.tells → (h : Hashing D) (all : List D) →
            IsFullOf F.shape h D.spelling (D.Read.admits tt) all self (present (V.state vol.old)) →
            IsFullOf F.shape h D.spelling (D.Read.admits tt) all t (present (V.state vol.new))) }
        // Of any tree, whatever the volume holds.
        ensures errors { let items = items_of D.spelling D.Read.admits self.log (V.state vol.new) in
            IfErr result (IsOfPrune F.shape V.tells self items self.tree.leaves) }
        ensures pins { OnOk result (V.tells →
            KeepsPins ((V.state vol.old).map self.metadata) ((V.state vol.new).map self.metadata)) }
        // Of the map's keys at most the boundary's and those of its pins change.
        ensures others { let old = V.state vol.old in
            OnOk result (V.tells → KeepsOthers (pins F.shape self.tree.leaves) (old.map self.metadata)
            ((V.state vol.new).map self.metadata)) }
        ensures outside { V.tells → (h : Hashing D) (all : List D) →
            IsFullOf F.shape h D.spelling (D.Read.admits tt) all self (present (V.state vol.old)) →
            IfErr result IsOutside }
        // Every other log and map stays, and so does what a crash leaves of it.
        ensures names { let names = log_and_map self.log.name self.metadata in
            V.tells → NamesCall names (V.state vol.old) (V.state vol.new) }
        ensures images { V.tells → (h : Hashing D) (all : List D) (durable top : ℕ) →
            IsFullOf F.shape h D.spelling (D.Read.admits tt) all self (present (V.state vol.old)) →
            AllStand F.shape h D.spelling all durable top self (V.state vol.old) →
            StandsWhilePruned F.shape h D.spelling all durable top self.tree.leaves self (V.state vol.old)
            (V.state vol.new) }
        // After it all leaves are durable.
        ensures settled { OnOk result (self.boundary < self.tree.leaves → V.tells →
            (h : Hashing D) (all : List D) (durable top : ℕ) →
            IsFullOf F.shape h D.spelling (D.Read.admits tt) all self (present (V.state vol.old)) →
            AllStand F.shape h D.spelling all durable top self (V.state vol.old) →
            AllStand F.shape h D.spelling all (length all) (max top self.tree.leaves) self (V.state vol.new)) }
        ensures changes { self.log.failed ≡ false →
            Changes V.tells Error.Volume (V.state vol.old) (V.state vol.new) result }
    {
        let leaves = self.mem.leaves();
        let pruned = self.prune(vol, leaves)?;
        Ok(pruned)
    }
}
