//! A journal as a run of items that can be changed: each call is the journal's own, with what stands for its error.
ghost use Rattle.std.specs.Prelude.{◌↔◌, ◌⊎◌, ◌<◌, IsTrue};

use crate::Journal;
use crate::lower::lower;
use journal_base::{Backing, Contiguous, Mutable, SyncTicket};
use tree_core::{Family, Hasher, Location};
use volume_base::{JournalError, Volume};

/// Whether a start or a boundary has moved.
fn has_moved(start: u64, later: u64, boundary: u64, next: u64) -> bool
    ensures { IsTrue result ↔ ((start < later) ⊎ (boundary < next)) }
{
    start < later || boundary < next
}

impl<F: Family, C: Backing, H: Hasher> Mutable for Journal<F, C, H> {
    ghost use Rattle.std.specs.Prelude.{◌≡◌, ◌+◌, ◌≤◌, ◌-◌, ◌^◌, List, [], ◌∷◌, ◌++◌, map, length, true, false, Err, IfOk, IfErr, OnOk, IsErrOf};
    ghost use Rattle.std.specs.FinMap as finmap;
    ghost use Rattle.codec_base.specs.Causes.{Rose};
    ghost use Rattle.journal_base.specs.Answers.{IsOfVolume, IsOfSize, IsOfAppend, RefusesUnwritten};
    ghost use Rattle.journal_base.specs.Items.{Spells, items_of};
    ghost use Rattle.journal_base.specs.Tickets.{is_failed, outcome};
    ghost use Rattle.journal_base.specs.View.{log_of, left_of, prune_point, SameButBounds, after_sync, SameLog, IsDurable, IsHeld};
    ghost use Rattle.merkle_full.specs.Flushing.{IsOfFlush};
    ghost use Rattle.merkle_full.specs.Full.{IsBeside};
    ghost use Rattle.tree_core.specs.Applied.{IsLonger};
    ghost use Rattle.volume_base.specs.Log.{end_of, no_log, appended, pruned_to};
    ghost use Rattle.volume_base.specs.Moments.{present};
    ghost use Rattle.volume_base.specs.Names.{log_alone, NamesCall};
    ghost use Rattle.volume_base.specs.Volume.{OnlyLeft, Writes, Changes};
    ghost use Rattle.volume_base.specs.declared.error.JournalError.{JournalError};
    ghost use Rattle.volume_base.specs.declared.error.JournalError.TheVariants.{EmptyAppend, SizeOverflow, Tree, Volume};
    ghost use Rattle.volume_base.specs.declared.error.TreeCause.TheVariants.{LocationOverflow};
    ghost use Rattle.auth_journal.specs.Durable.{IsFlushed, IsStarted, IsPrunedTo, IsFromTree, IsJournalUnpruned};
    ghost use Rattle.auth_journal.specs.Errors.{IsLowered};
    ghost use Rattle.auth_journal.specs.Joined.{IsJoinedOf, IsSameJoin, log_view};
    ghost use Rattle.auth_journal.specs.Standing.{Marks, items_synced, all_synced, pruned_below, names_of, logs_of, KeepsStanding, StepsStanding, ItemsGoFirst};

    ghost one_log = { ⊥ };

    fn keeps_failure(&self) -> bool {
        self.failed
    }

    // It refuses with `Tree(LocationOverflow)` a journal of `MAX_LEAVES` items.
    fn append<V: Volume>(self, vol: &mut V, item: &C::Item) -> Result<(Self, u64), JournalError>
        ensures overflow { let end = end_of (log_of self.items (V.state vol.old)) in
            V.tells → IsErrOf result SizeOverflow → end ≡ 2 ^ 64 - 1 }
        ensures full { self.tree.tree.leaves ≡ 2 ^ 62 →
            (result ≡ Err (Tree (LocationOverflow (2 ^ 62 + 1)))) × (vol.new ≡ vol.old) }
        ensures fits { OnOk result (V.tells → end_of (log_of self.items (V.state vol.old)) < 2 ^ 64 - 1) }
        ensures position { IfOk result (λ made. V.tells → made.1 ≡ end_of (log_of self.items (V.state vol.old))) }
        ensures made { IfOk result (λ made. SameButBounds (log_view self) (log_view made.0)) }
        ensures held { IfOk result (λ made. V.tells → IsHeld (log_view made.0) (V.state vol.new)) }
        ensures appended { let log = log_of self.items (V.state vol.old) in
            OnOk result (V.tells →
            log_of self.items (V.state vol.new) ≡ appended log (C.Item.spelling item.now ∷ [])) }
        ensures listed { OnOk result (V.tells → (list : List C.Item) →
            Spells C.Item.spelling list (log_of self.items (V.state vol.old)) →
            Spells C.Item.spelling (list ++ item.now ∷ []) (log_of self.items (V.state vol.new))) }
        ensures refused { RefusesUnwritten (V.state vol.old) (V.state vol.new) result }
        ensures errors { IfErr result (λ e. IsOfSize e
            ⊎ ((e ≡ Tree (LocationOverflow (2 ^ 62 + 1))) × (self.tree.tree.leaves ≡ 2 ^ 62))) }
        ensures writes { Writes V.tells Volume (V.state vol.old) (V.state vol.new) result }
        // Each item has its leaf behind the tree's, and of other logs and of every map nothing changes.
        ensures same { IfOk result (λ made. IsBeside self.tree made.0.tree × IsSameJoin self made.0) }
        ensures longer { IfOk result (λ made.
            IsLonger F.shape (self.tree.tree.leaves + 1) self.tree.tree made.0.tree.tree) }
        ensures joined { let admits = H.Digest.Read.admits tt in
            IfOk result (λ made. V.tells → (list : List C.Item) →
            IsJoinedOf F.shape H.hash H.Digest.spelling admits C.Item.spelling list self (present (V.state vol.old)) →
            IsJoinedOf F.shape H.hash H.Digest.spelling admits C.Item.spelling
            (list ++ item.now ∷ []) made.0 (present (V.state vol.new))) }
        ensures names { V.tells → NamesCall (log_alone self.items.name) (V.state vol.old) (V.state vol.new) }
        // At each moment whatever a crash leaves stands for the longer list, of which no more is durable than before.
        ensures images { let admits = H.Digest.Read.admits tt in V.tells → (list : List C.Item) (marks : Marks) →
            IsJoinedOf F.shape H.hash H.Digest.spelling admits C.Item.spelling list self (present (V.state vol.old)) →
            KeepsStanding F.shape H.hash H.Digest.spelling C.Item.spelling list (list ++ item.now ∷ []) marks
            self (V.state vol.old) (V.state vol.new) }
    {
        match self.append(vol, item) {
            Ok((journal, position)) => Ok((journal, position.as_u64())),
            Err(error) => Err(lower(error)),
        }
    }

    // It refuses with `Tree(LocationOverflow)` where there would be more than `MAX_LEAVES` items.
    fn append_many<V: Volume>(
        self,
        vol: &mut V,
        items: &[C::Item],
    ) -> Result<(Self, u64), JournalError>
        ensures empty { IsErrOf result EmptyAppend ↔ (length items.now ≡ 0) }
        ensures overflow { let end = end_of (log_of self.items (V.state vol.old)) in
            V.tells → IsErrOf result SizeOverflow → 2 ^ 64 - 1 < end + length items.now }
        ensures full { 0 < length items.now → 2 ^ 62 < self.tree.tree.leaves + length items.now →
            (result ≡ Err (Tree (LocationOverflow (2 ^ 62 + 1)))) × (vol.new ≡ vol.old) }
        ensures fits { let end = end_of (log_of self.items (V.state vol.old)) in
            OnOk result (V.tells → end + length items.now ≤ 2 ^ 64 - 1) }
        ensures position { let end = end_of (log_of self.items (V.state vol.old)) in
            IfOk result (λ made. V.tells → made.1 + 1 ≡ end + length items.now) }
        ensures made { IfOk result (λ made. SameButBounds (log_view self) (log_view made.0)) }
        ensures held { IfOk result (λ made. V.tells → IsHeld (log_view made.0) (V.state vol.new)) }
        ensures appended { let log = log_of self.items (V.state vol.old) in
            OnOk result (V.tells →
            log_of self.items (V.state vol.new) ≡ appended log (map C.Item.spelling items.now)) }
        ensures listed { OnOk result (V.tells → (list : List C.Item) →
            Spells C.Item.spelling list (log_of self.items (V.state vol.old)) →
            Spells C.Item.spelling (list ++ items.now) (log_of self.items (V.state vol.new))) }
        ensures refused { RefusesUnwritten (V.state vol.old) (V.state vol.new) result }
        ensures errors { IfErr result (λ e. IsOfAppend e
            ⊎ ((e ≡ Tree (LocationOverflow (2 ^ 62 + 1))) × (2 ^ 62 < self.tree.tree.leaves + length items.now))) }
        ensures writes { Writes V.tells Volume (V.state vol.old) (V.state vol.new) result }
        // Each item has its leaf behind the tree's, and of other logs and of every map nothing changes.
        ensures same { IfOk result (λ made. IsBeside self.tree made.0.tree × IsSameJoin self made.0) }
        ensures longer { IfOk result (λ made.
            IsLonger F.shape (self.tree.tree.leaves + length items.now) self.tree.tree made.0.tree.tree) }
        ensures joined { let admits = H.Digest.Read.admits tt in
            IfOk result (λ made. V.tells → (list : List C.Item) →
            IsJoinedOf F.shape H.hash H.Digest.spelling admits C.Item.spelling list self (present (V.state vol.old)) →
            IsJoinedOf F.shape H.hash H.Digest.spelling admits C.Item.spelling
            (list ++ items.now) made.0 (present (V.state vol.new))) }
        ensures names { V.tells → NamesCall (log_alone self.items.name) (V.state vol.old) (V.state vol.new) }
        // At each moment whatever a crash leaves stands for the longer list, of which no more is durable than before.
        ensures images { let admits = H.Digest.Read.admits tt in V.tells → (list : List C.Item) (marks : Marks) →
            IsJoinedOf F.shape H.hash H.Digest.spelling admits C.Item.spelling list self (present (V.state vol.old)) →
            KeepsStanding F.shape H.hash H.Digest.spelling C.Item.spelling list (list ++ items.now) marks
            self (V.state vol.old) (V.state vol.new) }
    {
        match self.append_many(vol, items) {
            Ok(made) => Ok(made),
            Err(error) => Err(lower(error)),
        }
    }

    fn commit<V: Volume>(self, vol: &mut V) -> Result<Self, JournalError>
        ensures kept { self.failed ≡ true → IsErrOf result Volume × (vol.new ≡ vol.old) }
        ensures made { IfOk result (λ made. log_view made ≡ log_view self) }
        ensures contents { V.tells → SameLog self.items (V.state vol.old) (V.state vol.new) }
        ensures durable { OnOk result (V.tells → IsDurable self.items (V.state vol.new)) }
        ensures errors { IfErr result (IsLowered {F = F} (IsFromTree (IsOfFlush F.shape self.tree))) }
        ensures outside { let admits = H.Digest.Read.admits tt in V.tells → (list : List C.Item) →
            IsJoinedOf F.shape H.hash H.Digest.spelling admits C.Item.spelling list self (present (V.state vol.old)) →
            IfErr result IsOfVolume }
        ensures writes { self.failed ≡ false →
            Writes V.tells Volume (V.state vol.old) (V.state vol.new) result }
        ensures same { IfOk result (λ made. IsFlushed self made) }
        ensures joined { let admits = H.Digest.Read.admits tt in
            IfOk result (λ made. V.tells → (list : List C.Item) →
            IsJoinedOf F.shape H.hash H.Digest.spelling admits C.Item.spelling list self (present (V.state vol.old)) →
            IsJoinedOf F.shape H.hash H.Digest.spelling admits C.Item.spelling list made (present (V.state vol.new))) }
        // Every other log and every map stays, and so does what a crash leaves of it.
        ensures names { V.tells → NamesCall (logs_of self) (V.state vol.old) (V.state vol.new) }
        // From a turn on all items are durable.
        ensures images { let admits = H.Digest.Read.admits tt in V.tells → (list : List C.Item) (marks : Marks) →
            IsJoinedOf F.shape H.hash H.Digest.spelling admits C.Item.spelling list self (present (V.state vol.old)) →
            StepsStanding F.shape H.hash H.Digest.spelling C.Item.spelling list marks (items_synced (length list) marks)
            self (V.state vol.old) (V.state vol.new) result }
    {
        match self.commit(vol) {
            Ok(journal) => Ok(journal),
            Err(error) => Err(lower(error)),
        }
    }

    fn sync<V: Volume>(self, vol: &mut V) -> Result<Self, JournalError>
        ensures kept { self.failed ≡ true → IsErrOf result Volume × (vol.new ≡ vol.old) }
        ensures made { IfOk result (λ made. log_view made ≡ log_view self) }
        ensures contents { V.tells → SameLog self.items (V.state vol.old) (V.state vol.new) }
        ensures durable { OnOk result (V.tells → IsDurable self.items (V.state vol.new)) }
        ensures errors { IfErr result (IsLowered {F = F} (IsFromTree (IsOfFlush F.shape self.tree))) }
        ensures outside { let admits = H.Digest.Read.admits tt in V.tells → (list : List C.Item) →
            IsJoinedOf F.shape H.hash H.Digest.spelling admits C.Item.spelling list self (present (V.state vol.old)) →
            IfErr result IsOfVolume }
        ensures writes { self.failed ≡ false →
            Writes V.tells Volume (V.state vol.old) (V.state vol.new) result }
        ensures nodes_durable { OnOk result (V.tells → IsDurable self.tree.log (V.state vol.new)) }
        ensures same { IfOk result (λ made. IsFlushed self made) }
        ensures joined { let admits = H.Digest.Read.admits tt in
            IfOk result (λ made. V.tells → (list : List C.Item) →
            IsJoinedOf F.shape H.hash H.Digest.spelling admits C.Item.spelling list self (present (V.state vol.old)) →
            IsJoinedOf F.shape H.hash H.Digest.spelling admits C.Item.spelling list made (present (V.state vol.new))) }
        // Every other log and every map stays, and so does what a crash leaves of it.
        ensures names { V.tells → NamesCall (logs_of self) (V.state vol.old) (V.state vol.new) }
        // From a turn on all items and all their nodes are durable.
        ensures images { let admits = H.Digest.Read.admits tt in V.tells → (list : List C.Item) (marks : Marks) →
            IsJoinedOf F.shape H.hash H.Digest.spelling admits C.Item.spelling list self (present (V.state vol.old)) →
            StepsStanding F.shape H.hash H.Digest.spelling C.Item.spelling list marks (all_synced (length list) marks)
            self (V.state vol.old) (V.state vol.new) result }
    {
        match self.sync(vol) {
            Ok(journal) => Ok(journal),
            Err(error) => Err(lower(error)),
        }
    }

    fn start_sync<V: Volume>(self, vol: &mut V) -> Result<(Self, SyncTicket), JournalError>
        ensures kept { self.failed ≡ true → IsErrOf result Volume × (vol.new ≡ vol.old) }
        ensures made { IfOk result (λ made. log_view made.0 ≡ after_sync (log_view self) (is_failed made.1)) }
        ensures contents { V.tells → SameLog self.items (V.state vol.old) (V.state vol.new) }
        ensures durable { IfOk result (λ made. made.1 ≡ SyncTicket.Done →
            V.tells → IsDurable self.items (V.state vol.new)) }
        ensures failed { IfOk result (λ made. made.1 ≡ SyncTicket.Failed →
            Rose (V.state vol.old).faults (V.state vol.new).faults) }
        ensures errors { IfErr result (IsLowered {F = F} (IsFromTree (IsOfFlush F.shape self.tree))) }
        ensures outside { let admits = H.Digest.Read.admits tt in V.tells → (list : List C.Item) →
            IsJoinedOf F.shape H.hash H.Digest.spelling admits C.Item.spelling list self (present (V.state vol.old)) →
            IfErr result IsOfVolume }
        ensures writes { self.failed ≡ false →
            Writes V.tells Volume (V.state vol.old) (V.state vol.new) (outcome result) }
        ensures nodes_durable { IfOk result (λ made. made.1 ≡ SyncTicket.Done →
            V.tells → IsDurable self.tree.log (V.state vol.new)) }
        ensures same { IfOk result (λ made. IsStarted self made.0 (is_failed made.1)) }
        ensures joined { let admits = H.Digest.Read.admits tt in
            IfOk result (λ made. V.tells → (list : List C.Item) →
            IsJoinedOf F.shape H.hash H.Digest.spelling admits C.Item.spelling list self (present (V.state vol.old)) →
            IsJoinedOf F.shape H.hash H.Digest.spelling admits C.Item.spelling list made.0
            (present (V.state vol.new))) }
        // Every other log and every map stays, and so does what a crash leaves of it.
        ensures names { V.tells → NamesCall (logs_of self) (V.state vol.old) (V.state vol.new) }
        // Beside a ticket that is done all items and all their nodes are durable from a turn on.
        ensures images { let admits = H.Digest.Read.admits tt in V.tells → (list : List C.Item) (marks : Marks) →
            IsJoinedOf F.shape H.hash H.Digest.spelling admits C.Item.spelling list self (present (V.state vol.old)) →
            StepsStanding F.shape H.hash H.Digest.spelling C.Item.spelling list marks (all_synced (length list) marks)
            self (V.state vol.old) (V.state vol.new) (outcome result) }
    {
        match self.start_sync(vol) {
            Ok(made) => Ok(made),
            Err(error) => Err(lower(error)),
        }
    }

    // A position past the end counts as the end. It answers whether the start of the log, or the boundary of the tree, has moved.
    fn prune<V: Volume>(self, vol: &mut V, least: u64) -> Result<(Self, bool), JournalError>
        ensures kept { self.failed ≡ true → IsErrOf result Volume × (vol.new ≡ vol.old) }
        ensures made { IfOk result (λ made. SameButBounds (log_view self) (log_view made.0)) }
        ensures held { IfOk result (λ made. V.tells → IsHeld (log_view self) (V.state vol.old) →
            IsHeld (log_view made.0) (V.state vol.new)) }
        ensures told { IfOk result (λ made. IsTrue made.1 ↔
            ((self.items.start < made.0.items.start) ⊎ (self.tree.boundary < made.0.tree.boundary))) }
        ensures moved_true { let start = (log_of self.items (V.state vol.old)).start in
            let point = prune_point self.items least (V.state vol.old) in
            IfOk result (λ made. V.tells → IsHeld (log_view self) (V.state vol.old) → start < point → IsTrue made.1) }
        ensures pruned { let log = log_of self.items (V.state vol.old) in
            let point = prune_point self.items least (V.state vol.old) in
            OnOk result (V.tells → IsHeld (log_view self) (V.state vol.old) →
            log_of self.items (V.state vol.new) ≡ pruned_to log point) }
        ensures listed { OnOk result (V.tells → IsHeld (log_view self) (V.state vol.old) → (list : List C.Item) →
            Spells C.Item.spelling list (log_of self.items (V.state vol.old)) →
            Spells C.Item.spelling list (log_of self.items (V.state vol.new))) }
        ensures errors { let state = V.state vol.new in
            let items = items_of H.Digest.spelling H.Digest.Read.admits self.tree.log state in
            let begins = (log_of self.items state).start in
            IfErr result (IsLowered {F = F} (IsFromTree (IsJournalUnpruned F.shape V.tells self.tree items begins))) }
        ensures outside { let admits = H.Digest.Read.admits tt in V.tells → (list : List C.Item) →
            IsJoinedOf F.shape H.hash H.Digest.spelling admits C.Item.spelling list self (present (V.state vol.old)) →
            IfErr result IsOfVolume }
        ensures changes { self.failed ≡ false →
            Changes V.tells Volume (V.state vol.old) (V.state vol.new) result }
        ensures moved { IfOk result (λ made. 0 < self.items.end → IsPrunedTo self made.0) }
        ensures joined { let admits = H.Digest.Read.admits tt in
            IfOk result (λ made. V.tells → (list : List C.Item) →
            IsJoinedOf F.shape H.hash H.Digest.spelling admits C.Item.spelling list self (present (V.state vol.old)) →
            IsJoinedOf F.shape H.hash H.Digest.spelling admits C.Item.spelling list made.0
            (present (V.state vol.new))) }
        // Every other log and map stays, and so does what a crash leaves of it.
        ensures names { V.tells → NamesCall (names_of self) (V.state vol.old) (V.state vol.new) }
        // From a turn on all items and all their nodes are durable, and only from it on is anything pruned.
        ensures images { let admits = H.Digest.Read.admits tt in V.tells → (list : List C.Item) (marks : Marks) →
            IsJoinedOf F.shape H.hash H.Digest.spelling admits C.Item.spelling list self (present (V.state vol.old)) →
            StepsStanding F.shape H.hash H.Digest.spelling C.Item.spelling list marks
            (pruned_below least (all_synced (length list) marks)) self (V.state vol.old) (V.state vol.new) result }
    {
        let (start, _) = self.journal.bounds();
        let (boundary, _) = self.merkle.bounds();
        match self.prune(vol, Location::new(least)) {
            Ok((pruned, from)) => {
                let (now, _) = pruned.merkle.bounds();
                let moved = has_moved(start, from.as_u64(), boundary.as_u64(), now.as_u64());
                Ok((pruned, moved))
            }
            Err(error) => Err(lower(error)),
        }
    }

    fn destroy<V: Volume>(self, vol: &mut V) -> Result<(), JournalError>
        ensures removed { OnOk result (V.tells → log_of self.items (V.state vol.new) ≡ no_log) }
        ensures durable { OnOk result (V.tells → OnlyLeft (left_of self.items (V.state vol.new)) no_log) }
        ensures errors { IfErr result IsOfVolume }
        ensures writes { Writes V.tells Volume (V.state vol.old) (V.state vol.new) result }
        ensures no_nodes { OnOk result (V.tells → log_of self.tree.log (V.state vol.new) ≡ no_log) }
        ensures no_map { OnOk result (V.tells → (V.state vol.new).map self.tree.metadata ≡ finmap.empty) }
        ensures durable_nodes { OnOk result (V.tells → OnlyLeft (left_of self.tree.log (V.state vol.new)) no_log) }
        ensures durable_map { let state = V.state vol.new in
            OnOk result (V.tells → OnlyLeft (state.map_left state.clock self.tree.metadata) finmap.empty) }
        // Every other log and map stays, and so does what a crash leaves of it.
        ensures names { V.tells → NamesCall (names_of self) (V.state vol.old) (V.state vol.new) }
        // The tree is as it was until nothing is left of the log of items.
        ensures images { V.tells → ItemsGoFirst self (V.state vol.old) (V.state vol.new) }
    {
        match self.destroy(vol) {
            Ok(()) => Ok(()),
            Err(error) => Err(lower(error)),
        }
    }
}
