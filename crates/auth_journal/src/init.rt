//! Openings of a journal.
use crate::{Error, Journal};
use journal_base::Backing;
use merkle_full::Config;
use std::alloc::Global;
use std::num::NonZeroU64;
use tree_core::{Bagging, Family, Hasher};
use volume_base::Volume;

impl<F: Family, C: Backing, H: Hasher> Journal<F, C, H> {
    ghost use Rattle.std.specs.Prelude.{◌≡◌, ◌≢◌, ◌≤◌, ◌^◌, ◌++◌, ℕ, List, length, max, take, false, Option, Some, None, Ok, unwrap_or, string_bytes, IfOk, IfErr, OnOk};
    ghost use Rattle.std.specs.Fn.{FnReturnsAt};
    ghost use Rattle.std.specs.NonZero.{non_zero_u64_get};
    ghost use Rattle.journal_base.specs.Blobs.{blob_start};
    ghost use Rattle.journal_base.specs.Items.{items_of, Spells};
    ghost use Rattle.journal_base.specs.View.{log_of, SameButBounds, IsHeld, IsDurable};
    ghost use Rattle.tree_store.specs.Stored.{TreeStands, size};
    ghost use Rattle.volume_base.specs.Log.{cut_to};
    ghost use Rattle.volume_base.specs.Moments.{present, LogKeeps};
    ghost use Rattle.volume_base.specs.Names.{two_logs_and_map, NamesCall};
    ghost use Rattle.volume_base.specs.Volume.{Follows, Changes};
    ghost use Rattle.merkle_full.specs.Full.{Rests, IsSeated};
    ghost use Rattle.merkle_full.specs.Opening.{stored_in};
    ghost use Rattle.merkle_full.specs.Preparing.{log_kept};
    ghost use Rattle.auth_journal.specs.Errors.{IsLifted};
    ghost use Rattle.auth_journal.specs.Joined.{IsJoinedOf, leaves_of};
    ghost use Rattle.auth_journal.specs.Opening.{OpensUpTo, NotOpened, ShrinksToEnd};
    ghost use Rattle.auth_journal.specs.Searching.{EndsAt};
    ghost use Rattle.auth_journal.specs.Standing.{Marks, NamesKeepStanding, NamesSettle};

    /// The journal up to the last item below a cap, or any, that a predicate accepts.
    fn open_under<V: Volume, P: Fn(&C::Item) -> bool>(
        alloc: Global,
        vol: &mut V,
        merkle_cfg: Config,
        journal_cfg: C::Config,
        max_size: Option<u64>,
        predicate: P,
        bagging: Bagging,
        apply_batch: NonZeroU64,
    ) -> Result<Self, Error<F>>
        requires callable { P.IsAlwaysCallable predicate }
        requires apart { (C.config journal_cfg).name ≢ string_bytes merkle_cfg.nodes }
        ensures named { IfOk result (λ t. SameButBounds (C.config journal_cfg) t.items × (t.bagging ≡ bagging)
            × (t.failed ≡ false)) }
        ensures tree_named { IfOk result (λ t. (t.tree.log.name ≡ string_bytes merkle_cfg.nodes)
            × (t.tree.log.blob ≡ non_zero_u64_get merkle_cfg.items_per_blob)
            × (t.tree.metadata ≡ string_bytes merkle_cfg.metadata)) }
        ensures found { let items = items_of C.Item.spelling C.Item.admits (C.config journal_cfg) (V.state vol.old) in
            let says = FnReturnsAt P.Fn predicate in
            IfOk result (λ t. V.tells → EndsAt items says max_size t.items.end) }
        ensures cut { let view = C.config journal_cfg in IfOk result (λ t. V.tells →
            (log_of view (V.state vol.new) ≡ cut_to (log_of view (V.state vol.old)) t.items.end)
            × IsHeld t.items (V.state vol.new)) }
        // The tree is opened under that end, and the items that it lacks can be read.
        ensures opens { let map = (V.state vol.old).map (string_bytes merkle_cfg.metadata) in
            let log = (V.state vol.old).log (string_bytes merkle_cfg.nodes) in
            let items = items_of C.Item.spelling C.Item.admits (C.config journal_cfg) (V.state vol.old) in
            IfOk result (λ t. V.tells → OpensUpTo F H.Digest.spelling (H.Digest.Read.admits tt) F.shape map log items
            t.items.end t.tree.boundary) }
        // Whatever the volume tells, it has a leaf for each item, and no more.
        ensures whole { IfOk result (λ t. t.tree.tree.leaves ≡ t.items.end) }
        ensures rests { IfOk result (λ t. Rests F.shape t.tree) }
        ensures seated { IfOk result (λ t. V.tells → IsSeated F.shape t.tree (present (V.state vol.new))) }
        // The map of the tree stays.
        ensures map { let name = string_bytes merkle_cfg.metadata in
            OnOk result (V.tells → (V.state vol.new).map name ≡ (V.state vol.old).map name) }
        // The node log begins where the kept one did, or with the blob of the stored boundary's position.
        ensures nodes { let map = (V.state vol.old).map (string_bytes merkle_cfg.metadata) in
            let log = (V.state vol.old).log (string_bytes merkle_cfg.nodes) in
            let blob = non_zero_u64_get merkle_cfg.items_per_blob in
            IfOk result (λ t. V.tells → (stored : Option ℕ) → stored_in {F = F} map ≡ Ok stored →
            let point = blob_start blob (size F.shape (unwrap_or stored 0)) in
            t.tree.log.start ≡ max (log_kept stored log).start point) }
        // For each list that the log stood for, and the tree with perhaps more items behind it, it is the journal of
        // the list's first items.
        ensures joined { let map = (V.state vol.old).map (string_bytes merkle_cfg.metadata) in
            let log = (V.state vol.old).log (string_bytes merkle_cfg.nodes) in
            IfOk result (λ t. V.tells → (list rest : List C.Item) (durable top : ℕ) →
            Spells C.Item.spelling list (log_of (C.config journal_cfg) (V.state vol.old)) →
            length (list ++ rest) ≤ 2 ^ 62 →
            TreeStands F.shape H.hash H.Digest.spelling (leaves_of F.shape H.hash C.Item.spelling (list ++ rest))
            durable top log map →
            IsJoinedOf F.shape H.hash H.Digest.spelling (H.Digest.Read.admits tt) C.Item.spelling
            (take t.items.end list) t (present (V.state vol.new))) }
        ensures durable { IfOk result (λ t. V.tells →
            IsDurable t.items (V.state vol.new) × IsDurable t.tree.log (V.state vol.new)) }
        ensures refused { let items = items_of C.Item.spelling C.Item.admits (C.config journal_cfg) (V.state vol.old) in
            let says = FnReturnsAt P.Fn predicate in
            let map = (V.state vol.old).map (string_bytes merkle_cfg.metadata) in
            let log = (V.state vol.old).log (string_bytes merkle_cfg.nodes) in
            V.tells → IfErr result
            (NotOpened V.tells H.Digest.spelling (H.Digest.Read.admits tt) F.shape map log items says max_size) }
        // Whatever the volume tells, and whatever it holds.
        ensures lifted { IfErr result IsLifted }
        ensures names { let names = two_logs_and_map (C.config journal_cfg).name (string_bytes merkle_cfg.nodes)
            (string_bytes merkle_cfg.metadata) in V.tells → NamesCall names (V.state vol.old) (V.state vol.new) }
        // An image of the log loses at most what is behind the end.
        ensures log { let view = C.config journal_cfg in let old = V.state vol.old in
            let items = items_of C.Item.spelling C.Item.admits view old in
            let says = FnReturnsAt P.Fn predicate in V.tells →
            LogKeeps view.name (Follows (old.log_left old.clock view.name) (ShrinksToEnd items says max_size))
            old (V.state vol.new) }
        // Where no more is durable than an end keeps, each image of all three goes on standing for the list, or for a
        // longer one.
        ensures images { let view = C.config journal_cfg in let old = V.state vol.old in
            let items = items_of C.Item.spelling C.Item.admits view old in
            let says = FnReturnsAt P.Fn predicate in V.tells → (list rest : List C.Item) (marks : Marks) →
            ((end : ℕ) → EndsAt items says max_size end → (marks.durable ≤ end) × (marks.node_durable ≤ end)) →
            Spells C.Item.spelling list (log_of view old) → length (list ++ rest) ≤ 2 ^ 62 →
            NamesKeepStanding F.shape H.hash H.Digest.spelling C.Item.spelling (list ++ rest) marks
            view.name (string_bytes merkle_cfg.nodes) (string_bytes merkle_cfg.metadata) old (V.state vol.new) }
        // What is then left of it stands for the items up to the end, and all of these are durable.
        ensures settled { let view = C.config journal_cfg in let old = V.state vol.old in
            let items = items_of C.Item.spelling C.Item.admits view old in
            let says = FnReturnsAt P.Fn predicate in
            IfOk result (λ t. V.tells → (list rest : List C.Item) (marks : Marks) →
            ((end : ℕ) → EndsAt items says max_size end → (marks.durable ≤ end) × (marks.node_durable ≤ end)) →
            Spells C.Item.spelling list (log_of view old) → length (list ++ rest) ≤ 2 ^ 62 →
            NamesSettle F.shape H.hash H.Digest.spelling C.Item.spelling (list ++ rest) t.items.end marks
            view.name (string_bytes merkle_cfg.nodes) (string_bytes merkle_cfg.metadata) old (V.state vol.new)) }
        ensures changes { Changes V.tells Error.Volume (V.state vol.old) (V.state vol.new) result }
    {
        let recovery = Journal::prepare(
            alloc,
            vol,
            merkle_cfg,
            journal_cfg,
            max_size,
            predicate,
            bagging,
            apply_batch,
        )?;
        let opened = recovery.finish(vol)?;
        Ok(opened)
    }

    /// Opens the journal up to the last item that a predicate accepts, or at 0 where none does; an empty log keeps its
    /// position. The items that the tree lacks are read so many at a time. It refuses as `prepare`, and then as
    /// `Recovery::finish`.
    pub fn new<V: Volume, P: Fn(&C::Item) -> bool>(
        alloc: Global,
        vol: &mut V,
        merkle_cfg: Config,
        journal_cfg: C::Config,
        predicate: P,
        bagging: Bagging,
        apply_batch: NonZeroU64,
    ) -> Result<Self, Error<F>>
        requires callable { P.IsAlwaysCallable predicate }
        requires apart { (C.config journal_cfg).name ≢ string_bytes merkle_cfg.nodes }
        ensures named { IfOk result (λ t. SameButBounds (C.config journal_cfg) t.items × (t.bagging ≡ bagging)
            × (t.failed ≡ false)) }
        ensures tree_named { IfOk result (λ t. (t.tree.log.name ≡ string_bytes merkle_cfg.nodes)
            × (t.tree.log.blob ≡ non_zero_u64_get merkle_cfg.items_per_blob)
            × (t.tree.metadata ≡ string_bytes merkle_cfg.metadata)) }
        ensures found { let items = items_of C.Item.spelling C.Item.admits (C.config journal_cfg) (V.state vol.old) in
            let says = FnReturnsAt P.Fn predicate in
            IfOk result (λ t. V.tells → EndsAt items says None t.items.end) }
        ensures cut { let view = C.config journal_cfg in IfOk result (λ t. V.tells →
            (log_of view (V.state vol.new) ≡ cut_to (log_of view (V.state vol.old)) t.items.end)
            × IsHeld t.items (V.state vol.new)) }
        // The tree is opened under that end, and the items that it lacks can be read.
        ensures opens { let map = (V.state vol.old).map (string_bytes merkle_cfg.metadata) in
            let log = (V.state vol.old).log (string_bytes merkle_cfg.nodes) in
            let items = items_of C.Item.spelling C.Item.admits (C.config journal_cfg) (V.state vol.old) in
            IfOk result (λ t. V.tells → OpensUpTo F H.Digest.spelling (H.Digest.Read.admits tt) F.shape map log items
            t.items.end t.tree.boundary) }
        // Whatever the volume tells, it has a leaf for each item, and no more.
        ensures whole { IfOk result (λ t. t.tree.tree.leaves ≡ t.items.end) }
        ensures rests { IfOk result (λ t. Rests F.shape t.tree) }
        ensures seated { IfOk result (λ t. V.tells → IsSeated F.shape t.tree (present (V.state vol.new))) }
        // The map of the tree stays.
        ensures map { let name = string_bytes merkle_cfg.metadata in
            OnOk result (V.tells → (V.state vol.new).map name ≡ (V.state vol.old).map name) }
        // The node log begins where the kept one did, or with the blob of the stored boundary's position.
        ensures nodes { let map = (V.state vol.old).map (string_bytes merkle_cfg.metadata) in
            let log = (V.state vol.old).log (string_bytes merkle_cfg.nodes) in
            let blob = non_zero_u64_get merkle_cfg.items_per_blob in
            IfOk result (λ t. V.tells → (stored : Option ℕ) → stored_in {F = F} map ≡ Ok stored →
            let point = blob_start blob (size F.shape (unwrap_or stored 0)) in
            t.tree.log.start ≡ max (log_kept stored log).start point) }
        // For each list that the log stood for, and the tree with perhaps more items behind it, it is the journal of
        // the list's first items.
        ensures joined { let map = (V.state vol.old).map (string_bytes merkle_cfg.metadata) in
            let log = (V.state vol.old).log (string_bytes merkle_cfg.nodes) in
            IfOk result (λ t. V.tells → (list rest : List C.Item) (durable top : ℕ) →
            Spells C.Item.spelling list (log_of (C.config journal_cfg) (V.state vol.old)) →
            length (list ++ rest) ≤ 2 ^ 62 →
            TreeStands F.shape H.hash H.Digest.spelling (leaves_of F.shape H.hash C.Item.spelling (list ++ rest))
            durable top log map →
            IsJoinedOf F.shape H.hash H.Digest.spelling (H.Digest.Read.admits tt) C.Item.spelling
            (take t.items.end list) t (present (V.state vol.new))) }
        ensures durable { IfOk result (λ t. V.tells →
            IsDurable t.items (V.state vol.new) × IsDurable t.tree.log (V.state vol.new)) }
        ensures refused { let items = items_of C.Item.spelling C.Item.admits (C.config journal_cfg) (V.state vol.old) in
            let says = FnReturnsAt P.Fn predicate in
            let map = (V.state vol.old).map (string_bytes merkle_cfg.metadata) in
            let log = (V.state vol.old).log (string_bytes merkle_cfg.nodes) in
            V.tells → IfErr result
            (NotOpened V.tells H.Digest.spelling (H.Digest.Read.admits tt) F.shape map log items says None) }
        // Whatever the volume tells, and whatever it holds.
        ensures lifted { IfErr result IsLifted }
        ensures names { let names = two_logs_and_map (C.config journal_cfg).name (string_bytes merkle_cfg.nodes)
            (string_bytes merkle_cfg.metadata) in V.tells → NamesCall names (V.state vol.old) (V.state vol.new) }
        // An image of the log loses at most what is behind the end.
        ensures log { let view = C.config journal_cfg in let old = V.state vol.old in
            let items = items_of C.Item.spelling C.Item.admits view old in
            let says = FnReturnsAt P.Fn predicate in V.tells →
            LogKeeps view.name (Follows (old.log_left old.clock view.name) (ShrinksToEnd items says None))
            old (V.state vol.new) }
        // Where no more is durable than an end keeps, each image of all three goes on standing for the list, or for a
        // longer one.
        ensures images { let view = C.config journal_cfg in let old = V.state vol.old in
            let items = items_of C.Item.spelling C.Item.admits view old in
            let says = FnReturnsAt P.Fn predicate in V.tells → (list rest : List C.Item) (marks : Marks) →
            ((end : ℕ) → EndsAt items says None end → (marks.durable ≤ end) × (marks.node_durable ≤ end)) →
            Spells C.Item.spelling list (log_of view old) → length (list ++ rest) ≤ 2 ^ 62 →
            NamesKeepStanding F.shape H.hash H.Digest.spelling C.Item.spelling (list ++ rest) marks
            view.name (string_bytes merkle_cfg.nodes) (string_bytes merkle_cfg.metadata) old (V.state vol.new) }
        // What is then left of it stands for the items up to the end, and all of these are durable.
        ensures settled { let view = C.config journal_cfg in let old = V.state vol.old in
            let items = items_of C.Item.spelling C.Item.admits view old in
            let says = FnReturnsAt P.Fn predicate in
            IfOk result (λ t. V.tells → (list rest : List C.Item) (marks : Marks) →
            ((end : ℕ) → EndsAt items says None end → (marks.durable ≤ end) × (marks.node_durable ≤ end)) →
            Spells C.Item.spelling list (log_of view old) → length (list ++ rest) ≤ 2 ^ 62 →
            NamesSettle F.shape H.hash H.Digest.spelling C.Item.spelling (list ++ rest) t.items.end marks
            view.name (string_bytes merkle_cfg.nodes) (string_bytes merkle_cfg.metadata) old (V.state vol.new)) }
        ensures changes { Changes V.tells Error.Volume (V.state vol.old) (V.state vol.new) result }
    {
        Journal::open_under(
            alloc,
            vol,
            merkle_cfg,
            journal_cfg,
            None,
            predicate,
            bagging,
            apply_batch,
        )
    }

    /// Opens the journal up to the last item that a predicate accepts and that ends at or below a size, or at 0 where none
    /// does. The items that the tree lacks are read so many at a time. It refuses as `prepare`, and then as
    /// `Recovery::finish`.
    pub fn init_at_most<V: Volume, P: Fn(&C::Item) -> bool>(
        alloc: Global,
        vol: &mut V,
        merkle_cfg: Config,
        journal_cfg: C::Config,
        max_size: u64,
        predicate: P,
        bagging: Bagging,
        apply_batch: NonZeroU64,
    ) -> Result<Self, Error<F>>
        requires callable { P.IsAlwaysCallable predicate }
        requires apart { (C.config journal_cfg).name ≢ string_bytes merkle_cfg.nodes }
        ensures named { IfOk result (λ t. SameButBounds (C.config journal_cfg) t.items × (t.bagging ≡ bagging)
            × (t.failed ≡ false)) }
        ensures tree_named { IfOk result (λ t. (t.tree.log.name ≡ string_bytes merkle_cfg.nodes)
            × (t.tree.log.blob ≡ non_zero_u64_get merkle_cfg.items_per_blob)
            × (t.tree.metadata ≡ string_bytes merkle_cfg.metadata)) }
        ensures found { let items = items_of C.Item.spelling C.Item.admits (C.config journal_cfg) (V.state vol.old) in
            let says = FnReturnsAt P.Fn predicate in
            IfOk result (λ t. V.tells → EndsAt items says (Some max_size) t.items.end) }
        ensures cut { let view = C.config journal_cfg in IfOk result (λ t. V.tells →
            (log_of view (V.state vol.new) ≡ cut_to (log_of view (V.state vol.old)) t.items.end)
            × IsHeld t.items (V.state vol.new)) }
        // The tree is opened under that end, and the items that it lacks can be read.
        ensures opens { let map = (V.state vol.old).map (string_bytes merkle_cfg.metadata) in
            let log = (V.state vol.old).log (string_bytes merkle_cfg.nodes) in
            let items = items_of C.Item.spelling C.Item.admits (C.config journal_cfg) (V.state vol.old) in
            IfOk result (λ t. V.tells → OpensUpTo F H.Digest.spelling (H.Digest.Read.admits tt) F.shape map log items
            t.items.end t.tree.boundary) }
        // Whatever the volume tells, it has a leaf for each item, and no more.
        ensures whole { IfOk result (λ t. t.tree.tree.leaves ≡ t.items.end) }
        ensures rests { IfOk result (λ t. Rests F.shape t.tree) }
        ensures seated { IfOk result (λ t. V.tells → IsSeated F.shape t.tree (present (V.state vol.new))) }
        // The map of the tree stays.
        ensures map { let name = string_bytes merkle_cfg.metadata in
            OnOk result (V.tells → (V.state vol.new).map name ≡ (V.state vol.old).map name) }
        // The node log begins where the kept one did, or with the blob of the stored boundary's position.
        ensures nodes { let map = (V.state vol.old).map (string_bytes merkle_cfg.metadata) in
            let log = (V.state vol.old).log (string_bytes merkle_cfg.nodes) in
            let blob = non_zero_u64_get merkle_cfg.items_per_blob in
            IfOk result (λ t. V.tells → (stored : Option ℕ) → stored_in {F = F} map ≡ Ok stored →
            let point = blob_start blob (size F.shape (unwrap_or stored 0)) in
            t.tree.log.start ≡ max (log_kept stored log).start point) }
        // For each list that the log stood for, and the tree with perhaps more items behind it, it is the journal of
        // the list's first items.
        ensures joined { let map = (V.state vol.old).map (string_bytes merkle_cfg.metadata) in
            let log = (V.state vol.old).log (string_bytes merkle_cfg.nodes) in
            IfOk result (λ t. V.tells → (list rest : List C.Item) (durable top : ℕ) →
            Spells C.Item.spelling list (log_of (C.config journal_cfg) (V.state vol.old)) →
            length (list ++ rest) ≤ 2 ^ 62 →
            TreeStands F.shape H.hash H.Digest.spelling (leaves_of F.shape H.hash C.Item.spelling (list ++ rest))
            durable top log map →
            IsJoinedOf F.shape H.hash H.Digest.spelling (H.Digest.Read.admits tt) C.Item.spelling
            (take t.items.end list) t (present (V.state vol.new))) }
        ensures durable { IfOk result (λ t. V.tells →
            IsDurable t.items (V.state vol.new) × IsDurable t.tree.log (V.state vol.new)) }
        ensures refused { let items = items_of C.Item.spelling C.Item.admits (C.config journal_cfg) (V.state vol.old) in
            let says = FnReturnsAt P.Fn predicate in
            let map = (V.state vol.old).map (string_bytes merkle_cfg.metadata) in
            let log = (V.state vol.old).log (string_bytes merkle_cfg.nodes) in
            V.tells → IfErr result
            (NotOpened V.tells H.Digest.spelling (H.Digest.Read.admits tt) F.shape map log items says (Some max_size)) }
        // Whatever the volume tells, and whatever it holds.
        ensures lifted { IfErr result IsLifted }
        ensures names { let names = two_logs_and_map (C.config journal_cfg).name (string_bytes merkle_cfg.nodes)
            (string_bytes merkle_cfg.metadata) in V.tells → NamesCall names (V.state vol.old) (V.state vol.new) }
        // An image of the log loses at most what is behind the end.
        ensures log { let view = C.config journal_cfg in let old = V.state vol.old in
            let items = items_of C.Item.spelling C.Item.admits view old in
            let says = FnReturnsAt P.Fn predicate in V.tells →
            LogKeeps view.name (Follows (old.log_left old.clock view.name) (ShrinksToEnd items says (Some max_size)))
            old (V.state vol.new) }
        // Where no more is durable than an end keeps, each image of all three goes on standing for the list, or for a
        // longer one.
        ensures images { let view = C.config journal_cfg in let old = V.state vol.old in
            let items = items_of C.Item.spelling C.Item.admits view old in
            let says = FnReturnsAt P.Fn predicate in V.tells → (list rest : List C.Item) (marks : Marks) →
            ((end : ℕ) → EndsAt items says (Some max_size) end → (marks.durable ≤ end) × (marks.node_durable ≤ end)) →
            Spells C.Item.spelling list (log_of view old) → length (list ++ rest) ≤ 2 ^ 62 →
            NamesKeepStanding F.shape H.hash H.Digest.spelling C.Item.spelling (list ++ rest) marks
            view.name (string_bytes merkle_cfg.nodes) (string_bytes merkle_cfg.metadata) old (V.state vol.new) }
        // What is then left of it stands for the items up to the end, and all of these are durable.
        ensures settled { let view = C.config journal_cfg in let old = V.state vol.old in
            let items = items_of C.Item.spelling C.Item.admits view old in
            let says = FnReturnsAt P.Fn predicate in
            IfOk result (λ t. V.tells → (list rest : List C.Item) (marks : Marks) →
            ((end : ℕ) → EndsAt items says (Some max_size) end → (marks.durable ≤ end) × (marks.node_durable ≤ end)) →
            Spells C.Item.spelling list (log_of view old) → length (list ++ rest) ≤ 2 ^ 62 →
            NamesSettle F.shape H.hash H.Digest.spelling C.Item.spelling (list ++ rest) t.items.end marks
            view.name (string_bytes merkle_cfg.nodes) (string_bytes merkle_cfg.metadata) old (V.state vol.new)) }
        ensures changes { Changes V.tells Error.Volume (V.state vol.old) (V.state vol.new) result }
    {
        Journal::open_under(
            alloc,
            vol,
            merkle_cfg,
            journal_cfg,
            Some(max_size),
            predicate,
            bagging,
            apply_batch,
        )
    }
}
