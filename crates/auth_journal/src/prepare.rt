//! What is found before a journal is opened.
use crate::search::find_end;
use crate::{Error, Journal, Recovery};
use journal_base::{Backing, BackingRecovery};
use merkle_full::{Config, Merkle};
use std::alloc::Global;
use std::num::NonZeroU64;
use tree_core::{Bagging, Family, Hasher, Location, MAX_LEAVES, Standard};
use volume_base::{JournalError, Volume};

impl<F: Family, C: Backing, H: Hasher> Journal<F, C, H> {
    ghost use Rattle.std.specs.Prelude.{◌≡◌, ◌≢◌, ◌⊎◌, ◌≤◌, ◌^◌, ℕ, List, take, Ok, Some, Option, string_bytes, IfOk, IfErr, OnOk};
    ghost use Rattle.std.specs.Fn.{FnReturnsAt};
    ghost use Rattle.std.specs.NonZero.{non_zero_u64_get};
    ghost use Rattle.journal_base.specs.Items.{items_of};
    ghost use Rattle.journal_base.specs.View.{SameButBounds};
    ghost use Rattle.tree_core.specs.Tree.{IsOf};
    ghost use Rattle.tree_store.specs.Stored.{TreeStands};
    ghost use Rattle.volume_base.specs.Log.{cleared_at, BecomesOneOf};
    ghost use Rattle.volume_base.specs.Volume.{LogCall, Changes};
    ghost use Rattle.merkle_full.specs.Opening.{stored_in};
    ghost use Rattle.merkle_full.specs.Preparing.{cap_of, log_kept, Opens, IsNamed};
    ghost use Rattle.auth_journal.specs.Errors.{IsLifted};
    ghost use Rattle.auth_journal.specs.Joined.{leaves_of};
    ghost use Rattle.auth_journal.specs.Opening.{IsReadyIn, NotReady};
    ghost use Rattle.auth_journal.specs.Searching.{EndsAt};

    /// Finds the end behind the last item up to a cap, or any, that a predicate accepts, and prepares the tree under
    /// it. The items that the tree lacks will be read so many at a time. It refuses, under `Journal`, with `ItemPruned`
    /// a cap below the log's start, or the start where nothing matches and the start isn't 0, and with `Corruption`
    /// bytes that are no item; then with `LocationOverflow` an end above `MAX_LEAVES`; then as the tree; and last with
    /// `ItemPruned` a tree that ends below the log's start.
    pub fn prepare<V: Volume, P: Fn(&C::Item) -> bool>(
        alloc: Global,
        vol: &mut V,
        merkle_cfg: Config,
        journal_cfg: C::Config,
        max_size: Option<u64>,
        predicate: P,
        bagging: Bagging,
        apply_batch: NonZeroU64,
    ) -> Result<Recovery<F, C, H>, Error<F>>
        requires callable { P.IsAlwaysCallable predicate }
        requires apart { (C.config journal_cfg).name ≢ string_bytes merkle_cfg.nodes }
        ensures named { IfOk result (λ r. SameButBounds (C.config journal_cfg) r.items
            × IsNamed (string_bytes merkle_cfg.nodes) (non_zero_u64_get merkle_cfg.items_per_blob)
            (string_bytes merkle_cfg.metadata) r.tree × (r.bagging ≡ bagging)) }
        ensures found { let items = items_of C.Item.spelling C.Item.admits (C.config journal_cfg) (V.state vol.old) in
            let says = FnReturnsAt P.Fn predicate in
            IfOk result (λ r. V.tells → EndsAt items says max_size r.end) }
        ensures opens { let map = (V.state vol.old).map (string_bytes merkle_cfg.metadata) in
            let log = (V.state vol.old).log (string_bytes merkle_cfg.nodes) in
            IfOk result (λ r. V.tells → Opens F H.Digest.spelling (H.Digest.Read.admits tt) F.shape map log
            (cap_of (Some r.end)) r.tree.boundary r.tree.complete r.tree.pruned r.tree.tree.leaves) }
        ensures within { IfOk result (λ r. V.tells → IsReadyIn r (V.state vol.new)) }
        // Whatever the volume tells.
        ensures sound { IfOk result (λ r. (r.items.start ≤ r.tree.tree.leaves) × (r.end ≤ 2 ^ 62)) }
        // For each list that the contents stand for, the tree is that of its first leaves.
        ensures list { let map = (V.state vol.old).map (string_bytes merkle_cfg.metadata) in
            let log = (V.state vol.old).log (string_bytes merkle_cfg.nodes) in
            IfOk result (λ r. V.tells → (list : List C.Item) (durable top : ℕ) →
            TreeStands F.shape H.hash H.Digest.spelling (leaves_of F.shape H.hash C.Item.spelling list)
            durable top log map →
            IsOf F.shape H.hash (leaves_of F.shape H.hash C.Item.spelling (take r.tree.tree.leaves list)) r.tree.tree) }
        ensures refused { let items = items_of C.Item.spelling C.Item.admits (C.config journal_cfg) (V.state vol.old) in
            let says = FnReturnsAt P.Fn predicate in
            let map = (V.state vol.old).map (string_bytes merkle_cfg.metadata) in
            let log = (V.state vol.old).log (string_bytes merkle_cfg.nodes) in
            V.tells → IfErr result
            (NotReady H.Digest.spelling (H.Digest.Read.admits tt) F.shape map log items says max_size) }
        // Whatever the volume tells, and whatever it holds.
        ensures lifted { IfErr result IsLifted }
        // Before an end is found that a tree may have nothing is written.
        ensures searched { let items = items_of C.Item.spelling C.Item.admits (C.config journal_cfg) (V.state vol.old) in
            let says = FnReturnsAt P.Fn predicate in V.tells → ((V.state vol.new).clock ≡ (V.state vol.old).clock)
            ⊎ ((end : ℕ) × EndsAt items says max_size end × (end ≤ 2 ^ 62)) }
        // At most the node log is cleared, where no boundary is stored and it starts past 0.
        ensures log { V.tells →
            LogCall (string_bytes merkle_cfg.nodes) (BecomesOneOf (cleared_at 0)) (V.state vol.old) (V.state vol.new) }
        ensures kept { let map = (V.state vol.old).map (string_bytes merkle_cfg.metadata) in
            let log = (V.state vol.old).log (string_bytes merkle_cfg.nodes) in
            OnOk result (V.tells → (stored : Option ℕ) → stored_in {F = F} map ≡ Ok stored →
            (V.state vol.new).log (string_bytes merkle_cfg.nodes) ≡ log_kept stored log) }
        ensures still { let map = (V.state vol.old).map (string_bytes merkle_cfg.metadata) in
            let log = (V.state vol.old).log (string_bytes merkle_cfg.nodes) in
            V.tells → ((stored : Option ℕ) → stored_in {F = F} map ≡ Ok stored → log_kept stored log ≡ log) →
            (V.state vol.new).clock ≡ (V.state vol.old).clock }
        ensures changes { Changes V.tells Error.Volume (V.state vol.old) (V.state vol.new) result }
    {
        let journal = C::recover(vol, journal_cfg, None)?;
        let end = find_end(&journal, vol, max_size, predicate)?;
        if end > MAX_LEAVES {
            return Err(Error::Merkle(tree_core::Error::LocationOverflow(Location::new(end))));
        }
        let hasher = Standard::new(bagging);
        let cap = Some(Location::new(end));
        let merkle = Merkle::prepare(alloc, vol, &hasher, merkle_cfg, cap)?;
        let (start, _) = journal.bounds();
        let leaves = merkle.leaves().as_u64();
        if leaves < start {
            return Err(Error::Journal(JournalError::ItemPruned(leaves)));
        }
        Ok(Recovery {
            alloc,
            journal,
            merkle,
            hasher,
            end,
            apply_batch,
        })
    }
}
