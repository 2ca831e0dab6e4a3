use crate::opening::open_memory;
use crate::prepare::{cap_under, kept_nodes};
use crate::selection::stored_boundary;
use crate::{Config, Merkle};
use journal_base::{BackingRecovery, Fixed, JournalConfig, Recovery as JournalRecovery};
use std::alloc::Global;
use std::marker::Model;
use std::num::NonZeroU64;
use tree_core::{Digest, Error, Family, Hasher, Location, Mem, Standard};
use volume_base::{MetaMap, Volume};

/// A tree that stands ready to be opened. What is stored of it isn't cut yet.
#[derive(Drop)]
pub struct Recovery<F: Family, D: Digest> {
    pub(crate) mem: Mem<F, D>,
    pub(crate) nodes: JournalRecovery<D, Fixed>,
    pub(crate) read: MetaMap,
    pub(crate) metadata: String,
    pub(crate) items_per_blob: NonZeroU64,
    pub(crate) boundary: u64,
    pub(crate) complete: u64,
    pub(crate) pruned: u64,
}

impl<F: Family, D: Digest> Model for Recovery<F, D> {
    ghost use Rattle.std.specs.Prelude.{◌≡◌, false, string_bytes};
    ghost use Rattle.std.specs.Coded.{codes};
    ghost use Rattle.std.specs.NonZero.{non_zero_u64_get};
    ghost use Rattle.journal_base.specs.View.{seen_of};
    ghost use Rattle.merkle_full.specs.Preparing.{Prepared, IsReady, map_code};

    ghost Value = { Prepared D };

    ghost coded = { Prim.hlevel (codes, map_code) };

    ghost view = { λ r. record {
      tree = r.mem;
      log = seen_of r.nodes;
      read = r.read;
      metadata = string_bytes r.metadata;
      boundary = r.boundary;
      complete = r.complete;
      pruned = r.pruned;
    } };

    ghost invariant = { λ r. IsReady F F.shape (record {
      tree = r.mem;
      log = seen_of r.nodes;
      read = r.read;
      metadata = string_bytes r.metadata;
      boundary = r.boundary;
      complete = r.complete;
      pruned = r.pruned;
    }) × ((seen_of r.nodes).blob ≡ non_zero_u64_get r.items_per_blob) × ((seen_of r.nodes).failed ≡ false) };
}

impl<F: Family, D: Digest> Recovery<F, D> {
    ghost use Rattle.std.specs.Prelude.{◌≡◌, ◌≤◌, ◌^◌};

    /// The leaves that `finish` will publish.
    pub fn leaves(&self) -> Location<F>
        ensures leaves { result ≡ self.now.tree.leaves }
        ensures few { result ≤ 2 ^ 62 }
    {
        self.mem.leaves()
    }
}

impl<F: Family, D: Digest> Merkle<F, D> {
    ghost use Rattle.std.specs.Prelude.{◌≡◌, ◌<◌, ◌≤◌, ◌^◌, ℕ, List, take, Ok, Option, string_bytes, IfOk, IfErr, OnOk};
    ghost use Rattle.std.specs.NonZero.{non_zero_u64_get};
    ghost use Rattle.tree_store.specs.Stored.{TreeStands};
    ghost use Rattle.tree_core.specs.Hashed.{HasParents};
    ghost use Rattle.tree_core.specs.Tree.{IsOf, node_at};
    ghost use Rattle.volume_base.specs.Log.{cleared_at, BecomesOneOf};
    ghost use Rattle.volume_base.specs.Volume.{LogCall, Changes};
    ghost use Rattle.merkle_full.specs.Lifted.{IsLifted};
    ghost use Rattle.merkle_full.specs.Opening.{stored_in};
    ghost use Rattle.merkle_full.specs.Preparing.{cap_of, log_kept, NotPrepared, Opens, Recalls, IsPreparedIn, IsNamed};

    /// Reads the map and the node log, and makes memory of the most leaves that the boundary, the nodes and the cap
    /// allow. It refuses, in this order: with `DataCorrupted` a stored boundary that isn't eight bytes long, with
    /// `LocationOverflow` one above `MAX_LEAVES`, with `ElementPruned` a cap below it, with `Journal(ItemPruned)` a cap
    /// below the node log's start, and with `MissingNode` a boundary past the complete leaves. Then the peaks are read,
    /// and refused with `MissingNode` where neither map nor log has one, and with `DataCorrupted` where its bytes are no
    /// digest.
    pub fn prepare<H: Hasher<Digest = D>, V: Volume>(
        alloc: Global,
        vol: &mut V,
        hasher: &Standard<H>,
        cfg: Config,
        max_leaves: Option<Location<F>>,
    ) -> Result<Recovery<F, D>, Error<F>>
        ensures named { IfOk result (λ r. IsNamed (string_bytes cfg.nodes) (non_zero_u64_get cfg.items_per_blob)
            (string_bytes cfg.metadata) r) }
        ensures prepared { let map = (V.state vol.old).map (string_bytes cfg.metadata) in
            let log = (V.state vol.old).log (string_bytes cfg.nodes) in
            IfOk result (λ r. V.tells → Opens F D.spelling (D.Read.admits tt) F.shape map log (cap_of max_leaves)
            r.boundary r.complete r.pruned r.tree.leaves) }
        // Each node that memory has of the complete leaves is the recovered one, and the orphan is the log's.
        ensures recalls { let map = (V.state vol.old).map (string_bytes cfg.metadata) in
            let log = (V.state vol.old).log (string_bytes cfg.nodes) in
            IfOk result (λ r. V.tells →
            Recalls F D.spelling (D.Read.admits tt) F.shape map log r.complete r.tree) }
        // Behind an orphan stand its parents, each hashed from what memory has.
        ensures parents { IfOk result (λ r.
            r.complete < r.tree.leaves → HasParents F.shape H.hash r.complete (node_at r.tree)) }
        ensures within { IfOk result (λ r. V.tells → IsPreparedIn r (V.state vol.new)) }
        // For each list that the contents stand for, it is the tree of its first leaves.
        ensures list { let map = (V.state vol.old).map (string_bytes cfg.metadata) in
            let log = (V.state vol.old).log (string_bytes cfg.nodes) in
            IfOk result (λ r. V.tells → (all : List D) (durable top : ℕ) →
            TreeStands F.shape H.hash D.spelling all durable top log map →
            IsOf F.shape H.hash (take r.tree.leaves all) r.tree) }
        ensures refused { let map = (V.state vol.old).map (string_bytes cfg.metadata) in
            let log = (V.state vol.old).log (string_bytes cfg.nodes) in
            V.tells → IfErr result (NotPrepared D.spelling (D.Read.admits tt) F.shape map log (cap_of max_leaves)) }
        // Of any contents, and of a volume that tells nothing.
        ensures errors { IfErr result IsLifted }
        // At most the log is cleared, where no boundary is stored and it starts past 0.
        ensures log { V.tells →
            LogCall (string_bytes cfg.nodes) (BecomesOneOf (cleared_at 0)) (V.state vol.old) (V.state vol.new) }
        ensures kept { let map = (V.state vol.old).map (string_bytes cfg.metadata) in
            let log = (V.state vol.old).log (string_bytes cfg.nodes) in
            OnOk result (V.tells → (stored : Option ℕ) → stored_in {F = F} map ≡ Ok stored →
            (V.state vol.new).log (string_bytes cfg.nodes) ≡ log_kept stored log) }
        ensures still { let map = (V.state vol.old).map (string_bytes cfg.metadata) in
            let log = (V.state vol.old).log (string_bytes cfg.nodes) in
            V.tells → ((stored : Option ℕ) → stored_in {F = F} map ≡ Ok stored → log_kept stored log ≡ log) →
            (V.state vol.new).clock ≡ (V.state vol.old).clock }
        ensures changes { Changes V.tells Error.Volume (V.state vol.old) (V.state vol.new) result }
    {
        let read = vol.map_get(cfg.metadata.as_str())?;
        let stored = stored_boundary::<F>(alloc, &read)?;
        let journal = JournalConfig {
            name: cfg.nodes,
            items_per_blob: cfg.items_per_blob,
            codec: (),
        };
        let nodes = kept_nodes::<F, D, V>(vol, journal, stored)?;
        let boundary = stored.unwrap_or(0);
        let found = open_memory(
            alloc,
            &read,
            &nodes,
            vol,
            hasher,
            boundary,
            cap_under(max_leaves),
        )?;
        Ok(Recovery {
            mem: found.mem,
            nodes,
            read,
            metadata: cfg.metadata,
            items_per_blob: cfg.items_per_blob,
            boundary,
            complete: found.selection.complete,
            pruned: found.selection.pruned,
        })
    }
}
