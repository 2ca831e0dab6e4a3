//! A tree begins in a sync.
ghost use Rattle.std.specs.Prelude.{◌≡◌, ◌⊎◌, ◌<◌, ◌≤◌, ◌^◌, ℕ, List, length, take, Option, false};
ghost use Rattle.std.specs.Prelude.{unwrap_or, string_bytes, is_some, IfOk, IfErr, IfSome, OnOk};
ghost use Rattle.std.specs.Option.{option_map};
ghost use Rattle.std.specs.NonZero.{non_zero_u64_get};
ghost use Rattle.journal_base.specs.View.{config_of, seen_of, log_of, SameButBounds, IsHeld, IsDurable};
ghost use Rattle.tree_shape.specs.Hashing.{Hashing};
ghost use Rattle.tree_store.specs.Stored.{size};
ghost use Rattle.tree_store.specs.Stores.{IsOutside};
ghost use Rattle.tree_core.specs.Tree.{IsOf, IsSound, node_at, rests};
ghost use Rattle.volume_base.specs.Moments.{present, PairKeeps};
ghost use Rattle.volume_base.specs.Names.{log_and_map, NamesCall};
ghost use Rattle.volume_base.specs.Volume.{OnlyLeft, Reads, Writes, Changes};
ghost use Rattle.merkle_full.specs.Full.{Rests, IsSeated};
ghost use Rattle.merkle_full.specs.Lifted.{IsLifted};
ghost use Rattle.merkle_full.specs.Lists.{AreDigests, IsFullOf};
ghost use Rattle.merkle_full.specs.Preparing.{contents_of};
ghost use Rattle.merkle_full.specs.Recovering.{IsRecalled};
ghost use Rattle.merkle_full.specs.Syncing.{KeepsOf, log_begun, IsMapBegun, IsMiscounted};
ghost use Rattle.merkle_full.specs.Syncing.{Begins, IsBegunAs, IsBegunFrom, NotBegun, BeginsInOrder};

use crate::pins::pin_positions;
use crate::reopen::reopened;
use crate::sync_log::{begun_log, leaves_kept};
use crate::sync_pins::{check_count, start_map, start_pins};
use crate::{Merkle, SyncConfig};
use journal_base::{
    Backing, BackingRecovery, Fixed, FixedJournal, JournalConfig, Recovery as JournalRecovery,
};
use std::alloc::Global;
use tree_core::{Digest, Error, Family, Mem};
use volume_base::{MetaMap, Volume};

/// What a tree that begins will have: its memory, its map, and how many leaves' nodes are kept of its log.
#[derive(Drop)]
struct Start<F: Family, D: Digest> {
    mem: Mem<F, D>,
    map: MetaMap,
    kept: Option<u64>,
}

/// The node log, seen to its end.
fn seen_nodes<F: Family, D: Digest, V: Volume>(
    vol: &mut V,
    cfg: JournalConfig<()>,
) -> Result<JournalRecovery<D, Fixed>, Error<F>>
    ensures made { IfOk result (λ made. SameButBounds (config_of cfg) (seen_of made)) }
    ensures held { IfOk result (λ made. V.tells → IsHeld (seen_of made) (V.state vol.old)) }
    ensures outside { IfErr result IsOutside }
    ensures reads { Reads V.tells Error.Volume (V.state vol.old) (V.state vol.new) result }
{
    let nodes = FixedJournal::<D>::recover(vol, cfg, None)?;
    Ok(nodes)
}

/// What a tree that begins at `start` will have. It refuses as `start_pins`, then as `reopened`.
fn ready<F: Family, D: Digest, V: Volume>(
    alloc: Global,
    vol: &mut V,
    nodes: &JournalRecovery<D, Fixed>,
    metadata: &str,
    start: u64,
    end: u64,
    given: Option<Vec<D>>,
) -> Result<Start<F, D>, Error<F>>
    requires few { end ≤ 2 ^ 62 }
    requires below { start < end }
    requires counted { IsMiscounted F.shape start (option_map (λ v. v.items) given) → ⊥ }
    ensures leaves { IfOk result (λ r. r.mem.leaves ≡ unwrap_or r.kept start) }
    ensures boundary { IfOk result (λ r. r.mem.boundary ≡ unwrap_or r.kept start) }
    ensures sound { IfOk result (λ r. IsSound F.shape r.mem) }
    ensures exact { IfOk result (λ r. (p : ℕ) →
        is_some (node_at r.mem p) ≡ rests F.shape (unwrap_or r.kept start) start p) }
    ensures kept { let log = log_of (seen_of nodes.now) (V.state vol.old) in
        IfOk result (λ r. V.tells → IsHeld (seen_of nodes.now) (V.state vol.old) →
        KeepsOf F.shape start end log r.kept) }
    ensures within { IfOk result (λ r. IfSome r.kept (λ n. (start ≤ n) × (n ≤ end))) }
    ensures low { IfOk result (λ r. IfSome r.kept (λ n. (seen_of nodes.now).start ≤ size F.shape start)) }
    ensures fits { IfOk result (λ r. IfSome r.kept (λ n. size F.shape n ≤ (seen_of nodes.now).end)) }
    ensures map { let map = (V.state vol.old).map metadata.now in
        let log = log_of (seen_of nodes.now) (V.state vol.old) in
        let source = contents_of D.spelling (D.Read.admits tt) map log in
        IfOk result (λ r. V.tells → IsHeld (seen_of nodes.now) (V.state vol.old) →
        IsMapBegun source F.shape start (option_map (λ v. v.items) given) r.map) }
    ensures tree { let map = (V.state vol.old).map metadata.now in
        let log = log_of (seen_of nodes.now) (V.state vol.old) in
        let source = contents_of D.spelling (D.Read.admits tt) map log in
        IfOk result (λ r. V.tells → IsHeld (seen_of nodes.now) (V.state vol.old) → (h : Hashing D) (all : List D) →
        IsBegunFrom F.shape h all start end (option_map (λ v. v.items) given) source →
        IsOf F.shape h (take (unwrap_or r.kept start) all) r.mem) }
    ensures refused { let map = (V.state vol.old).map metadata.now in
        let log = log_of (seen_of nodes.now) (V.state vol.old) in
        let source = contents_of D.spelling (D.Read.admits tt) map log in
        V.tells → IsHeld (seen_of nodes.now) (V.state vol.old) →
        IfErr result (NotBegun source F.shape start end (option_map (λ v. v.items) given)) }
    ensures recalls { let log = log_of (seen_of nodes.now) (V.state vol.old) in
        IfOk result (λ r. V.tells → IsHeld (seen_of nodes.now) (V.state vol.old) → IsRecalled (Unit {0})
        (contents_of D.spelling (D.Read.admits tt) r.map log) (size F.shape (unwrap_or r.kept start)) r.mem) }
    ensures errors { IfErr result IsLifted }
    ensures reads { Reads V.tells Error.Volume (V.state vol.old) (V.state vol.new) result }
{
    let positions = pin_positions::<F>(alloc, start)?;
    let pins = start_pins(alloc, vol, nodes, metadata, &positions, given)?;
    let map = start_map::<F, D>(alloc, &positions, &pins, start)?;
    let (from, to) = nodes.bounds();
    let kept = leaves_kept::<F>(from, to, start, end);
    let mem = reopened(alloc, &map, nodes, vol, kept.unwrap_or(start), start)?;
    Ok(Start { mem, map, kept })
}

impl<F: Family, D: Digest> Start<F, D> {
    /// Replaces the map, and then leaves of the log what is kept.
    fn begin<V: Volume>(
        self,
        vol: &mut V,
        nodes: JournalRecovery<D, Fixed>,
        metadata: String,
        start: u64,
    ) -> Result<Merkle<F, D>, Error<F>>
        requires few { start ≤ 2 ^ 62 }
        requires within { IfSome self.kept (λ n. (start ≤ n) × (n ≤ 2 ^ 62)) }
        requires low { IfSome self.kept (λ n. (seen_of nodes).start ≤ size F.shape start) }
        requires fits { IfSome self.kept (λ n. size F.shape n ≤ (seen_of nodes).end) }
        requires leaves { self.mem.leaves ≡ unwrap_or self.kept start }
        requires boundary { self.mem.boundary ≡ unwrap_or self.kept start }
        requires sound { IsSound F.shape self.mem }
        requires exact { (p : ℕ) → is_some (node_at self.mem p) ≡ rests F.shape (unwrap_or self.kept start) start p }
        requires unfailed { (seen_of nodes).failed ≡ false }
        ensures tree { IfOk result (λ t. t.tree ≡ self.mem) }
        ensures named { IfOk result (λ t.
            IsBegunAs (seen_of nodes).name (seen_of nodes).blob (string_bytes metadata) start t) }
        ensures rests { IfOk result (λ t. Rests F.shape t) }
        ensures seated { IfOk result (λ t. V.tells → IsHeld (seen_of nodes) (V.state vol.old) →
            IsSeated F.shape t (present (V.state vol.new))) }
        ensures log { let log = log_of (seen_of nodes) (V.state vol.old) in
            OnOk result (V.tells → IsHeld (seen_of nodes) (V.state vol.old) →
            log_of (seen_of nodes) (V.state vol.new) ≡ log_begun F.shape (seen_of nodes).blob start self.kept log) }
        ensures map { OnOk result (V.tells → (V.state vol.new).map (string_bytes metadata) ≡ self.map) }
        ensures durable { OnOk result (V.tells → IsDurable (seen_of nodes) (V.state vol.new)) }
        ensures durable_map { let state = V.state vol.new in
            OnOk result (V.tells → OnlyLeft (state.map_left state.clock (string_bytes metadata)) self.map) }
        ensures outside { V.tells → IsHeld (seen_of nodes) (V.state vol.old) → IfErr result IsOutside }
        ensures errors { IfErr result IsLifted }
        ensures names { V.tells →
            NamesCall (log_and_map (seen_of nodes).name (string_bytes metadata)) (V.state vol.old) (V.state vol.new) }
        ensures images { let old = V.state vol.old in let name = (seen_of nodes).name in
            V.tells → PairKeeps name (string_bytes metadata) (λ log m.
            (old.log_left old.clock name log × old.map_left old.clock (string_bytes metadata) m) ⊎ (m ≡ self.map))
            old (V.state vol.new) }
        ensures writes { Writes V.tells Error.Volume (V.state vol.old) (V.state vol.new) result }
    {
        vol.map_replace(metadata.as_str(), &self.map)?;
        let nodes = begun_log::<F, D, V>(vol, nodes, start, self.kept)?;
        Ok(Merkle {
            mem: self.mem,
            nodes,
            metadata,
            boundary: start,
        })
    }
}

impl<F: Family, D: Digest> Merkle<F, D> {
    ghost use Rattle.std.specs.Prelude.{◌≡◌, ◌⊎◌, ◌<◌, ◌≤◌, ◌^◌, ℕ, List, take, string_bytes, Err, IfOk, IfErr, OnOk};
    ghost use Rattle.std.specs.Option.{option_map};
    ghost use Rattle.std.specs.NonZero.{non_zero_u64_get};
    ghost use Rattle.tree_shape.specs.Hashing.{Hashing};
    ghost use Rattle.tree_store.specs.Stored.{size};
    ghost use Rattle.tree_store.specs.Stores.{IsOutside};
    ghost use Rattle.volume_base.specs.Moments.{present, PairKeeps};
    ghost use Rattle.volume_base.specs.Names.{log_and_map, NamesCall};
    ghost use Rattle.volume_base.specs.Volume.{OnlyLeft, Changes};
    ghost use Rattle.merkle_full.specs.Full.{Rests, IsSeated};
    ghost use Rattle.merkle_full.specs.Lifted.{IsLifted};
    ghost use Rattle.merkle_full.specs.Lists.{AreDigests, IsFullOf};
    ghost use Rattle.merkle_full.specs.Preparing.{contents_of};
    ghost use Rattle.merkle_full.specs.Recovering.{IsRecalled};
    ghost use Rattle.merkle_full.specs.Syncing.{IsMapBegun, IsMiscounted};
    ghost use Rattle.merkle_full.specs.Syncing.{Begins, IsBegunAs, IsBegunFrom, NotBegun, BeginsInOrder};

    /// Begins a tree that is pruned at `start`, with the pins of `start`, in the place of what is stored. The node
    /// log is kept up to `end` leaves where it covers `start`: where it begins at or before the position of `start`,
    /// and one more leaf is complete. Else it is cleared to that position. It refuses, before anything is written:
    /// with `InvalidPinnedNodes` given pins of which there aren't as many as peaks of `start`; and as `prepare` the
    /// first peak that is in neither place, of `start` where no pins are given, and then of the leaves that will stand.
    pub fn init_sync<V: Volume>(
        alloc: Global,
        vol: &mut V,
        cfg: SyncConfig<F, D>,
    ) -> Result<Self, Error<F>>
        requires few { cfg.end ≤ 2 ^ 62 }
        requires below { cfg.start < cfg.end }
        ensures counted { IsMiscounted F.shape cfg.start (option_map (λ v. v.items) cfg.pinned_nodes) →
            (result ≡ Err Error.InvalidPinnedNodes) × (vol.new ≡ vol.old) }
        ensures named { IfOk result (λ t. IsBegunAs (string_bytes cfg.config.nodes)
            (non_zero_u64_get cfg.config.items_per_blob) (string_bytes cfg.config.metadata) cfg.start t) }
        // It has the leaves that are kept of the log, or else those of `start`; and its log is what is kept.
        ensures begins { let name = string_bytes cfg.config.nodes in
            IfOk result (λ t. V.tells → Begins F.shape cfg.start cfg.end
            ((V.state vol.old).log name) ((V.state vol.new).log name) t) }
        ensures map { let map = (V.state vol.old).map (string_bytes cfg.config.metadata) in
            let log = (V.state vol.old).log (string_bytes cfg.config.nodes) in
            let source = contents_of D.spelling (D.Read.admits tt) map log in
            OnOk result (V.tells → IsMapBegun source F.shape cfg.start (option_map (λ v. v.items) cfg.pinned_nodes)
            ((V.state vol.new).map (string_bytes cfg.config.metadata))) }
        ensures rests { IfOk result (λ t. Rests F.shape t) }
        // Each node that memory has is the recovered one: a pin of the new map, or else what the log had.
        ensures recalls { let map = (V.state vol.new).map (string_bytes cfg.config.metadata) in
            let log = (V.state vol.old).log (string_bytes cfg.config.nodes) in
            IfOk result (λ t. V.tells → IsRecalled (Unit {0}) (contents_of D.spelling (D.Read.admits tt) map log)
            (size F.shape t.tree.leaves) t.tree) }
        ensures seated { IfOk result (λ t. V.tells → IsSeated F.shape t (present (V.state vol.new))) }
        // For each list from which it begins it is held, and is the tree of its first leaves.
        ensures full { let map = (V.state vol.old).map (string_bytes cfg.config.metadata) in
            let log = (V.state vol.old).log (string_bytes cfg.config.nodes) in
            let source = contents_of D.spelling (D.Read.admits tt) map log in
            IfOk result (λ t. V.tells → (h : Hashing D) (all : List D) → AreDigests F.shape h (D.Read.admits tt) all →
            IsBegunFrom F.shape h all cfg.start cfg.end (option_map (λ v. v.items) cfg.pinned_nodes) source →
            IsFullOf F.shape h D.spelling (D.Read.admits tt) (take t.tree.leaves all) t (present (V.state vol.new))) }
        ensures durable { let state = V.state vol.new in let name = string_bytes cfg.config.nodes in
            OnOk result (V.tells → OnlyLeft (state.log_left state.clock name) (state.log name)) }
        ensures durable_map { let state = V.state vol.new in let name = string_bytes cfg.config.metadata in
            OnOk result (V.tells → OnlyLeft (state.map_left state.clock name) (state.map name)) }
        ensures refused { let map = (V.state vol.old).map (string_bytes cfg.config.metadata) in
            let log = (V.state vol.old).log (string_bytes cfg.config.nodes) in
            let source = contents_of D.spelling (D.Read.admits tt) map log in
            V.tells → IfErr result
            (NotBegun source F.shape cfg.start cfg.end (option_map (λ v. v.items) cfg.pinned_nodes)) }
        // Of any contents, and of a volume that tells nothing.
        ensures errors { IfErr result IsLifted }
        // Beside a refusal by name nothing is written.
        ensures unwritten { V.tells → IfErr result
            (λ e. IsOutside e ⊎ ((V.state vol.new).clock ≡ (V.state vol.old).clock)) }
        ensures names { let names = log_and_map (string_bytes cfg.config.nodes) (string_bytes cfg.config.metadata) in
            V.tells → NamesCall names (V.state vol.old) (V.state vol.new) }
        // The map is durable before the log moves.
        ensures images { let map = (V.state vol.old).map (string_bytes cfg.config.metadata) in
            let log = (V.state vol.old).log (string_bytes cfg.config.nodes) in
            let source = contents_of D.spelling (D.Read.admits tt) map log in
            let given = option_map (λ v. v.items) cfg.pinned_nodes in
            V.tells → PairKeeps (string_bytes cfg.config.nodes) (string_bytes cfg.config.metadata)
            (BeginsInOrder source F.shape cfg.start given (V.state vol.old) (string_bytes cfg.config.nodes)
            (string_bytes cfg.config.metadata)) (V.state vol.old) (V.state vol.new) }
        ensures changes { Changes V.tells Error.Volume (V.state vol.old) (V.state vol.new) result }
    {
        let start = cfg.start.as_u64();
        let end = cfg.end.as_u64();
        check_count::<F, D>(&cfg.pinned_nodes, start)?;
        let journal = JournalConfig {
            name: cfg.config.nodes,
            items_per_blob: cfg.config.items_per_blob,
            codec: (),
        };
        let metadata = cfg.config.metadata;
        let nodes = seen_nodes::<F, D, V>(vol, journal)?;
        let plan = ready(
            alloc,
            vol,
            &nodes,
            metadata.as_str(),
            start,
            end,
            cfg.pinned_nodes,
        )?;
        let tree = plan.begin(vol, nodes, metadata, start)?;
        Ok(tree)
    }
}
