//! Openings of a tree.
use crate::{Config, Merkle};
use std::alloc::Global;
use tree_core::{Digest, Error, Family, Hasher, Location, Standard};
use volume_base::Volume;

impl<F: Family, D: Digest> Merkle<F, D> {
    ghost use Rattle.std.specs.Prelude.{◌≡◌, string_bytes, Some, None, IfOk, IfErr, OnOk};
    ghost use Rattle.std.specs.NonZero.{non_zero_u64_get};
    ghost use Rattle.volume_base.specs.Moments.{present};
    ghost use Rattle.volume_base.specs.Names.{log_and_map, NamesCall};
    ghost use Rattle.volume_base.specs.Volume.{OnlyLeft, Changes};
    ghost use Rattle.merkle_full.specs.Full.{Rests, IsSeated};
    ghost use Rattle.merkle_full.specs.Lifted.{IsLifted};
    ghost use Rattle.merkle_full.specs.Opened.{IsOpenedAs, IsOpenedUnder, IsOfEach, KeepsEach};
    ghost use Rattle.merkle_full.specs.Preparing.{cap_of, NotPrepared};

    /// The tree of the most leaves that boundary, nodes and cap allow.
    fn open_under<H: Hasher<Digest = D>, V: Volume>(
        alloc: Global,
        vol: &mut V,
        hasher: &Standard<H>,
        cfg: Config,
        max_leaves: Option<Location<F>>,
    ) -> Result<Self, Error<F>>
        // It keeps no failure; its log and its map are those of the configuration.
        ensures named { IfOk result (IsOpenedAs (string_bytes cfg.nodes) (non_zero_u64_get cfg.items_per_blob)
            (string_bytes cfg.metadata)) }
        // It is pruned at, and has, as many leaves as boundary, nodes and cap allow. Its memory is recovered, a pin
        // before what the log has, and an orphan is the log's. Its log is what is kept up to the complete nodes, from
        // the blob of the boundary's position on, with the nodes of an orphan behind them.
        ensures opens { let map = (V.state vol.old).map (string_bytes cfg.metadata) in
            let old = (V.state vol.old).log (string_bytes cfg.nodes) in
            let new = (V.state vol.new).log (string_bytes cfg.nodes) in
            IfOk result (λ t. V.tells →
            IsOpenedUnder F H.hash D.spelling (D.Read.admits tt) F.shape map old new (cap_of max_leaves) t) }
        ensures map { let name = string_bytes cfg.metadata in
            OnOk result (V.tells → (V.state vol.new).map name ≡ (V.state vol.old).map name) }
        ensures rests { IfOk result (λ t. Rests F.shape t) }
        ensures seated { IfOk result (λ t. V.tells → IsSeated F.shape t (present (V.state vol.new))) }
        ensures full { let map = (V.state vol.old).map (string_bytes cfg.metadata) in
            let log = (V.state vol.old).log (string_bytes cfg.nodes) in
            IfOk result (λ t. V.tells →
            IsOfEach F.shape H.hash D.spelling (D.Read.admits tt) map log t (present (V.state vol.new))) }
        ensures durable { let state = V.state vol.new in let name = string_bytes cfg.nodes in
            OnOk result (V.tells → OnlyLeft (state.log_left state.clock name) (state.log name)) }
        ensures refused { let map = (V.state vol.old).map (string_bytes cfg.metadata) in
            let log = (V.state vol.old).log (string_bytes cfg.nodes) in
            V.tells → IfErr result
            (NotPrepared D.spelling (D.Read.admits tt) F.shape map log (cap_of max_leaves)) }
        // Of any contents, and of a volume that tells nothing.
        ensures errors { IfErr result IsLifted }
        ensures names { let names = log_and_map (string_bytes cfg.nodes) (string_bytes cfg.metadata) in
            V.tells → NamesCall names (V.state vol.old) (V.state vol.new) }
        ensures images { V.tells → KeepsEach F.shape H.hash D.spelling (D.Read.admits tt) (cap_of max_leaves)
            (string_bytes cfg.nodes) (string_bytes cfg.metadata) (V.state vol.old) (V.state vol.new) }
        ensures changes { Changes V.tells Error.Volume (V.state vol.old) (V.state vol.new) result }
    {
        let recovery = Merkle::prepare(alloc, vol, hasher, cfg, max_leaves)?;
        let opened = recovery.finish(vol)?;
        Ok(opened)
    }

    /// Opens the tree of the most leaves that boundary and nodes allow. It refuses as `prepare`.
    pub fn init<H: Hasher<Digest = D>, V: Volume>(
        alloc: Global,
        vol: &mut V,
        hasher: &Standard<H>,
        cfg: Config,
    ) -> Result<Self, Error<F>>
        // It keeps no failure; its log and its map are those of the configuration.
        ensures named { IfOk result (IsOpenedAs (string_bytes cfg.nodes) (non_zero_u64_get cfg.items_per_blob)
            (string_bytes cfg.metadata)) }
        // It is pruned at, and has, as many leaves as boundary, nodes and cap allow. Its memory is recovered, a pin
        // before what the log has, and an orphan is the log's. Its log is what is kept up to the complete nodes, from
        // the blob of the boundary's position on, with the nodes of an orphan behind them.
        ensures opens { let map = (V.state vol.old).map (string_bytes cfg.metadata) in
            let old = (V.state vol.old).log (string_bytes cfg.nodes) in
            let new = (V.state vol.new).log (string_bytes cfg.nodes) in
            IfOk result (λ t. V.tells →
            IsOpenedUnder F H.hash D.spelling (D.Read.admits tt) F.shape map old new (cap_of None) t) }
        ensures map { let name = string_bytes cfg.metadata in
            OnOk result (V.tells → (V.state vol.new).map name ≡ (V.state vol.old).map name) }
        ensures rests { IfOk result (λ t. Rests F.shape t) }
        ensures seated { IfOk result (λ t. V.tells → IsSeated F.shape t (present (V.state vol.new))) }
        ensures full { let map = (V.state vol.old).map (string_bytes cfg.metadata) in
            let log = (V.state vol.old).log (string_bytes cfg.nodes) in
            IfOk result (λ t. V.tells →
            IsOfEach F.shape H.hash D.spelling (D.Read.admits tt) map log t (present (V.state vol.new))) }
        ensures durable { let state = V.state vol.new in let name = string_bytes cfg.nodes in
            OnOk result (V.tells → OnlyLeft (state.log_left state.clock name) (state.log name)) }
        ensures refused { let map = (V.state vol.old).map (string_bytes cfg.metadata) in
            let log = (V.state vol.old).log (string_bytes cfg.nodes) in
            V.tells → IfErr result
            (NotPrepared D.spelling (D.Read.admits tt) F.shape map log (cap_of None)) }
        // Of any contents, and of a volume that tells nothing.
        ensures errors { IfErr result IsLifted }
        ensures names { let names = log_and_map (string_bytes cfg.nodes) (string_bytes cfg.metadata) in
            V.tells → NamesCall names (V.state vol.old) (V.state vol.new) }
        ensures images { V.tells → KeepsEach F.shape H.hash D.spelling (D.Read.admits tt) (cap_of None)
            (string_bytes cfg.nodes) (string_bytes cfg.metadata) (V.state vol.old) (V.state vol.new) }
        ensures changes { Changes V.tells Error.Volume (V.state vol.old) (V.state vol.new) result }
    {
        Merkle::open_under(alloc, vol, hasher, cfg, None)
    }

    /// Opens the tree of the most leaves, and at most so many, that boundary and nodes allow. It refuses as `prepare`.
    pub fn init_at_most<H: Hasher<Digest = D>, V: Volume>(
        alloc: Global,
        vol: &mut V,
        hasher: &Standard<H>,
        cfg: Config,
        max_leaves: Location<F>,
    ) -> Result<Self, Error<F>>
        // It keeps no failure; its log and its map are those of the configuration.
        ensures named { IfOk result (IsOpenedAs (string_bytes cfg.nodes) (non_zero_u64_get cfg.items_per_blob)
            (string_bytes cfg.metadata)) }
        // It is pruned at, and has, as many leaves as boundary, nodes and cap allow. Its memory is recovered, a pin
        // before what the log has, and an orphan is the log's. Its log is what is kept up to the complete nodes, from
        // the blob of the boundary's position on, with the nodes of an orphan behind them.
        ensures opens { let map = (V.state vol.old).map (string_bytes cfg.metadata) in
            let old = (V.state vol.old).log (string_bytes cfg.nodes) in
            let new = (V.state vol.new).log (string_bytes cfg.nodes) in
            IfOk result (λ t. V.tells →
            IsOpenedUnder F H.hash D.spelling (D.Read.admits tt) F.shape map old new (cap_of (Some max_leaves)) t) }
        ensures map { let name = string_bytes cfg.metadata in
            OnOk result (V.tells → (V.state vol.new).map name ≡ (V.state vol.old).map name) }
        ensures rests { IfOk result (λ t. Rests F.shape t) }
        ensures seated { IfOk result (λ t. V.tells → IsSeated F.shape t (present (V.state vol.new))) }
        ensures full { let map = (V.state vol.old).map (string_bytes cfg.metadata) in
            let log = (V.state vol.old).log (string_bytes cfg.nodes) in
            IfOk result (λ t. V.tells →
            IsOfEach F.shape H.hash D.spelling (D.Read.admits tt) map log t (present (V.state vol.new))) }
        ensures durable { let state = V.state vol.new in let name = string_bytes cfg.nodes in
            OnOk result (V.tells → OnlyLeft (state.log_left state.clock name) (state.log name)) }
        ensures refused { let map = (V.state vol.old).map (string_bytes cfg.metadata) in
            let log = (V.state vol.old).log (string_bytes cfg.nodes) in
            V.tells → IfErr result
            (NotPrepared D.spelling (D.Read.admits tt) F.shape map log (cap_of (Some max_leaves))) }
        // Of any contents, and of a volume that tells nothing.
        ensures errors { IfErr result IsLifted }
        ensures names { let names = log_and_map (string_bytes cfg.nodes) (string_bytes cfg.metadata) in
            V.tells → NamesCall names (V.state vol.old) (V.state vol.new) }
        ensures images { V.tells → KeepsEach F.shape H.hash D.spelling (D.Read.admits tt) (cap_of (Some max_leaves))
            (string_bytes cfg.nodes) (string_bytes cfg.metadata) (V.state vol.old) (V.state vol.new) }
        ensures changes { Changes V.tells Error.Volume (V.state vol.old) (V.state vol.new) result }
    {
        Merkle::open_under(alloc, vol, hasher, cfg, Some(max_leaves))
    }
}
