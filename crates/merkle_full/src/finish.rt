//! A tree that stands ready is opened.
use crate::settle::settled;
use crate::{Merkle, Recovery};
use tree_core::{Digest, Error, Family};
use volume_base::Volume;

impl<F: Family, D: Digest> Recovery<F, D> {
    ghost use Rattle.std.specs.Prelude.{◌≡◌, ◌≤◌, ◌^◌, ℕ, false, length, List, take, IfOk, IfErr, OnOk};
    ghost use Rattle.journal_base.specs.View.{IsDurable};
    ghost use Rattle.tree_shape.specs.Hashing.{Hashing};
    ghost use Rattle.tree_store.specs.Stored.{TreeStands, size};
    ghost use Rattle.tree_store.specs.Stores.{IsOutside};
    ghost use Rattle.tree_core.specs.Tree.{IsOf, IsRested};
    ghost use Rattle.volume_base.specs.Moments.{present, PairHas, PairKeeps};
    ghost use Rattle.volume_base.specs.Names.{log_and_map, NamesCall};
    ghost use Rattle.volume_base.specs.Volume.{Writes};
    ghost use Rattle.merkle_full.specs.Flushing.{IsFilled};
    ghost use Rattle.merkle_full.specs.Full.{Rests, IsSeated};
    ghost use Rattle.merkle_full.specs.Lifted.{IsLifted};
    ghost use Rattle.merkle_full.specs.Lists.{AreDigests, IsFullOf};
    ghost use Rattle.merkle_full.specs.Preparing.{settled_log, IsPreparedIn, IsOpenedFrom};

    /// The tree beside the settled log. Its memory may be ahead of the log by an orphan's nodes.
    fn settle<V: Volume>(self, vol: &mut V) -> Result<Merkle<F, D>, Error<F>>
        ensures from { IfOk result (λ t. IsOpenedFrom self t) }
        ensures tree { IfOk result (λ t. t.tree ≡ self.tree) }
        ensures ends { IfOk result (λ t. V.tells → IsPreparedIn self (V.state vol.old) →
            t.log.end ≡ size F.shape self.complete) }
        ensures log { let log = (V.state vol.old).log self.log.name in
            OnOk result (V.tells → IsPreparedIn self (V.state vol.old) → (V.state vol.new).log self.log.name
            ≡ settled_log F.shape self.log.blob self.boundary self.complete log) }
        ensures map { OnOk result (V.tells → IsPreparedIn self (V.state vol.old) →
            (V.state vol.new).map self.metadata ≡ self.read) }
        ensures seated { IfOk result (λ t. V.tells → IsPreparedIn self (V.state vol.old) →
            IsSeated F.shape t (present (V.state vol.new))) }
        ensures full { IfOk result (λ t. V.tells → (h : Hashing D) (all : List D) (durable top : ℕ) →
            IsPreparedIn self (V.state vol.old) →
            TreeStands F.shape h D.spelling all durable top ((V.state vol.old).log self.log.name) self.read →
            length all ≤ 2 ^ 62 → AreDigests F.shape h (D.Read.admits tt) all →
            IsOf F.shape h (take self.tree.leaves all) self.tree →
            IsFullOf F.shape h D.spelling (D.Read.admits tt) (take self.tree.leaves all) t
            (present (V.state vol.new))) }
        ensures outside { V.tells → IsPreparedIn self (V.state vol.old) → IfErr result IsOutside }
        ensures names { V.tells → NamesCall (log_and_map self.log.name self.metadata) (V.state vol.old)
            (V.state vol.new) }
        ensures images { V.tells → (h : Hashing D) (all : List D) (durable top : ℕ) →
            IsPreparedIn self (V.state vol.old) →
            length all ≤ 2 ^ 62 → durable ≤ self.complete →
            PairHas (V.state vol.old) self.log.name self.metadata (TreeStands F.shape h D.spelling all durable top) →
            PairKeeps self.log.name self.metadata (TreeStands F.shape h D.spelling all durable top)
            (V.state vol.old) (V.state vol.new) }
        // Of any contents, and of a volume that tells nothing.
        ensures errors { IfErr result IsLifted }
        ensures failed { IfOk result (λ t. t.log.failed ≡ false) }
        ensures writes { Writes V.tells Error.Volume (V.state vol.old) (V.state vol.new) result }
    {
        let nodes = settled(
            vol,
            self.nodes,
            &self.read,
            self.metadata.as_str(),
            self.items_per_blob,
            self.boundary,
            self.complete,
        )?;
        // Its leaves tell that memory is sound.
        let _leaves = self.mem.leaves();
        Ok(Merkle {
            mem: self.mem,
            nodes,
            metadata: self.metadata,
            boundary: self.pruned,
        })
    }

    /// Cuts the node log to the complete nodes, takes the whole blobs below the boundary away, after the map was put
    /// back where that moves the log's start, and opens the tree: an orphan's nodes are appended, and the log is
    /// durable.
    pub fn finish<V: Volume>(self, vol: &mut V) -> Result<Merkle<F, D>, Error<F>>
        ensures from { IfOk result (λ t. IsOpenedFrom self t) }
        ensures rests { IfOk result (λ t. Rests F.shape t) }
        // Of any contents, memory is at rest; the log is what was cut, with memory's further nodes; and the map is as
        // it was read.
        ensures rested { IfOk result (λ t. IsRested F.shape self.pruned self.tree t.tree) }
        ensures log { let log = (V.state vol.old).log self.log.name in
            let settled = settled_log F.shape self.log.blob self.boundary self.complete log in
            OnOk result (V.tells → IsPreparedIn self (V.state vol.old) → IsFilled F.shape D.spelling self.tree
            (size F.shape self.complete) settled ((V.state vol.new).log self.log.name)) }
        ensures map { OnOk result (V.tells → IsPreparedIn self (V.state vol.old) →
            (V.state vol.new).map self.metadata ≡ self.read) }
        // The contents are those of the tree's log and map.
        ensures seated { IfOk result (λ t. V.tells → IsPreparedIn self (V.state vol.old) →
            IsSeated F.shape t (present (V.state vol.new))) }
        // For each list that they stood for, the tree is held, and is that of its first leaves.
        ensures full { IfOk result (λ t. V.tells → (h : Hashing D) (all : List D) (durable top : ℕ) →
            IsPreparedIn self (V.state vol.old) →
            TreeStands F.shape h D.spelling all durable top ((V.state vol.old).log self.log.name) self.read →
            length all ≤ 2 ^ 62 → AreDigests F.shape h (D.Read.admits tt) all →
            IsOf F.shape h (take self.tree.leaves all) self.tree →
            IsFullOf F.shape h D.spelling (D.Read.admits tt) (take self.tree.leaves all) t
            (present (V.state vol.new))) }
        // Of any contents, and of a volume that tells nothing.
        ensures errors { IfErr result IsLifted }
        ensures fresh { IfOk result (λ t. t.log.failed ≡ false) }
        ensures durable { OnOk result (V.tells → IsDurable self.log (V.state vol.new)) }
        ensures outside { V.tells → IsPreparedIn self (V.state vol.old) → IfErr result IsOutside }
        ensures names { V.tells → NamesCall (log_and_map self.log.name self.metadata) (V.state vol.old)
            (V.state vol.new) }
        // Where no more leaves are durable than are complete, each image goes on standing for the list.
        ensures images { V.tells → (h : Hashing D) (all : List D) (durable top : ℕ) →
            IsPreparedIn self (V.state vol.old) →
            length all ≤ 2 ^ 62 → AreDigests F.shape h (D.Read.admits tt) all →
            IsOf F.shape h (take self.tree.leaves all) self.tree →
            durable ≤ self.complete →
            PairHas (V.state vol.old) self.log.name self.metadata (TreeStands F.shape h D.spelling all durable top) →
            PairKeeps self.log.name self.metadata (TreeStands F.shape h D.spelling all durable top)
            (V.state vol.old) (V.state vol.new) }
        ensures writes { Writes V.tells Error.Volume (V.state vol.old) (V.state vol.new) result }
    {
        let settled = self.settle(vol)?;
        let opened = settled.sync(vol)?;
        Ok(opened)
    }
}
