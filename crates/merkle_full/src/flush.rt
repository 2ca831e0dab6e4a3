//! A flush: the nodes that the log lacks go to it, and memory comes to rest.
use crate::Merkle;
use crate::tail::{nodes_before, tail_from};
use journal_base::{Contiguous, append_all};
use tree_core::{Digest, Error, Family, Location};
use volume_base::Volume;

impl<F: Family, D: Digest> Merkle<F, D> {
    ghost use Rattle.std.specs.Prelude.{◌++◌, ◌≡◌, ℕ, List, length, IsOk, IfOk, IfErr, OnOk};
    ghost use Rattle.tree_shape.specs.Hashing.{Hashing};
    ghost use Rattle.tree_shape.specs.Shape.{made};
    ghost use Rattle.tree_core.specs.Tree.{IsRested};
    ghost use Rattle.tree_store.specs.Stores.{IsOutside};
    ghost use Rattle.tree_store.specs.declared.error.Error.{Error};
    ghost use Rattle.volume_base.specs.Moments.{present};
    ghost use Rattle.volume_base.specs.Names.{log_alone, NamesCall};
    ghost use Rattle.volume_base.specs.Volume.{Writes};
    ghost use Rattle.merkle_full.specs.Flushing.{IsSameTree, IsFilled, AllStand, AllKeepStanding, IsOfFlush};
    ghost use Rattle.merkle_full.specs.Full.{Rests, IsSeated};
    ghost use Rattle.merkle_full.specs.Lists.{IsFullOf};

    /// Appends the nodes that the log lacks. Memory then keeps the peaks of the leaves and of the boundary. A held tree
    /// is refused by the outside alone: with `Volume`, or for want of memory.
    pub fn flush<V: Volume>(self, vol: &mut V) -> Result<Self, Error<F>>
        // A log that lacks no node isn't written.
        ensures idle { self.log.end ≡ length (made F.shape self.tree.leaves) → IsOk result × (vol.new ≡ vol.old) }
        ensures same { IfOk result (λ t. IsSameTree self t) }
        ensures rests { IfOk result (λ t. Rests F.shape t) }
        ensures rested { IfOk result (λ t. IsRested F.shape self.boundary self.tree t.tree) }
        // Of any tree, whatever the volume holds: behind what the log had stand the nodes of memory.
        ensures filled { let name = self.log.name in OnOk result (V.tells →
            IsFilled F.shape D.spelling self.tree self.log.end ((V.state vol.old).log name)
            ((V.state vol.new).log name)) }
        ensures start { IfOk result (λ t. V.tells → (h : Hashing D) (all : List D) →
            IsFullOf F.shape h D.spelling (D.Read.admits tt) all self (present (V.state vol.old)) →
            t.log.start ≡ self.log.start) }
        ensures full { IfOk result (λ t. V.tells → (h : Hashing D) (all : List D) →
            IsFullOf F.shape h D.spelling (D.Read.admits tt) all self (present (V.state vol.old)) →
            IsFullOf F.shape h D.spelling (D.Read.admits tt) all t (present (V.state vol.new))) }
        // Of any tree, whatever the volume holds.
        ensures errors { IfErr result (IsOfFlush F.shape self) }
        ensures outside { V.tells → (h : Hashing D) (all : List D) →
            IsFullOf F.shape h D.spelling (D.Read.admits tt) all self (present (V.state vol.old)) →
            IfErr result IsOutside }
        // So it is wherever the log has its bounds; and then it has them afterwards.
        ensures bounded { V.tells → IsSeated F.shape self (present (V.state vol.old)) → IfErr result IsOutside }
        ensures seated { IfOk result (λ t. V.tells → IsSeated F.shape self (present (V.state vol.old)) →
            IsSeated F.shape t (present (V.state vol.new))) }
        // Every other log and every map stays, and so does what a crash leaves of it.
        ensures names { V.tells → NamesCall (log_alone self.log.name) (V.state vol.old) (V.state vol.new) }
        ensures images { V.tells → (h : Hashing D) (all : List D) (durable top : ℕ) →
            IsFullOf F.shape h D.spelling (D.Read.admits tt) all self (present (V.state vol.old)) →
            AllStand F.shape h D.spelling all durable top self (V.state vol.old) →
            AllKeepStanding F.shape h D.spelling all durable top self (V.state vol.old) (V.state vol.new) }
        // So it is of a longer list, whose first leaves the tree has.
        ensures ahead { V.tells → (h : Hashing D) (all more : List D) (durable top : ℕ) →
            IsFullOf F.shape h D.spelling (D.Read.admits tt) all self (present (V.state vol.old)) →
            AllStand F.shape h D.spelling (all ++ more) durable top self (V.state vol.old) →
            AllKeepStanding F.shape h D.spelling (all ++ more) durable top self (V.state vol.old) (V.state vol.new) }
        ensures writes { Writes V.tells Error.Volume (V.state vol.old) (V.state vol.new) result }
    {
        let (_, end) = self.nodes.bounds();
        let mut mem = self.mem;
        let read = nodes_before(*self.metadata.allocator(), &mem, end)?;
        let tail = tail_from(&mem, &read, end);
        let nodes = append_all(self.nodes, vol, tail)?;
        mem.rest(Location::new(self.boundary));
        Ok(Merkle {
            mem,
            nodes,
            metadata: self.metadata,
            boundary: self.boundary,
        })
    }
}
