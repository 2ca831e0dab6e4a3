//! Nodes read from memory, or else from the log.
use crate::Merkle;
use crate::pins::pin_positions;
use journal_base::Contiguous;
use tree_core::{Digest, Error, Family, Location, MAX_LEAVES, Position};
use volume_base::Volume;

impl<F: Family, D: Digest> Merkle<F, D> {
    ghost use Rattle.std.specs.Prelude.{◌≡◌, ◌+◌, ◌<◌, ◌≤◌, List, length, map, None, Some, IsSomeAnd, Ok, Err, IfOk, IfErr, OnOk};
    ghost use Rattle.std.specs.Result.{IsErrAnd};
    ghost use Rattle.journal_base.specs.Items.{items_of, Holds};
    ghost use Rattle.tree_shape.specs.Hashing.{Hashing};
    ghost use Rattle.tree_shape.specs.Pins.{pins};
    ghost use Rattle.tree_shape.specs.Shape.{made, peaks};
    ghost use Rattle.tree_shape.specs.Slow.{node_of};
    ghost use Rattle.volume_base.specs.Moments.{present};
    ghost use Rattle.volume_base.specs.Volume.{Reads};
    ghost use Rattle.tree_store.specs.Stores.{IsReadFault, IsReadRefusal, IsOutside, IsOutsideOr};
    ghost use Rattle.tree_store.specs.declared.error.Error.{Error};
    ghost use Rattle.tree_core.specs.Tree.{node_at};
    ghost use Rattle.merkle_full.specs.Full.{IsHeld, told_at};
    ghost use Rattle.merkle_full.specs.Lists.{IsFullOf, IsNodeOf};
    ghost use Rattle.merkle_full.specs.Reading.{IsUnreadAt, IsUnreadAmong, IsPast, IsFirstUnread, peaks_answer};

    /// The node at a position, from memory or else from the log: none where it stands below the log's start and isn't
    /// in memory. It refuses a position at or past the size with `Journal(ItemOutOfRange)`. It reads the log at most
    /// once.
    pub fn get_node<V: Volume>(
        &self,
        vol: &mut V,
        position: Position<F>,
    ) -> Result<Option<D>, Error<F>>
        ensures node { let image = present (V.state vol.old) in
            IfOk result (λ node. V.tells → IsHeld F.shape D.spelling (D.Read.admits tt) self.now image →
            node ≡ told_at (D.Read.reads tt) self.now image position) }
        // Each peak of the boundary, and each node from its position on, is there.
        ensures list { let image = present (V.state vol.old) in
            IfOk result (λ node. V.tells → (h : Hashing D) (all : List D) →
            IsFullOf F.shape h D.spelling (D.Read.admits tt) all self.now image →
            position < length (made F.shape self.now.tree.leaves) →
            IsNodeOf F.shape h all self.now.boundary position node) }
        // Memory goes first, whatever the volume holds.
        ensures memory { (d : D) → node_at self.now.tree position ≡ Some d →
            (result ≡ Ok (Some d)) × (vol.new ≡ vol.old) }
        ensures below { node_at self.now.tree position ≡ None → position < self.now.log.start →
            (result ≡ Ok None) × (vol.new ≡ vol.old) }
        // Else it is what the log has there, whatever else the volume holds.
        ensures logged { let items = items_of D.spelling D.Read.admits self.now.log (V.state vol.old) in
            IfOk result (λ node. V.tells → node_at self.now.tree position ≡ None → self.now.log.start ≤ position →
            IsSomeAnd node (Holds items position)) }
        ensures past { length (made F.shape self.now.tree.leaves) ≤ position → V.tells →
            IsHeld F.shape D.spelling (D.Read.admits tt) self.now (present (V.state vol.old)) →
            IsErrAnd result (IsPast position) }
        ensures outside { position < length (made F.shape self.now.tree.leaves) → V.tells →
            IsHeld F.shape D.spelling (D.Read.admits tt) self.now (present (V.state vol.old)) →
            IfErr result IsOutside }
        ensures refused { let items = items_of D.spelling D.Read.admits self.now.log (V.state vol.old) in
            IfErr result (IsUnreadAt V.tells items position) }
        ensures fault { IfErr result IsReadFault }
        ensures reads { Reads V.tells Error.Volume (V.state vol.old) (V.state vol.new) result }
        ensures count { (V.state vol.new).reads ≤ (V.state vol.old).reads + 1 }
    {
        let place = position.as_u64();
        if let Some(node) = self.mem.get_node(Position::new(place)) {
            return Ok(Some(node));
        }
        let (start, _) = self.nodes.bounds();
        if place < start {
            return Ok(None);
        }
        let node = self.nodes.read(vol, place)?;
        Ok(Some(node))
    }

    /// The nodes at these positions, in their order. It refuses the first without one: with `ElementPruned`, or, where
    /// it stands at or past the size, with `Journal(ItemOutOfRange)`. It reads the log at most once for each.
    pub fn get_nodes<V: Volume>(
        &self,
        vol: &mut V,
        positions: &[Position<F>],
    ) -> Result<Vec<D>, Error<F>>
        ensures nodes { let image = present (V.state vol.old) in
            IfOk result (λ nodes. V.tells → IsHeld F.shape D.spelling (D.Read.admits tt) self.now image →
            map Some nodes.items ≡ map (told_at (D.Read.reads tt) self.now image) positions.now) }
        ensures counted { IfOk result (λ nodes. length nodes.items ≡ length positions.now) }
        ensures first { let image = present (V.state vol.old) in
            let told = told_at (D.Read.reads tt) self.now image in
            V.tells → IsHeld F.shape D.spelling (D.Read.admits tt) self.now image →
            IfErr result (IsFirstUnread told (length (made F.shape self.now.tree.leaves)) positions.now) }
        ensures refused { let items = items_of D.spelling D.Read.admits self.now.log (V.state vol.old) in
            IfErr result (IsUnreadAmong V.tells items positions.now) }
        ensures fault { IfErr result IsReadRefusal }
        ensures reads { Reads V.tells Error.Volume (V.state vol.old) (V.state vol.new) result }
        ensures count { (V.state vol.new).reads ≤ (V.state vol.old).reads + length positions.now }
    {
        // Its leaves tell that memory is sound.
        let _leaves = self.mem.leaves();
        let mut nodes = Vec::new(*self.metadata.allocator());
        for i in 0..positions.len() {
            let position = positions[i].as_u64();
            match self.get_node(vol, Position::new(position))? {
                Some(node) => nodes.push(node)?,
                None => return Err(Error::ElementPruned(Position::new(position))),
            }
        }
        Ok(nodes)
    }

    /// The peaks of a number of leaves, which stand at these positions.
    pub(crate) fn peaks_at<V: Volume>(
        &self,
        vol: &mut V,
        leaves: u64,
        positions: &[Position<F>],
    ) -> Result<Vec<D>, Error<F>>
        requires { positions.now ≡ pins F.shape leaves }
        ensures nodes { IfOk result (λ nodes. V.tells → (h : Hashing D) (all : List D) →
            IsFullOf F.shape h D.spelling (D.Read.admits tt) all self.now (present (V.state vol.old)) →
            leaves ≤ length all → nodes.items ≡ map (node_of F.shape h all) (peaks F.shape leaves)) }
        ensures told { let image = present (V.state vol.old) in
            IfOk result (λ nodes. V.tells → IsHeld F.shape D.spelling (D.Read.admits tt) self.now image →
            map Some nodes.items ≡ map (told_at (D.Read.reads tt) self.now image) positions.now) }
        ensures counted { IfOk result (λ nodes. length nodes.items ≡ length positions.now) }
        // Those from the boundary on are there.
        ensures outside { V.tells → (h : Hashing D) (all : List D) →
            IsFullOf F.shape h D.spelling (D.Read.admits tt) all self.now (present (V.state vol.old)) →
            self.now.boundary ≤ leaves → leaves ≤ length all → IfErr result IsOutside }
        ensures first { let image = present (V.state vol.old) in
            leaves ≤ self.now.tree.leaves → V.tells → IsHeld F.shape D.spelling (D.Read.admits tt) self.now image →
            IfErr result (IsOutsideOr (told_at (D.Read.reads tt) self.now image) positions.now) }
        ensures refused { let items = items_of D.spelling D.Read.admits self.now.log (V.state vol.old) in
            IfErr result (IsUnreadAmong V.tells items positions.now) }
        ensures reads { Reads V.tells Error.Volume (V.state vol.old) (V.state vol.new) result }
        ensures count { (V.state vol.new).reads ≤ (V.state vol.old).reads + length positions.now }
    {
        // Its leaves tell that memory is sound.
        let _leaves = self.mem.leaves();
        let nodes = self.get_nodes(vol, positions)?;
        Ok(nodes)
    }

    /// The peaks of a number of leaves, the oldest first. It refuses, in this order: `LocationOverflow` above
    /// `MAX_LEAVES`, `RangeOutOfBounds` past the leaves, and `ElementPruned` the first peak that isn't there. It reads
    /// the log at most once for each peak.
    pub fn pinned_nodes_at<V: Volume>(
        &self,
        vol: &mut V,
        loc: Location<F>,
    ) -> Result<Vec<D>, Error<F>>
        ensures answer { (e : Error F) → peaks_answer self.now.tree.leaves loc ≡ Err e →
            (result ≡ Err e) × (vol.new ≡ vol.old) }
        ensures within { OnOk result (peaks_answer {F = F} self.now.tree.leaves loc ≡ Ok tt) }
        ensures nodes { IfOk result (λ nodes. V.tells → (h : Hashing D) (all : List D) →
            IsFullOf F.shape h D.spelling (D.Read.admits tt) all self.now (present (V.state vol.old)) →
            nodes.items ≡ map (node_of F.shape h all) (peaks F.shape loc)) }
        ensures told { let image = present (V.state vol.old) in
            IfOk result (λ nodes. V.tells → IsHeld F.shape D.spelling (D.Read.admits tt) self.now image →
            map Some nodes.items ≡ map (told_at (D.Read.reads tt) self.now image) (pins F.shape loc)) }
        ensures counted { IfOk result (λ nodes. length nodes.items ≡ length (pins F.shape loc)) }
        // Those from the boundary on are there.
        ensures kept { self.now.boundary ≤ loc → peaks_answer {F = F} self.now.tree.leaves loc ≡ Ok tt →
            V.tells → (h : Hashing D) (all : List D) →
            IsFullOf F.shape h D.spelling (D.Read.admits tt) all self.now (present (V.state vol.old)) →
            IfErr result IsOutside }
        ensures first { let image = present (V.state vol.old) in
            peaks_answer {F = F} self.now.tree.leaves loc ≡ Ok tt → V.tells →
            IsHeld F.shape D.spelling (D.Read.admits tt) self.now image →
            IfErr result (IsOutsideOr (told_at (D.Read.reads tt) self.now image) (pins F.shape loc)) }
        ensures refused { let items = items_of D.spelling D.Read.admits self.now.log (V.state vol.old) in
            peaks_answer {F = F} self.now.tree.leaves loc ≡ Ok tt →
            IfErr result (IsUnreadAmong V.tells items (pins F.shape loc)) }
        ensures reads { Reads V.tells Error.Volume (V.state vol.old) (V.state vol.new) result }
        ensures count { (V.state vol.new).reads ≤ (V.state vol.old).reads + length (pins F.shape loc) }
    {
        let leaves = loc.as_u64();
        if leaves > MAX_LEAVES {
            return Err(Error::LocationOverflow(Location::new(leaves)));
        }
        if leaves > self.mem.leaves().as_u64() {
            return Err(Error::RangeOutOfBounds(Location::new(leaves)));
        }
        let positions = pin_positions::<F>(*self.metadata.allocator(), leaves)?;
        let nodes = self.peaks_at(vol, leaves, &positions)?;
        Ok(nodes)
    }
}
