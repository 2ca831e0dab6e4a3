//! A tree as a store of nodes.
use crate::Merkle;
use std::alloc::Global;
use tree_core::{Digest, Error, Family, Location, Position, Storage};
use volume_base::Volume;

impl<F: Family, D: Digest> Storage<F> for Merkle<F, D> {
    ghost use Rattle.std.specs.Prelude.{◌≡◌, ◌+◌, ◌<◌, ◌≤◌, length, map, None, Some, All, Ok, IfOk, IfErr};
    ghost use Rattle.std.specs.Result.{IsErrAnd};
    ghost use Rattle.journal_base.specs.Items.{items_of};
    ghost use Rattle.tree_shape.specs.Shape.{made};
    ghost use Rattle.volume_base.specs.Moments.{present};
    ghost use Rattle.volume_base.specs.Volume.{Reads};
    ghost use Rattle.tree_store.specs.Stores.{IsReadFault, IsReadRefusal, IsOutside, IsOutsideOr};
    ghost use Rattle.tree_core.specs.Tree.{node_at};
    ghost use Rattle.merkle_full.specs.Full.{IsHeld, told_at};
    ghost use Rattle.merkle_full.specs.Reading.{IsUnreadAt, IsUnreadAmong, IsPast, IsFirstUnread};

    type Digest = D;

    ghost leaves = { λ t. t.tree.leaves };

    ghost held = { λ t image. IsHeld F.shape D.spelling (D.Read.admits tt) t image };

    ghost told = { λ t image p. told_at (D.Read.reads tt) t image p };

    fn allocator(&self) -> Global {
        *self.metadata.allocator()
    }

    fn leaves(&self) -> Location<F> {
        self.mem.leaves()
    }

    fn size(&self) -> Position<F> {
        self.mem.size()
    }

    fn get_node<V: Volume>(&self, vol: &mut V, position: Position<F>) -> Result<Option<D>, Error<F>>
        ensures node { let image = present (V.state vol.old) in
            IfOk result (λ node. V.tells → IsHeld F.shape D.spelling (D.Read.admits tt) self.now image →
            node ≡ told_at (D.Read.reads tt) self.now image position) }
        // Memory goes first, whatever the volume holds.
        ensures memory { (d : D) → node_at self.now.tree position ≡ Some d →
            (result ≡ Ok (Some d)) × (vol.new ≡ vol.old) }
        ensures below { node_at self.now.tree position ≡ None → position < self.now.log.start →
            (result ≡ Ok None) × (vol.new ≡ vol.old) }
        ensures fault { position < length (made F.shape self.now.tree.leaves) → IfErr result IsReadFault }
        ensures outside { position < length (made F.shape self.now.tree.leaves) → V.tells →
            IsHeld F.shape D.spelling (D.Read.admits tt) self.now (present (V.state vol.old)) →
            IfErr result IsOutside }
        ensures past { length (made F.shape self.now.tree.leaves) ≤ position → V.tells →
            IsHeld F.shape D.spelling (D.Read.admits tt) self.now (present (V.state vol.old)) →
            IsErrAnd result (IsPast position) }
        ensures refused { let items = items_of D.spelling D.Read.admits self.now.log (V.state vol.old) in
            IfErr result (IsUnreadAt V.tells items position) }
        ensures reads { Reads V.tells Error.Volume (V.state vol.old) (V.state vol.new) result }
        ensures count { (V.state vol.new).reads ≤ (V.state vol.old).reads + 1 }
    {
        let node = Merkle::get_node(self, vol, position)?;
        Ok(node)
    }

    fn get_nodes<V: Volume>(
        &self,
        vol: &mut V,
        positions: &[Position<F>],
    ) -> Result<Vec<D>, Error<F>>
        ensures nodes { let image = present (V.state vol.old) in
            IfOk result (λ nodes. V.tells → IsHeld F.shape D.spelling (D.Read.admits tt) self.now image →
            map Some nodes.items ≡ map (told_at (D.Read.reads tt) self.now image) positions.now) }
        ensures counted { IfOk result (λ nodes. length nodes.items ≡ length positions.now) }
        ensures fault { All (λ p. p < length (made F.shape self.now.tree.leaves)) positions.now →
            IfErr result IsReadRefusal }
        ensures outside { let image = present (V.state vol.old) in
            All (λ p. p < length (made F.shape self.now.tree.leaves)) positions.now → V.tells →
            IsHeld F.shape D.spelling (D.Read.admits tt) self.now image →
            IfErr result (IsOutsideOr (told_at (D.Read.reads tt) self.now image) positions.now) }
        ensures first { let image = present (V.state vol.old) in
            let told = told_at (D.Read.reads tt) self.now image in
            V.tells → IsHeld F.shape D.spelling (D.Read.admits tt) self.now image →
            IfErr result (IsFirstUnread told (length (made F.shape self.now.tree.leaves)) positions.now) }
        ensures refused { let items = items_of D.spelling D.Read.admits self.now.log (V.state vol.old) in
            IfErr result (IsUnreadAmong V.tells items positions.now) }
        ensures reads { Reads V.tells Error.Volume (V.state vol.old) (V.state vol.new) result }
        ensures count { (V.state vol.new).reads ≤ (V.state vol.old).reads + length positions.now }
    {
        let nodes = Merkle::get_nodes(self, vol, positions)?;
        Ok(nodes)
    }
}
