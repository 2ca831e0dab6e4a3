//! What has the nodes of a tree: memory alone, or a store beside a volume.
ghost use Rattle.std.specs.Prelude.{◌≡◌, ℕ, ◌<◌, ◌≤◌, ◌^◌, length, map, Option, Some, All, IfOk, IfErr};
ghost use Rattle.volume_base.specs.Volume.{Reads};
ghost use Rattle.volume_base.specs.Moments.{Image, present};
ghost use Rattle.tree_shape.specs.Shape.{made};
ghost use Rattle.tree_store.specs.Stores.{IsReadFault, IsReadRefusal, IsOutside, IsOutsideOr, IsUnread};

use crate::Error;
use std::alloc::Global;
use tree_shape::{Digest, Family, Location, Position};
use volume_base::Volume;

/// What memory has of a tree.
pub trait Readable {
    type Family: Family;

    type Digest: Digest;

    /// The number of leaves.
    ghost leaves: { Self → ℕ };

    /// The node at a position, where memory has it.
    ghost told: { Self → ℕ → Option Self.Digest };

    /// The number of leaves, whatever was pruned.
    fn leaves(&self) -> Location<Self::Family>
        ensures leaves { result ≡ leaves self.now }
        ensures few { leaves self.now ≤ 2 ^ 62 };

    /// The number of nodes, whatever was pruned.
    fn size(&self) -> Position<Self::Family>
        ensures size { result ≡ length (made Self.Family.shape (leaves self.now)) }
        ensures few { leaves self.now ≤ 2 ^ 62 };

    /// The node at a position, where memory has it.
    fn get_node(&self, pos: Position<Self::Family>) -> Option<Self::Digest>
        ensures { result ≡ told self.now pos };
}

/// The nodes that memory has at these positions, in their order. It refuses with `ElementPruned` at the first without
/// one.
pub fn nodes_from_memory<R: Readable>(
    alloc: Global,
    memory: &R,
    positions: &[Position<R::Family>],
) -> Result<Vec<R::Digest>, Error<R::Family>>
    ensures nodes { IfOk result (λ nodes. map Some nodes.items ≡ map (R.told memory.now) positions.now) }
    ensures counted { IfOk result (λ nodes. length nodes.items ≡ length positions.now) }
    ensures unread { IfErr result (IsUnread (R.told memory.now) positions.now) }
{
    let mut nodes = Vec::new(alloc);
    for i in 0..positions.len() {
        let position = positions[i].as_u64();
        match memory.get_node(Position::new(position)) {
            Some(node) => nodes.push(node)?,
            None => return Err(Error::ElementPruned(Position::new(position))),
        }
    }
    Ok(nodes)
}

/// What has the nodes of a tree, where some may stand in a volume.
pub trait Storage<F: Family> {
    type Digest: Digest;

    /// The number of leaves.
    ghost leaves: { Self → ℕ };

    /// Whether it stands for what the volume holds. It says nothing of a volume that doesn't tell its contents.
    ghost held: { Self → Image → Type 0 };

    /// The node at a position, where the store or the volume has it.
    ghost told: { Self → Image → ℕ → Option Self.Digest };

    /// Where its answers take memory.
    fn allocator(&self) -> Global;

    /// The number of leaves, whatever was pruned.
    fn leaves(&self) -> Location<F>
        ensures leaves { result ≡ leaves self.now }
        ensures few { leaves self.now ≤ 2 ^ 62 };

    /// The number of nodes, whatever was pruned.
    fn size(&self) -> Position<F>
        ensures size { result ≡ length (made F.shape (leaves self.now)) }
        ensures few { leaves self.now ≤ 2 ^ 62 };

    /// The node at a position, where there is one. Nothing is promised at or past the size.
    fn get_node<V: Volume>(
        &self,
        vol: &mut V,
        position: Position<F>,
    ) -> Result<Option<Self::Digest>, Error<F>>
        ensures node { let image = present (V.state vol.old) in
            IfOk result (λ node. V.tells → held self.now image → node ≡ told self.now image position) }
        ensures fault { position < length (made F.shape (leaves self.now)) → IfErr result IsReadFault }
        ensures outside { position < length (made F.shape (leaves self.now)) → V.tells →
            held self.now (present (V.state vol.old)) → IfErr result IsOutside }
        ensures reads { Reads V.tells Error.Volume (V.state vol.old) (V.state vol.new) result };

    /// The nodes at these positions, in their order, each read once. It refuses with `ElementPruned` at the first
    /// without one, and with what a read refuses with.
    fn get_nodes<V: Volume>(
        &self,
        vol: &mut V,
        positions: &[Position<F>],
    ) -> Result<Vec<Self::Digest>, Error<F>>
        ensures nodes { let image = present (V.state vol.old) in
            IfOk result (λ nodes. V.tells → held self.now image →
            map Some nodes.items ≡ map (told self.now image) positions.now) }
        ensures counted { IfOk result (λ nodes. length nodes.items ≡ length positions.now) }
        ensures fault { All (λ p. p < length (made F.shape (leaves self.now))) positions.now →
            IfErr result IsReadRefusal }
        ensures outside { let image = present (V.state vol.old) in
            All (λ p. p < length (made F.shape (leaves self.now))) positions.now → V.tells →
            held self.now image → IfErr result (IsOutsideOr (told self.now image) positions.now) }
        ensures reads { Reads V.tells Error.Volume (V.state vol.old) (V.state vol.new) result }
    {
        let mut nodes = Vec::new(self.allocator());
        for i in 0..positions.len() {
            let position = positions[i].as_u64();
            match self.get_node(vol, Position::new(position))? {
                Some(node) => nodes.push(node)?,
                None => return Err(Error::ElementPruned(Position::new(position))),
            }
        }
        Ok(nodes)
    }
}
