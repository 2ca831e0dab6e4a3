ghost use Rattle.std.specs.Prelude.{◌≡◌, ℕ, ◌+◌, ◌*◌, ◌≤◌, ◌<◌, ◌^◌, length, slice_get, slice_index_or, IfSome, IfNone};
ghost use Rattle.tree_shape.specs.Shape.{Shape, IsLawful, made, inactive};
ghost use Rattle.tree_shape.specs.Kept.{KeepsPeaks};
ghost use Rattle.tree_shape.specs.Pins.{pins};
ghost use Rattle.tree_shape.specs.Sizes.{IsNearest, HasSize};

use crate::inactive::inactive_of;
use crate::sizes::leaves_within;
use crate::{Location, Pins, Position};

/// Which nodes a tree of n leaves has, and where they stand.
pub trait Family: Drop {
    /// The peaks, the nodes in the order of making, and their positions.
    ghost shape: { Shape };

    /// The position of the node of height `height` over the leaves from `start` on.
    fn position(start: u64, height: u32) -> u64
        requires { start + 2 ^ height ≤ 2 ^ 62 }
        ensures { result ≡ shape.position start height };

    /// The i-th node that the append of leaf n makes behind the leaf: its first leaf and its height.
    fn parent(n: u64, i: u32) -> Option<(u64, u32)>
        requires { n < 2 ^ 62 }
        ensures value { result ≡ slice_get (shape.parents n) i }
        ensures low { IfSome result (λ p. (i < 63) × (0 < p.1) × (p.1 < 63)) };

    /// The number of nodes of n leaves.
    fn size(n: u64) -> u64
        requires { n ≤ 2 ^ 62 }
        ensures { result ≡ length (made shape n) };

    /// The number of peaks of n leaves.
    fn peak_count(n: u64) -> u32
        requires { n ≤ 2 ^ 62 }
        ensures { result ≡ length (shape.heights n) };

    /// The height of the i-th newest peak of n leaves.
    fn peak_height(n: u64, i: u32) -> u32
        requires few { n ≤ 2 ^ 62 }
        requires within { i < length (shape.heights n) }
        ensures { result ≡ slice_index_or (shape.heights n) i 0 };

    /// The peaks cover the leaves, and each node stands at its position, behind its children.
    ghost lawful: { IsLawful shape };

    /// An append reads peaks, and what it makes.
    ghost keeps: { KeepsPeaks shape };

    /// A tree has at most twice as many nodes as leaves.
    ghost small: { (n : ℕ) → length (made shape n) ≤ 2 * n };

    /// A tree has at most 64 peaks.
    ghost few_peaks: { (n : ℕ) → n ≤ 2 ^ 62 → length (shape.heights n) ≤ 64 };

    /// The number of nodes of a number of leaves, which is the position of the next leaf.
    final fn location_to_position(loc: Location<Self>) -> Position<Self>
        requires { loc ≤ 2 ^ 62 }
        ensures { result ≡ length (made shape loc) }
    {
        Position::new(Self::size(loc.as_u64()))
    }

    /// The positions of the peaks of a number of leaves, the oldest first.
    final fn nodes_to_pin(loc: Location<Self>) -> Pins<Self>
        requires { loc ≤ 2 ^ 62 }
        ensures { result ≡ pins shape loc }
    {
        Pins::new(loc.as_u64())
    }

    /// The greatest number of nodes of at most `MAX_LEAVES` leaves that is at most `pos`.
    final fn to_nearest_size(pos: Position<Self>) -> Position<Self>
        ensures { IsNearest shape pos result }
    {
        Position::new(Self::size(leaves_within::<Self>(pos.as_u64())))
    }

    /// The number of leaves that have this many nodes, at most `MAX_LEAVES`.
    final fn leaves_at(size: Position<Self>) -> Option<Location<Self>>
        ensures found { IfSome result (λ n. HasSize shape n size) }
        ensures none { IfNone result ((n : ℕ) → HasSize shape n size → ⊥) }
    {
        let leaves = leaves_within::<Self>(size.as_u64());
        if Self::size(leaves) == size.as_u64() {
            Some(Location::new(leaves))
        } else {
            None
        }
    }

    /// How many leading peaks of n leaves end at or below the floor.
    final fn inactive_peaks(n: Location<Self>, floor: Location<Self>) -> u64
        requires { n ≤ 2 ^ 62 }
        ensures { result ≡ inactive shape n floor }
    {
        inactive_of::<Self>(n.as_u64(), floor.as_u64())
    }
}
