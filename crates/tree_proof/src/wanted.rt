//! Which leaves are met, as the walks over a tree ask for it.
ghost use Rattle.std.specs.Prelude.{◌≡◌, ◌≤◌, ◌<◌, ◌+◌, ◌^◌, [], IsTrue};
ghost use Rattle.tree_proof.specs.Cover.{Opened, meets, cover_in};

use tree_shape::width;

/// Leaves that are to be proved, or that are known.
pub trait Wanted {
    /// Whether one of them stands under a node, by its first leaf and height.
    ghost met: { Self → Opened };

    /// What finding them rests on.
    ghost ready: { Self → Type 0 };

    /// Whether one of them stands under a node.
    fn is_met(&self, x: u64, height: u32) -> bool
        requires ready { ready self.now }
        requires low { height < 63 }
        requires room { x + 2 ^ height ≤ 2 ^ 62 }
        ensures { result ≡ met self.now x height };

    /// Whether each leaf under a node is one of them, so that the cover has no node inside it. It may say no of such a node too.
    fn is_whole(&self, _x: u64, _height: u32) -> bool
        requires low { _height < 63 }
        requires room { _x + 2 ^ _height ≤ 2 ^ 62 }
        ensures { IsTrue result → cover_in (met self.now) _x _height ≡ [] }
    {
        false
    }
}

/// The leaves from one on, up to another.
#[derive(Drop)]
pub struct LeafRange {
    pub start: u64,
    pub end: u64,
}

impl Wanted for LeafRange {
    ghost met = { λ r. meets r.start r.end };

    ghost ready = { λ r. Unit {0} };

    fn is_met(&self, x: u64, height: u32) -> bool {
        self.start < x + width(height) && x < self.end
    }

    fn is_whole(&self, x: u64, height: u32) -> bool {
        self.start <= x && x + width(height) <= self.end
    }
}
