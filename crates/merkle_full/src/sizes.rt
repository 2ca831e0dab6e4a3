//! Which numbers of leaves have the nodes that a log holds.
ghost use Rattle.std.specs.Prelude.{◌≡◌, ◌≤◌, ◌^◌, length};
ghost use Rattle.tree_shape.specs.Shape.{made};
ghost use Rattle.merkle_full.specs.Opening.{IsMost, IsLeast};

use tree_core::{Family, Position};

/// The most leaves whose nodes end at or below a position.
fn leaves_below<F: Family>(position: u64) -> u64
    ensures { IsMost F.shape (2 ^ 62) position result }
{
    match F::leaves_at(F::to_nearest_size(Position::new(position))) {
        Some(leaves) => leaves.as_u64(),
        None => unreachable!(),
    }
}

/// The most leaves, of at most `cap`, whose nodes end at or below `end`.
pub(crate) fn most_leaves<F: Family>(cap: u64, end: u64) -> u64
    requires { cap ≤ 2 ^ 62 }
    ensures { IsMost F.shape cap end result }
{
    leaves_below::<F>(end.min(F::size(cap)))
}

/// The least leaves whose nodes end at or past `start`, where those of `cap` leaves do.
pub(crate) fn least_leaves<F: Family>(start: u64, cap: u64) -> u64
    requires few { cap ≤ 2 ^ 62 }
    requires within { start ≤ length (made F.shape cap) }
    ensures least { IsLeast F.shape start result }
    ensures low { result ≤ cap }
{
    let below = leaves_below::<F>(start);
    if F::size(below) == start {
        below
    } else {
        below + 1
    }
}
