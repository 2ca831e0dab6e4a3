//! Where the peaks of a number of leaves stand.
ghost use Rattle.std.specs.Prelude.{◌≡◌, ◌≤◌, ◌^◌, IfOk};
ghost use Rattle.tree_shape.specs.Pins.{pins};

use std::alloc::{AllocError, Global};
use tree_core::{Family, Location, Position};

/// The positions of the peaks of a number of leaves, the oldest first.
pub(crate) fn pin_positions<F: Family>(
    alloc: Global,
    leaves: u64,
) -> Result<Vec<Position<F>>, AllocError>
    requires { leaves ≤ 2 ^ 62 }
    ensures { IfOk result (λ positions. positions.items ≡ pins F.shape leaves) }
{
    let mut positions = Vec::new(alloc);
    for position in F::nodes_to_pin(Location::new(leaves)) {
        positions.push(position)?;
    }
    Ok(positions)
}
